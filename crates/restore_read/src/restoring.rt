//! The pairs of a container at a version.

ghost use Rattle.std.specs.Prelude.{◌≡◌, ◌+◌, ◌≤◌, List, Some, None, Ok, IfOk, IfErr, IsErrOf};
ghost use Rattle.fb_bytes.specs.Bytes.{Bytes};
ghost use Rattle.fb_bytes.specs.Pairs.{AreRising, value_of};
ghost use Rattle.fb_outside.specs.Faults.{Counts};
ghost use Rattle.fb_outside.specs.declared.File.{File};
ghost use Rattle.container_view.specs.Files.{inside};
ghost use Rattle.container_view.specs.Sets.{Fails};
ghost use Rattle.restore_apply.specs.Overlaps.{first_overlap};
ghost use Rattle.restore_read.specs.Meanings.{Loads};
ghost use Rattle.restore_read.specs.Reading as spec;

use crate::links::get_links;
use crate::ranges::get_ranges;
use container_view::{ViewFault, restore_set};
use fb_bytes::{Pairs, Text};
use fb_outside::Vault;
use restore_apply::{Loaded, pairs_at};
use std::alloc::Global;

/// The pairs that a container has at a version, or the first fault. The container's files are read in
/// order: its set, the manifest's range files, which mustn't overlap, and the chain's log files. Each is
/// got once.
pub fn restore<V: Vault>(
    alloc: Global,
    vault: &mut V,
    container: &Text,
    version: u64,
) -> Result<Pairs, ViewFault>
    ensures ok { IfOk result (λ pairs. (files : List File) → V.files vault.old ≡ Some files
        → Loads container.now files version (value_of pairs)) }
    ensures rising { IfOk result AreRising }
    ensures err { IfErr result (λ fault. (files : List File) → V.files vault.old ≡ Some files
        → Fails fault (spec.loaded_of (inside container.now files) version)) }
    ensures same { V.files vault.new ≡ V.files vault.old }
    ensures count { Counts (V.faults vault.old) (V.faults vault.new)
        (IsErrOf result ViewFault.VaultFault) }
    ensures called { (files : List File) → V.files vault.old ≡ Some files →
        V.calls vault.new ≤ V.calls vault.old + spec.most_calls container.now files version }
{
    let set = load(alloc, vault, container, version)?;
    let pairs = pairs_at(alloc, &set, version)?;
    let _rising = pairs.as_slice();
    Ok(pairs)
}

// What is loaded for a version.
fn load<V: Vault>(
    alloc: Global,
    vault: &mut V,
    container: &Text,
    version: u64,
) -> Result<Loaded, ViewFault>
    ensures ok { IfOk result (λ set. (files : List File) → V.files vault.old ≡ Some files
        → spec.loaded_of (inside container.now files) version ≡ Ok set) }
    ensures apart { IfOk result (λ set. first_overlap set.files ≡ None) }
    ensures err { IfErr result (λ fault. (files : List File) → V.files vault.old ≡ Some files
        → Fails fault (spec.loaded_of (inside container.now files) version)) }
    ensures same { V.files vault.new ≡ V.files vault.old }
    ensures count { Counts (V.faults vault.old) (V.faults vault.new)
        (IsErrOf result ViewFault.VaultFault) }
    ensures called { (files : List File) → V.files vault.old ≡ Some files →
        V.calls vault.new ≤ V.calls vault.old + spec.most_calls container.now files version }
{
    let set = restore_set(alloc, vault, container, version)?;
    let files = match get_ranges(alloc, vault, container, &set.ranges) {
        Ok(files) => files,
        Err(fault) => return Err(fault),
    };
    let links = match get_links(alloc, vault, container, &set.links) {
        Ok(links) => links,
        Err(fault) => return Err(fault),
    };
    Ok(Loaded { files, links })
}
