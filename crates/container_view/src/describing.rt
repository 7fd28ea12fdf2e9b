//! What a container has, by the names of its files and its properties alone.

ghost use Rattle.std.specs.Prelude.{◌≡◌, ◌+◌, ◌≤◌, List, Some, Ok, option_map, map, unwrap_or, IfOk, IfErr, IsErrOf};
ghost use Rattle.container_view.specs.Description as spec;
ghost use Rattle.container_view.specs.Files.{inside};
ghost use Rattle.container_view.specs.Sets.{Fails};
ghost use Rattle.container_view.specs.inner.Listed.{IsRisingBy, reach_in, size_of, sizes_of};
ghost use Rattle.container_view.specs.inner.Names.{snapshot_with};
ghost use Rattle.fb_outside.specs.Faults.{Counts};
ghost use Rattle.fb_outside.specs.declared.File.{File};

use crate::logs::{Run, reached, runs};
use crate::sorting::{NamedManifest, SortedNames, sorted_names};
use crate::versions::{given, sorted_bounds};
use crate::{Bounds, ViewFault, get_property, list_names};
use fb_bytes::{Names, Seq, Text};
use fb_outside::Vault;
use std::alloc::{AllocError, Global};

/// A snapshot of a container, by its manifest's name.
#[derive(Clone, Copy, Debug, PartialEq, Eq)]
pub struct Snapshot {
    /// The version of its oldest range file.
    pub begin: u64,
    /// The version of its newest range file.
    pub end: u64,
    /// The bytes of its range files together.
    pub bytes: u64,
    /// The greatest version that it gives, where it gives one.
    pub greatest: Option<u64>,
}

/// What a container has.
#[derive(Debug, Drop)]
pub struct Description {
    /// In the byte order of their manifests' names.
    pub snapshots: Seq<Snapshot>,
    /// The least version of which a log file has what was committed, where there is a log file.
    pub log_begin: Option<u64>,
    /// The first version from there on that no log file has.
    pub log_contiguous: Option<u64>,
    /// The greatest end of a log file. It is the version behind the last one that the file has.
    pub log_end: Option<u64>,
    /// The least version that the container can be restored to, where it can be restored.
    pub min: Option<u64>,
    /// The greatest one.
    pub max: Option<u64>,
    /// Snapshots that begin below this version aren't to be relied on any more.
    pub unreliable: Option<u64>,
    /// Below this version files may have been deleted.
    pub expired: Option<u64>,
}

/// What a container with these names has, where its properties hold these numbers. Its snapshots stand
/// in the order of the names.
pub fn describe_names(
    alloc: Global,
    names: &Names,
    unreliable: Option<u64>,
    expired: Option<u64>,
) -> Result<Description, AllocError>
    ensures { IfOk result
        (λ description. description ≡ spec.described names.now unreliable expired) }
{
    let sorted = sorted_names(alloc, names)?;
    let runs = runs(alloc, &sorted)?;
    let end = unreliable.unwrap_or(0);
    let bounds = sorted_bounds(alloc, &sorted, end)?;
    let snapshots = snapshots(alloc, &sorted, &runs, end)?;
    let begin = least_of(sorted.span);
    Ok(Description {
        snapshots,
        log_begin: begin,
        log_contiguous: contiguous(&runs, begin),
        log_end: greatest_of(sorted.span),
        min: least_of(bounds),
        max: greatest_of(bounds),
        unreliable,
        expired,
    })
}

fn least_of(bounds: Option<Bounds>) -> Option<u64>
    ensures { result ≡ spec.least_of bounds }
{
    match bounds {
        Some(bounds) => Some(bounds.least),
        None => None,
    }
}

fn greatest_of(bounds: Option<Bounds>) -> Option<u64>
    ensures { result ≡ spec.greatest_of bounds }
{
    match bounds {
        Some(bounds) => Some(bounds.greatest),
        None => None,
    }
}

// The end that is reached from a version, where there is one.
fn contiguous(runs: &[Run], begin: Option<u64>) -> Option<u64>
    requires { IsRisingBy (λ run. run.begin) 0 runs.now }
    ensures { result ≡ option_map (reach_in runs.now) begin }
{
    match begin {
        Some(begin) => Some(reached(runs, begin)),
        None => None,
    }
}

// The snapshots, in the order of their manifests.
fn snapshots(
    alloc: Global,
    sorted: &SortedNames<'_>,
    runs: &[Run],
    unreliable: u64,
) -> Result<Seq<Snapshot>, AllocError>
    requires { IsRisingBy (λ run. run.begin) 0 runs.now }
    ensures { IfOk result (λ list. list
        ≡ map (snapshot_with (reach_in runs.now) unreliable)
        (sizes_of sorted.now.manifests.items)) }
{
    let mut list = Vec::with_capacity(alloc, sorted.manifests.len())?;
    'manifests: for manifest in &sorted.manifests {
        list.push(sealed(runs, unreliable, manifest))?;
    }
    Ok(Seq::from_vec(list))
}

// The snapshot of a manifest.
fn sealed(runs: &[Run], unreliable: u64, manifest: &NamedManifest<'_>) -> Snapshot
    requires { IsRisingBy (λ run. run.begin) 0 runs.now }
    ensures { result ≡ snapshot_with (reach_in runs.now) unreliable (size_of manifest.now) }
{
    Snapshot {
        begin: manifest.begin,
        end: manifest.end,
        bytes: manifest.bytes,
        greatest: greatest_of(given(runs, unreliable, manifest)),
    }
}

/// What a container has, or the first fault: the folder has no file, a property is damaged,
/// unreliable first. A property that the names don't list isn't read: one list and at most two files.
pub fn describe<V: Vault>(
    alloc: Global,
    vault: &mut V,
    container: &Text,
) -> Result<Description, ViewFault>
    ensures ok { IfOk result (λ description. (files : List File) → V.files vault.old ≡ Some files
        → spec.description_of (inside container.now files) ≡ Ok description) }
    ensures err { IfErr result (λ fault. (files : List File) → V.files vault.old ≡ Some files
        → Fails fault (spec.description_of (inside container.now files))) }
    ensures kind { IfErr result spec.IsOfDescribing }
    ensures same { V.files vault.new ≡ V.files vault.old }
    ensures count { Counts (V.faults vault.old) (V.faults vault.new)
        (IsErrOf result ViewFault.VaultFault) }
    ensures called { V.calls vault.new ≤ V.calls vault.old + 3 }
{
    let names = list_names(alloc, vault, container)?;
    let unreliable = match get_property(
        alloc,
        vault,
        container,
        &names,
        "properties/unreliable_end",
    ) {
        Ok(number) => number,
        Err(fault) => return Err(fault),
    };
    let expired = match get_property(alloc, vault, container, &names, "properties/expired_end") {
        Ok(number) => number,
        Err(fault) => return Err(fault),
    };
    let description = describe_names(alloc, &names, unreliable, expired)?;
    Ok(description)
}
