//! What is read of a container before a version is restored.

ghost use Rattle.std.specs.Prelude.{◌≡◌, ◌+◌, ◌≤◌, ◌⊎◌, List, Some, None, Ok, Err, ok_or, option_map, IfOk, IfErr, IsErrOf};
ghost use Rattle.container_view.specs.Files.{inside};
ghost use Rattle.container_view.specs.inner.Listed.{AreSorted};
ghost use Rattle.container_view.specs.Sets as spec;
ghost use Rattle.container_view.specs.declared.view.ViewFault.TheVariants as faults;
ghost use Rattle.container_view.specs.declared.view.FileFault.TheVariants as file_faults;
ghost use Rattle.file_names.specs.Reading.{name_of};
ghost use Rattle.fb_outside.specs.Files.{file_of};
ghost use Rattle.manifests.specs.Reading.{manifest_read};
ghost use Rattle.fb_outside.specs.Faults.{Counts};
ghost use Rattle.fb_outside.specs.declared.File.{File};

use crate::chaining::sorted_chain;
use crate::listing::{in_order, is_listed};
use crate::sorting::{SortedNames, sorted_names};
use crate::versions::{sorted_bounds, sorted_manifest};
use crate::{Bounds, FileFault, Link, ViewFault, get_property, list_names, whole_name};
use fb_bytes::{Blob, Names, Seq, Text};
use fb_outside::Vault;
use file_names::parse;
use manifests::{Manifest, ManifestFault};
use std::alloc::{AllocError, Global};

/// What a restore of a version needs: the chosen manifest, the names of its range files in its order,
/// and the links of the log that go from its begin past the version.
#[derive(Debug, Drop)]
pub struct RestoreSet {
    pub manifest: Manifest,
    pub ranges: Names,
    pub links: Seq<Link>,
}

/// The bytes of a file of a container, which is missing where it isn't there.
pub fn get_file<V: Vault>(
    alloc: Global,
    vault: &mut V,
    container: &Text,
    name: &Text,
) -> Result<Blob, ViewFault>
    ensures ok { IfOk result (λ bytes. (files : List File) → V.files vault.old ≡ Some files
        → file_of (inside container.now files) name.now ≡ Some bytes) }
    ensures err { IfErr result (λ fault. (files : List File) → V.files vault.old ≡ Some files
        → spec.Fails fault
        (ok_or (file_of (inside container.now files) name.now) (faults.Missing name.now))) }
    ensures same { V.files vault.new ≡ V.files vault.old }
    ensures count { Counts (V.faults vault.old) (V.faults vault.new)
        (IsErrOf result ViewFault.VaultFault) }
    ensures called { V.calls vault.new ≤ V.calls vault.old + 1 }
{
    let whole = whole_name(alloc, container, name.as_str())?;
    match vault.get(alloc, &whole)? {
        Some(bytes) => Ok(bytes),
        None => {
            let name = name.copy()?;
            Err(ViewFault::Missing { name })
        }
    }
}

/// What a restore of a version needs of a container, or the first fault: the folder has no file, a
/// property is damaged, unreliable first, the version isn't advertised, the manifest is gone or
/// damaged, a range file of it isn't listed. A property that the names don't list isn't read: one list
/// and at most three files.
pub fn restore_set<V: Vault>(
    alloc: Global,
    vault: &mut V,
    container: &Text,
    version: u64,
) -> Result<RestoreSet, ViewFault>
    ensures ok { IfOk result (λ set. (files : List File) → V.files vault.old ≡ Some files
        → spec.set_of (inside container.now files) version ≡ Ok set) }
    ensures err { IfErr result (λ fault. (files : List File) → V.files vault.old ≡ Some files
        → spec.Fails fault (spec.set_of (inside container.now files) version)) }
    ensures same { V.files vault.new ≡ V.files vault.old }
    ensures count { Counts (V.faults vault.old) (V.faults vault.new)
        (IsErrOf result ViewFault.VaultFault) }
    ensures called { V.calls vault.new ≤ V.calls vault.old + 4 }
{
    let names = list_names(alloc, vault, container)?;
    let unreliable = "properties/unreliable_end";
    let unreliable = match get_property(alloc, vault, container, &names, unreliable) {
        Ok(number) => number.unwrap_or(0),
        Err(fault) => return Err(fault),
    };
    let expired = "properties/expired_end";
    if let Err(fault) = get_property(alloc, vault, container, &names, expired) {
        return Err(fault);
    }
    set_by(alloc, vault, container, &names, unreliable, version)
}

// The set by the names and the unreliable end.
fn set_by<V: Vault>(
    alloc: Global,
    vault: &mut V,
    container: &Text,
    names: &Names,
    unreliable: u64,
    version: u64,
) -> Result<RestoreSet, ViewFault>
    ensures ok { IfOk result (λ set. (files : List File) → V.files vault.old ≡ Some files
        → spec.set_by (inside container.now files) names.now unreliable version ≡ Ok set) }
    ensures err { IfErr result (λ fault. (files : List File) → V.files vault.old ≡ Some files
        → spec.Fails fault
        (spec.set_by (inside container.now files) names.now unreliable version)) }
    ensures same { V.files vault.new ≡ V.files vault.old }
    ensures count { Counts (V.faults vault.old) (V.faults vault.new)
        (IsErrOf result ViewFault.VaultFault) }
    ensures called { V.calls vault.new ≤ V.calls vault.old + 1 }
{
    let sorted = sorted_names(alloc, names)?;
    let Some(name) = sorted_manifest(alloc, &sorted, unreliable, version)? else {
        return Err(not_restorable(sorted_bounds(alloc, &sorted, unreliable)?));
    };
    let manifest = get_manifest(alloc, vault, container, name)?;
    set_with(alloc, &sorted, manifest, version)
}

// The refusal of a version that isn't advertised.
fn not_restorable(bounds: Option<Bounds>) -> ViewFault
    ensures { result ≡ spec.not_restorable bounds }
{
    match bounds {
        None => ViewFault::NotRestorable {
            min: None,
            max: None,
        },
        Some(bounds) => ViewFault::NotRestorable {
            min: Some(bounds.least),
            max: Some(bounds.greatest),
        },
    }
}

// The manifest of a name.
fn get_manifest<V: Vault>(
    alloc: Global,
    vault: &mut V,
    container: &Text,
    name: &Text,
) -> Result<Manifest, ViewFault>
    ensures ok { IfOk result (λ manifest. (files : List File) → V.files vault.old ≡ Some files
        → spec.manifest_at (inside container.now files) name.now ≡ Ok manifest) }
    ensures err { IfErr result (λ fault. (files : List File) → V.files vault.old ≡ Some files
        → spec.Fails fault (spec.manifest_at (inside container.now files) name.now)) }
    ensures same { V.files vault.new ≡ V.files vault.old }
    ensures count { Counts (V.faults vault.old) (V.faults vault.new)
        (IsErrOf result ViewFault.VaultFault) }
    ensures called { V.calls vault.new ≤ V.calls vault.old + 1 }
{
    let bytes = get_file(alloc, vault, container, name)?;
    read_manifest(alloc, name, bytes.as_slice())
}

// The manifest that a file's bytes are.
fn read_manifest(alloc: Global, name: &Text, bytes: &[u8]) -> Result<Manifest, ViewFault>
    ensures ok { IfOk result (λ manifest. manifest_read (name_of name.now) bytes.now
        ≡ Ok manifest) }
    ensures err { IfErr result (λ fault. (fault ≡ faults.NoMemory)
        ⊎ (spec.in_file (λ fault. file_faults.Manifest fault) name.now
        (manifest_read (name_of name.now) bytes.now) ≡ Err fault)) }
{
    match manifests::read(alloc, bytes, &parse(name.as_bytes())) {
        Ok(manifest) => Ok(manifest),
        Err(ManifestFault::NoMemory) => Err(ViewFault::NoMemory),
        Err(fault) => {
            let name = name.copy()?;
            Err(ViewFault::Damaged {
                name,
                fault: FileFault::Manifest { fault },
            })
        }
    }
}

// A manifest, its range files in its order, and the links that go past the version.
fn set_with(
    alloc: Global,
    sorted: &SortedNames<'_>,
    manifest: Manifest,
    version: u64,
) -> Result<RestoreSet, ViewFault>
    requires { AreSorted sorted.now }
    ensures ok { IfOk result
        (λ set. spec.set_with sorted.now.names.now manifest version
        (spec.first_unlisted sorted.now.names.now manifest.files) ≡ Ok set) }
    ensures err { IfErr result (λ fault. (fault ≡ faults.NoMemory)
        ⊎ (spec.set_with sorted.now.names.now manifest version
        (spec.first_unlisted sorted.now.names.now manifest.files) ≡ Err fault)) }
{
    if let Some(name) = first_unlisted(alloc, sorted.names, manifest.files.as_slice())? {
        let name = name.copy()?;
        return Err(ViewFault::Missing { name });
    }
    let links = match sorted_chain(alloc, sorted, manifest.begin, version)? {
        Some(links) => links,
        None => Seq::from_vec(Vec::new(alloc)),
    };
    let ranges = manifest.files.copy()?;
    Ok(RestoreSet {
        manifest,
        ranges,
        links,
    })
}

// The first of the wanted names that isn't listed.
fn first_unlisted<'a>(
    alloc: Global,
    names: &Names,
    wanted: &'a [Text],
) -> Result<Option<&'a Text>, AllocError>
    ensures { IfOk result (λ found. option_map (λ name. name.now) found
        ≡ spec.first_unlisted names.now wanted.now) }
{
    let listed = in_order(alloc, names.as_slice())?;
    'wanted: for name in wanted {
        if !is_listed(&listed, name) {
            return Ok(Some(name));
        }
    }
    Ok(None)
}
