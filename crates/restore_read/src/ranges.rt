//! The range files of a manifest.

ghost use Rattle.std.specs.Prelude.{◌≡◌, ◌+◌, ◌≤◌, ◌⊎◌, List, [], length, Some, None, Ok, Err, IfOk, IfErr, IsErrOf};
ghost use Rattle.fb_outside.specs.Faults.{Counts};
ghost use Rattle.fb_outside.specs.declared.File.{File};
ghost use Rattle.file_names.specs.Reading.{name_of};
ghost use Rattle.container_view.specs.Files.{inside};
ghost use Rattle.container_view.specs.Sets.{Fails};
ghost use Rattle.container_view.specs.declared.ViewFault.TheVariants as faults;
ghost use Rattle.restore_apply.specs.Overlaps.{first_overlap};
ghost use Rattle.restore_read.specs.Reading as spec;

use container_view::{FileFault, ViewFault, get_file};
use fb_bytes::{Names, Seq, Text};
use fb_outside::Vault;
use file_names::{Name, parse};
use range_files::{BlockFault, read_range};
use restore_apply::{At, LoadedFile, overlap};
use std::alloc::{AllocError, Global};

/// The range files of these names, read in their order, none of which overlaps another.
pub(crate) fn get_ranges<V: Vault>(
    alloc: Global,
    vault: &mut V,
    container: &Text,
    names: &Names,
) -> Result<Seq<LoadedFile>, ViewFault>
    ensures ok { IfOk result (λ loaded. (files : List File) → V.files vault.old ≡ Some files
        → spec.files_at (inside container.now files) names.now ≡ Ok loaded) }
    ensures apart { IfOk result (λ loaded. first_overlap loaded ≡ None) }
    ensures err { IfErr result (λ fault. (files : List File) → V.files vault.old ≡ Some files
        → Fails fault (spec.files_at (inside container.now files) names.now)) }
    ensures same { V.files vault.new ≡ V.files vault.old }
    ensures count { Counts (V.faults vault.old) (V.faults vault.new)
        (IsErrOf result ViewFault.VaultFault) }
    ensures called { V.calls vault.new ≤ V.calls vault.old + length names.now }
{
    let loaded = get_each(alloc, vault, container, names)?;
    match overlap(alloc, loaded.as_slice())? {
        None => Ok(loaded),
        Some(at) => Err(overlapping(alloc, names, at)?),
    }
}

// The fault of a file that overlaps an earlier one.
fn overlapping(alloc: Global, names: &Names, at: At) -> Result<ViewFault, AllocError>
    ensures { IfOk result (λ fault. Err fault ≡ spec.apart_or names.now [] (Some at)) }
{
    let name = match names.as_slice().get(at.place) {
        Some(name) => name.copy()?,
        None => Text::new(alloc),
    };
    Ok(ViewFault::Damaged {
        name,
        fault: FileFault::Overlap {
            key: at.range.begin,
        },
    })
}

// The range files of these names, read in their order.
fn get_each<V: Vault>(
    alloc: Global,
    vault: &mut V,
    container: &Text,
    names: &Names,
) -> Result<Seq<LoadedFile>, ViewFault>
    ensures ok { IfOk result (λ loaded. (files : List File) → V.files vault.old ≡ Some files
        → spec.each_or (spec.range_at (inside container.now files)) names.now ≡ Ok loaded) }
    ensures err { IfErr result (λ fault. (files : List File) → V.files vault.old ≡ Some files
        → Fails fault (spec.each_or (spec.range_at (inside container.now files)) names.now)) }
    ensures same { V.files vault.new ≡ V.files vault.old }
    ensures count { Counts (V.faults vault.old) (V.faults vault.new)
        (IsErrOf result ViewFault.VaultFault) }
    ensures called { V.calls vault.new ≤ V.calls vault.old + length names.now }
{
    let mut loaded = Seq::new(alloc);
    'names: for name in names.as_slice() {
        let file = match get_range(alloc, vault, container, name) {
            Ok(file) => file,
            Err(fault) => return Err(fault),
        };
        loaded.push(file)?;
    }
    Ok(loaded)
}

// The range file of a name.
fn get_range<V: Vault>(
    alloc: Global,
    vault: &mut V,
    container: &Text,
    name: &Text,
) -> Result<LoadedFile, ViewFault>
    ensures ok { IfOk result (λ file. (files : List File) → V.files vault.old ≡ Some files
        → spec.range_at (inside container.now files) name.now ≡ Ok file) }
    ensures err { IfErr result (λ fault. (files : List File) → V.files vault.old ≡ Some files
        → Fails fault (spec.range_at (inside container.now files) name.now)) }
    ensures same { V.files vault.new ≡ V.files vault.old }
    ensures count { Counts (V.faults vault.old) (V.faults vault.new)
        (IsErrOf result ViewFault.VaultFault) }
    ensures called { V.calls vault.new ≤ V.calls vault.old + 1 }
{
    let bytes = get_file(alloc, vault, container, name)?;
    read_file(alloc, name, bytes.as_slice())
}

// What the bytes of a range file say.
fn read_file(alloc: Global, name: &Text, bytes: &[u8]) -> Result<LoadedFile, ViewFault>
    ensures ok { IfOk result (λ file. spec.range_by name.now bytes.now (name_of name.now)
        ≡ Ok file) }
    ensures err { IfErr result (λ fault. (fault ≡ faults.NoMemory)
        ⊎ (spec.range_by name.now bytes.now (name_of name.now) ≡ Err fault)) }
{
    let Name::Range { version, block, .. } = parse(name.as_bytes()) else {
        let name = name.copy()?;
        return Err(ViewFault::Missing { name });
    };
    match read_range(alloc, bytes, block) {
        Ok(body) => Ok(LoadedFile { version, body }),
        Err(BlockFault::NoMemory) => Err(ViewFault::NoMemory),
        Err(fault) => {
            let name = name.copy()?;
            Err(ViewFault::Damaged {
                name,
                fault: FileFault::Range { fault },
            })
        }
    }
}
