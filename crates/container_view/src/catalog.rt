//! The containers of a store.

ghost use Rattle.std.specs.Prelude.{◌≡◌, ◌&&◌, ◌⊎◌, List, Option, Some, option_map, IfOk, IfErr, IsErrOf};
ghost use Rattle.container_view.specs.Containers.{has_file, AreRising};
ghost use Rattle.container_view.specs.Files.{has_no_slash};
ghost use Rattle.container_view.specs.Names.{is_named};
ghost use Rattle.container_view.specs.inner.Parts.{first_part, first_parts};
ghost use Rattle.container_view.specs.declared.view.ViewFault.TheVariants as faults;
ghost use Rattle.fb_bytes.specs.Bytes.{Bytes};
ghost use Rattle.fb_outside.specs.Faults.{Counts, counted};
ghost use Rattle.fb_outside.specs.declared.File.{File};

use crate::ViewFault;
use fb_bytes::{Names, Text};
use fb_outside::Vault;
use std::alloc::{AllocError, Global};

/// The containers of a store whose names have one part, in byte order, each once. One call lists the
/// files.
pub fn containers<V: Vault>(alloc: Global, vault: &mut V) -> Result<Names, ViewFault>
    ensures rising { IfOk result AreRising }
    ensures exact { IfOk result (λ names. (files : List File) → V.files vault.old ≡ Some files
        → (name : Bytes) → is_named names name ≡ (has_no_slash name && has_file name files)) }
    ensures faults { IfErr result (λ e. (e ≡ faults.VaultFault) ⊎ (e ≡ faults.NoMemory)) }
    ensures same { V.files vault.new ≡ V.files vault.old }
    ensures count { Counts (V.faults vault.old) (V.faults vault.new)
        (IsErrOf result ViewFault.VaultFault) }
    ensures called { V.calls vault.new ≡ counted (V.calls vault.old) }
{
    let root = Text::new(alloc);
    let names = vault.list(alloc, &root)?;
    let parts = parts_of(alloc, names.as_slice())?;
    let containers = once_each(parts)?;
    Ok(containers)
}

/// The first part of each name that has a slash.
fn parts_of(alloc: Global, names: &[Text]) -> Result<Vec<Text>, AllocError>
    ensures { IfOk result (λ list. list.items ≡ first_parts names.now) }
{
    let mut list = Vec::new(alloc);
    'names: for name in names {
        if let Some(part) = part_of(name) {
            let part = Text::from_str(alloc, part)?;
            list.push(part)?;
        }
    }
    Ok(list)
}

/// What stands before the first slash of a name, where there is one.
fn part_of(name: &Text) -> Option<&str>
    ensures { option_map (λ part. part.now) result ≡ first_part name.now }
{
    match name.as_str().split_once('/') {
        Some((part, _)) => Some(part),
        None => None,
    }
}

/// The same names in byte order, each once.
fn once_each(mut names: Vec<Text>) -> Result<Names, AllocError>
    ensures rising { IfOk result AreRising }
    ensures same { IfOk result (λ list. (name : Bytes) → is_named list name
        ≡ is_named names.items name) }
{
    names.sort()?;
    names.dedup();
    Ok(Names::from_vec(names))
}
