//! What a reader first learns of a container: the names of its files, and its properties.

ghost use Rattle.std.specs.Prelude.{◌≡◌, ◌≢◌, ◌+◌, ◌≤◌, ◌⊎◌, false, List, [], Option, Some, None, Ok, option_map, IfOk, IfErr, IsErrOf};
ghost use Rattle.container_view.specs.Files.{name_in, whole_name, inside};
ghost use Rattle.container_view.specs.Names.{names_inside, is_named};
ghost use Rattle.container_view.specs.View.{view_fault_of, stripped};
ghost use Rattle.container_view.specs.Property.{property_in};
ghost use Rattle.container_view.specs.declared.view.ViewFault.TheVariants as faults;
ghost use Rattle.container_view.specs.declared.view.FileFault.TheVariants as file_faults;
ghost use Rattle.fb_outside.specs.Files.{file_of};
ghost use Rattle.fb_outside.specs.Faults.{Counts, counted};
ghost use Rattle.fb_outside.specs.declared.File.{File};

use crate::read_property;
use fb_bytes::{Blob, Names, Text, is_same};
use fb_outside::{Vault, VaultFail};
use log_files::LogFault;
use manifests::ManifestFault;
use range_files::BlockFault;
use std::alloc::{AllocError, AllocFailed, Global};

/// What is wrong with a file of a container.
#[derive(Debug, Drop)]
pub enum FileFault {
    /// A property file doesn't hold one number.
    Property,
    /// The first fault of a manifest.
    Manifest { fault: ManifestFault },
    /// The first fault of a range file.
    Range { fault: BlockFault },
    /// The first fault of a log file.
    Log { fault: LogFault },
    /// A range file's range begins at this key, inside the range of another one.
    Overlap { key: Blob },
}

/// Why a container can't be read.
#[derive(Debug, Drop)]
pub enum ViewFault {
    /// The folder has no file.
    NoContainer,
    /// The version isn't advertised. These are the least and the greatest version that are, where
    /// there are any.
    NotRestorable { min: Option<u64>, max: Option<u64> },
    /// The bytes of this file aren't in their grammar, or its range overlaps another one's.
    Damaged { name: Text, fault: FileFault },
    /// A file that is needed isn't there.
    Missing { name: Text },
    /// The store failed.
    VaultFault,
    /// There was no memory.
    NoMemory,
}

impl From<VaultFail> for ViewFault {
    ghost from_gives = { λ fail e. e ≡ view_fault_of fail };

    fn from(fail: VaultFail) -> Self {
        match fail {
            VaultFail::Failed => ViewFault::VaultFault,
            VaultFail::NoMemory => ViewFault::NoMemory,
        }
    }
}

impl From<AllocError> for ViewFault {
    ghost from_gives = { λ _ e. e ≡ faults.NoMemory };

    fn from(_: AllocError) -> Self {
        ViewFault::NoMemory
    }
}

impl<T: Drop> From<AllocFailed<T>> for ViewFault {
    ghost from_gives = { λ _ e. e ≡ faults.NoMemory };

    fn from(_: AllocFailed<T>) -> Self {
        ViewFault::NoMemory
    }
}

/// The names of a container's files, as they stand in the container, in byte order. One call lists
/// them.
pub fn list_names<V: Vault>(
    alloc: Global,
    vault: &mut V,
    container: &Text,
) -> Result<Names, ViewFault>
    ensures names { IfOk result (λ names. (files : List File) → V.files vault.old ≡ Some files
        → names ≡ names_inside container.now files) }
    ensures some { IfOk result (λ names. names ≢ []) }
    ensures faults { IfErr result (λ e. (e ≡ faults.NoContainer) ⊎ (e ≡ faults.VaultFault)
        ⊎ (e ≡ faults.NoMemory)) }
    ensures none { IsErrOf result ViewFault.NoContainer → (files : List File)
        → V.files vault.old ≡ Some files → names_inside container.now files ≡ [] }
    ensures same { V.files vault.new ≡ V.files vault.old }
    ensures count { Counts (V.faults vault.old) (V.faults vault.new)
        (IsErrOf result ViewFault.VaultFault) }
    ensures called { V.calls vault.new ≡ counted (V.calls vault.old) }
{
    let names = vault.list(alloc, container)?;
    let names = relative(alloc, container, &names)?;
    if names.is_empty() {
        return Err(ViewFault::NoContainer);
    }
    Ok(names)
}

/// The number of a property, where the names list its file. A file that is gone since then counts
/// as none.
pub fn get_property<V: Vault>(
    alloc: Global,
    vault: &mut V,
    container: &Text,
    names: &Names,
    property: &str,
) -> Result<Option<u64>, ViewFault>
    ensures found { IfOk result (λ number. (files : List File) → V.files vault.old ≡ Some files
        → names.now ≡ names_inside container.now files
        → property_in (file_of (inside container.now files) property.now) ≡ Some number) }
    ensures damaged { IfErr result (λ e. (e ≡ faults.VaultFault) ⊎ (e ≡ faults.NoMemory)
        ⊎ ((e ≡ faults.Damaged property.now file_faults.Property)
        × ((files : List File) → V.files vault.old ≡ Some files
        → names.now ≡ names_inside container.now files
        → property_in (file_of (inside container.now files) property.now) ≡ None))) }
    ensures unlisted { is_named names.now property.now ≡ false → (result ≡ Ok None)
        × (V.faults vault.new ≡ V.faults vault.old) }
    ensures same { V.files vault.new ≡ V.files vault.old }
    ensures count { Counts (V.faults vault.old) (V.faults vault.new)
        (IsErrOf result ViewFault.VaultFault) }
    ensures called { V.calls vault.new ≤ V.calls vault.old + 1 }
{
    if !is_named(names, property) {
        return Ok(None);
    }
    let whole = whole_name(alloc, container, property)?;
    let Some(bytes) = vault.get(alloc, &whole)? else {
        return Ok(None);
    };
    let Some(number) = read_property(bytes.as_slice()) else {
        let name = Text::from_str(alloc, property)?;
        return Err(ViewFault::Damaged {
            name,
            fault: FileFault::Property,
        });
    };
    Ok(Some(number))
}

/// Whether the names list a file.
pub(crate) fn is_named(names: &Names, name: &str) -> bool
    ensures { result ≡ is_named names.now name.now }
{
    'names: for listed in names.as_slice() {
        if is_same(listed.as_bytes(), name.as_bytes()) {
            return true;
        }
    }
    false
}

/// The whole name of a container's file: the container, a slash, and the name in it.
pub fn whole_name(alloc: Global, container: &Text, name: &str) -> Result<Text, AllocError>
    ensures { IfOk result (λ whole. whole ≡ whole_name container.now name.now) }
{
    let container = container.as_str();
    let whole = format!(in alloc; "{container}/{name}")?;
    Ok(Text::from_string(whole))
}

/// Whole names as they stand in the container.
fn relative(alloc: Global, container: &Text, names: &Names) -> Result<Names, AllocError>
    ensures { IfOk result (λ list. list ≡ stripped container.now names.now) }
{
    let mut list = Names::new(alloc);
    'names: for name in names.as_slice() {
        if let Some(name) = name_in(container, name) {
            let name = Text::from_str(alloc, name)?;
            list.push(name)?;
        }
    }
    Ok(list)
}

/// The name in the container, where the file is in it.
fn name_in<'a>(container: &Text, name: &'a Text) -> Option<&'a str>
    ensures { option_map (λ rest. rest.now) result ≡ name_in container.now name.now }
{
    let rest = name.as_str().strip_prefix(container.as_str())?;
    rest.strip_prefix("/")
}
