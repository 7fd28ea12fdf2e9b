//! What is read of a container before it is expired.

ghost use Rattle.std.specs.Prelude.{◌≡◌, ◌+◌, ◌≤◌, List, Some, Ok, IfOk, IfErr, IsErrOf};
ghost use Rattle.container_view.specs.Description.{IsOfDescribing};
ghost use Rattle.container_view.specs.Files.{inside};
ghost use Rattle.container_view.specs.Sets.{Fails};
ghost use Rattle.expire_core.specs.Expiry as spec;
ghost use Rattle.fb_outside.specs.Faults.{Counts};
ghost use Rattle.fb_outside.specs.declared.File.{File};

use container_view::{ViewFault, get_property, list_names};
use fb_bytes::{Names, Text};
use fb_outside::Vault;
use std::alloc::Global;

/// The names of a container's files, and its properties.
#[derive(Debug, Drop)]
pub struct Listing {
    /// As they stand in the container, in byte order.
    pub names: Names,
    /// The number of the unreliable end, where it has one.
    pub unreliable: Option<u64>,
    /// The number of the expired end, where it has one.
    pub expired: Option<u64>,
}

/// The names and the properties of a container, or the first fault: the folder has no file, a
/// property is damaged, unreliable first. A property that the names don't list isn't read: one list
/// and at most two files.
pub fn read_listing<V: Vault>(
    alloc: Global,
    vault: &mut V,
    container: &Text,
) -> Result<Listing, ViewFault>
    ensures ok { IfOk result (λ listing. (files : List File) → V.files vault.old ≡ Some files
        → spec.listing_of (inside container.now files) ≡ Ok listing) }
    ensures err { IfErr result (λ fault. (files : List File) → V.files vault.old ≡ Some files
        → Fails fault (spec.listing_of (inside container.now files))) }
    ensures kind { IfErr result IsOfDescribing }
    ensures same { V.files vault.new ≡ V.files vault.old }
    ensures count { Counts (V.faults vault.old) (V.faults vault.new)
        (IsErrOf result ViewFault.VaultFault) }
    ensures called { V.calls vault.new ≤ V.calls vault.old + 3 }
{
    let names = list_names(alloc, vault, container)?;
    let unreliable = "properties/unreliable_end";
    let unreliable = match get_property(alloc, vault, container, &names, unreliable) {
        Ok(number) => number,
        Err(fault) => return Err(fault),
    };
    let expired = "properties/expired_end";
    let expired = match get_property(alloc, vault, container, &names, expired) {
        Ok(number) => number,
        Err(fault) => return Err(fault),
    };
    Ok(Listing {
        names,
        unreliable,
        expired,
    })
}
