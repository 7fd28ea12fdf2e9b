//! The expire of a container in a store.

ghost use Rattle.std.specs.Prelude.{◌≡◌, ◌+◌, ◌≤◌, List, Some, Ok, is_some, IfOk, IfErr, IsErrOf};
ghost use Rattle.container_view.specs.Files.{inside};
ghost use Rattle.expire_core.specs.Changes.{StopsIn};
ghost use Rattle.expire_core.specs.Expiry as spec;
ghost use Rattle.fb_outside.specs.Faults.{Counts};
ghost use Rattle.fb_outside.specs.declared.File.{File};

use crate::changing::carry_out;
use crate::planning::raised;
use crate::{ExpirePlan, PlanFault, plan, read_listing};
use container_view::ViewFault;
use fb_bytes::Text;
use fb_outside::Vault;
use std::alloc::Global;

/// What an expire does to a container.
#[derive(Debug, Drop)]
pub struct Expiry {
    pub plan: ExpirePlan,
    /// The number that the expired end gets once the files are deleted.
    pub expired: u64,
}

/// Why a container isn't expired.
#[derive(Debug, Drop)]
pub enum ExpireFault {
    /// It can't be read, or the store failed, or there was no memory.
    View { fault: ViewFault },
    /// No version at or past the wanted one would stay. The greatest that would is `left`, where
    /// there is one.
    CannotExpire { wanted: u64, left: Option<u64> },
}

/// Deletes the files of a container that hold only what is below the cutoff, and answers how many.
/// The unreliable end is raised first, so that at no moment a version is advertised that lacks a
/// file, and the expired end last. Neither falls. Without `force` it is refused where no version at
/// or past the wanted one would stay. A fault of the store, or want of memory, may come between two
/// changes: what was done stays done, and the same call goes on from there.
pub fn expire<V: Vault>(
    alloc: Global,
    vault: &mut V,
    container: &Text,
    cutoff: u64,
    wanted: u64,
    force: bool,
) -> Result<u64, ExpireFault>
    ensures ok { IfOk result (λ deleted. (files : List File) → V.files vault.old ≡ Some files
        → spec.IsExpired container.now
        (spec.expiry_of (inside container.now files) cutoff wanted force) files (V.files vault.new)
        deleted) }
    ensures err { IfErr result (λ fault. (files : List File) → V.files vault.old ≡ Some files
        → spec.FailsIn fault
        (spec.expiry_of (inside container.now files) cutoff wanted force)) }
    ensures kind { IfErr result spec.IsOfExpiring }
    ensures made { (files : List File) → V.files vault.old ≡ Some files
        → StopsIn (spec.changes_of container.now
        (spec.expiry_of (inside container.now files) cutoff wanted force))
        (V.files vault.old) (V.files vault.new) }
    ensures refused { IfErr result (λ fault. spec.IsRefusal fault
        → V.files vault.new ≡ V.files vault.old) }
    ensures telling { is_some (V.files vault.new) ≡ is_some (V.files vault.old) }
    ensures count { Counts (V.faults vault.old) (V.faults vault.new)
        (IsErrOf result (ExpireFault.View ViewFault.VaultFault)) }
    ensures called { IfOk result
        (λ deleted. V.calls vault.new ≤ V.calls vault.old + (5 + deleted)) }
{
    let expiry = match read_expiry(alloc, vault, container, cutoff, wanted, force) {
        Ok(expiry) => expiry,
        Err(fault) => return Err(fault),
    };
    match carry_out(alloc, vault, container, &expiry.plan, expiry.expired) {
        Ok(()) => Ok(expiry.plan.names.len() as u64),
        Err(fail) => Err(ExpireFault::View {
            fault: ViewFault::from(fail),
        }),
    }
}

// What an expire of the container does, or its first refusal.
fn read_expiry<V: Vault>(
    alloc: Global,
    vault: &mut V,
    container: &Text,
    cutoff: u64,
    wanted: u64,
    force: bool,
) -> Result<Expiry, ExpireFault>
    ensures ok { IfOk result (λ expiry. (files : List File) → V.files vault.old ≡ Some files
        → spec.expiry_of (inside container.now files) cutoff wanted force ≡ Ok expiry) }
    ensures err { IfErr result (λ fault. (files : List File) → V.files vault.old ≡ Some files
        → spec.FailsIn fault
        (spec.expiry_of (inside container.now files) cutoff wanted force)) }
    ensures kind { IfErr result spec.IsOfExpiring }
    ensures same { V.files vault.new ≡ V.files vault.old }
    ensures count { Counts (V.faults vault.old) (V.faults vault.new)
        (IsErrOf result (ExpireFault.View ViewFault.VaultFault)) }
    ensures called { V.calls vault.new ≤ V.calls vault.old + 3 }
{
    let listing = match read_listing(alloc, vault, container) {
        Ok(listing) => listing,
        Err(fault) => return Err(ExpireFault::View { fault }),
    };
    let plan = match plan(
        alloc,
        &listing.names,
        listing.unreliable,
        cutoff,
        wanted,
        force,
    ) {
        Ok(plan) => plan,
        Err(fault) => return Err(expire_fault_of(fault)),
    };
    Ok(Expiry {
        plan,
        expired: raised(cutoff, listing.expired),
    })
}

fn expire_fault_of(fault: PlanFault) -> ExpireFault
    ensures { result ≡ spec.expire_fault_of fault }
{
    match fault {
        PlanFault::CannotExpire { wanted, left } => ExpireFault::CannotExpire { wanted, left },
        PlanFault::NoMemory => ExpireFault::View {
            fault: ViewFault::NoMemory,
        },
    }
}
