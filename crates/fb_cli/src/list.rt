ghost use Rattle.std.specs.Prelude.{◌≡◌, ◌⊎◌, List, Some, IfOk, IfErr, IsErrOf};
ghost use Rattle.std.specs.List.{filter};
ghost use Rattle.container_view.specs.Containers.{AreRising};
ghost use Rattle.container_view.specs.declared.ViewFault.TheVariants as faults;
ghost use Rattle.fb_outside.specs.Faults.{Counts, counted};
ghost use Rattle.fb_outside.specs.declared.File.{File};
ghost use Rattle.workload_text.specs.Commands as commands;
ghost use Rattle.fb_cli.specs.Faults.{status_of};
ghost use Rattle.fb_cli.specs.Lists.{Lists, AreContainers};
ghost use Rattle.fb_cli.specs.Outside.{store_change};
ghost use Rattle.fb_cli.specs.Replays.{OwesStore};

use crate::fault::{Fault, refusal_of};
use crate::replay::{Ended, refused};
use container_view::{ViewFault, containers};
use fb_bytes::{Names, Text};
use fb_outside::Vault;
use report_text::Report;
use std::alloc::Global;
use workload_text::is_container_name;

/// Lists the containers of the store: the folders with a container's name, in byte order.
pub fn list_words<V: Vault>(alloc: Global, vault: V) -> Ended<V>
    ensures lists { Lists
        (store_change (V.files vault) (V.files result.vault) (V.faults vault)
        (V.faults result.vault)) result.report result.fault }
    ensures status { result.status ≡ status_of result.fault }
    ensures store { OwesStore
        (store_change (V.files vault) (V.files result.vault) (V.faults vault)
        (V.faults result.vault)) result.fault }
    ensures called { V.calls result.vault ≡ counted (V.calls vault) }
{
    let mut vault = vault;
    match names_in(alloc, &mut vault) {
        Ok(names) => Ended {
            status: 0,
            report: Some(Report::Listed(names)),
            fault: None,
            vault,
        },
        Err(fault) => refused(refusal_of(fault), vault),
    }
}

// The names of the containers, in byte order.
fn names_in<V: Vault>(alloc: Global, vault: &mut V) -> Result<Names, ViewFault>
    ensures rising { IfOk result AreRising }
    ensures exact { IfOk result (λ names. (files : List File) → V.files vault.old ≡ Some files
        → AreContainers files names) }
    ensures faults { IfErr result (λ e. (e ≡ faults.VaultFault) ⊎ (e ≡ faults.NoMemory)) }
    ensures same { V.files vault.new ≡ V.files vault.old }
    ensures count { Counts (V.faults vault.old) (V.faults vault.new)
        (IsErrOf result ViewFault.VaultFault) }
    ensures called { V.calls vault.new ≡ counted (V.calls vault.old) }
{
    match containers(alloc, vault) {
        Ok(names) => Ok(named_well(names)),
        Err(fault) => Err(fault),
    }
}

// The names that a container may have.
fn named_well(names: Names) -> Names
    ensures { result ≡ filter commands.is_container_name names }
{
    let mut list = names.into_vec();
    keep_named(&mut list);
    Names::from_vec(list)
}

fn keep_named(list: &mut Vec<Text>)
    ensures { list.new.items ≡ filter commands.is_container_name list.old.items }
{
    list.retain(|name| is_container_name(name.as_bytes()));
}
