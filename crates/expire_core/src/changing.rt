//! The changes of an expire, made one after the other.

ghost use Rattle.std.specs.Prelude.{◌≡◌, ◌+◌, ◌≤◌, [], ◌∷◌, length, map, option_map, OnOk, OnErr, IsErrOf};
ghost use Rattle.expire_core.specs.Changes.{StopsIn, changed, all_changed, setting, deletion, changes_for};
ghost use Rattle.fb_outside.specs.Faults.{Counts};

use crate::ExpirePlan;
use container_view::whole_name;
use fb_bytes::{Names, Text};
use fb_outside::{Vault, VaultFail};
use std::alloc::Global;

/// Makes the changes of a plan, and gives the expired end its number.
pub(crate) fn carry_out<V: Vault>(
    alloc: Global,
    vault: &mut V,
    container: &Text,
    plan: &ExpirePlan,
    expired: u64,
) -> Result<(), VaultFail>
    ensures done { OnOk result (V.files vault.new
        ≡ option_map (all_changed (changes_for container.now plan.now expired))
        (V.files vault.old)) }
    ensures stopped { OnErr result (StopsIn (changes_for container.now plan.now expired)
        (V.files vault.old) (V.files vault.new)) }
    ensures count { Counts (V.faults vault.old) (V.faults vault.new)
        (IsErrOf result VaultFail.Failed) }
    ensures called { V.calls vault.new ≤ V.calls vault.old + (2 + length plan.now.names) }
{
    let unreliable = "properties/unreliable_end";
    if let Err(fail) = set_property(alloc, vault, container, unreliable, plan.unreliable) {
        return Err(fail);
    }
    if let Err(fail) = delete_names(alloc, vault, container, &plan.names) {
        return Err(fail);
    }
    set_property(alloc, vault, container, "properties/expired_end", expired)
}

// Gives a property a number.
fn set_property<V: Vault>(
    alloc: Global,
    vault: &mut V,
    container: &Text,
    property: &str,
    number: u64,
) -> Result<(), VaultFail>
    ensures done { OnOk result (V.files vault.new
        ≡ option_map (changed (setting container.now property.now number)) (V.files vault.old)) }
    ensures stopped { OnErr result (StopsIn (setting container.now property.now number ∷ [])
        (V.files vault.old) (V.files vault.new)) }
    ensures count { Counts (V.faults vault.old) (V.faults vault.new)
        (IsErrOf result VaultFail.Failed) }
    ensures called { V.calls vault.new ≤ V.calls vault.old + 1 }
{
    let whole = whole_name(alloc, container, property)?;
    let text = format!(in alloc; "{number}")?;
    vault.put(alloc, &whole, text.as_bytes())
}

// Deletes files of the container, in the order of the names.
fn delete_names<V: Vault>(
    alloc: Global,
    vault: &mut V,
    container: &Text,
    names: &Names,
) -> Result<(), VaultFail>
    ensures done { OnOk result (V.files vault.new
        ≡ option_map (all_changed (map (deletion container.now) names.now)) (V.files vault.old)) }
    ensures stopped { OnErr result (StopsIn (map (deletion container.now) names.now)
        (V.files vault.old) (V.files vault.new)) }
    ensures count { Counts (V.faults vault.old) (V.faults vault.new)
        (IsErrOf result VaultFail.Failed) }
    ensures called { V.calls vault.new ≤ V.calls vault.old + length names.now }
{
    'names: for name in names.as_slice() {
        match delete_file(alloc, vault, container, name) {
            Ok(()) => {}
            Err(fail) => return Err(fail),
        }
    }
    Ok(())
}

// Deletes a file of the container.
fn delete_file<V: Vault>(
    alloc: Global,
    vault: &mut V,
    container: &Text,
    name: &Text,
) -> Result<(), VaultFail>
    ensures done { OnOk result (V.files vault.new
        ≡ option_map (changed (deletion container.now name.now)) (V.files vault.old)) }
    ensures stopped { OnErr result (StopsIn (deletion container.now name.now ∷ [])
        (V.files vault.old) (V.files vault.new)) }
    ensures count { Counts (V.faults vault.old) (V.faults vault.new)
        (IsErrOf result VaultFail.Failed) }
    ensures called { V.calls vault.new ≤ V.calls vault.old + 1 }
{
    let whole = whole_name(alloc, container, name.as_str())?;
    vault.delete(&whole)
}
