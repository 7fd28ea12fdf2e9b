//! The changes of a bucket, on its one list of tasks.

ghost use Rattle.std.specs.Prelude.{◌≡◌, ◌⊎◌, ◌↔◌, ◌+◌, ◌<◌, ◌^◌, ◌==◌, length, not, false, Some, Ok, Err, if◌then◌else◌, IfOk, IfErr, OnOk, OnErr, IsErrOf};
ghost use Rattle.std.specs.List.{filter, remove};
ghost use Rattle.task_bucket.specs.Lists.{has_uid, without_uid, without_job, is_leased};
ghost use Rattle.task_bucket.specs.Claims.{claimed, after_claim};
ghost use Rattle.task_bucket.specs.Leases.{extended_in, retimed_in, finished_in};
ghost use Rattle.task_bucket.specs.inner.Held.{AreRising, AreCounted, free_count, held_is, lists_in, put_into};

use crate::held::{
    Held, find, is_leased, lease_again, lease_out, picked, place_for, place_of, retime, wake,
};
use crate::{Lease, LeaseFault};
use std::alloc::AllocError;

/// Adds a task with a new uid.
pub fn put(held: &mut Vec<Held>, free: &mut usize, one: Held) -> Result<(), AllocError>
    requires kept { AreCounted free.old held.old.items }
    requires fresh { has_uid one.uid (lists_in held.old.items) ≡ false }
    ensures kept { AreCounted free.new held.new.items }
    ensures ok { OnOk result (lists_in held.new.items ≡ put_into one (lists_in held.old.items)) }
    ensures err { OnErr result (held.new.items ≡ held.old.items) }
{
    let more = one.free_count();
    let at = place_for(held, one.uid);
    held.insert(at, one)?;
    *free += more;
    Ok(())
}

// Claims one of those that are available.
fn claim_free(
    held: &mut [Held],
    free: &mut usize,
    now: u64,
    lease: u64,
    pick: u64,
) -> Result<Option<Lease>, AllocError>
    requires kept { AreCounted free.old held.old }
    requires any { 0 < free.old }
    requires bound { now + lease < 2 ^ 63 }
    ensures kept { AreCounted free.new held.new }
    ensures answer { IfOk result (λ found. found ≡ claimed now lease pick (lists_in held.old)) }
    ensures ok { OnOk result (lists_in held.new ≡ after_claim now lease pick (lists_in held.old)) }
    ensures err { OnErr result (held.new ≡ held.old) }
{
    let Some(place) = picked(held, pick) else {
        return Ok(None);
    };
    let lease = lease_out(held, place, now + lease)?;
    *free -= 1;
    Ok(Some(lease))
}

// Claims one of those that are due, where nothing is available. A refused claim leases again what
// it woke: as nothing was available, that is all that is now.
fn claim_due(
    held: &mut [Held],
    free: &mut usize,
    now: u64,
    lease: u64,
    pick: u64,
) -> Result<Option<Lease>, AllocError>
    requires kept { AreCounted free.old held.old }
    requires none { free.old ≡ 0 }
    requires bound { now + lease < 2 ^ 63 }
    ensures kept { AreCounted free.new held.new }
    ensures answer { IfOk result (λ found. found ≡ claimed now lease pick (lists_in held.old)) }
    ensures ok { OnOk result (lists_in held.new ≡ after_claim now lease pick (lists_in held.old)) }
    ensures err { OnErr result (held.new ≡ held.old) }
{
    let woken = wake(held, now, pick);
    let Some(place) = woken.place else {
        return Ok(None);
    };
    let lease = match lease_out(held, place, now + lease) {
        Ok(lease) => lease,
        Err(error) => {
            lease_again(held);
            return Err(error);
        }
    };
    *free = woken.count - 1;
    Ok(Some(lease))
}

fn claim_in(
    held: &mut [Held],
    free: &mut usize,
    now: u64,
    lease: u64,
    pick: u64,
) -> Result<Option<Lease>, AllocError>
    requires kept { AreCounted free.old held.old }
    requires bound { now + lease < 2 ^ 63 }
    ensures kept { AreCounted free.new held.new }
    ensures answer { IfOk result (λ found. found ≡ claimed now lease pick (lists_in held.old)) }
    ensures ok { OnOk result (lists_in held.new ≡ after_claim now lease pick (lists_in held.old)) }
    ensures err { OnErr result (held.new ≡ held.old) }
{
    if *free > 0 {
        claim_free(held, free, now, lease, pick)
    } else {
        claim_due(held, free, now, lease, pick)
    }
}

/// Leases the task that a claim picks.
pub fn claim_from(
    held: &mut Vec<Held>,
    free: &mut usize,
    now: u64,
    lease: u64,
    pick: u64,
) -> Result<Option<Lease>, AllocError>
    requires kept { AreCounted free.old held.old.items }
    requires bound { now + lease < 2 ^ 63 }
    ensures kept { AreCounted free.new held.new.items }
    ensures answer { IfOk result
        (λ found. found ≡ claimed now lease pick (lists_in held.old.items)) }
    ensures ok { OnOk result
        (lists_in held.new.items ≡ after_claim now lease pick (lists_in held.old.items)) }
    ensures err { OnErr result (held.new.items ≡ held.old.items) }
{
    claim_in(held, free, now, lease, pick)
}

fn retimed(held: &mut [Held], until: u64, uid: u64, new: u64) -> Result<Lease, LeaseFault>
    requires { AreRising held.old }
    ensures rising { AreRising held.new }
    ensures count { free_count held.new ≡ free_count held.old }
    ensures interrupted { IsErrOf result (LeaseFault.Interrupted uid)
        ↔ (is_leased until uid (lists_in held.old) ≡ false) }
    ensures answer { IfOk result (λ lease. extended_in until uid new (lists_in held.old).leased
        ≡ Some lease) }
    ensures ok { OnOk result (lists_in held.new ≡ retimed_in until uid new (lists_in held.old)) }
    ensures err { IfErr result (λ fault. (fault ≡ LeaseFault.Interrupted uid)
        ⊎ (fault ≡ LeaseFault.NoMemory)) }
    ensures unchanged { OnErr result (held.new ≡ held.old) }
{
    let Some(one) = find(held, until, uid) else {
        return Err(LeaseFault::Interrupted { uid });
    };
    let task = one.task.copy()?;
    retime(held, until, uid, new);
    Ok(Lease {
        until: new,
        uid,
        task,
    })
}

/// Gives the lease of this uid until this version another until.
pub fn extend_in(held: &mut Vec<Held>, until: u64, uid: u64, new: u64) -> Result<Lease, LeaseFault>
    requires { AreRising held.old.items }
    ensures rising { AreRising held.new.items }
    ensures count { free_count held.new.items ≡ free_count held.old.items }
    ensures interrupted { IsErrOf result (LeaseFault.Interrupted uid)
        ↔ (is_leased until uid (lists_in held.old.items) ≡ false) }
    ensures answer { IfOk result
        (λ lease. extended_in until uid new (lists_in held.old.items).leased ≡ Some lease) }
    ensures ok { OnOk result
        (lists_in held.new.items ≡ retimed_in until uid new (lists_in held.old.items)) }
    ensures err { IfErr result (λ fault. (fault ≡ LeaseFault.Interrupted uid)
        ⊎ (fault ≡ LeaseFault.NoMemory)) }
    ensures unchanged { OnErr result (held.new.items ≡ held.old.items) }
{
    retimed(held, until, uid, new)
}

// Takes out what stands at a place, and tells what it counted among those that are available.
fn take_out(held: &mut Vec<Held>, at: usize) -> usize
    requires { at < length held.old.items }
    ensures items { held.new.items ≡ remove held.old.items at }
    ensures count { free_count held.new.items + result ≡ free_count held.old.items }
{
    held.remove(at).free_count()
}

fn keep_other_leases(held: &mut Vec<Held>, until: u64, uid: u64)
    requires { AreRising held.old.items }
    ensures { held.new.items ≡ filter (λ h. not (held_is until uid h)) held.old.items }
{
    let place = place_of(held, uid);
    if place >= held.len() {
        return;
    }
    if held[place].is_lease(until, uid) {
        take_out(held, place);
    }
}

// Tells how many of those that stay are available.
fn keep_other_jobs(held: &mut Vec<Held>, job: u64) -> usize
    ensures items { held.new.items ≡ filter (λ h. not (h.task.job == job)) held.old.items }
    ensures count { result ≡ free_count held.new.items }
{
    let mut kept = 0;
    let mut free = 0;
    for at in 0..held.len() {
        let one = &held[at];
        if one.is_of(job) {
            continue;
        }
        free += one.free_count();
        held.swap(kept, at);
        kept += 1;
    }
    held.truncate(kept);
    free
}

// Tells how many of those that it takes out were available.
fn keep_other_uids(held: &mut Vec<Held>, uid: u64) -> usize
    requires { AreRising held.old.items }
    ensures items { held.new.items ≡ filter (λ h. not (h.uid == uid)) held.old.items }
    ensures count { free_count held.new.items + result ≡ free_count held.old.items }
{
    let place = place_of(held, uid);
    if place >= held.len() {
        return 0;
    }
    if held[place].uid == uid {
        return take_out(held, place);
    }
    0
}

/// Takes the lease of this uid until this version out.
pub fn finish_in(held: &mut Vec<Held>, until: u64, uid: u64) -> Result<(), LeaseFault>
    requires { AreRising held.old.items }
    ensures rising { AreRising held.new.items }
    ensures count { free_count held.new.items ≡ free_count held.old.items }
    ensures answer { result
        ≡ (if is_leased until uid (lists_in held.old.items) then Ok tt
        else Err (LeaseFault.Interrupted uid)) }
    ensures lists { lists_in held.new.items ≡ finished_in until uid (lists_in held.old.items) }
{
    let found = is_leased(held, until, uid);
    keep_other_leases(held, until, uid);
    if found {
        Ok(())
    } else {
        Err(LeaseFault::Interrupted { uid })
    }
}

/// Takes a job's tasks out.
pub fn drop_job(held: &mut Vec<Held>, free: &mut usize, job: u64)
    requires { AreCounted free.old held.old.items }
    ensures kept { AreCounted free.new held.new.items }
    ensures lists { lists_in held.new.items ≡ without_job job (lists_in held.old.items) }
{
    *free = keep_other_jobs(held, job);
}

/// Takes the task with this uid out.
pub fn remove(held: &mut Vec<Held>, free: &mut usize, uid: u64)
    requires { AreCounted free.old held.old.items }
    ensures kept { AreCounted free.new held.new.items }
    ensures lists { lists_in held.new.items ≡ without_uid uid (lists_in held.old.items) }
{
    *free -= keep_other_uids(held, uid);
}
