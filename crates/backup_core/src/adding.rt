//! Tasks that are added to a bucket one after another, each under the next uid.

ghost use Rattle.std.specs.Prelude.{◌≡◌, ◌+◌, ◌-◌, ◌<◌, ◌≤◌, ◌^◌, true, false, OnOk, OnErr};
ghost use Rattle.task_bucket.specs.Lists.{has_uid, without_uid};
ghost use Rattle.backup_core.specs.Added.{IsFresh, added_one};

use std::alloc::AllocError;
use task_bucket::Bucket;
use task_kinds::Task;

/// The end of the uids and versions that a bucket takes.
const END: u64 = 1 << 63;

/// Adds a task under the next uid, available or asleep until a version. Where there is no memory, or
/// no such uid or version, nothing changes.
pub fn add<B: Bucket>(
    bucket: &mut B,
    next_uid: &mut u64,
    until: Option<u64>,
    task: Task,
) -> Result<(), AllocError>
    requires { IsFresh next_uid.old (B.lists bucket.old) }
    ensures lists { OnOk result
        (B.lists bucket.new ≡ added_one next_uid.old until task (B.lists bucket.old)) }
    ensures next { OnOk result (next_uid.new ≡ next_uid.old + 1) }
    ensures bound { OnOk result (next_uid.old < 2 ^ 63) }
    ensures fresh { OnOk result (IsFresh next_uid.new (B.lists bucket.new)) }
    ensures refused { OnErr result
        ((B.lists bucket.new ≡ B.lists bucket.old) × (next_uid.new ≡ next_uid.old)) }
{
    let uid = *next_uid;
    if END <= uid {
        return Err(AllocError);
    }
    put(bucket, uid, until, task)?;
    *next_uid = uid + 1;
    Ok(())
}

fn put<B: Bucket>(
    bucket: &mut B,
    uid: u64,
    until: Option<u64>,
    task: Task,
) -> Result<(), AllocError>
    requires bound { uid < 2 ^ 63 }
    requires fresh { has_uid uid (B.lists bucket.old) ≡ false }
    ensures ok { OnOk result
        (B.lists bucket.new ≡ added_one uid until task (B.lists bucket.old)) }
    ensures err { OnErr result (B.lists bucket.new ≡ B.lists bucket.old) }
{
    match until {
        None => bucket.add(uid, task),
        Some(until) if END <= until => Err(AllocError),
        Some(until) => bucket.add_asleep(until, uid, task),
    }
}

/// Takes the task out again that was added last, under this uid. It takes no memory.
pub fn take_back<B: Bucket>(bucket: &mut B, next_uid: &mut u64, uid: u64)
    requires { has_uid uid (B.lists bucket.old) ≡ true }
    ensures lists { B.lists bucket.new ≡ without_uid uid (B.lists bucket.old) }
    ensures next { next_uid.new ≡ uid }
{
    bucket.remove(uid);
    *next_uid = uid;
}
