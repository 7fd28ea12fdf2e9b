ghost use Rattle.std.specs.Prelude.{◌≡◌, ◌↔◌, ◌⊎◌, ◌+◌, ◌<◌, ◌^◌, ℕ, true, false, IsTrue, IfOk, IfErr, OnOk, OnErr, IsErrOf, Ok, Err, Some, if◌then◌else◌};
ghost use Rattle.task_bucket.specs.Lists.{Lists, has_uid, added, added_asleep, without_uid, without_job, is_leased, earliest_of};
ghost use Rattle.task_bucket.specs.Claims.{claimed, after_claim};
ghost use Rattle.task_bucket.specs.Leases.{extended, after_extend, after_finish};

use crate::{Lease, LeaseFault};
use std::alloc::AllocError;
use task_kinds::Task;

/// Tasks by their uids, in two lists: available, and leased until a version. A task may be added
/// asleep: then it is leased until a version to nobody.
///
/// Uids and versions are below 2 to the 63rd. A refused call leaves the lists.
pub trait Bucket {
    ghost lists: { Self → Lists };

    /// Adds an available task.
    fn add(&mut self, uid: u64, task: Task) -> Result<(), AllocError>
        requires bound { uid < 2 ^ 63 }
        requires fresh { has_uid uid (lists self.old) ≡ false }
        ensures ok { OnOk result (lists self.new ≡ added uid task (lists self.old)) }
        ensures err { OnErr result (lists self.new ≡ lists self.old) };

    /// Adds a task that nobody can claim before `until`.
    fn add_asleep(&mut self, until: u64, uid: u64, task: Task) -> Result<(), AllocError>
        requires until_bound { until < 2 ^ 63 }
        requires uid_bound { uid < 2 ^ 63 }
        requires fresh { has_uid uid (lists self.old) ≡ false }
        ensures ok { OnOk result (lists self.new ≡ added_asleep until uid task (lists self.old)) }
        ensures err { OnErr result (lists self.new ≡ lists self.old) };

    /// Leases a task until `now + lease`. Where nothing is available, what is due goes back first.
    /// It answers none exactly where nothing was available and nothing was due.
    fn claim(&mut self, now: u64, lease: u64, pick: u64) -> Result<Option<Lease>, AllocError>
        requires { now + lease < 2 ^ 63 }
        ensures answer { IfOk result (λ found. found ≡ claimed now lease pick (lists self.old)) }
        ensures ok { OnOk result (lists self.new ≡ after_claim now lease pick (lists self.old)) }
        ensures err { OnErr result (lists self.new ≡ lists self.old) };

    /// Gives a lease the until `now + length`.
    fn extend(&mut self, lease: &Lease, now: u64, length: u64) -> Result<Lease, LeaseFault>
        requires { now + length < 2 ^ 63 }
        ensures interrupted { IsErrOf result (LeaseFault.Interrupted lease.now.uid)
            ↔ (is_leased lease.now.until lease.now.uid (lists self.old) ≡ false) }
        ensures answer { IfOk result (λ new. extended lease.now (now + length) (lists self.old)
            ≡ Some new) }
        ensures ok { OnOk result
            (lists self.new ≡ after_extend lease.now (now + length) (lists self.old)) }
        ensures err { IfErr result (λ fault. (fault ≡ LeaseFault.Interrupted lease.now.uid)
            ⊎ (fault ≡ LeaseFault.NoMemory)) }
        ensures unchanged { OnErr result (lists self.new ≡ lists self.old) };

    /// Takes a leased task out of the bucket. It takes no memory.
    fn finish(&mut self, lease: &Lease) -> Result<(), LeaseFault>
        ensures answer { result
            ≡ (if is_leased lease.now.until lease.now.uid (lists self.old) then Ok tt
            else Err (LeaseFault.Interrupted lease.now.uid)) }
        ensures lists { lists self.new ≡ after_finish lease.now (lists self.old) };

    /// Whether the task is leased until that version. It takes no memory.
    fn holds(&self, until: u64, uid: u64) -> bool
        ensures { result ≡ is_leased until uid (lists self.now) };

    /// The least version that a task is leased until. It takes no memory.
    fn earliest(&self) -> Option<u64>
        ensures { result ≡ earliest_of (lists self.now) };

    /// Takes a job's tasks out of both lists. It takes no memory.
    fn drop_job(&mut self, job: u64)
        ensures { lists self.new ≡ without_job job (lists self.old) };

    /// Takes a task out again. It takes no memory.
    fn remove(&mut self, uid: u64)
        requires { has_uid uid (lists self.old) ≡ true }
        ensures { lists self.new ≡ without_uid uid (lists self.old) };
}
