//! The close of a range task.

ghost use Rattle.std.specs.Prelude.{◌≡◌, ◌+◌, ◌≤◌, false, length, None, IfOk, OnOk, OnErr};
ghost use Rattle.std.specs.Option.{option_to_list};
ghost use Rattle.fb_bytes.specs.Keys.{is_backwards};
ghost use Rattle.snapshot_plan.specs.Noted.{fault_of};
ghost use Rattle.task_bucket.specs.Leases.{after_finish};
ghost use Rattle.task_bucket.specs.Lists.{added};
ghost use Rattle.task_futures.specs.Futures.{due_of, unblocked};
ghost use Rattle.backup_core.specs.Added.{IsFresh, added_due};
ghost use Rattle.backup_core.specs.Backups.{map_of};
ghost use Rattle.backup_core.specs.Rows as rows;

use crate::BackupJob;
use crate::adding::{add, take_back};
use fb_bytes::KeyRange;
use snapshot_plan::{Done, MapFault};
use std::alloc::AllocError;
use task_bucket::{Bucket, Lease};
use task_futures::Futures;
use task_kinds::Task;

/// The task that is due once the block falls, where there is one.
fn due_task<F: Futures>(futures: &F, future: u64, block: u64) -> Result<Option<Task>, AllocError>
    requires { length (due_of future block (F.futures futures.now)) ≤ 1 }
    ensures { IfOk result
        (λ task. due_of future block (F.futures futures.now) ≡ option_to_list task) }
{
    let due = futures.due(future, block)?;
    match due.as_slice() {
        [] => Ok(None),
        [task] => {
            let task = task.copy()?;
            Ok(Some(task))
        }
        _ => unreachable!(),
    }
}

impl BackupJob {
    /// The file of its piece is noted, and what comes after the last piece is added.
    pub(crate) fn close_range<B: Bucket, F: Futures>(
        &mut self,
        bucket: &mut B,
        futures: &mut F,
        next_uid: &mut u64,
        lease: &Lease,
        waiter: (u64, u64),
        piece: &KeyRange,
        file: &Done,
    ) -> Result<(), AllocError>
        requires proper { is_backwards piece.now ≡ false }
        requires free { fault_of (map_of self.old) piece.now ≡ None }
        requires few { length (due_of waiter.0 waiter.1 (F.futures futures.old)) ≤ 1 }
        requires fresh { IsFresh next_uid.old (B.lists bucket.old) }
        ensures job { OnOk result (self.new ≡ rows.noting piece.now file.now self.old) }
        ensures lists { OnOk result
            (B.lists bucket.new
            ≡ after_finish lease.now
            (added_due next_uid.old (due_of waiter.0 waiter.1 (F.futures futures.old))
            (B.lists bucket.old))) }
        ensures next { OnOk result
            (next_uid.new
            ≡ next_uid.old + length (due_of waiter.0 waiter.1 (F.futures futures.old))) }
        ensures futures { OnOk result
            (F.futures futures.new ≡ unblocked waiter.0 waiter.1 (F.futures futures.old)) }
        ensures refused { OnErr result
            ((self.new ≡ self.old) × (B.lists bucket.new ≡ B.lists bucket.old)
            × (F.futures futures.new ≡ F.futures futures.old)
            × (next_uid.new ≡ next_uid.old)) }
    {
        let (future, block) = waiter;
        let piece = piece.copy()?;
        let file = file.copy()?;
        let after = due_task(futures, future, block)?;
        self.note_then(bucket, next_uid, after, piece, file)?;
        futures.unblock(future, block);
        let _done = bucket.finish(lease);
        Ok(())
    }

    // Notes the file, and adds the task that comes then, where there is one.
    fn note_then<B: Bucket>(
        &mut self,
        bucket: &mut B,
        next_uid: &mut u64,
        after: Option<Task>,
        piece: KeyRange,
        file: Done,
    ) -> Result<(), AllocError>
        requires proper { is_backwards piece ≡ false }
        requires free { fault_of (map_of self.old) piece ≡ None }
        requires fresh { IsFresh next_uid.old (B.lists bucket.old) }
        ensures job { OnOk result (self.new ≡ rows.noting piece file self.old) }
        ensures lists { OnOk result
            (B.lists bucket.new
            ≡ added_due next_uid.old (option_to_list after) (B.lists bucket.old)) }
        ensures next { OnOk result
            (next_uid.new ≡ next_uid.old + length (option_to_list after)) }
        ensures refused { OnErr result
            ((self.new ≡ self.old) × (B.lists bucket.new ≡ B.lists bucket.old)
            × (next_uid.new ≡ next_uid.old)) }
    {
        match after {
            None => self.note_file(piece, file),
            Some(task) => self.note_and_add(bucket, next_uid, task, piece, file),
        }
    }

    fn note_and_add<B: Bucket>(
        &mut self,
        bucket: &mut B,
        next_uid: &mut u64,
        task: Task,
        piece: KeyRange,
        file: Done,
    ) -> Result<(), AllocError>
        requires proper { is_backwards piece ≡ false }
        requires free { fault_of (map_of self.old) piece ≡ None }
        requires fresh { IsFresh next_uid.old (B.lists bucket.old) }
        ensures job { OnOk result (self.new ≡ rows.noting piece file self.old) }
        ensures lists { OnOk result
            (B.lists bucket.new ≡ added next_uid.old task (B.lists bucket.old)) }
        ensures next { OnOk result (next_uid.new ≡ next_uid.old + 1) }
        ensures refused { OnErr result
            ((self.new ≡ self.old) × (B.lists bucket.new ≡ B.lists bucket.old)
            × (next_uid.new ≡ next_uid.old)) }
    {
        let first = *next_uid;
        add(bucket, next_uid, None, task)?;
        match self.note_file(piece, file) {
            Ok(()) => Ok(()),
            Err(fault) => {
                take_back(bucket, next_uid, first);
                Err(fault)
            }
        }
    }

    // Notes the file of a piece that can be noted.
    fn note_file(&mut self, piece: KeyRange, file: Done) -> Result<(), AllocError>
        requires proper { is_backwards piece ≡ false }
        requires free { fault_of (map_of self.old) piece ≡ None }
        ensures ok { OnOk result (self.new ≡ rows.noting piece file self.old) }
        ensures err { OnErr result (self.new ≡ self.old) }
    {
        match self.note(piece, file) {
            Ok(()) => Ok(()),
            Err(MapFault::NoMemory) => Err(AllocError),
            Err(_) => unreachable!(),
        }
    }
}
