//! The closes of a backup's tasks, a function for each kind. A close that is refused changes nothing.

ghost use Rattle.std.specs.Prelude.{◌≡◌, ◌+◌, ◌<◌, ◌≤◌, ◌^◌, ◌⊎◌, ◌&&◌, [], ◌∷◌, None, Ok, Err, IfErr, OnOk, OnErr};
ghost use Rattle.std.specs.List.{AllByRecursion};
ghost use Rattle.mutations.specs.declared.Entry.{Entry};
ghost use Rattle.task_kinds.specs.Works.{BackupDispatch, BackupLogs};
ghost use Rattle.task_bucket.specs.Leases.{after_finish};
ghost use Rattle.database.specs.declared.SystemFault.{SystemFault};
ghost use Rattle.database.specs.Commits.{next_version};
ghost use Rattle.database.specs.Logs.{log_of, with_log, without_log, with_erased};
ghost use Rattle.backup_core.specs.Added.{IsFresh, added_all};
ghost use Rattle.backup_core.specs.Closed.{close_fault, log_at};
ghost use Rattle.backup_core.specs.Rows as rows;
ghost use Rattle.backup_core.specs.Tasks.{at_once};

use crate::adding::{add, take_back};
use crate::starting::plain_task;
use crate::{BackupJob, CloseFault};
use database::Db;
use std::alloc::AllocError;
use task_bucket::{Bucket, Lease};
use task_kinds::Kind;
use versioned_kv::Versions;

/// Takes the closed task out of the bucket. It takes no memory.
fn finish<B: Bucket>(bucket: &mut B, lease: &Lease)
    ensures { B.lists bucket.new ≡ after_finish lease.now (B.lists bucket.old) }
{
    let _done = bucket.finish(lease);
}

/// Adds the dispatches with which both lines of a backup begin. Where one is refused, neither is
/// added.
fn add_dispatches<B: Bucket>(
    bucket: &mut B,
    next_uid: &mut u64,
    number: u64,
) -> Result<(), AllocError>
    requires numbered { 1 ≤ number }
    requires bounded { number < 2 ^ 63 }
    requires fresh { IsFresh next_uid.old (B.lists bucket.old) }
    ensures lists { OnOk result
        (B.lists bucket.new
        ≡ added_all number 0 0 next_uid.old (at_once BackupDispatch ∷ at_once BackupLogs ∷ [])
        (B.lists bucket.old)) }
    ensures next { OnOk result (next_uid.new ≡ next_uid.old + 2) }
    ensures bound { OnOk result (next_uid.old < 2 ^ 63) }
    ensures refused { OnErr result
        ((B.lists bucket.new ≡ B.lists bucket.old) × (next_uid.new ≡ next_uid.old)) }
{
    let first = *next_uid;
    add(
        bucket,
        next_uid,
        None,
        plain_task(number, Kind::BackupDispatch),
    )?;
    match add(bucket, next_uid, None, plain_task(number, Kind::BackupLogs)) {
        Ok(()) => Ok(()),
        Err(fault) => {
            take_back(bucket, next_uid, first);
            Err(fault)
        }
    }
}

/// Adds the next log dispatch, at once or asleep.
fn add_logs<B: Bucket>(
    bucket: &mut B,
    next_uid: &mut u64,
    number: u64,
    awake: bool,
    until: u64,
) -> Result<(), AllocError>
    requires numbered { 1 ≤ number }
    requires bounded { number < 2 ^ 63 }
    requires fresh { IsFresh next_uid.old (B.lists bucket.old) }
    ensures lists { OnOk result
        (B.lists bucket.new
        ≡ added_all number 0 0 next_uid.old (rows.next_logs awake until ∷ [])
        (B.lists bucket.old)) }
    ensures next { OnOk result (next_uid.new ≡ next_uid.old + 1) }
    ensures refused { OnErr result
        ((B.lists bucket.new ≡ B.lists bucket.old) × (next_uid.new ≡ next_uid.old)) }
{
    if awake {
        add(bucket, next_uid, None, plain_task(number, Kind::BackupLogs))
    } else {
        add(
            bucket,
            next_uid,
            Some(until),
            plain_task(number, Kind::BackupLogs),
        )
    }
}

impl BackupJob {
    /// Its log begins at a version that is taken for it, and both lines of its tasks begin.
    pub(crate) fn close_start<B: Bucket>(
        &mut self,
        versions: &mut Versions,
        db: &mut Db,
        bucket: &mut B,
        next_uid: &mut u64,
        lease: &Lease,
    ) -> Result<(), CloseFault>
        requires numbered { 1 ≤ self.old.terms.number }
        requires bounded { self.old.terms.number < 2 ^ 63 }
        requires free { log_of db.old.logs self.old.terms.number ≡ None }
        requires pace { 1 ≤ versions.old.pace }
        requires past { AllByRecursion (λ (entry : Entry). entry.version ≤ versions.old.now)
            db.old.history }
        requires fresh { IsFresh next_uid.old (B.lists bucket.old) }
        ensures version { OnOk result
            (next_version versions.old.now versions.old.pace ≡ Ok versions.new.now) }
        ensures pace { OnOk result (versions.new.pace ≡ versions.old.pace) }
        ensures job { OnOk result (self.new ≡ rows.begun versions.new.now self.old) }
        ensures db { OnOk result
            (db.new
            ≡ record db.old {
              logs = with_log (log_at versions.new.now self.old) db.old.logs;
            }) }
        ensures lists { OnOk result
            (B.lists bucket.new
            ≡ after_finish lease.now
            (added_all self.old.terms.number 0 0 next_uid.old
            (rows.start_row versions.new.now self.old).adds (B.lists bucket.old))) }
        ensures next { OnOk result (next_uid.new ≡ next_uid.old + 2) }
        ensures err { IfErr result (λ fault. (fault ≡ CloseFault.NoMemory)
            ⊎ ((system : SystemFault)
            × (next_version versions.old.now versions.old.pace ≡ Err system)
            × (fault ≡ close_fault system))) }
        ensures refused { OnErr result
            ((self.new ≡ self.old) × (versions.new ≡ versions.old) × (db.new ≡ db.old)
            × (B.lists bucket.new ≡ B.lists bucket.old) × (next_uid.new ≡ next_uid.old)) }
    {
        let first = *next_uid;
        let number = self.number();
        add_dispatches(bucket, next_uid, number)?;
        match db.add_log(versions, number, self.ranges()) {
            Ok(version) => {
                self.begin_log(version);
                finish(bucket, lease);
                Ok(())
            }
            Err(fault) => {
                take_back(bucket, next_uid, first + 1);
                take_back(bucket, next_uid, first);
                Err(CloseFault::from(fault))
            }
        }
    }

    /// What its log files have is erased from its log, and the next dispatch is added: at once where it
    /// ends after its snapshot, which is done.
    pub(crate) fn close_erase<B: Bucket>(
        &mut self,
        versions: &Versions,
        db: &mut Db,
        bucket: &mut B,
        next_uid: &mut u64,
        lease: &Lease,
    ) -> Result<(), AllocError>
        requires numbered { 1 ≤ self.old.terms.number }
        requires bounded { self.old.terms.number < 2 ^ 63 }
        requires fresh { IsFresh next_uid.old (B.lists bucket.old) }
        ensures job { OnOk result (self.new ≡ rows.erased_job self.old) }
        ensures db { OnOk result
            (db.new
            ≡ record db.old {
              logs = with_erased self.old.terms.number self.old.next db.old.logs;
            }) }
        ensures lists { OnOk result
            (B.lists bucket.new
            ≡ after_finish lease.now
            (added_all self.old.terms.number 0 0 next_uid.old
            (rows.next_logs (rows.is_ending self.old && self.old.done)
            (versions.entry.now.now + self.old.terms.settings.rest) ∷ [])
            (B.lists bucket.old))) }
        ensures next { OnOk result (next_uid.new ≡ next_uid.old + 1) }
        ensures refused { OnErr result
            ((self.new ≡ self.old) × (db.new ≡ db.old)
            × (B.lists bucket.new ≡ B.lists bucket.old) × (next_uid.new ≡ next_uid.old)) }
    {
        let awake = self.ends() && self.is_done();
        let until = versions
            .now
            .checked_add(self.settings().rest)
            .ok_or(AllocError)?;
        add_logs(bucket, next_uid, self.number(), awake, until)?;
        db.erase_log(self.number(), self.next());
        self.erase_logged();
        finish(bucket, lease);
        Ok(())
    }

    /// It is completed, and logs no more. It takes no memory.
    pub(crate) fn close_finish<B: Bucket>(&mut self, db: &mut Db, bucket: &mut B, lease: &Lease)
        ensures job { self.new ≡ rows.finished self.old }
        ensures db { db.new
            ≡ record db.old { logs = without_log self.old.terms.number db.old.logs } }
        ensures lists { B.lists bucket.new ≡ after_finish lease.now (B.lists bucket.old) }
    {
        db.end_log(self.number());
        self.complete();
        finish(bucket, lease);
    }
}
