//! What the closes of its tasks change of a backup. Each step takes no memory, unless it says so.

ghost use Rattle.std.specs.Prelude.{◌≡◌, ◌⊎◌, false, None, Some, IfErr, OnOk, OnErr};
ghost use Rattle.fb_bytes.specs.Keys.{is_backwards};
ghost use Rattle.snapshot_plan.specs.Noted.{fault_of};
ghost use Rattle.backup_core.specs.Backups.{map_of};
ghost use Rattle.backup_core.specs.Rows as rows;

use super::BackupJob;
use crate::Mode;
use fb_bytes::KeyRange;
use snapshot_plan::{Done, MapFault};
use task_kinds::JobState;

impl BackupJob {
    /// Its log begins at the version, and it runs.
    pub(crate) fn begin_log(&mut self, version: u64)
        ensures { self.new ≡ rows.begun version self.old }
    {
        self.state = JobState::Running;
        self.started = true;
        self.begin = version;
        self.erased = version;
        self.next = version;
    }

    /// A new snapshot begins with no piece.
    pub(crate) fn dispatch(&mut self, now: u64)
        ensures { self.new ≡ rows.dispatched now self.old }
    {
        self.map.clear();
        self.snapshot = now;
        self.done = false;
    }

    /// The file of a piece is noted, for which memory is asked for. Where it is refused, the job stays
    /// as it was.
    pub(crate) fn note(&mut self, piece: KeyRange, file: Done) -> Result<(), MapFault>
        requires { is_backwards piece ≡ false }
        ensures err { IfErr result (λ fault. (fault ≡ MapFault.NoMemory)
            ⊎ (fault_of (map_of self.old) piece ≡ Some fault)) }
        ensures noted { OnOk result (self.new ≡ rows.noting piece file self.old) }
        ensures refused { OnErr result (self.new ≡ self.old) }
    {
        self.map.done(piece, file)?;
        Ok(())
    }

    /// Its snapshot is done, and this is its greatest version.
    pub(crate) fn seal_to(&mut self, last: u64)
        ensures { self.new ≡ rows.sealed_to last self.old }
    {
        self.done = true;
        self.last = last;
    }

    /// Its log tasks reach to this version.
    pub(crate) fn log_to(&mut self, next: u64)
        ensures { self.new ≡ rows.logging_to next self.old }
    {
        self.next = next;
    }

    /// What its log files have is erased.
    pub(crate) fn erase_logged(&mut self)
        ensures { self.new ≡ rows.erased_job self.old }
    {
        self.erased = self.next;
    }

    /// It is completed.
    pub(crate) fn complete(&mut self)
        ensures { self.new ≡ rows.finished self.old }
    {
        self.state = JobState::Completed;
    }

    /// Where its log has caught up with its snapshot, a continuous job that isn't told to end is
    /// running-differential.
    pub(crate) fn settle(&mut self, caught_up: bool)
        ensures { self.new
            ≡ record self.old {
              state =
                  rows.state_after self.old.terms.mode self.old.ending caught_up self.old.state;
            } }
    {
        match self.mode {
            Mode::Continuous if !self.ending && caught_up => {
                self.state = JobState::RunningDifferential;
            }
            Mode::Hand | Mode::Once | Mode::Continuous => {}
        }
    }

    /// It ends after its snapshot.
    pub(crate) fn ends(&self) -> bool
        ensures { result ≡ rows.is_ending self.now }
    {
        self.ending || is_once(self.mode)
    }

    /// Its snapshot is done, and its log tasks reach past the snapshot's greatest version.
    pub(crate) fn is_past(&self) -> bool
        ensures { result ≡ rows.is_past self.now }
    {
        self.done && self.last < self.next
    }
}

fn is_once(mode: Mode) -> bool
    ensures { result ≡ rows.is_once mode }
{
    match mode {
        Mode::Once => true,
        Mode::Hand | Mode::Continuous => false,
    }
}
