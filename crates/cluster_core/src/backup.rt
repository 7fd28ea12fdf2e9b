//! A backup among the jobs.

ghost use Rattle.std.specs.Prelude.{◌≡◌, IfOk, OnOk, OnErr};
ghost use Rattle.backup_core.specs.Backups.{aborted_job};
ghost use Rattle.cluster_core.specs.inner.Filed.{CanChange, backup_ahead, settled_backup, backup_back};

use crate::change::Change;
use backup_core::BackupJob;
use fb_bytes::Text;
use std::alloc::AllocError;
use std::marker::Model;
use workload_text::Side;

/// A backup: its tag, the database that it reads, the container that it writes to, and what its
/// crate keeps.
#[derive(Debug, Drop)]
pub struct Backup {
    tag: Text,
    side: Side,
    container: Text,
    job: BackupJob,
}

impl Model for Backup {
    ghost use Rattle.cluster_core.specs.Backups as spec;

    ghost Value = { spec.Backup };

    ghost view = { λ backup. record {
      tag = backup.tag;
      side = backup.side;
      container = backup.container;
      job = backup.job;
    } };
}

impl Backup {
    pub(crate) fn new(tag: Text, side: Side, container: Text, job: BackupJob) -> Self
        ensures { result ≡ record { tag = tag; side = side; container = container; job = job } }
    {
        Backup {
            tag,
            side,
            container,
            job,
        }
    }

    pub fn tag(&self) -> &Text
        ensures { result.now ≡ self.now.tag }
    {
        &self.tag
    }

    /// The database that it reads.
    pub fn side(&self) -> Side
        ensures { result ≡ self.now.side }
    {
        self.side
    }

    /// The container that it writes to.
    pub fn container(&self) -> &Text
        ensures { result.now ≡ self.now.container }
    {
        &self.container
    }

    pub(crate) fn job(&self) -> &BackupJob
        ensures { result.now ≡ self.now.job }
    {
        &self.job
    }

    /// What takes memory of a change is made. It answers the number that the job's snapshot had.
    pub(crate) fn go_ahead(&mut self, change: &Change) -> Result<u64, AllocError>
        requires { CanChange change.now }
        ensures before { IfOk result (λ snapshot. snapshot ≡ self.old.job.snapshot) }
        ensures ok { OnOk result (self.new ≡ backup_ahead change.now self.old) }
        ensures err { OnErr result (self.new ≡ self.old) }
    {
        let snapshot = self.job.snapshot();
        match change {
            Change::Dump { piece, now, file } => {
                let piece = piece.copy()?;
                let file = file.copy()?;
                match self.job.dump(piece, *now, file) {
                    Ok(()) => Ok(snapshot),
                    Err(_) => Err(AllocError),
                }
            }
            Change::Cut { .. } | Change::Seal => Ok(snapshot),
        }
    }

    /// The rest of a change. It takes no memory.
    pub(crate) fn settle(&mut self, change: &Change)
        requires { CanChange change.now }
        ensures { self.new ≡ settled_backup change.now self.old }
    {
        match change {
            Change::Dump { .. } => {}
            Change::Cut { now } => self.job.cut_to(*now),
            Change::Seal => self.job.seal(),
        }
    }

    /// Takes back what was made of a change, before which the snapshot had this number. It takes no
    /// memory.
    pub(crate) fn take_back(&mut self, change: &Change, snapshot: u64)
        ensures { self.new ≡ backup_back change.now snapshot self.old }
    {
        match change {
            Change::Dump { piece, .. } => self.job.take_back(piece.begin.as_slice(), snapshot),
            Change::Cut { .. } | Change::Seal => {}
        }
    }

    /// It takes no memory.
    pub(crate) fn abort(&mut self)
        ensures { self.new ≡ record self.old { job = aborted_job self.old.job } }
    {
        self.job.abort();
    }
}
