//! What the takes of a backup's tasks keep.

ghost use Rattle.std.specs.Prelude.{◌≡◌, ◌≤◌, Some, None, IfOk};
ghost use Rattle.mutations.specs.Histories.{logged};
ghost use Rattle.task_kinds.specs.Works.{work_of};
ghost use Rattle.snapshot_plan.specs.Noted.{gap, manifest_of};
ghost use Rattle.database.specs.Dumps.{pairs_at};
ghost use Rattle.database.specs.declared.JobLog.{JobLog};
ghost use Rattle.database.specs.Logs.{log_of};
ghost use Rattle.backup_core.specs.Backups.{map_of};
ghost use Rattle.backup_core.specs.Kept.{RangePart, LogPart, ManifestPart};
ghost use Rattle.backup_core.specs.Made.{part_in};
ghost use Rattle.backup_core.specs.Taken.{CanTake, HasRoom, taken_for};

use crate::{BackupJob, FilePart};
use database::Db;
use fb_bytes::KeyRange;
use range_files::Chunk;
use snapshot_plan::MapFault;
use std::alloc::AllocError;
use task_kinds::{Params, Task};
use versioned_kv::Versions;

impl BackupJob {
    /// What the take of an open task keeps: the pairs of its piece at `now`, what its span of
    /// versions logged, or the manifest. The job stays as it is.
    pub fn take(&self, versions: &Versions, db: &Db, task: &Task) -> Result<FilePart, AllocError>
        requires { CanTake db.now versions.now.now self.now task.now }
        ensures part { IfOk result
            (λ part. taken_for db.now versions.entry.now.now self.now (work_of task.now)
            ≡ Some (part_in part)) }
        ensures room { IfOk result (λ part. HasRoom (part_in part)) }
    {
        match task.params() {
            Params::Piece {
                snapshot,
                range,
                ..
            } => self.take_piece(versions, db, *snapshot, range),
            Params::Span { begin, end, .. } => self.take_span(db, *begin, *end),
            Params::Snapshot { .. } => self.take_manifest(),
            Params::Nothing => unreachable!(),
            Params::File { .. } => unreachable!(),
            Params::Range { .. } => unreachable!(),
        }
    }

    // The pairs of a piece at the newest version.
    fn take_piece(
        &self,
        versions: &Versions,
        db: &Db,
        snapshot: u64,
        range: &KeyRange,
    ) -> Result<FilePart, AllocError>
        requires { db.now.oldest ≤ versions.now.now }
        ensures { IfOk result
            (λ part. part_in part
            ≡ RangePart snapshot versions.entry.now.now
            (record {
              range = range.now;
              pairs =
                  pairs_at db.now.block db.now.history versions.entry.now.now range.now;
            })) }
    {
        let pairs = db.dump(versions, range)?;
        let chunk = Chunk {
            begin: range.begin.copy()?,
            end: range.end.copy()?,
            version: versions.now,
            pairs,
        };
        Ok(FilePart::Range { snapshot, chunk })
    }

    // What the job logged from one version on and before another.
    fn take_span(&self, db: &Db, begin: u64, end: u64) -> Result<FilePart, AllocError>
        requires { (log : JobLog) × (log_of db.now.logs self.now.terms.number ≡ Some log)
            × (log.ranges ≡ self.now.terms.ranges) × (log.erased ≤ begin) }
        ensures { IfOk result
            (λ part. part_in part
            ≡ LogPart begin end (logged db.now.history self.now.terms.ranges begin end)) }
    {
        let chunk = db.log_chunk(self.number(), begin, end)?;
        Ok(FilePart::Log { chunk })
    }

    // The manifest of what is noted.
    fn take_manifest(&self) -> Result<FilePart, AllocError>
        requires { gap (map_of self.now) ≡ None }
        ensures part { IfOk result
            (λ part. part_in part ≡ ManifestPart (manifest_of self.now.noted)) }
        ensures room { IfOk result (λ part. HasRoom (part_in part)) }
    {
        match self.manifest() {
            Ok(manifest) => Ok(FilePart::Manifest { manifest }),
            Err(MapFault::NoMemory) => Err(AllocError),
            Err(_) => unreachable!(),
        }
    }
}
