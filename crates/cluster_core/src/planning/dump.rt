//! The command `dump`: a piece of a job's ranges is put as a range file.

ghost use Rattle.std.specs.Prelude.{◌≡◌, ◌<◌, ◌≤◌, Some, slice_get, IfOk};
ghost use Rattle.block_frame.specs.Profiles.{key_limit_of};
ghost use Rattle.container_view.specs.Files as files;
ghost use Rattle.workload_text.specs.Commands.{IsPiece};
ghost use Rattle.database.specs.Commits.{most_version};
ghost use Rattle.backup_core.specs.Backups.{text_of, range_name};
ghost use Rattle.cluster_core.specs.declared.plan.Filing.{Filing};
ghost use Rattle.cluster_core.specs.inner.Filed as filed;
ghost use Rattle.cluster_core.specs.Jobs as jobs;
ghost use Rattle.cluster_core.specs.declared.job.Job.TheVariants as types;
ghost use Rattle.cluster_core.specs.inner.Plans.{IsPlanAt, IsSafe};
ghost use Rattle.cluster_core.specs.commands.Dump.{dump_piece, dump_name, dump_bytes, piece_bytes};

use crate::change::Change;
use crate::plan::{Filing, Plan};
use crate::{Backup, Refusal, World};
use backup_core::BackupJob;
use fb_bytes::{Blob, KeyRange, Text};
use fb_outside::Vault;
use file_names::{Name, print};
use range_files::{Chunk, write_range_at};
use snapshot_plan::{Done, MapFault};
use std::alloc::AllocError;
use versioned_kv::Versions;
use workload_text::Side;

impl<V: Vault> World<V> {
    pub(crate) fn plan_dump(&self, place: usize, piece: &KeyRange) -> Result<Plan, AllocError>
        requires at { (job : jobs.Job) × (slice_get self.now.state.jobs place ≡ Some job) }
        requires piece { IsPiece (key_limit_of self.now.workload.settings.block) piece.now }
        ensures plan { IfOk result (λ plan. (job : jobs.Job) → slice_get self.now.state.jobs place
            ≡ Some job → IsPlanAt self.now.workload.settings self.now.state
            (dump_piece self.now.workload.settings self.now.state piece.now)
            (record { place = place; job = job }) plan) }
        ensures safe { IfOk result (IsSafe self.now.state) }
    {
        let backup = self.backup_at(place);
        match backup.job().check(piece) {
            Ok(()) => {
                let filing = self.dump(place, backup, piece)?;
                Ok(Plan::Put(filing))
            }
            Err(MapFault::OutsideRanges { key }) => {
                Ok(Plan::Refuse(Refusal::OutsideRanges { key }))
            }
            Err(MapFault::Overlap { key }) => Ok(Plan::Refuse(Refusal::Overlap { key })),
            Err(MapFault::Untiled { .. } | MapFault::NoMemory) => Err(AllocError),
        }
    }

    // The range file of a piece, at the newest version.
    fn dump(&self, place: usize, backup: &Backup, piece: &KeyRange) -> Result<Filing, AllocError>
        requires at { slice_get self.now.state.jobs place ≡ Some (types.Backup backup.now) }
        requires piece { IsPiece (key_limit_of self.now.workload.settings.block) piece.now }
        ensures file { IfOk result
            (λ filing. filing
            ≡ record {
              place = place;
              change =
                  filed.dump_change self.now.workload.settings self.now.state backup.now piece.now;
              whole = files.whole_name backup.now.container
                  (dump_name self.now.workload.settings self.now.state backup.now);
              bytes =
                  dump_bytes self.now.workload.settings self.now.state backup.now piece.now;
            }) }
        ensures drawn { IfOk result (λ _. self.now.state.tickets ≤ most_version) }
    {
        let _sound = &self.workload;
        let name = self.range_name(backup.job())?;
        let bytes = self.range_bytes(backup.side(), piece)?;
        let file = Done {
            name: name.copy()?,
            version: self.versions.now,
            bytes: bytes.len() as u64,
        };
        let change = Change::Dump {
            piece: piece.copy()?,
            now: self.versions.now,
            file,
        };
        self.filing(place, backup, change, &name, bytes)
    }

    // The name of a range file of the newest version.
    fn range_name(&self, job: &BackupJob) -> Result<Text, AllocError>
        requires { job.now.snapshot ≤ self.now.state.time }
        ensures name { IfOk result
            (λ name. name
            ≡ text_of (range_name job.now self.now.state.time self.now.state.tickets
            self.now.workload.settings.block)) }
        ensures drawn { IfOk result (λ _. self.now.state.tickets ≤ most_version) }
    {
        if self.tickets > Versions::MOST {
            return Err(AllocError);
        }
        let now = self.versions.now;
        print(
            self.alloc,
            &Name::Range {
                snapshot: job.snapshot_at(now),
                version: now,
                ticket: self.tickets,
                block: self.workload.settings.block,
            },
        )
    }

    // The bytes of the range file of a piece.
    fn range_bytes(&self, side: Side, piece: &KeyRange) -> Result<Blob, AllocError>
        requires { IsPiece (key_limit_of self.now.workload.settings.block) piece.now }
        ensures { IfOk result
            (λ bytes. bytes
            ≡ piece_bytes self.now.workload.settings self.now.state side piece.now) }
    {
        let pairs = self.db(side).dump(&self.versions, piece)?;
        let chunk = Chunk {
            begin: piece.begin.copy()?,
            end: piece.end.copy()?,
            version: self.versions.now,
            pairs,
        };
        write_range_at(self.alloc, self.workload.settings.block, &chunk)
    }
}
