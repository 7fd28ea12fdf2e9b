//! The command `cut`: what a job logged since the last one is put as a log file.

ghost use Rattle.std.specs.Prelude.{◌≡◌, ◌<◌, ◌≤◌, false, Some, slice_get, IfOk};
ghost use Rattle.container_view.specs.Files as files;
ghost use Rattle.database.specs.Commits.{most_version};
ghost use Rattle.backup_core.specs.Backups.{text_of, log_name};
ghost use Rattle.cluster_core.specs.declared.change.Change.TheVariants as changes;
ghost use Rattle.cluster_core.specs.declared.plan.Filing.{Filing};
ghost use Rattle.cluster_core.specs.Jobs as jobs;
ghost use Rattle.cluster_core.specs.declared.job.Job.TheVariants as types;
ghost use Rattle.task_kinds.specs.States.{has_ended};
ghost use Rattle.cluster_core.specs.inner.Plans.{IsPlanAt, IsSafe};
ghost use Rattle.cluster_core.specs.commands.Cut.{cut_log, cut_name, cut_bytes};

use crate::change::Change;
use crate::plan::{Filing, Plan};
use crate::{Backup, Refusal, World};
use backup_core::BackupJob;
use fb_bytes::{Blob, Text};
use fb_outside::Vault;
use file_names::{Name, print};
use log_files::write_log_at;
use std::alloc::AllocError;
use versioned_kv::Versions;

impl<V: Vault> World<V> {
    pub(crate) fn plan_cut(&self, place: usize) -> Result<Plan, AllocError>
        requires at { (job : jobs.Job) × (slice_get self.now.state.jobs place ≡ Some job)
            × (has_ended (jobs.state_of_job job) ≡ false) }
        ensures plan { IfOk result (λ plan. (job : jobs.Job) → slice_get self.now.state.jobs place
            ≡ Some job → IsPlanAt self.now.workload.settings self.now.state
            (cut_log self.now.workload.settings self.now.state)
            (record { place = place; job = job }) plan) }
        ensures safe { IfOk result (IsSafe self.now.state) }
    {
        let backup = self.backup_at(place);
        let version = self.versions.now;
        if version < backup.job().next() {
            return Ok(Plan::Refuse(Refusal::NothingNew { version }));
        }
        let filing = self.cut(place, backup)?;
        Ok(Plan::Put(filing))
    }

    // The log file from the last cut to the newest version.
    fn cut(&self, place: usize, backup: &Backup) -> Result<Filing, AllocError>
        requires at { slice_get self.now.state.jobs place ≡ Some (types.Backup backup.now) }
        requires running { has_ended backup.now.job.state ≡ false }
        requires some { backup.now.job.next ≤ self.now.state.time }
        ensures file { IfOk result
            (λ filing. filing ≡ record {
              place = place;
              change = changes.Cut self.now.state.time;
              whole = files.whole_name backup.now.container
                  (cut_name self.now.workload.settings self.now.state backup.now);
              bytes =
                  cut_bytes self.now.workload.settings self.now.state backup.now;
            }) }
        ensures drawn { IfOk result (λ _. self.now.state.tickets ≤ most_version) }
    {
        let name = self.log_name(backup.job())?;
        let bytes = self.log_bytes(place, backup)?;
        let change = Change::Cut {
            now: self.versions.now,
        };
        self.filing(place, backup, change, &name, bytes)
    }

    // The name of a log file that ends past the newest version.
    fn log_name(&self, job: &BackupJob) -> Result<Text, AllocError>
        requires { job.now.next ≤ self.now.state.time }
        ensures name { IfOk result
            (λ name. name
            ≡ text_of (log_name job.now self.now.state.time self.now.state.tickets
            self.now.workload.settings.block)) }
        ensures drawn { IfOk result (λ _. self.now.state.tickets ≤ most_version) }
    {
        if self.tickets > Versions::MOST {
            return Err(AllocError);
        }
        print(
            self.alloc,
            &Name::Log {
                begin: job.next(),
                end: self.versions.now + 1,
                ticket: self.tickets,
                block: self.workload.settings.block,
            },
        )
    }

    // The bytes of the log file of a job's log from its last cut on.
    fn log_bytes(&self, place: usize, backup: &Backup) -> Result<Blob, AllocError>
        requires at { slice_get self.now.state.jobs place ≡ Some (types.Backup backup.now) }
        requires running { has_ended backup.now.job.state ≡ false }
        requires some { backup.now.job.next ≤ self.now.state.time }
        ensures { IfOk result
            (λ bytes. bytes
            ≡ cut_bytes self.now.workload.settings self.now.state backup.now) }
    {
        let end = self.versions.now + 1;
        let number = place as u64 + 1;
        let db = self.db(backup.side());
        let chunk = db.log_chunk(number, backup.job().next(), end)?;
        write_log_at(self.alloc, self.workload.settings.block, &chunk)
    }
}
