//! What the commands share: the newest job with a tag, and the file of a job.

ghost use Rattle.std.specs.Prelude.{◌≡◌, ◌≤◌, ◌<◌, Some, option_map, slice_get, IfOk};
ghost use Rattle.container_view.specs.Files as files;
ghost use Rattle.cluster_core.specs.declared.plan.Filing.{Filing};
ghost use Rattle.cluster_core.specs.Jobs as jobs;
ghost use Rattle.cluster_core.specs.declared.job.Job.TheVariants as types;
ghost use Rattle.cluster_core.specs.State.{history_on};
ghost use Rattle.cluster_core.specs.inner.Plans.{IsRunning};

use crate::change::Change;
use crate::job::newest;
use crate::plan::{Filing, Running};
use crate::{Backup, Job, Refusal, World};
use container_view::whole_name;
use database::Db;
use fb_bytes::{Blob, Text};
use fb_outside::Vault;
use std::alloc::AllocError;
use workload_text::Side;

impl<V: Vault> World<V> {
    // The place of the newest job with the tag, which has to be there and may not have ended.
    pub(crate) fn running(&self, tag: &Text) -> Result<Running, AllocError>
        ensures { IfOk result (IsRunning self.now.state tag.now) }
    {
        let Some((place, job)) = self.found(tag) else {
            let tag = tag.copy()?;
            return Ok(Running::Refused(Refusal::NoJob { tag }));
        };
        let state = job.state();
        if state.has_ended() {
            return Ok(Running::Refused(Refusal::WrongState { state }));
        }
        Ok(Running::At(place))
    }

    // The newest job with the tag, and its place.
    pub(crate) fn found(&self, tag: &Text) -> Option<(usize, &Job)>
        ensures { option_map (λ found. record { place = found.0; job = found.1.now }) result
            ≡ jobs.newest tag.now self.now.state.jobs }
    {
        let place = newest(&self.jobs, tag)?;
        Some((place, &self.jobs[place]))
    }

    // The backup at a place. The cases of a job's type stand here alone.
    pub(crate) fn backup_at(&self, place: usize) -> &Backup
        requires { (job : jobs.Job) × (slice_get self.now.state.jobs place ≡ Some job) }
        ensures { slice_get self.now.state.jobs place ≡ Some (types.Backup result.now) }
    {
        match &self.jobs[place] {
            Job::Backup(backup) => backup,
        }
    }

    // The database of a side.
    pub(crate) fn db(&self, side: Side) -> &Db
        ensures history { result.now.history ≡ history_on side self.now.state }
        ensures block { result.now.block ≡ self.now.workload.settings.block }
        ensures logs { result.now.logs ≡ jobs.logs_of side self.now.state.jobs }
        ensures oldest { result.now.oldest ≤ self.now.state.time }
    {
        match side {
            Side::Src => &self.src,
            Side::Dst => &self.dst,
        }
    }

    // The file of a backup that changes by it.
    pub(crate) fn filing(
        &self,
        place: usize,
        backup: &Backup,
        change: Change,
        name: &Text,
        bytes: Blob,
    ) -> Result<Filing, AllocError>
        ensures { IfOk result
            (λ filing. filing
            ≡ record {
              place = place;
              change = change;
              whole = files.whole_name backup.now.container name.now;
              bytes = bytes;
            }) }
    {
        let whole = whole_name(self.alloc, backup.container(), name.as_str())?;
        Ok(Filing {
            place,
            change,
            whole,
            bytes,
        })
    }
}
