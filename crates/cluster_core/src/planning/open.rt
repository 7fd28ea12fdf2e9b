//! The command `open`: a job is started.

ghost use Rattle.std.specs.Prelude.{◌≡◌, ◌<◌, false, Some, None, IfOk};
ghost use Rattle.cluster_core.specs.Jobs as jobs;
ghost use Rattle.cluster_core.specs.Moves.{Luck};
ghost use Rattle.cluster_core.specs.inner.Plans.{planned, IsSafe};
ghost use Rattle.cluster_core.specs.commands.Open.{open_job};
ghost use Rattle.cluster_core.specs.commands.Open as spec;

use crate::job::started_in;
use crate::plan::Plan;
use crate::{Refusal, World};
use fb_bytes::{Ranges, Text};
use fb_outside::Vault;
use std::alloc::AllocError;
use workload_text::Side;

impl<V: Vault> World<V> {
    pub(crate) fn plan_open(
        &self,
        tag: &Text,
        side: Side,
        container: &Text,
        ranges: &Ranges,
    ) -> Result<Plan, AllocError>
        ensures plan { IfOk result (λ plan. (luck : Luck)
            → open_job self.now.workload.settings self.now.state tag.now side container.now
            ranges.now luck ≡ planned self.now.workload.settings self.now.state luck plan) }
        ensures safe { IfOk result (IsSafe self.now.state) }
    {
        if self.is_busy(tag) {
            let tag = tag.copy()?;
            return Ok(Plan::Refuse(Refusal::TagBusy { tag }));
        }
        if let Some(job) = started_in(&self.jobs, container) {
            let tag = job.tag().copy()?;
            return Ok(Plan::Refuse(Refusal::ContainerTaken { tag }));
        }
        let tag = tag.copy()?;
        let container = container.copy()?;
        let ranges = ranges.copy()?;
        Ok(Plan::Open {
            tag,
            side,
            container,
            ranges,
        })
    }

    // Whether the newest job with the tag hasn't ended.
    fn is_busy(&self, tag: &Text) -> bool
        ensures { result ≡ spec.is_busy (jobs.newest tag.now self.now.state.jobs) }
    {
        match self.found(tag) {
            Some((_, job)) => !job.state().has_ended(),
            None => false,
        }
    }
}
