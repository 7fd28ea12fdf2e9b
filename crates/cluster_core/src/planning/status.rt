//! The command `status`: the state of a job is told.

ghost use Rattle.std.specs.Prelude.{◌≡◌, ◌<◌, Some, option_map};
ghost use Rattle.cluster_core.specs.Jobs as jobs;

use crate::{JobState, World};
use fb_bytes::Text;
use fb_outside::Vault;

impl<V: Vault> World<V> {
    // The state of the newest job with the tag.
    pub(crate) fn state_of(&self, tag: &Text) -> Option<JobState>
        ensures { result ≡ option_map (λ (found : jobs.Found). jobs.state_of_job found.job)
            (jobs.newest tag.now self.now.state.jobs) }
    {
        let (_, job) = self.found(tag)?;
        Some(job.state())
    }
}
