ghost use Rattle.std.specs.Prelude.{◌≡◌, map, length};
ghost use Rattle.cluster_core.specs.Jobs as spec;

use crate::Job;
use std::marker::Model;

/// The jobs of a run, in the order of their numbers, which count on from 1.
#[derive(Debug, Drop)]
pub struct Jobs {
    jobs: Vec<Job>,
}

impl Model for Jobs {
    ghost use Rattle.std.specs.Prelude.{List, map};
    ghost use Rattle.cluster_core.specs.Jobs.{JobTold, job_told};

    ghost Value = { List JobTold };

    ghost view = { λ j. map job_told j.jobs.items };
}

impl Jobs {
    pub(crate) fn from_vec(jobs: Vec<Job>) -> Self
        ensures { result ≡ map spec.job_told jobs.items }
    {
        Jobs { jobs }
    }

    /// How many jobs there are.
    pub fn len(&self) -> usize
        ensures { result ≡ length self.now }
    {
        self.jobs.len()
    }

    pub fn as_slice(&self) -> &[Job]
        ensures { map spec.job_told result.now ≡ self.now }
    {
        &self.jobs
    }
}
