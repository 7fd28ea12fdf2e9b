ghost use Rattle.std.specs.Prelude.{◌≡◌};
ghost use Rattle.task_kinds.specs.States as spec;

use fb_bytes::TryCopy;
use std::alloc::AllocError;

/// How far a job has come. It has ended in the last three states.
#[derive(Clone, Copy, Debug, PartialEq, Eq)]
pub enum JobState {
    /// Its first task wasn't done yet.
    Submitted,
    Running,
    /// Its snapshot is done, and its log goes on.
    RunningDifferential,
    Completed,
    Aborted,
    Failed,
}

impl JobState {
    pub fn has_ended(self) -> bool
        ensures { result ≡ spec.has_ended self }
    {
        match self {
            JobState::Submitted | JobState::Running | JobState::RunningDifferential => false,
            JobState::Completed | JobState::Aborted | JobState::Failed => true,
        }
    }
}

impl TryCopy for JobState {
    fn copy(&self) -> Result<Self, AllocError> {
        Ok(*self)
    }
}
