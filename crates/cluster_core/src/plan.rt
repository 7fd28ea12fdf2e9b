//! What a step of the operator comes to, before anything is changed.

use crate::change::Change;
use crate::{JobState, Refusal};
use fb_bytes::{Blob, Ranges, Text};
use workload_text::Side;

/// A file that is to be put for a job, and how the job changes by it.
#[derive(Debug, Drop)]
pub struct Filing {
    /// The job's place among the jobs.
    pub place: usize,
    pub change: Change,
    /// The file's name, its container's folder included.
    pub whole: Text,
    pub bytes: Blob,
}

/// What the operator's next command comes to.
#[derive(Debug, Drop)]
pub enum Plan {
    /// No command is left.
    Nothing,
    /// It is refused.
    Refuse(Refusal),
    /// It tells a job's state.
    Tell(Option<JobState>),
    /// It puts a file.
    Put(Filing),
    /// It lets agents claim nothing, or claim again.
    Pause {
        paused: bool,
    },
    /// It ends the job at this place.
    Abort {
        place: usize,
    },
    /// It starts a job, where the container's folder is empty.
    Open {
        tag: Text,
        side: Side,
        container: Text,
        ranges: Ranges,
    },
}

/// The newest job with a tag, where it is there and hasn't ended.
#[derive(Debug, Drop)]
pub enum Running {
    /// Its place among the jobs.
    At(usize),
    Refused(Refusal),
}
