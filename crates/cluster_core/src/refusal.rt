use crate::{JobKind, JobState};
use container_view::FileFault;
use fb_bytes::{Blob, Text};

/// Why a command of the operator was refused. It changed nothing but that the operator goes on.
#[derive(Debug, Drop)]
pub enum Refusal {
    /// The newest job with the tag hasn't ended.
    TagBusy { tag: Text },
    /// A job of this run, ended or not, was started in the container; the tag is that job's.
    ContainerTaken { tag: Text },
    /// The container has a file; the name is the least.
    ContainerInUse { name: Text },
    /// No job has the tag.
    NoJob { tag: Text },
    /// The command isn't one of such a job.
    WrongKind { kind: JobKind },
    /// The job's state doesn't allow the command.
    WrongState { state: JobState },
    /// The least key of the piece that is outside the job's ranges.
    OutsideRanges { key: Blob },
    /// The least key of the piece that was dumped already for this snapshot.
    Overlap { key: Blob },
    /// Nothing came since the last cut; the version is the newest one.
    NothingNew { version: u64 },
    /// The least key of the ranges that no dumped piece holds.
    Untiled { key: Blob },
    /// The job is a DR that was switched.
    Switching,
    /// Agents claim nothing while they are paused.
    Paused,
    /// The cutoff is past the newest version, which this is.
    AheadOfNow { now: u64 },
    /// A restore from the container hasn't ended; the tag is that of the one with the least number.
    RestoreRunning { tag: Text },
    /// The container has no file.
    NoContainer,
    /// The container doesn't advertise the version. These are the least and the greatest version that
    /// it does, where there are any.
    NotRestorable { min: Option<u64>, max: Option<u64> },
    /// The bytes of this file aren't in their grammar.
    Damaged { name: Text, fault: FileFault },
    /// A file that is needed isn't there.
    Missing { name: Text },
    /// No version at or past the wanted one would stay; the other is the greatest that would, where
    /// one would.
    CannotExpire { wanted: u64, left: Option<u64> },
    /// The lock of the job with this number stands on the source.
    SourceLocked { uid: u64 },
    /// The lock of the job with this number stands on the destination.
    DestinationLocked { uid: u64 },
    /// The least key that the destination has.
    DestinationNotEmpty { key: Blob },
    /// Not all is copied; the version was applied so far.
    NotCopied { applied: u64 },
}
