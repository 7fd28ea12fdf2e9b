//! What holds of all dumps, commits and reads. A call makes the law known to the proof of its
//! caller, and does nothing when it runs.

ghost use Rattle.database.specs.Laws.{DumpLaw, CommitLaw, ReadOnlyLaw, CauseLaw, LargeLaw};
ghost use Rattle.database.specs.Laws.{LeavesReadsLaw, SerialLaw};

/// What is dumped is the state of the range, in order, and within the limits where the history is.
pub fn dump_law()
    ensures { DumpLaw }
{}

/// A commit that takes a version keeps to the limits, each job that logs can log it, and nothing
/// stood against it.
pub fn commit_law()
    ensures { CommitLaw }
{}

/// A commit takes a version unless it has no writes.
pub fn read_only_law()
    ensures { ReadOnlyLaw }
{}

/// Each refusal of a commit has its cause.
pub fn cause_law()
    ensures { CauseLaw }
{}

/// What is too large for a log is so in the ranges of a job that logs.
pub fn large_law()
    ensures { LargeLaw }
{}

/// A later entry changes no read before its version, and no first conflict.
pub fn leaves_reads_law()
    ensures { LeavesReadsLaw }
{}

/// Without a conflict the conflict reads find the same at a later version.
pub fn serial_law()
    ensures { SerialLaw }
{}
