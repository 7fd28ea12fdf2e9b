//! The kinds of tasks, the tasks, their tuples, and how far a job has come.
#![tactic(auto)]

/// The table of kinds: variant, code, word, whether its take keeps something, whether it places a
/// file, and its parameters. `each_kind!(make input)` hands all rows and the input to `make!`.
macro_rules! each_kind {
    ($make:ident $($input:tt)*) => {
        $make!([$($input)*]
            BackupStart 1 "backup-start" false false Nothing,
            BackupDispatch 2 "backup-dispatch" false false Nothing,
            BackupRange 3 "backup-range" true true Piece,
            BackupManifest 4 "backup-manifest" true true Snapshot,
            BackupLogs 5 "backup-logs" false false Nothing,
            BackupLog 6 "backup-log" true true Span,
            BackupErase 7 "backup-erase" false false Nothing,
            BackupFinish 8 "backup-finish" false false Nothing,
            RestoreStart 9 "restore-start" false false Nothing,
            RestoreDispatch 10 "restore-dispatch" false false Nothing,
            RestoreRange 11 "restore-range" true true File,
            RestoreLog 12 "restore-log" true true File,
            RestoreApply 13 "restore-apply" false false Nothing,
            RestoreComplete 14 "restore-complete" false false Nothing,
            DrStart 15 "dr-start" false false Nothing,
            DrCopy 16 "dr-copy" true false Range,
            DrLogs 17 "dr-logs" false false Nothing,
            DrLog 18 "dr-log" true false Span,
            DrApply 19 "dr-apply" false false Nothing,
            DrErase 20 "dr-erase" false false Nothing,
            DrFinish 21 "dr-finish" false false Nothing,
        )
    };
}

mod fault;
mod job_state;
mod kind;
mod laws;
mod params;
mod task;
mod tuples;

pub use fault::KindFault;
pub use job_state::JobState;
pub use kind::{Kind, Shape};
pub use laws::work_law;
pub use params::Params;
pub use task::Task;
pub use tuples::{from_tuple, to_tuple};

#[cfg(test)]
mod tests;
