//! What holds of all jobs. A call makes the law known to the proof of its caller, and does nothing
//! when it runs.

ghost use Rattle.backup_core.specs.Laws.{BucketLaw, RowsLaw, RowFilesLaw, ClosesLaw, HandLaw, OrdersLaw, TakesLaw, TasksLaw, KeptLaw, CalmLaw};
ghost use Rattle.backup_core.specs.Futures.{NewestLaw, WaitingLaw};
ghost use Rattle.backup_core.specs.Limits.{LimitLaw};
ghost use Rattle.backup_core.specs.Made.{MadeReadsLaw};
ghost use Rattle.backup_core.specs.Manifests.{NotingLaw, UndoLaw, TilingLaw, HonestManifestLaw};
ghost use Rattle.backup_core.specs.Taken.{MadeLaw};

use container_view::contents_law;
use task_bucket::sums_law;
use task_futures::futures_law;

/// Noted pieces stay in order, inside the ranges and under names of their own as one more is noted.
pub fn noting_law()
    ensures { NotingLaw }
{}

/// A dump that is taken back leaves the job as it was.
pub fn undo_law()
    ensures { UndoLaw }
{}

/// Noted pieces inside the ranges that leave no gap tile them.
pub fn tiling_law()
    ensures { TilingLaw }
{}

/// The manifest of noted files that are there and whose pieces tile the ranges is honest.
pub fn honest_manifest_law()
    ensures { HonestManifestLaw }
{}

/// What the sums over a backup's tasks in a bucket keep, and what becomes of them as tasks come and go.
pub fn bucket_law()
    ensures { BucketLaw }
{
    sums_law();
}

/// The close of each kind of task leaves the facts on its backup.
pub fn rows_law()
    ensures { RowsLaw }
{}

/// The close of each kind of task leaves the facts on the files of its backup.
pub fn row_files_law()
    ensures { RowFilesLaw }
{}

/// What the code of a close relies on: an open piece can be noted, a job whose start is open logs
/// nothing yet, and a part's file that was placed is there under a name of its own.
pub fn closes_law()
    ensures { ClosesLaw }
{}

/// The commands on a hand job leave the facts on it.
pub fn hand_law()
    ensures { HandLaw }
{}

/// The operator's orders leave the facts on a backup.
pub fn orders_law()
    ensures { OrdersLaw }
{}

/// What agents take for a backup's tasks is honest, and its log has what a log task is to have.
pub fn takes_law()
    ensures { TakesLaw }
{}

/// Each open piece has ends within the limit on keys, and the plan of a snapshot has such pieces.
pub fn limit_law()
    ensures { LimitLaw }
{}

/// A file can be made of what a take of an open task keeps, and it has a name.
pub fn made_law()
    ensures { MadeLaw }
{}

/// A file that was made of a part is read as the file of that part.
pub fn made_reads_law()
    ensures { MadeReadsLaw }
{
    contents_law();
}

/// The newest future is taken out again without a trace.
pub fn newest_law()
    ensures { NewestLaw }
{}

/// As a task is closed that waits for a future, what comes after the last is due exactly where no
/// other is open, and the others wait on.
pub fn waiting_law()
    ensures { WaitingLaw }
{
    sums_law();
    futures_law();
}

/// Each backup that goes on and isn't made by hand has a task.
pub fn tasks_law()
    ensures { TasksLaw }
{}

/// What agents keep stays honest as time goes on, and entries and files come and go.
pub fn kept_law()
    ensures { KeptLaw }
{}

/// The facts on a backup and on its files stay while its tasks stand, as time goes on and files come
/// and go.
pub fn calm_law()
    ensures { CalmLaw }
{}
