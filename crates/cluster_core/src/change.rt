//! How a job becomes another one by a file of it.

ghost use Rattle.std.specs.Prelude.{◌≡◌, Some, slice_get, slice_set, IfOk, OnErr};
ghost use Rattle.cluster_core.specs.inner.Filed.{CanChange, IsAhead, settled, taken_back};
ghost use Rattle.cluster_core.specs.declared.job.Job as spec;

use crate::Job;
use fb_bytes::KeyRange;
use snapshot_plan::Done;
use std::alloc::AllocError;

/// How a job becomes another one by a file of it.
#[derive(Debug, Drop)]
pub enum Change {
    /// The piece was dumped at this version into the file.
    Dump {
        piece: KeyRange,
        now: u64,
        file: Done,
    },
    /// Its log files reach through this version.
    Cut {
        now: u64,
    },
    /// Its snapshot is sealed.
    Seal,
}

/// What takes memory of a change is made before the file is put. It answers the number that the job's
/// snapshot had.
pub(crate) fn go_ahead(
    jobs: &mut Vec<Job>,
    place: usize,
    change: &Change,
) -> Result<u64, AllocError>
    requires at { (job : spec.Job) × (slice_get jobs.old.items place ≡ Some job) }
    requires can { CanChange change.now }
    ensures ok { IfOk result
        (λ snapshot. IsAhead jobs.old.items place change.now snapshot jobs.new.items) }
    ensures err { OnErr result (jobs.new.items ≡ jobs.old.items) }
{
    jobs[place].go_ahead(change)
}

/// The rest of a change, once the file is put. It takes no memory.
pub(crate) fn settle(jobs: &mut Vec<Job>, place: usize, change: &Change)
    requires at { (job : spec.Job) × (slice_get jobs.old.items place ≡ Some job) }
    requires can { CanChange change.now }
    ensures { (job : spec.Job) → slice_get jobs.old.items place ≡ Some job
        → jobs.new.items ≡ slice_set jobs.old.items place (settled change.now job) }
{
    jobs[place].settle(change);
}

/// What was made ahead is taken back, since the file wasn't put. It takes no memory.
pub(crate) fn take_back(jobs: &mut Vec<Job>, place: usize, change: &Change, snapshot: u64)
    requires at { (job : spec.Job) × (slice_get jobs.old.items place ≡ Some job) }
    ensures { (job : spec.Job) → slice_get jobs.old.items place ≡ Some job
        → jobs.new.items ≡ slice_set jobs.old.items place (taken_back change.now snapshot job) }
{
    jobs[place].take_back(change, snapshot);
}
