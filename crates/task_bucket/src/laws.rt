ghost use Rattle.task_bucket.specs.Laws.{SumsLaw};
ghost use Rattle.task_bucket.specs.HoldersLaws.{HoldersLaw};

/// What each call of a bucket leaves of the sums over its tasks: adding adds a task's number,
/// finishing and removing take it off, and a claim and an extend leave each sum.
pub fn sums_law()
    ensures { SumsLaw }
{}

/// What agents remember of the leases that they claimed stays true: a lease that has run out is
/// never held again, and no two agents hold one lease.
pub fn holders_law()
    ensures { HoldersLaw }
{}
