ghost use Rattle.snapshot_plan.specs.Laws.{LeastKeyLaw, PieceLaw, TakeBackLaw, ManifestLaw, WholeLaw};
ghost use Rattle.snapshot_plan.specs.Plans.{PlanLaw};

/// Law: the least key outside pieces, the least key that they hold, and what a piece more leaves.
pub fn piece_law()
    ensures { PieceLaw }
{}

/// Law: a piece is refused for the least of its keys that is outside the ranges, else for the least that
/// is held, and what is left begins at the least key that no piece holds.
pub fn least_key_law()
    ensures { LeastKeyLaw }
{}

/// Law: a piece that was noted and is taken back leaves what was noted before.
pub fn take_back_law()
    ensures { TakeBackLaw }
{}

/// Law: the manifest of noted files has their least and their greatest version, their names in byte
/// order, and their bytes.
pub fn manifest_law()
    ensures { ManifestLaw }
{}

/// Law: the manifest of files with range names can be written.
pub fn whole_law()
    ensures { WholeLaw }
{}

/// Law: the pieces of a job's ranges are in key order and hold exactly the keys of the ranges. No piece
/// has more of the database's keys than the shard, and beside one for each range there are at most as many
/// pieces as the keys divided by the shard.
pub fn plan_law()
    ensures { PlanLaw }
{}
