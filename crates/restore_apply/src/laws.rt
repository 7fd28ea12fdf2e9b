ghost use Rattle.restore_apply.specs.Laws.{OverlapLaw};

/// A file overlaps one before it exactly where some two overlap.
pub fn overlap_law()
    ensures { OverlapLaw }
{}
