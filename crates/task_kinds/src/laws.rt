ghost use Rattle.task_kinds.specs.Laws.{WorkLaw};

/// Each task has a work, which says all of it but its job, its future and its block.
pub fn work_law()
    ensures { WorkLaw }
{}
