ghost use Rattle.task_futures.specs.Laws.{FuturesLaw};

/// Each call keeps the futures in the order of their numbers, with each join past its parts, and a
/// future that is set has no block of a join left to take off. A block that isn't open changes
/// nothing, and has no task due.
pub fn futures_law()
    ensures { FuturesLaw }
{}
