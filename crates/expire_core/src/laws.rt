//! What holds of every expire. A call makes the law known to the proof of its caller, and does
//! nothing when it runs.

ghost use Rattle.expire_core.specs.Laws.{ElsewhereLaw, HonestLaw, OrderLaw, RaiseLaw, RefusalLaw, StaysLaw};

/// Once the unreliable end is raised, what is deleted takes no advertised version away, and adds
/// none.
pub fn stays_law()
    ensures { StaysLaw }
{}

/// The unreliable end and the expired end never fall.
pub fn raise_law()
    ensures { RaiseLaw }
{}

/// An expire is refused exactly where it isn't forced and no version at or past the wanted one
/// would stay.
pub fn refusal_law()
    ensures { RefusalLaw }
{}

/// A container stays honest through each change of an expire.
pub fn honest_law()
    ensures { HonestLaw }
{}

/// The files are deleted in the byte order of their names.
pub fn order_law()
    ensures { OrderLaw }
{}

/// A file outside the container is as it was.
pub fn elsewhere_law()
    ensures { ElsewhereLaw }
{}
