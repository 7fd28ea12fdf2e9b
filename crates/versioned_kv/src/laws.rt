//! What holds of all histories and numbers. A call makes the law known to the proof of its caller,
//! and does nothing when it runs.

ghost use Rattle.versioned_kv.specs.Laws.{HistoryLaw, DigitsLaw};

/// A store to which a history was applied has the history's states.
pub fn history_law()
    ensures { HistoryLaw }
{}

/// The digits of a number are the least that are enough.
pub fn digits_law()
    ensures { DigitsLaw }
{}
