//! What holds of all mutations, histories and batches. A call makes the law known to the proof of
//! its caller, and does nothing when it runs.

ghost use Rattle.mutations.specs.Laws.{UntouchedLaw, TouchLaw, ClipLaw, ReplayJoinLaw, ReplayAppendLaw, AppendLaw, StateLaw, LoggedLaw, LoggedJoinLaw, LoggedAppendLaw, LoggedReplayLaw, LoggedStateLaw, LockLaw, OneSpellingLaw, FirstFaultLaw};

/// A mutation leaves each key that it doesn't touch.
pub fn untouched_law()
    ensures { UntouchedLaw }
{}

/// To touch a range is to touch a key of it.
pub fn touch_law()
    ensures { TouchLaw }
{}

/// Clipped mutations do in the ranges what the whole ones do, and nothing elsewhere.
pub fn clip_law()
    ensures { ClipLaw }
{}

/// Batches may be replayed up to a version and then from there on.
pub fn replay_join_law()
    ensures { ReplayJoinLaw }
{}

/// Two lists of batches are replayed one after the other.
pub fn replay_append_law()
    ensures { ReplayAppendLaw }
{}

/// What one more entry changes in the states.
pub fn append_law()
    ensures { AppendLaw }
{}

/// A state is an earlier one and the entries since.
pub fn state_law()
    ensures { StateLaw }
{}

/// A log has versions of its stretch alone, in rising order.
pub fn logged_law()
    ensures { LoggedLaw }
{}

/// The logs of two stretches that follow each other are the log of both.
pub fn logged_join_law()
    ensures { LoggedJoinLaw }
{}

/// A history in two parts is logged part by part.
pub fn logged_append_law()
    ensures { LoggedAppendLaw }
{}

/// A log does in its ranges what the history does in the versions of both.
pub fn logged_replay_law()
    ensures { LoggedReplayLaw }
{}

/// A log leads from the state before it to the state at its end.
pub fn logged_state_law()
    ensures { LoggedStateLaw }
{}

/// Who holds the lock after one more entry.
pub fn lock_law()
    ensures { LockLaw }
{}

/// Lists with one spelling are one list.
pub fn one_spelling_law()
    ensures { OneSpellingLaw }
{}

/// After mutations that are spelled well the fault is that of what comes next.
pub fn first_fault_law()
    ensures { FirstFaultLaw }
{}
