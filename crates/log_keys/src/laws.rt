//! What holds of all keys and of all logs. A call makes the law known to the proof of its caller, and
//! does nothing when it runs.

ghost use Rattle.log_keys.specs.Laws.{KeyOrderLaw, OneKeyLaw, PutLaw, EraseLaw, RetractLaw, JoinLaw, JoinOrderLaw, NewestLaw, EraseJoinLaw, UndoLaw, UnusedLaw};

/// The byte order of keys is the order of job, version and part.
pub fn key_order_law()
    ensures { KeyOrderLaw }
{}

/// Bytes are those of one key.
pub fn one_key_law()
    ensures { OneKeyLaw }
{}

/// What was put under a job and a version stands there, and all else is as it was.
pub fn put_law()
    ensures { PutLaw }
{}

/// A job's versions before a version are erased, and all else is as it was.
pub fn erase_law()
    ensures { EraseLaw }
{}

/// Nothing stands under a version that was retracted, and all else is as it was.
pub fn retract_law()
    ensures { RetractLaw }
{}

/// What is joined is what stands under the job from `begin` on and before `end`.
pub fn join_law()
    ensures { JoinLaw }
{}

/// The versions of what is joined rise.
pub fn join_order_law()
    ensures { JoinOrderLaw }
{}

/// A batch that is its job's newest comes last where it is joined, and elsewhere nothing changes.
pub fn newest_law()
    ensures { NewestLaw }
{}

/// What is joined of a job whose earlier versions were erased begins later.
pub fn erase_join_law()
    ensures { EraseJoinLaw }
{}

/// Once a version is retracted, the log is what it was before the puts under that version.
pub fn undo_law()
    ensures { UndoLaw }
{}

/// To retract a version that nothing stands under changes nothing.
pub fn unused_law()
    ensures { UnusedLaw }
{}
