//! What holds of all clients. A call makes the law known to the proof of its caller, and does nothing
//! when it runs.

ghost use Rattle.client_core.specs.Laws.{NewClientLaw, BeginLaw, TryLaw, WaitLaw, EntryLaw};

/// A client at the start of its script is sound, over a database without an entry.
pub fn new_client_law()
    ensures { NewClientLaw }
{}

/// A begin keeps it.
pub fn begin_law()
    ensures { BeginLaw }
{}

/// So does a try, over the history and the time that it leaves.
pub fn try_law()
    ensures { TryLaw }
{}

/// And so do time and further jobs.
pub fn wait_law()
    ensures { WaitLaw }
{}

/// An entry by somebody else keeps it too.
pub fn entry_law()
    ensures { EntryLaw }
{}
