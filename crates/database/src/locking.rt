//! Which job holds the lock.

ghost use Rattle.std.specs.Prelude.{◌≡◌};
ghost use Rattle.mutations.specs.Histories as spec;

use mutations::{Entry, Who};

/// The job that holds the lock after an entry, by the holder before it.
pub fn lock_after(holder: Option<u64>, who: Who) -> Option<u64>
    ensures { result ≡ spec.lock_after holder who }
{
    match who {
        Who::Client { .. } | Who::Load { .. } | Who::Apply { .. } => holder,
        Who::Lock { job } => Some(job),
        Who::Unlock { .. } => None,
    }
}

/// The job that holds the lock at the end of a history.
pub fn lock_in(history: &[Entry]) -> Option<u64>
    ensures { result ≡ spec.locked history.now }
{
    let mut holder = None;
    for entry in history {
        holder = lock_after(holder, entry.who);
    }
    holder
}
