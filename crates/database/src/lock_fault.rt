use crate::SystemFault;

/// Why a database wasn't locked.
#[derive(Clone, Copy, Debug, PartialEq, Eq)]
pub enum LockFault {
    /// The job with this number holds the lock.
    Locked { uid: u64 },
    /// The entry wasn't made.
    System(SystemFault),
}

/// Why a database wasn't unlocked.
#[derive(Clone, Copy, Debug, PartialEq, Eq)]
pub enum UnlockFault {
    /// The lock isn't the job's; the number is that of the job which holds it, where one does.
    NotLocked { found: Option<u64> },
    /// The entry wasn't made.
    System(SystemFault),
}
