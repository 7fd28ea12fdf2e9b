ghost use Rattle.std.specs.Prelude.{◌≡◌, ◌⊎◌, IfSome};
ghost use Rattle.database.specs.declared.commit_fault.CommitFault.TheVariants.{NoMemory};
ghost use Rattle.database.specs.Faults.{of_transaction};

use mutations::TxFault;
use std::alloc::AllocError;

/// Why a transaction wasn't committed. Operations are counted from 0.
#[derive(Clone, Copy, Debug, PartialEq, Eq)]
pub enum CommitFault {
    /// A key isn't a user's, or a range's end is past the user space.
    Outside { index: usize },
    /// A key is longer than the limit on keys.
    KeyTooLarge { index: usize },
    /// A value or a parameter is longer than the limit on values.
    ValueTooLarge { index: usize },
    /// The writes have more than 10,000,000 bytes.
    TooLarge { bytes: u64 },
    /// The job with this number holds the database's lock.
    Locked { uid: u64 },
    /// The read version is before the oldest version that can be read.
    TooOld { read: u64, oldest: u64 },
    /// Since the read version an entry touched what a read conflicts with; the version is that of
    /// the first such entry.
    NotCommitted { version: u64 },
    /// There is no version left; `version` is the newest.
    VersionsSpent { version: u64 },
    /// A job that logs would log 2^32 mutation bytes or more at once; it is their number for the
    /// job with the least number.
    LogTooLarge { bytes: u64 },
    /// There was no memory for the entry.
    NoMemory,
}

impl CommitFault {
    /// The fault of a commit that a transaction's own fault is. A number of bytes past `u64::MAX`,
    /// which no memory holds, is want of memory.
    pub fn of_transaction(fault: TxFault) -> CommitFault
        ensures { (result ≡ NoMemory) ⊎ (result ≡ of_transaction fault) }
    {
        match fault {
            TxFault::Outside { index } => CommitFault::Outside { index },
            TxFault::KeyTooLarge { index } => CommitFault::KeyTooLarge { index },
            TxFault::ValueTooLarge { index } => CommitFault::ValueTooLarge { index },
            TxFault::TooLarge { bytes } => match narrowed(bytes) {
                Some(bytes) => CommitFault::TooLarge { bytes },
                None => CommitFault::NoMemory,
            },
        }
    }
}

/// The number, where it is no more than `u64::MAX`.
pub(crate) fn narrowed(number: u128) -> Option<u64>
    ensures { IfSome result (λ same. same ≡ number) }
{
    if number > u128::from(u64::MAX) {
        return None;
    }
    Some(number as u64)
}

impl From<AllocError> for CommitFault {
    ghost from_gives = { λ _ e. e ≡ NoMemory };

    fn from(_: AllocError) -> Self {
        CommitFault::NoMemory
    }
}
