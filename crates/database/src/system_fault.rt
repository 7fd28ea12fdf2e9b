ghost use Rattle.std.specs.Prelude.{◌≡◌};
ghost use Rattle.database.specs.declared.system_fault.SystemFault.TheVariants.{NoMemory};

use std::alloc::AllocError;

/// Why a job's own step wasn't made.
#[derive(Clone, Copy, Debug, PartialEq, Eq)]
pub enum SystemFault {
    /// There is no version left; `version` is the newest.
    VersionsSpent { version: u64 },
    /// A job that logs would log 2^32 mutation bytes or more at once; it is their number for the
    /// job with the least number.
    LogTooLarge { bytes: u64 },
    /// There was no memory.
    NoMemory,
}

impl From<AllocError> for SystemFault {
    ghost from_gives = { λ _ e. e ≡ NoMemory };

    fn from(_: AllocError) -> Self {
        SystemFault::NoMemory
    }
}
