ghost use Rattle.std.specs.Prelude.{◌≡◌};
ghost use Rattle.backup_core.specs.Closed.{close_fault};
ghost use Rattle.backup_core.specs.declared.fault.CloseFault.TheVariants.{NoMemory};

use database::SystemFault;
use std::alloc::AllocError;

/// Why a task wasn't closed. Its close changed nothing then.
#[derive(Clone, Copy, Debug, PartialEq, Eq)]
pub enum CloseFault {
    /// The task with this uid isn't leased until that version any more.
    Interrupted { uid: u64 },
    /// There is no version left; `version` is the newest.
    VersionsSpent { version: u64 },
    /// A job that logs would log 2^32 mutation bytes or more at once.
    LogTooLarge { bytes: u64 },
    /// There was no memory.
    NoMemory,
}

impl From<AllocError> for CloseFault {
    ghost from_gives = { λ _ e. e ≡ NoMemory };

    fn from(_: AllocError) -> Self {
        CloseFault::NoMemory
    }
}

impl From<SystemFault> for CloseFault {
    ghost from_gives = { λ fault e. e ≡ close_fault fault };

    fn from(fault: SystemFault) -> Self {
        match fault {
            SystemFault::VersionsSpent { version } => CloseFault::VersionsSpent { version },
            SystemFault::LogTooLarge { bytes } => CloseFault::LogTooLarge { bytes },
            SystemFault::NoMemory => CloseFault::NoMemory,
        }
    }
}
