ghost use Rattle.std.specs.Prelude.{◌≡◌};
ghost use Rattle.log_files.specs.declared.fault.LogFault.TheVariants.{NoMemory};

use mutations::WireFault;
use std::alloc::{AllocError, AllocFailed};

/// What is wrong with a log file: the first fault from left to right. The place of a record is
/// that of its key's length.
#[derive(Clone, Copy, Debug, PartialEq, Eq)]
pub enum LogFault {
    /// A block begins with another number.
    Format { found: u32 },
    /// A header or a string that begins at this place passes the end of its block.
    Short { at: u64 },
    /// A byte of the padding isn't ff.
    Padding { at: u64 },
    /// The key of a record hasn't twelve bytes.
    KeyLength { at: u64 },
    /// A version outside the file's, or not past a batch before it.
    Version { at: u64, version: u64 },
    /// A part that isn't the next one of its batch, or one without bytes.
    Part { at: u64, part: u32 },
    /// The joined parts are no batch. The place is that of the first of them.
    Batch { at: u64, wire: WireFault },
    /// Memory ran out.
    NoMemory,
}

impl From<AllocError> for LogFault {
    ghost from_gives = { λ _ e. e ≡ NoMemory };

    fn from(_e: AllocError) -> LogFault {
        LogFault::NoMemory
    }
}

impl<T: Drop> From<AllocFailed<T>> for LogFault {
    ghost from_gives = { λ _ e. e ≡ NoMemory };

    fn from(_e: AllocFailed<T>) -> LogFault {
        LogFault::NoMemory
    }
}
