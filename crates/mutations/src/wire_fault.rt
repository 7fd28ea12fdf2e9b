//! Why bytes are no batch.

ghost use Rattle.std.specs.Prelude.{◌≡◌};
ghost use Rattle.mutations.specs.declared.wire_fault.WireFault.TheVariants.{NoMemory};

use std::alloc::{AllocError, AllocFailed};

/// The first fault of bytes that are to be a batch, from left to right. An `at` counts the bytes
/// before the mutation.
#[derive(Clone, Copy, Debug, PartialEq, Eq)]
pub enum WireFault {
    /// The header of the batch, or the mutation there, passes the end.
    Short { at: u64 },
    /// The bytes begin with another number.
    Protocol { found: u64 },
    /// The mutations are said to take so many bytes, and others follow.
    Length { said: u64, found: u64 },
    /// No mutation has this code.
    Code { at: u64, code: u32 },
    /// A clear whose begin isn't below its end.
    Backwards { at: u64 },
    NoMemory,
}

impl From<AllocError> for WireFault {
    ghost from_gives = { λ _ e. e ≡ NoMemory };

    fn from(_e: AllocError) -> WireFault {
        WireFault::NoMemory
    }
}

impl<T: Drop> From<AllocFailed<T>> for WireFault {
    ghost from_gives = { λ _ e. e ≡ NoMemory };

    fn from(_e: AllocFailed<T>) -> WireFault {
        WireFault::NoMemory
    }
}
