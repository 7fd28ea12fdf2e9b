//! Why bytes are no tuple.

ghost use Rattle.std.specs.Prelude.{◌≡◌};
ghost use Rattle.tuple_keys.specs.declared.fault.TupleFault.TheVariants.{NoMemory};

use std::alloc::{AllocError, AllocFailed};

/// What is wrong with the first element that isn't spelt. `at` is the place of its first byte in
/// the bytes of the tuple.
#[derive(Clone, Copy, Debug, PartialEq, Eq)]
pub enum TupleFault {
    /// No element begins with this byte.
    Code { at: usize },
    /// The bytes end before the element does.
    Open { at: usize },
    /// The magnitude of the integer begins with a zero byte.
    Spelling { at: usize },
    /// The bytes of the text aren't UTF-8.
    NotText { at: usize },
    NoMemory,
}

impl From<AllocError> for TupleFault {
    ghost from_gives = { λ _ e. e ≡ NoMemory };

    fn from(_error: AllocError) -> TupleFault {
        TupleFault::NoMemory
    }
}

impl<T: Drop> From<AllocFailed<T>> for TupleFault {
    ghost from_gives = { λ _ e. e ≡ NoMemory };

    fn from(_error: AllocFailed<T>) -> TupleFault {
        TupleFault::NoMemory
    }
}
