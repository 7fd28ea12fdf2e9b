ghost use Rattle.std.specs.Prelude.{◌≡◌};
ghost use Rattle.fb_outside.specs.declared.fault.VaultFail.TheVariants.{NoMemory};

use std::alloc::{AllocError, AllocFailed};

/// A read or a write failed.
#[derive(Clone, Copy, Debug, PartialEq, Eq)]
pub struct Failed;

/// Why a call on a file store has no answer.
#[derive(Clone, Copy, Debug, PartialEq, Eq)]
pub enum VaultFail {
    /// The store failed.
    Failed,
    /// There was no memory for the answer.
    NoMemory,
}

impl From<AllocError> for VaultFail {
    ghost from_gives = { λ _ e. e ≡ NoMemory };

    fn from(_: AllocError) -> Self {
        VaultFail::NoMemory
    }
}

impl<T: Drop> From<AllocFailed<T>> for VaultFail {
    ghost from_gives = { λ _ e. e ≡ NoMemory };

    fn from(_: AllocFailed<T>) -> Self {
        VaultFail::NoMemory
    }
}
