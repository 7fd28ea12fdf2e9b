ghost use Rattle.std.specs.Prelude.{◌≡◌};
ghost use Rattle.fb_bytes.specs.declared.word_fault.WordFault.TheVariants.{NoMemory};

use std::alloc::{AllocError, AllocFailed};

/// Why a word spells no bytes.
#[derive(Clone, Copy, Debug, PartialEq, Eq)]
pub enum WordFault {
    /// The first place where no letter begins: a bad escape, or a byte that can't stand in a word.
    Escape { at: usize },
    /// The word is empty.
    Open,
    /// There was no memory for the bytes.
    NoMemory,
}

impl From<AllocError> for WordFault {
    ghost from_gives = { λ _ e. e ≡ NoMemory };

    fn from(_: AllocError) -> Self {
        WordFault::NoMemory
    }
}

impl<T: Drop> From<AllocFailed<T>> for WordFault {
    ghost from_gives = { λ _ e. e ≡ NoMemory };

    fn from(_: AllocFailed<T>) -> Self {
        WordFault::NoMemory
    }
}
