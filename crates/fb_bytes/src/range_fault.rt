ghost use Rattle.std.specs.Prelude.{◌≡◌};
ghost use Rattle.fb_bytes.specs.declared.range_fault.RangeFault.TheVariants.{NoMemory};

use std::alloc::{AllocError, AllocFailed};

/// Why a list of ranges isn't taken. The causes are tested in this order, each over the whole list.
#[derive(Clone, Copy, Debug, PartialEq, Eq)]
pub enum RangeFault {
    /// The list has no range.
    Empty,
    /// The list has more than 1,000 ranges.
    TooMany { count: usize },
    /// The begin of this range isn't below its end.
    Backwards { index: usize },
    /// The end of this range is past the end of the user space.
    PastUser { index: usize },
    /// There was no memory for the ranges.
    NoMemory,
}

impl From<AllocError> for RangeFault {
    ghost from_gives = { λ _ e. e ≡ NoMemory };

    fn from(_: AllocError) -> Self {
        RangeFault::NoMemory
    }
}

impl<T: Drop> From<AllocFailed<T>> for RangeFault {
    ghost from_gives = { λ _ e. e ≡ NoMemory };

    fn from(_: AllocFailed<T>) -> Self {
        RangeFault::NoMemory
    }
}
