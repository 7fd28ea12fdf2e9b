ghost use Rattle.std.specs.Prelude.{◌≡◌};
ghost use Rattle.snapshot_plan.specs.declared.fault.MapFault.TheVariants.{NoMemory};

use fb_bytes::Blob;
use std::alloc::{AllocError, AllocFailed};

/// Why a piece can't be noted, or why there is no manifest yet.
#[derive(Debug, Drop)]
pub enum MapFault {
    /// The least key of the piece that is outside the ranges.
    OutsideRanges { key: Blob },
    /// The least key of the piece that a noted piece holds.
    Overlap { key: Blob },
    /// The least key of the ranges that no noted piece holds.
    Untiled { key: Blob },
    /// There was no memory.
    NoMemory,
}

impl From<AllocError> for MapFault {
    ghost from_gives = { λ _ e. e ≡ NoMemory };

    fn from(_: AllocError) -> Self {
        MapFault::NoMemory
    }
}

impl<T: Drop> From<AllocFailed<T>> for MapFault {
    ghost from_gives = { λ _ e. e ≡ NoMemory };

    fn from(_: AllocFailed<T>) -> Self {
        MapFault::NoMemory
    }
}
