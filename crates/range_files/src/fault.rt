ghost use Rattle.std.specs.Prelude.{◌≡◌};
ghost use Rattle.range_files.specs.declared.fault.BlockFault.TheVariants.{NoMemory};

use std::alloc::{AllocError, AllocFailed};

/// What is wrong with a range file: the first fault from left to right.
#[derive(Clone, Copy, Debug, PartialEq, Eq)]
pub enum BlockFault {
    /// A block begins with another number.
    Format { found: u32 },
    /// A header or a string that begins at this place passes the end of its block, or the file ends
    /// at this place without its end key.
    Short { at: u64 },
    /// A byte of the padding isn't ff.
    Padding { at: u64 },
    /// A key is out of order. The place is that of its length.
    Order { at: u64 },
    /// A block doesn't go on from the last pair of the block before.
    Join { block: u64 },
    /// Memory ran out.
    NoMemory,
}

impl From<AllocError> for BlockFault {
    ghost from_gives = { λ _ e. e ≡ NoMemory };

    fn from(_e: AllocError) -> BlockFault {
        BlockFault::NoMemory
    }
}

impl<T: Drop> From<AllocFailed<T>> for BlockFault {
    ghost from_gives = { λ _ e. e ≡ NoMemory };

    fn from(_e: AllocFailed<T>) -> BlockFault {
        BlockFault::NoMemory
    }
}
