ghost use Rattle.std.specs.Prelude.{◌≡◌, IfOk};

use crate::Mutation;
use fb_bytes::{Seq, TryCopy};
use std::alloc::AllocError;

/// The mutations of one version, as a log keeps them.
#[derive(Debug, Drop)]
pub struct Batch {
    pub version: u64,
    pub muts: Seq<Mutation>,
}

impl Batch {
    /// An equal batch with memory of its own.
    pub fn copy(&self) -> Result<Self, AllocError>
        ensures { IfOk result (λ batch. batch ≡ self.now) }
    {
        let muts = self.muts.copy()?;
        Ok(Batch {
            version: self.version,
            muts,
        })
    }
}

impl TryCopy for Batch {
    fn copy(&self) -> Result<Self, AllocError> {
        Batch::copy(self)
    }
}

/// What was logged from the version `begin` on and before `end`.
#[derive(Debug, Drop)]
pub struct LogChunk {
    pub begin: u64,
    pub end: u64,
    pub batches: Seq<Batch>,
}

impl LogChunk {
    /// An equal chunk with memory of its own.
    pub fn copy(&self) -> Result<Self, AllocError>
        ensures { IfOk result (λ chunk. chunk ≡ self.now) }
    {
        let batches = self.batches.copy()?;
        Ok(LogChunk {
            begin: self.begin,
            end: self.end,
            batches,
        })
    }
}
