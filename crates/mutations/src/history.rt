ghost use Rattle.std.specs.Prelude.{◌≡◌, IfOk};

use crate::Mutation;
use fb_bytes::{Seq, TryCopy};
use std::alloc::AllocError;

/// Who made an entry of a history.
#[derive(Clone, Copy, Debug, PartialEq, Eq)]
pub enum Who {
    /// The client of this number, by the transaction at this place of its script.
    Client { client: u32, place: u64 },
    /// The job, for a file that it loaded.
    Load { job: u64 },
    /// The job, for mutations of a log.
    Apply { job: u64 },
    /// The job, which locks the database.
    Lock { job: u64 },
    /// The job, which unlocks the database.
    Unlock { job: u64 },
}

/// What was committed at one version.
#[derive(Debug, Drop)]
pub struct Entry {
    pub version: u64,
    pub who: Who,
    pub muts: Seq<Mutation>,
}

impl Entry {
    /// An equal entry with memory of its own.
    pub fn copy(&self) -> Result<Self, AllocError>
        ensures { IfOk result (λ entry. entry ≡ self.now) }
    {
        let muts = self.muts.copy()?;
        Ok(Entry {
            version: self.version,
            who: self.who,
            muts,
        })
    }
}

impl TryCopy for Entry {
    fn copy(&self) -> Result<Self, AllocError> {
        Entry::copy(self)
    }
}
