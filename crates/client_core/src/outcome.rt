ghost use Rattle.std.specs.Prelude.{◌≡◌, IfOk};

use database::{CommitFault, Found};
use fb_bytes::{Seq, TryCopy};
use std::alloc::AllocError;

/// How a try to commit ended.
#[derive(Debug, Drop)]
pub enum End {
    /// It was committed at this version. The reads are what its reads found, in their order.
    Commit { version: u64, reads: Seq<Found> },
    /// It had no writes, and took no version.
    ReadOnly { reads: Seq<Found> },
    /// It was refused.
    Fault(CommitFault),
}

impl End {
    /// An equal end with memory of its own.
    pub fn copy(&self) -> Result<Self, AllocError>
        ensures { IfOk result (λ end. end ≡ self.now) }
    {
        match self {
            End::Commit { version, reads } => Ok(End::Commit {
                version: *version,
                reads: reads.copy()?,
            }),
            End::ReadOnly { reads } => Ok(End::ReadOnly {
                reads: reads.copy()?,
            }),
            End::Fault(fault) => Ok(End::Fault(*fault)),
        }
    }
}

/// What became of one try to commit a transaction.
#[derive(Debug, Drop)]
pub struct Outcome {
    /// The number of the transaction in its client's script, from 1.
    pub place: u64,
    /// The number of the try, from 1.
    pub attempt: u32,
    /// The version that its reads saw.
    pub read: u64,
    pub end: End,
}

impl Outcome {
    /// An equal outcome with memory of its own.
    pub fn copy(&self) -> Result<Self, AllocError>
        ensures { IfOk result (λ outcome. outcome ≡ self.now) }
    {
        let end = self.end.copy()?;
        Ok(Outcome {
            place: self.place,
            attempt: self.attempt,
            read: self.read,
            end,
        })
    }
}

impl Outcome {
    ghost use Rattle.client_core.specs.Ends as spec;

    /// Whether the transaction is tried again, where it is tried so often.
    pub fn goes_again(&self, tries: u32) -> bool
        ensures { result ≡ spec.goes_again tries self.now }
    {
        match self.end {
            End::Fault(CommitFault::TooOld { .. } | CommitFault::NotCommitted { .. }) => {
                self.attempt < tries
            }
            _ => false,
        }
    }
}

impl TryCopy for Outcome {
    fn copy(&self) -> Result<Self, AllocError> {
        Outcome::copy(self)
    }
}
