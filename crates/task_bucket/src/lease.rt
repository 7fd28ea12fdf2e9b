ghost use Rattle.std.specs.Prelude.{◌≡◌, IfOk};
ghost use Rattle.task_bucket.specs.declared.lease.LeaseFault.TheVariants.{NoMemory};

use std::alloc::{AllocError, AllocFailed};
use task_kinds::Task;

/// A task that is leased until a version, by its uid.
#[derive(Debug, Drop)]
pub struct Lease {
    pub until: u64,
    pub uid: u64,
    pub task: Task,
}

impl Lease {
    /// An equal lease with memory of its own.
    pub fn copy(&self) -> Result<Self, AllocError>
        ensures { IfOk result (λ lease. lease ≡ self.now) }
    {
        let task = self.task.copy()?;
        Ok(Lease {
            until: self.until,
            uid: self.uid,
            task,
        })
    }
}

/// Why a lease could not be extended or finished.
#[derive(Clone, Copy, Debug, PartialEq, Eq)]
pub enum LeaseFault {
    /// The task isn't leased until that version: it is finished or dropped, or someone else's.
    Interrupted { uid: u64 },
    NoMemory,
}

impl From<AllocError> for LeaseFault {
    ghost from_gives = { λ _ e. e ≡ NoMemory };

    fn from(_error: AllocError) -> LeaseFault {
        LeaseFault::NoMemory
    }
}

impl<T: Drop> From<AllocFailed<T>> for LeaseFault {
    ghost from_gives = { λ _ e. e ≡ NoMemory };

    fn from(_error: AllocFailed<T>) -> LeaseFault {
        LeaseFault::NoMemory
    }
}
