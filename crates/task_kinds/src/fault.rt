//! Why a tuple is no task.

ghost use Rattle.std.specs.Prelude.{◌≡◌};
ghost use Rattle.task_kinds.specs.declared.fault.KindFault.TheVariants.{NoMemory};

use crate::Kind;
use std::alloc::{AllocError, AllocFailed};

/// What is wrong with a tuple that isn't one of a task.
#[derive(Clone, Copy, Debug, PartialEq, Eq)]
pub enum KindFault {
    /// The first element isn't the code of a kind. It is this integer, or no integer, which is 0
    /// here.
    Kind { code: i128 },
    /// The job or the parameters aren't as the kind has them.
    Params { kind: Kind },
    NoMemory,
}

impl From<AllocError> for KindFault {
    ghost from_gives = { λ _ e. e ≡ NoMemory };

    fn from(_error: AllocError) -> KindFault {
        KindFault::NoMemory
    }
}

impl<T: Drop> From<AllocFailed<T>> for KindFault {
    ghost from_gives = { λ _ e. e ≡ NoMemory };

    fn from(_error: AllocFailed<T>) -> KindFault {
        KindFault::NoMemory
    }
}
