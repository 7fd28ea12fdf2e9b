ghost use Rattle.std.specs.Prelude.{◌≡◌, IfOk};

use atomic_ops::Op;
use fb_bytes::{Blob, TryCopy};
use std::alloc::AllocError;

/// One write to a database.
#[derive(Debug, Drop)]
pub enum Mutation {
    Set { key: Blob, value: Blob },
    /// Takes away the keys from `begin` on and before `end`.
    ClearRange { begin: Blob, end: Blob },
    /// What is left is the operation's result on the old value and `param`.
    Atomic { op: Op, key: Blob, param: Blob },
}

impl Mutation {
    /// An equal mutation with memory of its own.
    pub fn copy(&self) -> Result<Self, AllocError>
        ensures { IfOk result (λ mutation. mutation ≡ self.now) }
    {
        let mutation = match self {
            Mutation::Set { key, value } => Mutation::Set {
                key: key.copy()?,
                value: value.copy()?,
            },
            Mutation::ClearRange { begin, end } => Mutation::ClearRange {
                begin: begin.copy()?,
                end: end.copy()?,
            },
            Mutation::Atomic { op, key, param } => Mutation::Atomic {
                op: *op,
                key: key.copy()?,
                param: param.copy()?,
            },
        };
        Ok(mutation)
    }
}

impl TryCopy for Mutation {
    fn copy(&self) -> Result<Self, AllocError> {
        Mutation::copy(self)
    }
}
