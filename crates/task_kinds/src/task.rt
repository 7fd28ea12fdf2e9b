ghost use Rattle.std.specs.Prelude.{◌≡◌, IfOk};

use crate::{Kind, Params};
use std::alloc::AllocError;
use std::marker::Model;

/// A task: its job's number, from 1 on, what it does, and on what. The parameters are those of the
/// kind, and each number is below 2 to the 63rd.
#[derive(Debug, Drop)]
pub struct Task {
    pub job: u64,
    pub kind: Kind,
    pub params: Params,
}

impl Model for Task {
    ghost use Rattle.task_kinds.specs.Tasks.{SeenTask, IsTask};

    ghost Value = { SeenTask };

    ghost view = { λ t. record { job = t.job; kind = t.kind; params = t.params } };

    ghost invariant = { λ t. IsTask (record { job = t.job; kind = t.kind; params = t.params }) };
}

impl Task {
    ghost use Rattle.task_kinds.specs.Tasks.{IsTask};

    pub fn new(job: u64, kind: Kind, params: Params) -> Self
        requires { IsTask (record { job = job; kind = kind; params = params }) }
        ensures { result ≡ record { job = job; kind = kind; params = params } }
    {
        Task { job, kind, params }
    }

    pub fn job(&self) -> u64
        ensures same { result ≡ self.now.job }
        ensures task { IsTask self.now }
    {
        self.job
    }

    pub fn kind(&self) -> Kind
        ensures { result ≡ self.now.kind }
    {
        self.kind
    }

    pub fn params(&self) -> &Params
        ensures { result.now ≡ self.now.params }
    {
        &self.params
    }

    /// An equal task with memory of its own.
    pub fn copy(&self) -> Result<Self, AllocError>
        ensures { IfOk result (λ task. task ≡ self.now) }
    {
        let params = self.params.copy()?;
        Ok(Task {
            job: self.job,
            kind: self.kind,
            params,
        })
    }
}
