//! What an agent remembers.

ghost use Rattle.std.specs.Prelude.{◌≡◌};
ghost use Rattle.cluster_core.specs.Agents.{new_memory};

use std::marker::Model;
use task_bucket::Lease;

/// What an agent remembers of the task that it claimed.
#[derive(Debug, Drop)]
pub struct Memory {
    lease: Lease,
}

impl Model for Memory {
    ghost use Rattle.std.specs.Prelude.{None};
    ghost use Rattle.cluster_core.specs.Agents as spec;

    ghost Value = { spec.Memory };

    ghost view = { λ memory. record { lease = memory.lease; kept = None } };
}

impl Memory {
    /// What is remembered right after a claim.
    pub fn new(lease: Lease) -> Self
        ensures { result ≡ new_memory lease }
    {
        Memory { lease }
    }

    /// The same with another lease.
    pub fn with_lease(&self, lease: Lease) -> Self
        ensures { result ≡ record self.now { lease = lease } }
    {
        let _seen = &self.lease;
        Memory { lease }
    }

    pub fn lease(&self) -> &Lease
        ensures { result.now ≡ self.now.lease }
    {
        &self.lease
    }
}
