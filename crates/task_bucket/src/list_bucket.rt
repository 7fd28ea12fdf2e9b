ghost use Rattle.std.specs.Prelude.{◌≡◌};

use crate::changes::{self, claim_from, extend_in, finish_in};
use crate::held::{self, Held};
use crate::{Bucket, Lease, LeaseFault};
use std::alloc::{AllocError, Global};
use std::marker::Model;
use task_kinds::Task;

/// A bucket in memory: one list of tasks in the order of their uids, each available or leased, and
/// how many are available.
#[derive(Debug, Drop)]
pub struct ListBucket {
    held: Vec<Held>,
    free: usize,
}

impl Model for ListBucket {
    ghost use Rattle.task_bucket.specs.Lists.{Lists};

    ghost Value = { Lists };

    ghost use Rattle.task_bucket.specs.inner.Held.{lists_in, AreCounted};

    ghost view = { λ b. lists_in b.held.items };

    ghost invariant = { λ b. AreCounted b.free b.held.items };
}

impl ListBucket {
    ghost use Rattle.task_bucket.specs.Lists.{nothing};

    /// A bucket without tasks. It takes no memory.
    pub fn new(alloc: Global) -> Self
        ensures { result ≡ nothing }
    {
        ListBucket {
            held: Vec::new(alloc),
            free: 0,
        }
    }
}

impl Bucket for ListBucket {
    ghost lists = { λ b. b };

    fn add(&mut self, uid: u64, task: Task) -> Result<(), AllocError> {
        changes::put(
            &mut self.held,
            &mut self.free,
            Held {
                uid,
                until: 0,
                free: true,
                task,
            },
        )
    }

    fn add_asleep(&mut self, until: u64, uid: u64, task: Task) -> Result<(), AllocError> {
        changes::put(
            &mut self.held,
            &mut self.free,
            Held {
                uid,
                until,
                free: false,
                task,
            },
        )
    }

    fn claim(&mut self, now: u64, lease: u64, pick: u64) -> Result<Option<Lease>, AllocError> {
        claim_from(&mut self.held, &mut self.free, now, lease, pick)
    }

    fn extend(&mut self, lease: &Lease, now: u64, length: u64) -> Result<Lease, LeaseFault> {
        extend_in(&mut self.held, lease.until, lease.uid, now + length)
    }

    fn finish(&mut self, lease: &Lease) -> Result<(), LeaseFault> {
        finish_in(&mut self.held, lease.until, lease.uid)
    }

    fn holds(&self, until: u64, uid: u64) -> bool {
        held::is_leased(&self.held, until, uid)
    }

    fn earliest(&self) -> Option<u64> {
        held::earliest(&self.held)
    }

    fn drop_job(&mut self, job: u64) {
        changes::drop_job(&mut self.held, &mut self.free, job);
    }

    fn remove(&mut self, uid: u64) {
        changes::remove(&mut self.held, &mut self.free, uid);
    }
}
