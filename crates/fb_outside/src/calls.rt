//! Calls that are to fail, as tests of what uses an object in memory want them.

ghost use Rattle.std.specs.Prelude.{◌≡◌, [], IfOk, if◌then◌else◌};
ghost use Rattle.fb_outside.specs.Calls as calls;
ghost use Rattle.fb_outside.specs.Faults as counts;
ghost use Rattle.fb_outside.specs.Faults.{most_faults};

use std::alloc::{AllocError, Global};
use std::marker::Model;

/// Which calls fail, counted from 1, and how many did.
#[derive(Debug, Drop)]
pub struct Calls {
    made: u64,
    failing: Vec<u64>,
    last: u64,
    faults: u64,
}

impl Model for Calls {
    ghost use Rattle.fb_outside.specs.Calls as calls;

    ghost Value = { calls.Calls };

    ghost view = { λ c. record { made = c.made; failing = c.failing.items; last = c.last; faults = c.faults } };
}

impl Calls {
    /// The listed calls fail.
    pub fn new(alloc: Global, failing: &[u64]) -> Result<Self, AllocError>
        ensures { IfOk result (λ c. c ≡ calls.fresh failing.now most_faults) }
    {
        let failing = Vec::from_slice(alloc, failing)?;
        Ok(Calls {
            made: 0,
            failing,
            last: u64::MAX,
            faults: 0,
        })
    }

    /// Every call after the one of that number fails. It takes no memory.
    pub fn failing_after(alloc: Global, last: u64) -> Self
        ensures { result ≡ calls.fresh [] last }
    {
        Calls {
            made: 0,
            failing: Vec::new(alloc),
            last,
            faults: 0,
        }
    }

    /// Counts a call, and a fault where the call is to fail.
    pub fn fails_next(&mut self) -> bool
        ensures fails { result ≡ calls.next_fails self.old }
        ensures counted { self.new
            ≡ (if calls.next_fails self.old then calls.after_failed_call self.old
            else calls.after_call self.old) }
    {
        self.made = counted(self.made);
        let fails = self.failing.contains(&self.made) || self.last < self.made;
        if fails {
            self.fault();
        }
        fails
    }

    /// Counts a fault.
    pub fn fault(&mut self)
        ensures { self.new ≡ calls.after_fault self.old }
    {
        self.faults = counted(self.faults);
    }

    pub fn faults(&self) -> u64
        ensures { result ≡ self.now.faults }
    {
        self.faults
    }

    /// An equal state with memory of its own.
    pub fn copy(&self) -> Result<Self, AllocError>
        ensures { IfOk result (λ c. c ≡ self.now) }
    {
        let failing = self.failing.clone()?;
        Ok(Calls {
            made: self.made,
            failing,
            last: self.last,
            faults: self.faults,
        })
    }
}

pub fn counted(count: u64) -> u64
    ensures { result ≡ counts.counted count }
{
    if count == u64::MAX { count } else { count + 1 }
}
