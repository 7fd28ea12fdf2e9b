ghost use Rattle.std.specs.Prelude.{◌≡◌, ◌++◌, min, length, take, drop, is_err, IfOk, OnErr};
ghost use Rattle.fb_outside.specs.Calls.{fresh, next_fails};
ghost use Rattle.fb_outside.specs.Faults.{most_faults};
ghost use Rattle.fb_outside.specs.Memory.{called};

use crate::calls::Calls;
use crate::{Failed, Source};
use std::alloc::{AllocError, Global};
use std::marker::Model;

/// A source over bytes in memory, of which some calls may be told to fail.
#[derive(Debug, Drop)]
pub struct MemSource {
    bytes: Vec<u8>,
    at: usize,
    calls: Calls,
}

impl Model for MemSource {
    ghost use Rattle.std.specs.Prelude.{◌≤◌, length, drop};
    ghost use Rattle.fb_outside.specs.Memory.{Reading};

    ghost Value = { Reading };

    ghost view = { λ s. record { left = drop s.at s.bytes.items; calls = s.calls } };

    ghost invariant = { λ s. s.at ≤ length s.bytes.items };
}

impl MemSource {
    /// The calls of the numbers in `failing` fail, counted from 1.
    pub fn new(alloc: Global, bytes: &[u8], failing: &[u64]) -> Result<Self, AllocError>
        ensures left { IfOk result (λ source. source.left ≡ bytes.now) }
        ensures calls { IfOk result (λ source. source.calls ≡ fresh failing.now most_faults) }
    {
        let bytes = Vec::from_slice(alloc, bytes)?;
        let calls = Calls::new(alloc, failing)?;
        Ok(MemSource {
            bytes,
            at: 0,
            calls,
        })
    }
}

impl Source for MemSource {
    ghost use Rattle.std.specs.Prelude.{Some};

    ghost faults = { λ s. s.calls.faults };

    ghost left = { λ s. Some s.left };

    fn read(&mut self, buf: &mut [u8]) -> Result<usize, Failed>
        ensures fails { is_err result ≡ next_fails self.old.calls }
        ensures read { IfOk result (λ n. (n ≡ min (length buf.old) (length self.old.left))
            × (buf.new ≡ take n self.old.left ++ drop n buf.old)
            × (self.new.left ≡ drop n self.old.left)) }
        ensures stays { OnErr result (self.new.left ≡ self.old.left) }
        ensures calls { self.new.calls ≡ called self.old.calls }
    {
        if self.calls.fails_next() {
            return Err(Failed);
        }
        let rest = &self.bytes[self.at..];
        let n = buf.len().min(rest.len());
        buf[..n].copy_from_slice(&rest[..n]);
        self.at += n;
        Ok(n)
    }

    fn faults(&self) -> u64 {
        self.calls.faults()
    }
}
