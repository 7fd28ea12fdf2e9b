ghost use Rattle.std.specs.Prelude.{◌≡◌, ◌-◌, ◌<◌, ◌≤◌, ◌++◌, [], true, min, length, take, is_err, IsErr, IfOk, OnErr, if◌then◌else◌};
ghost use Rattle.fb_outside.specs.Calls.{fresh, next_fails, after_call, after_failed_call};
ghost use Rattle.fb_outside.specs.Faults.{most_faults};

use crate::calls::Calls;
use crate::{Failed, Sink};
use fb_bytes::Blob;
use std::alloc::{AllocError, Global};
use std::marker::Model;

/// A sink that keeps the bytes in memory, up to a number of them. Some calls may be told to fail.
#[derive(Debug, Drop)]
pub struct MemSink {
    written: Blob,
    room: usize,
    calls: Calls,
}

impl Model for MemSink {
    ghost use Rattle.std.specs.Prelude.{◌≤◌, length};
    ghost use Rattle.fb_outside.specs.Memory.{Writing};

    ghost Value = { Writing };

    ghost view = { λ s. record { held = s.written; room = s.room; calls = s.calls } };

    ghost invariant = { λ s. length s.written ≤ s.room };
}

impl MemSink {
    /// It takes memory for `room` bytes. The calls of the numbers in `failing` fail, counted from 1.
    pub fn new(alloc: Global, room: usize, failing: &[u64]) -> Result<Self, AllocError>
        ensures held { IfOk result (λ sink. sink.held ≡ []) }
        ensures room { IfOk result (λ sink. sink.room ≡ room) }
        ensures calls { IfOk result (λ sink. sink.calls ≡ fresh failing.now most_faults) }
    {
        let written = Blob::from_vec(Vec::with_capacity(alloc, room)?);
        let calls = Calls::new(alloc, failing)?;
        Ok(MemSink {
            written,
            room,
            calls,
        })
    }

    /// What it holds. It takes no memory.
    pub fn written(&self) -> &Blob
        ensures { result.now ≡ self.now.held }
    {
        &self.written
    }
}

impl Sink for MemSink {
    ghost use Rattle.std.specs.Prelude.{Some};

    ghost faults = { λ s. s.calls.faults };

    ghost held = { λ s. Some s.held };

    /// It takes the bytes that fit into the room left. Where none fits it is a failing call.
    fn write(&mut self, piece: &[u8]) -> Result<usize, Failed>
        ensures fails { next_fails self.old.calls ≡ true → IsErr result }
        ensures full { 0 < length piece.now → self.old.room ≤ length self.old.held → IsErr result }
        ensures taken { IfOk result
            (λ n. (n ≡ min (length piece.now) (self.old.room - length self.old.held))
            × (self.new.held ≡ self.old.held ++ take n piece.now)) }
        ensures stays { OnErr result (self.new.held ≡ self.old.held) }
        ensures room { self.new.room ≡ self.old.room }
        ensures calls { self.new.calls
            ≡ (if is_err result then after_failed_call self.old.calls
            else after_call self.old.calls) }
    {
        if self.calls.fails_next() {
            return Err(Failed);
        }
        let n = piece.len().min(self.room - self.written.len());
        let is_full = n == 0 && !piece.is_empty();
        // The memory is there since `new`, so that the second test is never met.
        if is_full || self.written.extend_from_slice(&piece[..n]).is_err() {
            self.calls.fault();
            return Err(Failed);
        }
        Ok(n)
    }

    fn faults(&self) -> u64 {
        self.calls.faults()
    }
}
