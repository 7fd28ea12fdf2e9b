ghost use Rattle.std.specs.Prelude.{◌≡◌, ◌*◌, ◌<◌, ◌≤◌, ◌^◌, false, List, [], length, IfOk, OnOk, OnErr};
ghost use Rattle.mutations.specs.declared.mutation.Mutation.{Mutation};
ghost use Rattle.log_keys.specs.Logs.{IsBatch, Spells, AreOrdered, stands, with_one, batches_between, erased, without};

use crate::joining::{all_joined, batches_of};
use crate::row::Row;
use crate::table::{erase, has_part, insert_all, parts_of, place_of, retract, rows_between};
use mutations::LogChunk;
use std::alloc::{AllocError, Global};
use std::marker::Model;

/// The logs of jobs. It is seen as what stands under each job and version, in their order: the
/// mutations of one batch. Within it is a table of parts, in the byte order of their keys.
#[derive(Debug, Drop)]
pub struct LogKeys {
    rows: Vec<Row>,
}

impl Model for LogKeys {
    ghost use Rattle.std.specs.Prelude.{List};
    ghost use Rattle.log_keys.specs.Logs.{Standing};
    ghost use Rattle.log_keys.specs.inner.Table.{IsTable, log_in};

    ghost Value = { List Standing };

    ghost view = { λ k. log_in k.rows.items };

    ghost invariant = { λ k. IsTable k.rows.items };
}

impl LogKeys {
    /// Nothing is logged. It takes no memory.
    pub fn new(alloc: Global) -> Self
        ensures { result ≡ [] }
    {
        LogKeys {
            rows: Vec::new(alloc),
        }
    }

    /// Whether something stands under a job and a version.
    pub fn stands(&self, job: u64, version: u64) -> bool
        ensures { result ≡ stands job version self.now }
    {
        has_part(&self.rows, job, version)
    }

    /// What stands is in order. A call makes it known to the proof of its caller, and does nothing
    /// when it runs.
    pub fn in_order(&self)
        ensures { AreOrdered self.now }
    {
        let _rows = &self.rows;
    }

    /// Puts a batch under a job and a version, in parts of `part` bytes of which the last one may be
    /// shorter. Without memory nothing changes.
    pub fn put_batch(
        &mut self,
        job: u64,
        version: u64,
        batch: &[u8],
        part: usize,
    ) -> Result<(), AllocError>
        requires read { IsBatch batch.now }
        requires some { 0 < part }
        requires few { length batch.now ≤ 2 ^ 32 * part }
        requires free { stands job version self.old ≡ false }
        ensures ok { OnOk result ((muts : List Mutation) → Spells batch.now muts
            → self.new ≡ with_one (record { job = job; version = version; muts = muts }) self.old) }
        ensures err { OnErr result (self.new ≡ self.old) }
    {
        let alloc = *self.rows.allocator();
        let more = parts_of(alloc, job, version, batch, part)?;
        let place = place_of(&self.rows, job, version);
        insert_all(&mut self.rows, place, more)?;
        Ok(())
    }

    /// What stands under a job from the version `begin` on and before `end`.
    pub fn join(&self, job: u64, begin: u64, end: u64) -> Result<LogChunk, AllocError>
        ensures { IfOk result
            (λ chunk. chunk
            ≡ record {
              begin = begin;
              end = end;
              batches = batches_between job begin end self.now;
            }) }
    {
        let alloc = *self.rows.allocator();
        let rows = rows_between(&self.rows, job, begin, end);
        let wholes = all_joined(alloc, rows)?;
        let batches = batches_of(alloc, &wholes)?;
        Ok(LogChunk {
            begin,
            end,
            batches,
        })
    }

    /// Takes what stands under a job and a version before `below` out. It takes no memory.
    pub fn erase(&mut self, job: u64, below: u64)
        ensures { self.new ≡ erased job below self.old }
    {
        erase(&mut self.rows, job, below);
    }

    /// Takes what stands under a version out, whatever the job. It takes no memory.
    pub fn retract(&mut self, version: u64)
        ensures { self.new ≡ without version self.old }
    {
        retract(&mut self.rows, version);
    }
}
