ghost use Rattle.std.specs.Prelude.{◌≡◌, ℕ, ◌+◌, ◌-◌, ◌*◌, ◌<◌, ◌≤◌, ◌^◌, min, [], length, IfOk, OnOk, None, if◌then◌else◌};
ghost use Rattle.std.specs.Option.{option_copied};
ghost use Rattle.fb_bytes.specs.Bytes.{Bytes, is_same};
ghost use Rattle.fb_bytes.specs.Keys.{holds};
ghost use Rattle.mutations.specs.Effects.{range_of};
ghost use Rattle.versioned_kv.specs.Chains.{rows_of, value_at};
ghost use Rattle.versioned_kv.specs.inner.Chains.{AreChains};
ghost use Rattle.versioned_kv.specs.Edits.{without_rows};
ghost use Rattle.versioned_kv.specs.inner.Edits.{AreUpto, changed_at, Extends};
ghost use Rattle.versioned_kv.specs.Touched.{RowsStay};
ghost use Rattle.versioned_kv.specs.inner.Touched.{has_value_in};
ghost use Rattle.versioned_kv.specs.Forgotten.{forgotten};
ghost use Rattle.versioned_kv.specs.inner.Queued.{Notes, AreNoted};
ghost use Rattle.versioned_kv.specs.Pages.{IsPage};

use crate::chain::{Chain, Row};
use crate::queue::Queue;
use crate::table::Table;
use crate::{Page, Steps, chunks};
use fb_bytes::{Blob, KeyRange};
use std::alloc::{AllocError, Global};
use std::marker::Model;
use std::sync::ledger::Ledger;

/// Keys in order, each with its rows.
#[derive(Debug, Drop)]
pub struct Keys {
    chunks: Vec<Table<Chain>>,
}

impl Model for Keys {
    ghost use Rattle.std.specs.Prelude.{List};
    ghost use Rattle.versioned_kv.specs.declared.chain.Chain.{Chain};
    ghost use Rattle.versioned_kv.specs.inner.Chunks.{joined, AreFilled};

    ghost Value = { List Chain };

    ghost view = { λ k. joined k.chunks.items };

    ghost invariant = { λ k. AreFilled k.chunks.items };
}

impl Keys {
    /// No key. It takes no memory.
    pub fn new(alloc: Global) -> Self
        ensures { result ≡ [] }
    {
        Keys {
            chunks: Vec::new(alloc),
        }
    }

    pub fn allocator(&self) -> Global {
        *self.chunks.allocator()
    }

    /// How many keys there are, or the greatest `usize` where there are more.
    pub fn count(&self) -> usize
        ensures { result ≡ min (length self.now) (2 ^ 64 - 1) }
    {
        chunks::count(&self.chunks)
    }

    /// How many rows a key has.
    pub fn count_of<L: Ledger>(&self, key: &[u8], steps: &mut Steps<L>) -> usize
        requires { AreChains self.now }
        ensures { result ≡ length (rows_of self.now key.now) }
    {
        chunks::count_of(&self.chunks, key, steps)
    }

    /// What a version left at a key.
    pub fn value<L: Ledger>(&self, key: &[u8], version: u64, steps: &mut Steps<L>) -> Option<&Blob>
        requires { AreChains self.now }
        ensures value { option_copied result ≡ value_at self.now key.now version }
        ensures steps { (d e : ℕ) → length self.now < 2 ^ d
            → length (rows_of self.now key.now) < 2 ^ e → steps.new ≤ steps.old + (2 * d + e + 2) }
    {
        chunks::value(&self.chunks, key, version, steps)
    }

    /// Puts a row at the end of the rows of a key, which are of its version or older.
    pub fn write<L: Ledger>(
        &mut self,
        key: &[u8],
        row: Row,
        steps: &mut Steps<L>,
    ) -> Result<(), AllocError>
        requires chains { AreChains self.old }
        requires upto { AreUpto row.version self.old }
        ensures extends { Extends row.version self.old self.new }
        ensures others { RowsStay (is_same key.now) self.old self.new }
        ensures ok { OnOk result ((at : Bytes) → value_at self.new at row.version
            ≡ (if is_same key.now at then row.value else value_at self.old at row.version)) }
    {
        chunks::put(&mut self.chunks, key, row, steps)
    }

    /// Takes the values of the keys of a range away, and notes these keys. Without memory some may be
    /// left.
    pub fn clear<L: Ledger>(
        &mut self,
        begin: &[u8],
        end: &[u8],
        version: u64,
        queue: &mut Queue,
        steps: &mut Steps<L>,
    ) -> Result<(), AllocError>
        requires chains { AreChains self.old }
        requires upto { AreUpto version self.old }
        ensures extends { Extends version self.old self.new }
        ensures others { RowsStay (has_value_in (range_of begin.now end.now) version self.old)
            self.old self.new }
        ensures ok { OnOk result ((key : Bytes) → value_at self.new key version
            ≡ (if holds (range_of begin.now end.now) key then None
            else value_at self.old key version)) }
        ensures notes { Notes version queue.old queue.new }
        ensures noted { AreNoted version self.old queue.old → AreNoted version self.new queue.new }
    {
        chunks::clear(&mut self.chunks, begin, end, version, queue, steps)
    }

    /// Takes the row of a version, to which no row is newer, from a key, which goes with its last row.
    /// It takes no memory.
    pub fn cut<L: Ledger>(&mut self, key: &[u8], version: u64, steps: &mut Steps<L>)
        requires chains { AreChains self.old }
        requires upto { AreUpto version self.old }
        ensures { self.new ≡ changed_at (without_rows version) key.now self.old }
    {
        chunks::cut(&mut self.chunks, key, version, steps);
    }

    /// Forgets the rows of a key up to the oldest version, but for the last one of them where it has a
    /// value. A key goes with its last row. It takes no memory.
    pub fn forget<L: Ledger>(&mut self, key: &[u8], oldest: u64, steps: &mut Steps<L>)
        requires { AreChains self.old }
        ensures { self.new ≡ changed_at (forgotten oldest) key.now self.old }
    {
        chunks::forget(&mut self.chunks, key, oldest, steps);
    }

    /// The first pairs of a range at a version, at most as many as the limit.
    pub fn scan<L: Ledger>(
        &self,
        range: &KeyRange,
        version: u64,
        limit: usize,
        steps: &mut Steps<L>,
    ) -> Result<Page, AllocError>
        requires { AreChains self.now }
        ensures { IfOk result
            (λ page. IsPage (λ key. value_at self.now key version) range.now limit page) }
    {
        let alloc = self.allocator();
        chunks::scan(&self.chunks, range, version, limit, alloc, steps)
    }
}
