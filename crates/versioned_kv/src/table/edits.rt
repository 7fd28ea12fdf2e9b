ghost use Rattle.std.specs.Prelude.{◌≡◌, suc, ◌-◌, ◌<◌, ◌≤◌, true, [], ◌∷◌, ◌++◌, length, take, drop, slice_get, slice_set, Some, None, IfOk, OnOk, OnErr, if◌then◌else◌};
ghost use Rattle.fb_bytes.specs.Bytes.{Bytes, is_same};
ghost use Rattle.fb_bytes.specs.Keys.{holds};
ghost use Rattle.mutations.specs.Effects.{range_of};
ghost use Rattle.versioned_kv.specs.declared.chain.Chain.{Chain};
ghost use Rattle.versioned_kv.specs.Chains.{value_at};
ghost use Rattle.versioned_kv.specs.inner.Chains.{AreChains, AreRising};
ghost use Rattle.versioned_kv.specs.Edits.{without_rows, with_rows};
ghost use Rattle.versioned_kv.specs.inner.Edits.{AreRowsUpto, AreUpto, put_row, put_at, is_chain_of, is_row_of, clear_chain, changed_at, all_cleared, IsClearedUpto};
ghost use Rattle.versioned_kv.specs.Forgotten.{rows_fallen, forgotten};
ghost use Rattle.versioned_kv.specs.inner.Queued.{Notes, AreNoted};

use super::Table;
use crate::Steps;
use crate::chain::{Chain, Row};
use crate::queue::Queue;
use fb_bytes::{Blob, is_same};
use std::alloc::{AllocError, Global};
use std::sync::ledger::Ledger;

impl Table<Row> {
    /// Puts a row at the end, in place of another of its version.
    pub fn put<L: Ledger>(&mut self, row: Row, steps: &mut Steps<L>) -> Result<(), AllocError>
        requires rising { AreRising self.old }
        requires upto { AreRowsUpto row.version self.old }
        ensures ok { OnOk result (self.new ≡ put_row row self.old) }
        ensures err { OnErr result (self.new ≡ self.old) }
    {
        if self.ends_at(row.version, steps) {
            let last = self.len() - 1;
            self.set(last, row);
            return Ok(());
        }
        self.push(row)
    }

    /// Takes the row of a version away, which isn't past it.
    pub fn cut<L: Ledger>(&mut self, version: u64, steps: &mut Steps<L>)
        requires rising { AreRising self.old }
        requires upto { AreRowsUpto version self.old }
        ensures { self.new ≡ without_rows version self.old }
    {
        if self.ends_at(version, steps) {
            let rest = self.len() - 1;
            self.truncate(rest);
        }
    }

    /// Forgets the rows up to the oldest version, but for the last one of them where it has a value.
    pub fn forget<L: Ledger>(&mut self, oldest: u64, steps: &mut Steps<L>)
        requires { AreRising self.old }
        ensures { self.new ≡ forgotten oldest self.old }
    {
        let fallen = self.fallen(oldest, steps);
        self.drop_front(fallen);
    }

    /// How many rows fall once those before the oldest version are forgotten.
    fn fallen<L: Ledger>(&self, oldest: u64, steps: &mut Steps<L>) -> usize
        requires { AreRising self.now }
        ensures count { result ≡ rows_fallen oldest self.now }
        ensures within { result ≤ length self.now }
    {
        let upto = self.place_past(oldest, steps);
        if upto == 0 {
            return 0;
        }
        let last = self.at(upto - 1, steps);
        if last.value.is_some() {
            return upto - 1;
        }
        upto
    }

    /// Whether the last row, if there is one, is of the version.
    fn ends_at<L: Ledger>(&self, version: u64, steps: &mut Steps<L>) -> bool
        ensures last { result ≡ is_row_of version (slice_get self.now (length self.now - 1)) }
        ensures some { result ≡ true → 0 < length self.now }
    {
        let len = self.len();
        if len == 0 {
            return false;
        }
        self.at(len - 1, steps).version == version
    }
}

impl Chain {
    /// A key with its first row.
    pub fn of_row(alloc: Global, key: &[u8], row: Row) -> Result<Self, AllocError>
        ensures { IfOk result (λ chain. chain ≡ record { key = key.now; rows = row ∷ [] }) }
    {
        // Most keys have one row.
        let mut rows = Table::with_capacity(alloc, 1)?;
        rows.push(row)?;
        let key = Blob::from_slice(alloc, key)?;
        Ok(Chain { key, rows })
    }
}

impl Chain {
    /// Takes the value away, where there is one, and notes the key.
    fn clear<L: Ledger>(
        &mut self,
        version: u64,
        queue: &mut Queue,
        steps: &mut Steps<L>,
    ) -> Result<(), AllocError>
        requires rising { AreRising self.old.rows }
        requires upto { AreRowsUpto version self.old.rows }
        ensures ok { OnOk result (self.new ≡ clear_chain version self.old) }
        ensures err { OnErr result (self.new ≡ self.old) }
        ensures notes { Notes version queue.old queue.new }
        ensures noted { AreNoted version (self.old ∷ []) queue.old
            → AreNoted version (self.new ∷ []) queue.new }
    {
        if self.rows.value(version, steps).is_none() {
            return Ok(());
        }
        queue.note(version, &self.key)?;
        let row = Row {
            version,
            value: None,
        };
        self.rows.put(row, steps)
    }
}

impl Table<Chain> {
    /// Puts a row at the end of the rows of a key.
    pub fn put<L: Ledger>(
        &mut self,
        key: &[u8],
        row: Row,
        steps: &mut Steps<L>,
    ) -> Result<(), AllocError>
        requires chains { AreChains self.old }
        requires upto { AreUpto row.version self.old }
        ensures ok { OnOk result (self.new ≡ put_at key.now row self.old) }
        ensures err { OnErr result (self.new ≡ self.old) }
    {
        let place = self.place_of(key, steps);
        if self.is_at(place, key, steps) {
            let chain = self.at_mut(place, steps);
            return chain.rows.put(row, steps);
        }
        let chain = Chain::of_row(self.allocator(), key, row)?;
        self.insert(place, chain)
    }

    /// Whether the chain at a place, if there is one, is that of the key.
    fn is_at<L: Ledger>(&self, place: usize, key: &[u8], steps: &mut Steps<L>) -> bool
        ensures { result ≡ is_chain_of key.now (slice_get self.now place) }
    {
        if place >= self.len() {
            return false;
        }
        is_same(self.at(place, steps).key.as_slice(), key)
    }

    /// Takes the value of the chain at a place away, and notes its key.
    fn clear_at<L: Ledger>(
        &mut self,
        place: usize,
        version: u64,
        queue: &mut Queue,
        steps: &mut Steps<L>,
    ) -> Result<(), AllocError>
        requires place { place < length self.old }
        requires chains { AreChains self.old }
        requires upto { AreUpto version self.old }
        ensures ok { OnOk result ((chain : Chain) → slice_get self.old place ≡ Some chain
            → self.new ≡ slice_set self.old place (clear_chain version chain)) }
        ensures err { OnErr result (self.new ≡ self.old) }
        ensures notes { Notes version queue.old queue.new }
        ensures noted { AreNoted version self.old queue.old → AreNoted version self.new queue.new }
    {
        let chain = self.at_mut(place, steps);
        chain.clear(version, queue, steps)
    }

    /// Takes the values of the keys of a range away, and notes these keys. Without memory some may be
    /// left.
    pub fn clear<L: Ledger>(
        &mut self,
        begin: &[u8],
        end: &[u8],
        version: u64,
        queue: &mut Queue,
        steps: &mut Steps<L>,
    ) -> Result<(), AllocError>
        requires chains { AreChains self.old }
        requires upto { AreUpto version self.old }
        ensures part { IsClearedUpto (range_of begin.now end.now) version self.old self.new }
        ensures ok { OnOk result
            (self.new ≡ all_cleared (range_of begin.now end.now) version self.old) }
        ensures notes { Notes version queue.old queue.new }
        ensures noted { AreNoted version self.old queue.old → AreNoted version self.new queue.new }
    {
        let first = self.place_of(begin, steps);
        let last = self.place_of(end, steps);
        for place in first..last {
            self.clear_at(place, version, queue, steps)?;
        }
        Ok(())
    }

    /// Takes the row of a version from the chain at a place, and the chain with its last row.
    fn cut_at<L: Ledger>(&mut self, place: usize, version: u64, steps: &mut Steps<L>)
        requires place { place < length self.old }
        requires rows { (chain : Chain) → slice_get self.old place ≡ Some chain
            → AreRising chain.rows × AreRowsUpto version chain.rows }
        ensures { (chain : Chain) → slice_get self.old place ≡ Some chain
            → self.new ≡ take place self.old
            ++ with_rows chain.key (without_rows version chain.rows) (drop (suc place) self.old) }
    {
        let chain = self.at_mut(place, steps);
        chain.rows.cut(version, steps);
        let is_empty = chain.rows.len() == 0;
        if is_empty {
            self.remove(place);
        }
    }

    /// Takes the row of a version, to which no row is newer, from a key. It takes no memory.
    pub fn cut<L: Ledger>(&mut self, key: &[u8], version: u64, steps: &mut Steps<L>)
        requires chains { AreChains self.old }
        requires upto { AreUpto version self.old }
        ensures { self.new ≡ changed_at (without_rows version) key.now self.old }
    {
        let place = self.place_of(key, steps);
        if self.is_at(place, key, steps) {
            self.cut_at(place, version, steps);
        }
    }

    /// Forgets what falls of the chain at a place, and the chain with its last row.
    fn forget_at<L: Ledger>(&mut self, place: usize, oldest: u64, steps: &mut Steps<L>)
        requires place { place < length self.old }
        requires rising { (chain : Chain) → slice_get self.old place ≡ Some chain
            → AreRising chain.rows }
        ensures { (chain : Chain) → slice_get self.old place ≡ Some chain
            → self.new ≡ take place self.old
            ++ with_rows chain.key (forgotten oldest chain.rows) (drop (suc place) self.old) }
    {
        let chain = self.at_mut(place, steps);
        chain.rows.forget(oldest, steps);
        let is_empty = chain.rows.len() == 0;
        if is_empty {
            self.remove(place);
        }
    }

    /// Forgets what falls of a key. It takes no memory.
    pub fn forget<L: Ledger>(&mut self, key: &[u8], oldest: u64, steps: &mut Steps<L>)
        requires { AreChains self.old }
        ensures { self.new ≡ changed_at (forgotten oldest) key.now self.old }
    {
        let place = self.place_of(key, steps);
        if self.is_at(place, key, steps) {
            self.forget_at(place, oldest, steps);
        }
    }
}
