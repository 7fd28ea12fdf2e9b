ghost use Rattle.std.specs.Borrow.{sem};
ghost use Rattle.std.specs.List.{insert, remove};
ghost use Rattle.versioned_kv.specs.inner.Lends.{LendsEntry};
ghost use Rattle.std.specs.Prelude.{◌≡◌, ◌+◌, ◌-◌, ◌<◌, ◌≤◌, List, [], ◌∷◌, ◌++◌, length, take, drop, Some, slice_get, slice_set, IfOk, OnOk, OnErr};

use crate::Steps;
use std::alloc::{AllocError, Global};
use std::marker::Model;
use std::sync::ledger::Ledger;

/// Entries in order. They are looked at one at a time, and each look is counted.
#[derive(Debug, Drop)]
pub struct Table<T> {
    items: Vec<T>,
}

impl<T> Model for Table<T> {
    ghost use Rattle.std.specs.Prelude.{List};

    ghost Value = { List T };

    ghost view = { λ t. t.items.items };
}

impl<T> Table<T> {
    /// No entries. It takes no memory.
    pub fn new(alloc: Global) -> Self
        ensures { result ≡ [] }
    {
        Table {
            items: Vec::new(alloc),
        }
    }

    /// No entries, with memory for so many.
    pub fn with_capacity(alloc: Global, capacity: usize) -> Result<Self, AllocError>
        ensures { IfOk result (λ table. table ≡ []) }
    {
        let items = Vec::with_capacity(alloc, capacity)?;
        Ok(Table { items })
    }

    pub fn allocator(&self) -> Global {
        *self.items.allocator()
    }

    pub fn len(&self) -> usize
        ensures { result ≡ length self.now }
    {
        self.items.len()
    }

    /// The entry at a place. It is the only look at an entry, and counts one step.
    pub fn at<L: Ledger>(&self, index: usize, steps: &mut Steps<L>) -> &T
        requires { index < length self.now }
        ensures entry { slice_get self.now index ≡ Some result.now }
        ensures steps { steps.new ≡ steps.old + 1 }
    {
        steps.tick();
        &self.items[index]
    }

    /// The entry at a place, to be changed there. It counts one step, as each look.
    pub fn at_mut<L: Ledger>(&mut self, index: usize, steps: &mut Steps<L>) -> &mut T
        requires { index < length self.old }
        ensures* lends { sem 𝓛 (LendsEntry T.row self.entry index result) }
        ensures entry { slice_get self.old index ≡ Some result.now }
        ensures steps { steps.new ≡ steps.old + 1 }
    {
        steps.tick();
        &mut self.items[index]
    }
}

impl<T: Drop> Table<T> {
    /// Adds an entry at the end.
    pub fn push(&mut self, entry: T) -> Result<(), AllocError>
        ensures ok { OnOk result (self.new ≡ self.old ++ entry ∷ []) }
        ensures err { OnErr result (self.new ≡ self.old) }
    {
        self.items.push(entry)?;
        Ok(())
    }

    /// Puts another entry in the place of one.
    pub fn set(&mut self, place: usize, entry: T)
        requires { place < length self.old }
        ensures { self.new ≡ slice_set self.old place entry }
    {
        self.items[place] = entry;
    }

    /// Puts an entry before the one at a place.
    pub fn insert(&mut self, place: usize, entry: T) -> Result<(), AllocError>
        requires { place ≤ length self.old }
        ensures ok { OnOk result (self.new ≡ insert self.old place entry) }
        ensures err { OnErr result (self.new ≡ self.old) }
    {
        self.items.insert(place, entry)?;
        Ok(())
    }

    /// Takes the entry at a place away.
    pub fn remove(&mut self, place: usize)
        requires { place < length self.old }
        ensures { self.new ≡ remove self.old place }
    {
        self.items.remove(place);
    }

    /// Keeps the first so many entries.
    pub fn truncate(&mut self, count: usize)
        ensures { self.new ≡ take count self.old }
    {
        self.items.truncate(count);
    }

    /// Takes the first so many entries away.
    pub fn drop_front(&mut self, count: usize)
        requires { count ≤ length self.old }
        ensures { self.new ≡ drop count self.old }
    {
        let rest = self.items.len() - count;
        self.items.rotate_left(count);
        self.items.truncate(rest);
    }

    /// Takes the entries from a place on away, and hands them back.
    pub fn split_off(&mut self, place: usize) -> Result<Self, AllocError>
        requires { place ≤ length self.old }
        ensures ok { OnOk result (self.new ≡ take place self.old) }
        ensures rest { IfOk result (λ rest. rest ≡ drop place self.old) }
        ensures err { OnErr result (self.new ≡ self.old) }
    {
        let items = self.items.split_off(place)?;
        Ok(Table { items })
    }
}
