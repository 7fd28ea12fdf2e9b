ghost use Rattle.std.specs.Prelude.{◌≡◌, ◌<◌, ◌↔◌, List, [], ◌∷◌, ◌++◌, length, slice_set, IsTrue, IfOk, IfSome, IfNone, OnOk, OnErr};

use crate::{Blob, KeyRange, Pair, Text};
use std::alloc::{AllocError, Global};
use std::marker::Model;
use std::sync::Arc;

/// What can be kept twice.
pub trait TryCopy: Sized {
    /// An equal value with memory of its own.
    fn copy(&self) -> Result<Self, AllocError>
        ensures { IfOk result (λ twin. twin ≡ self.now) };
}

/// A list on the heap. Contracts see its items.
#[derive(Debug, Drop)]
pub struct Seq<T> {
    items: Vec<T>,
}

impl<T> Model for Seq<T> {
    ghost Value = { List T };

    ghost view = { λ s. s.items.items };
}

impl<T> Seq<T> {
    /// No items. It takes no memory.
    pub fn new(alloc: Global) -> Self
        ensures { result ≡ [] }
    {
        Seq {
            items: Vec::new(alloc),
        }
    }

    /// The same items, with no copy.
    pub fn from_vec(items: Vec<T>) -> Self
        ensures { result ≡ items.items }
    {
        Seq { items }
    }

    /// The same items, with no copy.
    pub fn into_vec(self) -> Vec<T>
        ensures { result.items ≡ self }
    {
        let Seq { items } = self;
        items
    }

    pub fn as_slice(&self) -> &[T]
        ensures { result.now ≡ self.now }
    {
        &self.items
    }

    pub fn len(&self) -> usize
        ensures { result ≡ length self.now }
    {
        self.items.len()
    }

    pub fn is_empty(&self) -> bool
        ensures { IsTrue result ↔ (self.now ≡ []) }
    {
        self.items.is_empty()
    }
}

impl<T: Drop> Seq<T> {
    /// Adds an item at the end. Without memory the item is let go.
    pub fn push(&mut self, item: T) -> Result<(), AllocError>
        ensures ok { OnOk result (self.new ≡ self.old ++ item ∷ []) }
        ensures err { OnErr result (self.new ≡ self.old) }
    {
        // Many lists stay with one item.
        if self.items.is_empty() {
            self.items.reserve_exact(1)?;
        }
        self.items.push(item)?;
        Ok(())
    }

    /// Takes the last item out.
    pub fn pop(&mut self) -> Option<T>
        ensures some { IfSome result (λ item. self.old ≡ self.new ++ item ∷ []) }
        ensures none { IfNone result ((self.old ≡ []) × (self.new ≡ [])) }
    {
        self.items.pop()
    }

    /// Puts another item into the place of one.
    pub fn set(&mut self, at: usize, item: T)
        requires { at < length self.old }
        ensures { self.new ≡ slice_set self.old at item }
    {
        self.items[at] = item;
    }
}

/// A list on the heap that doesn't change, and that its copies share. Contracts see its items.
#[derive(Debug, Drop)]
pub struct SharedSeq<T> {
    items: Arc<Vec<T>>,
}

impl<T> Model for SharedSeq<T> {
    ghost use Rattle.std.specs.Prelude.{List};
    ghost use Rattle.std.specs.Arc.{arc_value};

    ghost Value = { List T };

    ghost view = { λ s. (arc_value s.items).items };
}

impl<T: Drop> SharedSeq<T> {
    /// The same items, with no copy of them. Without memory they are let go.
    pub fn from_vec(items: Vec<T>) -> Result<Self, AllocError>
        ensures { IfOk result (λ list. list ≡ items.items) }
    {
        let alloc = *items.allocator();
        let items = Arc::new(alloc, items)?;
        Ok(SharedSeq { items })
    }
}

impl<T> SharedSeq<T> {
    pub fn as_slice(&self) -> &[T]
        ensures { result.now ≡ self.now }
    {
        self.items.as_slice()
    }

    pub fn len(&self) -> usize
        ensures { result ≡ length self.now }
    {
        self.items.len()
    }

    pub fn is_empty(&self) -> bool
        ensures { IsTrue result ↔ (self.now ≡ []) }
    {
        self.items.is_empty()
    }
}

impl<T: Drop> TryCopy for SharedSeq<T> {
    fn copy(&self) -> Result<Self, AllocError> {
        let items = Arc::try_clone(&self.items)?;
        Ok(SharedSeq { items })
    }
}

impl<T: TryCopy + Drop> Seq<T> {
    /// An equal list, each item with a copy of its own.
    pub fn copy(&self) -> Result<Self, AllocError>
        ensures { IfOk result (λ twin. twin ≡ self.now) }
    {
        let mut items = Vec::with_capacity(*self.items.allocator(), self.items.len())?;
        for item in &self.items {
            let item = item.copy()?;
            items.push(item)?;
        }
        Ok(Seq { items })
    }
}

impl<T: TryCopy + Drop> TryCopy for Seq<T> {
    fn copy(&self) -> Result<Self, AllocError> {
        Seq::copy(self)
    }
}

impl TryCopy for Blob {
    fn copy(&self) -> Result<Self, AllocError> {
        Blob::copy(self)
    }
}

impl TryCopy for Text {
    fn copy(&self) -> Result<Self, AllocError> {
        Text::copy(self)
    }
}

impl TryCopy for KeyRange {
    fn copy(&self) -> Result<Self, AllocError> {
        KeyRange::copy(self)
    }
}

impl TryCopy for Pair {
    fn copy(&self) -> Result<Self, AllocError> {
        Pair::copy(self)
    }
}
