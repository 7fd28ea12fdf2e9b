ghost use Rattle.std.specs.Prelude.{nat_eq, refl, ◌≡◌, ℕ, ◌+◌, ◌<◌, ◌↔◌, List, [], ◌∷◌, ◌++◌, length, IsTrue, IfOk, OnOk, OnErr};
ghost use Rattle.fb_bytes.specs.Bytes.{IsBytes, is_same};
ghost use Rattle.std.specs.Ordering.{nat_cmp, as_partial_cmp};
ghost use Rattle.std.specs.Cmp.Lexicographic.{pointwise, slice_cmp};
ghost use Rattle.std.specs.Cmp.{partial_order_from_own_ties};
ghost use Rattle.std.specs.Cmp.Rules.{comparing};
ghost use Rattle.std.proofs.Common.{rules};

use crate::held::Held;
use std::alloc::{AllocError, Global};
use std::cmp::Ordering;
use std::marker::Model;

/// A string of bytes: a key, a value, or what a file holds. A short one takes no memory of its own on
/// the heap, and the copies of a long one share their memory.
#[derive(Debug, Drop)]
pub struct Blob {
    alloc: Global,
    held: Held,
}

impl Model for Blob {
    ghost use Rattle.std.specs.Prelude.{List, ℕ};
    ghost use Rattle.fb_bytes.specs.inner.Held.{held_bytes, IsHeld};

    ghost Value = { List ℕ };

    ghost view = { λ b. held_bytes b.held };

    ghost invariant = { λ b. IsHeld b.held };
}

impl Blob {
    /// The empty string. It takes no memory.
    pub fn new(alloc: Global) -> Self
        ensures { result ≡ [] }
    {
        Blob {
            alloc,
            held: Held::Own(Vec::new(alloc)),
        }
    }

    /// A copy of the bytes.
    pub fn from_slice(alloc: Global, bytes: &[u8]) -> Result<Self, AllocError>
        ensures { IfOk result (λ blob. blob ≡ bytes.now) }
    {
        let held = Held::shared(alloc, bytes)?;
        Ok(Blob { alloc, held })
    }

    /// The same bytes, with no copy.
    pub fn from_vec(bytes: Vec<u8>) -> Self
        ensures { result ≡ bytes.items }
    {
        Blob {
            alloc: *bytes.allocator(),
            held: Held::Own(bytes),
        }
    }

    pub fn as_slice(&self) -> &[u8]
        ensures same { result.now ≡ self.now }
        ensures bytes { IsBytes self.now }
    {
        let bytes = self.held.as_slice();
        bytes
    }

    pub fn len(&self) -> usize
        ensures { result ≡ length self.now }
    {
        self.as_slice().len()
    }

    pub fn is_empty(&self) -> bool
        ensures { IsTrue result ↔ (self.now ≡ []) }
    {
        self.as_slice().is_empty()
    }

    /// Adds a byte at the end.
    pub fn push(&mut self, byte: u8) -> Result<(), AllocError>
        ensures ok { OnOk result (self.new ≡ self.old ++ byte ∷ []) }
        ensures err { OnErr result (self.new ≡ self.old) }
    {
        self.extend_from_slice(&[byte])
    }

    /// Adds bytes at the end.
    pub fn extend_from_slice(&mut self, more: &[u8]) -> Result<(), AllocError>
        ensures ok { OnOk result (self.new ≡ self.old ++ more.now) }
        ensures err { OnErr result (self.new ≡ self.old) }
    {
        if let Held::Own(bytes) = &mut self.held {
            bytes.extend_from_slice(more)?;
            return Ok(());
        }
        self.held = Held::joined(self.alloc, self.held.as_slice(), more)?;
        Ok(())
    }

    /// An equal string. The copies of a long one share their memory.
    pub fn copy(&self) -> Result<Self, AllocError>
        ensures { IfOk result (λ blob. blob ≡ self.now) }
    {
        let held = self.held.copy(self.alloc)?;
        Ok(Blob {
            alloc: self.alloc,
            held,
        })
    }
}

impl PartialEq for Blob {
    ghost eq = { pointwise nat_eq };

    ghost laws = { Prim.search (comparing, rules) };

    fn eq(&self, other: &Blob) -> bool {
        self.as_slice() == other.as_slice()
    }
}

impl Eq for Blob {
    ghost laws = { Prim.search (comparing, rules) };
}

// Byte order.
impl PartialOrd for Blob {
    ghost partial_cmp = { as_partial_cmp (slice_cmp nat_cmp) };

    ghost laws = { partial_order_from_own_ties (Prim.search (comparing, rules)) (Prim.search (comparing, rules)) };

    fn partial_cmp(&self, other: &Blob) -> Option<Ordering> {
        Some(self.cmp(other))
    }
}

impl Ord for Blob {
    ghost cmp = { slice_cmp nat_cmp };

    ghost total = { Prim.search (comparing, rules) };

    ghost matches_partial_cmp = { λ x y. refl };

    ghost matches_eq = { Prim.search (comparing, rules) };

    fn cmp(&self, other: &Blob) -> Ordering {
        self.as_slice().cmp(&other.as_slice())
    }
}
