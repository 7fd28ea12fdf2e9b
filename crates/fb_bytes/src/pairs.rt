ghost use Rattle.std.specs.Prelude.{◌≡◌, ◌↔◌, [], ◌∷◌, ◌++◌, List, length, IsTrue, IfOk, OnOk, OnErr};

use crate::Blob;
use std::alloc::{AllocError, Global};
use std::marker::Model;

/// A key and its value.
#[derive(Debug, Drop)]
pub struct Pair {
    pub key: Blob,
    pub value: Blob,
}

impl Pair {
    /// An equal pair with memory of its own.
    pub fn copy(&self) -> Result<Self, AllocError>
        ensures { IfOk result (λ pair. pair ≡ self.now) }
    {
        let key = self.key.copy()?;
        let value = self.value.copy()?;
        Ok(Pair { key, value })
    }
}

/// Pairs in strictly rising order of their keys.
#[derive(Debug, Drop)]
pub struct Pairs {
    pairs: Vec<Pair>,
}

impl Model for Pairs {
    ghost use Rattle.std.specs.Prelude.{List};
    ghost use Rattle.fb_bytes.specs.declared.pairs.Pair.{Pair};

    ghost Value = { List Pair };

    ghost use Rattle.fb_bytes.specs.Pairs.{AreRising};

    ghost view = { λ p. p.pairs.items };

    ghost invariant = { λ p. AreRising p.pairs.items };
}

impl Pairs {
    ghost use Rattle.fb_bytes.specs.Pairs.{AreRising};

    /// No pairs. It takes no memory.
    pub fn new(alloc: Global) -> Self
        ensures { result ≡ [] }
    {
        Pairs {
            pairs: Vec::new(alloc),
        }
    }

    /// The same pairs, with no copy.
    pub fn from_vec(pairs: Vec<Pair>) -> Self
        requires { AreRising pairs.items }
        ensures { result ≡ pairs.items }
    {
        Pairs { pairs }
    }

    /// The same pairs, with no copy.
    pub fn into_vec(self) -> Vec<Pair>
        ensures same { result.items ≡ self }
        ensures rising { AreRising self }
    {
        let Pairs { pairs } = self;
        pairs
    }

    pub fn as_slice(&self) -> &[Pair]
        ensures same { result.now ≡ self.now }
        ensures rising { AreRising self.now }
    {
        &self.pairs
    }

    pub fn len(&self) -> usize
        ensures { result ≡ length self.now }
    {
        self.pairs.len()
    }

    pub fn is_empty(&self) -> bool
        ensures { IsTrue result ↔ (self.now ≡ []) }
    {
        self.pairs.is_empty()
    }

    /// Adds a pair at the end. Without memory the pair is let go.
    pub fn push(&mut self, pair: Pair) -> Result<(), AllocError>
        requires { AreRising (self.old ++ pair ∷ []) }
        ensures ok { OnOk result (self.new ≡ self.old ++ pair ∷ []) }
        ensures err { OnErr result (self.new ≡ self.old) }
    {
        self.pairs.push(pair)?;
        Ok(())
    }

    /// An equal list with memory of its own.
    pub fn copy(&self) -> Result<Self, AllocError>
        ensures { IfOk result (λ pairs. pairs ≡ self.now) }
    {
        let mut pairs = Vec::with_capacity(*self.pairs.allocator(), self.pairs.len())?;
        for pair in &self.pairs {
            let pair = pair.copy()?;
            pairs.push(pair)?;
        }
        Ok(Pairs { pairs })
    }
}
