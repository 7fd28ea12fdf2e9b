ghost use Rattle.std.specs.Prelude.{◌≡◌, ℕ, ◌≤◌, [], ◌∷◌, ◌++◌, OnOk, OnErr, MatchOption};
ghost use Rattle.versioned_kv.specs.inner.Queued.{touch, AreInOrder, AreTouchesUpto, AreTouchesBelow, AreTouchesPast};

use fb_bytes::Blob;
use std::alloc::{AllocError, Global};
use std::collections::VecDeque;
use std::marker::Model;

/// A version, and a key that it touched.
#[derive(Debug, Drop)]
pub struct Touch {
    pub version: u64,
    pub key: Blob,
}

/// The keys that versions touched, from the oldest version on.
#[derive(Debug, Drop)]
pub struct Queue {
    touches: VecDeque<Touch>,
}

impl Model for Queue {
    ghost use Rattle.std.specs.Prelude.{List};
    ghost use Rattle.versioned_kv.specs.declared.queue.Touch.{Touch};

    ghost Value = { List Touch };

    ghost view = { λ q. q.touches.items };
}

impl Queue {
    /// No key. It takes no memory.
    pub fn new(alloc: Global) -> Self
        ensures { result ≡ [] }
    {
        Queue {
            touches: VecDeque::new(alloc),
        }
    }

    /// Adds a key that the version touches.
    pub fn note(&mut self, version: u64, key: &Blob) -> Result<(), AllocError>
        ensures ok { OnOk result (self.new ≡ self.old ++ touch version key.now ∷ []) }
        ensures err { OnErr result (self.new ≡ self.old) }
    {
        let key = key.copy()?;
        self.touches.push_back(Touch { version, key })?;
        Ok(())
    }

    /// Takes a key that the newest version touched. None exactly where there is no other one.
    pub fn pop_newest(&mut self, version: u64) -> Option<Blob>
        requires order { AreInOrder self.old }
        requires upto { AreTouchesUpto version self.old }
        ensures { MatchOption result ((self.new ≡ self.old) × AreTouchesBelow version self.new)
            (λ key. self.old ≡ self.new ++ touch version key ∷ []) }
    {
        let last = self.touches.back()?;
        if last.version != version {
            return None;
        }
        let touch = self.touches.pop_back()?;
        Some(touch.key)
    }

    /// Takes a key that the oldest version touched, where it is at or below a version.
    pub fn pop_oldest(&mut self, upto: u64) -> Option<Blob>
        requires { AreInOrder self.old }
        ensures { MatchOption result ((self.new ≡ self.old) × AreTouchesPast upto self.new)
            (λ key. (version : ℕ) × (version ≤ upto)
            × (self.old ≡ touch version key ∷ self.new)) }
    {
        let first = self.touches.front()?;
        if first.version > upto {
            return None;
        }
        let touch = self.touches.pop_front()?;
        Some(touch.key)
    }
}
