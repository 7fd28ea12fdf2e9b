ghost use Rattle.std.specs.Prelude.{◌≡◌, IfOk};

use fb_bytes::{Blob, Pairs, TryCopy};
use std::alloc::AllocError;

/// What a read of a transaction found.
#[derive(Debug, Drop)]
pub enum Found {
    /// The value of the key, where it has one.
    One(Option<Blob>),
    /// The first pairs of the range.
    Many(Pairs),
}

impl Found {
    /// The same with memory of its own.
    pub fn copy(&self) -> Result<Self, AllocError>
        ensures { IfOk result (λ found. found ≡ self.now) }
    {
        match self {
            Found::One(None) => Ok(Found::One(None)),
            Found::One(Some(value)) => Ok(Found::One(Some(value.copy()?))),
            Found::Many(pairs) => Ok(Found::Many(pairs.copy()?)),
        }
    }
}

impl TryCopy for Found {
    fn copy(&self) -> Result<Self, AllocError> {
        Found::copy(self)
    }
}
