//! The parts of a batch, joined.

ghost use Rattle.std.specs.Prelude.{◌≡◌, ◌++◌, IfOk};
ghost use Rattle.log_files.specs.inner.Joined.{joined_from};

use fb_bytes::Blob;
use std::alloc::{AllocError, Global};

/// The bytes of a batch so far. Those of a single part stay in the file's bytes.
#[derive(Debug, Drop)]
pub enum Joined<'a> {
    One(&'a [u8]),
    More(Blob),
}

impl<'a> Joined<'a> {
    pub fn as_slice(&self) -> &[u8]
        ensures { result.now ≡ joined_from self.now }
    {
        match self {
            Joined::One(bytes) => bytes,
            Joined::More(bytes) => bytes.as_slice(),
        }
    }

    /// The same with the bytes of one more part behind them.
    pub fn with(self, alloc: Global, part: &[u8]) -> Result<Self, AllocError>
        ensures { IfOk result (λ joined. joined_from joined ≡ joined_from self.entry ++ part.now) }
    {
        let mut bytes = match self {
            Joined::One(first) => {
                let mut bytes = Blob::new(alloc);
                bytes.extend_from_slice(first)?;
                bytes
            }
            Joined::More(bytes) => bytes,
        };
        bytes.extend_from_slice(part)?;
        Ok(Joined::More(bytes))
    }
}
