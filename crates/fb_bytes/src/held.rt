//! Where the bytes of a string stand.

ghost use Rattle.std.specs.Prelude.{◌≡◌, ◌+◌, ◌≤◌, ◌++◌, length, IfOk};
ghost use Rattle.fb_bytes.specs.inner.Held.{held_bytes, IsHeld};

use std::alloc::{AllocError, Global};
use std::sync::Arc;

/// How many bytes stand in place. With them a string has the size of four pointers.
pub const MOST_SHORT: usize = 30;

/// Few bytes stand in place, and take no memory on the heap. More of them are a list that grows, or
/// one that several strings share.
#[derive(Debug, Drop)]
pub enum Held {
    Short { len: u8, bytes: [u8; 30] },
    Own(Vec<u8>),
    Shared(Arc<Vec<u8>>),
}

impl Held {
    /// A copy of some bytes and of more behind them.
    pub fn joined(alloc: Global, front: &[u8], back: &[u8]) -> Result<Held, AllocError>
        ensures bytes { IfOk result (λ held. held_bytes held ≡ front.now ++ back.now) }
        ensures held { IfOk result IsHeld }
    {
        let len = front.len() + back.len();
        if len <= MOST_SHORT {
            return Ok(Held::short(front, back));
        }
        let mut bytes = Vec::with_capacity(alloc, len)?;
        bytes.extend_from_slice(front)?;
        bytes.extend_from_slice(back)?;
        Ok(Held::Own(bytes))
    }

    /// A copy of the bytes, whose copies share their memory.
    pub fn shared(alloc: Global, bytes: &[u8]) -> Result<Held, AllocError>
        ensures bytes { IfOk result (λ held. held_bytes held ≡ bytes.now) }
        ensures held { IfOk result IsHeld }
    {
        if bytes.len() <= MOST_SHORT {
            return Ok(Held::short(bytes, &[]));
        }
        let bytes = Vec::from_slice(alloc, bytes)?;
        let bytes = Arc::new(alloc, bytes)?;
        Ok(Held::Shared(bytes))
    }

    fn short(front: &[u8], back: &[u8]) -> Held
        requires { length front.now + length back.now ≤ 30 }
        ensures bytes { held_bytes result ≡ front.now ++ back.now }
        ensures held { IsHeld result }
    {
        let len = front.len() + back.len();
        let mut bytes = [0; MOST_SHORT];
        bytes[..front.len()].copy_from_slice(front);
        bytes[front.len()..len].copy_from_slice(back);
        Held::Short {
            len: len as u8,
            bytes,
        }
    }

    pub fn as_slice(&self) -> &[u8]
        requires { IsHeld self.now }
        ensures { result.now ≡ held_bytes self.now }
    {
        match self {
            Held::Short { len, bytes } => &bytes[..*len as usize],
            Held::Own(bytes) => bytes.as_slice(),
            Held::Shared(bytes) => bytes.as_slice(),
        }
    }

    /// The same bytes again. Those that can be shared are.
    pub fn copy(&self, alloc: Global) -> Result<Held, AllocError>
        requires { IsHeld self.now }
        ensures bytes { IfOk result (λ held. held_bytes held ≡ held_bytes self.now) }
        ensures held { IfOk result IsHeld }
    {
        match self {
            Held::Short { len, bytes } => Ok(Held::Short {
                len: *len,
                bytes: *bytes,
            }),
            Held::Own(bytes) => Held::shared(alloc, bytes.as_slice()),
            Held::Shared(bytes) => Ok(Held::Shared(Arc::try_clone(bytes)?)),
        }
    }
}
