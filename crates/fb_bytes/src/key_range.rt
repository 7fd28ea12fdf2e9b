ghost use Rattle.std.specs.Prelude.{◌≡◌, IfOk};
ghost use Rattle.fb_bytes.specs.Keys as keys;

use crate::{Blob, is_below};
use std::alloc::AllocError;

/// The end of the user space.
const USER_END: &[u8; 1] = &[0xff];

/// The keys from `begin` on and before `end`, in byte order.
#[derive(Debug, Drop)]
pub struct KeyRange {
    pub begin: Blob,
    pub end: Blob,
}

impl KeyRange {
    /// Whether the range has the key.
    pub fn contains(&self, key: &[u8]) -> bool
        ensures { result ≡ keys.holds self.now key.now }
    {
        !is_below(key, self.begin.as_slice()) && is_below(key, self.end.as_slice())
    }

    /// Whether some key is in both ranges, where each has one.
    pub fn overlaps(&self, other: &KeyRange) -> bool
        ensures { result ≡ keys.overlaps self.now other.now }
    {
        is_below(self.begin.as_slice(), other.end.as_slice())
            && is_below(other.begin.as_slice(), self.end.as_slice())
    }

    /// Whether the begin isn't below the end, so that the range has no key.
    pub fn is_backwards(&self) -> bool
        ensures { result ≡ keys.is_backwards self.now }
    {
        !is_below(self.begin.as_slice(), self.end.as_slice())
    }

    /// Whether the end is past the end of the user space.
    pub fn is_past_user(&self) -> bool
        ensures { result ≡ keys.is_past_user self.now }
    {
        is_below(USER_END, self.end.as_slice())
    }

    /// An equal range with memory of its own.
    pub fn copy(&self) -> Result<Self, AllocError>
        ensures { IfOk result (λ range. range ≡ self.now) }
    {
        let begin = self.begin.copy()?;
        let end = self.end.copy()?;
        Ok(KeyRange { begin, end })
    }
}
