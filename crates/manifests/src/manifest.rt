ghost use Rattle.std.specs.Prelude.{◌≡◌, IfOk};

use fb_bytes::Names;
use std::alloc::{AllocError, Global};

/// What a manifest says of a snapshot.
#[derive(Debug, Drop)]
pub struct Manifest {
    /// The least version of its files.
    pub begin: u64,
    /// Their greatest version.
    pub end: u64,
    /// Their names, in byte order.
    pub files: Names,
    /// The bytes of all of them.
    pub bytes: u64,
}

impl Manifest {
    /// An equal manifest with memory of its own.
    pub fn copy(&self) -> Result<Self, AllocError>
        ensures { IfOk result (λ manifest. manifest ≡ self.now) }
    {
        let files = self.files.copy()?;
        Ok(Manifest {
            begin: self.begin,
            end: self.end,
            files,
            bytes: self.bytes,
        })
    }
}
