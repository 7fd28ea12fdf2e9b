ghost use Rattle.std.specs.Prelude.{◌≡◌, ◌<◌, ◌≤◌, List, [], length, IfOk, IsErrOf};
ghost use Rattle.fb_bytes.specs.Bytes.{Bytes};
ghost use Rattle.fb_outside.specs.Contents.{IsRestOf};
ghost use Rattle.fb_outside.specs.Faults.{Counts};
ghost use Rattle.fb_outside.specs.declared.reading.ReadFault.TheVariants as faults;

use crate::{Failed, Source};
use fb_bytes::Blob;
use std::alloc::{AllocError, AllocFailed, Global};

/// Why a source wasn't read to its end.
#[derive(Clone, Copy, Debug, PartialEq, Eq)]
pub enum ReadFault {
    /// The source failed.
    Failed,
    /// More bytes came than the limit allows.
    TooLong,
    /// There was no memory for the bytes.
    NoMemory,
}

impl From<Failed> for ReadFault {
    ghost from_gives = { λ _ e. e ≡ faults.Failed };

    fn from(_: Failed) -> Self {
        ReadFault::Failed
    }
}

impl From<AllocError> for ReadFault {
    ghost from_gives = { λ _ e. e ≡ faults.NoMemory };

    fn from(_: AllocError) -> Self {
        ReadFault::NoMemory
    }
}

impl<T: Drop> From<AllocFailed<T>> for ReadFault {
    ghost from_gives = { λ _ e. e ≡ faults.NoMemory };

    fn from(_: AllocFailed<T>) -> Self {
        ReadFault::NoMemory
    }
}

/// Reads a source to its end, where at most `limit` bytes come. It stops at the first piece that
/// passes the limit.
pub fn read_all<S: Source>(alloc: Global, source: &mut S, limit: u64) -> Result<Blob, ReadFault>
    ensures whole { IfOk result (λ blob. (bytes : Bytes) → S.left source.old ≡ Some bytes
        → (blob ≡ bytes) × (S.left source.new ≡ Some [])) }
    ensures short { IfOk result (λ blob. length blob ≤ limit) }
    ensures too_long { IsErrOf result ReadFault.TooLong → (bytes : Bytes)
        → S.left source.old ≡ Some bytes → limit < length bytes }
    ensures rest { (bytes : Bytes) → S.left source.old ≡ Some bytes → (rest : Bytes)
        × (S.left source.new ≡ Some rest) × IsRestOf bytes rest }
    ensures count { Counts (S.faults source.old) (S.faults source.new)
        (IsErrOf result ReadFault.Failed) }
{
    let mut bytes = Vec::new(alloc);
    let mut buf = [0u8; 4096];
    'reads: loop {
        let n = source.read(&mut buf)?;
        if n == 0 {
            return Ok(Blob::from_vec(bytes));
        }
        if n as u64 > limit - bytes.len() as u64 {
            return Err(ReadFault::TooLong);
        }
        bytes.extend_from_slice(&buf[..n])?;
    }
}
