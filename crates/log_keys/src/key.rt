//! The key of a part.

ghost use Rattle.std.specs.Prelude.{◌≡◌, ◌+◌, ◌≤◌, length, take, drop, IfOk};
ghost use Rattle.std.specs.Int.{from_be_bytes, w64};
ghost use Rattle.log_keys.specs.Keys.{key_bytes};

use fb_bytes::Blob;
use std::alloc::{AllocError, Global};
use std::marker::Model;

/// What all keys of logs begin with.
const PREFIX: &[u8] = b"\xff\x02/blog/";

/// Where a part stands: its job, the version of its batch, and its number in the batch, as the bytes
/// of a key.
#[derive(Debug, Drop)]
pub struct LogKey {
    bytes: Blob,
}

impl Model for LogKey {
    ghost use Rattle.std.specs.Prelude.{◌≡◌};
    ghost use Rattle.log_keys.specs.Keys.{Key, Fits, key_bytes, key_in};

    ghost Value = { Key };

    ghost view = { λ k. key_in k.bytes };

    ghost invariant = { λ k. (k.bytes ≡ key_bytes (key_in k.bytes)) × Fits (key_in k.bytes) };
}

impl LogKey {
    pub fn new(alloc: Global, job: u64, version: u64, part: u32) -> Result<Self, AllocError>
        ensures { IfOk result (λ key. key ≡ record { job = job; version = version; part = part }) }
    {
        let bytes = bytes_of(alloc, job, version, part)?;
        Ok(LogKey { bytes })
    }

    pub fn as_slice(&self) -> &[u8]
        ensures { result.now ≡ key_bytes self.now }
    {
        self.bytes.as_slice()
    }

    pub fn job(&self) -> u64
        ensures { result ≡ self.now.job }
    {
        number_at(self.bytes.as_slice(), 8)
    }

    pub fn version(&self) -> u64
        ensures { result ≡ self.now.version }
    {
        number_at(self.bytes.as_slice(), 16)
    }
}

#[tactic(auto, unfolding(crate::specs::Keys::key_bytes))]
fn bytes_of(alloc: Global, job: u64, version: u64, part: u32) -> Result<Blob, AllocError>
    ensures { IfOk result
        (λ bytes. bytes ≡ key_bytes (record { job = job; version = version; part = part })) }
{
    let mut bytes = Blob::from_slice(alloc, PREFIX)?;
    bytes.extend_from_slice(&job.to_be_bytes())?;
    bytes.extend_from_slice(&version.to_be_bytes())?;
    bytes.extend_from_slice(&part.to_be_bytes())?;
    Ok(bytes)
}

/// The number in the eight bytes at a place, the high byte first.
fn number_at(bytes: &[u8], at: usize) -> u64
    requires { at + 8 ≤ length bytes.now }
    ensures { result ≡ from_be_bytes w64 (take 8 (drop at bytes.now)) }
{
    let (_, rest) = bytes.split_at(at);
    let (number, _) = rest.split_at(8);
    u64::from_be_bytes([
        number[0], number[1], number[2], number[3], number[4], number[5], number[6], number[7],
    ])
}
