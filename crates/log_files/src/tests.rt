ghost use Rattle.std.specs.Prelude.{◌≡◌, ◌≤◌, ◌^◌, length, IfOk};
ghost use Rattle.log_files.specs.Writing.{AreLogged};

use super::*;
use fb_bytes::{Blob, Seq};
use mutations::{Batch, LogChunk, Mutation};
use std::alloc::{AllocError, Global};
use std::test::Fail;

/// The log from 10 to 21 with `set a 1` at version 20.
const SMALLEST: &[u8] = &[
    0xd1, 7, 0, 0, 0, 0, 0, 12, 0, 0, 0, 0, 0, 0, 0, 20, 0, 0, 0, 0, 0, 0, 0, 26, 0xbd, 0x1b, 0, 0,
    0, 0, 0, 0, 14, 0, 0, 0, 0, 0, 0, 0, 1, 0, 0, 0, 1, 0, 0, 0, 0x61, 0x31,
];

/// The log from 10 to 21 where the key `a` was set at version 20.
fn one_set(alloc: Global, value: &[u8]) -> Result<LogChunk, AllocError>
    requires { length value.now ≤ 2 ^ 20 }
    ensures begin { IfOk result (λ chunk. chunk.begin ≡ 10) }
    ensures end { IfOk result (λ chunk. chunk.end ≡ 21) }
    ensures logged { IfOk result (λ chunk. AreLogged 10 21 chunk.batches) }
{
    let mut muts = Seq::new(alloc);
    muts.push(Mutation::Set {
        key: Blob::from_slice(alloc, b"a")?,
        value: Blob::from_slice(alloc, value)?,
    })?;
    let mut batches = Seq::new(alloc);
    batches.push(Batch { version: 20, muts })?;
    Ok(LogChunk {
        begin: 10,
        end: 21,
        batches,
    })
}

#[test]
fn smallest_log(rt: HostRuntime) -> Result<(), Fail> {
    let chunk = one_set(rt.alloc(), b"1")?;
    let text = write_log::<256>(rt.alloc(), &chunk)?;
    assert_eq!(rt; text.as_slice(), SMALLEST);
    Ok(())
}

fn crosses<T: Send + Sync>() {}

/// Threads may hand these on and share them.
#[test]
fn types_cross_threads() {
    crosses::<LogFault>();
}
