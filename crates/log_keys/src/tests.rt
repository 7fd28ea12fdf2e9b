ghost use Rattle.std.specs.Prelude.{◌≡◌, ◌<◌, false};
ghost use Rattle.log_keys.specs.Logs.{stands};

use crate::LogKeys;
use crate::key::LogKey;
use fb_bytes::is_same;
use mutations::{Mutation, decode_batch};
use std::alloc::{AllocError, Global};
use std::test::Fail;

/// The batch of `set a 1` and `clearrange b c`.
const BATCH: [u8; 40] = [
    0xbd, 0x1b, 0, 0, 0, 0, 0, 0, 28, 0, 0, 0, // the number of batches, and the length
    0, 0, 0, 0, 1, 0, 0, 0, 1, 0, 0, 0, 0x61, 0x31, // set
    1, 0, 0, 0, 1, 0, 0, 0, 1, 0, 0, 0, 0x62, 0x63, // clearrange
];

/// Puts that batch, where nothing stands yet.
fn put(alloc: Global, logs: &mut LogKeys, job: u64, version: u64, part: usize) -> Result<(), Fail> {
    if part == 0 || logs.stands(job, version) {
        return Err("no part, or one that stands".into());
    }
    put_read(alloc, logs, job, version, part)
}

fn put_read(
    alloc: Global,
    logs: &mut LogKeys,
    job: u64,
    version: u64,
    part: usize,
) -> Result<(), Fail>
    requires some { 0 < part }
    requires free { stands job version logs.old ≡ false }
{
    let _muts = decode_batch(alloc, &BATCH)?;
    logs.put_batch(job, version, &BATCH, part)?;
    Ok(())
}

fn is_set(mutation: &Mutation) -> bool {
    match mutation {
        Mutation::Set { key, value } => {
            is_same(key.as_slice(), b"a") && is_same(value.as_slice(), b"1")
        }
        _ => false,
    }
}

fn is_clear(mutation: &Mutation) -> bool {
    match mutation {
        Mutation::ClearRange { begin, end } => {
            is_same(begin.as_slice(), b"b") && is_same(end.as_slice(), b"c")
        }
        _ => false,
    }
}

/// Whether that batch alone stands under the job and the version 20.
fn has_batch(logs: &LogKeys, job: u64) -> Result<bool, AllocError> {
    let chunk = logs.join(job, 20, 21)?;
    let [batch] = chunk.batches.as_slice() else {
        return Ok(false);
    };
    let [first, second] = batch.muts.as_slice() else {
        return Ok(false);
    };
    Ok(batch.version == 20 && is_set(first) && is_clear(second))
}

#[test]
fn a_batch_of_several_parts_is_joined(rt: HostRuntime) -> Result<(), Fail> {
    let alloc = rt.alloc();
    for part in [1, 7, 20, 39, 40, 100] {
        let mut logs = LogKeys::new(alloc);
        put(alloc, &mut logs, 7, 20, part)?;
        assert!(rt; has_batch(&logs, 7)?, "{part}");
        assert!(rt; !has_batch(&logs, 8)?, "{part}");
    }
    Ok(())
}

#[test]
fn a_key_is_a_prefix_and_three_numbers(rt: HostRuntime) -> Result<(), Fail> {
    let key = LogKey::new(rt.alloc(), 1, 258, 3)?;
    let bytes = b"\xff\x02/blog/\0\0\0\0\0\0\0\x01\0\0\0\0\0\0\x01\x02\0\0\0\x03";
    assert_eq!(rt; key.as_slice(), bytes.as_slice());
    Ok(())
}

fn crosses<T: Send + Sync>() {}

/// Threads may hand these on and share them.
#[test]
fn types_cross_threads() {
    crosses::<LogKeys>();
}
