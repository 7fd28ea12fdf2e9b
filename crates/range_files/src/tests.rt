ghost use Rattle.std.specs.Prelude.{◌≡◌, true};
ghost use Rattle.std.specs.List.{AllByRecursion};
ghost use Rattle.range_files.specs.Writing.{IsWritable, PairFits};

use super::*;
use block_frame::Profile;
use fb_bytes::{Blob, Pair, is_below};
use std::alloc::{AllocError, Global};
use std::test::Fail;

/// The file of the keys `b` to `g` with values of 64 bytes, from `a` to `z`, in blocks of 256 bytes: each
/// block but the first begins with the last key of the one before again.
const THREE_BLOCKS: &[u8] = b"\
    \xe9\x03\0\0\0\0\0\x01a\
    \0\0\0\x01b\0\0\0\x40\
    vvvvvvvvvvvvvvvvvvvvvvvvvvvvvvvvvvvvvvvvvvvvvvvvvvvvvvvvvvvvvvvv\
    \0\0\0\x01c\0\0\0\x40\
    vvvvvvvvvvvvvvvvvvvvvvvvvvvvvvvvvvvvvvvvvvvvvvvvvvvvvvvvvvvvvvvv\
    \0\0\0\x01d\0\0\0\x40\
    vvvvvvvvvvvvvvvvvvvvvvvvvvvvvvvvvvvvvvvvvvvvvvvvvvvvvvvvvvvvvvvv\
    \xff\xff\xff\xff\xff\xff\xff\xff\xff\xff\xff\xff\xff\xff\
    \xff\xff\xff\xff\xff\xff\xff\xff\xff\xff\xff\xff\xff\xff\
    \xe9\x03\0\0\0\0\0\x01d\
    \0\0\0\x01d\0\0\0\x40\
    vvvvvvvvvvvvvvvvvvvvvvvvvvvvvvvvvvvvvvvvvvvvvvvvvvvvvvvvvvvvvvvv\
    \0\0\0\x01e\0\0\0\x40\
    vvvvvvvvvvvvvvvvvvvvvvvvvvvvvvvvvvvvvvvvvvvvvvvvvvvvvvvvvvvvvvvv\
    \0\0\0\x01f\0\0\0\x40\
    vvvvvvvvvvvvvvvvvvvvvvvvvvvvvvvvvvvvvvvvvvvvvvvvvvvvvvvvvvvvvvvv\
    \xff\xff\xff\xff\xff\xff\xff\xff\xff\xff\xff\xff\xff\xff\
    \xff\xff\xff\xff\xff\xff\xff\xff\xff\xff\xff\xff\xff\xff\
    \xe9\x03\0\0\0\0\0\x01f\
    \0\0\0\x01f\0\0\0\x40\
    vvvvvvvvvvvvvvvvvvvvvvvvvvvvvvvvvvvvvvvvvvvvvvvvvvvvvvvvvvvvvvvv\
    \0\0\0\x01g\0\0\0\x40\
    vvvvvvvvvvvvvvvvvvvvvvvvvvvvvvvvvvvvvvvvvvvvvvvvvvvvvvvvvvvvvvvv\
    \0\0\0\x01z";

/// The file of a chunk, where it can be written in blocks of this size.
fn written(alloc: Global, block: u32, chunk: &Chunk) -> Result<Option<Blob>, AllocError> {
    if !is_writable(block, chunk) {
        return Ok(None);
    }
    Ok(Some(write_range_at(alloc, block, chunk)?))
}

fn is_writable(block: u32, chunk: &Chunk) -> bool
    ensures { result ≡ true → IsWritable block chunk.now.begin chunk.now.end chunk.now.pairs }
{
    let Some(profile) = Profile::from_block(block) else {
        return false;
    };
    let begin = chunk.begin.as_slice();
    let end = chunk.end.as_slice();
    begin.len() <= profile.key
        && end.len() <= profile.key
        && is_below(begin, end)
        && are_within(&profile, begin, end, chunk.pairs.as_slice())
}

fn are_within(profile: &Profile, begin: &[u8], end: &[u8], pairs: &[Pair]) -> bool
    ensures { result ≡ true
        → AllByRecursion (PairFits profile.now.block begin.now end.now) pairs.now }
{
    match pairs {
        [] => true,
        [pair, others @ ..] => {
            is_within(profile, begin, end, pair) && are_within(profile, begin, end, others)
        }
    }
}

fn is_within(profile: &Profile, begin: &[u8], end: &[u8], pair: &Pair) -> bool
    ensures { result ≡ true → PairFits profile.now.block begin.now end.now pair.now }
{
    let key = pair.key.as_slice();
    key.len() <= profile.key
        && pair.value.len() <= profile.value
        && !is_below(key, begin)
        && is_below(key, end)
}

/// The pairs that a file of version 20 has, with its ends.
fn chunk_of(alloc: Global, text: &[u8]) -> Result<Chunk, BlockFault> {
    let RangeBody { begin, end, pairs } = read_range(alloc, text, 256)?;
    Ok(Chunk {
        begin,
        end,
        version: 20,
        pairs,
    })
}

/// What is read is written as it was.
#[test]
fn file_of_three_blocks(rt: HostRuntime) -> Result<(), Fail> {
    let chunk = chunk_of(rt.alloc(), THREE_BLOCKS)?;
    assert!(rt; chunk.begin.as_slice() == b"a".as_slice());
    assert!(rt; chunk.end.as_slice() == b"z".as_slice());
    assert_eq!(rt; chunk.pairs.len(), 6);
    let text = written(rt.alloc(), 256, &chunk)?.ok_or("within the limits")?;
    assert!(rt; text.as_slice() == THREE_BLOCKS);
    Ok(())
}

fn crosses<T: Send + Sync>() {}

/// Threads may hand these on and share them.
#[test]
fn types_cross_threads() {
    crosses::<Chunk>();
    crosses::<RangeBody>();
    crosses::<BlockFault>();
}
