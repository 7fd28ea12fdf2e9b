//! Whole range files.

ghost use Rattle.std.specs.Prelude.{◌≡◌, ◌+◌, ◌<◌, ◌++◌, true, Some, None, Ok, Option, List, length, IfOk, IfErr, IsSome, MatchResult};
ghost use Rattle.fb_bytes.specs.Bytes.{Bytes};
ghost use Rattle.fb_bytes.specs.Pairs.{AreRising};
ghost use Rattle.fb_bytes.specs.declared.Pair.{Pair};
ghost use Rattle.range_files.specs.Grammar.{RangeFile};
ghost use Rattle.range_files.specs.Reading as reading;
ghost use Rattle.range_files.specs.inner.Front.{before_of, all_pairs, first_begin, Grows};

use crate::block::{Block, read_block};
use crate::fault::BlockFault;
use fb_bytes::{Blob, Pair, Pairs, is_same};
use std::alloc::{AllocError, Global};

/// What a range file holds: the pairs from `begin` on and before `end`.
#[derive(Debug, Drop)]
pub struct RangeBody {
    pub begin: Blob,
    pub end: Blob,
    pub pairs: Pairs,
}

/// The number that each block begins with.
pub const FORMAT: u32 = 1001;

/// What the blocks so far hold, but for the pair that ends the last of them.
#[derive(Debug, Drop)]
struct Front {
    begin: Blob,
    pairs: Vec<Pair>,
    /// That pair, or None where the last of them ends with a lone key.
    link: Option<Pair>,
}

/// What a range file in blocks of this size holds, or its first fault.
pub fn read_range(alloc: Global, bytes: &[u8], block: u32) -> Result<RangeBody, BlockFault>
    requires { 0 < block }
    // What is read is in the grammar.
    ensures found { IfOk result (λ body. RangeFile block bytes.now body.begin body.end body.pairs) }
    // What is in the grammar is read, unless memory runs out.
    ensures only { (begin end : Bytes) (pairs : List Pair)
        → RangeFile block bytes.now begin end pairs
        → MatchResult result (λ body. body ≡ record { begin = begin; end = end; pairs = pairs })
        (λ fault. fault ≡ BlockFault.NoMemory) }
    // Which fault it is.
    ensures ok { IfOk result (λ body. reading.read block bytes.now ≡ Ok body) }
    ensures err { IfErr result (λ fault. reading.Fails fault (reading.read block bytes.now)) }
{
    read(alloc, bytes, block)
}

/// Reads block by block.
fn read(alloc: Global, bytes: &[u8], size: u32) -> Result<RangeBody, BlockFault>
    requires { 0 < size }
    ensures ok { IfOk result (λ body. reading.read size bytes.now ≡ Ok body) }
    ensures err { IfErr result (λ fault. reading.Fails fault (reading.read size bytes.now)) }
{
    let mut front = None;
    let mut rest = bytes;
    let mut base: u64 = 0;
    let mut index: u64 = 0;
    loop {
        let (piece, after) = rest.split_at(rest.len().min(size as usize));
        let block = read_block(alloc, piece, base, FORMAT)?;
        if !joins(&front, &block) {
            return Err(BlockFault::Join { block: index });
        }
        if rest.len() <= size as usize {
            return finish(front, block, base + rest.len() as u64);
        }
        front = Some(grown(front, block)?);
        rest = after;
        base += u64::from(size);
        index += 1;
    }
}

/// Whether a block goes on from those before it.
fn joins(front: &Option<Front>, block: &Block) -> bool
    ensures { result ≡ reading.joins (before_of front.now) block.now }
{
    let Some(front) = front else {
        return true;
    };
    let Some(link) = &front.link else {
        return false;
    };
    is_same(block.begin.as_slice(), link.key.as_slice())
        && begins_with(link, block.pairs.as_slice())
}

fn begins_with(pair: &Pair, pairs: &[Pair]) -> bool
    ensures { result ≡ reading.begins_with pair.now pairs.now }
{
    match pairs {
        [] => false,
        [first, ..] => {
            is_same(first.key.as_slice(), pair.key.as_slice())
                && is_same(first.value.as_slice(), pair.value.as_slice())
        }
    }
}

/// The blocks so far and one more.
fn grown(front: Option<Front>, block: Block) -> Result<Front, AllocError>
    ensures { IfOk result (λ grown. Grows front block grown) }
{
    let Block { begin, pairs, end } = block;
    let (mut more, link) = without_last(pairs, &end);
    match front {
        None => Ok(Front {
            begin,
            pairs: more,
            link,
        }),
        Some(
            Front {
                begin,
                pairs: mut all,
                ..
            },
        ) => {
            all.append(&mut more)?;
            Ok(Front {
                begin,
                pairs: all,
                link,
            })
        }
    }
}

/// The pairs of a block but for the last one, and that one where the block ends with it.
fn without_last(pairs: Pairs, end: &Option<Blob>) -> (Vec<Pair>, Option<Pair>)
    ensures front { result.0.items ≡ reading.all_but_last pairs }
    ensures last { result.1 ≡ reading.link_from end.now pairs }
{
    let mut front = pairs.into_vec();
    let last = front.pop();
    match end {
        None => (front, last),
        Some(_) => (front, None),
    }
}

/// The file's content with its last block, which has to end with a lone key. The file ends at the
/// place `at`.
fn finish(front: Option<Front>, block: Block, at: u64) -> Result<RangeBody, BlockFault>
    requires { IsSome block.end → AreRising (all_pairs front block.pairs) }
    ensures ok { IfOk result
        (λ body. reading.last_body at (first_begin front block.begin)
        (all_pairs front block.pairs) block.end ≡ Ok body) }
    ensures err { IfErr result
        (λ fault. reading.Fails fault
        (reading.last_body at (first_begin front block.begin)
        (all_pairs front block.pairs) block.end)) }
{
    let Block { begin, pairs, end } = block;
    let Some(end) = end else {
        return Err(BlockFault::Short { at });
    };
    match front {
        None => Ok(RangeBody { begin, end, pairs }),
        Some(
            Front {
                begin,
                pairs: mut all,
                ..
            },
        ) => {
            let mut more = pairs.into_vec();
            all.append(&mut more)?;
            let pairs = Pairs::from_vec(all);
            Ok(RangeBody { begin, end, pairs })
        }
    }
}
