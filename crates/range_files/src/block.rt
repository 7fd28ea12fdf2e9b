//! One block of a range file.

ghost use Rattle.std.specs.Prelude.{◌≡◌, ℕ, ◌+◌, ◌^◌, ◌<◌, ◌≤◌, ◌++◌, Some, None, Ok, Option, List, length, IfOk, IfErr, MatchResult};
ghost use Rattle.fb_bytes.specs.Bytes.{Bytes};
ghost use Rattle.fb_bytes.specs.Pairs.{AreRising};
ghost use Rattle.fb_bytes.specs.declared.Pair.{Pair};
ghost use Rattle.range_files.specs.Grammar.{pairs_text, end_text, IsBlockAt};
ghost use Rattle.range_files.specs.Reading as reading;
ghost use Rattle.range_files.specs.inner.Seen.{items_from};

use crate::fault::BlockFault;
use block_frame::{header_at, is_over, string_at, unpadded_at};
use fb_bytes::{Blob, Pair, Pairs, is_below, is_same};
use std::alloc::Global;

/// One block: its begin key, its pairs, and the lone key that may end it.
#[derive(Debug, Drop)]
pub struct Block {
    pub begin: Blob,
    pub pairs: Pairs,
    /// None where the block ends with a pair. That pair stands again in the next block, and counts
    /// there.
    pub end: Option<Blob>,
}

/// What stands behind the begin key, and the bytes behind it.
#[derive(Debug, Drop)]
struct Items<'a> {
    pairs: Vec<Pair>,
    end: Option<Blob>,
    rest: &'a [u8],
}

/// Reads one block, whose header stands at the place `base` of its file and is the number `header`.
/// The block at 0 is the first one; in later ones the first pair's key is the begin key.
pub fn read_block(alloc: Global, bytes: &[u8], base: u64, header: u32) -> Result<Block, BlockFault>
    requires { base + length bytes.now < 2 ^ 64 }
    // What is read is in the grammar.
    ensures found { IfOk result
        (λ block. IsBlockAt header base bytes.now block.begin block.pairs block.end) }
    // What is in the grammar is read, unless memory runs out.
    ensures only { (begin : Bytes) (pairs : List Pair) (end : Option Bytes)
        → IsBlockAt header base bytes.now begin pairs end
        → MatchResult result (λ block. block ≡ record { begin = begin; pairs = pairs; end = end })
        (λ fault. fault ≡ BlockFault.NoMemory) }
    // Which fault it is.
    ensures ok { IfOk result (λ block. reading.block_of header base bytes.now ≡ Ok block) }
    ensures err { IfErr result
        (λ fault. reading.Fails fault (reading.block_of header base bytes.now)) }
{
    read(alloc, bytes, base, header)
}

/// Reads from left to right.
#[tactic(auto, unfolding(crate::specs::Reading::block_of))]
fn read(alloc: Global, bytes: &[u8], base: u64, header: u32) -> Result<Block, BlockFault>
    requires { base + length bytes.now < 2 ^ 64 }
    ensures ok { IfOk result (λ block. reading.block_of header base bytes.now ≡ Ok block) }
    ensures err { IfErr result
        (λ fault. reading.Fails fault (reading.block_of header base bytes.now)) }
{
    let (begin, items) = structure(alloc, bytes, base, header)?;
    let place = base + (8 + begin.len() as u64);
    let end = base + bytes.len() as u64;
    if let Some(at) = padding_fault(items.rest, end) {
        return Err(BlockFault::Padding { at });
    }
    let Items { pairs, end, .. } = items;
    if let Some(at) = disorder(base == 0, begin.as_slice(), place, &pairs, &end) {
        return Err(BlockFault::Order { at });
    }
    let pairs = Pairs::from_vec(pairs);
    Ok(Block { begin, pairs, end })
}

/// The begin key, and what stands behind it.
#[tactic(auto, unfolding(crate::specs::Reading::structure_of))]
fn structure(
    alloc: Global,
    bytes: &[u8],
    base: u64,
    header: u32,
) -> Result<(Blob, Items<'_>), BlockFault>
    requires { base + length bytes.now < 2 ^ 64 }
    ensures ok { IfOk result (λ x. reading.structure_of header base bytes.now
        ≡ Ok (x.0, items_from x.1)) }
    ensures err { IfErr result
        (λ fault. reading.Fails fault (reading.structure_of header base bytes.now)) }
{
    let end = base + bytes.len() as u64;
    let Some((found, rest)) = header_at(bytes) else {
        return Err(BlockFault::Short { at: base });
    };
    if found != header {
        return Err(BlockFault::Format { found });
    }
    let (begin, rest) = string_or(alloc, rest, end)?;
    let items = items_at(alloc, rest, end)?;
    Ok((begin, items))
}

/// The string in front, and the bytes behind it. The bytes end at the place `end`.
#[tactic(auto, unfolding(crate::specs::Reading::string_or))]
fn string_or(alloc: Global, bytes: &[u8], end: u64) -> Result<(Blob, &[u8]), BlockFault>
    requires { length bytes.now ≤ end }
    ensures ok { IfOk result (λ x. reading.string_or end bytes.now ≡ Ok (x.0, x.1.now)) }
    ensures err { IfErr result (λ fault. reading.Fails fault (reading.string_or end bytes.now)) }
{
    let Some((string, rest)) = string_at(bytes) else {
        let at = end - bytes.len() as u64;
        return Err(BlockFault::Short { at });
    };
    let string = Blob::from_slice(alloc, string)?;
    Ok((string, rest))
}

/// Keys and values in turn, until the block is over behind one of them.
fn items_at(alloc: Global, bytes: &[u8], end: u64) -> Result<Items<'_>, BlockFault>
    requires { length bytes.now ≤ end }
    ensures ok { IfOk result (λ items. reading.items_at (length bytes.now + 1) end bytes.now
        ≡ Ok (items_from items)) }
    ensures err { IfErr result
        (λ fault. reading.Fails fault (reading.items_at (length bytes.now + 1) end bytes.now)) }
{
    let mut pairs = Vec::new(alloc);
    let mut rest = bytes;
    loop {
        let (key, after) = string_or(alloc, rest, end)?;
        if is_over(after) {
            return Ok(Items {
                pairs,
                end: Some(key),
                rest: after,
            });
        }
        let (value, after) = string_or(alloc, after, end)?;
        pairs.push(Pair { key, value })?;
        if is_over(after) {
            return Ok(Items {
                pairs,
                end: None,
                rest: after,
            });
        }
        rest = after;
    }
}

/// The place of the first byte that isn't padding. The bytes end at the place `end`.
#[tactic(auto, unfolding(crate::specs::Reading::padding_fault))]
fn padding_fault(rest: &[u8], end: u64) -> Option<u64>
    requires { length rest.now ≤ end }
    ensures { result ≡ reading.padding_fault end rest.now }
{
    let place = unpadded_at(rest)?;
    Some(end - rest.len() as u64 + place as u64)
}

/// The place of the first key that is out of order.
fn disorder(first: bool, begin: &[u8], at: u64, pairs: &[Pair], end: &Option<Blob>) -> Option<u64>
    requires { at + length (pairs_text pairs.now ++ end_text end.now) < 2 ^ 64 }
    ensures { result ≡ reading.disorder first begin.now at pairs.now end.now }
{
    match pairs {
        [] => match end {
            Some(end) if !is_below(begin, end.as_slice()) => Some(at),
            _ => None,
        },
        [pair, others @ ..] => {
            let key = pair.key.as_slice();
            if !starts_well(first, begin, key) || !ends_well(begin, key, others, end) {
                return Some(at);
            }
            let next = at + (8 + pair.key.len() as u64 + pair.value.len() as u64);
            unrisen(key, next, others, end)
        }
    }
}

fn starts_well(first: bool, begin: &[u8], key: &[u8]) -> bool
    ensures { result ≡ reading.starts_well first begin.now key.now }
{
    if first {
        !is_below(key, begin)
    } else {
        is_same(key, begin)
    }
}

fn ends_well(begin: &[u8], key: &[u8], others: &[Pair], end: &Option<Blob>) -> bool
    ensures { result ≡ reading.ends_well begin.now key.now others.now end.now }
{
    !others.is_empty() || end.is_some() || is_below(begin, key)
}

/// The place of the first key that isn't past the one before it.
fn unrisen(key: &[u8], place: u64, pairs: &[Pair], end: &Option<Blob>) -> Option<u64>
    requires { place + length (pairs_text pairs.now ++ end_text end.now) < 2 ^ 64 }
    ensures { result ≡ reading.unrisen key.now place pairs.now end.now }
{
    let mut last = key;
    let mut at = place;
    for pair in pairs {
        if !is_below(last, pair.key.as_slice()) {
            return Some(at);
        }
        last = pair.key.as_slice();
        at += 8 + pair.key.len() as u64 + pair.value.len() as u64;
    }
    match end {
        Some(end) if !is_below(last, end.as_slice()) => Some(at),
        _ => None,
    }
}
