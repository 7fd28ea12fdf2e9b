ghost use Rattle.fb_bytes.specs.Pairs.{AreRising};
ghost use Rattle.std.specs.Prelude.{IfOk};

use super::*;
use fb_bytes::{Blob, KeyRange, Pair, Pairs, Ranges, is_below, is_same};
use std::alloc::{AllocError, Global};
use std::test::Fail;

fn crosses<T: Send + Sync>() {}

/// Threads may hand these on and share them.
#[test]
fn types_cross_threads() {
    crosses::<FileMap>();
    crosses::<JobSettings>();
    crosses::<MapFault>();
    crosses::<Noted>();
}

/// A range by its two keys.
type Span<'a> = (&'a [u8], &'a [u8]);

/// The ranges of a job, the keys that are there, the keys per piece, and the pieces.
const PLANS: &[(&[Span], &[&[u8]], u64, &[Span])] = &[
    // No key, one key, and more keys per piece than there are.
    (&[(b"a", b"z")], &[], 1, &[(b"a", b"z")]),
    (&[(b"a", b"z")], &[b"c"], 1, &[(b"a", b"z")]),
    (&[(b"a", b"z")], &[b"c", b"d"], 1_000_000, &[(b"a", b"z")]),
    // One key per piece: the first piece begins where the range does, also before its first key.
    (
        &[(b"a", b"z")],
        &[b"c", b"e", b"g"],
        1,
        &[(b"a", b"e"), (b"e", b"g"), (b"g", b"z")],
    ),
    // A key at the begin of a range has place 0 there.
    (
        &[(b"a", b"z")],
        &[b"a", b"c", b"e"],
        1,
        &[(b"a", b"c"), (b"c", b"e"), (b"e", b"z")],
    ),
    // Seven keys by threes.
    (
        &[(b"", b"\xff")],
        &[b"", b"1", b"2", b"3", b"4", b"5", b"6"],
        3,
        &[(b"", b"3"), (b"3", b"6"), (b"6", b"\xff")],
    ),
    // Places count from 0 in each range. Keys outside the ranges, as one at an end, don't count.
    (
        &[(b"b", b"f"), (b"m", b"q")],
        &[
            b"a", b"b", b"c", b"d", b"e", b"f", b"g", b"n", b"o", b"p", b"q",
        ],
        2,
        &[(b"b", b"d"), (b"d", b"f"), (b"m", b"p"), (b"p", b"q")],
    ),
    // Ranges without keys stay whole.
    (
        &[(b"a", b"b"), (b"c", b"e"), (b"g", b"h")],
        &[b"c", b"d", b"e"],
        1,
        &[(b"a", b"b"), (b"c", b"d"), (b"d", b"e"), (b"g", b"h")],
    ),
];

#[test]
fn ranges_are_cut_before_each_key_of_a_multiple(rt: HostRuntime) -> Result<(), Fail> {
    assert_eq!(rt; good(rt.alloc())?, PLANS.len());
    Ok(())
}

/// How many plans at the front come out.
fn good(alloc: Global) -> Result<usize, AllocError> {
    for (place, (ranges, keys, shard, want)) in PLANS.iter().enumerate() {
        if !is_planned(alloc, *ranges, *keys, *shard, *want)? {
            return Ok(place);
        }
    }
    Ok(PLANS.len())
}

/// Whether these are the pieces.
fn is_planned(
    alloc: Global,
    ranges: &[Span],
    keys: &[&[u8]],
    shard: u64,
    want: &[Span],
) -> Result<bool, AllocError> {
    let list = ranges_of(alloc, ranges)?;
    let Ok(ranges) = Ranges::build(alloc, &list) else {
        return Ok(false);
    };
    let pairs = Pairs::from_vec(pairs_of(alloc, keys)?);
    let found = pieces(alloc, &ranges, &pairs, shard)?;
    Ok(pairs.len() == keys.len() && are_same(found.as_slice(), want))
}

fn are_same(found: &[KeyRange], want: &[Span]) -> bool {
    found.len() == want.len()
        && found.iter().zip(want).all(|(piece, (begin, end))| {
            is_same(piece.begin.as_slice(), *begin) && is_same(piece.end.as_slice(), *end)
        })
}

fn ranges_of(alloc: Global, spans: &[Span]) -> Result<Vec<KeyRange>, AllocError> {
    let mut ranges = Vec::new(alloc);
    for (begin, end) in spans {
        let begin = Blob::from_slice(alloc, *begin)?;
        let end = Blob::from_slice(alloc, *end)?;
        ranges.push(KeyRange { begin, end })?;
    }
    Ok(ranges)
}

/// Pairs with these keys, as long as they rise.
fn pairs_of(alloc: Global, keys: &[&[u8]]) -> Result<Vec<Pair>, AllocError>
    ensures { IfOk result (λ pairs. AreRising pairs.items) }
{
    let mut pairs = Vec::new(alloc);
    'each: for key in keys.iter().rev() {
        pairs = with_key(alloc, pairs, *key)?;
    }
    Ok(pairs)
}

/// Puts a key before the others, where it is below them.
fn with_key(alloc: Global, pairs: Vec<Pair>, key: &[u8]) -> Result<Vec<Pair>, AllocError>
    requires { AreRising pairs.items }
    ensures { IfOk result (λ pairs. AreRising pairs.items) }
{
    if let Some(next) = pairs.first() {
        if !is_below(key, next.key.as_slice()) {
            return Ok(pairs);
        }
    }
    let key = Blob::from_slice(alloc, key)?;
    let value = Blob::new(alloc);
    let mut pairs = pairs;
    pairs.insert(0, Pair { key, value })?;
    Ok(pairs)
}
