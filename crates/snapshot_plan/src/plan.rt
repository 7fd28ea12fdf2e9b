//! The plan of a snapshot: a job's ranges, cut into pieces of so many keys.

ghost use Rattle.std.specs.Prelude.{◌≡◌, [], ◌∷◌, ◌++◌, map, IfOk, OnOk};
ghost use Rattle.snapshot_plan.specs.Plans as spec;
ghost use Rattle.snapshot_plan.specs.Plans.{IsPlan, key_of};
ghost use Rattle.snapshot_plan.specs.inner.Splits.{until_key, from_key};

use fb_bytes::{Blob, KeyRange, Pair, Pairs, Ranges, Seq, is_below};
use std::alloc::{AllocError, Global};

/// The pieces of a job's ranges, in key order. Each range is cut before every key whose place in the
/// range is a positive multiple of `shard`; places count the keys that are there, from 0 in each range.
/// Of the pairs only the keys count, and of these only those in the ranges. A `shard` of 0 cuts nothing.
pub fn pieces(
    alloc: Global,
    ranges: &Ranges,
    keys: &Pairs,
    shard: u64,
) -> Result<Seq<KeyRange>, AllocError>
    ensures exact { IfOk result (λ pieces. pieces ≡ spec.pieces shard keys.now ranges.now) }
    ensures plan { IfOk result (λ pieces. IsPlan ranges.now pieces) }
{
    let list = ranges.as_slice();
    let mut rest = keys.as_slice();
    let mut pieces = Vec::new(alloc);
    'each: for range in list {
        let (_, from) = split_below(rest, range.begin.as_slice());
        let (own, behind) = split_below(from, range.end.as_slice());
        push_pieces(&mut pieces, range, own, shard)?;
        rest = behind;
    }
    Ok(Seq::from_vec(pieces))
}

// The pairs at the front that are below the key, and the others.
fn split_below<'a>(pairs: &'a [Pair], key: &[u8]) -> (&'a [Pair], &'a [Pair])
    ensures front { result.0.now ≡ until_key key.now pairs.now }
    ensures rest { result.1.now ≡ from_key key.now pairs.now }
{
    'each: for (place, pair) in pairs.iter().enumerate() {
        if !is_below(pair.key.as_slice(), key) {
            return pairs.split_at(place);
        }
    }
    pairs.split_at(pairs.len())
}

/// Adds the pieces of a range whose keys are those of the pairs.
fn push_pieces(
    pieces: &mut Vec<KeyRange>,
    range: &KeyRange,
    own: &[Pair],
    shard: u64,
) -> Result<(), AllocError>
    ensures { OnOk result (pieces.new.items ≡ pieces.old.items
        ++ spec.cut_before (spec.cuts shard 0 (map key_of own.now)) range.now) }
{
    let mut begin = &range.begin;
    'each: for (place, pair) in own.iter().enumerate() {
        if is_cut(place, shard) {
            push_piece(pieces, begin, &pair.key)?;
            begin = &pair.key;
        }
    }
    push_piece(pieces, begin, &range.end)
}

// Whether the range is cut before the key at the place.
fn is_cut(place: usize, shard: u64) -> bool
    ensures { result ≡ spec.is_cut shard place }
{
    place > 0 && shard > 0 && place as u64 % shard == 0
}

fn push_piece(pieces: &mut Vec<KeyRange>, begin: &Blob, end: &Blob) -> Result<(), AllocError>
    ensures { OnOk result (pieces.new.items ≡ pieces.old.items
        ++ record { begin = begin.now; end = end.now } ∷ []) }
{
    let begin = begin.copy()?;
    let end = end.copy()?;
    pieces.push(KeyRange { begin, end })?;
    Ok(())
}
