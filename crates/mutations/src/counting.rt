//! How many bytes batches have, counted before anything is built.

ghost use Rattle.std.specs.Prelude.{◌≡◌, ◌+◌, ◌^◌, ◌<◌, length};
ghost use Rattle.fb_bytes.specs.Keys.{AreSeparate};
ghost use Rattle.mutations.specs.Clipping.{kept_in, cut_to, clear_cut, clipped, all_clipped};
ghost use Rattle.mutations.specs.Spelling.{mutation_spelling, mutations_spelling, counted_bytes};

use crate::Mutation;
use crate::clipping::{earlier, later, met};
use fb_bytes::{Blob, KeyRange, Ranges, is_below};

/// The bytes of a mutation with these strings.
fn parts_len(first: &Blob, second: &Blob) -> u128
    ensures sum { result ≡ 12 + length first.now + length second.now }
    ensures small { result < 2 ^ 66 }
{
    12 + first.len() as u128 + second.len() as u128
}

fn mutation_len(mutation: &Mutation) -> u128
    ensures sum { result ≡ length (mutation_spelling mutation.now) }
    ensures small { result < 2 ^ 66 }
{
    let (first, second) = mutation.strings();
    parts_len(first, second)
}

/// The number of mutation bytes of a batch: all that stand after its length.
pub fn mutation_bytes(muts: &[Mutation]) -> u128
    ensures { result ≡ length (mutations_spelling muts.now) }
{
    let mut total: u128 = 0;
    for mutation in muts {
        total += mutation_len(mutation);
    }
    total
}

/// The bytes of the clear of an intersection, unless that is empty.
fn cut_len(begin: &Blob, end: &Blob, range: &KeyRange) -> u128
    ensures { result ≡ length (mutations_spelling (cut_to begin.now end.now range.now)) }
{
    let begin = later(begin, &range.begin);
    let end = earlier(end, &range.end);
    if is_below(begin.as_slice(), end.as_slice()) {
        parts_len(begin, end)
    } else {
        0
    }
}

/// The bytes of the intersections of a clear with the ranges. A count past `u128::MAX` stops there.
fn cleared_len(begin: &Blob, end: &Blob, ranges: &[KeyRange]) -> u128
    requires { AreSeparate ranges.now }
    ensures { result ≡ counted_bytes (clear_cut begin.now end.now ranges.now) }
{
    let mut total: u128 = 0;
    for range in met(begin, end, ranges) {
        total = total.saturating_add(cut_len(begin, end, range));
    }
    total
}

/// The bytes of a mutation whose key is in the ranges, or else none.
fn kept_len(mutation: &Mutation, key: &Blob, ranges: &Ranges) -> u128
    ensures { result ≡ length (mutations_spelling (kept_in ranges.now key.now mutation.now)) }
{
    if ranges.contains(key.as_slice()) {
        mutation_len(mutation)
    } else {
        0
    }
}

fn clipped_len(mutation: &Mutation, ranges: &Ranges) -> u128
    ensures { result ≡ counted_bytes (clipped ranges.now mutation.now) }
{
    match mutation {
        Mutation::Set { key, .. } | Mutation::Atomic { key, .. } => {
            kept_len(mutation, key, ranges)
        }
        Mutation::ClearRange { begin, end } => cleared_len(begin, end, ranges.as_slice()),
    }
}

/// The number of mutation bytes of a batch of what clipping leaves of these mutations. A count of
/// more than `u128::MAX` stops there.
pub fn clipped_bytes(muts: &[Mutation], ranges: &Ranges) -> u128
    ensures { result ≡ counted_bytes (all_clipped ranges.now muts.now) }
{
    let mut total: u128 = 0;
    for mutation in muts {
        total = total.saturating_add(clipped_len(mutation, ranges));
    }
    total
}
