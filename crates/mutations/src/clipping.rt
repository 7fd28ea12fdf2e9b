ghost use Rattle.std.specs.Prelude.{◌≡◌, ◌≤◌, length, IfOk};
ghost use Rattle.std.specs.List.{prefix_len};
ghost use Rattle.fb_bytes.specs.Keys.{AreSeparate};
ghost use Rattle.fb_bytes.specs.inner.Keys.{is_passed};
ghost use Rattle.mutations.specs.Effects as effects;
ghost use Rattle.mutations.specs.Clipping.{clear_cut, clipped};
ghost use Rattle.mutations.specs.inner.Clipping.{begins_before};

use crate::Mutation;
use fb_bytes::{Blob, KeyRange, Ranges, Seq, is_below};
use std::alloc::{AllocError, Global};

pub fn later<'a>(a: &'a Blob, b: &'a Blob) -> &'a Blob
    ensures { result.now ≡ effects.later a.now b.now }
{
    if is_below(a.as_slice(), b.as_slice()) {
        b
    } else {
        a
    }
}

pub fn earlier<'a>(a: &'a Blob, b: &'a Blob) -> &'a Blob
    ensures { result.now ≡ effects.earlier a.now b.now }
{
    if is_below(b.as_slice(), a.as_slice()) {
        b
    } else {
        a
    }
}

/// Whether a mutation names a key of the range, be the value changed or not. It takes no memory.
pub fn touches(mutation: &Mutation, range: &KeyRange) -> bool
    ensures { result ≡ effects.touches mutation.now range.now }
{
    match mutation {
        Mutation::Set { key, .. } | Mutation::Atomic { key, .. } => range.contains(key.as_slice()),
        Mutation::ClearRange { begin, end } => {
            let first = later(begin, &range.begin);
            let end = earlier(end, &range.end);
            is_below(first.as_slice(), end.as_slice())
        }
    }
}

/// The intersections of a clear with the ranges, but the empty ones.
fn clip_clear(
    alloc: Global,
    begin: &Blob,
    end: &Blob,
    ranges: &[KeyRange],
) -> Result<Seq<Mutation>, AllocError>
    requires { AreSeparate ranges.now }
    ensures { IfOk result (λ muts. muts ≡ clear_cut begin.now end.now ranges.now) }
{
    let mut muts = Seq::new(alloc);
    for range in met(begin, end, ranges) {
        let begin = later(begin, &range.begin);
        let end = earlier(end, &range.end);
        if is_below(begin.as_slice(), end.as_slice()) {
            muts.push(Mutation::ClearRange {
                begin: begin.copy()?,
                end: end.copy()?,
            })?;
        }
    }
    Ok(muts)
}

/// The ranges that a clear may meet, found by halving. It leaves the keys of the others alone.
pub fn met<'a>(begin: &Blob, end: &Blob, ranges: &'a [KeyRange]) -> &'a [KeyRange]
    requires { AreSeparate ranges.now }
    ensures { clear_cut begin.now end.now result.now ≡ clear_cut begin.now end.now ranges.now }
{
    let passed = passed_by(begin.as_slice(), ranges);
    let rest = &ranges[passed..];
    let begun = begun_before(end.as_slice(), rest);
    &rest[..begun]
}

// How many ranges at the front the key is past.
fn passed_by(key: &[u8], ranges: &[KeyRange]) -> usize
    requires { AreSeparate ranges.now }
    ensures count { result ≡ prefix_len (is_passed key.now) ranges.now }
    ensures within { result ≤ length ranges.now }
{
    ranges.partition_point(|range| !is_below(key, range.end.as_slice()))
}

// How many ranges at the front begin before the key.
fn begun_before(key: &[u8], ranges: &[KeyRange]) -> usize
    requires { AreSeparate ranges.now }
    ensures count { result ≡ prefix_len (begins_before key.now) ranges.now }
    ensures within { result ≤ length ranges.now }
{
    ranges.partition_point(|range| is_below(range.begin.as_slice(), key))
}

/// What is left of a mutation in the ranges.
pub fn clip(
    alloc: Global,
    mutation: &Mutation,
    ranges: &Ranges,
) -> Result<Seq<Mutation>, AllocError>
    ensures { IfOk result (λ muts. muts ≡ clipped ranges.now mutation.now) }
{
    match mutation {
        Mutation::Set { key, .. } | Mutation::Atomic { key, .. } => {
            let mut muts = Seq::new(alloc);
            if ranges.contains(key.as_slice()) {
                muts.push(mutation.copy()?)?;
            }
            Ok(muts)
        }
        Mutation::ClearRange { begin, end } => clip_clear(alloc, begin, end, ranges.as_slice()),
    }
}
