//! Ranges that overlap or touch are joined.

ghost use Rattle.std.specs.Prelude.{◌≡◌, false, IfOk, if◌then◌else◌};
ghost use Rattle.fb_bytes.specs.Bytes as bytes;
ghost use Rattle.fb_bytes.specs.Joining.{hull, Joins};
ghost use Rattle.fb_bytes.specs.Keys.{AreSeparate, is_backwards};

use crate::{Blob, KeyRange, is_below};
use std::alloc::{AllocError, Global};

/// The ranges with one more, which is joined with those that it overlaps or touches.
pub fn add_range(
    alloc: Global,
    ranges: Vec<KeyRange>,
    range: KeyRange,
) -> Result<Vec<KeyRange>, AllocError>
    requires separate { AreSeparate ranges.items }
    requires forward { is_backwards range ≡ false }
    ensures { IfOk result (λ joined. Joins range ranges.items joined.items) }
{
    let mut joined = Vec::with_capacity(alloc, ranges.len())?;
    let mut new = range;
    for next in ranges {
        if is_below(next.end.as_slice(), new.begin.as_slice()) {
            joined.push(next)?;
        } else if is_below(new.end.as_slice(), next.begin.as_slice()) {
            joined.push(new)?;
            new = next;
        } else {
            new = hull_of(new, next);
        }
    }
    joined.push(new)?;
    Ok(joined)
}

// The keys from the lower begin to the greater end.
fn hull_of(a: KeyRange, b: KeyRange) -> KeyRange
    ensures { result ≡ hull a b }
{
    KeyRange {
        begin: lower(a.begin, b.begin),
        end: greater(a.end, b.end),
    }
}

fn lower(a: Blob, b: Blob) -> Blob
    ensures { result ≡ (if bytes.is_below b a then b else a) }
{
    if is_below(b.as_slice(), a.as_slice()) {
        b
    } else {
        a
    }
}

fn greater(a: Blob, b: Blob) -> Blob
    ensures { result ≡ (if bytes.is_below a b then b else a) }
{
    if is_below(a.as_slice(), b.as_slice()) {
        b
    } else {
        a
    }
}
