//! The least key of a range that pieces leave out, or hold.

ghost use Rattle.std.specs.Prelude.{◌≡◌, ◌≤◌, false, Some, None, not, length, drop, option_map, IfOk, IfErr};
ghost use Rattle.std.specs.List.{prefix_len};
ghost use Rattle.fb_bytes.specs.Bytes.{is_below};
ghost use Rattle.fb_bytes.specs.Keys.{holds, is_backwards, AreSeparate};
ghost use Rattle.fb_bytes.specs.inner.Keys.{is_passed};
ghost use Rattle.snapshot_plan.specs.Pieces as spec;
ghost use Rattle.snapshot_plan.specs.Pieces.{ArePieces};
ghost use Rattle.snapshot_plan.specs.Noted.{pieces_of};
ghost use Rattle.snapshot_plan.specs.inner.Walks.{Reaches};
ghost use Rattle.std.specs.Prelude.{if◌then◌else◌};

use crate::file_map::Noted;
use fb_bytes::{KeyRange, is_below};

/// The least key of the range that none of the ranges holds.
pub(crate) fn outside<'a>(ranges: &'a [KeyRange], range: &'a KeyRange) -> Option<&'a [u8]>
    requires { AreSeparate ranges.now }
    ensures { option_map (λ key. key.now) result ≡ spec.outside ranges.now range.now }
{
    let key = jumped(ranges, range.begin.as_slice());
    if_below(key, range.end.as_slice())
}

// The end of the range that holds the key, or the key itself where none does.
fn jumped<'a>(ranges: &'a [KeyRange], key: &'a [u8]) -> &'a [u8]
    requires { AreSeparate ranges.now }
    ensures { result.now ≡ spec.covered_from ranges.now key.now }
{
    let place = ranges_passed(ranges, key);
    if place < ranges.len() {
        past(&ranges[place], key)
    } else {
        key
    }
}

// How many ranges at the front the key is past.
fn ranges_passed(ranges: &[KeyRange], key: &[u8]) -> usize
    requires { AreSeparate ranges.now }
    ensures { result ≡ prefix_len (is_passed key.now) ranges.now }
{
    ranges.partition_point(|range| !is_below(key, range.end.as_slice()))
}

/// The end of the piece where it holds the key, else the key.
fn past<'a>(piece: &'a KeyRange, key: &'a [u8]) -> &'a [u8]
    ensures { result.now ≡ (if holds piece.now key.now then piece.now.end else key.now) }
{
    if piece.contains(key) {
        piece.end.as_slice()
    } else {
        key
    }
}

fn if_below<'a>(key: &'a [u8], end: &[u8]) -> Option<&'a [u8]>
    ensures { option_map (λ key. key.now) result ≡ spec.if_below key.now end.now }
{
    if is_below(key, end) { Some(key) } else { None }
}

/// The least key of the range that some noted piece holds.
pub(crate) fn overlap<'a>(noted: &'a [Noted], range: &'a KeyRange) -> Option<&'a [u8]>
    requires { ArePieces (pieces_of noted.now) }
    ensures { option_map (λ key. key.now) result ≡ spec.overlap (pieces_of noted.now) range.now }
{
    let begin = range.begin.as_slice();
    let place = pieces_passed(noted, begin);
    if place < noted.len() {
        let key = later(noted[place].piece.begin.as_slice(), begin);
        if_below(key, range.end.as_slice())
    } else {
        None
    }
}

// How many noted pieces at the front the key is past.
fn pieces_passed(noted: &[Noted], key: &[u8]) -> usize
    requires { ArePieces (pieces_of noted.now) }
    ensures { result ≡ prefix_len (λ one. is_passed key.now one.piece) noted.now }
{
    noted.partition_point(|one| !is_below(key, one.piece.end.as_slice()))
}

fn later<'a>(a: &'a [u8], b: &'a [u8]) -> &'a [u8]
    ensures { result.now ≡ spec.later a.now b.now }
{
    if is_below(a, b) { b } else { a }
}

/// The least key of the ranges that no noted piece holds, by one walk along the ranges and the pieces.
pub(crate) fn gap_in<'a>(ranges: &'a [KeyRange], noted: &'a [Noted]) -> Option<&'a [u8]>
    requires ranges { AreSeparate ranges.now }
    requires pieces { ArePieces (pieces_of noted.now) }
    ensures { option_map (λ key. key.now) result ≡ spec.gap_in ranges.now (pieces_of noted.now) }
{
    let mut place = 0;
    'each: for range in ranges {
        match reach(noted, place, range) {
            Ok(next) => place = next,
            Err(key) => return Some(key),
        }
    }
    None
}

// The place of the first piece, from a place on, that reaches to the end of the range, or the least
// key of the range that no piece from the place on holds.
fn reach<'a>(noted: &'a [Noted], from: usize, range: &'a KeyRange) -> Result<usize, &'a [u8]>
    requires from { from ≤ length noted.now }
    requires range { is_backwards range.now ≡ false }
    requires pieces { ArePieces (pieces_of (drop from noted.now)) }
    ensures gap { IfErr result (λ key. spec.outside (pieces_of (drop from noted.now)) range.now
        ≡ Some key.now) }
    ensures reaches { IfOk result (λ place. Reaches noted.now range.now from place) }
{
    let mut key = range.begin.as_slice();
    'walk: for place in from..noted.len() {
        let piece = &noted[place].piece;
        if is_below(key, piece.begin.as_slice()) {
            return Err(key);
        }
        if !is_below(piece.end.as_slice(), range.end.as_slice()) {
            return Ok(place);
        }
        key = past(piece, key);
    }
    Err(key)
}
