//! Where pieces stand, by halving.

ghost use Rattle.std.specs.List.{prefix_len};
ghost use Rattle.std.specs.Prelude.{◌≡◌, ◌≤◌, length};
ghost use Rattle.version_map.specs.Parts.{parts_of};
ghost use Rattle.version_map.specs.Pieces.{ArePieces, version_at};
ghost use Rattle.version_map.specs.inner.Pieces.{is_past, is_begun};

use crate::Piece;
use fb_bytes::{KeyRange, is_below};

/// The version of the piece that has the key.
pub(crate) fn version_in(pieces: &[Piece], key: &[u8]) -> Option<u64>
    requires { ArePieces pieces.now }
    ensures { result ≡ version_at pieces.now key.now }
{
    let place = passed(pieces, key);
    if place >= pieces.len() {
        return None;
    }
    let piece = &pieces[place];
    if piece.range.contains(key) {
        Some(piece.version)
    } else {
        None
    }
}

/// The pieces that have keys of the range.
pub(crate) fn among<'a>(pieces: &'a [Piece], range: &KeyRange) -> &'a [Piece]
    requires { ArePieces pieces.now }
    ensures { parts_of range.now result.now ≡ parts_of range.now pieces.now }
{
    let rest = &pieces[passed(pieces, range.begin.as_slice())..];
    &rest[..begun(rest, range.end.as_slice())]
}

/// How many pieces at the front the key is past.
pub(crate) fn passed(pieces: &[Piece], key: &[u8]) -> usize
    requires { ArePieces pieces.now }
    ensures count { result ≡ prefix_len (is_past key.now) pieces.now }
    ensures within { result ≤ length pieces.now }
{
    pieces.partition_point(|piece| !is_below(key, piece.range.end.as_slice()))
}

/// How many pieces at the front begin below the key.
pub(crate) fn begun(pieces: &[Piece], key: &[u8]) -> usize
    requires { ArePieces pieces.now }
    ensures count { result ≡ prefix_len (is_begun key.now) pieces.now }
    ensures within { result ≤ length pieces.now }
{
    pieces.partition_point(|piece| is_below(piece.range.begin.as_slice(), key))
}
