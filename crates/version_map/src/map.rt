ghost use Rattle.std.specs.Prelude.{◌≡◌, ◌≤◌, ◌+◌, ◌++◌, ◌∷◌, false, List, [], length, take, drop, flat_map, IfOk, OnOk, OnErr};
ghost use Rattle.std.specs.List.{prefix_len};
ghost use Rattle.fb_bytes.specs.Keys.{is_backwards};
ghost use Rattle.version_map.specs.Pieces.{Piece, version_at, with_set, front_of, back_of, ArePieces};
ghost use Rattle.version_map.specs.inner.Pieces.{is_past, is_begun};
ghost use Rattle.version_map.specs.Parts.{parts_of};
ghost use Rattle.version_map.specs.Laws.{ArePartsOf};

use crate::keys::{earlier, later};
use crate::piece::push_piece;
use crate::places::{among, begun, passed, version_in};
use crate::versioned::push_part;
use crate::{Piece, Versioned};
use fb_bytes::{Blob, KeyRange, is_below};
use std::alloc::{AllocError, Global};
use std::marker::Model;

/// The last version that was set on each range of keys. A set cuts the pieces that it overlaps, and
/// pieces are never joined, so that each of them shows the set that it came from.
#[derive(Debug, Drop)]
pub struct VersionMap {
    pieces: Vec<Piece>,
}

impl Model for VersionMap {
    ghost use Rattle.std.specs.Prelude.{List};
    ghost use Rattle.version_map.specs.declared.piece.Piece.{Piece};

    ghost Value = { List Piece };

    ghost use Rattle.version_map.specs.Pieces.{ArePieces};

    ghost view = { λ m. m.pieces.items };

    ghost invariant = { λ m. ArePieces m.pieces.items };
}

impl VersionMap {
    /// No key has a version. It takes no memory.
    pub fn new(alloc: Global) -> Self
        ensures { result ≡ [] }
    {
        VersionMap {
            pieces: Vec::new(alloc),
        }
    }

    /// Gives the version to each key of the range.
    pub fn set(&mut self, range: &KeyRange, version: u64) -> Result<(), AllocError>
        ensures ok { OnOk result (self.new ≡ with_set range.now version self.old) }
        ensures err { OnErr result (self.new ≡ self.old) }
    {
        if range.is_backwards() {
            return Ok(());
        }
        set_on(&mut self.pieces, range, version)
    }

    /// The version of the last set whose range has the key. It takes no memory.
    pub fn at(&self, key: &[u8]) -> Option<u64>
        ensures { result ≡ version_at self.now key.now }
    {
        version_in(&self.pieces, key)
    }

    /// The pieces, in the order of their keys.
    pub fn as_slice(&self) -> &[Piece]
        ensures same { result.now ≡ self.now }
        ensures pieces { ArePieces self.now }
    {
        &self.pieces
    }

    /// The parts of a range: of each piece what it has of the range, with its version, and what lies
    /// between without one.
    pub fn pieces(&self, range: &KeyRange) -> Result<Versioned, AllocError>
        ensures exact { IfOk result (λ parts. parts ≡ parts_of range.now self.now) }
        ensures told { IfOk result (λ parts. ArePartsOf range.now self.now parts) }
    {
        let mut parts = Vec::new(*self.pieces.allocator());
        let mut begin = &range.begin;
        for piece in among(&self.pieces, range) {
            let from = later(begin, &piece.range.begin);
            let to = earlier(&range.end, &piece.range.end);
            if is_below(from.as_slice(), to.as_slice()) {
                push_part(&mut parts, begin, from, None)?;
                push_part(&mut parts, from, to, Some(piece.version))?;
                begin = to;
            }
        }
        push_part(&mut parts, begin, &range.end, None)?;
        Ok(Versioned::from_vec(parts))
    }
}

/// Puts the range with its version in place of what stands there, and changes no other piece.
fn set_on(pieces: &mut Vec<Piece>, range: &KeyRange, version: u64) -> Result<(), AllocError>
    requires pieces { ArePieces pieces.old.items }
    requires forward { is_backwards range.now ≡ false }
    ensures ok { OnOk result
        (pieces.new.items ≡ flat_map (front_of range.now.begin) pieces.old.items
        ++ record { range = range.now; version = version }
        ∷ flat_map (back_of range.now.end) pieces.old.items) }
    ensures err { OnErr result (pieces.new.items ≡ pieces.old.items) }
    ensures pieces { ArePieces pieces.new.items }
{
    let first = passed(pieces, range.begin.as_slice());
    let last = begun(pieces, range.end.as_slice());
    let count = run_len(pieces, range, first, last);
    let alloc = *pieces.allocator();
    let run = &pieces[first..];
    let cut = cut_by(alloc, &run[..count], range, version)?;
    insert_all(pieces, last, cut)?;
    take_out(pieces, first, count);
    Ok(())
}

/// How many pieces stand from the first that doesn't end before the range to the last that begins
/// before its end.
fn run_len(pieces: &[Piece], range: &KeyRange, first: usize, last: usize) -> usize
    requires pieces { ArePieces pieces.now }
    requires forward { is_backwards range.now ≡ false }
    requires first { first ≡ prefix_len (is_past range.now.begin) pieces.now }
    requires last { last ≡ prefix_len (is_begun range.now.end) pieces.now }
    ensures { result + first ≡ last }
{
    last - first
}

/// Puts pieces in at a place. Without memory nothing changes.
fn insert_all(pieces: &mut Vec<Piece>, place: usize, more: Vec<Piece>) -> Result<(), AllocError>
    requires { place ≤ length pieces.old.items }
    ensures ok { OnOk result (pieces.new.items ≡ take place pieces.old.items ++ more.items
        ++ drop place pieces.old.items) }
    ensures err { OnErr result (pieces.new.items ≡ pieces.old.items) }
{
    let mut more = more;
    let count = more.len();
    pieces.append(&mut more)?;
    pieces[place..].rotate_right(count);
    Ok(())
}

/// Takes so many pieces out from a place on.
fn take_out(pieces: &mut Vec<Piece>, first: usize, count: usize)
    requires { first + count ≤ length pieces.old.items }
    ensures { pieces.new.items ≡ take first pieces.old.items
        ++ drop (first + count) pieces.old.items }
{
    let rest = pieces.len() - count;
    pieces[first..].rotate_left(count);
    pieces.truncate(rest);
}

/// The range with its version, between what is left of the pieces before it and behind it.
fn cut_by(
    alloc: Global,
    pieces: &[Piece],
    range: &KeyRange,
    version: u64,
) -> Result<Vec<Piece>, AllocError>
    requires { is_backwards range.now ≡ false }
    ensures { IfOk result (λ cut. cut.items ≡ flat_map (front_of range.now.begin) pieces.now
        ++ record { range = range.now; version = version } ∷ flat_map
        (back_of range.now.end) pieces.now) }
{
    let mut cut = fronts(alloc, pieces, &range.begin)?;
    push_piece(&mut cut, &range.begin, &range.end, version)?;
    push_backs(&mut cut, pieces, &range.end)?;
    Ok(cut)
}

/// What is left of the pieces before a key.
fn fronts(alloc: Global, pieces: &[Piece], key: &Blob) -> Result<Vec<Piece>, AllocError>
    ensures { IfOk result (λ fronts. fronts.items ≡ flat_map (front_of key.now) pieces.now) }
{
    let mut fronts = Vec::new(alloc);
    for piece in pieces {
        let end = earlier(key, &piece.range.end);
        push_piece(&mut fronts, &piece.range.begin, end, piece.version)?;
    }
    Ok(fronts)
}

/// Adds what is left of the pieces from a key on.
fn push_backs(list: &mut Vec<Piece>, pieces: &[Piece], key: &Blob) -> Result<(), AllocError>
    ensures { OnOk result (list.new.items ≡ list.old.items
        ++ flat_map (back_of key.now) pieces.now) }
{
    for piece in pieces {
        let begin = later(key, &piece.range.begin);
        push_piece(list, begin, &piece.range.end, piece.version)?;
    }
    Ok(())
}
