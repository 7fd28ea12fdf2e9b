//! The files' ranges in the order of their keys, to look up which batches a key waits for.

ghost use Rattle.std.specs.List.{prefix_len};
ghost use Rattle.std.specs.Prelude.{◌≡◌, ℕ, ◌≤◌, ◌&&◌, true, not, length, None, IfOk, OnOk, nat_lt, if◌then◌else◌};
ghost use Rattle.fb_bytes.specs.Bytes as bytes;
ghost use Rattle.fb_bytes.specs.Bytes.{Bytes};
ghost use Rattle.fb_bytes.specs.Keys.{holds};
ghost use Rattle.mutations.specs.Effects as effects;
ghost use Rattle.restore_apply.specs.Overlaps.{in_order, numbered, first_overlap};
ghost use Rattle.restore_apply.specs.inner.Pieces as spec;
ghost use Rattle.restore_apply.specs.inner.Tables.{Leaves};

use crate::table::clear;
use crate::{At, LoadedFile};
use fb_bytes::{Blob, KeyRange, is_below};
use std::alloc::{AllocError, Global};
use std::collections::BTreeMap;

/// A file's range, and the version at which the file has its values.
#[derive(Debug, Drop)]
pub(crate) struct Piece {
    pub(crate) version: u64,
    pub(crate) range: KeyRange,
}

/// The pieces of files whose ranges stand in order.
pub(crate) fn pieces_of(
    alloc: Global,
    files: &[LoadedFile],
    order: Vec<At>,
) -> Result<Vec<Piece>, AllocError>
    requires order { order.items ≡ in_order (numbered 0 files.now) }
    requires apart { first_overlap files.now ≡ None }
    ensures { IfOk result (λ pieces. spec.ArePiecesOf files.now pieces.items) }
{
    let mut pieces = Vec::new(alloc);
    for at in order {
        if at.range.is_backwards() {
            continue;
        }
        let version = files[at.place].version;
        pieces.push(Piece {
            version,
            range: at.range,
        })?;
    }
    Ok(pieces)
}

/// The least version of the pieces, or the greatest number.
pub(crate) fn oldest(pieces: &[Piece]) -> u64
    ensures { result ≡ spec.oldest pieces.now }
{
    let mut oldest = u64::MAX;
    for piece in pieces {
        oldest = oldest.min(piece.version);
    }
    oldest
}

/// Whether the key is in a file that is older than the version.
pub(crate) fn is_older(pieces: &[Piece], key: &[u8], version: u64) -> bool
    requires { spec.AreLine pieces.now }
    ensures { result ≡ spec.is_older (spec.since pieces.now key.now) version }
{
    let place = passed(pieces, key);
    if place >= pieces.len() {
        return false;
    }
    let piece = &pieces[place];
    piece.range.contains(key) && piece.version < version
}

/// Takes the values of a range's keys away that are in files older than the version.
pub(crate) fn clear_older(
    table: &mut BTreeMap<Blob, Blob>,
    pieces: &[Piece],
    version: u64,
    begin: &Blob,
    end: &Blob,
) -> Result<(), AllocError>
    requires { spec.AreLine pieces.now }
    ensures { OnOk result
        (Leaves (λ key old. if spec.is_older (spec.since pieces.now key) version
        && holds (effects.range_of begin.now end.now) key then None else old) table.old table.new) }
{
    let pieces = among(pieces, begin.as_slice(), end.as_slice());
    clear_each(table, pieces, version, begin, end)
}

fn clear_each(
    table: &mut BTreeMap<Blob, Blob>,
    pieces: &[Piece],
    version: u64,
    begin: &Blob,
    end: &Blob,
) -> Result<(), AllocError>
    ensures { OnOk result
        (Leaves (spec.cleared version (effects.range_of begin.now end.now) pieces.now) table.old
        table.new) }
{
    for piece in pieces {
        clear_in(table, piece, version, begin, end)?;
    }
    Ok(())
}

fn clear_in(
    table: &mut BTreeMap<Blob, Blob>,
    piece: &Piece,
    version: u64,
    begin: &Blob,
    end: &Blob,
) -> Result<(), AllocError>
    ensures { OnOk result
        (Leaves (λ key old. if (nat_lt piece.now.version version && holds piece.now.range key)
        && holds (effects.range_of begin.now end.now) key then None else old) table.old table.new) }
{
    if piece.version >= version {
        return Ok(());
    }
    let begin = later(begin, &piece.range.begin);
    let end = earlier(end, &piece.range.end);
    clear(table, begin, end)
}

fn later<'a>(a: &'a Blob, b: &'a Blob) -> &'a Blob
    ensures { result.now ≡ effects.later a.now b.now }
{
    if is_below(a.as_slice(), b.as_slice()) {
        b
    } else {
        a
    }
}

fn earlier<'a>(a: &'a Blob, b: &'a Blob) -> &'a Blob
    ensures { result.now ≡ effects.earlier a.now b.now }
{
    if is_below(b.as_slice(), a.as_slice()) {
        b
    } else {
        a
    }
}

// The pieces that have keys of the range.
fn among<'a>(pieces: &'a [Piece], begin: &[u8], end: &[u8]) -> &'a [Piece]
    requires { spec.AreLine pieces.now }
    ensures { (version : ℕ) (key : Bytes) → holds (effects.range_of begin.now end.now) key ≡ true
        → spec.older_has version result.now key
        ≡ spec.is_older (spec.since pieces.now key) version }
{
    let rest = &pieces[passed(pieces, begin)..];
    &rest[..begun(rest, end)]
}

// How many pieces at the front the key is past.
fn passed(pieces: &[Piece], key: &[u8]) -> usize
    requires { spec.AreLine pieces.now }
    ensures count { result
        ≡ prefix_len (λ piece. not (bytes.is_below key.now piece.range.end)) pieces.now }
    ensures within { result ≤ length pieces.now }
{
    pieces.partition_point(|piece| !is_below(key, piece.range.end.as_slice()))
}

// How many pieces at the front begin below the key.
fn begun(pieces: &[Piece], key: &[u8]) -> usize
    requires { spec.AreLine pieces.now }
    ensures count { result
        ≡ prefix_len (λ piece. bytes.is_below piece.range.begin key.now) pieces.now }
    ensures within { result ≤ length pieces.now }
{
    pieces.partition_point(|piece| is_below(piece.range.begin.as_slice(), key))
}
