ghost use Rattle.std.specs.Prelude.{◌≡◌, ◌++◌, OnOk};
ghost use Rattle.version_map.specs.Pieces.{piece_of};

use fb_bytes::{Blob, KeyRange, is_below};
use std::alloc::AllocError;

/// Keys that have one version, since one set gave it to them.
#[derive(Debug, Drop)]
pub struct Piece {
    pub range: KeyRange,
    pub version: u64,
}

/// Adds a piece at the end, unless it is empty.
pub fn push_piece(
    pieces: &mut Vec<Piece>,
    begin: &Blob,
    end: &Blob,
    version: u64,
) -> Result<(), AllocError>
    ensures { OnOk result (pieces.new.items ≡ pieces.old.items
        ++ piece_of (record { begin = begin.now; end = end.now }) version) }
{
    if is_below(begin.as_slice(), end.as_slice()) {
        let range = KeyRange {
            begin: begin.copy()?,
            end: end.copy()?,
        };
        pieces.push(Piece { range, version })?;
    }
    Ok(())
}
