ghost use Rattle.std.specs.Prelude.{◌≡◌, IfOk};
ghost use Rattle.task_kinds.specs.Params.{shape_in};

use crate::Shape;
use fb_bytes::KeyRange;
use std::alloc::AllocError;

/// What a task is to do it on.
#[derive(Debug, Drop)]
pub enum Params {
    Nothing,
    /// A piece that the dispatch at version `snapshot` planned, and the block of the future that
    /// waits for it.
    Piece {
        snapshot: u64,
        range: KeyRange,
        future: u64,
        block: u64,
    },
    Snapshot {
        snapshot: u64,
    },
    /// The versions from `begin` on and before `end`.
    Span {
        begin: u64,
        end: u64,
        future: u64,
        block: u64,
    },
    /// The file at that place of the restore's ranges or links.
    File {
        place: u64,
        future: u64,
        block: u64,
    },
    Range {
        range: KeyRange,
        future: u64,
        block: u64,
    },
}

impl Params {
    /// Which parameters they are.
    pub fn shape(&self) -> Shape
        ensures { result ≡ shape_in self.now }
    {
        match self {
            Params::Nothing => Shape::Nothing,
            Params::Piece { .. } => Shape::Piece,
            Params::Snapshot { .. } => Shape::Snapshot,
            Params::Span { .. } => Shape::Span,
            Params::File { .. } => Shape::File,
            Params::Range { .. } => Shape::Range,
        }
    }

    /// Equal parameters with memory of their own.
    pub fn copy(&self) -> Result<Self, AllocError>
        ensures { IfOk result (λ params. params ≡ self.now) }
    {
        match self {
            Params::Nothing => Ok(Params::Nothing),
            Params::Piece {
                snapshot,
                range,
                future,
                block,
            } => Ok(Params::Piece {
                snapshot: *snapshot,
                range: range.copy()?,
                future: *future,
                block: *block,
            }),
            Params::Snapshot { snapshot } => Ok(Params::Snapshot {
                snapshot: *snapshot,
            }),
            Params::Span {
                begin,
                end,
                future,
                block,
            } => Ok(Params::Span {
                begin: *begin,
                end: *end,
                future: *future,
                block: *block,
            }),
            Params::File {
                place,
                future,
                block,
            } => Ok(Params::File {
                place: *place,
                future: *future,
                block: *block,
            }),
            Params::Range {
                range,
                future,
                block,
            } => Ok(Params::Range {
                range: range.copy()?,
                future: *future,
                block: *block,
            }),
        }
    }
}
