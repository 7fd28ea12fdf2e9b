ghost use Rattle.std.specs.Prelude.{◌≡◌, IfOk};

use manifests::Manifest;
use mutations::LogChunk;
use range_files::Chunk;
use std::alloc::AllocError;

/// What the take of a backup's task keeps, until its file is made and placed.
#[derive(Debug, Drop)]
pub enum FilePart {
    /// The pairs of a piece that the dispatch at version `snapshot` planned.
    Range { snapshot: u64, chunk: Chunk },
    Log { chunk: LogChunk },
    Manifest { manifest: Manifest },
}

impl FilePart {
    /// An equal part with memory of its own.
    pub fn copy(&self) -> Result<Self, AllocError>
        ensures { IfOk result (λ part. part ≡ self.now) }
    {
        match self {
            FilePart::Range { snapshot, chunk } => Ok(FilePart::Range {
                snapshot: *snapshot,
                chunk: chunk.copy()?,
            }),
            FilePart::Log { chunk } => Ok(FilePart::Log {
                chunk: chunk.copy()?,
            }),
            FilePart::Manifest { manifest } => Ok(FilePart::Manifest {
                manifest: manifest.copy()?,
            }),
        }
    }
}
