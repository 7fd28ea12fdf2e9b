//! What a reader has joined so far.

ghost use Rattle.std.specs.Prelude.{◌+◌, ◌^◌, ◌<◌};

use crate::joined::Joined;
use fb_bytes::Seq;
use mutations::Batch;

/// The batch that is being joined.
#[derive(Debug, Drop)]
pub struct Joining<'a> {
    /// The place of its first record.
    pub at: u64,
    pub version: u64,
    /// The number of its next part.
    pub next: u64,
    pub joined: Joined<'a>,
    ghost small: { version + 1 < 2 ^ 64 },
}

/// The batches so far.
#[derive(Debug, Drop)]
pub struct Batched<'a> {
    pub batches: Seq<Batch>,
    /// The least version that may follow.
    pub low: u64,
    pub joining: Option<Joining<'a>>,
}
