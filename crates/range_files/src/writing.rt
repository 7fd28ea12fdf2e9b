//! Writing a range file.

ghost use Rattle.std.specs.Prelude.{◌≡◌, ◌+◌, ◌<◌, ◌≤◌, ◌^◌, ◌++◌, length, IfOk, OnOk};
ghost use Rattle.block_frame.specs.Text as text;
ghost use Rattle.range_files.specs.Grammar.{RangeFile, pair_text};
ghost use Rattle.range_files.specs.Writing.{IsWritable, range_text, repeat_of};

use crate::file::FORMAT;
use block_frame::{FrameWriter, push_string};
use fb_bytes::{Blob, Pair, Pairs};
use std::alloc::{AllocError, Global};

/// The pairs of a range of keys at one version.
#[derive(Debug, Drop)]
pub struct Chunk {
    pub begin: Blob,
    pub end: Blob,
    pub version: u64,
    pub pairs: Pairs,
}

impl Chunk {
    /// An equal chunk with memory of its own.
    pub fn copy(&self) -> Result<Self, AllocError>
        ensures { IfOk result (λ chunk. chunk ≡ self.now) }
    {
        let begin = self.begin.copy()?;
        let end = self.end.copy()?;
        let pairs = self.pairs.copy()?;
        Ok(Chunk {
            begin,
            end,
            version: self.version,
            pairs,
        })
    }
}

/// The range file of a chunk, in blocks of `BLOCK` bytes. The version isn't written.
pub fn write_range<const BLOCK: u32>(alloc: Global, chunk: &Chunk) -> Result<Blob, AllocError>
    requires { IsWritable BLOCK chunk.now.begin chunk.now.end chunk.now.pairs }
    ensures text { IfOk result
        (λ text. text ≡ range_text BLOCK chunk.now.begin chunk.now.end chunk.now.pairs) }
    // It is in the grammar, so it is read back.
    ensures grammar { IfOk result
        (λ text. RangeFile BLOCK text chunk.now.begin chunk.now.end chunk.now.pairs) }
{
    block_frame::blocks_have_room();
    let begin = string_text(alloc, chunk.begin.as_slice())?;
    let end = string_text(alloc, chunk.end.as_slice())?;
    let pairs = chunk.pairs.as_slice();
    let mut frames = FrameWriter::<BLOCK, FORMAT>::new(alloc);
    frames.item(&begin, &[])?;
    // Both are filled anew for each pair, in the memory that they have.
    let mut text = Vec::new(alloc);
    let mut repeat = Vec::new(alloc);
    for pair in pairs {
        set_pair(&mut text, pair)?;
        frames.item(&text, &repeat)?;
        set_repeat(&mut repeat, pair)?;
    }
    frames.item(&end, &repeat)?;
    Ok(frames.finish())
}

/// The same for a block that is a value.
pub fn write_range_at(alloc: Global, block: u32, chunk: &Chunk) -> Result<Blob, AllocError>
    requires { IsWritable block chunk.now.begin chunk.now.end chunk.now.pairs }
    ensures text { IfOk result
        (λ text. text ≡ range_text block chunk.now.begin chunk.now.end chunk.now.pairs) }
    ensures grammar { IfOk result
        (λ text. RangeFile block text chunk.now.begin chunk.now.end chunk.now.pairs) }
{
    block_frame::at_block!(block, write_range(alloc, chunk), unreachable!())
}

fn string_text(alloc: Global, string: &[u8]) -> Result<Vec<u8>, AllocError>
    requires { length string.now < 2 ^ 32 }
    ensures { IfOk result (λ bytes. bytes.items ≡ text.string string.now) }
{
    let mut bytes = Vec::with_capacity(alloc, string.len() + 4)?;
    push_string(&mut bytes, string)?;
    Ok(bytes)
}

// The bytes of a pair, in the place of what stands there.
fn set_pair(bytes: &mut Vec<u8>, pair: &Pair) -> Result<(), AllocError>
    requires key { length pair.now.key < 2 ^ 32 }
    requires value { length pair.now.value < 2 ^ 32 }
    ensures { OnOk result (bytes.new.items ≡ pair_text pair.now) }
{
    bytes.clear();
    push_string(bytes, pair.key.as_slice())?;
    push_string(bytes, pair.value.as_slice())
}

// What a block begins with that goes on from this pair, in the place of what stands there.
fn set_repeat(bytes: &mut Vec<u8>, pair: &Pair) -> Result<(), AllocError>
    requires key { length pair.now.key < 2 ^ 32 }
    requires value { length pair.now.value < 2 ^ 32 }
    ensures { OnOk result (bytes.new.items ≡ repeat_of (Some pair.now)) }
{
    bytes.clear();
    push_string(bytes, pair.key.as_slice())?;
    push_string(bytes, pair.key.as_slice())?;
    push_string(bytes, pair.value.as_slice())
}
