//! Writing a log file.

ghost use Rattle.std.specs.Prelude.{◌≡◌, ◌+◌, ◌*◌, ◌<◌, ◌≤◌, ◌^◌, true, length, IfOk, OnOk};
ghost use Rattle.std.specs.Int.{w32, w64, to_be_bytes};
ghost use Rattle.fb_bytes.specs.Blocks.{is_block};
ghost use Rattle.block_frame.specs.Profiles.{part_of};
ghost use Rattle.log_files.specs.Grammar.{LogFile, row_key, row_text, rows_of};
ghost use Rattle.mutations.specs.Cutting.{pieces_of};
ghost use Rattle.log_files.specs.Writing.{IsWritable, log_text, with_rows};

use crate::record::FORMAT;
use block_frame::{FrameWriter, Profile, push_string};
use fb_bytes::Blob;
use mutations::{LogChunk, encode_batch};
use std::alloc::{AllocError, Global};

/// The log file of a chunk, in blocks of `BLOCK` bytes. Without batches it has 0 bytes.
pub fn write_log<const BLOCK: u32>(alloc: Global, chunk: &LogChunk) -> Result<Blob, AllocError>
    requires { IsWritable BLOCK chunk.now.begin chunk.now.end chunk.now.batches }
    ensures text { IfOk result (λ text. text ≡ log_text BLOCK chunk.now.batches) }
    // It is in the grammar, so it is read back.
    ensures grammar { IfOk result
        (λ text. LogFile BLOCK chunk.now.begin chunk.now.end text chunk.now.batches) }
{
    block_frame::blocks_have_room();
    let part = part_size(BLOCK);
    let batches = chunk.batches.as_slice();
    let mut frames = FrameWriter::<BLOCK, FORMAT>::new(alloc);
    let mut row = RowBuffer {
        key: Vec::new(alloc),
        bytes: Vec::new(alloc),
    };
    for batch in batches {
        let bytes = encode_batch(alloc, &batch.muts)?;
        put_batch(&mut row, &mut frames, part, batch.version, bytes.as_slice())?;
    }
    Ok(frames.finish())
}

/// The same for a block that is a value.
pub fn write_log_at(alloc: Global, block: u32, chunk: &LogChunk) -> Result<Blob, AllocError>
    requires { IsWritable block chunk.now.begin chunk.now.end chunk.now.batches }
    ensures text { IfOk result (λ text. text ≡ log_text block chunk.now.batches) }
    ensures grammar { IfOk result
        (λ text. LogFile block chunk.now.begin chunk.now.end text chunk.now.batches) }
{
    block_frame::at_block!(block, write_log(alloc, chunk), unreachable!())
}

/// The length of the parts of a block's profile.
fn part_size(block: u32) -> usize
    requires { is_block block ≡ true }
    ensures part { result ≡ part_of block }
    ensures least { 64 ≤ result }
{
    match Profile::from_block(block) {
        Some(profile) => profile.part,
        None => unreachable!(),
    }
}

// Adds the parts of a batch.
fn put_batch<const BLOCK: u32>(
    row: &mut RowBuffer,
    frames: &mut FrameWriter<BLOCK, FORMAT>,
    part: usize,
    version: u64,
    bytes: &[u8],
) -> Result<(), AllocError>
    requires room { 24 + part ≤ BLOCK }
    requires part { 64 ≤ part }
    requires few { length bytes.now ≤ 2 ^ 33 }
    ensures { OnOk result
        (frames.new ≡ with_rows BLOCK frames.old (rows_of version 0 (pieces_of part bytes.now))) }
{
    let mut rest = bytes;
    let mut number: u32 = 0;
    'parts: while rest.len() > part {
        let (piece, after) = rest.split_at(part);
        row.set(version, number, piece)?;
        frames.item(&row.bytes, &[])?;
        rest = after;
        number += 1;
    }
    row.set(version, number, rest)?;
    frames.item(&row.bytes, &[])?;
    Ok(())
}

// A record, and its key. Each record is put together in the memory that the one before it had.
#[derive(Debug, Drop)]
struct RowBuffer {
    key: Vec<u8>,
    bytes: Vec<u8>,
}

impl RowBuffer {
    // The record of a version and a part's number, and of the piece.
    fn set(&mut self, version: u64, part: u32, piece: &[u8]) -> Result<(), AllocError>
        requires { length piece.now < 2 ^ 32 }
        ensures { OnOk result (self.new.bytes.items
            ≡ row_text (record { key = row_key version part; value = piece.now })) }
    {
        self.key.clear();
        self.key.extend_from_slice(&version.to_be_bytes())?;
        self.key.extend_from_slice(&part.to_be_bytes())?;
        self.bytes.clear();
        push_string(&mut self.bytes, &self.key)?;
        push_string(&mut self.bytes, piece)
    }
}
