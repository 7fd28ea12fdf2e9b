ghost use Rattle.std.specs.Prelude.{◌≡◌, ℕ, ◌+◌, ◌-◌, ◌<◌, ◌≤◌, [], ◌++◌, length, take, drop, replicate, OnOk, OnErr};
ghost use Rattle.block_frame.specs.Frames.{Frames, no_frames, framed, begun, text};

use fb_bytes::Blob;
use std::alloc::{AllocError, Global};
use std::marker::Model;

/// Writes items into blocks of `BLOCK` bytes, each of which begins with the number `FORMAT`.
#[derive(Debug, Drop)]
pub struct FrameWriter<const BLOCK: u32, const FORMAT: u32> {
    bytes: Vec<u8>,
    start: usize,
}

impl<const BLOCK: u32, const FORMAT: u32> Model for FrameWriter<BLOCK, FORMAT> {
    ghost use Rattle.std.specs.Prelude.{◌+◌, ◌≤◌, length, take, drop};
    ghost use Rattle.block_frame.specs.Frames.{Frames};

    ghost Value = { Frames };

    ghost view = { λ w. record { full = take w.start w.bytes.items; present = drop w.start w.bytes.items } };

    ghost invariant = { λ w. (w.start ≤ length w.bytes.items) × (length w.bytes.items ≤ w.start + BLOCK) };
}

impl<const BLOCK: u32, const FORMAT: u32> FrameWriter<BLOCK, FORMAT> {
    /// A writer without a block. It takes no memory.
    pub fn new(alloc: Global) -> Self
        ensures { result ≡ no_frames }
    {
        FrameWriter {
            bytes: Vec::new(alloc),
            start: 0,
        }
    }

    /// Adds an item, which is never cut in two. A block that begins with it has `repeat` before it.
    pub fn item(&mut self, bytes: &[u8], repeat: &[u8]) -> Result<(), AllocError>
        requires { 4 + length repeat.now + length bytes.now ≤ BLOCK }
        ensures ok { OnOk result (self.new ≡ framed BLOCK FORMAT self.old bytes.now repeat.now) }
        ensures err { OnErr result (self.new ≡ self.old) }
    {
        let used = self.bytes.len() - self.start;
        if used == 0 {
            begin_block(&mut self.bytes, 0, FORMAT, repeat, bytes)?;
            return Ok(());
        }
        let room = BLOCK as usize - used;
        if bytes.len() <= room {
            self.bytes.extend_from_slice(bytes)?;
            return Ok(());
        }
        let start = self.bytes.len() + room;
        begin_block(&mut self.bytes, room, FORMAT, repeat, bytes)?;
        self.start = start;
        Ok(())
    }

    /// All bytes. The last block isn't filled up.
    pub fn finish(self) -> Blob
        ensures { result ≡ text self.entry }
    {
        let FrameWriter { bytes, .. } = self;
        Blob::from_vec(bytes)
    }
}

/// Fills a block up, and begins another one. An `Err` changes nothing.
fn begin_block(
    out: &mut Vec<u8>,
    room: usize,
    format: u32,
    repeat: &[u8],
    item: &[u8],
) -> Result<(), AllocError>
    ensures ok { OnOk result (out.new.items ≡ (out.old.items ++ replicate room 255)
        ++ begun format repeat.now item.now) }
    ensures err { OnErr result (out.new.items ≡ out.old.items) }
{
    let len = out.len();
    let added = add_block(out, room, format, repeat, item);
    if added.is_err() {
        out.truncate(len);
    }
    added
}

/// After an `Err` a part of it may be there.
fn add_block(
    out: &mut Vec<u8>,
    room: usize,
    format: u32,
    repeat: &[u8],
    item: &[u8],
) -> Result<(), AllocError>
    ensures ok { OnOk result (out.new.items ≡ (out.old.items ++ replicate room 255)
        ++ begun format repeat.now item.now) }
    ensures err { OnErr result (take (length out.old.items) out.new.items ≡ out.old.items) }
{
    pad(out, room)?;
    out.extend_from_slice(&format.to_le_bytes())?;
    out.extend_from_slice(repeat)?;
    out.extend_from_slice(item)?;
    Ok(())
}

fn pad(out: &mut Vec<u8>, room: usize) -> Result<(), AllocError>
    ensures ok { OnOk result (out.new.items ≡ out.old.items ++ replicate room 255) }
    ensures err { OnErr result (take (length out.old.items) out.new.items ≡ out.old.items) }
{
    for _ in 0..room {
        out.push(0xff)?;
    }
    Ok(())
}
