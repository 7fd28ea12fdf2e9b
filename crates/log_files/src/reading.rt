//! Reading a log file.

ghost use Rattle.std.specs.Prelude.{◌≡◌, ◌+◌, ◌<◌, ◌≤◌, Ok, List, length, IfOk, IfErr, MatchResult};
ghost use Rattle.mutations.specs.declared.Batch.{Batch};
ghost use Rattle.log_files.specs.Grammar.{LogFile};
ghost use Rattle.log_files.specs.Reading as reading;
ghost use Rattle.log_files.specs.inner.Seen.{so_far};

use crate::batched::Batched;
use crate::fault::LogFault;
use crate::joining::{all_taken, finished};
use crate::record::block_records;
use fb_bytes::Seq;
use mutations::{Batch, LogChunk};
use std::alloc::Global;

/// What was logged from `begin` on and before `end`, of a log file in blocks of this size, or its
/// first fault.
pub fn read_log(
    alloc: Global,
    bytes: &[u8],
    block: u32,
    begin: u64,
    end: u64,
) -> Result<LogChunk, LogFault>
    requires { 0 < block }
    // What is read is in the grammar.
    ensures found { IfOk result (λ chunk. LogFile block begin end bytes.now chunk.batches) }
    // What is in the grammar is read, unless memory runs out.
    ensures only { (batches : List Batch) → LogFile block begin end bytes.now batches
        → MatchResult result (λ chunk. chunk.batches ≡ batches)
        (λ fault. fault ≡ LogFault.NoMemory) }
    // Which fault it is.
    ensures ok { IfOk result (λ chunk. reading.read block begin end bytes.now ≡ Ok chunk.batches) }
    ensures span { IfOk result (λ chunk. (chunk.begin ≡ begin) × (chunk.end ≡ end)) }
    ensures err { IfErr result
        (λ fault. reading.Fails fault (reading.read block begin end bytes.now)) }
{
    let read = batches_of(alloc, bytes, block, begin, end);
    chunk_of(read, begin, end)
}

fn chunk_of(read: Result<Seq<Batch>, LogFault>, begin: u64, end: u64) -> Result<LogChunk, LogFault>
    ensures chunk { IfOk result (λ chunk. (read ≡ Ok chunk.batches) × (chunk.begin ≡ begin)
        × (chunk.end ≡ end)) }
    ensures fault { IfErr result (λ fault. read ≡ Err fault) }
{
    match read {
        Ok(batches) => Ok(LogChunk {
            begin,
            end,
            batches,
        }),
        Err(fault) => Err(fault),
    }
}

#[tactic(auto, unfolding(crate::specs::Reading::read))]
fn batches_of(
    alloc: Global,
    bytes: &[u8],
    size: u32,
    begin: u64,
    end: u64,
) -> Result<Seq<Batch>, LogFault>
    requires { 0 < size }
    ensures ok { IfOk result (λ batches. reading.read size begin end bytes.now ≡ Ok batches) }
    ensures err { IfErr result
        (λ fault. reading.Fails fault (reading.read size begin end bytes.now)) }
{
    let batched = blocks(alloc, bytes, size, begin, end)?;
    let batched = finished(alloc, batched)?;
    let Batched { batches, .. } = batched;
    Ok(batches)
}

/// Block by block, each wholly before its records.
fn blocks(
    alloc: Global,
    bytes: &[u8],
    size: u32,
    begin: u64,
    end: u64,
) -> Result<Batched<'_>, LogFault>
    requires { 0 < size }
    ensures ok { IfOk result
        (λ b. reading.blocks_from (length bytes.now) size end 0
        (reading.nothing_yet begin) bytes.now ≡ Ok (so_far b)) }
    ensures err { IfErr result
        (λ fault. reading.Fails fault
        (reading.blocks_from (length bytes.now) size end 0 (reading.nothing_yet begin) bytes.now)) }
{
    let mut batched = Batched {
        batches: Seq::new(alloc),
        low: begin,
        joining: None,
    };
    let mut rest = bytes;
    let mut base: u64 = 0;
    'pieces: while !rest.is_empty() {
        let (piece, after) = rest.split_at(rest.len().min(size as usize));
        let records = block_records(alloc, piece, base)?;
        batched = all_taken(alloc, batched, end, &records)?;
        base += u64::from(size);
        rest = after;
    }
    Ok(batched)
}
