//! The records of one block.

ghost use Rattle.std.specs.Prelude.{◌≡◌, ◌+◌, ◌^◌, ◌<◌, ◌≤◌, Ok, List, length, IfOk, IfErr, OnOk};
ghost use Rattle.log_files.specs.Reading as reading;
ghost use Rattle.log_files.specs.inner.Seen.{records_from};

use crate::fault::LogFault;
use block_frame::{header_at, is_over, string_at, unpadded_at};
use std::alloc::Global;

/// A piece of a batch, under its key, in the bytes of the file.
#[derive(Clone, Copy, Debug)]
pub struct Record<'a> {
    /// Its place in the file.
    pub at: u64,
    pub key: &'a [u8],
    pub value: &'a [u8],
}

/// The number that each block begins with.
pub const FORMAT: u32 = 2001;

/// The records of the block that the bytes are. Its header stands at the place `base`.
#[tactic(auto, unfolding(crate::specs::Reading::block_records))]
pub fn block_records(alloc: Global, bytes: &[u8], base: u64) -> Result<Vec<Record<'_>>, LogFault>
    requires { base + length bytes.now < 2 ^ 64 }
    ensures ok { IfOk result (λ records. reading.block_records base bytes.now
        ≡ Ok (records_from records.items)) }
    ensures err { IfErr result
        (λ fault. reading.Fails fault (reading.block_records base bytes.now)) }
{
    let end = base + bytes.len() as u64;
    let rest = header_or(bytes, base)?;
    let (records, rest) = records_at(alloc, rest, end)?;
    unless_padded(rest, end)?;
    Ok(records)
}

/// The bytes behind a header that is this format's.
#[tactic(auto, unfolding(crate::specs::Reading::header_or))]
fn header_or(bytes: &[u8], base: u64) -> Result<&[u8], LogFault>
    ensures ok { IfOk result (λ rest. reading.header_or base bytes.now ≡ Ok rest.now) }
    ensures err { IfErr result (λ fault. reading.Fails fault (reading.header_or base bytes.now)) }
    ensures within { IfOk result (λ rest. length rest.now ≤ length bytes.now) }
{
    let Some((found, rest)) = header_at(bytes) else {
        return Err(LogFault::Short { at: base });
    };
    if found != FORMAT {
        return Err(LogFault::Format { found });
    }
    Ok(rest)
}

/// The string in front, and the bytes behind it. The bytes end at the place `end`.
#[tactic(auto, unfolding(crate::specs::Reading::string_or))]
fn string_or(bytes: &[u8], end: u64) -> Result<(&[u8], &[u8]), LogFault>
    requires { length bytes.now ≤ end }
    ensures ok { IfOk result (λ x. reading.string_or end bytes.now ≡ Ok (x.0.now, x.1.now)) }
    ensures err { IfErr result (λ fault. reading.Fails fault (reading.string_or end bytes.now)) }
    ensures shorter { IfOk result (λ x. length x.1.now < length bytes.now) }
{
    let Some((string, rest)) = string_at(bytes) else {
        let at = end - bytes.len() as u64;
        return Err(LogFault::Short { at });
    };
    Ok((string, rest))
}

/// Records until the block is over, and the bytes behind them.
fn records_at(alloc: Global, bytes: &[u8], end: u64) -> Result<(Vec<Record<'_>>, &[u8]), LogFault>
    requires { length bytes.now ≤ end }
    ensures ok { IfOk result (λ x. reading.records_at (length bytes.now + 1) end bytes.now
        ≡ Ok (records_from x.0.items, x.1.now)) }
    ensures err { IfErr result
        (λ fault. reading.Fails fault (reading.records_at (length bytes.now + 1) end bytes.now)) }
    ensures within { IfOk result (λ x. length x.1.now ≤ length bytes.now) }
{
    let mut records = Vec::new(alloc);
    let mut rest = bytes;
    'rows: while !is_over(rest) {
        let at = end - rest.len() as u64;
        let (key, after) = string_or(rest, end)?;
        let (value, after) = string_or(after, end)?;
        records.push(Record { at, key, value })?;
        rest = after;
    }
    Ok((records, rest))
}

/// The bytes end at the place `end`.
#[tactic(auto, unfolding(crate::specs::Reading::unless_padded))]
fn unless_padded(rest: &[u8], end: u64) -> Result<(), LogFault>
    requires { length rest.now ≤ end }
    ensures ok { OnOk result ((x : List reading.Record)
        → reading.unless_padded end rest.now x ≡ Ok x) }
    ensures err { IfErr result (λ fault. (x : List reading.Record)
        → reading.Fails fault (reading.unless_padded end rest.now x)) }
{
    match unpadded_at(rest) {
        None => Ok(()),
        Some(place) => {
            let at = end - rest.len() as u64 + place as u64;
            Err(LogFault::Padding { at })
        }
    }
}
