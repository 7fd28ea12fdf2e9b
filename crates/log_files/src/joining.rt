//! Joining records to batches.

ghost use Rattle.std.specs.Prelude.{◌≡◌, ◌+◌, ◌^◌, ◌<◌, Ok, Some, length, IfOk, IfErr};
ghost use Rattle.log_files.specs.Reading as reading;
ghost use Rattle.log_files.specs.inner.Seen.{so_far, joining_from, record_from, records_from};

use crate::batched::{Batched, Joining};
use crate::fault::LogFault;
use crate::joined::Joined;
use crate::record::Record;
use mutations::{Batch, WireFault, decode_batch};
use std::alloc::Global;

/// Reads the batch that is being joined.
#[tactic(auto, unfolding(crate::specs::Reading::finished))]
pub fn finished<'a>(alloc: Global, batched: Batched<'a>) -> Result<Batched<'a>, LogFault>
    ensures ok { IfOk result (λ b. reading.finished (so_far batched.entry) ≡ Ok (so_far b)) }
    ensures err { IfErr result
        (λ fault. reading.Fails fault (reading.finished (so_far batched.entry))) }
{
    let Batched {
        mut batches,
        low,
        joining,
    } = batched;
    let Some(batch) = joining else {
        return Ok(Batched {
            batches,
            low,
            joining: None,
        });
    };
    match decode_batch(alloc, batch.joined.as_slice()) {
        Ok(muts) => {
            let version = batch.version;
            batches.push(Batch { version, muts })?;
            Ok(Batched {
                batches,
                low: version + 1,
                joining: None,
            })
        }
        Err(WireFault::NoMemory) => Err(LogFault::NoMemory),
        Err(wire) => Err(LogFault::Batch { at: batch.at, wire }),
    }
}

/// Takes one more record in.
#[tactic(auto, unfolding(crate::specs::Reading::taken))]
pub fn taken<'a>(
    alloc: Global,
    batched: Batched<'a>,
    end: u64,
    row: Record<'a>,
) -> Result<Batched<'a>, LogFault>
    ensures ok { IfOk result (λ b. reading.taken end (so_far batched.entry) (record_from row.entry)
        ≡ Ok (so_far b)) }
    ensures err { IfErr result
        (λ fault. reading.Fails fault
        (reading.taken end (so_far batched.entry) (record_from row.entry))) }
{
    let key = row.key;
    if key.len() != 12 {
        return Err(LogFault::KeyLength { at: row.at });
    }
    let (version, part) = version_and_part(key);
    if continues(&batched.joining, version) {
        return continued(alloc, batched, row, part);
    }
    let batched = finished(alloc, batched)?;
    begun(end, batched, row, version, part)
}

/// Whether a batch of this version is being joined.
fn continues(joining: &Option<Joining<'_>>, version: u64) -> bool
    ensures { result ≡ reading.continues (joining_from joining.now) version }
{
    match joining {
        None => false,
        Some(batch) => version == batch.version,
    }
}

fn version_and_part(key: &[u8]) -> (u64, u32)
    requires { length key.now ≡ 12 }
    ensures version { result.0 ≡ reading.version_in key.now }
    ensures part { result.1 ≡ reading.part_in key.now }
{
    let (version, part) = key.split_at(8);
    let version = u64::from_be_bytes([
        version[0], version[1], version[2], version[3], version[4], version[5], version[6],
        version[7],
    ]);
    let part = u32::from_be_bytes([part[0], part[1], part[2], part[3]]);
    (version, part)
}

/// One more piece of the batch that is being joined.
#[tactic(auto, unfolding(crate::specs::Reading::continued))]
fn continued<'a>(
    alloc: Global,
    batched: Batched<'a>,
    row: Record<'a>,
    part: u32,
) -> Result<Batched<'a>, LogFault>
    ensures ok { IfOk result (λ b.
        reading.continued (so_far batched.entry) (record_from row.entry) part ≡ Ok (so_far b)) }
    ensures err { IfErr result
        (λ fault. reading.Fails fault
        (reading.continued (so_far batched.entry) (record_from row.entry) part)) }
{
    let Batched {
        batches,
        low,
        joining,
    } = batched;
    let Some(batch) = joining else {
        return Err(LogFault::Part { at: row.at, part });
    };
    let Joining {
        at,
        version,
        next,
        joined,
    } = batch;
    if u64::from(part) != next {
        return Err(LogFault::Part { at: row.at, part });
    }
    if row.value.is_empty() {
        return Err(LogFault::Part { at: row.at, part });
    }
    let joined = joined.with(alloc, row.value)?;
    Ok(Batched {
        batches,
        low,
        joining: Some(Joining {
            at,
            version,
            next: next + 1,
            joined,
        }),
    })
}

/// The first piece of another batch.
#[tactic(auto, unfolding(crate::specs::Reading::begun))]
fn begun<'a>(
    end: u64,
    batched: Batched<'a>,
    row: Record<'a>,
    version: u64,
    part: u32,
) -> Result<Batched<'a>, LogFault>
    ensures ok { IfOk result (λ b.
        reading.begun end (so_far batched.entry) (record_from row.entry) version part
        ≡ Ok (so_far b)) }
    ensures err { IfErr result
        (λ fault. reading.Fails fault
        (reading.begun end (so_far batched.entry) (record_from row.entry) version part)) }
{
    if version < batched.low || version >= end {
        return Err(LogFault::Version {
            at: row.at,
            version,
        });
    }
    if part != 0 || row.value.is_empty() {
        return Err(LogFault::Part { at: row.at, part });
    }
    let joined = Joined::One(row.value);
    let Batched { batches, low, .. } = batched;
    Ok(Batched {
        batches,
        low,
        joining: Some(Joining {
            at: row.at,
            version,
            next: 1,
            joined,
        }),
    })
}

/// Takes all records of a block in.
pub fn all_taken<'a>(
    alloc: Global,
    batched: Batched<'a>,
    end: u64,
    records: &[Record<'a>],
) -> Result<Batched<'a>, LogFault>
    ensures ok { IfOk result (λ b.
        reading.all_taken end (so_far batched.entry) (records_from records.now)
        ≡ Ok (so_far b)) }
    ensures err { IfErr result
        (λ fault. reading.Fails fault
        (reading.all_taken end (so_far batched.entry) (records_from records.now))) }
{
    let mut batched = batched;
    for row in records {
        batched = taken(alloc, batched, end, *row)?;
    }
    Ok(batched)
}
