//! What the logs of jobs take of an entry.

ghost use Rattle.std.specs.Prelude.{◌≡◌, ◌<◌, ◌≤◌, ◌^◌, ◌++◌, false, length, IfOk, OnOk, OnErr};
ghost use Rattle.mutations.specs.Clipping.{all_clipped, clipped};
ghost use Rattle.mutations.specs.Spelling.{mutations_spelling, HasSpelling};
ghost use Rattle.log_keys.specs.Logs.{stands, with_one, without};
ghost use Rattle.database.specs.Logs.{AreLoggable};
ghost use Rattle.database.specs.inner.Logs.{AreInOrder};
ghost use Rattle.database.specs.inner.Kept.{AreBelow, put_one, put_all};

use crate::JobLog;
use fb_bytes::{Ranges, Seq};
use log_keys::{LogKeys, undo_law, unused_law};
use mutations::{Entry, Mutation, clip, encode_batch};
use std::alloc::{AllocError, Global};

/// Puts what each log takes of an entry, in parts of `part` bytes. Without memory nothing changes.
pub fn put_logs(
    alloc: Global,
    keys: &mut LogKeys,
    logs: &[JobLog],
    entry: &Entry,
    part: usize,
) -> Result<(), AllocError>
    requires part { 64 ≤ part }
    requires below { AreBelow entry.now.version keys.old }
    requires order { AreInOrder logs.now }
    requires logged { AreLoggable entry.now.muts logs.now }
    ensures ok { OnOk result
        (keys.new ≡ put_all entry.now.version entry.now.muts logs.now keys.old) }
    ensures back { OnOk result (without entry.now.version keys.new ≡ keys.old) }
    ensures err { OnErr result (keys.new ≡ keys.old) }
{
    match put_each(alloc, keys, logs, entry, part) {
        Ok(()) => Ok(()),
        Err(error) => {
            keys.retract(entry.version);
            Err(error)
        }
    }
}

// Puts what each log takes. Without memory some may be left out; a retract of the version undoes it
// in any case.
fn put_each(
    alloc: Global,
    keys: &mut LogKeys,
    logs: &[JobLog],
    entry: &Entry,
    part: usize,
) -> Result<(), AllocError>
    requires part { 64 ≤ part }
    requires below { AreBelow entry.now.version keys.old }
    requires order { AreInOrder logs.now }
    requires logged { AreLoggable entry.now.muts logs.now }
    ensures ok { OnOk result
        (keys.new ≡ put_all entry.now.version entry.now.muts logs.now keys.old) }
    ensures back { without entry.now.version keys.new ≡ keys.old }
{
    undo_law();
    unused_law();
    for log in logs {
        put_one(alloc, keys, log, entry, part)?;
    }
    Ok(())
}

// Puts what a log takes of an entry. Without memory nothing changes.
fn put_one(
    alloc: Global,
    keys: &mut LogKeys,
    log: &JobLog,
    entry: &Entry,
    part: usize,
) -> Result<(), AllocError>
    requires part { 64 ≤ part }
    requires free { stands log.now.job entry.now.version keys.old ≡ false }
    requires few { length (mutations_spelling (all_clipped log.now.ranges entry.now.muts)) < 2 ^ 32 }
    ensures ok { OnOk result (keys.new ≡ put_one log.now.job entry.now.version
        (all_clipped log.now.ranges entry.now.muts) keys.old) }
    ensures err { OnErr result (keys.new ≡ keys.old) }
{
    let muts = clip_all(alloc, entry.muts.as_slice(), &log.ranges)?;
    if muts.is_empty() {
        return Ok(());
    }
    put_muts(alloc, keys, log.job, entry.version, &muts, part)
}

// Puts mutations under a job and a version. Without memory nothing changes.
fn put_muts(
    alloc: Global,
    keys: &mut LogKeys,
    job: u64,
    version: u64,
    muts: &Seq<Mutation>,
    part: usize,
) -> Result<(), AllocError>
    requires part { 64 ≤ part }
    requires free { stands job version keys.old ≡ false }
    requires spelled { HasSpelling muts.now }
    ensures ok { OnOk result (keys.new
        ≡ with_one (record { job = job; version = version; muts = muts.now }) keys.old) }
    ensures err { OnErr result (keys.new ≡ keys.old) }
{
    let batch = encode_batch(alloc, muts)?;
    keys.put_batch(job, version, batch.as_slice(), part)
}

// What is left of mutations in the ranges.
fn clip_all(alloc: Global, muts: &[Mutation], ranges: &Ranges) -> Result<Seq<Mutation>, AllocError>
    ensures { IfOk result (λ left. left ≡ all_clipped ranges.now muts.now) }
{
    let mut left = Vec::with_capacity(alloc, muts.len())?;
    for mutation in muts {
        push_clipped(alloc, &mut left, mutation, ranges)?;
    }
    left.shrink_to_fit();
    Ok(Seq::from_vec(left))
}

// Adds what is left of a mutation. Only that of a clear may be several, and takes a list.
fn push_clipped(
    alloc: Global,
    left: &mut Vec<Mutation>,
    mutation: &Mutation,
    ranges: &Ranges,
) -> Result<(), AllocError>
    ensures { OnOk result (left.new.items ≡ left.old.items ++ clipped ranges.now mutation.now) }
{
    match mutation {
        Mutation::Set { key, .. } | Mutation::Atomic { key, .. } => {
            if ranges.contains(key.as_slice()) {
                left.push(mutation.copy()?)?;
            }
        }
        Mutation::ClearRange { .. } => {
            let mut clipped = clip(alloc, mutation, ranges)?.into_vec();
            left.append(&mut clipped)?;
        }
    }
    Ok(())
}
