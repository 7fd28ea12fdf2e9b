//! What a commit of operations comes to, and the entry that it makes.

ghost use Rattle.std.specs.Prelude.{◌≡◌, ◌<◌, ◌∷◌, [], ◌++◌, ◌⊎◌, length, Ok, Err, OnOk, OnErr};
ghost use Rattle.std.specs.Prelude.{IfOk, IfErr, IfSome};
ghost use Rattle.mutations.specs.Spelling.{mutations_spelling};
ghost use Rattle.std.specs.List.{AllByRecursion};
ghost use Rattle.mutations.specs.declared.Entry.{Entry};
ghost use Rattle.mutations.specs.Clipping.{all_clipped};
ghost use Rattle.mutations.specs.Histories.{batches_of};
ghost use Rattle.mutations.specs.Transactions.{writes_of};
ghost use Rattle.versioned_kv.specs.Applied.{Holds};
ghost use Rattle.database.specs.Commits as commits;
ghost use Rattle.database.specs.Commits.{version_taken, next_version, unless_large_entry, large_in};
ghost use Rattle.database.specs.Commits.{large_of};

use crate::commit_fault::narrowed;
use crate::{CommitFault, JobLog, SystemFault};
use fb_bytes::{Ranges, Seq};
use mutations::{Entry, Mutation, TxOp, TxOps, clipped_bytes};
use std::alloc::AllocError;
use std::slice::from_ref;
use versioned_kv::{Store, Versions};

/// How many versions a read version may be behind the newest one.
const MOST_BEHIND: u64 = 5_000_000;

/// The least number of mutation bytes that a batch can't have.
const TOO_MANY: u128 = 4_294_967_296;

/// The version that operations take, where they are none that a limit refuses.
pub fn version_taken(
    versions: &Versions,
    logs: &[JobLog],
    ops: &TxOps,
) -> Result<Option<u64>, CommitFault>
    ensures ok { IfOk result (λ version. version_taken versions.entry.now.now
        versions.entry.now.pace logs.now (writes_of ops.now) ≡ Ok version) }
    ensures err { IfErr result (λ fault. (fault ≡ CommitFault.NoMemory)
        ⊎ (version_taken versions.entry.now.now versions.entry.now.pace logs.now
        (writes_of ops.now) ≡ Err fault)) }
{
    if !ops.has_writes() {
        return Ok(None);
    }
    let Some(version) = versions.next() else {
        return Err(CommitFault::VersionsSpent {
            version: versions.now,
        });
    };
    match large_in(logs, ops.as_slice()) {
        Ok(Some(bytes)) => Err(CommitFault::LogTooLarge { bytes }),
        Ok(None) => Ok(Some(version)),
        Err(AllocError) => Err(CommitFault::NoMemory),
    }
}

/// The bytes that the first of the logs for which they are too many would take. Nothing is built.
fn large_in(logs: &[JobLog], ops: &[TxOp]) -> Result<Option<u64>, AllocError>
    ensures { IfOk result (λ found. found ≡ large_in logs.now (writes_of ops.now)) }
{
    for log in logs {
        match large_of(log, ops) {
            Ok(Some(bytes)) => return Ok(Some(bytes)),
            Ok(None) => continue,
            Err(error) => return Err(error),
        }
    }
    Ok(None)
}

/// The bytes that a log would take, where they are too many. No memory holds as many as can't be
/// counted.
fn large_of(log: &JobLog, ops: &[TxOp]) -> Result<Option<u64>, AllocError>
    ensures { IfOk result (λ found. found ≡ large_of log.now (writes_of ops.now)) }
{
    match clipped_writes(ops, &log.ranges) {
        Some(bytes) if bytes < TOO_MANY => Ok(None),
        Some(bytes) => match narrowed(bytes) {
            Some(bytes) => Ok(Some(bytes)),
            None => Err(AllocError),
        },
        None => Err(AllocError),
    }
}

/// The mutation bytes of what clipping leaves of the writes. None where they are more than
/// `u128::MAX`, and may be where they are as many.
fn clipped_writes(ops: &[TxOp], ranges: &Ranges) -> Option<u128>
    ensures { IfSome result (λ bytes. bytes
        ≡ length (mutations_spelling (all_clipped ranges.now (writes_of ops.now)))) }
{
    let mut total: u128 = 0;
    for op in ops {
        let TxOp::Write(mutation) = op else {
            continue;
        };
        let bytes = clipped_bytes(from_ref(mutation), ranges);
        if bytes == u128::MAX {
            return None;
        }
        total = total.checked_add(bytes)?;
    }
    Some(total)
}

/// The version that an entry of a job takes, whatever the lock.
pub fn entry_version(
    versions: &Versions,
    logs: &[JobLog],
    muts: &[Mutation],
) -> Result<u64, SystemFault>
    ensures ok { IfOk result (λ version. unless_large_entry (large_in logs.now muts.now)
        (next_version versions.entry.now.now versions.entry.now.pace) ≡ Ok version) }
    ensures err { IfErr result (λ fault. (fault ≡ SystemFault.NoMemory)
        ⊎ (unless_large_entry (large_in logs.now muts.now)
        (next_version versions.entry.now.now versions.entry.now.pace) ≡ Err fault)) }
{
    let Some(version) = versions.next() else {
        return Err(SystemFault::VersionsSpent {
            version: versions.now,
        });
    };
    match large_among(logs, muts) {
        Ok(Some(bytes)) => Err(SystemFault::LogTooLarge { bytes }),
        Ok(None) => Ok(version),
        Err(AllocError) => Err(SystemFault::NoMemory),
    }
}

/// The bytes that the first of the logs for which they are too many would take of mutations.
fn large_among(logs: &[JobLog], muts: &[Mutation]) -> Result<Option<u64>, AllocError>
    ensures { IfOk result (λ found. found ≡ large_in logs.now muts.now) }
{
    for log in logs {
        match large_for(log, muts) {
            Ok(Some(bytes)) => return Ok(Some(bytes)),
            Ok(None) => continue,
            Err(error) => return Err(error),
        }
    }
    Ok(None)
}

/// The bytes that a log would take of mutations, where they are too many.
fn large_for(log: &JobLog, muts: &[Mutation]) -> Result<Option<u64>, AllocError>
    ensures { IfOk result (λ found. found ≡ large_of log.now muts.now) }
{
    let bytes = clipped_bytes(muts, &log.ranges);
    if bytes < TOO_MANY {
        return Ok(None);
    }
    match narrowed(bytes) {
        Some(bytes) => Ok(Some(bytes)),
        None => Err(AllocError),
    }
}

/// The oldest version that can be read.
pub fn oldest_at(time: u64) -> u64
    ensures { result ≡ commits.oldest_at time }
{
    time.saturating_sub(MOST_BEHIND)
}

/// Applies an entry to a store, and puts it at the end of the history that the store holds. Without
/// memory the history is as it was, and the store holds it.
pub fn put_entry(
    history: &mut Seq<Entry>,
    store: &mut Store,
    entry: Entry,
) -> Result<(), AllocError>
    requires past { AllByRecursion (λ (earlier : Entry). earlier.version < entry.version)
        history.old }
    requires oldest { store.old.oldest < entry.version }
    requires holds { Holds store.old (batches_of history.old) }
    ensures ok { OnOk result (history.new ≡ history.old ++ entry ∷ []) }
    ensures err { OnErr result (history.new ≡ history.old) }
    ensures holds { Holds store.new (batches_of history.new) }
    ensures same { (store.new.limit ≡ store.old.limit) × (store.new.oldest ≡ store.old.oldest) }
{
    store.apply(entry.version, &entry.muts)?;
    match history.push(entry) {
        Ok(()) => Ok(()),
        Err(error) => {
            store.retract();
            Err(error)
        }
    }
}
