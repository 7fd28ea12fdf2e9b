//! With which entries the reads of a transaction conflict.

ghost use Rattle.std.specs.Prelude.{◌≡◌, ◌≤◌, drop, length, nat_le};
ghost use Rattle.std.specs.List.{list_any, prefix_len};
ghost use Rattle.mutations.specs.declared.Entry.{Entry};
ghost use Rattle.mutations.specs.Histories.{IsRising};
ghost use Rattle.mutations.specs.Effects as effects;
ghost use Rattle.mutations.specs.Transactions.{writes_of};
ghost use Rattle.database.specs.Reads as spec;
ghost use Rattle.database.specs.inner.Conflicts.{conflict_in, conflict_of};

use fb_bytes::{is_below, is_same};
use mutations::{Entry, Mutation, TxOp, TxOps, touches};

/// The version of the first entry past the read version with which operations that write conflict.
pub fn first_conflict(ops: &TxOps, read: u64, history: &[Entry]) -> Option<u64>
    requires { IsRising history.now }
    ensures { result ≡ conflict_of (writes_of ops.now) ops.now read history.now }
{
    if !ops.has_writes() {
        return None;
    }
    conflict_in(ops.as_slice(), since(history, read))
}

// The entries past a version.
fn since(history: &[Entry], read: u64) -> &[Entry]
    requires { IsRising history.now }
    ensures { result.now
        ≡ drop (prefix_len (λ (entry : Entry). nat_le entry.version read) history.now) history.now }
{
    let seen = seen_at(history, read);
    &history[seen..]
}

// The version of the first entry with which the operations conflict.
fn conflict_in(ops: &[TxOp], entries: &[Entry]) -> Option<u64>
    ensures { result ≡ conflict_in ops.now entries.now }
{
    for entry in entries {
        if have_conflict(ops, entry.muts.as_slice()) {
            return Some(entry.version);
        }
    }
    None
}

// How many entries at the front are at or below a version. It halves.
fn seen_at(history: &[Entry], read: u64) -> usize
    requires { IsRising history.now }
    ensures count { result ≡ prefix_len (λ (entry : Entry). nat_le entry.version read) history.now }
    ensures within { result ≤ length history.now }
{
    history.partition_point(|entry| entry.version <= read)
}

// Whether some of the operations conflicts with one of the mutations.
fn have_conflict(ops: &[TxOp], muts: &[Mutation]) -> bool
    ensures { result ≡ spec.have_conflict ops.now muts.now }
{
    muts.iter().any(|mutation| conflicts_with(ops, mutation))
}

fn conflicts_with(ops: &[TxOp], mutation: &Mutation) -> bool
    ensures { result ≡ list_any (spec.conflicts mutation.now) ops.now }
{
    ops.iter().any(|op| conflicts(mutation, op))
}

fn conflicts(mutation: &Mutation, op: &TxOp) -> bool
    ensures { result ≡ spec.conflicts mutation.now op.now }
{
    match op {
        TxOp::Get { key } => touches_key(mutation, key.as_slice()),
        TxOp::Scan { range, .. } => touches(mutation, range),
        TxOp::SnapshotGet { .. } | TxOp::Write(_) => false,
    }
}

fn touches_key(mutation: &Mutation, key: &[u8]) -> bool
    ensures { result ≡ effects.touches_key mutation.now key.now }
{
    match mutation {
        Mutation::Set { key: own, .. } | Mutation::Atomic { key: own, .. } => {
            is_same(own.as_slice(), key)
        }
        Mutation::ClearRange { begin, end } => {
            !is_below(key, begin.as_slice()) && is_below(key, end.as_slice())
        }
    }
}
