//! What the reads of a transaction find.

ghost use Rattle.std.specs.Prelude.{◌≡◌, ◌≤◌, ◌<◌, ◌++◌, ℕ, List, take, IfOk, OnOk};
ghost use Rattle.mutations.specs.declared.Entry.{Entry};
ghost use Rattle.mutations.specs.Histories.{batches_of, state_at};
ghost use Rattle.versioned_kv.specs.Applied.{Holds};
ghost use Rattle.block_frame.specs.Profiles.{limit_of};
ghost use Rattle.database.specs.Dumps.{pairs_at};
ghost use Rattle.database.specs.Reads.{found_by, reads_at};

use crate::Found;
use fb_bytes::{Blob, KeyRange, Pairs, Seq};
use mutations::TxOp;
use std::alloc::{AllocError, Global};
use std::marker::Brand;
use std::sync::ledger::{Blank, Ledger};
use versioned_kv::{Steps, Store};

/// What the operations find in a store at a version, in their order. The looks of all its reads are
/// counted together.
pub fn reads_at(
    alloc: Global,
    store: &Store,
    version: u64,
    ops: &[TxOp],
) -> Result<Seq<Found>, AllocError>
    requires { store.now.oldest ≤ version }
    ensures { IfOk result
        (λ reads. (block : ℕ) (history : List Entry) → store.now.limit ≡ limit_of block
        → Holds store.now (batches_of history) → reads ≡ reads_at block history version ops.now) }
{
    reads_counted::<Brand>(alloc, store, version, ops, Blank::new(1))
}

fn reads_counted<L: Ledger>(
    alloc: Global,
    store: &Store,
    version: u64,
    ops: &[TxOp],
    blank: Blank,
) -> Result<Seq<Found>, AllocError>
    requires name { blank.name ≡ L.name }
    requires parts { blank.parts ≡ L.parts }
    requires some { 0 < blank.parts }
    requires oldest { store.now.oldest ≤ version }
    ensures { IfOk result
        (λ reads. (block : ℕ) (history : List Entry) → store.now.limit ≡ limit_of block
        → Holds store.now (batches_of history) → reads ≡ reads_at block history version ops.now) }
{
    let mut steps = Steps::<L>::new(blank);
    let mut reads = Seq::new(alloc);
    for op in ops {
        push_found(alloc, &mut reads, store, version, op, &mut steps)?;
    }
    Ok(reads)
}

// Adds what an operation finds, where it reads.
fn push_found<L: Ledger>(
    alloc: Global,
    reads: &mut Seq<Found>,
    store: &Store,
    version: u64,
    op: &TxOp,
    steps: &mut Steps<L>,
) -> Result<(), AllocError>
    requires oldest { store.now.oldest ≤ version }
    ensures { OnOk result
        ((block : ℕ) (history : List Entry) → store.now.limit ≡ limit_of block
        → Holds store.now (batches_of history)
        → reads.new ≡ reads.old ++ found_by block history version op.now) }
{
    match op {
        TxOp::Get { key } | TxOp::SnapshotGet { key } => {
            let value = value_of(alloc, store, key.as_slice(), version, steps)?;
            reads.push(Found::One(value))
        }
        TxOp::Scan { range, limit } => {
            let pairs = first_pairs(store, range, version, *limit)?;
            reads.push(Found::Many(pairs))
        }
        TxOp::Write(_) => Ok(()),
    }
}

// The value of a key at a version, with memory of its own.
fn value_of<L: Ledger>(
    alloc: Global,
    store: &Store,
    key: &[u8],
    version: u64,
    steps: &mut Steps<L>,
) -> Result<Option<Blob>, AllocError>
    requires oldest { store.now.oldest ≤ version }
    ensures { IfOk result
        (λ value. (block : ℕ) (history : List Entry) → store.now.limit ≡ limit_of block
        → Holds store.now (batches_of history)
        → value ≡ state_at (limit_of block) history version key.now) }
{
    match store.read(key, version, steps) {
        Some(value) => Ok(Some(Blob::from_slice(alloc, value)?)),
        None => Ok(None),
    }
}

// The first pairs of a range at a version, at most as many as the limit. No page has more pairs
// than a `usize` counts.
fn first_pairs(
    store: &Store,
    range: &KeyRange,
    version: u64,
    limit: u64,
) -> Result<Pairs, AllocError>
    requires oldest { store.now.oldest ≤ version }
    ensures { IfOk result
        (λ pairs. (block : ℕ) (history : List Entry) → store.now.limit ≡ limit_of block
        → Holds store.now (batches_of history)
        → pairs ≡ take limit (pairs_at block history version range.now)) }
{
    let page = store.scan(range, version, limit as usize)?;
    let _rising = page.pairs.as_slice();
    Ok(page.pairs)
}
