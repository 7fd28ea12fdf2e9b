//! What mutations leave at their keys, as rows of one version.

ghost use Rattle.std.specs.Prelude.{◌≡◌, IfOk, OnOk, if◌then◌else◌};
ghost use Rattle.fb_bytes.specs.Bytes.{Bytes, is_same};
ghost use Rattle.atomic_ops.specs.Operation.{operation, bytes_left};
ghost use Rattle.mutations.specs.Effects.{effect, effects, touches_key};
ghost use Rattle.versioned_kv.specs.Chains.{value_at};
ghost use Rattle.versioned_kv.specs.inner.Chains.{AreChains};
ghost use Rattle.versioned_kv.specs.inner.Edits.{AreUpto, Extends};
ghost use Rattle.versioned_kv.specs.Touched.{touched, RowsStay};
ghost use Rattle.versioned_kv.specs.inner.Queued.{Notes, AreNoted};

use crate::Steps;
use crate::chain::Row;
use crate::keys::Keys;
use crate::queue::Queue;
use atomic_ops::Op;
use fb_bytes::Blob;
use mutations::Mutation;
use std::alloc::AllocError;
use std::sync::ledger::Ledger;

/// Writes what mutations leave, one after the other. Without memory some may be left out.
pub fn write_all<L: Ledger>(
    chains: &mut Keys,
    version: u64,
    mutations: &[Mutation],
    limit: usize,
    queue: &mut Queue,
    steps: &mut Steps<L>,
) -> Result<(), AllocError>
    requires chains { AreChains chains.old }
    requires upto { AreUpto version chains.old }
    ensures extends { Extends version chains.old chains.new }
    ensures notes { Notes version queue.old queue.new }
    ensures noted { AreNoted version chains.old queue.old → AreNoted version chains.new queue.new }
    ensures others { OnOk result (RowsStay (touched mutations.now) chains.old chains.new) }
    ensures ok { OnOk result ((key : Bytes) → value_at chains.new key version
        ≡ effects limit mutations.now key (value_at chains.old key version)) }
{
    for mutation in mutations {
        write_one(chains, version, mutation, limit, queue, steps)?;
    }
    Ok(())
}

fn write_one<L: Ledger>(
    chains: &mut Keys,
    version: u64,
    mutation: &Mutation,
    limit: usize,
    queue: &mut Queue,
    steps: &mut Steps<L>,
) -> Result<(), AllocError>
    requires chains { AreChains chains.old }
    requires upto { AreUpto version chains.old }
    ensures extends { Extends version chains.old chains.new }
    ensures notes { Notes version queue.old queue.new }
    ensures noted { AreNoted version chains.old queue.old → AreNoted version chains.new queue.new }
    ensures others { OnOk result (RowsStay (touches_key mutation.now) chains.old chains.new) }
    ensures ok { OnOk result ((key : Bytes) → value_at chains.new key version
        ≡ effect limit mutation.now key (value_at chains.old key version)) }
{
    match mutation {
        Mutation::Set { key, value } => {
            let value = Some(value.copy()?);
            write_row(chains, key, Row { version, value }, queue, steps)
        }
        Mutation::ClearRange { begin, end } => {
            chains.clear(begin.as_slice(), end.as_slice(), version, queue, steps)
        }
        Mutation::Atomic { op, key, param } => {
            let at = key.as_slice();
            let value = operated(chains, version, *op, at, param.as_slice(), limit, steps)?;
            write_row(chains, key, Row { version, value }, queue, steps)
        }
    }
}

/// Puts a row at the end of the rows of a key, and notes the key.
fn write_row<L: Ledger>(
    chains: &mut Keys,
    key: &Blob,
    row: Row,
    queue: &mut Queue,
    steps: &mut Steps<L>,
) -> Result<(), AllocError>
    requires chains { AreChains chains.old }
    requires upto { AreUpto row.version chains.old }
    ensures extends { Extends row.version chains.old chains.new }
    ensures others { RowsStay (is_same key.now) chains.old chains.new }
    ensures ok { OnOk result ((at : Bytes) → value_at chains.new at row.version
        ≡ (if is_same key.now at then row.value else value_at chains.old at row.version)) }
    ensures notes { Notes row.version queue.old queue.new }
    ensures noted { AreNoted row.version chains.old queue.old
        → AreNoted row.version chains.new queue.new }
{
    queue.note(row.version, key)?;
    chains.write(key.as_slice(), row, steps)
}

/// What an operation leaves at a key.
fn operated<L: Ledger>(
    chains: &Keys,
    version: u64,
    op: Op,
    key: &[u8],
    param: &[u8],
    limit: usize,
    steps: &mut Steps<L>,
) -> Result<Option<Blob>, AllocError>
    requires { AreChains chains.now }
    ensures { IfOk result
        (λ left. left ≡ operation op (value_at chains.now key.now version) param.now limit) }
{
    let old = match chains.value(key, version, steps) {
        Some(value) => Some(value.as_slice()),
        None => None,
    };
    let left = atomic_ops::apply(chains.allocator(), op, old, param, limit)?;
    Ok(blob_of(left))
}

fn blob_of(bytes: Option<Vec<u8>>) -> Option<Blob>
    ensures { result ≡ bytes_left bytes }
{
    match bytes {
        Some(bytes) => Some(Blob::from_vec(bytes)),
        None => None,
    }
}
