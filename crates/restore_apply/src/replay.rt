//! The batches that links give, made on the keys that wait for them.

ghost use Rattle.std.specs.Prelude.{◌≡◌, Some, IfOk, OnOk, if◌then◌else◌};
ghost use Rattle.fb_bytes.specs.Bytes.{is_same};
ghost use Rattle.atomic_ops.specs.Operation.{operation, bytes_left};
ghost use Rattle.mutations.specs.Effects.{effect, effects};
ghost use Rattle.restore_apply.specs.inner.Pieces as spec;
ghost use Rattle.restore_apply.specs.inner.Tables.{found, Leaves};

use crate::LoadedLink;
use crate::pieces::{Piece, clear_older, is_older};
use crate::table::{value, write};
use atomic_ops::Op;
use fb_bytes::Blob;
use mutations::{Batch, Mutation};
use std::alloc::{AllocError, Global};
use std::collections::BTreeMap;

/// Whether some link gives a batch past a version, up to the last version.
pub(crate) fn some_past(links: &[LoadedLink], version: u64, upto: u64) -> bool
    ensures { result ≡ spec.some_past version links.now upto }
{
    for link in links {
        if some_batch_past(link, version, upto) {
            return true;
        }
    }
    false
}

fn some_batch_past(link: &LoadedLink, version: u64, upto: u64) -> bool
    ensures { result
        ≡ spec.some_batch_past version link.now link.now.chunk.batches upto }
{
    for batch in link.chunk.batches.as_slice() {
        if version < batch.version && gives(link, upto, batch.version) {
            return true;
        }
    }
    false
}

/// Makes the batches up to a version, each at the keys of the files that are older.
pub(crate) fn replay(
    alloc: Global,
    table: &mut BTreeMap<Blob, Blob>,
    pieces: &[Piece],
    links: &[LoadedLink],
    upto: u64,
) -> Result<(), AllocError>
    requires { spec.AreLine pieces.now }
    ensures { OnOk result
        (Leaves (λ key. spec.links_since (spec.since pieces.now key) links.now upto key) table.old
        table.new) }
{
    for link in links {
        replay_link(alloc, table, pieces, link, upto)?;
    }
    Ok(())
}

fn replay_link(
    alloc: Global,
    table: &mut BTreeMap<Blob, Blob>,
    pieces: &[Piece],
    link: &LoadedLink,
    upto: u64,
) -> Result<(), AllocError>
    requires { spec.AreLine pieces.now }
    ensures { OnOk result
        (Leaves (λ key.
        spec.batches_since (spec.since pieces.now key) link.now link.now.chunk.batches upto
        key) table.old table.new) }
{
    for batch in link.chunk.batches.as_slice() {
        replay_batch(alloc, table, pieces, link, batch, upto)?;
    }
    Ok(())
}

fn replay_batch(
    alloc: Global,
    table: &mut BTreeMap<Blob, Blob>,
    pieces: &[Piece],
    link: &LoadedLink,
    batch: &Batch,
    upto: u64,
) -> Result<(), AllocError>
    requires { spec.AreLine pieces.now }
    ensures { OnOk result
        (Leaves (λ key old.
        if spec.is_due (spec.since pieces.now key) link.now upto batch.now.version
        then effects link.now.limit batch.now.muts key old else old) table.old table.new) }
{
    if !gives(link, upto, batch.version) {
        return Ok(());
    }
    make_all(alloc, table, pieces, batch, link.limit)
}

/// Whether the link gives a version, and the version is up to the last.
fn gives(link: &LoadedLink, upto: u64, version: u64) -> bool
    ensures { result ≡ spec.gives link.now upto version }
{
    link.from <= version && version < link.to && version <= upto
}

/// Makes the mutations of a batch at the keys of the files that are older.
fn make_all(
    alloc: Global,
    table: &mut BTreeMap<Blob, Blob>,
    pieces: &[Piece],
    batch: &Batch,
    limit: usize,
) -> Result<(), AllocError>
    requires { spec.AreLine pieces.now }
    ensures { OnOk result
        (Leaves (λ key.
        spec.effects_if (spec.is_older (spec.since pieces.now key) batch.now.version) limit
        batch.now.muts key) table.old table.new) }
{
    for mutation in batch.muts.as_slice() {
        make(alloc, table, pieces, batch.version, mutation, limit)?;
    }
    Ok(())
}

fn make(
    alloc: Global,
    table: &mut BTreeMap<Blob, Blob>,
    pieces: &[Piece],
    version: u64,
    mutation: &Mutation,
    limit: usize,
) -> Result<(), AllocError>
    requires { spec.AreLine pieces.now }
    ensures { OnOk result
        (Leaves (λ key old. if spec.is_older (spec.since pieces.now key) version
        then effect limit mutation.now key old else old) table.old table.new) }
{
    match mutation {
        Mutation::Set { key, value } => set(table, pieces, version, key, value),
        Mutation::ClearRange { begin, end } => clear_older(table, pieces, version, begin, end),
        Mutation::Atomic { op, key, param } => {
            if !is_older(pieces, key.as_slice(), version) {
                return Ok(());
            }
            operate(alloc, table, *op, key, param, limit)
        }
    }
}

/// Gives a key a value, if it is in a file that is older.
fn set(
    table: &mut BTreeMap<Blob, Blob>,
    pieces: &[Piece],
    version: u64,
    key: &Blob,
    value: &Blob,
) -> Result<(), AllocError>
    requires { spec.AreLine pieces.now }
    ensures { OnOk result
        (Leaves (λ at old. if spec.is_older (spec.since pieces.now at) version
        then (if is_same key.now at then Some value.now else old) else old) table.old table.new) }
{
    if !is_older(pieces, key.as_slice(), version) {
        return Ok(());
    }
    let value = value.copy()?;
    write(table, key, Some(value))
}

/// Gives a key what an operation leaves.
fn operate(
    alloc: Global,
    table: &mut BTreeMap<Blob, Blob>,
    op: Op,
    key: &Blob,
    param: &Blob,
    limit: usize,
) -> Result<(), AllocError>
    ensures { OnOk result
        (Leaves (λ at old. if is_same key.now at then operation op old param.now limit
        else old) table.old table.new) }
{
    let left = operated(alloc, table, op, key, param, limit)?;
    write(table, key, left)
}

/// What an operation leaves at a key.
fn operated(
    alloc: Global,
    table: &BTreeMap<Blob, Blob>,
    op: Op,
    key: &Blob,
    param: &Blob,
    limit: usize,
) -> Result<Option<Blob>, AllocError>
    ensures { IfOk result (λ left. left ≡ operation op (found table.now key.now) param.now limit) }
{
    let old = value(table, key);
    let left = atomic_ops::apply(alloc, op, old, param.as_slice(), limit)?;
    Ok(blob_of(left))
}

fn blob_of(bytes: Option<Vec<u8>>) -> Option<Blob>
    ensures { result ≡ bytes_left bytes }
{
    match bytes {
        Some(bytes) => Some(Blob::from_vec(bytes)),
        None => None,
    }
}
