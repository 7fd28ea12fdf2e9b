ghost use Rattle.std.specs.Prelude.{◌≡◌, ◌+◌, ◌<◌, ◌^◌};
ghost use Rattle.fb_bytes.specs.Bytes.{is_below, is_same};
ghost use Rattle.fb_bytes.specs.Options.{first_place};
ghost use Rattle.mutations.specs.Transactions.{tx_fault, is_outside, is_key_long, is_value_long, is_write_outside, is_write_key_long, is_write_value_long, is_system_key, is_system_range, is_long, is_end_of_one, write_bytes, written_bytes};

use crate::{Mutation, TxOp};
use fb_bytes::{is_below, is_same};

/// The most bytes that the writes of a transaction may have.
const MOST_WRITTEN: u128 = 10_000_000;

/// What a transaction's own keys and values say against it. Operations are counted from 0.
#[derive(Clone, Copy, Debug, PartialEq, Eq)]
pub enum TxFault {
    /// A key isn't a user's, or a range's end is past the user space.
    Outside { index: usize },
    /// A key is longer than the limit on keys.
    KeyTooLarge { index: usize },
    /// A value or a parameter is longer than the limit on values.
    ValueTooLarge { index: usize },
    /// The writes have more than 10,000,000 bytes.
    TooLarge { bytes: u128 },
}

/// The first fault of a transaction by the limits on keys and on values. It takes no memory.
pub fn fault_of(ops: &[TxOp], key_limit: usize, value_limit: usize) -> Option<TxFault>
    ensures { result ≡ tx_fault key_limit value_limit ops.now }
{
    if let Some(index) = first_outside(ops) {
        return Some(TxFault::Outside { index });
    }
    if let Some(index) = first_long_key(ops, key_limit) {
        return Some(TxFault::KeyTooLarge { index });
    }
    if let Some(index) = first_long_value(ops, value_limit) {
        return Some(TxFault::ValueTooLarge { index });
    }
    let bytes = bytes_of_writes(ops);
    if bytes > MOST_WRITTEN {
        return Some(TxFault::TooLarge { bytes });
    }
    None
}

fn first_outside(ops: &[TxOp]) -> Option<usize>
    ensures { result ≡ first_place is_outside ops.now }
{
    for (index, op) in ops.iter().enumerate() {
        if is_outside(op) {
            return Some(index);
        }
    }
    None
}

fn first_long_key(ops: &[TxOp], limit: usize) -> Option<usize>
    ensures { result ≡ first_place (is_key_long limit) ops.now }
{
    for (index, op) in ops.iter().enumerate() {
        if is_key_long(op, limit) {
            return Some(index);
        }
    }
    None
}

fn first_long_value(ops: &[TxOp], limit: usize) -> Option<usize>
    ensures { result ≡ first_place (is_value_long limit) ops.now }
{
    for (index, op) in ops.iter().enumerate() {
        if is_value_long(op, limit) {
            return Some(index);
        }
    }
    None
}

fn bytes_of_writes(ops: &[TxOp]) -> u128
    ensures { result ≡ written_bytes ops.now }
{
    let mut bytes = 0u128;
    for op in ops {
        if let TxOp::Write(mutation) = op {
            bytes += bytes_of_write(mutation);
        }
    }
    bytes
}

fn bytes_of_write(mutation: &Mutation) -> u128
    ensures sum { result ≡ write_bytes mutation.now }
    ensures small { result < 2 ^ 65 }
{
    match mutation {
        Mutation::Set { key, value } => key.len() as u128 + value.len() as u128,
        Mutation::ClearRange { begin, end } => begin.len() as u128 + end.len() as u128,
        Mutation::Atomic { key, param, .. } => key.len() as u128 + param.len() as u128,
    }
}

fn is_outside(op: &TxOp) -> bool
    ensures { result ≡ is_outside op.now }
{
    match op {
        TxOp::Get { key } | TxOp::SnapshotGet { key } => is_system_key(key.as_slice()),
        TxOp::Scan { range, .. } => is_system_range(range.begin.as_slice(), range.end.as_slice()),
        TxOp::Write(mutation) => is_write_outside(mutation),
    }
}

fn is_write_outside(mutation: &Mutation) -> bool
    ensures { result ≡ is_write_outside mutation.now }
{
    match mutation {
        Mutation::Set { key, .. } | Mutation::Atomic { key, .. } => is_system_key(key.as_slice()),
        Mutation::ClearRange { begin, end } => is_system_range(begin.as_slice(), end.as_slice()),
    }
}

fn is_system_range(begin: &[u8], end: &[u8]) -> bool
    ensures { result ≡ is_system_range begin.now end.now }
{
    is_system_key(begin) || is_below([255].as_slice(), end)
}

fn is_system_key(key: &[u8]) -> bool
    ensures { result ≡ is_system_key key.now }
{
    !is_below(key, [255].as_slice())
}

fn is_key_long(op: &TxOp, limit: usize) -> bool
    ensures { result ≡ is_key_long limit op.now }
{
    match op {
        TxOp::Get { key } | TxOp::SnapshotGet { key } => key.len() > limit,
        TxOp::Scan { range, .. } => range.begin.len() > limit || range.end.len() > limit,
        TxOp::Write(mutation) => is_write_key_long(mutation, limit),
    }
}

fn is_write_key_long(mutation: &Mutation, limit: usize) -> bool
    ensures { result ≡ is_write_key_long limit mutation.now }
{
    match mutation {
        Mutation::Set { key, .. } | Mutation::Atomic { key, .. } => key.len() > limit,
        Mutation::ClearRange { begin, end } => {
            let end_counts = !is_end_of_one(begin.as_slice(), end.as_slice());
            begin.len() > limit || end_counts && end.len() > limit
        }
    }
}

fn is_end_of_one(begin: &[u8], end: &[u8]) -> bool
    ensures { result ≡ is_end_of_one begin.now end.now }
{
    match end.split_last() {
        Some((last, front)) => is_same(front, begin) && *last == 0,
        None => false,
    }
}

fn is_value_long(op: &TxOp, limit: usize) -> bool
    ensures { result ≡ is_value_long limit op.now }
{
    match op {
        TxOp::Write(mutation) => is_write_value_long(mutation, limit),
        TxOp::Get { .. } | TxOp::SnapshotGet { .. } | TxOp::Scan { .. } => false,
    }
}

fn is_write_value_long(mutation: &Mutation, limit: usize) -> bool
    ensures { result ≡ is_write_value_long limit mutation.now }
{
    match mutation {
        Mutation::Set { value, .. } => value.len() > limit,
        Mutation::Atomic { param, .. } => param.len() > limit,
        Mutation::ClearRange { .. } => false,
    }
}
