//! The lines of the reads of a try.

ghost use Rattle.std.specs.Prelude.{◌≡◌, [], ◌∷◌, ◌++◌, codes, OnOk};
ghost use Rattle.std.specs.List.{flat_map};
ghost use Rattle.fb_bytes.specs.Words.{printed};
ghost use Rattle.report_text.specs.Lines.{line};
ghost use Rattle.report_text.specs.Outcomes as spec;

use crate::entries::put_pair;
use crate::words::{put, put_bytes};
use database::Found;
use fb_bytes::{Blob, Pair};
use mutations::TxOp;
use std::alloc::{AllocError, Global};

/// The reads among operations, and what each found.
pub fn put_reads(
    alloc: Global,
    out: &mut Blob,
    ops: &[TxOp],
    found: &[Found],
) -> Result<(), AllocError>
    ensures { OnOk result (out.new ≡ out.old ++ spec.reads_lines ops.now found.now) }
{
    // Most tries read nothing: their operations needn't be looked at.
    if found.is_empty() {
        return Ok(());
    }
    let mut rest = found;
    for op in ops {
        if let TxOp::Write(_) = op {
            continue;
        }
        let Some((first, others)) = rest.split_first() else {
            return Ok(());
        };
        put_read(alloc, out, op, first)?;
        rest = others;
    }
    Ok(())
}

fn put_read(alloc: Global, out: &mut Blob, op: &TxOp, found: &Found) -> Result<(), AllocError>
    ensures { OnOk result (out.new ≡ out.old ++ spec.read_lines op.now found.now) }
{
    match (op, found) {
        (TxOp::Get { key }, Found::One(value)) => put_value(alloc, out, b"get", key, value),
        (TxOp::SnapshotGet { key }, Found::One(value)) => {
            put_value(alloc, out, b"sget", key, value)
        }
        (TxOp::Scan { range, .. }, Found::Many(pairs)) => {
            put_pair(alloc, out, b"scan", &range.begin, &range.end)?;
            put_pairs(alloc, out, pairs.as_slice())
        }
        _ => Ok(()),
    }
}

fn put_value(
    alloc: Global,
    out: &mut Blob,
    word: &[u8],
    key: &Blob,
    value: &Option<Blob>,
) -> Result<(), AllocError>
    ensures { OnOk result (out.new ≡ out.old ++ spec.value_line word.now key.now value.now) }
{
    match value {
        Some(value) => put_pair(alloc, out, word, key, value),
        None => put_key(alloc, out, word, key),
    }
}

fn put_key(alloc: Global, out: &mut Blob, word: &[u8], key: &Blob) -> Result<(), AllocError>
    ensures { OnOk result (out.new ≡ out.old ++ line (word.now ∷ printed key.now ∷ [])) }
{
    put(out, word)?;
    put(out, b" ")?;
    put_bytes(alloc, out, key.as_slice())?;
    put(out, b"\n")
}

fn put_pairs(alloc: Global, out: &mut Blob, pairs: &[Pair]) -> Result<(), AllocError>
    ensures { OnOk result (out.new ≡ out.old ++ flat_map spec.pair_line pairs.now) }
{
    for pair in pairs {
        put_pair(alloc, out, b"got", &pair.key, &pair.value)?;
    }
    Ok(())
}
