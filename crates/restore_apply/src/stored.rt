//! The pairs of the files, in the order of their keys.

ghost use Rattle.std.specs.Prelude.{◌≡◌, ◌++◌, None, IfOk, OnOk};
ghost use Rattle.fb_bytes.specs.Bytes.{Bytes};
ghost use Rattle.fb_bytes.specs.Pairs.{value_of, AreRising};
ghost use Rattle.restore_apply.specs.inner.Loaded.{stored_at};
ghost use Rattle.restore_apply.specs.Overlaps.{in_order, numbered, first_overlap};
ghost use Rattle.restore_apply.specs.inner.Stored as spec;

use crate::{At, LoadedFile};
use fb_bytes::{KeyRange, Pair, Pairs};
use std::alloc::{AllocError, Global};

/// The pairs of files whose ranges stand in order, as far as the ranges hold the keys.
pub(crate) fn stored(alloc: Global, files: &[LoadedFile], order: &[At]) -> Result<Pairs, AllocError>
    requires order { order.now ≡ in_order (numbered 0 files.now) }
    requires apart { first_overlap files.now ≡ None }
    ensures { IfOk result (λ pairs. (key : Bytes) → value_of pairs key ≡ stored_at files.now key) }
{
    let pairs = joined(alloc, files, order)?;
    Ok(Pairs::from_vec(pairs))
}

/// The pairs of files at places, one file after the other.
fn joined(alloc: Global, files: &[LoadedFile], order: &[At]) -> Result<Vec<Pair>, AllocError>
    ensures pairs { IfOk result (λ pairs. pairs.items ≡ spec.stored files.now order.now) }
    ensures rising { OnOk result (spec.EachIsRising files.now order.now) }
{
    let mut pairs = Vec::new(alloc);
    for at in order {
        let Some(file) = files.get(at.place) else {
            continue;
        };
        add(&mut pairs, &at.range, &file.body.pairs)?;
    }
    Ok(pairs)
}

/// Adds the pairs whose keys the range holds.
fn add(pairs: &mut Vec<Pair>, range: &KeyRange, more: &Pairs) -> Result<(), AllocError>
    ensures pairs { OnOk result
        (pairs.new.items ≡ pairs.old.items ++ spec.kept range.now more.now) }
    ensures rising { AreRising more.now }
{
    let more = more.as_slice();
    pairs.reserve(more.len())?;
    for pair in more {
        if !range.contains(pair.key.as_slice()) {
            continue;
        }
        let pair = pair.copy()?;
        pairs.push(pair)?;
    }
    Ok(())
}
