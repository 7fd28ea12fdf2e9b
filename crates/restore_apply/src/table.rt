//! The values of keys while batches are made on them.

ghost use Rattle.std.specs.Prelude.{◌≡◌, true, Some, None, IfOk, OnOk, IsSome, MatchOption, option_copied, if◌then◌else◌};
ghost use Rattle.fb_bytes.specs.Bytes.{Bytes, is_same};
ghost use Rattle.fb_bytes.specs.Keys.{holds};
ghost use Rattle.fb_bytes.specs.Pairs.{value_of};
ghost use Rattle.mutations.specs.Effects.{range_of};
ghost use Rattle.restore_apply.specs.inner.Tables.{found, paired, Leaves};

use fb_bytes::{Blob, Pair, Pairs, is_below};
use std::alloc::{AllocError, Global};
use std::collections::BTreeMap;

/// A table of pairs.
pub(crate) fn table_of(alloc: Global, pairs: Pairs) -> Result<BTreeMap<Blob, Blob>, AllocError>
    ensures { IfOk result (λ table. (key : Bytes) → found table key ≡ value_of pairs key) }
{
    let entries = entries_of(alloc, pairs.into_vec())?;
    // They are in order, so no place is looked for.
    BTreeMap::from_iter(alloc, entries)
}

fn entries_of(alloc: Global, pairs: Vec<Pair>) -> Result<Vec<(Blob, Blob)>, AllocError>
    ensures { IfOk result (λ entries. paired entries.items ≡ pairs.items) }
{
    let mut entries = Vec::with_capacity(alloc, pairs.len())?;
    for pair in pairs {
        entries.push((pair.key, pair.value))?;
    }
    Ok(entries)
}

/// The value of a key.
pub(crate) fn value<'a>(table: &'a BTreeMap<Blob, Blob>, key: &Blob) -> Option<&'a [u8]>
    ensures { option_copied result ≡ found table.now key.now }
{
    match table.get(key) {
        Some(value) => Some(value.as_slice()),
        None => None,
    }
}

/// Gives a key a value, or takes its value away.
pub(crate) fn write(
    table: &mut BTreeMap<Blob, Blob>,
    key: &Blob,
    value: Option<Blob>,
) -> Result<(), AllocError>
    ensures { OnOk result
        (Leaves (λ at old. if is_same key.now at then value else old) table.old table.new) }
{
    match value {
        Some(value) => put(table, key, value),
        None => {
            table.remove(key);
            Ok(())
        }
    }
}

fn put(table: &mut BTreeMap<Blob, Blob>, key: &Blob, value: Blob) -> Result<(), AllocError>
    ensures { OnOk result
        (Leaves (λ at old. if is_same key.now at then Some value else old) table.old table.new) }
{
    let key = key.copy()?;
    table.insert(key, value)?;
    Ok(())
}

/// Takes the values of the keys of a range away.
pub(crate) fn clear(
    table: &mut BTreeMap<Blob, Blob>,
    begin: &Blob,
    end: &Blob,
) -> Result<(), AllocError>
    ensures { OnOk result
        (Leaves (λ key old. if holds (range_of begin.now end.now) key then None
        else old) table.old table.new) }
{
    while let Some(key) = first_in(table, begin, end)? {
        table.remove(&key);
    }
    Ok(())
}

// The first key of a range that has a value.
fn first_in(
    table: &BTreeMap<Blob, Blob>,
    begin: &Blob,
    end: &Blob,
) -> Result<Option<Blob>, AllocError>
    ensures { IfOk result (λ first. MatchOption first
        ((key : Bytes) → holds (range_of begin.now end.now) key ≡ true → found table.now key ≡ None)
        (λ key. (holds (range_of begin.now end.now) key ≡ true) × IsSome (found table.now key))) }
{
    if !is_below(begin.as_slice(), end.as_slice()) {
        return Ok(None);
    }
    match table.range(begin..end).next() {
        Some((key, _)) => {
            let key = key.copy()?;
            Ok(Some(key))
        }
        None => Ok(None),
    }
}

/// The pairs of a table.
pub(crate) fn pairs_of(alloc: Global, table: BTreeMap<Blob, Blob>) -> Result<Pairs, AllocError>
    ensures { IfOk result (λ pairs. (key : Bytes) → value_of pairs key ≡ found table key) }
{
    let mut pairs = Vec::with_capacity(alloc, table.len())?;
    for (key, value) in table {
        pairs.push(Pair { key, value })?;
    }
    Ok(Pairs::from_vec(pairs))
}
