ghost use Rattle.std.specs.Prelude.{◌≡◌, ◌⊎◌, Some, None, IfOk, IfErr};
ghost use Rattle.fb_bytes.specs.Bytes.{Bytes};
ghost use Rattle.fb_bytes.specs.Pairs.{value_of};
ghost use Rattle.restore_apply.specs.Loaded.{loaded_at};
ghost use Rattle.restore_apply.specs.Overlaps as spec;
ghost use Rattle.restore_apply.specs.declared.meaning.LoadFault.TheVariants as faults;

use crate::order::ordered;
use crate::overlaps::first_overlap;
use crate::pieces::{oldest, pieces_of};
use crate::replay::{replay, some_past};
use crate::stored::stored;
use crate::table::{pairs_of, table_of};
use crate::{At, Loaded};
use fb_bytes::{Blob, Pairs};
use std::alloc::{AllocError, AllocFailed, Global};

/// Why loaded files have no meaning.
#[derive(Debug, Drop)]
pub enum LoadFault {
    /// In the order of the begin keys, the first file that overlaps one before it begins at this key.
    Overlap { key: Blob },
    /// There was no memory.
    NoMemory,
}

impl From<AllocError> for LoadFault {
    ghost from_gives = { λ _ e. e ≡ faults.NoMemory };

    fn from(_: AllocError) -> Self {
        LoadFault::NoMemory
    }
}

impl<T: Drop> From<AllocFailed<T>> for LoadFault {
    ghost from_gives = { λ _ e. e ≡ faults.NoMemory };

    fn from(_: AllocFailed<T>) -> Self {
        LoadFault::NoMemory
    }
}

/// The pairs that the files say at a version.
pub fn whole(alloc: Global, set: &Loaded, version: u64) -> Result<Pairs, LoadFault>
    ensures apart { IfOk result (λ _. spec.first_overlap set.now.files ≡ None) }
    ensures pairs { IfOk result (λ pairs. (key : Bytes)
        → value_of pairs key ≡ loaded_at set.now version key) }
    ensures err { IfErr result (λ fault. (fault ≡ faults.NoMemory)
        ⊎ ((at : spec.At) × (spec.first_overlap set.now.files ≡ Some at)
        × (fault ≡ faults.Overlap at.range.begin))) }
{
    let order = ordered(alloc, set.files.as_slice())?;
    if let Some(at) = first_overlap(&order)? {
        let key = at.range.begin;
        return Err(LoadFault::Overlap { key });
    }
    let pairs = pairs_in(alloc, set, order, version)?;
    Ok(pairs)
}

/// The pairs that files say at a version, no two of which overlap.
pub fn pairs_at(alloc: Global, set: &Loaded, version: u64) -> Result<Pairs, AllocError>
    requires { spec.first_overlap set.now.files ≡ None }
    ensures { IfOk result (λ pairs. (key : Bytes)
        → value_of pairs key ≡ loaded_at set.now version key) }
{
    let order = ordered(alloc, set.files.as_slice())?;
    pairs_in(alloc, set, order, version)
}

/// The pairs of files whose ranges stand in the order of their begin keys.
fn pairs_in(alloc: Global, set: &Loaded, order: Vec<At>, version: u64) -> Result<Pairs, AllocError>
    requires order { order.items ≡ spec.in_order (spec.numbered 0 set.now.files) }
    requires apart { spec.first_overlap set.now.files ≡ None }
    ensures { IfOk result (λ pairs. (key : Bytes)
        → value_of pairs key ≡ loaded_at set.now version key) }
{
    let files = set.files.as_slice();
    let links = set.links.as_slice();
    let pairs = stored(alloc, files, &order)?;
    let pieces = pieces_of(alloc, files, order)?;
    if !some_past(links, oldest(&pieces), version) {
        return Ok(pairs);
    }
    let mut table = table_of(alloc, pairs)?;
    replay(alloc, &mut table, &pieces, links, version)?;
    pairs_of(alloc, table)
}
