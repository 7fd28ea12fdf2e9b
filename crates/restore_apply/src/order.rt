//! Ranges in the order of their begin keys.

ghost use Rattle.std.specs.Prelude.{◌≡◌, IfOk};
ghost use Rattle.restore_apply.specs.Loaded as loaded;
ghost use Rattle.restore_apply.specs.Overlaps.{in_order, numbered};
ghost use Rattle.restore_apply.specs.inner.Overlaps.{AreOrdered};

use crate::{At, LoadedFile};
use fb_bytes::KeyRange;
use std::alloc::{AllocError, Global};

/// The files' ranges with their places, in the order of the begin keys, equal ones as they stand.
pub(crate) fn ordered(alloc: Global, files: &[LoadedFile]) -> Result<Vec<At>, AllocError>
    ensures same { IfOk result (λ order. order.items ≡ in_order (numbered 0 files.now)) }
    ensures ordered { IfOk result (λ order. AreOrdered order.items) }
{
    let mut order = places_of(alloc, files)?;
    order.sort_by(|a, b| a.range.begin.cmp(&b.range.begin))?;
    Ok(order)
}

fn places_of(alloc: Global, files: &[LoadedFile]) -> Result<Vec<At>, AllocError>
    ensures { IfOk result (λ places. places.items ≡ numbered 0 files.now) }
{
    let mut places = Vec::with_capacity(alloc, files.len())?;
    for (place, file) in files.iter().enumerate() {
        let range = range_of(file)?;
        places.push(At { place, range })?;
    }
    Ok(places)
}

fn range_of(file: &LoadedFile) -> Result<KeyRange, AllocError>
    ensures { IfOk result (λ range. range ≡ loaded.range_of file.now) }
{
    let begin = file.body.begin.copy()?;
    let end = file.body.end.copy()?;
    Ok(KeyRange { begin, end })
}
