ghost use Rattle.std.specs.Prelude.{◌≡◌, [], IfOk, option_copied};
ghost use Rattle.restore_apply.specs.Overlaps as spec;
ghost use Rattle.restore_apply.specs.inner.Overlaps as inner;

use crate::LoadedFile;
use crate::order::ordered;
use fb_bytes::KeyRange;
use std::alloc::{AllocError, Global};

/// The place of a file, counted from 0, and its range.
#[derive(Debug, Drop)]
pub struct At {
    pub place: usize,
    pub range: KeyRange,
}

/// In the order of the begin keys, equal ones as they stand, the first file whose range overlaps that
/// of one before it.
pub fn overlap(alloc: Global, files: &[LoadedFile]) -> Result<Option<At>, AllocError>
    ensures { IfOk result (λ at. at ≡ spec.first_overlap files.now) }
{
    let order = ordered(alloc, files)?;
    first_overlap(&order)
}

/// The first range that overlaps one before it.
pub(crate) fn first_overlap(order: &[At]) -> Result<Option<At>, AllocError>
    requires { inner.AreOrdered order.now }
    ensures { IfOk result (λ at. at ≡ spec.overlapping [] order.now) }
{
    // The last one that has keys reaches furthest, as no two overlap so far.
    let mut last = None;
    for at in order {
        if overlaps_last(&at.range, last) {
            let at = at.copy()?;
            return Ok(Some(at));
        }
        last = further(&at.range, last);
    }
    Ok(None)
}

fn overlaps_last(range: &KeyRange, last: Option<&KeyRange>) -> bool
    ensures { result ≡ inner.overlaps_last range.now (option_copied last.entry) }
{
    match last {
        Some(last) => range.overlaps(last),
        None => false,
    }
}

fn further<'a>(range: &'a KeyRange, last: Option<&'a KeyRange>) -> Option<&'a KeyRange>
    ensures { option_copied result ≡ inner.further range.now (option_copied last.entry) }
{
    if range.is_backwards() {
        last
    } else {
        Some(range)
    }
}

impl At {
    /// An equal one with memory of its own.
    pub fn copy(&self) -> Result<Self, AllocError>
        ensures { IfOk result (λ at. at ≡ self.now) }
    {
        let range = self.range.copy()?;
        Ok(At {
            place: self.place,
            range,
        })
    }
}
