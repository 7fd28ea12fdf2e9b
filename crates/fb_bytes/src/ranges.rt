ghost use Rattle.std.specs.List.{prefix_len};
ghost use Rattle.std.specs.Prelude.{◌≡◌, ◌↔◌, List, [], length, position, IsTrue, None, IfOk, IsOkUnless, MatchOption};
ghost use Rattle.fb_bytes.specs.Bytes.{Bytes};
ghost use Rattle.fb_bytes.specs.Keys.{KeysTellRanges, AreRanges, AreSeparate, in_ranges, is_backwards, is_past_user};
ghost use Rattle.fb_bytes.specs.inner.Keys.{is_passed};
ghost use Rattle.fb_bytes.specs.Joining as spec;
ghost use Rattle.fb_bytes.specs.Options.{first_place};
ghost use Rattle.fb_bytes.specs.RangeFaults.{range_fault};

use crate::joining::add_range;
use crate::{KeyRange, RangeFault, is_below};
use std::alloc::{AllocError, Global};
use std::marker::Model;

/// How many ranges a job may have.
const MOST_RANGES: usize = 1000;

/// Ranges of user keys in byte order, none empty, of which no two overlap or touch, and at most
/// 1,000 of them.
#[derive(Debug, Drop)]
pub struct Ranges {
    ranges: Vec<KeyRange>,
}

impl Model for Ranges {
    ghost use Rattle.std.specs.Prelude.{List};
    ghost use Rattle.fb_bytes.specs.declared.key_range.KeyRange.{KeyRange};

    ghost Value = { List KeyRange };

    ghost use Rattle.fb_bytes.specs.Keys.{AreRanges};

    ghost view = { λ r. r.ranges.items };

    ghost invariant = { λ r. AreRanges r.ranges.items };
}

impl Ranges {
    /// The keys of all the ranges of the list. Those that overlap or touch are joined.
    pub fn build(alloc: Global, list: &[KeyRange]) -> Result<Self, RangeFault>
        ensures union { IfOk result (λ ranges. (key : Bytes)
            → in_ranges ranges key ≡ in_ranges list.now key) }
        ensures joined { IfOk result (λ ranges. ranges ≡ spec.joined list.now) }
        // A list with a fault is refused for that fault, before any memory is asked for. Any other is taken.
        ensures refused { MatchOption (range_fault list.now) (IsOkUnless result RangeFault.NoMemory)
            (λ fault. result ≡ Err fault) }
    {
        if let Some(fault) = first_fault(list) {
            return Err(fault);
        }
        let ranges = joined(alloc, list)?;
        Ok(Ranges { ranges })
    }

    /// The same ranges, with no copy.
    pub fn from_vec(ranges: Vec<KeyRange>) -> Self
        requires { AreRanges ranges.items }
        ensures { result ≡ ranges.items }
    {
        Ranges { ranges }
    }

    /// The same ranges, with no copy.
    pub fn into_vec(self) -> Vec<KeyRange>
        ensures same { result.items ≡ self }
        ensures ranges { AreRanges self }
    {
        let Ranges { ranges } = self;
        ranges
    }

    pub fn as_slice(&self) -> &[KeyRange]
        ensures same { result.now ≡ self.now }
        ensures ranges { AreRanges self.now }
    {
        &self.ranges
    }

    pub fn len(&self) -> usize
        ensures { result ≡ length self.now }
    {
        self.ranges.len()
    }

    pub fn is_empty(&self) -> bool
        ensures { IsTrue result ↔ (self.now ≡ []) }
    {
        self.ranges.is_empty()
    }

    /// Whether some range has the key. It takes no memory.
    pub fn contains(&self, key: &[u8]) -> bool
        ensures { result ≡ in_ranges self.now key.now }
    {
        let ranges = self.ranges.as_slice();
        let place = ranges_before(ranges, key);
        if place < ranges.len() {
            ranges[place].contains(key)
        } else {
            false
        }
    }

    /// An equal list with memory of its own.
    pub fn copy(&self) -> Result<Self, AllocError>
        ensures { IfOk result (λ ranges. ranges ≡ self.now) }
    {
        let mut ranges = Vec::with_capacity(*self.ranges.allocator(), self.ranges.len())?;
        for range in &self.ranges {
            let range = range.copy()?;
            ranges.push(range)?;
        }
        Ok(Ranges { ranges })
    }
}

// How many ranges at the front the key is past.
fn ranges_before(ranges: &[KeyRange], key: &[u8]) -> usize
    requires { AreSeparate ranges.now }
    ensures { result ≡ prefix_len (is_passed key.now) ranges.now }
{
    ranges.partition_point(|range| !is_below(key, range.end.as_slice()))
}

fn first_fault(list: &[KeyRange]) -> Option<RangeFault>
    ensures { result ≡ range_fault list.now }
{
    if list.is_empty() {
        return Some(RangeFault::Empty);
    }
    let count = list.len();
    if count > MOST_RANGES {
        return Some(RangeFault::TooMany { count });
    }
    if let Some(index) = first_backwards(list) {
        return Some(RangeFault::Backwards { index });
    }
    if let Some(index) = first_past_user(list) {
        return Some(RangeFault::PastUser { index });
    }
    None
}

fn first_backwards(list: &[KeyRange]) -> Option<usize>
    ensures { result ≡ position is_backwards list.now }
{
    list.iter().position(|range| range.is_backwards())
}

fn first_past_user(list: &[KeyRange]) -> Option<usize>
    ensures { result ≡ position is_past_user list.now }
{
    list.iter().position(|range| range.is_past_user())
}

fn joined(alloc: Global, list: &[KeyRange]) -> Result<Vec<KeyRange>, AllocError>
    requires { range_fault list.now ≡ None }
    ensures union { IfOk result (λ ranges. (key : Bytes) → in_ranges ranges.items key
        ≡ in_ranges list.now key) }
    ensures joined { IfOk result (λ ranges. ranges.items ≡ spec.joined list.now) }
    ensures ranges { IfOk result (λ ranges. AreRanges ranges.items) }
{
    let mut ranges = Vec::new(alloc);
    for range in list {
        ranges = add_range(alloc, ranges, range.copy()?)?;
    }
    Ok(ranges)
}

/// Ranges in order are determined by the keys that they have.
pub fn one_list()
    ensures { KeysTellRanges }
{}
