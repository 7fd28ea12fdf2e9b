//! The ranges of a job, as a line lists them.

ghost use Rattle.std.specs.Prelude.{◌≡◌, IfOk, not};
ghost use Rattle.fb_bytes.specs.Keys.{is_backwards, is_past_user};
ghost use Rattle.std.specs.List.{list_all};
ghost use Rattle.workload_text.specs.Commands.{is_short};
ghost use Rattle.fb_bytes.specs.Results.{GivesBut};
ghost use Rattle.workload_text.specs.declared.line_fault.LineFault.TheVariants.{NoMemory};
ghost use Rattle.workload_text.specs.Texts.{words_of};
ghost use Rattle.workload_text.specs.Lines as spec;

use crate::TextKind;
use crate::line_fault::LineFault;
use crate::pieces::first_word;
use crate::words::range_of;
use fb_bytes::{Blob, KeyRange, Ranges, Seq};
use std::alloc::{AllocError, Global};

/// The end of the user space.
const USER_END: &[u8; 1] = &[0xff];

/// The most ranges of a job.
const MOST_RANGES: usize = 1_000;

/// The ranges of a job, joined; without words the whole user space.
pub fn job_ranges(alloc: Global, limit: usize, words: &[u8]) -> Result<Ranges, LineFault>
    ensures { GivesBut NoMemory (λ ranges. ranges) result
        (spec.job_ranges limit (words_of words.now)) }
{
    let list = list_of(alloc, words)?;
    let list = or_whole_space(alloc, list)?;
    check_ranges(limit, MOST_RANGES, list.as_slice())?;
    // Nothing but want of memory is left to refuse them.
    let Ok(ranges) = Ranges::build(alloc, list.as_slice()) else {
        return Err(LineFault::NoMemory);
    };
    Ok(ranges)
}

/// The list, or the whole user space where it is empty.
fn or_whole_space(alloc: Global, mut list: Seq<KeyRange>) -> Result<Seq<KeyRange>, AllocError>
    ensures { IfOk result (λ ranges. ranges ≡ spec.or_whole_space list) }
{
    if list.is_empty() {
        list.push(whole_space(alloc)?)?;
    }
    Ok(list)
}

fn whole_space(alloc: Global) -> Result<KeyRange, AllocError>
    ensures { IfOk result (λ range. range ≡ spec.whole_space) }
{
    let end = Blob::from_slice(alloc, USER_END)?;
    Ok(KeyRange {
        begin: Blob::new(alloc),
        end,
    })
}

/// The ranges that words spell, two for each.
fn list_of(alloc: Global, words: &[u8]) -> Result<Seq<KeyRange>, LineFault>
    ensures { GivesBut NoMemory (λ list. list) result (spec.list_of (words_of words.now)) }
{
    let mut list = Seq::new(alloc);
    let mut rest = words;
    'pairs: while let Some((begin, after)) = first_word(rest) {
        let Some((end, after)) = first_word(after) else {
            return Err(LineFault::Refused(TextKind::Count));
        };
        let range = range_of(alloc, begin, end)?;
        list.push(range)?;
        rest = after;
    }
    Ok(list)
}

/// Refuses ranges that the operator may not name, or more than so many.
pub fn check_ranges(limit: usize, most: usize, ranges: &[KeyRange]) -> Result<(), LineFault>
    ensures { GivesBut NoMemory (λ _. ranges.now) result
        (spec.allowed_ranges limit most ranges.now) }
{
    if !are_short(limit, ranges) {
        return Err(LineFault::Refused(TextKind::Long));
    }
    if !are_forward(ranges) {
        return Err(LineFault::Refused(TextKind::Backwards));
    }
    if !are_user(ranges) {
        return Err(LineFault::Refused(TextKind::Past));
    }
    if ranges.len() > most {
        return Err(LineFault::Refused(TextKind::Many));
    }
    Ok(())
}

fn are_short(limit: usize, ranges: &[KeyRange]) -> bool
    ensures { result ≡ list_all (is_short limit) ranges.now }
{
    ranges.iter().all(|range| is_short(limit, range))
}

fn are_forward(ranges: &[KeyRange]) -> bool
    ensures { result ≡ list_all (λ range. not (is_backwards range)) ranges.now }
{
    ranges.iter().all(|range| !range.is_backwards())
}

fn are_user(ranges: &[KeyRange]) -> bool
    ensures { result ≡ list_all (λ range. not (is_past_user range)) ranges.now }
{
    ranges.iter().all(|range| !range.is_past_user())
}

/// Whether both ends of the range are within a limit on keys.
fn is_short(limit: usize, range: &KeyRange) -> bool
    ensures { result ≡ is_short limit range.now }
{
    range.begin.len() <= limit && range.end.len() <= limit
}
