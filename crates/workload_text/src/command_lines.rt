//! Lines of the operator.

ghost use Rattle.fb_bytes.specs.Results.{GivesBut};
ghost use Rattle.workload_text.specs.declared.line_fault.LineFault.TheVariants.{NoMemory};
ghost use Rattle.workload_text.specs.Texts.{words_of};
ghost use Rattle.workload_text.specs.Lines as spec;
ghost use Rattle.workload_text.specs.Words.{mode_of};

use crate::counts::{are_paired, four_words, next_word, no_words, one_word, three_words};
use crate::line::Line;
use crate::line_fault::LineFault;
use crate::numbers::{any_number, two_numbers};
use crate::pieces::first_word;
use crate::ranges::{check_ranges, job_ranges};
use crate::words::{mode_of, name_of, range_of, side_of};
use crate::{Command, CommandKind, TextKind};
use fb_bytes::{Text, is_same};
use std::alloc::Global;
use std::slice;

/// What a command's word says with those behind it, where keys have such a limit.
pub fn command_said(
    alloc: Global,
    limit: usize,
    kind: CommandKind,
    words: &[u8],
) -> Result<Line, LineFault>
    ensures { GivesBut NoMemory (λ line. line) result
        (spec.command_said limit kind (words_of words.now)) }
{
    match kind {
        CommandKind::Open => open(alloc, limit, words),
        CommandKind::Dump => dump(alloc, limit, words),
        CommandKind::Cut => {
            let tag = tag_said(alloc, words)?;
            Ok(Line::Order(Command::Cut { tag }))
        }
        CommandKind::Seal => {
            let tag = tag_said(alloc, words)?;
            Ok(Line::Order(Command::Seal { tag }))
        }
        CommandKind::Backup => backup(alloc, limit, words),
        CommandKind::Snapshot => {
            let tag = tag_said(alloc, words)?;
            Ok(Line::Order(Command::Snapshot { tag }))
        }
        CommandKind::Discontinue => {
            let tag = tag_said(alloc, words)?;
            Ok(Line::Order(Command::Discontinue { tag }))
        }
        CommandKind::Abort => {
            let tag = tag_said(alloc, words)?;
            Ok(Line::Order(Command::Abort { tag }))
        }
        CommandKind::Pause => {
            no_words(words)?;
            Ok(Line::Order(Command::Pause))
        }
        CommandKind::Resume => {
            no_words(words)?;
            Ok(Line::Order(Command::Resume))
        }
        CommandKind::Wait => {
            let tag = tag_said(alloc, words)?;
            Ok(Line::Order(Command::Wait { tag }))
        }
        CommandKind::Status => {
            let tag = tag_said(alloc, words)?;
            Ok(Line::Order(Command::Status { tag }))
        }
        CommandKind::Expire => expire(alloc, words),
        CommandKind::Restore => restore(alloc, words),
        CommandKind::Dr => dr(alloc, limit, words),
        CommandKind::Switch => {
            let tag = tag_said(alloc, words)?;
            Ok(Line::Order(Command::Switch { tag }))
        }
        CommandKind::Lag => {
            let tag = tag_said(alloc, words)?;
            Ok(Line::Order(Command::Lag { tag }))
        }
    }
}

/// The tag of a command with nothing else.
fn tag_said(alloc: Global, words: &[u8]) -> Result<Text, LineFault>
    ensures { GivesBut NoMemory (λ tag. tag) result (spec.tag_said (words_of words.now)) }
{
    let word = one_word(words)?;
    name_of(alloc, word)
}

fn dump(alloc: Global, limit: usize, words: &[u8]) -> Result<Line, LineFault>
    ensures { GivesBut NoMemory (λ line. line) result (spec.dump_said limit (words_of words.now)) }
{
    let (tag, begin, end) = three_words(words)?;
    let tag = name_of(alloc, tag)?;
    let piece = range_of(alloc, begin, end)?;
    check_ranges(limit, 1, slice::from_ref(&piece))?;
    Ok(Line::Order(Command::Dump { tag, piece }))
}

fn open(alloc: Global, limit: usize, words: &[u8]) -> Result<Line, LineFault>
    ensures { GivesBut NoMemory (λ line. line) result (spec.open_said limit (words_of words.now)) }
{
    let (tag, rest) = next_word(words)?;
    let (side, rest) = next_word(rest)?;
    let (container, rest) = next_word(rest)?;
    if !are_paired(rest) {
        return Err(LineFault::Refused(TextKind::Count));
    }
    let side = side_of(side)?;
    let tag = name_of(alloc, tag)?;
    let container = name_of(alloc, container)?;
    let ranges = job_ranges(alloc, limit, rest)?;
    Ok(Line::Order(Command::Open {
        tag,
        side,
        container,
        ranges,
    }))
}

fn backup(alloc: Global, limit: usize, words: &[u8]) -> Result<Line, LineFault>
    ensures { GivesBut NoMemory (λ line. line) result
        (spec.backup_said limit (words_of words.now)) }
{
    let (tag, rest) = next_word(words)?;
    let (side, rest) = next_word(rest)?;
    let (container, rest) = next_word(rest)?;
    let (mode, rest) = next_word(rest)?;
    if !are_paired(rest) {
        return Err(LineFault::Refused(TextKind::Count));
    }
    let side = side_of(side)?;
    let continuous = mode_of(b"continuous", b"once", mode)?;
    let tag = name_of(alloc, tag)?;
    let container = name_of(alloc, container)?;
    let ranges = job_ranges(alloc, limit, rest)?;
    Ok(Line::Order(Command::Backup {
        tag,
        side,
        container,
        continuous,
        ranges,
    }))
}

fn dr(alloc: Global, limit: usize, words: &[u8]) -> Result<Line, LineFault>
    ensures { GivesBut NoMemory (λ line. line) result (spec.dr_said limit (words_of words.now)) }
{
    let (tag, rest) = next_word(words)?;
    let (side, rest) = next_word(rest)?;
    if !are_paired(rest) {
        return Err(LineFault::Refused(TextKind::Count));
    }
    let side = side_of(side)?;
    let tag = name_of(alloc, tag)?;
    let ranges = job_ranges(alloc, limit, rest)?;
    Ok(Line::Order(Command::Dr { tag, side, ranges }))
}

fn expire(alloc: Global, words: &[u8]) -> Result<Line, LineFault>
    ensures { GivesBut NoMemory (λ line. line) result (spec.expire_said (words_of words.now)) }
{
    let (container, cutoff, wanted, mode) = four_words(words)?;
    let (cutoff, wanted) = two_numbers(cutoff, wanted)?;
    let force = mode_of(b"force", b"safe", mode)?;
    let container = name_of(alloc, container)?;
    Ok(Line::Order(Command::Expire {
        container,
        cutoff,
        wanted,
        force,
    }))
}

fn restore(alloc: Global, words: &[u8]) -> Result<Line, LineFault>
    ensures { GivesBut NoMemory (λ line. line) result (spec.restore_said (words_of words.now)) }
{
    let (tag, side, container, version) = four_words(words)?;
    let version = version_of(version)?;
    let side = side_of(side)?;
    let tag = name_of(alloc, tag)?;
    let container = name_of(alloc, container)?;
    Ok(Line::Order(Command::Restore {
        tag,
        side,
        container,
        version,
    }))
}

/// The version of a word: none for `latest`.
fn version_of(word: &[u8]) -> Result<Option<u64>, LineFault>
    ensures { GivesBut NoMemory (λ version. version) result (spec.version_of word.now) }
{
    if is_same(word, b"latest") {
        return Ok(None);
    }
    let version = any_number(word)?;
    Ok(Some(version))
}
