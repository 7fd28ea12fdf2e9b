//! Lines of a client.

ghost use Rattle.fb_bytes.specs.Results.{GivesBut};
ghost use Rattle.workload_text.specs.declared.line_fault.LineFault.TheVariants.{NoMemory};
ghost use Rattle.workload_text.specs.Texts.{words_of};
ghost use Rattle.workload_text.specs.Lines as spec;

use crate::TextKind;
use crate::counts::{one_word, three_words, two_words};
use crate::keyword::{ReadKind, WriteKind};
use crate::line::Line;
use crate::line_fault::LineFault;
use crate::numbers::{any_number, number_of, within};
use crate::words::{bytes_of, range_of, side_of};
use atomic_ops::Op;
use fb_bytes::KeyRange;
use mutations::{Mutation, TxOp};
use std::alloc::Global;

/// The most pairs of a scan.
const MOST_PAIRS: u64 = 1_000;

/// A client on a database. Its number was looked at before.
pub fn client_said(words: &[u8]) -> Result<Line, LineFault>
    ensures { GivesBut NoMemory (λ line. line) result (spec.client_said (words_of words.now)) }
{
    let (number, side) = two_words(words)?;
    any_number(number)?;
    let side = side_of(side)?;
    Ok(Line::Client(side))
}

pub fn read_said(alloc: Global, kind: ReadKind, words: &[u8]) -> Result<Line, LineFault>
    ensures { GivesBut NoMemory (λ line. line) result (spec.read_said kind (words_of words.now)) }
{
    match kind {
        ReadKind::Get => {
            let word = one_word(words)?;
            let key = bytes_of(alloc, word)?;
            Ok(Line::Op(TxOp::Get { key }))
        }
        ReadKind::SnapshotGet => {
            let word = one_word(words)?;
            let key = bytes_of(alloc, word)?;
            Ok(Line::Op(TxOp::SnapshotGet { key }))
        }
        ReadKind::Scan => scan(alloc, words),
    }
}

fn scan(alloc: Global, words: &[u8]) -> Result<Line, LineFault>
    ensures { GivesBut NoMemory (λ line. line) result (spec.scan_said (words_of words.now)) }
{
    let (begin, end, limit) = three_words(words)?;
    let limit = number_of(limit)?;
    let limit = within(1, MOST_PAIRS, limit)?;
    let range = forward_range(alloc, begin, end)?;
    Ok(Line::Op(TxOp::Scan { range, limit }))
}

/// The range that two words spell, where its begin is below its end.
fn forward_range(alloc: Global, begin: &[u8], end: &[u8]) -> Result<KeyRange, LineFault>
    ensures { GivesBut NoMemory (λ range. range) result (spec.forward_range begin.now end.now) }
{
    let range = range_of(alloc, begin, end)?;
    if range.is_backwards() {
        return Err(LineFault::Refused(TextKind::Backwards));
    }
    Ok(range)
}

pub fn write_said(alloc: Global, kind: WriteKind, words: &[u8]) -> Result<Line, LineFault>
    ensures { GivesBut NoMemory (λ line. line) result (spec.write_said kind (words_of words.now)) }
{
    match kind {
        WriteKind::Set => set(alloc, words),
        WriteKind::Clear => clear(alloc, words),
        WriteKind::ClearRange => clear_range(alloc, words),
        WriteKind::Atomic(op) => atomic(alloc, op, words),
    }
}

fn set(alloc: Global, words: &[u8]) -> Result<Line, LineFault>
    ensures { GivesBut NoMemory (λ line. line) result (spec.set_said (words_of words.now)) }
{
    let (key, value) = two_words(words)?;
    let key = bytes_of(alloc, key)?;
    let value = bytes_of(alloc, value)?;
    Ok(Line::Op(TxOp::Write(Mutation::Set { key, value })))
}

// A clear of one key ends at that key and a byte 0.
fn clear(alloc: Global, words: &[u8]) -> Result<Line, LineFault>
    ensures { GivesBut NoMemory (λ line. line) result (spec.clear_said (words_of words.now)) }
{
    let word = one_word(words)?;
    let begin = bytes_of(alloc, word)?;
    let mut end = begin.copy()?;
    end.push(0)?;
    Ok(Line::Op(TxOp::Write(Mutation::ClearRange { begin, end })))
}

fn clear_range(alloc: Global, words: &[u8]) -> Result<Line, LineFault>
    ensures { GivesBut NoMemory (λ line. line) result (spec.clear_range_said (words_of words.now)) }
{
    let (begin, end) = two_words(words)?;
    let KeyRange { begin, end } = forward_range(alloc, begin, end)?;
    Ok(Line::Op(TxOp::Write(Mutation::ClearRange { begin, end })))
}

fn atomic(alloc: Global, op: Op, words: &[u8]) -> Result<Line, LineFault>
    ensures { GivesBut NoMemory (λ line. line) result (spec.atomic_said op (words_of words.now)) }
{
    let (key, param) = two_words(words)?;
    let key = bytes_of(alloc, key)?;
    let param = bytes_of(alloc, param)?;
    Ok(Line::Op(TxOp::Write(Mutation::Atomic { op, key, param })))
}
