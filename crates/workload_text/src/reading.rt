ghost use Rattle.std.specs.Prelude.{◌≡◌, ◌<◌, ◌^◌, Ok, Err, IfOk, length};
ghost use Rattle.fb_bytes.specs.Results.{GivesBut};
ghost use Rattle.workload_text.specs.declared.line_fault.LineFault.TheVariants.{NoMemory};
ghost use Rattle.workload_text.specs.declared.text_fault.TextFault.TheVariants as faults;
ghost use Rattle.workload_text.specs.declared.text_fault.TextKind.TheVariants as kinds;
ghost use Rattle.workload_text.specs.Texts.{lines_of};
ghost use Rattle.workload_text.specs.Sofar as spec;
ghost use Rattle.workload_text.specs.Grammar.{Built, what, built, most_bytes};
ghost use Rattle.workload_text.specs.Spelled.{IsTextOf};
ghost use Rattle.workload_text.specs.inner.Ready.{IsReady};
ghost use Rattle.workload_text.specs.inner.Seen.{sofar};

use crate::building::workload_of;
use crate::keyword::keyword_of;
use crate::line_fault::LineFault;
use crate::pieces::{first_line, first_word, is_text};
use crate::reader::Reader;
use crate::{TextFault, TextKind, Workload};
use std::alloc::Global;

/// The most bytes of the text of a workload.
pub const MOST_BYTES: u64 = 67_108_864;

/// What the text of a workload says. In a run no schedule may come.
pub fn read_workload(alloc: Global, bytes: &[u8], run: bool) -> Result<Workload, TextFault>
    // The workload that the grammar says, or its first bad line with the first reason.
    ensures built { GivesBut faults.NoMemory what result (built run bytes.now) }
    // Read a second way: what is read is said by the lines of its text.
    ensures found { IfOk result (λ w. IsTextOf run bytes.now (what w)) }
    // And each text whose lines say a workload is read, to that workload.
    ensures only { (w : Built) → IsTextOf run bytes.now w
        → GivesBut faults.NoMemory what result (Ok w) }
    // A text that is too long is refused before any memory is asked for.
    ensures long { most_bytes < length bytes.now → result ≡ Err (faults.Refused 0 kinds.Long) }
{
    read(alloc, bytes, run)
}

fn read(alloc: Global, bytes: &[u8], run: bool) -> Result<Workload, TextFault>
    ensures built { GivesBut faults.NoMemory what result (built run bytes.now) }
    ensures long { most_bytes < length bytes.now → result ≡ Err (faults.Refused 0 kinds.Long) }
{
    if bytes.len() as u64 > MOST_BYTES {
        return Err(TextFault::Refused {
            line: 0,
            kind: TextKind::Long,
        });
    }
    let reader = read_lines(alloc, run, bytes)?;
    let workload = workload_of(alloc, reader)?;
    Ok(workload)
}

fn read_lines(alloc: Global, run: bool, text: &[u8]) -> Result<Reader, TextFault>
    requires { length text.now < 2 ^ 32 }
    ensures reads { GivesBut faults.NoMemory sofar result
        (spec.with_lines run 1 spec.at_start (lines_of text.now)) }
    ensures ready { IfOk result (λ reader. IsReady (sofar reader)) }
{
    let mut reader = Reader::new(alloc);
    let mut rest = text;
    let mut number = 1;
    'lines: while !rest.is_empty() {
        let (line, after) = first_line(rest);
        if let Err(fault) = take_line(alloc, run, &mut reader, line) {
            return Err(numbered(number, fault));
        }
        number += 1;
        rest = after;
    }
    Ok(reader)
}

/// The refusal of the line with that number.
fn numbered(line: u64, fault: LineFault) -> TextFault
    ensures { result ≡ spec.fault_in line fault }
{
    match fault {
        LineFault::Refused(kind) => TextFault::Refused { line, kind },
        LineFault::NoMemory => TextFault::NoMemory,
    }
}

fn take_line(alloc: Global, run: bool, reader: &mut Reader, line: &[u8]) -> Result<(), LineFault>
    requires { IsReady (sofar reader.old) }
    ensures { GivesBut NoMemory (λ _. sofar reader.new) result
        (spec.with_bytes run (sofar reader.old) line.now) }
{
    if !is_text(line) {
        return Err(LineFault::Refused(TextKind::Byte));
    }
    let Some((word, rest)) = first_word(line) else {
        return Ok(());
    };
    if word[0] == b'#' {
        return Ok(());
    }
    let Some(keyword) = keyword_of(word) else {
        return Err(LineFault::Refused(TextKind::Word));
    };
    reader.take_keyword(alloc, run, keyword, rest)
}
