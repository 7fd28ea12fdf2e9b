//! The lines of the operator's commands in a run.

ghost use Rattle.std.specs.Prelude.{◌≡◌, ◌∷◌, ◌++◌, codes, OnOk};
ghost use Rattle.report_text.specs.Commands.{operator_line, operator_lines};
ghost use Rattle.report_text.specs.Events.{answer_words};
ghost use Rattle.report_text.specs.Lines.{behind};

use crate::CommandLine;
use crate::answers::put_answer;
use crate::words::{put, put_field};
use cluster_core::Answer;
use fb_bytes::Blob;
use std::alloc::{AllocError, Global};

/// The lines of all commands, numbered from 1.
pub fn put_operator(
    alloc: Global,
    out: &mut Blob,
    commands: &[CommandLine],
) -> Result<(), AllocError>
    ensures { OnOk result (out.new ≡ out.old ++ operator_lines 1 commands.now) }
{
    let mut rest = commands;
    let mut number: u64 = 1;
    'rest: while let [told, after @ ..] = rest {
        put_told(alloc, out, number, told)?;
        number += 1;
        rest = after;
    }
    Ok(())
}

/// The line of one command.
pub fn put_told(
    alloc: Global,
    out: &mut Blob,
    number: u64,
    told: &CommandLine,
) -> Result<(), AllocError>
    ensures { OnOk result (out.new ≡ out.old ++ operator_line number told.now) }
{
    put_field(out, b"op ", number)?;
    put(out, b" ")?;
    put(out, told.command.word().as_bytes())?;
    put_arrow(alloc, out, &told.answer)
}

fn put_arrow(alloc: Global, out: &mut Blob, answer: &Answer) -> Result<(), AllocError>
    ensures { OnOk result (out.new ≡ out.old ++ behind (codes "->" ∷ answer_words answer.now)) }
{
    put(out, b" ->")?;
    put_answer(alloc, out, answer)
}
