//! The lines of a schedule's events.

ghost use Rattle.std.specs.Prelude.{◌≡◌, ◌≤◌, ◌∷◌, ◌++◌, codes, decimal, length, OnOk};
ghost use Rattle.std.specs.List.{flat_map};
ghost use Rattle.report_text.specs.Lines.{behind, line};
ghost use Rattle.workload_text.specs.Kinds.{command_word};
ghost use Rattle.report_text.specs.Events.{command_words, reply_words, event_line};

use crate::tail::Tail;
use crate::words::{put, put_field};
use crate::{EventLine, Reply};
use fb_bytes::Blob;
use std::alloc::{AllocError, Global};
use workload_text::{CommandKind, ScheduleLine};

/// The lines of all events.
pub fn put_events(alloc: Global, out: &mut Blob, events: &[EventLine]) -> Result<(), AllocError>
    ensures { OnOk result (out.new ≡ out.old ++ flat_map event_line events.now) }
{
    for event in events {
        put_event(alloc, out, event)?;
    }
    Ok(())
}

fn put_event(alloc: Global, out: &mut Blob, event: &EventLine) -> Result<(), AllocError>
    ensures { OnOk result (out.new ≡ out.old ++ event_line event.now) }
{
    match event.line {
        ScheduleLine::Begin { client } => put_turn(alloc, out, b"begin ", client, &event.reply),
        ScheduleLine::Commit { client } => put_turn(alloc, out, b"commit ", client, &event.reply),
        ScheduleLine::Tick { n } => put_numbered(alloc, out, b"tick ", n, &event.reply),
        ScheduleLine::Claim { agent, pick } => put_claim(alloc, out, agent, pick, &event.reply),
        ScheduleLine::Extend { agent } => put_turn(alloc, out, b"extend ", agent, &event.reply),
        ScheduleLine::Take { agent } => put_turn(alloc, out, b"take ", agent, &event.reply),
        ScheduleLine::Place { agent } => put_turn(alloc, out, b"place ", agent, &event.reply),
        ScheduleLine::Close { agent } => put_turn(alloc, out, b"close ", agent, &event.reply),
        ScheduleLine::Die { agent } => put_turn(alloc, out, b"die ", agent, &event.reply),
        ScheduleLine::Op => put_step(alloc, out, event.command, &event.reply),
        ScheduleLine::Drain => {
            put(out, b"drain")?;
            put_answered(alloc, out, &event.reply)
        }
    }
}

fn put_turn(
    alloc: Global,
    out: &mut Blob,
    word: &[u8],
    number: u32,
    reply: &Reply,
) -> Result<(), AllocError>
    requires { length word.now ≤ 20 }
    ensures { OnOk result (out.new ≡ out.old ++ word.now ++ decimal number
        ++ behind (codes "->" ∷ reply_words reply.now)) }
{
    match reply.short() {
        Some(tail) => put_short(out, word, number, tail),
        None => {
            put_field(out, word, number)?;
            put_answered(alloc, out, reply)
        }
    }
}

fn put_numbered(
    alloc: Global,
    out: &mut Blob,
    word: &[u8],
    number: u64,
    reply: &Reply,
) -> Result<(), AllocError>
    ensures { OnOk result (out.new ≡ out.old ++ word.now ++ decimal number
        ++ behind (codes "->" ∷ reply_words reply.now)) }
{
    put_field(out, word, number)?;
    put_answered(alloc, out, reply)
}

fn put_claim(
    alloc: Global,
    out: &mut Blob,
    agent: u32,
    pick: u64,
    reply: &Reply,
) -> Result<(), AllocError>
    ensures { OnOk result
        (out.new ≡ out.old
        ++ line (codes "claim" ∷ decimal agent ∷ decimal pick ∷ codes "->"
        ∷ reply_words reply.now)) }
{
    put_field(out, b"claim ", agent)?;
    put_field(out, b" ", pick)?;
    put_answered(alloc, out, reply)
}

/// The line of a client's step, from its word on.
fn put_short(out: &mut Blob, word: &[u8], client: u32, reply: Tail) -> Result<(), AllocError>
    requires word { length word.now ≤ 20 }
    requires reply { length reply ≤ 67 }
    ensures { OnOk result
        (out.new ≡ out.old ++ word.now ++ decimal client ++ codes " ->" ++ reply) }
{
    let mut tail = reply;
    tail.text(b" ->");
    tail.number(u64::from(client));
    tail.text(word);
    put(out, tail.as_slice())
}

fn put_step(
    alloc: Global,
    out: &mut Blob,
    command: Option<CommandKind>,
    reply: &Reply,
) -> Result<(), AllocError>
    ensures { OnOk result
        (out.new ≡ out.old
        ++ line (codes "op" ∷ (command_words command ++ codes "->" ∷ reply_words reply.now))) }
{
    put(out, b"op")?;
    match command {
        Some(command) => put_command(alloc, out, command, reply),
        None => put_answered(alloc, out, reply),
    }
}

fn put_command(
    alloc: Global,
    out: &mut Blob,
    command: CommandKind,
    reply: &Reply,
) -> Result<(), AllocError>
    ensures { OnOk result
        (out.new ≡ out.old ++ behind (command_word command ∷ codes "->" ∷ reply_words reply.now)) }
{
    put(out, b" ")?;
    put(out, command.word().as_bytes())?;
    put_answered(alloc, out, reply)
}

fn put_answered(alloc: Global, out: &mut Blob, reply: &Reply) -> Result<(), AllocError>
    ensures { OnOk result (out.new ≡ out.old ++ behind (codes "->" ∷ reply_words reply.now)) }
{
    put(out, b" ->")?;
    reply.put(alloc, out)
}
