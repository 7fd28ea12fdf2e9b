//! What the program reads and doesn't play yet.

ghost use Rattle.std.specs.Prelude.{◌≡◌, ◌<◌, ◌^◌, length, not};
ghost use Rattle.std.specs.List.{list_all};
ghost use Rattle.workload_text.specs.Grammar.{what};
ghost use Rattle.workload_text.specs.Keywords.{keyword_of};
ghost use Rattle.workload_text.specs.Kinds.{kind_of, event_kind_of};
ghost use Rattle.workload_text.specs.Texts.{lines_of, words_of};
ghost use Rattle.fb_cli.specs.Later as spec;

use workload_text::{
    Command, CommandKind, EventKind, Keyword, ScheduleLine, Workload, first_line, first_word,
    keyword_of,
};

/// Whether all that a workload says is played.
pub fn is_played(workload: &Workload) -> bool
    ensures { result ≡ spec.is_played (what workload.now) }
{
    are_commands(workload.operator.as_slice()) && are_events(workload.schedule.as_slice())
}

fn are_commands(commands: &[Command]) -> bool
    ensures { result ≡ list_all (λ command. not (spec.is_later_command (kind_of command)))
        commands.now }
{
    commands
        .iter()
        .all(|command| !is_later_command(CommandKind::of(command)))
}

fn are_events(events: &[ScheduleLine]) -> bool
    ensures { result ≡ list_all (λ event. not (spec.is_later_event (event_kind_of event)))
        events.now }
{
    events
        .iter()
        .all(|event| !is_later_event(EventKind::of(event)))
}

/// The first line of a text that isn't played yet, counted from 1.
pub fn first_later(text: &[u8]) -> Option<u64>
    requires { length text.now < 2 ^ 32 }
    ensures { result ≡ spec.first_later 1 (lines_of text.now) }
{
    let mut rest = text;
    let mut number = 1;
    'lines: while !rest.is_empty() {
        let (line, after) = first_line(rest);
        if is_later_line(line) {
            return Some(number);
        }
        number += 1;
        rest = after;
    }
    None
}

fn is_later_line(line: &[u8]) -> bool
    ensures { result ≡ spec.are_later (words_of line.now) }
{
    match first_word(line) {
        Some((word, _)) => is_later_word(word),
        None => false,
    }
}

fn is_later_word(word: &[u8]) -> bool
    ensures { result ≡ spec.is_later_word (keyword_of word.now) }
{
    match keyword_of(word) {
        Some(Keyword::Command(kind)) => is_later_command(kind),
        Some(Keyword::Event(kind)) => is_later_event(kind),
        _ => false,
    }
}

fn is_later_command(kind: CommandKind) -> bool
    ensures { result ≡ spec.is_later_command kind }
{
    !matches!(
        kind,
        CommandKind::Open
            | CommandKind::Dump
            | CommandKind::Cut
            | CommandKind::Seal
            | CommandKind::Abort
            | CommandKind::Pause
            | CommandKind::Resume
            | CommandKind::Status
    )
}

fn is_later_event(kind: EventKind) -> bool
    ensures { result ≡ spec.is_later_event kind }
{
    !matches!(
        kind,
        EventKind::Begin
            | EventKind::Commit
            | EventKind::Tick
            | EventKind::Claim
            | EventKind::Extend
            | EventKind::Die
            | EventKind::Op
            | EventKind::Drain
    )
}
