ghost use Rattle.std.specs.Prelude.{◌≡◌};
ghost use Rattle.block_frame.specs.Profiles.{key_limit_of};
ghost use Rattle.fb_bytes.specs.Results.{GivesBut};
ghost use Rattle.workload_text.specs.declared.line_fault.LineFault.TheVariants.{NoMemory};
ghost use Rattle.workload_text.specs.Texts.{words_of};
ghost use Rattle.workload_text.specs.Lines as spec;
ghost use Rattle.workload_text.specs.Settings.{limit_for};
ghost use Rattle.workload_text.specs.Words.{no_words};

use crate::client_lines::{client_said, read_said, write_said};
use crate::command_lines::command_said;
use crate::counts::no_words;
use crate::event_lines::event_said;
use crate::keyword::Keyword;
use crate::line_fault::LineFault;
use crate::setting::number_for;
use crate::setting_lines::{death_said, setting_said, stall_said};
use crate::{Command, EventKind, Setting, SettingKind, Side};
use block_frame::Profile;
use mutations::TxOp;
use std::alloc::Global;

/// What a line of a workload says.
#[derive(Debug, Drop)]
pub enum Line {
    Setting(Setting),
    /// A client of this database begins.
    Client(Side),
    /// A transaction begins.
    Txn,
    /// An operation of a transaction.
    Op(TxOp),
    /// The operator begins.
    Operator,
    /// A command of the operator.
    Order(Command),
    /// The schedule begins.
    Schedule,
    /// An event of the schedule with its numbers, 0 where it has none.
    Event { kind: EventKind, n: u64, m: u64 },
}

/// What a keyword says with the words behind it, behind such settings.
pub fn said(
    alloc: Global,
    settings: &[Setting],
    keyword: Keyword,
    words: &[u8],
) -> Result<Line, LineFault>
    ensures { GivesBut NoMemory (λ line. line) result
        (spec.said (limit_for settings.now) keyword (words_of words.now)) }
{
    match keyword {
        Keyword::Setting(kind) => setting_said(kind, words),
        Keyword::Death => death_said(words),
        Keyword::Stall => stall_said(words),
        Keyword::Client => client_said(words),
        Keyword::Txn => alone(Line::Txn, words),
        Keyword::Read(kind) => read_said(alloc, kind, words),
        Keyword::Write(kind) => write_said(alloc, kind, words),
        Keyword::Operator => alone(Line::Operator, words),
        Keyword::Command(kind) => command_said(alloc, limit_for(settings), kind, words),
        Keyword::Schedule => alone(Line::Schedule, words),
        Keyword::Event(kind) => event_said(kind, words),
    }
}

/// The line, where its first word is the only one.
fn alone(line: Line, words: &[u8]) -> Result<Line, LineFault>
    ensures { GivesBut NoMemory (λ line. line) result (no_words (words_of words.now) line) }
{
    no_words(words)?;
    Ok(line)
}

/// The longest key that a line of the operator's may have.
fn limit_for(settings: &[Setting]) -> usize
    ensures { result ≡ limit_for settings.now }
{
    match u32::try_from(number_for(SettingKind::Block, settings)) {
        Ok(block) => key_limit(block),
        Err(_) => 0,
    }
}

/// The greatest length of a key, which is 0 for a block that isn't one of the four.
fn key_limit(block: u32) -> usize
    ensures { result ≡ key_limit_of block }
{
    match Profile::from_block(block) {
        Some(profile) => profile.key,
        None => 0,
    }
}
