//! Lines that set something.

ghost use Rattle.fb_bytes.specs.Results.{GivesBut};
ghost use Rattle.workload_text.specs.declared.line_fault.LineFault.TheVariants.{NoMemory};
ghost use Rattle.workload_text.specs.Texts.{words_of};
ghost use Rattle.workload_text.specs.Lines as spec;

use crate::counts::{one_word, three_words, two_words};
use crate::line::Line;
use crate::line_fault::LineFault;
use crate::numbers::{any_number, number_of, within};
use crate::setting::is_allowed;
use crate::{Setting, SettingKind, TextKind};
use fb_bytes::MOST_NUMBER;

/// The most turns of a stall.
const MOST_TURNS: u64 = 1_000_000;

pub fn setting_said(kind: SettingKind, words: &[u8]) -> Result<Line, LineFault>
    ensures { GivesBut NoMemory (λ line. line) result
        (spec.setting_said kind (words_of words.now)) }
{
    let word = one_word(words)?;
    let n = any_number(word)?;
    if_allowed(kind, n)
}

fn if_allowed(kind: SettingKind, n: u64) -> Result<Line, LineFault>
    ensures { GivesBut NoMemory (λ line. line) result (spec.if_allowed kind n) }
{
    if !is_allowed(kind, n) {
        return Err(LineFault::Refused(TextKind::Range));
    }
    Ok(Line::Setting(Setting::Number { kind, n }))
}

/// The death of an agent after a turn, from 1 on.
pub fn death_said(words: &[u8]) -> Result<Line, LineFault>
    ensures { GivesBut NoMemory (λ line. line) result (spec.death_said (words_of words.now)) }
{
    let (agent, turn) = two_words(words)?;
    let agent = number_of(agent)?;
    let turn = number_of(turn)?;
    let agent = within(0, MOST_NUMBER, agent)?;
    let turn = within(1, MOST_NUMBER, turn)?;
    Ok(Line::Setting(Setting::Death { agent, turn }))
}

/// The stall of an agent after a turn, from 1 on, for so many turns.
pub fn stall_said(words: &[u8]) -> Result<Line, LineFault>
    ensures { GivesBut NoMemory (λ line. line) result (spec.stall_said (words_of words.now)) }
{
    let (agent, turn, turns) = three_words(words)?;
    let agent = number_of(agent)?;
    let turn = number_of(turn)?;
    let turns = number_of(turns)?;
    let agent = within(0, MOST_NUMBER, agent)?;
    let turn = within(1, MOST_NUMBER, turn)?;
    let turns = within(0, MOST_TURNS, turns)?;
    Ok(Line::Setting(Setting::Stall { agent, turn, turns }))
}
