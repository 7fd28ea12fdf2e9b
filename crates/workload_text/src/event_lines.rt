//! Lines of the schedule.

ghost use Rattle.fb_bytes.specs.Results.{GivesBut};
ghost use Rattle.workload_text.specs.declared.line_fault.LineFault.TheVariants.{NoMemory};
ghost use Rattle.workload_text.specs.Texts.{words_of};
ghost use Rattle.workload_text.specs.Lines as spec;

use crate::EventKind;
use crate::counts::{no_words, one_word, two_words};
use crate::line::Line;
use crate::line_fault::LineFault;
use crate::numbers::{any_number, two_numbers};

pub fn event_said(kind: EventKind, words: &[u8]) -> Result<Line, LineFault>
    ensures { GivesBut NoMemory (λ line. line) result (spec.event_said kind (words_of words.now)) }
{
    match kind {
        EventKind::Op | EventKind::Drain => alone(kind, words),
        EventKind::Claim => claim(words),
        _ => numbered(kind, words),
    }
}

fn alone(kind: EventKind, words: &[u8]) -> Result<Line, LineFault>
    ensures { GivesBut NoMemory (λ line. line) result
        (spec.event_alone kind (words_of words.now)) }
{
    no_words(words)?;
    Ok(Line::Event { kind, n: 0, m: 0 })
}

fn claim(words: &[u8]) -> Result<Line, LineFault>
    ensures { GivesBut NoMemory (λ line. line) result (spec.claim_said (words_of words.now)) }
{
    let (agent, pick) = two_words(words)?;
    let (n, m) = two_numbers(agent, pick)?;
    let kind = EventKind::Claim;
    Ok(Line::Event { kind, n, m })
}

fn numbered(kind: EventKind, words: &[u8]) -> Result<Line, LineFault>
    ensures { GivesBut NoMemory (λ line. line) result
        (spec.event_numbered kind (words_of words.now)) }
{
    let word = one_word(words)?;
    let n = any_number(word)?;
    Ok(Line::Event { kind, n, m: 0 })
}
