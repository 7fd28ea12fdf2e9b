//! The words of a line, where there are so many.

ghost use Rattle.std.specs.Prelude.{◌≡◌};
ghost use Rattle.fb_bytes.specs.Results.{GivesBut};
ghost use Rattle.workload_text.specs.declared.line_fault.LineFault.TheVariants.{NoMemory};
ghost use Rattle.workload_text.specs.Texts.{words_of};
ghost use Rattle.workload_text.specs.Words as spec;

use crate::TextKind;
use crate::line_fault::LineFault;
use crate::pieces::first_word;

/// Whether there are no words.
pub fn no_words(words: &[u8]) -> Result<(), LineFault>
    ensures { result ≡ spec.no_words (words_of words.now) tt }
{
    match first_word(words) {
        Some(_) => Err(LineFault::Refused(TextKind::Count)),
        None => Ok(()),
    }
}

/// The first word and what follows it, where there is one.
pub fn next_word(words: &[u8]) -> Result<(&[u8], &[u8]), LineFault>
    ensures { GivesBut NoMemory (λ x. (x.0.now, words_of x.1.now)) result
        (spec.next_word (words_of words.now)) }
{
    match first_word(words) {
        Some(next) => Ok(next),
        None => Err(LineFault::Refused(TextKind::Count)),
    }
}

/// The word, where there is just one.
pub fn one_word(words: &[u8]) -> Result<&[u8], LineFault>
    ensures { GivesBut NoMemory (λ word. word.now) result (spec.one_word (words_of words.now)) }
{
    let Some((word, rest)) = first_word(words) else {
        return Err(LineFault::Refused(TextKind::Count));
    };
    if first_word(rest).is_some() {
        return Err(LineFault::Refused(TextKind::Count));
    }
    Ok(word)
}

/// The words, where there are two.
pub fn two_words(words: &[u8]) -> Result<(&[u8], &[u8]), LineFault>
    ensures { GivesBut NoMemory (λ x. (x.0.now, x.1.now)) result
        (spec.two_words (words_of words.now)) }
{
    let Some((first, rest)) = first_word(words) else {
        return Err(LineFault::Refused(TextKind::Count));
    };
    let Some((second, rest)) = first_word(rest) else {
        return Err(LineFault::Refused(TextKind::Count));
    };
    if first_word(rest).is_some() {
        return Err(LineFault::Refused(TextKind::Count));
    }
    Ok((first, second))
}

/// The words, where there are three.
pub fn three_words(words: &[u8]) -> Result<(&[u8], &[u8], &[u8]), LineFault>
    ensures { GivesBut NoMemory (λ x. (x.0.now, x.1.now, x.2.now)) result
        (spec.three_words (words_of words.now)) }
{
    let Some((first, rest)) = first_word(words) else {
        return Err(LineFault::Refused(TextKind::Count));
    };
    let Some((second, rest)) = first_word(rest) else {
        return Err(LineFault::Refused(TextKind::Count));
    };
    let Some((third, rest)) = first_word(rest) else {
        return Err(LineFault::Refused(TextKind::Count));
    };
    if first_word(rest).is_some() {
        return Err(LineFault::Refused(TextKind::Count));
    }
    Ok((first, second, third))
}

/// The words, where there are four.
pub fn four_words(words: &[u8]) -> Result<(&[u8], &[u8], &[u8], &[u8]), LineFault>
    ensures { GivesBut NoMemory (λ x. (x.0.now, x.1.now, x.2.now, x.3.now)) result
        (spec.four_words (words_of words.now)) }
{
    let Some((first, rest)) = first_word(words) else {
        return Err(LineFault::Refused(TextKind::Count));
    };
    let Some((second, rest)) = first_word(rest) else {
        return Err(LineFault::Refused(TextKind::Count));
    };
    let Some((third, rest)) = first_word(rest) else {
        return Err(LineFault::Refused(TextKind::Count));
    };
    let Some((fourth, rest)) = first_word(rest) else {
        return Err(LineFault::Refused(TextKind::Count));
    };
    if first_word(rest).is_some() {
        return Err(LineFault::Refused(TextKind::Count));
    }
    Ok((first, second, third, fourth))
}

/// Whether there are so many words that two stand together each time.
pub fn are_paired(words: &[u8]) -> bool
    ensures { result ≡ spec.are_paired (words_of words.now) }
{
    let mut rest = words;
    'pairs: while let Some((_, after)) = first_word(rest) {
        let Some((_, after)) = first_word(after) else {
            return false;
        };
        rest = after;
    }
    true
}
