//! Numbers in a text: decimal, without a leading zero.

ghost use Rattle.std.specs.Prelude.{◌≡◌, true};
ghost use Rattle.std.specs.List.{list_all};
ghost use Rattle.std.specs.Char.{is_ascii_digit};
ghost use Rattle.file_names.specs.Reading.{value_after};
ghost use Rattle.workload_text.specs.Numbers as spec;
ghost use Rattle.workload_text.specs.Words as words;

use crate::TextKind;
use crate::line_fault::LineFault;
use fb_bytes::MOST_NUMBER;

/// Whether the word is a number, however great.
pub fn is_decimal(word: &[u8]) -> bool
    ensures { result ≡ spec.is_decimal word.now }
{
    if word.is_empty() || !are_digits(word) {
        return false;
    }
    word[0] != b'0' || word.len() == 1
}

fn are_digits(word: &[u8]) -> bool
    ensures { result ≡ list_all is_ascii_digit word.now }
{
    word.iter().all(|byte| byte.is_ascii_digit())
}

/// The number that a word is: none where it is past 2^62.
pub fn number_of(word: &[u8]) -> Result<Option<u64>, LineFault>
    ensures { result ≡ spec.number_of word.now }
{
    if !is_decimal(word) {
        return Err(LineFault::Refused(TextKind::Number));
    }
    Ok(value_of(word))
}

/// What the digits write, where it is at most 2^62.
pub fn value_of(digits: &[u8]) -> Option<u64>
    requires { list_all is_ascii_digit digits.now ≡ true }
    ensures { result ≡ spec.if_small (value_after 0 digits.now) }
{
    let mut value: u64 = 0;
    for digit in digits {
        let digit = u64::from(*digit - b'0');
        if value > (MOST_NUMBER - digit) / 10 {
            return None;
        }
        value = value * 10 + digit;
    }
    Some(value)
}

/// The number, where it is within limits.
pub fn within(least: u64, most: u64, number: Option<u64>) -> Result<u64, LineFault>
    ensures { result ≡ spec.within least most number }
{
    match number {
        Some(n) if least <= n && n <= most => Ok(n),
        _ => Err(LineFault::Refused(TextKind::Range)),
    }
}

/// A number from one on and at most another.
pub fn number_in(least: u64, most: u64, word: &[u8]) -> Result<u64, LineFault>
    ensures { result ≡ words.number_in least most word.now }
{
    let number = number_of(word)?;
    within(least, most, number)
}

/// Any number up to 2^62.
pub fn any_number(word: &[u8]) -> Result<u64, LineFault>
    ensures { result ≡ words.any_number word.now }
{
    number_in(0, MOST_NUMBER, word)
}

/// Two numbers, each up to 2^62; both are read before a limit is looked at.
pub fn two_numbers(a: &[u8], b: &[u8]) -> Result<(u64, u64), LineFault>
    ensures { result ≡ words.two_numbers a.now b.now }
{
    let n = number_of(a)?;
    let m = number_of(b)?;
    let first = within(0, MOST_NUMBER, n)?;
    let second = within(0, MOST_NUMBER, m)?;
    Ok((first, second))
}
