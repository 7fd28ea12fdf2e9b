//! Bytes as tuples.

ghost use Rattle.std.specs.Prelude.{◌≡◌, ◌⊎◌, ◌≤◌, ℕ, List, length, MatchOption, Some, None, Ok, Err, IfOk, IfErr};
ghost use Rattle.tuple_keys.specs.declared.fault.TupleFault.TheVariants.{NoMemory};
ghost use Rattle.tuple_keys.specs.declared.element.Element.{Element};
ghost use Rattle.tuple_keys.specs.Elements.{AreElements};
ghost use Rattle.tuple_keys.specs.Spelling.{spelling};
ghost use Rattle.tuple_keys.specs.Reading.{closed_at, text_of, int_at, coded_at, reading};
ghost use Rattle.tuple_keys.specs.inner.Reading.{Gives, next_of, element_at};

use crate::numbers::{signed, value_of};
use crate::{Element, Tuple, TupleFault};
use fb_bytes::{Blob, Text};
use std::alloc::Global;

// The next byte of an escaped text, and none at its end.
fn next_of(bytes: &[u8]) -> Option<(u8, &[u8])>
    ensures { MatchOption result (next_of bytes.now ≡ None)
        (λ x. next_of bytes.now ≡ Some (x.0, x.1.now)) }
{
    match bytes {
        [0, 255, rest @ ..] => Some((0, rest)),
        [] | [0, ..] => None,
        [first, rest @ ..] => Some((*first, rest)),
    }
}

// The bytes up to the zero at the end, which no ff follows.
fn closed_of(alloc: Global, at: usize, bytes: &[u8]) -> Result<(Vec<u8>, &[u8]), TupleFault>
    ensures { Gives (λ x. (x.0.items, x.1.now)) result (closed_at at bytes.now) }
{
    let mut found = Vec::new(alloc);
    let mut rest = bytes;
    while let Some((byte, behind)) = next_of(rest) {
        found.push(byte)?;
        rest = behind;
    }
    match rest {
        [] => Err(TupleFault::Open { at }),
        [_, behind @ ..] => Ok((found, behind)),
    }
}

fn text_of(at: usize, bytes: Vec<u8>) -> Result<Text, TupleFault>
    ensures { Gives (λ x. x) result (text_of at bytes.items) }
{
    match String::from_utf8(bytes) {
        Ok(text) => Ok(Text::from_string(text)),
        Err(_) => Err(TupleFault::NotText { at }),
    }
}

fn int_of(
    at: usize,
    negative: bool,
    count: usize,
    bytes: &[u8],
) -> Result<(i128, &[u8]), TupleFault>
    requires { count ≤ 8 }
    ensures { Gives (λ x. (x.0, x.1.now)) result (int_at at negative count bytes.now) }
{
    if bytes.len() < count {
        return Err(TupleFault::Open { at });
    }
    let (digits, rest) = bytes.split_at(count);
    let zero = if negative { 255 } else { 0 };
    if let [first, ..] = digits {
        if *first == zero {
            return Err(TupleFault::Spelling { at });
        }
    }
    Ok((signed(negative, value_of(digits, negative)), rest))
}

#[tactic(auto, unfolding(crate::specs::Reading::coded_at))]
fn coded_of(alloc: Global, at: usize, code: u8, rest: &[u8]) -> Result<(Element, &[u8]), TupleFault>
    ensures { Gives (λ x. (x.0, x.1.now)) result (coded_at at code rest.now) }
{
    match code {
        0 => Ok((Element::Null, rest)),
        1 => {
            let (bytes, rest) = closed_of(alloc, at, rest)?;
            Ok((Element::Bytes(Blob::from_vec(bytes)), rest))
        }
        2 => {
            let (bytes, rest) = closed_of(alloc, at, rest)?;
            let text = text_of(at, bytes)?;
            Ok((Element::Text(text), rest))
        }
        12..=19 => {
            let (number, rest) = int_of(at, true, usize::from(20 - code), rest)?;
            Ok((Element::Int(number), rest))
        }
        20..=28 => {
            let (number, rest) = int_of(at, false, usize::from(code - 20), rest)?;
            Ok((Element::Int(number), rest))
        }
        _ => Err(TupleFault::Code { at }),
    }
}

fn element_of(alloc: Global, at: usize, bytes: &[u8]) -> Result<(Element, &[u8]), TupleFault>
    ensures { Gives (λ x. (x.0, x.1.now)) result (element_at at bytes.now) }
{
    match bytes {
        [] => Err(TupleFault::Open { at }),
        [code, rest @ ..] => coded_of(alloc, at, *code, rest),
    }
}

fn elements_of(alloc: Global, bytes: &[u8]) -> Result<Tuple, TupleFault>
    ensures { Gives (λ tuple. tuple) result (reading bytes.now) }
{
    let mut tuple = Tuple::new(alloc);
    let mut rest = bytes;
    while !rest.is_empty() {
        let at = bytes.len() - rest.len();
        let (element, behind) = element_of(alloc, at, rest)?;
        tuple.push(element)?;
        rest = behind;
    }
    Ok(tuple)
}

/// The tuple that the bytes spell, all of the bytes.
pub fn unpack(alloc: Global, bytes: &[u8]) -> Result<Tuple, TupleFault>
    // What is read is spelt so.
    ensures found { IfOk result (λ tuple. AreElements tuple × (bytes.now ≡ spelling tuple)) }
    // What is spelt so is read, unless memory runs out.
    ensures only { (elements : List Element) → AreElements elements → bytes.now ≡ spelling elements
        → (result ≡ Ok elements) ⊎ (result ≡ Err NoMemory) }
    // Which fault it is.
    ensures ok { IfOk result (λ tuple. reading bytes.now ≡ Ok tuple) }
    ensures err { IfErr result (λ fault. (fault ≡ NoMemory) ⊎ (reading bytes.now ≡ Err fault)) }
{
    elements_of(alloc, bytes)
}
