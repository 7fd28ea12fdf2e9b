//! What single words spell.

ghost use Rattle.std.specs.Prelude.{◌≡◌, ◌++◌, [], ◌∷◌, true, Ok, IfOk, OnOk, string_bytes};
ghost use Rattle.std.specs.List.{list_all};
ghost use Rattle.fb_bytes.specs.Results.{GivesBut};
ghost use Rattle.workload_text.specs.declared.line_fault.LineFault.TheVariants.{NoMemory};
ghost use Rattle.workload_text.specs.Commands as commands;
ghost use Rattle.workload_text.specs.Commands.{is_name_byte};
ghost use Rattle.workload_text.specs.Words as spec;

use crate::line_fault::LineFault;
use crate::{Side, TextKind};
use fb_bytes::{Blob, KeyRange, Text, WordFault, is_same, read_bytes};
use std::alloc::{AllocError, Global};

/// The most bytes of a name.
const MOST_NAME_BYTES: usize = 32;

/// The bytes that a word spells.
pub fn bytes_of(alloc: Global, word: &[u8]) -> Result<Blob, LineFault>
    ensures { GivesBut NoMemory (λ bytes. bytes) result (spec.bytes_of word.now) }
{
    match read_bytes(alloc, word) {
        Ok(bytes) => Ok(bytes),
        Err(WordFault::Escape { .. } | WordFault::Open) => Err(LineFault::Refused(TextKind::Key)),
        Err(WordFault::NoMemory) => Err(LineFault::NoMemory),
    }
}

/// The range that two words spell.
pub fn range_of(alloc: Global, begin: &[u8], end: &[u8]) -> Result<KeyRange, LineFault>
    ensures { GivesBut NoMemory (λ range. range) result (spec.range_of begin.now end.now) }
{
    let begin = bytes_of(alloc, begin)?;
    let end = bytes_of(alloc, end)?;
    Ok(KeyRange { begin, end })
}

/// The database that a word names.
pub fn side_of(word: &[u8]) -> Result<Side, LineFault>
    ensures { result ≡ spec.side_of word.now }
{
    if is_same(word, b"src") {
        return Ok(Side::Src);
    }
    if is_same(word, b"dst") {
        return Ok(Side::Dst);
    }
    Err(LineFault::Refused(TextKind::Range))
}

/// Which of two words it is: the first one.
pub fn mode_of(on: &[u8], off: &[u8], word: &[u8]) -> Result<bool, LineFault>
    ensures { result ≡ spec.mode_of on.now off.now word.now }
{
    if is_same(word, on) {
        return Ok(true);
    }
    if is_same(word, off) {
        return Ok(false);
    }
    Err(LineFault::Refused(TextKind::Range))
}

/// Whether a word has the form of a tag and of a container's name: 1 to 32 digits, letters, `_` and
/// `-`, of which the first isn't `-`.
#[tactic(auto, unfolding(crate::specs::Commands::is_container_name))]
pub fn is_container_name(word: &[u8]) -> bool
    ensures { result ≡ commands.is_container_name word.now }
{
    begins_well(word) && word.len() <= MOST_NAME_BYTES && are_name_bytes(word)
}

/// The tag or the container that a word names.
pub fn name_of(alloc: Global, word: &[u8]) -> Result<Text, LineFault>
    ensures { GivesBut NoMemory (λ name. name) result (spec.name_of word.now) }
{
    if !is_container_name(word) {
        return Err(LineFault::Refused(TextKind::Name));
    }
    let name = text_of(alloc, word)?;
    Ok(name)
}

fn begins_well(word: &[u8]) -> bool
    ensures { result ≡ commands.begins_well word.now }
{
    match word.first() {
        Some(byte) => *byte != b'-',
        None => false,
    }
}

fn are_name_bytes(word: &[u8]) -> bool
    ensures { result ≡ list_all is_name_byte word.now }
{
    word.iter().all(|byte| is_name_byte(*byte))
}

fn is_name_byte(byte: u8) -> bool
    ensures { result ≡ commands.is_name_byte byte }
{
    matches!(byte, b'0'..=b'9' | b'A'..=b'Z' | b'a'..=b'z' | b'_' | b'-')
}

fn text_of(alloc: Global, word: &[u8]) -> Result<Text, AllocError>
    requires { list_all is_name_byte word.now ≡ true }
    ensures { IfOk result (λ text. text ≡ word.now) }
{
    let mut text = String::new(alloc);
    for byte in word {
        push_byte(&mut text, *byte)?;
    }
    Ok(Text::from_string(text))
}

fn push_byte(text: &mut String, byte: u8) -> Result<(), AllocError>
    requires { is_name_byte byte ≡ true }
    ensures { OnOk result (string_bytes text.new ≡ string_bytes text.old ++ byte ∷ []) }
{
    text.push(char::from(byte))?;
    Ok(())
}
