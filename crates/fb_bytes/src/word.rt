//! The text form of bytes, as workloads and reports write keys and values.

ghost use Rattle.std.specs.Prelude.{◌≡◌, ◌+◌, ◌<◌, ◌++◌, ◌↔◌, [], ◌⊎◌, length, string_bytes, IfOk, IfErr, IfSome, OnOk, IsErrOf, MatchResult};
ghost use Rattle.std.specs.List.{list_all};
ghost use Rattle.fb_bytes.specs.Bytes.{Bytes};
ghost use Rattle.fb_bytes.specs.Words as words;
ghost use Rattle.fb_bytes.specs.declared.word_fault.WordFault.TheVariants as faults;

use crate::{Blob, Text, WordFault, is_same};
use std::alloc::{AllocError, Global};

/// The word that stands for these bytes: a byte from `!` to `~` other than `\` as itself, every other
/// byte as `\x` and two lower-case hexadecimal digits, and the empty string as `\e`.
pub fn print_bytes(alloc: Global, bytes: &[u8]) -> Result<Text, AllocError>
    ensures printed { IfOk result (λ word. word ≡ words.printed bytes.now) }
    ensures word { IfOk result (λ word. words.IsWordOf word bytes.now) }
{
    if bytes.is_empty() {
        return Text::from_str(alloc, "\\e");
    }
    let mut word = String::new(alloc);
    for byte in bytes {
        push_letter(alloc, &mut word, *byte)?;
    }
    Ok(Text::from_string(word))
}

/// Puts the word that `print_bytes` gives for the bytes behind what stands.
pub fn put_printed(alloc: Global, out: &mut Blob, bytes: &[u8]) -> Result<(), AllocError>
    ensures { OnOk result (out.new ≡ out.old ++ words.printed bytes.now) }
{
    if !bytes.is_empty() && are_plain(bytes) {
        out.extend_from_slice(bytes)?;
        return Ok(());
    }
    let word = print_bytes(alloc, bytes)?;
    out.extend_from_slice(word.as_bytes())
}

fn push_letter(alloc: Global, word: &mut String, byte: u8) -> Result<(), AllocError>
    ensures { OnOk result (string_bytes word.new ≡ string_bytes word.old ++ words.letter_of byte) }
{
    if is_plain(byte) {
        word.push(char::from(byte))?;
        return Ok(());
    }
    let digits = hex::encode(alloc, [byte])?;
    word.push_str("\\x")?;
    word.push_str(digits.as_str())?;
    Ok(())
}

// Each byte stands for itself.
fn are_plain(word: &[u8]) -> bool
    ensures { result ≡ list_all words.is_plain word.now }
{
    let mut plain = true;
    for byte in word {
        plain &= is_plain(*byte);
    }
    plain
}

fn is_plain(byte: u8) -> bool
    ensures { result ≡ words.is_plain byte }
{
    matches!(byte, b'!'..=b'~') && byte != b'\\'
}

/// The bytes that a word stands for. Beside the word that is printed for them, the digits may be of
/// upper case, and `\x` may stand for any byte.
pub fn read_bytes(alloc: Global, word: &[u8]) -> Result<Blob, WordFault>
    // What is read is spelled so, and what is spelled so is read.
    ensures found { IfOk result (λ blob. words.IsWordOf word.now blob) }
    ensures only { (bytes : Bytes) → words.IsWordOf word.now bytes
        → MatchResult result (λ blob. blob ≡ bytes) (λ e. e ≡ faults.NoMemory) }
    // Which fault it is.
    ensures ok { IfOk result (λ blob. words.word_reading word.now ≡ Ok blob) }
    ensures err { IfErr result (λ e. (e ≡ faults.NoMemory)
        ⊎ (words.word_reading word.now ≡ Err e)) }
    ensures open { IsErrOf result faults.Open ↔ (word.now ≡ []) }
{
    read_letters(alloc, word)
}

fn read_letters(alloc: Global, word: &[u8]) -> Result<Blob, WordFault>
    ensures ok { IfOk result (λ blob. words.word_reading word.now ≡ Ok blob) }
    ensures err { IfErr result (λ e. (e ≡ faults.NoMemory)
        ⊎ (words.word_reading word.now ≡ Err e)) }
    ensures open { word.now ≡ [] → result ≡ Err faults.Open }
{
    if word.is_empty() {
        return Err(WordFault::Open);
    }
    if is_same(word, b"\\e") {
        return Ok(Blob::new(alloc));
    }
    if are_plain(word) {
        return Ok(Blob::from_slice(alloc, word)?);
    }
    let mut bytes = Vec::new(alloc);
    let mut at = 0;
    'letters: while at < word.len() {
        let Some((byte, more)) = first_letter(&word[at..]) else {
            return Err(WordFault::Escape { at });
        };
        bytes.push(byte)?;
        at += 1 + more;
    }
    Ok(Blob::from_slice(alloc, &bytes)?)
}

// The byte that the first letter spells, and how many bytes the letter takes behind its first.
fn first_letter(word: &[u8]) -> Option<(u8, usize)>
    ensures letter { result ≡ words.letter_at word.now }
    ensures within { IfSome result (λ letter. letter.1 < length word.now) }
{
    let (first, rest) = word.split_first()?;
    if is_plain(*first) {
        return Some((*first, 0));
    }
    if *first == b'\\' { escape(rest) } else { None }
}

fn escape(word: &[u8]) -> Option<(u8, usize)>
    ensures letter { result ≡ words.escape_at word.now }
    ensures within { IfSome result (λ letter. letter.1 < length word.now + 1) }
{
    match word {
        [b'x', high, low, ..] => Some((hex_byte(*high, *low)?, 3)),
        _ => None,
    }
}

fn hex_byte(high: u8, low: u8) -> Option<u8>
    ensures { result ≡ words.byte_of high low }
{
    let mut byte = [0];
    hex::decode_to_slice([high, low], &mut byte).ok()?;
    Some(byte[0])
}

/// A word stands for at most one string of bytes.
pub fn one_reading()
    ensures { words.OneReading }
{}
