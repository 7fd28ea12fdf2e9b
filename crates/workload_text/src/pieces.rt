//! The lines of a text and the words of a line, one at a time from the front.

ghost use Rattle.std.specs.Prelude.{◌≡◌, ◌+◌, ◌<◌, ◌≤◌, [], ◌∷◌, not, length, IfSome, IfNone};
ghost use Rattle.std.specs.List.{prefix_len, list_all};
ghost use Rattle.workload_text.specs.Texts.{lines_of, words_of, is_line_feed, is_space, is_text_byte};

use memchr::memchr;

/// The first line, and what follows its line feed.
pub fn first_line(text: &[u8]) -> (&[u8], &[u8])
    requires { 0 < length text.now }
    ensures line { lines_of text.now ≡ result.0.now ∷ lines_of result.1.now }
    ensures shorter { length result.1.now < length text.now }
{
    let end = line_len(text);
    if end < text.len() {
        (&text[..end], &text[end + 1..])
    } else {
        (text, &text[end..])
    }
}

fn line_len(text: &[u8]) -> usize
    ensures same { result ≡ prefix_len (λ byte. not (is_line_feed byte)) text.now }
    ensures within { result ≤ length text.now }
{
    memchr(b'\n', text).unwrap_or(text.len())
}

/// The first word, and what follows it.
pub fn first_word(line: &[u8]) -> Option<(&[u8], &[u8])>
    ensures some { IfSome result (λ x. words_of line.now ≡ x.0.now ∷ words_of x.1.now) }
    ensures long { IfSome result (λ x. 0 < length x.0.now) }
    ensures shorter { IfSome result (λ x. length x.1.now < length line.now) }
    ensures none { IfNone result (words_of line.now ≡ []) }
{
    let line = &line[spaces(line)..];
    let end = word_len(line);
    if end == 0 {
        return None;
    }
    Some((&line[..end], &line[end..]))
}

fn spaces(line: &[u8]) -> usize
    ensures same { result ≡ prefix_len is_space line.now }
    ensures within { result ≤ length line.now }
{
    line.iter().take_while(|byte| **byte == b' ').count()
}

fn word_len(line: &[u8]) -> usize
    ensures same { result ≡ prefix_len (λ byte. not (is_space byte)) line.now }
    ensures within { result ≤ length line.now }
{
    memchr(b' ', line).unwrap_or(line.len())
}

/// Whether each byte may stand in a line.
pub fn is_text(line: &[u8]) -> bool
    ensures { result ≡ list_all is_text_byte line.now }
{
    // A loop without a way out tests many bytes at a time.
    let mut are_text = true;
    for byte in line {
        are_text &= matches!(*byte, b' '..=b'~');
    }
    are_text
}
