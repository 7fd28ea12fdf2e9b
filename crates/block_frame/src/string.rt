//! Strings behind their lengths, and the number that a block begins with.

ghost use Rattle.std.specs.Prelude.{◌≡◌, ◌<◌, ◌^◌, ◌++◌, length, OnOk, OnErr};
ghost use Rattle.std.specs.Option.{option_map};
ghost use Rattle.block_frame.specs.Text as text;

use std::alloc::AllocError;

/// The string in front, and the bytes behind it. None where its length or its bytes pass the end.
#[tactic(auto, unfolding(crate::specs::Text::string_at))]
pub fn string_at(bytes: &[u8]) -> Option<(&[u8], &[u8])>
    ensures { option_map (λ cut. (cut.0.now, cut.1.now)) result ≡ text.string_at bytes.now }
{
    if bytes.len() < 4 {
        return None;
    }
    let (front, rest) = bytes.split_at(4);
    let len = u32::from_be_bytes([front[0], front[1], front[2], front[3]]) as usize;
    if rest.len() < len {
        return None;
    }
    Some(rest.split_at(len))
}

/// The number that a block begins with, and the bytes behind it. None where there are fewer than
/// four bytes.
#[tactic(auto, unfolding(crate::specs::Text::header_at))]
pub fn header_at(bytes: &[u8]) -> Option<(u32, &[u8])>
    ensures { option_map (λ cut. (cut.0, cut.1.now)) result ≡ text.header_at bytes.now }
{
    if bytes.len() < 4 {
        return None;
    }
    let (front, rest) = bytes.split_at(4);
    let number = u32::from_le_bytes([front[0], front[1], front[2], front[3]]);
    Some((number, rest))
}

/// Whether no further string follows in a block: it is at its end, or its padding begins.
pub fn is_over(bytes: &[u8]) -> bool
    ensures { result ≡ text.is_over bytes.now }
{
    match bytes {
        [] => true,
        [byte, ..] => *byte == 0xff,
    }
}

/// The place of the first byte that isn't padding.
pub fn unpadded_at(bytes: &[u8]) -> Option<usize>
    ensures { result ≡ text.unpadded_at bytes.now }
{
    bytes.iter().position(|byte| !(*byte == 0xff))
}

/// Writes a string behind its length, at the end. Without memory nothing is written.
pub fn push_string(out: &mut Vec<u8>, string: &[u8]) -> Result<(), AllocError>
    requires { length string.now < 2 ^ 32 }
    ensures ok { OnOk result (out.new.items ≡ out.old.items ++ text.string string.now) }
    ensures err { OnErr result (out.new.items ≡ out.old.items) }
{
    let len = out.len();
    out.extend_from_slice(&(string.len() as u32).to_be_bytes())?;
    match out.extend_from_slice(string) {
        Ok(()) => Ok(()),
        Err(error) => {
            out.truncate(len);
            Err(error)
        }
    }
}
