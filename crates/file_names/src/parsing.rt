//! Reading a name from left to right.

ghost use Rattle.std.specs.Prelude.{◌≡◌, ◌^◌, ◌<◌, ◌≤◌, Some, None, length, take, drop, nat_lt, if◌then◌else◌, not, ◌||◌, is_some, true, false};
ghost use Rattle.std.specs.Option.{option_map};
ghost use Rattle.std.specs.List.{prefix_len};
ghost use Rattle.std.specs.Char.{is_ascii_digit};
ghost use Rattle.std.specs.Str.{all_ascii_digits};
ghost use Rattle.fb_bytes.specs.Bytes.{is_same};
ghost use Rattle.fb_bytes.specs.Blocks.{is_block};
ghost use Rattle.file_names.specs.Spelling as spec;
ghost use Rattle.file_names.specs.Reading as reading;

use crate::Name;

/// The greatest number in a name.
const GREATEST: u64 = (1 << 63) - 1;

/// The name that a text spells. Every text that spells no name is `Other`.
pub fn parse(name: &[u8]) -> Name
    // A form is answered for its spelling alone.
    ensures found { spec.is_other result ≡ false → spec.IsNameOf name.now result }
    // It is answered for each of its spellings.
    ensures only { (n : spec.Name) → spec.IsNameOf name.now n → result ≡ n }
    ensures exact { result ≡ reading.name_of name.now }
{
    read(name)
}

#[tactic(auto, unfolding(crate::specs::Reading::name_of))]
fn read(name: &[u8]) -> Name
    ensures { result ≡ reading.name_of name.now }
{
    if let Some(property) = property(name) {
        return property;
    }
    if let Some(range) = range(name) {
        return range;
    }
    if let Some(log) = log(name) {
        return log;
    }
    if let Some(manifest) = manifest(name) {
        return manifest;
    }
    Name::Other
}

#[tactic(auto, unfolding(crate::specs::Reading::property_of))]
fn property(name: &[u8]) -> Option<Name>
    ensures { result ≡ reading.property_of name.now }
{
    if is_text(name, b"properties/unreliable_end") {
        Some(Name::Unreliable)
    } else if is_text(name, b"properties/expired_end") {
        Some(Name::Expired)
    } else {
        None
    }
}

#[tactic(auto, unfolding(fb_bytes::specs::Bytes::is_same))]
fn is_text(name: &[u8], text: &[u8]) -> bool
    ensures { result ≡ is_same name.now text.now }
{
    name == text
}

#[tactic(auto, unfolding(crate::specs::Reading::range_of))]
fn range(name: &[u8]) -> Option<Name>
    ensures { result ≡ reading.range_of name.now }
{
    let (snapshot, rest) = number_after(b"kvranges/snapshot.", name)?;
    let (group, rest) = number_after(b"/", rest)?;
    let (version, rest) = number_after(b"/range,", rest)?;
    let (ticket, rest) = number_after(b",", rest)?;
    let (block, rest) = number_after(b",", rest)?;
    if !rest.is_empty() {
        return None;
    }
    if group != ticket / 1000 {
        return None;
    }
    let block = size_of_block(block)?;
    Some(Name::Range {
        snapshot,
        version,
        ticket,
        block,
    })
}

#[tactic(auto, unfolding(crate::specs::Reading::log_of))]
fn log(name: &[u8]) -> Option<Name>
    ensures { result ≡ reading.log_of name.now }
{
    let (group, rest) = number_after(b"logs/", name)?;
    let (begin, rest) = number_after(b"/log,", rest)?;
    let (end, rest) = number_after(b",", rest)?;
    let (ticket, rest) = number_after(b",", rest)?;
    let (block, rest) = number_after(b",", rest)?;
    if !rest.is_empty() {
        return None;
    }
    if group != begin / 1_000_000_000 {
        return None;
    }
    let block = size_of_block(block)?;
    if begin >= end {
        return None;
    }
    Some(Name::Log {
        begin,
        end,
        ticket,
        block,
    })
}

#[tactic(auto, unfolding(crate::specs::Reading::manifest_of))]
fn manifest(name: &[u8]) -> Option<Name>
    ensures { result ≡ reading.manifest_of name.now }
{
    let (begin, rest) = number_after(b"snapshots/snapshot,", name)?;
    let (end, rest) = number_after(b",", rest)?;
    let (bytes, rest) = number_after(b",", rest)?;
    let (ticket, rest) = number_after(b",", rest)?;
    if !rest.is_empty() {
        return None;
    }
    if begin > end {
        return None;
    }
    Some(Name::Manifest {
        begin,
        end,
        bytes,
        ticket,
    })
}

/// One of the four sizes of blocks.
fn size_of_block(number: u64) -> Option<u32>
    ensures { result ≡ (if is_block number then Some number else None) }
{
    match number {
        256 => Some(256),
        4_096 => Some(4_096),
        262_144 => Some(262_144),
        1_048_576 => Some(1_048_576),
        _ => None,
    }
}

/// The number behind a text, and what stands behind it.
#[tactic(auto, unfolding(crate::specs::Reading::number_after))]
fn number_after<'a>(text: &[u8], bytes: &'a [u8]) -> Option<(u64, &'a [u8])>
    ensures { option_map (λ x. (x.0, x.1.now)) result ≡ reading.number_after text.now bytes.now }
{
    let rest = after(text, bytes)?;
    number_at(rest)
}

#[tactic(auto, unfolding(crate::specs::Reading::after, fb_bytes::specs::Bytes::is_same))]
fn after<'a>(text: &[u8], bytes: &'a [u8]) -> Option<&'a [u8]>
    ensures { option_map (λ rest. rest.now) result ≡ reading.after text.now bytes.now }
{
    bytes.strip_prefix(text)
}

/// The number in front, with all its digits, and what stands behind it. It takes no memory.
#[tactic(auto, unfolding(crate::specs::Reading::number_at))]
pub fn number_at(bytes: &[u8]) -> Option<(u64, &[u8])>
    ensures { option_map (λ x. (x.0, x.1.now)) result ≡ reading.number_at bytes.now }
{
    let (digits, rest) = bytes.split_at(digits_in(bytes));
    let number = number_of(digits)?;
    Some((number, rest))
}

fn digits_in(bytes: &[u8]) -> usize
    ensures same { result ≡ prefix_len is_ascii_digit bytes.now }
    ensures within { result ≤ length bytes.now }
{
    bytes
        .iter()
        .take_while(|byte| byte.is_ascii_digit())
        .count()
}

/// The number that digits write, where they are written as in names.
#[tactic(auto, unfolding(crate::specs::Reading::number_of))]
fn number_of(digits: &[u8]) -> Option<u64>
    requires { all_ascii_digits digits.now ≡ true }
    ensures { result ≡ reading.number_of digits.now }
{
    if digits.is_empty() {
        return None;
    }
    if digits[0] == b'0' && digits.len() != 1 {
        return None;
    }
    value_of(digits)
}

/// What the digits write, where it is below 2^63.
fn value_of(digits: &[u8]) -> Option<u64>
    requires { all_ascii_digits digits.now ≡ true }
    ensures { result
        ≡ (if spec.is_number (reading.value_after 0 digits.now)
        then Some (reading.value_after 0 digits.now) else None) }
{
    let mut value: u64 = 0;
    for digit in digits {
        let digit = u64::from(*digit - b'0');
        if value > (GREATEST - digit) / 10 {
            return None;
        }
        value = value * 10 + digit;
    }
    Some(value)
}
