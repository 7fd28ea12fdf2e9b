//! Numbers and strings at the front of bytes.

ghost use Rattle.std.specs.Prelude.{◌≡◌, ◌++◌, length, OnOk, OnErr};
ghost use Rattle.std.specs.Option.{option_map};
ghost use Rattle.mutations.specs.Parts as parts;
ghost use Rattle.mutations.specs.Spelling.{u32_bytes, u64_bytes};

use fb_bytes::Blob;
use std::alloc::AllocError;

#[tactic(auto, unfolding(crate::specs::Parts::u32_of))]
pub fn u32_of(bytes: &[u8]) -> u32
    requires { length bytes.now ≡ 4 }
    ensures { result ≡ parts.u32_of bytes.now }
{
    u32::from_le_bytes([bytes[0], bytes[1], bytes[2], bytes[3]])
}

#[tactic(auto, unfolding(crate::specs::Parts::u64_of))]
pub fn u64_of(bytes: &[u8]) -> u64
    requires { length bytes.now ≡ 8 }
    ensures { result ≡ parts.u64_of bytes.now }
{
    u64::from_le_bytes([
        bytes[0], bytes[1], bytes[2], bytes[3], bytes[4], bytes[5], bytes[6], bytes[7],
    ])
}

#[tactic(auto, unfolding(crate::specs::Spelling::u32_bytes))]
pub fn put_u32(out: &mut Blob, number: u32) -> Result<(), AllocError>
    ensures { OnOk result (out.new ≡ out.old ++ u32_bytes number) }
{
    out.extend_from_slice(&number.to_le_bytes())?;
    Ok(())
}

#[tactic(auto, unfolding(crate::specs::Spelling::u64_bytes))]
pub fn put_u64(out: &mut Blob, number: u64) -> Result<(), AllocError>
    ensures { OnOk result (out.new ≡ out.old ++ u64_bytes number) }
{
    out.extend_from_slice(&number.to_le_bytes())?;
    Ok(())
}

/// The first bytes and the rest, where there are so many.
pub fn split(bytes: &[u8], count: usize) -> Option<(&[u8], &[u8])>
    ensures { option_map (λ x. (x.0.now, x.1.now)) result ≡ parts.split count bytes.now }
{
    if bytes.len() < count {
        return None;
    }
    Some(bytes.split_at(count))
}

/// The number that the first four bytes are, and the rest.
pub fn number_at(bytes: &[u8]) -> Option<(u32, &[u8])>
    ensures { option_map (λ x. (x.0, x.1.now)) result ≡ parts.number_at bytes.now }
{
    let (front, rest) = split(bytes, 4)?;
    Some((u32_of(front), rest))
}

/// A mutation's code and two strings, and the bytes after it.
#[derive(Debug, Drop)]
pub struct MutationParts<'a> {
    pub code: u32,
    pub first: &'a [u8],
    pub second: &'a [u8],
    pub rest: &'a [u8],
}

/// The parts of the mutation at the front, where no part passes the end.
pub fn parts_of(bytes: &[u8]) -> Option<MutationParts<'_>>
    ensures { option_map
        (λ p. record {
          code = p.code;
          first = p.first.now;
          second = p.second.now;
          rest = p.rest.now;
        }) result ≡ parts.parts_of bytes.now }
{
    let (code, rest) = number_at(bytes)?;
    let (first_len, rest) = number_at(rest)?;
    let (second_len, rest) = number_at(rest)?;
    let (first, rest) = split(rest, first_len as usize)?;
    let (second, rest) = split(rest, second_len as usize)?;
    Some(MutationParts {
        code,
        first,
        second,
        rest,
    })
}
