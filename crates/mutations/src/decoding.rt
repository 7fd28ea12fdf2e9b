ghost use Rattle.std.specs.Prelude.{◌≡◌, ◌<◌, ◌≤◌, ◌-◌, ◌⊎◌, List, Option, Some, None, Result, Ok, Err, length, drop, take, IfOk, IfErr, IfSome, MatchResult};
ghost use Rattle.mutations.specs.declared.mutation.Mutation.{Mutation};
ghost use Rattle.mutations.specs.Spelling.{batch_spelling, HasSpelling};
ghost use Rattle.mutations.specs.Reading.{Gives, mutation_of, mutation_at, mutations_at, header_fault, decoded};

use crate::encoding::PROTOCOL;
use crate::wire::{parts_of, u32_of, u64_of};
use crate::{Mutation, WireFault};
use atomic_ops::Op;
use fb_bytes::{Blob, Seq, is_below};
use std::alloc::Global;

/// The mutation of a code and two strings, which stands at a place of the batch.
#[tactic(auto, unfolding(crate::specs::Reading::mutation_of))]
fn mutation_from(
    alloc: Global,
    at: u64,
    code: u32,
    first: &[u8],
    second: &[u8],
) -> Result<Mutation, WireFault>
    ensures { Gives (λ m. m) result (mutation_of at code first.now second.now) }
{
    if code == 0 {
        return Ok(Mutation::Set {
            key: Blob::from_slice(alloc, first)?,
            value: Blob::from_slice(alloc, second)?,
        });
    }
    if code == 1 {
        if !is_below(first, second) {
            return Err(WireFault::Backwards { at });
        }
        return Ok(Mutation::ClearRange {
            begin: Blob::from_slice(alloc, first)?,
            end: Blob::from_slice(alloc, second)?,
        });
    }
    let Some(op) = Op::from_code(code) else {
        return Err(WireFault::Code { at, code });
    };
    Ok(Mutation::Atomic {
        op,
        key: Blob::from_slice(alloc, first)?,
        param: Blob::from_slice(alloc, second)?,
    })
}

/// The mutation at the front, and the bytes after it.
#[tactic(auto, unfolding(crate::specs::Reading::mutation_at))]
fn read_mutation(alloc: Global, at: u64, bytes: &[u8]) -> Result<(Mutation, &[u8]), WireFault>
    ensures gives { Gives (λ x. (x.0, x.1.now)) result (mutation_at at bytes.now) }
    ensures shorter { IfOk result (λ x. length x.1.now < length bytes.now) }
{
    let Some(parts) = parts_of(bytes) else {
        return Err(WireFault::Short { at });
    };
    let mutation = mutation_from(alloc, at, parts.code, parts.first, parts.second)?;
    Ok((mutation, parts.rest))
}

/// The mutations that are the last bytes of a batch of `total` bytes.
fn read_mutations(alloc: Global, total: usize, bytes: &[u8]) -> Result<Seq<Mutation>, WireFault>
    requires { length bytes.now ≤ total }
    ensures { Gives (λ muts. muts) result (mutations_at total total bytes.now) }
{
    let mut muts = Seq::new(alloc);
    let mut rest = bytes;
    while !rest.is_empty() {
        let at = (total - rest.len()) as u64;
        let (mutation, after) = read_mutation(alloc, at, rest)?;
        muts.push(mutation)?;
        rest = after;
    }
    Ok(muts)
}

/// The bytes of the mutations, where what stands before them has no fault.
fn body_of(bytes: &[u8]) -> Result<&[u8], WireFault>
    ensures ok { IfOk result (λ body. (header_fault bytes.now ≡ None)
        × (body.now ≡ drop 12 bytes.now)) }
    ensures err { IfErr result (λ fault. header_fault bytes.now ≡ Some fault) }
{
    if bytes.len() < 12 {
        return Err(WireFault::Short { at: 0 });
    }
    let found = u64_of(&bytes[..8]);
    if found != PROTOCOL {
        return Err(WireFault::Protocol { found });
    }
    let said = u32_of(&bytes[8..12]) as u64;
    let body = &bytes[12..];
    let found = body.len() as u64;
    if said != found {
        return Err(WireFault::Length { said, found });
    }
    Ok(body)
}

/// The mutations that the bytes of a batch spell, or the first fault.
pub fn decode_batch(alloc: Global, bytes: &[u8]) -> Result<Seq<Mutation>, WireFault>
    // What is read is spelled so.
    ensures found { IfOk result (λ muts. HasSpelling muts × (bytes.now ≡ batch_spelling muts)) }
    // What is spelled so is read, unless memory runs out.
    ensures only { (muts : List Mutation) → HasSpelling muts → bytes.now ≡ batch_spelling muts
        → Gives (λ x. x) result (Ok muts) }
    // Which fault it is.
    ensures exact { Gives (λ muts. muts) result (decoded bytes.now) }
    // A fault before the mutations is told whatever the memory.
    ensures header { IfSome (header_fault bytes.now) (λ fault. result ≡ Err fault) }
{
    let body = body_of(bytes)?;
    read_mutations(alloc, bytes.len(), body)
}
