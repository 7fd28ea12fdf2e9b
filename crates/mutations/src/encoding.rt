ghost use Rattle.std.specs.Prelude.{◌≡◌, ◌^◌, ◌<◌, ◌++◌, length, IfOk, OnOk};
ghost use Rattle.mutations.specs.Spelling.{mutation_code, first_string, second_string, mutation_spelling, batch_spelling, HasSpelling};

use crate::Mutation;
use crate::counting::mutation_bytes;
use crate::wire::{put_u32, put_u64};
use fb_bytes::{Blob, Seq};
use std::alloc::{AllocError, Global};

/// The number that each batch begins with.
pub const PROTOCOL: u64 = 7101;

impl Mutation {
    /// The number that stands for the kind of mutation in a batch.
    pub fn code(&self) -> u32
        ensures { result ≡ mutation_code self.now }
    {
        match self {
            Mutation::Set { .. } => 0,
            Mutation::ClearRange { .. } => 1,
            Mutation::Atomic { op, .. } => op.code(),
        }
    }

    /// Key and value, begin and end, or key and parameter.
    pub fn strings(&self) -> (&Blob, &Blob)
        ensures first { result.0.now ≡ first_string self.now }
        ensures second { result.1.now ≡ second_string self.now }
    {
        match self {
            Mutation::Set { key, value } => (key, value),
            Mutation::ClearRange { begin, end } => (begin, end),
            Mutation::Atomic { key, param, .. } => (key, param),
        }
    }
}

fn put_mutation(batch: &mut Blob, mutation: &Mutation) -> Result<(), AllocError>
    requires { length (mutation_spelling mutation.now) < 2 ^ 32 }
    ensures { OnOk result (batch.new ≡ batch.old ++ mutation_spelling mutation.now) }
{
    let (first, second) = mutation.strings();
    put_u32(batch, mutation.code())?;
    put_u32(batch, first.len() as u32)?;
    put_u32(batch, second.len() as u32)?;
    batch.extend_from_slice(first.as_slice())?;
    batch.extend_from_slice(second.as_slice())?;
    Ok(())
}

/// The bytes of a batch of these mutations.
pub fn encode_batch(alloc: Global, muts: &Seq<Mutation>) -> Result<Blob, AllocError>
    requires { HasSpelling muts.now }
    ensures { IfOk result (λ batch. batch ≡ batch_spelling muts.now) }
{
    let muts = muts.as_slice();
    let length = mutation_bytes(muts) as u32;
    let mut batch = Blob::from_vec(Vec::with_capacity(alloc, length as usize + 12)?);
    put_u64(&mut batch, PROTOCOL)?;
    put_u32(&mut batch, length)?;
    for mutation in muts {
        put_mutation(&mut batch, mutation)?;
    }
    Ok(batch)
}
