ghost use Rattle.std.specs.Prelude.{◌≡◌, [], ◌∷◌, IfOk};

use super::*;
use fb_bytes::{Blob, Seq, is_same};
use std::alloc::{AllocError, Global};
use std::test::Fail;

/// `set a 1`, alone.
const SET: [u8; 26] = [
    0xbd, 0x1b, 0, 0, 0, 0, 0, 0, 14, 0, 0, 0, 0, 0, 0, 0, 1, 0, 0, 0, 1, 0, 0, 0, 0x61, 0x31,
];

fn set(alloc: Global, key: &[u8], value: &[u8]) -> Result<Mutation, AllocError>
    ensures { IfOk result (λ mutation. mutation ≡ Mutation.Set key.now value.now) }
{
    Ok(Mutation::Set {
        key: Blob::from_slice(alloc, key)?,
        value: Blob::from_slice(alloc, value)?,
    })
}

fn is_set(mutation: &Mutation, wanted_key: &[u8], wanted_value: &[u8]) -> bool {
    match mutation {
        Mutation::Set { key, value } => {
            is_same(key.as_slice(), wanted_key) && is_same(value.as_slice(), wanted_value)
        }
        _ => false,
    }
}

fn one_set(alloc: Global) -> Result<Seq<Mutation>, AllocError>
    ensures { IfOk result (λ muts. muts ≡ Mutation.Set (97 ∷ []) (49 ∷ []) ∷ []) }
{
    let mut muts = Seq::new(alloc);
    muts.push(set(alloc, b"a", b"1")?)?;
    Ok(muts)
}

#[test]
fn batch_of_one_set(rt: HostRuntime) -> Result<(), Fail> {
    let muts = one_set(rt.alloc())?;
    assert_eq!(rt; mutation_bytes(muts.as_slice()), 14);
    let batch = encode_batch(rt.alloc(), &muts)?;
    assert_eq!(rt; batch.as_slice(), SET.as_slice());
    let back = decode_batch(rt.alloc(), &SET)?;
    let [mutation] = back.as_slice() else {
        return Err("one mutation".into());
    };
    assert!(rt; is_set(mutation, b"a", b"1"));
    Ok(())
}

fn crosses<T: Send + Sync>() {}

/// Threads may hand these on and share them.
#[test]
fn types_cross_threads() {
    crosses::<Seq<Mutation>>();
    crosses::<Seq<Entry>>();
    crosses::<LogChunk>();
    crosses::<TxOps>();
    crosses::<WireFault>();
}
