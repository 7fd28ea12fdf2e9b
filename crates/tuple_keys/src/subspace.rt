ghost use Rattle.std.specs.Prelude.{◌≡◌, ◌⊎◌, ◌++◌, true, false, length, take, drop, MatchOption, Ok, Err, IfOk, IfErr};
ghost use Rattle.fb_bytes.specs.Bytes.{is_same};
ghost use Rattle.tuple_keys.specs.declared.fault.TupleFault.TheVariants.{NoMemory};
ghost use Rattle.tuple_keys.specs.Spelling.{spelling};
ghost use Rattle.tuple_keys.specs.Reading.{stripping};

use crate::packing::pack_into;
use crate::{Tuple, TupleFault, unpack};
use fb_bytes::Blob;
use std::alloc::{AllocError, Global};

/// The keys that are a prefix and a tuple behind it.
#[derive(Debug, Drop)]
pub struct Subspace {
    pub prefix: Blob,
}

impl Subspace {
    /// The key of the tuple.
    pub fn key(&self, alloc: Global, tuple: &Tuple) -> Result<Blob, AllocError>
        ensures { IfOk result (λ key. key ≡ self.now.prefix ++ spelling tuple.now) }
    {
        let mut key = Blob::from_slice(alloc, self.prefix.as_slice())?;
        pack_into(&mut key, tuple)?;
        Ok(key)
    }

    /// The tuple behind the prefix, and none where the key doesn't begin with the prefix. A fault's
    /// place counts from the end of the prefix.
    pub fn strip(&self, alloc: Global, key: &[u8]) -> Result<Option<Tuple>, TupleFault>
        ensures ok { IfOk result (λ found. stripping self.now.prefix key.now ≡ Ok found) }
        ensures err { IfErr result (λ fault. (fault ≡ NoMemory)
            ⊎ (stripping self.now.prefix key.now ≡ Err fault)) }
    {
        match behind(self.prefix.as_slice(), key) {
            Some(rest) => Ok(Some(unpack(alloc, rest)?)),
            None => Ok(None),
        }
    }
}

// What stands behind the prefix, where the prefix is there.
#[tactic(auto, unfolding(fb_bytes::specs::Bytes::is_same))]
fn behind<'a>(prefix: &[u8], key: &'a [u8]) -> Option<&'a [u8]>
    ensures { MatchOption result (is_same (take (length prefix.now) key.now) prefix.now ≡ false)
        (λ rest. (is_same (take (length prefix.now) key.now) prefix.now ≡ true)
        × (rest.now ≡ drop (length prefix.now) key.now)) }
{
    if key.len() < prefix.len() {
        return None;
    }
    let (front, rest) = key.split_at(prefix.len());
    if front == prefix { Some(rest) } else { None }
}
