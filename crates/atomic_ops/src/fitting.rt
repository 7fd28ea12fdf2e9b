ghost use Rattle.std.specs.Prelude.{◌≡◌, IfOk, option_copied};
ghost use Rattle.atomic_ops.specs.Bytes.{fitted};

use std::alloc::{AllocError, Global};

// What a key has, extended with zeros or cut to a length.
pub fn fitted(alloc: Global, old: Option<&[u8]>, len: usize) -> Result<Vec<u8>, AllocError>
    ensures { IfOk result (λ bytes. bytes.items ≡ fitted (option_copied old.entry) len) }
{
    let old = old.unwrap_or(&[]);
    let kept = old.len().min(len);
    let mut bytes = Vec::from_slice(alloc, &old[..kept])?;
    bytes.resize(len, 0)?;
    Ok(bytes)
}
