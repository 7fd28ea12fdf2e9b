ghost use Rattle.std.specs.Prelude.{◌≡◌, IfOk};
ghost use Rattle.atomic_ops.specs.Bytes.{bytes_and, bytes_or, bytes_xor};

use std::alloc::{AllocError, Global};

// Bit by bit, of two strings of one length.
pub fn and(alloc: Global, x: &[u8], y: &[u8]) -> Result<Vec<u8>, AllocError>
    ensures { IfOk result (λ both. both.items ≡ bytes_and x.now y.now) }
{
    x.iter().zip(y).map(|(x, y)| *x & *y).collect(alloc)
}

pub fn or(alloc: Global, x: &[u8], y: &[u8]) -> Result<Vec<u8>, AllocError>
    ensures { IfOk result (λ either. either.items ≡ bytes_or x.now y.now) }
{
    x.iter().zip(y.iter()).map(|(x, y)| *x | *y).collect(alloc)
}

pub fn xor(alloc: Global, x: &[u8], y: &[u8]) -> Result<Vec<u8>, AllocError>
    ensures { IfOk result (λ one. one.items ≡ bytes_xor x.now y.now) }
{
    x.iter().zip(y.iter()).map(|p| *p.0 ^ *p.1).collect(alloc)
}
