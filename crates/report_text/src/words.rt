//! The words of a line, each put behind what stands.

ghost use Rattle.std.specs.Prelude.{◌≡◌, [], ◌∷◌, ◌++◌, OnOk};
ghost use Rattle.fb_bytes.specs.Words.{printed};

use fb_bytes::{Blob, put_printed};
use itoa::{Buffer, Integer};
use std::alloc::{AllocError, Global};

pub fn put(out: &mut Blob, text: &[u8]) -> Result<(), AllocError>
    ensures { OnOk result (out.new ≡ out.old ++ text.now) }
{
    out.extend_from_slice(text)
}

pub fn put_number<N: Integer>(out: &mut Blob, number: N) -> Result<(), AllocError>
    ensures { OnOk result (out.new ≡ out.old ++ N.text number) }
{
    let mut buffer = Buffer::new();
    out.extend_from_slice(buffer.format(number).as_bytes())
}

/// A text and a number behind it.
pub fn put_field<N: Integer>(out: &mut Blob, text: &[u8], number: N) -> Result<(), AllocError>
    ensures { OnOk result (out.new ≡ out.old ++ text.now ++ N.text number) }
{
    put(out, text)?;
    put_number(out, number)
}

/// A text, a number behind it, and the line's end.
pub fn put_last<N: Integer>(out: &mut Blob, text: &[u8], number: N) -> Result<(), AllocError>
    ensures { OnOk result (out.new ≡ out.old ++ (text.now ++ (N.text number ++ 10 ∷ []))) }
{
    put_field(out, text, number)?;
    put(out, b"\n")
}

/// The word of a key, a value or a parameter.
pub fn put_bytes(alloc: Global, out: &mut Blob, bytes: &[u8]) -> Result<(), AllocError>
    ensures { OnOk result (out.new ≡ out.old ++ printed bytes.now) }
{
    put_printed(alloc, out, bytes)
}
