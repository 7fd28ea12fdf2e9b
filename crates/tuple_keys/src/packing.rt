//! Tuples as bytes.

ghost use Rattle.std.specs.Prelude.{◌≡◌, ◌+◌, ◌-◌, ◌∷◌, [], ◌++◌, ◌<◌, ◌≤◌, ◌^◌, ℕ, length, IfOk, OnOk};
ghost use Rattle.std.specs.Int.RustNames.{unsigned_abs};
ghost use Rattle.tuple_keys.specs.Elements.{IsSmall};
ghost use Rattle.tuple_keys.specs.Spelling.{escaped, closed, complement, number_spelling, int_spelling, element_spelling, spelling};

use crate::numbers::{is_negative, magnitude, without_zeros};
use crate::{Element, Tuple};
use fb_bytes::Blob;
use std::alloc::{AllocError, Global};

// Each zero byte is followed by ff, so that the zero at the end stands alone.
fn put_byte(out: &mut Blob, byte: u8) -> Result<(), AllocError>
    ensures { OnOk result (out.new ≡ out.old ++ escaped (byte ∷ [])) }
{
    match byte {
        0 => out.extend_from_slice(&[0, 255]),
        _ => out.push(byte),
    }
}

fn put_closed(out: &mut Blob, bytes: &[u8]) -> Result<(), AllocError>
    ensures { OnOk result (out.new ≡ out.old ++ closed bytes.now) }
{
    for byte in bytes {
        put_byte(out, *byte)?;
    }
    out.push(0)
}

fn put_positive(out: &mut Blob, digits: &[u8]) -> Result<(), AllocError>
    requires { length digits.now ≤ 8 }
    ensures { OnOk result (out.new ≡ out.old ++ (20 + length digits.now) ∷ digits.now) }
{
    out.push(20 + digits.len() as u8)?;
    out.extend_from_slice(digits)
}

fn put_negative(out: &mut Blob, digits: &[u8]) -> Result<(), AllocError>
    requires { length digits.now ≤ 8 }
    ensures { OnOk result (out.new ≡ out.old ++ (20 - length digits.now) ∷ complement digits.now) }
{
    out.push(20 - digits.len() as u8)?;
    for digit in digits {
        out.push(255 - *digit)?;
    }
    Ok(())
}

fn put_number(out: &mut Blob, negative: bool, magnitude: u64) -> Result<(), AllocError>
    ensures { OnOk result (out.new ≡ out.old ++ number_spelling negative magnitude) }
{
    let bytes = magnitude.to_be_bytes();
    let digits = without_zeros(&bytes);
    if negative {
        put_negative(out, digits)
    } else {
        put_positive(out, digits)
    }
}

fn put_int(out: &mut Blob, number: i128) -> Result<(), AllocError>
    requires { unsigned_abs number < 2 ^ 64 }
    ensures { OnOk result (out.new ≡ out.old ++ int_spelling number) }
{
    put_number(out, is_negative(number), magnitude(number))
}

fn put(out: &mut Blob, element: &Element) -> Result<(), AllocError>
    requires { IsSmall element.now }
    ensures { OnOk result (out.new ≡ out.old ++ element_spelling element.now) }
{
    match element {
        Element::Null => out.push(0),
        Element::Bytes(bytes) => {
            out.push(1)?;
            put_closed(out, bytes.as_slice())
        }
        Element::Text(text) => {
            out.push(2)?;
            put_closed(out, text.as_bytes())
        }
        Element::Int(number) => put_int(out, *number),
    }
}

/// Adds the spelling of a tuple at the end.
pub fn pack_into(out: &mut Blob, tuple: &Tuple) -> Result<(), AllocError>
    ensures { OnOk result (out.new ≡ out.old ++ spelling tuple.now) }
{
    for element in tuple.as_slice() {
        put(out, element)?;
    }
    Ok(())
}

/// The one spelling of the tuple. The byte order of spellings is the order of the tuples.
pub fn pack(alloc: Global, tuple: &Tuple) -> Result<Blob, AllocError>
    ensures { IfOk result (λ blob. blob ≡ spelling tuple.now) }
{
    let mut out = Blob::new(alloc);
    pack_into(&mut out, tuple)?;
    Ok(out)
}
