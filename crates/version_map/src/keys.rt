ghost use Rattle.std.specs.Prelude.{◌≡◌, if◌then◌else◌};
ghost use Rattle.fb_bytes.specs.Bytes as bytes;

use fb_bytes::{Blob, is_below};

/// The later of two keys.
pub fn later<'a>(a: &'a Blob, b: &'a Blob) -> &'a Blob
    ensures { result.now ≡ (if bytes.is_below b.now a.now then a.now else b.now) }
{
    if is_below(b.as_slice(), a.as_slice()) {
        a
    } else {
        b
    }
}

/// The earlier of two keys.
pub fn earlier<'a>(a: &'a Blob, b: &'a Blob) -> &'a Blob
    ensures { result.now ≡ (if bytes.is_below a.now b.now then a.now else b.now) }
{
    if is_below(a.as_slice(), b.as_slice()) {
        a
    } else {
        b
    }
}
