//! The names that a folder on disk takes, so that no name leads out of the folder.

ghost use Rattle.std.specs.Prelude.{◌≡◌};
ghost use Rattle.std.specs.List.{list_all};
ghost use Rattle.fb_outside.specs.inner.Parts as parts;

/// Whether the name is parts with slashes between, as each name of the store's own forms is.
pub fn is_store_name(name: &[u8]) -> bool
    ensures { result ≡ parts.is_store_name name.now }
{
    name.split(|byte| *byte == b'/').all(|part| is_part(part))
}

/// Whether this is one part of a name. One that begins with `.` isn't, so that neither `..` nor a
/// file that isn't finished yet is a part.
pub fn is_part(part: &[u8]) -> bool
    ensures { result ≡ parts.is_part part.now }
{
    !part.is_empty() && part[0] != b'.' && are_part_bytes(part)
}

fn are_part_bytes(part: &[u8]) -> bool
    ensures { result ≡ list_all parts.is_part_byte part.now }
{
    part.iter().all(|byte| is_part_byte(*byte))
}

fn is_part_byte(byte: u8) -> bool
    ensures { result ≡ parts.is_part_byte byte }
{
    matches!(byte, b'a'..=b'z' | b'A'..=b'Z' | b'0'..=b'9' | b'_' | b'-' | b'.' | b',')
}
