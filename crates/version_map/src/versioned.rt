ghost use Rattle.std.specs.Prelude.{◌≡◌, ◌↔◌, ◌++◌, List, [], length, IsTrue, OnOk};
ghost use Rattle.version_map.specs.Parts.{part_of};

use fb_bytes::{Blob, KeyRange, is_below};
use std::alloc::AllocError;
use std::marker::Model;

/// Keys that have one version, or that have none.
#[derive(Debug, Drop)]
pub struct Part {
    pub range: KeyRange,
    pub version: Option<u64>,
}

/// The parts of a range, in the order of their keys.
#[derive(Debug, Drop)]
pub struct Versioned {
    parts: Vec<Part>,
}

impl Model for Versioned {
    ghost use Rattle.std.specs.Prelude.{List};
    ghost use Rattle.version_map.specs.declared.versioned.Part.{Part};

    ghost Value = { List Part };

    ghost view = { λ v. v.parts.items };
}

impl Versioned {
    /// The same parts, with no copy.
    pub fn from_vec(parts: Vec<Part>) -> Self
        ensures { result ≡ parts.items }
    {
        Versioned { parts }
    }

    /// The same parts, with no copy.
    pub fn into_vec(self) -> Vec<Part>
        ensures { result.items ≡ self }
    {
        let Versioned { parts } = self;
        parts
    }

    pub fn as_slice(&self) -> &[Part]
        ensures { result.now ≡ self.now }
    {
        &self.parts
    }

    pub fn len(&self) -> usize
        ensures { result ≡ length self.now }
    {
        self.parts.len()
    }

    pub fn is_empty(&self) -> bool
        ensures { IsTrue result ↔ (self.now ≡ []) }
    {
        self.parts.is_empty()
    }
}

/// Adds a part at the end, unless it is empty.
pub fn push_part(
    parts: &mut Vec<Part>,
    begin: &Blob,
    end: &Blob,
    version: Option<u64>,
) -> Result<(), AllocError>
    ensures { OnOk result (parts.new.items ≡ parts.old.items ++ part_of begin.now end.now version) }
{
    if is_below(begin.as_slice(), end.as_slice()) {
        let range = KeyRange {
            begin: begin.copy()?,
            end: end.copy()?,
        };
        parts.push(Part { range, version })?;
    }
    Ok(())
}
