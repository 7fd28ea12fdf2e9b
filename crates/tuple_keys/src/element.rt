ghost use Rattle.std.specs.Prelude.{◌≡◌, IfOk};

use fb_bytes::{Blob, Text};
use std::alloc::AllocError;

/// One value of a tuple.
#[derive(Debug, Drop)]
pub enum Element {
    Null,
    Bytes(Blob),
    Text(Text),
    /// A tuple holds only those whose magnitude is below 2 to the 64th.
    Int(i128),
}

impl Element {
    /// An equal element with memory of its own.
    pub fn copy(&self) -> Result<Self, AllocError>
        ensures { IfOk result (λ element. element ≡ self.now) }
    {
        match self {
            Element::Null => Ok(Element::Null),
            Element::Bytes(bytes) => Ok(Element::Bytes(bytes.copy()?)),
            Element::Text(text) => Ok(Element::Text(text.copy()?)),
            Element::Int(number) => Ok(Element::Int(*number)),
        }
    }
}
