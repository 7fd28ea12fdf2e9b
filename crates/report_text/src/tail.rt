//! The end of a line, put together from the back.

ghost use Rattle.std.specs.Prelude.{◌≡◌, ◌+◌, ◌≤◌, [], ◌∷◌, ◌++◌, length, decimal};

use itoa::write_digits;
use std::marker::Model;

/// The end of a line, of at most 192 bytes. Each part comes before what stands, so that a line of
/// numbers is one piece, and takes no memory on the heap.
#[derive(Debug, Drop)]
pub struct Tail {
    bytes: [u8; 192],
    start: usize,
}

impl Model for Tail {
    ghost use Rattle.std.specs.Prelude.{List, ℕ, ◌≤◌, drop};

    ghost Value = { List ℕ };

    ghost view = { λ t. drop t.start t.bytes };

    ghost invariant = { λ t. t.start ≤ 192 };
}

impl Tail {
    /// The line feed alone.
    pub fn new() -> Self
        ensures { result ≡ 10 ∷ [] }
    {
        Tail {
            bytes: [b'\n'; 192],
            start: 191,
        }
    }

    /// A text and the line feed.
    pub fn of(text: &[u8]) -> Self
        requires { length text.now ≤ 20 }
        ensures text { result ≡ text.now ++ 10 ∷ [] }
        ensures len { length result ≤ 41 }
    {
        let mut tail = Tail::new();
        tail.text(text);
        tail
    }

    /// A text, a number behind it, and the line feed.
    pub fn last(text: &[u8], number: u64) -> Self
        requires { length text.now ≤ 20 }
        ensures text { result ≡ text.now ++ (decimal number ++ 10 ∷ []) }
        ensures len { length result ≤ 41 }
    {
        let mut tail = Tail::new();
        tail.number(number);
        tail.text(text);
        tail
    }

    /// Puts a text before what stands.
    pub fn text(&mut self, text: &[u8])
        requires { length text.now + length self.old ≤ 192 }
        ensures text { self.new ≡ text.now ++ self.old }
        ensures len { length self.new ≡ length text.now + length self.old }
    {
        let start = self.start - text.len();
        self.bytes[start..self.start].copy_from_slice(text);
        self.start = start;
    }

    /// Puts a number before what stands.
    pub fn number(&mut self, number: u64)
        requires { 20 + length self.old ≤ 192 }
        ensures number { self.new ≡ decimal number ++ self.old }
        ensures len { length self.new ≤ 20 + length self.old }
    {
        self.start = write_digits(number, &mut self.bytes, self.start);
    }

    pub fn as_slice(&self) -> &[u8]
        ensures { result.now ≡ self.now }
    {
        &self.bytes[self.start..]
    }
}
