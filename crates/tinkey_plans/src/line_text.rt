//! A line on the stack, which may be longer than a short text.

ghost use Rattle.std.specs.Prelude.{◌≡◌, ◌+◌, ◌≤◌, [], ◌++◌, length, decimal};

use std::marker::Model;
use tinkey_session::ShortText;

/// The longest line, in bytes.
const LONGEST: usize = 256;

/// A line of at most 256 bytes. Contracts see the list of its bytes.
#[derive(Drop)]
pub(crate) struct LineText {
    bytes: [u8; LONGEST],
    len: usize,
}

impl Model for LineText {
    ghost use Rattle.std.specs.Prelude.{◌≤◌, List, ℕ, take};

    ghost Value = { List ℕ };

    ghost view = { λ text. take text.len text.bytes };

    ghost invariant = { λ text. text.len ≤ 256 };
}

impl LineText {
    /// The empty line.
    pub(crate) fn new() -> LineText
        ensures { result ≡ [] }
    {
        LineText {
            bytes: [0; LONGEST],
            len: 0,
        }
    }

    /// Adds text at the end, for which there is room.
    pub(crate) fn push(&mut self, text: &str)
        requires room { length self.old + length text.now ≤ 256 }
        ensures { self.new ≡ self.old ++ text.now }
    {
        self.push_bytes(text.as_bytes());
    }

    /// Adds bytes at the end, for which there is room.
    pub(crate) fn push_bytes(&mut self, bytes: &[u8])
        requires room { length self.old + length bytes.now ≤ 256 }
        ensures { self.new ≡ self.old ++ bytes.now }
    {
        let end = self.len + bytes.len();
        self.bytes[self.len..end].copy_from_slice(bytes);
        self.len = end;
    }

    /// Adds a number in decimal digits, for which there is room.
    pub(crate) fn push_number(&mut self, number: usize)
        requires room { length self.old + 40 ≤ 256 }
        ensures text { self.new ≡ self.old ++ decimal number }
        ensures short { length self.new ≤ length self.old + 40 }
    {
        let mut digits = ShortText::new();
        digits.push_number(number);
        self.push_bytes(digits.as_slice());
    }

    /// Lends the bytes.
    pub(crate) fn as_slice(&self) -> &[u8]
        ensures { result.now ≡ self.now }
    {
        &self.bytes[..self.len]
    }
}
