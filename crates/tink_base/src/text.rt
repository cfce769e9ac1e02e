//! Text on the heap.

ghost use Rattle.std.specs.Prelude.{◌≡◌, IfOk, string_bytes};

use crate::NoMemory;
use std::alloc::Global;
use std::marker::Model;

/// Text on the heap. Contracts see the list of its UTF-8 bytes.
#[derive(Drop)]
pub struct Text {
    text: String,
}

impl Model for Text {
    ghost use Rattle.std.specs.Prelude.{List, ℕ, string_bytes};

    ghost Value = { List ℕ };

    ghost view = { λ t. string_bytes t.text };
}

impl Text {
    /// The text of a `String`.
    pub fn own(from: String) -> Text
        ensures { result ≡ string_bytes from }
    {
        Text { text: from }
    }

    /// A copy of the text.
    pub fn copy(alloc: Global, from: &str) -> Result<Text, NoMemory>
        ensures { IfOk result (λ text. text ≡ from.now) }
    {
        match String::from_str(alloc, from) {
            Ok(text) => Ok(Text { text }),
            Err(_) => Err(NoMemory),
        }
    }

    /// Lends the text.
    pub fn as_str(&self) -> &str
        ensures { result.now ≡ self.now }
    {
        self.text.as_str()
    }
}
