//! Hexadecimal by lanes of vectors, encoded and decoded as the crate `hex` defines it.
//!
//! Digits are decoded 32 at a time, and the last ones in a block padded with zeros. No branch and
//! no memory address depends on a byte that is encoded or on a digit of a text that decodes: the
//! bodies are written so, but no clause says it. A text that doesn't decode goes to `hex`, which
//! reports why. Functions over a whole text aren't inlined, so their machine code can be read under
//! their own names.
#![tactic(auto)]

mod decoding;
mod encoding;

pub use decoding::decode;
pub use encoding::encode_onto;
