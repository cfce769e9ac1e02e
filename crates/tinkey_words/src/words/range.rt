//! A range of a stream that the words ask for.

ghost use Rattle.std.specs.Prelude.{◌<◌, ◌≤◌, ◌^◌};

/// A range of the plaintext of the stream in a file.
#[derive(Clone, Copy)]
pub struct Range<'a> {
    /// The file.
    pub file: &'a str,
    /// The offset of the first byte, counted from 0: below 2^63.
    pub from: u64,
    /// How many bytes: at most 16,777,216.
    pub length: u32,
    ghost from_bound: { from < 2 ^ 63 },
    ghost length_bound: { length ≤ 16777216 },
}
