//! The rules that a key message keeps.

/// A rule of key messages, in the order in which the rules are tried. Each covers all fields of its
/// kind in the message, inner messages included.
#[derive(Clone, Copy, Debug, PartialEq, Eq)]
pub enum Rule {
    /// The bytes are a message: they cut into fields, and each known field has its wire type.
    Form,
    /// The versions are 0.
    Version,
    /// The hash functions have numbers that the key type takes.
    Hash,
    /// The keys have sizes, in bytes, that the key type takes.
    KeySize,
    /// The IV has a size, in bytes, that the key type takes.
    IvSize,
    /// The tag has a size, in bytes, that the key type takes.
    TagSize,
    /// The derived key has a size, in bytes, that the key type takes.
    DerivedSize,
    /// A segment has a size, in bytes, that the key type takes.
    Segment,
}
