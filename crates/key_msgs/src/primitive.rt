//! What keys are for.

/// A primitive of Tink.
#[derive(Clone, Copy, Debug, PartialEq, Eq)]
pub enum Primitive {
    /// Authenticated encryption with associated data.
    Aead,
    /// Deterministic authenticated encryption with associated data.
    Daead,
    /// Message authentication.
    Mac,
    /// Pseudo-random functions.
    Prf,
    /// Streaming encryption.
    Stream,
}
