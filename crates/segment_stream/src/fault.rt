//! Why a pass over a stream ends early.

/// Why a stream wasn't opened to its end.
#[derive(Clone, Copy, Debug, PartialEq, Eq)]
pub enum OpenPumpFault {
    /// The source failed.
    ReadFault,
    /// The sink failed.
    WriteFault,
    /// A byte follows 2^32 segments, of which all but the last are known to authenticate.
    TooManySegments,
    /// This segment, counted from 0, is the first that doesn't authenticate in its place; also 0 if
    /// the first segment authenticates under no key.
    StreamFailed(u64),
}

/// Why a stream wasn't sealed to its end.
#[derive(Clone, Copy, Debug, PartialEq, Eq)]
pub enum SealPumpFault {
    /// The source failed.
    ReadFault,
    /// The sink failed.
    WriteFault,
    /// The plaintext has more bytes than 2^32 full segments hold.
    TooManySegments,
}

/// Why plaintext that came in pieces wasn't sealed to its end.
#[derive(Clone, Copy, Debug, PartialEq, Eq)]
pub enum UpdateFault {
    /// The sink failed.
    WriteFault,
    /// The plaintext has more bytes than 2^32 full segments hold.
    TooManySegments,
}
