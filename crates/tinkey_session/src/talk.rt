//! How a session over an input ends before it.

/// Why a session ends before its input.
#[derive(Clone, Copy, Debug, PartialEq, Eq)]
pub enum TalkFault {
    /// A line has more than 65,536 bytes.
    LineTooLong,
    /// There are more than 100,000 lines.
    TooManyLines,
    /// The source failed.
    ReadFault,
    /// The sink failed.
    WriteFault,
    /// The entropy failed.
    EntropyFault,
    /// Memory couldn't be allocated.
    NoMemory,
}
