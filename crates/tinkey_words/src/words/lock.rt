//! Masters: keysets under which other keysets are sealed.

use super::Format;

/// The master of other keysets.
#[derive(Clone, Copy)]
pub struct Master<'a> {
    /// The file of the master.
    pub file: &'a str,
    /// The form of the master.
    pub form: Format,
}

/// How a keyset is written.
#[derive(Clone, Copy)]
pub enum NewLock<'a> {
    /// As it was taken: under the same master, or in clear.
    AsTaken,
    /// In clear.
    InClear,
    /// Under this master.
    Under(Master<'a>),
}
