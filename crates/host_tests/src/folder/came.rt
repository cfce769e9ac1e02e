//! How far a name has come that a test watches. It stands outside the tests, as `specs/Names.antt` speaks
//! of it.

/// How far a name has come. Of a file that was linked it tells whether it lasted then.
#[derive(Clone, Copy)]
pub enum Came {
    /// No file was made.
    Free,
    /// A call has said that memory is wanting.
    Starved,
    /// A file was made under a temporary name.
    Begun,
    /// A call has said that something has it.
    Taken,
    /// A link was refused, as there are none.
    Linkless,
    /// A link gave the name to a file.
    Linked(bool),
    /// A new file was opened under the name itself.
    Opened,
    /// The name was put away.
    Kept(bool),
}

/// Where the file is that was made under a temporary name.
#[derive(Clone, Copy)]
pub enum Stands {
    /// Nowhere.
    Gone,
    /// Under its name.
    There,
    /// Under its name, which couldn't be removed.
    Left,
}
