//! The edits of a keyset: its creation from a template, new keys, and the retirement of old ones.
#![tactic(auto)]

mod applying;
mod command;
mod drawing;
mod editing;
pub mod laws;

pub use applying::{apply, create};
pub use command::{EditError, EditRefusal, KeysetEdit};
