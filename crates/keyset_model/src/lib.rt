//! Keysets: lists of records with a primary, their binary form read and written, and their listing.
//!
//! A `Keyset` is well formed as its type's invariant. Edits are in a crate above.
#![tactic(auto)]

mod faults;
mod key;
mod keyset;
pub mod laws;
mod listing;
mod reading;
mod record;
mod writing;

pub use keyset::{Keyset, KeysetRefusal};
pub use listing::{info_text, prefix_name, status_name};
pub use reading::{ReadError, read_binary};
pub use record::Record;
pub use writing::write_binary;
