//! Protobuf fields: a part of a message is cut into its fields, fields give numbers, bytes and
//! embedded messages, and a writer writes them.
//!
//! The rules of reading are in `tink_spec`. Groups are refused.
#![tactic(auto)]

mod cutting;
mod field;
pub mod laws;
mod list;
mod number;
mod reading;
mod writer;

pub use cutting::fields;
pub use field::{Field, FieldsError, Kind, Wire};
pub use list::Fields;
pub use writer::Writer;
