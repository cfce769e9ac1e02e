//! Keysets as JSON, read and written (the JSON mapping of proto3, of tink.proto's `Keyset`).
//!
//! `serde_json` reads and prints the values, and `base64` the bytes in them.
#![tactic(auto)]

mod base64_text;
mod fields;
pub mod laws;
mod member;
mod names;
mod nesting;
mod numbers;
mod reading;
mod writing;

pub use base64_text::read_bytes;
pub use member::{Member, Path};
pub use reading::{JsonError, read_json, read_value, without_newline};
pub use writing::write_json;
