//! Encrypted keysets: a keyset is sealed under a master keyset, and written with its info in the
//! binary form or as JSON (tink.proto's `EncryptedKeyset`); and it is read and opened again.
//!
//! The info of a text is neither trusted nor read.
#![tactic(auto)]

mod encrypted;
pub mod laws;

pub use encrypted::{
    UnwrapFault, WrapFault, encrypted_front, is_wrapped_binary, is_wrapped_json, unwrap_keyset,
    wrap,
};
