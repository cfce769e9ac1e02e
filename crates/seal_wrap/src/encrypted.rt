//! Encrypted keysets: a keyset is sealed under a master keyset, written in the binary form or as JSON
//! (tink.proto's `EncryptedKeyset`), and read and opened again.

mod binary_form;
mod json_form;
mod unwrapping;
mod wrapping;

pub use binary_form::is_wrapped_binary;
pub use unwrapping::{UnwrapFault, encrypted_front, is_wrapped_json, unwrap_keyset};
pub use wrapping::{WrapFault, wrap};
