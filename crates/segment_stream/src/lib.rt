//! Tink's streaming AEAD, AES-GCM-HKDF and AES-CTR-HMAC: streams sealed and opened in one pass.
#![tactic(auto)]

mod arriving;
mod buffer;
mod choosing;
mod derived;
mod fault;
mod key;
mod keys;
pub mod laws;
mod opener;
mod opening;
mod reading;
mod resealing;
mod sealer;
mod sealing;
mod segments;
mod settling;
mod trying;

pub use arriving::OpeningStream;
pub use fault::{OpenPumpFault, SealPumpFault, UpdateFault};
pub use key::StreamKey;
pub use keys::{StreamKeys, StreamKeysFault};
pub use opener::Opener;
pub use sealer::{Sealer, SealerFault};
pub use sealing::SealingStream;
pub use segments::Stream;
