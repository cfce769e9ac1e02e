//! Deterministic authenticated encryption: AES-SIV (RFC 5297) with exactly one associated datum,
//! which may be empty, and with keys of 32 and 64 bytes.
#![tactic(auto)]

pub mod laws;
mod siv;

pub use siv::{SivKey, siv_open, siv_seal};
