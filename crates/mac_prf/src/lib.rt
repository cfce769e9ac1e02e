//! Tags of messages that come in pieces: HMAC (RFC 2104) with SHA-1 and SHA-2, and CMAC (SP
//! 800-38B) over AES; HKDF (RFC 5869), which derives keys; and the operations on blocks and tags
//! that modes of AES need.
#![tactic(auto)]

pub mod blocks;
mod cmac;
mod derive;
mod hasher;
mod hmac;
pub mod laws;

pub use cmac::Cmac;
pub use derive::{TooLong, hkdf, hkdf_expand, hkdf_extract};
pub use hmac::Hmac;
