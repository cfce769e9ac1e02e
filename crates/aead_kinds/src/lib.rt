//! Authenticated encryption with associated data, under AES keys of 16 and 32 bytes: AES-GCM
//! (SP 800-38D), AES-GCM-SIV (RFC 8452), which resists repeated IVs, EAX (Bellare, Rogaway and
//! Wagner), and AES-CTR-HMAC by Tink's wire format.
#![tactic(auto)]

mod aead;
mod ctr_hmac;
mod eax;
mod gcm;
mod gcm_siv;
pub mod laws;
mod polyval;
mod scheme;
mod segment;

pub use aead::{AeadKey, open, seal};
pub use gcm::{Gcm, GcmKey};
pub use gcm_siv::{gcm_siv_open, gcm_siv_seal};
pub use segment::{ctr_hmac_open_in_place, ctr_hmac_seal_in_place};
