//! Envelopes: a plaintext is sealed under a data key of its own, and the data key under a keyset.
#![tactic(auto)]

mod data_keys;
mod envelope;
pub mod laws;

pub use data_keys::{DataKeyFault, data_key};
pub use envelope::{
    ENVELOPE_ROOM, EnvelopeFault, EnvelopeKey, envelope_key, envelope_open, envelope_reseal,
    envelope_seal,
};
