//! A session over an input: lines come in, each has a reply, and some save the keyset.
#![tactic(auto)]

mod saving;
pub mod talk;
