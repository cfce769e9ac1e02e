//! The keys of keysets for programs in C: sealing, opening, tagging, verifying and deriving;
//! and streams.
//!
//! The conditions that these functions put on their caller are tested or kept by `c/tinkey.c`,
//! which programs call.
#![tactic(auto)]

mod calls;
pub mod exports;
mod shared;
mod shared_stream;
mod stream_calls;
pub mod stream_exports;
