//! The self-test: many session lines, made from one number, and their outcomes.
#![tactic(auto)]

mod counts;
pub mod laws;
mod numbers;
mod selftest;
mod trial;

pub use counts::{Counts, counts_text};
pub use selftest::{SelfTestFault, self_test};
