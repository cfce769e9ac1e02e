//! Rows in text files, each saying what is run and how the run must end. This library reads them,
//! has them run by a `Runner` that the caller supplies, and reports what differs. No program for
//! users contains it. The format is described in docs/ROWS.md.
#![tactic(auto)]

mod cells;
mod changed;
mod compare;
mod differences;
mod failing;
mod files;
mod names;
mod rows;
mod runner;
mod running;

pub use files::{Tally, run_text};
pub use names::Names;
pub use runner::{Objects, Outcome, Runner};
