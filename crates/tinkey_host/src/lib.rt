//! What `main` of the program `tinkey` does: it makes the managers of its keys, and runs over the
//! real objects or any others.
#![tactic(auto)]

mod cause;
mod left;
mod not_text;
mod over_streams;
mod progress;
mod standard;
mod terminals;
mod top;

pub use cause::tell_cause;
pub use left::tell_left;
pub use over_streams::start_over_streams;
pub use progress::Watched;
pub use standard::start;
pub use terminals::Terminals;
pub use top::{obey, obey_listed, obey_to_the_end, program};
