//! Keysets that are ready for work: the keys of a keyset for one primitive, kept beside it without
//! managers, and sealing, opening, tagging, verifying and deriving with them into a caller's slice.
//!
//! Keys are served by the standard managers, which take no memory. A keyset can be read from its
//! text, or opened from an encrypted one. Streams are sealed and opened in pieces of any size.
#![tactic(auto)]

mod kept;
mod objects;
mod opening;
mod perform;
mod ready;
mod refusal;
mod sealing;
mod step;
mod streams;
mod texts;
mod unwrapping;
mod work;

pub use objects::{StreamKind, StreamObject};
pub use opening::StreamOpening;
pub use ready::ReadyKeyset;
pub use refusal::Refusal;
pub use sealing::StreamSealing;
pub use step::StepFault;
pub use streams::StreamKeyset;
pub use work::Work;
