//! What each command answers: plans, how a run may end, and the promises that hold for every plan.
//!
//! A command has a plan, the list of its steps in the order of refusals (`specs/Plan.antt`,
//! `specs/Commands.antt`). A plan's two meanings are defined once: the stated answer, and how a run
//! may end whatever fails (`specs/Ends.antt`). Steps that commands share are one word of plans each
//! (`specs/Steps.antt`, `specs/Using.antt`), and what a keyset answers is defined apart from plans,
//! in `wrapped_prims`. Each promise of a run follows for every plan (`specs/Promises.antt`,
//! `proofs/PromiseLemmas.antt`).
#![tactic(auto)]

mod advice;
mod diagnostic;
mod help;
pub mod laws;
mod line_text;
mod mention;
mod misfit;
mod origin;
mod sealer;
mod status;
mod unfit;

pub use diagnostic::{report, starve};
pub use help::{help_text, version_text};
pub use mention::{Left, Mention, mention_of, no_mention};
pub use origin::{Begins, Origin, begins_of};
pub use sealer::{Sealer, Unopened};
pub use status::Status;
pub use unfit::{UnfitKey, handle_status, stream_keys_status};
