//! The top call `run`, which carries the headline.
//!
//! It reads the words and has the command do what they ask (`tinkey_actions`). What it promises
//! follows for every plan, in `tinkey_plans`.
#![tactic(auto)]

mod finishing;
pub mod laws;
mod top;

pub use key_msgs::Rule;
pub use keyset_model::KeysetRefusal;
pub use tinkey_cmds::EditRefusal;
pub use tinkey_plans::{Sealer, Status, Unopened, starve};
pub use tinkey_session::Refusal;
pub use top::run;
