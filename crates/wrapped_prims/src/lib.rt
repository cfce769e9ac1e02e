//! Handles: the work of a keyset under managers that a program supplies. A handle seals, opens,
//! tags, verifies and derives with the keys of a keyset, each checked by a manager.
#![tactic(auto)]

mod following;
mod handle;
mod held;
mod keys;
pub mod laws;
mod making;
mod opening;
mod places;
mod rooms;
mod sealing;
mod trying;

pub use handle::{Handle, HandleError};
pub use keys::HeldKeys;
pub use making::DeriveFault;
pub use places::Places;
pub use sealing::{SealFault, SealIntoFault};
