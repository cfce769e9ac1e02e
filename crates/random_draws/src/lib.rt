//! Which random bytes a session and a whole run draw, their places in the device's stream, and that
//! none is used twice. There are only definitions and laws here, no code.
#![tactic(auto)]

pub mod laws;
