//! What stays readable, over the lines of a session and over runs that pass a keyset on; and when
//! each family of commands is Done.
#![tactic(auto)]

pub mod laws;
