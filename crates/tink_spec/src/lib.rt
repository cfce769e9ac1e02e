//! Definitions that several crates use and that name no type of this project. There is no code
//! here.
#![tactic(auto)]
