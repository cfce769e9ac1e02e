//! The printed examples of the standards and examples of Tink's formats, proved of the definitions
//! alone by computing them: a changed digit is refused. There is no function here.
#![tactic(auto)]
