//! The words of a command: what they ask for, or the first one at fault and why.
//!
//! Their meaning is defined word by word, as the parser goes (`specs/Words.antt`, over the rows of
//! `specs/Names.antt`), and again as a whole (`specs/Grammar.antt`).
#![tactic(auto)]

pub mod laws;
mod words;

pub use words::{
    CommandName, DATUM_LIMIT, Datum, Envelope, Format, KeysetFile, Master, Misfit, Misuse, NewLock,
    OptionName, Output, Range, Request, SealedForm, StreamWork, Topic, ValueForm, Work,
    command_named, is_value, parse,
};
