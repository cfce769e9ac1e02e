//! Why words are refused, by `specs/Words.antt`.

ghost use Rattle.std.specs.Prelude.{◌≡◌};
ghost use Rattle.tinkey_words.specs.Words.{misuse_at};

use super::names::{CommandName, OptionName};

/// The first word at fault, and why it is so.
#[derive(Clone, Copy, Debug, PartialEq, Eq)]
pub struct Misuse {
    /// The word's place, counted from 0; if a word is missing at the end, the number of words.
    pub place: usize,
    /// Why it is at fault.
    pub why: Misfit,
}

/// Why a word is at fault, with the command that it follows.
#[derive(Clone, Copy, Debug, PartialEq, Eq)]
pub enum Misfit {
    /// The first word is no command, or there is no word.
    NoCommand,
    /// Help has no topic of this name.
    NoTopic,
    /// The word follows words that ask for help or for the version.
    TooMany,
    /// The word is no option of the command.
    NoOption(CommandName),
    /// The option was given before.
    Twice(CommandName, OptionName),
    /// The first option excludes the second one, which was given before.
    Beside(CommandName, OptionName, OptionName),
    /// The value isn't of the option's form, and none of the next three says why.
    BadValue(CommandName, OptionName),
    /// The value is a temporary name, but the option takes a new file's name.
    Temporary(CommandName, OptionName),
    /// The value is `-`, but the option takes a file's own name.
    Dash(CommandName, OptionName),
    /// The value has an odd number of hexadecimal digits, but the option takes two for each byte.
    OddHex(CommandName, OptionName),
    /// The words end before the option's value.
    NoValue(CommandName, OptionName),
    /// The words end without this option, the first required one that isn't given.
    Lacks(CommandName, OptionName),
    /// The words end without the second option, which the first one needs; it is the first such
    /// pair.
    Without(CommandName, OptionName, OptionName),
    /// The option means something for a stream alone, and the words end without `--as stream`.
    NoStream(CommandName, OptionName),
}

/// The word at this place is at fault, for this reason.
pub fn misuse_at(place: usize, why: Misfit) -> Misuse
    ensures { result ≡ misuse_at place why }
{
    Misuse { place, why }
}
