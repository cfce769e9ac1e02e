//! The words that ask for help or for the version, by `specs/Words.antt`.

ghost use Rattle.std.specs.Prelude.{◌≡◌};
ghost use Rattle.tinkey_words.specs.Words.{first_of, is_help_flag, is_version_word, topic_of};

use super::names::CommandName;
use super::rows::command_named;

/// The topic of help that is asked for.
#[derive(Clone, Copy)]
pub enum Topic {
    /// The list of the commands.
    Commands,
    /// The diagnostic lines, with their exit codes.
    Exit,
    /// How help is asked for, and its topics.
    Help,
    /// What the version is.
    Version,
    /// A command.
    Command(CommandName),
}

/// What the first word means.
#[derive(Clone, Copy)]
pub enum First {
    /// `help`
    Help,
    /// `--help` or `-h`
    HelpFlag,
    /// `version` or `--version`
    Version,
    /// A command's word.
    Command(CommandName),
}

/// What the first word means, if it is known.
#[tactic(auto, unfolding(crate::specs::Words::first_of))]
pub fn first_named(name: &str) -> Option<First>
    ensures { result ≡ first_of name.now }
{
    if name == "help" {
        return Some(First::Help);
    }
    if is_help_flag(name) {
        return Some(First::HelpFlag);
    }
    if is_version_word(name) {
        return Some(First::Version);
    }
    match command_named(name) {
        Some(command) => Some(First::Command(command)),
        None => None,
    }
}

/// The topic of this name.
#[tactic(auto, unfolding(crate::specs::Words::topic_of))]
pub fn topic_named(name: &str) -> Option<Topic>
    ensures { result ≡ topic_of name.now }
{
    if name == "exit" {
        return Some(Topic::Exit);
    }
    if name == "help" {
        return Some(Topic::Help);
    }
    if name == "version" {
        return Some(Topic::Version);
    }
    match command_named(name) {
        Some(command) => Some(Topic::Command(command)),
        None => None,
    }
}

/// Whether the word is `--help` or `-h`.
pub fn is_help_flag(word: &str) -> bool
    ensures { result ≡ is_help_flag word.now }
{
    word == "--help" || word == "-h"
}

/// Whether the word is `version` or `--version`.
fn is_version_word(word: &str) -> bool
    ensures { result ≡ is_version_word word.now }
{
    word == "version" || word == "--version"
}
