//! What a second line takes from the words: the command that they name, and what is left of the output
//! of a stream that is refused.

ghost use Rattle.std.specs.Prelude.{◌≡◌, ◌+◌, ◌≤◌, ◌++◌, length, map, string_bytes};
ghost use Rattle.tinkey_plans.specs.Mentions.{command_in, front_of, left_by, left_in, left_of, left_of_range, left_text, line_with, mention_of, no_mention};
ghost use Rattle.tinkey_words.specs.Words.{seen_command, seen_name, words_of};

use crate::line_text::LineText;
use crate::misfit::command_word;
use tinkey_words::{CommandName, Request, command_named, parse};

/// What is left of an output that was broken off.
#[derive(Clone, Copy, Debug, PartialEq, Eq)]
pub enum Left {
    /// What was written to standard output before.
    Front,
    /// Nothing: standard output gets all of it or none.
    Nothing,
    /// No file: a new file is made whole or not at all.
    NoFile,
}

/// What a second line takes from the words.
#[derive(Clone, Copy, Debug, PartialEq, Eq)]
pub struct Mention {
    /// The command that the first word names.
    pub command: Option<CommandName>,
    /// What is left of the output of a stream that is refused.
    pub left: Left,
}

/// What the words give for a second line.
pub fn mention_of(words: &[String]) -> Mention
    ensures { result ≡ mention_of (map string_bytes words.now) }
{
    Mention {
        command: command_in(words),
        left: left_of(words),
    }
}

/// The same if there are no words, or none is known.
pub fn no_mention() -> Mention
    ensures { result ≡ no_mention }
{
    Mention {
        command: None,
        left: Left::Front,
    }
}

/// The command that the first word names.
fn command_in(words: &[String]) -> Option<CommandName>
    ensures { result ≡ command_in (map string_bytes words.now) }
{
    match words.split_first() {
        Some((name, _)) => command_named(name.as_str()),
        None => None,
    }
}

/// What is left of an output, by what the words ask for.
fn left_of(words: &[String]) -> Left
    ensures { result ≡ left_of (words_of (map string_bytes words.now)) }
{
    match parse(words) {
        Ok(request) => left_by(request),
        Err(_) => Left::Front,
    }
}

/// The same by what is asked for.
fn left_by(request: Request<'_>) -> Left
    ensures { result ≡ left_by (seen_command request.entry) }
{
    match request {
        Request::UseStream { output, .. } => left_in(output),
        Request::OpenRange { output, .. } => left_of_range(output),
        _ => Left::Front,
    }
}

/// What is left of a stream's output, which goes into this file or, if none is named, to the sink.
fn left_in(output: Option<&str>) -> Left
    ensures { result ≡ left_in (seen_name output.entry) }
{
    match output {
        Some(_) => Left::NoFile,
        None => Left::Front,
    }
}

/// The same of a range's output.
fn left_of_range(output: Option<&str>) -> Left
    ensures { result ≡ left_of_range (seen_name output.entry) }
{
    match output {
        Some(_) => Left::NoFile,
        None => Left::Nothing,
    }
}

/// The second line of this text, or no byte if there is no text.
pub(crate) fn line_with(command: Option<CommandName>, text: &[u8]) -> LineText
    requires text_bound { length text.now ≤ 220 }
    ensures { result ≡ line_with command text.now }
{
    match text.split_first() {
        None => LineText::new(),
        Some(_) => {
            let mut line = front_of(command);
            line.push_bytes(text);
            line.push("\n");
            line
        }
    }
}

/// The front of a second line: the program's name, and the command's if one is named.
fn front_of(command: Option<CommandName>) -> LineText
    ensures text { result ≡ front_of command }
    ensures short { length result ≤ 27 }
{
    let mut front = LineText::new();
    match command {
        Some(command) => {
            front.push("tinkey ");
            front.push(command_word(command));
            front.push(": ");
        }
        None => front.push("tinkey: "),
    }
    front
}

/// What a second line says of the output.
#[tactic(auto, unfolding(crate::specs::Mentions::left_text))]
pub(crate) fn left_text(left: Left) -> &'static str
    ensures text { result.now ≡ left_text left }
    ensures short { length result.now ≤ 32 }
{
    match left {
        Left::Front => "the output isn't whole",
        Left::Nothing => "nothing was put out",
        Left::NoFile => "no file was made",
    }
}
