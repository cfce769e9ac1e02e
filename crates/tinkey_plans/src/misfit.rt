//! The second line for refused words, written without memory.

ghost use Rattle.std.specs.Prelude.{◌≡◌, ◌+◌, ◌≤◌, ◌++◌, length};
ghost use Rattle.tinkey_words.specs.Names.{form_for, option_row, row_of};
ghost use Rattle.tinkey_plans.specs.Misfits.{dash_text, form_text, misfit_text, told_of};

use crate::line_text::LineText;
use tink_base::TEMPORARY;
use tinkey_words::{CommandName, Misfit, OptionName, ValueForm};

/// Why a word is at fault.
pub(crate) fn misfit_text(why: Misfit) -> LineText
    ensures text { result ≡ misfit_text why }
    ensures short { length result ≤ 220 }
{
    let mut text = LineText::new();
    push_misfit(&mut text, why);
    text
}

/// Adds why a word is at fault, for which there is room.
#[tactic(auto, unfolding(crate::specs::Misfits::misfit_text))]
fn push_misfit(line: &mut LineText, why: Misfit)
    requires room { length line.old ≤ 8 }
    ensures text { line.new ≡ line.old ++ misfit_text why }
    ensures short { length line.new ≤ 127 }
{
    match why {
        Misfit::NoCommand => line.push("no such command: see tinkey help"),
        Misfit::NoTopic => line.push("no such topic: see tinkey help"),
        Misfit::TooMany => line.push("a word too many"),
        Misfit::NoOption(command) => {
            push_told(line, "no option", " of ", command_word(command), command);
        }
        Misfit::Twice(command, name) => {
            push_told(line, option_word(name), " stands twice", "", command);
        }
        Misfit::Beside(command, name, other) => {
            push_told(
                line,
                option_word(name),
                " stands beside ",
                option_word(other),
                command,
            );
        }
        Misfit::BadValue(command, name) => push_form(line, name, " takes ", command),
        Misfit::Temporary(command, name) => {
            push_told(
                line,
                option_word(name),
                " takes no name that begins as tinkey's own do, ",
                TEMPORARY,
                command,
            );
        }
        Misfit::Dash(command, name) => {
            let why = dash_text(name.form_for(command));
            push_told(line, option_word(name), " takes no -", why, command);
        }
        Misfit::OddHex(command, name) => {
            let takes = " takes an even number of digits, two for each byte";
            push_told(line, option_word(name), takes, "", command);
        }
        Misfit::NoValue(command, name) => push_form(line, name, " lacks its value, ", command),
        Misfit::Lacks(command, name) => {
            push_told(
                line,
                command_word(command),
                " lacks ",
                option_word(name),
                command,
            );
        }
        Misfit::Without(command, name, other) => {
            push_told(
                line,
                option_word(name),
                " stands without ",
                option_word(other),
                command,
            );
        }
        Misfit::NoStream(command, name) => {
            push_told(
                line,
                option_word(name),
                " stands without ",
                "--as stream",
                command,
            );
        }
    }
}

/// Adds what is said of an option's value, with its form.
fn push_form(line: &mut LineText, name: OptionName, says: &str, command: CommandName)
    requires room { length line.old ≤ 8 }
    requires says_bound { length says.now ≤ 18 }
    ensures text { line.new ≡ line.old ++ told_of
        (option_row name).word says.now (form_text (form_for name command)) command }
    ensures short { length line.new ≤ 127 }
{
    let form = form_text(name.form_for(command));
    push_told(line, option_word(name), says, form, command);
}

/// Adds three pieces of text, and the command whose help says more.
fn push_told(line: &mut LineText, a: &str, b: &str, c: &str, command: CommandName)
    requires room { length line.old ≤ 8 }
    requires told_bound { length a.now + length b.now + length c.now ≤ 80 }
    ensures text { line.new ≡ line.old ++ told_of a.now b.now c.now command }
    ensures short { length line.new ≤ 127 }
{
    line.push(a);
    line.push(b);
    line.push(c);
    line.push(": see tinkey help ");
    line.push(command_word(command));
}

/// A command's word.
pub(crate) fn command_word(command: CommandName) -> &'static str
    ensures word { result.now ≡ (row_of command).word }
    ensures short { length result.now ≤ 18 }
{
    command.word()
}

/// An option's word.
fn option_word(name: OptionName) -> &'static str
    ensures word { result.now ≡ (option_row name).word }
    ensures short { length result.now ≤ 19 }
{
    name.word()
}

/// Why a dash names no file, and what to name instead.
#[tactic(auto, unfolding(crate::specs::Misfits::dash_text))]
fn dash_text(form: ValueForm) -> &'static str
    ensures text { result.now ≡ dash_text form }
    ensures short { length result.now ≤ 50 }
{
    match form {
        ValueForm::NewFile => ": the replies are on standard output",
        _ => " for standard input: name /dev/stdin or /dev/fd/3",
    }
}

/// What a value of this form is.
#[tactic(auto, unfolding(crate::specs::Misfits::form_text))]
fn form_text(form: ValueForm) -> &'static str
    ensures text { result.now ≡ form_text form }
    ensures short { length result.now ≤ 38 }
{
    match form {
        ValueForm::Text => "a name",
        ValueForm::FileName => "the name of a file",
        ValueForm::Input => "the name of a file, or -",
        ValueForm::NewFile => "the name of a file",
        ValueForm::Output => "the name of a file, or -",
        ValueForm::Number => "a number from 0 to 4294967295",
        ValueForm::LineCount => "a number from 1 to 100000",
        ValueForm::RangeLength => "a number from 0 to 16777216",
        ValueForm::Offset => "a number from 0 to 9223372036854775807",
        ValueForm::Format => "json or binary",
        ValueForm::SealedForm => "text, envelope or stream",
        ValueForm::Command => "a command that uses keys",
        ValueForm::Datum => "at most 1048576 bytes",
        ValueForm::Hex => "at most 1048576 bytes in hexadecimal",
        ValueForm::Flag => "no value",
    }
}
