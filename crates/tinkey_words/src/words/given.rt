//! The options of a command, read word by word.

ghost use Rattle.std.specs.Prelude.{◌≡◌, map, option_map, string_bytes};
ghost use Rattle.tinkey_words.specs.Names.{option_row};
ghost use Rattle.tinkey_words.specs.Rows.{option_of, is_flag};
ghost use Rattle.tinkey_words.specs.Words.{given_in, next_word, option_word, own_value, misvalued, unbarred, new_option, with_value, seen_options, Reads, alone};

use super::misuse::misuse_at;
use super::options::{Options, no_options, write};
use super::rows::{is_dash, is_flag, is_odd_hex, is_temporary, is_value, option_named, takes};
use super::{CommandName, Misfit, Misuse, OptionName, ValueForm};

/// The options of these words, which follow the command.
#[tactic(auto, unfolding(crate::specs::Words::given_in))]
pub(super) fn given_options(command: CommandName, words: &[String]) -> Result<Options<'_>, Misuse>
    ensures { Reads seen_options result (given_in command (map string_bytes words.now)) }
{
    let mut so_far = no_options();
    for (i, word) in words.iter().enumerate() {
        if let Err(misuse) = next_word(command, word.as_str(), i + 1, &mut so_far) {
            return Err(misuse);
        }
    }
    match so_far.waiting {
        Some(name) => Err(misuse_at(words.len() + 1, Misfit::NoValue(command, name))),
        None => Ok(so_far),
    }
}

/// Takes one more word, at this place.
fn next_word<'a>(
    command: CommandName,
    word: &'a str,
    place: usize,
    so_far: &mut Options<'a>,
) -> Result<(), Misuse>
    ensures { Reads (λ done. seen_options so_far.new) result
        (next_word command word.now place (seen_options so_far.old)) }
{
    match so_far.waiting {
        Some(name) => with_value(command, name, word, place, so_far),
        None => option_word(command, word, place, so_far),
    }
}

/// Takes an option's word: its value is in the word, or is the next word.
fn option_word<'a>(
    command: CommandName,
    word: &'a str,
    place: usize,
    so_far: &mut Options<'a>,
) -> Result<(), Misuse>
    ensures { Reads (λ done. seen_options so_far.new) result
        (option_word command (own_value word.now) word.now place (seen_options so_far.old)) }
{
    match own_value(word) {
        Some((name, value)) => match new_option(command, name, place, so_far) {
            Ok(name) => with_value(command, name, value, place, so_far),
            Err(misuse) => Err(misuse),
        },
        None => match new_option(command, word, place, so_far) {
            Ok(name) => {
                alone(name, so_far);
                Ok(())
            }
            Err(misuse) => Err(misuse),
        },
    }
}

/// An option whose word holds no value: a flag is given by the word, and any other option waits for
/// its value.
fn alone<'a>(name: OptionName, so_far: &mut Options<'a>)
    ensures { seen_options so_far.new
        ≡ alone (is_flag (option_row name).form) name (seen_options so_far.old) }
{
    if is_flag(name.row().form) {
        write(&mut so_far.values, name.place(), "");
        so_far.waiting = None;
    } else {
        so_far.waiting = Some(name);
    }
}

/// The name and the value of a word that has both.
#[tactic(auto, unfolding(crate::specs::Words::own_value))]
fn own_value(word: &str) -> Option<(&str, &str)>
    ensures { option_map (λ own. (own.0.now, own.1.now)) result ≡ own_value word.now }
{
    word.split_once('=')
}

/// The option of this name, if the command has it and neither it nor one that excludes it was
/// given.
fn new_option(
    command: CommandName,
    name: &str,
    place: usize,
    so_far: &Options<'_>,
) -> Result<OptionName, Misuse>
    ensures { result ≡ new_option command (option_of name.now) place (seen_options so_far.now) }
{
    match option_named(name) {
        Some(name) if takes(command, name) => unbarred(command, name, place, so_far),
        _ => Err(misuse_at(place, Misfit::NoOption(command))),
    }
}

/// The option, if neither it nor one that excludes it was given.
fn unbarred(
    command: CommandName,
    name: OptionName,
    place: usize,
    so_far: &Options<'_>,
) -> Result<OptionName, Misuse>
    ensures { result ≡ unbarred command name place (seen_options so_far.now) }
{
    if so_far.is_barred(name) {
        Err(misuse_at(place, so_far.bar(command, name, name.rival())))
    } else {
        Ok(name)
    }
}

/// Takes the option with its value, which is in the word at this place.
fn with_value<'a>(
    command: CommandName,
    name: OptionName,
    value: &'a str,
    place: usize,
    so_far: &mut Options<'a>,
) -> Result<(), Misuse>
    ensures { Reads (λ done. seen_options so_far.new) result
        (with_value command name value.now place (seen_options so_far.old)) }
{
    let form = name.form_for(command);
    if !is_value(form, value) {
        return Err(misuse_at(place, misvalued(form, command, name, value)));
    }
    write(&mut so_far.values, name.place(), value);
    so_far.waiting = None;
    Ok(())
}

/// Why a value that isn't of its option's form is at fault.
fn misvalued(form: ValueForm, command: CommandName, name: OptionName, value: &str) -> Misfit
    ensures { result ≡ misvalued form command name value.now }
{
    match form {
        ValueForm::NewFile | ValueForm::Output if is_temporary(value) => Misfit::Temporary(
            command, name,
        ),
        ValueForm::NewFile | ValueForm::FileName if is_dash(value) => Misfit::Dash(command, name),
        ValueForm::Hex if is_odd_hex(value) => Misfit::OddHex(command, name),
        _ => Misfit::BadValue(command, name),
    }
}
