//! Queries on the rows of `names.rt`, and the forms of values, by `specs/Rows.antt`.

ghost use Rattle.std.specs.Prelude.{◌≡◌};
ghost use Rattle.std.specs.List.{list_all};
ghost use Rattle.hex.specs.Hex.{is_hex_digit};
ghost use Rattle.tinkey_words.specs.Rows.{command_of, option_of, is_one_of, takes, format_of, sealed_form_of, primitive_named, is_dash, is_hex, is_odd_hex, is_line_count, is_range_length, is_temporary, is_value, offset_in, is_flag};

use super::names::{COMMANDS, CommandName, OPTIONS, OptionName};
use key_msgs::Primitive;
use std::path::Path;
use tink_base::{TEMPORARY, number_in};

/// The most lines of a self-test.
const MOST_LINES: u32 = 100_000;

/// The most bytes of a range.
pub const MOST_RANGE: u32 = 16_777_216;

/// The most digits of an offset.
const MOST_OFFSET_DIGITS: usize = 19;

/// The greatest offset.
const MOST_OFFSET: u64 = 9_223_372_036_854_775_807;

/// The most bytes of a datum given in a word.
pub const DATUM_LIMIT: usize = 1_048_576;

/// The form of a keyset.
#[derive(Clone, Copy)]
pub enum Format {
    /// The JSON mapping of tink.proto's `Keyset`.
    Json,
    /// A `Keyset` message of tink.proto.
    Binary,
}

/// The form of key-of's input.
#[derive(Clone, Copy)]
pub enum SealedForm {
    /// A sealed text, or a tag.
    Text,
    /// An envelope.
    Envelope,
    /// A stream.
    Stream,
}

/// The form of an option's value.
#[derive(Clone, Copy)]
pub enum ValueForm {
    /// Any text.
    Text,
    /// The name of a file, which isn't empty, and isn't `-`.
    FileName,
    /// The same, or `-` for standard input.
    Input,
    /// The name of a new file: also not a temporary name, under which such files are filled.
    NewFile,
    /// The same, or `-` for standard output.
    Output,
    /// 1 to 10 decimal digits, of a number up to 4,294,967,295.
    Number,
    /// The same, of a number from 1 to 100,000.
    LineCount,
    /// The same, of a number up to 16,777,216.
    RangeLength,
    /// 1 to 19 decimal digits, of a number up to 9,223,372,036,854,775,807.
    Offset,
    /// The form of a keyset: `json` or `binary`, in letters of either case.
    Format,
    /// The form of what key-of is given: `text`, `envelope` or `stream`, in letters of either case.
    SealedForm,
    /// The word of a command that asks for keys of one primitive.
    Command,
    /// A text of at most 1,048,576 bytes, which are the value.
    Datum,
    /// An even number of hexadecimal digits of either case, at most 2,097,152.
    Hex,
    /// No value: the option's word stands alone.
    Flag,
}

/// The command of this name.
pub fn command_named(name: &str) -> Option<CommandName>
    ensures { result ≡ command_of name.now }
{
    COMMANDS
        .iter()
        .copied()
        .find(|command| command.row().word == name)
}

/// The primitive of the keys that the command of this name asks for, or none.
#[tactic(auto, unfolding(crate::specs::Rows::primitive_named))]
pub fn primitive_named(name: &str) -> Option<Primitive>
    ensures { result ≡ primitive_named name.now }
{
    match command_named(name) {
        Some(command) => command.primitive(),
        None => None,
    }
}

/// The option of this name.
pub fn option_named(name: &str) -> Option<OptionName>
    ensures { result ≡ option_of name.now }
{
    OPTIONS
        .iter()
        .copied()
        .find(|option| option.row().word == name)
}

/// Whether the option is one of these.
fn is_one_of(name: OptionName, names: &[OptionName]) -> bool
    ensures { result ≡ is_one_of name names.now }
{
    names.iter().any(|other| name.place() == other.place())
}

/// Whether the command has the option.
pub fn takes(command: CommandName, name: OptionName) -> bool
    ensures { result ≡ takes command name }
{
    let row = command.row();
    is_one_of(name, row.required) || is_one_of(name, row.optional)
}

/// Whether the text is a value of this form.
#[tactic(auto, unfolding(crate::specs::Rows::is_value))]
pub fn is_value(form: ValueForm, text: &str) -> bool
    ensures { result ≡ is_value form text.now }
{
    match form {
        ValueForm::Text => true,
        ValueForm::FileName => !text.is_empty() && !is_dash(text),
        ValueForm::Input => !text.is_empty(),
        ValueForm::NewFile => !text.is_empty() && !is_dash(text) && !is_temporary(text),
        ValueForm::Output => !text.is_empty() && !is_temporary(text),
        ValueForm::Number => number_in(text).is_some(),
        ValueForm::LineCount => is_line_count(number_in(text)),
        ValueForm::RangeLength => is_range_length(number_in(text)),
        ValueForm::Offset => offset_in(text).is_some(),
        ValueForm::Format => format_named(text).is_some(),
        ValueForm::SealedForm => sealed_form_named(text).is_some(),
        ValueForm::Command => primitive_named(text).is_some(),
        ValueForm::Datum => text.len() <= DATUM_LIMIT,
        ValueForm::Hex => is_hex(text),
        ValueForm::Flag => false,
    }
}

/// Whether the form is a flag's: a word without a value.
pub fn is_flag(form: ValueForm) -> bool
    ensures { result ≡ is_flag form }
{
    matches!(form, ValueForm::Flag)
}

/// Whether the path is a temporary name, under which new files are filled, by its last component.
pub fn is_temporary(path: &str) -> bool
    ensures { result ≡ is_temporary path.now }
{
    match Path::new(path).file_name() {
        Some(last) => last.starts_with(TEMPORARY),
        None => false,
    }
}

/// Whether the text is `-`, which stands for standard input or output.
pub fn is_dash(text: &str) -> bool
    ensures { result ≡ is_dash text.now }
{
    text == "-"
}

/// Whether a number is there, and may be a count of lines.
fn is_line_count(number: Option<u32>) -> bool
    ensures { result ≡ is_line_count number }
{
    match number {
        Some(lines) => 1 <= lines && lines <= MOST_LINES,
        None => false,
    }
}

/// Whether a number is there, and may be the length of a range.
fn is_range_length(number: Option<u32>) -> bool
    ensures { result ≡ is_range_length number }
{
    match number {
        Some(length) => length <= MOST_RANGE,
        None => false,
    }
}

/// The offset in the text.
pub fn offset_in(text: &str) -> Option<u64>
    ensures { result ≡ offset_in text.now }
{
    if text.len() > MOST_OFFSET_DIGITS || !text.bytes().all(|b| b.is_ascii_digit()) {
        return None;
    }
    match text.parse::<u64>() {
        Ok(offset) if offset <= MOST_OFFSET => Some(offset),
        _ => None,
    }
}

/// Whether the text is an even number of hexadecimal digits, two for each byte of a datum.
fn is_hex(text: &str) -> bool
    ensures { result ≡ is_hex text.now }
{
    text.len() <= 2 * DATUM_LIMIT && text.len().is_multiple_of(2) && has_hex_digits(text)
}

/// Whether the text is an odd number of hexadecimal digits, not too many.
pub fn is_odd_hex(text: &str) -> bool
    ensures { result ≡ is_odd_hex text.now }
{
    text.len() <= 2 * DATUM_LIMIT && text.len() % 2 == 1 && has_hex_digits(text)
}

/// Whether the text is hexadecimal digits of either case, and nothing else.
fn has_hex_digits(text: &str) -> bool
    ensures { result ≡ list_all is_hex_digit text.now }
{
    text.bytes().all(|b| is_hex_digit(b))
}

/// Whether the byte is a hexadecimal digit of either case.
fn is_hex_digit(b: u8) -> bool
    ensures { result ≡ is_hex_digit b }
{
    matches!(b, b'0'..=b'9' | b'a'..=b'f' | b'A'..=b'F')
}

/// The form of a keyset of this name.
#[tactic(auto, unfolding(crate::specs::Rows::format_of))]
pub fn format_named(text: &str) -> Option<Format>
    ensures { result ≡ format_of text.now }
{
    if text.eq_ignore_ascii_case("json") {
        Some(Format::Json)
    } else if text.eq_ignore_ascii_case("binary") {
        Some(Format::Binary)
    } else {
        None
    }
}

/// The form of key-of's input, by this name.
#[tactic(auto, unfolding(crate::specs::Rows::sealed_form_of))]
pub fn sealed_form_named(text: &str) -> Option<SealedForm>
    ensures { result ≡ sealed_form_of text.now }
{
    if text.eq_ignore_ascii_case("text") {
        Some(SealedForm::Text)
    } else if text.eq_ignore_ascii_case("envelope") {
        Some(SealedForm::Envelope)
    } else if text.eq_ignore_ascii_case("stream") {
        Some(SealedForm::Stream)
    } else {
        None
    }
}
