//! One line of a session, read by the grammar of `specs/Lines.antt`.

ghost use Rattle.std.specs.Prelude.{◌≡◌, length, IfOk, option_map};
ghost use Rattle.tinkey_session.specs.Lines.{bytes_in, file_in, line_of, line_of_words, line_with_bytes, line_with_id, line_with_one, line_with_two, name_in, words_of};
ghost use Rattle.tinkey_session.specs.Reading.{IsWithin, seen_line, seen_name};

use crate::reply::LineRefusal;
use hex::FromHexError;
use hex_lanes::decode;
use std::alloc::Global;
use std::str::from_utf8;
use tink_base::{Bytes, NoMemory, number_in};
use tinkey_cmds::KeysetEdit;
use tinkey_words::{ValueForm, is_value};

/// What a line asks for.
#[derive(Drop)]
pub enum Line<'a> {
    /// Seal this plaintext with this associated data.
    Seal(Bytes, Bytes),
    /// The same without an IV.
    Dseal(Bytes, Bytes),
    /// Open these bytes with this associated data.
    Open(Bytes, Bytes),
    /// The same for bytes sealed without an IV.
    Dopen(Bytes, Bytes),
    /// Open these bytes, and seal the plaintext, both with this associated data.
    Reseal(Bytes, Bytes),
    /// The same for bytes sealed without an IV.
    Dreseal(Bytes, Bytes),
    /// Tag these bytes.
    Tag(Bytes),
    /// Verify this tag of these bytes.
    Verify(Bytes, Bytes),
    /// Derive this many bytes from this input.
    Derive(u32, Bytes),
    /// Edit the keyset, by the name of a template, known or not, or by a key id.
    Edit(KeysetEdit<&'a str>),
    /// Save the keyset under this name, which is one that a new file may have.
    Save(&'a str),
    /// A line that is refused for this, before anything is looked at.
    Bad(LineRefusal),
}

/// Reads a line, without its newline. Memory is taken only for the bytes that the line spells in
/// hexadecimal.
#[tactic(auto, unfolding(crate::specs::Lines::line_of))]
pub fn read_line(alloc: Global, line: &[u8]) -> Result<Line<'_>, NoMemory>
    ensures read { IfOk result (λ read. seen_line read ≡ line_of line.now) }
    ensures within { IfOk result (λ read. IsWithin (length line.now) (seen_line read)) }
{
    match from_utf8(line) {
        Ok(text) => read_words(alloc, text),
        Err(_) => Ok(Line::Bad(LineRefusal::BadLine)),
    }
}

/// What a line of text asks for.
fn read_words(alloc: Global, text: &str) -> Result<Line<'_>, NoMemory>
    ensures { IfOk result (λ read. seen_line read ≡ line_of_words (words_of text.now)) }
{
    match text.split_once(' ') {
        None => Ok(Line::Bad(LineRefusal::BadLine)),
        Some((name, words)) => match words.split_once(' ') {
            None => line_with_one(alloc, name, words),
            Some((first, second)) => match second.split_once(' ') {
                None => line_with_two(alloc, name, first, second),
                Some(_) => Ok(Line::Bad(LineRefusal::BadLine)),
            },
        },
    }
}

/// The line of a name and one word.
fn line_with_one<'a>(alloc: Global, name: &str, word: &'a str) -> Result<Line<'a>, NoMemory>
    ensures { IfOk result (λ read. seen_line read ≡ line_with_one name.now word.now) }
{
    Ok(match name {
        "tag" => match bytes_in(alloc, word)? {
            Some(body) => Line::Tag(body),
            None => Line::Bad(LineRefusal::BadLine),
        },
        "add" => match name_in(word) {
            Some(template) => Line::Edit(KeysetEdit::Add(template)),
            None => Line::Bad(LineRefusal::BadLine),
        },
        "rotate" => match name_in(word) {
            Some(template) => Line::Edit(KeysetEdit::Rotate(template)),
            None => Line::Bad(LineRefusal::BadLine),
        },
        "save" => match file_in(word) {
            Some(name) => Line::Save(name),
            None => Line::Bad(LineRefusal::BadLine),
        },
        _ => match number_in(word) {
            Some(id) => line_with_id(name, id),
            None => Line::Bad(LineRefusal::BadLine),
        },
    })
}

/// The line of a name and a key id.
fn line_with_id<'a>(name: &str, id: u32) -> Line<'a>
    ensures { seen_line result ≡ line_with_id name.now id }
{
    match name {
        "promote" => Line::Edit(KeysetEdit::Promote(id)),
        "enable" => Line::Edit(KeysetEdit::Enable(id)),
        "disable" => Line::Edit(KeysetEdit::Disable(id)),
        "destroy" => Line::Edit(KeysetEdit::Destroy(id)),
        "delete" => Line::Edit(KeysetEdit::Delete(id)),
        _ => Line::Bad(LineRefusal::BadLine),
    }
}

/// The line of a name and two words.
fn line_with_two<'a>(
    alloc: Global,
    name: &str,
    first: &str,
    second: &str,
) -> Result<Line<'a>, NoMemory>
    ensures { IfOk result (λ read. seen_line read ≡ line_with_two name.now first.now second.now) }
{
    if name == "derive" {
        return Ok(match (number_in(first), bytes_in(alloc, second)?) {
            (Some(size), Some(input)) => Line::Derive(size, input),
            _ => Line::Bad(LineRefusal::BadLine),
        });
    }
    Ok(match (bytes_in(alloc, first)?, bytes_in(alloc, second)?) {
        (Some(a), Some(b)) => line_with_bytes(name, a, b),
        _ => Line::Bad(LineRefusal::BadLine),
    })
}

/// The line of a name and two lists of bytes.
fn line_with_bytes<'a>(name: &str, a: Bytes, b: Bytes) -> Line<'a>
    ensures { seen_line result ≡ line_with_bytes name.now a b }
{
    match name {
        "seal" => Line::Seal(a, b),
        "open" => Line::Open(a, b),
        "dseal" => Line::Dseal(a, b),
        "dopen" => Line::Dopen(a, b),
        "verify" => Line::Verify(a, b),
        "reseal" => Line::Reseal(a, b),
        "dreseal" => Line::Dreseal(a, b),
        _ => Line::Bad(LineRefusal::BadLine),
    }
}

/// The bytes that the word spells in hexadecimal.
fn bytes_in(alloc: Global, word: &str) -> Result<Option<Bytes>, NoMemory>
    ensures { IfOk result (λ found. found ≡ bytes_in word.now) }
{
    if word == "-" {
        return Ok(Some(Bytes::own(Vec::new(alloc))));
    }
    if word.is_empty() {
        return Ok(None);
    }
    match decode(alloc, word.as_bytes()) {
        Ok(bytes) => Ok(Some(Bytes::own(bytes))),
        Err(FromHexError::OutOfMemory) => Err(NoMemory),
        Err(_) => Ok(None),
    }
}

/// The name of a new file, as `--out` of a session takes it.
fn file_in(word: &str) -> Option<&str>
    ensures { seen_name result ≡ file_in word.now }
{
    if is_value(ValueForm::NewFile, word) {
        Some(word)
    } else {
        None
    }
}

/// The name, if it isn't empty.
fn name_in(word: &str) -> Option<&str>
    ensures { seen_name result ≡ name_in word.now }
{
    if word.is_empty() { None } else { Some(word) }
}
