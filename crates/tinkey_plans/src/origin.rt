//! Where a keyset comes from and how its bytes begin, and the second lines that report it.

ghost use Rattle.std.specs.Prelude.{◌≡◌, ◌+◌, ◌≤◌, ◌++◌, codes, length, slice_get};
ghost use Rattle.tinkey_plans.specs.Origins.{begins_of, clear_text, faulty_text, file_text, first_dark, format_text, is_brace, is_front_tag, it_is_text, locked_text, long_text, missing_text, not_json_text, not_proto_text, served_text};

use crate::line_text::LineText;

/// Where a keyset comes from.
#[derive(Clone, Copy, Debug, PartialEq, Eq)]
pub enum Origin {
    /// The file that `--keyset` gives.
    Keyset,
    /// The file that `--master` gives.
    Master,
    /// The file that `--new-master` gives, next to a `--master`.
    NewMaster,
    /// The file of the only master, which a keyset in clear is put under: `--master` of wrap-keyset,
    /// or `--new-master`.
    OnlyMaster,
    /// The file that `--in` gives.
    In,
    /// Standard input.
    StandardInput,
}

/// How bytes begin that can't be read as a keyset.
#[derive(Clone, Copy, Debug, PartialEq, Eq)]
pub enum Begins {
    /// With `{` after white space, as a keyset in JSON does.
    AsJson,
    /// With the tag of a field that comes first in a keyset, or in an encrypted one.
    AsBinary,
    /// As neither does.
    Otherwise,
}

/// How these bytes begin.
pub fn begins_of(bytes: &[u8]) -> Begins
    ensures { result ≡ begins_of bytes.now }
{
    if is_front_tag(bytes.first().copied()) {
        Begins::AsBinary
    } else if is_brace(first_dark(bytes)) {
        Begins::AsJson
    } else {
        Begins::Otherwise
    }
}

/// Whether the byte is the tag of a field that comes first in a keyset, or in an encrypted one.
fn is_front_tag(first: Option<u8>) -> bool
    ensures { result ≡ is_front_tag first }
{
    match first {
        Some(byte) => byte == 0x08 || byte == 0x12,
        None => false,
    }
}

/// Whether the byte opens an object in JSON.
fn is_brace(first: Option<u8>) -> bool
    ensures { result ≡ is_brace first }
{
    match first {
        Some(byte) => byte == b'{',
        None => false,
    }
}

/// The first byte that isn't white space.
fn first_dark(bytes: &[u8]) -> Option<u8>
    ensures { result ≡ first_dark bytes.now }
{
    bytes.trim_ascii_start().first().copied()
}

/// What the second line says if there is no such file.
pub(crate) fn missing_text(from: Origin) -> LineText
    ensures text { result ≡ missing_text from }
    ensures short { length result ≤ 220 }
{
    file_with(from, " is not there")
}

/// The same if there is nothing to report but the file.
pub(crate) fn it_is_text(from: Origin) -> LineText
    ensures text { result ≡ it_is_text from }
    ensures short { length result ≤ 220 }
{
    let mut text = LineText::new();
    text.push("it is ");
    text.push(file_text(from));
    text
}

/// The same if the file is longer than any keyset that is read.
pub(crate) fn long_text(from: Origin) -> LineText
    ensures text { result ≡ long_text from }
    ensures short { length result ≤ 220 }
{
    let says = " is too long: a keyset has at most 1048576 bytes, and an encrypted one 4194304";
    file_with(from, says)
}

/// The same if the file is an encrypted keyset, and one in clear is read.
pub(crate) fn locked_text(from: Origin) -> LineText
    ensures text { result ≡ locked_text from }
    ensures short { length result ≤ 220 }
{
    let mut text = file_with(from, " is an encrypted keyset, ");
    text.push(served_text(from));
    text
}

/// The same if the file is a keyset in clear, and an encrypted one is read.
pub(crate) fn clear_text(from: Origin) -> LineText
    ensures text { result ≡ clear_text from }
    ensures short { length result ≤ 220 }
{
    file_with(from, " is a keyset in clear: leave --master out")
}

/// The same if the file isn't JSON, and begins so.
pub(crate) fn not_json_text(from: Origin, begins: Begins) -> LineText
    ensures text { result ≡ not_json_text from begins }
    ensures short { length result ≤ 220 }
{
    match begins {
        Begins::AsBinary => {
            let mut text = file_with(from, " begins as the binary form does: add ");
            text.push(format_text(from));
            text.push(" binary");
            text
        }
        Begins::AsJson => file_with(from, " begins as JSON does, but can't be read to its end"),
        Begins::Otherwise => file_with(from, " doesn't begin with {, as a keyset in JSON does"),
    }
}

/// The same if the file can't be read in the binary form, and begins so.
pub(crate) fn not_proto_text(from: Origin, begins: Begins) -> LineText
    ensures text { result ≡ not_proto_text from begins }
    ensures short { length result ≤ 220 }
{
    match begins {
        Begins::AsJson => {
            let mut text = file_with(from, " begins as JSON does: leave ");
            text.push(format_text(from));
            text.push(" binary out");
            text
        }
        _ => file_with(from, " is damaged, or isn't a keyset"),
    }
}

/// The same if the file's keyset has a fault, of which this is said.
pub(crate) fn faulty_text(from: Origin, says: &str) -> LineText
    requires says_bound { length says.now ≤ 96 }
    ensures text { result ≡ faulty_text from says.now }
    ensures short { length result ≤ 220 }
{
    let mut text = LineText::new();
    text.push("in ");
    text.push(file_text(from));
    text.push(": ");
    text.push(says);
    text
}

/// The name of what is read, and what is said of it.
fn file_with(from: Origin, says: &str) -> LineText
    requires says_bound { length says.now ≤ 96 }
    ensures text { result ≡ file_text from ++ says.now }
    ensures short { length result ≤ length says.now + 32 }
{
    let mut text = LineText::new();
    text.push(file_text(from));
    text.push(says);
    text
}

/// The name of what is read.
#[tactic(auto, unfolding(crate::specs::Origins::file_text))]
pub(crate) fn file_text(from: Origin) -> &'static str
    ensures text { result.now ≡ file_text from }
    ensures short { length result.now ≤ 32 }
{
    match from {
        Origin::Keyset => "the file that --keyset gives",
        Origin::Master => "the file that --master gives",
        Origin::NewMaster => "the file that --new-master gives",
        Origin::OnlyMaster => "the file of the master",
        Origin::In => "the file that --in gives",
        Origin::StandardInput => "standard input",
    }
}

/// What an encrypted keyset is, if one in clear is read.
#[tactic(auto, unfolding(crate::specs::Origins::served_text))]
fn served_text(from: Origin) -> &'static str
    ensures text { result.now ≡ served_text from }
    ensures short { length result.now ≤ 32 }
{
    match from {
        Origin::Keyset | Origin::In | Origin::StandardInput => "which --master FILE opens",
        Origin::Master | Origin::NewMaster | Origin::OnlyMaster => {
            "and a master has to be in clear"
        }
    }
}

/// The option that gives the form of what is read.
#[tactic(auto, unfolding(crate::specs::Origins::format_text))]
fn format_text(from: Origin) -> &'static str
    ensures text { result.now ≡ format_text from }
    ensures short { length result.now ≤ 38 }
{
    match from {
        Origin::Keyset => "--keyset-format",
        Origin::Master => "--master-format",
        Origin::NewMaster => "--new-master-format",
        Origin::OnlyMaster => "--master-format or --new-master-format",
        Origin::In => "--in-format",
        Origin::StandardInput => "--in-format",
    }
}
