//! The answer to a line, and its text.

ghost use Rattle.std.specs.Prelude.{◌≡◌, ◌+◌, ◌≤◌, ◌++◌, length, codes, decimal, IfOk};
ghost use Rattle.tinkey_session.specs.Keeping.{refusal_in};
ghost use Rattle.tinkey_session.specs.Lines.{word_of};
ghost use Rattle.tinkey_session.specs.declared.reply.Refusal.TheVariants.{BadKey};
ghost use Rattle.tinkey_session.specs.Texts.{edit_text, line_refusal_text, refusal_text, reply_text, rule_text};

use crate::short_text::ShortText;
use hex_lanes::encode_onto;
use itoa::Buffer;
use key_msgs::Rule;
use std::alloc::Global;
use tink_base::{Bytes, NoMemory};
use tinkey_cmds::EditRefusal;
use wrapped_prims::HandleError;

/// Why a line is refused, and a command, too. Places of records count from 0.
#[derive(Clone, Copy, Debug, PartialEq, Eq)]
pub enum Refusal {
    /// No template has the name.
    UnknownTemplate,
    /// A template of Tink's for asymmetric keys has the name.
    AsymmetricTemplate,
    /// No manager of the primitive has this record's type URL. It is the first record at fault.
    NoManager(usize),
    /// The manager refuses this record's value, for the first rule that it breaks.
    BadKey(usize, Rule),
    /// Bytes were to be derived, and this record isn't RAW.
    NotRaw(usize),
    /// The first number of bytes was asked for, and there are at most the second.
    OutputTooLong(usize, usize),
    /// The edit is refused.
    Command(EditRefusal),
    /// No key of the keyset made the tag.
    VerifyFailed,
}

/// Why a line is refused.
#[derive(Clone, Copy, Debug, PartialEq, Eq)]
pub enum LineRefusal {
    /// It isn't of the grammar of lines.
    BadLine,
    /// An accepted edit stands that no later line has saved, and the line seals or tags.
    NotSaved,
    /// No key opens the bytes. A command reports more about them, so it has a status of its own.
    OpenFailed,
    /// The name of a file to save under is taken.
    OutputExists,
    /// The keyset is too long to be saved.
    KeysetTooLong,
    /// The store failed.
    StoreFault,
    /// It is refused as a command is.
    Refused(Refusal),
}

impl From<Refusal> for LineRefusal {
    ghost use Rattle.tinkey_session.specs.declared.reply.LineRefusal.TheVariants as refused;

    ghost from_gives = { λ why refusal. refusal ≡ refused.Refused why };

    fn from(why: Refusal) -> LineRefusal {
        LineRefusal::Refused(why)
    }
}

/// The answer of a line.
#[derive(Drop)]
pub enum Reply {
    /// It was done.
    Done,
    /// The bytes that it gives.
    Gives(Bytes),
    /// The id of the key that it made.
    NewId(u32),
    /// It is refused, and the keyset is unchanged.
    Refuses(LineRefusal),
}

/// Why a keyset can't serve, from the fault of its handle; `None` if memory couldn't be allocated.
pub(crate) fn refusal_in(fault: HandleError) -> Option<Refusal>
    ensures { result ≡ refusal_in fault }
{
    match fault {
        HandleError::NoManager(i) => Some(Refusal::NoManager(i)),
        HandleError::BadKey(i, rule) => Some(Refusal::BadKey(i, rule)),
        HandleError::NotRaw(i) => Some(Refusal::NotRaw(i)),
        HandleError::NoMemory => None,
    }
}

/// The text of a line's refusal.
pub fn line_refusal_text(refusal: LineRefusal) -> ShortText
    ensures text { result ≡ line_refusal_text refusal }
    ensures short { length result ≤ 110 }
{
    match refusal {
        LineRefusal::BadLine => plain_text("bad line"),
        LineRefusal::NotSaved => plain_text("keyset is not saved"),
        LineRefusal::OpenFailed => plain_text("open failed"),
        LineRefusal::OutputExists => plain_text("output file exists"),
        LineRefusal::KeysetTooLong => plain_text("keyset too long"),
        LineRefusal::StoreFault => plain_text("store fault"),
        LineRefusal::Refused(why) => refusal_text(why),
    }
}

/// The text of a refusal, as in replies and diagnostic lines.
#[tactic(auto, unfolding(crate::specs::Texts::refusal_text))]
pub fn refusal_text(refusal: Refusal) -> ShortText
    ensures text { result ≡ refusal_text refusal }
    ensures short { length result ≤ 110 }
{
    match refusal {
        Refusal::UnknownTemplate => plain_text("unknown key template"),
        Refusal::AsymmetricTemplate => plain_text("asymmetric key template"),
        Refusal::NoManager(i) => key_text(i, " has no manager for this command"),
        Refusal::BadKey(i, rule) => invalid_text(i, rule),
        Refusal::NotRaw(i) => key_text(i, " is not RAW"),
        Refusal::OutputTooLong(asked, greatest) => length_text(asked, greatest),
        Refusal::Command(fault) => edit_text(fault),
        Refusal::VerifyFailed => plain_text("verify failed"),
    }
}

/// The text of a reply, with its newline.
#[tactic(auto, unfolding(crate::specs::Texts::reply_text))]
pub fn reply_text(alloc: Global, reply: &Reply) -> Result<Vec<u8>, NoMemory>
    ensures { IfOk result (λ text. text.items ≡ reply_text reply.now) }
{
    match reply {
        Reply::Done => line_of(alloc, b"ok", b""),
        Reply::Gives(bytes) => bytes_text(alloc, bytes.as_slice()),
        Reply::NewId(id) => id_text(alloc, *id),
        Reply::Refuses(why) => line_of(alloc, b"no ", line_refusal_text(*why).as_slice()),
    }
}

/// A line of these bytes, with its newline.
fn line_of(alloc: Global, front: &[u8], rest: &[u8]) -> Result<Vec<u8>, NoMemory>
    ensures { IfOk result (λ text. text.items ≡ front.now ++ (rest.now ++ codes "\n")) }
{
    let mut text = Vec::new(alloc);
    text.extend_from_slice(front)?;
    text.extend_from_slice(rest)?;
    text.push(b'\n')?;
    Ok(text)
}

/// The line of a reply that gives these bytes.
fn bytes_text(alloc: Global, bytes: &[u8]) -> Result<Vec<u8>, NoMemory>
    ensures { IfOk result (λ text. text.items ≡ codes "ok " ++ (word_of bytes.now ++ codes "\n")) }
{
    if bytes.is_empty() {
        return line_of(alloc, b"ok ", b"-");
    }
    let size = bytes.len().saturating_mul(2).saturating_add(4);
    let mut text = Vec::with_capacity(alloc, size)?;
    text.extend_from_slice(b"ok ")?;
    encode_onto(&mut text, bytes)?;
    text.push(b'\n')?;
    Ok(text)
}

/// The line of a reply that reports a key id.
fn id_text(alloc: Global, id: u32) -> Result<Vec<u8>, NoMemory>
    ensures { IfOk result (λ text. text.items ≡ codes "ok " ++ (decimal id ++ codes "\n")) }
{
    let mut digits = Buffer::new();
    line_of(alloc, b"ok ", digits.format(id).as_bytes())
}

/// This text.
fn plain_text(says: &str) -> ShortText
    requires says_bound { length says.now ≤ 40 }
    ensures text { result ≡ says.now }
    ensures short { length result ≤ 40 }
{
    let mut text = ShortText::new();
    text.push(says);
    text
}

/// What is reported about the key at this place.
fn key_text(i: usize, says: &str) -> ShortText
    requires says_bound { length says.now ≤ 40 }
    ensures text { result ≡ codes "key " ++ (decimal i ++ says.now) }
    ensures short { length result ≤ 84 }
{
    let mut text = plain_text("key ");
    text.push_number(i);
    text.push(says);
    text
}

/// Says that the key at this place breaks this rule.
#[tactic(auto, unfolding(crate::specs::Texts::refusal_text))]
fn invalid_text(i: usize, rule: Rule) -> ShortText
    ensures text { result ≡ refusal_text (BadKey i rule) }
    ensures short { length result ≤ 110 }
{
    let mut text = key_text(i, " is not valid: ");
    text.push(rule_text(rule));
    text
}

/// How many bytes were asked for, and how many there are.
fn length_text(asked: usize, greatest: usize) -> ShortText
    ensures text { result ≡
        codes "output too long: " ++ (decimal asked ++ (codes " over " ++ decimal greatest)) }
    ensures short { length result ≤ 110 }
{
    let mut text = ShortText::new();
    text.push("output too long: ");
    text.push_number(asked);
    text.push(" over ");
    text.push_number(greatest);
    text
}

/// The text of a refused edit.
#[tactic(auto, unfolding(crate::specs::Texts::edit_text))]
fn edit_text(fault: EditRefusal) -> ShortText
    ensures text { result ≡ edit_text fault }
    ensures short { length result ≤ 110 }
{
    match fault {
        EditRefusal::KeyNotFound => plain_text("key not found"),
        EditRefusal::KeyIsPrimary => plain_text("key is primary"),
        EditRefusal::KeyNotEnabled => plain_text("key is not enabled"),
        EditRefusal::KeyDestroyed => plain_text("key is destroyed"),
        EditRefusal::KeyRefused(rule) => refused_text(rule),
        EditRefusal::MixedPrimitive => plain_text("key of another primitive"),
        EditRefusal::IdsExhausted => plain_text("no free key id"),
        EditRefusal::TooManyKeys => plain_text("too many keys"),
        EditRefusal::AmbiguousPrimary => plain_text("primary would be ambiguous"),
    }
}

/// Says that a key breaks this rule.
fn refused_text(rule: Rule) -> ShortText
    ensures text { result ≡ codes "key refused: " ++ rule_text rule }
    ensures short { length result ≤ 110 }
{
    let mut text = plain_text("key refused: ");
    text.push(rule_text(rule));
    text
}

/// The text of a rule.
#[tactic(auto, unfolding(crate::specs::Texts::rule_text))]
fn rule_text(rule: Rule) -> &'static str
    ensures text { result.now ≡ rule_text rule }
    ensures short { length result.now ≤ 16 }
{
    match rule {
        Rule::Form => "form",
        Rule::Version => "version",
        Rule::Hash => "hash",
        Rule::KeySize => "key size",
        Rule::IvSize => "IV size",
        Rule::TagSize => "tag size",
        Rule::DerivedSize => "derived size",
        Rule::Segment => "segment size",
    }
}
