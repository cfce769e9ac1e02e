//! The key under which bytes that no key opens were sealed, and the second line that reports it.

ghost use Rattle.std.specs.Prelude.{◌≡◌, ◌+◌, ◌≤◌, ◌++◌, codes, length};
ghost use Rattle.std.specs.Fmt.{decimal};
ghost use Rattle.tinkey_plans.specs.Sealers.{destroyed_text, disabled_text, enabled_text, none_text, sealer_text, under_key};

use crate::line_text::LineText;

/// What no key opens.
#[derive(Clone, Copy, Debug, PartialEq, Eq)]
pub enum Unopened {
    /// A sealed text, under the keys of a keyset.
    Text,
    /// An envelope, under the keys of a keyset.
    Envelope,
    /// The data key of an envelope alone, under the keys of a keyset.
    DataKey,
    /// An encrypted keyset, under the keys of its master.
    Keyset,
}

/// The key of a keyset under which bytes were sealed, by the output prefix at their front. Of
/// several records with that prefix it is the first ENABLED one, otherwise the first.
#[derive(Clone, Copy, Debug, PartialEq, Eq)]
pub enum Sealer {
    /// No record has the output prefix, and each has one.
    Unnamed,
    /// No record has the output prefix, and some record has none.
    Raw,
    /// The record with this id, which is ENABLED.
    Enabled(u32),
    /// The record with this id, which is DISABLED.
    Disabled(u32),
    /// The record with this id, which is DESTROYED.
    Destroyed(u32),
}

/// The second line for what no key opens, without its front.
pub(crate) fn sealer_text(what: Unopened, sealer: Sealer) -> LineText
    ensures text { result ≡ sealer_text what sealer }
    ensures short { length result ≤ 220 }
{
    let mut text = LineText::new();
    push_sealer(&mut text, what, sealer);
    text
}

/// Adds under which key it was sealed, for which there is room.
#[tactic(auto, unfolding(crate::specs::Sealers::sealer_text))]
fn push_sealer(line: &mut LineText, what: Unopened, sealer: Sealer)
    requires room { length line.old ≤ 8 }
    ensures text { line.new ≡ line.old ++ sealer_text what sealer }
    ensures short { length line.new ≤ 127 }
{
    match sealer {
        Sealer::Unnamed => line.push(none_text(what)),
        Sealer::Raw => push_raw(line, what),
        Sealer::Enabled(id) => push_key(line, id, enabled_text(what)),
        Sealer::Disabled(id) => push_key(line, id, disabled_text(what)),
        Sealer::Destroyed(id) => push_key(line, id, destroyed_text(what)),
    }
}

/// Adds that no key is named, and what is said of the RAW keys.
fn push_raw(line: &mut LineText, what: Unopened)
    requires room { length line.old ≤ 8 }
    ensures text { line.new ≡ line.old ++
        (none_text what ++ codes ", and no ENABLED RAW key opens it") }
    ensures short { length line.new ≤ 127 }
{
    line.push(none_text(what));
    line.push(", and no ENABLED RAW key opens it");
}

/// Adds a key's id, and what is said of it.
fn push_key(line: &mut LineText, id: u32, says: &str)
    requires room { length line.old ≤ 8 }
    requires says_bound { length says.now ≤ 88 }
    ensures text { line.new ≡ line.old ++ under_key id says.now }
    ensures short { length line.new ≤ 127 }
{
    line.push("sealed under key ");
    push_id(line, id);
    line.push(says);
}

/// Adds an id in decimal digits, for which there is room.
fn push_id(line: &mut LineText, id: u32)
    requires room { length line.old ≤ 40 }
    ensures text { line.new ≡ line.old ++ decimal id }
    ensures short { length line.new ≤ length line.old + 10 }
{
    line.push_number(id as usize);
}

/// Says that no key is named.
#[tactic(auto, unfolding(crate::specs::Sealers::none_text))]
fn none_text(what: Unopened) -> &'static str
    ensures text { result.now ≡ none_text what }
    ensures short { length result.now ≤ 40 }
{
    match what {
        Unopened::Text => "the text names no key of this keyset",
        Unopened::Envelope => "the envelope names no key of this keyset",
        Unopened::DataKey => "the envelope names no key of this keyset",
        Unopened::Keyset => "the keyset names no key of the master",
    }
}

/// What is said of an ENABLED key, which opened nothing.
#[tactic(auto, unfolding(crate::specs::Sealers::enabled_text))]
fn enabled_text(what: Unopened) -> &'static str
    ensures text { result.now ≡ enabled_text what }
    ensures short { length result.now ≤ 88 }
{
    match what {
        Unopened::Text => ", which is ENABLED: other associated data, or the text was changed",
        Unopened::Envelope => {
            ", which is ENABLED: other associated data or --dek-template, or the envelope was changed"
        }
        Unopened::DataKey => {
            ", which is ENABLED: another --dek-template, or the envelope was changed"
        }
        Unopened::Keyset => {
            " of the master, which is ENABLED: other associated data, or the keyset was changed"
        }
    }
}

/// What is said of a DISABLED key.
#[tactic(auto, unfolding(crate::specs::Sealers::disabled_text))]
fn disabled_text(what: Unopened) -> &'static str
    ensures text { result.now ≡ disabled_text what }
    ensures short { length result.now ≤ 88 }
{
    match what {
        Unopened::Keyset => " of the master, which is DISABLED",
        Unopened::Text => ", which is DISABLED",
        Unopened::Envelope => ", which is DISABLED",
        Unopened::DataKey => ", which is DISABLED",
    }
}

/// What is said of a DESTROYED key.
#[tactic(auto, unfolding(crate::specs::Sealers::destroyed_text))]
fn destroyed_text(what: Unopened) -> &'static str
    ensures text { result.now ≡ destroyed_text what }
    ensures short { length result.now ≤ 88 }
{
    match what {
        Unopened::Keyset => " of the master, which was DESTROYED",
        Unopened::Text => ", which was DESTROYED",
        Unopened::Envelope => ", which was DESTROYED",
        Unopened::DataKey => ", which was DESTROYED",
    }
}
