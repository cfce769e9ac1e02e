//! The key of a keyset that can't serve, and the second line that names it.

ghost use Rattle.std.specs.Prelude.{◌≡◌, ◌+◌, ◌≤◌, ◌++◌, codes, length, slice_get};
ghost use Rattle.std.specs.Fmt.{decimal};
ghost use Rattle.tinkey_plans.specs.Handles.{handle_refusal};
ghost use Rattle.tinkey_plans.specs.Streaming.{stream_keys_refusal};
ghost use Rattle.tinkey_plans.specs.UnfitKeys.{named_key, serves_of, unfit_key, unfit_text, used_for, whose_text};
ghost use Rattle.tinkey_plans.specs.declared.origin.Origin.TheVariants as origins;

use crate::line_text::LineText;
use crate::origin::file_text;
use crate::{Origin, Status};
use key_msgs::{Primitive, primitive_of};
use keyset_model::Keyset;
use segment_stream::StreamKeysFault;
use tinkey_session::Refusal;
use wrapped_prims::HandleError;

/// A key that can't serve.
#[derive(Clone, Copy, Debug, PartialEq, Eq)]
pub struct UnfitKey {
    /// Its id.
    pub id: u32,
    /// The primitive of its type URL, if a key type has that URL.
    pub serves: Option<Primitive>,
    /// Where its keyset comes from.
    pub from: Origin,
}

/// The status of a keyset from there that can't serve.
pub fn handle_status(from: Origin, keyset: &Keyset, fault: HandleError) -> Status
    ensures { result ≡ handle_refusal (unfit_key from keyset.now) fault }
{
    match fault {
        HandleError::NoManager(i) => {
            Status::Unfit(Refusal::NoManager(i), unfit_key(from, keyset, i))
        }
        HandleError::BadKey(i, rule) => {
            Status::Unfit(Refusal::BadKey(i, rule), unfit_key(from, keyset, i))
        }
        HandleError::NotRaw(i) => Status::Unfit(Refusal::NotRaw(i), unfit_key(from, keyset, i)),
        HandleError::NoMemory => Status::NoMemory,
    }
}

/// The status of a keyset that gives no keys for streams, and which `--keyset` gives.
pub fn stream_keys_status(keyset: &Keyset, fault: StreamKeysFault) -> Status
    ensures { result ≡ stream_keys_refusal (unfit_key Origin.Keyset keyset.now) fault }
{
    match fault {
        StreamKeysFault::NotStream(i) => {
            Status::Unfit(Refusal::NoManager(i), unfit_key(Origin::Keyset, keyset, i))
        }
        StreamKeysFault::BadKey(i, rule) => {
            Status::Unfit(
                Refusal::BadKey(i, rule),
                unfit_key(Origin::Keyset, keyset, i),
            )
        }
        StreamKeysFault::NoMemory => Status::NoMemory,
    }
}

/// The key at this place of a keyset from there.
fn unfit_key(from: Origin, keyset: &Keyset, place: usize) -> UnfitKey
    ensures { result ≡ unfit_key from keyset.now place }
{
    if place < keyset.len() {
        let key = keyset.record_at(place);
        UnfitKey {
            id: key.id,
            serves: primitive_of(key.url.as_str()),
            from,
        }
    } else {
        UnfitKey {
            id: 0,
            serves: None,
            from,
        }
    }
}

/// The second line of a key that can't serve, without its front.
#[tactic(auto, unfolding(crate::specs::UnfitKeys::unfit_text))]
pub(crate) fn unfit_text(why: Refusal, key: UnfitKey) -> LineText
    ensures text { result ≡ unfit_text why key }
    ensures short { length result ≤ 220 }
{
    match why {
        Refusal::NoManager(place) => said_of(place, key, used_for(key.serves)),
        Refusal::BadKey(place, _) => {
            said_of(place, key, " is ENABLED: disable-key keeps it out of use")
        }
        Refusal::NotRaw(place) => {
            said_of(
                place,
                key,
                " has an output prefix: one that derives is RAW, as templates make it",
            )
        }
        _ => LineText::new(),
    }
}

/// A key, and what is said of it.
fn said_of(place: usize, key: UnfitKey, says: &str) -> LineText
    requires says_bound { length says.now ≤ 72 }
    ensures text { result ≡ named_key place key ++ says.now }
    ensures short { length result ≤ 220 }
{
    let mut text = LineText::new();
    text.push("key ");
    text.push_number(key.id as usize);
    text.push(" (place ");
    text.push_number(place);
    text.push(")");
    push_whose(&mut text, key.from);
    text.push(says);
    text
}

/// Adds whose key it is, if that isn't the keyset that `--keyset` gives.
fn push_whose(text: &mut LineText, from: Origin)
    requires room { length text.old ≤ 100 }
    ensures text { text.new ≡ text.old ++ whose_text from }
    ensures short { length text.new ≤ 140 }
{
    match from {
        Origin::Keyset => {}
        Origin::Master
        | Origin::NewMaster
        | Origin::OnlyMaster
        | Origin::In
        | Origin::StandardInput => {
            text.push(" of ");
            text.push(file_text(from));
        }
    }
}

/// What a key is for, and the commands that it serves.
#[tactic(auto, unfolding(crate::specs::UnfitKeys::used_for))]
fn used_for(serves: Option<Primitive>) -> &'static str
    ensures text { result.now ≡ used_for serves }
    ensures short { length result.now ≤ 72 }
{
    match serves {
        None => " is of a type that no command serves",
        Some(Primitive::Aead) => " is for sealing: seal, open, reseal, eseal, eopen, ereseal",
        Some(Primitive::Daead) => " is for deterministic sealing: dseal, dopen, dreseal",
        Some(Primitive::Mac) => " is for tags: tag, verify",
        Some(Primitive::Prf) => " is for deriving: derive",
        Some(Primitive::Stream) => " is for streams: sseal, sopen, sreseal, srange",
    }
}
