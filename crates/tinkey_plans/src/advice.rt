//! What the second lines of some statuses say by the status alone: what is meant, or what to do next.

ghost use Rattle.std.specs.Prelude.{◌≡◌, ◌≤◌, length};
ghost use Rattle.tinkey_plans.specs.Advice.{advice, edit_advice, keyset_advice, refusal_advice};

use crate::Status;
use keyset_model::KeysetRefusal;
use tinkey_cmds::EditRefusal;
use tinkey_session::Refusal;

/// What the second line of a status says that has no other, or nothing.
#[tactic(auto, unfolding(crate::specs::Advice::advice))]
pub(crate) fn advice(status: Status) -> &'static str
    ensures text { result.now ≡ advice status }
    ensures short { length result.now ≤ 96 }
{
    match status {
        Status::Refused(why) => refusal_advice(why),
        Status::NoKeyOf => {
            "another keyset made these bytes, or --as should name another kind of bytes"
        }
        Status::DekTemplate => {
            "list-key-templates --for eseal lists templates for --dek-template"
        }
        Status::PastEnd => "the plaintext ends before --from and --length do",
        Status::KeysetOutgrown => {
            "as written it would be too long to be read again: delete-key removes a key"
        }
        Status::InputTooLong => { "seal, tag and derive take 16777216 bytes, and sseal any number" }
        Status::TooManySegments => {
            "a stream has at most 4294967296 segments: use a template with larger ones"
        }
        Status::LineTooLong => {
            "a line has at most 65536 bytes; edits that the session did not save are lost"
        }
        Status::TooManyLines => {
            "a session has at most 100000 lines; edits that it did not save are lost"
        }
        Status::StreamMissing => "the file that --file gives is not there",
        Status::OutExists => "no file is ever replaced: give --out another name",
        _ => "",
    }
}

/// Of a keyset's fault.
#[tactic(auto, unfolding(crate::specs::Advice::keyset_advice))]
pub(crate) fn keyset_advice(fault: KeysetRefusal) -> &'static str
    ensures text { result.now ≡ keyset_advice fault }
    ensures short { length result.now ≤ 96 }
{
    match fault {
        KeysetRefusal::Empty => "there is nothing, or no key in the list",
        KeysetRefusal::TooMany => "a keyset has at most 1000 keys",
        KeysetRefusal::UnknownStatus(_) => {
            "keys count from 0; the keyset is damaged, or made by a later Tink"
        }
        KeysetRefusal::UnknownPrefix(_) => {
            "keys count from 0; the keyset is damaged, or made by a later Tink"
        }
        KeysetRefusal::UnknownMaterial(_) => {
            "keys count from 0; the keyset is damaged, or made by a later Tink"
        }
        KeysetRefusal::MissingKeyData(_) => {
            "keys count from 0; only a DESTROYED key may have no key data"
        }
        KeysetRefusal::NoPrimary => {
            "the keyset is incomplete: another copy of it may have that key"
        }
        KeysetRefusal::PrimaryNotEnabled => {
            "no command reads such a keyset: enable the key with the tool that made it"
        }
        KeysetRefusal::AmbiguousPrimary(_, _) => {
            "keys count from 0; disable one of them with the tool that made the keyset"
        }
    }
}

/// Of what lines of a session are refused for too.
#[tactic(auto, unfolding(crate::specs::Advice::refusal_advice))]
fn refusal_advice(refusal: Refusal) -> &'static str
    ensures text { result.now ≡ refusal_advice refusal }
    ensures short { length result.now ≤ 96 }
{
    match refusal {
        Refusal::UnknownTemplate => "list-key-templates lists the names, in capitals",
        Refusal::AsymmetricTemplate => {
            "only symmetric keys are supported: list-key-templates lists their templates"
        }
        Refusal::NoManager(_) | Refusal::BadKey(_, _) | Refusal::NotRaw(_) => "",
        Refusal::OutputTooLong(_, _) => "",
        Refusal::Command(fault) => edit_advice(fault),
        Refusal::VerifyFailed => { "no ENABLED key of the keyset makes this tag of this input" }
    }
}

/// Of an edit that is refused.
#[tactic(auto, unfolding(crate::specs::Advice::edit_advice))]
fn edit_advice(fault: EditRefusal) -> &'static str
    ensures text { result.now ≡ edit_advice fault }
    ensures short { length result.now ≤ 96 }
{
    match fault {
        EditRefusal::KeyNotFound => "list-keyset shows the ids of the keys",
        EditRefusal::KeyIsPrimary => {
            "make another key the primary first: promote-key, or rotate-keyset"
        }
        EditRefusal::KeyNotEnabled => {
            "only an ENABLED key can be the primary: enable-key enables a DISABLED one"
        }
        EditRefusal::KeyDestroyed => { "its key material is gone, and no command brings it back" }
        EditRefusal::KeyRefused(_) => "",
        EditRefusal::MixedPrimitive => {
            "all keys of a keyset do one kind of work: make another keyset for this one"
        }
        EditRefusal::IdsExhausted => {
            "64 random ids in a row were 0 or in use: check the random device"
        }
        EditRefusal::TooManyKeys => "a keyset has at most 1000 keys: delete-key removes one",
        EditRefusal::AmbiguousPrimary => {
            "another key has this id: rotate-keyset makes a primary with an id of its own"
        }
    }
}
