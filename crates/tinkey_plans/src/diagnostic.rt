//! The diagnostic line of a status, written without memory.

ghost use Rattle.std.specs.Prelude.{◌≡◌, ◌+◌, ◌≤◌, ◌++◌, length, codes, decimal};
ghost use Rattle.keyset_json.specs.Members.{name_of};
ghost use Rattle.tinkey_session.specs.Texts.{line_refusal_text, refusal_text};
ghost use Rattle.tinkey_plans.specs.Status.{key_text, line_of, behind_line, second_text, text_of, fault_text, Reports, Wrote};
ghost use Rattle.tinkey_plans.specs.Mentions.{left_text};
ghost use Rattle.tinkey_plans.specs.declared.mention.Mention.{Mention};
ghost use Rattle.tinkey_cmds.specs.declared.command.EditRefusal.TheVariants as edits;
ghost use Rattle.tinkey_session.specs.declared.reply.Refusal.TheVariants as refused;

use crate::advice::{advice, keyset_advice};
use crate::line_text::LineText;
use crate::mention::{left_text, line_with};
use crate::misfit::misfit_text;
use crate::origin::{
    clear_text, faulty_text, it_is_text, locked_text, long_text, missing_text, not_json_text,
    not_proto_text,
};
use crate::sealer::sealer_text;
use crate::unfit::unfit_text;
use crate::{Left, Mention, Status, help_text, no_mention};
use key_msgs::Rule;
use keyset_json::{Member, Path};
use keyset_model::KeysetRefusal;
use tink_base::{Sink, write_all};
use tinkey_cmds::EditRefusal;
use tinkey_session::{LineRefusal, Refusal, ShortText, line_refusal_text, refusal_text};
use tinkey_words::Topic;

/// Writes the line of a status, and what follows it: the list of the commands if there was no word,
/// and otherwise a second line, if there is more to say. That begins with the command that the words
/// name. It says why a word is at fault, under which key a text that doesn't open was sealed, which
/// key can't serve and what it is for, which option gives a keyset that can't be read, or what else
/// may help. A fault of `diag` changes no status.
pub fn report<G: Sink>(diag: &mut G, mention: Mention, status: Status)
    ensures { Reports mention status (G.state diag.old) (G.state diag.new) }
{
    match write_all(diag, line(status).as_slice()) {
        Ok(()) => write_behind(diag, mention, status),
        Err(_) => {}
    }
}

/// Writes what follows the line of a status.
#[tactic(auto, unfolding(crate::specs::Status::behind_line))]
fn write_behind<G: Sink>(diag: &mut G, mention: Mention, status: Status)
    ensures { Wrote (behind_line mention status) (G.state diag.old) (G.state diag.new) }
{
    match status {
        Status::NoWords => write_text(diag, help_text(Topic::Commands).as_bytes()),
        _ => {
            let text = second_text(mention, status);
            write_text(diag, line_with(mention.command, text.as_slice()).as_slice());
        }
    }
}

/// What the second line says, without its front, or nothing.
#[tactic(auto, unfolding(crate::specs::Status::second_text))]
fn second_text(mention: Mention, status: Status) -> LineText
    ensures text { result ≡ second_text mention status }
    ensures short { length result ≤ 220 }
{
    match status {
        Status::Usage(misuse) => misfit_text(misuse.why),
        Status::OpenFailed(what, sealer) => sealer_text(what, sealer),
        Status::Unfit(why, key) => unfit_text(why, key),
        Status::StreamFailed(_) => broken_text(mention.left),
        Status::ProtoLocked(_, from) => locked_text(from),
        Status::KeysetLocked(_, from) => locked_text(from),
        Status::KeysetInClear(from) => clear_text(from),
        Status::InMissing(from) => missing_text(from),
        Status::NotJson(from, begins) => not_json_text(from, begins),
        Status::BadProto(_, from, begins) => not_proto_text(from, begins),
        Status::Shape(_, from) => it_is_text(from),
        Status::WrappedMember(from) => it_is_text(from),
        Status::Keyset(fault, from) => faulty_text(from, keyset_advice(fault)),
        Status::KeysetTooLong(from) => long_text(from),
        _ => line_as(advice(status)),
    }
}

/// Why a stream may be refused, and what is left of the output.
fn broken_text(left: Left) -> LineText
    ensures text { result ≡ codes "damaged or cut, or sealed with another key or --ad: " ++ left_text left }
    ensures short { length result ≤ 220 }
{
    let mut text = LineText::new();
    text.push("damaged or cut, or sealed with another key or --ad: ");
    text.push(left_text(left));
    text
}

/// A text as a line.
fn line_as(says: &str) -> LineText
    requires says_bound { length says.now ≤ 96 }
    ensures text { result ≡ says.now }
    ensures short { length result ≤ 220 }
{
    let mut text = LineText::new();
    text.push(says);
    text
}

/// Writes a text.
fn write_text<G: Sink>(diag: &mut G, text: &[u8])
    ensures { Wrote text.now (G.state diag.old) (G.state diag.new) }
{
    match write_all(diag, text) {
        Ok(()) => {}
        Err(_) => {}
    }
}

/// Reports on `diag` that memory couldn't be allocated before a run. Returns that status.
pub fn starve<G: Sink>(diag: &mut G) -> Status
    ensures status { result ≡ Status.NoMemory }
    ensures line { (mention : Mention) → Reports mention result (G.state diag.old) (G.state diag.new) }
{
    report(diag, no_mention(), Status::NoMemory);
    Status::NoMemory
}

/// The line of a status.
#[tactic(auto, unfolding(crate::specs::Status::line_of))]
fn line(status: Status) -> ShortText
    ensures { result ≡ line_of status }
{
    let mut line = ShortText::new();
    if status != Status::Done {
        line.push("tinkey: ");
        push_text(&mut line, status);
        line.push("\n");
    }
    line
}

/// Adds the text of a status, for which there is room.
#[tactic(auto, unfolding(crate::specs::Status::text_of))]
fn push_text(line: &mut ShortText, status: Status)
    requires room { length line.old ≤ 8 }
    ensures text { line.new ≡ line.old ++ text_of status }
    ensures short { length line.new ≤ 127 }
{
    match status {
        Status::Done => {}
        Status::OpenFailed(_, _) | Status::KeysetInClear(_) => {
            push_refusal(line, LineRefusal::OpenFailed);
        }
        Status::Refused(why) => push_refusal(line, LineRefusal::Refused(why)),
        Status::Unfit(why, _) => push_refusal(line, LineRefusal::Refused(why)),
        Status::NoKeyOf => line.push("no key of the keyset"),
        Status::StreamFailed(number) => push_segment(line, number),
        Status::NoWords => line.push("usage: word 0"),
        Status::Usage(misuse) => {
            line.push("usage: word ");
            line.push_number(misuse.place);
        }
        Status::BadProto(at, _, _) | Status::ProtoLocked(at, _) => push_place(line, at),
        Status::NotJson(_, _) => line.push("not JSON"),
        Status::Shape(path, _) => push_path(line, path),
        Status::WrappedMember(_) => line.push("bad JSON member encryptedKeyset"),
        Status::Keyset(fault, _) | Status::KeysetLocked(fault, _) => push_fault(line, fault),
        Status::KeysetTooLong(_) | Status::KeysetOutgrown => line.push("keyset too long"),
        Status::InMissing(_) | Status::StreamMissing => line.push("input file missing"),
        Status::InputTooLong => line.push("input too long"),
        Status::TooManySegments => line.push("too many segments"),
        Status::LineTooLong => line.push("line too long"),
        Status::TooManyLines => line.push("too many lines"),
        Status::DekTemplate => line.push("template is not an AEAD"),
        Status::NoDekManager => line.push("no manager for the data key"),
        Status::DekRefused(rule) => push_data_key(line, rule),
        Status::PastEnd => line.push("range past the end"),
        Status::OutExists => line.push("output file exists"),
        Status::EntropyFault => line.push("entropy fault"),
        Status::StoreFault => line.push("store fault"),
        Status::ReadFault => line.push("read fault"),
        Status::WriteFault => line.push("write fault"),
        Status::NoMemory => line.push("out of memory"),
    }
}

/// Adds that a stream failed at this segment, for which there is room.
fn push_segment(line: &mut ShortText, number: u64)
    requires room { length line.old ≤ 16 }
    ensures text { line.new ≡ line.old ++ (codes "stream failed at segment " ++ decimal number) }
    ensures short { length line.new ≤ 127 }
{
    line.push("stream failed at segment ");
    line.push_number(number as usize);
}

/// Adds that a field at this place can't be cut or read, for which there is room.
fn push_place(line: &mut ShortText, at: usize)
    requires room { length line.old ≤ 16 }
    ensures text { line.new ≡ line.old ++ (codes "bad protobuf at byte " ++ decimal at) }
    ensures short { length line.new ≤ 127 }
{
    line.push("bad protobuf at byte ");
    line.push_number(at);
}

/// Adds that the member of this path isn't of its form, for which there is room.
fn push_path(line: &mut ShortText, path: Path)
    requires room { length line.old ≤ 16 }
    ensures text { line.new ≡ line.old ++
        (codes "bad JSON member " ++ name_of path.member ++ key_text path.key) }
    ensures short { length line.new ≤ 127 }
{
    line.push("bad JSON member ");
    line.push(member_name(path.member));
    if let Some(i) = path.key {
        line.push(" of key ");
        line.push_number(i);
    }
}

/// The name of a member of a keyset.
fn member_name(member: Member) -> &'static str
    ensures text { result.now ≡ name_of member }
    ensures short { length result.now ≤ 16 }
{
    member.name()
}

/// Adds the text of a keyset's fault, for which there is room.
#[tactic(auto, unfolding(crate::specs::Status::fault_text))]
fn push_fault(line: &mut ShortText, fault: KeysetRefusal)
    requires room { length line.old ≤ 16 }
    ensures text { line.new ≡ line.old ++ fault_text fault }
    ensures short { length line.new ≤ 127 }
{
    match fault {
        KeysetRefusal::Empty => line.push("keyset has no key"),
        KeysetRefusal::TooMany => line.push("keyset has too many keys"),
        KeysetRefusal::UnknownStatus(i) => push_key(line, i, " has an unknown status"),
        KeysetRefusal::UnknownPrefix(i) => push_key(line, i, " has an unknown output prefix type"),
        KeysetRefusal::UnknownMaterial(i) => push_key(line, i, " has an unknown key material type"),
        KeysetRefusal::MissingKeyData(i) => push_key(line, i, " has no key data"),
        KeysetRefusal::NoPrimary => line.push("no key has the primary id"),
        KeysetRefusal::PrimaryNotEnabled => line.push("the primary key is not enabled"),
        KeysetRefusal::AmbiguousPrimary(i, j) => push_keys(line, i, j),
    }
}

/// Adds the text of a refusal, which a line of a session also gets, for which there is room.
fn push_refusal(line: &mut ShortText, refusal: LineRefusal)
    requires room { length line.old ≤ 16 }
    ensures text { line.new ≡ line.old ++ line_refusal_text refusal }
    ensures short { length line.new ≤ 127 }
{
    line.push_bytes(line_refusal_text(refusal).as_slice());
}

/// Adds that a data key breaks a rule, for which there is room.
fn push_data_key(line: &mut ShortText, rule: Rule)
    requires room { length line.old ≤ 8 }
    ensures text { line.new ≡ line.old ++
        (codes "data " ++ refusal_text (refused.Command (edits.KeyRefused rule))) }
    ensures short { length line.new ≤ 127 }
{
    line.push("data ");
    line.push_bytes(refusal_text(Refusal::Command(EditRefusal::KeyRefused(rule))).as_slice());
}

/// Adds what is reported about the key at this place.
fn push_key(line: &mut ShortText, i: usize, says: &str)
    requires room { length line.old ≤ 16 }
    requires says_bound { length says.now ≤ 40 }
    ensures text { line.new ≡ line.old ++ (codes "key " ++ decimal i ++ says.now) }
    ensures short { length line.new ≤ 127 }
{
    line.push("key ");
    line.push_number(i);
    line.push(says);
}

/// Adds that the keys at these places are both the primary.
fn push_keys(line: &mut ShortText, i: usize, j: usize)
    requires room { length line.old ≤ 16 }
    ensures text { line.new ≡ line.old ++
        (codes "keys " ++ decimal i ++ codes " and " ++ decimal j ++ codes " are both the primary") }
    ensures short { length line.new ≤ 127 }
{
    line.push("keys ");
    line.push_number(i);
    line.push(" and ");
    line.push_number(j);
    line.push(" are both the primary");
}
