//! A keyset saved in the middle of a session: it is written, and becomes a new file of a store.

ghost use Rattle.std.specs.Prelude.{◌≡◌, ◌&&◌, ℕ, IfOk, IfErr, OnErr};
ghost use Rattle.std.specs.List.{AllByRecursion};
ghost use Rattle.keyset_model.specs.Keyset.{IsShort};
ghost use Rattle.tinkey_session.specs.Reading.{IsWithin, seen_line, seen_name};
ghost use Rattle.tinkey_session.specs.Saving.{makes, name_saved, unless_unsaved};
ghost use Rattle.tinkey_session.specs.Talking.{unsaved_after};
ghost use Rattle.tinkey_session.specs.Texts.{reply_text};
ghost use Rattle.tinkey_session.specs.Writing.{IsSaved, IsUnsaved};
ghost use Rattle.tinkey_session.specs.declared.reply.LineRefusal.TheVariants.{OutputExists, StoreFault};
ghost use Rattle.tinkey_session.specs.declared.reply.Reply.TheVariants.{Done, Refuses};

use keyset_model::Keyset;
use std::alloc::Global;
use tink_base::{Created, Entropy, NoMemory, Store, StoreError};
use tinkey_session::{Line, LineFault, LineRefusal, Reply, WriteError, Writer, reply_text};

/// Whether the line seals or tags.
fn makes(line: &Line<'_>) -> bool
    ensures { result ≡ makes (seen_line line.now) }
{
    match line {
        Line::Seal(..) | Line::Dseal(..) | Line::Tag(..) => true,
        Line::Reseal(..) | Line::Dreseal(..) => true,
        _ => false,
    }
}

/// The line, or a refused one if it seals or tags, only a saved keyset may do so, and an accepted
/// edit stands that no file has.
pub(crate) fn unless_unsaved<'a>(saved_only: bool, unsaved: bool, line: Line<'a>) -> Line<'a>
    ensures line { seen_line result
        ≡ unless_unsaved (saved_only && unsaved) (seen_line line.entry) }
    ensures within { (most : ℕ) → IsWithin most (seen_line line.entry)
        → IsWithin most (seen_line result) }
{
    if saved_only && unsaved && makes(&line) {
        Line::Bad(LineRefusal::NotSaved)
    } else {
        line
    }
}

/// Whether an accepted edit stands that no file has, after a line with this reply.
pub(crate) fn unsaved_after(unsaved: bool, line: &Line<'_>, reply: &Reply) -> bool
    ensures { result ≡ unsaved_after unsaved (seen_line line.now) reply.now }
{
    match (line, reply) {
        (Line::Edit(_), Reply::Refuses(_)) => unsaved,
        (Line::Edit(_), _) => true,
        (Line::Save(_), Reply::Done) => false,
        _ => unsaved,
    }
}

/// The name under which the line saves the keyset, if it does.
pub(crate) fn name_saved<'a>(line: &Line<'a>) -> Option<&'a str>
    ensures { seen_name result ≡ name_saved (seen_line line.now) }
{
    match line {
        Line::Save(name) => Some(*name),
        _ => None,
    }
}

/// The texts of the replies to a save, by what the store does.
#[derive(Drop)]
struct SaveTexts {
    made: Vec<u8>,
    exists: Vec<u8>,
    failed: Vec<u8>,
}

/// The three texts.
fn save_texts(alloc: Global) -> Result<SaveTexts, NoMemory>
    ensures made { IfOk result (λ texts. texts.made.items ≡ reply_text Done) }
    ensures exists { IfOk result (λ texts. texts.exists.items ≡ reply_text (Refuses OutputExists)) }
    ensures failed { IfOk result (λ texts. texts.failed.items ≡ reply_text (Refuses StoreFault)) }
{
    let made = reply_text(alloc, &Reply::Done)?;
    let exists = reply_text(alloc, &Reply::Refuses(LineRefusal::OutputExists))?;
    let failed = reply_text(alloc, &Reply::Refuses(LineRefusal::StoreFault))?;
    Ok(SaveTexts {
        made,
        exists,
        failed,
    })
}

/// The text of the reply to a line, and whether an accepted edit stands after it that no file has.
#[derive(Drop)]
pub(crate) struct LineReply {
    pub text: Vec<u8>,
    pub unsaved: bool,
}

/// save: writes the keyset, and makes a new file of this name with its bytes. With any fault no
/// file has changed.
pub(crate) fn save<E: Entropy, W: Writer, D: Store>(
    alloc: Global,
    keyset: &Keyset,
    name: &str,
    unsaved: bool,
    writer: &W,
    entropy: &mut E,
    store: &mut D,
) -> Result<LineReply, LineFault>
    requires ready { W.ready writer.now }
    requires short { AllByRecursion IsShort keyset.now.records }
    ensures saved { IfOk result (λ reply. IsSaved (W.form writer.now) keyset.now name.now
        reply.text.items unsaved reply.unsaved
        (E.state entropy.old) (E.state entropy.new) (D.state store.old) (D.state store.new)) }
    ensures unsaved { IfErr result (λ fault. IsUnsaved (W.form writer.now) keyset.now fault
        (E.state entropy.old) (E.state entropy.new)) }
    ensures still { OnErr result (D.state store.new ≡ D.state store.old) }
{
    let bytes = match writer.write(alloc, keyset, entropy) {
        Ok(bytes) => bytes,
        Err(WriteError::Refused(why)) => {
            return match reply_text(alloc, &Reply::Refuses(why)) {
                Ok(text) => Ok(LineReply { text, unsaved }),
                Err(_) => Err(LineFault::NoMemory),
            };
        }
        Err(WriteError::EntropyFault) => return Err(LineFault::EntropyFault),
        Err(WriteError::NoMemory) => return Err(LineFault::NoMemory),
    };
    // If memory for the reply couldn't be allocated after the file is made, nothing would report it.
    let texts = match save_texts(alloc) {
        Ok(texts) => texts,
        Err(_) => return Err(LineFault::NoMemory),
    };
    match store.create(alloc, name, bytes.as_slice()) {
        Ok(Created::Made) => Ok(LineReply {
            text: texts.made,
            unsaved: false,
        }),
        Ok(Created::Exists) => Ok(LineReply {
            text: texts.exists,
            unsaved,
        }),
        Err(StoreError::Failed) => Ok(LineReply {
            text: texts.failed,
            unsaved,
        }),
        Err(StoreError::NoMemory) => Err(LineFault::NoMemory),
    }
}
