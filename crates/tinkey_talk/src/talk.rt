//! A session over its input: lines come in, and each has a reply.

ghost use Rattle.std.specs.Prelude.{◌≡◌, ◌<◌, ◌≤◌, ◌+◌, ℕ, List, [], ◌++◌, length, slice_index, take, true, IfOk, IfErr, IfSome, IsErrOf, OnOk, OnErr};
ghost use Rattle.std.specs.List.{AllByRecursion};
ghost use Rattle.tink_spec.specs.Outside.{Rose, Stood, StopsAtEnd, Took, TookPrefix};
ghost use Rattle.keyset_model.specs.Keyset.{IsShort};
ghost use Rattle.tinkey_session.specs.Keeping.{IsKept};
ghost use Rattle.tinkey_session.specs.Talking.{count_limit, going, line_ended, line_limit, saving, talk_by};
ghost use Rattle.tinkey_session.specs.Talks.{TalksWith, sides};
ghost use Rattle.tinkey_talk.specs.Feeding.{Ended, Fed, Finished, HoldsBack, InLine, InPiece, IsInLine, IsReplied, IsUnreplied, Stopped, ending, outside, point, progress, taking};

use crate::saving::{LineReply, name_saved, save, unless_unsaved, unsaved_after};
use keyset_model::Keyset;
use managers::{KeyTable, Managers};
use memchr::memchr;
use std::alloc::Global;
use tink_base::{Drawn, Entropy, Failed, Lookahead, Sink, Source, Store, write_all};
use tinkey_session::{LineFault, Session, TalkFault, Writer, read_line, reply_text};

/// The most bytes that a line may have.
const LINE_LIMIT: usize = 65_536;

/// The most lines that there may be.
const COUNT_LIMIT: usize = 100_000;

/// The most bytes that one read asks for.
const PIECE: usize = 4096;

/// If the replies have more bytes in all, they aren't held back.
const HELD_LIMIT: usize = 32_768;

/// A session, the line so far, how many lines came before it, whether an accepted edit among them
/// stands that no file has, and the replies that are held back.
#[derive(Drop)]
struct TalkState<'m> {
    session: Session<'m>,
    line: Vec<u8>,
    count: usize,
    unsaved: bool,
    replies: Vec<u8>,
    ghost fits: { length line.items ≤ line_limit },
}

/// Answers each line of an input over a keyset, under these managers, and returns the keyset that
/// the last line left. A record's URL and value together have at most 2^31 - 256 bytes.
///
/// A line may save the keyset as it is then: the writer, which must be ready, writes it, and the
/// store makes a new file of it, before the reply is given. If the name is taken or the store
/// fails, the reply says so, and the session goes on; with a `NoWriter` it is a bad line.
///
/// If the writer is `saved_only`, lines that seal or tag are refused while an accepted edit stands
/// that no later line has saved.
///
/// A line ends with a newline; a last one without it counts if it isn't empty. Before each read the
/// replies to all complete lines are written. The session ends early if a byte is past a limit:
/// `LineTooLong` at the first byte too many of a line, `TooManyLines` at a byte after the last line
/// allowed. Then the replies to the lines before it were written. `ReadFault`, `WriteFault` and
/// `EntropyFault` come only if the object failed in this call. After any fault the keyset is gone,
/// with the lines' changes to it. Nothing is read after the end was reported.
///
/// Replies may be held back until the next read or the session's end, and are then written
/// together. Random bytes that the entropy doesn't hold are drawn only if no reply is held back. A
/// file that was made stays after any fault.
///
/// Memory is taken for one line, one reply, up to 32,768 bytes of earlier replies followed by a
/// copy of that reply, the keyset, and the keys that lines need of it. If memory to hold replies
/// back can't be allocated, they are written at once.
pub fn talk<S: Source, K: Sink, E: Lookahead, W: Writer, D: Store>(
    alloc: Global,
    keyset: Keyset,
    managers: &Managers,
    writer: &W,
    source: &mut S,
    sink: &mut K,
    entropy: &mut E,
    store: &mut D,
) -> Result<Keyset, TalkFault>
    requires ready { W.ready writer.now }
    requires short { AllByRecursion IsShort keyset.records }
    ensures talks { TalksWith (λ answers. talk_by
        (saving (⟦<Managers as KeyTable>⟧.table managers.now) (W.form writer.now) answers) keyset) result
        (sides (S.state source.old) (K.state sink.old) (E.state entropy.old))
        (sides (S.state source.new) (K.state sink.new) (E.state entropy.new))
        (D.state store.old) (D.state store.new) }
    ensures short { IfOk result (λ last. AllByRecursion IsShort last.records) }
    ensures stops { StopsAtEnd (S.state source.old) (S.state source.new) }
{
    let mut talk = TalkState {
        session: Session::new(keyset, managers),
        line: Vec::new(alloc),
        count: 0,
        unsaved: false,
        replies: Vec::new(alloc),
    };
    let mut buffer = [0u8; PIECE];
    loop {
        let n = match source.read(&mut buffer) {
            Ok(n) => n,
            Err(Failed) => return Err(TalkFault::ReadFault),
        };
        if n == 0 {
            return finish(alloc, talk, writer, sink, entropy, store);
        }
        match take_piece(alloc, &mut talk, writer, &buffer[..n], sink, entropy, store) {
            Ok(()) => {}
            Err(fault) => return Err(fault),
        }
    }
}

/// Takes a piece of the input, and answers each line that ends in it. Then no reply is held back.
fn take_piece<K: Sink, E: Lookahead, W: Writer, D: Store>(
    alloc: Global,
    talk: &mut TalkState<'_>,
    writer: &W,
    piece: &[u8],
    sink: &mut K,
    entropy: &mut E,
    store: &mut D,
) -> Result<(), TalkFault>
    requires ready { W.ready writer.now }
    requires kept { IfSome talk.old.session.kept (λ h. IsKept
        (⟦<Managers as KeyTable>⟧.table talk.old.session.managers.now)
        (⟦<Managers as KeyTable>⟧.table h.managers.now) h.primitive talk.old.session.keyset h.held) }
    requires few { talk.old.count ≤ count_limit }
    ensures kept { OnOk result (IfSome talk.new.session.kept (λ h. IsKept
        (⟦<Managers as KeyTable>⟧.table talk.new.session.managers.now)
        (⟦<Managers as KeyTable>⟧.table h.managers.now) h.primitive talk.new.session.keyset h.held)) }
    ensures few { OnOk result (talk.new.count ≤ count_limit) }
    ensures table { OnOk result (⟦<Managers as KeyTable>⟧.table talk.new.session.managers.now
        ≡ ⟦<Managers as KeyTable>⟧.table talk.old.session.managers.now) }
    ensures none { OnOk result (talk.new.replies.items ≡ []) }
    ensures less { OnOk result (progress talk.old.count talk.old.line.items + length piece.now ≤ progress talk.new.count talk.new.line.items) }
    ensures fed { OnOk result (Fed
        (saving (⟦<Managers as KeyTable>⟧.table talk.old.session.managers.now) (W.form writer.now))
        (going talk.old.session.keyset talk.old.line.items talk.old.count talk.old.unsaved)
        (point talk.new.session.keyset talk.new.line.items talk.new.count talk.new.unsaved) (taking piece.now)
        (outside (K.state sink.old) talk.old.replies.items (E.state entropy.old) (D.state store.old))
        (outside (K.state sink.new) talk.new.replies.items (E.state entropy.new) (D.state store.new))) }
    ensures stopped { IfErr result (λ fault. Stopped
        (saving (⟦<Managers as KeyTable>⟧.table talk.old.session.managers.now) (W.form writer.now))
        (going talk.old.session.keyset talk.old.line.items talk.old.count talk.old.unsaved) (taking piece.now)
        (InPiece (saving (⟦<Managers as KeyTable>⟧.table talk.old.session.managers.now) (W.form writer.now))
        (going talk.old.session.keyset talk.old.line.items talk.old.count talk.old.unsaved) piece.now) fault
        (outside (K.state sink.old) talk.old.replies.items (E.state entropy.old) (D.state store.old))
        (outside (K.state sink.new) [] (E.state entropy.new) (D.state store.new))) }
{
    let mut i = 0;
    while i < piece.len() {
        match take_part(alloc, talk, writer, &piece[i..], sink, entropy, store) {
            Ok(taken) => i += taken,
            Err(fault) => return Err(fault),
        }
    }
    match flush(&mut talk.replies, sink) {
        Ok(()) => Ok(()),
        Err(_) => Err(TalkFault::WriteFault),
    }
}

/// Takes the first of these bytes, and returns how many: those before the first newline, or that
/// newline if it comes first.
fn take_part<K: Sink, E: Lookahead, W: Writer, D: Store>(
    alloc: Global,
    talk: &mut TalkState<'_>,
    writer: &W,
    bytes: &[u8],
    sink: &mut K,
    entropy: &mut E,
    store: &mut D,
) -> Result<usize, TalkFault>
    requires ready { W.ready writer.now }
    requires kept { IfSome talk.old.session.kept (λ h. IsKept
        (⟦<Managers as KeyTable>⟧.table talk.old.session.managers.now)
        (⟦<Managers as KeyTable>⟧.table h.managers.now) h.primitive talk.old.session.keyset h.held) }
    requires few { talk.old.count ≤ count_limit }
    requires some { 0 < length bytes.now }
    ensures kept { OnOk result (IfSome talk.new.session.kept (λ h. IsKept
        (⟦<Managers as KeyTable>⟧.table talk.new.session.managers.now)
        (⟦<Managers as KeyTable>⟧.table h.managers.now) h.primitive talk.new.session.keyset h.held)) }
    ensures few { OnOk result (talk.new.count ≤ count_limit) }
    ensures table { OnOk result (⟦<Managers as KeyTable>⟧.table talk.new.session.managers.now
        ≡ ⟦<Managers as KeyTable>⟧.table talk.old.session.managers.now) }
    ensures some { IfOk result (λ taken. 0 < taken) }
    ensures within { IfOk result (λ taken. taken ≤ length bytes.now) }
    ensures less { IfOk result (λ taken. progress talk.old.count talk.old.line.items + taken ≤ progress talk.new.count talk.new.line.items) }
    ensures fed { IfOk result (λ taken. Fed
        (saving (⟦<Managers as KeyTable>⟧.table talk.old.session.managers.now) (W.form writer.now))
        (going talk.old.session.keyset talk.old.line.items talk.old.count talk.old.unsaved)
        (point talk.new.session.keyset talk.new.line.items talk.new.count talk.new.unsaved)
        (taking (take taken bytes.now))
        (outside (K.state sink.old) talk.old.replies.items (E.state entropy.old) (D.state store.old))
        (outside (K.state sink.new) talk.new.replies.items (E.state entropy.new) (D.state store.new))) }
    ensures stopped { IfErr result (λ fault. Stopped
        (saving (⟦<Managers as KeyTable>⟧.table talk.old.session.managers.now) (W.form writer.now))
        (going talk.old.session.keyset talk.old.line.items talk.old.count talk.old.unsaved) (taking bytes.now)
        (InPiece (saving (⟦<Managers as KeyTable>⟧.table talk.old.session.managers.now) (W.form writer.now))
        (going talk.old.session.keyset talk.old.line.items talk.old.count talk.old.unsaved) bytes.now) fault
        (outside (K.state sink.old) talk.old.replies.items (E.state entropy.old) (D.state store.old))
        (outside (K.state sink.new) [] (E.state entropy.new) (D.state store.new))) }
{
    if talk.count >= COUNT_LIMIT {
        return Err(end(TalkFault::TooManyLines, &mut talk.replies, sink));
    }
    let front = before_newline(bytes);
    if front == 0 {
        match take_line(alloc, talk, writer, sink, entropy, store) {
            Ok(()) => return Ok(1),
            Err(fault) => return Err(fault),
        }
    }
    if front > LINE_LIMIT - talk.line.len() {
        return Err(end(TalkFault::LineTooLong, &mut talk.replies, sink));
    }
    match talk.line.extend_from_slice(&bytes[..front]) {
        Ok(()) => Ok(front),
        Err(_) => Err(end(TalkFault::NoMemory, &mut talk.replies, sink)),
    }
}

/// How many bytes there are before the first newline, or in all if there is none.
fn before_newline(bytes: &[u8]) -> usize
    ensures within { result ≤ length bytes.now }
    ensures none { IsInLine (take result bytes.now) }
    ensures newline { result < length bytes.now → slice_index bytes.now result ≡ 10 }
{
    memchr(b'\n', bytes).unwrap_or(bytes.len())
}

/// Answers the line so far, which is complete, and begins the next one.
fn take_line<K: Sink, E: Lookahead, W: Writer, D: Store>(
    alloc: Global,
    talk: &mut TalkState<'_>,
    writer: &W,
    sink: &mut K,
    entropy: &mut E,
    store: &mut D,
) -> Result<(), TalkFault>
    requires ready { W.ready writer.now }
    requires kept { IfSome talk.old.session.kept (λ h. IsKept
        (⟦<Managers as KeyTable>⟧.table talk.old.session.managers.now)
        (⟦<Managers as KeyTable>⟧.table h.managers.now) h.primitive talk.old.session.keyset h.held) }
    requires few { talk.old.count ≤ count_limit }
    ensures kept { OnOk result (IfSome talk.new.session.kept (λ h. IsKept
        (⟦<Managers as KeyTable>⟧.table talk.new.session.managers.now)
        (⟦<Managers as KeyTable>⟧.table h.managers.now) h.primitive talk.new.session.keyset h.held)) }
    ensures table { OnOk result (⟦<Managers as KeyTable>⟧.table talk.new.session.managers.now
        ≡ ⟦<Managers as KeyTable>⟧.table talk.old.session.managers.now) }
    ensures count { OnOk result (talk.new.count ≡ talk.old.count + 1) }
    ensures line { OnOk result (talk.new.line.items ≡ []) }
    ensures fed { OnOk result (Fed
        (saving (⟦<Managers as KeyTable>⟧.table talk.old.session.managers.now) (W.form writer.now))
        (going talk.old.session.keyset talk.old.line.items talk.old.count talk.old.unsaved)
        (point talk.new.session.keyset talk.new.line.items talk.new.count talk.new.unsaved) line_ended
        (outside (K.state sink.old) talk.old.replies.items (E.state entropy.old) (D.state store.old))
        (outside (K.state sink.new) talk.new.replies.items (E.state entropy.new) (D.state store.new))) }
    ensures stopped { IfErr result (λ fault. Stopped
        (saving (⟦<Managers as KeyTable>⟧.table talk.old.session.managers.now) (W.form writer.now))
        (going talk.old.session.keyset talk.old.line.items talk.old.count talk.old.unsaved) line_ended InLine fault
        (outside (K.state sink.old) talk.old.replies.items (E.state entropy.old) (D.state store.old))
        (outside (K.state sink.new) [] (E.state entropy.new) (D.state store.new))) }
{
    match reply_to(
        alloc,
        &mut talk.session,
        &talk.line,
        talk.unsaved,
        writer,
        &mut talk.replies,
        sink,
        entropy,
        store,
    ) {
        Ok(reply) => match tell(&mut talk.replies, sink, &reply.text) {
            Ok(()) => {
                talk.line.clear();
                talk.count += 1;
                talk.unsaved = reply.unsaved;
                Ok(())
            }
            Err(_) => Err(TalkFault::WriteFault),
        },
        Err(fault) => Err(fault),
    }
}

/// The reply to a line. If the random bytes that are held suffice, they are used, and
/// no object is called. Otherwise the replies held back are written, and the line is answered
/// again. If memory can't be allocated, they are written too, and the error is `NoMemory`, or
/// `WriteFault` if a write fails.
fn reply_to<K: Sink, E: Lookahead, W: Writer, D: Store>(
    alloc: Global,
    session: &mut Session<'_>,
    line: &[u8],
    unsaved: bool,
    writer: &W,
    replies: &mut Vec<u8>,
    sink: &mut K,
    entropy: &mut E,
    store: &mut D,
) -> Result<LineReply, TalkFault>
    requires ready { W.ready writer.now }
    requires kept { IfSome session.old.kept (λ h. IsKept
        (⟦<Managers as KeyTable>⟧.table session.old.managers.now)
        (⟦<Managers as KeyTable>⟧.table h.managers.now) h.primitive session.old.keyset h.held) }
    requires fits { length line.now ≤ line_limit }
    ensures kept { OnOk result (IfSome session.new.kept (λ h. IsKept
        (⟦<Managers as KeyTable>⟧.table session.new.managers.now)
        (⟦<Managers as KeyTable>⟧.table h.managers.now) h.primitive session.new.keyset h.held)) }
    ensures table { OnOk result (⟦<Managers as KeyTable>⟧.table session.new.managers.now
        ≡ ⟦<Managers as KeyTable>⟧.table session.old.managers.now) }
    ensures replied { IfOk result (λ reply. IsReplied
        (saving (⟦<Managers as KeyTable>⟧.table session.old.managers.now) (W.form writer.now))
        unsaved session.old.keyset line.now reply.text.items reply.unsaved session.new.keyset
        (E.state entropy.old) (E.state entropy.new) (D.state store.old) (D.state store.new)) }
    ensures told { OnOk result
        (HoldsBack (K.state sink.old) (K.state sink.new) replies.old.items replies.new.items []) }
    ensures no_fault { OnOk result (Stood (K.state sink.old).faults (K.state sink.new).faults) }
    ensures stopped { IfErr result (λ fault. (count : ℕ) → Stopped
        (saving (⟦<Managers as KeyTable>⟧.table session.old.managers.now) (W.form writer.now))
        (going session.old.keyset line.now count unsaved) line_ended InLine fault
        (outside (K.state sink.old) replies.old.items (E.state entropy.old) (D.state store.old))
        (outside (K.state sink.new) [] (E.state entropy.new) (D.state store.new))) }
{
    match answer_held(alloc, session, line, unsaved, writer, entropy, store) {
        Ok(reply) => return Ok(reply),
        Err(LineFault::EntropyFault) => {}
        Err(LineFault::NoMemory) => return Err(end(TalkFault::NoMemory, replies, sink)),
    }
    match flush(replies, sink) {
        Ok(()) => {}
        Err(_) => return Err(TalkFault::WriteFault),
    }
    match answer_line(alloc, session, line, unsaved, writer, entropy, store) {
        Ok(reply) => Ok(reply),
        Err(LineFault::EntropyFault) => Err(TalkFault::EntropyFault),
        Err(LineFault::NoMemory) => Err(TalkFault::NoMemory),
    }
}

/// The reply to a line, with the random bytes that the entropy holds, which are then
/// used up. `EntropyFault` means that they don't suffice. With any fault none is used.
fn answer_held<E: Lookahead, W: Writer, D: Store>(
    alloc: Global,
    session: &mut Session<'_>,
    line: &[u8],
    unsaved: bool,
    writer: &W,
    entropy: &mut E,
    store: &mut D,
) -> Result<LineReply, LineFault>
    requires ready { W.ready writer.now }
    requires kept { IfSome session.old.kept (λ h. IsKept
        (⟦<Managers as KeyTable>⟧.table session.old.managers.now)
        (⟦<Managers as KeyTable>⟧.table h.managers.now) h.primitive session.old.keyset h.held) }
    requires fits { length line.now ≤ line_limit }
    ensures kept { IfSome session.new.kept (λ h. IsKept
        (⟦<Managers as KeyTable>⟧.table session.new.managers.now)
        (⟦<Managers as KeyTable>⟧.table h.managers.now) h.primitive session.new.keyset h.held) }
    ensures table { ⟦<Managers as KeyTable>⟧.table session.new.managers.now
        ≡ ⟦<Managers as KeyTable>⟧.table session.old.managers.now }
    ensures replied { IfOk result (λ reply. IsReplied
        (saving (⟦<Managers as KeyTable>⟧.table session.old.managers.now) (W.form writer.now))
        unsaved session.old.keyset line.now reply.text.items reply.unsaved session.new.keyset
        (E.state entropy.old) (E.state entropy.new) (D.state store.old) (D.state store.new)) }
    ensures unchanged { IsErrOf result LineFault.EntropyFault →
        session.new.keyset ≡ session.old.keyset }
    ensures unused { OnErr result (E.state entropy.new ≡ E.state entropy.old) }
    ensures still { OnErr result (D.state store.new ≡ D.state store.old) }
{
    let held = entropy.held();
    let before = held.len();
    let mut drawn = Drawn::new(held);
    match answer_line(alloc, session, line, unsaved, writer, &mut drawn, store) {
        Ok(reply) => {
            let used = before - drawn.left();
            entropy.skip(used);
            Ok(reply)
        }
        Err(fault) => Err(fault),
    }
}

/// The reply to a line, with random bytes of any entropy.
fn answer_line<E: Entropy, W: Writer, D: Store>(
    alloc: Global,
    session: &mut Session<'_>,
    line: &[u8],
    unsaved: bool,
    writer: &W,
    entropy: &mut E,
    store: &mut D,
) -> Result<LineReply, LineFault>
    requires ready { W.ready writer.now }
    requires kept { IfSome session.old.kept (λ h. IsKept
        (⟦<Managers as KeyTable>⟧.table session.old.managers.now)
        (⟦<Managers as KeyTable>⟧.table h.managers.now) h.primitive session.old.keyset h.held) }
    requires fits { length line.now ≤ line_limit }
    ensures kept { IfSome session.new.kept (λ h. IsKept
        (⟦<Managers as KeyTable>⟧.table session.new.managers.now)
        (⟦<Managers as KeyTable>⟧.table h.managers.now) h.primitive session.new.keyset h.held) }
    ensures table { ⟦<Managers as KeyTable>⟧.table session.new.managers.now
        ≡ ⟦<Managers as KeyTable>⟧.table session.old.managers.now }
    ensures replied { IfOk result (λ reply. IsReplied
        (saving (⟦<Managers as KeyTable>⟧.table session.old.managers.now) (W.form writer.now))
        unsaved session.old.keyset line.now reply.text.items reply.unsaved session.new.keyset
        (E.state entropy.old) (E.state entropy.new) (D.state store.old) (D.state store.new)) }
    ensures unreplied { IfErr result (λ fault. IsUnreplied
        (saving (⟦<Managers as KeyTable>⟧.table session.old.managers.now) (W.form writer.now))
        unsaved session.old.keyset line.now fault (E.state entropy.old) (E.state entropy.new)) }
    ensures still { OnErr result (D.state store.new ≡ D.state store.old) }
    ensures unchanged { IsErrOf result LineFault.EntropyFault →
        session.new.keyset ≡ session.old.keyset }
{
    let read = match read_line(alloc, line) {
        Ok(read) => read,
        Err(_) => return Err(LineFault::NoMemory),
    };
    if let Some(name) = name_saved(&read) {
        return save(
            alloc,
            &session.keyset,
            name,
            unsaved,
            writer,
            entropy,
            store,
        );
    }
    let asked = unless_unsaved(writer.saved_only(), unsaved, read);
    let reply = match session.serve(alloc, &asked, entropy) {
        Ok(reply) => reply,
        Err(fault) => return Err(fault),
    };
    match reply_text(alloc, &reply) {
        Ok(text) => Ok(LineReply {
            text,
            unsaved: unsaved_after(unsaved, &asked, &reply),
        }),
        Err(_) => Err(LineFault::NoMemory),
    }
}

/// Holds a reply back after those held, or writes it with them if they are many or memory can't be
/// allocated.
fn tell<K: Sink>(replies: &mut Vec<u8>, sink: &mut K, reply: &[u8]) -> Result<(), Failed>
    ensures told { OnOk result
        (HoldsBack (K.state sink.old) (K.state sink.new) replies.old.items replies.new.items reply.now) }
    ensures no_fault { OnOk result (Stood (K.state sink.old).faults (K.state sink.new).faults) }
    ensures failed { OnErr result (Rose (K.state sink.old).faults (K.state sink.new).faults) }
    ensures prefix { OnErr result (TookPrefix (K.state sink.old) (K.state sink.new)
        (replies.old.items ++ reply.now)) }
{
    match replies.extend_from_slice(reply) {
        Ok(()) => {}
        Err(_) => return write_both(replies, sink, reply),
    }
    if replies.len() > HELD_LIMIT {
        return flush(replies, sink);
    }
    Ok(())
}

/// Writes the replies held back, then a reply.
fn write_both<K: Sink>(replies: &mut Vec<u8>, sink: &mut K, reply: &[u8]) -> Result<(), Failed>
    ensures all { OnOk result
        (Took (K.state sink.old) (K.state sink.new) (replies.old.items ++ reply.now)) }
    ensures none { replies.new.items ≡ [] }
    ensures no_fault { OnOk result (Stood (K.state sink.old).faults (K.state sink.new).faults) }
    ensures failed { OnErr result (Rose (K.state sink.old).faults (K.state sink.new).faults) }
    ensures prefix { OnErr result (TookPrefix (K.state sink.old) (K.state sink.new)
        (replies.old.items ++ reply.now)) }
{
    match flush(replies, sink) {
        Ok(()) => {}
        Err(fault) => return Err(fault),
    }
    match write_all(sink, reply) {
        Ok(()) => Ok(()),
        Err(fault) => Err(fault),
    }
}

/// Writes the replies held back. Then none is held back.
fn flush<K: Sink>(replies: &mut Vec<u8>, sink: &mut K) -> Result<(), Failed>
    ensures all { OnOk result (Took (K.state sink.old) (K.state sink.new) replies.old.items) }
    ensures none { replies.new.items ≡ [] }
    ensures no_fault { OnOk result (Stood (K.state sink.old).faults (K.state sink.new).faults) }
    ensures failed { OnErr result (Rose (K.state sink.old).faults (K.state sink.new).faults) }
    ensures prefix { OnErr result
        (TookPrefix (K.state sink.old) (K.state sink.new) replies.old.items) }
{
    let written = write_all(sink, replies);
    replies.clear();
    written
}

/// Writes the replies held back, if this fault ends the session. Returns the fault, or `WriteFault`
/// if a write fails.
fn end<K: Sink>(fault: TalkFault, replies: &mut Vec<u8>, sink: &mut K) -> TalkFault
    ensures { Ended fault result (K.state sink.old) (K.state sink.new) replies.old.items }
{
    match flush(replies, sink) {
        Ok(()) => fault,
        Err(_) => TalkFault::WriteFault,
    }
}

/// Answers a last line that isn't empty, writes its reply, and returns the keyset.
fn finish<K: Sink, E: Lookahead, W: Writer, D: Store>(
    alloc: Global,
    talk: TalkState<'_>,
    writer: &W,
    sink: &mut K,
    entropy: &mut E,
    store: &mut D,
) -> Result<Keyset, TalkFault>
    requires ready { W.ready writer.now }
    requires kept { IfSome talk.session.kept (λ h. IsKept
        (⟦<Managers as KeyTable>⟧.table talk.session.managers.now)
        (⟦<Managers as KeyTable>⟧.table h.managers.now) h.primitive talk.session.keyset h.held) }
    requires few { talk.count ≤ count_limit }
    requires none { talk.replies.items ≡ [] }
    ensures short { IfOk result (λ last. AllByRecursion IsShort last.records) }
    ensures finished { IfOk result (λ last. Finished
        (saving (⟦<Managers as KeyTable>⟧.table talk.entry.session.managers.now) (W.form writer.now))
        (going talk.entry.session.keyset talk.entry.line.items talk.entry.count talk.entry.unsaved) last
        (outside (K.state sink.old) [] (E.state entropy.old) (D.state store.old))
        (outside (K.state sink.new) [] (E.state entropy.new) (D.state store.new))) }
    ensures stopped { IfErr result (λ fault. Stopped
        (saving (⟦<Managers as KeyTable>⟧.table talk.entry.session.managers.now) (W.form writer.now))
        (going talk.entry.session.keyset talk.entry.line.items talk.entry.count talk.entry.unsaved) ending InLine fault
        (outside (K.state sink.old) [] (E.state entropy.old) (D.state store.old))
        (outside (K.state sink.new) [] (E.state entropy.new) (D.state store.new))) }
{
    let mut talk = talk;
    if talk.line.is_empty() {
        return Ok(talk.session.keyset);
    }
    match take_line(alloc, &mut talk, writer, sink, entropy, store) {
        Ok(()) => {}
        Err(fault) => return Err(fault),
    }
    match flush(&mut talk.replies, sink) {
        Ok(()) => Ok(talk.session.keyset),
        Err(_) => Err(TalkFault::WriteFault),
    }
}
