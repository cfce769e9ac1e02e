//! The answers to lines by the keys of a handle.

ghost use Rattle.std.specs.Prelude.{◌≡◌, ◌≤◌, ◌^◌, length, option_map};
ghost use Rattle.tink_spec.specs.Outside.{EntropyState};
ghost use Rattle.tinkey_session.specs.Keeping.{Answers, needs, ServesBy};
ghost use Rattle.tinkey_session.specs.Lines.{Seal, Dseal, Open, Dopen, Reseal, Dreseal, Tag, Verify, Derive};
ghost use Rattle.tinkey_session.specs.Reading.{IsWithin, seen_line};
ghost use Rattle.tinkey_session.specs.Serving.{opened_reply};

use crate::line::Line;
use crate::reply::{LineRefusal, Refusal, Reply};
use crate::session::LineFault;
use key_msgs::Primitive;
use managers::{KeyTable, Managers};
use std::alloc::Global;
use tink_base::{Bytes, Entropy, Trials};
use wrapped_prims::{DeriveFault, Handle, SealFault};

/// The primitive of the keys that answer the line. Edits and bad lines need no keys.
pub(crate) fn needs(line: &Line<'_>) -> Option<Primitive>
    ensures { result ≡ needs (seen_line line.now) }
{
    match line {
        Line::Seal(..) | Line::Open(..) | Line::Reseal(..) => Some(Primitive::Aead),
        Line::Dseal(..) | Line::Dopen(..) | Line::Dreseal(..) => Some(Primitive::Daead),
        Line::Tag(..) | Line::Verify(..) => Some(Primitive::Mac),
        Line::Derive(..) => Some(Primitive::Prf),
        _ => None,
    }
}

/// open: the plaintext of the first candidate that opens.
fn open(alloc: Global, handle: &Handle<'_>, sealed: &[u8], ad: &[u8]) -> Result<Reply, LineFault>
    requires held { Answers (⟦<Managers as KeyTable>⟧.table handle.now.managers.now)
        (Open sealed.now ad.now) handle.now.held }
    requires sealed_bound { length sealed.now ≤ 2 ^ 20 }
    requires ad_bound { length ad.now ≤ 2 ^ 20 }
    ensures { (e : EntropyState) → ServesBy (⟦<Managers as KeyTable>⟧.table handle.now.managers.now)
        handle.now.held (Open sealed.now ad.now) result e e }
{
    match handle.open(alloc, sealed, ad, &mut Trials::new()) {
        Ok(opened) => Ok(opened_reply(opened)),
        Err(_) => Err(LineFault::NoMemory),
    }
}

/// The plaintext, or the refusal if no key opened.
fn opened_reply(opened: Option<Vec<u8>>) -> Reply
    ensures { result ≡ opened_reply (option_map (λ plain. plain.items) opened) }
{
    match opened {
        Some(plain) => Reply::Gives(Bytes::own(plain)),
        None => Reply::Refuses(LineRefusal::OpenFailed),
    }
}

/// seal: prefix, IV, ciphertext and tag.
fn seal<E: Entropy>(
    alloc: Global,
    handle: &Handle<'_>,
    plain: &[u8],
    ad: &[u8],
    entropy: &mut E,
) -> Result<Reply, LineFault>
    requires held { Answers (⟦<Managers as KeyTable>⟧.table handle.now.managers.now)
        (Seal plain.now ad.now) handle.now.held }
    requires plain_bound { length plain.now ≤ 2 ^ 20 }
    requires ad_bound { length ad.now ≤ 2 ^ 20 }
    ensures { ServesBy (⟦<Managers as KeyTable>⟧.table handle.now.managers.now)
        handle.now.held (Seal plain.now ad.now) result (E.state entropy.old) (E.state entropy.new) }
{
    match handle.seal(alloc, plain, ad, entropy) {
        Ok(sealed) => Ok(Reply::Gives(Bytes::own(sealed))),
        Err(SealFault::EntropyFault) => Err(LineFault::EntropyFault),
        Err(SealFault::NoMemory) => Err(LineFault::NoMemory),
    }
}

/// dseal: prefix, tag and ciphertext.
fn dseal(alloc: Global, handle: &Handle<'_>, plain: &[u8], ad: &[u8]) -> Result<Reply, LineFault>
    requires held { Answers (⟦<Managers as KeyTable>⟧.table handle.now.managers.now)
        (Dseal plain.now ad.now) handle.now.held }
    requires plain_bound { length plain.now ≤ 2 ^ 20 }
    requires ad_bound { length ad.now ≤ 2 ^ 20 }
    ensures { (e : EntropyState) → ServesBy (⟦<Managers as KeyTable>⟧.table handle.now.managers.now)
        handle.now.held (Dseal plain.now ad.now) result e e }
{
    match handle.dseal(alloc, plain, ad) {
        Ok(sealed) => Ok(Reply::Gives(Bytes::own(sealed))),
        Err(_) => Err(LineFault::NoMemory),
    }
}

/// dopen: the plaintext of the first candidate that opens.
fn dopen(alloc: Global, handle: &Handle<'_>, sealed: &[u8], ad: &[u8]) -> Result<Reply, LineFault>
    requires held { Answers (⟦<Managers as KeyTable>⟧.table handle.now.managers.now)
        (Dopen sealed.now ad.now) handle.now.held }
    requires sealed_bound { length sealed.now ≤ 2 ^ 20 }
    requires ad_bound { length ad.now ≤ 2 ^ 20 }
    ensures { (e : EntropyState) → ServesBy (⟦<Managers as KeyTable>⟧.table handle.now.managers.now)
        handle.now.held (Dopen sealed.now ad.now) result e e }
{
    match handle.dopen(alloc, sealed, ad, &mut Trials::new()) {
        Ok(opened) => Ok(opened_reply(opened)),
        Err(_) => Err(LineFault::NoMemory),
    }
}

/// reseal: what `open` gives, sealed.
fn reseal<E: Entropy>(
    alloc: Global,
    handle: &Handle<'_>,
    sealed: &[u8],
    ad: &[u8],
    entropy: &mut E,
) -> Result<Reply, LineFault>
    requires held { Answers (⟦<Managers as KeyTable>⟧.table handle.now.managers.now)
        (Reseal sealed.now ad.now) handle.now.held }
    requires sealed_bound { length sealed.now ≤ 2 ^ 20 }
    requires ad_bound { length ad.now ≤ 2 ^ 20 }
    ensures { ServesBy (⟦<Managers as KeyTable>⟧.table handle.now.managers.now)
        handle.now.held (Reseal sealed.now ad.now) result (E.state entropy.old) (E.state entropy.new) }
{
    match handle.open(alloc, sealed, ad, &mut Trials::new()) {
        Ok(Some(plain)) => seal(alloc, handle, plain.as_slice(), ad, entropy),
        Ok(None) => Ok(Reply::Refuses(LineRefusal::OpenFailed)),
        Err(_) => Err(LineFault::NoMemory),
    }
}

/// dreseal: what `dopen` gives, sealed without an IV.
fn dreseal(alloc: Global, handle: &Handle<'_>, sealed: &[u8], ad: &[u8]) -> Result<Reply, LineFault>
    requires held { Answers (⟦<Managers as KeyTable>⟧.table handle.now.managers.now)
        (Dreseal sealed.now ad.now) handle.now.held }
    requires sealed_bound { length sealed.now ≤ 2 ^ 20 }
    requires ad_bound { length ad.now ≤ 2 ^ 20 }
    ensures { (e : EntropyState) → ServesBy (⟦<Managers as KeyTable>⟧.table handle.now.managers.now)
        handle.now.held (Dreseal sealed.now ad.now) result e e }
{
    match handle.dopen(alloc, sealed, ad, &mut Trials::new()) {
        Ok(Some(plain)) => dseal(alloc, handle, plain.as_slice(), ad),
        Ok(None) => Ok(Reply::Refuses(LineRefusal::OpenFailed)),
        Err(_) => Err(LineFault::NoMemory),
    }
}

/// tag: prefix and tag.
fn tag(alloc: Global, handle: &Handle<'_>, body: &[u8]) -> Result<Reply, LineFault>
    requires held { Answers (⟦<Managers as KeyTable>⟧.table handle.now.managers.now)
        (Tag body.now) handle.now.held }
    requires body_bound { length body.now ≤ 2 ^ 20 }
    ensures { (e : EntropyState) → ServesBy (⟦<Managers as KeyTable>⟧.table handle.now.managers.now)
        handle.now.held (Tag body.now) result e e }
{
    match handle.tag(alloc, body) {
        Ok(tag) => Ok(Reply::Gives(Bytes::own(tag))),
        Err(_) => Err(LineFault::NoMemory),
    }
}

/// verify: whether some candidate's tag of the body is this one.
fn verify(handle: &Handle<'_>, tag: &[u8], body: &[u8]) -> Reply
    requires held { Answers (⟦<Managers as KeyTable>⟧.table handle.now.managers.now)
        (Verify tag.now body.now) handle.now.held }
    requires body_bound { length body.now ≤ 2 ^ 20 }
    ensures { (e : EntropyState) → ServesBy (⟦<Managers as KeyTable>⟧.table handle.now.managers.now)
        handle.now.held (Verify tag.now body.now) (Ok result) e e }
{
    if handle.verify(tag, body, &mut Trials::new()) {
        Reply::Done
    } else {
        Reply::Refuses(LineRefusal::Refused(Refusal::VerifyFailed))
    }
}

/// derive: this many bytes, if the primary key gives them.
fn derive(alloc: Global, handle: &Handle<'_>, size: u32, input: &[u8]) -> Result<Reply, LineFault>
    requires held { Answers (⟦<Managers as KeyTable>⟧.table handle.now.managers.now)
        (Derive size input.now) handle.now.held }
    requires input_bound { length input.now ≤ 2 ^ 20 }
    ensures { (e : EntropyState) → ServesBy (⟦<Managers as KeyTable>⟧.table handle.now.managers.now)
        handle.now.held (Derive size input.now) result e e }
{
    match handle.derive(alloc, input, size as usize) {
        Ok(bytes) => Ok(Reply::Gives(Bytes::own(bytes))),
        Err(DeriveFault::OutputTooLong(greatest)) => {
            let why = Refusal::OutputTooLong(size as usize, greatest);
            Ok(Reply::Refuses(LineRefusal::Refused(why)))
        }
        Err(DeriveFault::NoMemory) => Err(LineFault::NoMemory),
    }
}

/// The answer to a line, by the keys that it needs.
pub(crate) fn answer<E: Entropy>(
    alloc: Global,
    handle: &Handle<'_>,
    line: &Line<'_>,
    entropy: &mut E,
) -> Result<Reply, LineFault>
    requires held { Answers (⟦<Managers as KeyTable>⟧.table handle.now.managers.now)
        (seen_line line.now) handle.now.held }
    requires within { IsWithin (2 ^ 20) (seen_line line.now) }
    ensures { ServesBy (⟦<Managers as KeyTable>⟧.table handle.now.managers.now)
        handle.now.held (seen_line line.now) result (E.state entropy.old) (E.state entropy.new) }
{
    match line {
        Line::Seal(plain, ad) => seal(alloc, handle, plain.as_slice(), ad.as_slice(), entropy),
        Line::Open(sealed, ad) => open(alloc, handle, sealed.as_slice(), ad.as_slice()),
        Line::Dseal(plain, ad) => dseal(alloc, handle, plain.as_slice(), ad.as_slice()),
        Line::Dopen(sealed, ad) => dopen(alloc, handle, sealed.as_slice(), ad.as_slice()),
        Line::Reseal(sealed, ad) => {
            reseal(alloc, handle, sealed.as_slice(), ad.as_slice(), entropy)
        }
        Line::Dreseal(sealed, ad) => dreseal(alloc, handle, sealed.as_slice(), ad.as_slice()),
        Line::Tag(body) => tag(alloc, handle, body.as_slice()),
        Line::Verify(tag, body) => Ok(verify(handle, tag.as_slice(), body.as_slice())),
        Line::Derive(size, input) => derive(alloc, handle, *size, input.as_slice()),
        _ => unreachable!(),
    }
}
