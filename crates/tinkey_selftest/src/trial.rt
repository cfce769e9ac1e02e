//! The lines of a self-test, one after another.

ghost use Rattle.std.specs.Prelude.{◌≡◌, ◌+◌, ◌%◌, ◌≤◌, ◌^◌, ◌++◌, length, Some, None, IfOk, OnOk, IfSome, option_map, slice_get};
ghost use Rattle.tinkey_selftest.specs.Ready.{HasRoom, IsReady, kept_of, trial_of};
ghost use Rattle.tinkey_selftest.specs.Trial.{Edits, change_line, grow_line, has_key, is_same_key, name_of, open_task, seal_task, task_done, tried};
ghost use Rattle.tinkey_session.specs.Keeping.{IsKept};
ghost use Rattle.tinkey_session.specs.Reading.{IsWithin, seen_line};
ghost use Rattle.tinkey_session.specs.Serving.{serve};

use crate::Counts;
use crate::numbers::Words;
use keyset_model::{Keyset, Record};
use managers::{KeyTable, Managers};
use std::alloc::Global;
use tink_base::{Bytes, ENABLED, MemEntropy, NoMemory};
use tinkey_cmds::KeysetEdit;
use tinkey_session::{Line, LineFault, Reply, Session};

/// With at least this many records no key is made.
const MANY_RECORDS: usize = 16;

/// A seal that was accepted: its bytes, their associated data, and the record that sealed.
#[derive(Drop)]
pub(crate) struct Sealing {
    pub bytes: Bytes,
    pub ad: Bytes,
    pub sealer: Record,
}

/// A session, the seals that it accepted, in order, and what was counted.
#[derive(Drop)]
pub(crate) struct Trial<'m> {
    pub session: Session<'m>,
    pub entropy: MemEntropy,
    pub sealings: Vec<Sealing>,
    pub counts: Counts,
}

/// Whether the second record is ENABLED and has all that makes the first one's key.
fn is_same_key(sealer: &Record, other: &Record) -> bool
    ensures { result ≡ is_same_key sealer.now other.now }
{
    other.status == ENABLED
        && other.id == sealer.id
        && other.prefix == sealer.prefix
        && other.url.as_str() == sealer.url.as_str()
        && other.value.as_slice() == sealer.value.as_slice()
        && other.material == sealer.material
}

/// Whether the keyset has the key of that record, ENABLED.
fn has_key(sealer: &Record, keyset: &Keyset) -> bool
    ensures { result ≡ has_key sealer.now keyset.now }
{
    for i in 0..keyset.len() {
        if is_same_key(sealer, keyset.record_at(i)) {
            return true;
        }
    }
    false
}

/// The same for the session's keyset.
fn session_has_key(sealer: &Record, session: &Session<'_>) -> bool
    ensures { result ≡ has_key sealer.now session.now.keyset }
{
    has_key(sealer, &session.keyset)
}

/// Keeps the sealed bytes, if any, with their associated data and the record that sealed.
fn keep(
    sealings: &mut Vec<Sealing>,
    reply: Reply,
    ad: Bytes,
    sealer: Record,
) -> Result<(), NoMemory>
    ensures { OnOk result (sealings.new.items
        ≡ sealings.old.items ++ kept_of reply ad sealer) }
{
    if let Reply::Gives(bytes) = reply {
        sealings.push(Sealing { bytes, ad, sealer })?;
    }
    Ok(())
}

/// The seal with this number modulo their count; `None` if there are none.
fn pick(sealings: &Vec<Sealing>, number: u32) -> Option<&Sealing>
    ensures { option_map (λ s. s.now) result
        ≡ slice_get sealings.now.items (number % length sealings.now.items) }
{
    if sealings.is_empty() {
        return None;
    }
    sealings.get(number as usize % sealings.len())
}

/// The name of the template of these words.
fn template_name(words: Words) -> &'static str
    ensures { result.now ≡ name_of words }
{
    match words.c % 6 {
        0 => "AES128_GCM",
        1 => "AES256_GCM",
        2 => "AES128_EAX",
        3 => "AES256_EAX",
        4 => "AES128_CTR_HMAC_SHA256",
        _ => "AES256_CTR_HMAC_SHA256",
    }
}

/// The line that makes a key, or deletes one if there are many.
fn grow_line(words: Words, keyset: &Keyset) -> Line<'static>
    ensures line { seen_line result ≡ grow_line words keyset.now }
    ensures within { IsWithin (2 ^ 20) (seen_line result) }
{
    if keyset.len() >= MANY_RECORDS {
        let id = keyset.record_at(words.b as usize % MANY_RECORDS).id;
        return Line::Edit(KeysetEdit::Delete(id));
    }
    if words.b % 2 == 0 {
        Line::Edit(KeysetEdit::Add(template_name(words)))
    } else {
        Line::Edit(KeysetEdit::Rotate(template_name(words)))
    }
}

/// The line that changes a record in another way.
fn change_line(words: Words, keyset: &Keyset) -> Line<'static>
    ensures line { seen_line result ≡ change_line words keyset.now }
    ensures within { IsWithin (2 ^ 20) (seen_line result) }
{
    let key = keyset.record_at(words.b as usize % keyset.len());
    match words.c % 3 {
        0 => Line::Edit(KeysetEdit::Promote(key.id)),
        1 => {
            if key.status == ENABLED {
                Line::Edit(KeysetEdit::Disable(key.id))
            } else {
                Line::Edit(KeysetEdit::Enable(key.id))
            }
        }
        _ => Line::Edit(KeysetEdit::Delete(key.id)),
    }
}

impl<'m> Trial<'m> {
    /// The session's answer to a line.
    fn serve(&mut self, alloc: Global, line: &Line<'_>) -> Result<Reply, NoMemory>
        requires kept { IfSome self.old.session.kept (λ h. IsKept
            (⟦<Managers as KeyTable>⟧.table self.old.session.managers.now)
            (⟦<Managers as KeyTable>⟧.table h.managers.now) h.primitive self.old.session.keyset h.held) }
        requires ready { IsReady self.old.session.keyset self.old.entropy self.old.sealings.items }
        requires enough { 320 ≤ length self.old.entropy.left }
        requires within { IsWithin (2 ^ 20) (seen_line line.now) }
        ensures served { IfOk result (λ reply.
            serve (⟦<Managers as KeyTable>⟧.table self.old.session.managers.now)
            self.old.session.keyset (seen_line line.now) self.old.entropy.left
            ≡ Some (record {
              reply = reply;
              keys = self.new.session.keyset;
              left = self.new.entropy.left;
            })) }
        ensures kept { OnOk result (IfSome self.new.session.kept (λ h. IsKept
            (⟦<Managers as KeyTable>⟧.table self.new.session.managers.now)
            (⟦<Managers as KeyTable>⟧.table h.managers.now) h.primitive self.new.session.keyset h.held)) }
        ensures ready { OnOk result
            (IsReady self.new.session.keyset self.new.entropy self.new.sealings.items) }
        ensures few { OnOk result
            (length self.old.entropy.left ≤ length self.new.entropy.left + 320) }
        ensures table { OnOk result (⟦<Managers as KeyTable>⟧.table self.new.session.managers.now
            ≡ ⟦<Managers as KeyTable>⟧.table self.old.session.managers.now) }
        ensures sealings { self.new.sealings ≡ self.old.sealings }
        ensures counts { self.new.counts ≡ self.old.counts }
    {
        match self.session.serve(alloc, line, &mut self.entropy) {
            Ok(reply) => Ok(reply),
            Err(LineFault::NoMemory) => Err(NoMemory),
            Err(LineFault::EntropyFault) => unreachable!(),
        }
    }

    /// Seals, and keeps the sealed bytes.
    fn seal(&mut self, alloc: Global, words: Words) -> Result<(), NoMemory>
        requires kept { IfSome self.old.session.kept (λ h. IsKept
            (⟦<Managers as KeyTable>⟧.table self.old.session.managers.now)
            (⟦<Managers as KeyTable>⟧.table h.managers.now) h.primitive self.old.session.keyset h.held) }
        requires ready { IsReady self.old.session.keyset self.old.entropy self.old.sealings.items }
        requires enough { 320 ≤ length self.old.entropy.left }
        requires room { HasRoom self.old.counts }
        ensures done { OnOk result (trial_of self.new.session.keyset self.new.sealings.items self.new.entropy.left self.new.counts
            ≡ task_done (⟦<Managers as KeyTable>⟧.table self.old.session.managers.now)
            (trial_of self.old.session.keyset self.old.sealings.items self.old.entropy.left self.old.counts) (seal_task words)) }
        ensures kept { OnOk result (IfSome self.new.session.kept (λ h. IsKept
            (⟦<Managers as KeyTable>⟧.table self.new.session.managers.now)
            (⟦<Managers as KeyTable>⟧.table h.managers.now) h.primitive self.new.session.keyset h.held)) }
        ensures ready { OnOk result
            (IsReady self.new.session.keyset self.new.entropy self.new.sealings.items) }
        ensures few { OnOk result
            (length self.old.entropy.left ≤ length self.new.entropy.left + 320) }
        ensures table { OnOk result (⟦<Managers as KeyTable>⟧.table self.new.session.managers.now
            ≡ ⟦<Managers as KeyTable>⟧.table self.old.session.managers.now) }
    {
        let plain = words.c.to_le_bytes().repeat(alloc, words.b as usize % 64)?;
        let ad = Bytes::copy(alloc, &words.d.to_le_bytes())?;
        let line = Line::Seal(Bytes::own(plain), Bytes::copy(alloc, ad.as_slice())?);
        let sealer = self.session.keyset.primary_record().copy(alloc)?;
        let reply = self.serve(alloc, &line)?;
        self.counts = self.counts.with_seal(&reply);
        keep(&mut self.sealings, reply, ad, sealer)?;
        Ok(())
    }

    /// Opens one of the seals, or seals if there is none.
    fn open(&mut self, alloc: Global, words: Words) -> Result<(), NoMemory>
        requires kept { IfSome self.old.session.kept (λ h. IsKept
            (⟦<Managers as KeyTable>⟧.table self.old.session.managers.now)
            (⟦<Managers as KeyTable>⟧.table h.managers.now) h.primitive self.old.session.keyset h.held) }
        requires ready { IsReady self.old.session.keyset self.old.entropy self.old.sealings.items }
        requires enough { 320 ≤ length self.old.entropy.left }
        requires room { HasRoom self.old.counts }
        ensures done { OnOk result (trial_of self.new.session.keyset self.new.sealings.items
            self.new.entropy.left self.new.counts
            ≡ task_done (⟦<Managers as KeyTable>⟧.table self.old.session.managers.now)
            (trial_of self.old.session.keyset self.old.sealings.items self.old.entropy.left
            self.old.counts)
            (open_task words self.old.sealings.items)) }
        ensures kept { OnOk result (IfSome self.new.session.kept (λ h. IsKept
            (⟦<Managers as KeyTable>⟧.table self.new.session.managers.now)
            (⟦<Managers as KeyTable>⟧.table h.managers.now) h.primitive self.new.session.keyset h.held)) }
        ensures ready { OnOk result
            (IsReady self.new.session.keyset self.new.entropy self.new.sealings.items) }
        ensures few { OnOk result
            (length self.old.entropy.left ≤ length self.new.entropy.left + 320) }
        ensures table { OnOk result (⟦<Managers as KeyTable>⟧.table self.new.session.managers.now
            ≡ ⟦<Managers as KeyTable>⟧.table self.old.session.managers.now) }
    {
        let Some(sealing) = pick(&self.sealings, words.b) else {
            return self.seal(alloc, words);
        };
        let bytes = Bytes::copy(alloc, sealing.bytes.as_slice())?;
        let line = Line::Open(bytes, Bytes::copy(alloc, sealing.ad.as_slice())?);
        let is_there = session_has_key(&sealing.sealer, &self.session);
        let reply = self.serve(alloc, &line)?;
        self.counts = self.counts.with_open(&reply, is_there);
        Ok(())
    }

    /// Edits the keyset.
    fn edit(&mut self, alloc: Global, line: &Line<'_>) -> Result<(), NoMemory>
        requires kept { IfSome self.old.session.kept (λ h. IsKept
            (⟦<Managers as KeyTable>⟧.table self.old.session.managers.now)
            (⟦<Managers as KeyTable>⟧.table h.managers.now) h.primitive self.old.session.keyset h.held) }
        requires ready { IsReady self.old.session.keyset self.old.entropy self.old.sealings.items }
        requires enough { 320 ≤ length self.old.entropy.left }
        requires room { HasRoom self.old.counts }
        requires within { IsWithin (2 ^ 20) (seen_line line.now) }
        ensures done { OnOk result (trial_of self.new.session.keyset self.new.sealings.items self.new.entropy.left self.new.counts
            ≡ task_done (⟦<Managers as KeyTable>⟧.table self.old.session.managers.now)
            (trial_of self.old.session.keyset self.old.sealings.items self.old.entropy.left self.old.counts) (Edits (seen_line line.now))) }
        ensures kept { OnOk result (IfSome self.new.session.kept (λ h. IsKept
            (⟦<Managers as KeyTable>⟧.table self.new.session.managers.now)
            (⟦<Managers as KeyTable>⟧.table h.managers.now) h.primitive self.new.session.keyset h.held)) }
        ensures ready { OnOk result
            (IsReady self.new.session.keyset self.new.entropy self.new.sealings.items) }
        ensures few { OnOk result
            (length self.old.entropy.left ≤ length self.new.entropy.left + 320) }
        ensures table { OnOk result (⟦<Managers as KeyTable>⟧.table self.new.session.managers.now
            ≡ ⟦<Managers as KeyTable>⟧.table self.old.session.managers.now) }
    {
        let reply = self.serve(alloc, line)?;
        self.counts = self.counts.with_edit(&reply);
        Ok(())
    }

    /// Runs the line of these words.
    pub(crate) fn run_line(&mut self, alloc: Global, words: Words) -> Result<(), NoMemory>
        requires kept { IfSome self.old.session.kept (λ h. IsKept
            (⟦<Managers as KeyTable>⟧.table self.old.session.managers.now)
            (⟦<Managers as KeyTable>⟧.table h.managers.now) h.primitive self.old.session.keyset h.held) }
        requires ready { IsReady self.old.session.keyset self.old.entropy self.old.sealings.items }
        requires enough { 320 ≤ length self.old.entropy.left }
        requires room { HasRoom self.old.counts }
        ensures done { OnOk result (trial_of self.new.session.keyset self.new.sealings.items self.new.entropy.left self.new.counts
            ≡ tried (⟦<Managers as KeyTable>⟧.table self.old.session.managers.now) words
            (trial_of self.old.session.keyset self.old.sealings.items self.old.entropy.left self.old.counts)) }
        ensures kept { OnOk result (IfSome self.new.session.kept (λ h. IsKept
            (⟦<Managers as KeyTable>⟧.table self.new.session.managers.now)
            (⟦<Managers as KeyTable>⟧.table h.managers.now) h.primitive self.new.session.keyset h.held)) }
        ensures ready { OnOk result
            (IsReady self.new.session.keyset self.new.entropy self.new.sealings.items) }
        ensures few { OnOk result
            (length self.old.entropy.left ≤ length self.new.entropy.left + 320) }
        ensures table { OnOk result (⟦<Managers as KeyTable>⟧.table self.new.session.managers.now
            ≡ ⟦<Managers as KeyTable>⟧.table self.old.session.managers.now) }
    {
        let row = words.a % 8;
        if row < 3 {
            return self.seal(alloc, words);
        }
        if row < 6 {
            return self.open(alloc, words);
        }
        if row == 6 {
            let line = grow_line(words, &self.session.keyset);
            return self.edit(alloc, &line);
        }
        let line = change_line(words, &self.session.keyset);
        self.edit(alloc, &line)
    }
}
