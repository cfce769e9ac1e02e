//! A keyset on which lines work, one after another.

ghost use Rattle.std.specs.Prelude.{◌≡◌, ◌≢◌, ◌↔◌, ◌≤◌, ◌^◌, length, Some, None, IfSome, IfOk, IfErr, IsSomeAnd, IsTrue, OnOk, OnErr, MatchResult, Ok, Err};
ghost use Rattle.std.specs.List.{AllByRecursion};
ghost use Rattle.key_msgs.specs.Templates.{seen};
ghost use Rattle.key_msgs.specs.declared.primitive.Primitive.{Primitive};
ghost use Rattle.key_msgs.specs.declared.primitive.Primitive.TheVariants.{Stream};
ghost use Rattle.keyset_model.specs.Keyset.{IsShort, Keys};
ghost use Rattle.tinkey_cmds.specs.Edits.{Enable, seen_by, seen_edit};
ghost use Rattle.tinkey_session.specs.Answered.{Serves};
ghost use Rattle.tinkey_session.specs.Keeping.{Asks, FindsEdit, IsChange, IsChanged, IsKept, IsUnedited, needs, short-prop};
ghost use Rattle.tinkey_session.specs.Reading.{IsWithin, seen_line};
ghost use Rattle.tinkey_session.specs.Serving.{edit_line, edited_reply, serve as served, template_of};
ghost use Rattle.wrapped_prims.specs.Fitness.{unfit};
ghost use Rattle.wrapped_prims.specs.Making.{IsFaultOf, IsOver};

use crate::answering::{answer, needs};
use crate::line::Line;
use crate::reply::{LineRefusal, Refusal, Reply, refusal_in};
use key_msgs::{Primitive, Template, TemplateFault, template_named};
use keyset_model::Keyset;
use managers::{KeyTable, Managers};
use std::alloc::Global;
use tink_base::{ENABLED, Entropy};
use tinkey_cmds::{EditError, KeysetEdit, apply};
use wrapped_prims::{Handle, HandleError};

/// Why a line has no answer.
#[derive(Clone, Copy, Debug, PartialEq, Eq)]
pub enum LineFault {
    /// The entropy failed.
    EntropyFault,
    /// Memory couldn't be allocated.
    NoMemory,
}

/// A keyset, and the handle of its keys that a line needed last. An edit changes the keyset in
/// place and copies none of its records. The handle follows each edit, for which it prepares at
/// most one key; any other line keeps it.
///
/// A record's URL and value together have at most 2^31 - 256 bytes.
#[derive(Drop)]
pub struct Session<'m> {
    pub managers: &'m Managers,
    pub keyset: Keyset,
    pub kept: Option<Handle<'m>>,
    ghost short: { AllByRecursion IsShort keyset.records } by { short-prop keyset.records },
}

impl<'m> Session<'m> {
    /// A session over a keyset, whose keys these managers serve. A record's URL and value together
    /// have at most 2^31 - 256 bytes. No memory is taken.
    pub fn new(keyset: Keyset, managers: &'m Managers) -> Session<'m>
        requires short { AllByRecursion IsShort keyset.records }
        ensures keyset { result.keyset ≡ keyset }
        ensures table { ⟦<Managers as KeyTable>⟧.table result.managers.now
            ≡ ⟦<Managers as KeyTable>⟧.table managers.now }
        ensures kept { result.kept ≡ None }
    {
        Session {
            managers,
            keyset,
            kept: None,
        }
    }

    /// Does what the line asks for, and answers it.
    ///
    /// A line that needs keys makes a handle of them if none for its primitive is kept; while the
    /// keyset is unchanged, each later line for that primitive uses it. An accepted edit changes
    /// the keyset; the handle follows, or is dropped. Any other line, even a refused one, keeps the
    /// keyset. An edit that isn't accepted, for instance because its draw failed, also keeps the
    /// handle.
    /// `EntropyFault` comes only if the entropy failed, and the line needs more than was drawn.
    pub fn serve<E: Entropy>(
        &mut self,
        alloc: Global,
        line: &Line<'_>,
        entropy: &mut E,
    ) -> Result<Reply, LineFault>
        requires kept { IfSome self.old.kept (λ h. IsKept
            (⟦<Managers as KeyTable>⟧.table self.old.managers.now)
            (⟦<Managers as KeyTable>⟧.table h.managers.now) h.primitive self.old.keyset h.held) }
        requires within { IsWithin (2 ^ 20) (seen_line line.now) }
        ensures serves { Serves
            (λ random. served (⟦<Managers as KeyTable>⟧.table self.old.managers.now)
            self.old.keyset (seen_line line.now) random)
            result self.new.keyset (E.state entropy.old) (E.state entropy.new) }
        ensures fits { (primitive : Primitive) → needs (seen_line line.now) ≡ Some primitive
            → unfit self.old.keyset primitive
            (⟦<Managers as KeyTable>⟧.table self.old.managers.now) ≡ None
            → OnOk result (IsSomeAnd self.new.kept (λ h. h.primitive ≡ primitive)) }
        ensures reused { (primitive : Primitive) → needs (seen_line line.now) ≡ Some primitive
            → IsSomeAnd self.old.kept (λ h. h.primitive ≡ primitive)
            → self.new.kept ≡ self.old.kept }
        ensures kept { IfSome self.new.kept (λ h. IsKept
            (⟦<Managers as KeyTable>⟧.table self.new.managers.now)
            (⟦<Managers as KeyTable>⟧.table h.managers.now) h.primitive self.new.keyset h.held) }
        ensures unchanged { OnErr result (self.new.keyset ≡ self.old.keyset) }
        ensures unedited { needs (seen_line line.now) ≡ None → IsUnedited result
            → self.new.kept ≡ self.old.kept }
        ensures table { ⟦<Managers as KeyTable>⟧.table self.new.managers.now
            ≡ ⟦<Managers as KeyTable>⟧.table self.old.managers.now }
    {
        match needs(line) {
            Some(primitive) => self.by_keys(alloc, primitive, line, entropy),
            None => match command_of(line) {
                Ok(command) => self.edit(alloc, &command, entropy),
                Err(why) => Ok(Reply::Refuses(why)),
            },
        }
    }

    /// The answer by the keys for this primitive, which the line needs.
    fn by_keys<E: Entropy>(
        &mut self,
        alloc: Global,
        primitive: Primitive,
        line: &Line<'_>,
        entropy: &mut E,
    ) -> Result<Reply, LineFault>
        requires needs { needs (seen_line line.now) ≡ Some primitive }
        requires kept { IfSome self.old.kept (λ h. IsKept
            (⟦<Managers as KeyTable>⟧.table self.old.managers.now)
            (⟦<Managers as KeyTable>⟧.table h.managers.now) h.primitive self.old.keyset h.held) }
        requires within { IsWithin (2 ^ 20) (seen_line line.now) }
        ensures serves { Serves
            (λ random. served (⟦<Managers as KeyTable>⟧.table self.old.managers.now)
            self.old.keyset (seen_line line.now) random)
            result self.new.keyset (E.state entropy.old) (E.state entropy.new) }
        ensures fits { unfit self.old.keyset primitive
            (⟦<Managers as KeyTable>⟧.table self.old.managers.now) ≡ None
            → OnOk result (IsSomeAnd self.new.kept (λ h. h.primitive ≡ primitive)) }
        ensures reused { IsSomeAnd self.old.kept (λ h. h.primitive ≡ primitive)
            → self.new.kept ≡ self.old.kept }
        ensures kept { IfSome self.new.kept (λ h. IsKept
            (⟦<Managers as KeyTable>⟧.table self.new.managers.now)
            (⟦<Managers as KeyTable>⟧.table h.managers.now) h.primitive self.new.keyset h.held) }
        ensures keyset { self.new.keyset ≡ self.old.keyset }
        ensures table { ⟦<Managers as KeyTable>⟧.table self.new.managers.now
            ≡ ⟦<Managers as KeyTable>⟧.table self.old.managers.now }
    {
        if let Err(fault) = self.fit(alloc, primitive) {
            return match refusal_in(fault) {
                Some(why) => Ok(Reply::Refuses(LineRefusal::Refused(why))),
                None => Err(LineFault::NoMemory),
            };
        }
        match &self.kept {
            Some(handle) => answer(alloc, handle, line, entropy),
            None => unreachable!(),
        }
    }

    /// Keeps a handle for this primitive, which isn't Stream: the kept one if it is for it,
    /// otherwise a new one.
    fn fit(&mut self, alloc: Global, primitive: Primitive) -> Result<(), HandleError>
        requires no_stream { primitive ≢ Stream }
        requires kept { IfSome self.old.kept (λ h. IsKept
            (⟦<Managers as KeyTable>⟧.table self.old.managers.now)
            (⟦<Managers as KeyTable>⟧.table h.managers.now) h.primitive self.old.keyset h.held) }
        ensures fault { IfErr result (IsFaultOf (unfit self.old.keyset primitive
            (⟦<Managers as KeyTable>⟧.table self.old.managers.now))) }
        ensures fits { OnOk result (IsSomeAnd self.new.kept (λ h. h.primitive ≡ primitive)) }
        ensures reused { IsSomeAnd self.old.kept (λ h. h.primitive ≡ primitive)
            → self.new.kept ≡ self.old.kept }
        ensures kept { IfSome self.new.kept (λ h. IsKept
            (⟦<Managers as KeyTable>⟧.table self.new.managers.now)
            (⟦<Managers as KeyTable>⟧.table h.managers.now) h.primitive self.new.keyset h.held) }
        ensures keyset { self.new.keyset ≡ self.old.keyset }
        ensures table { ⟦<Managers as KeyTable>⟧.table self.new.managers.now
            ≡ ⟦<Managers as KeyTable>⟧.table self.old.managers.now }
    {
        if self.is_kept(primitive) {
            return Ok(());
        }
        let handle = Handle::new(alloc, &self.keyset, self.managers, primitive)?;
        self.kept = Some(handle);
        Ok(())
    }

    /// Whether the kept handle is for this primitive.
    fn is_kept(&self, primitive: Primitive) -> bool
        ensures { IsTrue result ↔ IsSomeAnd self.now.kept (λ h. h.primitive ≡ primitive) }
    {
        match &self.kept {
            Some(handle) => handle.primitive() == primitive,
            None => false,
        }
    }

    /// Edits the keyset, and the handle follows or is dropped; or says why the edit is refused, and
    /// keeps the handle.
    fn edit<E: Entropy>(
        &mut self,
        alloc: Global,
        command: &KeysetEdit<Template>,
        entropy: &mut E,
    ) -> Result<Reply, LineFault>
        requires kept { IfSome self.old.kept (λ h. IsKept
            (⟦<Managers as KeyTable>⟧.table self.old.managers.now)
            (⟦<Managers as KeyTable>⟧.table h.managers.now) h.primitive self.old.keyset h.held) }
        ensures serves { Serves
            (λ random. edit_line self.old.keyset random (seen_edit command.now))
            result self.new.keyset (E.state entropy.old) (E.state entropy.new) }
        ensures kept { IfSome self.new.kept (λ h. IsKept
            (⟦<Managers as KeyTable>⟧.table self.new.managers.now)
            (⟦<Managers as KeyTable>⟧.table h.managers.now) h.primitive self.new.keyset h.held) }
        ensures unchanged { OnErr result (self.new.keyset ≡ self.old.keyset) }
        ensures unedited { IsUnedited result → self.new.kept ≡ self.old.kept }
        ensures table { ⟦<Managers as KeyTable>⟧.table self.new.managers.now
            ≡ ⟦<Managers as KeyTable>⟧.table self.old.managers.now }
    {
        let change = change_of(command, &self.keyset);
        match apply(alloc, &mut self.keyset, command, entropy) {
            Ok(()) => {
                self.follow(alloc, change);
                Ok(edited_reply(command, &self.keyset))
            }
            Err(EditError::Refused(fault)) => {
                let why = Refusal::Command(fault);
                Ok(Reply::Refuses(LineRefusal::Refused(why)))
            }
            Err(EditError::EntropyFault) => Err(LineFault::EntropyFault),
            Err(EditError::NoMemory) => Err(LineFault::NoMemory),
        }
    }
}

/// What an accepted edit does to the records of a keyset.
#[derive(Clone, Copy)]
enum Change {
    /// Each record stays as it is, in its place; others may come after them.
    Grows,
    /// Only the record of this place changes.
    At(usize),
    /// The record of this place goes.
    Loses(usize),
}

impl<'m> Session<'m> {
    /// Makes the handle one of the keyset, which came of the handle's own by this change. It is
    /// dropped if it can't follow: if an enabled record can't serve, or for want of memory.
    fn follow(&mut self, alloc: Global, change: Change)
        requires changed { (before : Keys) × IsChanged change before.records self.old.keyset.records
            × IfSome self.old.kept (λ h. IsKept
            (⟦<Managers as KeyTable>⟧.table self.old.managers.now)
            (⟦<Managers as KeyTable>⟧.table h.managers.now) h.primitive before h.held) }
        ensures keyset { self.new.keyset ≡ self.old.keyset }
        ensures kept { IfSome self.new.kept (λ h. IsKept
            (⟦<Managers as KeyTable>⟧.table self.new.managers.now)
            (⟦<Managers as KeyTable>⟧.table h.managers.now) h.primitive self.new.keyset h.held) }
        ensures table { ⟦<Managers as KeyTable>⟧.table self.new.managers.now
            ≡ ⟦<Managers as KeyTable>⟧.table self.old.managers.now }
    {
        if let Some(handle) = self.kept.take() {
            if let Ok(next) = followed(alloc, handle, change, &self.keyset) {
                self.kept = Some(next);
            }
        }
    }
}

/// The handle of a keyset that came of the handle's own by this change.
fn followed<'m>(
    alloc: Global,
    handle: Handle<'m>,
    change: Change,
    keyset: &Keyset,
) -> Result<Handle<'m>, HandleError>
    requires changed { (before : Keys) × IsChanged change before.records keyset.now.records
        × IsOver (⟦<Managers as KeyTable>⟧.table handle.managers.now) handle.primitive before
        handle.held }
    ensures fault { IfErr result (IsFaultOf (unfit keyset.now handle.entry.primitive
        (⟦<Managers as KeyTable>⟧.table handle.entry.managers.now))) }
    ensures over { IfOk result (λ h. IsOver (⟦<Managers as KeyTable>⟧.table h.managers.now)
        handle.entry.primitive keyset.now h.held) }
    ensures table { IfOk result (λ h. ⟦<Managers as KeyTable>⟧.table h.managers.now
        ≡ ⟦<Managers as KeyTable>⟧.table handle.entry.managers.now) }
    ensures primitive { IfOk result (λ h. h.primitive ≡ handle.entry.primitive) }
{
    match change {
        Change::Grows => handle.grown(alloc, keyset),
        Change::At(place) => handle.changed(alloc, keyset, place),
        Change::Loses(place) => {
            let left = handle.without(alloc, keyset, place)?;
            Ok(left)
        }
    }
}

/// What the edit does to the keyset's records, if it is accepted.
fn change_of(command: &KeysetEdit<Template>, keyset: &Keyset) -> Change
    ensures { IsChange keyset.now (seen_edit command.now) result }
{
    match command {
        KeysetEdit::Add(_) | KeysetEdit::Rotate(_) | KeysetEdit::Promote(_) => Change::Grows,
        KeysetEdit::Enable(id) => enabled_at(keyset, *id),
        KeysetEdit::Disable(id) | KeysetEdit::Destroy(id) => match keyset.find(*id) {
            Some(place) => Change::At(place),
            None => Change::Grows,
        },
        KeysetEdit::Delete(id) => match keyset.find(*id) {
            Some(place) => Change::Loses(place),
            None => Change::Grows,
        },
    }
}

/// What enabling the first record with this id does: nothing, if it is ENABLED.
fn enabled_at(keyset: &Keyset, id: u32) -> Change
    ensures { IsChange keyset.now (Enable id) result }
{
    match keyset.find(id) {
        Some(place) => {
            if keyset.record_at(place).status == ENABLED {
                Change::Grows
            } else {
                Change::At(place)
            }
        }
        None => Change::Grows,
    }
}

/// The template of this name, or why there is none. No memory is taken.
pub fn find_template(name: &str) -> Result<Template, Refusal>
    ensures { MatchResult result (λ template. template_of name.now ≡ Ok (seen template))
        (λ why. template_of name.now ≡ Err why) }
{
    match template_named(name) {
        Ok(template) => Ok(template),
        Err(TemplateFault::Asymmetric) => Err(Refusal::AsymmetricTemplate),
        Err(TemplateFault::Unknown) => Err(Refusal::UnknownTemplate),
    }
}

/// The edit that the line asks for, or why there is none.
#[tactic(auto, unfolding(crate::specs::Serving::serve))]
fn command_of(line: &Line<'_>) -> Result<KeysetEdit<Template>, LineRefusal>
    requires no_keys { needs (seen_line line.now) ≡ None }
    ensures { Asks (seen_line line.now) result }
{
    match line {
        Line::Edit(edit) => {
            let command = find_edit(*edit)?;
            Ok(command)
        }
        Line::Bad(why) => Err(*why),
        _ => Err(LineRefusal::BadLine),
    }
}

/// The edit with its template found, or why there is none. No memory is taken.
pub fn find_edit(edit: KeysetEdit<&str>) -> Result<KeysetEdit<Template>, Refusal>
    ensures { FindsEdit (seen_by (λ name. name.now) edit.entry) result }
{
    match edit {
        KeysetEdit::Add(name) => Ok(KeysetEdit::Add(find_template(name)?)),
        KeysetEdit::Rotate(name) => Ok(KeysetEdit::Rotate(find_template(name)?)),
        KeysetEdit::Promote(id) => Ok(KeysetEdit::Promote(id)),
        KeysetEdit::Enable(id) => Ok(KeysetEdit::Enable(id)),
        KeysetEdit::Disable(id) => Ok(KeysetEdit::Disable(id)),
        KeysetEdit::Destroy(id) => Ok(KeysetEdit::Destroy(id)),
        KeysetEdit::Delete(id) => Ok(KeysetEdit::Delete(id)),
    }
}

/// The reply to an accepted edit that gave this keyset: the id of the key that it made, if any.
fn edited_reply(command: &KeysetEdit<Template>, keyset: &Keyset) -> Reply
    ensures { result ≡ edited_reply (seen_edit command.now) keyset.now }
{
    match command {
        KeysetEdit::Add(_) | KeysetEdit::Rotate(_) => {
            Reply::NewId(keyset.record_at(keyset.len() - 1).id)
        }
        _ => Reply::Done,
    }
}
