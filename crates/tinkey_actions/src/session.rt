//! session: the lines of the input answered, and the last keyset saved.

ghost use Rattle.std.specs.Prelude.{◌≡◌, Option, Some, option_map};
ghost use Rattle.std.specs.List.{AllByRecursion};
ghost use Rattle.keyset_model.specs.Keyset.{Keys, IsShort};
ghost use Rattle.managers.specs.Table.{Table};
ghost use Rattle.tinkey_plans.specs.Ends.{World, talk_status, world};
ghost use Rattle.tinkey_plans.specs.Locks.{takes_under, IsLock, IsSomeLock};
ghost use Rattle.tinkey_plans.specs.Plan.{exchanges};
ghost use Rattle.tinkey_plans.specs.Session.{finds_free, holds_session, saves, saves_as, saving_session, session_plan};
ghost use Rattle.tinkey_plans.specs.Steps.{Finishes, Passes};
ghost use Rattle.tinkey_words.specs.Words.{seen_lock, seen_name, seen_place};

use crate::locks::{OpenMaster, load_under, open_lock, write_under, written_under};
use crate::output::create_file;
use keyset_model::Keyset;
use managers::{AeadManager, DaeadManager, KeyManager, KeyTable, MacManager, Managers, PrfManager};
use std::alloc::Global;
use std::marker::PhantomData;
use tink_base::{Bytes, Entropy, Lookahead, Sink, Source, Store};
use tinkey_plans::{Origin, Status};
use tinkey_session::{TalkFault, WriteError, Writer};
use tinkey_talk::talk::talk;
use tinkey_words::{Format, KeysetFile, Master};

/// session: answers the lines of the input over the keyset in the file of this name, and puts the
/// last keyset into a new file, if one is named. Both are in clear or under the lock. With
/// `saved_only`, lines seal and tag only under a keyset that a file has.
#[inline(never)]
pub fn answer_lines<S: Source, K: Sink, E: Lookahead, D: Store>(
    alloc: Global,
    managers: &Managers,
    lock: Option<Master<'_>>,
    keyset: &str,
    form: Format,
    output: KeysetFile<'_>,
    saved_only: bool,
    source: &mut S,
    sink: &mut K,
    entropy: &mut E,
    store: &mut D,
) -> Result<(), Status>
    ensures { Finishes
        (session_plan (⟦<Managers as KeyTable>⟧.table managers.now) (seen_lock lock.entry) keyset.now
        form (seen_place output.entry) saved_only)
        (world (S.state source.old) (K.state sink.old) (D.state store.old) (E.state entropy.old))
        result
        (world (S.state source.new) (K.state sink.new) (D.state store.new) (E.state entropy.new)) }
{
    let lock = open_lock(alloc, managers, lock, store)?;
    answer_under(
        alloc,
        managers,
        lock.as_ref(),
        keyset,
        form,
        output,
        saved_only,
        source,
        sink,
        entropy,
        store,
    )
}

/// The same under the lock. The name of the new file must be free.
fn answer_under<S: Source, K: Sink, E: Lookahead, D: Store>(
    alloc: Global,
    managers: &Managers,
    lock: Option<&OpenMaster<'_>>,
    keyset: &str,
    form: Format,
    output: KeysetFile<'_>,
    saved_only: bool,
    source: &mut S,
    sink: &mut K,
    entropy: &mut E,
    store: &mut D,
) -> Result<(), Status>
    requires lock { IsSomeLock (option_map
        (λ h. (
          ⟦<Managers as KeyTable>⟧.table h.now.handle.managers.now,
          h.now.keyset,
          h.now.handle.held,
        )) lock) }
    ensures { (master : Option Keys) → IsLock
        (option_map (λ h. (
          ⟦<Managers as KeyTable>⟧.table h.now.handle.managers.now,
          h.now.keyset,
          h.now.handle.held,
        )) lock.entry)
        (⟦<Managers as KeyTable>⟧.table managers.now) master → Finishes
        (takes_under Origin.Keyset (⟦<Managers as KeyTable>⟧.table managers.now) master
        (record { file = Some keyset.now; form = form })
        (holds_session (⟦<Managers as KeyTable>⟧.table managers.now) master (seen_place output.entry)
        saved_only))
        (world (S.state source.old) (K.state sink.old) (D.state store.old) (E.state entropy.old))
        result
        (world (S.state source.new) (K.state sink.new) (D.state store.new) (E.state entropy.new)) }
{
    let keyset = load_under(alloc, lock, keyset, form, store)?;
    find_free(output.file, store)?;
    answer_all(
        alloc, managers, lock, keyset, output, saved_only, source, sink, entropy, store,
    )
}

/// Looks up the name of a new file, if one is named: it must be free.
fn find_free<D: Store>(file: Option<&str>, store: &mut D) -> Result<(), Status>
    ensures { (w : World) → Passes (finds_free (seen_name file.entry))
        (record w { store = D.state store.old }) result (record w { store = D.state store.new }) }
{
    match file {
        Some(name) => match store.is_taken(name) {
            Ok(true) => Err(Status::OutExists),
            Ok(false) => Ok(()),
            Err(_) => Err(Status::StoreFault),
        },
        None => Ok(()),
    }
}

/// The boxes of a program's managers. A ghost member can't quote what contracts see of a type that
/// owns boxes, so `SessionWriter` spells it out, and has this type beside it for their names.
type Boxes = PhantomData<
    (
        Box<dyn AeadManager>,
        Box<dyn DaeadManager>,
        Box<dyn MacManager>,
        Box<dyn PrfManager>,
    ),
>;

/// Writes the keyset that a line saves, as the last one is written: in this form, in clear or under
/// the lock. It also says whether lines seal and tag only under a keyset that is saved.
#[derive(Clone, Copy)]
struct SessionWriter<'h, 'm> {
    lock: Option<&'h OpenMaster<'m>>,
    form: Format,
    saved_only: bool,
    boxes: Boxes,
}

impl Writer for SessionWriter<'_, '_> {
    ghost use Rattle.std.specs.Prelude.{option_map};
    ghost use Rattle.managers.specs.Found.{or_standard};
    ghost use Rattle.managers.specs.Table.{Table, entries_by};
    ghost use Rattle.tinkey_plans.specs.Locks.{IsSomeLock};
    ghost use Rattle.tinkey_actions.specs.Written.{form_held};
    ghost use Rattle.tinkey_session.specs.Saving.{with_saved_only};

    ghost form = { λ writer. with_saved_only writer.saved_only (form_held
        (option_map (λ h. (
          or_standard (λ own. record {
            aead = entries_by
                (λ b. (AeadManager-box b).KeyManager.url b.value)
                (λ b. (AeadManager-box b).KeyManager.scheme b.value) own.aead.items;
            daead = entries_by
                (λ b. (DaeadManager-box b).KeyManager.url b.value)
                (λ b. (DaeadManager-box b).KeyManager.scheme b.value) own.daead.items;
            mac = entries_by
                (λ b. (MacManager-box b).KeyManager.url b.value)
                (λ b. (MacManager-box b).KeyManager.scheme b.value) own.mac.items;
            prf = entries_by
                (λ b. (PrfManager-box b).KeyManager.url b.value)
                (λ b. (PrfManager-box b).KeyManager.scheme b.value) own.prf.items;
          }) h.now.handle.managers.now.supplied,
          h.now.keyset,
          h.now.handle.held,
        )) writer.lock) writer.form) };

    ghost ready = { λ writer. IsSomeLock
        (option_map (λ h. (
          or_standard (λ own. record {
            aead = entries_by
                (λ b. (AeadManager-box b).KeyManager.url b.value)
                (λ b. (AeadManager-box b).KeyManager.scheme b.value) own.aead.items;
            daead = entries_by
                (λ b. (DaeadManager-box b).KeyManager.url b.value)
                (λ b. (DaeadManager-box b).KeyManager.scheme b.value) own.daead.items;
            mac = entries_by
                (λ b. (MacManager-box b).KeyManager.url b.value)
                (λ b. (MacManager-box b).KeyManager.scheme b.value) own.mac.items;
            prf = entries_by
                (λ b. (PrfManager-box b).KeyManager.url b.value)
                (λ b. (PrfManager-box b).KeyManager.scheme b.value) own.prf.items;
          }) h.now.handle.managers.now.supplied,
          h.now.keyset,
          h.now.handle.held,
        )) writer.lock) };

    fn write<E: Entropy>(
        &self,
        alloc: Global,
        keyset: &Keyset,
        entropy: &mut E,
    ) -> Result<Bytes, WriteError> {
        write_under(alloc, self.lock, self.form, keyset, entropy)
    }

    fn saved_only(&self) -> bool {
        self.saved_only
    }
}

/// Answers all lines of the input over this keyset, and saves the last one. A line that saves the
/// keyset does it in the same form, in clear or under the same lock.
fn answer_all<S: Source, K: Sink, E: Lookahead, D: Store>(
    alloc: Global,
    managers: &Managers,
    lock: Option<&OpenMaster<'_>>,
    keyset: Keyset,
    output: KeysetFile<'_>,
    saved_only: bool,
    source: &mut S,
    sink: &mut K,
    entropy: &mut E,
    store: &mut D,
) -> Result<(), Status>
    requires lock { IsSomeLock (option_map
        (λ h. (
          ⟦<Managers as KeyTable>⟧.table h.now.handle.managers.now,
          h.now.keyset,
          h.now.handle.held,
        )) lock) }
    requires short { AllByRecursion IsShort keyset.records }
    ensures { (master : Option Keys) → IsLock
        (option_map (λ h. (
          ⟦<Managers as KeyTable>⟧.table h.now.handle.managers.now,
          h.now.keyset,
          h.now.handle.held,
        )) lock.entry)
        (⟦<Managers as KeyTable>⟧.table managers.now) master → Finishes
        (exchanges (saving_session (⟦<Managers as KeyTable>⟧.table managers.now) master
        (seen_place output.entry).form saved_only keyset)
        (saves (⟦<Managers as KeyTable>⟧.table managers.now) master (seen_place output.entry)))
        (world (S.state source.old) (K.state sink.old) (D.state store.old) (E.state entropy.old))
        result
        (world (S.state source.new) (K.state sink.new) (D.state store.new) (E.state entropy.new)) }
{
    let writer = SessionWriter {
        lock,
        form: output.form,
        saved_only,
        boxes: PhantomData,
    };
    match talk(
        alloc, keyset, managers, &writer, source, sink, entropy, store,
    ) {
        Ok(last) => save(alloc, lock, output, &last, entropy, store),
        Err(fault) => Err(ended(fault)),
    }
}

/// The status of a session that ended before its input did.
fn ended(fault: TalkFault) -> Status
    ensures { result ≡ talk_status fault }
{
    match fault {
        TalkFault::LineTooLong => Status::LineTooLong,
        TalkFault::TooManyLines => Status::TooManyLines,
        TalkFault::ReadFault => Status::ReadFault,
        TalkFault::WriteFault => Status::WriteFault,
        TalkFault::EntropyFault => Status::EntropyFault,
        TalkFault::NoMemory => Status::NoMemory,
    }
}

/// Puts a keyset into a new file, in clear or under the lock, if one is named.
fn save<E: Entropy, D: Store>(
    alloc: Global,
    lock: Option<&OpenMaster<'_>>,
    output: KeysetFile<'_>,
    keyset: &Keyset,
    entropy: &mut E,
    store: &mut D,
) -> Result<(), Status>
    requires lock { IsSomeLock (option_map
        (λ h. (
          ⟦<Managers as KeyTable>⟧.table h.now.handle.managers.now,
          h.now.keyset,
          h.now.handle.held,
        )) lock) }
    requires short { AllByRecursion IsShort keyset.now.records }
    ensures { (w : World) (table : Table) (master : Option Keys) → IsLock
        (option_map (λ h. (
          ⟦<Managers as KeyTable>⟧.table h.now.handle.managers.now,
          h.now.keyset,
          h.now.handle.held,
        )) lock.entry)
        table master → Finishes (saves table master (seen_place output.entry) keyset.now)
        (record w { entropy = E.state entropy.old; store = D.state store.old }) result
        (record w { entropy = E.state entropy.new; store = D.state store.new }) }
{
    match output.file {
        Some(name) => save_as(alloc, lock, name, output.form, keyset, entropy, store),
        None => Ok(()),
    }
}

/// Puts a keyset into a new file of this name, in this form.
fn save_as<E: Entropy, D: Store>(
    alloc: Global,
    lock: Option<&OpenMaster<'_>>,
    name: &str,
    form: Format,
    keyset: &Keyset,
    entropy: &mut E,
    store: &mut D,
) -> Result<(), Status>
    requires lock { IsSomeLock (option_map
        (λ h. (
          ⟦<Managers as KeyTable>⟧.table h.now.handle.managers.now,
          h.now.keyset,
          h.now.handle.held,
        )) lock) }
    requires short { AllByRecursion IsShort keyset.now.records }
    ensures { (w : World) (table : Table) (master : Option Keys) → IsLock
        (option_map (λ h. (
          ⟦<Managers as KeyTable>⟧.table h.now.handle.managers.now,
          h.now.keyset,
          h.now.handle.held,
        )) lock.entry)
        table master → Finishes (saves_as table master (Some name.now) form keyset.now)
        (record w { entropy = E.state entropy.old; store = D.state store.old }) result
        (record w { entropy = E.state entropy.new; store = D.state store.new }) }
{
    let bytes = written_under(alloc, lock, form, keyset, entropy)?;
    create_file(alloc, name, store, bytes.as_slice())
}
