//! Keysets in clear, or under the lock of a master: how each command takes one, and puts one.

ghost use Rattle.std.specs.Prelude.{◌≡◌, ◌≤◌, ◌^◌, length, IfOk, IfSome, Option, Some, option_map};
ghost use Rattle.std.specs.List.{AllByRecursion};
ghost use Rattle.key_msgs.specs.declared.primitive.Primitive.TheVariants.{Aead};
ghost use Rattle.keyset_model.specs.Keyset.{Keys, IsShort};
ghost use Rattle.managers.specs.Table.{Table};
ghost use Rattle.wrapped_prims.specs.Making.{IsOver};
ghost use Rattle.tinkey_plans.specs.Ends.{World};
ghost use Rattle.tinkey_plans.specs.Handles.{IsServing};
ghost use Rattle.tinkey_plans.specs.Locks.{keyset_under, limit_under, loads_locked, opens_lock, opens_master, puts_under, takes_locked, takes_under, writes_under, IsLock, IsSomeLock, PassesLock};
ghost use Rattle.tinkey_plans.specs.Steps.{origin_of, Finishes, Passes};
ghost use Rattle.tinkey_actions.specs.Written.{form_held, with_status, write_status};
ghost use Rattle.tinkey_session.specs.Writing.{Writes};
ghost use Rattle.tinkey_words.specs.Words.{seen_lock, seen_master, seen_name, seen_place};

use crate::output::{put, written};
use crate::steps::{KEYSET_LIMIT, keyset_of, load_bytes, load_keyset, take_bytes};
use crate::using::handle_of;
use crate::wrapping::{WRAPPED_LIMIT, unwrap_under, wrap_under};
use key_msgs::Primitive;
use keyset_model::Keyset;
use managers::{KeyTable, Managers};
use std::alloc::Global;
use tink_base::{Bytes, Entropy, Sink, Source, Store};
use tinkey_plans::{Origin, Status};
use tinkey_session::WriteError;
use tinkey_words::{Format, KeysetFile, Master};
use wrapped_prims::Handle;

/// A master that was opened: its keyset, and the handle of that keyset's keys.
#[derive(Drop)]
pub(crate) struct OpenMaster<'m> {
    pub(crate) keyset: Keyset,
    pub(crate) handle: Handle<'m>,
}

/// A lock's master, or none if there is no lock.
#[inline(never)]
pub(crate) fn open_lock<'m, D: Store>(
    alloc: Global,
    managers: &'m Managers,
    lock: Option<Master<'_>>,
    store: &mut D,
) -> Result<Option<OpenMaster<'m>>, Status>
    ensures passes { (w : World) → PassesLock
        (λ lock. option_map (λ h. (
          ⟦<Managers as KeyTable>⟧.table h.handle.managers.now,
          h.keyset,
          h.handle.held,
        )) lock)
        (⟦<Managers as KeyTable>⟧.table managers.now)
        (opens_lock (⟦<Managers as KeyTable>⟧.table managers.now) (seen_lock lock.entry))
        (record w { store = D.state store.old }) result (record w { store = D.state store.new }) }
    ensures some { IfOk result (λ lock. IsSomeLock
        (option_map (λ h. (
          ⟦<Managers as KeyTable>⟧.table h.handle.managers.now,
          h.keyset,
          h.handle.held,
        )) lock)) }
{
    match lock {
        Some(master) => {
            let opened = open_master(alloc, managers, Origin::Master, master, store)?;
            Ok(Some(opened))
        }
        None => Ok(None),
    }
}

/// This master, which this option gives, and whose ENABLED keys can all serve as an AEAD.
pub(crate) fn open_master<'m, D: Store>(
    alloc: Global,
    managers: &'m Managers,
    from: Origin,
    master: Master<'_>,
    store: &mut D,
) -> Result<OpenMaster<'m>, Status>
    ensures passes { (w : World) → PassesLock
        (λ h. Some (
          ⟦<Managers as KeyTable>⟧.table h.handle.managers.now,
          h.keyset,
          h.handle.held,
        ))
        (⟦<Managers as KeyTable>⟧.table managers.now)
        (opens_master from (⟦<Managers as KeyTable>⟧.table managers.now) (seen_master master.entry))
        (record w { store = D.state store.old }) result (record w { store = D.state store.new }) }
    ensures some { IfOk result (λ h. IsSomeLock
        (Some (
          ⟦<Managers as KeyTable>⟧.table h.handle.managers.now,
          h.keyset,
          h.handle.held,
        ))) }
{
    let keyset = load_keyset(alloc, from, master.file, master.form, store)?;
    let handle = handle_of(alloc, from, &keyset, managers, Primitive::Aead)?;
    Ok(OpenMaster { keyset, handle })
}

/// The most bytes of a keyset, or of one sealed under a master.
fn limit_under(lock: Option<&OpenMaster<'_>>) -> usize
    ensures limit { (table : Table) (master : Option Keys) → IsLock
        (option_map (λ h. (
          ⟦<Managers as KeyTable>⟧.table h.now.handle.managers.now,
          h.now.keyset,
          h.now.handle.held,
        )) lock.entry)
        table master → result ≡ limit_under master }
    ensures bound { result ≤ 2 ^ 30 }
{
    match lock {
        Some(_) => WRAPPED_LIMIT,
        None => KEYSET_LIMIT,
    }
}

/// The keyset in these bytes, which come from there, or that they give under the lock's master.
fn keyset_under(
    alloc: Global,
    from: Origin,
    lock: Option<&OpenMaster<'_>>,
    form: Format,
    bytes: &[u8],
) -> Result<Keyset, Status>
    requires lock { IsSomeLock (option_map
        (λ h. (
          ⟦<Managers as KeyTable>⟧.table h.now.handle.managers.now,
          h.now.keyset,
          h.now.handle.held,
        )) lock) }
    requires within { (master : Option Keys) (table : Table) → IsLock
        (option_map (λ h. (
          ⟦<Managers as KeyTable>⟧.table h.now.handle.managers.now,
          h.now.keyset,
          h.now.handle.held,
        )) lock)
        table master → length bytes.now ≤ limit_under master }
    ensures passes { (w : World) (table : Table) (master : Option Keys) → IsLock
        (option_map (λ h. (
          ⟦<Managers as KeyTable>⟧.table h.now.handle.managers.now,
          h.now.keyset,
          h.now.handle.held,
        )) lock.entry)
        table master → Passes (keyset_under from table master form bytes.now) w result w }
    ensures short { IfOk result (λ keyset. AllByRecursion IsShort keyset.records) }
{
    match lock {
        Some(master) => unwrap_under(alloc, from, master, bytes, form),
        None => keyset_of(alloc, from, form, bytes),
    }
}

/// Where the keyset in the file that `--in` gives comes from, or in standard input if there is
/// none.
fn origin_of(file: Option<&str>) -> Origin
    ensures { result ≡ origin_of Origin.In (seen_name file.entry) }
{
    match file {
        Some(_) => Origin::In,
        None => Origin::StandardInput,
    }
}

/// The keyset at the place that `--in` gives, in clear or under the lock.
#[inline(never)]
pub(crate) fn take_under<S: Source, D: Store>(
    alloc: Global,
    lock: Option<&OpenMaster<'_>>,
    place: KeysetFile<'_>,
    source: &mut S,
    store: &mut D,
) -> Result<Keyset, Status>
    requires lock { IsSomeLock (option_map
        (λ h. (
          ⟦<Managers as KeyTable>⟧.table h.now.handle.managers.now,
          h.now.keyset,
          h.now.handle.held,
        )) lock) }
    ensures passes { (w : World) (table : Table) (master : Option Keys) → IsLock
        (option_map (λ h. (
          ⟦<Managers as KeyTable>⟧.table h.now.handle.managers.now,
          h.now.keyset,
          h.now.handle.held,
        )) lock.entry)
        table master → Passes (takes_under Origin.In table master (seen_place place.entry))
        (record w { source = S.state source.old; store = D.state store.old }) result
        (record w { source = S.state source.new; store = D.state store.new }) }
    ensures short { IfOk result (λ keyset. AllByRecursion IsShort keyset.records) }
{
    let bytes = take_bytes(alloc, place.file, limit_under(lock), source, store)?;
    keyset_under(
        alloc,
        origin_of(place.file),
        lock,
        place.form,
        bytes.as_slice(),
    )
}

/// The keyset in the file of this name, which `--keyset` gives, in clear or under the lock.
#[inline(never)]
pub(crate) fn load_under<D: Store>(
    alloc: Global,
    lock: Option<&OpenMaster<'_>>,
    name: &str,
    form: Format,
    store: &mut D,
) -> Result<Keyset, Status>
    requires lock { IsSomeLock (option_map
        (λ h. (
          ⟦<Managers as KeyTable>⟧.table h.now.handle.managers.now,
          h.now.keyset,
          h.now.handle.held,
        )) lock) }
    ensures passes { (w : World) (table : Table) (master : Option Keys) → IsLock
        (option_map (λ h. (
          ⟦<Managers as KeyTable>⟧.table h.now.handle.managers.now,
          h.now.keyset,
          h.now.handle.held,
        )) lock.entry)
        table master → Passes (takes_under Origin.Keyset table master
        (record { file = Some name.now; form = form }))
        (record w { store = D.state store.old }) result (record w { store = D.state store.new }) }
    ensures short { IfOk result (λ keyset. AllByRecursion IsShort keyset.records) }
{
    let bytes = load_bytes(alloc, Origin::Keyset, name, limit_under(lock), store)?;
    keyset_under(alloc, Origin::Keyset, lock, form, bytes.as_slice())
}

/// The keyset at the place that `--in` gives, in clear or under a lock that is opened first.
#[inline(never)]
pub(crate) fn take_locked<S: Source, D: Store>(
    alloc: Global,
    managers: &Managers,
    lock: Option<Master<'_>>,
    place: KeysetFile<'_>,
    source: &mut S,
    store: &mut D,
) -> Result<Keyset, Status>
    ensures passes { (w : World) → Passes
        (takes_locked Origin.In (⟦<Managers as KeyTable>⟧.table managers.now) (seen_lock lock.entry)
        (seen_place place.entry))
        (record w { source = S.state source.old; store = D.state store.old }) result
        (record w { source = S.state source.new; store = D.state store.new }) }
    ensures short { IfOk result (λ keyset. AllByRecursion IsShort keyset.records) }
{
    let lock = open_lock(alloc, managers, lock, store)?;
    take_under(alloc, lock.as_ref(), place, source, store)
}

/// The keyset in the file that `--keyset` gives, in clear or under a lock that is opened first.
#[inline(never)]
pub(crate) fn load_locked<D: Store>(
    alloc: Global,
    managers: &Managers,
    lock: Option<Master<'_>>,
    name: &str,
    form: Format,
    store: &mut D,
) -> Result<Keyset, Status>
    ensures passes { (w : World) → Passes
        (loads_locked (⟦<Managers as KeyTable>⟧.table managers.now) (seen_lock lock.entry) name.now
        form) (record w { store = D.state store.old }) result
        (record w { store = D.state store.new }) }
    ensures short { IfOk result (λ keyset. AllByRecursion IsShort keyset.records) }
{
    let lock = open_lock(alloc, managers, lock, store)?;
    load_under(alloc, lock.as_ref(), name, form, store)
}

/// The keyset as written: in this form, in clear or under the lock. So it is written for a command
/// and for a line of a session. Under a lock no IV is drawn for a keyset that is too long.
pub(crate) fn write_under<E: Entropy>(
    alloc: Global,
    lock: Option<&OpenMaster<'_>>,
    form: Format,
    keyset: &Keyset,
    entropy: &mut E,
) -> Result<Bytes, WriteError>
    requires lock { IsSomeLock (option_map
        (λ h. (
          ⟦<Managers as KeyTable>⟧.table h.now.handle.managers.now,
          h.now.keyset,
          h.now.handle.held,
        )) lock) }
    requires short { AllByRecursion IsShort keyset.now.records }
    ensures passes { (w : World) (table : Table) (master : Option Keys) → IsLock
        (option_map
        (λ h. (
          ⟦<Managers as KeyTable>⟧.table h.now.handle.managers.now,
          h.now.keyset,
          h.now.handle.held,
        )) lock.entry)
        table master → Passes (writes_under table master form keyset.now)
        (record w { entropy = E.state entropy.old }) (with_status result)
        (record w { entropy = E.state entropy.new }) }
    ensures writes { Writes (form_held
        (option_map
        (λ h. (
          ⟦<Managers as KeyTable>⟧.table h.now.handle.managers.now,
          h.now.keyset,
          h.now.handle.held,
        )) lock.entry)
        form) keyset.now result (E.state entropy.old) (E.state entropy.new) }
{
    match lock {
        Some(master) => {
            written(alloc, Format::Binary, keyset)?;
            wrap_under(alloc, &master.handle, keyset, form, entropy)
        }
        None => written(alloc, form, keyset),
    }
}

/// The same, or the status of a keyset that isn't written.
pub(crate) fn written_under<E: Entropy>(
    alloc: Global,
    lock: Option<&OpenMaster<'_>>,
    form: Format,
    keyset: &Keyset,
    entropy: &mut E,
) -> Result<Bytes, Status>
    requires lock { IsSomeLock (option_map
        (λ h. (
          ⟦<Managers as KeyTable>⟧.table h.now.handle.managers.now,
          h.now.keyset,
          h.now.handle.held,
        )) lock) }
    requires short { AllByRecursion IsShort keyset.now.records }
    ensures { (w : World) (table : Table) (master : Option Keys) → IsLock
        (option_map
        (λ h. (
          ⟦<Managers as KeyTable>⟧.table h.now.handle.managers.now,
          h.now.keyset,
          h.now.handle.held,
        )) lock.entry)
        table master → Passes (writes_under table master form keyset.now)
        (record w { entropy = E.state entropy.old }) result (record w { entropy = E.state entropy.new }) }
{
    match write_under(alloc, lock, form, keyset, entropy) {
        Ok(bytes) => Ok(bytes),
        Err(error) => Err(unwritten(error)),
    }
}

/// The status of a keyset that isn't written.
fn unwritten(error: WriteError) -> Status
    ensures { result ≡ write_status error }
{
    match error {
        WriteError::Refused(_) => Status::KeysetOutgrown,
        WriteError::EntropyFault => Status::EntropyFault,
        WriteError::NoMemory => Status::NoMemory,
    }
}

/// Puts a keyset, in clear or under the lock, into a new file or, if none is named, to the sink.
#[inline(never)]
pub(crate) fn put_under<K: Sink, E: Entropy, D: Store>(
    alloc: Global,
    lock: Option<&OpenMaster<'_>>,
    out: KeysetFile<'_>,
    keyset: &Keyset,
    sink: &mut K,
    entropy: &mut E,
    store: &mut D,
) -> Result<(), Status>
    requires lock { IsSomeLock (option_map
        (λ h. (
          ⟦<Managers as KeyTable>⟧.table h.now.handle.managers.now,
          h.now.keyset,
          h.now.handle.held,
        )) lock) }
    requires short { AllByRecursion IsShort keyset.now.records }
    ensures { (w : World) (table : Table) (master : Option Keys) → IsLock
        (option_map (λ h. (
          ⟦<Managers as KeyTable>⟧.table h.now.handle.managers.now,
          h.now.keyset,
          h.now.handle.held,
        )) lock.entry)
        table master → Finishes (puts_under table master (seen_place out.entry) keyset.now)
        (record w {
          sink = K.state sink.old;
          store = D.state store.old;
          entropy = E.state entropy.old;
        }) result
        (record w {
          sink = K.state sink.new;
          store = D.state store.new;
          entropy = E.state entropy.new;
        }) }
{
    let bytes = written_under(alloc, lock, out.form, keyset, entropy)?;
    put(alloc, out.file, sink, store, bytes.as_slice())
}
