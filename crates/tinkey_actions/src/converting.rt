//! convert-keyset, wrap-keyset and unwrap-keyset: a keyset in another form, under another master,
//! or in clear.

ghost use Rattle.std.specs.Prelude.{◌≡◌, Option, option_map};
ghost use Rattle.keyset_model.specs.Keyset.{Keys};
ghost use Rattle.managers.specs.Table.{Table};
ghost use Rattle.tinkey_plans.specs.Commands.{command_plan};
ghost use Rattle.tinkey_plans.specs.Ends.{world};
ghost use Rattle.tinkey_plans.specs.Locks.{opens_new_lock, put_origin, puts_under, takes_under, IsLock, IsSomeLock};
ghost use Rattle.tinkey_plans.specs.Steps.{Finishes};
ghost use Rattle.tinkey_words.specs.Words.{convert_keyset, seen_lock, seen_new_lock, seen_place};

use crate::locks::{OpenMaster, open_lock, open_master, put_under, take_under};
use managers::{KeyTable, Managers};
use std::alloc::Global;
use tink_base::{Entropy, Sink, Source, Store};
use tinkey_plans::{Origin, Status};
use tinkey_words::{KeysetFile, Master, NewLock};

/// The keyset at one place, in clear or under the lock, put at another one, as the new lock says.
#[inline(never)]
pub fn convert_keyset<S: Source, K: Sink, E: Entropy, D: Store>(
    alloc: Global,
    managers: &Managers,
    lock: Option<Master<'_>>,
    new: NewLock<'_>,
    input: KeysetFile<'_>,
    output: KeysetFile<'_>,
    source: &mut S,
    sink: &mut K,
    entropy: &mut E,
    store: &mut D,
) -> Result<(), Status>
    ensures { Finishes
        (command_plan (⟦<Managers as KeyTable>⟧.table managers.now)
        (convert_keyset (seen_lock lock.entry) (seen_new_lock new.entry) (seen_place input.entry)
        (seen_place output.entry)))
        (world (S.state source.old) (K.state sink.old) (D.state store.old) (E.state entropy.old)) result
        (world (S.state source.new) (K.state sink.new) (D.state store.new) (E.state entropy.new)) }
{
    let lock = open_lock(alloc, managers, lock, store)?;
    convert_under(
        alloc,
        managers,
        lock.as_ref(),
        new,
        input,
        output,
        source,
        sink,
        entropy,
        store,
    )
}

/// The same under the lock of the keyset that is taken.
fn convert_under<S: Source, K: Sink, E: Entropy, D: Store>(
    alloc: Global,
    managers: &Managers,
    lock: Option<&OpenMaster<'_>>,
    new: NewLock<'_>,
    input: KeysetFile<'_>,
    output: KeysetFile<'_>,
    source: &mut S,
    sink: &mut K,
    entropy: &mut E,
    store: &mut D,
) -> Result<(), Status>
    requires lock { IsSomeLock (option_map
        (λ h. (
          ⟦<Managers as KeyTable>⟧.table h.now.handle.managers.now,
          h.now.keyset,
          h.now.handle.held,
        )) lock) }
    ensures { (taken : Option Keys) → IsLock
        (option_map (λ h. (
          ⟦<Managers as KeyTable>⟧.table h.now.handle.managers.now,
          h.now.keyset,
          h.now.handle.held,
        )) lock.entry)
        (⟦<Managers as KeyTable>⟧.table managers.now) taken → Finishes
        (opens_new_lock (⟦<Managers as KeyTable>⟧.table managers.now) (seen_new_lock new.entry) taken (λ put.
        takes_under Origin.In (⟦<Managers as KeyTable>⟧.table managers.now) taken (seen_place input.entry)
        (puts_under (⟦<Managers as KeyTable>⟧.table managers.now) put (seen_place output.entry))))
        (world (S.state source.old) (K.state sink.old) (D.state store.old) (E.state entropy.old)) result
        (world (S.state source.new) (K.state sink.new) (D.state store.new) (E.state entropy.new)) }
{
    match new {
        NewLock::AsTaken => convert(
            alloc, lock, lock, input, output, source, sink, entropy, store,
        ),
        NewLock::InClear => convert(
            alloc, lock, None, input, output, source, sink, entropy, store,
        ),
        NewLock::Under(master) => {
            let put = open_master(alloc, managers, put_origin(lock), master, store)?;
            convert(
                alloc,
                lock,
                Some(&put),
                input,
                output,
                source,
                sink,
                entropy,
                store,
            )
        }
    }
}

/// The option that gives the master of a keyset that is put, by the lock of the one that is taken.
fn put_origin(lock: Option<&OpenMaster<'_>>) -> Origin
    ensures { (table : Table) (taken : Option Keys) → IsLock
        (option_map (λ h. (
          ⟦<Managers as KeyTable>⟧.table h.now.handle.managers.now,
          h.now.keyset,
          h.now.handle.held,
        )) lock.entry)
        table taken → result ≡ put_origin taken }
{
    match lock {
        Some(_) => Origin::NewMaster,
        None => Origin::OnlyMaster,
    }
}

/// The keyset at one place, taken under one lock and put under the other.
fn convert<S: Source, K: Sink, E: Entropy, D: Store>(
    alloc: Global,
    taken: Option<&OpenMaster<'_>>,
    put: Option<&OpenMaster<'_>>,
    input: KeysetFile<'_>,
    output: KeysetFile<'_>,
    source: &mut S,
    sink: &mut K,
    entropy: &mut E,
    store: &mut D,
) -> Result<(), Status>
    requires taken { IsSomeLock (option_map
        (λ h. (
          ⟦<Managers as KeyTable>⟧.table h.now.handle.managers.now,
          h.now.keyset,
          h.now.handle.held,
        )) taken) }
    requires put { IsSomeLock (option_map
        (λ h. (
          ⟦<Managers as KeyTable>⟧.table h.now.handle.managers.now,
          h.now.keyset,
          h.now.handle.held,
        )) put) }
    ensures { (table : Table) (old new : Option Keys) → IsLock
        (option_map (λ h. (
          ⟦<Managers as KeyTable>⟧.table h.now.handle.managers.now,
          h.now.keyset,
          h.now.handle.held,
        )) taken.entry)
        table old → IsLock
        (option_map (λ h. (
          ⟦<Managers as KeyTable>⟧.table h.now.handle.managers.now,
          h.now.keyset,
          h.now.handle.held,
        )) put.entry)
        table new → Finishes
        (takes_under Origin.In table old (seen_place input.entry) (puts_under table new (seen_place output.entry)))
        (world (S.state source.old) (K.state sink.old) (D.state store.old) (E.state entropy.old)) result
        (world (S.state source.new) (K.state sink.new) (D.state store.new) (E.state entropy.new)) }
{
    let keyset = take_under(alloc, taken, input, source, store)?;
    put_under(alloc, put, output, &keyset, sink, entropy, store)
}
