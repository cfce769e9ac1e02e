//! create-keyset, and the commands that edit a keyset.

ghost use Rattle.std.specs.Prelude.{IfOk, Option, option_map};
ghost use Rattle.std.specs.List.{AllByRecursion};
ghost use Rattle.key_msgs.specs.Templates.{seen};
ghost use Rattle.keyset_model.specs.Keyset.{Keys, IsShort};
ghost use Rattle.managers.specs.Table.{Table};
ghost use Rattle.tinkey_cmds.specs.Edits.{first, step, seen_edit as seen_command};
ghost use Rattle.tinkey_plans.specs.Ends.{World, world};
ghost use Rattle.tinkey_plans.specs.Locks.{puts_under, takes_under, IsLock, IsSomeLock};
ghost use Rattle.tinkey_plans.specs.Steps.{makes_keyset, Finishes, Passes};
ghost use Rattle.tinkey_plans.specs.Commands.{command_plan};
ghost use Rattle.tinkey_words.specs.Words.{create_keyset, edit_keyset, seen_edit, seen_lock, seen_place};

use crate::locks::{OpenMaster, open_lock, put_under, take_under};
use key_msgs::Template;
use keyset_model::Keyset;
use managers::{KeyTable, Managers};
use std::alloc::Global;
use tink_base::{Entropy, Sink, Source, Store};
use tinkey_cmds::{KeysetEdit, apply, create};
use tinkey_plans::{Origin, Status};
use tinkey_session::{find_edit, find_template};
use tinkey_words::{KeysetFile, Master};

/// create-keyset: the keyset of one new key of the template of this name, put in clear or under the
/// lock.
#[inline(never)]
pub fn create_keyset<K: Sink, E: Entropy, D: Store>(
    alloc: Global,
    managers: &Managers,
    lock: Option<Master<'_>>,
    name: &str,
    output: KeysetFile<'_>,
    sink: &mut K,
    entropy: &mut E,
    store: &mut D,
) -> Result<(), Status>
    ensures { (w : World) → Finishes
        (command_plan (⟦<Managers as KeyTable>⟧.table managers.now)
        (create_keyset (seen_lock lock.entry) name.now (seen_place output.entry)))
        (record w {
          sink = K.state sink.old;
          store = D.state store.old;
          entropy = E.state entropy.old;
        }) result
        (record w {
          sink = K.state sink.new;
          store = D.state store.new;
          entropy = E.state entropy.new;
        }) }
{
    let template = find_template(name)?;
    let lock = open_lock(alloc, managers, lock, store)?;
    create_under(
        alloc,
        lock.as_ref(),
        &template,
        output,
        sink,
        entropy,
        store,
    )
}

/// The keyset of one new key, put in clear or under the lock.
fn create_under<K: Sink, E: Entropy, D: Store>(
    alloc: Global,
    lock: Option<&OpenMaster<'_>>,
    template: &Template,
    output: KeysetFile<'_>,
    sink: &mut K,
    entropy: &mut E,
    store: &mut D,
) -> Result<(), Status>
    requires lock { IsSomeLock (option_map
        (λ h. (
          ⟦<Managers as KeyTable>⟧.table h.now.handle.managers.now,
          h.now.keyset,
          h.now.handle.held,
        )) lock) }
    ensures { (w : World) (table : Table) (master : Option Keys) → IsLock
        (option_map (λ h. (
          ⟦<Managers as KeyTable>⟧.table h.now.handle.managers.now,
          h.now.keyset,
          h.now.handle.held,
        )) lock.entry)
        table master → Finishes
        (makes_keyset (first (seen template.now)) (puts_under table master (seen_place output.entry)))
        (record w {
          sink = K.state sink.old;
          store = D.state store.old;
          entropy = E.state entropy.old;
        }) result
        (record w {
          sink = K.state sink.new;
          store = D.state store.new;
          entropy = E.state entropy.new;
        }) }
{
    let keyset = create_of(alloc, template, entropy)?;
    put_under(alloc, lock, output, &keyset, sink, entropy, store)
}

/// The commands that edit a keyset: one that is taken and put in clear or under the lock.
#[inline(never)]
pub fn edit_keyset<S: Source, K: Sink, E: Entropy, D: Store>(
    alloc: Global,
    managers: &Managers,
    lock: Option<Master<'_>>,
    edit: KeysetEdit<&str>,
    input: KeysetFile<'_>,
    output: KeysetFile<'_>,
    source: &mut S,
    sink: &mut K,
    entropy: &mut E,
    store: &mut D,
) -> Result<(), Status>
    ensures { Finishes
        (command_plan (⟦<Managers as KeyTable>⟧.table managers.now)
        (edit_keyset (seen_lock lock.entry) (seen_edit edit.entry) (seen_place input.entry)
        (seen_place output.entry)))
        (world (S.state source.old) (K.state sink.old) (D.state store.old) (E.state entropy.old)) result
        (world (S.state source.new) (K.state sink.new) (D.state store.new) (E.state entropy.new)) }
{
    let edit = find_edit(edit)?;
    let lock = open_lock(alloc, managers, lock, store)?;
    edit_under(
        alloc,
        lock.as_ref(),
        &edit,
        input,
        output,
        source,
        sink,
        entropy,
        store,
    )
}

/// The keyset at one place after an edit, put at another one, in clear or under the lock.
fn edit_under<S: Source, K: Sink, E: Entropy, D: Store>(
    alloc: Global,
    lock: Option<&OpenMaster<'_>>,
    edit: &KeysetEdit<Template>,
    input: KeysetFile<'_>,
    output: KeysetFile<'_>,
    source: &mut S,
    sink: &mut K,
    entropy: &mut E,
    store: &mut D,
) -> Result<(), Status>
    requires lock { IsSomeLock (option_map
        (λ h. (
          ⟦<Managers as KeyTable>⟧.table h.now.handle.managers.now,
          h.now.keyset,
          h.now.handle.held,
        )) lock) }
    ensures { (table : Table) (master : Option Keys) → IsLock
        (option_map (λ h. (
          ⟦<Managers as KeyTable>⟧.table h.now.handle.managers.now,
          h.now.keyset,
          h.now.handle.held,
        )) lock.entry)
        table master → Finishes
        (takes_under Origin.In table master (seen_place input.entry) (λ keys.
        makes_keyset (step keys (seen_command edit.now))
        (puts_under table master (seen_place output.entry))))
        (world (S.state source.old) (K.state sink.old) (D.state store.old) (E.state entropy.old)) result
        (world (S.state source.new) (K.state sink.new) (D.state store.new) (E.state entropy.new)) }
{
    let keyset = take_under(alloc, lock, input, source, store)?;
    let edited = edit_of(alloc, keyset, edit, entropy)?;
    put_under(alloc, lock, output, &edited, sink, entropy, store)
}

/// The keyset of one new key.
fn create_of<E: Entropy>(
    alloc: Global,
    template: &Template,
    entropy: &mut E,
) -> Result<Keyset, Status>
    ensures passes { (w : World) → Passes (makes_keyset (first (seen template.now)))
        (record w { entropy = E.state entropy.old }) result
        (record w { entropy = E.state entropy.new }) }
    ensures short { IfOk result (λ keyset. AllByRecursion IsShort keyset.records) }
{
    let keyset = create(alloc, template, entropy)?;
    Ok(keyset)
}

/// The keyset after an edit, which changes it in place.
fn edit_of<E: Entropy>(
    alloc: Global,
    keyset: Keyset,
    command: &KeysetEdit<Template>,
    entropy: &mut E,
) -> Result<Keyset, Status>
    requires short { AllByRecursion IsShort keyset.records }
    ensures passes { (w : World) → Passes (makes_keyset (step keyset (seen_command command.now)))
        (record w { entropy = E.state entropy.old }) result
        (record w { entropy = E.state entropy.new }) }
    ensures short { IfOk result (λ keyset. AllByRecursion IsShort keyset.records) }
{
    let mut edited = keyset;
    apply(alloc, &mut edited, command, entropy)?;
    Ok(edited)
}
