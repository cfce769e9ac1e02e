//! Edits of keysets, and new ones.

ghost use Rattle.std.specs.Prelude.{◌≡◌, [], ◌∷◌, None, IfOk, OnOk, OnErr};
ghost use Rattle.std.specs.List.{AllByRecursion};
ghost use Rattle.key_msgs.specs.Templates.{seen};
ghost use Rattle.keyset_model.specs.Keyset.{HasSizes, IsShort, fault_of};
ghost use Rattle.tinkey_cmds.specs.Applying.{Applied, DrawsWhole, answer_with};
ghost use Rattle.tinkey_cmds.specs.Edits.{Add, Rotate, first, seen_edit, step, full_or_mixed};
ghost use Rattle.tinkey_cmds.specs.Laws.{IsTemplate};

use crate::drawing::new_record;
use crate::editing::{delete, destroy, disable, enable, is_same, primary_primitive, promote};
use crate::{EditError, EditRefusal, KeysetEdit};
use key_msgs::Template;
use keyset_model::{Keyset, Record};
use std::alloc::Global;
use tink_base::{Entropy, NoMemory};

/// The most records that a keyset has.
const MOST_RECORDS: usize = 1000;

/// A new keyset: one ENABLED key of a template, which is primary.
///
/// Its id is four random bytes, big-endian, drawn until it isn't 0, at most 64 times; the bytes of
/// the key are drawn after it, in one call. `Refused` comes if and only if each of those ids is 0,
/// and holds `IdsExhausted`. `EntropyFault` comes only if the entropy failed; by then only whole
/// ids were drawn, apart from what the failed fill may have lost. At `NoMemory` everything has been
/// drawn.
pub fn create<E: Entropy>(
    alloc: Global,
    template: &Template,
    entropy: &mut E,
) -> Result<Keyset, EditError>
    ensures first { Applied result (first (seen template.now))
        (E.state entropy.old) (E.state entropy.new) }
    ensures whole { DrawsWhole result (E.state entropy.old) (E.state entropy.new) }
    ensures short { IfOk result (λ keyset. AllByRecursion IsShort keyset.records) }
{
    let key = match new_record(alloc, template, None, entropy) {
        Ok(key) => key,
        Err(error) => return Err(error),
    };
    let primary = key.id;
    let records = match alone(alloc, key) {
        Ok(records) => records,
        Err(NoMemory) => return Err(EditError::NoMemory),
    };
    Ok(rebuilt(primary, records))
}

/// Edits a keyset. If the edit is refused, or gives no keyset for another reason, the keyset stays
/// as it is.
///
/// A new key gets an id as in `create`, but one that no record has. An edit with an id changes the
/// first record that has it; all others stay in place. `Refused` comes if and only if the edit is
/// refused, with the first reason in the order of the edit's own checks; only `IdsExhausted` comes
/// after bytes were drawn. `EntropyFault` comes only if the entropy failed; by then only whole ids
/// were drawn, apart from what the failed fill may have lost. At `NoMemory` everything that the
/// edit draws has been drawn. No record is copied. A keyset of short records stays one.
pub fn apply<E: Entropy>(
    alloc: Global,
    keyset: &mut Keyset,
    command: &KeysetEdit<Template>,
    entropy: &mut E,
) -> Result<(), EditError>
    ensures step { Applied (answer_with result keyset.new)
        (step keyset.old (seen_edit command.now)) (E.state entropy.old) (E.state entropy.new) }
    ensures kept { OnErr result (keyset.new ≡ keyset.old) }
    ensures whole { DrawsWhole result (E.state entropy.old) (E.state entropy.new) }
    ensures short { AllByRecursion IsShort keyset.old.records →
        AllByRecursion IsShort keyset.new.records }
{
    match *command {
        KeysetEdit::Add(template) => add(alloc, keyset, &template, entropy),
        KeysetEdit::Rotate(template) => rotate(alloc, keyset, &template, entropy),
        KeysetEdit::Promote(id) => promote(keyset, id),
        KeysetEdit::Enable(id) => enable(alloc, keyset, id),
        KeysetEdit::Disable(id) => disable(keyset, id),
        KeysetEdit::Destroy(id) => destroy(alloc, keyset, id),
        KeysetEdit::Delete(id) => delete(keyset, id),
    }
}

/// Adds a new key at the end.
fn add<E: Entropy>(
    alloc: Global,
    keyset: &mut Keyset,
    template: &Template,
    entropy: &mut E,
) -> Result<(), EditError>
    ensures known { OnOk result (IsTemplate (seen template.now)) }
    ensures step { Applied (answer_with result keyset.new)
        (step keyset.old (Add (seen template.now))) (E.state entropy.old) (E.state entropy.new) }
    ensures kept { OnErr result (keyset.new ≡ keyset.old) }
    ensures whole { DrawsWhole result (E.state entropy.old) (E.state entropy.new) }
{
    if let Some(fault) = full_or_mixed(keyset, template) {
        return Err(EditError::Refused(fault));
    }
    let key = match new_record(alloc, template, Some(&*keyset), entropy) {
        Ok(key) => key,
        Err(error) => return Err(error),
    };
    match keyset.push(key) {
        Ok(()) => Ok(()),
        Err(NoMemory) => Err(EditError::NoMemory),
    }
}

/// Adds a new key at the end, and makes it primary.
fn rotate<E: Entropy>(
    alloc: Global,
    keyset: &mut Keyset,
    template: &Template,
    entropy: &mut E,
) -> Result<(), EditError>
    ensures known { OnOk result (IsTemplate (seen template.now)) }
    ensures step { Applied (answer_with result keyset.new)
        (step keyset.old (Rotate (seen template.now))) (E.state entropy.old) (E.state entropy.new) }
    ensures kept { OnErr result (keyset.new ≡ keyset.old) }
    ensures whole { DrawsWhole result (E.state entropy.old) (E.state entropy.new) }
{
    if let Some(fault) = full_or_mixed(keyset, template) {
        return Err(EditError::Refused(fault));
    }
    let key = match new_record(alloc, template, Some(&*keyset), entropy) {
        Ok(key) => key,
        Err(error) => return Err(error),
    };
    let new_primary = key.id;
    match keyset.push(key) {
        Ok(()) => {}
        Err(NoMemory) => return Err(EditError::NoMemory),
    }
    keyset.set_primary(new_primary);
    Ok(())
}

/// Why a keyset takes no key of a template, whatever bytes are drawn.
fn full_or_mixed(keyset: &Keyset, template: &Template) -> Option<EditRefusal>
    ensures fault { result ≡ full_or_mixed keyset.now (seen template.now) }
    ensures faultless { fault_of keyset.now ≡ None }
{
    if keyset.len() >= MOST_RECORDS {
        return Some(EditRefusal::TooManyKeys);
    }
    if !is_same(primary_primitive(keyset), Some(template.primitive())) {
        return Some(EditRefusal::MixedPrimitive);
    }
    None
}

/// One record alone.
fn alone(alloc: Global, key: Record) -> Result<Vec<Record>, NoMemory>
    ensures { IfOk result (λ records. records.items ≡ key ∷ []) }
{
    let mut one = Vec::new(alloc);
    one.push(key)?;
    Ok(one)
}

/// The keyset of these records, which have no fault.
fn rebuilt(primary: u32, records: Vec<Record>) -> Keyset
    requires sizes { AllByRecursion HasSizes records.items }
    requires faultless { fault_of (record { primary = primary; records = records.items }) ≡ None }
    ensures { result ≡ record { primary = primary; records = records.items } }
{
    match Keyset::build(primary, records) {
        Ok(keyset) => keyset,
        Err(_) => unreachable!(),
    }
}
