//! The edits of records by their ids, which draw no random bytes. An id names the first record that
//! has it; all others stay. A keyset is changed only after everything was checked.

ghost use Rattle.std.specs.Prelude.{◌≡◌, ◌==◌, ◌&&◌, not, Some, IfOk, OnErr, position};
ghost use Rattle.std.specs.List.{list_any};
ghost use Rattle.keyset_model.specs.Keyset.{has_id, is_enabled, is_primary};
ghost use Rattle.tinkey_cmds.specs.Applying.{Edited, answer_with};
ghost use Rattle.tinkey_cmds.specs.Edits.{Promote, Enable, Disable, Destroy, Delete, step, without, is_same, primary_primitive, rule_of};

use crate::{EditError, EditRefusal};
use key_msgs::{KeyFault, Primitive, Rule, primitive_of, read_key};
use keyset_model::{Keyset, Record};
use std::alloc::Global;
use tink_base::{DESTROYED, DISABLED, ENABLED, NoMemory};

/// Makes a record primary.
pub(crate) fn promote(keyset: &mut Keyset, id: u32) -> Result<(), EditError>
    ensures step { Edited (answer_with result keyset.new) (step keyset.old (Promote id)) }
    ensures kept { OnErr result (keyset.new ≡ keyset.old) }
{
    let place = match keyset.find(id) {
        Some(place) => place,
        None => return Err(EditError::Refused(EditRefusal::KeyNotFound)),
    };
    if keyset.record_at(place).status != ENABLED {
        return Err(EditError::Refused(EditRefusal::KeyNotEnabled));
    }
    if has_other(keyset, id, place) {
        return Err(EditError::Refused(EditRefusal::AmbiguousPrimary));
    }
    keyset.set_primary(id);
    Ok(())
}

/// Makes a record ENABLED.
pub(crate) fn enable(alloc: Global, keyset: &mut Keyset, id: u32) -> Result<(), EditError>
    ensures step { Edited (answer_with result keyset.new) (step keyset.old (Enable id)) }
    ensures kept { OnErr result (keyset.new ≡ keyset.old) }
{
    let place = match keyset.find(id) {
        Some(place) => place,
        None => return Err(EditError::Refused(EditRefusal::KeyNotFound)),
    };
    let key = keyset.record_at(place);
    if key.status == DESTROYED {
        return Err(EditError::Refused(EditRefusal::KeyDestroyed));
    }
    if is_rival(keyset, id, key) {
        return Err(EditError::Refused(EditRefusal::AmbiguousPrimary));
    }
    if !is_same(primitive_of(key.url.as_str()), primary_primitive(keyset)) {
        return Err(EditError::Refused(EditRefusal::MixedPrimitive));
    }
    if let Some(rule) = broken_rule(alloc, key)? {
        return Err(EditError::Refused(EditRefusal::KeyRefused(rule)));
    }
    keyset.set_status(place, ENABLED);
    Ok(())
}

/// Makes a record DISABLED.
pub(crate) fn disable(keyset: &mut Keyset, id: u32) -> Result<(), EditError>
    ensures step { Edited (answer_with result keyset.new) (step keyset.old (Disable id)) }
    ensures kept { OnErr result (keyset.new ≡ keyset.old) }
{
    let place = match keyset.find(id) {
        Some(place) => place,
        None => return Err(EditError::Refused(EditRefusal::KeyNotFound)),
    };
    if id == keyset.primary() {
        return Err(EditError::Refused(EditRefusal::KeyIsPrimary));
    }
    if keyset.record_at(place).status == DESTROYED {
        return Err(EditError::Refused(EditRefusal::KeyDestroyed));
    }
    keyset.set_status(place, DISABLED);
    Ok(())
}

/// Makes a record DESTROYED, with no key data.
pub(crate) fn destroy(alloc: Global, keyset: &mut Keyset, id: u32) -> Result<(), EditError>
    ensures step { Edited (answer_with result keyset.new) (step keyset.old (Destroy id)) }
    ensures kept { OnErr result (keyset.new ≡ keyset.old) }
{
    let place = match keyset.find(id) {
        Some(place) => place,
        None => return Err(EditError::Refused(EditRefusal::KeyNotFound)),
    };
    if id == keyset.primary() {
        return Err(EditError::Refused(EditRefusal::KeyIsPrimary));
    }
    keyset.destroy(alloc, place);
    Ok(())
}

/// Removes a record.
pub(crate) fn delete(keyset: &mut Keyset, id: u32) -> Result<(), EditError>
    ensures step { Edited (answer_with result keyset.new) (step keyset.old (Delete id)) }
    ensures kept { OnErr result (keyset.new ≡ keyset.old) }
{
    let place = match keyset.find(id) {
        Some(place) => place,
        None => return Err(EditError::Refused(EditRefusal::KeyNotFound)),
    };
    if id == keyset.primary() {
        return Err(EditError::Refused(EditRefusal::KeyIsPrimary));
    }
    keyset.remove(place);
    Ok(())
}

/// Whether a record after `place`, the first place of the id, also has the id and is ENABLED.
fn has_other(keyset: &Keyset, id: u32, place: usize) -> bool
    requires place { Some place ≡ position (has_id id) keyset.now.records }
    ensures { result ≡ list_any (is_primary id) (without id keyset.now.records) }
{
    let count = keyset.len();
    for i in place + 1..count {
        let key = keyset.record_at(i);
        if key.id == id && key.status == ENABLED {
            return true;
        }
    }
    false
}

/// Whether making this record ENABLED would give the keyset a second primary record.
fn is_rival(keyset: &Keyset, id: u32, key: &Record) -> bool
    ensures { result ≡ (id == keyset.now.primary && not (is_enabled key.now)) }
{
    id == keyset.primary() && key.status != ENABLED
}

/// Whether two type URLs have the same primitive, or both have none known.
pub(crate) fn is_same(a: Option<Primitive>, b: Option<Primitive>) -> bool
    ensures { result ≡ is_same a b }
{
    match (a, b) {
        (None, None)
        | (Some(Primitive::Aead), Some(Primitive::Aead))
        | (Some(Primitive::Daead), Some(Primitive::Daead))
        | (Some(Primitive::Mac), Some(Primitive::Mac))
        | (Some(Primitive::Prf), Some(Primitive::Prf))
        | (Some(Primitive::Stream), Some(Primitive::Stream)) => true,
        _ => false,
    }
}

/// The primitive of the primary record's URL.
pub(crate) fn primary_primitive(keyset: &Keyset) -> Option<Primitive>
    ensures { result ≡ primary_primitive keyset.now }
{
    primitive_of(keyset.primary_record().url.as_str())
}

/// The first rule that a record's key message breaks; `None` if it breaks none or its URL isn't
/// known.
fn broken_rule(alloc: Global, key: &Record) -> Result<Option<Rule>, NoMemory>
    ensures { IfOk result (λ rule. rule ≡ rule_of key.now.url key.now.value) }
{
    match read_key(alloc, key.url.as_str(), key.value.as_slice()) {
        Ok(_) | Err(KeyFault::NotKnown) => Ok(None),
        Err(KeyFault::Bad(rule)) => Ok(Some(rule)),
        Err(KeyFault::NoMemory) => Err(NoMemory),
    }
}
