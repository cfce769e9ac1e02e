//! New records: their ids and their keys are drawn from an entropy.

ghost use Rattle.std.specs.Prelude.{◌≡◌, ◌≤◌, length, take, IfOk, OnOk, OnErr};
ghost use Rattle.std.specs.Option.{option_copied};
ghost use Rattle.tink_spec.specs.Outside.{Drew, RanShort, Stood};
ghost use Rattle.key_msgs.specs.Templates.{seen, random_of};
ghost use Rattle.keyset_model.specs.Keyset.{HasSizes};
ghost use Rattle.tinkey_cmds.specs.Applying.{Applied, DrawsWhole, DrewId, DrewIds, LostBehindIds, records_in};
ghost use Rattle.tinkey_cmds.specs.Edits.{is_taken, new_id, new_record, record_of};
ghost use Rattle.tinkey_cmds.specs.Laws.{IsTemplate};

use crate::{EditError, EditRefusal};
use key_msgs::{Template, make_key, write_key};
use keyset_model::{Keyset, Record};
use std::alloc::Global;
use tink_base::{Bytes, ENABLED, Entropy, Failed, NoMemory, Text};

/// The most times that an id is drawn.
const DRAWS: u32 = 64;

/// The most random bytes that a template's key takes.
const MOST_RANDOM: usize = 64;

/// The key material type of symmetric keys (tink.proto, KeyMaterialType).
const SYMMETRIC: u32 = 1;

/// Whether a new record can't have this id, since it is 0 or a record has it.
fn is_taken(keyset: Option<&Keyset>, id: u32) -> bool
    ensures { result ≡ is_taken (records_in (option_copied keyset.entry)) id }
{
    if id == 0 {
        return true;
    }
    match keyset {
        Some(keyset) => keyset.find(id).is_some(),
        None => false,
    }
}

/// An id for a new record: four bytes, big-endian. `None` comes if and only if each of 64 draws
/// gave an id that is taken.
fn draw_id<E: Entropy>(keyset: Option<&Keyset>, entropy: &mut E) -> Result<Option<u32>, Failed>
    ensures id { DrewId result (new_id 64 (records_in (option_copied keyset.entry)))
        (E.state entropy.old) (E.state entropy.new) }
    ensures ids { OnOk result (DrewIds (E.state entropy.old) (E.state entropy.new)) }
    ensures lost { OnErr result (LostBehindIds (E.state entropy.old) (E.state entropy.new) 4) }
{
    for _try in 0..DRAWS {
        let mut group = [0u8; 4];
        entropy.fill(&mut group)?;
        let id = u32::from_be_bytes(group);
        if !is_taken(keyset, id) {
            return Ok(Some(id));
        }
    }
    Ok(None)
}

/// How many random bytes a template's key takes, 1 to 64.
fn random_len(template: &Template) -> usize
    ensures known { IsTemplate (seen template.now) }
    ensures size { result ≡ random_of (seen template.now) }
    ensures least { 1 ≤ result }
    ensures most { result ≤ 64 }
{
    template.random_len()
}

/// Draws the bytes of a key, in one fill, into the front of `material`.
fn draw_key<E: Entropy>(
    size: usize,
    material: &mut [u8; MOST_RANDOM],
    entropy: &mut E,
) -> Result<(), Failed>
    requires least { 1 ≤ size }
    requires most { size ≤ 64 }
    ensures no_fault { OnOk result
        (Stood (E.state entropy.old).faults (E.state entropy.new).faults) }
    ensures key { OnOk result
        (Drew (E.state entropy.old) (E.state entropy.new) (take size material.new)) }
    ensures failed { OnErr result (RanShort (E.state entropy.old) (E.state entropy.new) size) }
{
    entropy.fill(&mut material[..size])
}

/// The ENABLED record of this id that a template makes of random bytes.
fn record_of(alloc: Global, template: &Template, id: u32, random: &[u8]) -> Result<Record, NoMemory>
    requires template { IsTemplate (seen template.now) }
    requires size { length random.now ≡ random_of (seen template.now) }
    ensures key { IfOk result (λ key. key ≡ record_of (seen template.now) id random.now) }
    ensures sizes { IfOk result HasSizes }
{
    let key = make_key(alloc, template, random)?;
    let value = write_key(alloc, &key)?;
    Ok(Record {
        id,
        status: ENABLED,
        prefix: template.prefix(),
        url: Text::copy(alloc, template.url())?,
        value: Bytes::own(value),
        material: SYMMETRIC,
    })
}

/// The record that a template makes for this keyset, or for no keyset. Nothing is allocated before
/// everything is drawn.
pub(crate) fn new_record<E: Entropy>(
    alloc: Global,
    template: &Template,
    keyset: Option<&Keyset>,
    entropy: &mut E,
) -> Result<Record, EditError>
    ensures known { IsTemplate (seen template.now) }
    ensures drawn { Applied result
        (new_record (seen template.now) (records_in (option_copied keyset.entry)))
        (E.state entropy.old) (E.state entropy.new) }
    ensures whole { DrawsWhole result (E.state entropy.old) (E.state entropy.new) }
    ensures sizes { IfOk result HasSizes }
{
    let size = random_len(template);
    let id = match draw_id(keyset, entropy) {
        Ok(Some(id)) => id,
        Ok(None) => return Err(EditError::Refused(EditRefusal::IdsExhausted)),
        Err(Failed) => return Err(EditError::EntropyFault),
    };
    let mut material = [0u8; MOST_RANDOM];
    match draw_key(size, &mut material, entropy) {
        Ok(()) => {}
        Err(Failed) => return Err(EditError::EntropyFault),
    }
    match record_of(alloc, template, id, &material[..size]) {
        Ok(key) => Ok(key),
        Err(NoMemory) => Err(EditError::NoMemory),
    }
}
