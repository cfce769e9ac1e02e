//! What a handle keeps of a keyset.

ghost use Rattle.std.specs.Prelude.{◌≡◌, ◌<◌, ◌≤◌, ◌^◌, [], ◌∷◌, None, IfOk, OnOk, length, take, drop};
ghost use Rattle.std.specs.HashMap.{IsUnique};
ghost use Rattle.std.specs.Int.{to_be_bytes, w32};
ghost use Rattle.std.specs.Str.{bytes_eq};
ghost use Rattle.key_msgs.specs.declared.primitive.Primitive.{Primitive as PrimitiveValue};
ghost use Rattle.keyset_model.specs.Keyset.{Keys};
ghost use Rattle.managers.specs.Table.{Table};
ghost use Rattle.wrapped_prims.specs.Adding.{IsAdded, IsListedAt, IsOfNone, IsOfSlots, IsPlacedBy, noted};
ghost use Rattle.wrapped_prims.specs.Candidates.{prefix_bytes, prefix_of};
ghost use Rattle.wrapped_prims.specs.Held.{places_at};
ghost use Rattle.wrapped_prims.specs.Making.{HasWordId, IsOver};

use crate::places::Places;
use indexmap::IndexMap;
use keyset_model::Record;
use managers::Prepared;
use std::alloc::Global;
use tink_base::{NoMemory, RAW, TINK};

/// The prepared key of an ENABLED record, and the place of its manager.
#[derive(Drop)]
pub(crate) struct Kept {
    pub(crate) place: usize,
    pub(crate) prefix: Option<[u8; 5]>,
    pub(crate) is_legacy: bool,
    pub(crate) key: Prepared,
}

/// What is kept of each record of a keyset, at the record's own place; nothing of a record that
/// isn't ENABLED.
#[derive(Drop)]
pub(crate) struct Held {
    pub(crate) slots: Vec<Option<Kept>>,
    /// The places of the kept keys that have a prefix, by that prefix.
    pub(crate) index: IndexMap<[u8; 5], Places>,
    /// The places of the kept keys that have no prefix.
    pub(crate) raw: Vec<usize>,
    /// The place of the primary record.
    pub(crate) primary: usize,
}

impl Held {
    /// Holds no records yet.
    pub(crate) fn new(alloc: Global, primary: usize) -> Held
        ensures { IsOfNone primary result }
    {
        Held {
            slots: Vec::new(alloc),
            index: IndexMap::new(alloc),
            raw: Vec::new(alloc),
            primary,
        }
    }

    /// Adds what is kept of the next record, at this place.
    pub(crate) fn add(
        &mut self,
        alloc: Global,
        place: usize,
        slot: Option<Kept>,
    ) -> Result<(), NoMemory>
        ensures { OnOk result (IsAdded slot place self.old self.new) }
    {
        if let Some(kept) = &slot {
            self.list(alloc, place, kept.prefix)?;
        }
        self.slots.push(slot)?;
        Ok(())
    }

    /// Holds these slots, and lists the places of their keys. No key is moved or copied.
    pub(crate) fn of_slots(
        alloc: Global,
        slots: Vec<Option<Kept>>,
        primary: usize,
    ) -> Result<Held, NoMemory>
        ensures { IfOk result (IsOfSlots slots.items primary) }
    {
        let mut held = Held {
            slots,
            index: IndexMap::new(alloc),
            raw: Vec::new(alloc),
            primary,
        };
        for i in 0..held.slots.len() {
            held.list_at(alloc, i)?;
        }
        Ok(held)
    }

    /// Makes ahead what long messages under the kept keys need again and again.
    pub(crate) fn prepare_ahead(&mut self, alloc: Global) -> Result<(), NoMemory>
        ensures { (table : Table) (primitive : PrimitiveValue) (keys : Keys)
            → IsOver table primitive keys self.old → IsOver table primitive keys self.new }
    {
        prepare_slots(alloc, &mut self.slots)
    }

    // Lists the place, if a key is kept there.
    fn list_at(&mut self, alloc: Global, place: usize) -> Result<(), NoMemory>
        requires { place < length self.old.slots.items }
        ensures placed { OnOk result (IsListedAt place self.old self.new) }
        ensures slots { OnOk result (self.new.slots.items ≡ self.old.slots.items) }
        ensures primary { OnOk result (self.new.primary ≡ self.old.primary) }
    {
        if let Some(kept) = &self.slots[place] {
            let prefix = kept.prefix;
            self.list(alloc, place, prefix)?;
        }
        Ok(())
    }

    // Lists the place of a kept key with this prefix, or with none.
    fn list(&mut self, alloc: Global, place: usize, prefix: Option<[u8; 5]>) -> Result<(), NoMemory>
        ensures placed { OnOk result (IsPlacedBy prefix place self.old self.new) }
        ensures slots { OnOk result (self.new.slots.items ≡ self.old.slots.items) }
        ensures primary { OnOk result (self.new.primary ≡ self.old.primary) }
    {
        match prefix {
            Some(prefix) => note(alloc, &mut self.index, prefix, place)?,
            None => self.raw.push(place)?,
        }
        Ok(())
    }

    /// The places of the keys with this prefix, in the order of the keyset; none if `prefix`
    /// doesn't have five bytes.
    pub(crate) fn places(&self, prefix: &[u8]) -> &[usize]
        ensures { result.now ≡ places_at prefix.now self.now.index.entries }
    {
        match <[u8; 5]>::try_from(prefix) {
            Ok(own) => match self.index.get(&own) {
                Some(places) => places.as_slice(),
                None => &[],
            },
            Err(_) => &[],
        }
    }
}

// Prepares ahead each key that is kept.
fn prepare_slots(alloc: Global, slots: &mut [Option<Kept>]) -> Result<(), NoMemory>
    ensures { slots.new ≡ slots.old }
{
    for i in 0..slots.len() {
        prepare_slot(alloc, &mut slots[i])?;
    }
    Ok(())
}

// Prepares ahead the key that is kept here, if there is one.
fn prepare_slot(alloc: Global, slot: &mut Option<Kept>) -> Result<(), NoMemory>
    ensures { slot.new ≡ slot.old }
{
    match slot {
        Some(kept) => kept.key.prepare_ahead(alloc),
        None => Ok(()),
    }
}

// Appends a place to those of a prefix.
fn note(
    alloc: Global,
    index: &mut IndexMap<[u8; 5], Places>,
    prefix: [u8; 5],
    place: usize,
) -> Result<(), NoMemory>
    ensures noted { OnOk result (index.new.entries ≡ noted prefix place index.old.entries) }
    ensures unique { OnOk result (IsUnique bytes_eq index.old) }
{
    if let Some(places) = index.get_mut(&prefix) {
        places.push(place)?;
        return Ok(());
    }
    let mut places = Places::new(alloc);
    places.push(place)?;
    index.insert(prefix, places)?;
    Ok(())
}

// A first byte, and the id as four bytes, big-endian.
fn five_bytes(first: u8, id: u32) -> [u8; 5]
    ensures bytes { result ≡ first ∷ to_be_bytes w32 id }
    ensures word { id < 2 ^ 32 }
{
    let [a, b, c, d] = id.to_be_bytes();
    [first, a, b, c, d]
}

/// The prefix of the record's outputs.
pub(crate) fn prefix(from: &Record) -> Option<[u8; 5]>
    ensures prefix { result ≡ prefix_of from.now }
    ensures word { HasWordId from.now }
{
    let first = if from.prefix == TINK { 1 } else { 0 };
    let five = five_bytes(first, from.id);
    if from.prefix == RAW { None } else { Some(five) }
}

/// The bytes of a prefix; no bytes if there is no prefix.
pub(crate) fn front(prefix: &Option<[u8; 5]>) -> &[u8]
    ensures bytes { result.now ≡ prefix_bytes prefix.now }
    ensures size { length result.now ≡ length (prefix_bytes prefix.now) }
    ensures bound { length result.now ≤ 5 }
{
    match prefix {
        Some(own) => own,
        None => &[],
    }
}

/// The first five bytes, or all if there are fewer, and the rest.
pub(crate) fn cut_prefix(bytes: &[u8]) -> (&[u8], &[u8])
    ensures head { result.0.now ≡ take 5 bytes.now }
    ensures rest { result.1.now ≡ drop 5 bytes.now }
{
    if bytes.len() < 5 {
        (bytes, &bytes[bytes.len()..])
    } else {
        bytes.split_at(5)
    }
}
