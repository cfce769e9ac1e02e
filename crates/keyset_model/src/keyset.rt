//! Keysets, well formed by their type's invariant.

ghost use Rattle.std.specs.Prelude.{◌≡◌, ◌<◌, ◌≤◌, ◌≢◌, ◌↔◌, length, Some, None, IsNone, All, slice_get, position, ◌==◌, IfOk, IfSome, OnOk, OnErr};
ghost use Rattle.std.specs.List.{AllByRecursion};
ghost use Rattle.keyset_model.specs.Changes.{destroyed_at, with_primary, with_record, with_status_at, without_at};
ghost use Rattle.keyset_model.specs.Keyset.{HasSizes, IsKnown, is_primary, primary_of, fault_of, built};
ghost use Rattle.keyset_model.specs.WellFormed.{IsWellFormed};

use crate::Record;
use crate::faults::{fault_of, primary_place};
use std::alloc::Global;
use std::marker::Model;
use tink_base::{Bytes, DESTROYED, ENABLED, NoMemory, Text};

/// The key material type of a record with no key data (tink.proto, KeyMaterialType).
const UNKNOWN: u32 = 0;

/// Why records with a primary id are no keyset, in the order in which faults are looked for. Places
/// count from 0, and a fault names the first place that has it.
#[derive(Clone, Copy, Debug, PartialEq, Eq)]
pub enum KeysetRefusal {
    /// There is no record.
    Empty,
    /// There are more than 1,000 records.
    TooMany,
    /// The status of this record isn't 1 to 3.
    UnknownStatus(usize),
    /// The output prefix type of this record isn't 1 to 4.
    UnknownPrefix(usize),
    /// The key material type of this record is above 4, or 0 in a record that isn't DESTROYED.
    UnknownMaterial(usize),
    /// This record has no type URL, and isn't DESTROYED.
    MissingKeyData(usize),
    /// No record has the primary id.
    NoPrimary,
    /// No record with the primary id is ENABLED.
    PrimaryNotEnabled,
    /// These two records, the first two of their kind, are ENABLED and have the primary id.
    AmbiguousPrimary(usize, usize),
}

/// A keyset: records, one of them primary, with none of the faults of `KeysetRefusal`. So there are 1
/// to 1,000 records, and exactly one of them is ENABLED and has the primary id (`laws`). Ids may
/// repeat otherwise.
#[derive(Drop)]
pub struct Keyset {
    primary: u32,
    records: Vec<Record>,
}

impl Model for Keyset {
    ghost use Rattle.std.specs.Prelude.{◌≡◌, None};
    ghost use Rattle.std.specs.List.{AllByRecursion};
    ghost use Rattle.keyset_model.specs.Keyset.{Keys, HasSizes, fault_of};

    ghost Value = { Keys };

    ghost view = { λ k. record { primary = k.primary; records = k.records.items } };

    ghost invariant = { λ k.
        (fault_of (record { primary = k.primary; records = k.records.items }) ≡ None)
        × AllByRecursion HasSizes k.records.items };
}

impl Keyset {
    /// The keyset of these records with this primary id, or the first fault. A record's URL and
    /// value have at most 2^30 bytes each. No memory is taken.
    pub fn build(primary: u32, records: Vec<Record>) -> Result<Keyset, KeysetRefusal>
        requires sizes { AllByRecursion HasSizes records.items }
        ensures { result ≡ built (record { primary = primary; records = records.items }) }
    {
        match fault_of(primary, &records) {
            Some(fault) => Err(fault),
            None => Ok(Keyset { primary, records }),
        }
    }

    /// A copy of the keyset.
    pub fn copy(&self, alloc: Global) -> Result<Keyset, NoMemory>
        ensures { IfOk result (λ copy. copy ≡ self.now) }
    {
        let records = copy_all(alloc, &self.records)?;
        Ok(Keyset {
            primary: self.primary,
            records,
        })
    }

    /// The primary id.
    pub fn primary(&self) -> u32
        ensures { result ≡ self.now.primary }
    {
        self.primary
    }

    /// The place, counted from 0, of the primary record: the one that is ENABLED and has the
    /// primary id. No memory is taken.
    ///
    /// It exists, since a keyset has no fault. The clause `well_formed` states what holds for each
    /// keyset: how many records it has, that each is known, and that no other record is primary.
    pub fn primary_at(&self) -> usize
        ensures faultless { fault_of self.now ≡ None }
        ensures well_formed { IsWellFormed self.now }
        ensures place { position (is_primary self.now.primary) self.now.records ≡ Some result }
        ensures within { result < length self.now.records }
        ensures primary { slice_get self.now.records result ≡ primary_of self.now }
    {
        match primary_place(&self.records, self.primary) {
            Some(i) => i,
            None => unreachable!(),
        }
    }

    /// The primary record.
    pub fn primary_record(&self) -> &Record
        ensures faultless { fault_of self.now ≡ None }
        ensures well_formed { IsWellFormed self.now }
        ensures primary { primary_of self.now ≡ Some result.now }
        ensures enabled { result.now.status ≡ ENABLED }
        ensures known { IsKnown result.now }
        ensures sizes { HasSizes result.now }
    {
        self.record_at(self.primary_at())
    }

    /// How many records there are, 1 to 1,000.
    pub fn len(&self) -> usize
        ensures count { result ≡ length self.now.records }
        ensures least { 1 ≤ result }
        ensures most { result ≤ 1000 }
        ensures faultless { fault_of self.now ≡ None }
    {
        self.records.len()
    }

    /// The record at this place, counted from 0.
    pub fn record_at(&self, i: usize) -> &Record
        requires place_bound { i < length self.now.records }
        ensures record_there { slice_get self.now.records i ≡ Some result.now }
        ensures known { IsKnown result.now }
        ensures sizes { HasSizes result.now }
    {
        &self.records[i]
    }

    /// The place of the first record with this id; `None` if and only if no record has it.
    pub fn find(&self, id: u32) -> Option<usize>
        ensures place { result ≡ position (λ r. r.id == id) self.now.records }
        ensures none { IsNone result ↔ All (λ r. r.id ≢ id) self.now.records }
        ensures within { IfSome result (λ i. i < length self.now.records) }
        ensures faultless { fault_of self.now ≡ None }
    {
        self.records.iter().position(|key| key.id == id)
    }

    /// Adds a record at the end. If memory can't be allocated, the keyset stays as it is.
    pub fn push(&mut self, key: Record) -> Result<(), NoMemory>
        requires sizes { HasSizes key }
        requires faultless { fault_of (with_record self.old key) ≡ None }
        ensures pushed { OnOk result (self.new ≡ with_record self.old key) }
        ensures kept { OnErr result (self.new ≡ self.old) }
    {
        self.records.push(key)?;
        Ok(())
    }

    /// Makes another id the primary one. No memory is taken.
    pub fn set_primary(&mut self, id: u32)
        requires faultless { fault_of (with_primary self.old id) ≡ None }
        ensures { self.new ≡ with_primary self.old id }
    {
        self.primary = id;
    }

    /// Gives the record at this place, counted from 0, another status. No memory is taken.
    pub fn set_status(&mut self, place: usize, status: u32)
        requires place_bound { place < length self.old.records }
        requires faultless { fault_of (with_status_at self.old place status) ≡ None }
        ensures { self.new ≡ with_status_at self.old place status }
    {
        self.records[place].status = status;
    }

    /// Makes the record at this place, counted from 0, DESTROYED, and removes its key data. No
    /// memory is taken.
    pub fn destroy(&mut self, alloc: Global, place: usize)
        requires place_bound { place < length self.old.records }
        requires faultless { fault_of (destroyed_at self.old place) ≡ None }
        ensures { self.new ≡ destroyed_at self.old place }
    {
        let key = &mut self.records[place];
        key.status = DESTROYED;
        key.url = Text::own(String::new(alloc));
        key.value = Bytes::own(Vec::new(alloc));
        key.material = UNKNOWN;
    }

    /// Removes the record at this place, counted from 0. No memory is taken.
    pub fn remove(&mut self, place: usize)
        requires place_bound { place < length self.old.records }
        requires faultless { fault_of (without_at self.old place) ≡ None }
        ensures { self.new ≡ without_at self.old place }
    {
        let _removed = self.records.remove(place);
    }
}

/// A copy of the records.
fn copy_all(alloc: Global, records: &[Record]) -> Result<Vec<Record>, NoMemory>
    ensures { IfOk result (λ copies. copies.items ≡ records.now) }
{
    let mut copies = Vec::new(alloc);
    for key in records {
        copies.push(key.copy(alloc)?)?;
    }
    Ok(copies)
}
