//! Making a handle.

ghost use Rattle.std.specs.Prelude.{◌≡◌, ◌<◌, ◌^◌, ◌≢◌, ℕ, drop, length, Some, None, if◌then◌else◌, IfOk, IfErr, slice_get};
ghost use Rattle.key_msgs.specs.declared.primitive.Primitive.TheVariants.{Stream};
ghost use Rattle.keyset_model.specs.Keyset.{Keys, fault_of};
ghost use Rattle.managers.specs.Table.{entries_of};
ghost use Rattle.wrapped_prims.specs.Adding.{IsKept};
ghost use Rattle.wrapped_prims.specs.Fitness.{NotRaw, prefix_fault, unfit};
ghost use Rattle.wrapped_prims.specs.Held.{IsServedBy};
ghost use Rattle.wrapped_prims.specs.Making.{HasWordId, IsCheckedBy, IsFaultOf, IsKeeping, IsOver};
ghost use Rattle.wrapped_prims.specs.Prefixes.{prefix_index};

use crate::held::{Held, Kept, prefix};
use crate::places::Places;
use indexmap::IndexMap;
use key_msgs::{Primitive, Rule};
use keyset_model::{Keyset, Record};
use managers::{
    AeadManager, CheckFault, DaeadManager, KeyManager, KeyTable, MacManager, Managers, Prepared,
    PrfManager,
};
use std::alloc::Global;
use tink_base::{ENABLED, LEGACY, NoMemory, RAW};

/// Why a keyset can't serve for a primitive under some managers. Reports the place in the keyset,
/// counted from 0, of the first ENABLED record with a fault, and the first of its faults in this
/// order.
#[derive(Clone, Copy, Debug, PartialEq, Eq)]
pub enum HandleError {
    /// No manager of the primitive has this record's type URL.
    NoManager(usize),
    /// The manager refuses this record's value, for the first rule that it breaks.
    BadKey(usize, Rule),
    /// The primitive is Prf, and this record's output prefix type isn't RAW.
    NotRaw(usize),
    /// Memory couldn't be allocated.
    NoMemory,
}

impl From<NoMemory> for HandleError {
    ghost use Rattle.wrapped_prims.specs.declared.handle.HandleError.TheVariants as faults;

    ghost from_gives = { λ _ fault. fault ≡ faults.NoMemory };

    fn from(_error: NoMemory) -> HandleError {
        HandleError::NoMemory
    }
}

/// The keys of a keyset for one primitive, each checked by its manager and prepared once.
#[derive(Drop)]
pub struct Handle<'m> {
    pub(crate) managers: &'m Managers,
    pub(crate) primitive: Primitive,
    pub(crate) held: Held,
}

// The key that the manager at this place reads from a key message.
fn check_at(
    managers: &Managers,
    alloc: Global,
    primitive: Primitive,
    at: usize,
    value: &[u8],
) -> Result<Prepared, CheckFault>
    requires { at < length (entries_of (⟦<Managers as KeyTable>⟧.table managers.now) primitive) }
    ensures reading { IsCheckedBy
        (slice_get (entries_of (⟦<Managers as KeyTable>⟧.table managers.now) primitive) at)
        value.now result }
    ensures admitted { IfOk result (IsServedBy
        (slice_get (entries_of (⟦<Managers as KeyTable>⟧.table managers.now) primitive) at)) }
{
    match primitive {
        Primitive::Aead => managers.aead_at(at).check(alloc, value),
        Primitive::Daead => managers.daead_at(at).check(alloc, value),
        Primitive::Mac => managers.mac_at(at).check(alloc, value),
        Primitive::Prf => managers.prf_at(at).check(alloc, value),
        Primitive::Stream => unreachable!(),
    }
}

// Whether the primitive doesn't allow the record's prefix.
fn has_no_place(primitive: Primitive, from: &Record) -> bool
    ensures { prefix_fault primitive from.now ≡ if result then Some NotRaw else None }
{
    match primitive {
        Primitive::Prf => from.prefix != RAW,
        Primitive::Aead | Primitive::Daead | Primitive::Mac | Primitive::Stream => false,
    }
}

/// What is kept of the record at place `i`.
pub(crate) fn keep(
    managers: &Managers,
    alloc: Global,
    primitive: Primitive,
    i: usize,
    from: &Record,
) -> Result<Option<Kept>, HandleError>
    ensures keeping { IsKeeping (⟦<Managers as KeyTable>⟧.table managers.now) primitive from.now i
        result }
    ensures word { HasWordId from.now }
{
    let prefix = prefix(from);
    if from.status != ENABLED {
        return Ok(None);
    }
    let Some(place) = managers.find(primitive, from.url.as_str()) else {
        return Err(HandleError::NoManager(i));
    };
    match check_at(managers, alloc, primitive, place, from.value.as_slice()) {
        Ok(key) => {
            if has_no_place(primitive, from) {
                drop(key);
                return Err(HandleError::NotRaw(i));
            }
            Ok(Some(Kept {
                place,
                prefix,
                is_legacy: from.prefix == LEGACY,
                key,
            }))
        }
        Err(CheckFault::Bad(rule)) => Err(HandleError::BadKey(i, rule)),
        Err(CheckFault::NoMemory) => Err(HandleError::NoMemory),
    }
}

/// Adds what is kept of the records that come after those that are held.
pub(crate) fn fill(
    managers: &Managers,
    alloc: Global,
    primitive: Primitive,
    keyset: &Keyset,
    mut held: Held,
) -> Result<Held, HandleError>
    requires faultless { fault_of keyset.now ≡ None }
    requires begun { IsKept (⟦<Managers as KeyTable>⟧.table managers.now) primitive keyset.now
        (drop (length held.slots.items) keyset.now.records) (length held.slots.items) held }
    ensures fault { IfErr result (IsFaultOf
        (unfit keyset.now primitive (⟦<Managers as KeyTable>⟧.table managers.now))) }
    ensures over { IfOk result (λ held. IsOver (⟦<Managers as KeyTable>⟧.table managers.now)
        primitive keyset.now held) }
{
    for i in held.slots.len()..keyset.len() {
        let slot = keep(managers, alloc, primitive, i, keyset.record_at(i))?;
        held.add(alloc, i, slot)?;
    }
    Ok(held)
}

impl<'m> Handle<'m> {
    /// The handle of a keyset's keys for a primitive, which isn't Stream.
    ///
    /// A fault other than `NoMemory` comes if and only if an ENABLED record can't serve: it is the
    /// fault of the first such record. Records that aren't ENABLED don't matter.
    pub fn new(
        alloc: Global,
        keyset: &Keyset,
        managers: &'m Managers,
        primitive: Primitive,
    ) -> Result<Handle<'m>, HandleError>
        requires no_stream { primitive ≢ Stream }
        ensures fault { IfErr result (IsFaultOf
            (unfit keyset.now primitive (⟦<Managers as KeyTable>⟧.table managers.now))) }
        ensures over { IfOk result (λ h. IsOver (⟦<Managers as KeyTable>⟧.table h.managers.now)
            primitive keyset.now h.held) }
        ensures table { IfOk result (λ h. ⟦<Managers as KeyTable>⟧.table h.managers.now
            ≡ ⟦<Managers as KeyTable>⟧.table managers.now) }
        ensures primitive { IfOk result (λ h. h.primitive ≡ primitive) }
    {
        let none = Held::new(alloc, keyset.primary_at());
        let held = fill(managers, alloc, primitive, keyset, none)?;
        Ok(Handle {
            managers,
            primitive,
            held,
        })
    }

    /// The primitive for which the handle was made. No memory is taken.
    pub fn primitive(&self) -> Primitive
        ensures { result ≡ self.now.primitive }
    {
        self.primitive
    }

    /// The output prefixes of the ENABLED records that have one, each once and in the order of
    /// their first records. Each comes with the places in the keyset, in order and counted from 0,
    /// of the ENABLED records with that prefix. No memory is taken.
    pub fn prefixes(&self) -> &IndexMap<[u8; 5], Places>
        ensures { (keys : Keys)
            → IsOver (⟦<Managers as KeyTable>⟧.table self.now.managers.now) self.now.primitive keys
            self.now.held
            → result.now.entries ≡ prefix_index keys.records }
    {
        &self.held.index
    }
}
