//! Handles that follow their keyset when it changes.

ghost use Rattle.std.specs.Prelude.{◌≡◌, IfOk, IfErr};
ghost use Rattle.keyset_model.specs.Keyset.{Keys};
ghost use Rattle.wrapped_prims.specs.Fitness.{unfit};
ghost use Rattle.wrapped_prims.specs.Following.{BeginsWith, ChangesAt, LosesAt};
ghost use Rattle.wrapped_prims.specs.Making.{IsFaultOf, IsOver};

use crate::handle::{fill, keep};
use crate::held::Held;
use crate::{Handle, HandleError};
use keyset_model::Keyset;
use managers::{KeyTable, Managers};
use std::alloc::Global;
use tink_base::NoMemory;

impl<'m> Handle<'m> {
    /// The handle of a keyset that begins with all records of the handle's own keyset, unchanged
    /// and in their places. Its primary record may be another one.
    ///
    /// Only the records after them are checked and prepared. The answer is that of `new`, over the
    /// managers and for the primitive of this handle; it is dropped if there is a fault.
    pub fn grown(self, alloc: Global, keyset: &Keyset) -> Result<Handle<'m>, HandleError>
        requires grows { (before : Keys) × BeginsWith before.records keyset.now.records
            × IsOver (⟦<Managers as KeyTable>⟧.table self.managers.now) self.primitive before
            self.held }
        ensures fault { IfErr result (IsFaultOf (unfit keyset.now self.entry.primitive
            (⟦<Managers as KeyTable>⟧.table self.entry.managers.now))) }
        ensures over { IfOk result (λ h. IsOver (⟦<Managers as KeyTable>⟧.table h.managers.now)
            self.entry.primitive keyset.now h.held) }
        ensures table { IfOk result (λ h. ⟦<Managers as KeyTable>⟧.table h.managers.now
            ≡ ⟦<Managers as KeyTable>⟧.table self.entry.managers.now) }
        ensures primitive { IfOk result (λ h. h.primitive ≡ self.entry.primitive) }
    {
        let Handle {
            managers,
            primitive,
            mut held,
        } = self;
        held.primary = keyset.primary_at();
        let held = fill(managers, alloc, primitive, keyset, held)?;
        Ok(Handle {
            managers,
            primitive,
            held,
        })
    }

    /// The handle of a keyset that differs from the handle's own in one record, of the same place.
    /// Its primary record may be another one.
    ///
    /// Only that record is checked and prepared. The answer is that of `new`, over the managers and
    /// for the primitive of this handle; it is dropped if there is a fault.
    pub fn changed(
        self,
        alloc: Global,
        keyset: &Keyset,
        place: usize,
    ) -> Result<Handle<'m>, HandleError>
        requires changes { (before : Keys) × ChangesAt place before.records keyset.now.records
            × IsOver (⟦<Managers as KeyTable>⟧.table self.managers.now) self.primitive before
            self.held }
        ensures fault { IfErr result (IsFaultOf (unfit keyset.now self.entry.primitive
            (⟦<Managers as KeyTable>⟧.table self.entry.managers.now))) }
        ensures over { IfOk result (λ h. IsOver (⟦<Managers as KeyTable>⟧.table h.managers.now)
            self.entry.primitive keyset.now h.held) }
        ensures table { IfOk result (λ h. ⟦<Managers as KeyTable>⟧.table h.managers.now
            ≡ ⟦<Managers as KeyTable>⟧.table self.entry.managers.now) }
        ensures primitive { IfOk result (λ h. h.primitive ≡ self.entry.primitive) }
    {
        let Handle {
            managers,
            primitive,
            held,
        } = self;
        let mut slots = held.slots;
        slots[place] = keep(managers, alloc, primitive, place, keyset.record_at(place))?;
        let held = Held::of_slots(alloc, slots, keyset.primary_at())?;
        Ok(Handle {
            managers,
            primitive,
            held,
        })
    }

    /// The handle of a keyset that has all records of the handle's own but the one of this place.
    /// Its primary record may be another one.
    ///
    /// No record is checked or prepared. It fails only if memory can't be allocated, and is dropped
    /// then.
    pub fn without(
        self,
        alloc: Global,
        keyset: &Keyset,
        place: usize,
    ) -> Result<Handle<'m>, NoMemory>
        requires loses { (before : Keys) × LosesAt place before.records keyset.now.records
            × IsOver (⟦<Managers as KeyTable>⟧.table self.managers.now) self.primitive before
            self.held }
        ensures over { IfOk result (λ h. IsOver (⟦<Managers as KeyTable>⟧.table h.managers.now)
            self.entry.primitive keyset.now h.held) }
        ensures table { IfOk result (λ h. ⟦<Managers as KeyTable>⟧.table h.managers.now
            ≡ ⟦<Managers as KeyTable>⟧.table self.entry.managers.now) }
        ensures primitive { IfOk result (λ h. h.primitive ≡ self.entry.primitive) }
    {
        let Handle {
            managers,
            primitive,
            held,
        } = self;
        let mut slots = held.slots;
        let _gone = slots.remove(place);
        let held = Held::of_slots(alloc, slots, keyset.primary_at())?;
        Ok(Handle {
            managers,
            primitive,
            held,
        })
    }
}
