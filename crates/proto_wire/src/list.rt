//! The fields of a message, and lookups by field number.

ghost use Rattle.std.specs.Prelude.{◌≡◌, ◌<◌, ◌≤◌, ◌^◌, ◌++◌, List, ℕ, length, Some, IfOk, OnOk, OnErr, slice_get};
ghost use Rattle.std.specs.List.{AllByRecursion};
ghost use Rattle.tink_spec.specs.Messages.{number_in, bytes_in, merged};
ghost use Rattle.proto_wire.specs.Fields.{seen_all, IsOf, GivesFields, GivesNumber, GivesSpan};

use crate::cutting::embedded;
use crate::{Field, FieldsError, Kind, Wire};
use std::alloc::Global;
use std::marker::Model;
use tink_base::NoMemory;

/// Fields in order. Contracts see a list of fields.
#[derive(Debug, Drop)]
pub struct Fields {
    items: Vec<Field>,
}

impl Model for Fields {
    ghost use Rattle.std.specs.Prelude.{List};
    ghost use Rattle.proto_wire.specs.declared.field.Field.{Field};

    ghost Value = { List Field };

    ghost view = { λ f. f.items.items };
}

impl Fields {
    /// The fields of a `Vec`.
    pub(crate) fn own(items: Vec<Field>) -> Fields
        ensures { result ≡ items.items }
    {
        Fields { items }
    }

    /// How many fields there are.
    pub fn len(&self) -> usize
        ensures { result ≡ length self.now }
    {
        self.items.len()
    }

    /// The field at this index, counted from 0.
    pub fn field(&self, i: usize) -> Field
        requires place_bound { i < length self.now }
        ensures { slice_get self.now i ≡ Some result }
    {
        self.items[i]
    }

    /// Appends fields. After `NoMemory` this list is unchanged, and `other` is gone.
    pub fn append(&mut self, other: Fields) -> Result<(), NoMemory>
        ensures appended { OnOk result (self.new ≡ self.old ++ other) }
        ensures kept { OnErr result (self.new ≡ self.old) }
    {
        match self.items.extend_from_slice(&other.items) {
            Ok(()) => Ok(()),
            Err(_) => Err(NoMemory),
        }
    }

    /// The low 32 bits of the last field of this number, 0 if there is none.
    ///
    /// `Wire` comes if and only if a field of this number isn't a varint, with the place of the
    /// first one.
    pub fn number_of(&self, number: u32) -> Result<u32, Wire>
        ensures { (source : List ℕ) →
            GivesNumber result (number_in number (seen_all source self.now)) }
    {
        let mut value = 0;
        for field in &self.items {
            if field.number == number {
                match field.kind {
                    Kind::Varint => value = field.value,
                    _ => return Err(Wire { at: field.at }),
                }
            }
        }
        Ok((value % (1 << 32)) as u32)
    }

    /// The range of the last payload of this number: the place of its first byte, and the place
    /// after its last one; (0, 0) if there is none.
    ///
    /// `Wire` comes if and only if a field of this number isn't `Bytes`, with the place of the
    /// first one.
    pub fn span_of(&self, number: u32) -> Result<(usize, usize), Wire>
        ensures { (source : List ℕ) → AllByRecursion (IsOf source) self.now →
            GivesSpan source result (bytes_in number (seen_all source self.now)) }
    {
        let mut start = 0;
        let mut end = 0;
        for field in &self.items {
            if field.number == number {
                match field.kind {
                    Kind::Bytes => {
                        start = field.start;
                        end = field.end;
                    }
                    _ => return Err(Wire { at: field.at }),
                }
            }
        }
        Ok((start, end))
    }

    /// The fields of all payloads of this number, in order; `self` was cut from `source`.
    ///
    /// `Wire` comes if and only if a field of this number isn't `Bytes` or its payload can't be
    /// cut, with the place of the first such field's tag.
    pub fn merged(&self, alloc: Global, source: &[u8], number: u32) -> Result<Fields, FieldsError>
        requires of_source { AllByRecursion (IsOf source.now) self.now }
        ensures merged { GivesFields source.now result
            (merged number (seen_all source.now self.now)) }
        ensures of_source { IfOk result (λ fields. AllByRecursion (IsOf source.now) fields) }
    {
        let mut all = Fields::own(Vec::new(alloc));
        for field in &self.items {
            if field.number == number {
                let more = embedded(alloc, source, *field)?;
                all.append(more)?;
            }
        }
        Ok(all)
    }
}
