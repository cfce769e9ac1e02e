//! The binary form, read.

ghost use Rattle.std.specs.Prelude.{◌≡◌, ◌≤◌, ◌^◌, [], ◌∷◌, length, IfOk, IfErr, IfSome};
ghost use Rattle.std.specs.Option.{option_to_list};
ghost use Rattle.std.specs.List.{AllByRecursion};
ghost use Rattle.proto_wire.specs.Fields.{seen, seen_all, IsOf};
ghost use Rattle.keyset_model.specs.Keyset.{IsWithin, IsShort};
ghost use Rattle.keyset_model.specs.Reading.{fault_at, reads_binary, GivesKeyset};
ghost use Rattle.keyset_model.specs.Steps.{IsRead, KeepsRead, IsFaultAt};
ghost use Rattle.keyset_model.specs.declared.reading.ReadError.TheVariants as errors;

use crate::key::read_key;
use crate::{Keyset, KeysetRefusal, Record};
use proto_wire::{Field, Fields, FieldsError, Kind, Wire, fields};
use std::alloc::{AllocFailed, Global};
use tink_base::NoMemory;

// The field numbers of `Keyset`.
pub(crate) const PRIMARY_KEY_ID: u32 = 1;

pub(crate) const KEY: u32 = 2;

/// How many records are held while a keyset is read: one more than it may have. Further ones are
/// read only for faults and not held, as the keyset has too many already.
const KEPT: usize = 1001;

/// Why bytes give no keyset.
#[derive(Clone, Copy, Debug, PartialEq, Eq)]
pub enum ReadError {
    /// The bytes are no `Keyset` message; the place is the tag of the first outermost field at
    /// fault.
    Wire(Wire),
    /// The first fault of the message.
    Fault(KeysetRefusal),
    /// Memory couldn't be allocated.
    NoMemory,
}

impl From<Wire> for ReadError {
    ghost from_gives = { λ wire e. e ≡ errors.Wire wire };

    fn from(wire: Wire) -> ReadError {
        ReadError::Wire(wire)
    }
}

impl From<FieldsError> for ReadError {
    ghost use Rattle.keyset_model.specs.Steps.{of_fields_error};

    ghost from_gives = { λ error e. e ≡ of_fields_error error };

    fn from(error: FieldsError) -> ReadError {
        match error {
            FieldsError::Wire(wire) => ReadError::Wire(wire),
            FieldsError::NoMemory => ReadError::NoMemory,
        }
    }
}

impl From<KeysetRefusal> for ReadError {
    ghost from_gives = { λ fault e. e ≡ errors.Fault fault };

    fn from(fault: KeysetRefusal) -> ReadError {
        ReadError::Fault(fault)
    }
}

impl From<NoMemory> for ReadError {
    ghost from_gives = { λ _ e. e ≡ errors.NoMemory };

    fn from(_error: NoMemory) -> ReadError {
        ReadError::NoMemory
    }
}

impl<T: Drop> From<AllocFailed<T>> for ReadError {
    ghost from_gives = { λ _ e. e ≡ errors.NoMemory };

    fn from(_error: AllocFailed<T>) -> ReadError {
        ReadError::NoMemory
    }
}

/// Reads the binary form of a keyset, a `Keyset` message of tink.proto, of at most 2^30 bytes.
///
/// `Wire` comes if and only if the bytes can't be cut into fields, a known field has the wrong wire
/// type, or a type URL isn't UTF-8. `Fault` comes if and only if the message is read and this is
/// its first fault. No URL and no value has more bytes than `bytes`, and what was read can be
/// written.
pub fn read_binary(alloc: Global, bytes: &[u8]) -> Result<Keyset, ReadError>
    requires size_bound { length bytes.now ≤ 2 ^ 30 }
    ensures keyset { GivesKeyset result (reads_binary bytes.now) }
    ensures within { IfOk result (λ keyset.
        AllByRecursion (IsWithin (length bytes.now)) keyset.records) }
    ensures short { IfOk result (λ keyset. AllByRecursion IsShort keyset.records) }
{
    let message = fields(alloc, bytes, 0, bytes.len())?;
    let records = read_records(alloc, bytes, &message)?;
    let primary = message.number_of(PRIMARY_KEY_ID)?;
    let keyset = Keyset::build(primary, records)?;
    Ok(keyset)
}

/// The first records of a `Keyset` message of these fields, in order, at most `KEPT`.
///
/// `Wire` names the first field at fault: a primary id that is no varint, or a key that isn't bytes
/// or can't be read.
fn read_records(alloc: Global, source: &[u8], message: &Fields) -> Result<Vec<Record>, ReadError>
    requires size_bound { length source.now ≤ 2 ^ 30 }
    requires of_source { AllByRecursion (IsOf source.now) message.now }
    ensures records { IfOk result (λ records.
        KeepsRead records.items (seen_all source.now message.now)) }
    ensures fault { IfErr result (λ error.
        IsFaultAt error (fault_at (seen_all source.now message.now))) }
    ensures within { IfOk result (λ records.
        AllByRecursion (IsWithin (length source.now)) records.items) }
{
    let mut records = Vec::new(alloc);
    for i in 0..message.len() {
        if let Some(key) = read_field(alloc, source, message.field(i))? {
            if records.len() < KEPT {
                records.push(key)?;
            }
        }
    }
    Ok(records)
}

/// The record of a field of a keyset; `None` if the field isn't a key.
///
/// `Wire` comes if and only if the field is at fault, with its place.
fn read_field(alloc: Global, source: &[u8], field: Field) -> Result<Option<Record>, ReadError>
    requires size_bound { length source.now ≤ 2 ^ 30 }
    requires of_source { IsOf source.now field }
    ensures records { IfOk result (λ key.
        IsRead (option_to_list key) (seen source.now field ∷ [])) }
    ensures fault { IfErr result (λ error.
        IsFaultAt error (fault_at (seen source.now field ∷ []))) }
    ensures within { IfOk result (λ key. IfSome key (IsWithin (length source.now))) }
{
    if field.number == KEY {
        let key = read_key(alloc, source, field)?;
        return Ok(Some(key));
    }
    if field.number == PRIMARY_KEY_ID && field.kind != Kind::Varint {
        return Err(ReadError::Wire(Wire { at: field.at }));
    }
    Ok(None)
}
