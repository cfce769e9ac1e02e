//! A part of a message, cut into its fields.

ghost use Rattle.std.specs.Prelude.{◌≡◌, ◌≤◌, List, ℕ, length, Ok, Err, IfOk, IsErrOf, IsSome, slice_range};
ghost use Rattle.std.specs.List.{AllByRecursion};
ghost use Rattle.tink_spec.specs.Wire.{WireField, IsCutInto, FailsAt, cut, field_front};
ghost use Rattle.tink_spec.specs.Messages.{at_place, embedded};
ghost use Rattle.proto_wire.specs.Fields.{payload_of, seen_all, error_at, IsOf, GivesFields};

use crate::reading::read_field;
use crate::{Field, Fields, FieldsError, Kind, Wire};
use std::alloc::Global;

/// Cuts the part of `source` from byte `start` up to byte `end` into its fields.
///
/// `Wire` comes if and only if the part can't be cut, with the place of the first field at fault.
/// `NoMemory` comes only if the part begins with a field, so never for an empty part.
pub fn fields(alloc: Global, source: &[u8], start: usize, end: usize) -> Result<Fields, FieldsError>
    requires ordered { start ≤ end }
    requires within { end ≤ length source.now }
    ensures cut { GivesFields source.now result (cut start (slice_range source.now start end)) }
    ensures spelled { IfOk result (λ fields.
        IsCutInto start (slice_range source.now start end) (seen_all source.now fields)) }
    ensures only { (others : List WireField) →
        IsCutInto start (slice_range source.now start end) others →
        GivesFields source.now result (Ok others) }
    ensures fails { (wire : _) → IsErrOf result (FieldsError.Wire wire) →
        FailsAt start (slice_range source.now start end) wire.at }
    ensures fails_only { (place : ℕ) → FailsAt start (slice_range source.now start end) place →
        GivesFields source.now result (Err place) }
    ensures of_source { IfOk result (λ fields. AllByRecursion (IsOf source.now) fields) }
    ensures no_memory { IsErrOf result FieldsError.NoMemory →
        IsSome (field_front start (slice_range source.now start end)) }
{
    let mut items = Vec::new(alloc);
    let mut at = start;
    while at < end {
        let Some((field, behind)) = read_field(source, at, end) else {
            return Err(FieldsError::Wire(Wire { at }));
        };
        match items.push(field) {
            Ok(()) => at = behind,
            Err(_) => return Err(FieldsError::NoMemory),
        }
    }
    Ok(Fields::own(items))
}

/// The fields of this field's payload. A fault inside is reported at the place of the field itself.
pub fn embedded(alloc: Global, source: &[u8], field: Field) -> Result<Fields, FieldsError>
    requires { IsOf source.now field }
    ensures fields { GivesFields source.now result
        (at_place field.at (embedded (payload_of field.kind source.now field))) }
    ensures of_source { IfOk result (λ fields. AllByRecursion (IsOf source.now) fields) }
{
    match field.kind {
        Kind::Bytes => match fields(alloc, source, field.start, field.end) {
            Ok(inside) => Ok(inside),
            Err(error) => Err(at_field(error, field.at)),
        },
        _ => Err(FieldsError::Wire(Wire { at: field.at })),
    }
}

/// The same error, at this place.
fn at_field(error: FieldsError, at: usize) -> FieldsError
    ensures { result ≡ error_at at error }
{
    match error {
        FieldsError::Wire(_) => FieldsError::Wire(Wire { at }),
        FieldsError::NoMemory => FieldsError::NoMemory,
    }
}
