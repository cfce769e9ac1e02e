//! A `Key` message and its `KeyData` (tink.proto), read into a record.

ghost use Rattle.std.specs.Prelude.{◌≡◌, ◌≤◌, ◌^◌, length, Err, IfOk, IfErr, slice_range};
ghost use Rattle.std.specs.List.{AllByRecursion};
ghost use Rattle.tink_spec.specs.Messages.{text_in};
ghost use Rattle.proto_wire.specs.Fields.{seen, seen_all, IsOf};
ghost use Rattle.keyset_model.specs.Keyset.{IsWithin};
ghost use Rattle.keyset_model.specs.Reading.{record_of, key_of};
ghost use Rattle.keyset_model.specs.Steps.{IsTextOf, IsNoText, GivesText, message_of, GivesRecord};

use crate::{ReadError, Record};
use proto_wire::{Field, Fields, Kind, Wire, fields};
use std::alloc::Global;
use tink_base::{Bytes, Text};

// The field numbers of `Key`.
pub(crate) const KEY_DATA: u32 = 1;

pub(crate) const STATUS: u32 = 2;

pub(crate) const KEY_ID: u32 = 3;

pub(crate) const OUTPUT_PREFIX_TYPE: u32 = 4;

// The field numbers of `KeyData`.
pub(crate) const TYPE_URL: u32 = 1;

pub(crate) const VALUE: u32 = 2;

pub(crate) const KEY_MATERIAL_TYPE: u32 = 3;

/// The record of a field `key` of `source`. `Wire` holds the place of the field's tag.
pub fn read_key(alloc: Global, source: &[u8], field: Field) -> Result<Record, ReadError>
    requires size_bound { length source.now ≤ 2 ^ 30 }
    requires of_source { IsOf source.now field }
    ensures key { GivesRecord result (key_of (seen source.now field)) }
    ensures within { IfOk result (IsWithin (length source.now)) }
{
    if field.kind != Kind::Bytes {
        return Err(ReadError::Wire(Wire { at: field.at }));
    }
    match read_message(alloc, source, field.start, field.end) {
        Ok(key) => Ok(key),
        Err(error) => match error {
            ReadError::NoMemory => Err(ReadError::NoMemory),
            _ => Err(ReadError::Wire(Wire { at: field.at })),
        },
    }
}

/// The record of a `Key` message between two places of `source`.
fn read_message(alloc: Global, source: &[u8], start: usize, end: usize) -> Result<Record, ReadError>
    requires size_bound { length source.now ≤ 2 ^ 30 }
    requires ordered { start ≤ end }
    requires within { end ≤ length source.now }
    ensures key { GivesRecord result (message_of start (slice_range source.now start end)) }
    ensures within { IfOk result (IsWithin (length source.now)) }
{
    let key = fields(alloc, source, start, end)?;
    read_record(alloc, source, &key)
}

/// The record of a `Key` message of these fields.
fn read_record(alloc: Global, source: &[u8], key: &Fields) -> Result<Record, ReadError>
    requires size_bound { length source.now ≤ 2 ^ 30 }
    requires of_source { AllByRecursion (IsOf source.now) key.now }
    ensures key { GivesRecord result (record_of (seen_all source.now key.now)) }
    ensures within { IfOk result (IsWithin (length source.now)) }
{
    let key_data = key.merged(alloc, source, KEY_DATA)?;
    let url = text_of(source, &key_data, TYPE_URL)?;
    let (start, end) = key_data.span_of(VALUE)?;
    let material = key_data.number_of(KEY_MATERIAL_TYPE)?;
    let status = key.number_of(STATUS)?;
    let id = key.number_of(KEY_ID)?;
    let prefix = key.number_of(OUTPUT_PREFIX_TYPE)?;
    Ok(Record {
        id,
        status,
        prefix,
        url: Text::copy(alloc, url)?,
        value: Bytes::copy(alloc, &source[start..end])?,
        material,
    })
}

/// The text of the last field of this number, empty if there is none.
///
/// `Wire` names the first field of this number that isn't bytes or isn't UTF-8.
fn text_of<'a>(source: &'a [u8], message: &Fields, number: u32) -> Result<&'a str, Wire>
    requires of_source { AllByRecursion (IsOf source.now) message.now }
    ensures text { IfOk result (λ text.
        GivesText text.now (text_in number (seen_all source.now message.now))) }
    ensures fault { IfErr result (λ wire.
        text_in number (seen_all source.now message.now) ≡ Err wire.at) }
    ensures within { IfOk result (λ text. length text.now ≤ length source.now) }
{
    let mut text = "";
    for i in 0..message.len() {
        let field = message.field(i);
        if field.number == number {
            text = text_at(source, field)?;
        }
    }
    Ok(text)
}

/// The text of a field.
fn text_at(source: &[u8], field: Field) -> Result<&str, Wire>
    requires of_source { IsOf source.now field }
    ensures text { IfOk result (λ text. IsTextOf source.now field text.now) }
    ensures other { IfErr result (λ wire. IsNoText source.now field wire.at) }
{
    if field.kind != Kind::Bytes {
        return Err(Wire { at: field.at });
    }
    match str::from_utf8(&source[field.start..field.end]) {
        Ok(text) => Ok(text),
        Err(_) => Err(Wire { at: field.at }),
    }
}
