//! A keyset in JSON, read.

ghost use Rattle.std.specs.Prelude.{◌≡◌, ◌<◌, ◌≤◌, ◌^◌, length, Some, Ok, IfOk, IfErr, IsErrOf, IsTrue};
ghost use Rattle.std.specs.Str.{IsUtf8};
ghost use Rattle.std.specs.List.{AllByRecursion};
ghost use Rattle.keyset_model.specs.Keyset.{IsWithin, IsShort};
ghost use Rattle.serde_json.specs.View.{view, items_view};
ghost use Rattle.keyset_json.specs.Reading.{ends_in_newline, without_newline, json_value, record_of, records_of, records_in, reads_json, GivesKeyset};
ghost use Rattle.keyset_json.specs.Nesting.{is_shallow};
ghost use Rattle.keyset_json.specs.Steps.{Gives, IsNoValue, IsShape};
ghost use Rattle.keyset_json.specs.declared.reading.JsonError.TheVariants as errors;

use crate::fields::{
    is_object, of_key, of_keyset, read_base64, read_enum, read_number, read_object, read_text,
};
use crate::names::Names;
use crate::nesting::is_shallow;
use crate::{Member, Path};
use keyset_model::{Keyset, KeysetRefusal, Record};
use serde_json::{Category, Value};
use std::alloc::{AllocFailed, Global};
use tink_base::{Bytes, NoMemory, Text};

/// Why bytes give no keyset, in the order in which causes are looked for.
#[derive(Clone, Copy, Debug, PartialEq, Eq)]
pub enum JsonError {
    /// The bytes, less one newline at their end, are no JSON text, or lists and objects nest deeper
    /// than 32.
    NotJson,
    /// The first member that isn't of its form.
    Shape(Path),
    /// The first fault of the keyset.
    Fault(KeysetRefusal),
    /// Memory couldn't be allocated.
    NoMemory,
}

impl From<KeysetRefusal> for JsonError {
    ghost from_gives = { λ fault e. e ≡ errors.Fault fault };

    fn from(fault: KeysetRefusal) -> JsonError {
        JsonError::Fault(fault)
    }
}

impl From<NoMemory> for JsonError {
    ghost from_gives = { λ _ e. e ≡ errors.NoMemory };

    fn from(_error: NoMemory) -> JsonError {
        JsonError::NoMemory
    }
}

impl<T: Drop> From<AllocFailed<T>> for JsonError {
    ghost from_gives = { λ _ e. e ≡ errors.NoMemory };

    fn from(_error: AllocFailed<T>) -> JsonError {
        JsonError::NoMemory
    }
}

/// Reads a keyset from JSON (the JSON mapping of proto3, of tink.proto's `Keyset`), of at most 2^30
/// bytes.
///
/// A member is taken by its name or, if the object has none of that name, by its field's name in
/// tink.proto. null counts as missing, what is missing is 0 or empty, and other members are
/// ignored. If a name occurs twice, the last value counts, as `serde_json` reads it.
///
/// `NotJson` comes if and only if `serde_json` reads no value from the bytes, less one newline at
/// their end, or lists and objects nest deeper than 32. `Shape` holds the first member that isn't
/// of its form, in this order: the whole, primaryKeyId, the list of keys; then for each key the key
/// itself, keyData, typeUrl, value, keyMaterialType, status, keyId, outputPrefixType. `Fault` comes
/// if and only if each member is of its form and this is the keyset's first fault. URL and value of
/// each record have at most as many bytes as the source.
pub fn read_json(alloc: Global, bytes: &[u8]) -> Result<Keyset, JsonError>
    requires size_bound { length bytes.now ≤ 2 ^ 30 }
    ensures keyset { GivesKeyset result (reads_json bytes.now) }
    ensures within { IfOk result (λ keyset.
        AllByRecursion (IsWithin (length bytes.now)) keyset.records) }
    ensures short { length bytes.now ≤ 2 ^ 29 → IfOk result (λ keyset.
        AllByRecursion IsShort keyset.records) }
{
    let value = read_value(alloc, without_newline(bytes))?;
    is_object(&value, of_keyset(Member::Keyset))?;
    let primary = read_number(&value, of_keyset(Member::PrimaryKeyId))?;
    let records = read_records(alloc, &value)?;
    let keyset = Keyset::build(primary, records)?;
    Ok(keyset)
}

/// The bytes without one newline at their end.
pub fn without_newline(bytes: &[u8]) -> &[u8]
    ensures { result.now ≡ without_newline bytes.now }
{
    if ends_in_newline(bytes) {
        &bytes[..bytes.len() - 1]
    } else {
        bytes
    }
}

/// Whether the last byte is a newline.
fn ends_in_newline(bytes: &[u8]) -> bool
    ensures newline { result ≡ ends_in_newline bytes.now }
    ensures some { IsTrue result → 1 ≤ length bytes.now }
{
    !bytes.is_empty() && bytes[bytes.len() - 1] == b'\n'
}

/// The JSON value of a text. `NotJson` comes if and only if `serde_json` reads no value from it, or
/// lists and objects nest deeper than 32. The only other error is `NoMemory`, which comes only for
/// bytes that are UTF-8, at least one, and nest no deeper.
pub fn read_value(alloc: Global, text: &[u8]) -> Result<Value, JsonError>
    ensures value { IfOk result (λ value. json_value text.now ≡ Some (view value)) }
    ensures none { IfErr result (λ error. IsNoValue error (json_value text.now)) }
    ensures no_memory { IsErrOf result JsonError.NoMemory →
        IsUtf8 text.now × IsTrue (is_shallow text.now) × (0 < length text.now) }
{
    if !is_shallow(text) {
        return Err(JsonError::NotJson);
    }
    let Ok(text) = str::from_utf8(text) else {
        return Err(JsonError::NotJson);
    };
    match Value::from_str(alloc, text) {
        Ok(value) => Ok(value),
        Err(error) => match error.classify() {
            Category::Memory => Err(JsonError::NoMemory),
            _ => Err(JsonError::NotJson),
        },
    }
}

/// The records of the list of keys of an object.
fn read_records(alloc: Global, whole: &Value) -> Result<Vec<Record>, JsonError>
    ensures records { IfOk result (λ records. records_in (view whole.now) ≡ Ok records.items) }
    ensures fault { IfErr result (λ error. IsShape error (records_in (view whole.now))) }
{
    match Member::Key.find(whole) {
        None => Ok(Vec::new(alloc)),
        Some(list) => match list.as_array() {
            Some(items) => read_items(alloc, items),
            None => Err(JsonError::Shape(of_keyset(Member::Key))),
        },
    }
}

/// The records of the items of the list of keys.
fn read_items(alloc: Global, items: &[Value]) -> Result<Vec<Record>, JsonError>
    ensures records { IfOk result (λ records.
        records_of 0 (items_view items.now) ≡ Ok records.items) }
    ensures fault { IfErr result (λ error. IsShape error (records_of 0 (items_view items.now))) }
{
    let mut records = Vec::new(alloc);
    for i in 0..items.len() {
        let key = read_record(alloc, i, &items[i])?;
        records.push(key)?;
    }
    Ok(records)
}

/// The record of item i of the list of keys.
fn read_record(alloc: Global, i: usize, key: &Value) -> Result<Record, JsonError>
    ensures { Gives result (record_of i (view key.now)) }
{
    is_object(key, of_key(i, Member::Key))?;
    let missing = Value::Null;
    let key_data = read_object(key, of_key(i, Member::KeyData), &missing)?;
    let url = read_text(key_data, of_key(i, Member::TypeUrl))?;
    let value = read_base64(alloc, key_data, of_key(i, Member::Value))?;
    let material = read_enum(
        key_data,
        of_key(i, Member::KeyMaterialType),
        Names::Material,
    )?;
    let status = read_enum(key, of_key(i, Member::Status), Names::Status)?;
    let id = read_number(key, of_key(i, Member::KeyId))?;
    let prefix = read_enum(key, of_key(i, Member::OutputPrefixType), Names::Prefix)?;
    Ok(Record {
        id,
        status,
        prefix,
        url: Text::copy(alloc, url)?,
        value,
        material,
    })
}
