//! A keyset written as JSON.

ghost use Rattle.std.specs.Prelude.{◌≡◌, IfOk, map};
ghost use Rattle.serde_json.specs.View.{view, members_view};
ghost use Rattle.keyset_json.specs.Writing.{data_value, data_member, key_value, keyset_value, json_of};

use crate::names::Names;
use base64::engine::general_purpose::STANDARD;
use keyset_model::{Keyset, Record};
use serde_json::{Map, Value, put};
use std::alloc::{AllocError, Global};
use tink_base::NoMemory;

/// The JSON form of a keyset: compact, with the names of members in byte order, and a newline.
/// Enums are names, and bytes are standard base64 with padding. A bare record, which has neither
/// URL nor value nor key material type, has no keyData.
pub fn write_json(alloc: Global, keyset: &Keyset) -> Result<Vec<u8>, NoMemory>
    ensures { IfOk result (λ text. text.items ≡ json_of keyset.now) }
{
    let value = keyset_value(alloc, keyset)?;
    let mut text = value.to_vec(alloc)?;
    text.push(b'\n')?;
    Ok(text)
}

/// The object of a keyset.
fn keyset_value(alloc: Global, keyset: &Keyset) -> Result<Value, AllocError>
    ensures { IfOk result (λ value. view value ≡ keyset_value keyset.now) }
{
    let keys = Value::Array(key_values(alloc, keyset)?);
    let mut members = Map::new(alloc);
    put(&mut members, alloc, "key", keys)?;
    put(
        &mut members,
        alloc,
        "primaryKeyId",
        Value::from(keyset.primary()),
    )?;
    Ok(Value::Object(members))
}

/// The objects of the records of a keyset.
fn key_values(alloc: Global, keyset: &Keyset) -> Result<Vec<Value>, AllocError>
    ensures { IfOk result (λ values. map view values.items ≡ map key_value keyset.now.records) }
{
    let mut values = Vec::new(alloc);
    for i in 0..keyset.len() {
        let value = key_value(alloc, keyset.record_at(i))?;
        values.push(value)?;
    }
    Ok(values)
}

/// The object of a record.
fn key_value(alloc: Global, key: &Record) -> Result<Value, AllocError>
    ensures { IfOk result (λ value. view value ≡ key_value key.now) }
{
    let mut members = data_member(alloc, key)?;
    put(&mut members, alloc, "keyId", Value::from(key.id))?;
    let prefix = Value::try_from_str(alloc, Names::Prefix.name_of(key.prefix))?;
    put(&mut members, alloc, "outputPrefixType", prefix)?;
    let status = Value::try_from_str(alloc, Names::Status.name_of(key.status))?;
    put(&mut members, alloc, "status", status)?;
    Ok(Value::Object(members))
}

/// The key data of a record as a member; no member if the record is bare.
fn data_member(alloc: Global, key: &Record) -> Result<Map<String, Value>, AllocError>
    ensures { IfOk result (λ members. members_view members.entries ≡ data_member key.now) }
{
    let mut members = Map::new(alloc);
    if !key.is_bare() {
        put(&mut members, alloc, "keyData", data_value(alloc, key)?)?;
    }
    Ok(members)
}

/// The object of a record's key data.
fn data_value(alloc: Global, key: &Record) -> Result<Value, AllocError>
    ensures { IfOk result (λ value. view value ≡ data_value key.now) }
{
    let mut members = Map::new(alloc);
    let material = Value::try_from_str(alloc, Names::Material.name_of(key.material))?;
    put(&mut members, alloc, "keyMaterialType", material)?;
    let url = Value::try_from_str(alloc, key.url.as_str())?;
    put(&mut members, alloc, "typeUrl", url)?;
    let value = STANDARD.encode(alloc, key.value.as_slice())?;
    put(&mut members, alloc, "value", Value::String(value))?;
    Ok(Value::Object(members))
}
