//! The JSON form of a wrapped keyset, written and read (the JSON mapping of proto3, of tink.proto's
//! EncryptedKeyset, KeysetInfo and its KeyInfo).

ghost use Rattle.std.specs.Prelude.{◌≡◌, ◌≤◌, Ok, Some, length, map, IfOk, IfErr, option_map};
ghost use Rattle.serde_json.specs.View.{view, members_view};
ghost use Rattle.keyset_model.specs.Keyset.{IsKnown};
ghost use Rattle.seal_wrap.specs.Info.{info_of, key_info_of};
ghost use Rattle.seal_wrap.specs.Wrapped.{info_value, key_info_value, url_member, wrapped_json, wrapped_value};
ghost use Rattle.seal_wrap.specs.Unwrapped.{encrypted_member, encrypted_of, member_bytes, or_member, sealed_in_json};
ghost use Rattle.seal_wrap.specs.Wrapping.{IsRefusal};

use crate::UnwrapFault;
use base64::engine::general_purpose::STANDARD;
use keyset_json::{JsonError, read_bytes, read_value, without_newline};
use keyset_model::{Keyset, Record, prefix_name, status_name};
use serde_json::{Map, Value, put};
use std::alloc::{AllocError, Global};
use tink_base::{Bytes, NoMemory};

/// The name of the encrypted bytes in JSON (the JSON mapping of proto3).
const ENCRYPTED_KEYSET: &str = "encryptedKeyset";

/// The name of their field in tink.proto.
const ENCRYPTED_KEYSET_FIELD: &str = "encrypted_keyset";

/// The JSON text of sealed bytes and the info of a keyset: compact, with the names of members in
/// byte order, and a newline. An empty type URL is left out.
pub fn write_wrapped_json(
    alloc: Global,
    keyset: &Keyset,
    sealed: &[u8],
) -> Result<Vec<u8>, NoMemory>
    ensures { IfOk result (λ text. text.items ≡ wrapped_json sealed.now (info_of keyset.now)) }
{
    let value = wrapped_value(alloc, keyset, sealed)?;
    let mut text = value.to_vec(alloc)?;
    text.push(b'\n')?;
    Ok(text)
}

/// The object of the whole text.
fn wrapped_value(alloc: Global, keyset: &Keyset, sealed: &[u8]) -> Result<Value, AllocError>
    ensures { IfOk result (λ value. view value ≡ wrapped_value sealed.now (info_of keyset.now)) }
{
    let encrypted = STANDARD.encode(alloc, sealed)?;
    let mut members = Map::new(alloc);
    put(
        &mut members,
        alloc,
        ENCRYPTED_KEYSET,
        Value::String(encrypted),
    )?;
    put(
        &mut members,
        alloc,
        "keysetInfo",
        info_value(alloc, keyset)?,
    )?;
    Ok(Value::Object(members))
}

/// The object of the info of a keyset.
fn info_value(alloc: Global, keyset: &Keyset) -> Result<Value, AllocError>
    ensures { IfOk result (λ value. view value ≡ info_value (info_of keyset.now)) }
{
    let keys = Value::Array(key_values(alloc, keyset)?);
    let mut members = Map::new(alloc);
    put(&mut members, alloc, "keyInfo", keys)?;
    put(
        &mut members,
        alloc,
        "primaryKeyId",
        Value::from(keyset.primary()),
    )?;
    Ok(Value::Object(members))
}

/// The objects of the info of a keyset's records.
fn key_values(alloc: Global, keyset: &Keyset) -> Result<Vec<Value>, AllocError>
    ensures { IfOk result (λ values.
        map view values.items ≡ map key_info_value (map key_info_of keyset.now.records)) }
{
    let mut values = Vec::new(alloc);
    for i in 0..keyset.len() {
        let value = key_value(alloc, keyset.record_at(i))?;
        values.push(value)?;
    }
    Ok(values)
}

/// The object of the info of a record.
fn key_value(alloc: Global, key: &Record) -> Result<Value, AllocError>
    requires known { IsKnown key.now }
    ensures { IfOk result (λ value. view value ≡ key_info_value (key_info_of key.now)) }
{
    let mut members = url_member(alloc, key.url.as_str())?;
    put(&mut members, alloc, "keyId", Value::from(key.id))?;
    let prefix = Value::try_from_str(alloc, prefix_name(key.prefix))?;
    put(&mut members, alloc, "outputPrefixType", prefix)?;
    let status = Value::try_from_str(alloc, status_name(key.status))?;
    put(&mut members, alloc, "status", status)?;
    Ok(Value::Object(members))
}

/// A type URL as a member; no member if it is empty.
fn url_member(alloc: Global, url: &str) -> Result<Map<String, Value>, AllocError>
    ensures { IfOk result (λ members. members_view members.entries ≡ url_member url.now) }
{
    let mut members = Map::new(alloc);
    if !url.is_empty() {
        put(
            &mut members,
            alloc,
            "typeUrl",
            Value::try_from_str(alloc, url)?,
        )?;
    }
    Ok(members)
}

/// The encrypted bytes of a JSON text, less one newline at its end; empty if the member is missing
/// or null.
///
/// `NotJson` comes if and only if `serde_json` reads no value from it, or lists and objects nest
/// deeper than 32. `Member` comes if and only if the value isn't an object, or the member is
/// present but no base64 text. Other members are ignored.
pub fn read_wrapped_json(alloc: Global, text: &[u8]) -> Result<Bytes, UnwrapFault>
    ensures sealed { IfOk result (λ sealed. sealed_in_json text.now ≡ Ok sealed) }
    ensures refusal { IfErr result (λ fault. IsRefusal fault (sealed_in_json text.now)) }
    ensures short { IfOk result (λ sealed. length sealed ≤ length text.now) }
{
    match read_value(alloc, without_newline(text)) {
        Ok(value) => encrypted_of(alloc, &value),
        Err(error) => match error {
            JsonError::NoMemory => Err(UnwrapFault::NoMemory),
            _ => Err(UnwrapFault::NotJson),
        },
    }
}

/// The encrypted bytes of a JSON value.
fn encrypted_of(alloc: Global, value: &Value) -> Result<Bytes, UnwrapFault>
    ensures sealed { IfOk result (λ sealed.
        or_member (encrypted_of (view value.now)) ≡ Ok sealed) }
    ensures refusal { IfErr result (λ fault.
        IsRefusal fault (or_member (encrypted_of (view value.now)))) }
{
    if !value.is_object() {
        return Err(UnwrapFault::Member);
    }
    match encrypted_member(value) {
        Some(member) => member_bytes(alloc, member),
        None => Ok(Bytes::own(Vec::new(alloc))),
    }
}

/// The bytes of the member, empty if it is null.
fn member_bytes(alloc: Global, member: &Value) -> Result<Bytes, UnwrapFault>
    ensures sealed { IfOk result (λ sealed.
        or_member (member_bytes (Some (view member.now))) ≡ Ok sealed) }
    ensures refusal { IfErr result (λ fault.
        IsRefusal fault (or_member (member_bytes (Some (view member.now))))) }
{
    match member {
        Value::Null => Ok(Bytes::own(Vec::new(alloc))),
        Value::String(text) => match read_bytes(alloc, text.as_str()) {
            Ok(Some(sealed)) => Ok(sealed),
            Ok(None) => Err(UnwrapFault::Member),
            Err(_) => Err(UnwrapFault::NoMemory),
        },
        _ => Err(UnwrapFault::Member),
    }
}

/// An object's member of the encrypted bytes, by its JSON name or, if there is none, by the field's
/// name.
fn encrypted_member(object: &Value) -> Option<&Value>
    ensures { option_map (λ v. view v.now) result ≡ encrypted_member (view object.now) }
{
    let named = object.get(ENCRYPTED_KEYSET);
    let by_field = object.get(ENCRYPTED_KEYSET_FIELD);
    named.or(by_field)
}
