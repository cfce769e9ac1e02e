//! The members of an object, by their forms. `Shape` holds the path of what isn't of its form.

ghost use Rattle.std.specs.Prelude.{◌≡◌, Ok, [], IfOk, IfErr, OnOk};
ghost use Rattle.serde_json.specs.Data.{null};
ghost use Rattle.serde_json.specs.View.{view};
ghost use Rattle.serde_json.specs.Find.{as_str};
ghost use Rattle.keyset_json.specs.Enums.{names_of};
ghost use Rattle.keyset_json.specs.Numbers.{uint32_of, enum_of};
ghost use Rattle.keyset_json.specs.Reading.{of_keyset as path_of_keyset, of_key as path_of_key, or_at, object_of, bytes_of, field};
ghost use Rattle.keyset_json.specs.Steps.{Gives, IsShape};

use crate::names::Names;
use crate::numbers::read_uint32;
use crate::reading::JsonError;
use crate::{Member, Path, read_bytes};
use serde_json::Value;
use std::alloc::Global;
use tink_base::Bytes;

/// The path of a member of the keyset.
pub fn of_keyset(member: Member) -> Path
    ensures { result ≡ path_of_keyset member }
{
    Path { key: None, member }
}

/// The path of a member of key i.
pub fn of_key(i: usize, member: Member) -> Path
    ensures { result ≡ path_of_key i member }
{
    Path {
        key: Some(i),
        member,
    }
}

/// Whether the value of this path is an object.
pub fn is_object(value: &Value, path: Path) -> Result<(), JsonError>
    ensures object { OnOk result (or_at path (object_of (view value.now)) ≡ Ok (view value.now)) }
    ensures fault { IfErr result (λ error.
        IsShape error (or_at path (object_of (view value.now)))) }
{
    if value.is_object() {
        Ok(())
    } else {
        Err(JsonError::Shape(path))
    }
}

/// The object of a member; `missing`, which is null, if there is no such member.
pub fn read_object<'v>(
    object: &'v Value,
    path: Path,
    missing: &'v Value,
) -> Result<&'v Value, JsonError>
    requires missing { view missing.now ≡ null }
    ensures object { IfOk result (λ found.
        field object_of null path (view object.now) ≡ Ok (view found.now)) }
    ensures fault { IfErr result (λ error.
        IsShape error (field object_of null path (view object.now))) }
{
    match path.member.find(object) {
        None => Ok(missing),
        Some(value) => if value.is_object() {
            Ok(value)
        } else {
            Err(JsonError::Shape(path))
        },
    }
}

/// The text of a member, empty if it is missing.
pub fn read_text(object: &Value, path: Path) -> Result<&str, JsonError>
    ensures text { IfOk result (λ text. field as_str [] path (view object.now) ≡ Ok text.now) }
    ensures fault { IfErr result (λ error. IsShape error (field as_str [] path (view object.now))) }
{
    match path.member.find(object) {
        None => Ok(""),
        Some(value) => match value.as_str() {
            Some(text) => Ok(text),
            None => Err(JsonError::Shape(path)),
        },
    }
}

/// The bytes of a member, empty if it is missing.
pub fn read_base64(alloc: Global, object: &Value, path: Path) -> Result<Bytes, JsonError>
    ensures { Gives result (field bytes_of [] path (view object.now)) }
{
    match path.member.find(object) {
        None => Ok(Bytes::own(Vec::new(alloc))),
        Some(value) => match value {
            Value::String(text) => match read_bytes(alloc, text.as_str())? {
                Some(bytes) => Ok(bytes),
                None => Err(JsonError::Shape(path)),
            },
            _ => Err(JsonError::Shape(path)),
        },
    }
}

/// The 32-bit number of a member, 0 if it is missing.
pub fn read_number(object: &Value, path: Path) -> Result<u32, JsonError>
    ensures { Gives result (field uint32_of 0 path (view object.now)) }
{
    match path.member.find(object) {
        None => Ok(0),
        Some(value) => match read_uint32(value) {
            Some(number) => Ok(number),
            None => Err(JsonError::Shape(path)),
        },
    }
}

/// The number of an enum of a member, 0 if it is missing.
pub fn read_enum(object: &Value, path: Path, names: Names) -> Result<u32, JsonError>
    ensures { Gives result (field (enum_of (names_of names)) 0 path (view object.now)) }
{
    match path.member.find(object) {
        None => Ok(0),
        Some(value) => match names.read(value) {
            Some(number) => Ok(number),
            None => Err(JsonError::Shape(path)),
        },
    }
}
