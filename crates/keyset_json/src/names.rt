//! The names of tink.proto's enums.

ghost use Rattle.std.specs.Prelude.{◌≡◌};
ghost use Rattle.keyset_json.specs.Names.{status_names, prefix_names, material_names, number_named, name_at};
ghost use Rattle.keyset_json.specs.Enums.{names_of};
ghost use Rattle.keyset_json.specs.Numbers.{enum_of};
ghost use Rattle.serde_json.specs.View.{view};

use crate::numbers::read_number;
use serde_json::Value;

/// An enum of tink.proto.
#[derive(Clone, Copy)]
pub(crate) enum Names {
    /// KeyStatusType.
    Status,
    /// OutputPrefixType.
    Prefix,
    /// KeyData.KeyMaterialType.
    Material,
}

impl Names {
    /// The number of a name.
    pub(crate) fn number_of(self, name: &str) -> Option<u32>
        ensures { result ≡ number_named (names_of self) name.now }
    {
        match self {
            Names::Status => status_number(name),
            Names::Prefix => prefix_number(name),
            Names::Material => material_number(name),
        }
    }

    /// A 32-bit number, or a name.
    pub(crate) fn read(self, value: &Value) -> Option<u32>
        ensures { result ≡ enum_of (names_of self) (view value.now) }
    {
        match value {
            Value::Number(number) => read_number(number),
            Value::String(name) => self.number_of(name.as_str()),
            _ => None,
        }
    }

    /// The name of a number, empty if it has none.
    pub(crate) fn name_of(self, number: u32) -> &'static str
        ensures { result.now ≡ name_at (names_of self) number }
    {
        match self {
            Names::Status => status_name(number),
            Names::Prefix => prefix_name(number),
            Names::Material => material_name(number),
        }
    }
}

fn status_number(name: &str) -> Option<u32>
    ensures { result ≡ number_named status_names name.now }
{
    match name {
        "UNKNOWN_STATUS" => Some(0),
        "ENABLED" => Some(1),
        "DISABLED" => Some(2),
        "DESTROYED" => Some(3),
        _ => None,
    }
}

fn prefix_number(name: &str) -> Option<u32>
    ensures { result ≡ number_named prefix_names name.now }
{
    match name {
        "UNKNOWN_PREFIX" => Some(0),
        "TINK" => Some(1),
        "LEGACY" => Some(2),
        "RAW" => Some(3),
        "CRUNCHY" => Some(4),
        _ => None,
    }
}

fn material_number(name: &str) -> Option<u32>
    ensures { result ≡ number_named material_names name.now }
{
    match name {
        "UNKNOWN_KEYMATERIAL" => Some(0),
        "SYMMETRIC" => Some(1),
        "ASYMMETRIC_PRIVATE" => Some(2),
        "ASYMMETRIC_PUBLIC" => Some(3),
        "REMOTE" => Some(4),
        _ => None,
    }
}

fn status_name(number: u32) -> &'static str
    ensures { result.now ≡ name_at status_names number }
{
    match number {
        0 => "UNKNOWN_STATUS",
        1 => "ENABLED",
        2 => "DISABLED",
        3 => "DESTROYED",
        _ => "",
    }
}

fn prefix_name(number: u32) -> &'static str
    ensures { result.now ≡ name_at prefix_names number }
{
    match number {
        0 => "UNKNOWN_PREFIX",
        1 => "TINK",
        2 => "LEGACY",
        3 => "RAW",
        4 => "CRUNCHY",
        _ => "",
    }
}

fn material_name(number: u32) -> &'static str
    ensures { result.now ≡ name_at material_names number }
{
    match number {
        0 => "UNKNOWN_KEYMATERIAL",
        1 => "SYMMETRIC",
        2 => "ASYMMETRIC_PRIVATE",
        3 => "ASYMMETRIC_PUBLIC",
        4 => "REMOTE",
        _ => "",
    }
}
