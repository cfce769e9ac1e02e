//! The members of a keyset in JSON.

ghost use Rattle.std.specs.Prelude.{◌≡◌, option_map};
ghost use Rattle.serde_json.specs.View.{view};
ghost use Rattle.keyset_json.specs.Members.{name_of, field_name_of, unless_null, member_of};

use serde_json::Value;

/// A member of a keyset in JSON.
#[derive(Clone, Copy, Debug, PartialEq, Eq)]
pub enum Member {
    /// The whole keyset.
    Keyset,
    PrimaryKeyId,
    /// The list of keys, or one of them.
    Key,
    KeyData,
    TypeUrl,
    Value,
    KeyMaterialType,
    Status,
    KeyId,
    OutputPrefixType,
}

/// The place of a member: `key` is the index of its key in the list, counted from 0, and `None` for
/// a member of the keyset itself.
#[derive(Clone, Copy, Debug, PartialEq, Eq)]
pub struct Path {
    pub key: Option<usize>,
    pub member: Member,
}

impl Member {
    /// The member's name in JSON (the JSON mapping of proto3); `keyset` is the whole.
    #[tactic(auto, unfolding(crate::specs::Members::name_of))]
    pub fn name(self) -> &'static str
        ensures { result.now ≡ name_of self }
    {
        match self {
            Member::Keyset => "keyset",
            Member::PrimaryKeyId => "primaryKeyId",
            Member::Key => "key",
            Member::KeyData => "keyData",
            Member::TypeUrl => "typeUrl",
            Member::Value => "value",
            Member::KeyMaterialType => "keyMaterialType",
            Member::Status => "status",
            Member::KeyId => "keyId",
            Member::OutputPrefixType => "outputPrefixType",
        }
    }

    /// The name of its field in tink.proto.
    #[tactic(auto, unfolding(crate::specs::Members::field_name_of))]
    fn field_name(self) -> &'static str
        ensures { result.now ≡ field_name_of self }
    {
        match self {
            Member::Keyset => "keyset",
            Member::PrimaryKeyId => "primary_key_id",
            Member::Key => "key",
            Member::KeyData => "key_data",
            Member::TypeUrl => "type_url",
            Member::Value => "value",
            Member::KeyMaterialType => "key_material_type",
            Member::Status => "status",
            Member::KeyId => "key_id",
            Member::OutputPrefixType => "output_prefix_type",
        }
    }

    /// What an object has of this member; null counts as missing.
    pub(crate) fn find(self, object: &Value) -> Option<&Value>
        ensures { option_map (λ v. view v.now) result ≡ member_of self (view object.now) }
    {
        let named = object.get(self.name());
        let by_field = object.get(self.field_name());
        unless_null(named.or(by_field))
    }
}

/// The value; `None` if it is null.
fn unless_null<'v>(value: Option<&'v Value>) -> Option<&'v Value>
    ensures { option_map (λ v. view v.now) result
        ≡ unless_null (option_map (λ v. view v.now) value.entry) }
{
    match value {
        Some(value) => if value.is_null() { None } else { Some(value) },
        None => None,
    }
}
