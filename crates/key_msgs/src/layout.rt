//! The field numbers of key messages (Tink, *.proto).

ghost use Rattle.std.specs.Prelude.{◌≡◌, ◌≢◌};
ghost use Rattle.key_msgs.specs.declared.key_type.KeyType.TheVariants as types;
ghost use Rattle.key_msgs.specs.Writing.{IsLayout};
ghost use Rattle.key_msgs.specs.KeyTypes.{layout_of, aes_ctr_fields, hmac_fields};

use crate::KeyType;

/// The field numbers of a message that has one key value; 0 means a field that the message doesn't
/// have. The version isn't listed.
#[derive(Clone, Copy)]
pub struct Layout {
    /// `params`, which holds the fields up to `hmac_params`.
    pub params: u32,
    /// `iv_size`
    pub iv_size: u32,
    /// `ciphertext_segment_size`
    pub segment: u32,
    /// `derived_key_size`
    pub derived: u32,
    /// `hash`, or `hkdf_hash_type` of a stream.
    pub hash: u32,
    /// `tag_size`
    pub tag_size: u32,
    /// `salt`
    pub salt: u32,
    /// `hmac_params`, a message with `hash` = 1 and `tag_size` = 2.
    pub hmac_params: u32,
    /// `key_value`
    pub key_value: u32,
}

const NO_FIELDS: Layout = Layout {
    params: 0,
    iv_size: 0,
    segment: 0,
    derived: 0,
    hash: 0,
    tag_size: 0,
    salt: 0,
    hmac_params: 0,
    key_value: 0,
};

/// The fields of an AesCtrKey, an inner message of AesCtrHmacAeadKey.
pub(crate) fn aes_ctr_layout() -> Layout
    ensures fields { result ≡ aes_ctr_fields }
    ensures numbers { IsLayout result }
{
    Layout {
        params: 2,
        iv_size: 1,
        key_value: 3,
        ..NO_FIELDS
    }
}

/// The fields of the type's message. An AesCtrHmacAeadKey has its key values in inner messages.
pub(crate) fn fields_of_type(key_type: KeyType) -> Layout
    ensures fields { result ≡ layout_of key_type }
    ensures numbers { key_type ≢ types.AesCtrHmac → IsLayout result }
{
    match key_type {
        KeyType::AesGcm | KeyType::AesGcmSiv => Layout {
            key_value: 3,
            ..NO_FIELDS
        },
        KeyType::AesEax => aes_ctr_layout(),
        KeyType::AesCtrHmac => NO_FIELDS,
        KeyType::AesSiv | KeyType::CmacPrf => Layout {
            key_value: 2,
            ..NO_FIELDS
        },
        KeyType::Hmac => Layout {
            params: 2,
            hash: 1,
            tag_size: 2,
            key_value: 3,
            ..NO_FIELDS
        },
        KeyType::AesCmac => Layout {
            key_value: 2,
            params: 3,
            tag_size: 1,
            ..NO_FIELDS
        },
        KeyType::HkdfPrf => Layout {
            params: 2,
            hash: 1,
            salt: 2,
            key_value: 3,
            ..NO_FIELDS
        },
        KeyType::HmacPrf => Layout {
            params: 2,
            hash: 1,
            key_value: 3,
            ..NO_FIELDS
        },
        KeyType::GcmStream => Layout {
            params: 2,
            segment: 1,
            derived: 2,
            hash: 3,
            key_value: 3,
            ..NO_FIELDS
        },
        KeyType::CtrStream => Layout {
            params: 2,
            segment: 1,
            derived: 2,
            hash: 3,
            hmac_params: 4,
            key_value: 3,
            ..NO_FIELDS
        },
    }
}
