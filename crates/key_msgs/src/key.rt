//! Keys, and why a message gives no key.

ghost use Rattle.std.specs.Prelude.{◌≡◌};
ghost use Rattle.key_msgs.specs.Keys.{type_of, hash_number};
ghost use Rattle.key_msgs.specs.KeyTypes.{url_of_type};

use crate::{KeyType, Rule};
use proto_wire::{FieldsError, Wire};
use tink_base::{Bytes, Hash, NoMemory};

/// A key. Sizes are in bytes.
#[derive(Drop)]
pub enum KeyKind {
    /// AesGcmKey
    AesGcm {
        key: Bytes,
    },
    /// AesEaxKey
    AesEax {
        key: Bytes,
        iv_size: u32,
    },
    /// AesCtrHmacAeadKey: the keys of AES-CTR and of HMAC.
    AesCtrHmac {
        aes: Bytes,
        iv_size: u32,
        hash: Hash,
        mac: Bytes,
        tag_size: u32,
    },
    /// AesSivKey
    AesSiv {
        key: Bytes,
    },
    /// HmacKey
    Hmac {
        key: Bytes,
        hash: Hash,
        tag_size: u32,
    },
    /// AesCmacKey
    AesCmac {
        key: Bytes,
        tag_size: u32,
    },
    /// HkdfPrfKey
    HkdfPrf {
        key: Bytes,
        hash: Hash,
        salt: Bytes,
    },
    /// HmacPrfKey
    HmacPrf {
        key: Bytes,
        hash: Hash,
    },
    /// AesCmacPrfKey
    CmacPrf {
        key: Bytes,
    },
    /// AesGcmHkdfStreamingKey: the hash is HKDF's.
    GcmStream {
        key: Bytes,
        segment: u32,
        derived: u32,
        hash: Hash,
    },
    /// AesCtrHmacStreamingKey: the hashes are HKDF's and HMAC's.
    CtrStream {
        key: Bytes,
        segment: u32,
        derived: u32,
        hash: Hash,
        mac_hash: Hash,
        tag_size: u32,
    },
    /// AesGcmSivKey
    AesGcmSiv {
        key: Bytes,
    },
}

impl KeyKind {
    /// The type of the key.
    pub fn key_type(&self) -> KeyType
        ensures { result ≡ type_of self.now }
    {
        match self {
            KeyKind::AesGcm { .. } => KeyType::AesGcm,
            KeyKind::AesEax { .. } => KeyType::AesEax,
            KeyKind::AesCtrHmac { .. } => KeyType::AesCtrHmac,
            KeyKind::AesSiv { .. } => KeyType::AesSiv,
            KeyKind::Hmac { .. } => KeyType::Hmac,
            KeyKind::AesCmac { .. } => KeyType::AesCmac,
            KeyKind::HkdfPrf { .. } => KeyType::HkdfPrf,
            KeyKind::HmacPrf { .. } => KeyType::HmacPrf,
            KeyKind::CmacPrf { .. } => KeyType::CmacPrf,
            KeyKind::GcmStream { .. } => KeyType::GcmStream,
            KeyKind::CtrStream { .. } => KeyType::CtrStream,
            KeyKind::AesGcmSiv { .. } => KeyType::AesGcmSiv,
        }
    }
}

/// Why a key message gives no key.
#[derive(Clone, Copy, Debug, PartialEq, Eq)]
pub enum KeyFault {
    /// No key type has the type URL.
    NotKnown,
    /// The first rule that the message breaks.
    Bad(Rule),
    /// Memory couldn't be allocated.
    NoMemory,
}

impl From<Wire> for KeyFault {
    ghost use Rattle.key_msgs.specs.declared.key.KeyFault.TheVariants as faults;
    ghost use Rattle.key_msgs.specs.declared.rule.Rule.TheVariants as broken;

    ghost from_gives = { λ _ fault. fault ≡ faults.Bad broken.Form };

    fn from(_wire: Wire) -> KeyFault {
        KeyFault::Bad(Rule::Form)
    }
}

impl From<FieldsError> for KeyFault {
    ghost use Rattle.key_msgs.specs.Reading.{of_fields_error};

    ghost from_gives = { λ error fault. fault ≡ of_fields_error error };

    fn from(error: FieldsError) -> KeyFault {
        match error {
            FieldsError::Wire(_) => KeyFault::Bad(Rule::Form),
            FieldsError::NoMemory => KeyFault::NoMemory,
        }
    }
}

impl From<Rule> for KeyFault {
    ghost use Rattle.key_msgs.specs.declared.key.KeyFault.TheVariants as faults;

    ghost from_gives = { λ rule fault. fault ≡ faults.Bad rule };

    fn from(rule: Rule) -> KeyFault {
        KeyFault::Bad(rule)
    }
}

impl From<NoMemory> for KeyFault {
    ghost use Rattle.key_msgs.specs.declared.key.KeyFault.TheVariants as faults;

    ghost from_gives = { λ _ fault. fault ≡ faults.NoMemory };

    fn from(_error: NoMemory) -> KeyFault {
        KeyFault::NoMemory
    }
}

/// The number of a hash function in Tink's `HashType`.
pub(crate) fn hash_number(hash: Hash) -> u32
    ensures { result ≡ hash_number hash }
{
    match hash {
        Hash::Sha1 => 1,
        Hash::Sha384 => 2,
        Hash::Sha256 => 3,
        Hash::Sha512 => 4,
        Hash::Sha224 => 5,
    }
}

/// The type URL of a key. No memory is taken.
pub fn url_of(key: &KeyKind) -> &'static str
    ensures { result.now ≡ url_of_type (type_of key.now) }
{
    key.key_type().url()
}
