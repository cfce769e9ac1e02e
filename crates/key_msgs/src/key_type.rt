//! The key types, their URLs and their primitives.

ghost use Rattle.std.specs.Prelude.{◌≡◌, Some, option_map};
ghost use Rattle.key_msgs.specs.KeyTypes.{type_of_url, url_of_type, primitive_of_type};

use crate::Primitive;

/// The key types of symmetric keys, by their messages.
#[derive(Clone, Copy, Debug, PartialEq, Eq)]
pub enum KeyType {
    /// AesGcmKey
    AesGcm,
    /// AesEaxKey
    AesEax,
    /// AesCtrHmacAeadKey
    AesCtrHmac,
    /// AesSivKey
    AesSiv,
    /// HmacKey
    Hmac,
    /// AesCmacKey
    AesCmac,
    /// HkdfPrfKey
    HkdfPrf,
    /// HmacPrfKey
    HmacPrf,
    /// AesCmacPrfKey
    CmacPrf,
    /// AesGcmHkdfStreamingKey
    GcmStream,
    /// AesCtrHmacStreamingKey
    CtrStream,
    /// AesGcmSivKey
    AesGcmSiv,
}

const TYPES: [KeyType; 12] = [
    KeyType::AesGcm,
    KeyType::AesEax,
    KeyType::AesCtrHmac,
    KeyType::AesSiv,
    KeyType::Hmac,
    KeyType::AesCmac,
    KeyType::HkdfPrf,
    KeyType::HmacPrf,
    KeyType::CmacPrf,
    KeyType::GcmStream,
    KeyType::CtrStream,
    KeyType::AesGcmSiv,
];

impl KeyType {
    /// The URL of the type, `type.googleapis.com/google.crypto.tink.` and its message's name.
    pub fn url(self) -> &'static str
        ensures { result.now ≡ url_of_type self }
    {
        match self {
            KeyType::AesGcm => "type.googleapis.com/google.crypto.tink.AesGcmKey",
            KeyType::AesEax => "type.googleapis.com/google.crypto.tink.AesEaxKey",
            KeyType::AesCtrHmac => "type.googleapis.com/google.crypto.tink.AesCtrHmacAeadKey",
            KeyType::AesSiv => "type.googleapis.com/google.crypto.tink.AesSivKey",
            KeyType::Hmac => "type.googleapis.com/google.crypto.tink.HmacKey",
            KeyType::AesCmac => "type.googleapis.com/google.crypto.tink.AesCmacKey",
            KeyType::HkdfPrf => "type.googleapis.com/google.crypto.tink.HkdfPrfKey",
            KeyType::HmacPrf => "type.googleapis.com/google.crypto.tink.HmacPrfKey",
            KeyType::CmacPrf => "type.googleapis.com/google.crypto.tink.AesCmacPrfKey",
            KeyType::GcmStream => "type.googleapis.com/google.crypto.tink.AesGcmHkdfStreamingKey",
            KeyType::CtrStream => "type.googleapis.com/google.crypto.tink.AesCtrHmacStreamingKey",
            KeyType::AesGcmSiv => "type.googleapis.com/google.crypto.tink.AesGcmSivKey",
        }
    }

    /// The primitive that keys of the type are for.
    pub fn primitive(self) -> Primitive
        ensures { result ≡ primitive_of_type self }
    {
        match self {
            KeyType::AesGcm | KeyType::AesEax | KeyType::AesCtrHmac | KeyType::AesGcmSiv => {
                Primitive::Aead
            }
            KeyType::AesSiv => Primitive::Daead,
            KeyType::Hmac | KeyType::AesCmac => Primitive::Mac,
            KeyType::HkdfPrf | KeyType::HmacPrf | KeyType::CmacPrf => Primitive::Prf,
            KeyType::GcmStream | KeyType::CtrStream => Primitive::Stream,
        }
    }

    /// The type with this URL; `None` if and only if no type has it. No memory is taken.
    #[tactic(auto, unfolding(crate::specs::KeyTypes::type_of_url))]
    pub fn from_url(url: &str) -> Option<KeyType>
        ensures { result ≡ type_of_url url.now }
    {
        for key_type in &TYPES {
            if key_type.url() == url {
                return Some(*key_type);
            }
        }
        None
    }
}

/// The primitive of the type with this URL; `None` if and only if no key type has the URL. No
/// memory is taken.
pub fn primitive_of(url: &str) -> Option<Primitive>
    ensures { result ≡ option_map primitive_of_type (type_of_url url.now) }
{
    match KeyType::from_url(url) {
        Some(key_type) => Some(key_type.primitive()),
        None => None,
    }
}
