//! Keys made from the contents of their messages.

ghost use Rattle.std.specs.Prelude.{◌≡◌};
ghost use Rattle.tink_base.specs.Hash.{hash_of_number};
ghost use Rattle.key_msgs.specs.declared.key_type.KeyType.TheVariants as types;
ghost use Rattle.key_msgs.specs.Keys.{key_from, known_hash};
ghost use Rattle.key_msgs.specs.Reading.{GivesKey};

use crate::message::Message;
use crate::{KeyFault, KeyKind, KeyType, Rule};
use std::alloc::Global;
use tink_base::{Bytes, Hash};

/// The key of this type with these contents.
pub(crate) fn key_from(
    alloc: Global,
    key_type: KeyType,
    message: &Message<'_>,
) -> Result<KeyKind, KeyFault>
    ensures { GivesKey result (key_from key_type message.now) }
{
    let key = Bytes::copy(alloc, message.key)?;
    match key_type {
        KeyType::AesGcm => Ok(KeyKind::AesGcm { key }),
        KeyType::AesEax => Ok(KeyKind::AesEax {
            key,
            iv_size: message.iv_size,
        }),
        KeyType::AesCtrHmac => ctr_hmac_from(alloc, key, message),
        KeyType::AesSiv => Ok(KeyKind::AesSiv { key }),
        KeyType::Hmac => hmac_from(key, message),
        KeyType::AesCmac => Ok(KeyKind::AesCmac {
            key,
            tag_size: message.tag_size,
        }),
        KeyType::HkdfPrf => hkdf_prf_from(alloc, key, message),
        KeyType::HmacPrf => hmac_prf_from(key, message),
        KeyType::CmacPrf => Ok(KeyKind::CmacPrf { key }),
        KeyType::GcmStream => gcm_stream_from(key, message),
        KeyType::CtrStream => ctr_stream_from(key, message),
        KeyType::AesGcmSiv => Ok(KeyKind::AesGcmSiv { key }),
    }
}

/// The hash function of this number, if there is one.
fn known_hash(number: u32) -> Result<Hash, Rule>
    ensures { result ≡ known_hash (hash_of_number number) }
{
    match Hash::from_number(number) {
        Some(hash) => Ok(hash),
        None => Err(Rule::Hash),
    }
}

/// The key of an AesCtrHmacAeadKey message with this AES-CTR key.
fn ctr_hmac_from(alloc: Global, key: Bytes, message: &Message<'_>) -> Result<KeyKind, KeyFault>
    requires of_message { key ≡ message.now.key }
    ensures { GivesKey result (key_from types.AesCtrHmac message.now) }
{
    let hash = known_hash(message.mac_hash)?;
    let mac = Bytes::copy(alloc, message.mac)?;
    Ok(KeyKind::AesCtrHmac {
        aes: key,
        iv_size: message.iv_size,
        hash,
        mac,
        tag_size: message.mac_tag_size,
    })
}

/// The key of an HmacKey message with this key value.
fn hmac_from(key: Bytes, message: &Message<'_>) -> Result<KeyKind, KeyFault>
    requires of_message { key ≡ message.now.key }
    ensures { GivesKey result (key_from types.Hmac message.now) }
{
    let hash = known_hash(message.hash)?;
    Ok(KeyKind::Hmac {
        key,
        hash,
        tag_size: message.tag_size,
    })
}

/// The key of an HkdfPrfKey message with this key value.
fn hkdf_prf_from(alloc: Global, key: Bytes, message: &Message<'_>) -> Result<KeyKind, KeyFault>
    requires of_message { key ≡ message.now.key }
    ensures { GivesKey result (key_from types.HkdfPrf message.now) }
{
    let hash = known_hash(message.hash)?;
    let salt = Bytes::copy(alloc, message.salt)?;
    Ok(KeyKind::HkdfPrf { key, hash, salt })
}

/// The key of an HmacPrfKey message with this key value.
fn hmac_prf_from(key: Bytes, message: &Message<'_>) -> Result<KeyKind, KeyFault>
    requires of_message { key ≡ message.now.key }
    ensures { GivesKey result (key_from types.HmacPrf message.now) }
{
    let hash = known_hash(message.hash)?;
    Ok(KeyKind::HmacPrf { key, hash })
}

/// The key of an AesGcmHkdfStreamingKey message with this key value.
fn gcm_stream_from(key: Bytes, message: &Message<'_>) -> Result<KeyKind, KeyFault>
    requires of_message { key ≡ message.now.key }
    ensures { GivesKey result (key_from types.GcmStream message.now) }
{
    let hash = known_hash(message.hash)?;
    Ok(KeyKind::GcmStream {
        key,
        segment: message.segment,
        derived: message.derived,
        hash,
    })
}

/// The key of an AesCtrHmacStreamingKey message with this key value.
fn ctr_stream_from(key: Bytes, message: &Message<'_>) -> Result<KeyKind, KeyFault>
    requires of_message { key ≡ message.now.key }
    ensures { GivesKey result (key_from types.CtrStream message.now) }
{
    let hash = known_hash(message.hash)?;
    let mac_hash = known_hash(message.mac_hash)?;
    Ok(KeyKind::CtrStream {
        key,
        segment: message.segment,
        derived: message.derived,
        hash,
        mac_hash,
        tag_size: message.mac_tag_size,
    })
}
