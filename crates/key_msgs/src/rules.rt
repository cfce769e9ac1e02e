//! The rules of key messages, tried in their order.

ghost use Rattle.std.specs.Prelude.{◌≡◌};
ghost use Rattle.key_msgs.specs.Rules.{first_broken, hash_fits, key_fits, iv_fits, tag_fits, derived_fits, segment_fits, is_hash, is_hkdf_hash, is_tag_of, is_within};
ghost use Rattle.tink_base.specs.Hash.{hash_of_number};

use crate::message::Message;
use crate::{KeyType, Rule};
use tink_base::Hash;

/// The first rule that the message breaks.
pub(crate) fn first_broken(key_type: KeyType, message: &Message<'_>) -> Option<Rule>
    ensures { result ≡ first_broken key_type message.now }
{
    if message.version != 0 {
        Some(Rule::Version)
    } else if !hash_fits(key_type, message) {
        Some(Rule::Hash)
    } else if !key_fits(key_type, message) {
        Some(Rule::KeySize)
    } else if !iv_fits(key_type, message) {
        Some(Rule::IvSize)
    } else if !tag_fits(key_type, message) {
        Some(Rule::TagSize)
    } else if !derived_fits(key_type, message) {
        Some(Rule::DerivedSize)
    } else if !segment_fits(key_type, message) {
        Some(Rule::Segment)
    } else {
        None
    }
}

/// Whether the key type takes the hash functions.
fn hash_fits(key_type: KeyType, message: &Message<'_>) -> bool
    ensures { result ≡ hash_fits key_type message.now }
{
    match key_type {
        KeyType::AesCtrHmac => is_hash(message.mac_hash),
        KeyType::Hmac | KeyType::HmacPrf => is_hash(message.hash),
        KeyType::HkdfPrf => message.hash == 3 || message.hash == 4,
        KeyType::GcmStream => is_hkdf_hash(message.hash),
        KeyType::CtrStream => is_hkdf_hash(message.hash) && is_hash(message.mac_hash),
        KeyType::AesGcm
        | KeyType::AesEax
        | KeyType::AesSiv
        | KeyType::AesCmac
        | KeyType::CmacPrf
        | KeyType::AesGcmSiv => true,
    }
}

/// Whether one of the five hash functions has this number.
fn is_hash(number: u32) -> bool
    ensures { result ≡ is_hash number }
{
    Hash::from_number(number).is_some()
}

/// Whether SHA-1, SHA-256 or SHA-512 has this number.
fn is_hkdf_hash(number: u32) -> bool
    ensures { result ≡ is_hkdf_hash number }
{
    number == 1 || number == 3 || number == 4
}

/// Whether the keys have sizes that the key type takes.
fn key_fits(key_type: KeyType, message: &Message<'_>) -> bool
    ensures { result ≡ key_fits key_type message.now }
{
    let size = message.key.len();
    match key_type {
        KeyType::AesGcm | KeyType::AesEax | KeyType::AesGcmSiv => size == 16 || size == 32,
        KeyType::AesCtrHmac => (size == 16 || size == 32) && message.mac.len() >= 16,
        KeyType::AesSiv => size == 64,
        KeyType::Hmac | KeyType::HmacPrf => size >= 16,
        KeyType::AesCmac | KeyType::CmacPrf => size == 32,
        KeyType::HkdfPrf => size >= 32,
        KeyType::GcmStream | KeyType::CtrStream => size >= message.derived as usize,
    }
}

/// Whether the IV has a size that the key type takes.
fn iv_fits(key_type: KeyType, message: &Message<'_>) -> bool
    ensures { result ≡ iv_fits key_type message.now }
{
    match key_type {
        KeyType::AesEax => message.iv_size == 12 || message.iv_size == 16,
        KeyType::AesCtrHmac => message.iv_size >= 12 && message.iv_size <= 16,
        _ => true,
    }
}

/// Whether the tag has a size that the key type takes.
fn tag_fits(key_type: KeyType, message: &Message<'_>) -> bool
    ensures { result ≡ tag_fits key_type message.now }
{
    match key_type {
        KeyType::AesCtrHmac | KeyType::CtrStream => {
            is_tag_of(message.mac_hash, message.mac_tag_size)
        }
        KeyType::Hmac => is_tag_of(message.hash, message.tag_size),
        KeyType::AesCmac => message.tag_size >= 10 && message.tag_size <= 16,
        _ => true,
    }
}

/// Whether a tag of HMAC has at least 10 bytes, and at most as many as the digest if the hash is
/// known.
fn is_tag_of(hash: u32, size: u32) -> bool
    ensures { result ≡ is_tag_of (hash_of_number hash) size }
{
    match Hash::from_number(hash) {
        Some(hash) => size >= 10 && size as usize <= hash.size(),
        None => true,
    }
}

/// Whether the derived key has a size that the key type takes.
fn derived_fits(key_type: KeyType, message: &Message<'_>) -> bool
    ensures { result ≡ derived_fits key_type message.now }
{
    match key_type {
        KeyType::GcmStream | KeyType::CtrStream => message.derived == 16 || message.derived == 32,
        _ => true,
    }
}

/// Whether a segment has a size that the key type takes: more than the stream's header and a tag.
fn segment_fits(key_type: KeyType, message: &Message<'_>) -> bool
    ensures { result ≡ segment_fits key_type message.now }
{
    let derived = u64::from(message.derived);
    let segment = u64::from(message.segment);
    match key_type {
        KeyType::GcmStream => derived + 24 < segment && segment < 1 << 31,
        KeyType::CtrStream => {
            derived + 8 + u64::from(message.mac_tag_size) < segment && segment < 1 << 31
        }
        _ => true,
    }
}
