//! Key messages, read.

ghost use Rattle.std.specs.Prelude.{◌≡◌, IfOk};
ghost use Rattle.std.specs.List.{AllByRecursion};
ghost use Rattle.proto_wire.specs.Fields.{seen_all, IsOf};
ghost use Rattle.key_msgs.specs.Keys.{IsValid};
ghost use Rattle.key_msgs.specs.KeyTypes.{type_of_url};
ghost use Rattle.key_msgs.specs.Reading.{plain, ctr_hmac, contents_in, formed, checked, key_of, GivesKey, ReadsKey};

use crate::layout::{aes_ctr_layout, fields_of_type};
use crate::making::key_from;
use crate::message::Message;
use crate::rules::first_broken;
use crate::{KeyFault, KeyKind, KeyType, Layout};
use proto_wire::{Fields, fields};
use std::alloc::Global;

/// The version, in each message.
const VERSION: u32 = 1;

// The fields of `hmac_params`.
const HASH: u32 = 1;

const TAG_SIZE: u32 = 2;

// The fields of AesCtrHmacAeadKey.
const AES_CTR_KEY: u32 = 2;

const HMAC_KEY: u32 = 3;

/// Reads the message of a key with this type URL.
///
/// `NotKnown` comes if and only if no key type has the URL. `Bad` comes only if the message breaks
/// a rule of its type, and names the first one; a returned key breaks no rule.
pub fn read_key(alloc: Global, url: &str, value: &[u8]) -> Result<KeyKind, KeyFault>
    ensures key { ReadsKey result (type_of_url url.now) value.now }
    ensures valid { IfOk result IsValid }
{
    match KeyType::from_url(url) {
        Some(key_type) => read_key_of(alloc, key_type, value),
        None => Err(KeyFault::NotKnown),
    }
}

/// Reads the message of a key of this type.
fn read_key_of(alloc: Global, key_type: KeyType, value: &[u8]) -> Result<KeyKind, KeyFault>
    ensures key { GivesKey result (key_of key_type value.now) }
    ensures valid { IfOk result IsValid }
{
    let message = fields(alloc, value, 0, value.len())?;
    let message = read_message(alloc, value, key_type, &message)?;
    check(alloc, key_type, &message)
}

/// The contents of a message of this type.
fn read_message<'a>(
    alloc: Global,
    source: &'a [u8],
    key_type: KeyType,
    message: &Fields,
) -> Result<Message<'a>, KeyFault>
    requires of_source { AllByRecursion (IsOf source.now) message.now }
    ensures { GivesKey result (formed (contents_in key_type (seen_all source.now message.now))) }
{
    match key_type {
        KeyType::AesCtrHmac => read_ctr_hmac(alloc, source, message),
        _ => read_plain(alloc, source, message, fields_of_type(key_type)),
    }
}

/// The contents of a message with one key value, by its field numbers.
fn read_plain<'a>(
    alloc: Global,
    source: &'a [u8],
    message: &Fields,
    layout: Layout,
) -> Result<Message<'a>, KeyFault>
    requires of_source { AllByRecursion (IsOf source.now) message.now }
    ensures { GivesKey result (formed (plain layout (seen_all source.now message.now))) }
{
    let version = message.number_of(VERSION)?;
    let params = message.merged(alloc, source, layout.params)?;
    let iv_size = params.number_of(layout.iv_size)?;
    let segment = params.number_of(layout.segment)?;
    let derived = params.number_of(layout.derived)?;
    let hash = params.number_of(layout.hash)?;
    let tag_size = params.number_of(layout.tag_size)?;
    let (salt_start, salt_end) = params.span_of(layout.salt)?;
    let hmac_params = params.merged(alloc, source, layout.hmac_params)?;
    let mac_hash = hmac_params.number_of(HASH)?;
    let mac_tag_size = hmac_params.number_of(TAG_SIZE)?;
    let (key_start, key_end) = message.span_of(layout.key_value)?;
    Ok(Message {
        version,
        iv_size,
        segment,
        derived,
        hash,
        tag_size,
        salt: &source[salt_start..salt_end],
        key: &source[key_start..key_end],
        mac_hash,
        mac_tag_size,
        mac: &[],
    })
}

/// The contents of an AesCtrHmacAeadKey message.
fn read_ctr_hmac<'a>(
    alloc: Global,
    source: &'a [u8],
    message: &Fields,
) -> Result<Message<'a>, KeyFault>
    requires of_source { AllByRecursion (IsOf source.now) message.now }
    ensures { GivesKey result (formed (ctr_hmac (seen_all source.now message.now))) }
{
    let version = message.number_of(VERSION)?;
    let aes_message = message.merged(alloc, source, AES_CTR_KEY)?;
    let aes = read_plain(alloc, source, &aes_message, aes_ctr_layout())?;
    let mac_message = message.merged(alloc, source, HMAC_KEY)?;
    let mac = read_plain(alloc, source, &mac_message, fields_of_type(KeyType::Hmac))?;
    Ok(Message {
        version: version.max(aes.version.max(mac.version)),
        mac_hash: mac.hash,
        mac_tag_size: mac.tag_size,
        mac: mac.key,
        ..aes
    })
}

/// The key of these contents, or the first rule that they break.
fn check(alloc: Global, key_type: KeyType, message: &Message<'_>) -> Result<KeyKind, KeyFault>
    ensures key { GivesKey result (checked key_type message.now) }
    ensures valid { IfOk result IsValid }
{
    match first_broken(key_type, message) {
        Some(rule) => Err(KeyFault::Bad(rule)),
        None => key_from(alloc, key_type, message),
    }
}
