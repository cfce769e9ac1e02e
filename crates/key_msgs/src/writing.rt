//! Key messages, written.

ghost use Rattle.std.specs.Prelude.{◌≡◌, ◌<◌, ◌≤◌, ◌^◌, ◌+◌, ◌++◌, ℕ, length, IfOk, OnOk};
ghost use Rattle.tink_spec.specs.Wire.{greatest_number};
ghost use Rattle.proto_wire.specs.Written.{uint32, content, message, written, written_all};
ghost use Rattle.key_msgs.specs.Contents.{nothing};
ghost use Rattle.key_msgs.specs.Keys.{type_of, contents_of, hash_number};
ghost use Rattle.key_msgs.specs.declared.key_type.KeyType.TheVariants as types;
ghost use Rattle.key_msgs.specs.Writing.{if_field, hmac_entries, params_entries, params_entry, plain_entries, plain_written, mac_contents, written_by, value_of, ListsWithin, IsLayout};

use crate::key::hash_number;
use crate::layout::{aes_ctr_layout, fields_of_type};
use crate::message::Message;
use crate::{KeyKind, KeyType, Layout};
use proto_wire::Writer;
use std::alloc::Global;
use tink_base::{Bytes, Hash, NoMemory};

/// The contents of a key's message.
fn contents_of<'k>(key: &'k KeyKind) -> Message<'k>
    ensures { result ≡ contents_of key.now }
{
    match key {
        KeyKind::AesGcm { key }
        | KeyKind::AesSiv { key }
        | KeyKind::CmacPrf { key }
        | KeyKind::AesGcmSiv { key } => with_key(key.as_slice()),
        KeyKind::AesEax { key, iv_size } => Message {
            iv_size: *iv_size,
            ..with_key(key.as_slice())
        },
        KeyKind::AesCtrHmac {
            aes,
            iv_size,
            hash,
            mac,
            tag_size,
        } => Message {
            iv_size: *iv_size,
            mac_hash: hash_number(*hash),
            mac: mac.as_slice(),
            mac_tag_size: *tag_size,
            ..with_key(aes.as_slice())
        },
        KeyKind::Hmac {
            key,
            hash,
            tag_size,
        } => Message {
            tag_size: *tag_size,
            ..with_hash(key, *hash)
        },
        KeyKind::AesCmac { key, tag_size } => Message {
            tag_size: *tag_size,
            ..with_key(key.as_slice())
        },
        KeyKind::HkdfPrf { key, hash, salt } => Message {
            salt: salt.as_slice(),
            ..with_hash(key, *hash)
        },
        KeyKind::HmacPrf { key, hash } => with_hash(key, *hash),
        KeyKind::GcmStream {
            key,
            segment,
            derived,
            hash,
        } => with_segment(key, *segment, *derived, *hash),
        KeyKind::CtrStream {
            key,
            segment,
            derived,
            hash,
            mac_hash,
            tag_size,
        } => Message {
            mac_hash: hash_number(*mac_hash),
            mac_tag_size: *tag_size,
            ..with_segment(key, *segment, *derived, *hash)
        },
    }
}

/// A message with only a key value.
fn with_key<'k>(key: &'k [u8]) -> Message<'k>
    ensures { result ≡ record nothing { key = key.now } }
{
    Message {
        version: 0,
        iv_size: 0,
        segment: 0,
        derived: 0,
        hash: 0,
        tag_size: 0,
        salt: &[],
        key,
        mac_hash: 0,
        mac_tag_size: 0,
        mac: &[],
    }
}

/// A message with a key value and a hash function.
fn with_hash<'k>(key: &'k Bytes, hash: Hash) -> Message<'k>
    ensures { result ≡ record nothing { key = key.now; hash = hash_number hash } }
{
    Message {
        hash: hash_number(hash),
        ..with_key(key.as_slice())
    }
}

/// The message of a key for streams, without its HMAC parts.
fn with_segment<'k>(key: &'k Bytes, segment: u32, derived: u32, hash: Hash) -> Message<'k>
    ensures { result ≡
        record nothing { key = key.now; segment = segment; derived = derived; hash = hash_number hash } }
{
    Message {
        segment,
        derived,
        ..with_hash(key, hash)
    }
}

/// Writes a number in the field of this number, and nothing if the field number is 0, which means a
/// field that the message doesn't have.
fn put_number(writer: &mut Writer, number: u32, value: u32) -> Result<(), NoMemory>
    requires most { number ≤ greatest_number }
    ensures { OnOk result
        (writer.new ≡ writer.old ++ written_all (if_field number (uint32 number value))) }
{
    if number == 0 {
        Ok(())
    } else {
        writer.uint32(number, value)
    }
}

/// Writes an inner message, even an empty one, in the field of this number, and nothing if the
/// field number is 0.
fn put_message(writer: &mut Writer, number: u32, payload: &[u8]) -> Result<(), NoMemory>
    requires most { number ≤ greatest_number }
    requires length_bound { length payload.now < 2 ^ 31 }
    ensures { OnOk result
        (writer.new ≡ writer.old ++ written_all (if_field number (message number payload.now))) }
{
    if number == 0 {
        Ok(())
    } else {
        writer.message(number, payload)
    }
}

/// Writes bytes in the field of this number, and nothing if the field number is 0.
fn put_bytes(writer: &mut Writer, number: u32, value: &[u8]) -> Result<(), NoMemory>
    requires most { number ≤ greatest_number }
    requires length_bound { length value.now < 2 ^ 31 }
    ensures { OnOk result
        (writer.new ≡ writer.old ++ written_all (if_field number (content number value.now))) }
{
    if number == 0 {
        Ok(())
    } else {
        writer.bytes(number, value)
    }
}

/// The message `hmac_params`.
fn write_hmac_params(alloc: Global, message: &Message<'_>) -> Result<Vec<u8>, NoMemory>
    ensures { IfOk result (λ bytes. bytes.items ≡ written_all (hmac_entries message.now)) }
{
    let mut writer = Writer::new(alloc);
    writer.uint32(1, message.mac_hash)?;
    writer.uint32(2, message.mac_tag_size)?;
    Ok(writer.finish())
}

/// The message `params`.
fn write_params(alloc: Global, layout: Layout, message: &Message<'_>) -> Result<Vec<u8>, NoMemory>
    requires layout { IsLayout layout }
    requires lists_bound { ListsWithin (2 ^ 30) message.now }
    ensures { IfOk result (λ bytes. bytes.items ≡ written_all (params_entries layout message.now)) }
{
    let mut writer = Writer::new(alloc);
    put_number(&mut writer, layout.iv_size, message.iv_size)?;
    put_number(&mut writer, layout.segment, message.segment)?;
    put_number(&mut writer, layout.derived, message.derived)?;
    put_number(&mut writer, layout.hash, message.hash)?;
    put_number(&mut writer, layout.tag_size, message.tag_size)?;
    put_bytes(&mut writer, layout.salt, message.salt)?;
    let hmac_params = write_hmac_params(alloc, message)?;
    put_message(&mut writer, layout.hmac_params, &hmac_params)?;
    Ok(writer.finish())
}

/// A message with one key value, by its field numbers.
fn write_plain(alloc: Global, layout: Layout, message: &Message<'_>) -> Result<Vec<u8>, NoMemory>
    requires layout { IsLayout layout }
    requires lists_bound { ListsWithin (2 ^ 30) message.now }
    ensures written { IfOk result (λ bytes. bytes.items ≡ plain_written layout message.now) }
{
    let params = write_params(alloc, layout, message)?;
    let mut writer = Writer::new(alloc);
    if layout.key_value < layout.params {
        writer.bytes(layout.key_value, message.key)?;
        put_message(&mut writer, layout.params, &params)?;
        Ok(writer.finish())
    } else {
        put_message(&mut writer, layout.params, &params)?;
        writer.bytes(layout.key_value, message.key)?;
        Ok(writer.finish())
    }
}

/// The contents of the message of the HMAC key beside a cipher.
fn mac_message<'k>(message: &Message<'k>) -> Message<'k>
    ensures { result ≡ mac_contents message.now }
{
    Message {
        hash: message.mac_hash,
        tag_size: message.mac_tag_size,
        ..with_key(message.mac)
    }
}

/// An AesCtrHmacAeadKey message.
fn write_ctr_hmac(alloc: Global, message: &Message<'_>) -> Result<Vec<u8>, NoMemory>
    requires lists_bound { ListsWithin (2 ^ 30) message.now }
    ensures { IfOk result (λ bytes. bytes.items ≡ written_by types.AesCtrHmac message.now) }
{
    let mac = mac_message(message);
    let aes_key = write_plain(alloc, aes_ctr_layout(), message)?;
    let hmac_key = write_plain(alloc, fields_of_type(KeyType::Hmac), &mac)?;
    let mut writer = Writer::new(alloc);
    writer.message(2, &aes_key)?;
    writer.message(3, &hmac_key)?;
    Ok(writer.finish())
}

/// Writes the message of a key: fields in the order of their numbers, omitting those that are 0 or
/// empty, such as the version, but with all inner messages, even empty ones.
///
/// The key values and the salt have at most 2^30 bytes each, so that each inner message has fewer
/// than 2^31. An error means that memory couldn't be allocated.
pub fn write_key(alloc: Global, key: &KeyKind) -> Result<Vec<u8>, NoMemory>
    requires lists_bound { ListsWithin (2 ^ 30) (contents_of key.now) }
    ensures { IfOk result (λ bytes. bytes.items ≡ value_of key.now) }
{
    let message = contents_of(key);
    match key.key_type() {
        KeyType::AesCtrHmac => write_ctr_hmac(alloc, &message),
        key_type => write_plain(alloc, fields_of_type(key_type), &message),
    }
}
