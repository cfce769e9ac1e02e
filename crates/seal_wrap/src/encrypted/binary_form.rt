//! The binary form of a wrapped keyset, written and read (tink.proto: EncryptedKeyset, KeysetInfo
//! and its KeyInfo).

ghost use Rattle.std.specs.Prelude.{◌≡◌, ◌≤◌, ◌+◌, ◌^◌, Ok, Err, length, IfOk, IfErr};
ghost use Rattle.std.specs.List.{AllByRecursion};
ghost use Rattle.tink_spec.specs.Messages.{bytes_in, number_in};
ghost use Rattle.proto_wire.specs.Fields.{seen_all, IsOf};
ghost use Rattle.proto_wire.specs.Written.{written_all};
ghost use Rattle.keyset_model.specs.Keyset.{HasSizes};
ghost use Rattle.keyset_model.specs.Writing.{binary_of};
ghost use Rattle.seal_wrap.specs.Info.{info_of, key_info_of};
ghost use Rattle.seal_wrap.specs.Wrapped.{info_written, key_info_entries, wrapped_binary};
ghost use Rattle.seal_wrap.specs.Unwrapped.{encrypted_in, has_info, has_sealed, is_encrypted, is_no_id, is_wrapped_binary, sealed_in_binary};
ghost use Rattle.seal_wrap.specs.Steps.{IsBytesOf, IsNoBytes};
ghost use Rattle.seal_wrap.specs.Wrapping.{IsRefusal};

use crate::UnwrapFault;
use keyset_model::{Keyset, Record};
use proto_wire::{Field, Fields, FieldsError, Kind, Wire, Writer, fields};
use std::alloc::Global;
use tink_base::NoMemory;

// The field numbers of `EncryptedKeyset`.
const ENCRYPTED_KEYSET: u32 = 2;

const KEYSET_INFO: u32 = 3;

// The field numbers of `KeysetInfo`; the first one is also a `Keyset`'s.
const PRIMARY_KEY_ID: u32 = 1;

const KEY_INFO: u32 = 2;

// The field numbers of `KeyInfo`.
const TYPE_URL: u32 = 1;

const STATUS: u32 = 2;

const KEY_ID: u32 = 3;

const OUTPUT_PREFIX_TYPE: u32 = 4;

/// The `EncryptedKeyset` message of sealed bytes and the info of a keyset.
pub fn write_wrapped_binary(
    alloc: Global,
    keyset: &Keyset,
    sealed: &[u8],
) -> Result<Vec<u8>, NoMemory>
    requires size_bound { length (binary_of keyset.now) ≤ 2 ^ 30 }
    requires sealed_bound { length sealed.now ≤ 2 ^ 30 + 96 }
    ensures { IfOk result (λ text. text.items ≡ wrapped_binary sealed.now (info_of keyset.now)) }
{
    let info = write_info(alloc, keyset)?;
    let mut writer = Writer::new(alloc);
    writer.bytes(ENCRYPTED_KEYSET, sealed)?;
    writer.message(KEYSET_INFO, &info)?;
    Ok(writer.finish())
}

/// The `KeysetInfo` message of a keyset.
fn write_info(alloc: Global, keyset: &Keyset) -> Result<Vec<u8>, NoMemory>
    ensures info { IfOk result (λ info. info.items ≡ info_written (info_of keyset.now)) }
    ensures few { length keyset.now.records ≤ 1000 }
{
    let count = keyset.len();
    let mut writer = Writer::new(alloc);
    writer.uint32(PRIMARY_KEY_ID, keyset.primary())?;
    for i in 0..count {
        let key = write_key_info(alloc, keyset.record_at(i))?;
        writer.message(KEY_INFO, &key)?;
    }
    Ok(writer.finish())
}

/// The `KeyInfo` message of a record.
fn write_key_info(alloc: Global, key: &Record) -> Result<Vec<u8>, NoMemory>
    requires sizes { HasSizes key.now }
    ensures { IfOk result (λ info.
        info.items ≡ written_all (key_info_entries (key_info_of key.now))) }
{
    let mut writer = Writer::new(alloc);
    writer.bytes(TYPE_URL, key.url.as_str().as_bytes())?;
    writer.uint32(STATUS, key.status)?;
    writer.uint32(KEY_ID, key.id)?;
    writer.uint32(OUTPUT_PREFIX_TYPE, key.prefix)?;
    Ok(writer.finish())
}

/// The encrypted bytes of an `EncryptedKeyset` message: those of its last field of that number,
/// empty if there is none.
///
/// `OuterWire` comes if and only if the message can't be cut into fields, or one of the two known
/// fields isn't bytes, with the place of the first field at fault. The info's bytes aren't
/// examined.
pub fn read_wrapped_binary(alloc: Global, text: &[u8]) -> Result<&[u8], UnwrapFault>
    ensures sealed { IfOk result (λ sealed. sealed_in_binary text.now ≡ Ok sealed.now) }
    ensures refusal { IfErr result (λ fault. IsRefusal fault (sealed_in_binary text.now)) }
    ensures short { IfOk result (λ sealed. length sealed.now ≤ length text.now) }
{
    let message = match fields(alloc, text, 0, text.len()) {
        Ok(message) => message,
        Err(FieldsError::Wire(wire)) => return Err(UnwrapFault::OuterWire(wire.at)),
        Err(FieldsError::NoMemory) => return Err(UnwrapFault::NoMemory),
    };
    match encrypted_bytes(text, &message) {
        Ok(sealed) => Ok(sealed),
        Err(wire) => Err(UnwrapFault::OuterWire(wire.at)),
    }
}

/// The encrypted bytes of these fields. `Wire` holds the first of the two known fields that isn't
/// bytes.
fn encrypted_bytes<'t>(text: &'t [u8], message: &Fields) -> Result<&'t [u8], Wire>
    requires of_source { AllByRecursion (IsOf text.now) message.now }
    ensures sealed { IfOk result (λ sealed.
        encrypted_in (seen_all text.now message.now) ≡ Ok sealed.now) }
    ensures fault { IfErr result (λ wire.
        encrypted_in (seen_all text.now message.now) ≡ Err wire.at) }
    ensures short { IfOk result (λ sealed. length sealed.now ≤ length text.now) }
{
    let mut sealed: &[u8] = b"";
    for i in 0..message.len() {
        let field = message.field(i);
        if field.number == ENCRYPTED_KEYSET {
            sealed = bytes_at(text, field)?;
        } else if field.number == KEYSET_INFO {
            bytes_at(text, field)?;
        }
    }
    Ok(sealed)
}

/// The bytes of a field.
fn bytes_at(text: &[u8], field: Field) -> Result<&[u8], Wire>
    requires of_source { IsOf text.now field }
    ensures bytes { IfOk result (λ content. IsBytesOf text.now field content.now) }
    ensures other { IfErr result (λ wire. IsNoBytes text.now field wire.at) }
{
    if field.kind != Kind::Bytes {
        return Err(Wire { at: field.at });
    }
    Ok(&text[field.start..field.end])
}

/// Whether the text is an encrypted keyset in the binary form: an `EncryptedKeyset` message with at
/// least one encrypted byte, without the primary id of a `Keyset`, and, if `informed`, with an
/// info.
///
/// The keys of a keyset in clear have the field number of the encrypted bytes, so ask for an info
/// if all fields of that number are keys. No master is needed: what is in clear is examined but not
/// trusted.
#[tactic(auto, unfolding(crate::specs::Unwrapped::is_wrapped_binary))]
pub fn is_wrapped_binary(alloc: Global, text: &[u8], informed: bool) -> Result<bool, NoMemory>
    ensures { IfOk result (λ wrapped. wrapped ≡ is_wrapped_binary text.now informed) }
{
    match fields(alloc, text, 0, text.len()) {
        Ok(message) => Ok(is_encrypted(text, &message, informed)),
        Err(FieldsError::Wire(_)) => Ok(false),
        Err(FieldsError::NoMemory) => Err(NoMemory),
    }
}

/// Whether these are the fields of an encrypted keyset.
fn is_encrypted(text: &[u8], message: &Fields, informed: bool) -> bool
    requires of_source { AllByRecursion (IsOf text.now) message.now }
    ensures { result ≡ is_encrypted informed (seen_all text.now message.now) }
{
    has_sealed(text, message) && is_no_id(text, message) && (!informed || has_info(text, message))
}

/// Whether there is at least one encrypted byte.
fn has_sealed(text: &[u8], message: &Fields) -> bool
    requires of_source { AllByRecursion (IsOf text.now) message.now }
    ensures { result ≡ has_sealed (encrypted_in (seen_all text.now message.now)) }
{
    match encrypted_bytes(text, message) {
        Ok(sealed) => !sealed.is_empty(),
        Err(_) => false,
    }
}

/// Whether the primary id is missing or 0.
fn is_no_id(text: &[u8], message: &Fields) -> bool
    ensures { result ≡ is_no_id (number_in 1 (seen_all text.now message.now)) }
{
    match message.number_of(PRIMARY_KEY_ID) {
        Ok(id) => id == 0,
        Err(_) => false,
    }
}

/// Whether there is an info of at least one byte.
fn has_info(text: &[u8], message: &Fields) -> bool
    requires of_source { AllByRecursion (IsOf text.now) message.now }
    ensures { result ≡ has_info (bytes_in 3 (seen_all text.now message.now)) }
{
    match message.span_of(KEYSET_INFO) {
        Ok((start, end)) => start < end,
        Err(_) => false,
    }
}
