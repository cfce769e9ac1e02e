//! The binary form, written.

ghost use Rattle.std.specs.Prelude.{◌≡◌, IfOk};
ghost use Rattle.std.specs.List.{AllByRecursion};
ghost use Rattle.keyset_model.specs.Keyset.{IsShort};
ghost use Rattle.keyset_model.specs.Writing.{data_written, record_written, binary_of};

use crate::key::{
    KEY_DATA, KEY_ID, KEY_MATERIAL_TYPE, OUTPUT_PREFIX_TYPE, STATUS, TYPE_URL, VALUE,
};
use crate::reading::{KEY, PRIMARY_KEY_ID};
use crate::{Keyset, Record};
use proto_wire::Writer;
use std::alloc::Global;
use tink_base::NoMemory;

/// Writes the binary form of a keyset, a `Keyset` message of tink.proto: fields in the order of
/// their numbers, omitting those that are 0 or empty. A record without URL, value and material has
/// no key data.
///
/// A keyset's records have URLs and values of at most 2^30 bytes each. Here URL and value of a
/// record together have at most 2^31 - 256, so that each message has fewer than 2^31 bytes. An
/// error means that memory couldn't be allocated.
pub fn write_binary(alloc: Global, keyset: &Keyset) -> Result<Vec<u8>, NoMemory>
    requires short { AllByRecursion IsShort keyset.now.records }
    ensures { IfOk result (λ bytes. bytes.items ≡ binary_of keyset.now) }
{
    let mut writer = Writer::new(alloc);
    writer.uint32(PRIMARY_KEY_ID, keyset.primary())?;
    for i in 0..keyset.len() {
        let key = write_record(alloc, keyset.record_at(i))?;
        writer.message(KEY, &key)?;
    }
    Ok(writer.finish())
}

/// The `Key` message of a record.
fn write_record(alloc: Global, key: &Record) -> Result<Vec<u8>, NoMemory>
    requires short { IsShort key.now }
    ensures { IfOk result (λ bytes. bytes.items ≡ record_written key.now) }
{
    let mut writer = Writer::new(alloc);
    if !key.is_bare() {
        let key_data = write_data(alloc, key)?;
        writer.message(KEY_DATA, &key_data)?;
    }
    writer.uint32(STATUS, key.status)?;
    writer.uint32(KEY_ID, key.id)?;
    writer.uint32(OUTPUT_PREFIX_TYPE, key.prefix)?;
    Ok(writer.finish())
}

/// The `KeyData` message of a record.
fn write_data(alloc: Global, key: &Record) -> Result<Vec<u8>, NoMemory>
    requires short { IsShort key.now }
    ensures { IfOk result (λ bytes. bytes.items ≡ data_written key.now) }
{
    let mut writer = Writer::new(alloc);
    writer.bytes(TYPE_URL, key.url.as_str().as_bytes())?;
    writer.bytes(VALUE, key.value.as_slice())?;
    writer.uint32(KEY_MATERIAL_TYPE, key.material)?;
    Ok(writer.finish())
}
