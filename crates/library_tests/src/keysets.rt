//! What a keyset gives of its records, where its primary one is, and keysets made of records and copied.

ghost use Rattle.std.specs.Prelude.{◌≤◌, length, IfOk};
ghost use Rattle.std.specs.List.{AllByRecursion};
ghost use Rattle.keyset_model.specs.Keyset.{IsShort, IsWithin};

use crate::rows::{count, few, holds};
use keyset_model::{Keyset, ReadError, Record, read_binary, write_binary};
use std::alloc::Global;
use std::test::Fail;
use test_words::{bytes_of, cell, digits_of, same_bytes, same_text};
use tink_base::{Bytes, DESTROYED, ENABLED, LEGACY, NoMemory, RAW, TINK, Text};

// One AES-GCM key of 16 zero bytes, as protoc 3.21.12 encodes it.
const KEYSET: &[u8] = b"\x08\x84\x86\x88\x08\x12\x53\x0a\x48\x0a\x30\
    type.googleapis.com/google.crypto.tink.AesGcmKey\
    \x12\x12\x1a\x10\0\0\0\0\0\0\0\0\0\0\0\0\0\0\0\0\x18\x01\x10\x01\x18\x84\x86\x88\x08\x20\x01";

/// The keyset of its binary form.
fn keyset_of(alloc: Global, bytes: &[u8]) -> Result<Keyset, Fail>
    ensures short { IfOk result (λ keyset. AllByRecursion IsShort keyset.records) }
{
    Ok(read_binary(alloc, &few(bytes.to_vec(alloc)?)?)?)
}

/// The id, status, prefix type, URL, value and material of a record.
fn record_text(alloc: Global, key: &Record) -> Result<String, Fail> {
    let value = digits_of(alloc, key.value.as_slice())?;
    let url = key.url.as_str();
    Ok(format!(in alloc;
        "{} {} {} {url} {value} {}",
        key.id, key.status, key.prefix, key.material
    )?)
}

#[test]
fn gives_what_was_read(rt: HostRuntime) -> Result<(), Fail> {
    let keyset = keyset_of(rt.alloc(), KEYSET)?;
    assert_eq!(rt; (keyset.primary(), keyset.len()), (16909060, 1));
    assert_eq!(rt; (keyset.find(16909060), keyset.find(1)), (Some(0), None));
    assert_eq!(rt; keyset.primary_record().id, 16909060);
    let text = record_text(rt.alloc(), keyset.record_at(0))?;
    let want = "16909060 1 1 type.googleapis.com/google.crypto.tink.AesGcmKey \
        1a1000000000000000000000000000000000 1";
    same_text("one key", "the record", want, text.as_str())
}

/// A record of these fields.
fn key(
    alloc: Global,
    ids: (u32, u32, u32),
    url: &str,
    value: &[u8],
    material: u32,
) -> Result<Record, NoMemory>
    requires url_bound { length url.now ≤ 100 }
    requires value_bound { length value.now ≤ 100 }
    ensures within { IfOk result (IsWithin 100) }
{
    let (id, status, prefix) = ids;
    Ok(Record {
        id,
        status,
        prefix,
        url: Text::copy(alloc, url)?,
        value: Bytes::copy(alloc, value)?,
        material,
    })
}

// A row has a primary id, the id and the status of each record, as varints in hexadecimal, and the place of the
// primary one: the ENABLED record of that id. They are what edits of small keysets leave, and several records
// have one id in some.
const PLACES: &str = "\
07|07/01 08/02 09/03 0a/02 0b/02 0c/02|0
07|07/01 08/01 09/03 0a/02 0b/02 0c/02|0
07|07/01 08/02 09/03 0a/02 0b/02 0c/03|0
07|07/01 08/02 0a/02 0b/02 0c/02|0
01|01/01 02/01|0
07|07/01 80808008/01|0
80808008|07/01 80808008/01|1
08|07/02 07/01 08/01|2
08|07/01 07/01 08/01|2
08|07/01 08/01|1
07|07/01 08/01|0
07|07/01 08/02|0
08|07/03 07/01 08/01|2
08|08/01 07/01|0
07|08/01 07/01|1
09|09/01 09/02|0
09|09/01 09/02 08/01|0
08|09/02 09/02 08/01|2
08|09/02 08/01|1
08|09/01 08/01|1
09|09/01 08/01|0";

/// The keyset of a row, of records of the URL `a` without a value.
fn keyset_in(alloc: Global, row: &str) -> Result<Keyset, Fail> {
    let mut digits = format!(in alloc; "08{}", cell(row, 0)?)?;
    for word in cell(row, 1)?.split(' ') {
        let (id, status) = word.split_once('/').ok_or("a status")?;
        let key = format!(in alloc; "0a050a0161180110{status}18{id}2001")?;
        digits.push_str(format!(in alloc; "12{:02x}{key}", key.len() / 2)?.as_str())?;
    }
    keyset_of(alloc, &bytes_of(alloc, digits.as_str())?)
}

#[test]
fn finds_the_place_of_the_primary(rt: HostRuntime) -> Result<(), Fail> {
    count(PLACES, 21)?;
    for row in PLACES.lines() {
        let place = keyset_in(rt.alloc(), row)?.primary_at();
        holds(
            row,
            2,
            "the place",
            format!(in rt.alloc(); "{place}")?.as_str(),
        )?;
    }
    Ok(())
}

// An ENABLED key, a DESTROYED one that is bare, and a DESTROYED one that still has its key data.
const RETIRED: &[u8] = b"\x08\x05\
    \x12\x10\x0a\x08\x0a\x01a\x12\x01k\x18\x01\x10\x01\x18\x05\x20\x03\
    \x12\x06\x10\x03\x18\x06\x20\x01\
    \x12\x12\x0a\x0a\x0a\x01a\x12\x03old\x18\x01\x10\x03\x18\x07\x20\x02";

/// The keyset of RETIRED.
fn retired(alloc: Global) -> Result<Keyset, ReadError>
    ensures within { IfOk result (λ keyset. AllByRecursion (IsWithin 100) keyset.records) }
{
    let mut records = Vec::new(alloc);
    records.push(key(alloc, (5, ENABLED, RAW), "a", b"k", 1)?)?;
    records.push(key(alloc, (6, DESTROYED, TINK), "", b"", 0)?)?;
    records.push(key(alloc, (7, DESTROYED, LEGACY), "a", b"old", 1)?)?;
    Ok(Keyset::build(5, records)?)
}

#[test]
fn a_keyset_made_of_records_is_written(rt: HostRuntime) -> Result<(), Fail> {
    let written = write_binary(rt.alloc(), &retired(rt.alloc())?)?;
    same_bytes(rt.alloc(), "three records", "the keyset", RETIRED, &written)
}

#[test]
fn a_copy_is_the_same_keyset(rt: HostRuntime) -> Result<(), Fail> {
    let keyset = keyset_of(rt.alloc(), RETIRED)?;
    let copy = keyset.copy(rt.alloc())?;
    drop(keyset);
    let written = write_binary(rt.alloc(), &copy)?;
    same_bytes(rt.alloc(), "a copy", "the keyset", RETIRED, &written)?;
    assert_eq!(rt; copy.len(), 3);
    let key = copy.record_at(2).copy(rt.alloc())?;
    let text = record_text(rt.alloc(), &key)?;
    same_text(
        "a copy",
        "the last record",
        "7 3 2 a 6f6c64 1",
        text.as_str(),
    )
}
