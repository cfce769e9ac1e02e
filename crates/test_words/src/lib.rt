//! The words of tests' tables: bytes from digits, cells of rows, names of hash functions, and
//! lists that differ a little from others. No program uses them.
#![tactic(auto)]

use std::alloc::Global;
use std::str::from_utf8;
use std::test::Fail;
use tink_base::{Created, Hash, Loaded, StoreError};

/// The names of the hash functions in FIPS 180-4.
const HASHES: [(&str, Hash); 5] = [
    ("SHA-1", Hash::Sha1),
    ("SHA-224", Hash::Sha224),
    ("SHA-256", Hash::Sha256),
    ("SHA-384", Hash::Sha384),
    ("SHA-512", Hash::Sha512),
];

/// The bytes of hexadecimal digits, as often as a `*` says: `4b*128` is a byte 128 times, and an
/// empty cell is no byte.
pub fn bytes_of(alloc: Global, cell: &str) -> Result<Vec<u8>, Fail> {
    let (digits, times) = cell.split_once('*').unwrap_or((cell, "1"));
    let piece = hex::decode(alloc, digits)?;
    Ok(piece.repeat(alloc, times.parse::<usize>()?)?)
}

/// The digits of bytes, in lower case.
pub fn digits_of(alloc: Global, bytes: &[u8]) -> Result<String, Fail> {
    Ok(hex::encode(alloc, bytes)?)
}

/// The cell of a row at this place, without spaces around it. Cells stand between `|`.
pub fn cell(row: &str, place: usize) -> Result<&str, Fail> {
    Ok(row.split('|').nth(place).ok_or("a cell")?.trim())
}

/// The decimal number in the cell at this place.
pub fn number_in(row: &str, place: usize) -> Result<usize, Fail> {
    Ok(cell(row, place)?.parse::<usize>()?)
}

/// The hash function of this name.
pub fn hash_named(name: &str) -> Result<Hash, Fail> {
    for (known, hash) in &HASHES {
        if *known == name {
            return Ok(*hash);
        }
    }
    Err(Fail::new(format_args!("the hash function {name}")))
}

/// The bytes with the lowest bit turned in the byte at this place.
pub fn turned(alloc: Global, bytes: &[u8], at: usize) -> Result<Vec<u8>, Fail> {
    let mut other = bytes.to_vec(alloc)?;
    *other.get_mut(at).ok_or("a byte at the place")? ^= 1;
    Ok(other)
}

/// The bytes with a zero byte behind them.
pub fn longer(alloc: Global, bytes: &[u8]) -> Result<Vec<u8>, Fail> {
    let mut more = bytes.to_vec(alloc)?;
    more.push(0)?;
    Ok(more)
}

/// The bytes 0, 1, 2, .. 250, 0, .., as many as that.
pub fn counting(alloc: Global, size: usize) -> Result<Vec<u8>, Fail> {
    let mut bytes = Vec::new(alloc);
    for i in 0..size {
        bytes.push((i % 251) as u8)?;
    }
    Ok(bytes)
}

/// The failure of a row, where this part of it isn't as expected.
pub fn unlike(row: &str, part: &str, expected: &str, found: &str) -> Fail {
    Fail::new(format_args!("{row}: {part} is {found}, and not {expected}"))
}

/// Nothing where this text is as expected, and else the failure of the row.
pub fn same_text(row: &str, part: &str, expected: &str, found: &str) -> Result<(), Fail> {
    if found == expected {
        return Ok(());
    }
    Err(unlike(row, part, expected, found))
}

/// Nothing where these bytes are as expected, and else the failure of the row: it tells how many
/// there are, and a few from the first that differs.
pub fn same_bytes(
    alloc: Global,
    row: &str,
    part: &str,
    expected: &[u8],
    found: &[u8],
) -> Result<(), Fail> {
    if found == expected {
        return Ok(());
    }
    let at = first_unlike(expected, found);
    let expected = from_there(alloc, expected, at)?;
    let found = from_there(alloc, found, at)?;
    Err(unlike(row, part, &expected, &found))
}

/// The place of the first byte that differs, or the end of the shorter list.
fn first_unlike(expected: &[u8], found: &[u8]) -> usize {
    for (at, (one, other)) in expected.iter().zip(found).enumerate() {
        if one != other {
            return at;
        }
    }
    expected.len().min(found.len())
}

/// How many bytes there are, and a few of them from this place on: as a text where they are one.
fn from_there(alloc: Global, bytes: &[u8], at: usize) -> Result<String, Fail> {
    let size = bytes.len();
    let rest = bytes.get(at..).unwrap_or(b"");
    let rest = rest.get(..24).unwrap_or(rest);
    match from_utf8(rest) {
        Ok(text) => Ok(format!(in alloc; "{size} bytes, from {at} on {text:?}")?),
        Err(_) => Ok(format!(in alloc; "{size} bytes, from {at} on {}", digits_of(alloc, rest)?)?),
    }
}

/// What a create of a store answers, as a word.
pub fn create_word(answer: &Result<Created, StoreError>) -> &'static str {
    match answer {
        Ok(Created::Made) => "made",
        Ok(Created::Exists) => "exists",
        Err(StoreError::Failed) => "failed",
        Err(StoreError::NoMemory) => "no memory",
    }
}

/// What a load of a store answers, as a word, where the file is to have these bytes.
pub fn load_word(answer: &Result<Loaded, StoreError>, bytes: &[u8]) -> &'static str {
    match answer {
        Ok(Loaded::Absent) => "absent",
        Ok(Loaded::TooLong) => "too long",
        Ok(Loaded::Bytes(found)) if found.as_slice() == bytes => "bytes",
        Ok(Loaded::Bytes(_)) => "other bytes",
        Err(StoreError::Failed) => "failed",
        Err(StoreError::NoMemory) => "no memory",
    }
}
