//! Published strings in hexadecimal; and decoding and encoding by lanes beside the kit's `hex`.

ghost use Rattle.std.specs.Prelude.{◌≤◌};

use hex_lanes::{decode, encode_onto};
use std::alloc::Global;
use std::test::Fail;
use test_words::{cell, same_bytes};

// RFC 4648, section 10: a string, and its digits in upper case.
const PUBLISHED: &str = "\
|
f|66
fo|666F
foo|666F6F
foob|666F6F62
fooba|666F6F6261
foobar|666F6F626172";

// The most bytes of a text that is tried: six whole blocks, and a part of one.
const MOST: usize = 100;

// Its digits, and one more.
const MOST_DIGITS: usize = 201;

// Digits of which every other letter is in upper case.
fn digit_at(i: usize) -> u8 {
    let all = if i % 4 < 2 {
        b"0123456789abcdef"
    } else {
        b"fedcba9876543210"
    };
    let digit = all[i % 16 * 7 / 3 % 16];
    if i % 3 == 0 {
        digit.to_ascii_uppercase()
    } else {
        digit
    }
}

// As many of them as the longest text has, and one more.
fn digits() -> [u8; MOST_DIGITS] {
    let mut text = [0; MOST_DIGITS];
    for (i, digit) in text.iter_mut().enumerate() {
        *digit = digit_at(i);
    }
    text
}

// Bytes of which none is met twice.
fn many_bytes() -> [u8; MOST] {
    let mut bytes = [0; MOST];
    for (i, byte) in bytes.iter_mut().enumerate() {
        *byte = (i % 256 * 37 % 256) as u8;
    }
    bytes
}

fn assert_as_hex(alloc: Global, text: &[u8], place: usize, byte: u8) -> Result<(), Fail> {
    if decode(alloc, text) == hex::decode(alloc, text) {
        return Ok(());
    }
    let size = text.len();
    Err(Fail::new(format_args!("{size} characters, of which {byte} is at {place}")))
}

// What stood before, and the digits behind it.
fn encoded(alloc: Global, before: &[u8], bytes: &[u8]) -> Result<Vec<u8>, Fail> {
    let mut written = before.to_vec(alloc)?;
    encode_onto(&mut written, bytes)?;
    Ok(written)
}

fn assert_encoded(
    alloc: Global,
    part: &str,
    before: &[u8],
    bytes: &[u8],
    want: &[u8],
) -> Result<(), Fail> {
    let written = encoded(alloc, before, bytes)?;
    same_bytes(alloc, "hexadecimal", part, want, &written)
}

fn assert_encoded_as_hex(alloc: Global, bytes: &[u8]) -> Result<(), Fail> {
    let want = hex::encode(alloc, bytes)?;
    assert_encoded(alloc, "what is written", b"", bytes, want.as_bytes())
}

fn assert_decoded(alloc: Global, digits: &str, text: &[u8]) -> Result<(), Fail> {
    let found = decode(alloc, digits.as_bytes())?;
    same_bytes(alloc, digits, "what is read", text, &found)
}

fn assert_lower_digits(alloc: Global, lower: &str, text: &[u8]) -> Result<(), Fail> {
    assert_decoded(alloc, lower, text)?;
    let want = [b"ok ".as_slice(), lower.as_bytes()].concat(alloc)?;
    assert_encoded(alloc, "what is written behind others", b"ok ", text, &want)
}

fn assert_string(alloc: Global, row: &str) -> Result<(), Fail> {
    let text = cell(row, 0)?.as_bytes();
    let digits = cell(row, 1)?;
    assert_decoded(alloc, digits, text)?;
    let lower = digits.to_ascii_lowercase(alloc)?;
    assert_lower_digits(alloc, &lower, text)
}

#[test]
fn reads_and_writes_the_strings_of_rfc_4648(rt: HostRuntime) -> Result<(), Fail> {
    for row in PUBLISHED.lines() {
        assert_string(rt.alloc(), row)?;
    }
    Ok(())
}

// So many bytes, twice as many digits, and one more.
fn assert_size(alloc: Global, size: usize) -> Result<(), Fail>
    requires { size ≤ 100 }
{
    assert_encoded_as_hex(alloc, &many_bytes()[..size])?;
    let mut text = digits();
    assert_as_hex(alloc, &text[..2 * size], 0, b'f')?;
    text[2 * size] = b'0';
    assert_as_hex(alloc, &text[..2 * size + 1], 2 * size, b'0')
}

#[test]
fn gives_at_each_size_what_hex_gives(rt: HostRuntime) -> Result<(), Fail> {
    for size in 0..MOST + 1 {
        assert_size(rt.alloc(), size)?;
    }
    Ok(())
}

fn assert_in_each_place(alloc: Global, text: &mut [u8], byte: u8) -> Result<(), Fail> {
    for place in 0..text.len() {
        let before = text[place];
        text[place] = byte;
        assert_as_hex(alloc, text, place, byte)?;
        text[place] = before;
    }
    Ok(())
}

#[test]
fn gives_of_each_byte_in_each_place_what_hex_gives(rt: HostRuntime) -> Result<(), Fail> {
    let mut digits = digits();
    let text = digits.get_mut(..70).ok_or("70 digits")?;
    for byte in 0..=255u8 {
        assert_encoded_as_hex(rt.alloc(), &[byte])?;
        assert_in_each_place(rt.alloc(), text, byte)?;
    }
    Ok(())
}
