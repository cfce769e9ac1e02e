//! Decodes digits to bytes.

ghost use Rattle.std.specs.Prelude.{◌≡◌, ◌⊎◌, ◌*◌, ◌+◌, ◌%◌, ◌<◌, ◌≤◌, length, map, Result, IfErr, IfOk};
ghost use Rattle.std.specs.Bool.{OnTrue};
ghost use Rattle.std.specs.Simd.Lanes.{all_below, put_chunk};
ghost use Rattle.hex.specs.Hex.{decode_of};
ghost use Rattle.hex.specs.declared.error.FromHexError.TheVariants.{OddLength, OutOfMemory};
ghost use Rattle.hex_lanes.specs.Digits.{all_digits, joined, values};

use hex::FromHexError;
use std::alloc::Global;
use std::simd::prelude::*;

/// The bytes that the text spells, two digits each, in either case.
///
/// `OddLength` comes if and only if the text's length is odd; otherwise `InvalidHexCharacter`, with
/// the first such character and its place, if some character isn't a digit. `OutOfMemory` comes
/// only if memory for the bytes can't be allocated.
pub fn decode(alloc: Global, text: &[u8]) -> Result<Vec<u8>, FromHexError>
    ensures ok { IfOk result (λ bytes. decode_of text.now ≡ Ok bytes.items) }
    ensures err { IfErr result (λ e. (e ≡ OutOfMemory) ⊎ (decode_of text.now ≡ Err e)) }
    ensures odd { length text.now % 2 ≡ 1 → result ≡ Err OddLength }
{
    if text.len() % 2 == 0 {
        let mut bytes = vec![in alloc; 0u8; text.len() / 2]?;
        if decode_into(text, bytes.as_mut_slice()) {
            return Ok(bytes);
        }
    }
    hex::decode(alloc, text)
}

// Writes the bytes that digits spell into a slice of exactly their size; returns whether all are
// digits.
#[inline(never)]
fn decode_into(text: &[u8], bytes: &mut [u8]) -> bool
    requires size { length text.now ≡ 2 * length bytes.old }
    ensures digits { result ≡ all_digits text.now }
    ensures decoded { OnTrue result (bytes.new ≡ joined (values text.now)) }
{
    let whole = bytes.len() / 16;
    for i in 0..whole {
        let block = values(u8x32::from_slice(&text[32 * i..]));
        if !are_digits(block) {
            return false;
        }
        store(bytes, 16 * i, joined(block));
    }
    decode_tail(&text[32 * whole..], &mut bytes[16 * whole..])
}

// The same for fewer than 32 digits.
#[inline(always)]
fn decode_tail(text: &[u8], bytes: &mut [u8]) -> bool
    requires size { length text.now ≡ 2 * length bytes.old }
    requires short { length bytes.old < 16 }
    ensures digits { result ≡ all_digits text.now }
    ensures decoded { OnTrue result (bytes.new ≡ joined (values text.now)) }
{
    let mut filled = [b'0'; 32];
    filled[..text.len()].copy_from_slice(text);
    let block = values(u8x32::from_array(filled));
    if !are_digits(block) {
        return false;
    }
    let whole = joined(block).to_array();
    bytes.copy_from_slice(&whole[..bytes.len()]);
    true
}

// Puts a block in its place.
#[inline(always)]
fn store(bytes: &mut [u8], at: usize, block: u8x16)
    requires fits { at + 16 ≤ length bytes.old }
    ensures { bytes.new ≡ put_chunk at bytes.old block }
{
    block.copy_to_slice(&mut bytes[at..]);
}

// The value of each character if it is a digit, otherwise 255.
#[inline(always)]
fn values(text: u8x32) -> u8x32
    ensures { result ≡ values text }
{
    let number = text - u8x32::splat(b'0');
    let letter = (text | u8x32::splat(0x20)) - u8x32::splat(b'a');
    let other = letter
        .simd_lt(u8x32::splat(6))
        .select(letter + u8x32::splat(10), u8x32::splat(255));
    number.simd_lt(u8x32::splat(10)).select(number, other)
}

// Whether all are values of digits.
#[inline(always)]
fn are_digits(block: u8x32) -> bool
    ensures { result ≡ all_below 16 block }
{
    block.simd_ge(u8x32::splat(16)).to_bitmask() == 0
}

// The bytes of pairs of values, the high four bits first.
#[inline(always)]
fn joined(block: u8x32) -> u8x16
    ensures { OnTrue (all_below 16 block) (result ≡ joined block) }
{
    let high = block.swizzle([0, 2, 4, 6, 8, 10, 12, 14, 16, 18, 20, 22, 24, 26, 28, 30]);
    let low = block.swizzle([1, 3, 5, 7, 9, 11, 13, 15, 17, 19, 21, 23, 25, 27, 29, 31]);
    high * u8x16::splat(16) + low
}
