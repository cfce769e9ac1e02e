//! Encodes bytes as digits.

ghost use Rattle.std.specs.Prelude.{◌≡◌, ◌*◌, ◌+◌, ◌<◌, ◌≤◌, ◌++◌, length, OnErr, OnOk};
ghost use Rattle.std.specs.Simd.Lanes.{put_chunk};
ghost use Rattle.hex.specs.Hex.{encode_lower};

use std::alloc::AllocError;
use std::simd::prelude::*;

/// Appends the digits of `bytes` to `text`, two for each byte, in lower case. If memory can't be
/// allocated, `text` is unchanged.
pub fn encode_onto(text: &mut Vec<u8>, bytes: &[u8]) -> Result<(), AllocError>
    ensures encoded { OnOk result (text.new.items ≡ text.old.items ++ encode_lower bytes.now) }
    ensures kept { OnErr result (text.new.items ≡ text.old.items) }
{
    let start = text.len();
    let Some(size) = bytes.len().checked_mul(2) else {
        return Err(AllocError);
    };
    let Some(end) = start.checked_add(size) else {
        return Err(AllocError);
    };
    text.resize(end, 0)?;
    encode_into(bytes, &mut text[start..]);
    Ok(())
}

// Writes the digits of bytes into a slice of exactly their size.
#[inline(never)]
fn encode_into(bytes: &[u8], digits: &mut [u8])
    requires size { length digits.old ≡ 2 * length bytes.now }
    ensures { digits.new ≡ encode_lower bytes.now }
{
    let whole = bytes.len() / 16;
    for i in 0..whole {
        store(digits, 32 * i, encoded(u8x16::from_slice(&bytes[16 * i..])));
    }
    encode_tail(&bytes[16 * whole..], &mut digits[32 * whole..]);
}

// The same for fewer than 16 bytes.
#[inline(always)]
fn encode_tail(bytes: &[u8], digits: &mut [u8])
    requires size { length digits.old ≡ 2 * length bytes.now }
    requires short { length bytes.now < 16 }
    ensures { digits.new ≡ encode_lower bytes.now }
{
    let mut filled = [0; 16];
    filled[..bytes.len()].copy_from_slice(bytes);
    let whole = encoded(u8x16::from_array(filled)).to_array();
    digits.copy_from_slice(&whole[..digits.len()]);
}

// Puts a block in its place.
#[inline(always)]
fn store(digits: &mut [u8], at: usize, block: u8x32)
    requires fits { at + 32 ≤ length digits.old }
    ensures { digits.new ≡ put_chunk at digits.old block }
{
    block.copy_to_slice(&mut digits[at..]);
}

// The digits of 16 bytes.
#[inline(always)]
fn encoded(bytes: u8x16) -> u8x32
    ensures { result ≡ encode_lower bytes }
{
    let high = bytes >> u8x16::splat(4);
    let low = bytes & u8x16::splat(15);
    let numbers = high.shuffle(
        low,
        [
            0, 16, 1, 17, 2, 18, 3, 19, 4, 20, 5, 21, 6, 22, 7, 23, 8, 24, 9, 25, 10, 26, 11, 27,
            12, 28, 13, 29, 14, 30, 15, 31,
        ],
    );
    numbers.simd_lt(u8x32::splat(10)).select(
        numbers + u8x32::splat(b'0'),
        numbers + u8x32::splat(b'a' - 10),
    )
}
