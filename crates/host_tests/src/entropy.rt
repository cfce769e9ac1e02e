//! Random bytes of the system's device, and of devices in memory that tell their bytes.

use crate::ahead::{Calls, drawn, fails, refusing};
use crate::metered::counts;
use real_objects::{FileEntropy, Opens, RandomDevice};
use std::alloc::Global;
use std::fs;
use std::test::Fail;
use test_words::{counting, same_bytes};

// The sizes make up the 600 bytes of the device.
const SIZES: [usize; 8] = [0, 1, 2, 3, 255, 256, 64, 19];

#[test]
fn fills_go_on_where_the_one_before_ended(rt: HostRuntime) -> Result<(), Fail> {
    let bytes = counting(rt.alloc(), 600)?;
    let calls = Calls::new();
    let mut entropy = refusing(&bytes, 0, &calls);
    let all = drawn(rt.alloc(), &mut entropy, &SIZES)?;
    same_bytes(rt.alloc(), "all draws", "what they make up", &bytes, &all)?;
    counts("opens", calls.opens.get(), 1)?;
    fails(&mut entropy, "a byte behind the end", &mut [0; 1])
}

// A row has what it shows, the size of a draw, and the bytes that it gives, or `fails`.
const DRAWS: [(&str, usize, &str); 4] = [
    ("the open is refused", 3, "fails"),
    ("three bytes", 3, "byt"),
    ("two bytes are left", 3, "fails"),
    ("no byte", 0, ""),
];

/// Holds a draw to its row.
fn assert_draw<O: Opens>(
    alloc: Global,
    entropy: &mut FileEntropy<O>,
    row: (&str, usize, &str),
) -> Result<(), Fail> {
    let (shows, size, want) = row;
    if want == "fails" {
        return fails(entropy, shows, &mut vec![in alloc; 0u8; size]?);
    }
    let found = drawn(alloc, entropy, &[size])?;
    same_bytes(alloc, shows, "the draw", want.as_bytes(), &found)
}

#[test]
fn fails_at_an_end_in_mid_fill_and_at_a_refused_open(rt: HostRuntime) -> Result<(), Fail> {
    let calls = Calls::new();
    let mut entropy = refusing(b"bytes", 1, &calls);
    for row in &DRAWS {
        assert_draw(rt.alloc(), &mut entropy, *row)?;
    }
    counts("opens", calls.opens.get(), 2)
}

// Of 64 draws each bit of each byte is 0 in one and 1 in another, but for one time in 2^53.
#[test]
fn each_bit_of_a_draw_changes(rt: HostRuntime) -> Result<(), Fail> {
    let mut entropy = FileEntropy::new(RandomDevice::new(&rt));
    let all = drawn(rt.alloc(), &mut entropy, &[100; 64])?;
    for draw in 1..64 {
        is_new(&all, draw)?;
    }
    for place in 0..100 {
        changes(&all, place)?;
    }
    Ok(())
}

/// Holds a draw of 100 bytes to be unlike the one before it.
fn is_new(all: &[u8], draw: usize) -> Result<(), Fail> {
    let at = draw.saturating_mul(100);
    let before = all.get(at.saturating_sub(100)..at).unwrap_or_default();
    let here = all.get(at..at.saturating_add(100)).unwrap_or_default();
    if here == before {
        return Err(Fail::new(format_args!("draw {draw} is the one before it")));
    }
    Ok(())
}

/// Holds each bit of the byte at this place of 100 to be 1 in one draw and 0 in another.
fn changes(all: &[u8], place: usize) -> Result<(), Fail> {
    let mut ones = 0u8;
    let mut zeros = 0u8;
    for byte in all.iter().skip(place).step_by(100) {
        ones |= *byte;
        zeros |= !*byte;
    }
    counts("bits that were 1", ones as usize, 0xff)?;
    counts("bits that were 0", zeros as usize, 0xff)
}

// Two draws of 32 bytes are alike once in 2^256.
#[test]
fn draws_other_bytes_each_time(rt: HostRuntime) -> Result<(), Fail> {
    let mut entropy = FileEntropy::new(RandomDevice::new(&rt));
    let both = drawn(rt.alloc(), &mut entropy, &[32, 32])?;
    if both.get(..32) == both.get(32..) {
        return Err("two draws are alike".into());
    }
    Ok(())
}

/// Draws twice from a path of another file.
fn assert_no_device(rt: &HostRuntime, path: &str) -> Result<(), Fail> {
    let mut entropy = FileEntropy::new(RandomDevice::at(rt, path));
    let mut out = [0u8; 4];
    fails(&mut entropy, path, &mut out)?;
    fails(&mut entropy, path, &mut out)?;
    same_bytes(rt.alloc(), path, "what was filled", &[0u8; 4], &out)
}

// Linux' /dev/zero is 1:5 and /dev/null 1:3.
const OTHERS: [&str; 5] = ["/dev/zero", "/dev/null", "plain-file", ".", "no-device"];

#[test]
fn refuses_what_is_no_device_of_random_bytes(rt: HostRuntime) -> Result<(), Fail> {
    fs::write(&rt, "plain-file", "0123456789abcdef")?;
    for path in &OTHERS {
        assert_no_device(&rt, path)?;
    }
    Ok(fs::remove_file(&rt, "plain-file")?)
}
