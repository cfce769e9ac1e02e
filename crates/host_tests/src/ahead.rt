//! Random bytes that are drawn ahead, over a device in memory that counts its reads.

ghost use Rattle.std.specs.Prelude.{Some};
ghost use Rattle.host_tests.specs.Told.{goes_on};

use crate::metered::{Metered, WHOLE, are_those_from, counts};
use real_objects::{FileEntropy, Opens};
use std::alloc::Global;
use std::cell::Cell;
use std::io::{self, ErrorKind};
use std::test::Fail;
use test_words::counting;
use tink_base::Entropy;

/// How often a device was opened, and how often it was read.
#[derive(Drop)]
pub(crate) struct Calls {
    pub(crate) opens: Cell<usize>,
    pub(crate) reads: Cell<usize>,
}

impl Calls {
    pub(crate) fn new() -> Calls {
        Calls {
            opens: Cell::new(0),
            reads: Cell::new(0),
        }
    }
}

/// What opens a device in memory. The first opens are refused, as many as that.
#[derive(Drop)]
pub(crate) struct OpensMetered<'a> {
    bytes: &'a [u8],
    piece: usize,
    fails: usize,
    refused: usize,
    calls: &'a Calls,
}

impl<'a> Opens for OpensMetered<'a> {
    type Device = Metered<'a>;

    ghost given = { λ s. Some s.bytes.now };

    ghost untold = { λ s t none. goes_on s.bytes.now t.bytes.now none };

    fn open(&self) -> io::Result<Metered<'a>> {
        let before = self.calls.opens.get();
        self.calls.opens.set(before.wrapping_add(1));
        if before < self.refused {
            return Err(io::Error::from(ErrorKind::NotFound));
        }
        Ok(Metered {
            left: self.bytes,
            piece: self.piece,
            fails: self.fails,
            reads: &self.calls.reads,
        })
    }
}

/// The random bytes of such a device, one of whose reads fails.
pub(crate) fn failing<'a>(
    bytes: &'a [u8],
    piece: usize,
    fails: usize,
    calls: &'a Calls,
) -> FileEntropy<OpensMetered<'a>> {
    FileEntropy::new(OpensMetered {
        bytes,
        piece,
        fails,
        refused: 0,
        calls,
    })
}

/// The random bytes of such a device, which gives as many at once as are asked for.
pub(crate) fn refusing<'a>(
    bytes: &'a [u8],
    refused: usize,
    calls: &'a Calls,
) -> FileEntropy<OpensMetered<'a>> {
    FileEntropy::new(OpensMetered {
        bytes,
        piece: WHOLE,
        fails: 0,
        refused,
        calls,
    })
}

/// Draws so many bytes, and adds them to those drawn before.
fn draw<O: Opens>(
    alloc: Global,
    entropy: &mut FileEntropy<O>,
    size: usize,
    all: &mut Vec<u8>,
) -> Result<(), Fail> {
    let mut out = vec![in alloc; 0u8; size]?;
    if entropy.fill(&mut out).is_err() {
        return Err(Fail::new(format_args!("a draw of {size} bytes fails")));
    }
    Ok(all.extend_from_slice(&out)?)
}

/// Draws of all these sizes, and what they make up.
pub(crate) fn drawn<O: Opens>(
    alloc: Global,
    entropy: &mut FileEntropy<O>,
    sizes: &[usize],
) -> Result<Vec<u8>, Fail> {
    let mut all = Vec::new(alloc);
    for size in sizes {
        draw(alloc, entropy, *size, &mut all)?;
    }
    Ok(all)
}

/// Holds a draw into these bytes to a fault.
pub(crate) fn fails<O: Opens>(
    entropy: &mut FileEntropy<O>,
    shows: &str,
    out: &mut [u8],
) -> Result<(), Fail> {
    if entropy.fill(out).is_ok() {
        return Err(Fail::new(format_args!("{shows}: bytes were drawn")));
    }
    Ok(())
}

/// Holds draws of these sizes over reads of at most `piece` bytes to the device's bytes. Gives how often it
/// was read, and how many bytes were drawn.
fn holds(
    alloc: Global,
    bytes: &[u8],
    piece: usize,
    shows: &str,
    sizes: &[usize],
) -> Result<(usize, usize), Fail> {
    let calls = Calls::new();
    let mut entropy = failing(bytes, piece, 0, &calls);
    let all = drawn(alloc, &mut entropy, sizes)?;
    are_those_from(alloc, shows, bytes, 0, &all)?;
    Ok((calls.reads.get(), all.len()))
}

/// Draws of a row, so many times, over reads of any size, of 7 bytes, and of one, of which none is in vain.
fn assert_drawn(
    alloc: Global,
    bytes: &[u8],
    row: (&str, &[usize], usize, usize),
) -> Result<(), Fail> {
    let (shows, sizes, times, want) = row;
    let sizes = sizes.repeat(alloc, times)?;
    let (reads, _) = holds(alloc, bytes, WHOLE, shows, &sizes)?;
    counts(shows, reads, want)?;
    holds(alloc, bytes, 7, shows, &sizes)?;
    let (reads, size) = holds(alloc, bytes, 1, shows, &sizes)?;
    counts(shows, reads, size)
}

// What is held, after each draw, and the reads: 1,024 bytes are drawn ahead where none are held and at most
// 64 are wanted. Of the first row one round leaves 1,012, 980, 916, 851 and then, with one read for each
// large draw, none, four times. Of the second, 85 draws leave 4 bytes. The last leaves 1,012, and then each
// draw but one of 5,000 bytes uses them up and draws ahead again: 1,013, 1,013, 1,012, none.
const DRAWS: [(&str, &[usize], usize, usize); 6] = [
    (
        "sizes in turn",
        &[12, 32, 64, 65, 1_023, 1_024, 1_025, 5_000],
        3,
        15,
    ),
    ("12 bytes, a hundred times", &[12], 100, 2),
    ("what divides what is held", &[64], 40, 3),
    ("large draws alone", &[65], 40, 40),
    ("single bytes", &[1], 1_025, 2),
    ("large draws with a small rest", &LARGE, 1, 5),
];

#[test]
fn draws_each_byte_once_and_in_order(rt: HostRuntime) -> Result<(), Fail> {
    let bytes = counting(rt.alloc(), 30_000)?;
    for &row in &DRAWS {
        assert_drawn(rt.alloc(), &bytes, row)?;
    }
    Ok(())
}

/// The sizes of the last row, whose reads come one in each draw.
const LARGE: [usize; 5] = [12, 1_023, 1_024, 1_025, 5_000];

/// Draws of those sizes over a device that fails at one read. The draw at `place` fails, with so many bytes
/// gone, and is tried again.
fn goes_on_behind(
    alloc: Global,
    bytes: &[u8],
    fault: usize,
    place: usize,
    gone: usize,
) -> Result<(), Fail> {
    let calls = Calls::new();
    let (before, after) = LARGE.split_at_checked(place).ok_or("a draw at the place")?;
    let size = after.first().ok_or("a draw at the place")?;
    let mut entropy = failing(bytes, WHOLE, fault, &calls);
    let drew = draws(alloc, "before the fault", bytes, 0, &mut entropy, before)?;
    fails_at(alloc, &mut entropy, *size)?;
    let at = drew.saturating_add(gone);
    draws(alloc, "behind the fault", bytes, at, &mut entropy, after)?;
    Ok(())
}

/// Draws of these sizes, held to the device's bytes from a place on. Gives how many bytes were drawn.
fn draws(
    alloc: Global,
    shows: &str,
    bytes: &[u8],
    at: usize,
    entropy: &mut FileEntropy<OpensMetered<'_>>,
    sizes: &[usize],
) -> Result<usize, Fail> {
    let all = drawn(alloc, entropy, sizes)?;
    are_those_from(alloc, shows, bytes, at, &all)?;
    Ok(all.len())
}

/// Holds a draw of so many bytes to a fault.
fn fails_at(
    alloc: Global,
    entropy: &mut FileEntropy<OpensMetered<'_>>,
    size: usize,
) -> Result<(), Fail> {
    let mut out = vec![in alloc; 0u8; size]?;
    fails(entropy, "a read fails", &mut out)
}

// The read that fails, the draw that it fails in, and how many bytes are gone: what was held, and no more.
const FAULTS: [(usize, usize, usize); 5] = [
    (1, 0, 0),
    (2, 1, 1_012),
    (3, 2, 1_013),
    (4, 3, 1_013),
    (5, 4, 1_012),
];

#[test]
fn goes_on_behind_each_read_that_fails(rt: HostRuntime) -> Result<(), Fail> {
    let bytes = counting(rt.alloc(), 30_000)?;
    for &(fault, place, gone) in &FAULTS {
        goes_on_behind(rt.alloc(), &bytes, fault, place, gone)?;
    }
    Ok(())
}

/// Draws of 12 bytes up to a fault, and one behind it. The device gives one byte at a time.
fn goes_on_in_mid_draw(alloc: Global, bytes: &[u8], fault: usize) -> Result<(), Fail> {
    let given = fault.saturating_sub(1);
    let sizes = vec![in alloc; 12; given / 12]?;
    let calls = Calls::new();
    let mut entropy = failing(bytes, 1, fault, &calls);
    draws(alloc, "before the fault", bytes, 0, &mut entropy, &sizes)?;
    fails(&mut entropy, "a read fails", &mut [0; 12])?;
    draws(alloc, "behind the fault", bytes, given, &mut entropy, &[12])?;
    Ok(())
}

#[test]
fn a_fault_in_mid_draw_uses_up_what_was_read(rt: HostRuntime) -> Result<(), Fail> {
    let bytes = counting(rt.alloc(), 100)?;
    for fault in 1..50 {
        goes_on_in_mid_draw(rt.alloc(), &bytes, fault)?;
    }
    Ok(())
}

/// Draws what is held, over a device one of whose reads fails, and then more than that.
fn draws_what_is_held(alloc: Global, bytes: &[u8], fault: usize) -> Result<(), Fail> {
    let calls = Calls::new();
    let mut entropy = failing(bytes, WHOLE, fault, &calls);
    draws(
        alloc,
        "what is held",
        bytes,
        0,
        &mut entropy,
        &[64, 24, 0, 8],
    )?;
    counts("what is held", calls.reads.get(), 1)?;
    fails(&mut entropy, "four bytes are held", &mut [0; 5])?;
    counts("a byte too many", calls.reads.get(), 2)?;
    fails(&mut entropy, "the device has ended", &mut [0; 1])?;
    fails(&mut entropy, "the device has ended", &mut [0; 65])?;
    counts("at the end", calls.reads.get(), 4)
}

// One read gives all 100 bytes of the device. Any further one fails, or finds the end.
#[test]
fn what_is_held_is_drawn_though_the_device_fails_or_ends(rt: HostRuntime) -> Result<(), Fail> {
    let bytes = counting(rt.alloc(), 100)?;
    draws_what_is_held(rt.alloc(), &bytes, 0)?;
    draws_what_is_held(rt.alloc(), &bytes, 2)
}
