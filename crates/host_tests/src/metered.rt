//! Devices and streams in memory that tell their bytes and count their reads.

ghost use Rattle.std.specs.Prelude.{Some};
ghost use Rattle.host_tests.specs.Told.{goes_on};

use real_objects::{Device, ReadStream, WriteStream};
use std::alloc::Global;
use std::cell::Cell;
use std::io::{self, ErrorKind, Read, Write};
use std::test::Fail;
use test_words::same_bytes;

/// More bytes than the largest read of these tests.
pub(crate) const WHOLE: usize = 1 << 20;

/// A device or a stream in memory. A read gives at most `piece` bytes, and the one of the number `fails`,
/// from 1, fails.
#[derive(Drop)]
pub(crate) struct Metered<'a> {
    pub(crate) left: &'a [u8],
    pub(crate) piece: usize,
    pub(crate) fails: usize,
    pub(crate) reads: &'a Cell<usize>,
}

impl Read for Metered<'_> {
    ghost remaining = { λ s. Some s.left.now };

    fn read(&mut self, out: &mut [u8]) -> io::Result<usize> {
        let number = self.reads.get().wrapping_add(1);
        self.reads.set(number);
        if number == self.fails {
            return Err(io::Error::from(ErrorKind::Other));
        }
        let room = out.len().min(self.piece.max(1));
        self.left.read(&mut out[..room])
    }
}

impl Device for Metered<'_> {
    ghost untold = { λ s t none. goes_on s.left.now t.left.now none };
}

impl ReadStream for Metered<'_> {
    ghost untold = { λ s t none. goes_on s.left.now t.left.now none };

    fn is_open(&self) -> bool {
        true
    }
}

/// A stream in memory that may be closed, and that counts how often it is read all the same.
#[derive(Drop)]
pub(crate) struct MayBeClosed<'a> {
    pub(crate) left: &'a [u8],
    pub(crate) open: bool,
    pub(crate) reads: &'a Cell<usize>,
}

impl Read for MayBeClosed<'_> {
    ghost remaining = { λ s. Some s.left.now };

    fn read(&mut self, out: &mut [u8]) -> io::Result<usize> {
        self.reads.set(self.reads.get().wrapping_add(1));
        self.left.read(out)
    }
}

impl ReadStream for MayBeClosed<'_> {
    ghost opened = { λ s. Some s.open };

    ghost untold = { λ s t none. goes_on s.left.now t.left.now none };

    fn is_open(&self) -> bool {
        self.open
    }
}

/// A stream in memory that is written, and may be closed or keep a fault back. It counts its writes, and how
/// often it is asked for that fault.
#[derive(Drop)]
pub(crate) struct Taking<'a> {
    pub(crate) written: &'a mut Vec<u8>,
    pub(crate) open: bool,
    pub(crate) well: bool,
    pub(crate) writes: &'a Cell<usize>,
    pub(crate) asked: &'a Cell<usize>,
}

impl Write for Taking<'_> {
    ghost contents = { λ s. Some s.written.now.items };

    fn write(&mut self, piece: &[u8]) -> io::Result<usize> {
        self.writes.set(self.writes.get().wrapping_add(1));
        match self.written.extend_from_slice(piece) {
            Ok(()) => Ok(piece.len()),
            Err(_) => Err(io::Error::from(ErrorKind::OutOfMemory)),
        }
    }

    fn flush(&mut self) -> io::Result<()> {
        Ok(())
    }
}

impl WriteStream for Taking<'_> {
    ghost opened = { λ s. Some s.open };

    ghost settles = { λ s. Some s.well };

    ghost untold = { λ s t none. goes_on s.written.now.items t.written.now.items none };

    fn is_open(&self) -> bool {
        self.open
    }

    fn settle(&mut self) -> io::Result<()> {
        self.asked.set(self.asked.get().wrapping_add(1));
        if self.well {
            Ok(())
        } else {
            Err(io::Error::from(ErrorKind::QuotaExceeded))
        }
    }
}

/// Holds bytes to so many at the front of a device or a stream.
pub(crate) fn are_first(
    alloc: Global,
    shows: &str,
    bytes: &[u8],
    size: usize,
    found: &[u8],
) -> Result<(), Fail> {
    let want = bytes.get(..size).ok_or("so many bytes")?;
    same_bytes(alloc, shows, "what was read", want, found)
}

/// Holds bytes to those of a device or a stream from a place on.
pub(crate) fn are_those_from(
    alloc: Global,
    shows: &str,
    bytes: &[u8],
    place: usize,
    found: &[u8],
) -> Result<(), Fail> {
    let from = bytes.get(place..).unwrap_or_default();
    let want = from.get(..found.len()).unwrap_or(from);
    same_bytes(alloc, shows, "what was read", want, found)
}

/// Holds a number, as of calls, to the one that is wanted.
pub(crate) fn counts(shows: &str, found: usize, want: usize) -> Result<(), Fail> {
    if found != want {
        return Err(Fail::new(format_args!("{shows}: {found}, and not {want}")));
    }
    Ok(())
}
