//! Streams that are read ahead, that fail, and that a signal interrupts.

use crate::metered::{Metered, WHOLE, are_first, are_those_from, counts};
use real_objects::{ReadStream, StdSink, StdSource, WriteStream};
use std::alloc::Global;
use std::cell::Cell;
use std::io::{self, ErrorKind, Read, Write};
use std::test::Fail;
use test_words::{counting, same_bytes};
use tink_base::{Failed, NoMemory, Source, read_all, write_all};

/// A stream each of whose calls is interrupted once, before it is done.
#[derive(Drop)]
struct Interrupted<T> {
    stream: T,
    calls: u64,
}

impl<T> Interrupted<T> {
    fn new(stream: T) -> Interrupted<T> {
        Interrupted { stream, calls: 0 }
    }

    /// Counts a call, and fails where its number is odd.
    fn call(&mut self) -> io::Result<()> {
        self.calls = self.calls.wrapping_add(1);
        if self.calls % 2 == 1 {
            return Err(io::Error::from(ErrorKind::Interrupted));
        }
        Ok(())
    }
}

impl<R: Read> Read for Interrupted<R> {
    fn read(&mut self, buf: &mut [u8]) -> io::Result<usize> {
        self.call()?;
        self.stream.read(buf)
    }
}

impl<W: Write> Write for Interrupted<W> {
    fn write(&mut self, buf: &[u8]) -> io::Result<usize> {
        self.call()?;
        self.stream.write(buf)
    }

    fn flush(&mut self) -> io::Result<()> {
        self.stream.flush()
    }
}

impl<R: Read> ReadStream for Interrupted<R> {
    ghost untold = { λ s t none. none };

    fn is_open(&self) -> bool {
        true
    }
}

impl<W: Write> WriteStream for Interrupted<W> {
    ghost untold = { λ s t none. none };

    fn is_open(&self) -> bool {
        true
    }

    fn settle(&mut self) -> io::Result<()> {
        Ok(())
    }
}

#[test]
fn reads_on_after_a_signal(rt: HostRuntime) -> Result<(), Fail> {
    let mut source = StdSource::new(rt.alloc(), Interrupted::new(b"bytes".as_slice()))?;
    let bytes = read_all(rt.alloc(), &mut source, 5)?;
    same_bytes(rt.alloc(), "a read", "what was read", b"bytes", &bytes)
}

/// Writes through interruptions.
fn write_on(written: &mut Vec<u8>) -> Result<(), Fail> {
    let mut sink = StdSink::new(Interrupted::new(written));
    Ok(write_all(&mut sink, b"bytes")?)
}

#[test]
fn writes_on_after_a_signal(rt: HostRuntime) -> Result<(), Fail> {
    let mut written = Vec::new(rt.alloc());
    write_on(&mut written)?;
    same_bytes(
        rt.alloc(),
        "a write",
        "what was written",
        b"bytes",
        &written,
    )
}

/// A source over a stream in memory, one of whose reads fails.
fn source_over<'a>(
    alloc: Global,
    bytes: &'a [u8],
    piece: usize,
    fails: usize,
    reads: &'a Cell<usize>,
) -> Result<StdSource<Metered<'a>>, NoMemory> {
    StdSource::new(
        alloc,
        Metered {
            left: bytes,
            piece,
            fails,
            reads,
        },
    )
}

/// What so many reads into `size` bytes give, one behind another. None of them may fail.
fn given(
    alloc: Global,
    source: &mut StdSource<Metered<'_>>,
    size: usize,
    times: usize,
) -> Result<Vec<u8>, Fail> {
    let mut out = vec![in alloc; 0u8; size]?;
    let mut all = Vec::new(alloc);
    for _ in 0..times {
        match source.read(&mut out) {
            Ok(n) => all.extend_from_slice(&out[..n])?,
            Err(Failed) => return Err("a read fails".into()),
        }
    }
    Ok(all)
}

/// Holds reads to the first bytes of a stream of `whole` bytes, `want` of them, and to a number of reads of
/// it.
fn reads(
    alloc: Global,
    whole: usize,
    piece: usize,
    row: (&str, usize, usize, usize, usize),
) -> Result<(), Fail> {
    let (shows, size, times, want, beneath) = row;
    let bytes = counting(alloc, whole)?;
    let reads = Cell::new(0);
    let mut source = source_over(alloc, &bytes, piece, 0, &reads)?;
    let all = given(alloc, &mut source, size, times)?;
    are_first(alloc, shows, &bytes, want, &all)?;
    counts(shows, reads.get(), beneath)
}

/// Holds reads to each of these rows.
fn each_reads(
    alloc: Global,
    whole: usize,
    piece: usize,
    rows: &[(&str, usize, usize, usize, usize)],
) -> Result<(), Fail> {
    for row in rows {
        reads(alloc, whole, piece, *row)?;
    }
    Ok(())
}

// A row has the size of each read, how many there are, how many bytes they give, and how often the stream
// is read for them. Once all was given, each read more asks the stream, and finds its end.
const ONE_BYTE: [(&str, usize, usize, usize, usize); 5] = [
    ("a byte a read", 1, 5, 5, 5),
    ("no read waits for a second byte", 4, 5, 5, 5),
    ("all bytes, and the end", 4, 11, 10, 11),
    ("the end again and again", 65_536, 14, 10, 14),
    ("no room", 0, 3, 0, 0),
];

// One read of the stream gives all its 10,000 bytes: 1,428 reads of 7 give 9,996, and the next one four.
const AT_ONCE: [(&str, usize, usize, usize, usize); 8] = [
    ("a byte a read", 1, 10_000, 10_000, 1),
    ("an end behind single bytes", 1, 10_001, 10_000, 2),
    ("reads of 7", 7, 1_428, 9_996, 1),
    ("what is left of them", 7, 1_429, 10_000, 1),
    ("an end behind reads of 7", 7, 1_430, 10_000, 2),
    ("reads of 4,096", 4_096, 3, 10_000, 1),
    ("all in one read", 65_536, 1, 10_000, 1),
    ("the end again", 65_536, 3, 10_000, 3),
];

// Of 40,000 bytes the first 32,768 are held at once: 4,681 reads of 7 and a byte, or eight of 4,096.
const LONG: [(&str, usize, usize, usize, usize); 9] = [
    ("single bytes", 1, 32_768, 32_768, 1),
    ("a byte more", 1, 32_769, 32_769, 2),
    ("reads of 7", 7, 4_681, 32_767, 1),
    ("a read of what is left", 7, 4_682, 32_768, 1),
    ("a read of what comes next", 7, 4_683, 32_775, 2),
    ("reads of 4,096", 4_096, 8, 32_768, 1),
    ("one read more", 4_096, 9, 36_864, 2),
    ("no read takes more at once", 65_536, 1, 32_768, 1),
    ("all bytes, and the end", 65_536, 3, 40_000, 3),
];

#[test]
fn reads_ahead_what_the_stream_gives_at_once(rt: HostRuntime) -> Result<(), Fail> {
    each_reads(rt.alloc(), 10, 1, &ONE_BYTE)?;
    each_reads(rt.alloc(), 10_000, WHOLE, &AT_ONCE)?;
    each_reads(rt.alloc(), 40_000, WHOLE, &LONG)
}

/// Holds a read of a stream to a fault.
fn fails(alloc: Global, source: &mut StdSource<Metered<'_>>, size: usize) -> Result<(), Fail> {
    let mut out = vec![in alloc; 0u8; size]?;
    if source.read(&mut out).is_ok() {
        return Err("a read that is to fail".into());
    }
    Ok(())
}

/// Reads a stream one of whose reads fails: so many reads give `before` bytes, the next one fails, and the
/// one behind it goes on there.
fn goes_on_behind(
    alloc: Global,
    bytes: &[u8],
    row: (&str, usize, usize, usize, usize, usize),
) -> Result<(), Fail> {
    let (shows, piece, fault, size, times, before) = row;
    let reads = Cell::new(0);
    let mut source = source_over(alloc, bytes, piece, fault, &reads)?;
    gives_first(alloc, shows, bytes, before, &mut source, size, times)?;
    fails(alloc, &mut source, size)?;
    counts(shows, reads.get(), fault)?;
    gives_next(alloc, shows, bytes, before, &mut source, size)?;
    counts(shows, reads.get(), fault.saturating_add(1))
}

/// Holds what so many reads give to the first bytes, so many.
fn gives_first(
    alloc: Global,
    shows: &str,
    bytes: &[u8],
    want: usize,
    source: &mut StdSource<Metered<'_>>,
    size: usize,
    times: usize,
) -> Result<(), Fail> {
    let all = given(alloc, source, size, times)?;
    are_first(alloc, shows, bytes, want, &all)
}

/// Holds what one read gives to the bytes from a place on.
fn gives_next(
    alloc: Global,
    shows: &str,
    bytes: &[u8],
    at: usize,
    source: &mut StdSource<Metered<'_>>,
    size: usize,
) -> Result<(), Fail> {
    let all = given(alloc, source, size, 1)?;
    are_those_from(alloc, shows, bytes, at, &all)
}

// A row has the bytes that the stream gives at once, the number of its read that fails, the size of each
// read, and how many reads give how many bytes before the fault is told.
const FAULTS: [(&str, usize, usize, usize, usize, usize); 6] = [
    ("the first read fails", WHOLE, 1, 4, 0, 0),
    ("five bytes, one at a time", 1, 6, 4, 5, 5),
    ("five bytes at once, two of them a read", 5, 2, 2, 3, 5),
    ("five bytes twice", 5, 3, 3, 4, 10),
    (
        "as many as are held, in one read",
        WHOLE,
        2,
        65_536,
        1,
        32_768,
    ),
    (
        "as many as are held, 4,096 a read",
        WHOLE,
        2,
        4_096,
        8,
        32_768,
    ),
];

#[test]
fn tells_a_fault_behind_all_that_came_before_it(rt: HostRuntime) -> Result<(), Fail> {
    let bytes = counting(rt.alloc(), 40_000)?;
    for row in &FAULTS {
        goes_on_behind(rt.alloc(), &bytes, *row)?;
    }
    Ok(())
}
