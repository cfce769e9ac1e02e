//! Streams that are closed when a run begins, and a stream that tells a fault only when all was written.

use crate::codes::{GCM, store_with};
use crate::listed::{Listed, in_text};
use crate::metered::{MayBeClosed, Taking, counts};
use real_objects::{StdSink, StdSource};
use std::alloc::Global;
use std::cell::Cell;
use std::process::ExitCode;
use std::test::Fail;
use test_words::{bytes_of, cell, counting, same_bytes, unlike};
use tink_base::{Loaded, MemEntropy, MemStore, Sink, Source, Store};
use tinkey_host::{Terminals, obey_to_the_end};

/// How many bytes each read of a closed stream asks for.
const SIZES: [usize; 4] = [1, 0, 4_096, 1];

#[test]
fn a_closed_stream_is_never_read(rt: HostRuntime) -> Result<(), Fail> {
    let reads = Cell::new(0);
    let stream = MayBeClosed {
        left: b"bytes",
        open: false,
        reads: &reads,
    };
    let mut source = StdSource::probed(rt.alloc(), stream)?;
    for &size in &SIZES {
        reads_nothing(rt.alloc(), &mut source, size)?;
    }
    counts("reads of the stream", reads.get(), 0)
}

/// Holds a read into so many bytes of a closed stream to a fault that leaves them as they were.
fn reads_nothing(
    alloc: Global,
    source: &mut StdSource<MayBeClosed<'_>>,
    size: usize,
) -> Result<(), Fail> {
    let kept = vec![in alloc; 7u8; size]?;
    let mut out = vec![in alloc; 7u8; size]?;
    if source.read(&mut out).is_ok() {
        return Err("a read of a closed stream".into());
    }
    same_bytes(alloc, "a closed stream", "what was read into", &kept, &out)
}

#[test]
fn a_closed_stream_is_never_written(rt: HostRuntime) -> Result<(), Fail> {
    let mut written = Vec::new(rt.alloc());
    let (writes, asked) = (Cell::new(0), Cell::new(0));
    let mut sink = StdSink::probed(Taking {
        written: &mut written,
        open: false,
        well: false,
        writes: &writes,
        asked: &asked,
    });
    for piece in [b"bytes".as_slice(), b"", b"b"] {
        if sink.write(piece).is_ok() {
            return Err("a write to a closed stream".into());
        }
    }
    if sink.settle().is_err() {
        return Err("a fault of a stream that was never written".into());
    }
    counts("writes to the stream", writes.get(), 0)?;
    counts("how often it was asked", asked.get(), 0)
}

// A row has what it shows, the words, which of input, output and diagnostic line are open (`1`) or closed (`0`),
// whether a fault is kept back (`f`), the exit code, the line, what the output begins with, and how often the
// output was asked for the fault. The input is a keyset.
const RUNS: [&str; 14] = [
    "all open | list-keyset --in-format binary | 111 | 0 | | primary_key_id: 16909060 | 1",
    "no input | list-keyset --in-format binary | 011 | 5 | tinkey: read fault | | 0",
    "no output | list-keyset --in-format binary | 101 | 5 | tinkey: write fault | | 0",
    "no line | list-keyset --in-format binary | 110 | 0 | | primary_key_id: 16909060 | 1",
    "no line for a refusal | open --keyset k --keyset-format binary | 110 | 1 | | | 0",
    "nothing open | list-keyset --in-format binary | 000 | 5 | | | 0",
    "no input is needed | help sopen | 011 | 0 | | tinkey sopen | 1",
    "words alone | no-command | 001 | 2 | tinkey: usage: word 0 | | 0",
    "no stream is needed | create-keyset --key-template AES128_GCM --out new | 000 | 0 | | | 0",
    "an output that isn't needed | convert-keyset --in-format binary --out new | 101 | 0 | | | 0",
    "a fault kept back | list-keyset --in-format binary | 11f | 5 | tinkey: write fault | primary_key_id: 16909060 | 1",
    "a fault kept back, and no output | create-keyset --key-template AES128_GCM --out new | 11f | 0 | | | 0",
    "a fault kept back behind a refusal | open --keyset k --keyset-format binary | 11f | 1 | tinkey: open failed | | 0",
    "a fault kept back behind a stream that fails | sopen --keyset s | 11f | 4 | tinkey: input file missing | | 0",
];

/// Whether this place of a row's cell says that the stream is open.
fn is_open(row: &str, place: usize) -> Result<bool, Fail> {
    let mark = cell(row, 2)?
        .as_bytes()
        .get(place)
        .copied()
        .ok_or("a mark")?;
    Ok(mark != b'0')
}

/// Holds what was written to the beginning that a row wants; where it wants none, nothing was written.
fn begins(row: &str, what: &str, place: usize, written: &[u8]) -> Result<(), Fail> {
    let want = cell(row, place)?;
    let found = str::from_utf8(written)?;
    if !found.starts_with(want) || want.is_empty() != found.is_empty() {
        return Err(unlike(row, what, want, found));
    }
    Ok(())
}

/// What came of a run: its exit code, its output and its line, and how often the output was asked.
#[derive(Drop)]
struct Ended {
    code: ExitCode,
    written: Vec<u8>,
    line: Vec<u8>,
    asked: usize,
}

/// Which streams of a row are open, and whether its output keeps no fault back.
#[derive(Clone, Copy)]
struct Marks {
    input: bool,
    output: bool,
    line: bool,
    well: bool,
}

fn marks_of(row: &str) -> Result<Marks, Fail> {
    Ok(Marks {
        input: is_open(row, 0)?,
        output: is_open(row, 1)?,
        line: is_open(row, 2)?,
        well: !cell(row, 2)?.ends_with('f'),
    })
}

/// Runs words over this input, these random bytes and a store.
fn run_words(
    alloc: Global,
    words: &Listed,
    input: &[u8],
    marks: Marks,
    entropy: &mut MemEntropy,
    store: &mut MemStore,
) -> Result<Ended, Fail> {
    let (reads, writes, asked) = (Cell::new(0), Cell::new(0), Cell::new(0));
    let (lines, line_asked) = (Cell::new(0), Cell::new(0));
    let stream = MayBeClosed {
        left: input,
        open: marks.input,
        reads: &reads,
    };
    let mut source = StdSource::probed(alloc, stream)?;
    let mut written = Vec::new(alloc);
    let mut line = Vec::new(alloc);
    let code = obey_to_the_end(
        words,
        alloc,
        Terminals {
            input: false,
            output: false,
        },
        &mut source,
        &mut StdSink::probed(Taking {
            written: &mut written,
            open: marks.output,
            well: marks.well,
            writes: &writes,
            asked: &asked,
        }),
        &mut StdSink::probed(Taking {
            written: &mut line,
            open: marks.line,
            well: true,
            writes: &lines,
            asked: &line_asked,
        }),
        entropy,
        store,
    );
    Ok(Ended {
        code,
        written,
        line,
        asked: asked.get(),
    })
}

/// Runs a row over a store.
fn run_over(alloc: Global, row: &str, store: &mut MemStore) -> Result<Ended, Fail> {
    let marks = marks_of(row)?;
    let words = in_text(alloc, cell(row, 1)?)?;
    let keyset = bytes_of(alloc, GCM)?;
    let mut entropy = MemEntropy::new(counting(alloc, 64)?, Vec::new(alloc));
    run_words(alloc, &words, &keyset, marks, &mut entropy, store)
}

/// Holds what came of a run to its row.
fn ends(row: &str, ended: &Ended) -> Result<(), Fail> {
    let want = cell(row, 3)?;
    if ended.code != ExitCode::from(want.parse::<u8>()?) {
        return Err(unlike(row, "the exit code", want, "another"));
    }
    begins(row, "the line", 4, &ended.line)?;
    begins(row, "the output", 5, &ended.written)?;
    counts(row, ended.asked, cell(row, 6)?.parse::<usize>()?)
}

/// Holds a run to its row.
fn runs(alloc: Global, row: &str) -> Result<(), Fail> {
    let mut store = store_with(alloc, GCM)?;
    let ended = run_over(alloc, row, &mut store)?;
    ends(row, &ended)?;
    makes(alloc, row, &mut store)
}

/// Holds the store to a file `new` exactly where the words name one.
fn makes(alloc: Global, row: &str, store: &mut MemStore) -> Result<(), Fail> {
    let found = match store.load(alloc, "new", 65_536) {
        Ok(Loaded::Bytes(all)) => !all.as_slice().is_empty(),
        Ok(_) => false,
        Err(_) => return Err("a load".into()),
    };
    if found != cell(row, 1)?.ends_with("--out new") {
        return Err(unlike(row, "the file", "as the words have it", "another"));
    }
    Ok(())
}

#[test]
fn a_closed_stream_is_a_fault_where_it_is_needed(rt: HostRuntime) -> Result<(), Fail> {
    for row in &RUNS {
        runs(rt.alloc(), row)?;
    }
    Ok(())
}
