//! Sessions over random bytes that are drawn ahead, over a device in memory: each line has the bytes behind
//! those of the line before it, and replies are written together.

use crate::ahead::{Calls, failing};
use crate::codes::{GCM, store_with};
use crate::listed::words_of;
use crate::metered::{WHOLE, counts};
use std::alloc::Global;
use std::process::ExitCode;
use std::test::Fail;
use test_words::{counting, same_bytes};
use tink_base::{MemSink, MemSource};
use tinkey_host::{Terminals, obey};

/// How many lines a session has, each of which adds a key.
const LINES: usize = 60;

/// How many random bytes a line draws: an id, and a key of AES128_GCM.
const DRAWN: usize = 20;

/// The words of a session.
const WORDS: [&str; 5] = ["session", "--keyset", "k", "--keyset-format", "binary"];

/// The reads of the device and the writes: how many bytes a read gives at the most, and the numbers of the
/// read and the write that fail, from 1; none does where the number is 0.
#[derive(Clone, Copy)]
struct Objects {
    piece: usize,
    read: usize,
    write: u64,
}

/// What came of a session: its exit code, its diagnostic line, what it wrote, and how often the device was
/// read.
#[derive(Drop)]
struct Ended {
    code: ExitCode,
    line: Vec<u8>,
    written: Vec<u8>,
    reads: usize,
}

/// An exit code, and the diagnostic line that comes with it.
type End = (u8, &'static str);

const DONE: End = (0, "");

const ENTROPY_FAULT: End = (5, "tinkey: entropy fault\n");

const WRITE_FAULT: End = (5, "tinkey: write fault\n");

/// All lines, by one read.
fn lines_of(alloc: Global) -> Result<MemSource, Fail> {
    let input = b"add AES128_GCM\n".repeat(alloc, LINES)?;
    Ok(MemSource::new(input, 4_096, Vec::new(alloc)))
}

/// Obeys the words of a session over a device of these bytes; gives the exit code, and how often it was read.
fn obeyed(
    alloc: Global,
    bytes: &[u8],
    objects: Objects,
    sink: &mut MemSink,
    diag: &mut MemSink,
) -> Result<(ExitCode, usize), Fail> {
    let words = words_of(alloc, &WORDS)?;
    let mut source = lines_of(alloc)?;
    let mut store = store_with(alloc, GCM)?;
    let calls = Calls::new();
    let code = obey(
        alloc,
        &words,
        Terminals {
            input: false,
            output: false,
        },
        &mut source,
        sink,
        diag,
        &mut failing(bytes, objects.piece, objects.read, &calls),
        &mut store,
    );
    Ok((code, calls.reads.get()))
}

/// What a session over a device of these bytes answers, and what it tells, by these two.
fn told_by(
    alloc: Global,
    bytes: &[u8],
    objects: Objects,
    sink: &mut MemSink,
    diag: &mut MemSink,
) -> Result<Ended, Fail> {
    let (code, reads) = obeyed(alloc, bytes, objects, sink, diag)?;
    let line = diag.written().to_vec(alloc)?;
    let written = sink.written().to_vec(alloc)?;
    Ok(Ended {
        code,
        line,
        written,
        reads,
    })
}

/// A session over a device of these bytes. All lines come by one read of the input.
fn answered(alloc: Global, bytes: &[u8], objects: Objects) -> Result<Ended, Fail> {
    let fails = vec![in alloc; objects.write; 1]?;
    let mut sink = MemSink::new(alloc, 4_096, 4_096, fails)?;
    let mut diag = MemSink::new(alloc, 256, 256, Vec::new(alloc))?;
    told_by(alloc, bytes, objects, &mut sink, &mut diag)
}

/// The replies to so many lines over these random bytes: the id of a line is the first four of its bytes,
/// the highest first.
fn replies(alloc: Global, bytes: &[u8], count: usize) -> Result<Vec<u8>, Fail> {
    let mut all = Vec::new(alloc);
    for line in bytes.chunks(DRAWN).take(count) {
        let id = line.first_chunk::<4>().ok_or("four bytes of an id")?;
        let text = format!(in alloc; "ok {}\n", u32::from_be_bytes(*id))?;
        all.extend_from_slice(text.as_bytes())?;
    }
    Ok(all)
}

/// Holds a session to its end and the replies to so many lines. Gives how often the device was read.
fn holds(
    alloc: Global,
    bytes: &[u8],
    shows: &str,
    objects: Objects,
    end: End,
    count: usize,
) -> Result<usize, Fail> {
    let (code, line) = end;
    let ended = answered(alloc, bytes, objects)?;
    if ended.code != ExitCode::from(code) {
        return Err(Fail::new(format_args!("{shows}: another exit code than {code}")));
    }
    same_bytes(alloc, shows, "the line", line.as_bytes(), &ended.line)?;
    let want = replies(alloc, bytes, count)?;
    same_bytes(alloc, shows, "the replies", &want, &ended.written)?;
    Ok(ended.reads)
}

/// Holds sessions whose device gives so many bytes at once, with each read of the device failing in turn, and
/// each write. A line whose bytes aren't all held has the replies before it written.
fn assert_each_failing(
    alloc: Global,
    bytes: &[u8],
    shows: &str,
    objects: Objects,
    block: usize,
    calls: usize,
) -> Result<(), Fail> {
    let reads = holds(alloc, bytes, shows, objects, DONE, LINES)?;
    counts(shows, reads, calls)?;
    for before in 0..calls {
        let count = before.saturating_mul(block) / DRAWN;
        let number = before.saturating_add(1);
        let read = Objects {
            read: number,
            ..objects
        };
        let reads = holds(alloc, bytes, shows, read, ENTROPY_FAULT, count)?;
        counts(shows, reads, number)?;
        let write = Objects {
            write: number as u64,
            ..objects
        };
        let reads = holds(alloc, bytes, shows, write, WRITE_FAULT, count)?;
        counts(shows, reads, number)?;
    }
    let behind = calls.saturating_add(1);
    let read = Objects {
        read: behind,
        ..objects
    };
    holds(alloc, bytes, shows, read, DONE, LINES)?;
    let write = Objects {
        write: behind as u64,
        ..objects
    };
    holds(alloc, bytes, shows, write, DONE, LINES)?;
    Ok(())
}

// What a read of the device gives at the most, how many bytes are drawn ahead by it, and how many reads
// there are. 60 lines draw 1,200 bytes. The read behind `n` blocks comes in the line that isn't whole in
// them, behind as many lines as are. The replies to these are written then, and the last ones at the end, so
// there are as many writes as reads.
const ROWS: [(&str, usize, usize, usize); 3] = [
    ("as many at once as are asked for", WHOLE, 1_024, 2),
    ("pieces that end within a line", 90, 90, 14),
    ("pieces of ten lines", 200, 200, 6),
];

#[test]
fn writes_replies_before_it_draws_anew(rt: HostRuntime) -> Result<(), Fail> {
    let bytes = counting(rt.alloc(), 4_096)?;
    for &(shows, piece, block, calls) in &ROWS {
        let objects = Objects {
            piece,
            read: 0,
            write: 0,
        };
        assert_each_failing(rt.alloc(), &bytes, shows, objects, block, calls)?;
    }
    Ok(())
}
