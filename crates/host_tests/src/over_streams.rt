//! A run over streams and a device of random bytes that tell their bytes, some of which were read or drawn
//! ahead.

use crate::ahead::{Calls, OpensMetered, drawn, failing};
use crate::codes::{GCM, LISTING};
use crate::listed::words_of;
use crate::metered::{Metered, Taking, WHOLE, counts};
use real_objects::{FileEntropy, StdSink, StdSource};
use std::alloc::Global;
use std::cell::Cell;
use std::test::Fail;
use test_words::{bytes_of, same_bytes};
use tink_base::{Failed, MemSink, MemStore, Source, write_all};
use tinkey_host::start_over_streams;
use tinkey_run::Status;

/// The words of a run that lists the keyset on its input.
const LIST: [&str; 3] = ["list-keyset", "--in-format", "binary"];

/// The words of one that makes a keyset.
const CREATE: [&str; 5] = [
    "create-keyset",
    "--key-template",
    "AES128_GCM",
    "--out-format",
    "binary",
];

/// Three random bytes, an id, a key of 16 zeros, and what no run draws.
const RANDOM: &str = "abcdef0102030400000000000000000000000000000000fefefefe";

/// Three bytes and a keyset.
fn input(alloc: Global) -> Result<Vec<u8>, Fail> {
    let mut all = b"abc".to_vec(alloc)?;
    all.extend_from_slice(&bytes_of(alloc, GCM)?)?;
    Ok(all)
}

/// A run that is done and tells nothing.
fn run(
    alloc: Global,
    words: &[&str],
    source: &mut StdSource<Metered<'_>>,
    sink: &mut StdSink<Taking<'_>>,
    entropy: &mut FileEntropy<OpensMetered<'_>>,
) -> Result<(), Fail> {
    let words = words_of(alloc, words)?;
    let mut diag = MemSink::new(alloc, 256, 64, Vec::new(alloc))?;
    let mut store = MemStore::new(alloc, Vec::new(alloc));
    let status = start_over_streams(alloc, &words, source, sink, &mut diag, entropy, &mut store);
    if !matches!(status, Status::Done) {
        return Err("a status other than done".into());
    }
    same_bytes(alloc, "a run", "the line", b"", diag.written())
}

/// Reads the first three bytes, writes a line, and runs these words.
fn run_after(
    alloc: Global,
    words: &[&str],
    source: &mut StdSource<Metered<'_>>,
    sink: &mut StdSink<Taking<'_>>,
    entropy: &mut FileEntropy<OpensMetered<'_>>,
) -> Result<(), Fail> {
    let mut front = [0; 3];
    match source.read(&mut front) {
        Ok(3) => {}
        Ok(_) | Err(Failed) => return Err("a read of three bytes".into()),
    }
    same_bytes(alloc, "the front", "what was read", b"abc", &front)?;
    write_all(sink, b"before\n")?;
    run(alloc, words, source, sink, entropy)
}

/// Runs these words over this input, whose first three bytes are read before it, behind a line that was
/// written.
fn run_behind(
    alloc: Global,
    words: &[&str],
    bytes: &[u8],
    entropy: &mut FileEntropy<OpensMetered<'_>>,
    reads: &Cell<usize>,
    written: &mut Vec<u8>,
) -> Result<(), Fail> {
    let (writes, asked) = (Cell::new(0), Cell::new(0));
    let stream = Metered {
        left: bytes,
        piece: WHOLE,
        fails: 0,
        reads,
    };
    let mut source = StdSource::new(alloc, stream)?;
    let mut sink = StdSink::new(Taking {
        written,
        open: true,
        well: true,
        writes: &writes,
        asked: &asked,
    });
    run_after(alloc, words, &mut source, &mut sink, entropy)
}

/// Holds what was written to this, behind a line.
fn is_behind(alloc: Global, shows: &str, want: &[u8], written: &[u8]) -> Result<(), Fail> {
    let mut all = b"before\n".to_vec(alloc)?;
    all.extend_from_slice(want)?;
    same_bytes(alloc, shows, "the output", &all, written)
}

#[test]
fn answers_over_bytes_that_were_read_ahead(rt: HostRuntime) -> Result<(), Fail> {
    let bytes = input(rt.alloc())?;
    let reads = Cell::new(0);
    let calls = Calls::new();
    let mut entropy = failing(b"", WHOLE, 0, &calls);
    let mut found = Vec::new(rt.alloc());
    run_behind(rt.alloc(), &LIST, &bytes, &mut entropy, &reads, &mut found)?;
    // the keyset was held: the stream is asked for its end alone
    counts("reads of the stream", reads.get(), 2)?;
    counts("opens of the device", calls.opens.get(), 0)?;
    is_behind(rt.alloc(), "a listing", LISTING.as_bytes(), &found)
}

// The id and the key of the keyset are those random bytes that follow what was drawn before the run.
#[test]
fn answers_over_bytes_that_were_drawn_ahead(rt: HostRuntime) -> Result<(), Fail> {
    let random = bytes_of(rt.alloc(), RANDOM)?;
    let calls = Calls::new();
    let mut entropy = failing(&random, WHOLE, 0, &calls);
    draws(rt.alloc(), "the front", &mut entropy, &[0xab, 0xcd, 0xef])?;
    makes_keyset(rt.alloc(), &mut entropy)?;
    counts("reads of the device", calls.reads.get(), 1)?;
    draws(rt.alloc(), "the rest", &mut entropy, &[0xfe; 4])
}

/// Draws as many bytes as these, and holds them to these.
fn draws(
    alloc: Global,
    shows: &str,
    entropy: &mut FileEntropy<OpensMetered<'_>>,
    want: &[u8],
) -> Result<(), Fail> {
    let found = drawn(alloc, entropy, &[want.len()])?;
    same_bytes(alloc, shows, "what was drawn", want, &found)
}

/// Makes a keyset of these random bytes, and holds it to the one that is expected.
fn makes_keyset(alloc: Global, entropy: &mut FileEntropy<OpensMetered<'_>>) -> Result<(), Fail> {
    let want = bytes_of(alloc, GCM)?;
    let mut found = Vec::new(alloc);
    let reads = Cell::new(0);
    run_behind(alloc, &CREATE, b"abc", entropy, &reads, &mut found)?;
    is_behind(alloc, "a new keyset", &want, &found)
}
