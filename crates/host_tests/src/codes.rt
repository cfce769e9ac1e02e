//! The exit codes, and what goes to the output and to the diagnostic line beside it.

ghost use Rattle.std.specs.Prelude.{◌-◌, ◌^◌, [], None, Some, if◌then◌else◌};

use crate::listed::{Listed, in_digits, in_text, words_of};
use dir_store::DirStore;
use real_objects::{FileEntropy, RandomDevice};
use std::alloc::Global;
use std::process::ExitCode;
use std::test::Fail;
use test_words::{bytes_of, cell, counting, unlike};
use tink_base::{
    Begun, Created, Failed, Loaded, MemEntropy, MemSink, MemSource, MemStore, PieceStore, Store,
    StoreError,
};
use tinkey_host::{Terminals, obey, obey_listed, program};

/// A store whose calls find no memory.
#[derive(Drop)]
struct NoRoom {
    calls: u32,
    begun: bool,
}

impl Store for NoRoom {
    // its count of bytes given stands at its end
    ghost state = { λ _. record { files = None; faults = 0; given = 2 ^ 64 - 1 } };

    fn load(&mut self, _alloc: Global, _name: &str, _limit: usize) -> Result<Loaded, StoreError> {
        self.calls = self.calls.wrapping_add(1);
        Err(StoreError::NoMemory)
    }

    fn create(&mut self, _alloc: Global, _name: &str, _: &[u8]) -> Result<Created, StoreError> {
        self.calls = self.calls.wrapping_add(1);
        Err(StoreError::NoMemory)
    }

    fn is_taken(&mut self, _name: &str) -> Result<bool, Failed> {
        Ok(false)
    }

    fn size(&mut self, _name: &str) -> Result<Option<u64>, Failed> {
        Ok(None)
    }

    fn read_at(&mut self, _name: &str, _at: u64, _out: &mut [u8]) -> Result<usize, Failed> {
        Ok(1)
    }
}

impl PieceStore for NoRoom {
    // of a draft, which it never begins, it would know no bytes
    ghost draft = { λ s. if s.begun then Some (record { name = []; bytes = None }) else None };

    fn begin(&mut self, _alloc: Global, _name: &str) -> Result<Begun, StoreError> {
        self.calls = self.calls.wrapping_add(1);
        self.begun = false;
        Err(StoreError::NoMemory)
    }

    fn append(&mut self, piece: &[u8]) -> Result<usize, Failed> {
        Ok(piece.len())
    }

    fn finish(&mut self) -> Result<Created, StoreError> {
        self.begun = false;
        Err(StoreError::NoMemory)
    }

    fn give_up(&mut self) {
        self.begun = false;
    }
}

/// A keyset after tink.proto: a key for AES-GCM of 16 zero bytes, TINK, whose id is 0x01020304.
pub(crate) const GCM: &str =
    "088486880812530a480a30747970652e676f6f676c65617069732e636f6d2f676f6f676c652e63727970746f2e74696e6b2e41657347636d4b657912121a10000000000000000000000000000000001801100118848688082001";

/// The same for HMAC: SHA-256, 20 bytes 0b, tags of 16 bytes.
const HMAC: &str =
    "0884868808125b0a500a2e747970652e676f6f676c65617069732e636f6d2f676f6f676c652e63727970746f2e74696e6b2e486d61634b6579121c1204080310101a140b0b0b0b0b0b0b0b0b0b0b0b0b0b0b0b0b0b0b0b1801100118848688082001";

/// The listing of the first keyset, as Tink's tinkey prints it.
pub(crate) const LISTING: &str = "primary_key_id: 16909060
key_info {
  type_url: \"type.googleapis.com/google.crypto.tink.AesGcmKey\"
  status: ENABLED
  key_id: 16909060
  output_prefix_type: TINK
}
";

// The codes and lines are those of the table in docs/SPECIFICATION.md. A read fails where the input is
// `fails`, and memory is refused by the store where it is `no memory`. The last cell says which of standard input
// and output are terminals.
const RUNS: [&str; 14] = [
    "a listing | list-keyset --in-format binary | keyset | 0 | | listing |",
    "a tag of another length | verify --keyset k --keyset-format binary --tag-hex 00 | 61 | 1 | tinkey: verify failed\ntinkey verify: no ENABLED key of the keyset makes this tag of this input | |",
    "no such command | no-command | | 2 | tinkey: usage: word 0\ntinkey: no such command: see tinkey help | |",
    "no protobuf | list-keyset --in-format binary | ff | 3 | tinkey: bad protobuf at byte 0\ntinkey list-keyset: standard input is damaged, or isn't a keyset | |",
    "no such file | tag --keyset n --keyset-format binary | 61 | 4 | tinkey: input file missing\ntinkey tag: the file that --keyset gives is not there | |",
    "a read that fails | list-keyset --in-format binary | fails | 5 | tinkey: read fault | |",
    "a byte too many | list-keyset --in-format binary | long | 6 | tinkey: keyset too long\ntinkey list-keyset: standard input is too long: a keyset has at most 1048576 bytes, and an encrypted one 4194304 | |",
    "memory refused | tag --keyset k --keyset-format binary | no memory | 7 | tinkey: out of memory | |",
    "a word that isn't UTF-8 | ff | | 8 | tinkey: usage: word 0\ntinkey: a word is UTF-8 text: see tinkey help | |",
    "a keyset in clear isn't for a terminal | create-keyset --key-template AES128_GCM | | 4 | tinkey: output is a terminal\ntinkey: this isn't for a screen: give --out FILE, or redirect the output | | out",
    "nor is a tag | tag --keyset k --keyset-format binary | fails | 4 | tinkey: output is a terminal\ntinkey: this isn't for a screen: give --out FILE, or redirect the output | | both",
    "a listing is, and a terminal is read | list-keyset --in-format binary | keyset | 0 | tinkey: reading from the terminal; Ctrl-D ends the input | listing | both",
    "nothing is written | verify --keyset k --keyset-format binary --tag-hex 00 | 61 | 1 | tinkey: reading from the terminal; Ctrl-D ends the input\ntinkey: verify failed\ntinkey verify: no ENABLED key of the keyset makes this tag of this input | | both",
    "a file is read | list-keyset --in n | fails | 4 | tinkey: input file missing\ntinkey list-keyset: the file that --in gives is not there | | both",
];

/// The input of a row.
fn input_of(alloc: Global, input: &str) -> Result<Vec<u8>, Fail> {
    if input == "keyset" {
        return bytes_of(alloc, GCM);
    }
    if input == "long" {
        return counting(alloc, 1_048_577);
    }
    if input == "fails" || input == "no memory" {
        return Ok(Vec::new(alloc));
    }
    bytes_of(alloc, input)
}

/// The command line of a row.
fn line_of(alloc: Global, words: &str) -> Result<Listed, Fail> {
    if words == "ff" {
        return in_digits(alloc, "74, ff");
    }
    in_text(alloc, words)
}

/// The source of a row. A read of it fails where the input is `fails`.
fn source_of(alloc: Global, input: &str) -> Result<MemSource, Fail> {
    let mut fails = Vec::new(alloc);
    if input == "fails" {
        fails.push(1)?;
    }
    Ok(MemSource::new(input_of(alloc, input)?, 4_096, fails))
}

/// The terminals of a row.
fn terminals_of(row: &str) -> Result<Terminals, Fail> {
    let named = cell(row, 6)?;
    Ok(Terminals {
        input: named == "in" || named == "both",
        output: named == "out" || named == "both",
    })
}

/// A sink that takes up to 64 bytes at once.
fn sink_of(alloc: Global) -> Result<MemSink, Fail> {
    Ok(MemSink::new(alloc, 256, 64, Vec::new(alloc))?)
}

/// Holds an exit code to that of a row.
fn has_code(row: &str, code: ExitCode) -> Result<(), Fail> {
    let want = cell(row, 3)?;
    if code != ExitCode::from(want.parse::<u8>()?) {
        return Err(unlike(row, "the exit code", want, "another"));
    }
    Ok(())
}

/// Holds the output to that of a row.
fn has_output(row: &str, written: &[u8]) -> Result<(), Fail> {
    let want = if cell(row, 5)? == "listing" {
        LISTING
    } else {
        ""
    };
    if written != want.as_bytes() {
        return Err(unlike(row, "the output", want, "another"));
    }
    Ok(())
}

/// Holds what was told to the lines of a row, each ended by a newline.
fn has_lines(row: &str, written: &[u8]) -> Result<(), Fail> {
    let want = cell(row, 4)?;
    let told = str::from_utf8(written)?;
    if told.trim_end() != want || told.ends_with('\n') == told.is_empty() {
        return Err(unlike(row, "the line", want, told));
    }
    Ok(())
}

/// Holds what came of a row to its exit code, its output and its lines.
fn came(row: &str, code: ExitCode, sink: &MemSink, diag: &MemSink) -> Result<(), Fail> {
    has_code(row, code)?;
    has_output(row, sink.written())?;
    has_lines(row, diag.written())
}

/// Obeys a command line over this input and this store, without random bytes.
fn obey_line<D: PieceStore>(
    alloc: Global,
    row: &str,
    line: &Listed,
    source: &mut MemSource,
    store: &mut D,
) -> Result<(), Fail> {
    let terminals = terminals_of(row)?;
    let mut sink = sink_of(alloc)?;
    let mut diag = sink_of(alloc)?;
    let code = obey_listed(
        line,
        alloc,
        terminals,
        source,
        &mut sink,
        &mut diag,
        &mut MemEntropy::new(Vec::new(alloc), Vec::new(alloc)),
        store,
    );
    came(row, code, &sink, &diag)
}

/// Obeys a row over this store, and compares the exit code, the output and the line.
fn obey_over<D: PieceStore>(alloc: Global, row: &str, store: &mut D) -> Result<(), Fail> {
    let (line, input) = (cell(row, 1)?, cell(row, 2)?);
    let line = line_of(alloc, line)?;
    let mut source = source_of(alloc, input)?;
    obey_line(alloc, row, &line, &mut source, store)
}

/// A store whose file `k` has these bytes, in hexadecimal digits.
pub(crate) fn store_with(alloc: Global, digits: &str) -> Result<MemStore, Fail> {
    let bytes = bytes_of(alloc, digits)?;
    let mut store = MemStore::new(alloc, Vec::new(alloc));
    store.put("k", &bytes)?;
    Ok(store)
}

/// Obeys a row. The file `k` is the keyset for HMAC.
fn obey_row(alloc: Global, row: &str) -> Result<(), Fail> {
    if cell(row, 2)? == "no memory" {
        let mut store = NoRoom {
            calls: 0,
            begun: false,
        };
        return obey_over(alloc, row, &mut store);
    }
    let mut store = store_with(alloc, HMAC)?;
    obey_over(alloc, row, &mut store)
}

#[test]
fn ends_with_the_exit_code_of_the_table(rt: HostRuntime) -> Result<(), Fail> {
    for row in &RUNS {
        obey_row(rt.alloc(), row)?;
    }
    Ok(())
}

// The words of the test's own process are no command.
#[test]
fn obeys_the_words_of_the_process(rt: HostRuntime) {
    assert!(rt; program(&rt) == ExitCode::from(2));
}

/// A row over the real random bytes and files, as `program` has them.
const REAL: &str =
    "no command | | | 2 | tinkey: usage: word 0\ntinkey: no such command: see tinkey help | |";

/// Obeys these words over the real random bytes and files.
fn obey_really(rt: &HostRuntime, words: &[String], source: &mut MemSource) -> Result<(), Fail> {
    let terminals = terminals_of(REAL)?;
    let mut sink = sink_of(rt.alloc())?;
    let mut diag = sink_of(rt.alloc())?;
    let code = obey(
        rt.alloc(),
        words,
        terminals,
        source,
        &mut sink,
        &mut diag,
        &mut FileEntropy::new(RandomDevice::new(rt)),
        &mut DirStore::new(rt),
    );
    came(REAL, code, &sink, &diag)
}

#[test]
fn tells_the_exit_code_of_a_run(rt: HostRuntime) -> Result<(), Fail> {
    let words = words_of(rt.alloc(), &["no-command"])?;
    let mut source = source_of(rt.alloc(), "")?;
    obey_really(&rt, &words, &mut source)
}
