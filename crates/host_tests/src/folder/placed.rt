//! Names that are looked up, lengths, and bytes read of a file at a place.

ghost use Rattle.std.specs.Prelude.{None};

use dir_store::DirStore;
use real_objects::{Cause, PlacedFile, read_opened};
use std::cell::Cell;
use std::fs;
use std::io::{self, ErrorKind};
use std::os::unix::fs::symlink;
use std::test::Fail;
use test_words::{same_bytes, same_text};
use tink_base::{Failed, Store};

/// What a look at a name answers, as a word.
fn look_word(answer: Result<bool, Failed>) -> &'static str {
    match answer {
        Ok(true) => "taken",
        Ok(false) => "free",
        Err(Failed) => "failed",
    }
}

const LOOKS: [(&str, &str); 8] = [
    ("placed-file", "taken"),
    (".", "taken"),
    ("placed-link", "taken"),
    ("placed-none", "free"),
    ("placed-none/file", "failed"),
    ("placed-file/file", "failed"),
    ("placed-none/", "failed"),
    ("", "failed"),
];

/// Looks up the name of each row.
fn assert_looks(store: &mut DirStore<'_>) -> Result<(), Fail> {
    for (name, want) in &LOOKS {
        same_text(name, "a look", want, look_word(store.is_taken(name)))?;
    }
    Ok(())
}

#[test]
fn looks_names_up(rt: HostRuntime) -> Result<(), Fail> {
    let _ = fs::remove_file(&rt, "placed-link");
    fs::write(&rt, "placed-file", b"bytes")?;
    symlink(&rt, "placed-nowhere", "placed-link")?;
    assert_looks(&mut DirStore::new(&rt))
}

/// What a length is, as a word, where the file is to have so many bytes.
fn size_word(answer: Result<Option<u64>, Failed>, size: u64) -> &'static str {
    match answer {
        Ok(Some(found)) if found == size => "so many",
        Ok(Some(_)) => "another length",
        Ok(None) => "no file",
        Err(Failed) => "failed",
    }
}

const SIZES: [(&str, u64, &str); 8] = [
    ("sized-file", 5, "so many"),
    ("sized-empty", 0, "so many"),
    ("sized-link", 5, "so many"),
    ("sized-none", 0, "no file"),
    ("sized-none/file", 0, "no file"),
    ("sized-file/file", 0, "no file"),
    (".", 0, "failed"),
    ("/dev/null", 0, "failed"),
];

/// Asks for the length of the file of each row.
fn assert_lengths(store: &mut DirStore<'_>) -> Result<(), Fail> {
    for (name, size, want) in &SIZES {
        same_text(name, "the length", want, size_word(store.size(name), *size))?;
    }
    Ok(())
}

#[test]
fn tells_lengths_of_files_alone(rt: HostRuntime) -> Result<(), Fail> {
    let _ = fs::remove_file(&rt, "sized-link");
    fs::write(&rt, "sized-file", b"bytes")?;
    fs::write(&rt, "sized-empty", b"")?;
    symlink(&rt, "sized-file", "sized-link")?;
    assert_lengths(&mut DirStore::new(&rt))
}

const READS: [(&str, u64, &str); 7] = [
    ("read-file", 0, "byte"),
    ("read-file", 2, "tes"),
    ("read-file", 4, "s"),
    ("read-file", 5, "failed"),
    ("read-file", u64::MAX, "failed"),
    ("read-none", 0, "failed"),
    (".", 0, "failed"),
];

/// Reads up to four bytes of a file at a place.
fn assert_read_at(
    rt: &HostRuntime,
    store: &mut DirStore<'_>,
    name: &str,
    at: u64,
    want: &str,
) -> Result<(), Fail> {
    let mut out = [0; 4];
    let found = match store.read_at(name, at, &mut out) {
        Ok(n) => &out[..n],
        Err(Failed) => b"failed".as_slice(),
    };
    same_bytes(rt.alloc(), name, "what was read", want.as_bytes(), found)
}

#[test]
fn reads_files_at_places(rt: HostRuntime) -> Result<(), Fail> {
    fs::write(&rt, "read-file", b"bytes")?;
    for (name, at, want) in &READS {
        assert_read_at(&rt, &mut DirStore::new(&rt), name, *at, want)?;
    }
    Ok(())
}

/// By turns of two files.
const TURNS: [(&str, u64, &str); 5] = [
    ("open-one", 0, "firs"),
    ("open-two", 0, "seco"),
    ("open-one", 3, "st"),
    ("open-two", 4, "nd"),
    ("open-two", 0, "seco"),
];

/// After another file got the second name: the file of the last read stays open until a read of
/// another name, or one that fails.
const REPLACED: [(&str, u64, &str); 5] = [
    ("open-two", 4, "nd"),
    ("open-two", 6, "failed"),
    ("open-two", 0, "thir"),
    ("open-one", 0, "firs"),
    ("open-two", 2, "ird"),
];

/// Reads by turns, before another file gets the second name and afterwards.
fn assert_turns(rt: &HostRuntime, store: &mut DirStore<'_>) -> Result<(), Fail> {
    for (name, at, want) in &TURNS {
        assert_read_at(rt, store, name, *at, want)?;
    }
    fs::write(rt, "open-three", b"third")?;
    fs::rename(rt, "open-three", "open-two")?;
    for (name, at, want) in &REPLACED {
        assert_read_at(rt, store, name, *at, want)?;
    }
    Ok(())
}

#[test]
fn keeps_the_file_of_the_last_read_open(rt: HostRuntime) -> Result<(), Fail> {
    fs::write(&rt, "open-one", b"first")?;
    fs::write(&rt, "open-two", b"second")?;
    assert_turns(&rt, &mut DirStore::new(&rt))
}

/// A file of zeros, of which the first reads are interrupted, so many, and which gives so many bytes then.
#[derive(Drop)]
struct Zeros {
    interrupts: Cell<u32>,
    gives: usize,
}

impl PlacedFile for Zeros {
    ghost bytes = { λ _. None };

    fn read_placed(&self, _at: u64, out: &mut [u8]) -> io::Result<usize> {
        let left = self.interrupts.get();
        if left > 0 {
            self.interrupts.set(left - 1);
            return Err(io::Error::from(ErrorKind::Interrupted));
        }
        Ok(self.gives.min(out.len()))
    }
}

/// Holds what a read answers to a number of bytes, or to a cause.
fn answers(found: Result<usize, Cause>, want: Result<usize, Cause>) -> Result<(), Fail> {
    if found != want {
        return Err(Fail::new(format_args!("a read is {found:?}, and not {want:?}")));
    }
    Ok(())
}

// How often a read of four bytes is interrupted, how many it gives then, and what is told.
const INTERRUPTS: [(u32, usize, Result<usize, Cause>); 4] = [
    (0, 3, Ok(3)),
    (2, 3, Ok(3)),
    (1, 9, Ok(4)),
    (1, 0, Err(Cause::Changed)),
];

#[test]
fn reads_again_behind_a_signal() -> Result<(), Fail> {
    for &(interrupts, gives, want) in &INTERRUPTS {
        let file = Zeros {
            interrupts: Cell::new(interrupts),
            gives,
        };
        answers(read_opened(&Ok(file), 7, &mut [0; 4]), want)?;
    }
    let unopened = Err::<Zeros, io::Error>(io::Error::from(ErrorKind::PermissionDenied));
    answers(
        read_opened(&unopened, 0, &mut [0; 4]),
        Err(Cause::NoPermission),
    )
}
