//! Why calls of the real store failed, over errors by their numbers and over real files.

use crate::folder::opened::Page;
use dir_store::DirStore;
use real_objects::{Cause, FileError, fill_opened};
use std::alloc::Global;
use std::fs;
use std::io::Error;
use std::os::unix::fs::symlink;
use std::test::Fail;
use test_words::{cell, create_word, load_word, same_text};
use tink_base::{Created, Loaded, Store};

/// A cause, as a word.
pub(crate) fn cause_word(cause: Cause) -> &'static str {
    match cause {
        Cause::NoFolder => "no folder",
        Cause::NoPermission => "no permission",
        Cause::IsFolder => "is a folder",
        Cause::NoLength => "no length",
        Cause::NoSpace => "no space",
        Cause::TooLarge => "too large",
        Cause::NameTooLong => "name too long",
        Cause::ReadOnly => "read-only",
        Cause::TooManyLinks => "too many links",
        Cause::TooManyFiles => "too many files",
        Cause::BadDevice => "bad device",
        Cause::Changed => "changed",
        Cause::Unsupported => "unsupported",
        Cause::NoMemory => "memory",
        Cause::NoRandom => "no random",
        Cause::Other => "other",
    }
}

/// An error, as a word: its cause, where a call failed.
fn error_word(error: FileError) -> &'static str {
    match error {
        FileError::Failed(cause) => cause_word(cause),
        FileError::NoMemory => "no memory",
    }
}

/// What making a file answers, as a word.
pub(crate) fn made_word(answer: &Result<Created, FileError>) -> &'static str {
    match answer {
        Ok(created) => create_word(&Ok(*created)),
        Err(error) => error_word(*error),
    }
}

/// What a load answers, as a word, where the file is to have these bytes.
pub(crate) fn loaded_word(answer: Result<Loaded, FileError>, bytes: &[u8]) -> &'static str {
    match answer {
        Ok(loaded) => load_word(&Ok(loaded), bytes),
        Err(error) => error_word(error),
    }
}

// The numbers of Linux (errno(3)), on x86-64 and on aarch64.
const NUMBERS: [(i32, &str); 23] = [
    (1, "no permission"),
    (2, "no folder"),
    (5, "bad device"),
    (6, "other"),
    (12, "no memory"),
    (13, "no permission"),
    (16, "other"),
    (17, "exists"),
    (18, "other"),
    (20, "no folder"),
    (21, "is a folder"),
    (22, "other"),
    (23, "too many files"),
    (24, "too many files"),
    (27, "too large"),
    (28, "no space"),
    (30, "read-only"),
    (36, "name too long"),
    (38, "unsupported"),
    (40, "too many links"),
    (95, "unsupported"),
    (116, "changed"),
    (122, "no space"),
];

#[test]
fn tells_the_cause_of_each_number() -> Result<(), Fail> {
    for (number, want) in &NUMBERS {
        let answer = fill_opened::<Page>(&mut Err(Error::from_raw_os_error(*number)), b"x");
        let found = made_word(&answer);
        if found != *want {
            return Err(Fail::new(format_args!("{number}: {found}, and not {want}")));
        }
    }
    Ok(())
}

/// Why the store's last call failed that did, as a word.
fn last_cause(store: &DirStore<'_>) -> &'static str {
    match store.cause() {
        Some(cause) => cause_word(cause),
        None => "none",
    }
}

// In a folder with a file of five bytes, a folder, and a symbolic link to itself. A row has a call, its name, and the
// cause that is told afterwards, which an answer leaves as it was.
const CALLS: [&str; 19] = [
    "load | causes/none | none",
    "load | causes/none/k | none",
    "load | causes | is a folder",
    "load | causes/file | is a folder",
    "load | causes/circle | too many links",
    "look | causes/none | too many links",
    "look | causes/none/k | no folder",
    "look | causes/file | no folder",
    "look | causes/none/ | is a folder",
    "size | causes/file | is a folder",
    "size | /dev/null | no length",
    "size | causes | is a folder",
    "read | causes/file | changed",
    "read | causes | is a folder",
    "read | causes/none | changed",
    "create | causes/sub/ | is a folder",
    "create | causes/file/k | no folder",
    "create | causes/file | no folder",
    "create | causes/circle/k | too many links",
];

/// Makes the call of a row.
fn call(store: &mut DirStore<'_>, alloc: Global, row: &str) -> Result<(), Fail> {
    let name = cell(row, 1)?;
    match cell(row, 0)? {
        "load" => drop(store.load(alloc, name, 5)),
        "look" => drop(store.is_taken(name)),
        "size" => drop(store.size(name)),
        "read" => drop(store.read_at(name, 5, &mut [0; 4])),
        _ => drop(store.create(alloc, name, b"new")),
    }
    same_text(row, "the cause", cell(row, 2)?, last_cause(store))
}

/// Creates a file whose name has 256 bytes.
fn create_long(store: &mut DirStore<'_>, alloc: Global) -> Result<(), Fail> {
    let letters = "n".repeat(alloc, 256)?;
    let name = format!(in alloc; "causes/{letters}")?;
    drop(store.create(alloc, name.as_str(), b"new"));
    same_text("256", "the cause", "name too long", last_cause(store))
}

#[test]
fn keeps_the_cause_of_the_last_failure(rt: HostRuntime) -> Result<(), Fail> {
    let _ = fs::remove_dir_all(&rt, "causes");
    fs::create_dir(&rt, "causes")?;
    fs::create_dir(&rt, "causes/sub")?;
    fs::write(&rt, "causes/file", b"bytes")?;
    symlink(&rt, "circle", "causes/circle")?;
    let mut store = DirStore::new(&rt);
    same_text("no call", "the cause", "none", last_cause(&store))?;
    for row in &CALLS {
        call(&mut store, rt.alloc(), row)?;
    }
    create_long(&mut store, rt.alloc())?;
    Ok(fs::remove_dir_all(&rt, "causes")?)
}
