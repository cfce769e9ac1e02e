//! Files in memory, of which each call fails in turn, and opens that failed.

ghost use Rattle.std.specs.Prelude.{◌≡◌, Some, true};

use crate::folder::causes::{loaded_word, made_word};
use dir_store::load_opened;
use real_objects::{NewFile, fill_opened};
use std::alloc::Global;
use std::io::{self, ErrorKind, Read, Write};
use std::test::Fail;
use test_words::{same_bytes, same_text};

/// The number of no call, for a page that can't be read back.
pub(crate) const NOT_BACK: u32 = u32::MAX;

/// A file in memory, of which one call moves some bytes at the most. The call of this number fails,
/// from 1.
#[derive(Drop)]
pub(crate) struct Page {
    bytes: Vec<u8>,
    read: usize,
    piece: usize,
    fails: u32,
    calls: u32,
    put_away: bool,
}

impl Page {
    pub(crate) fn new(bytes: Vec<u8>, piece: usize, fails: u32) -> Page {
        Page {
            bytes,
            read: 0,
            piece,
            fails,
            calls: 0,
            put_away: false,
        }
    }

    /// Whether what was written was put away.
    pub(crate) fn lasts(&self) -> bool
        ensures { result ≡ self.now.put_away }
    {
        self.put_away
    }

    /// Counts a call, and fails where its turn has come.
    fn call(&mut self) -> io::Result<()> {
        self.calls = self.calls.wrapping_add(1);
        if self.calls == self.fails {
            return Err(io::Error::from(ErrorKind::StorageFull));
        }
        Ok(())
    }
}

impl Read for Page {
    fn read(&mut self, buf: &mut [u8]) -> io::Result<usize> {
        self.call()?;
        let mut n = 0usize;
        for (byte, place) in self.bytes.iter().skip(self.read).zip(buf.iter_mut()) {
            if n < self.piece {
                *place = *byte;
                n = n.wrapping_add(1);
            }
        }
        let n = n.min(buf.len());
        self.read = self.read.wrapping_add(n);
        Ok(n)
    }
}

impl Write for Page {
    fn write(&mut self, buf: &[u8]) -> io::Result<usize> {
        self.call()?;
        let n = buf.len().min(self.piece);
        self.bytes.extend_from_slice(&buf[..n])?;
        self.put_away = false;
        Ok(n)
    }

    fn flush(&mut self) -> io::Result<()> {
        self.call()
    }
}

impl NewFile for Page {
    ghost lasts = { λ s. Some s.put_away };

    fn admit_owner(&mut self) -> io::Result<()> {
        self.call()
    }

    fn put_away(&mut self) -> io::Result<()> {
        self.call()?;
        self.put_away = true;
        Ok(())
    }

    /// A page that fails at no call but this one isn't read back.
    fn read_back(&self, at: u64, buf: &mut [u8]) -> io::Result<usize> {
        if self.fails == NOT_BACK {
            return Err(io::Error::from(ErrorKind::StaleNetworkFileHandle));
        }
        let mut n = 0usize;
        let mut place = 0u64;
        for byte in &self.bytes {
            if place >= at && n < self.piece && n < buf.len() {
                buf[n] = *byte;
                n += 1;
            }
            place = place.wrapping_add(1);
        }
        Ok(n.min(buf.len()))
    }
}

/// Fills a page of which this call fails, or that takes no byte.
fn assert_unmade(
    alloc: Global,
    piece: usize,
    fails: u32,
    bytes: &[u8],
    want: &str,
) -> Result<(), Fail> {
    let mut opened = Ok(Page::new(Vec::new(alloc), piece, fails));
    let answer = fill_opened(&mut opened, bytes);
    let found = made_word(&answer);
    if found != want {
        return Err(Fail::new(format_args!(
            "pieces of {piece}, and call {fails} fails: {found}, and not {want}"
        )));
    }
    Ok(())
}

/// Fills a page of which the first six calls don't fail.
fn assert_made(alloc: Global) -> Result<(), Fail> {
    let mut opened = Ok(Page::new(Vec::new(alloc), 4, 7));
    let answer = fill_opened(&mut opened, b"ten bytes.");
    same_text("no call fails", "the answer", "made", made_word(&answer))?;
    let page = opened?;
    if !page.put_away {
        return Err("the file isn't put away".into());
    }
    same_bytes(
        alloc,
        "no call fails",
        "the file",
        b"ten bytes.",
        &page.bytes,
    )
}

// The owner is let in first. Ten bytes in pieces of four are three writes; a flush and a wait follow.
#[test]
fn tells_a_file_as_made_once_all_of_it_lasts(rt: HostRuntime) -> Result<(), Fail> {
    for fails in 1..7 {
        assert_unmade(rt.alloc(), 4, fails, b"ten bytes.", "no space")?;
    }
    assert_made(rt.alloc())?;
    assert_unmade(rt.alloc(), 0, 0, b"x", "other")
}

/// Loads a page of ten bytes under this limit, of which this call fails. So many bytes are counted, behind a
/// hundred that were read before.
fn assert_loaded(
    alloc: Global,
    limit: usize,
    fails: u32,
    want: &str,
    read: u64,
) -> Result<(), Fail> {
    let page = Page::new(b"ten bytes.".to_vec(alloc)?, 4, fails);
    let mut given = 100;
    let answer = load_opened(alloc, Ok(page), limit, &mut given);
    let found = loaded_word(answer, b"ten bytes.");
    let counted = given.wrapping_sub(100);
    if found != want || counted != read {
        return Err(Fail::new(format_args!(
            "limit {limit}, call {fails} fails: {found} and {counted}, not {want} and {read}"
        )));
    }
    Ok(())
}

// Ten bytes in pieces of four are four reads, the last of which finds the end. What was read before a
// failure is counted too.
#[test]
fn a_failed_read_is_no_end(rt: HostRuntime) -> Result<(), Fail> {
    assert_loaded(rt.alloc(), 10, 1, "no space", 0)?;
    assert_loaded(rt.alloc(), 10, 2, "no space", 4)?;
    assert_loaded(rt.alloc(), 10, 3, "no space", 8)?;
    assert_loaded(rt.alloc(), 10, 4, "no space", 10)?;
    assert_loaded(rt.alloc(), 10, 5, "bytes", 10)
}

// One byte more than the limit is read.
#[test]
fn counts_what_was_read_of_a_file_that_is_too_long(rt: HostRuntime) -> Result<(), Fail> {
    assert_loaded(rt.alloc(), 9, 0, "too long", 10)?;
    assert_loaded(rt.alloc(), 5, 0, "too long", 6)
}

// A file that may not be read or made is a fault, and not a missing one. A row has the kind of the
// error, and what a load and a create answer: the cause, where they failed.
const OPENS: [(ErrorKind, &str, &str); 6] = [
    (ErrorKind::NotFound, "absent", "no folder"),
    (ErrorKind::NotADirectory, "absent", "no folder"),
    (ErrorKind::AlreadyExists, "other", "exists"),
    (
        ErrorKind::PermissionDenied,
        "no permission",
        "no permission",
    ),
    (ErrorKind::IsADirectory, "is a folder", "is a folder"),
    (ErrorKind::OutOfMemory, "no memory", "no memory"),
];

/// The failure of a row.
fn unlike_kind(kind: ErrorKind, call: &str, want: &str, found: &str) -> Fail {
    Fail::new(format_args!("{kind:?}: {call} is {found}, and not {want}"))
}

fn assert_not_loaded(alloc: Global, kind: ErrorKind, want: &str) -> Result<(), Fail> {
    let opened: io::Result<Page> = Err(io::Error::from(kind));
    let mut given = 0;
    let answer = load_opened(alloc, opened, 10, &mut given);
    let found = loaded_word(answer, b"");
    if found != want || given != 0 {
        return Err(unlike_kind(kind, "a load", want, found));
    }
    Ok(())
}

fn assert_not_made(kind: ErrorKind, want: &str) -> Result<(), Fail> {
    let mut opened: io::Result<Page> = Err(io::Error::from(kind));
    let answer = fill_opened(&mut opened, b"x");
    let found = made_word(&answer);
    if found != want {
        return Err(unlike_kind(kind, "a create", want, found));
    }
    Ok(())
}

#[test]
fn tells_why_a_file_was_not_opened(rt: HostRuntime) -> Result<(), Fail> {
    for (kind, of_load, of_create) in &OPENS {
        assert_not_loaded(rt.alloc(), *kind, of_load)?;
        assert_not_made(*kind, of_create)?;
    }
    Ok(())
}
