//! The streams beneath sources and sinks: they can be asked whether they are open, and report their
//! bytes always or never.

ghost use Rattle.std.specs.Prelude.{◌≡◌, Bool, Option, Some, None, IfSome, is_ok};
ghost use Rattle.std.specs.Io.KnownBytes.{Keeps};

use std::fs::{self, OpenFile, OpenOptions};
use std::io::{self, ErrorKind, Read, Stderr, Stdin, Stdout, Write};
use std::os::fd::{AsFd, BorrowedFd};

/// The system's error for a descriptor that isn't open (Linux, errno(3)).
const EBADF: i32 = 9;

/// The path of standard output's file (Linux, proc(5)).
const OUTPUT: &str = "/proc/self/fd/1";

/// A stream that is read.
pub trait ReadStream: Read {
    /// Whether the stream is open, if that is known.
    ghost opened: { Self → Option Bool } = { λ _. None };

    /// Whether the stream is open. No byte is read.
    fn is_open(&self) -> bool
        ensures { IfSome (opened self.now) (λ is. result ≡ is) };

    /// A stream reports its bytes always or never.
    ghost untold: { (s t : Self) → Self.remaining s ≡ None → Self.remaining t ≡ None };
}

/// A stream that is written.
pub trait WriteStream: Write {
    /// Whether the stream is open, if that is known.
    ghost opened: { Self → Option Bool } = { λ _. None };

    /// Whether `settle` finds no fault, if that is known.
    ghost settles: { Self → Option Bool } = { λ _. None };

    /// Whether the stream is open. Nothing is written.
    fn is_open(&self) -> bool
        ensures { IfSome (opened self.now) (λ is. result ≡ is) };

    /// Asks the stream for a fault deferred from when it took bytes, such as a quota that a network
    /// file system checks later. A stream that defers none, such as a pipe, reports none.
    fn settle(&mut self) -> io::Result<()>
        ensures kept { Keeps (Self.contents self.old) (Self.contents self.new) }
        ensures told { IfSome (settles self.old) (λ well. is_ok result ≡ well) }
        ensures tells_the_same { settles self.new ≡ settles self.old };

    /// A stream reports its bytes always or never.
    ghost untold: { (s t : Self) → Self.contents s ≡ None → Self.contents t ≡ None };
}

/// Whether a descriptor is open: any but a closed one can be duplicated, if a descriptor is left
/// for that. No read or write is tried, even of no bytes, which could stop a background program at
/// a terminal, or end a datagram.
fn is_open(descriptor: BorrowedFd<'_>) -> bool {
    match descriptor.try_clone_to_owned() {
        Ok(_) => true,
        Err(error) => error.raw_os_error() != Some(EBADF),
    }
}

impl ReadStream for Stdin {
    ghost untold = { λ s t none. none };

    fn is_open(&self) -> bool {
        is_open(self.as_fd())
    }
}

/// Standard output. If it is a file, it is opened again to sync it: the toolchain's library has no
/// call that syncs a standard stream.
#[derive(Drop)]
pub struct StandardOutput<'a> {
    rt: &'a HostRuntime,
    output: Stdout,
}

impl<'a> StandardOutput<'a> {
    /// The standard output of the process.
    pub fn new(rt: &'a HostRuntime) -> StandardOutput<'a> {
        StandardOutput {
            rt,
            output: rt.stdout(),
        }
    }
}

impl Write for StandardOutput<'_> {
    ghost contents = { λ _. None };

    fn write(&mut self, piece: &[u8]) -> io::Result<usize> {
        self.output.write(piece)
    }

    fn flush(&mut self) -> io::Result<()> {
        self.output.flush()
    }
}

impl WriteStream for StandardOutput<'_> {
    ghost untold = { λ s t none. none };

    fn is_open(&self) -> bool {
        is_open(self.output.as_fd())
    }

    /// Waits until a file has what was written to it. What isn't a file, or can't be opened again,
    /// isn't asked.
    fn settle(&mut self) -> io::Result<()> {
        match fs::metadata(self.rt, OUTPUT) {
            Ok(found) if found.is_file() => sync_output(self.rt),
            _ => Ok(()),
        }
    }
}

/// Syncs standard output's file. A file system without that call (EINVAL) defers no fault.
fn sync_output(rt: &HostRuntime) -> io::Result<()> {
    let mut options = OpenOptions::new();
    options.append(true);
    let Ok(file) = options.open(rt, OUTPUT) else {
        return Ok(());
    };
    match file.sync_data() {
        Err(error) if error.kind() == ErrorKind::InvalidInput => Ok(()),
        synced => synced,
    }
}

impl WriteStream for Stderr {
    ghost untold = { λ s t none. none };

    fn is_open(&self) -> bool {
        is_open(self.as_fd())
    }

    /// Nothing is asked, since a fault there changes no status.
    fn settle(&mut self) -> io::Result<()> {
        Ok(())
    }
}
