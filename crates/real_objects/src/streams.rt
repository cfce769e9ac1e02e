//! Real streams, standard ones and files, as sources and sinks. They report the bytes of the stream
//! beneath, if it does. Each counts its errors, and one that was found closed fails from then on.

ghost use Rattle.std.specs.Prelude.{◌≡◌, ◌≢◌, ◌<◌, ◌≤◌, true, false, Some, [], length, take, drop, is_ok, IsOk, IfOk, IsErr, IfErr, IfSome, OnOk, OnErr};
ghost use Rattle.std.specs.Io.KnownBytes.{Appends, Consumes, Keeps, IsAtEnd as IsNoneLeft};
ghost use Rattle.std.specs.IoError.{error_kind};
ghost use Rattle.tink_spec.specs.Outside.{Rose, RoseOnce, Stood, Took, Gave, IsAtEnd, late_after};
ghost use Rattle.real_objects.specs.Streams.{told_source, told_sink, stream_read, read_ahead, source_left, stream_written, IsClosed, found_closed, closed_sink, has_written};

use crate::beneath::{ReadStream, WriteStream};
use crate::unread::Unread;
use std::alloc::Global;
use std::io::{self, ErrorKind, Read, Write};
use tink_base::{Failed, NoMemory, Sink, Source};

/// A stream that is read, such as standard input.
///
/// It is read ahead: up to 32,768 bytes taken from the stream may not have been handed out yet.
/// They are lost with this value, so a program that reads the same standard input afterwards may
/// lack them. A read returns held bytes at once, otherwise what one read of the stream gives; so it
/// doesn't wait for a terminal or a pipe while bytes are held.
#[derive(Drop)]
pub struct StdSource<R> {
    input: R,
    unread: Unread,
    faults: u64,
    // whether an end was reported, and how many reads came after that
    ended: bool,
    late: u64,
    // whether the stream was found closed
    closed: bool,
}

impl<R: ReadStream + Drop> StdSource<R> {
    /// A stream before its first read, which isn't asked whether it is open. Memory is taken for
    /// reading ahead.
    pub fn new(alloc: Global, from: R) -> Result<StdSource<R>, NoMemory>
        ensures beneath { IfOk result (λ s. stream_read s ≡ from) }
        ensures not_ahead { IfOk result (λ s. read_ahead s ≡ []) }
        ensures open { IfOk result (λ s. IsClosed s → ⊥) }
        ensures left { IfOk result (λ s. (told_source R.remaining s).left ≡ R.remaining from) }
        ensures new { IfOk result (λ s. (told_source R.remaining s).faults ≡ 0) }
        ensures not_ended { IfOk result (λ s. (told_source R.remaining s).ended ≡ false) }
        ensures none_late { IfOk result (λ s. (told_source R.remaining s).late ≡ 0) }
    {
        Ok(StdSource {
            input: from,
            unread: Unread::new(alloc)?,
            faults: 0,
            ended: false,
            late: 0,
            closed: false,
        })
    }

    /// A stream before its first read, which is asked whether it is open. A closed one stays a
    /// fault: each read fails without reading it, so whatever is opened in its place later isn't
    /// read either. Memory is taken as by `new`.
    pub fn probed(alloc: Global, from: R) -> Result<StdSource<R>, NoMemory>
        ensures beneath { IfOk result (λ s. stream_read s ≡ from) }
        ensures not_ahead { IfOk result (λ s. read_ahead s ≡ []) }
        ensures open { IfOk result (λ s. R.opened from ≡ Some true → IsClosed s → ⊥) }
        ensures closed { IfOk result (λ s. R.opened from ≡ Some false → IsClosed s) }
        ensures left { IfOk result (λ s. (told_source R.remaining s).left ≡ R.remaining from) }
        ensures new { IfOk result (λ s. (told_source R.remaining s).faults ≡ 0) }
        ensures not_ended { IfOk result (λ s. (told_source R.remaining s).ended ≡ false) }
        ensures none_late { IfOk result (λ s. (told_source R.remaining s).late ≡ 0) }
    {
        let closed = !from.is_open();
        Ok(StdSource {
            input: from,
            unread: Unread::new(alloc)?,
            faults: 0,
            ended: false,
            late: 0,
            closed,
        })
    }
}

impl<R: ReadStream> Source for StdSource<R> {
    ghost state = { λ s. told_source R.remaining s };

    fn read(&mut self, out: &mut [u8]) -> Result<usize, Failed>
        ensures bound { IfOk result (λ n. n ≤ length out.old) }
        ensures gives { IfOk result (λ n.
            Gave (told_source R.remaining self.old) (told_source R.remaining self.new) (take n out.new)) }
        ensures rest { IfOk result (λ n. drop n out.new ≡ drop n out.old) }
        ensures end { IfOk result (λ n. n ≡ 0 → 0 < length out.old →
            IsAtEnd (told_source R.remaining self.new)) }
        ensures ended { IfOk result (λ n. n ≡ 0 → 0 < length out.old →
            (told_source R.remaining self.new).ended ≡ true) }
        ensures goes_on { IfOk result (λ n. 0 < n →
            (told_source R.remaining self.new).ended ≡ (told_source R.remaining self.old).ended) }
        ensures nothing_asked { length out.old ≡ 0 →
            (told_source R.remaining self.new).ended ≡ (told_source R.remaining self.old).ended }
        ensures failed_goes_on { OnErr result
            ((told_source R.remaining self.new).ended ≡ (told_source R.remaining self.old).ended) }
        ensures late { (told_source R.remaining self.new).late ≡ late_after (told_source R.remaining self.old) }
        ensures no_fault { OnOk result
            (Stood (told_source R.remaining self.old).faults (told_source R.remaining self.new).faults) }
        ensures failed { OnErr result
            (Rose (told_source R.remaining self.old).faults (told_source R.remaining self.new).faults) }
        ensures once { OnErr result
            (RoseOnce (told_source R.remaining self.old).faults (told_source R.remaining self.new).faults) }
        ensures kept { OnErr result (Gave (told_source R.remaining self.old) (told_source R.remaining self.new) []) }

        // What leaves the bytes read ahead, then the stream beneath.
        ensures read { IfOk result (λ n.
            Consumes (source_left R.remaining self.old) (source_left R.remaining self.new)
            (take n out.new)) }
        ensures none_left { IfOk result (λ n. n ≡ 0 → 0 < length out.old →
            IsNoneLeft (source_left R.remaining self.new)) }
        ensures unread { OnErr result
            (Keeps (source_left R.remaining self.old) (source_left R.remaining self.new)) }

        // A stream that was found closed fails, is left alone, and stays so.
        ensures closed { IsClosed self.old → IsErr result }
        ensures left_alone { IsClosed self.old → stream_read self.new ≡ stream_read self.old }
        ensures stays_closed { IsClosed self.old → IsClosed self.new }
        ensures stays_open { found_closed self.new ≡ found_closed self.old }

        // Bytes read ahead are returned, and the stream isn't asked before they are used up.
        ensures enough { 0 < length (read_ahead self.old) → IsOk result }
        ensures unasked { 0 < length (read_ahead self.old) →
            stream_read self.new ≡ stream_read self.old }
        ensures ahead_bound { length (read_ahead self.new) ≤ 32768 }
    {
        if self.ended {
            self.late = self.late.saturating_add(1);
        }
        if self.closed && self.unread.is_empty() {
            self.faults = self.faults.saturating_add(1);
            return Err(Failed);
        }
        match self.unread.read(&mut self.input, out) {
            Ok(n) => {
                self.ended = self.ended || (n == 0 && !out.is_empty());
                Ok(n)
            }
            Err(_) => {
                self.faults = self.faults.saturating_add(1);
                Err(Failed)
            }
        }
    }
}

/// A stream that is written, such as standard output.
#[derive(Drop)]
pub struct StdSink<W> {
    output: W,
    faults: u64,
    // whether the stream was found closed
    closed: bool,
    // whether a byte was written
    wrote: bool,
}

impl<W: WriteStream> StdSink<W> {
    /// A stream before its first write, which isn't asked whether it is open.
    pub fn new(to: W) -> StdSink<W>
        ensures beneath { stream_written result ≡ to }
        ensures open { closed_sink result ≡ false }
        ensures written { (told_sink W.contents result).written ≡ W.contents to }
        ensures none_written { has_written result ≡ false }
        ensures new { (told_sink W.contents result).faults ≡ 0 }
    {
        StdSink {
            output: to,
            faults: 0,
            closed: false,
            wrote: false,
        }
    }

    /// A stream before its first write, which is asked whether it is open. A closed one stays a
    /// fault: each write fails without writing to it, so whatever is opened in its place later
    /// isn't written either.
    pub fn probed(to: W) -> StdSink<W>
        ensures beneath { stream_written result ≡ to }
        ensures open { W.opened to ≡ Some true → closed_sink result ≡ false }
        ensures closed { W.opened to ≡ Some false → closed_sink result ≡ true }
        ensures written { (told_sink W.contents result).written ≡ W.contents to }
        ensures none_written { has_written result ≡ false }
        ensures new { (told_sink W.contents result).faults ≡ 0 }
    {
        let closed = !to.is_open();
        StdSink {
            output: to,
            faults: 0,
            closed,
            wrote: false,
        }
    }

    /// Asks the stream, after everything was written, for a fault deferred from when it took the
    /// bytes. If no byte was written, it isn't asked.
    pub fn settle(&mut self) -> Result<(), Failed>
        ensures same { OnOk result
            (told_sink W.contents self.new ≡ told_sink W.contents self.old) }
        ensures once { OnErr result
            (RoseOnce (told_sink W.contents self.old).faults (told_sink W.contents self.new).faults) }
        ensures kept { OnErr result
            (Took (told_sink W.contents self.old) (told_sink W.contents self.new) []) }
        ensures asked { has_written self.old ≡ true →
            IfSome (W.settles (stream_written self.old)) (λ well. is_ok result ≡ well) }
        ensures unasked { has_written self.old ≡ false → IsOk result }
        ensures has_written { has_written self.new ≡ has_written self.old }
        ensures stays_closed { closed_sink self.new ≡ closed_sink self.old }
        ensures settles { W.settles (stream_written self.new) ≡ W.settles (stream_written self.old) }
    {
        if !self.wrote {
            return Ok(());
        }
        match self.output.settle() {
            Ok(()) => Ok(()),
            Err(_) => {
                self.faults = self.faults.saturating_add(1);
                Err(Failed)
            }
        }
    }
}

impl<W: WriteStream> Sink for StdSink<W> {
    ghost state = { λ s. told_sink W.contents s };

    fn write(&mut self, piece: &[u8]) -> Result<usize, Failed>
        ensures bound { IfOk result (λ n. n ≤ length piece.now) }
        ensures some { IfOk result (λ n. 0 < length piece.now → 0 < n) }
        ensures takes { IfOk result (λ n.
            Took (told_sink W.contents self.old) (told_sink W.contents self.new) (take n piece.now)) }
        ensures no_fault { OnOk result
            (Stood (told_sink W.contents self.old).faults (told_sink W.contents self.new).faults) }
        ensures failed { OnErr result
            (Rose (told_sink W.contents self.old).faults (told_sink W.contents self.new).faults) }
        ensures once { OnErr result
            (RoseOnce (told_sink W.contents self.old).faults (told_sink W.contents self.new).faults) }
        ensures kept { OnErr result (Took (told_sink W.contents self.old) (told_sink W.contents self.new) []) }

        // What goes into the stream beneath.
        ensures wrote { IfOk result (λ n.
            Appends (W.contents (stream_written self.old)) (W.contents (stream_written self.new))
            (take n piece.now)) }
        ensures unwritten { OnErr result
            (Keeps (W.contents (stream_written self.old)) (W.contents (stream_written self.new))) }
        ensures has_written { IfOk result (λ n. 0 < n → has_written self.new ≡ true) }
        ensures none_written { IfOk result (λ n. n ≡ 0 → has_written self.new ≡ has_written self.old) }
        ensures failed_written { OnErr result (has_written self.new ≡ has_written self.old) }

        // A stream that was found closed fails, is left alone, and stays so.
        ensures closed { closed_sink self.old ≡ true → IsErr result }
        ensures left_alone { closed_sink self.old ≡ true →
            stream_written self.new ≡ stream_written self.old }
        ensures stays_closed { closed_sink self.new ≡ closed_sink self.old }
    {
        if self.closed {
            self.faults = self.faults.saturating_add(1);
            return Err(Failed);
        }
        match write_through_signals(&mut self.output, piece) {
            Ok(n) if n > 0 => {
                self.wrote = true;
                Ok(n)
            }
            Ok(n) if piece.is_empty() => Ok(n),
            _ => {
                self.faults = self.faults.saturating_add(1);
                Err(Failed)
            }
        }
    }
}

/// One read, tried again if a signal interrupted it.
pub(crate) fn read_through_signals<R: Read>(stream: &mut R, out: &mut [u8]) -> io::Result<usize>
    ensures bound { IfOk result (λ n. n ≤ length out.old) }
    ensures read { IfOk result (λ n.
        Consumes (R.remaining stream.old) (R.remaining stream.new) (take n out.new)) }
    ensures ended { IfOk result (λ n. n ≡ 0 → 0 < length out.old →
        IsNoneLeft (R.remaining stream.new)) }
    ensures unread { OnErr result (Keeps (R.remaining stream.old) (R.remaining stream.new)) }
    ensures uninterrupted { IfErr result (λ e. error_kind e ≢ ErrorKind.Interrupted) }
{
    for _ in 0..u64::MAX {
        match stream.read(out) {
            Ok(n) => return Ok(n),
            Err(error) if error.kind() == ErrorKind::Interrupted => {}
            Err(error) => return Err(error),
        }
    }
    Err(io::Error::from(ErrorKind::TimedOut))
}

/// One write, tried again if a signal interrupted it.
pub fn write_through_signals<W: Write>(stream: &mut W, piece: &[u8]) -> io::Result<usize>
    ensures bound { IfOk result (λ n. n ≤ length piece.now) }
    ensures wrote { IfOk result (λ n.
        Appends (W.contents stream.old) (W.contents stream.new) (take n piece.now)) }
    ensures unwritten { OnErr result (Keeps (W.contents stream.old) (W.contents stream.new)) }
    ensures uninterrupted { IfErr result (λ e. error_kind e ≢ ErrorKind.Interrupted) }
{
    for _ in 0..u64::MAX {
        match stream.write(piece) {
            Ok(n) => return Ok(n),
            Err(error) if error.kind() == ErrorKind::Interrupted => {}
            Err(error) => return Err(error),
        }
    }
    Err(io::Error::from(ErrorKind::TimedOut))
}
