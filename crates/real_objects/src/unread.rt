//! Bytes of a stream that are read ahead, so that many small reads take few reads of it.

ghost use Rattle.std.specs.Prelude.{◌≡◌, ◌<◌, ◌≤◌, [], ◌++◌, length, take, drop, min, true, false, IsOk, IfOk, OnOk, OnErr};
ghost use Rattle.std.specs.Io.KnownBytes.{Consumes, IsAtEnd, Keeps, prepend_known};

use crate::streams::read_through_signals;
use std::alloc::Global;
use std::io::{self, Read};
use std::marker::Model;
use tink_base::NoMemory;

/// The most bytes that are read ahead.
const AHEAD: usize = 1 << 15;

/// Bytes that were read and not yet handed out, in order; at most 32,768. They are on the heap: a
/// program with a stack of 64 KiB has no room for them there.
///
/// Contracts see the list of them. Bytes handed out stay here until new ones overwrite them: they
/// are a stream's, and no erasure is promised (random bytes are in `ahead`, which overwrites them).
#[derive(Drop)]
pub(crate) struct Unread {
    bytes: Vec<u8>,
    from: usize,
    to: usize,
}

impl Model for Unread {
    ghost use Rattle.std.specs.Prelude.{◌≡◌, ◌≤◌, List, ℕ, length, slice_range};

    ghost Value = { List ℕ };

    ghost view = { λ unread. slice_range unread.bytes.items unread.from unread.to };

    ghost invariant = { λ unread. (unread.from ≤ unread.to) × (unread.to ≤ 32768)
        × (length unread.bytes.items ≡ 32768) };
}

impl Unread {
    /// No bytes, and room for reading ahead.
    pub(crate) fn new(alloc: Global) -> Result<Unread, NoMemory>
        ensures { IfOk result (λ unread. unread ≡ []) }
    {
        Ok(Unread {
            bytes: vec![in alloc; 0; AHEAD]?,
            from: 0,
            to: 0,
        })
    }

    /// Whether there are no bytes.
    pub(crate) fn is_empty(&self) -> bool
        ensures some { result ≡ false → 0 < length self.now }
        ensures none { result ≡ true → self.now ≡ [] }
    {
        self.from == self.to
    }

    /// Reads ahead by one read of the stream, which is tried again if a signal interrupted it, when
    /// no bytes are held.
    pub(crate) fn refill<R: Read>(&mut self, stream: &mut R) -> io::Result<()>
        requires empty { self.old ≡ [] }
        ensures read { OnOk result
            (Consumes (R.remaining stream.old) (R.remaining stream.new) self.new) }
        ensures end { OnOk result (self.new ≡ [] → IsAtEnd (R.remaining stream.new)) }
        ensures unread { OnErr result (Keeps (R.remaining stream.old) (R.remaining stream.new)) }
        ensures kept { OnErr result (self.new ≡ []) }
    {
        self.from = 0;
        self.to = 0;
        let n = read_through_signals(stream, &mut self.bytes)?;
        self.to = n;
        Ok(())
    }

    /// Moves bytes from its front to the front of `out`, as many as both have, and returns how
    /// many.
    pub(crate) fn hand_out(&mut self, out: &mut [u8]) -> usize
        ensures count { result ≡ min (length self.old) (length out.old) }
        ensures given { self.old ≡ take result out.new ++ self.new }
        ensures rest { drop result out.new ≡ drop result out.old }
        ensures bound { length self.new ≤ 32768 }
    {
        let n = out.len().min(self.to - self.from);
        let end = self.from + n;
        out[..n].copy_from_slice(&self.bytes[self.from..end]);
        self.from = end;
        n
    }

    /// Moves the next bytes to the front of `out`, as many as both have: those held or, if there
    /// are none, those that one read of the stream gives.
    pub(crate) fn read<R: Read>(&mut self, stream: &mut R, out: &mut [u8]) -> io::Result<usize>
        ensures bound { IfOk result (λ n. n ≤ length out.old) }
        ensures read { IfOk result (λ n.
            Consumes (prepend_known self.old (R.remaining stream.old))
            (prepend_known self.new (R.remaining stream.new)) (take n out.new)) }
        ensures rest { IfOk result (λ n. drop n out.new ≡ drop n out.old) }
        ensures end { IfOk result (λ n. n ≡ 0 → 0 < length out.old →
            IsAtEnd (prepend_known self.new (R.remaining stream.new))) }
        ensures unread { OnErr result
            (Keeps (prepend_known self.old (R.remaining stream.old))
            (prepend_known self.new (R.remaining stream.new))) }
        ensures enough { 0 < length self.old → IsOk result }
        ensures unasked { 0 < length self.old → stream.new ≡ stream.old }
        ensures ahead_bound { length self.new ≤ 32768 }
    {
        if !self.is_empty() || out.is_empty() {
            return Ok(self.hand_out(out));
        }
        self.refill(stream)?;
        Ok(self.hand_out(out))
    }
}
