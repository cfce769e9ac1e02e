//! A device whose bytes are drawn ahead, so that many small draws take one read of it.

ghost use Rattle.std.specs.Prelude.{◌≡◌, ◌<◌, ◌≤◌, None, [], ◌++◌, length, take, drop, min, true, false, IsOk, OnOk, OnErr};
ghost use Rattle.std.specs.Io.KnownBytes.{Consumes, IsAtEnd, Keeps};
ghost use Rattle.real_objects.specs.Device.{ahead_left, Skips};

use crate::streams::read_through_signals;
use std::fs::File;
use std::io::{self, ErrorKind, Read};
use std::marker::Model;

/// The most bytes that are drawn ahead.
const AHEAD: usize = 1 << 10;

/// If no bytes are held, a read of more bytes than this goes directly to the device.
const SMALL: usize = 64;

/// Bytes that were drawn and not yet handed out, in order; at most 1,024.
///
/// Contracts see the list of them. Bytes handed out are overwritten with zeros here, as the
/// invariant states for the array's front.
#[derive(Drop)]
struct Held {
    bytes: [u8; AHEAD],
    from: usize,
    to: usize,
}

impl Model for Held {
    ghost use Rattle.std.specs.Prelude.{◌≡◌, ◌≤◌, List, ℕ, take, replicate, slice_range};

    ghost Value = { List ℕ };

    ghost view = { λ held. slice_range held.bytes held.from held.to };

    ghost invariant = { λ held. (held.from ≤ held.to) × (held.to ≤ 1024)
        × (take held.from held.bytes ≡ replicate held.from 0) };
}

impl Held {
    /// No bytes.
    fn new() -> Held
        ensures { result ≡ [] }
    {
        Held {
            bytes: [0; AHEAD],
            from: 0,
            to: 0,
        }
    }

    /// Whether there are no bytes.
    fn is_empty(&self) -> bool
        ensures some { result ≡ false → 0 < length self.now }
        ensures none { result ≡ true → self.now ≡ [] }
    {
        self.from == self.to
    }

    /// Draws ahead by one read of the device, when no bytes are held.
    fn refill<R: Read>(&mut self, device: &mut R) -> io::Result<()>
        requires empty { self.old ≡ [] }
        ensures drawn { OnOk result
            (Consumes (R.remaining device.old) (R.remaining device.new) self.new) }
        ensures end { OnOk result (self.new ≡ [] → IsAtEnd (R.remaining device.new)) }
        ensures unread { OnErr result (Keeps (R.remaining device.old) (R.remaining device.new)) }
        ensures kept { OnErr result (self.new ≡ []) }
    {
        self.from = 0;
        self.to = 0;
        let n = device.read(&mut self.bytes)?;
        self.to = n;
        Ok(())
    }

    /// Moves bytes from its front to the front of `out`, as many as both have, and returns how
    /// many.
    fn hand_out(&mut self, out: &mut [u8]) -> usize
        ensures count { result ≡ min (length self.old) (length out.old) }
        ensures given { self.old ≡ take result out.new ++ self.new }
        ensures room { length out.new ≡ length out.old }
    {
        let n = out.len().min(self.to - self.from);
        let end = self.from + n;
        let given = &mut self.bytes[self.from..end];
        out[..n].copy_from_slice(given);
        given.fill(0);
        self.from = end;
        n
    }

    /// The bytes.
    fn bytes(&self) -> &[u8]
        ensures { result.now ≡ self.now }
    {
        &self.bytes[self.from..self.to]
    }

    /// Drops `count` bytes from the front, and overwrites them with zeros.
    fn skip(&mut self, count: usize)
        requires within { count ≤ length self.old }
        ensures { self.new ≡ drop count self.old }
    {
        let end = self.from + count;
        self.bytes[self.from..end].fill(0);
        self.from += count;
    }
}

/// A device of bytes.
pub trait Device: Read {
    /// It reports its bytes always or never.
    ghost untold: { (s t : Self) → Self.remaining s ≡ None → Self.remaining t ≡ None };
}

impl Device for File {
    ghost untold = { λ s t none. none };
}

/// A device and the bytes drawn ahead from it.
#[derive(Drop)]
pub struct Ahead<R> {
    device: R,
    held: Held,
}

impl<R: Device> Ahead<R> {
    /// The device, with nothing drawn ahead yet.
    pub(crate) fn new(device: R) -> Ahead<R>
        ensures kept { Keeps (R.remaining device) (ahead_left R.remaining result) }
        ensures untold { R.remaining device ≡ None → ahead_left R.remaining result ≡ None }
    {
        Ahead {
            device,
            held: Held::new(),
        }
    }

    /// Fills `out` with the next bytes: those that are held, then what reads give. If it fails,
    /// some of these bytes may be lost.
    pub(crate) fn fill(&mut self, out: &mut [u8]) -> io::Result<()>
        ensures filled { OnOk result (Consumes (ahead_left R.remaining self.old)
            (ahead_left R.remaining self.new) out.new) }
        ensures goes_on { OnErr result (Skips (ahead_left R.remaining self.old)
            (ahead_left R.remaining self.new) (length out.old)) }
        ensures untold { ahead_left R.remaining self.old ≡ None →
            ahead_left R.remaining self.new ≡ None }
        ensures enough { length out.old ≤ length self.old.held → IsOk result }
    {
        let n = self.held.hand_out(out);
        fill_from(self, &mut out[n..])
    }

    /// The bytes drawn ahead.
    pub(crate) fn held(&self) -> &[u8]
        ensures { result.now ≡ self.now.held }
    {
        self.held.bytes()
    }

    /// Drops `count` of the bytes drawn ahead. The device isn't called.
    pub(crate) fn skip(&mut self, count: usize)
        requires within { count ≤ length self.old.held }
        ensures gone { Consumes (ahead_left R.remaining self.old)
            (ahead_left R.remaining self.new) (take count self.old.held) }
        ensures untold { ahead_left R.remaining self.old ≡ None →
            ahead_left R.remaining self.new ≡ None }
    {
        self.held.skip(count);
    }
}

impl<R: Read> Read for Ahead<R> {
    ghost remaining = { ahead_left R.remaining };

    /// Returns bytes drawn ahead or, if these are used up, what one read of the device gives. A
    /// read of at most 64 bytes draws ahead as many as the device gives at once, up to 1,024.
    fn read(&mut self, out: &mut [u8]) -> io::Result<usize> {
        if self.held.is_empty() {
            if out.len() > SMALL {
                return self.device.read(out);
            }
            self.held.refill(&mut self.device)?;
        }
        Ok(self.held.hand_out(out))
    }
}

/// Fills `out` with the next bytes of a device. If it fails, some of these bytes may be lost.
fn fill_from<R: Read>(device: &mut R, out: &mut [u8]) -> io::Result<()>
    ensures filled { OnOk result
        (Consumes (R.remaining device.old) (R.remaining device.new) out.new) }
    ensures goes_on { OnErr result
        (Skips (R.remaining device.old) (R.remaining device.new) (length out.old)) }
    ensures nothing { length out.old ≡ 0 → IsOk result }
{
    let mut at = 0;
    while at < out.len() {
        match read_through_signals(device, &mut out[at..]) {
            Ok(0) => return Err(io::Error::from(ErrorKind::UnexpectedEof)),
            Ok(n) => at += n,
            Err(error) => return Err(error),
        }
    }
    Ok(())
}
