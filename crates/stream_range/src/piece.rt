//! One piece of a stream, read and opened in its place.

ghost use Rattle.std.specs.Prelude.{◌≡◌, ℕ, ◌+◌, ◌-◌, ◌*◌, ◌/◌, ◌<◌, ◌≤◌, ◌^◌, min, List, length, take, drop, Some, IfOk, OnOk, OnErr, IsErrOf};
ghost use Rattle.tink_spec.specs.Outside.{Rose, RoseOnce, Stood};
ghost use Rattle.segment_stream.specs.Cipher.{SegmentCipher};
ghost use Rattle.segment_stream.specs.Opening.{opens_at};
ghost use Rattle.segment_stream.specs.Segments.{opens_under};
ghost use Rattle.stream_range.specs.Device.{HasAt, KeptDevice, ReadsSome};
ghost use Rattle.stream_range.specs.Skipped.{skipped};
ghost use Rattle.stream_range.specs.Reading.{Begins, IsPiece};

use crate::Device;
use crate::sizes::Begun;
use tink_base::Failed;

/// The number of the last segment that a stream may have.
const LAST_NUMBER: u64 = 4294967295;

/// Why a piece has no plaintext.
#[derive(Clone, Copy)]
pub(crate) enum PieceFault {
    /// The piece of this number doesn't open in its place.
    StreamFailed(u64),
    /// The device failed.
    ReadFault,
}

/// Reads once after the first `done` bytes of `out`, which lies at `at`.
fn read_on<V: Device>(device: &mut V, at: u64, out: &mut [u8], done: usize) -> Result<usize, Failed>
    requires some { done < length out.old }
    requires within { at + length out.old ≤ (V.state device.old).size }
    requires bound { at + length out.old < 2 ^ 63 }
    ensures fits { IfOk result (λ n. (1 ≤ n) × (done + n ≤ length out.old)) }
    ensures reads { IfOk result (λ n. HasAt (V.state device.old) at (take done out.old) →
        HasAt (V.state device.old) at (take (done + n) out.new)) }
    ensures kept { KeptDevice (V.state device.old) (V.state device.new) }
    ensures lent { V.lent device.new ≡ V.lent device.old }
    ensures given { IfOk result (λ n.
        (V.state device.new).given ≤ (V.state device.old).given + n) }
    ensures given_none { OnErr result
        ((V.state device.new).given ≡ (V.state device.old).given) }
    ensures no_fault { OnOk result
        (Stood (V.state device.old).faults (V.state device.new).faults) }
    ensures failed { OnErr result
        (Rose (V.state device.old).faults (V.state device.new).faults) }
    ensures once { OnErr result
        (RoseOnce (V.state device.old).faults (V.state device.new).faults) }
{
    match device.read_at(at + done as u64, &mut out[done..]) {
        Ok(n) => Ok(n),
        Err(_) => Err(Failed),
    }
}

/// Fills `out` with the bytes from `at` on.
pub(crate) fn read_all<V: Device>(device: &mut V, at: u64, out: &mut [u8]) -> Result<(), Failed>
    requires within { at + length out.old ≤ (V.state device.old).size }
    requires bound { at + length out.old < 2 ^ 63 }
    ensures reads { OnOk result (HasAt (V.state device.old) at out.new) }
    ensures kept { KeptDevice (V.state device.old) (V.state device.new) }
    ensures lent { V.lent device.new ≡ V.lent device.old }
    ensures given { (V.state device.new).given ≤ (V.state device.old).given + length out.old }
    ensures no_fault { OnOk result
        (Stood (V.state device.old).faults (V.state device.new).faults) }
    ensures failed { OnErr result
        (Rose (V.state device.old).faults (V.state device.new).faults) }
    ensures once { OnErr result
        (RoseOnce (V.state device.old).faults (V.state device.new).faults) }
{
    let mut done = 0;
    while done < out.len() {
        match read_on(device, at, out, done) {
            Ok(n) => done += n,
            Err(_) => return Err(Failed),
        }
    }
    Ok(())
}

/// Opens the bytes of the piece of this number in place, and returns the plaintext's offset in them
/// and its size.
fn open_bytes(
    begun: &mut Begun,
    number: u64,
    last: bool,
    bytes: &mut [u8],
) -> Result<(usize, usize), PieceFault>
    requires number { number < 2 ^ 32 }
    requires header { skipped begun.old.sizes.header number ≤ length bytes.old }
    requires bound { length bytes.old ≤ 2 ^ 31 }
    ensures within { IfOk result (λ place. place.0 + place.1 ≤ length bytes.old) }
    ensures opens { IsPiece result bytes.new number
        (opens_under begun.old.stream.keys begun.old.stream.prefix number last
        (drop (skipped begun.old.sizes.header number) bytes.old)) }
    ensures read { IsErrOf result PieceFault.ReadFault → ⊥ }
    ensures begun { begun.new ≡ begun.old }
{
    let from = begun.sizes.skipped(number) as usize;
    match begun.stream.open(number, last, &mut bytes[from..]) {
        Some(n) => Ok((from, n)),
        None => Err(PieceFault::StreamFailed(number)),
    }
}

/// Reads the piece of this number to the front of the buffer and opens it in place. Returns the
/// plaintext's offset in the buffer and its size. A piece with a number of 2^32 or more isn't read,
/// and doesn't open.
pub(crate) fn open_piece<V: Device>(
    device: &mut V,
    begun: &mut Begun,
    number: u64,
    buffer: &mut [u8],
) -> Result<(usize, usize), PieceFault>
    requires number { number ≤ ((V.state device.old).size - 1) / begun.old.sizes.segment }
    requires header { begun.old.sizes.header ≤ (V.state device.old).size }
    requires room { min begun.old.sizes.segment (V.state device.old).size ≤ length buffer.old }
    ensures within { IfOk result (λ place. place.0 + place.1 ≤ length buffer.old) }
    ensures opens { (key : SegmentCipher) (bytes : List ℕ)
        → (V.state device.old).bytes ≡ Some bytes → Begins begun.old key bytes
        → IsPiece result buffer.new number (opens_at key bytes number) }
    ensures begun { begun.new ≡ begun.old }
    ensures kept { KeptDevice (V.state device.old) (V.state device.new) }
    ensures lent { V.lent device.new ≡ V.lent device.old }
    ensures given { (V.state device.new).given
        ≤ (V.state device.old).given + begun.old.sizes.segment }
    ensures no_fault { (IsErrOf result PieceFault.ReadFault → ⊥) →
        Stood (V.state device.old).faults (V.state device.new).faults }
    ensures failed { IsErrOf result PieceFault.ReadFault →
        Rose (V.state device.old).faults (V.state device.new).faults }
    ensures once { IsErrOf result PieceFault.ReadFault →
        RoseOnce (V.state device.old).faults (V.state device.new).faults }
{
    if number > LAST_NUMBER {
        return Err(PieceFault::StreamFailed(number));
    }
    let size = device.size();
    let at = number * begun.sizes.segment;
    let len = begun.sizes.segment.min(size - at) as usize;
    let last = number == begun.sizes.final_piece(size);
    let piece = &mut buffer[..len];
    match read_all(device, at, piece) {
        Ok(()) => open_bytes(begun, number, last, piece),
        Err(_) => Err(PieceFault::ReadFault),
    }
}
