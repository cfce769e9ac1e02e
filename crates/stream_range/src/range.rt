//! A range of a stream's plaintext.

ghost use Rattle.std.specs.Prelude.{◌≡◌, ℕ, ◌+◌, ◌-◌, ◌*◌, ◌/◌, ◌<◌, ◌≤◌, ◌^◌, min, List, [], length, take, Some, IfOk, IfSome, IsErrOf, replicate, true};
ghost use Rattle.std.specs.Vec.{vec_capacity, vec_len};
ghost use Rattle.tink_spec.specs.Outside.{Rose, RoseOnce, Stood};
ghost use Rattle.segment_stream.specs.Cipher.{SegmentCipher};
ghost use Rattle.segment_stream.specs.Opening.{choose};
ghost use Rattle.segment_stream.specs.Range.{covering, range_of, range_under};
ghost use Rattle.segment_stream.specs.Segments.{ciphers_of};
ghost use Rattle.segment_stream.specs.StreamKeys.{largest_of};
ghost use Rattle.stream_range.specs.Answers.{CoversUnder, IsAnswer, IsRange, covering_by, fault_of};
ghost use Rattle.stream_range.specs.Device.{KeptDevice};
ghost use Rattle.stream_range.specs.Reading.{Begins, HasSizes};

use crate::Device;
use crate::covering::open_run;
use crate::piece::{PieceFault, open_piece, read_all};
use crate::sizes::Begun;
use crate::trying::choose_key;
use segment_stream::StreamKeys;
use std::alloc::Global;
use tink_base::NoMemory;

/// Why a range wasn't opened. Pieces are counted from 0. The causes are checked in this order: no
/// key opens the first piece; the final piece doesn't open as the last; the range ends past the
/// plaintext; a piece that covers it doesn't open in its place.
#[derive(Clone, Copy, Debug, PartialEq, Eq)]
pub enum RangeFault {
    /// The piece of this number doesn't open in its place; it is 0 if no key opens the first one.
    StreamFailed(u64),
    /// The range ends past the plaintext.
    PastEnd,
    /// The device failed. This may come instead of any other answer.
    ReadFault,
    /// Memory couldn't be allocated, before anything was read.
    NoMemory,
}

/// The fault of a range whose piece has this fault.
fn fault_of(fault: PieceFault) -> RangeFault
    ensures { result ≡ fault_of fault }
{
    match fault {
        PieceFault::StreamFailed(number) => RangeFault::StreamFailed(number),
        PieceFault::ReadFault => RangeFault::ReadFault,
    }
}

/// A buffer of `size` bytes.
fn zeros(alloc: Global, size: usize) -> Result<Vec<u8>, NoMemory>
    ensures { IfOk result (λ bytes. bytes.items ≡ replicate size 0) }
{
    match vec![in alloc; 0; size] {
        Ok(bytes) => Ok(bytes),
        Err(_) => Err(NoMemory),
    }
}

/// Opens the range of a begun stream, after its final piece, into `plain`, which is empty and has
/// room for it. The buffer has room for a segment. No memory is taken.
fn open_begun<V: Device>(
    device: &mut V,
    begun: &mut Begun,
    from: u64,
    to: u64,
    buffer: &mut [u8],
    plain: &mut Vec<u8>,
) -> Result<(), RangeFault>
    requires order { from ≤ to }
    requires header { begun.old.sizes.header ≤ (V.state device.old).size }
    requires fits { min begun.old.sizes.segment (V.state device.old).size ≤ length buffer.old }
    requires empty { plain.old.items ≡ [] }
    requires room { to - from ≤ vec_capacity plain.old }
    ensures range { (key : SegmentCipher) (bytes : List ℕ)
        → (V.state device.old).bytes ≡ Some bytes → Begins begun.old key bytes
        → IsAnswer result plain.new.items (range_under key bytes from to) }
    ensures kept { KeptDevice (V.state device.old) (V.state device.new) }
    ensures lent { V.lent device.new ≡ V.lent device.old }
    ensures given { (key : SegmentCipher) → HasSizes begun.old.sizes key
        → (V.state device.new).given
        ≤ (V.state device.old).given + (covering key from to + 1) * key.size }
    ensures given_past { IsErrOf result RangeFault.PastEnd →
        (V.state device.new).given ≤ (V.state device.old).given + begun.old.sizes.segment }
    ensures memory { IsErrOf result RangeFault.NoMemory → ⊥ }
    ensures no_fault { (IsErrOf result RangeFault.ReadFault → ⊥) →
        Stood (V.state device.old).faults (V.state device.new).faults }
    ensures failed { IsErrOf result RangeFault.ReadFault →
        Rose (V.state device.old).faults (V.state device.new).faults }
    ensures once { IsErrOf result RangeFault.ReadFault →
        RoseOnce (V.state device.old).faults (V.state device.new).faults }
{
    let size = device.size();
    let sizes = begun.sizes;
    match open_piece(device, begun, sizes.final_piece(size), buffer) {
        Ok(_) => {}
        Err(fault) => return Err(fault_of(fault)),
    }
    if sizes.plain_length(size) < to {
        return Err(RangeFault::PastEnd);
    }
    let first = sizes.piece_of(from);
    let count = sizes.covering(from, to);
    let most = (to - from) as usize;
    match open_run(
        device,
        begun,
        first,
        count,
        sizes.before(from),
        most,
        buffer,
        plain,
    ) {
        Ok(()) => Ok(()),
        Err(fault) => Err(fault_of(fault)),
    }
}

/// Opens the range of a stream into `plain`, which is empty and has room for it. The buffer has
/// room for the largest segment, or for the whole stream. No memory is taken.
fn open_into<V: Device>(
    keys: &StreamKeys,
    ad: &[u8],
    device: &mut V,
    from: u64,
    to: u64,
    buffer: &mut [u8],
    plain: &mut Vec<u8>,
) -> Result<(), RangeFault>
    requires order { from ≤ to }
    requires fits { length buffer.old
        ≡ min (largest_of keys.now.keys) (V.state device.old).size }
    requires empty { plain.old.items ≡ [] }
    requires room { to - from ≤ vec_capacity plain.old }
    ensures range { IfSome (V.state device.old).bytes (λ bytes.
        IsAnswer result plain.new.items (range_of (ciphers_of ad.now keys.now.keys) bytes from to)) }
    ensures kept { KeptDevice (V.state device.old) (V.state device.new) }
    ensures lent { V.lent device.new ≡ V.lent device.old }
    ensures given { IfSome (V.state device.old).bytes (λ bytes.
        (V.state device.new).given ≤ (V.state device.old).given
        + (covering_by (choose (ciphers_of ad.now keys.now.keys) bytes true) from to + 2)
        * largest_of keys.now.keys) }
    ensures given_untold { (count : ℕ)
        × CoversUnder (ciphers_of ad.now keys.now.keys) from to count
        × ((V.state device.new).given ≤ (V.state device.old).given
        + (count + 2) * largest_of keys.now.keys) }
    ensures given_past { IsErrOf result RangeFault.PastEnd →
        (V.state device.new).given
        ≤ (V.state device.old).given + 2 * largest_of keys.now.keys }
    ensures memory { IsErrOf result RangeFault.NoMemory → ⊥ }
    ensures no_fault { (IsErrOf result RangeFault.ReadFault → ⊥) →
        Stood (V.state device.old).faults (V.state device.new).faults }
    ensures failed { IsErrOf result RangeFault.ReadFault →
        Rose (V.state device.old).faults (V.state device.new).faults }
    ensures once { IsErrOf result RangeFault.ReadFault →
        RoseOnce (V.state device.old).faults (V.state device.new).faults }
{
    let size = device.size();
    match read_all(device, 0, buffer) {
        Ok(()) => {}
        Err(_) => return Err(RangeFault::ReadFault),
    }
    match choose_key(keys.keys(), ad, size, buffer) {
        Some(mut begun) => open_begun(device, &mut begun, from, to, buffer, plain),
        None => Err(RangeFault::StreamFailed(0)),
    }
}

/// Opens bytes `from` up to `to`, counted from 0, of the plaintext of a sealed stream of Tink's
/// streaming AEAD on the device, with this associated data. `from` is at most `to`, and the range
/// has at most 16,777,216 bytes. The stream's key is the first one that opens the first segment in
/// its place.
///
/// It reads the first segment, the final one, which must open as the last, and the segments that
/// cover the range, each of which must open in its place; an empty range has none of these.
/// Segments that aren't read needn't authenticate. `StreamFailed` and `PastEnd` come if and only if
/// one of these doesn't open, or the range ends past the plaintext. A segment with a number of 2^32
/// or more doesn't open. `ReadFault` comes only if the device failed; then it isn't asked again.
/// The device reads at most the bytes of as many segments of the largest size as cover the range,
/// plus two; only two if no key is chosen, or at `PastEnd`.
///
/// All memory is taken before the first read: the result's, and a buffer for the largest segment,
/// or for the whole stream if that is shorter.
pub fn open_range<V: Device>(
    alloc: Global,
    keys: &StreamKeys,
    ad: &[u8],
    device: &mut V,
    from: u64,
    to: u64,
) -> Result<Vec<u8>, RangeFault>
    requires order { from ≤ to }
    requires bound { to - from ≤ 16777216 }
    ensures range { IfSome (V.state device.old).bytes (λ bytes.
        IsRange result (range_of (ciphers_of ad.now keys.now.keys) bytes from to)) }
    ensures kept { KeptDevice (V.state device.old) (V.state device.new) }
    ensures lent { V.lent device.new ≡ V.lent device.old }
    ensures given { IfSome (V.state device.old).bytes (λ bytes.
        (V.state device.new).given ≤ (V.state device.old).given
        + (covering_by (choose (ciphers_of ad.now keys.now.keys) bytes true) from to + 2)
        * largest_of keys.now.keys) }
    ensures given_untold { (count : ℕ)
        × CoversUnder (ciphers_of ad.now keys.now.keys) from to count
        × ((V.state device.new).given ≤ (V.state device.old).given
        + (count + 2) * largest_of keys.now.keys) }
    ensures given_past { IsErrOf result RangeFault.PastEnd →
        (V.state device.new).given
        ≤ (V.state device.old).given + 2 * largest_of keys.now.keys }
    ensures unread { IsErrOf result RangeFault.NoMemory →
        V.state device.new ≡ V.state device.old }
    ensures no_fault { (IsErrOf result RangeFault.ReadFault → ⊥) →
        Stood (V.state device.old).faults (V.state device.new).faults }
    ensures failed { IsErrOf result RangeFault.ReadFault →
        Rose (V.state device.old).faults (V.state device.new).faults }
    ensures once { IsErrOf result RangeFault.ReadFault →
        RoseOnce (V.state device.old).faults (V.state device.new).faults }
{
    let front = (keys.largest() as u64).min(device.size()) as usize;
    let mut plain = match Vec::with_capacity(alloc, (to - from) as usize) {
        Ok(plain) => plain,
        Err(_) => return Err(RangeFault::NoMemory),
    };
    let mut buffer = match zeros(alloc, front) {
        Ok(buffer) => buffer,
        Err(_) => return Err(RangeFault::NoMemory),
    };
    match open_into(
        keys,
        ad,
        device,
        from,
        to,
        buffer.as_mut_slice(),
        &mut plain,
    ) {
        Ok(()) => Ok(plain),
        Err(fault) => Err(fault),
    }
}
