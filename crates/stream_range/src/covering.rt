//! The pieces that cover a range, opened one after another.

ghost use Rattle.std.specs.Prelude.{◌≡◌, ℕ, ◌+◌, ◌-◌, ◌*◌, ◌/◌, ◌<◌, ◌≤◌, ◌^◌, min, List, [], ◌++◌, length, take, drop, Some, IsErrOf};
ghost use Rattle.std.specs.Vec.{vec_capacity, vec_len};
ghost use Rattle.tink_spec.specs.Outside.{Rose, RoseOnce, Stood};
ghost use Rattle.segment_stream.specs.Cipher.{SegmentCipher};
ghost use Rattle.segment_stream.specs.Opening.{opens_at};
ghost use Rattle.segment_stream.specs.Pieces.{leading};
ghost use Rattle.stream_range.specs.Device.{KeptDevice};
ghost use Rattle.stream_range.specs.Reading.{Begins, IsRun};

use crate::Device;
use crate::piece::{PieceFault, open_piece};
use crate::sizes::Begun;

/// Appends bytes to `plain`. No memory is taken: its block has room for them.
fn append(plain: &mut Vec<u8>, bytes: &[u8])
    requires room { vec_len plain.old + length bytes.now ≤ vec_capacity plain.old }
    ensures bytes { plain.new.items ≡ plain.old.items ++ bytes.now }
    ensures capacity { vec_capacity plain.new ≡ vec_capacity plain.old }
{
    for byte in bytes {
        plain.push_reserved(*byte);
    }
}

/// Appends bytes to `plain`, without the first `skip` of them, until it has `most`. Returns how
/// many of `skip` are left.
fn add(plain: &mut Vec<u8>, bytes: &[u8], skip: u64, most: usize) -> u64
    requires room { most ≤ vec_capacity plain.old }
    requires within { vec_len plain.old ≤ most }
    ensures bytes { plain.new.items
        ≡ plain.old.items ++ take (most - vec_len plain.old) (drop skip bytes.now) }
    ensures left { result ≡ skip - length bytes.now }
    ensures within { vec_len plain.new ≤ most }
    ensures capacity { vec_capacity plain.new ≡ vec_capacity plain.old }
{
    let start = skip.min(bytes.len() as u64) as usize;
    let end = start + (bytes.len() - start).min(most - plain.len());
    append(plain, &bytes[start..end]);
    skip - start as u64
}

/// Opens `count` pieces from number `first` on, each in its place, and puts their plaintexts into
/// `plain`, without the first `skip` bytes and at most `most` bytes. No memory is taken.
pub(crate) fn open_run<V: Device>(
    device: &mut V,
    begun: &mut Begun,
    first: u64,
    count: u64,
    skip: u64,
    most: usize,
    buffer: &mut [u8],
    plain: &mut Vec<u8>,
) -> Result<(), PieceFault>
    requires numbers { (i : ℕ) → i < count
        → first + i ≤ ((V.state device.old).size - 1) / begun.old.sizes.segment }
    requires bound { first + count < 2 ^ 64 }
    requires header { begun.old.sizes.header ≤ (V.state device.old).size }
    requires fits { min begun.old.sizes.segment (V.state device.old).size ≤ length buffer.old }
    requires empty { plain.old.items ≡ [] }
    requires room { most ≤ vec_capacity plain.old }
    ensures opens { (key : SegmentCipher) (bytes : List ℕ)
        → (V.state device.old).bytes ≡ Some bytes → Begins begun.old key bytes
        → IsRun result plain.new.items skip most first count
        (leading (opens_at key bytes) first count) }
    ensures kept { KeptDevice (V.state device.old) (V.state device.new) }
    ensures lent { V.lent device.new ≡ V.lent device.old }
    ensures capacity { vec_capacity plain.new ≡ vec_capacity plain.old }
    ensures given { (V.state device.new).given
        ≤ (V.state device.old).given + count * begun.old.sizes.segment }
    ensures no_fault { (IsErrOf result PieceFault.ReadFault → ⊥) →
        Stood (V.state device.old).faults (V.state device.new).faults }
    ensures failed { IsErrOf result PieceFault.ReadFault →
        Rose (V.state device.old).faults (V.state device.new).faults }
    ensures once { IsErrOf result PieceFault.ReadFault →
        RoseOnce (V.state device.old).faults (V.state device.new).faults }
{
    let mut skip_left = skip;
    for i in 0..count {
        match open_piece(device, begun, first + i, buffer) {
            Ok((from, n)) => skip_left = add(plain, &buffer[from..from + n], skip_left, most),
            Err(fault) => return Err(fault),
        }
    }
    Ok(())
}
