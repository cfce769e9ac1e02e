//! A buffer that is filled at the back and emptied from the front. Its block is reserved once, and
//! it grows within the block as bytes come, so that unused memory isn't touched.

ghost use Rattle.std.specs.Prelude.{◌≡◌, ◌+◌, ◌-◌, ◌≤◌, ◌<◌, [], length, take, drop, OnErr, OnOk, IfOk};
ghost use Rattle.std.specs.Borrow.{sem};
ghost use Rattle.std.specs.Vec.{vec_capacity, vec_len};
ghost use Rattle.tink_spec.specs.Outside.{Gave, GoesOn, IsAtEnd, Rose, RoseOnce, Stood, StopsAtEnd};
ghost use Rattle.segment_stream.specs.Lending.{lends_bytes};
ghost use Rattle.segment_stream.specs.Reading.{GaveBelow, IsInPlace, ReadBehind, ReadOn};

use std::alloc::Global;
use tink_base::{Failed, NoMemory, Source};

/// The most bytes by which a buffer grows at once.
const STEP: usize = 65536;

/// Bytes in a block reserved for as many as there may ever be. Only `reserved` takes memory, and no
/// call returns the allocator.
#[derive(Drop)]
pub(crate) struct Buffer {
    bytes: Vec<u8>,
}

impl Buffer {
    /// No bytes, in a block for `size` bytes.
    pub(crate) fn reserved(alloc: Global, size: usize) -> Result<Buffer, NoMemory>
        ensures empty { IfOk result (λ buffer. buffer.bytes.items ≡ []) }
        ensures room { IfOk result (λ buffer. vec_capacity buffer.bytes ≡ size) }
    {
        match Vec::with_capacity(alloc, size) {
            Ok(bytes) => Ok(Buffer { bytes }),
            Err(_) => Err(NoMemory),
        }
    }

    /// The bytes.
    pub(crate) fn as_slice(&self) -> &[u8]
        ensures value { result.now ≡ self.now.bytes.items }
        ensures len { length result.now ≡ vec_len self.now.bytes }
    {
        self.bytes.as_slice()
    }

    /// The bytes, for overwriting.
    pub(crate) fn as_mut_slice(&mut self) -> &mut [u8]
        ensures* writes_back { sem 𝓛 (lends_bytes self.entry result) }
        ensures value { result.now ≡ self.old.bytes.items }
        ensures len { length result.now ≡ vec_len self.old.bytes }
    {
        self.bytes.as_mut_slice()
    }
}

/// Reads once after the first `len` bytes of the buffer, up to `end`, and returns how many bytes
/// came: 0 only at the end.
pub(crate) fn fill<S: Source>(
    source: &mut S,
    buffer: &mut [u8],
    len: usize,
    end: usize,
) -> Result<usize, Failed>
    requires room { len < end }
    requires fits { end ≤ length buffer.old }
    ensures bound { IfOk result (λ n. len + n ≤ end) }
    ensures reads { IfOk result (λ n. ReadBehind (S.state source.old) (S.state source.new)
        (take len buffer.old) (take (len + n) buffer.new) n) }
    ensures end { IfOk result (λ n. n ≡ 0 → IsAtEnd (S.state source.new)) }
    ensures goes_on { IfOk result (λ n. 0 < n →
        GoesOn (S.state source.old) (S.state source.new)) }
    ensures stops { StopsAtEnd (S.state source.old) (S.state source.new) }
    ensures once { OnErr result
        (RoseOnce (S.state source.old).faults (S.state source.new).faults) }
    ensures no_fault { OnOk result (Stood (S.state source.old).faults (S.state source.new).faults) }
    ensures failed { OnErr result (Rose (S.state source.old).faults (S.state source.new).faults) }
    ensures kept { OnErr result (Gave (S.state source.old) (S.state source.new) []) }
{
    match source.read(&mut buffer[len..end]) {
        Ok(n) => Ok(n),
        Err(_) => Err(Failed),
    }
}

/// Adds `count` zero bytes to the buffer. No memory is taken: its block has room for them, and
/// isn't moved.
pub(crate) fn lengthen(buffer: &mut Buffer, count: usize)
    requires room { vec_len buffer.old.bytes + count ≤ vec_capacity buffer.old.bytes }
    ensures len { vec_len buffer.new.bytes ≡ vec_len buffer.old.bytes + count }
    ensures kept { take (vec_len buffer.old.bytes) buffer.new.bytes.items ≡ buffer.old.bytes.items }
    ensures in_place { IsInPlace buffer.old.bytes buffer.new.bytes }
{
    let end = buffer.bytes.len() + count;
    while buffer.bytes.len() < end {
        buffer.bytes.push_reserved(0);
    }
}

/// Adds zero bytes until the buffer has at least `end`. No memory is taken: its block has room for
/// them, and isn't moved.
pub(crate) fn lengthen_to(buffer: &mut Buffer, end: usize)
    requires room { end ≤ vec_capacity buffer.old.bytes }
    ensures len { end ≤ vec_len buffer.new.bytes }
    ensures longer { vec_len buffer.old.bytes ≤ vec_len buffer.new.bytes }
    ensures kept { take (vec_len buffer.old.bytes) buffer.new.bytes.items ≡ buffer.old.bytes.items }
    ensures in_place { IsInPlace buffer.old.bytes buffer.new.bytes }
{
    let there = buffer.bytes.len();
    if there < end {
        lengthen(buffer, end - there);
    }
}

/// Reads once after the first `len` bytes, up to `end`, as `fill` does. A buffer of no more than
/// `len` bytes grows first, by at most `STEP`. No memory is taken: its block isn't moved.
fn fill_reserved<S: Source>(
    source: &mut S,
    buffer: &mut Buffer,
    len: usize,
    end: usize,
) -> Result<usize, Failed>
    requires room { len < end }
    requires fits { end ≤ vec_capacity buffer.old.bytes }
    requires within { len ≤ vec_len buffer.old.bytes }
    ensures bound { IfOk result (λ n. len + n ≤ end) }
    ensures within { IfOk result (λ n. len + n ≤ vec_len buffer.new.bytes) }
    ensures in_place { IsInPlace buffer.old.bytes buffer.new.bytes }
    ensures reads { IfOk result (λ n. ReadBehind (S.state source.old) (S.state source.new)
        (take len buffer.old.bytes.items) (take (len + n) buffer.new.bytes.items) n) }
    ensures end { IfOk result (λ n. n ≡ 0 → IsAtEnd (S.state source.new)) }
    ensures goes_on { IfOk result (λ n. 0 < n →
        GoesOn (S.state source.old) (S.state source.new)) }
    ensures stops { StopsAtEnd (S.state source.old) (S.state source.new) }
    ensures once { OnErr result
        (RoseOnce (S.state source.old).faults (S.state source.new).faults) }
    ensures no_fault { OnOk result (Stood (S.state source.old).faults (S.state source.new).faults) }
    ensures failed { OnErr result (Rose (S.state source.old).faults (S.state source.new).faults) }
    ensures kept { OnErr result (Gave (S.state source.old) (S.state source.new) []) }
{
    if buffer.bytes.len() == len {
        lengthen(buffer, STEP.min(end - len));
    }
    let there = end.min(buffer.bytes.len());
    fill(source, buffer.bytes.as_mut_slice(), len, there)
}

/// Reads after the first `held` bytes of the buffer until it holds `end`, or the end was seen, and
/// returns how many it then holds. No memory is taken: the buffer's block isn't moved.
pub(crate) fn fill_until<S: Source>(
    source: &mut S,
    buffer: &mut Buffer,
    held: usize,
    end: usize,
) -> Result<usize, Failed>
    requires fits { end ≤ vec_capacity buffer.old.bytes }
    requires within { held ≤ end }
    requires holds { held ≤ vec_len buffer.old.bytes }
    ensures bound { IfOk result (λ len. len ≤ end) }
    ensures holds { IfOk result (λ len. len ≤ vec_len buffer.new.bytes) }
    ensures in_place { IsInPlace buffer.old.bytes buffer.new.bytes }
    ensures reads { IfOk result (λ len. ReadOn (S.state source.old) (S.state source.new)
        (take held buffer.old.bytes.items) (take len buffer.new.bytes.items)) }
    ensures end { IfOk result (λ len. len < end → IsAtEnd (S.state source.new)) }
    ensures goes_on { IfOk result (λ len. end ≤ len →
        GoesOn (S.state source.old) (S.state source.new)) }
    ensures stops { StopsAtEnd (S.state source.old) (S.state source.new) }
    ensures once { OnErr result
        (RoseOnce (S.state source.old).faults (S.state source.new).faults) }
    ensures no_fault { OnOk result (Stood (S.state source.old).faults (S.state source.new).faults) }
    ensures failed { OnErr result (Rose (S.state source.old).faults (S.state source.new).faults) }
    ensures gave { OnErr result (GaveBelow (S.state source.old) (S.state source.new) held end) }
{
    let mut len = held;
    while len < end {
        let n = match fill_reserved(source, buffer, len, end) {
            Ok(n) => n,
            Err(_) => return Err(Failed),
        };
        if n == 0 {
            return Ok(len);
        }
        len += n;
    }
    Ok(len)
}

/// Moves bytes `by` to `len` of the buffer to the front.
pub(crate) fn turn(buffer: &mut [u8], by: usize, len: usize)
    requires within { by ≤ len }
    requires fits { len ≤ length buffer.old }
    ensures { take (len - by) buffer.new ≡ drop by (take len buffer.old) }
{
    if by > 0 {
        buffer.copy_within(by..len, 0);
    }
}
