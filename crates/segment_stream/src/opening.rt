//! Opening the segments of a stream after the first, in one pass over one buffer.

ghost use Rattle.std.specs.Prelude.{◌≡◌, ℕ, ◌+◌, ◌-◌, ◌≤◌, ◌<◌, ◌^◌, Bool, List, length, take, drop, false, true, IfErr, IfOk, OnOk};
ghost use Rattle.tink_spec.specs.Outside.{IsAtEnd, StopsAtEnd};
ghost use Rattle.segment_stream.specs.Cipher.{SegmentCipher};
ghost use Rattle.segment_stream.specs.Ending.{EndsSegment};
ghost use Rattle.segment_stream.specs.Halting.{Halts, IsOpened, OpensOn, ShowsFault};
ghost use Rattle.segment_stream.specs.Pumping.{Pumps, ShowsFaults, opening_under};
ghost use Rattle.segment_stream.specs.Segments.{opens_under};
ghost use Rattle.segment_stream.specs.Streams.{IsUnder};
ghost use Rattle.segment_stream.specs.Under.{Standing};

use crate::OpenPumpFault;
use crate::buffer::{fill, turn};
use crate::segments::{LAST_NUMBER, Stream};
use tink_base::{Sink, Source, write_all};

/// How a segment ended.
#[derive(Clone, Copy, Debug, PartialEq, Eq)]
pub(crate) enum SegmentEnd {
    /// Its plaintext was written.
    Written,
    /// Its plaintext wasn't written to the end.
    Unwritten,
    /// It doesn't open.
    Refused,
}

/// Opens a segment in its place, and writes its plaintext. A segment that doesn't open is
/// unchanged.
pub(crate) fn write_segment<K: Sink>(
    stream: &mut Stream,
    number: u64,
    last: bool,
    segment: &mut [u8],
    sink: &mut K,
) -> SegmentEnd
    requires number { number < 2 ^ 32 }
    requires bound { length segment.old ≤ 2 ^ 31 }
    ensures ends { EndsSegment
        (opens_under stream.old.keys stream.old.prefix number last segment.old) result
        (K.state sink.old) (K.state sink.new) }
    ensures kept { result ≡ SegmentEnd.Refused → segment.new ≡ segment.old }
    ensures stream { stream.new ≡ stream.old }
{
    match stream.open(number, last, segment) {
        Some(n) => match write_all(sink, &segment[..n]) {
            Ok(()) => SegmentEnd::Written,
            Err(_) => SegmentEnd::Unwritten,
        },
        None => SegmentEnd::Refused,
    }
}

/// The refusal if a segment with a byte after it doesn't open.
pub(crate) fn refused(number: u64) -> OpenPumpFault
    ensures many { number + 1 ≡ 2 ^ 32 → result ≡ OpenPumpFault.TooManySegments }
    ensures few { number + 1 < 2 ^ 32 → result ≡ OpenPumpFault.StreamFailed number }
{
    if number == LAST_NUMBER {
        OpenPumpFault::TooManySegments
    } else {
        OpenPumpFault::StreamFailed(number)
    }
}

/// Opens the segments that a byte follows, of the buffer's bytes `from` to `len`, and writes their
/// plaintexts. What is still held is moved to the front: returns the number of its first segment,
/// and how many bytes it has.
pub(crate) fn open_followed<K: Sink>(
    stream: &mut Stream,
    first: u64,
    buffer: &mut [u8],
    from: usize,
    len: usize,
    sink: &mut K,
) -> Result<(u64, usize), OpenPumpFault>
    requires some { 0 < stream.old.size }
    requires least { 1 ≤ first }
    requires most { first < 2 ^ 32 }
    requires front { from ≤ len }
    requires within { len ≤ length buffer.old }
    ensures stream { stream.new ≡ stream.old }
    ensures least { IfOk result (λ r. first ≤ r.0) }
    ensures most { IfOk result (λ r. r.0 < 2 ^ 32) }
    ensures none { IfOk result (λ r. r.0 ≡ first → r.1 ≡ len - from) }
    ensures short { IfOk result (λ r. r.1 ≤ stream.old.size) }
    ensures bound { IfOk result (λ r. r.1 ≤ 2 ^ 31) }
    ensures within { IfOk result (λ r. r.1 ≤ length buffer.old) }
    ensures opened { IfOk result (λ r. (cipher : SegmentCipher) (header taken written : List ℕ)
        → IsUnder stream.old cipher header
        → Standing cipher header taken first (drop from (take len buffer.old)) written
        → OpensOn cipher header taken written r.0 (take r.1 buffer.new)
        (K.state sink.old) (K.state sink.new)) }
    ensures fault { IfErr result (λ fault. (cipher : SegmentCipher) (header taken written : List ℕ)
        (ended : Bool) → IsUnder stream.old cipher header
        → Standing cipher header taken first (drop from (take len buffer.old)) written
        → Halts (opening_under cipher) fault taken written ended
        (K.state sink.old) (K.state sink.new)) }
    ensures shown { ShowsFault result (K.state sink.old) (K.state sink.new) }
{
    let size = stream.size();
    let mut start = from;
    let mut number = first;
    while len - start > size {
        let end = start + size;
        match write_segment(stream, number, false, &mut buffer[start..end], sink) {
            SegmentEnd::Written => {}
            SegmentEnd::Unwritten => return Err(OpenPumpFault::WriteFault),
            SegmentEnd::Refused => return Err(refused(number)),
        }
        number += 1;
        if number > LAST_NUMBER {
            return Err(OpenPumpFault::TooManySegments);
        }
        start = end;
    }
    turn(buffer, start, len);
    Ok((number, len - start))
}

/// Opens the last segment of a stream, and writes its plaintext.
fn open_last<K: Sink>(
    stream: &mut Stream,
    number: u64,
    segment: &mut [u8],
    sink: &mut K,
) -> Result<(), OpenPumpFault>
    requires least { 1 ≤ number }
    requires most { number < 2 ^ 32 }
    requires short { length segment.old ≤ stream.old.size }
    requires bound { length segment.old ≤ 2 ^ 31 }
    ensures opened { OnOk result ((cipher : SegmentCipher) (header taken written : List ℕ)
        → IsUnder stream.old cipher header
        → Standing cipher header taken number segment.old written
        → IsOpened (opening_under cipher) taken written (K.state sink.old) (K.state sink.new)) }
    ensures fault { IfErr result (λ fault. (cipher : SegmentCipher) (header taken written : List ℕ)
        → IsUnder stream.old cipher header
        → Standing cipher header taken number segment.old written
        → Halts (opening_under cipher) fault taken written true
        (K.state sink.old) (K.state sink.new)) }
    ensures shown { ShowsFault result (K.state sink.old) (K.state sink.new) }
{
    match write_segment(stream, number, true, segment, sink) {
        SegmentEnd::Written => Ok(()),
        SegmentEnd::Unwritten => Err(OpenPumpFault::WriteFault),
        SegmentEnd::Refused => Err(OpenPumpFault::StreamFailed(number)),
    }
}

/// Opens the rest of a stream, all of which is in the buffer, from `from` to `len`.
pub(crate) fn finish_under<K: Sink>(
    stream: &mut Stream,
    first: u64,
    buffer: &mut [u8],
    from: usize,
    len: usize,
    sink: &mut K,
) -> Result<(), OpenPumpFault>
    requires some { 0 < stream.old.size }
    requires least { 1 ≤ first }
    requires most { first < 2 ^ 32 }
    requires front { from ≤ len }
    requires within { len ≤ length buffer.old }
    ensures opened { OnOk result ((cipher : SegmentCipher) (header taken written : List ℕ)
        → IsUnder stream.old cipher header
        → Standing cipher header taken first (drop from (take len buffer.old)) written
        → IsOpened (opening_under cipher) taken written (K.state sink.old) (K.state sink.new)) }
    ensures fault { IfErr result (λ fault. (cipher : SegmentCipher) (header taken written : List ℕ)
        → IsUnder stream.old cipher header
        → Standing cipher header taken first (drop from (take len buffer.old)) written
        → Halts (opening_under cipher) fault taken written true
        (K.state sink.old) (K.state sink.new)) }
    ensures shown { ShowsFault result (K.state sink.old) (K.state sink.new) }
{
    match open_followed(stream, first, buffer, from, len, sink) {
        Ok(rest) => open_last(stream, rest.0, &mut buffer[..rest.1], sink),
        Err(fault) => Err(fault),
    }
}

/// Opens the rest of a stream whose first segment has opened. The first `held` bytes of the buffer
/// were taken after it; `whole` says whether the end was seen. If not, the buffer has room for one
/// byte more than a segment.
pub(crate) fn open_rest<S: Source, K: Sink>(
    stream: &mut Stream,
    buffer: &mut [u8],
    held: usize,
    whole: bool,
    source: &mut S,
    sink: &mut K,
) -> Result<(), OpenPumpFault>
    requires some { 0 < stream.old.size }
    requires fits { whole ≡ false → stream.old.size + 1 ≤ length buffer.old }
    requires within { held ≤ length buffer.old }
    requires end { whole ≡ true → IsAtEnd (S.state source.old) }
    ensures pumps { (cipher : SegmentCipher) (header taken written : List ℕ)
        → IsUnder stream.old cipher header
        → Standing cipher header taken 1 (take held buffer.old) written
        → Pumps (opening_under cipher) taken written whole result (S.state source.old)
        (S.state source.new) (K.state sink.old) (K.state sink.new) }
    ensures still { whole ≡ true → S.state source.new ≡ S.state source.old }
    ensures stops { whole ≡ false → StopsAtEnd (S.state source.old) (S.state source.new) }
    ensures shown { ShowsFaults result (S.state source.old) (S.state source.new)
        (K.state sink.old) (K.state sink.new) }
{
    let size = stream.size();
    let mut len = held;
    let mut ended = whole;
    let mut number = 1u64;
    while !ended {
        let rest = match open_followed(stream, number, buffer, 0, len, sink) {
            Ok(rest) => rest,
            Err(fault) => return Err(fault),
        };
        number = rest.0;
        len = rest.1;
        let n = match fill(source, buffer, len, size + 1) {
            Ok(n) => n,
            Err(_) => return Err(OpenPumpFault::ReadFault),
        };
        if n == 0 {
            ended = true;
        }
        len += n;
    }
    finish_under(stream, number, buffer, 0, len, sink)
}
