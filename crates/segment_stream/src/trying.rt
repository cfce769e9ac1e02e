//! Opening a stream under the first of several keys that opens its first segment.

ghost use Rattle.std.specs.Prelude.{◌≡◌, ℕ, ◌+◌, ◌≤◌, ◌<◌, [], length, take, drop, false, true, ◌||◌, nat_lt, OnErr, OnOk, IfOk, All};
ghost use Rattle.std.specs.List.{AllByRecursion};
ghost use Rattle.std.specs.Vec.{vec_capacity, vec_len};
ghost use Rattle.tink_spec.specs.Outside.{IsAtEnd, Stood, StopsAtEnd};
ghost use Rattle.segment_stream.specs.Ending.{EndsFirst};
ghost use Rattle.segment_stream.specs.Halting.{ShowsFault};
ghost use Rattle.segment_stream.specs.Opening.{has_header};
ghost use Rattle.segment_stream.specs.Pumping.{Pumps, ShowsFaults, opening_any};
ghost use Rattle.segment_stream.specs.Reading.{Decided, IsInPlace, ReadsOn, Undecided};
ghost use Rattle.segment_stream.specs.Segments.{IsSound, cipher_of, ciphers_of};
ghost use Rattle.segment_stream.specs.Settling.{Chooses, IsBelow, TriesWithin};

use crate::OpenPumpFault;
use crate::buffer::{Buffer, fill_until, turn};
use crate::key::StreamKey;
use crate::opening::{SegmentEnd, open_rest, write_segment};
use crate::segments::Stream;
use crate::settling::Stage;
use tink_base::{Failed, Sink, Source};

/// How the trial of a key ended.
#[derive(Drop)]
pub(crate) enum Trial {
    /// Its first segment opened, and the plaintext was written.
    Written(Stream),
    /// Its first segment opened, and the plaintext wasn't written to the end.
    Unwritten,
    /// Its first segment doesn't open.
    Refused,
}

/// Reads, unless the end was seen, until it is decided whether the first segment opens under a key
/// of this segment size. Returns how many bytes the buffer holds, and whether the end was seen.
pub(crate) fn decide<S: Source>(
    source: &mut S,
    buffer: &mut Buffer,
    held: usize,
    whole: bool,
    size: usize,
) -> Result<(usize, bool), Failed>
    requires fits { size + 1 ≤ vec_capacity buffer.old.bytes }
    requires within { held ≤ vec_len buffer.old.bytes }
    requires end { whole ≡ true → IsAtEnd (S.state source.old) }
    ensures bound { IfOk result (λ r. r.0 ≤ vec_len buffer.new.bytes) }
    ensures in_place { IsInPlace buffer.old.bytes buffer.new.bytes }
    ensures decides { IfOk result (λ r. Decided (S.state source.old) (S.state source.new)
        (take held buffer.old.bytes.items) (take r.0 buffer.new.bytes.items) whole r.1 size) }
    ensures short { IfOk result (λ r. r.0 ≤ size → r.1 ≡ true) }
    ensures still { whole ≡ true → S.state source.new ≡ S.state source.old }
    ensures reads_on { IfOk result (λ r. whole ≡ false →
        ReadsOn r.1 (S.state source.old) (S.state source.new)) }
    ensures stops { OnErr result (StopsAtEnd (S.state source.old) (S.state source.new)) }
    ensures no_fault { OnOk result (Stood (S.state source.old).faults (S.state source.new).faults) }
    ensures failed { OnErr result (Undecided (S.state source.old) (S.state source.new)
        (take held buffer.old.bytes.items) whole size) }
{
    if whole || held > size {
        return Ok((held, whole));
    }
    match fill_until(source, buffer, held, size + 1) {
        Ok(len) => Ok((len, len <= size)),
        Err(_) => Err(Failed),
    }
}

/// Whether the bytes begin with a header of the key's length.
pub(crate) fn begins(key: &StreamKey, taken: &[u8]) -> bool
    requires { IsSound key.now }
    ensures { result ≡ has_header (cipher_of [] key.now) taken.now }
{
    let header = key.header_size();
    taken.len() >= header && taken[0] as usize == header
}

/// Opens the first segment, in the bytes that the buffer holds, and writes its plaintext. If it
/// doesn't open, the buffer is unchanged.
fn open_first<K: Sink>(
    key: &StreamKey,
    ad: &[u8],
    buffer: &mut [u8],
    len: usize,
    sink: &mut K,
) -> Trial
    requires sound { IsSound key.now }
    requires within { len ≤ length buffer.old }
    ensures ends { EndsFirst (cipher_of ad.now key.now) (take len buffer.old) result
        (K.state sink.old) (K.state sink.new) }
    ensures kept { result ≡ Trial.Refused → buffer.new ≡ buffer.old }
    ensures rest { drop key.now.segment (take len buffer.new)
        ≡ drop key.now.segment (take len buffer.old) }
{
    if !begins(key, &buffer[..len]) {
        return Trial::Refused;
    }
    let from = key.header_size();
    // the keys of the stream come from the header, so they are derived before anything is opened
    let mut stream = Stream::new(key, ad, &buffer[..from]);
    let size = stream.size();
    let end = len.min(size);
    match write_segment(&mut stream, 0, len <= size, &mut buffer[from..end], sink) {
        SegmentEnd::Written => Trial::Written(stream),
        SegmentEnd::Unwritten => Trial::Unwritten,
        SegmentEnd::Refused => Trial::Refused,
    }
}

/// Opens a stream under the first of the keys that opens its first segment. The keys are tried in
/// order, each when it is decided. No memory is taken: the buffer's block isn't moved.
pub(crate) fn open_any<S: Source, K: Sink>(
    keys: &[StreamKey],
    ad: &[u8],
    buffer: &mut Buffer,
    source: &mut S,
    sink: &mut K,
) -> Result<(), OpenPumpFault>
    requires sound { AllByRecursion IsSound keys.now }
    requires fits { AllByRecursion (λ key. key.segment + 1 ≤ vec_capacity buffer.old.bytes) keys.now }
    ensures in_place { IsInPlace buffer.old.bytes buffer.new.bytes }
    ensures pumps { Pumps (opening_any (ciphers_of ad.now keys.now)) [] [] false result
        (S.state source.old) (S.state source.new) (K.state sink.old) (K.state sink.new) }
    ensures stops { StopsAtEnd (S.state source.old) (S.state source.new) }
    ensures shown { ShowsFaults result (S.state source.old) (S.state source.new)
        (K.state sink.old) (K.state sink.new) }
{
    let mut len = 0;
    let mut ended = false;
    for key in keys {
        let size = key.segment as usize;
        match decide(source, buffer, len, ended, size) {
            Ok(decided) => {
                len = decided.0;
                ended = decided.1;
            }
            Err(_) => return Err(OpenPumpFault::ReadFault),
        }
        let bytes = buffer.as_mut_slice();
        match open_first(key, ad, bytes, len, sink) {
            Trial::Refused => {}
            Trial::Unwritten => return Err(OpenPumpFault::WriteFault),
            Trial::Written(mut stream) => {
                if len <= size {
                    return Ok(());
                }
                turn(bytes, size, len);
                return open_rest(&mut stream, bytes, len - size, ended, source, sink);
            }
        }
    }
    Err(OpenPumpFault::StreamFailed(0))
}

/// Whether this many bytes, up to the end or not, decide if the first segment opens under a key of
/// this segment size.
fn is_settled(len: usize, ended: bool, size: usize) -> bool
    ensures { result ≡ (ended || nat_lt size len) }
{
    ended || len > size
}

/// Opens the first segment, in the bytes that the buffer holds, under the first of the keys that
/// opens it, and writes its plaintext. The keys are tried in their order, up to one that isn't
/// decided.
pub(crate) fn choose<K: Sink>(
    keys: &[StreamKey],
    ad: &[u8],
    buffer: &mut [u8],
    len: usize,
    ended: bool,
    sink: &mut K,
) -> Result<Stage, OpenPumpFault>
    requires sound { AllByRecursion IsSound keys.now }
    requires within { len ≤ length buffer.old }
    ensures chooses { Chooses (ciphers_of ad.now keys.now) (take len buffer.old) (take len buffer.new)
        ended result (K.state sink.old) (K.state sink.new) }
    ensures tried { IfOk result (TriesWithin (length keys.now)) }
    ensures below { (most : ℕ) → AllByRecursion (λ key. key.segment < most) keys.now
        → IfOk result (IsBelow len most) }
    ensures shown { ShowsFault result (K.state sink.old) (K.state sink.new) }
{
    let mut count = 0;
    for key in keys {
        let size = key.segment as usize;
        if !is_settled(len, ended, size) {
            return Ok(Stage::Trying(count));
        }
        match open_first(key, ad, buffer, len, sink) {
            Trial::Refused => {}
            Trial::Unwritten => return Err(OpenPumpFault::WriteFault),
            Trial::Written(stream) => return Ok(Stage::Under(stream, 1)),
        }
        count += 1;
    }
    Err(OpenPumpFault::StreamFailed(0))
}
