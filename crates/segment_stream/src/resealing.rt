//! A stream opened and sealed again in one pass, over two buffers, one for opening and one for
//! sealing.

ghost use Rattle.std.specs.Prelude.{◌≡◌, ℕ, ◌+◌, ◌≤◌, ◌<◌, ◌^◌, List, [], length, take, drop, false, true, OnErr, OnOk};
ghost use Rattle.std.specs.List.{AllByRecursion};
ghost use Rattle.std.specs.Vec.{vec_capacity, vec_len};
ghost use Rattle.tink_spec.specs.Outside.{IsAtEnd, StopsAtEnd};
ghost use Rattle.segment_stream.specs.Cipher.{SegmentCipher};
ghost use Rattle.segment_stream.specs.Passing.{EndsFirstSealed, EndsSealed};
ghost use Rattle.segment_stream.specs.Pumping.{ShowsFaults, opening_any, opening_under};
ghost use Rattle.segment_stream.specs.Pushing.{Passes, halt_fault};
ghost use Rattle.segment_stream.specs.Reading.{IsInPlace};
ghost use Rattle.segment_stream.specs.Segments.{IsSound, cipher_of, ciphers_of, opens_under};
ghost use Rattle.segment_stream.specs.Streams.{IsUnder};
ghost use Rattle.segment_stream.specs.Under.{Standing};

use crate::buffer::{Buffer, fill, turn};
use crate::key::StreamKey;
use crate::opening::refused;
use crate::segments::{LAST_NUMBER, Stream};
use crate::trying::{begins, decide};
use crate::{OpenPumpFault, SealingStream, UpdateFault};
use tink_base::{Sink, Source};

/// How a segment whose plaintext is sealed again ended.
#[derive(Clone, Copy, Debug, PartialEq, Eq)]
enum SegmentPassed {
    /// Its plaintext was taken by the sealing side.
    Sealed,
    /// Its plaintext wasn't taken to the end.
    Unsealed(UpdateFault),
    /// It doesn't open.
    Refused,
}

/// How the trial of a key ended.
#[derive(Drop)]
enum TrialPassed {
    /// Its first segment opened, and the plaintext was taken by the sealing side.
    Sealed(Stream),
    /// Its first segment opened, and the plaintext wasn't taken to its end.
    Unsealed(UpdateFault),
    /// Its first segment doesn't open.
    Refused,
}

/// Opens a segment in its place, and seals its plaintext. A segment that doesn't open is unchanged.
fn pass_segment<K: Sink>(
    stream: &mut Stream,
    number: u64,
    last: bool,
    segment: &mut [u8],
    sealing: &mut SealingStream,
    sink: &mut K,
) -> SegmentPassed
    requires number { number < 2 ^ 32 }
    requires bound { length segment.old ≤ 2 ^ 31 }
    ensures ends { EndsSealed
        (opens_under stream.old.keys stream.old.prefix number last segment.old) result
        sealing.old sealing.new (K.state sink.old) (K.state sink.new) }
    ensures kept { result ≡ SegmentPassed.Refused → segment.new ≡ segment.old }
    ensures stream { stream.new ≡ stream.old }
{
    match stream.open(number, last, segment) {
        Some(n) => match sealing.update(&segment[..n], sink) {
            Ok(()) => SegmentPassed::Sealed,
            Err(fault) => SegmentPassed::Unsealed(fault),
        },
        None => SegmentPassed::Refused,
    }
}

/// A fault of the sealing side, as a fault of the pass.
fn halted(fault: UpdateFault) -> OpenPumpFault
    ensures { result ≡ halt_fault fault }
{
    match fault {
        UpdateFault::WriteFault => OpenPumpFault::WriteFault,
        UpdateFault::TooManySegments => OpenPumpFault::TooManySegments,
    }
}

/// Opens the rest of a stream as `open_rest` does, and seals its plaintext.
fn pass_rest<S: Source, K: Sink>(
    stream: &mut Stream,
    buffer: &mut [u8],
    held: usize,
    whole: bool,
    source: &mut S,
    sealing: &mut SealingStream,
    sink: &mut K,
) -> Result<(), OpenPumpFault>
    requires some { 0 < stream.old.size }
    requires fits { whole ≡ false → stream.old.size + 1 ≤ length buffer.old }
    requires within { held ≤ length buffer.old }
    requires end { whole ≡ true → IsAtEnd (S.state source.old) }
    ensures passes { (cipher : SegmentCipher) (header taken written : List ℕ)
        → IsUnder stream.old cipher header
        → Standing cipher header taken 1 (take held buffer.old) written
        → Passes (opening_under cipher) taken written whole result (S.state source.old)
        (S.state source.new) sealing.old sealing.new (K.state sink.old) (K.state sink.new) }
    ensures still { whole ≡ true → S.state source.new ≡ S.state source.old }
    ensures stops { whole ≡ false → StopsAtEnd (S.state source.old) (S.state source.new) }
    ensures shown { ShowsFaults result (S.state source.old) (S.state source.new)
        (K.state sink.old) (K.state sink.new) }
{
    let size = stream.size();
    let mut start = 0;
    let mut len = held;
    let mut ended = whole;
    let mut number = 1u64;
    loop {
        if len - start > size {
            let end = start + size;
            match pass_segment(
                stream,
                number,
                false,
                &mut buffer[start..end],
                sealing,
                sink,
            ) {
                SegmentPassed::Sealed => {}
                SegmentPassed::Unsealed(fault) => return Err(halted(fault)),
                SegmentPassed::Refused => return Err(refused(number)),
            }
            number += 1;
            if number > LAST_NUMBER {
                return Err(OpenPumpFault::TooManySegments);
            }
            start = end;
        } else if ended {
            return match pass_segment(
                stream,
                number,
                true,
                &mut buffer[start..len],
                sealing,
                sink,
            ) {
                SegmentPassed::Sealed => Ok(()),
                SegmentPassed::Unsealed(fault) => Err(halted(fault)),
                SegmentPassed::Refused => Err(OpenPumpFault::StreamFailed(number)),
            };
        } else {
            turn(buffer, start, len);
            len -= start;
            start = 0;
            let n = match fill(source, buffer, len, size + 1) {
                Ok(n) => n,
                Err(_) => return Err(OpenPumpFault::ReadFault),
            };
            if n == 0 {
                ended = true;
            }
            len += n;
        }
    }
}

/// Opens the first segment, in the bytes that the buffer holds, as `open_first` does, and seals its
/// plaintext. If it doesn't open, the buffer is unchanged.
fn pass_first<K: Sink>(
    key: &StreamKey,
    ad: &[u8],
    buffer: &mut [u8],
    len: usize,
    sealing: &mut SealingStream,
    sink: &mut K,
) -> TrialPassed
    requires sound { IsSound key.now }
    requires within { len ≤ length buffer.old }
    ensures ends { EndsFirstSealed (cipher_of ad.now key.now) (take len buffer.old) result
        sealing.old sealing.new (K.state sink.old) (K.state sink.new) }
    ensures kept { result ≡ TrialPassed.Refused → buffer.new ≡ buffer.old }
    ensures rest { drop key.now.segment (take len buffer.new)
        ≡ drop key.now.segment (take len buffer.old) }
{
    if !begins(key, &buffer[..len]) {
        return TrialPassed::Refused;
    }
    let from = key.header_size();
    let mut stream = Stream::new(key, ad, &buffer[..from]);
    let size = stream.size();
    let end = len.min(size);
    match pass_segment(
        &mut stream,
        0,
        len <= size,
        &mut buffer[from..end],
        sealing,
        sink,
    ) {
        SegmentPassed::Sealed => TrialPassed::Sealed(stream),
        SegmentPassed::Unsealed(fault) => TrialPassed::Unsealed(fault),
        SegmentPassed::Refused => TrialPassed::Refused,
    }
}

/// Opens a stream under the first of the keys that opens its first segment, as `open_any` does, and
/// seals its plaintext except the end: the last piece stays held. No memory is taken.
pub(crate) fn pass_any<S: Source, K: Sink>(
    keys: &[StreamKey],
    ad: &[u8],
    buffer: &mut Buffer,
    source: &mut S,
    sealing: &mut SealingStream,
    sink: &mut K,
) -> Result<(), OpenPumpFault>
    requires sound { AllByRecursion IsSound keys.now }
    requires fits { AllByRecursion (λ key. key.segment + 1 ≤ vec_capacity buffer.old.bytes) keys.now }
    ensures in_place { IsInPlace buffer.old.bytes buffer.new.bytes }
    ensures passes { Passes (opening_any (ciphers_of ad.now keys.now)) [] [] false result
        (S.state source.old) (S.state source.new) sealing.old sealing.new (K.state sink.old)
        (K.state sink.new) }
    ensures stops { StopsAtEnd (S.state source.old) (S.state source.new) }
    ensures shown { ShowsFaults result (S.state source.old) (S.state source.new)
        (K.state sink.old) (K.state sink.new) }
{
    let mut len = 0;
    let mut ended = false;
    for key in keys {
        let size = key.segment as usize;
        match decide(source, buffer, len, ended, size) {
            Ok(decided) => {
                len = decided.0;
                ended = decided.1;
            }
            Err(_) => return Err(OpenPumpFault::ReadFault),
        }
        let bytes = buffer.as_mut_slice();
        match pass_first(key, ad, bytes, len, sealing, sink) {
            TrialPassed::Refused => {}
            TrialPassed::Unsealed(fault) => return Err(halted(fault)),
            TrialPassed::Sealed(mut stream) => {
                if len <= size {
                    return Ok(());
                }
                turn(bytes, size, len);
                return pass_rest(&mut stream, bytes, len - size, ended, source, sealing, sink);
            }
        }
    }
    Err(OpenPumpFault::StreamFailed(0))
}
