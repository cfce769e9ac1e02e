//! What is settled of a stream that arrives, opened.

ghost use Rattle.std.specs.Prelude.{ℕ, ◌≤◌, ◌<◌, ◌^◌, List, [], length, take, drop, false, true, IfErr, IfOk, OnOk};
ghost use Rattle.std.specs.List.{AllByRecursion};
ghost use Rattle.std.specs.Vec.{vec_capacity, vec_len};
ghost use Rattle.segment_stream.specs.Arriving.{FitsAt, IsTrying, IsUnderKey, StandsAt};
ghost use Rattle.segment_stream.specs.Cipher.{SegmentCipher};
ghost use Rattle.segment_stream.specs.Halting.{Halts, IsOpened, ShowsFault};
ghost use Rattle.segment_stream.specs.Pumping.{opening_any};
ghost use Rattle.segment_stream.specs.Reading.{IsInPlace};
ghost use Rattle.segment_stream.specs.Segments.{IsSound, ciphers_of};
ghost use Rattle.segment_stream.specs.Settling.{SettledOn};

use crate::OpenPumpFault;
use crate::buffer::Buffer;
use crate::key::StreamKey;
use crate::opening::{finish_under, open_followed};
use crate::segments::Stream;
use crate::trying::choose;
use tink_base::Sink;

/// How far a stream that arrives has come.
#[derive(Drop)]
pub(crate) enum Stage {
    /// So many keys are known not to open its first segment.
    Trying(usize),
    /// A key is chosen: what opens the segments, and the number of the first that isn't opened yet.
    Under(Stream, u64),
}

/// Opens what is settled of the bytes that the buffer holds, and writes it. What isn't opened is
/// then at the front of the buffer. Returns the stage, and how many bytes are held. No memory is
/// taken: the buffer's block isn't moved.
pub(crate) fn settle<K: Sink>(
    keys: &[StreamKey],
    ad: &[u8],
    stage: Stage,
    buffer: &mut Buffer,
    held: usize,
    sink: &mut K,
) -> Result<(Stage, usize), OpenPumpFault>
    requires sound { AllByRecursion IsSound keys.now }
    requires below { AllByRecursion (λ key. key.segment < vec_capacity buffer.old.bytes) keys.now }
    requires within { held ≤ vec_len buffer.old.bytes }
    requires stage { FitsAt (length keys.now) (vec_capacity buffer.old.bytes) stage }
    ensures in_place { IsInPlace buffer.old.bytes buffer.new.bytes }
    ensures fits { IfOk result (λ r. FitsAt (length keys.now) (vec_capacity buffer.old.bytes) r.0) }
    ensures short { IfOk result (λ r. r.1 < vec_capacity buffer.old.bytes) }
    ensures within { IfOk result (λ r. r.1 ≤ vec_len buffer.new.bytes) }
    ensures settled { IfOk result (λ r. (taken written : List ℕ)
        → StandsAt (ciphers_of ad.now keys.now) stage taken (take held buffer.old.bytes.items) written
        → SettledOn (ciphers_of ad.now keys.now) r.0 taken (take r.1 buffer.new.bytes.items) written
        (K.state sink.old) (K.state sink.new)) }
    ensures fault { IfErr result (λ fault. (taken written : List ℕ)
        → StandsAt (ciphers_of ad.now keys.now) stage taken (take held buffer.old.bytes.items) written
        → Halts (opening_any (ciphers_of ad.now keys.now)) fault taken written false
        (K.state sink.old) (K.state sink.new)) }
    ensures shown { ShowsFault result (K.state sink.old) (K.state sink.new) }
{
    let bytes = buffer.as_mut_slice();
    match stage {
        Stage::Under(stream, number) => settle_under(stream, number, bytes, 0, held, sink),
        Stage::Trying(tried) => settle_first(keys, ad, tried, bytes, held, sink),
    }
}

/// Opens what is settled if so many keys are known not to open the first segment.
fn settle_first<K: Sink>(
    keys: &[StreamKey],
    ad: &[u8],
    tried: usize,
    buffer: &mut [u8],
    held: usize,
    sink: &mut K,
) -> Result<(Stage, usize), OpenPumpFault>
    requires sound { AllByRecursion IsSound keys.now }
    requires tried { tried ≤ length keys.now }
    requires within { held ≤ length buffer.old }
    ensures fits { (most : ℕ) → AllByRecursion (λ key. key.segment < most) keys.now
        → IfOk result (λ r. FitsAt (length keys.now) most r.0) }
    ensures short { (most : ℕ) → AllByRecursion (λ key. key.segment < most) keys.now
        → IfOk result (λ r. r.1 < most) }
    ensures within { IfOk result (λ r. r.1 ≤ length buffer.old) }
    ensures settled { IfOk result (λ r. (taken written : List ℕ)
        → IsTrying (ciphers_of ad.now keys.now) tried taken (take held buffer.old) written
        → SettledOn (ciphers_of ad.now keys.now) r.0 taken (take r.1 buffer.new) written
        (K.state sink.old) (K.state sink.new)) }
    ensures fault { IfErr result (λ fault. (taken written : List ℕ)
        → IsTrying (ciphers_of ad.now keys.now) tried taken (take held buffer.old) written
        → Halts (opening_any (ciphers_of ad.now keys.now)) fault taken written false
        (K.state sink.old) (K.state sink.new)) }
    ensures shown { ShowsFault result (K.state sink.old) (K.state sink.new) }
{
    match choose(&keys[tried..], ad, buffer, held, false, sink) {
        Ok(Stage::Under(stream, number)) => {
            let start = stream.size();
            settle_under(stream, number, buffer, start, held, sink)
        }
        Ok(Stage::Trying(count)) => Ok((Stage::Trying(tried + count), held)),
        Err(fault) => Err(fault),
    }
}

/// Opens what is settled after the first `start` bytes that the buffer holds, under the key chosen.
fn settle_under<K: Sink>(
    mut stream: Stream,
    number: u64,
    buffer: &mut [u8],
    start: usize,
    held: usize,
    sink: &mut K,
) -> Result<(Stage, usize), OpenPumpFault>
    requires some { 0 < stream.size }
    requires least { 1 ≤ number }
    requires most { number < 2 ^ 32 }
    requires front { start ≤ held }
    requires within { held ≤ length buffer.old }
    ensures fits { IfOk result (λ r. (count most : ℕ) → stream.size < most → FitsAt count most r.0) }
    ensures short { IfOk result (λ r. r.1 ≤ stream.size) }
    ensures within { IfOk result (λ r. r.1 ≤ length buffer.old) }
    ensures settled { IfOk result (λ r. (ciphers : List SegmentCipher) (taken written : List ℕ)
        → IsUnderKey ciphers stream number taken (drop start (take held buffer.old)) written
        → SettledOn ciphers r.0 taken (take r.1 buffer.new) written
        (K.state sink.old) (K.state sink.new)) }
    ensures fault { IfErr result (λ fault. (ciphers : List SegmentCipher) (taken written : List ℕ)
        → IsUnderKey ciphers stream number taken (drop start (take held buffer.old)) written
        → Halts (opening_any ciphers) fault taken written false
        (K.state sink.old) (K.state sink.new)) }
    ensures shown { ShowsFault result (K.state sink.old) (K.state sink.new) }
{
    match open_followed(&mut stream, number, buffer, start, held, sink) {
        Ok(rest) => Ok((Stage::Under(stream, rest.0), rest.1)),
        Err(fault) => Err(fault),
    }
}

/// Opens a stream of which the buffer holds all bytes that aren't opened yet, and its end was seen.
pub(crate) fn finish<K: Sink>(
    keys: &[StreamKey],
    ad: &[u8],
    stage: Stage,
    buffer: &mut Buffer,
    held: usize,
    sink: &mut K,
) -> Result<(), OpenPumpFault>
    requires sound { AllByRecursion IsSound keys.now }
    requires within { held ≤ vec_len buffer.old.bytes }
    requires stage { FitsAt (length keys.now) (vec_capacity buffer.old.bytes) stage }
    ensures opened { OnOk result ((taken written : List ℕ)
        → StandsAt (ciphers_of ad.now keys.now) stage taken (take held buffer.old.bytes.items) written
        → IsOpened (opening_any (ciphers_of ad.now keys.now)) taken written
        (K.state sink.old) (K.state sink.new)) }
    ensures fault { IfErr result (λ fault. (taken written : List ℕ)
        → StandsAt (ciphers_of ad.now keys.now) stage taken (take held buffer.old.bytes.items) written
        → Halts (opening_any (ciphers_of ad.now keys.now)) fault taken written true
        (K.state sink.old) (K.state sink.new)) }
    ensures shown { ShowsFault result (K.state sink.old) (K.state sink.new) }
{
    let bytes = buffer.as_mut_slice();
    match stage {
        Stage::Under(mut stream, number) => {
            finish_under(&mut stream, number, bytes, 0, held, sink)
        }
        Stage::Trying(tried) => finish_first(keys, ad, tried, bytes, held, sink),
    }
}

/// Opens a stream of which the buffer holds all bytes, if so many keys are known not to open its
/// first segment.
fn finish_first<K: Sink>(
    keys: &[StreamKey],
    ad: &[u8],
    tried: usize,
    buffer: &mut [u8],
    held: usize,
    sink: &mut K,
) -> Result<(), OpenPumpFault>
    requires sound { AllByRecursion IsSound keys.now }
    requires tried { tried ≤ length keys.now }
    requires within { held ≤ length buffer.old }
    ensures opened { OnOk result (IsOpened (opening_any (drop tried (ciphers_of ad.now keys.now)))
        (take held buffer.old) [] (K.state sink.old) (K.state sink.new)) }
    ensures fault { IfErr result (λ fault. Halts (opening_any (drop tried (ciphers_of ad.now keys.now)))
        fault (take held buffer.old) [] true (K.state sink.old) (K.state sink.new)) }
    ensures shown { ShowsFault result (K.state sink.old) (K.state sink.new) }
{
    match choose(&keys[tried..], ad, buffer, held, true, sink) {
        Ok(Stage::Under(mut stream, number)) => {
            let size = stream.size();
            if held <= size {
                return Ok(());
            }
            finish_under(&mut stream, number, buffer, size, held, sink)
        }
        // once the end was seen each key is decided
        Ok(Stage::Trying(_)) => unreachable!(),
        Err(fault) => Err(fault),
    }
}
