//! Streams sealed in one pass.

ghost use Rattle.std.specs.Prelude.{◌≡◌, ℕ, ◌+◌, ◌-◌, ◌≤◌, ◌<◌, ◌^◌, List, [], length, take, false, true, IfErr, IfOk, OnErr, OnOk};
ghost use Rattle.std.specs.Vec.{vec_capacity, vec_len};
ghost use Rattle.tink_spec.specs.Outside.{Drew, IsAtEnd, RanShort, Rose, RoseOnce, SinkState, SourceState, Stood, StopsAtEnd, Took, TookPrefix};
ghost use Rattle.segment_stream.specs.Cipher.{SegmentCipher};
ghost use Rattle.segment_stream.specs.PumpModels.{HasRoom, IsHeader, IsMade, IsSealerFault, SealsUnder, pump_result};
ghost use Rattle.segment_stream.specs.Pumping.{Pumps, ShowsFaults, sealing};
ghost use Rattle.segment_stream.specs.Pushing.{HasSealed};
ghost use Rattle.segment_stream.specs.Reading.{IsInPlace, ReadOn};
ghost use Rattle.segment_stream.specs.Segments.{seals_under, tag_size_under};
ghost use Rattle.segment_stream.specs.StreamKeys.{largest_of};
ghost use Rattle.segment_stream.specs.Streams.{IsUnder};

use crate::buffer::{Buffer, fill, fill_until, lengthen, lengthen_to};
use crate::segments::{LAST_NUMBER, Stream};
use crate::{SealPumpFault, SealingStream, StreamKeys};
use std::alloc::Global;
use std::marker::Model;
use tink_base::{Entropy, Failed, Sink, Source, write_all};

/// Why no sealer was made.
#[derive(Clone, Copy, Debug, PartialEq, Eq)]
pub enum SealerFault {
    /// The entropy failed.
    EntropyFault,
    /// Memory couldn't be allocated.
    NoMemory,
}

/// Seals one stream under the primary key of a keyset.
#[derive(Drop)]
pub struct Sealer {
    stream: Stream,
    /// The size of the header, at the front of the buffer, in bytes.
    header: usize,
    buffer: Buffer,
}

impl Model for Sealer {
    ghost use Rattle.std.specs.Prelude.{◌≤◌, take};
    ghost use Rattle.std.specs.Vec.{vec_capacity, vec_len};
    ghost use Rattle.segment_stream.specs.PumpModels.{HasRoom, SealerState};

    ghost Value = { SealerState };

    ghost view = { λ s. record {
      stream = s.stream;
      header = take s.header s.buffer.bytes.items;
      room = vec_capacity s.buffer.bytes;
    } };

    ghost invariant = { λ s. HasRoom s.stream s.header (vec_capacity s.buffer.bytes)
        × (s.header ≤ vec_len s.buffer.bytes) };
}

impl Sealer {
    /// Prepares to seal a stream under the primary key, with this associated data, of any length.
    ///
    /// The buffer is reserved here, once: one byte more than the largest segment under these keys.
    /// It grows within its block as bytes come, by at most 65,536 at once. Then salt and nonce
    /// prefix are drawn, in one fill. `EntropyFault` comes only if that fill failed. After
    /// `NoMemory` nothing was drawn.
    pub fn new<E: Entropy>(
        alloc: Global,
        keys: &StreamKeys,
        ad: &[u8],
        entropy: &mut E,
    ) -> Result<Sealer, SealerFault>
        ensures made { IfOk result
            (IsMade keys.now ad.now (E.state entropy.old) (E.state entropy.new)) }
        ensures no_fault { OnOk result
            (Stood (E.state entropy.old).faults (E.state entropy.new).faults) }
        ensures room { IfOk result (λ sealer. sealer.room ≡ largest_of keys.now.keys + 1) }
        ensures fault { IfErr result
            (IsSealerFault keys.now (E.state entropy.old) (E.state entropy.new)) }
    {
        let Ok(mut buffer) = Buffer::reserved(alloc, keys.largest() + 1) else {
            return Err(SealerFault::NoMemory);
        };
        let key = keys.primary();
        let header = key.header_size();
        lengthen(&mut buffer, header);
        match draw_header(buffer.as_mut_slice(), header, entropy) {
            Ok(()) => {}
            Err(_) => return Err(SealerFault::EntropyFault),
        }
        let stream = Stream::new(key, ad, &buffer.as_slice()[..header]);
        Ok(Sealer {
            stream,
            header,
            buffer,
        })
    }

    /// Seals what the source gives, and writes the stream. The header is written before the first
    /// read, and each segment when one byte more than its plaintext was taken, or the end was seen.
    /// `Ok` means that the input was read to its end.
    ///
    /// `TooManySegments` comes if and only if 2^32 full segments of plaintext and one more byte
    /// were taken. `ReadFault` comes only if the source failed, and `WriteFault` only if the sink
    /// failed: then a prefix of what the bytes taken seal to was written, with any other answer
    /// exactly that. Nothing is read after the end was seen, and no failed call is tried again. No
    /// memory is taken. A segment and its tag are passed to the sink together, which no clause
    /// says.
    pub fn pump<S: Source, K: Sink>(self, source: &mut S, sink: &mut K) -> Result<(), SealPumpFault>
        ensures pumps { (cipher : SegmentCipher) → SealsUnder self cipher
            → Pumps (sealing cipher self.header) [] [] false (pump_result result)
            (S.state source.old) (S.state source.new) (K.state sink.old) (K.state sink.new) }
        ensures stops { StopsAtEnd (S.state source.old) (S.state source.new) }
        ensures shown { ShowsFaults (pump_result result) (S.state source.old) (S.state source.new)
            (K.state sink.old) (K.state sink.new) }
    {
        let mut stream = self.stream;
        let mut buffer = self.buffer;
        match write_all(sink, &buffer.as_slice()[..self.header]) {
            Ok(()) => seal_behind(&mut stream, self.header, &mut buffer, source, sink),
            Err(_) => Err(SealPumpFault::WriteFault),
        }
    }

    /// Begins a stream whose plaintext comes in pieces: writes its header. `Failed` comes only if
    /// the sink failed; then a prefix of the header was written. No memory is taken.
    pub fn begin<K: Sink>(self, sink: &mut K) -> Result<SealingStream, Failed>
        ensures begun { IfOk result (λ begun. (cipher : SegmentCipher) → SealsUnder self cipher
            → HasSealed begun cipher self.header [] self.header) }
        ensures header { OnOk result (Took (K.state sink.old) (K.state sink.new) self.header) }
        ensures no_fault { OnOk result (Stood (K.state sink.old).faults (K.state sink.new).faults) }
        ensures failed { OnErr result (Rose (K.state sink.old).faults (K.state sink.new).faults) }
        ensures once { OnErr result
            (RoseOnce (K.state sink.old).faults (K.state sink.new).faults) }
        ensures front { OnErr result
            (TookPrefix (K.state sink.old) (K.state sink.new) self.header) }
    {
        let stream = self.stream;
        let header = self.header;
        let buffer = self.buffer;
        match write_all(sink, &buffer.as_slice()[..header]) {
            Ok(()) => Ok(SealingStream {
                stream,
                header,
                buffer,
                held: header,
                number: 0,
            }),
            Err(_) => Err(Failed),
        }
    }
}

/// Writes a header of `header` bytes to the front of the buffer: its size, then random bytes.
fn draw_header<E: Entropy>(buffer: &mut [u8], header: usize, entropy: &mut E) -> Result<(), Failed>
    requires some { 0 < header }
    requires byte { header < 256 }
    requires fits { header ≤ length buffer.old }
    ensures drawn { OnOk result (IsHeader (E.state entropy.old) (E.state entropy.new) header
        (take header buffer.new)) }
    ensures no_fault { OnOk result
        (Stood (E.state entropy.old).faults (E.state entropy.new).faults) }
    ensures failed { OnErr result
        (RanShort (E.state entropy.old) (E.state entropy.new) (header - 1)) }
{
    buffer[0] = header as u8;
    match entropy.fill(&mut buffer[1..header]) {
        Ok(()) => Ok(()),
        Err(_) => Err(Failed),
    }
}

/// Seals the first `plain` bytes as a segment in their place, writes their tag over the bytes after
/// them, and writes both to the sink at once.
pub(crate) fn write_sealed<K: Sink>(
    stream: &mut Stream,
    number: u64,
    last: bool,
    bytes: &mut [u8],
    plain: usize,
    sink: &mut K,
) -> Result<(), Failed>
    requires number { number < 2 ^ 32 }
    requires bound { plain ≤ 2 ^ 31 }
    requires room { plain + tag_size_under stream.old.keys ≤ length bytes.old }
    ensures stream { stream.new ≡ stream.old }
    ensures all { OnOk result (Took (K.state sink.old) (K.state sink.new)
        (seals_under stream.old.keys stream.old.prefix number last (take plain bytes.old))) }
    ensures no_fault { OnOk result (Stood (K.state sink.old).faults (K.state sink.new).faults) }
    ensures failed { OnErr result (Rose (K.state sink.old).faults (K.state sink.new).faults) }
    ensures once { OnErr result (RoseOnce (K.state sink.old).faults (K.state sink.new).faults) }
    ensures prefix { OnErr result (TookPrefix (K.state sink.old) (K.state sink.new)
        (seals_under stream.old.keys stream.old.prefix number last (take plain bytes.old))) }
{
    let end = plain + stream.tag_size();
    let (segment, behind) = bytes.split_at_mut(plain);
    stream.seal(number, last, segment, &mut behind[..end - plain]);
    match write_all(sink, &bytes[..end]) {
        Ok(()) => Ok(()),
        Err(_) => Err(Failed),
    }
}

/// Where the plaintext of a segment begins in the buffer: after the header for the first one.
pub(crate) fn plain_from(number: u64, header: usize) -> usize
    ensures first { number ≡ 0 → result ≡ header }
    ensures later { 0 < number → result ≡ 0 }
{
    if number == 0 { header } else { 0 }
}

/// Seals a stream whose header was written, and is at the front of the buffer. No memory is taken:
/// the buffer's block isn't moved.
fn seal_behind<S: Source, K: Sink>(
    stream: &mut Stream,
    header: usize,
    buffer: &mut Buffer,
    source: &mut S,
    sink: &mut K,
) -> Result<(), SealPumpFault>
    requires room { HasRoom stream.old header (vec_capacity buffer.old.bytes) }
    requires within { header ≤ vec_len buffer.old.bytes }
    ensures pumps { (cipher : SegmentCipher) (old : SinkState)
        → IsUnder stream.old cipher (take header buffer.old.bytes.items)
        → Took old (K.state sink.old) (take header buffer.old.bytes.items)
        → Pumps (sealing cipher (take header buffer.old.bytes.items)) [] [] false (pump_result result)
        (S.state source.old) (S.state source.new) old (K.state sink.new) }
    ensures in_place { IsInPlace buffer.old.bytes buffer.new.bytes }
    ensures stops { StopsAtEnd (S.state source.old) (S.state source.new) }
    ensures shown { ShowsFaults (pump_result result) (S.state source.old) (S.state source.new)
        (K.state sink.old) (K.state sink.new) }
{
    let tag = stream.tag_size();
    let size = stream.size() - tag;
    match fill_until(source, buffer, header, size + 1) {
        Ok(len) => {
            lengthen_to(buffer, len + tag);
            let bytes = buffer.as_mut_slice();
            seal_rest(stream, header, bytes, len, len <= size, source, sink)
        }
        Err(_) => Err(SealPumpFault::ReadFault),
    }
}

/// Seals a stream whose header was written. The first `held` bytes of the buffer are the header and
/// what was taken, at most one byte more than a segment's plaintext; `whole` says whether the end
/// was seen. The buffer has room for them and a tag, and if the end wasn't seen, for one byte more
/// than a segment.
fn seal_rest<S: Source, K: Sink>(
    stream: &mut Stream,
    header: usize,
    buffer: &mut [u8],
    held: usize,
    whole: bool,
    source: &mut S,
    sink: &mut K,
) -> Result<(), SealPumpFault>
    requires segment { header + tag_size_under stream.old.keys < stream.old.size }
    requires fits { whole ≡ false → stream.old.size + 1 ≤ length buffer.old }
    requires front { header ≤ held }
    requires short { held ≤ stream.old.size - tag_size_under stream.old.keys + 1 }
    requires within { held + tag_size_under stream.old.keys ≤ length buffer.old }
    requires end { whole ≡ true → IsAtEnd (S.state source.old) }
    ensures pumps { (cipher : SegmentCipher) (was : SourceState) (old : SinkState)
        → IsUnder stream.old cipher (take header buffer.old)
        → Took old (K.state sink.old) (take header buffer.old)
        → ReadOn was (S.state source.old) (take header buffer.old) (take held buffer.old)
        → Pumps (sealing cipher (take header buffer.old)) [] [] false (pump_result result)
        was (S.state source.new) old (K.state sink.new) }
    ensures still { whole ≡ true → S.state source.new ≡ S.state source.old }
    ensures stops { whole ≡ false → StopsAtEnd (S.state source.old) (S.state source.new) }
    ensures shown { ShowsFaults (pump_result result) (S.state source.old) (S.state source.new)
        (K.state sink.old) (K.state sink.new) }
{
    let size = stream.size() - stream.tag_size();
    let mut len = held;
    let mut ended = whole;
    let mut number = 0u64;
    loop {
        let from = plain_from(number, header);
        if len > size {
            // the tag overwrites the next byte, which then goes to the front
            let next = buffer[size];
            match write_sealed(
                stream,
                number,
                false,
                &mut buffer[from..],
                size - from,
                sink,
            ) {
                Ok(()) => {}
                Err(_) => return Err(SealPumpFault::WriteFault),
            }
            number += 1;
            if number > LAST_NUMBER {
                return Err(SealPumpFault::TooManySegments);
            }
            buffer[0] = next;
            len = 1;
        } else if ended {
            return match write_sealed(stream, number, true, &mut buffer[from..], len - from, sink) {
                Ok(()) => Ok(()),
                Err(_) => Err(SealPumpFault::WriteFault),
            };
        } else {
            let n = match fill(source, buffer, len, size + 1) {
                Ok(n) => n,
                Err(_) => return Err(SealPumpFault::ReadFault),
            };
            if n == 0 {
                ended = true;
            }
            len += n;
        }
    }
}
