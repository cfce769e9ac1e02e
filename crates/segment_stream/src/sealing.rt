//! A stream sealed as its plaintext comes, in pieces of any size.

ghost use Rattle.std.specs.Prelude.{◌≡◌, ℕ, ◌+◌, ◌-◌, ◌≤◌, ◌<◌, ◌^◌, List, ◌++◌, length, take, drop, IfErr, IfOk, OnErr, OnOk};
ghost use Rattle.std.specs.Vec.{vec_capacity, vec_len};
ghost use Rattle.tink_spec.specs.Outside.{Rose, RoseOnce, Stood, Took, TookPrefix};
ghost use Rattle.segment_stream.specs.Pushing.{MakesRoom, Seals, SealsLast, SealsLastFront, Stops};
ghost use Rattle.segment_stream.specs.Reading.{IsInPlace};
ghost use Rattle.segment_stream.specs.Segments.{seals_under, tag_size_under};

use crate::UpdateFault;
use crate::buffer::{Buffer, lengthen_to};
use crate::sealer::{plain_from, write_sealed};
use crate::segments::{LAST_NUMBER, Stream};
use std::marker::Model;
use tink_base::{Failed, Sink};

/// A stream being sealed: `Sealer::begin`, an `update` for each piece of the plaintext, and
/// `finish`.
///
/// No call takes memory: the buffer is the `Sealer`'s.
#[derive(Drop)]
pub struct SealingStream {
    pub(crate) stream: Stream,
    pub(crate) header: usize,
    pub(crate) buffer: Buffer,
    /// How many bytes of the buffer are held: the piece being filled, with the header in the first
    /// one. The bytes after them are unused.
    pub(crate) held: usize,
    pub(crate) number: u64,
}

impl Model for SealingStream {
    ghost use Rattle.std.specs.Prelude.{take};
    ghost use Rattle.std.specs.Vec.{vec_capacity, vec_len};
    ghost use Rattle.segment_stream.specs.Pushing.{IsHolding, SealingState};

    ghost Value = { SealingState };

    ghost view = { λ s. record {
      stream = s.stream;
      header = s.header;
      number = s.number;
      held = take s.held s.buffer.bytes.items;
    } };

    ghost invariant = { λ s. IsHolding s.stream s.header s.number s.held (vec_len s.buffer.bytes)
        (vec_capacity s.buffer.bytes) };
}

impl SealingStream {
    /// Takes the next bytes of the plaintext, any number of them, and writes each segment that they
    /// settle: one with a byte after it. How the plaintext is cut into pieces doesn't change the
    /// stream.
    ///
    /// `TooManySegments` comes if and only if 2^32 full segments of plaintext and one more byte
    /// were taken; then what they seal to was written. `WriteFault` comes only if the sink failed:
    /// then a prefix of what the bytes taken seal to was written, and nothing is tried again. After
    /// an error nothing is promised about further calls. No memory is taken.
    pub fn update<K: Sink>(&mut self, plain: &[u8], sink: &mut K) -> Result<(), UpdateFault>
        ensures sealed { OnOk result
            (Seals self.old self.new plain.now (K.state sink.old) (K.state sink.new)) }
        ensures no_fault { OnOk result (Stood (K.state sink.old).faults (K.state sink.new).faults) }
        ensures fault { IfErr result (λ fault.
            Stops fault self.old plain.now (K.state sink.old) (K.state sink.new)) }
    {
        let mut at = 0;
        while at < plain.len() {
            match self.take_some(&plain[at..], sink) {
                Ok(n) => at += n,
                Err(fault) => return Err(fault),
            }
        }
        Ok(())
    }

    /// Takes the first of these bytes, as many as the piece being filled has room for.
    fn take_some<K: Sink>(&mut self, plain: &[u8], sink: &mut K) -> Result<usize, UpdateFault>
        requires some { 0 < length plain.now }
        ensures least { IfOk result (λ n. 0 < n) }
        ensures most { IfOk result (λ n. n ≤ length plain.now) }
        ensures sealed { IfOk result (λ n.
            Seals self.old self.new (take n plain.now) (K.state sink.old) (K.state sink.new)) }
        ensures no_fault { OnOk result (Stood (K.state sink.old).faults (K.state sink.new).faults) }
        ensures fault { IfErr result (λ fault.
            Stops fault self.old plain.now (K.state sink.old) (K.state sink.new)) }
    {
        let room = match self.make_room(sink) {
            Ok(room) => room,
            Err(fault) => return Err(fault),
        };
        let n = plain.len().min(room);
        hold(&mut self.buffer, self.held, &plain[..n]);
        self.held += n;
        Ok(n)
    }

    /// Writes the piece being filled if it is full, since a byte follows it, and returns for how
    /// many bytes there is then room.
    fn make_room<K: Sink>(&mut self, sink: &mut K) -> Result<usize, UpdateFault>
        ensures some { IfOk result (λ room. 0 < room) }
        ensures room { IfOk result (λ room. length self.new.held + room
            ≡ self.new.stream.size - tag_size_under self.new.stream.keys) }
        ensures made { OnOk result
            (MakesRoom self.old self.new (K.state sink.old) (K.state sink.new)) }
        ensures no_fault { OnOk result (Stood (K.state sink.old).faults (K.state sink.new).faults) }
        ensures fault { IfErr result (λ fault. (plain : List ℕ) → 0 < length plain
            → Stops fault self.old plain (K.state sink.old) (K.state sink.new)) }
    {
        let size = self.stream.size() - self.stream.tag_size();
        if self.held < size {
            return Ok(size - self.held);
        }
        let from = plain_from(self.number, self.header);
        match seal_held(
            &mut self.stream,
            self.number,
            false,
            &mut self.buffer,
            from,
            self.held,
            sink,
        ) {
            Ok(()) => {}
            Err(_) => return Err(UpdateFault::WriteFault),
        }
        if self.number == LAST_NUMBER {
            return Err(UpdateFault::TooManySegments);
        }
        self.number += 1;
        self.held = 0;
        Ok(size)
    }

    /// Ends the stream: the held piece is sealed as the last segment, and written. `Failed` comes
    /// only if the sink failed; then a prefix of what the plaintext seals to was written.
    pub fn finish<K: Sink>(self, sink: &mut K) -> Result<(), Failed>
        ensures sealed { OnOk result (SealsLast self (K.state sink.old) (K.state sink.new)) }
        ensures no_fault { OnOk result (Stood (K.state sink.old).faults (K.state sink.new).faults) }
        ensures failed { OnErr result (Rose (K.state sink.old).faults (K.state sink.new).faults) }
        ensures once { OnErr result
            (RoseOnce (K.state sink.old).faults (K.state sink.new).faults) }
        ensures front { OnErr result (SealsLastFront self (K.state sink.old) (K.state sink.new)) }
    {
        let from = plain_from(self.number, self.header);
        let mut stream = self.stream;
        let mut buffer = self.buffer;
        match seal_held(
            &mut stream,
            self.number,
            true,
            &mut buffer,
            from,
            self.held,
            sink,
        ) {
            Ok(()) => Ok(()),
            Err(_) => Err(Failed),
        }
    }
}

/// Seals bytes `from` to `held` of the buffer as a segment, and writes it.
fn seal_held<K: Sink>(
    stream: &mut Stream,
    number: u64,
    last: bool,
    buffer: &mut Buffer,
    from: usize,
    held: usize,
    sink: &mut K,
) -> Result<(), Failed>
    requires number { number < 2 ^ 32 }
    requires bound { held ≤ 2 ^ 31 }
    requires front { from ≤ held }
    requires within { held ≤ vec_len buffer.old.bytes }
    requires room { held + tag_size_under stream.old.keys ≤ vec_capacity buffer.old.bytes }
    ensures stream { stream.new ≡ stream.old }
    ensures in_place { IsInPlace buffer.old.bytes buffer.new.bytes }
    ensures longer { vec_len buffer.old.bytes ≤ vec_len buffer.new.bytes }
    ensures all { OnOk result (Took (K.state sink.old) (K.state sink.new)
        (seals_under stream.old.keys stream.old.prefix number last
        (drop from (take held buffer.old.bytes.items)))) }
    ensures no_fault { OnOk result (Stood (K.state sink.old).faults (K.state sink.new).faults) }
    ensures failed { OnErr result (Rose (K.state sink.old).faults (K.state sink.new).faults) }
    ensures once { OnErr result (RoseOnce (K.state sink.old).faults (K.state sink.new).faults) }
    ensures prefix { OnErr result (TookPrefix (K.state sink.old) (K.state sink.new)
        (seals_under stream.old.keys stream.old.prefix number last
        (drop from (take held buffer.old.bytes.items)))) }
{
    lengthen_to(buffer, held + stream.tag_size());
    let bytes = buffer.as_mut_slice();
    match write_sealed(stream, number, last, &mut bytes[from..], held - from, sink) {
        Ok(()) => Ok(()),
        Err(_) => Err(Failed),
    }
}

/// Puts a piece after the first `held` bytes of the buffer. No memory is taken: its block has room
/// for it, and isn't moved.
pub(crate) fn hold(buffer: &mut Buffer, held: usize, piece: &[u8])
    requires within { held ≤ vec_len buffer.old.bytes }
    requires room { held + length piece.now ≤ vec_capacity buffer.old.bytes }
    ensures in_place { IsInPlace buffer.old.bytes buffer.new.bytes }
    ensures within { held + length piece.now ≤ vec_len buffer.new.bytes }
    ensures holds { take (held + length piece.now) buffer.new.bytes.items
        ≡ take held buffer.old.bytes.items ++ piece.now }
{
    let end = held + piece.len();
    lengthen_to(buffer, end);
    buffer.as_mut_slice()[held..end].copy_from_slice(piece);
}
