//! A stream that is opened as its bytes arrive, in pieces of any size.

ghost use Rattle.std.specs.Prelude.{◌≤◌, ◌<◌, [], length, take, IfErr, IfOk, OnOk};
ghost use Rattle.segment_stream.specs.Arriving.{HasOpened, OpenStops, OpenStopsLast, Opens, OpensLast};
ghost use Rattle.segment_stream.specs.Halting.{ShowsFault};
ghost use Rattle.segment_stream.specs.Segments.{ciphers_of};

use crate::buffer::Buffer;
use crate::sealing::hold;
use crate::settling::{Stage, finish, settle};
use crate::{OpenPumpFault, StreamKeys};
use std::alloc::Global;
use std::marker::Model;
use std::mem::replace;
use tink_base::{Bytes, NoMemory, Sink};

/// A stream that is being opened: `new`, an `update` for each piece of its bytes, and `finish`.
///
/// It has keys and associated data of its own. No call but `new` takes memory.
#[derive(Drop)]
pub struct OpeningStream {
    keys: StreamKeys,
    ad: Bytes,
    buffer: Buffer,
    /// How many bytes of the buffer are held: those that came and aren't opened yet. The bytes
    /// after them are unused.
    held: usize,
    stage: Stage,
}

impl Model for OpeningStream {
    ghost use Rattle.std.specs.Prelude.{take};
    ghost use Rattle.std.specs.Vec.{vec_capacity, vec_len};
    ghost use Rattle.segment_stream.specs.Arriving.{IsArriving, OpeningState};

    ghost Value = { OpeningState };

    ghost view = { λ s. record {
      keys = s.keys;
      ad = s.ad;
      stage = s.stage;
      held = take s.held s.buffer.bytes.items;
    } };

    ghost invariant = { λ s. IsArriving s.keys s.stage s.held (vec_len s.buffer.bytes)
        (vec_capacity s.buffer.bytes) };
}

impl OpeningStream {
    /// Makes ready to open a stream with this associated data, under the first of the keys that opens its
    /// first segment.
    ///
    /// The buffer is reserved here, once: one byte more than the largest segment under these keys. It is
    /// lengthened in its block as bytes come.
    pub fn new(alloc: Global, keys: StreamKeys, ad: Bytes) -> Result<OpeningStream, NoMemory>
        ensures { IfOk result (λ opening. HasOpened opening (ciphers_of ad keys.keys) [] []) }
    {
        // a keyset has a primary key, so there is one to be tried; and the sizes of each are sound
        let _primary = keys.primary();
        let _every = keys.keys();
        match Buffer::reserved(alloc, keys.largest() + 1) {
            Ok(buffer) => Ok(OpeningStream {
                keys,
                ad,
                buffer,
                held: 0,
                stage: Stage::Trying(0),
            }),
            Err(_) => Err(NoMemory),
        }
    }

    /// Takes the next bytes of the stream, any number of them, and writes the plaintext of each
    /// segment that they settle and that authenticates in its place. A segment is settled once a
    /// byte follows it, and no plaintext is written before that. How the stream is cut into pieces
    /// changes neither the plaintext nor the answer.
    ///
    /// `StreamFailed` comes if and only if the bytes taken decide it, and so does
    /// `TooManySegments`; then what they release was written. `WriteFault` comes only if the sink
    /// failed: then a prefix of what the bytes taken release was written, and nothing is tried
    /// again. `ReadFault` never comes. After an error nothing is promised about further calls. No
    /// memory is taken.
    pub fn update<K: Sink>(&mut self, bytes: &[u8], sink: &mut K) -> Result<(), OpenPumpFault>
        ensures opened { OnOk result
            (Opens self.old self.new bytes.now (K.state sink.old) (K.state sink.new)) }
        ensures fault { IfErr result (λ fault.
            OpenStops fault self.old bytes.now (K.state sink.old) (K.state sink.new)) }
        ensures shown { ShowsFault result (K.state sink.old) (K.state sink.new) }
    {
        let mut at = 0;
        while at < bytes.len() {
            match self.take_some(&bytes[at..], sink) {
                Ok(n) => at += n,
                Err(fault) => return Err(fault),
            }
        }
        Ok(())
    }

    /// Takes the first of these bytes, as many as the buffer has room for, and opens what is settled.
    fn take_some<K: Sink>(&mut self, bytes: &[u8], sink: &mut K) -> Result<usize, OpenPumpFault>
        requires some { 0 < length bytes.now }
        ensures least { IfOk result (λ n. 0 < n) }
        ensures most { IfOk result (λ n. n ≤ length bytes.now) }
        ensures opened { IfOk result (λ n.
            Opens self.old self.new (take n bytes.now) (K.state sink.old) (K.state sink.new)) }
        ensures fault { IfErr result (λ fault.
            OpenStops fault self.old bytes.now (K.state sink.old) (K.state sink.new)) }
        ensures shown { ShowsFault result (K.state sink.old) (K.state sink.new) }
    {
        let room = self.keys.largest() + 1 - self.held;
        let n = bytes.len().min(room);
        hold(&mut self.buffer, self.held, &bytes[..n]);
        let keys = self.keys.keys();
        // after a refusal no key is left, and what comes after it is refused
        let stage = replace(&mut self.stage, Stage::Trying(keys.len()));
        let held = self.held + n;
        match settle(
            keys,
            self.ad.as_slice(),
            stage,
            &mut self.buffer,
            held,
            sink,
        ) {
            Ok(settled) => {
                self.stage = settled.0;
                self.held = settled.1;
                Ok(n)
            }
            Err(fault) => {
                self.held = 0;
                Err(fault)
            }
        }
    }

    /// Ends the stream: what is held is opened as its last segment, and nothing may be left after
    /// it.
    ///
    /// `Ok` means that the stream was whole: each segment has opened in its place, the last one as
    /// such, and the whole plaintext was written. So a stream that was cut off after a full segment
    /// isn't whole. `StreamFailed` comes if and only if the bytes taken are no whole stream; then
    /// the plaintext of the segments before the one that fails was written. `TooManySegments` comes
    /// if and only if the stream has too many. `WriteFault` comes only if the sink failed: then a
    /// prefix of what the stream releases was written. `ReadFault` never comes. No memory is taken.
    pub fn finish<K: Sink>(self, sink: &mut K) -> Result<(), OpenPumpFault>
        ensures opened { OnOk result (OpensLast self (K.state sink.old) (K.state sink.new)) }
        ensures fault { IfErr result (λ fault.
            OpenStopsLast fault self (K.state sink.old) (K.state sink.new)) }
        ensures shown { ShowsFault result (K.state sink.old) (K.state sink.new) }
    {
        let own = self.keys;
        let ad = self.ad;
        let mut buffer = self.buffer;
        let keys = own.keys();
        finish(
            keys,
            ad.as_slice(),
            self.stage,
            &mut buffer,
            self.held,
            sink,
        )
    }
}
