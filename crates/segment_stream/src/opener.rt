//! Streams opened in one pass.

ghost use Rattle.std.specs.Prelude.{◌≡◌, ◌+◌, [], false, IfOk, OnErr, OnOk};
ghost use Rattle.tink_spec.specs.Outside.{Rose, RoseOnce, Stood, StopsAtEnd};
ghost use Rattle.segment_stream.specs.Choosing.{Chooses};
ghost use Rattle.segment_stream.specs.Cipher.{SegmentCipher};
ghost use Rattle.segment_stream.specs.PumpModels.{SealsUnder};
ghost use Rattle.segment_stream.specs.Pumping.{Pumps, ShowsFaults, opening_any, resealing};
ghost use Rattle.segment_stream.specs.Reading.{GaveBelow};
ghost use Rattle.segment_stream.specs.Segments.{ciphers_of};
ghost use Rattle.segment_stream.specs.StreamKeys.{largest_of};

use crate::buffer::{Buffer, fill_until};
use crate::choosing::place_of;
use crate::resealing::pass_any;
use crate::trying::open_any;
use crate::{OpenPumpFault, Sealer, StreamKeys};
use std::alloc::Global;
use std::marker::Model;
use tink_base::{Failed, NoMemory, Sink, Source};

/// Opens one stream under the keys of a keyset.
#[derive(Drop)]
pub struct Opener<'k> {
    keys: &'k StreamKeys,
    ad: &'k [u8],
    buffer: Buffer,
}

impl<'k> Model for Opener<'k> {
    ghost use Rattle.std.specs.Prelude.{◌≡◌, ◌+◌};
    ghost use Rattle.std.specs.Vec.{vec_capacity};
    ghost use Rattle.segment_stream.specs.PumpModels.{OpenerState};
    ghost use Rattle.segment_stream.specs.StreamKeys.{largest_of};

    ghost Value = { OpenerState };

    ghost view = { λ o. record { keys = o.keys.now; ad = o.ad.now; room = vec_capacity o.buffer.bytes } };

    ghost invariant = { λ o. vec_capacity o.buffer.bytes ≡ largest_of o.keys.now.keys + 1 };
}

impl<'k> Opener<'k> {
    /// Prepares to open a stream with this associated data, of any length.
    ///
    /// The buffer is reserved here, once: one byte more than the largest segment under these keys.
    /// It grows within its block as bytes come, by at most 65,536 at once.
    pub fn new(alloc: Global, keys: &'k StreamKeys, ad: &'k [u8]) -> Result<Opener<'k>, NoMemory>
        ensures { IfOk result (λ opener. opener ≡
            record { keys = keys.now; ad = ad.now; room = largest_of keys.now.keys + 1 }) }
    {
        match Buffer::reserved(alloc, keys.largest() + 1) {
            Ok(buffer) => Ok(Opener { keys, ad, buffer }),
            Err(_) => Err(NoMemory),
        }
    }

    /// Opens the stream from the source, and writes its plaintext.
    ///
    /// The stream's key is the first, in the order of the keyset, under which the first segment
    /// authenticates. A key is tried when one byte more than its segment was taken or the end was
    /// seen; only the stream's key opens the rest. Plaintext is written once its segment has
    /// authenticated in its place, and all of it before the next read. `Ok` means that the input
    /// was read to its end, and each segment has opened.
    ///
    /// `StreamFailed` comes if and only if the bytes taken decide it, and so does
    /// `TooManySegments`. `ReadFault` comes only if the source failed before anything was decided,
    /// and `WriteFault` only if the sink failed: then a prefix of what the bytes taken release was
    /// written, with any other answer exactly that. Nothing is read after the end was seen, and no
    /// failed call is tried again. No memory is taken.
    pub fn pump<S: Source, K: Sink>(self, source: &mut S, sink: &mut K) -> Result<(), OpenPumpFault>
        ensures pumps { Pumps (opening_any (ciphers_of self.entry.ad self.entry.keys.keys)) [] []
            false result (S.state source.old) (S.state source.new) (K.state sink.old)
            (K.state sink.new) }
        ensures stops { StopsAtEnd (S.state source.old) (S.state source.new) }
        ensures shown { ShowsFaults result (S.state source.old) (S.state source.new)
            (K.state sink.old) (K.state sink.new) }
    {
        let mut buffer = self.buffer;
        open_any(self.keys.keys(), self.ad, &mut buffer, source, sink)
    }

    /// Reads what decides under which key `pump` opens the stream from the source, and returns the
    /// place of that key among the keyset's keys for streams, counted from 0: `None` if and only if
    /// `pump` refuses the first segment, since no key opens it.
    ///
    /// It reads one byte more than the largest segment under these keys has, or the whole stream if
    /// that is shorter, and nothing after that. No plaintext is given out. `Failed` comes only if
    /// the source failed before that. Nothing is read after the end was seen, and no failed call is
    /// tried again. No memory is taken.
    pub fn choose<S: Source>(self, source: &mut S) -> Result<Option<usize>, Failed>
        ensures chooses { IfOk result (λ place. Chooses (ciphers_of self.entry.ad self.entry.keys.keys)
            self.entry.room (S.state source.old) (S.state source.new) place) }
        ensures fewer { OnErr result (GaveBelow (S.state source.old) (S.state source.new) 0
            self.entry.room) }
        ensures stops { StopsAtEnd (S.state source.old) (S.state source.new) }
        ensures no_fault { OnOk result (Stood (S.state source.old).faults (S.state source.new).faults) }
        ensures failed { OnErr result (Rose (S.state source.old).faults (S.state source.new).faults) }
        ensures once { OnErr result
            (RoseOnce (S.state source.old).faults (S.state source.new).faults) }
    {
        let mut buffer = self.buffer;
        match fill_until(source, &mut buffer, 0, self.keys.largest() + 1) {
            Ok(len) => {
                let bytes = buffer.as_mut_slice();
                Ok(place_of(self.keys.keys(), self.ad, bytes, len))
            }
            Err(_) => Err(Failed),
        }
    }

    /// Opens the stream from the source, as `pump` does, and seals its plaintext again as it comes,
    /// with this sealer, whose header is written before the first read. The plaintext is only in
    /// the two buffers. `Ok` means that the input was read to its end, each segment has opened, and
    /// the whole plaintext was sealed.
    ///
    /// With any other answer no segment sealed as its stream's last one was written, except perhaps
    /// a prefix of it if the sink failed there. `TooManySegments` comes if and only if the
    /// plaintext has too many segments for the sealer, or the bytes taken decide it; and
    /// `StreamFailed` if and only if the bytes taken decide that, and the plaintext before that
    /// doesn't have too many segments. `ReadFault` comes only if the source failed before anything
    /// was decided, and `WriteFault` only if the sink failed: then a prefix of what the bytes taken
    /// reseal to was written, with any other answer exactly that. Nothing is read after the end was
    /// seen, and no failed call is tried again. No memory is taken.
    pub fn reseal<S: Source, K: Sink>(
        self,
        sealer: Sealer,
        source: &mut S,
        sink: &mut K,
    ) -> Result<(), OpenPumpFault>
        ensures pumps { (cipher : SegmentCipher) → SealsUnder sealer cipher
            → Pumps (resealing (ciphers_of self.entry.ad self.entry.keys.keys) cipher sealer.header)
            [] [] false result (S.state source.old) (S.state source.new) (K.state sink.old)
            (K.state sink.new) }
        ensures stops { StopsAtEnd (S.state source.old) (S.state source.new) }
        ensures shown { ShowsFaults result (S.state source.old) (S.state source.new)
            (K.state sink.old) (K.state sink.new) }
    {
        let mut buffer = self.buffer;
        let mut sealing = match sealer.begin(sink) {
            Ok(sealing) => sealing,
            Err(_) => return Err(OpenPumpFault::WriteFault),
        };
        match pass_any(
            self.keys.keys(),
            self.ad,
            &mut buffer,
            source,
            &mut sealing,
            sink,
        ) {
            Ok(()) => {}
            Err(fault) => return Err(fault),
        }
        match sealing.finish(sink) {
            Ok(()) => Ok(()),
            Err(_) => Err(OpenPumpFault::WriteFault),
        }
    }
}
