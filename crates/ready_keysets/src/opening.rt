//! Streams opened in pieces.

ghost use Rattle.std.specs.Prelude.{◌≡◌, [], length, IfErr, IfOk, OnErr};
ghost use Rattle.segment_stream.specs.Segments.{ciphers_of};
ghost use Rattle.ready_keysets.specs.Streaming.{AreServing, OpenAnswers, OpenEnds, OpensOn, fault_of};
ghost use Rattle.ready_keysets.specs.declared.step.StepFault.TheVariants as steps;

use crate::kept::Kept;
use crate::{StepFault, StreamKeyset};
use segment_stream::{OpenPumpFault, OpeningStream, StreamKeys};
use std::alloc::Global;
use std::mem::replace;
use tink_base::Bytes;

/// A stream that is being opened: an `update` for each piece of its bytes, and `finish`.
///
/// What the calls give, one after another, is the plaintext of the whole stream, however that is
/// cut. No byte of a segment is given before the segment has authenticated in its place, and a byte
/// follows it or the end was seen.
#[derive(Drop)]
pub struct StreamOpening {
    /// None once the stream was taken to its end, or a call failed.
    stream: Option<OpeningStream>,
    /// Whether the stream was taken to its end, and is whole.
    whole: bool,
    kept: Kept,
}

impl StreamKeyset {
    /// Begins to open a stream with this associated data, of any length, under the first of the
    /// keys that opens its first segment. The only fault is `NoMemory`.
    pub fn begin_opening(&self, alloc: Global, ad: &[u8]) -> Result<StreamOpening, StepFault>
        requires serving { AreServing self.now }
        ensures begun { IfOk result (λ opening.
            OpensOn opening (ciphers_of ad.now self.now.keys.keys) [] []) }
        ensures fault { IfErr result (λ fault. fault ≡ steps.NoMemory) }
    {
        let ad = Bytes::copy(alloc, ad)?;
        // the keys were made of the keyset before, so memory couldn't be allocated
        let Ok(keys) = StreamKeys::new(alloc, &self.keyset) else {
            return Err(StepFault::NoMemory);
        };
        let stream = OpeningStream::new(alloc, keys, ad)?;
        Ok(StreamOpening {
            stream: Some(stream),
            whole: false,
            kept: Kept::new(alloc),
        })
    }
}

impl StreamOpening {
    /// Takes the next bytes of the stream, any number of them, and gives the plaintext of each
    /// segment that is settled by them to the front of `out`: one that authenticates in its place,
    /// and that a byte follows. Returns how many bytes were given. The rest of `out` is unchanged;
    /// after a fault all of it is.
    ///
    /// `Refused` comes only if a segment doesn't authenticate in its place, whatever follows, and
    /// `TooManySegments` only if the stream has too many segments, more than 2^32; then the stream has
    /// ended. `NoRoom` comes only if `out` is shorter than what is to be given. The bytes were taken
    /// then, and a call with no bytes and with more room gives it. `Ended` comes only if the stream
    /// has ended or a call has failed. The only other fault is `NoMemory`, and the stream has
    /// ended then.
    pub fn update(&mut self, bytes: &[u8], out: &mut [u8]) -> Result<usize, StepFault>
        ensures answered { OpenAnswers self.old self.new bytes.now out.old out.new result }
        ensures kept { OnErr result (out.new ≡ out.old) }
    {
        match replace(&mut self.stream, None) {
            Some(mut stream) => match stream.update(bytes, &mut self.kept) {
                Ok(()) => {
                    self.stream = Some(stream);
                    self.kept.give(out)
                }
                Err(fault) => Err(step_fault(fault)),
            },
            None => Err(StepFault::Ended),
        }
    }

    /// Ends the stream, and gives the plaintext of its last segment to the front of `out`, as
    /// `update` does. Success says that the stream is whole.
    ///
    /// `Refused` comes only if the bytes taken are no whole stream, and `TooManySegments` only if it has too
    /// many segments. `NoRoom` comes only if `out` is shorter than what is to be given, and another
    /// `finish` with more room gives it. `Ended` comes only if a call has failed. The only other
    /// fault is `NoMemory`.
    pub fn finish(&mut self, out: &mut [u8]) -> Result<usize, StepFault>
        ensures answered { OpenEnds self.old self.new out.old out.new result }
        ensures kept { OnErr result (out.new ≡ out.old) }
    {
        match replace(&mut self.stream, None) {
            Some(stream) => match stream.finish(&mut self.kept) {
                Ok(()) => {
                    self.whole = true;
                    self.kept.give(out)
                }
                Err(fault) => Err(step_fault(fault)),
            },
            None => {
                if self.whole {
                    self.kept.give(out)
                } else {
                    Err(StepFault::Ended)
                }
            }
        }
    }

    /// How many bytes are kept for want of room.
    pub fn waiting(&self) -> usize
        ensures { result ≡ length self.now.kept.bytes.items }
    {
        self.kept.len()
    }
}

/// What a fault of opening is called. A stream is kept in memory, and nothing is read.
fn step_fault(fault: OpenPumpFault) -> StepFault
    ensures { result ≡ fault_of fault }
{
    match fault {
        OpenPumpFault::StreamFailed(_) => StepFault::Refused,
        OpenPumpFault::TooManySegments => StepFault::TooManySegments,
        OpenPumpFault::ReadFault | OpenPumpFault::WriteFault => StepFault::NoMemory,
    }
}
