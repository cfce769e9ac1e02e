//! Streams sealed in pieces.

ghost use Rattle.std.specs.Prelude.{◌≡◌, [], length, IfErr, IfOk, OnErr};
ghost use Rattle.segment_stream.specs.Cipher.{SegmentCipher};
ghost use Rattle.segment_stream.specs.PumpModels.{SealsUnder};
ghost use Rattle.ready_keysets.specs.Streaming.{AreServing, HasBegun, HasNotBegun, SealAnswers, SealEnds, SealsOn};
ghost use Rattle.ready_keysets.specs.declared.step.StepFault.TheVariants as steps;

use crate::kept::Kept;
use crate::{StepFault, StreamKeyset};
use segment_stream::{Sealer, SealerFault, SealingStream, UpdateFault};
use std::alloc::Global;
use std::mem::replace;
use tink_base::Drawn;

/// A stream that is being sealed: an `update` for each piece of the plaintext, and `finish`.
///
/// What the calls give, one after another, is the stream of the whole plaintext, however that is
/// cut.
#[derive(Drop)]
pub struct StreamSealing {
    /// None once the plaintext was taken to its end, or a call failed.
    stream: Option<SealingStream>,
    /// Whether the plaintext was taken to its end.
    whole: bool,
    kept: Kept,
}

impl StreamKeyset {
    /// Begins a stream under the primary key with this associated data, of any length, and with the
    /// first of these random bytes as salt and nonce prefix, 23 or 39 of them.
    ///
    /// `FewRandomBytes` comes only if there are fewer. The only other fault is `NoMemory`.
    pub fn begin_sealing(
        &self,
        alloc: Global,
        random: &[u8],
        ad: &[u8],
    ) -> Result<StreamSealing, StepFault>
        requires serving { AreServing self.now }
        ensures begun { IfOk result (HasBegun self.now.keys ad.now random.now) }
        ensures fault { IfErr result (HasNotBegun self.now.keys random.now) }
    {
        match Sealer::new(alloc, &self.keys, ad, &mut Drawn::new(random)) {
            Ok(sealer) => begun(alloc, sealer),
            Err(SealerFault::EntropyFault) => Err(StepFault::FewRandomBytes),
            Err(SealerFault::NoMemory) => Err(StepFault::NoMemory),
        }
    }
}

/// A sealing whose header is kept.
fn begun(alloc: Global, sealer: Sealer) -> Result<StreamSealing, StepFault>
    ensures begun { IfOk result (λ sealing. (cipher : SegmentCipher) → SealsUnder sealer cipher
        → SealsOn sealing cipher sealer.header [] []) }
    ensures fault { IfErr result (λ fault. fault ≡ steps.NoMemory) }
{
    let mut kept = Kept::new(alloc);
    match sealer.begin(&mut kept) {
        Ok(stream) => Ok(StreamSealing {
            stream: Some(stream),
            whole: false,
            kept,
        }),
        Err(_) => Err(StepFault::NoMemory),
    }
}

impl StreamSealing {
    /// Takes the next bytes of the plaintext, any number of them, and gives what is settled of the
    /// stream to the front of `out`: its header, and each segment that a byte of plaintext follows.
    /// Returns how many bytes were given. The rest of `out` is unchanged; after a fault all of it
    /// is.
    ///
    /// `NoRoom` comes only if `out` is shorter than what is to be given. The bytes were taken then,
    /// and a call with no plaintext and with more room gives it. `TooManySegments` comes only if the
    /// plaintext has too many segments, more than 2^32. `Ended` comes only if the stream has ended
    /// or a call has failed. The only other fault is `NoMemory`. After it and after `TooManySegments` the
    /// stream has ended.
    pub fn update(&mut self, plain: &[u8], out: &mut [u8]) -> Result<usize, StepFault>
        ensures answered { SealAnswers self.old self.new plain.now out.old out.new result }
        ensures kept { OnErr result (out.new ≡ out.old) }
    {
        match replace(&mut self.stream, None) {
            Some(mut stream) => match stream.update(plain, &mut self.kept) {
                Ok(()) => {
                    self.stream = Some(stream);
                    self.kept.give(out)
                }
                Err(UpdateFault::WriteFault) => Err(StepFault::NoMemory),
                Err(UpdateFault::TooManySegments) => Err(StepFault::TooManySegments),
            },
            None => Err(StepFault::Ended),
        }
    }

    /// Ends the plaintext, and gives the rest of the stream to the front of `out`, as `update`
    /// does.
    ///
    /// `NoRoom` comes only if `out` is shorter than that rest, and another `finish` with more room
    /// gives it. `Ended` comes only if a call has failed. The only other fault is `NoMemory`.
    pub fn finish(&mut self, out: &mut [u8]) -> Result<usize, StepFault>
        ensures answered { SealEnds self.old self.new out.old out.new result }
        ensures kept { OnErr result (out.new ≡ out.old) }
    {
        match replace(&mut self.stream, None) {
            Some(stream) => match stream.finish(&mut self.kept) {
                Ok(()) => {
                    self.whole = true;
                    self.kept.give(out)
                }
                Err(_) => Err(StepFault::NoMemory),
            },
            None => {
                if self.whole {
                    self.kept.give(out)
                } else {
                    Err(StepFault::Ended)
                }
            }
        }
    }

    /// How many bytes are kept for want of room.
    pub fn waiting(&self) -> usize
        ensures { result ≡ length self.now.kept.bytes.items }
    {
        self.kept.len()
    }
}
