//! What a program holds of streams, as one type.

ghost use Rattle.std.specs.Prelude.{◌≡◌, IfErr, IfOk, OnErr};
ghost use Rattle.ready_keysets.specs.Objects.{BeginsOpening, BeginsSealing, HasKeys, IsOpening, IsSealing, OpensBy, OpensLastBy, SealsBy, SealsLastBy, SealingRefused, waiting_of};
ghost use Rattle.ready_keysets.specs.declared.step.StepFault.TheVariants as steps;

use crate::{StepFault, StreamKeyset, StreamOpening, StreamSealing};
use std::alloc::Global;

/// What is held.
#[derive(Drop)]
pub enum StreamKind {
    /// The keys of a keyset.
    Keys(StreamKeyset),
    /// A stream that is being sealed.
    Sealing(StreamSealing),
    /// A stream that is being opened.
    Opening(StreamOpening),
}

/// The keys of a keyset for streams, or a stream. Each call is of one of the three.
#[derive(Drop)]
pub struct StreamObject {
    is: StreamKind,
}

impl StreamObject {
    /// This is held.
    pub fn of(is: StreamKind) -> StreamObject
        ensures { result.is ≡ is }
    {
        StreamObject { is }
    }

    /// Begins to seal a stream, as `StreamKeyset::begin_sealing` does.
    pub fn begin_sealing(
        &self,
        alloc: Global,
        random: &[u8],
        ad: &[u8],
    ) -> Result<StreamObject, StepFault>
        requires keys { HasKeys self.now.is }
        ensures begun { IfOk result (λ made. BeginsSealing self.now.is ad.now random.now made.is) }
        ensures fault { IfErr result (SealingRefused self.now.is random.now) }
    {
        match &self.is {
            StreamKind::Keys(keys) => match keys.begin_sealing(alloc, random, ad) {
                Ok(sealing) => Ok(StreamObject {
                    is: StreamKind::Sealing(sealing),
                }),
                Err(fault) => Err(fault),
            },
            _ => unreachable!(),
        }
    }

    /// Begins to open a stream, as `StreamKeyset::begin_opening` does.
    pub fn begin_opening(&self, alloc: Global, ad: &[u8]) -> Result<StreamObject, StepFault>
        requires keys { HasKeys self.now.is }
        ensures begun { IfOk result (λ made. BeginsOpening self.now.is ad.now made.is) }
        ensures fault { IfErr result (λ fault. fault ≡ steps.NoMemory) }
    {
        match &self.is {
            StreamKind::Keys(keys) => match keys.begin_opening(alloc, ad) {
                Ok(opening) => Ok(StreamObject {
                    is: StreamKind::Opening(opening),
                }),
                Err(fault) => Err(fault),
            },
            _ => unreachable!(),
        }
    }

    /// Seals more plaintext, as `StreamSealing::update` does.
    pub fn seal(&mut self, plain: &[u8], out: &mut [u8]) -> Result<usize, StepFault>
        requires sealing { IsSealing self.old.is }
        ensures sealing { IsSealing self.new.is }
        ensures answered { SealsBy self.old.is self.new.is plain.now out.old out.new result }
        ensures kept { OnErr result (out.new ≡ out.old) }
    {
        match &mut self.is {
            StreamKind::Sealing(sealing) => sealing.update(plain, out),
            _ => unreachable!(),
        }
    }

    /// Ends a plaintext, as `StreamSealing::finish` does.
    pub fn seal_last(&mut self, out: &mut [u8]) -> Result<usize, StepFault>
        requires sealing { IsSealing self.old.is }
        ensures sealing { IsSealing self.new.is }
        ensures answered { SealsLastBy self.old.is self.new.is out.old out.new result }
        ensures kept { OnErr result (out.new ≡ out.old) }
    {
        match &mut self.is {
            StreamKind::Sealing(sealing) => sealing.finish(out),
            _ => unreachable!(),
        }
    }

    /// Opens more of a stream, as `StreamOpening::update` does.
    pub fn open(&mut self, bytes: &[u8], out: &mut [u8]) -> Result<usize, StepFault>
        requires opening { IsOpening self.old.is }
        ensures opening { IsOpening self.new.is }
        ensures answered { OpensBy self.old.is self.new.is bytes.now out.old out.new result }
        ensures kept { OnErr result (out.new ≡ out.old) }
    {
        match &mut self.is {
            StreamKind::Opening(opening) => opening.update(bytes, out),
            _ => unreachable!(),
        }
    }

    /// Ends a stream, as `StreamOpening::finish` does.
    pub fn open_last(&mut self, out: &mut [u8]) -> Result<usize, StepFault>
        requires opening { IsOpening self.old.is }
        ensures opening { IsOpening self.new.is }
        ensures answered { OpensLastBy self.old.is self.new.is out.old out.new result }
        ensures kept { OnErr result (out.new ≡ out.old) }
    {
        match &mut self.is {
            StreamKind::Opening(opening) => opening.finish(out),
            _ => unreachable!(),
        }
    }

    /// How many bytes of a stream are kept for want of room. Of keys none is.
    pub fn waiting(&self) -> usize
        ensures { result ≡ waiting_of self.now.is }
    {
        match &self.is {
            StreamKind::Keys(_) => 0,
            StreamKind::Sealing(sealing) => sealing.waiting(),
            StreamKind::Opening(opening) => opening.waiting(),
        }
    }
}
