//! A keyset with its keys.

ghost use Rattle.std.specs.Prelude.{◌≡◌, ◌≢◌, IfOk, IfErr, OnErr};
ghost use Rattle.key_msgs.specs.declared.primitive.Primitive.TheVariants.{Stream};
ghost use Rattle.ready_keysets.specs.Working.{IsOutcome, IsReady, IsUnfit};

use crate::perform::{hold, perform};
use crate::{Refusal, Work};
use key_msgs::Primitive;
use keyset_model::Keyset;
use std::alloc::Global;
use wrapped_prims::HeldKeys;

/// A keyset and its keys for one primitive, each checked and prepared once.
#[derive(Drop)]
pub struct ReadyKeyset {
    pub(crate) keyset: Keyset,
    pub(crate) keys: HeldKeys,
}

impl ReadyKeyset {
    /// Makes a keyset's keys ready for a primitive, which isn't Stream.
    ///
    /// `UnfitKey` comes if and only if an ENABLED key can't serve for the primitive. The only other
    /// refusal is `NoMemory`.
    #[tactic(auto, using(crate::proofs::ReadyLemmas::over_at))]
    pub fn new(alloc: Global, keyset: Keyset, primitive: Primitive) -> Result<ReadyKeyset, Refusal>
        requires no_stream { primitive ≢ Stream }
        ensures ready { IfOk result (λ made. IsReady made) }
        ensures keyset { IfOk result (λ made. made.keyset ≡ keyset) }
        ensures primitive { IfOk result (λ made. made.keys.primitive ≡ primitive) }
        ensures unfit { IfErr result (IsUnfit primitive keyset) }
    {
        let keys = hold(alloc, &keyset, primitive)?;
        Ok(ReadyKeyset { keyset, keys })
    }

    /// The primitive that the keys are ready for. No memory is taken.
    pub fn primitive(&self) -> Primitive
        ensures { result ≡ self.now.keys.primitive }
    {
        self.keys.primitive()
    }

    /// Does a piece of work, writes the answer to the front of `out`, and returns how many bytes it
    /// has. The rest of `out` is unchanged; without an answer all of it is.
    ///
    /// `OtherPrimitive` comes only if the work isn't of the keys' primitive, and then there is no
    /// answer. `TooLong` comes only if an input has more than 2^30 bytes or more bytes are to be
    /// derived than the primary key gives, `FewRandomBytes` only if they are fewer than its IV,
    /// `Refused` only if no key opens the bytes or the tag isn't the body's, `NoRoom` only if `out`
    /// is shorter than the answer. The only other refusal is `NoMemory`.
    #[tactic(auto, using(crate::proofs::ReadyLemmas::over_at, crate::proofs::ReadyLemmas::outcome_of))]
    pub fn perform(
        &mut self,
        alloc: Global,
        work: Work<'_>,
        out: &mut [u8],
    ) -> Result<usize, Refusal>
        requires ready { IsReady self.old }
        ensures ready { IsReady self.new }
        ensures keyset { self.new.keyset ≡ self.old.keyset }
        ensures primitive { self.new.keys.primitive ≡ self.old.keys.primitive }
        ensures outcome { IsOutcome self.old.keys.primitive self.old.keyset work.entry out.old out.new
            result }
        ensures kept { OnErr result (out.new ≡ out.old) }
    {
        if work.primitive() != self.keys.primitive() {
            return Err(Refusal::OtherPrimitive);
        }
        if work.is_too_long() {
            return Err(Refusal::TooLong);
        }
        perform(alloc, &mut self.keys, work, out)
    }
}
