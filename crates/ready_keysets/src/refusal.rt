//! Why a keyset isn't ready, or a piece of work isn't done.

ghost use Rattle.std.specs.Prelude.{◌≡◌};
ghost use Rattle.ready_keysets.specs.declared.refusal.Refusal.TheVariants as refusals;

use std::alloc::AllocFailed;
use tink_base::NoMemory;

/// Why there is no answer. Nothing was written.
#[derive(Clone, Copy, Debug, PartialEq, Eq)]
pub enum Refusal {
    /// The text of the master is no keyset.
    NoMaster,
    /// An ENABLED key of the master can't serve as an AEAD.
    UnfitMaster,
    /// The text is no encrypted keyset.
    NoWrapped,
    /// The text, or what an encrypted text was opened to, is no keyset.
    NoKeyset,
    /// An ENABLED key of the keyset can't serve for the primitive.
    UnfitKey,
    /// The keys are for another primitive than the work's.
    OtherPrimitive,
    /// A text or an input has more than 2^30 bytes, an encrypted keyset more than 4,194,304 or its
    /// master more than 1,048,576, or more bytes were to be derived than the primary key gives.
    TooLong,
    /// There are fewer random bytes than the primary key takes for an IV.
    FewRandomBytes,
    /// No key opens the bytes with this associated data, no key of the master opens an encrypted
    /// keyset, or the tag isn't one of the body.
    Refused,
    /// The answer has more bytes than the output.
    NoRoom,
    /// Memory couldn't be allocated.
    NoMemory,
}

impl From<NoMemory> for Refusal {
    ghost from_gives = { λ _ refusal. refusal ≡ refusals.NoMemory };

    fn from(_error: NoMemory) -> Refusal {
        Refusal::NoMemory
    }
}

impl<T: Drop> From<AllocFailed<T>> for Refusal {
    ghost from_gives = { λ _ refusal. refusal ≡ refusals.NoMemory };

    fn from(_error: AllocFailed<T>) -> Refusal {
        Refusal::NoMemory
    }
}
