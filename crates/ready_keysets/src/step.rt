//! Why a step of a stream gives nothing.

ghost use Rattle.std.specs.Prelude.{◌≡◌};
ghost use Rattle.ready_keysets.specs.declared.step.StepFault.TheVariants as steps;

use tink_base::NoMemory;

/// Why a call of a stream gives nothing. Nothing was written to the output.
#[derive(Clone, Copy, Debug, PartialEq, Eq)]
pub enum StepFault {
    /// There are fewer random bytes than the primary key takes for a stream.
    FewRandomBytes,
    /// The bytes are no stream under these keys and this associated data.
    Refused,
    /// The stream has more than 2^32 segments.
    TooManySegments,
    /// What is to be given has more bytes than the output. It is kept.
    NoRoom,
    /// The stream was taken to its end before, or a call of it has failed.
    Ended,
    /// Memory couldn't be allocated.
    NoMemory,
}

impl From<NoMemory> for StepFault {
    ghost from_gives = { λ _ fault. fault ≡ steps.NoMemory };

    fn from(_error: NoMemory) -> StepFault {
        StepFault::NoMemory
    }
}
