//! How a run ends.

ghost use Rattle.std.specs.Prelude.{◌≡◌};

use crate::{Begins, Origin, Sealer, UnfitKey, Unopened};
use key_msgs::Rule;
use keyset_json::Path;
use keyset_model::KeysetRefusal;
use stream_range::RangeFault;
use tink_base::NoMemory;
use tinkey_cmds::EditError;
use tinkey_selftest::SelfTestFault;
use tinkey_session::Refusal;
use tinkey_words::Misuse;

/// How a run ends, with the place where it was refused.
///
/// Places of words and bytes count from 0. The texts and the exit codes are in `specs/Status.antt`
/// and in docs/SPECIFICATION.md.
#[derive(Clone, Copy, Debug, PartialEq, Eq)]
pub enum Status {
    /// The command was done.
    Done,
    /// No key of the keyset opens this; with what is known of the key that sealed it.
    OpenFailed(Unopened, Sealer),
    /// The master opens no keyset in the text from there, which is a keyset in clear.
    KeysetInClear(Origin),
    /// It is refused as a line of a session is: for the name of a template, the length or the edit
    /// that was asked for, or because no key made the tag.
    Refused(Refusal),
    /// The first record that can't serve, and why, as a line of a session is refused for it.
    Unfit(Refusal, UnfitKey),
    /// No key of the keyset has the output prefix in front of the input, and each has one.
    NoKeyOf,
    /// The first segment of the stream, counted from 0, that doesn't authenticate in its place.
    StreamFailed(u64),
    /// There is no word.
    NoWords,
    /// A word is at fault, or missing if its place is the number of words.
    Usage(Misuse),
    /// The field whose tag is at this place can't be cut or read. What was read comes from there,
    /// and begins so; for a place inside an encrypted keyset, how the text around it begins isn't
    /// known.
    BadProto(usize, Origin, Begins),
    /// The same for a keyset whose bytes are an encrypted keyset.
    ProtoLocked(usize, Origin),
    /// The keyset from there, which begins so, isn't JSON.
    NotJson(Origin, Begins),
    /// This member of the keyset from there is the first that isn't of its form.
    Shape(Path, Origin),
    /// The JSON of the wrapped keyset from there isn't an object, or its encrypted bytes aren't of
    /// their form.
    WrappedMember(Origin),
    /// The keyset from there has this fault.
    Keyset(KeysetRefusal, Origin),
    /// The keyset from there has this fault, and its text is an encrypted keyset.
    KeysetLocked(KeysetRefusal, Origin),
    /// The keyset from there has more than 1,048,576 bytes, or a wrapped one more than 4,194,304.
    KeysetTooLong(Origin),
    /// The keyset that would be written has more bytes than that.
    KeysetOutgrown,
    /// The file of the keyset that this option gives is missing.
    InMissing(Origin),
    /// The file of the stream is missing.
    StreamMissing,
    /// The input has more than 16,777,216 bytes, or 16,778,240 if it is to be opened.
    InputTooLong,
    /// A byte follows 2^32 segments of the stream.
    TooManySegments,
    /// A line of the session has more than 65,536 bytes.
    LineTooLong,
    /// The session has more than 100,000 lines.
    TooManyLines,
    /// The template of data keys is none of an AEAD.
    DekTemplate,
    /// No manager has the type URL of the data keys.
    NoDekManager,
    /// The first rule of its manager that the new data key breaks.
    DekRefused(Rule),
    /// The range ends after the plaintext.
    PastEnd,
    /// A file of the output's name is there.
    OutExists,
    /// The source failed.
    ReadFault,
    /// The sink failed.
    WriteFault,
    /// The entropy failed.
    EntropyFault,
    /// The store failed.
    StoreFault,
    /// Memory couldn't be allocated.
    NoMemory,
}

impl Status {
    ghost use Rattle.tinkey_plans.specs.Status.{code_of};

    /// The exit code, by the kind of the status.
    pub fn code(&self) -> u8
        ensures { result ≡ code_of self.now }
    {
        match self {
            Status::Done => 0,
            Status::OpenFailed(_, _)
            | Status::KeysetInClear(_)
            | Status::Refused(Refusal::VerifyFailed)
            | Status::NoKeyOf
            | Status::StreamFailed(_) => 1,
            Status::NoWords
            | Status::Usage(_)
            | Status::Refused(
                Refusal::UnknownTemplate
                | Refusal::AsymmetricTemplate
                | Refusal::OutputTooLong(_, _),
            )
            | Status::DekTemplate
            | Status::PastEnd => 2,
            Status::BadProto(_, _, _)
            | Status::ProtoLocked(_, _)
            | Status::NotJson(_, _)
            | Status::Shape(_, _)
            | Status::WrappedMember(_)
            | Status::Keyset(_, _)
            | Status::KeysetLocked(_, _)
            | Status::Unfit(_, _)
            | Status::Refused(Refusal::NoManager(_) | Refusal::BadKey(_, _) | Refusal::NotRaw(_))
            | Status::NoDekManager
            | Status::DekRefused(_) => 3,
            Status::InMissing(_)
            | Status::StreamMissing
            | Status::Refused(Refusal::Command(_))
            | Status::OutExists => 4,
            Status::ReadFault | Status::WriteFault | Status::EntropyFault | Status::StoreFault => 5,
            Status::KeysetTooLong(_)
            | Status::KeysetOutgrown
            | Status::InputTooLong
            | Status::TooManySegments
            | Status::LineTooLong
            | Status::TooManyLines => 6,
            Status::NoMemory => 7,
        }
    }
}

impl From<NoMemory> for Status {
    ghost use Rattle.tinkey_plans.specs.declared.status.Status.TheVariants as status;

    ghost from_gives = { λ _ s. s ≡ status.NoMemory };

    fn from(_error: NoMemory) -> Status {
        Status::NoMemory
    }
}

impl From<Refusal> for Status {
    ghost use Rattle.tinkey_plans.specs.declared.status.Status.TheVariants as status;

    ghost from_gives = { λ why s. s ≡ status.Refused why };

    fn from(why: Refusal) -> Status {
        Status::Refused(why)
    }
}

impl From<EditError> for Status {
    ghost use Rattle.tinkey_plans.specs.Steps.{edit_refusal};

    ghost from_gives = { λ error s. s ≡ edit_refusal error };

    fn from(error: EditError) -> Status {
        match error {
            EditError::Refused(fault) => Status::Refused(Refusal::Command(fault)),
            EditError::EntropyFault => Status::EntropyFault,
            EditError::NoMemory => Status::NoMemory,
        }
    }
}

impl From<RangeFault> for Status {
    ghost use Rattle.tinkey_plans.specs.Ranging.{range_status};

    ghost from_gives = { λ fault s. s ≡ range_status fault };

    fn from(fault: RangeFault) -> Status {
        match fault {
            RangeFault::StreamFailed(number) => Status::StreamFailed(number),
            RangeFault::PastEnd => Status::PastEnd,
            RangeFault::ReadFault => Status::StoreFault,
            RangeFault::NoMemory => Status::NoMemory,
        }
    }
}

impl From<SelfTestFault> for Status {
    ghost use Rattle.tinkey_plans.specs.SelfTesting.{self_test_refusal};

    ghost from_gives = { λ fault s. s ≡ self_test_refusal fault };

    fn from(fault: SelfTestFault) -> Status {
        match fault {
            SelfTestFault::Refused(fault) => Status::Refused(Refusal::Command(fault)),
            SelfTestFault::NoMemory => Status::NoMemory,
        }
    }
}
