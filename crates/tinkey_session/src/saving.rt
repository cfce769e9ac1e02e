//! What writes a keyset that is saved in the middle of a session.

ghost use Rattle.std.specs.Prelude.{◌≡◌};
ghost use Rattle.std.specs.List.{AllByRecursion};
ghost use Rattle.keyset_model.specs.Keyset.{IsShort};
ghost use Rattle.tinkey_session.specs.Saving.{Form};
ghost use Rattle.tinkey_session.specs.Writing.{Writes};

use crate::reply::LineRefusal;
use keyset_model::Keyset;
use std::alloc::Global;
use tink_base::{Bytes, Entropy};

/// Why a keyset isn't written.
#[derive(Clone, Copy, Debug, PartialEq, Eq)]
pub enum WriteError {
    /// The form refuses it.
    Refused(LineRefusal),
    /// The entropy failed.
    EntropyFault,
    /// Memory couldn't be allocated.
    NoMemory,
}

/// What writes keysets, in clear or encrypted.
pub trait Writer {
    /// What a keyset becomes, how many random bytes that draws, and whether only a saved keyset seals.
    ghost form: { Self → Form };

    /// That it can write: for instance that the keys that it seals with can serve.
    ghost ready: { Self → Type 0 };

    /// The bytes of a file that holds the keyset. `EntropyFault` comes only if the entropy failed,
    /// and fewer bytes were drawn than the form needs. A record's URL and value together have at
    /// most 2^31 - 256 bytes.
    fn write<E: Entropy>(
        &self,
        alloc: Global,
        keyset: &Keyset,
        entropy: &mut E,
    ) -> Result<Bytes, WriteError>
        requires ready { ready self.now }
        requires short { AllByRecursion IsShort keyset.now.records }
        ensures { Writes (form self.now) keyset.now result
            (E.state entropy.old) (E.state entropy.new) };

    /// Whether lines that seal or tag are refused while the keyset isn't saved: an accepted edit
    /// stands that no file has.
    fn saved_only(&self) -> bool
        ensures { result ≡ (form self.now).saved_only };
}

/// Writes no keyset: each line that saves one is refused as a bad line.
#[derive(Clone, Copy, Debug, Drop)]
pub struct NoWriter;

impl Writer for NoWriter {
    ghost use Rattle.tinkey_session.specs.Saving.{no_form};

    ghost form = { λ writer. no_form };

    ghost ready = { λ writer. Unit {0} };

    fn write<E: Entropy>(
        &self,
        _alloc: Global,
        _keyset: &Keyset,
        _entropy: &mut E,
    ) -> Result<Bytes, WriteError> {
        Err(WriteError::Refused(LineRefusal::BadLine))
    }

    fn saved_only(&self) -> bool {
        false
    }
}
