//! Keysets made ready from an encrypted text and the text of its master.

ghost use Rattle.std.specs.Prelude.{◌≡◌, ◌≢◌, ◌≤◌, length, ℕ, IfOk, IfErr};
ghost use Rattle.key_msgs.specs.declared.primitive.Primitive.TheVariants.{Aead, Stream};
ghost use Rattle.keyset_model.specs.Keyset.{Keys};
ghost use Rattle.wrapped_prims.specs.Making.{IsOver};
ghost use Rattle.ready_keysets.specs.Streaming.{IsStreamsOf};
ghost use Rattle.managers.specs.Standard.{standard_table};
ghost use Rattle.ready_keysets.specs.Texts.{IsOf};
ghost use Rattle.ready_keysets.specs.Unwrapping.{GivesInside, GivesMaster, IsNoStreamsInside, IsNotInside, inside_under, keyset_inside, master_in, refusal_of};

use crate::{ReadyKeyset, Refusal, StreamKeyset};
use key_msgs::Primitive;
use keyset_json::{JsonError, read_json};
use keyset_model::{Keyset, ReadError, read_binary};
use managers::{KeyTable, Managers};
use seal_wrap::{UnwrapFault, unwrap_keyset};
use std::alloc::Global;
use wrapped_prims::{Handle, HandleError};

/// The most bytes of an encrypted keyset, and of its master.
const ENCRYPTED_LIMIT: usize = 4_194_304;

const MASTER_LIMIT: usize = 1_048_576;

impl ReadyKeyset {
    /// Makes the keyset sealed in an encrypted text ready for a primitive, which isn't Stream. Each
    /// of the two texts is in JSON or in the binary form. The master's keys aren't kept.
    ///
    /// `TooLong` comes only if the encrypted text has more than 4,194,304 bytes or the master's
    /// more than 1,048,576. Otherwise the first step that fails is reported: `NoMaster` if the
    /// master's text is no keyset, `UnfitMaster` if an ENABLED key of it can't serve as an AEAD,
    /// `NoWrapped` if the encrypted text isn't of its form, `Refused` if no key of the master opens
    /// it, `NoKeyset` if what was opened is no keyset, and `UnfitKey` if an ENABLED key of that
    /// keyset can't serve.
    #[tactic(auto, using(crate::proofs::UnwrapLemmas::lacking_inside, crate::proofs::UnwrapLemmas::unfit_inside))]
    pub fn of_wrapped(
        alloc: Global,
        encrypted: &[u8],
        encrypted_json: bool,
        master: &[u8],
        master_json: bool,
        primitive: Primitive,
    ) -> Result<ReadyKeyset, Refusal>
        requires no_stream { primitive ≢ Stream }
        ensures made { IfOk result (IsOf primitive
            (keyset_inside encrypted.now encrypted_json master.now master_json)) }
        ensures none { IfErr result (IsNotInside primitive (length encrypted.now) (length master.now)
            (keyset_inside encrypted.now encrypted_json master.now master_json)) }
    {
        if encrypted.len() > ENCRYPTED_LIMIT || master.len() > MASTER_LIMIT {
            return Err(Refusal::TooLong);
        }
        match keyset_inside(alloc, encrypted, encrypted_json, master, master_json) {
            Ok(keyset) => ReadyKeyset::new(alloc, keyset, primitive),
            Err(refusal) => Err(refusal),
        }
    }
}

impl StreamKeyset {
    /// Makes the keyset sealed in an encrypted text ready for streams. The texts, and what is
    /// refused in which order, are those of `ReadyKeyset::of_wrapped`.
    #[tactic(auto, using(crate::proofs::UnwrapLemmas::lacking_streams, crate::proofs::UnwrapLemmas::unfit_streams))]
    pub fn of_wrapped(
        alloc: Global,
        encrypted: &[u8],
        encrypted_json: bool,
        master: &[u8],
        master_json: bool,
    ) -> Result<StreamKeyset, Refusal>
        ensures made { IfOk result (IsStreamsOf
            (keyset_inside encrypted.now encrypted_json master.now master_json)) }
        ensures none { IfErr result (IsNoStreamsInside (length encrypted.now) (length master.now)
            (keyset_inside encrypted.now encrypted_json master.now master_json)) }
    {
        if encrypted.len() > ENCRYPTED_LIMIT {
            return Err(Refusal::TooLong);
        }
        if master.len() > MASTER_LIMIT {
            return Err(Refusal::TooLong);
        }
        let inside = keyset_inside(alloc, encrypted, encrypted_json, master, master_json);
        match inside {
            Ok(keyset) => StreamKeyset::new(alloc, keyset),
            Err(refusal) => Err(refusal),
        }
    }
}

/// The keyset that the two texts give.
fn keyset_inside(
    alloc: Global,
    encrypted: &[u8],
    encrypted_json: bool,
    master: &[u8],
    master_json: bool,
) -> Result<Keyset, Refusal>
    requires encrypted_bound { length encrypted.now ≤ 4194304 }
    requires master_bound { length master.now ≤ 1048576 }
    ensures { GivesInside result
        (keyset_inside encrypted.now encrypted_json master.now master_json) }
{
    match read_master(alloc, master, master_json) {
        Ok(keyset) => unwrap(alloc, &keyset, encrypted, encrypted_json),
        Err(refusal) => Err(refusal),
    }
}

/// The master keyset in a text.
#[tactic(auto, using(crate::proofs::UnwrapLemmas::read_ok, crate::proofs::UnwrapLemmas::read_none))]
fn read_master(alloc: Global, text: &[u8], json: bool) -> Result<Keyset, Refusal>
    requires bound { length text.now ≤ 1048576 }
    ensures { GivesMaster result (master_in json text.now) }
{
    if json {
        match read_json(alloc, text) {
            Ok(keyset) => Ok(keyset),
            Err(JsonError::NoMemory) => Err(Refusal::NoMemory),
            Err(_) => Err(Refusal::NoMaster),
        }
    } else {
        match read_binary(alloc, text) {
            Ok(keyset) => Ok(keyset),
            Err(ReadError::NoMemory) => Err(Refusal::NoMemory),
            Err(_) => Err(Refusal::NoMaster),
        }
    }
}

/// The keyset that an encrypted text gives under a master, whose keys are prepared only for this
/// call.
fn unwrap(alloc: Global, master: &Keyset, encrypted: &[u8], json: bool) -> Result<Keyset, Refusal>
    requires bound { length encrypted.now ≤ 4194304 }
    ensures { GivesInside result (inside_under encrypted.now json master.now) }
{
    let managers = Managers::standard();
    match Handle::new(alloc, master, &managers, Primitive::Aead) {
        Ok(handle) => unwrap_by(alloc, &handle, encrypted, json),
        Err(HandleError::NoMemory) => Err(Refusal::NoMemory),
        Err(_) => Err(Refusal::UnfitMaster),
    }
}

/// The same with a handle of the master.
fn unwrap_by(
    alloc: Global,
    handle: &Handle<'_>,
    encrypted: &[u8],
    json: bool,
) -> Result<Keyset, Refusal>
    requires table { ⟦<Managers as KeyTable>⟧.table handle.now.managers.now ≡ standard_table }
    requires over { (master : Keys) × IsOver standard_table Aead master handle.now.held }
    requires bound { length encrypted.now ≤ 4194304 }
    ensures { (master : Keys) → IsOver standard_table Aead master handle.now.held
        → GivesInside result (inside_under encrypted.now json master) }
{
    match unwrap_keyset(alloc, handle, encrypted, json) {
        Ok(keyset) => Ok(keyset),
        Err(fault) => Err(refusal(fault)),
    }
}

/// The refusal for a fault of unwrapping.
fn refusal(fault: UnwrapFault) -> Refusal
    ensures { result ≡ refusal_of fault }
{
    match fault {
        UnwrapFault::OuterWire(_) | UnwrapFault::NotJson | UnwrapFault::Member => {
            Refusal::NoWrapped
        }
        UnwrapFault::NotOpened => Refusal::Refused,
        UnwrapFault::InnerWire(_) | UnwrapFault::Fault(_) => Refusal::NoKeyset,
        UnwrapFault::NoMemory => Refusal::NoMemory,
    }
}
