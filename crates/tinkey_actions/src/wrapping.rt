//! Keysets sealed under a master, and opened.

ghost use Rattle.std.specs.Prelude.{◌≡◌, ◌≤◌, ◌^◌, false, length, IfOk};
ghost use Rattle.std.specs.List.{AllByRecursion};
ghost use Rattle.key_msgs.specs.declared.primitive.Primitive.TheVariants.{Aead};
ghost use Rattle.keyset_model.specs.Keyset.{Keys, IsShort};
ghost use Rattle.keyset_model.specs.Writing.{binary_of};
ghost use Rattle.wrapped_prims.specs.Making.{IsOver};
ghost use Rattle.tinkey_plans.specs.Origins.{begins_of};
ghost use Rattle.tinkey_plans.specs.Ends.{World};
ghost use Rattle.tinkey_plans.specs.Steps.{OrStarved, Passes};
ghost use Rattle.tinkey_plans.specs.Handles.{IsServing};
ghost use Rattle.tinkey_plans.specs.Session.{form_sealed};
ghost use Rattle.tinkey_plans.specs.Wrapping.{is_json, is_keyset, keyset_sealer, makes_wrapped, unopened_status, unwrap_refusal, unwraps};
ghost use Rattle.tinkey_actions.specs.Written.{with_status};
ghost use Rattle.tinkey_session.specs.Writing.{Writes};

use crate::locks::OpenMaster;
use crate::output::within;
use crate::sealers::sealer_under;
use keyset_json::{JsonError, read_json};
use keyset_model::{Keyset, ReadError, read_binary};
use managers::{KeyTable, Managers};
use seal_wrap::{UnwrapFault, WrapFault, encrypted_front, unwrap_keyset, wrap};
use std::alloc::Global;
use tink_base::{Bytes, Entropy, NoMemory};
use tinkey_plans::{Begins, Origin, Status, Unopened, begins_of};
use tinkey_session::WriteError;
use tinkey_words::Format;
use wrapped_prims::Handle;

/// The most bytes of a wrapped keyset.
pub(crate) const WRAPPED_LIMIT: usize = 4_194_304;

/// The text of the keyset, sealed under the handle's keyset.
pub(crate) fn wrap_under<E: Entropy>(
    alloc: Global,
    handle: &Handle<'_>,
    keyset: &Keyset,
    form: Format,
    entropy: &mut E,
) -> Result<Bytes, WriteError>
    requires serving { IsServing (⟦<Managers as KeyTable>⟧.table handle.now.managers.now) Aead
        handle.now.held }
    requires bound { length (binary_of keyset.now) ≤ 2 ^ 20 }
    ensures passes { (w : World) (master : Keys)
        → IsOver (⟦<Managers as KeyTable>⟧.table handle.now.managers.now) Aead master handle.now.held
        → Passes (makes_wrapped keyset.now master
        (⟦<Managers as KeyTable>⟧.table handle.now.managers.now) form)
        (record w { entropy = E.state entropy.old }) (with_status result)
        (record w { entropy = E.state entropy.new }) }
    ensures writes { (master : Keys)
        → IsOver (⟦<Managers as KeyTable>⟧.table handle.now.managers.now) Aead master handle.now.held
        → Writes (form_sealed (⟦<Managers as KeyTable>⟧.table handle.now.managers.now) master form)
        keyset.now result (E.state entropy.old) (E.state entropy.new) }
{
    match wrap(alloc, handle, keyset, is_json(form), entropy) {
        Ok(text) => within(text, WRAPPED_LIMIT),
        Err(WrapFault::EntropyFault) => Err(WriteError::EntropyFault),
        Err(WrapFault::NoMemory) => Err(WriteError::NoMemory),
    }
}

/// The keyset of the text, which comes from there, opened under the master.
pub(crate) fn unwrap_under(
    alloc: Global,
    from: Origin,
    master: &OpenMaster<'_>,
    text: &[u8],
    form: Format,
) -> Result<Keyset, Status>
    requires over { IsOver (⟦<Managers as KeyTable>⟧.table master.now.handle.managers.now) Aead
        master.now.keyset master.now.handle.held }
    requires bound { length text.now ≤ 4194304 }
    ensures passes { (w : World) → Passes
        (unwraps from master.now.keyset
        (⟦<Managers as KeyTable>⟧.table master.now.handle.managers.now) form text.now) w result w }
    ensures short { IfOk result (λ keyset. AllByRecursion IsShort keyset.records) }
{
    match unwrap_keyset(alloc, &master.handle, text, is_json(form)) {
        Ok(keyset) => Ok(keyset),
        Err(fault) => Err(refusal(alloc, from, &master.keyset, text, form, fault)),
    }
}

/// The status of this text, which gives no keyset.
fn refusal(
    alloc: Global,
    from: Origin,
    master: &Keyset,
    text: &[u8],
    form: Format,
    fault: UnwrapFault,
) -> Status
    requires bound { length text.now ≤ 4194304 }
    ensures { OrStarved (unwrap_refusal from (begins_of text.now) (is_keyset form text.now)
        (keyset_sealer form master.now text.now) fault) result }
{
    match fault {
        UnwrapFault::OuterWire(at) => Status::BadProto(at, from, begins_of(text)),
        UnwrapFault::InnerWire(at) => Status::BadProto(at, from, Begins::Otherwise),
        UnwrapFault::NotJson => Status::NotJson(from, begins_of(text)),
        UnwrapFault::Member => Status::WrappedMember(from),
        UnwrapFault::NotOpened => unopened(alloc, from, master, text, form),
        UnwrapFault::Fault(fault) => Status::Keyset(fault, from),
        UnwrapFault::NoMemory => Status::NoMemory,
    }
}

/// The status of a text that the master doesn't open: a keyset in clear is reported as one.
fn unopened(alloc: Global, from: Origin, master: &Keyset, text: &[u8], form: Format) -> Status
    requires bound { length text.now ≤ 4194304 }
    ensures { OrStarved (unopened_status from (is_keyset form text.now)
        (keyset_sealer form master.now text.now)) result }
{
    match is_keyset(alloc, text, form) {
        Ok(true) => Status::KeysetInClear(from),
        Ok(false) => not_opened(alloc, from, master, text, form),
        Err(NoMemory) => Status::NoMemory,
    }
}

/// The status of an encrypted keyset that the master doesn't open.
fn not_opened(alloc: Global, from: Origin, master: &Keyset, text: &[u8], form: Format) -> Status
    ensures { OrStarved (unopened_status from false (keyset_sealer form master.now text.now)) result }
{
    match encrypted_front(alloc, text, is_json(form)) {
        Ok(front) => Status::OpenFailed(Unopened::Keyset, sealer_under(master, &front)),
        Err(NoMemory) => Status::NoMemory,
    }
}

/// Whether the bytes are a keyset in clear, in this form.
fn is_keyset(alloc: Global, bytes: &[u8], form: Format) -> Result<bool, NoMemory>
    requires bound { length bytes.now ≤ 4194304 }
    ensures { IfOk result (λ clear. clear ≡ is_keyset form bytes.now) }
{
    match form {
        Format::Json => match read_json(alloc, bytes) {
            Ok(_) => Ok(true),
            Err(JsonError::NoMemory) => Err(NoMemory),
            Err(JsonError::NotJson | JsonError::Shape(_) | JsonError::Fault(_)) => Ok(false),
        },
        Format::Binary => match read_binary(alloc, bytes) {
            Ok(_) => Ok(true),
            Err(ReadError::NoMemory) => Err(NoMemory),
            Err(ReadError::Wire(_) | ReadError::Fault(_)) => Ok(false),
        },
    }
}

/// Whether the form is JSON rather than binary.
fn is_json(form: Format) -> bool
    ensures { result ≡ is_json form }
{
    match form {
        Format::Json => true,
        Format::Binary => false,
    }
}
