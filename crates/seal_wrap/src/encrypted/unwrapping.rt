//! A wrapped keyset is read and opened under a master keyset.

ghost use Rattle.std.specs.Prelude.{◌≡◌, ◌≤◌, Bool, length, take, List, ℕ, IfOk};
ghost use Rattle.std.specs.List.{AllByRecursion};
ghost use Rattle.key_msgs.specs.declared.primitive.Primitive.TheVariants.{Aead};
ghost use Rattle.keyset_model.specs.Keyset.{IsShort, IsWithin, Keys};
ghost use Rattle.wrapped_prims.specs.Making.{IsOver};
ghost use Rattle.seal_wrap.specs.Unwrapped.{encrypted_bytes, has_sealed, is_wrapped_json, open_keyset, sealed_in, sealed_in_json, unwrap_of};
ghost use Rattle.seal_wrap.specs.Wrapping.{GivesKeyset, IsRefusal};

use super::binary_form::read_wrapped_binary;
use super::json_form::read_wrapped_json;
use keyset_model::{Keyset, KeysetRefusal, ReadError, read_binary};
use managers::{KeyTable, Managers};
use std::alloc::Global;
use tink_base::{NoMemory, Trials};
use wrapped_prims::Handle;

/// Why a text gives no keyset, in the order in which causes are looked for: the first one is
/// reported. Places are offsets of tags, in bytes from 0.
#[derive(Clone, Copy, Debug, PartialEq, Eq)]
pub enum UnwrapFault {
    /// The text is no `EncryptedKeyset` message; this is the place of the first field at fault.
    OuterWire(usize),
    /// The text, less one newline at its end, is no JSON text.
    NotJson,
    /// The JSON value isn't an object, or its encrypted bytes aren't of their form.
    Member,
    /// No key of the master opens the encrypted bytes.
    NotOpened,
    /// What was opened is no `Keyset` message; this is the place in it of the first field at fault.
    InnerWire(usize),
    /// The first keyset fault of what was opened.
    Fault(KeysetRefusal),
    /// Memory couldn't be allocated.
    NoMemory,
}

/// Unwraps a keyset from a text of at most 4,194,304 bytes, an `EncryptedKeyset` of tink.proto as
/// JSON or in its binary form, under the keys of the handle's keyset, the master.
///
/// Only the encrypted bytes are read: in the binary form the last field of that number, and in JSON
/// the member `encryptedKeyset` or, if the object has none of that name, `encrypted_keyset`; null
/// counts as missing, and what is missing is empty. They are opened with empty associated data, and
/// the plaintext is read as the binary form of a keyset. Each refusal except `NoMemory` comes if
/// and only if its step is the first to fail. URL and value of each record have at most as many
/// bytes as the text.
pub fn unwrap_keyset(
    alloc: Global,
    handle: &Handle<'_>,
    bytes: &[u8],
    json: bool,
) -> Result<Keyset, UnwrapFault>
    requires over { (master : Keys) × IsOver (⟦<Managers as KeyTable>⟧.table
        handle.now.managers.now) Aead master handle.now.held }
    requires size_bound { length bytes.now ≤ 4194304 }
    ensures keyset { (master : Keys)
        → IsOver (⟦<Managers as KeyTable>⟧.table handle.now.managers.now) Aead master
        handle.now.held
        → GivesKeyset result (unwrap_of master
        (⟦<Managers as KeyTable>⟧.table handle.now.managers.now) bytes.now json) }
    ensures within { IfOk result (λ keyset.
        AllByRecursion (IsWithin (length bytes.now)) keyset.records) }
    ensures short { IfOk result (λ keyset. AllByRecursion IsShort keyset.records) }
{
    if json {
        match read_wrapped_json(alloc, bytes) {
            Ok(sealed) => open_keyset(alloc, handle, sealed.as_slice()),
            Err(fault) => Err(fault),
        }
    } else {
        match read_wrapped_binary(alloc, bytes) {
            Ok(sealed) => open_keyset(alloc, handle, sealed),
            Err(fault) => Err(fault),
        }
    }
}

/// Whether the text is an encrypted keyset as JSON: its encrypted bytes can be read, as
/// `unwrap_keyset` reads them, and aren't empty.
#[tactic(auto, unfolding(crate::specs::Unwrapped::is_wrapped_json))]
pub fn is_wrapped_json(alloc: Global, text: &[u8]) -> Result<bool, NoMemory>
    ensures { IfOk result (λ wrapped. wrapped ≡ is_wrapped_json text.now) }
{
    match read_wrapped_json(alloc, text) {
        Ok(sealed) => Ok(!sealed.as_slice().is_empty()),
        Err(fault) => unless_starved(fault),
    }
}

/// The first five of a text's encrypted bytes, or all if there are fewer: the output prefix of the
/// key that sealed them, if it has one. The bytes are read as `unwrap_keyset` reads them; if it
/// can't, the result is empty. Nothing is opened.
pub fn encrypted_front(alloc: Global, text: &[u8], json: bool) -> Result<Vec<u8>, NoMemory>
    ensures { IfOk result (λ front.
        front.items ≡ take 5 (encrypted_bytes (sealed_in json text.now))) }
{
    if json {
        match read_wrapped_json(alloc, text) {
            Ok(sealed) => copied_front(alloc, sealed.as_slice()),
            Err(fault) => no_front(alloc, fault),
        }
    } else {
        match read_wrapped_binary(alloc, text) {
            Ok(sealed) => copied_front(alloc, sealed),
            Err(fault) => no_front(alloc, fault),
        }
    }
}

/// The first five bytes, or all if there are fewer.
fn copied_front(alloc: Global, bytes: &[u8]) -> Result<Vec<u8>, NoMemory>
    ensures { IfOk result (λ front. front.items ≡ take 5 bytes.now) }
{
    let mut front = Vec::new(alloc);
    if bytes.len() < 5 {
        front.extend_from_slice(bytes)?;
    } else {
        front.extend_from_slice(&bytes[..5])?;
    }
    Ok(front)
}

/// No bytes, for a text refused with this fault, unless memory couldn't be allocated.
fn no_front(alloc: Global, fault: UnwrapFault) -> Result<Vec<u8>, NoMemory>
    ensures { IfOk result (λ front. (json : Bool) (text : List ℕ)
        → IsRefusal fault (sealed_in json text)
        → front.items ≡ take 5 (encrypted_bytes (sealed_in json text))) }
{
    match fault {
        UnwrapFault::NoMemory => Err(NoMemory),
        UnwrapFault::OuterWire(_)
        | UnwrapFault::NotJson
        | UnwrapFault::Member
        | UnwrapFault::NotOpened
        | UnwrapFault::InnerWire(_)
        | UnwrapFault::Fault(_) => Ok(Vec::new(alloc)),
    }
}

/// A text refused with this fault is no encrypted keyset, unless memory couldn't be allocated.
fn unless_starved(fault: UnwrapFault) -> Result<bool, NoMemory>
    ensures { IfOk result (λ wrapped. (text : List ℕ)
        → IsRefusal fault (sealed_in_json text) → wrapped ≡ has_sealed (sealed_in_json text)) }
{
    match fault {
        UnwrapFault::NoMemory => Err(NoMemory),
        UnwrapFault::OuterWire(_)
        | UnwrapFault::NotJson
        | UnwrapFault::Member
        | UnwrapFault::NotOpened
        | UnwrapFault::InnerWire(_)
        | UnwrapFault::Fault(_) => Ok(false),
    }
}

/// The keyset that was sealed.
fn open_keyset(alloc: Global, handle: &Handle<'_>, sealed: &[u8]) -> Result<Keyset, UnwrapFault>
    requires over { (master : Keys) × IsOver (⟦<Managers as KeyTable>⟧.table
        handle.now.managers.now) Aead master handle.now.held }
    requires size_bound { length sealed.now ≤ 4194304 }
    ensures keyset { (master : Keys)
        → IsOver (⟦<Managers as KeyTable>⟧.table handle.now.managers.now) Aead master
        handle.now.held
        → GivesKeyset result (open_keyset master
        (⟦<Managers as KeyTable>⟧.table handle.now.managers.now) sealed.now) }
    ensures within { IfOk result (λ keyset.
        AllByRecursion (IsWithin (length sealed.now)) keyset.records) }
    ensures short { IfOk result (λ keyset. AllByRecursion IsShort keyset.records) }
{
    let plain = match handle.open(alloc, sealed, b"", &mut Trials::new()) {
        Ok(Some(plain)) => plain,
        Ok(None) => return Err(UnwrapFault::NotOpened),
        Err(_) => return Err(UnwrapFault::NoMemory),
    };
    match read_binary(alloc, &plain) {
        Ok(keyset) => Ok(keyset),
        Err(ReadError::Wire(wire)) => Err(UnwrapFault::InnerWire(wire.at)),
        Err(ReadError::Fault(fault)) => Err(UnwrapFault::Fault(fault)),
        Err(ReadError::NoMemory) => Err(UnwrapFault::NoMemory),
    }
}
