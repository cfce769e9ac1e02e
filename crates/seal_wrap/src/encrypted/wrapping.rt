//! A keyset is sealed under a master keyset and written.

ghost use Rattle.std.specs.Prelude.{◌≡◌, ◌^◌, ◌≤◌, ◌+◌, ℕ, length, IfOk, IfErr, OnOk};
ghost use Rattle.base64.specs.GeneralPurpose.{IsBytes};
ghost use Rattle.key_msgs.specs.declared.primitive.Primitive.TheVariants.{Aead};
ghost use Rattle.keyset_model.specs.Keyset.{Keys};
ghost use Rattle.keyset_model.specs.Writing.{binary_of};
ghost use Rattle.tink_spec.specs.Outside.{Stood};
ghost use Rattle.wrapped_prims.specs.Making.{IsOver};
ghost use Rattle.seal_wrap.specs.Info.{info_of};
ghost use Rattle.seal_wrap.specs.Wrapped.{wrapped_text};
ghost use Rattle.seal_wrap.specs.Wrapping.{IsWrapFault, IsWrapping};

use super::binary_form::write_wrapped_binary;
use super::json_form::write_wrapped_json;
use keyset_model::{Keyset, write_binary};
use managers::{KeyTable, Managers};
use std::alloc::Global;
use tink_base::{Entropy, NoMemory};
use wrapped_prims::{Handle, SealFault};

/// Why nothing was wrapped.
#[derive(Clone, Copy, Debug, PartialEq, Eq)]
pub enum WrapFault {
    /// The entropy failed.
    EntropyFault,
    /// Memory couldn't be allocated.
    NoMemory,
}

/// Wraps a keyset: its binary form, of at most 2^30 bytes, is sealed with empty associated data
/// under the primary key of the handle's keyset, the master, and written with the keyset's info as
/// an `EncryptedKeyset` of tink.proto, as JSON or in the binary form.
///
/// One IV is drawn, in one fill, unless it has no bytes. `EntropyFault` comes only if that fill
/// failed. After `NoMemory` either nothing or the IV was drawn. The text holds nothing of the
/// master except the output prefix of its primary key.
pub fn wrap<E: Entropy>(
    alloc: Global,
    handle: &Handle<'_>,
    keyset: &Keyset,
    json: bool,
    entropy: &mut E,
) -> Result<Vec<u8>, WrapFault>
    requires over { (master : Keys) × IsOver (⟦<Managers as KeyTable>⟧.table
        handle.now.managers.now) Aead master handle.now.held }
    requires size_bound { length (binary_of keyset.now) ≤ 2 ^ 30 }
    ensures wrapped { (master : Keys)
        → IsOver (⟦<Managers as KeyTable>⟧.table handle.now.managers.now) Aead master
        handle.now.held
        → IfOk result (λ text. IsWrapping keyset.now master
        (⟦<Managers as KeyTable>⟧.table handle.now.managers.now) json (E.state entropy.old)
        (E.state entropy.new) text.items) }
    ensures no_fault { OnOk result (Stood (E.state entropy.old).faults (E.state entropy.new).faults) }
    ensures fault { (master : Keys)
        → IsOver (⟦<Managers as KeyTable>⟧.table handle.now.managers.now) Aead master
        handle.now.held
        → IfErr result (IsWrapFault master
        (⟦<Managers as KeyTable>⟧.table handle.now.managers.now) (E.state entropy.old)
        (E.state entropy.new)) }
{
    let Ok(plain) = write_binary(alloc, keyset) else {
        return Err(WrapFault::NoMemory);
    };
    match handle.seal(alloc, &plain, b"", entropy) {
        Ok(sealed) => match text_of(alloc, keyset, json, &sealed) {
            Ok(text) => Ok(text),
            Err(_) => Err(WrapFault::NoMemory),
        },
        Err(SealFault::EntropyFault) => Err(WrapFault::EntropyFault),
        Err(SealFault::NoMemory) => Err(WrapFault::NoMemory),
    }
}

/// The text of sealed bytes with the info of a keyset. The clause `bytes` states that these are
/// bytes.
fn text_of(alloc: Global, keyset: &Keyset, json: bool, sealed: &[u8]) -> Result<Vec<u8>, NoMemory>
    requires size_bound { length (binary_of keyset.now) ≤ 2 ^ 30 }
    requires sealed_bound { length sealed.now ≤ 2 ^ 30 + 96 }
    ensures text { IfOk result (λ text.
        text.items ≡ wrapped_text json sealed.now (info_of keyset.now)) }
    ensures bytes { IsBytes sealed.now }
{
    if json {
        write_wrapped_json(alloc, keyset, sealed)
    } else {
        write_wrapped_binary(alloc, keyset, sealed)
    }
}
