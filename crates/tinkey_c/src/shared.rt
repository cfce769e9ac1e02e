//! Keys in memory that C keeps.

ghost use Rattle.std.specs.Prelude.{◌≡◌, Option, Some, None};
ghost use Rattle.std.specs.Coded.{coded_option};
ghost use Rattle.std.specs.contracts.impls.GlobalAllocator.TheImpl.{ghosts};
ghost use Rattle.ready_keysets.specs.contracts.ready.ReadyKeyset.{the_row};
ghost use Rattle.ready_keysets.specs.declared.ready.ReadyKeyset.{ReadyKeyset};
ghost use Rattle.tinkey_c.specs.Shared.{IsOpen, lies_whole};

use raw_boxes::RawBox;
use ready_keysets::ReadyKeyset;
use std::alloc::Global;
use std::marker::Model;

/// The place of a program's keys. All zeros means no keys.
#[repr(C)]
#[derive(Drop)]
pub struct SharedKeys {
    at: *mut u8,
    ghost held: { Option ReadyKeyset } by { coded_option the_row.coded },
}

impl Model for SharedKeys {
    ghost also_owns = { λ keys. lies_whole
        (ghosts.dealloc_token (record { memory = record { seal = tt } })) the_row keys.at keys.held };
}

// Keys are plain data, tied to no thread.
unsafe impl Send for SharedKeys {}

fn needs_send<T: Send>(_value: &T) {}

/// Keys may move between threads: their type is `Send`.
pub fn keys_are_send(keys: &SharedKeys) {
    needs_send(keys)
}

/// No keys.
pub(crate) fn no_keys() -> SharedKeys
    ensures { result.held ≡ None }
{
    SharedKeys {
        at: std::ptr::null_mut(),
    }
}

/// The keys of a box, whose memory C owns from now on.
pub(crate) fn kept(parts: RawBox<ReadyKeyset, Global>) -> SharedKeys
    ensures { result.held ≡ Some parts.value }
{
    let RawBox { at, alloc: _ } = parts;
    SharedKeys {
        at: at.cast::<u8>(),
    }
}

/// The box of keys that C has kept.
pub(crate) fn taken(keys: SharedKeys, alloc: Global) -> RawBox<ReadyKeyset, Global>
    requires { IsOpen keys.held }
    ensures { Some result.value ≡ keys.held }
{
    let SharedKeys { at } = keys;
    RawBox {
        at: at.cast::<ReadyKeyset>(),
        alloc,
    }
}
