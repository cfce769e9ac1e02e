//! Streams in memory that C keeps, and keys for them.

ghost use Rattle.std.specs.Prelude.{◌≡◌, Option, Some, None};
ghost use Rattle.std.specs.Coded.{coded_option};
ghost use Rattle.std.specs.contracts.impls.GlobalAllocator.TheImpl.{ghosts};
ghost use Rattle.ready_keysets.specs.contracts.objects.StreamObject.{the_row};
ghost use Rattle.ready_keysets.specs.declared.objects.StreamObject.{StreamObject};
ghost use Rattle.tinkey_c.specs.Shared.{IsOpen, lies_whole};

use raw_boxes::RawBox;
use ready_keysets::StreamObject;
use std::alloc::Global;
use std::marker::Model;

/// The place of a program's stream, or of its keys for streams. All zeros means none.
#[repr(C)]
#[derive(Drop)]
pub struct SharedStream {
    at: *mut u8,
    ghost held: { Option StreamObject } by { coded_option the_row.coded },
}

impl Model for SharedStream {
    ghost also_owns = { λ stream. lies_whole
        (ghosts.dealloc_token (record { memory = record { seal = tt } })) the_row stream.at stream.held };
}

// Streams and their keys are plain data, tied to no thread.
unsafe impl Send for SharedStream {}

fn needs_send<T: Send>(_value: &T) {}

/// Streams may move between threads: their type is `Send`.
pub fn streams_are_send(stream: &SharedStream) {
    needs_send(stream)
}

/// No stream.
pub(crate) fn no_stream() -> SharedStream
    ensures { result.held ≡ None }
{
    SharedStream {
        at: std::ptr::null_mut(),
    }
}

/// The stream of a box, whose memory C owns from now on.
pub(crate) fn kept(parts: RawBox<StreamObject, Global>) -> SharedStream
    ensures { result.held ≡ Some parts.value }
{
    let RawBox { at, alloc: _ } = parts;
    SharedStream {
        at: at.cast::<u8>(),
    }
}

/// The box of the stream that C has kept.
pub(crate) fn taken(stream: SharedStream, alloc: Global) -> RawBox<StreamObject, Global>
    requires { IsOpen stream.held }
    ensures { Some result.value ≡ stream.held }
{
    let SharedStream { at } = stream;
    RawBox {
        at: at.cast::<StreamObject>(),
        alloc,
    }
}
