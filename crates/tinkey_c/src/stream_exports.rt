//! The functions for streams that C calls. A slice is a pointer that isn't null, and its length.

ghost use Rattle.std.specs.Prelude.{◌≡◌, ◌≢◌, pos, length, None};
ghost use Rattle.keyset_json.specs.Reading.{reads_json};
ghost use Rattle.keyset_model.specs.Reading.{reads_binary};
ghost use Rattle.ready_keysets.specs.Streaming.{IsNoStreams};
ghost use Rattle.ready_keysets.specs.Unwrapping.{IsNoStreamsInside, keyset_inside};
ghost use Rattle.ready_keysets.specs.declared.step.StepFault.TheVariants as steps;
ghost use Rattle.tinkey_c.specs.Shared.{IsOpen, Refuses};
ghost use Rattle.tinkey_c.specs.Streams.{AreKeys, AreMade, BegunOpening, BegunSealing, Ends, IsOpened, IsSealed, NotBegun, Opens, OpensLast, Seals, SealsLast, Stops, Waits};

use crate::calls::status;
use crate::shared_stream::{SharedStream, kept, no_stream, taken};
use crate::stream_calls::{keep, step_status, tell_step};
use raw_boxes::RawBox;
use ready_keysets::{Refusal, StreamKeyset, StreamKind, StreamObject};
use std::alloc::Global;
use std::mem::replace;

/// Makes the keys of a keyset in JSON ready, for streams.
#[unsafe(no_mangle)]
pub extern "C" fn tinkey_core_streaming_of_json(
    alloc: Global,
    text: &[u8],
    keys: &mut SharedStream,
) -> i32
    requires closed { keys.old.held ≡ None }
    ensures made { result ≡ pos 0 → AreMade (reads_json text.now) keys.new.held }
    ensures refused { result ≢ pos 0 → Refuses (IsNoStreams (length text.now) (reads_json text.now)) result }
    ensures none { result ≢ pos 0 → keys.new.held ≡ None }
{
    match StreamKeyset::of_json(alloc, text) {
        Ok(made) => match keep(alloc, StreamObject::of(StreamKind::Keys(made)), keys) {
            Ok(()) => 0,
            Err(_) => status(Refusal::NoMemory),
        },
        Err(refusal) => status(refusal),
    }
}

/// Makes the keys of a keyset in its binary form ready, for streams.
#[unsafe(no_mangle)]
pub extern "C" fn tinkey_core_streaming_of_binary(
    alloc: Global,
    bytes: &[u8],
    keys: &mut SharedStream,
) -> i32
    requires closed { keys.old.held ≡ None }
    ensures made { result ≡ pos 0 → AreMade (reads_binary bytes.now) keys.new.held }
    ensures refused { result ≢ pos 0 → Refuses (IsNoStreams (length bytes.now) (reads_binary bytes.now)) result }
    ensures none { result ≢ pos 0 → keys.new.held ≡ None }
{
    match StreamKeyset::of_binary(alloc, bytes) {
        Ok(made) => match keep(alloc, StreamObject::of(StreamKind::Keys(made)), keys) {
            Ok(()) => 0,
            Err(_) => status(Refusal::NoMemory),
        },
        Err(refusal) => status(refusal),
    }
}

/// Makes the keys of an encrypted keyset under its master ready, for streams. Each text is in JSON or
/// in the binary form.
#[unsafe(no_mangle)]
pub extern "C" fn tinkey_core_streaming_of_wrapped(
    alloc: Global,
    encrypted: &[u8],
    encrypted_json: bool,
    master: &[u8],
    master_json: bool,
    keys: &mut SharedStream,
) -> i32
    requires closed { keys.old.held ≡ None }
    ensures made { result ≡ pos 0 → AreMade
        (keyset_inside encrypted.now encrypted_json master.now master_json) keys.new.held }
    ensures refused { result ≢ pos 0 → Refuses (IsNoStreamsInside (length encrypted.now) (length master.now)
        (keyset_inside encrypted.now encrypted_json master.now master_json)) result }
    ensures none { result ≢ pos 0 → keys.new.held ≡ None }
{
    match StreamKeyset::of_wrapped(alloc, encrypted, encrypted_json, master, master_json) {
        Ok(made) => match keep(alloc, StreamObject::of(StreamKind::Keys(made)), keys) {
            Ok(()) => 0,
            Err(_) => status(Refusal::NoMemory),
        },
        Err(refusal) => status(refusal),
    }
}

/// Begins to seal a stream with the first of these random bytes as salt and nonce prefix.
#[unsafe(no_mangle)]
pub extern "C" fn tinkey_core_stream_begin_sealing(
    alloc: Global,
    keys: &mut SharedStream,
    random: &[u8],
    ad: &[u8],
    sealing: &mut SharedStream,
) -> i32
    requires live { AreKeys keys.old.held }
    requires closed { sealing.old.held ≡ None }
    ensures same { keys.new.held ≡ keys.old.held }
    ensures begun { result ≡ pos 0
        → BegunSealing keys.old.held sealing.new.held ad.now random.now }
    ensures refused { result ≢ pos 0 → Stops (NotBegun keys.old.held random.now) result }
    ensures none { result ≢ pos 0 → sealing.new.held ≡ None }
{
    let object = taken(replace(keys, no_stream()), alloc).into_box();
    let begun = object.begin_sealing(alloc, random, ad);
    *keys = kept(RawBox::of(object));
    match begun {
        Ok(made) => match keep(alloc, made, sealing) {
            Ok(()) => 0,
            Err(fault) => step_status(fault),
        },
        Err(fault) => step_status(fault),
    }
}

/// Begins to open a stream.
#[unsafe(no_mangle)]
pub extern "C" fn tinkey_core_stream_begin_opening(
    alloc: Global,
    keys: &mut SharedStream,
    ad: &[u8],
    opening: &mut SharedStream,
) -> i32
    requires live { AreKeys keys.old.held }
    requires closed { opening.old.held ≡ None }
    ensures same { keys.new.held ≡ keys.old.held }
    ensures begun { result ≡ pos 0 → BegunOpening keys.old.held opening.new.held ad.now }
    ensures refused { result ≢ pos 0 → Stops (λ fault. fault ≡ steps.NoMemory) result }
    ensures none { result ≢ pos 0 → opening.new.held ≡ None }
{
    let object = taken(replace(keys, no_stream()), alloc).into_box();
    let begun = object.begin_opening(alloc, ad);
    *keys = kept(RawBox::of(object));
    match begun {
        Ok(made) => match keep(alloc, made, opening) {
            Ok(()) => 0,
            Err(fault) => step_status(fault),
        },
        Err(fault) => step_status(fault),
    }
}

/// Takes more plaintext, and writes what it settles of the stream to the front of `out`.
#[unsafe(no_mangle)]
pub extern "C" fn tinkey_core_stream_seal(
    alloc: Global,
    sealing: &mut SharedStream,
    plain: &[u8],
    out: &mut [u8],
    size: &mut usize,
) -> i32
    requires live { IsSealed sealing.old.held }
    ensures live { IsSealed sealing.new.held }
    ensures done { Ends (Seals sealing.old.held sealing.new.held plain.now out.old out.new)
        size.old size.new result }
    ensures kept { result ≢ pos 0 → out.new ≡ out.old }
{
    let mut object = taken(replace(sealing, no_stream()), alloc).into_box();
    let done = object.seal(plain, out);
    *sealing = kept(RawBox::of(object));
    tell_step(done, size)
}

/// Ends the plaintext, and writes the rest of the stream to the front of `out`.
#[unsafe(no_mangle)]
pub extern "C" fn tinkey_core_stream_seal_last(
    alloc: Global,
    sealing: &mut SharedStream,
    out: &mut [u8],
    size: &mut usize,
) -> i32
    requires live { IsSealed sealing.old.held }
    ensures live { IsSealed sealing.new.held }
    ensures done { Ends (SealsLast sealing.old.held sealing.new.held out.old out.new)
        size.old size.new result }
    ensures kept { result ≢ pos 0 → out.new ≡ out.old }
{
    let mut object = taken(replace(sealing, no_stream()), alloc).into_box();
    let done = object.seal_last(out);
    *sealing = kept(RawBox::of(object));
    tell_step(done, size)
}

/// Takes more of the stream, and writes the plaintext that it settles to the front of `out`.
#[unsafe(no_mangle)]
pub extern "C" fn tinkey_core_stream_open(
    alloc: Global,
    opening: &mut SharedStream,
    bytes: &[u8],
    out: &mut [u8],
    size: &mut usize,
) -> i32
    requires live { IsOpened opening.old.held }
    ensures live { IsOpened opening.new.held }
    ensures done { Ends (Opens opening.old.held opening.new.held bytes.now out.old out.new)
        size.old size.new result }
    ensures kept { result ≢ pos 0 → out.new ≡ out.old }
{
    let mut object = taken(replace(opening, no_stream()), alloc).into_box();
    let done = object.open(bytes, out);
    *opening = kept(RawBox::of(object));
    tell_step(done, size)
}

/// Ends the stream, and writes the rest of its plaintext to the front of `out`.
#[unsafe(no_mangle)]
pub extern "C" fn tinkey_core_stream_open_last(
    alloc: Global,
    opening: &mut SharedStream,
    out: &mut [u8],
    size: &mut usize,
) -> i32
    requires live { IsOpened opening.old.held }
    ensures live { IsOpened opening.new.held }
    ensures done { Ends (OpensLast opening.old.held opening.new.held out.old out.new)
        size.old size.new result }
    ensures kept { result ≢ pos 0 → out.new ≡ out.old }
{
    let mut object = taken(replace(opening, no_stream()), alloc).into_box();
    let done = object.open_last(out);
    *opening = kept(RawBox::of(object));
    tell_step(done, size)
}

/// How many bytes of the stream are kept for want of room.
#[unsafe(no_mangle)]
pub extern "C" fn tinkey_core_stream_waiting(alloc: Global, stream: &mut SharedStream) -> usize
    requires live { IsOpen stream.old.held }
    ensures same { stream.new.held ≡ stream.old.held }
    ensures waiting { Waits stream.old.held result }
{
    let object = taken(replace(stream, no_stream()), alloc).into_box();
    let count = object.waiting();
    *stream = kept(RawBox::of(object));
    count
}

/// Frees the keys, or the stream.
#[unsafe(no_mangle)]
pub extern "C" fn tinkey_core_stream_free(alloc: Global, stream: &mut SharedStream)
    requires live { IsOpen stream.old.held }
    ensures closed { stream.new.held ≡ None }
{
    drop(taken(replace(stream, no_stream()), alloc).into_box());
}
