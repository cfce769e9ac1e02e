//! The steps that commands share: loading or reading a keyset or its bytes, and reading the whole
//! input. What loads or reads a keyset is told where it comes from, for the second line of a fault.

ghost use Rattle.std.specs.Prelude.{false, true, ◌&&◌, ◌+◌, ◌≤◌, ◌^◌, drop, length, IfOk};
ghost use Rattle.std.specs.List.{AllByRecursion};
ghost use Rattle.keyset_model.specs.Keyset.{IsShort};
ghost use Rattle.seal_wrap.specs.Unwrapped.{is_wrapped_binary, is_wrapped_json};
ghost use Rattle.tinkey_plans.specs.Ends.{World};
ghost use Rattle.tinkey_words.specs.Words.{seen_name};
ghost use Rattle.tinkey_plans.specs.Origins.{begins_of};
ghost use Rattle.tinkey_plans.specs.Steps.{refusal_of, wire_status, fault_status, has_no_key, json_refusal_of, OrStarved, keyset_in, loads_bytes, reads_bytes, takes_bytes, loads_keyset, reads_input, Passes, PassesAs};

use keyset_json::{JsonError, read_json};
use keyset_model::{Keyset, KeysetRefusal, ReadError, read_binary};
use seal_wrap::{is_wrapped_binary, is_wrapped_json};
use std::alloc::Global;
use tink_base::{
    Bytes, Loaded, NoMemory, ReadAllFault, Source, Store, StoreError, read_all, read_behind,
};
use tinkey_plans::{Origin, Status, begins_of};
use tinkey_words::Format;

/// The most bytes of a keyset.
pub(crate) const KEYSET_LIMIT: usize = 1_048_576;

/// The keyset in the file of this name, which this option gives.
#[inline(never)]
pub(crate) fn load_keyset<D: Store>(
    alloc: Global,
    from: Origin,
    name: &str,
    form: Format,
    store: &mut D,
) -> Result<Keyset, Status>
    ensures passes { (w : World) → Passes (loads_keyset from name.now form)
        (record w { store = D.state store.old }) result (record w { store = D.state store.new }) }
    ensures short { IfOk result (λ keyset. AllByRecursion IsShort keyset.records) }
{
    let bytes = load_bytes(alloc, from, name, KEYSET_LIMIT, store)?;
    keyset_of(alloc, from, form, bytes.as_slice())
}

/// The bytes of the file of this name, which this option gives: at most `limit`.
pub(crate) fn load_bytes<D: Store>(
    alloc: Global,
    from: Origin,
    name: &str,
    limit: usize,
    store: &mut D,
) -> Result<Bytes, Status>
    ensures passes { (w : World) → Passes (loads_bytes from limit name.now)
        (record w { store = D.state store.old }) result (record w { store = D.state store.new }) }
    ensures within { IfOk result (λ bytes. length bytes ≤ limit) }
{
    match store.load(alloc, name, limit) {
        Ok(found) => match found {
            Loaded::Absent => Err(Status::InMissing(from)),
            Loaded::TooLong => Err(Status::KeysetTooLong(from)),
            Loaded::Bytes(bytes) => Ok(bytes),
        },
        Err(e) => match e {
            StoreError::Failed => Err(Status::StoreFault),
            StoreError::NoMemory => Err(Status::NoMemory),
        },
    }
}

/// The bytes of a keyset in the file that `--in` gives or, if there is none, of the whole input: at
/// most `limit`.
pub(crate) fn take_bytes<S: Source, D: Store>(
    alloc: Global,
    file: Option<&str>,
    limit: usize,
    source: &mut S,
    store: &mut D,
) -> Result<Bytes, Status>
    requires limit_bound { limit ≤ 2 ^ 30 }
    ensures passes { (w : World) → Passes (takes_bytes Origin.In limit (seen_name file.entry))
        (record w { source = S.state source.old; store = D.state store.old }) result
        (record w { source = S.state source.new; store = D.state store.new }) }
    ensures within { IfOk result (λ bytes. length bytes ≤ limit) }
{
    match file {
        Some(name) => load_bytes(alloc, Origin::In, name, limit, store),
        None => read_bytes(alloc, limit, source),
    }
}

/// The bytes of the whole input, at most `limit`, which is the limit of a keyset.
fn read_bytes<S: Source>(alloc: Global, limit: usize, source: &mut S) -> Result<Bytes, Status>
    requires limit_bound { limit ≤ 2 ^ 30 }
    ensures passes { (w : World) → Passes (reads_bytes limit)
        (record w { source = S.state source.old }) result
        (record w { source = S.state source.new }) }
    ensures within { IfOk result (λ bytes. length bytes ≤ limit) }
{
    match read_all(alloc, source, limit) {
        Ok(bytes) => Ok(Bytes::own(bytes)),
        Err(fault) => match fault {
            ReadAllFault::TooLong => Err(Status::KeysetTooLong(Origin::StandardInput)),
            ReadAllFault::Failed => Err(Status::ReadFault),
            ReadAllFault::NoMemory => Err(Status::NoMemory),
        },
    }
}

/// The keyset of these bytes, in this form, which come from there.
pub(crate) fn keyset_of(
    alloc: Global,
    from: Origin,
    form: Format,
    bytes: &[u8],
) -> Result<Keyset, Status>
    requires size_bound { length bytes.now ≤ 2 ^ 20 }
    ensures passes { (w : World) → Passes (keyset_in from form bytes.now) w result w }
    ensures short { IfOk result (λ keyset. AllByRecursion IsShort keyset.records) }
{
    match form {
        Format::Json => match read_json(alloc, bytes) {
            Ok(keyset) => Ok(keyset),
            Err(e) => Err(json_refusal(alloc, from, bytes, e)),
        },
        Format::Binary => match read_binary(alloc, bytes) {
            Ok(keyset) => Ok(keyset),
            Err(e) => Err(refusal(alloc, from, bytes, e)),
        },
    }
}

/// The status of a keyset that can't be read from these bytes as JSON.
fn json_refusal(alloc: Global, from: Origin, bytes: &[u8], e: JsonError) -> Status
    ensures { OrStarved (json_refusal_of from (begins_of bytes.now) (is_wrapped_json bytes.now) e) result }
{
    match e {
        JsonError::NotJson => Status::NotJson(from, begins_of(bytes)),
        JsonError::Shape(path) => Status::Shape(path, from),
        JsonError::Fault(fault) => json_fault(alloc, from, bytes, fault),
        JsonError::NoMemory => Status::NoMemory,
    }
}

/// The status of a keyset with this fault, read from these bytes as JSON: one that has no key
/// because it is encrypted is reported as encrypted.
fn json_fault(alloc: Global, from: Origin, bytes: &[u8], fault: KeysetRefusal) -> Status
    ensures { OrStarved (fault_status from (is_wrapped_json bytes.now && has_no_key fault) fault) result }
{
    match fault {
        KeysetRefusal::Empty => match is_wrapped_json(alloc, bytes) {
            Ok(true) => Status::KeysetLocked(fault, from),
            Ok(false) => Status::Keyset(fault, from),
            Err(NoMemory) => Status::NoMemory,
        },
        _ => Status::Keyset(fault, from),
    }
}

/// The status of a keyset that can't be read from these bytes in the binary form: an encrypted one
/// is reported as encrypted.
fn refusal(alloc: Global, from: Origin, bytes: &[u8], e: ReadError) -> Status
    ensures { OrStarved (refusal_of from (begins_of bytes.now) (is_wrapped_binary bytes.now) e) result }
{
    match e {
        ReadError::Wire(wire) => wire_status(alloc, from, bytes, wire.at),
        ReadError::Fault(fault) => fault_status(alloc, from, bytes, fault),
        ReadError::NoMemory => Status::NoMemory,
    }
}

/// The status of these bytes, in which the field at this place can't be cut or read.
fn wire_status(alloc: Global, from: Origin, bytes: &[u8], at: usize) -> Status
    ensures { OrStarved (wire_status from (begins_of bytes.now) (is_wrapped_binary bytes.now false) at)
        result }
{
    match is_wrapped_binary(alloc, bytes, false) {
        Ok(true) => Status::ProtoLocked(at, from),
        Ok(false) => Status::BadProto(at, from, begins_of(bytes)),
        Err(NoMemory) => Status::NoMemory,
    }
}

/// The status of a keyset with this fault, all of whose keys were read from these bytes: it counts
/// as encrypted only with an info.
fn fault_status(alloc: Global, from: Origin, bytes: &[u8], fault: KeysetRefusal) -> Status
    ensures { OrStarved (fault_status from (is_wrapped_binary bytes.now true) fault) result }
{
    match is_wrapped_binary(alloc, bytes, true) {
        Ok(true) => Status::KeysetLocked(fault, from),
        Ok(false) => Status::Keyset(fault, from),
        Err(NoMemory) => Status::NoMemory,
    }
}

/// The whole input, of at most `limit` bytes, after `room` bytes for the caller to fill.
pub(crate) fn read_input_behind<S: Source>(
    alloc: Global,
    room: usize,
    limit: usize,
    source: &mut S,
) -> Result<Vec<u8>, Status>
    requires limit_bound { limit ≤ 2 ^ 30 }
    requires room_bound { room ≤ 2 ^ 30 }
    ensures passes { (w : World) → PassesAs (λ input. drop room input.items) (reads_input limit)
        (record w { source = S.state source.old }) result
        (record w { source = S.state source.new }) }
    ensures room { IfOk result (λ input. room ≤ length input.items) }
    ensures within { IfOk result (λ input. length input.items ≤ room + limit) }
{
    match read_behind(alloc, room, source, limit) {
        Ok(input) => Ok(input),
        Err(e) => match e {
            ReadAllFault::TooLong => Err(Status::InputTooLong),
            ReadAllFault::Failed => Err(Status::ReadFault),
            ReadAllFault::NoMemory => Err(Status::NoMemory),
        },
    }
}
