//! Shared code of the exports.

ghost use Rattle.std.specs.Prelude.{◌≡◌, ◌≢◌, pos, length, Some, None, IfOk, IfErr, IsErr};
ghost use Rattle.key_msgs.specs.declared.primitive.Primitive.TheVariants.{Stream};
ghost use Rattle.keyset_json.specs.Reading.{reads_json};
ghost use Rattle.keyset_model.specs.Reading.{reads_binary};
ghost use Rattle.ready_keysets.specs.Texts.{IsNoKeyset};
ghost use Rattle.ready_keysets.specs.Unwrapping.{IsNotInside, keyset_inside};
ghost use Rattle.ready_keysets.specs.declared.refusal.Refusal.TheVariants as refusals;
ghost use Rattle.tinkey_c.specs.Shared.{DoesBy, IsLive, IsMade, Refuses, SameKeys, Tells, number_of};

use crate::shared::{SharedKeys, kept, no_keys, taken};
use key_msgs::Primitive;
use raw_boxes::RawBox;
use ready_keysets::{ReadyKeyset, Refusal, Work};
use std::alloc::Global;
use std::mem::replace;

/// The status of a refusal.
pub(crate) fn status(refusal: Refusal) -> i32
    ensures number { result ≡ pos (number_of refusal) }
    ensures some { result ≢ pos 0 }
{
    match refusal {
        Refusal::Refused => 1,
        Refusal::NoKeyset => 2,
        Refusal::UnfitKey => 3,
        Refusal::OtherPrimitive => 4,
        Refusal::NoRoom => 5,
        Refusal::TooLong => 6,
        Refusal::FewRandomBytes => 7,
        Refusal::NoMemory => 8,
        Refusal::NoMaster => 11,
        Refusal::UnfitMaster => 12,
        Refusal::NoWrapped => 13,
    }
}

/// Stores a ready keyset where C keeps it.
fn keep(alloc: Global, ready: ReadyKeyset, keys: &mut SharedKeys) -> Result<(), Refusal>
    requires closed { keys.old.held ≡ None }
    ensures kept { IfOk result (λ _. keys.new.held ≡ Some ready) }
    ensures none { IfErr result (λ refusal. (refusal ≡ refusals.NoMemory) × (keys.new.held ≡ None)) }
{
    match Box::new(alloc, ready) {
        Ok(whole) => {
            *keys = kept(RawBox::of(whole));
            Ok(())
        }
        Err(_) => Err(Refusal::NoMemory),
    }
}

/// Makes the keyset in a JSON text ready, and stores it where C keeps it.
pub(crate) fn json_keys(
    alloc: Global,
    text: &[u8],
    primitive: Primitive,
    keys: &mut SharedKeys,
) -> i32
    requires no_stream { primitive ≢ Stream }
    requires closed { keys.old.held ≡ None }
    ensures made { result ≡ pos 0 → IsMade primitive (reads_json text.now) keys.new.held }
    ensures refused { result ≢ pos 0 → Refuses
        (IsNoKeyset primitive (length text.now) (reads_json text.now)) result }
    ensures none { result ≢ pos 0 → keys.new.held ≡ None }
{
    match ReadyKeyset::of_json(alloc, text, primitive) {
        Ok(ready) => match keep(alloc, ready, keys) {
            Ok(()) => 0,
            Err(refusal) => status(refusal),
        },
        Err(refusal) => status(refusal),
    }
}

/// Makes the keyset with this binary form ready, and stores it where C keeps it.
pub(crate) fn binary_keys(
    alloc: Global,
    bytes: &[u8],
    primitive: Primitive,
    keys: &mut SharedKeys,
) -> i32
    requires no_stream { primitive ≢ Stream }
    requires closed { keys.old.held ≡ None }
    ensures made { result ≡ pos 0 → IsMade primitive (reads_binary bytes.now) keys.new.held }
    ensures refused { result ≢ pos 0 → Refuses
        (IsNoKeyset primitive (length bytes.now) (reads_binary bytes.now)) result }
    ensures none { result ≢ pos 0 → keys.new.held ≡ None }
{
    match ReadyKeyset::of_binary(alloc, bytes, primitive) {
        Ok(ready) => match keep(alloc, ready, keys) {
            Ok(()) => 0,
            Err(refusal) => status(refusal),
        },
        Err(refusal) => status(refusal),
    }
}

/// Makes the keyset sealed in an encrypted text under a master ready, and stores it where C keeps
/// it.
pub(crate) fn wrapped_keys(
    alloc: Global,
    encrypted: &[u8],
    encrypted_json: bool,
    master: &[u8],
    master_json: bool,
    primitive: Primitive,
    keys: &mut SharedKeys,
) -> i32
    requires no_stream { primitive ≢ Stream }
    requires closed { keys.old.held ≡ None }
    ensures made { result ≡ pos 0 → IsMade primitive
        (keyset_inside encrypted.now encrypted_json master.now master_json) keys.new.held }
    ensures refused { result ≢ pos 0 → Refuses
        (IsNotInside primitive (length encrypted.now) (length master.now)
        (keyset_inside encrypted.now encrypted_json master.now master_json)) result }
    ensures none { result ≢ pos 0 → keys.new.held ≡ None }
{
    match ReadyKeyset::of_wrapped(
        alloc,
        encrypted,
        encrypted_json,
        master,
        master_json,
        primitive,
    ) {
        Ok(ready) => match keep(alloc, ready, keys) {
            Ok(()) => 0,
            Err(refusal) => status(refusal),
        },
        Err(refusal) => status(refusal),
    }
}

/// Reports an outcome: its status, and the size if there is an answer.
fn tell(done: Result<usize, Refusal>, size: &mut usize) -> i32
    ensures told { Tells done result size.old size.new }
    ensures refused { result ≢ pos 0 → IsErr done }
{
    match done {
        Ok(count) => {
            *size = count;
            0
        }
        Err(refusal) => status(refusal),
    }
}

/// Does a piece of work with the keys that C keeps.
pub(crate) fn perform(
    alloc: Global,
    keys: &mut SharedKeys,
    work: Work<'_>,
    out: &mut [u8],
    size: &mut usize,
) -> i32
    requires live { IsLive keys.old.held }
    ensures live { IsLive keys.new.held }
    ensures same { SameKeys keys.old.held keys.new.held }
    ensures done { DoesBy keys.old.held work.entry out.old out.new size.old size.new result }
    ensures kept { result ≢ pos 0 → out.new ≡ out.old }
{
    let mut ready = taken(replace(keys, no_keys()), alloc).into_box();
    let done = ready.perform(alloc, work, out);
    *keys = kept(RawBox::of(ready));
    tell(done, size)
}
