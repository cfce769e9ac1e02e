//! Envelope sealing (Google's Tink: KmsEnvelopeAead): a plaintext is sealed under a data key made
//! for it alone, and the data key under a keyset.
//!
//! An envelope is the length of the sealed data key as four bytes, big-endian, the sealed data key,
//! and the payload: IV, ciphertext and tag under the data key, without a prefix. The data key's
//! message is sealed with empty associated data.

ghost use Rattle.std.specs.Prelude.{◌≡◌, ◌+◌, ◌^◌, ◌<◌, ◌≤◌, ℕ, List, drop, length, slice_range, take, IfOk, IfErr, IfSome, OnOk, option_map};
ghost use Rattle.key_msgs.specs.Templates.{Row, seen};
ghost use Rattle.key_msgs.specs.declared.primitive.Primitive.TheVariants.{Aead};
ghost use Rattle.keyset_model.specs.Keyset.{Keys};
ghost use Rattle.managers.specs.Schemes.{IsAdmitted, key_under};
ghost use Rattle.managers.specs.Uses.{iv_size};
ghost use Rattle.tink_spec.specs.InPlace.{OpensTo};
ghost use Rattle.tink_spec.specs.Outside.{EntropyState, Stood};
ghost use Rattle.wrapped_prims.specs.Making.{IsOver};
ghost use Rattle.wrapped_prims.specs.Sealing.{IsKeySealing, IsSealFault};
ghost use Rattle.envelopes.specs.Enveloped.{before_payload, open_behind, open_envelope_of, open_payload, parts_behind, parts_in, valid_parts};
ghost use Rattle.envelopes.specs.EnvelopeSteps.{IsPayloadFault, IsResealing, Makes, has_value, parts_at};
ghost use Rattle.envelopes.specs.Enveloping.{IsAead, IsEnvelopeFault, IsEnveloping, url_made};

use crate::data_keys::{DataKey, draw, make};
use key_msgs::{Rule, Template};
use managers::{AeadManager, CheckFault, KeyTable, Managers, Prepared};
use std::alloc::Global;
use std::ops::Range;
use tink_base::{Entropy, NoMemory, Trials, part_of};
use wrapped_prims::{Handle, SealFault};

/// Why nothing was sealed.
#[derive(Clone, Copy, Debug, PartialEq, Eq)]
pub enum EnvelopeFault {
    /// The entropy failed.
    EntropyFault,
    /// The first rule of its manager's scheme that the new data key breaks.
    Refused(Rule),
    /// Memory couldn't be allocated.
    NoMemory,
}

/// The size of the length of a sealed data key, in bytes.
const LENGTH: usize = 4;

/// How many bytes precede the plaintext that `envelope_seal` takes: room for the length of the
/// sealed data key, that key, and an IV of the data key. It is more than these ever need: a data
/// key's message has at most 1,000 bytes, its sealing at most 85 more, and an IV at most 16.
pub const ENVELOPE_ROOM: usize = 4096;

/// Writes what precedes a payload over `front`, which has its size.
fn write_before(sealed: &[u8], front: &mut [u8])
    requires sealed_bound { length sealed.now < 2 ^ 32 }
    requires size { length front.old ≡ 4 + length sealed.now }
    ensures { front.new ≡ before_payload sealed.now }
{
    let (size, key) = front.split_at_mut(LENGTH);
    size.copy_from_slice(&(sealed.len() as u32).to_be_bytes());
    key.copy_from_slice(sealed);
}

/// The list with what precedes a payload written into it, from `start` on.
fn with_before(sealed: &[u8], start: usize, mut bytes: Vec<u8>) -> Vec<u8>
    requires sealed_bound { length sealed.now < 2 ^ 32 }
    requires within { start + (4 + length sealed.now) ≤ length bytes.items }
    ensures size { length result.items ≡ length bytes.items }
    ensures before { slice_range result.items start (start + (4 + length sealed.now))
        ≡ before_payload sealed.now }
    ensures behind { (n : ℕ) → start + (4 + length sealed.now) ≤ n
        → drop n result.items ≡ drop n bytes.items }
{
    let end = start + LENGTH + sealed.len();
    write_before(sealed, &mut bytes[start..end]);
    bytes
}

/// Makes the payload in place: seals what follows the first `at` bytes and room for an IV, under
/// the data key, with an IV drawn in one fill, unless it has no bytes.
fn seal_payload<M: AeadManager, E: Entropy>(
    alloc: Global,
    manager: &M,
    key: &Prepared,
    at: usize,
    mut bytes: Vec<u8>,
    ad: &[u8],
    entropy: &mut E,
) -> Result<Vec<u8>, EnvelopeFault>
    requires admitted { IsAdmitted (M.scheme manager.now) key.now }
    requires room { at + iv_size key.now ≤ length bytes.items }
    requires plain_bound { length bytes.items ≤ at + iv_size key.now + 16777216 }
    requires ad_bound { length ad.now ≤ 16777216 }
    ensures sealed { IfOk result (λ sealed. IsKeySealing key.now (take at bytes.items)
        (drop (at + iv_size key.now) bytes.items) ad.now
        (E.state entropy.old) (E.state entropy.new) sealed.items) }
    ensures no_fault { OnOk result (Stood (E.state entropy.old).faults (E.state entropy.new).faults) }
    ensures fault { IfErr result
        (IsPayloadFault key.now (E.state entropy.old) (E.state entropy.new)) }
{
    let iv = draw(alloc, manager.iv_size(key), entropy)?;
    let plain = bytes.len() - at - iv.len();
    match bytes.resize(at + manager.sealed_size(key, plain), 0) {
        Ok(()) => {}
        Err(_) => return Err(EnvelopeFault::NoMemory),
    }
    manager.seal(key, &mut bytes[at..], &iv, ad);
    Ok(bytes)
}

/// Seals as `envelope_seal` does, under a data key that was made, whose message is short. The
/// caller's contract states what was drawn before.
fn seal_made<M: AeadManager, E: Entropy>(
    alloc: Global,
    handle: &Handle<'_>,
    manager: &M,
    made: &DataKey,
    bytes: Vec<u8>,
    ad: &[u8],
    entropy: &mut E,
) -> Result<Vec<u8>, EnvelopeFault>
    requires over { (keys : Keys) × IsOver (⟦<Managers as KeyTable>⟧.table
        handle.now.managers.now) Aead keys handle.now.held }
    requires admitted { IsAdmitted (M.scheme manager.now) made.now.key }
    requires value_bound { length made.now.value.items ≤ 1000 }
    requires room { ENVELOPE_ROOM ≤ length bytes.items }
    requires bound { length bytes.items ≤ ENVELOPE_ROOM + 16777216 }
    requires ad_bound { length ad.now ≤ 16777216 }
    ensures sealed { (keys : Keys)
        → IsOver (⟦<Managers as KeyTable>⟧.table handle.now.managers.now) Aead keys handle.now.held
        → (row : Row) (before : EntropyState) → Makes (M.scheme manager.now) row before
        (E.state entropy.old) made.now.value.items made.now.key
        → IfOk result (λ envelope. IsEnveloping keys
        (⟦<Managers as KeyTable>⟧.table handle.now.managers.now) (M.scheme manager.now) row
        (drop ENVELOPE_ROOM bytes.items) ad.now before (E.state entropy.new) envelope.items) }
    ensures no_fault { OnOk result (Stood (E.state entropy.old).faults (E.state entropy.new).faults) }
    ensures fault { (keys : Keys)
        → IsOver (⟦<Managers as KeyTable>⟧.table handle.now.managers.now) Aead keys handle.now.held
        → (row : Row) (before : EntropyState) → Makes (M.scheme manager.now) row before
        (E.state entropy.old) made.now.value.items made.now.key
        → IfErr result (IsEnvelopeFault keys
        (⟦<Managers as KeyTable>⟧.table handle.now.managers.now) (M.scheme manager.now) row
        (drop ENVELOPE_ROOM bytes.items) ad.now before (E.state entropy.new)) }
{
    let sealed = match handle.seal(alloc, &made.value, b"", entropy) {
        Ok(sealed) => sealed,
        Err(SealFault::EntropyFault) => return Err(EnvelopeFault::EntropyFault),
        Err(SealFault::NoMemory) => return Err(EnvelopeFault::NoMemory),
    };
    let at = ENVELOPE_ROOM - manager.iv_size(&made.key);
    let start = at - LENGTH - sealed.len();
    let bytes = with_before(&sealed, start, bytes);
    let bytes = seal_payload(alloc, manager, &made.key, at, bytes, ad, entropy)?;
    let end = bytes.len();
    Ok(part_of(bytes, start..end))
}

/// Seals a plaintext in an envelope, in place: under a fresh data key of the template, and that key
/// under the primary key of the handle's keyset. The plaintext is what follows the first
/// `ENVELOPE_ROOM` bytes of `bytes`, whatever these are; the result is the envelope alone.
/// Plaintext and associated data have at most 16,777,216 bytes each. The manager is the one of the
/// template's keys, as `data_key` returns it.
///
/// The data key is drawn in one fill, then an IV of the primary key, then one of the data key, each
/// in one fill unless it has no bytes. `EntropyFault` comes only if one of these fills failed; the
/// fills before it were drawn, and what the failed one took is lost. `Refused` comes if and only if
/// the new data key breaks a rule of the manager's scheme, and names the first one; then only the
/// data key was drawn. After `NoMemory` none, one, two or all of the fills were drawn. The payload
/// has no output prefix. No running time is promised.
pub fn envelope_seal<M: AeadManager, E: Entropy>(
    alloc: Global,
    handle: &Handle<'_>,
    manager: &M,
    template: &Template,
    bytes: Vec<u8>,
    ad: &[u8],
    entropy: &mut E,
) -> Result<Vec<u8>, EnvelopeFault>
    requires over { (keys : Keys) × IsOver (⟦<Managers as KeyTable>⟧.table
        handle.now.managers.now) Aead keys handle.now.held }
    requires aead { IsAead (seen template.now) }
    requires url { M.url manager.now ≡ url_made (seen template.now) }
    requires room { ENVELOPE_ROOM ≤ length bytes.items }
    requires bound { length bytes.items ≤ ENVELOPE_ROOM + 16777216 }
    requires ad_bound { length ad.now ≤ 16777216 }
    ensures sealed { (keys : Keys)
        → IsOver (⟦<Managers as KeyTable>⟧.table handle.now.managers.now) Aead keys handle.now.held
        → IfOk result (λ envelope. IsEnveloping keys
        (⟦<Managers as KeyTable>⟧.table handle.now.managers.now) (M.scheme manager.now)
        (seen template.now) (drop ENVELOPE_ROOM bytes.items) ad.now (E.state entropy.old)
        (E.state entropy.new) envelope.items) }
    ensures no_fault { OnOk result (Stood (E.state entropy.old).faults (E.state entropy.new).faults) }
    ensures fault { (keys : Keys)
        → IsOver (⟦<Managers as KeyTable>⟧.table handle.now.managers.now) Aead keys handle.now.held
        → IfErr result (IsEnvelopeFault keys
        (⟦<Managers as KeyTable>⟧.table handle.now.managers.now) (M.scheme manager.now)
        (seen template.now) (drop ENVELOPE_ROOM bytes.items) ad.now (E.state entropy.old)
        (E.state entropy.new)) }
{
    let made = make(alloc, manager, template, entropy)?;
    seal_made(alloc, handle, manager, &made, bytes, ad, entropy)
}

/// Opens a payload in place under the data key with this message, and returns the plaintext's
/// range.
fn open_with<M: AeadManager>(
    alloc: Global,
    manager: &M,
    value: &[u8],
    payload: &mut [u8],
    ad: &[u8],
) -> Result<Option<Range<usize>>, NoMemory>
    requires payload_bound { length payload.old ≤ 16778240 }
    requires ad_bound { length ad.now ≤ 16777216 }
    ensures { IfOk result (OpensTo
        (open_payload payload.old ad.now (key_under (M.scheme manager.now) value.now))
        payload.old payload.new) }
{
    match manager.check(alloc, value) {
        Ok(key) => Ok(manager.open(&key, payload, ad, &mut Trials::new())),
        Err(CheckFault::Bad(_)) => Ok(None),
        Err(CheckFault::NoMemory) => Err(NoMemory),
    }
}

/// Opens in place what follows the length of the sealed data key, and returns the plaintext's
/// range.
fn open_behind<M: AeadManager>(
    alloc: Global,
    handle: &Handle<'_>,
    manager: &M,
    size: usize,
    bytes: &mut [u8],
    ad: &[u8],
) -> Result<Option<Range<usize>>, NoMemory>
    requires over { (keys : Keys) × IsOver (⟦<Managers as KeyTable>⟧.table
        handle.now.managers.now) Aead keys handle.now.held }
    requires bytes_bound { length bytes.old ≤ 16778240 }
    requires ad_bound { length ad.now ≤ 16777216 }
    ensures { (keys : Keys)
        → IsOver (⟦<Managers as KeyTable>⟧.table handle.now.managers.now) Aead keys handle.now.held
        → IfOk result (OpensTo (open_behind keys
        (⟦<Managers as KeyTable>⟧.table handle.now.managers.now) (M.scheme manager.now)
        size bytes.old ad.now) bytes.old bytes.new) }
{
    if size == 0 || bytes.len() < size {
        return Ok(None);
    }
    let Some(value) = handle.open(alloc, &bytes[..size], b"", &mut Trials::new())? else {
        return Ok(None);
    };
    match open_with(alloc, manager, &value, &mut bytes[size..], ad)? {
        Some(range) => Ok(Some(size + range.start..size + range.end)),
        None => Ok(None),
    }
}

/// Opens an envelope in place, and returns the plaintext's range in `bytes`.
fn open_envelope<M: AeadManager>(
    alloc: Global,
    handle: &Handle<'_>,
    manager: &M,
    bytes: &mut [u8],
    ad: &[u8],
) -> Result<Option<Range<usize>>, NoMemory>
    requires over { (keys : Keys) × IsOver (⟦<Managers as KeyTable>⟧.table
        handle.now.managers.now) Aead keys handle.now.held }
    requires bytes_bound { length bytes.old ≤ 16778240 }
    requires ad_bound { length ad.now ≤ 16777216 }
    ensures { (keys : Keys)
        → IsOver (⟦<Managers as KeyTable>⟧.table handle.now.managers.now) Aead keys handle.now.held
        → IfOk result (OpensTo (open_envelope_of keys
        (⟦<Managers as KeyTable>⟧.table handle.now.managers.now) (M.scheme manager.now)
        bytes.old ad.now) bytes.old bytes.new) }
{
    let Some((size, _)) = bytes.split_first_chunk::<LENGTH>() else {
        return Ok(None);
    };
    let size = u32::from_be_bytes(*size) as usize;
    match open_behind(alloc, handle, manager, size, &mut bytes[LENGTH..], ad)? {
        Some(range) => Ok(Some(LENGTH + range.start..LENGTH + range.end)),
        None => Ok(None),
    }
}

/// Opens an envelope, of at most 16,778,240 bytes, with associated data of at most 16,777,216, in
/// place: returns the envelope's list, now with only the plaintext.
///
/// `None` comes if and only if there are fewer than four bytes; the length in the first four is 0
/// or above the number of bytes after them; no key of the handle's keyset opens the sealed data key
/// with empty associated data; what it opens to isn't a valid key of the manager's scheme; or the
/// payload doesn't open under that key. An error means that memory couldn't be allocated.
pub fn envelope_open<M: AeadManager>(
    alloc: Global,
    handle: &Handle<'_>,
    manager: &M,
    mut bytes: Vec<u8>,
    ad: &[u8],
) -> Result<Option<Vec<u8>>, NoMemory>
    requires over { (keys : Keys) × IsOver (⟦<Managers as KeyTable>⟧.table
        handle.now.managers.now) Aead keys handle.now.held }
    requires bytes_bound { length bytes.items ≤ 16778240 }
    requires ad_bound { length ad.now ≤ 16777216 }
    ensures { (keys : Keys)
        → IsOver (⟦<Managers as KeyTable>⟧.table handle.now.managers.now) Aead keys handle.now.held
        → IfOk result (λ plain. option_map (λ text. text.items) plain ≡ open_envelope_of keys
        (⟦<Managers as KeyTable>⟧.table handle.now.managers.now) (M.scheme manager.now)
        bytes.items ad.now) }
{
    match open_envelope(alloc, handle, manager, &mut bytes, ad)? {
        Some(range) => Ok(Some(part_of(bytes, range))),
        None => Ok(None),
    }
}

/// The data key of an envelope, opened.
#[derive(Drop)]
pub struct EnvelopeKey {
    /// The message of the data key.
    pub value: Vec<u8>,
    /// Where the payload begins in the envelope.
    pub payload: usize,
}

/// The message of a data key, if it is a valid message of the manager's scheme.
fn valid_message<M: AeadManager>(
    alloc: Global,
    manager: &M,
    value: Vec<u8>,
) -> Result<Option<Vec<u8>>, NoMemory>
    ensures valid { (payload : List ℕ) → IfOk result (λ valid. has_value payload valid
        ≡ valid_parts (M.scheme manager.now) value.items payload) }
    ensures same { IfOk result (λ valid. IfSome valid (λ message. message.items ≡ value.items)) }
{
    match manager.check(alloc, &value) {
        Ok(_) => Ok(Some(value)),
        Err(CheckFault::Bad(_)) => Ok(None),
        Err(CheckFault::NoMemory) => Err(NoMemory),
    }
}

/// Opens the data key of this size at the front of `bytes`, and returns its message.
fn key_behind<M: AeadManager>(
    alloc: Global,
    handle: &Handle<'_>,
    manager: &M,
    size: usize,
    bytes: &[u8],
) -> Result<Option<Vec<u8>>, NoMemory>
    requires over { (keys : Keys) × IsOver (⟦<Managers as KeyTable>⟧.table
        handle.now.managers.now) Aead keys handle.now.held }
    requires bytes_bound { length bytes.now ≤ 16778240 }
    ensures parts { (keys : Keys)
        → IsOver (⟦<Managers as KeyTable>⟧.table handle.now.managers.now) Aead keys handle.now.held
        → IfOk result (λ value. has_value (drop size bytes.now) value ≡ parts_behind keys
        (⟦<Managers as KeyTable>⟧.table handle.now.managers.now) (M.scheme manager.now)
        size bytes.now) }
    ensures short { IfOk result (λ value. IfSome value (λ value. length value.items ≤ size)) }
    ensures within { IfOk result (λ value. IfSome value (λ value. size ≤ length bytes.now)) }
{
    if size == 0 || bytes.len() < size {
        return Ok(None);
    }
    match handle.open(alloc, &bytes[..size], b"", &mut Trials::new())? {
        Some(value) => valid_message(alloc, manager, value),
        None => Ok(None),
    }
}

/// Opens the data key of an envelope, of at most 16,778,240 bytes; the payload isn't opened.
///
/// `None` comes if and only if there are fewer than four bytes; the length in the first four is 0
/// or above the number of bytes after them; no key of the handle's keyset opens the sealed data key
/// with empty associated data; or what it opens to isn't a valid key of the manager's scheme. An
/// error means that memory couldn't be allocated.
pub fn envelope_key<M: AeadManager>(
    alloc: Global,
    handle: &Handle<'_>,
    manager: &M,
    bytes: &[u8],
) -> Result<Option<EnvelopeKey>, NoMemory>
    requires over { (keys : Keys) × IsOver (⟦<Managers as KeyTable>⟧.table
        handle.now.managers.now) Aead keys handle.now.held }
    requires bytes_bound { length bytes.now ≤ 16778240 }
    ensures parts { (keys : Keys)
        → IsOver (⟦<Managers as KeyTable>⟧.table handle.now.managers.now) Aead keys handle.now.held
        → IfOk result (λ key. option_map (parts_at bytes.now) key ≡ parts_in keys
        (⟦<Managers as KeyTable>⟧.table handle.now.managers.now) (M.scheme manager.now) bytes.now) }
    ensures place { IfOk result (λ key. IfSome key (λ key. key.payload ≤ length bytes.now)) }
    ensures value { IfOk result (λ key. IfSome key (λ key. 4 + length key.value.items ≤ key.payload)) }
{
    let Some((length, rest)) = bytes.split_first_chunk::<LENGTH>() else {
        return Ok(None);
    };
    let size = u32::from_be_bytes(*length) as usize;
    match key_behind(alloc, handle, manager, size, rest)? {
        Some(value) => Ok(Some(EnvelopeKey {
            value,
            payload: LENGTH + size,
        })),
        None => Ok(None),
    }
}

/// Seals the data key of an envelope again, in place: under the primary key of the handle's keyset,
/// with empty associated data. The envelope follows the first `ENVELOPE_ROOM` bytes of `bytes`,
/// whatever these are, and `key` is its data key; the result is the new envelope alone, with the
/// same payload. An envelope has at most 16,778,240 bytes.
///
/// One IV is drawn, in one fill, unless it has no bytes. `EntropyFault` comes only if that fill
/// failed. After `NoMemory` either nothing or the IV was drawn. No running time is promised.
pub fn envelope_reseal<E: Entropy>(
    alloc: Global,
    handle: &Handle<'_>,
    key: &EnvelopeKey,
    bytes: Vec<u8>,
    entropy: &mut E,
) -> Result<Vec<u8>, SealFault>
    requires over { (keys : Keys) × IsOver (⟦<Managers as KeyTable>⟧.table
        handle.now.managers.now) Aead keys handle.now.held }
    requires place { ENVELOPE_ROOM + key.now.payload ≤ length bytes.items }
    requires value { 4 + length key.now.value.items ≤ key.now.payload }
    requires bound { length bytes.items ≤ ENVELOPE_ROOM + 16778240 }
    ensures resealed { (keys : Keys)
        → IsOver (⟦<Managers as KeyTable>⟧.table handle.now.managers.now) Aead keys handle.now.held
        → IfOk result (λ envelope. IsResealing keys
        (⟦<Managers as KeyTable>⟧.table handle.now.managers.now)
        (parts_at (drop ENVELOPE_ROOM bytes.items) key.now)
        (E.state entropy.old) (E.state entropy.new) envelope.items) }
    ensures no_fault { OnOk result (Stood (E.state entropy.old).faults (E.state entropy.new).faults) }
    ensures fault { (keys : Keys)
        → IsOver (⟦<Managers as KeyTable>⟧.table handle.now.managers.now) Aead keys handle.now.held
        → IfErr result (IsSealFault keys (⟦<Managers as KeyTable>⟧.table handle.now.managers.now)
        (E.state entropy.old) (E.state entropy.new)) }
{
    let sealed = match handle.seal(alloc, &key.value, b"", entropy) {
        Ok(sealed) => sealed,
        Err(fault) => return Err(fault),
    };
    let start = ENVELOPE_ROOM + key.payload - LENGTH - sealed.len();
    let made = with_before(&sealed, start, bytes);
    let end = made.len();
    Ok(part_of(made, start..end))
}
