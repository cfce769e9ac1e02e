//! Work by the keys of a keyset: seal, open, dseal, dopen, reseal, dreseal, tag, verify and derive.

ghost use Rattle.std.specs.Prelude.{◌≡◌, ◌≢◌, ◌+◌, ◌≤◌, ◌^◌, drop, length, IfOk, option_map};
ghost use Rattle.key_msgs.specs.declared.primitive.Primitive.TheVariants.{Aead, Daead, Mac, Prf, Stream};
ghost use Rattle.wrapped_prims.specs.Making.{IsOver};
ghost use Rattle.wrapped_prims.specs.Rooms.{dseal_room, seal_room};
ghost use Rattle.tinkey_actions.specs.Rooms.{room_for};
ghost use Rattle.tinkey_plans.specs.Ends.{World};
ghost use Rattle.tinkey_plans.specs.Steps.{Passes, PassesAs};
ghost use Rattle.tinkey_plans.specs.Handles.{handles, IsServing};
ghost use Rattle.keyset_model.specs.Keyset.{Keys};
ghost use Rattle.tinkey_plans.specs.Using.{dseals_plain, limit_for, seals_plain, use_output, with_opened, works, Works, WorksTelling};
ghost use Rattle.tinkey_words.specs.Words.{primitive_for, datum_as, datum_of_hex, seen_datum, seen_lock, seen_work, to_seal, to_open, to_dseal, to_dopen, to_reseal, to_dreseal, to_tag, to_verify, to_derive};

use crate::locks::load_locked;
use crate::sealers::sealer_of;
use crate::steps::read_input_behind;
use hex::FromHexError;
use hex_lanes::decode;
use key_msgs::Primitive;
use keyset_model::Keyset;
use managers::{KeyTable, Managers};
use std::alloc::Global;
use tink_base::{Bytes, Entropy, NoMemory, Source, Store, Trials};
use tinkey_plans::{Origin, Sealer, Status, Unopened, handle_status};
use tinkey_session::Refusal;
use tinkey_words::{DATUM_LIMIT, Datum, Format, Master, Work};
use wrapped_prims::{DeriveFault, Handle, SealFault};

/// The most bytes of a whole input.
pub(crate) const INPUT_LIMIT: usize = 16_777_216;

/// The most bytes of an input to open: 1,024 more, since no sealing is longer than its plaintext by
/// more.
pub(crate) const SEALED_LIMIT: usize = INPUT_LIMIT + 1024;

/// The size of the longest tag, a digest of SHA-512, in bytes.
const LONGEST_TAG: usize = 64;

/// Works on the whole input, by the keys of the keyset in this file, and returns the output.
#[inline(never)]
pub fn use_keyset<S: Source, E: Entropy, D: Store>(
    alloc: Global,
    managers: &Managers,
    lock: Option<Master<'_>>,
    name: &str,
    form: Format,
    work: Work<'_>,
    source: &mut S,
    entropy: &mut E,
    store: &mut D,
) -> Result<Bytes, Status>
    ensures { (w : World) → Passes
        (use_output (⟦<Managers as KeyTable>⟧.table managers.now) (seen_lock lock.entry) name.now form
        (seen_work work.entry))
        (record w {
          source = S.state source.old;
          store = D.state store.old;
          entropy = E.state entropy.old;
        }) result
        (record w {
          source = S.state source.new;
          store = D.state store.new;
          entropy = E.state entropy.new;
        }) }
{
    let keyset = load_locked(alloc, managers, lock, name, form, store)?;
    let handle = handle_of(
        alloc,
        Origin::Keyset,
        &keyset,
        managers,
        primitive_for(work),
    )?;
    let room = room_for(&handle, work);
    let input = read_input_behind(alloc, room, limit_for(work), source)?;
    do_work(alloc, &keyset, &handle, work, input, entropy)
}

/// The primitive of the keys that do the work.
fn primitive_for(work: Work<'_>) -> Primitive
    ensures { result ≡ primitive_for (seen_work work.entry) }
{
    match work {
        Work::Seal(_) | Work::Open(_) | Work::Reseal(_) => Primitive::Aead,
        Work::Dseal(_) | Work::Dopen(_) | Work::Dreseal(_) => Primitive::Daead,
        Work::Tag | Work::Verify(_) => Primitive::Mac,
        Work::Derive(_) => Primitive::Prf,
    }
}

/// The most bytes of the work's input.
fn limit_for(work: Work<'_>) -> usize
    ensures limit { result ≡ limit_for (seen_work work.entry) }
    ensures bound { result ≤ 2 ^ 25 }
{
    match work {
        Work::Open(_) | Work::Dopen(_) | Work::Reseal(_) | Work::Dreseal(_) => SEALED_LIMIT,
        _ => INPUT_LIMIT,
    }
}

/// The handle of the keyset's keys for a primitive, or the first record that can't serve. The keyset
/// comes from there.
pub(crate) fn handle_of<'m>(
    alloc: Global,
    from: Origin,
    keyset: &Keyset,
    managers: &'m Managers,
    primitive: Primitive,
) -> Result<Handle<'m>, Status>
    requires no_stream { primitive ≢ Stream }
    ensures passes { (w : World) → PassesAs (λ h. tt)
        (handles from (⟦<Managers as KeyTable>⟧.table managers.now) primitive keyset.now) w result w }
    ensures over { IfOk result (λ h. IsOver (⟦<Managers as KeyTable>⟧.table h.managers.now)
        primitive keyset.now h.held) }
    ensures table { IfOk result (λ h. ⟦<Managers as KeyTable>⟧.table h.managers.now
        ≡ ⟦<Managers as KeyTable>⟧.table managers.now) }
{
    match Handle::new(alloc, keyset, managers, primitive) {
        Ok(handle) => Ok(handle),
        Err(fault) => Err(handle_status(from, keyset, fault)),
    }
}

/// How many bytes precede the ciphertext, if the work seals its input.
fn room_for(handle: &Handle<'_>, work: Work<'_>) -> usize
    requires serving { IsServing (⟦<Managers as KeyTable>⟧.table handle.now.managers.now)
        (primitive_for (seen_work work)) handle.now.held }
    ensures room { result ≡ room_for handle.now.held (seen_work work.entry) }
    ensures bound { result ≤ 2 ^ 10 }
{
    match work {
        Work::Seal(_) => handle.seal_room(),
        Work::Dseal(_) => handle.dseal_room(),
        _ => 0,
    }
}

/// The output for the input, which follows room for what precedes a ciphertext.
fn do_work<E: Entropy>(
    alloc: Global,
    keyset: &Keyset,
    handle: &Handle<'_>,
    work: Work<'_>,
    input: Vec<u8>,
    entropy: &mut E,
) -> Result<Bytes, Status>
    requires serving { IsServing (⟦<Managers as KeyTable>⟧.table handle.now.managers.now)
        (primitive_for (seen_work work)) handle.now.held }
    requires room { room_for handle.now.held (seen_work work) ≤ length input.items }
    requires bound { length input.items ≤ room_for handle.now.held (seen_work work) + 2 ^ 25 }
    ensures { (w : World)
        → IsOver (⟦<Managers as KeyTable>⟧.table handle.now.managers.now)
        (primitive_for (seen_work work.entry)) keyset.now handle.now.held
        → Passes (works (⟦<Managers as KeyTable>⟧.table handle.now.managers.now) keyset.now
        (seen_work work.entry) (drop (room_for handle.now.held (seen_work work.entry)) input.items))
        (record w { entropy = E.state entropy.old }) result (record w { entropy = E.state entropy.new }) }
{
    match work {
        Work::Seal(ad) => seal(alloc, handle, ad, input, entropy),
        Work::Open(ad) => open(alloc, handle, sealer_of(keyset, &input), ad, input),
        Work::Dseal(ad) => dseal(alloc, handle, ad, input),
        Work::Dopen(ad) => dopen(alloc, handle, sealer_of(keyset, &input), ad, input),
        Work::Reseal(ad) => { reseal(alloc, handle, sealer_of(keyset, &input), ad, input, entropy) }
        Work::Dreseal(ad) => dreseal(alloc, handle, sealer_of(keyset, &input), ad, input),
        Work::Tag => tag(alloc, handle, &input),
        Work::Verify(tag) => verify(alloc, handle, tag, &input),
        Work::Derive(size) => derive(alloc, handle, size, &input),
    }
}

/// seal, in place: prefix, IV, ciphertext and tag.
fn seal<E: Entropy>(
    alloc: Global,
    handle: &Handle<'_>,
    ad: Datum<'_>,
    input: Vec<u8>,
    entropy: &mut E,
) -> Result<Bytes, Status>
    requires serving { IsServing (⟦<Managers as KeyTable>⟧.table handle.now.managers.now) Aead
        handle.now.held }
    requires room { seal_room handle.now.held ≤ length input.items }
    requires bound { length input.items ≤ seal_room handle.now.held + 2 ^ 25 }
    ensures { (w : World) → Works (⟦<Managers as KeyTable>⟧.table handle.now.managers.now)
        handle.now.held (to_seal (seen_datum ad.entry))
        (drop (seal_room handle.now.held) input.items)
        (record w { entropy = E.state entropy.old }) result (record w { entropy = E.state entropy.new }) }
{
    let ad = datum(alloc, ad)?;
    seal_plain(handle, ad.as_slice(), input, entropy)
}

/// A plaintext, sealed in place; it follows room for prefix and IV.
fn seal_plain<E: Entropy>(
    handle: &Handle<'_>,
    ad: &[u8],
    plain: Vec<u8>,
    entropy: &mut E,
) -> Result<Bytes, Status>
    requires serving { IsServing (⟦<Managers as KeyTable>⟧.table handle.now.managers.now) Aead
        handle.now.held }
    requires room { seal_room handle.now.held ≤ length plain.items }
    requires bound { length plain.items ≤ seal_room handle.now.held + 2 ^ 25 }
    requires ad_bound { length ad.now ≤ 2 ^ 20 }
    ensures { (w : World) (keys : Keys)
        → IsOver (⟦<Managers as KeyTable>⟧.table handle.now.managers.now) Aead keys handle.now.held
        → Passes (seals_plain (⟦<Managers as KeyTable>⟧.table handle.now.managers.now) keys
        (drop (seal_room handle.now.held) plain.items) ad.now)
        (record w { entropy = E.state entropy.old }) result (record w { entropy = E.state entropy.new }) }
{
    match handle.seal_in_place(plain, ad, entropy) {
        Ok(sealed) => Ok(Bytes::own(sealed)),
        Err(SealFault::EntropyFault) => Err(Status::EntropyFault),
        Err(SealFault::NoMemory) => Err(Status::NoMemory),
    }
}

/// open, in place: the plaintext of the first candidate that opens.
fn open(
    alloc: Global,
    handle: &Handle<'_>,
    sealer: Sealer,
    ad: Datum<'_>,
    sealed: Vec<u8>,
) -> Result<Bytes, Status>
    requires serving { IsServing (⟦<Managers as KeyTable>⟧.table handle.now.managers.now) Aead
        handle.now.held }
    requires bound { length sealed.items ≤ 2 ^ 25 }
    ensures { (w : World) → WorksTelling (⟦<Managers as KeyTable>⟧.table handle.now.managers.now)
        handle.now.held sealer (to_open (seen_datum ad.entry)) sealed.items
        w result w }
{
    let ad = datum(alloc, ad)?;
    let opened = handle.open_in_place(sealed, ad.as_slice(), &mut Trials::new());
    or_failed(opened, Unopened::Text, sealer)
}

/// dseal, in place: prefix, tag and ciphertext.
fn dseal(alloc: Global, handle: &Handle<'_>, ad: Datum<'_>, input: Vec<u8>) -> Result<Bytes, Status>
    requires serving { IsServing (⟦<Managers as KeyTable>⟧.table handle.now.managers.now) Daead
        handle.now.held }
    requires room { dseal_room handle.now.held ≤ length input.items }
    requires bound { length input.items ≤ dseal_room handle.now.held + 2 ^ 25 }
    ensures { (w : World) → Works (⟦<Managers as KeyTable>⟧.table handle.now.managers.now)
        handle.now.held (to_dseal (seen_datum ad.entry))
        (drop (dseal_room handle.now.held) input.items)
        w result w }
{
    let ad = datum(alloc, ad)?;
    dseal_plain(handle, ad.as_slice(), input)
}

/// A plaintext, sealed in place without an IV; it follows room for prefix and tag.
fn dseal_plain(handle: &Handle<'_>, ad: &[u8], plain: Vec<u8>) -> Result<Bytes, Status>
    requires serving { IsServing (⟦<Managers as KeyTable>⟧.table handle.now.managers.now) Daead
        handle.now.held }
    requires room { dseal_room handle.now.held ≤ length plain.items }
    requires bound { length plain.items ≤ dseal_room handle.now.held + 2 ^ 25 }
    requires ad_bound { length ad.now ≤ 2 ^ 20 }
    ensures { (w : World) (keys : Keys)
        → IsOver (⟦<Managers as KeyTable>⟧.table handle.now.managers.now) Daead keys handle.now.held
        → Passes (dseals_plain (⟦<Managers as KeyTable>⟧.table handle.now.managers.now) keys
        (drop (dseal_room handle.now.held) plain.items) ad.now) w result w }
{
    match handle.dseal_in_place(plain, ad) {
        Ok(sealed) => Ok(Bytes::own(sealed)),
        Err(_) => Err(Status::NoMemory),
    }
}

/// dopen, in place: the plaintext of the first candidate that opens.
fn dopen(
    alloc: Global,
    handle: &Handle<'_>,
    sealer: Sealer,
    ad: Datum<'_>,
    sealed: Vec<u8>,
) -> Result<Bytes, Status>
    requires serving { IsServing (⟦<Managers as KeyTable>⟧.table handle.now.managers.now) Daead
        handle.now.held }
    requires bound { length sealed.items ≤ 2 ^ 25 }
    ensures { (w : World) → WorksTelling (⟦<Managers as KeyTable>⟧.table handle.now.managers.now)
        handle.now.held sealer (to_dopen (seen_datum ad.entry)) sealed.items
        w result w }
{
    let ad = datum(alloc, ad)?;
    let opened = handle.dopen_in_place(sealed, ad.as_slice(), &mut Trials::new());
    or_failed(opened, Unopened::Text, sealer)
}

/// reseal, in place: what `open` gives, sealed under the primary key.
fn reseal<E: Entropy>(
    alloc: Global,
    handle: &Handle<'_>,
    sealer: Sealer,
    ad: Datum<'_>,
    sealed: Vec<u8>,
    entropy: &mut E,
) -> Result<Bytes, Status>
    requires serving { IsServing (⟦<Managers as KeyTable>⟧.table handle.now.managers.now) Aead
        handle.now.held }
    requires bound { length sealed.items ≤ 2 ^ 25 }
    ensures { (w : World) → WorksTelling (⟦<Managers as KeyTable>⟧.table handle.now.managers.now)
        handle.now.held sealer (to_reseal (seen_datum ad.entry)) sealed.items
        (record w { entropy = E.state entropy.old }) result (record w { entropy = E.state entropy.new }) }
{
    let ad = datum(alloc, ad)?;
    let Some(opened) = handle.open_in_place(sealed, ad.as_slice(), &mut Trials::new()) else {
        return Err(Status::OpenFailed(Unopened::Text, sealer));
    };
    let plain = behind_room(handle.seal_room(), opened)?;
    seal_plain(handle, ad.as_slice(), plain, entropy)
}

/// dreseal, in place: what `dopen` gives, sealed without an IV under the primary key.
fn dreseal(
    alloc: Global,
    handle: &Handle<'_>,
    sealer: Sealer,
    ad: Datum<'_>,
    sealed: Vec<u8>,
) -> Result<Bytes, Status>
    requires serving { IsServing (⟦<Managers as KeyTable>⟧.table handle.now.managers.now) Daead
        handle.now.held }
    requires bound { length sealed.items ≤ 2 ^ 25 }
    ensures { (w : World) → WorksTelling (⟦<Managers as KeyTable>⟧.table handle.now.managers.now)
        handle.now.held sealer (to_dreseal (seen_datum ad.entry)) sealed.items
        w result w }
{
    let ad = datum(alloc, ad)?;
    let Some(opened) = handle.dopen_in_place(sealed, ad.as_slice(), &mut Trials::new()) else {
        return Err(Status::OpenFailed(Unopened::Text, sealer));
    };
    let plain = behind_room(handle.dseal_room(), opened)?;
    dseal_plain(handle, ad.as_slice(), plain)
}

/// The bytes of the list after `room` bytes of room, in the same list.
fn behind_room(room: usize, mut plain: Vec<u8>) -> Result<Vec<u8>, NoMemory>
    requires room_bound { room ≤ 2 ^ 10 }
    requires plain_bound { length plain.items ≤ 2 ^ 25 }
    ensures size { IfOk result (λ bytes. length bytes.items ≡ room + length plain.items) }
    ensures plain { IfOk result (λ bytes. drop room bytes.items ≡ plain.items) }
{
    let size = plain.len();
    plain.reserve_exact(room + LONGEST_TAG)?;
    plain.resize(size + room, 0)?;
    plain.as_mut_slice().copy_within(..size, room);
    Ok(plain)
}

/// tag: prefix and tag.
fn tag(alloc: Global, handle: &Handle<'_>, body: &[u8]) -> Result<Bytes, Status>
    requires serving { IsServing (⟦<Managers as KeyTable>⟧.table handle.now.managers.now) Mac
        handle.now.held }
    requires bound { length body.now ≤ 2 ^ 25 }
    ensures { (w : World) → Works (⟦<Managers as KeyTable>⟧.table handle.now.managers.now)
        handle.now.held to_tag body.now
        w result w }
{
    match handle.tag(alloc, body) {
        Ok(tag) => Ok(Bytes::own(tag)),
        Err(_) => Err(Status::NoMemory),
    }
}

/// verify: no output, if this is some candidate's tag of the body.
fn verify(alloc: Global, handle: &Handle<'_>, tag: Datum<'_>, body: &[u8]) -> Result<Bytes, Status>
    requires serving { IsServing (⟦<Managers as KeyTable>⟧.table handle.now.managers.now) Mac
        handle.now.held }
    requires bound { length body.now ≤ 2 ^ 25 }
    ensures { (w : World) → Works (⟦<Managers as KeyTable>⟧.table handle.now.managers.now)
        handle.now.held (to_verify (seen_datum tag.entry)) body.now
        w result w }
{
    let tag = datum(alloc, tag)?;
    if handle.verify(tag.as_slice(), body, &mut Trials::new()) {
        Ok(Bytes::own(Vec::new(alloc)))
    } else {
        Err(Status::Refused(Refusal::VerifyFailed))
    }
}

/// derive: this many bytes, if the primary key gives them.
fn derive(alloc: Global, handle: &Handle<'_>, size: u32, input: &[u8]) -> Result<Bytes, Status>
    requires serving { IsServing (⟦<Managers as KeyTable>⟧.table handle.now.managers.now) Prf
        handle.now.held }
    requires bound { length input.now ≤ 2 ^ 25 }
    ensures { (w : World) → Works (⟦<Managers as KeyTable>⟧.table handle.now.managers.now)
        handle.now.held (to_derive size) input.now
        w result w }
{
    match handle.derive(alloc, input, size as usize) {
        Ok(bytes) => Ok(Bytes::own(bytes)),
        Err(DeriveFault::OutputTooLong(greatest)) => {
            let why = Refusal::OutputTooLong(size as usize, greatest);
            Err(Status::Refused(why))
        }
        Err(DeriveFault::NoMemory) => Err(Status::NoMemory),
    }
}

/// The plaintext, or the status if no key opened it, with what is reported of its sealer.
pub(crate) fn or_failed(
    opened: Option<Vec<u8>>,
    what: Unopened,
    sealer: Sealer,
) -> Result<Bytes, Status>
    ensures { (w : World) → Passes
        (with_opened what sealer (option_map (λ plain. plain.items) opened)) w result w }
{
    match opened {
        Some(plain) => Ok(Bytes::own(plain)),
        None => Err(Status::OpenFailed(what, sealer)),
    }
}

/// The bytes of a datum, at most 2^20.
pub(crate) fn datum(alloc: Global, from: Datum<'_>) -> Result<Bytes, NoMemory>
    ensures bytes { IfOk result (λ bytes. bytes ≡ seen_datum from.entry) }
    ensures within { IfOk result (λ bytes. length bytes ≤ 2 ^ 20) }
{
    match from {
        Datum::Plain(text) => plain_datum(alloc, text),
        Datum::Hex(text) => hex_datum(alloc, text),
    }
}

/// The bytes of a plain datum.
fn plain_datum(alloc: Global, text: &str) -> Result<Bytes, NoMemory>
    ensures bytes { IfOk result (λ bytes. bytes ≡ datum_as text.now) }
    ensures within { IfOk result (λ bytes. length bytes ≤ 2 ^ 20) }
{
    if text.len() > DATUM_LIMIT {
        return Ok(Bytes::own(Vec::new(alloc)));
    }
    Bytes::copy(alloc, text.as_bytes())
}

/// The bytes of a datum in hexadecimal.
fn hex_datum(alloc: Global, text: &str) -> Result<Bytes, NoMemory>
    ensures bytes { IfOk result (λ bytes. bytes ≡ datum_of_hex text.now) }
    ensures within { IfOk result (λ bytes. length bytes ≤ 2 ^ 20) }
{
    if text.len() > 2 * DATUM_LIMIT {
        return Ok(Bytes::own(Vec::new(alloc)));
    }
    match decode(alloc, text.as_bytes()) {
        Ok(bytes) => Ok(Bytes::own(bytes)),
        Err(FromHexError::OutOfMemory) => Err(NoMemory),
        Err(_) => Ok(Bytes::own(Vec::new(alloc))),
    }
}
