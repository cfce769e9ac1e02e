//! Work under the standard managers, whatever the primitive.

ghost use Rattle.std.specs.Prelude.{◌≡◌, ◌≢◌, ◌≤◌, ◌^◌, ℕ, List, Option, length, Some, IfOk, IfErr, OnErr};
ghost use Rattle.std.specs.Option.{option_map};
ghost use Rattle.key_msgs.specs.declared.primitive.Primitive.TheVariants.{Aead, Daead, Mac, Prf, Stream};
ghost use Rattle.keyset_model.specs.Keyset.{Keys};
ghost use Rattle.managers.specs.Standard.{standard_table};
ghost use Rattle.tink_spec.specs.InPlace.{OpensTo};
ghost use Rattle.wrapped_prims.specs.Answers.{Sealed, derive_answer, dopen_answer, dseal_answer, open_answer, seal_answer, tag_answer, verify_answer};
ghost use Rattle.wrapped_prims.specs.Making.{IsOver};
ghost use Rattle.ready_keysets.specs.Working.{IsAnswered, IsUnfit, IsWithin, answer, derived, lack_of, primitive_of, verified};
ghost use Rattle.ready_keysets.specs.declared.refusal.Refusal.{Refusal as RefusalValue};
ghost use Rattle.ready_keysets.specs.declared.refusal.Refusal.TheVariants as refusals;

use crate::{Refusal, Work};
use key_msgs::Primitive;
use keyset_model::Keyset;
use managers::{KeyTable, Managers};
use std::alloc::Global;
use std::mem::replace;
use std::ops::Range;
use tink_base::{Drawn, Trials};
use wrapped_prims::{DeriveFault, Handle, HandleError, HeldKeys, SealIntoFault};

/// The keys of a keyset, checked and prepared for a primitive, for many calls.
pub(crate) fn hold(
    alloc: Global,
    keyset: &Keyset,
    primitive: Primitive,
) -> Result<HeldKeys, Refusal>
    requires no_stream { primitive ≢ Stream }
    ensures primitive { IfOk result (λ keys. keys.primitive ≡ primitive) }
    ensures over { IfOk result (λ keys. IsOver standard_table primitive keyset.now keys.held) }
    ensures unfit { IfErr result (IsUnfit primitive keyset.now) }
{
    let managers = Managers::standard();
    match Handle::new(alloc, keyset, &managers, primitive) {
        Ok(handle) => {
            let mut keys = handle.into_keys();
            keys.prepare_ahead(alloc)?;
            Ok(keys)
        }
        Err(HandleError::NoMemory) => Err(Refusal::NoMemory),
        Err(_) => Err(Refusal::UnfitKey),
    }
}

/// Does work with the held keys, of their primitive. The managers take no memory.
pub(crate) fn perform(
    alloc: Global,
    keys: &mut HeldKeys,
    work: Work<'_>,
    out: &mut [u8],
) -> Result<usize, Refusal>
    requires over { (of : Keys) × IsOver standard_table (primitive_of work) of keys.old.held }
    requires within { IsWithin work }
    ensures held { keys.new.held ≡ keys.old.held }
    ensures primitive { keys.new.primitive ≡ keys.old.primitive }
    ensures answered { (of : Keys)
        → IsOver standard_table (primitive_of work.entry) of keys.old.held
        → IsAnswered (lack_of work.entry) (answer of work.entry) out.old out.new result }
    ensures kept { OnErr result (out.new ≡ out.old) }
{
    let managers = Managers::standard();
    let handle = Handle::of_keys(replace(keys, HeldKeys::none(alloc)), &managers);
    let done = perform_by(alloc, &handle, work, out);
    *keys = handle.into_keys();
    done
}

/// Does work with a handle.
fn perform_by(
    alloc: Global,
    handle: &Handle<'_>,
    work: Work<'_>,
    out: &mut [u8],
) -> Result<usize, Refusal>
    requires table { ⟦<Managers as KeyTable>⟧.table handle.now.managers.now
        ≡ standard_table }
    requires over { (of : Keys)
        × IsOver standard_table (primitive_of work) of handle.now.held }
    requires within { IsWithin work }
    ensures answered { (of : Keys)
        → IsOver standard_table (primitive_of work.entry) of handle.now.held
        → IsAnswered (lack_of work.entry) (answer of work.entry) out.old out.new result }
    ensures kept { OnErr result (out.new ≡ out.old) }
{
    match work {
        Work::Seal(plain, ad, random) => seal(handle, plain, ad, random, out),
        Work::Open(sealed, ad) => open(alloc, handle, sealed, ad, out),
        Work::Dseal(plain, ad) => dseal(alloc, handle, plain, ad, out),
        Work::Dopen(sealed, ad) => dopen(alloc, handle, sealed, ad, out),
        Work::Tag(body) => tag(alloc, handle, body, out),
        Work::Verify(tag, body) => verify(handle, tag, body, out),
        Work::Derive(input, size) => derive(alloc, handle, input, size, out),
    }
}

/// Writes an answer at the front of the output, if there is room.
fn put(bytes: &[u8], out: &mut [u8]) -> Result<usize, Refusal>
    ensures answered { (lack : RefusalValue) → IsAnswered lack (Some bytes.now) out.old out.new result }
    ensures kept { OnErr result (out.new ≡ out.old) }
{
    if out.len() < bytes.len() {
        return Err(Refusal::NoRoom);
    }
    out[..bytes.len()].copy_from_slice(bytes);
    Ok(bytes.len())
}

/// Writes a plaintext that stands in these bytes at the front of the output, if one was found.
fn put_found(bytes: &[u8], found: Option<Range<usize>>, out: &mut [u8]) -> Result<usize, Refusal>
    requires opened { (plain : Option (List ℕ)) × (sealed : List ℕ)
        × OpensTo plain sealed bytes.now found }
    ensures answered { (plain : Option (List ℕ)) (sealed : List ℕ)
        → OpensTo plain sealed bytes.now found
        → IsAnswered refusals.Refused plain out.old out.new result }
    ensures kept { OnErr result (out.new ≡ out.old) }
{
    match found {
        Some(range) => put(&bytes[range], out),
        None => Err(Refusal::Refused),
    }
}

fn seal(
    handle: &Handle<'_>,
    plain: &[u8],
    ad: &[u8],
    random: &[u8],
    out: &mut [u8],
) -> Result<usize, Refusal>
    requires table { ⟦<Managers as KeyTable>⟧.table handle.now.managers.now ≡ standard_table }
    requires over { (of : Keys) × IsOver standard_table Aead of handle.now.held }
    requires plain_bound { length plain.now ≤ 2 ^ 30 }
    requires ad_bound { length ad.now ≤ 2 ^ 30 }
    ensures answered { (of : Keys) → IsOver standard_table Aead of handle.now.held
        → IsAnswered refusals.FewRandomBytes (option_map (λ (s : Sealed). s.bytes)
        (seal_answer of standard_table plain.now ad.now random.now)) out.old out.new result }
    ensures kept { OnErr result (out.new ≡ out.old) }
{
    match handle.seal_into(plain, ad, &mut Drawn::new(random), out) {
        Ok(size) => Ok(size),
        Err(SealIntoFault::EntropyFault) => Err(Refusal::FewRandomBytes),
        Err(SealIntoFault::NoRoom) => Err(Refusal::NoRoom),
    }
}

fn open(
    alloc: Global,
    handle: &Handle<'_>,
    sealed: &[u8],
    ad: &[u8],
    out: &mut [u8],
) -> Result<usize, Refusal>
    requires table { ⟦<Managers as KeyTable>⟧.table handle.now.managers.now ≡ standard_table }
    requires over { (of : Keys) × IsOver standard_table Aead of handle.now.held }
    requires sealed_bound { length sealed.now ≤ 2 ^ 30 }
    requires ad_bound { length ad.now ≤ 2 ^ 30 }
    ensures answered { (of : Keys) → IsOver standard_table Aead of handle.now.held
        → IsAnswered refusals.Refused (open_answer of standard_table sealed.now ad.now) out.old
        out.new result }
    ensures kept { OnErr result (out.new ≡ out.old) }
{
    match sealed.to_vec(alloc) {
        Ok(mut bytes) => open_within(handle, &mut bytes, ad, out),
        Err(_) => Err(Refusal::NoMemory),
    }
}

/// Opens these bytes in place, and writes the plaintext at the front of the output.
fn open_within(
    handle: &Handle<'_>,
    bytes: &mut [u8],
    ad: &[u8],
    out: &mut [u8],
) -> Result<usize, Refusal>
    requires table { ⟦<Managers as KeyTable>⟧.table handle.now.managers.now ≡ standard_table }
    requires over { (of : Keys) × IsOver standard_table Aead of handle.now.held }
    requires bytes_bound { length bytes.old ≤ 2 ^ 30 }
    requires ad_bound { length ad.now ≤ 2 ^ 30 }
    ensures answered { (of : Keys) → IsOver standard_table Aead of handle.now.held
        → IsAnswered refusals.Refused (open_answer of standard_table bytes.old ad.now) out.old
        out.new result }
    ensures kept { OnErr result (out.new ≡ out.old) }
{
    let found = handle.open_within(bytes, ad);
    put_found(bytes, found, out)
}

fn dseal(
    alloc: Global,
    handle: &Handle<'_>,
    plain: &[u8],
    ad: &[u8],
    out: &mut [u8],
) -> Result<usize, Refusal>
    requires table { ⟦<Managers as KeyTable>⟧.table handle.now.managers.now ≡ standard_table }
    requires over { (of : Keys) × IsOver standard_table Daead of handle.now.held }
    requires plain_bound { length plain.now ≤ 2 ^ 30 }
    requires ad_bound { length ad.now ≤ 2 ^ 30 }
    ensures answered { (of : Keys) → IsOver standard_table Daead of handle.now.held
        → IsAnswered refusals.Refused (dseal_answer of standard_table plain.now ad.now) out.old
        out.new result }
    ensures kept { OnErr result (out.new ≡ out.old) }
{
    let sealed = handle.dseal(alloc, plain, ad)?;
    put(&sealed, out)
}

fn dopen(
    alloc: Global,
    handle: &Handle<'_>,
    sealed: &[u8],
    ad: &[u8],
    out: &mut [u8],
) -> Result<usize, Refusal>
    requires table { ⟦<Managers as KeyTable>⟧.table handle.now.managers.now ≡ standard_table }
    requires over { (of : Keys) × IsOver standard_table Daead of handle.now.held }
    requires sealed_bound { length sealed.now ≤ 2 ^ 30 }
    requires ad_bound { length ad.now ≤ 2 ^ 30 }
    ensures answered { (of : Keys) → IsOver standard_table Daead of handle.now.held
        → IsAnswered refusals.Refused (dopen_answer of standard_table sealed.now ad.now) out.old
        out.new result }
    ensures kept { OnErr result (out.new ≡ out.old) }
{
    match sealed.to_vec(alloc) {
        Ok(mut bytes) => dopen_within(handle, &mut bytes, ad, out),
        Err(_) => Err(Refusal::NoMemory),
    }
}

/// Opens these bytes in place, and writes the plaintext at the front of the output.
fn dopen_within(
    handle: &Handle<'_>,
    bytes: &mut [u8],
    ad: &[u8],
    out: &mut [u8],
) -> Result<usize, Refusal>
    requires table { ⟦<Managers as KeyTable>⟧.table handle.now.managers.now ≡ standard_table }
    requires over { (of : Keys) × IsOver standard_table Daead of handle.now.held }
    requires bytes_bound { length bytes.old ≤ 2 ^ 30 }
    requires ad_bound { length ad.now ≤ 2 ^ 30 }
    ensures answered { (of : Keys) → IsOver standard_table Daead of handle.now.held
        → IsAnswered refusals.Refused (dopen_answer of standard_table bytes.old ad.now) out.old
        out.new result }
    ensures kept { OnErr result (out.new ≡ out.old) }
{
    let found = handle.dopen_within(bytes, ad);
    put_found(bytes, found, out)
}

fn tag(alloc: Global, handle: &Handle<'_>, body: &[u8], out: &mut [u8]) -> Result<usize, Refusal>
    requires table { ⟦<Managers as KeyTable>⟧.table handle.now.managers.now ≡ standard_table }
    requires over { (of : Keys) × IsOver standard_table Mac of handle.now.held }
    requires body_bound { length body.now ≤ 2 ^ 30 }
    ensures answered { (of : Keys) → IsOver standard_table Mac of handle.now.held
        → IsAnswered refusals.Refused (tag_answer of standard_table body.now) out.old out.new
        result }
    ensures kept { OnErr result (out.new ≡ out.old) }
{
    let tag = handle.tag(alloc, body)?;
    put(&tag, out)
}

fn verify(handle: &Handle<'_>, tag: &[u8], body: &[u8], out: &mut [u8]) -> Result<usize, Refusal>
    requires table { ⟦<Managers as KeyTable>⟧.table handle.now.managers.now ≡ standard_table }
    requires over { (of : Keys) × IsOver standard_table Mac of handle.now.held }
    requires body_bound { length body.now ≤ 2 ^ 30 }
    ensures answered { (of : Keys) → IsOver standard_table Mac of handle.now.held
        → IsAnswered refusals.Refused (verified (verify_answer of standard_table tag.now body.now))
        out.old out.new result }
    ensures kept { OnErr result (out.new ≡ out.old) }
{
    if handle.verify(tag, body, &mut Trials::new()) {
        put(&[], out)
    } else {
        Err(Refusal::Refused)
    }
}

fn derive(
    alloc: Global,
    handle: &Handle<'_>,
    input: &[u8],
    size: usize,
    out: &mut [u8],
) -> Result<usize, Refusal>
    requires table { ⟦<Managers as KeyTable>⟧.table handle.now.managers.now ≡ standard_table }
    requires over { (of : Keys) × IsOver standard_table Prf of handle.now.held }
    requires input_bound { length input.now ≤ 2 ^ 30 }
    ensures answered { (of : Keys) → IsOver standard_table Prf of handle.now.held
        → IsAnswered refusals.TooLong (derived (derive_answer of standard_table input.now size))
        out.old out.new result }
    ensures kept { OnErr result (out.new ≡ out.old) }
{
    match handle.derive(alloc, input, size) {
        Ok(bytes) => put(&bytes, out),
        Err(DeriveFault::OutputTooLong(_)) => Err(Refusal::TooLong),
        Err(DeriveFault::NoMemory) => Err(Refusal::NoMemory),
    }
}
