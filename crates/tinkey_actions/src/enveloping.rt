//! Envelope sealing: eseal, eopen and ereseal.

ghost use Rattle.std.specs.Prelude.{◌≡◌, ◌+◌, ◌≤◌, ◌^◌, drop, length, IfOk};
ghost use Rattle.key_msgs.specs.Templates.{Row, seen};
ghost use Rattle.key_msgs.specs.declared.primitive.Primitive.TheVariants.{Aead};
ghost use Rattle.keyset_model.specs.Keyset.{Keys};
ghost use Rattle.envelopes.specs.Enveloping.{IsAead, url_made};
ghost use Rattle.wrapped_prims.specs.Making.{IsOver};
ghost use Rattle.tinkey_plans.specs.Ends.{World};
ghost use Rattle.tinkey_plans.specs.Sealers.{envelope_sealer_of};
ghost use Rattle.tinkey_plans.specs.Envelopes.{envelope_limit, envelope_output, envelopes, finds_dek, finds_scheme};
ghost use Rattle.tinkey_plans.specs.Steps.{Passes, PassesAs};
ghost use Rattle.tinkey_plans.specs.Handles.{IsServing};
ghost use Rattle.tinkey_words.specs.Words.{seen_datum, seen_envelope, seen_lock, to_eseal, to_eopen, to_ereseal};
ghost use Rattle.tinkey_actions.specs.Rooms.{envelope_room};

use crate::locks::load_locked;
use crate::sealers::envelope_sealer_of;
use crate::steps::read_input_behind;
use crate::using::{INPUT_LIMIT, SEALED_LIMIT, datum, handle_of, or_failed};
use envelopes::{
    ENVELOPE_ROOM, EnvelopeFault, data_key, envelope_key, envelope_open, envelope_reseal,
    envelope_seal,
};
use key_msgs::{Primitive, Template};
use keyset_model::Keyset;
use managers::{AeadManager, FoundAead, KeyManager, KeyTable, Managers};
use std::alloc::Global;
use tink_base::{Bytes, Entropy, Source, Store};
use tinkey_plans::{Origin, Sealer, Status, Unopened};
use tinkey_session::find_template;
use tinkey_words::{Datum, Envelope, Format, Master};
use wrapped_prims::{Handle, SealFault};

/// Works on the whole input, by data keys of a template under the keys of the keyset in this file,
/// and returns the output.
#[inline(never)]
pub fn use_envelope<S: Source, E: Entropy, D: Store>(
    alloc: Global,
    managers: &Managers,
    lock: Option<Master<'_>>,
    name: &str,
    form: Format,
    template: &str,
    work: Envelope<'_>,
    source: &mut S,
    entropy: &mut E,
    store: &mut D,
) -> Result<Bytes, Status>
    ensures { (w : World) → Passes
        (envelope_output (⟦<Managers as KeyTable>⟧.table managers.now) (seen_lock lock.entry) name.now
        form template.now (seen_envelope work.entry))
        (record w {
          source = S.state source.old;
          store = D.state store.old;
          entropy = E.state entropy.old;
        }) result
        (record w {
          source = S.state source.new;
          store = D.state store.new;
          entropy = E.state entropy.new;
        }) }
{
    let template = find_dek(template)?;
    let keyset = load_locked(alloc, managers, lock, name, form, store)?;
    let handle = handle_of(alloc, Origin::Keyset, &keyset, managers, Primitive::Aead)?;
    let manager = find_manager(managers, &template)?;
    let input = read_input_behind(alloc, envelope_room(work), envelope_limit(work), source)?;
    match work {
        Envelope::Seal(ad) => {
            seal_envelope(alloc, &handle, &manager, &template, ad, input, entropy)
        }
        Envelope::Open(ad) => open_envelope(
            alloc,
            &handle,
            &manager,
            envelope_sealer_of(&keyset, &input),
            ad,
            input,
        ),
        Envelope::Reseal => reseal_envelope(
            alloc,
            &handle,
            &manager,
            sealer_behind_room(&keyset, &input),
            input,
            entropy,
        ),
    }
}

/// The template of this name, whose keys are of an AEAD. No memory is taken.
fn find_dek(name: &str) -> Result<Template, Status>
    ensures passes { (w : World) → PassesAs seen (finds_dek name.now) w result w }
    ensures aead { IfOk result (λ template. IsAead (seen template)) }
{
    let template = find_template(name)?;
    match template.primitive() {
        Primitive::Aead => Ok(template),
        _ => Err(Status::DekTemplate),
    }
}

/// The manager of the keys of a template.
fn find_manager<'m>(managers: &'m Managers, template: &Template) -> Result<FoundAead<'m>, Status>
    requires aead { IsAead (seen template.now) }
    ensures passes { (w : World) → PassesAs
        ⟦<FoundAead<'m> as KeyManager>⟧.scheme
        (finds_scheme (⟦<Managers as KeyTable>⟧.table managers.now) (seen template.now)) w result w }
    ensures url { IfOk result (λ m.
        ⟦<FoundAead<'m> as KeyManager>⟧.url m ≡ url_made (seen template.now)) }
{
    match data_key(managers, template) {
        Ok(manager) => Ok(manager),
        Err(_) => Err(Status::NoDekManager),
    }
}

/// eseal, in place: seals what follows the room for an envelope, under a data key made for it.
fn seal_envelope<M: AeadManager, E: Entropy>(
    alloc: Global,
    handle: &Handle<'_>,
    manager: &M,
    template: &Template,
    ad: Datum<'_>,
    input: Vec<u8>,
    entropy: &mut E,
) -> Result<Bytes, Status>
    requires serving { IsServing (⟦<Managers as KeyTable>⟧.table handle.now.managers.now) Aead
        handle.now.held }
    requires aead { IsAead (seen template.now) }
    requires url { M.url manager.now ≡ url_made (seen template.now) }
    requires room { ENVELOPE_ROOM ≤ length input.items }
    requires bound { length input.items ≤ ENVELOPE_ROOM + 16777216 }
    ensures { (w : World) (keys : Keys)
        → IsOver (⟦<Managers as KeyTable>⟧.table handle.now.managers.now) Aead keys handle.now.held
        → Passes (envelopes (⟦<Managers as KeyTable>⟧.table handle.now.managers.now) keys
        (M.scheme manager.now)
        (seen template.now) (to_eseal (seen_datum ad.entry)) (drop ENVELOPE_ROOM input.items))
        (record w { entropy = E.state entropy.old }) result (record w { entropy = E.state entropy.new }) }
{
    let ad = datum(alloc, ad)?;
    match envelope_seal(
        alloc,
        handle,
        manager,
        template,
        input,
        ad.as_slice(),
        entropy,
    ) {
        Ok(envelope) => Ok(Bytes::own(envelope)),
        Err(EnvelopeFault::EntropyFault) => Err(Status::EntropyFault),
        Err(EnvelopeFault::Refused(rule)) => Err(Status::DekRefused(rule)),
        Err(EnvelopeFault::NoMemory) => Err(Status::NoMemory),
    }
}

/// eopen, in place: the plaintext of the envelope.
fn open_envelope<M: AeadManager>(
    alloc: Global,
    handle: &Handle<'_>,
    manager: &M,
    sealer: Sealer,
    ad: Datum<'_>,
    envelope: Vec<u8>,
) -> Result<Bytes, Status>
    requires serving { IsServing (⟦<Managers as KeyTable>⟧.table handle.now.managers.now) Aead
        handle.now.held }
    requires bound { length envelope.items ≤ 16778240 }
    ensures { (w : World) (keys : Keys) (row : Row)
        → IsOver (⟦<Managers as KeyTable>⟧.table handle.now.managers.now) Aead keys handle.now.held
        → sealer ≡ envelope_sealer_of keys envelope.items
        → Passes (envelopes (⟦<Managers as KeyTable>⟧.table handle.now.managers.now) keys
        (M.scheme manager.now)
        row (to_eopen (seen_datum ad.entry)) envelope.items) w result w }
{
    let ad = datum(alloc, ad)?;
    match envelope_open(alloc, handle, manager, envelope, ad.as_slice()) {
        Ok(opened) => or_failed(opened, Unopened::Envelope, sealer),
        Err(_) => Err(Status::NoMemory),
    }
}

/// What is reported of the envelope after the room for one.
fn sealer_behind_room(keyset: &Keyset, input: &[u8]) -> Sealer
    requires room { ENVELOPE_ROOM ≤ length input.now }
    ensures { result ≡ envelope_sealer_of keyset.now (drop ENVELOPE_ROOM input.now) }
{
    envelope_sealer_of(keyset, &input[ENVELOPE_ROOM..])
}

/// ereseal, in place: the envelope after the room for one, with its data key sealed again.
fn reseal_envelope<M: AeadManager, E: Entropy>(
    alloc: Global,
    handle: &Handle<'_>,
    manager: &M,
    sealer: Sealer,
    input: Vec<u8>,
    entropy: &mut E,
) -> Result<Bytes, Status>
    requires serving { IsServing (⟦<Managers as KeyTable>⟧.table handle.now.managers.now) Aead
        handle.now.held }
    requires room { ENVELOPE_ROOM ≤ length input.items }
    requires bound { length input.items ≤ ENVELOPE_ROOM + 16778240 }
    ensures { (w : World) (keys : Keys) (row : Row)
        → IsOver (⟦<Managers as KeyTable>⟧.table handle.now.managers.now) Aead keys handle.now.held
        → sealer ≡ envelope_sealer_of keys (drop ENVELOPE_ROOM input.items)
        → Passes (envelopes (⟦<Managers as KeyTable>⟧.table handle.now.managers.now) keys
        (M.scheme manager.now)
        row to_ereseal (drop ENVELOPE_ROOM input.items))
        (record w { entropy = E.state entropy.old }) result (record w { entropy = E.state entropy.new }) }
{
    let Some(key) = envelope_key(alloc, handle, manager, &input[ENVELOPE_ROOM..])? else {
        return Err(Status::OpenFailed(Unopened::DataKey, sealer));
    };
    match envelope_reseal(alloc, handle, &key, input, entropy) {
        Ok(envelope) => Ok(Bytes::own(envelope)),
        Err(SealFault::EntropyFault) => Err(Status::EntropyFault),
        Err(SealFault::NoMemory) => Err(Status::NoMemory),
    }
}

/// How many bytes precede what is read, if the work seals.
fn envelope_room(work: Envelope<'_>) -> usize
    ensures room { result ≡ envelope_room (seen_envelope work.entry) }
    ensures bound { result ≤ ENVELOPE_ROOM }
{
    match work {
        Envelope::Seal(_) | Envelope::Reseal => ENVELOPE_ROOM,
        Envelope::Open(_) => 0,
    }
}

/// The most bytes of the work's input.
fn envelope_limit(work: Envelope<'_>) -> usize
    ensures limit { result ≡ envelope_limit (seen_envelope work.entry) }
    ensures bound { result ≤ 16778240 }
{
    match work {
        Envelope::Seal(_) => INPUT_LIMIT,
        Envelope::Open(_) | Envelope::Reseal => SEALED_LIMIT,
    }
}
