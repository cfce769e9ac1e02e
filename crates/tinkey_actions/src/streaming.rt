//! sseal, sopen and sreseal: the input as a stream, in one pass.

ghost use Rattle.std.specs.Prelude.{◌≡◌, IfOk, IsErrOf, None};
ghost use Rattle.segment_stream.specs.KeysModel.{AreSound};
ghost use Rattle.segment_stream.specs.PumpModels.{pump_result};
ghost use Rattle.tinkey_plans.specs.Ends.{World, pump_status, world};
ghost use Rattle.tinkey_plans.specs.Steps.{Finishes, Passes, status_of};
ghost use Rattle.tinkey_plans.specs.Streaming.{begins_file, loads_stream_keys, opens_stream, passes_stream, reseals_stream, seals_stream};
ghost use Rattle.tinkey_words.specs.Words.{seen_datum, seen_lock, seen_name};

use crate::locks::load_locked;
use crate::stream_file::put_into_file;
use crate::using::datum;
use managers::{KeyTable, Managers};
use segment_stream::{OpenPumpFault, Opener, SealPumpFault, Sealer, SealerFault, StreamKeys};
use std::alloc::Global;
use tink_base::{Entropy, PieceStore, Sink, Source, Store};
use tinkey_plans::{Status, stream_keys_status};
use tinkey_words::{Datum, Format, Master, StreamWork};

/// The keys for streams of the keyset in the file of this name.
#[inline(never)]
pub fn load_stream_keys<D: Store>(
    alloc: Global,
    managers: &Managers,
    lock: Option<Master<'_>>,
    name: &str,
    form: Format,
    store: &mut D,
) -> Result<StreamKeys, Status>
    ensures passes { (w : World) → Passes
        (loads_stream_keys (⟦<Managers as KeyTable>⟧.table managers.now) (seen_lock lock.entry) name.now
        form)
        (record w { store = D.state store.old }) result (record w { store = D.state store.new }) }
    ensures sound { IfOk result AreSound }
{
    let keyset = load_locked(alloc, managers, lock, name, form, store)?;
    match StreamKeys::new(alloc, &keyset) {
        Ok(keys) => Ok(keys),
        Err(fault) => Err(stream_keys_status(&keyset, fault)),
    }
}

/// Does the work on the input, and puts the output into a new file or, if none is named, to the
/// sink.
pub fn put_stream<S: Source, K: Sink, E: Entropy, D: PieceStore>(
    alloc: Global,
    work: StreamWork,
    keys: &StreamKeys,
    ad: Datum<'_>,
    out: Option<&str>,
    source: &mut S,
    sink: &mut K,
    entropy: &mut E,
    store: &mut D,
) -> Result<(), Status>
    requires sound { AreSound keys.now }
    ensures { Finishes
        (begins_file (seen_name out.entry)
        (passes_stream work keys.now (seen_datum ad.entry) (seen_name out.entry)))
        (world (S.state source.old) (K.state sink.old) (D.state store.old) (E.state entropy.old))
        result
        (world (S.state source.new) (K.state sink.new) (D.state store.new) (E.state entropy.new)) }
{
    match out {
        Some(name) => put_into_file(alloc, work, keys, ad, name, source, entropy, store),
        None => pass_stream(alloc, work, keys, ad, source, sink, entropy),
    }
}

/// Does the work on the input, and writes the output to the sink.
pub(crate) fn pass_stream<S: Source, K: Sink, E: Entropy>(
    alloc: Global,
    work: StreamWork,
    keys: &StreamKeys,
    ad: Datum<'_>,
    source: &mut S,
    sink: &mut K,
    entropy: &mut E,
) -> Result<(), Status>
    requires sound { AreSound keys.now }
    ensures finishes { (w : World) → Finishes
        (passes_stream work keys.now (seen_datum ad.entry) None)
        (record w {
          source = S.state source.old;
          sink = K.state sink.old;
          entropy = E.state entropy.old;
        }) result
        (record w {
          source = S.state source.new;
          sink = K.state sink.new;
          entropy = E.state entropy.new;
        }) }
    ensures undone { IsErrOf result Status.Done → ⊥ }
{
    match work {
        StreamWork::Seal => seal_stream(alloc, keys, ad, source, sink, entropy),
        StreamWork::Open => open_stream(alloc, keys, ad, source, sink),
        StreamWork::Reseal => reseal_stream(alloc, keys, ad, source, sink, entropy),
    }
}

/// sseal: seals the input as a stream under the primary one of these keys.
#[inline(never)]
fn seal_stream<S: Source, K: Sink, E: Entropy>(
    alloc: Global,
    keys: &StreamKeys,
    ad: Datum<'_>,
    source: &mut S,
    sink: &mut K,
    entropy: &mut E,
) -> Result<(), Status>
    requires sound { AreSound keys.now }
    ensures finishes { (w : World) → Finishes
        (seals_stream keys.now (seen_datum ad.entry) None)
        (record w {
          source = S.state source.old;
          sink = K.state sink.old;
          entropy = E.state entropy.old;
        }) result
        (record w {
          source = S.state source.new;
          sink = K.state sink.new;
          entropy = E.state entropy.new;
        }) }
    ensures undone { IsErrOf result Status.Done → ⊥ }
{
    let Ok(ad) = datum(alloc, ad) else {
        return Err(Status::NoMemory);
    };
    match Sealer::new(alloc, keys, ad.as_slice(), entropy) {
        Ok(sealer) => sealed(sealer.pump(source, sink)),
        Err(SealerFault::EntropyFault) => Err(Status::EntropyFault),
        Err(SealerFault::NoMemory) => Err(Status::NoMemory),
    }
}

/// sopen: opens the input as a stream under these keys.
#[inline(never)]
fn open_stream<S: Source, K: Sink>(
    alloc: Global,
    keys: &StreamKeys,
    ad: Datum<'_>,
    source: &mut S,
    sink: &mut K,
) -> Result<(), Status>
    requires sound { AreSound keys.now }
    ensures finishes { (w : World) → Finishes
        (opens_stream keys.now (seen_datum ad.entry) None)
        (record w { source = S.state source.old; sink = K.state sink.old }) result
        (record w { source = S.state source.new; sink = K.state sink.new }) }
    ensures undone { IsErrOf result Status.Done → ⊥ }
{
    let Ok(ad) = datum(alloc, ad) else {
        return Err(Status::NoMemory);
    };
    match Opener::new(alloc, keys, ad.as_slice()) {
        Ok(opener) => opened(opener.pump(source, sink)),
        Err(_) => Err(Status::NoMemory),
    }
}

/// sreseal: opens the input as a stream under these keys, and seals the plaintext under the primary
/// one.
#[inline(never)]
fn reseal_stream<S: Source, K: Sink, E: Entropy>(
    alloc: Global,
    keys: &StreamKeys,
    ad: Datum<'_>,
    source: &mut S,
    sink: &mut K,
    entropy: &mut E,
) -> Result<(), Status>
    requires sound { AreSound keys.now }
    ensures finishes { (w : World) → Finishes
        (reseals_stream keys.now (seen_datum ad.entry) None)
        (record w {
          source = S.state source.old;
          sink = K.state sink.old;
          entropy = E.state entropy.old;
        }) result
        (record w {
          source = S.state source.new;
          sink = K.state sink.new;
          entropy = E.state entropy.new;
        }) }
    ensures undone { IsErrOf result Status.Done → ⊥ }
{
    let Ok(ad) = datum(alloc, ad) else {
        return Err(Status::NoMemory);
    };
    let bytes = ad.as_slice();
    let Ok(opener) = Opener::new(alloc, keys, bytes) else {
        return Err(Status::NoMemory);
    };
    match Sealer::new(alloc, keys, bytes, entropy) {
        Ok(sealer) => opened(opener.reseal(sealer, source, sink)),
        Err(SealerFault::EntropyFault) => Err(Status::EntropyFault),
        Err(SealerFault::NoMemory) => Err(Status::NoMemory),
    }
}

/// The status of a pass that seals.
fn sealed(pass: Result<(), SealPumpFault>) -> Result<(), Status>
    ensures told { status_of result ≡ pump_status (pump_result pass) }
    ensures undone { IsErrOf result Status.Done → ⊥ }
{
    match pass {
        Ok(()) => Ok(()),
        Err(SealPumpFault::ReadFault) => Err(Status::ReadFault),
        Err(SealPumpFault::WriteFault) => Err(Status::WriteFault),
        Err(SealPumpFault::TooManySegments) => Err(Status::TooManySegments),
    }
}

/// The status of a pass that opens.
fn opened(pass: Result<(), OpenPumpFault>) -> Result<(), Status>
    ensures told { status_of result ≡ pump_status pass }
    ensures undone { IsErrOf result Status.Done → ⊥ }
{
    match pass {
        Ok(()) => Ok(()),
        Err(OpenPumpFault::ReadFault) => Err(Status::ReadFault),
        Err(OpenPumpFault::WriteFault) => Err(Status::WriteFault),
        Err(OpenPumpFault::TooManySegments) => Err(Status::TooManySegments),
        Err(OpenPumpFault::StreamFailed(number)) => Err(Status::StreamFailed(number)),
    }
}
