//! srange: a range of a sealed stream in a file.

ghost use Rattle.std.specs.Prelude.{◌≡◌, ℕ, ◌+◌, ◌*◌, ◌≤◌, ◌<◌, ◌^◌, IfSome, IsErrOf};
ghost use Rattle.segment_stream.specs.StreamKeys.{largest_of};
ghost use Rattle.stream_range.specs.Answers.{IsRange};
ghost use Rattle.stream_range.specs.Stored.{bytes_in};
ghost use Rattle.tink_spec.specs.Files.{HoldsSize, KeptFiles};
ghost use Rattle.tink_spec.specs.Outside.{Rose, Stood};
ghost use Rattle.tinkey_plans.specs.Ends.{World, GaveWithin};
ghost use Rattle.tinkey_plans.specs.Ranging.{opened_or, opens_file_range, range_output, range_for};
ghost use Rattle.tinkey_plans.specs.Steps.{Passes};
ghost use Rattle.tinkey_plans.specs.FileRange.{GivesAtMost, range_in};
ghost use Rattle.tinkey_words.specs.Words.{seen_datum, seen_lock, seen_range};

use crate::streaming::load_stream_keys;
use crate::using::datum;
use managers::{KeyTable, Managers};
use segment_stream::StreamKeys;
use std::alloc::Global;
use stream_range::{RangeFault, StoreDevice, open_range};
use tink_base::{Bytes, Store};
use tinkey_plans::Status;
use tinkey_words::{Datum, Format, Master, Range};

/// The plaintext of a range of the stream in a file, by the keys of the keyset in another file.
#[inline(never)]
pub fn open_file_range<D: Store>(
    alloc: Global,
    managers: &Managers,
    lock: Option<Master<'_>>,
    keyset: &str,
    form: Format,
    ad: Datum<'_>,
    range: Range<'_>,
    store: &mut D,
) -> Result<Bytes, Status>
    ensures { (w : World) → Passes
        (range_output (⟦<Managers as KeyTable>⟧.table managers.now) (seen_lock lock.entry) keyset.now form
        (seen_datum ad.entry) (seen_range range.entry))
        (record w { store = D.state store.old }) result (record w { store = D.state store.new }) }
{
    let keys = load_stream_keys(alloc, managers, lock, keyset, form, store)?;
    open_under(alloc, &keys, ad, range, store)
}

/// The plaintext of the range under these keys.
#[inline(never)]
fn open_under<D: Store>(
    alloc: Global,
    keys: &StreamKeys,
    ad: Datum<'_>,
    range: Range<'_>,
    store: &mut D,
) -> Result<Bytes, Status>
    ensures { (w : World) → Passes
        (opens_file_range keys.now (seen_datum ad.entry) (seen_range range.entry))
        (record w { store = D.state store.old }) result (record w { store = D.state store.new }) }
{
    let Ok(ad) = datum(alloc, ad) else {
        return Err(Status::NoMemory);
    };
    match store.size(range.file) {
        Ok(Some(size)) => opened(open_file(alloc, keys, ad.as_slice(), range, size, store)),
        Ok(None) => Err(Status::StreamMissing),
        Err(_) => Err(Status::StoreFault),
    }
}

/// The plaintext of the range of the stream in its file, which has this size.
fn open_file<D: Store>(
    alloc: Global,
    keys: &StreamKeys,
    ad: &[u8],
    range: Range<'_>,
    size: u64,
    store: &mut D,
) -> Result<Vec<u8>, RangeFault>
    requires size_bound { size < 2 ^ 63 }
    requires held { HoldsSize (D.state store.old) range.file.now size }
    ensures range { IfSome (bytes_in (D.state store.old).files range.entry.file.now) (λ bytes.
        IsRange result
        (range_in (range_for keys.now ad.now (seen_range range.entry)) bytes)) }
    ensures kept { KeptFiles (D.state store.old) (D.state store.new) }
    ensures gave { (most : ℕ) × GivesAtMost (D.state store.old).files
        (range_for keys.now ad.now (seen_range range.entry)) most
        × (IsErrOf result RangeFault.PastEnd → most ≤ 2 * largest_of keys.now.keys)
        × GaveWithin (D.state store.old) (D.state store.new) most }
    ensures no_fault { (IsErrOf result RangeFault.ReadFault → ⊥) →
        Stood (D.state store.old).faults (D.state store.new).faults }
    ensures failed { IsErrOf result RangeFault.ReadFault →
        Rose (D.state store.old).faults (D.state store.new).faults }
{
    let (from, to) = (range.from, range.from + u64::from(range.length));
    let mut device = StoreDevice::over(store, range.file, size);
    open_range(alloc, keys, ad, &mut device, from, to)
}

/// The range that was opened, or the status if it wasn't.
fn opened(range: Result<Vec<u8>, RangeFault>) -> Result<Bytes, Status>
    ensures { result ≡ opened_or range }
{
    match range {
        Ok(plain) => Ok(Bytes::own(plain)),
        Err(fault) => Err(Status::from(fault)),
    }
}
