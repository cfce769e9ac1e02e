//! key-of of a stream: the record under whose key it is opened. No plaintext is given out.

ghost use Rattle.std.specs.Prelude.{◌≡◌, ◌<◌, IfSome, MatchOption, None, filter, length, option_map, slice_get};
ghost use Rattle.keyset_model.specs.Keyset.{IsKnown, is_enabled};
ghost use Rattle.segment_stream.specs.KeysModel.{AreOf};
ghost use Rattle.segment_stream.specs.StreamKeys.{stream_unfit};
ghost use Rattle.tinkey_plans.specs.Ends.{World};
ghost use Rattle.tinkey_plans.specs.KeyOf.{key_line, tells_front, tells_stream, with_lines};
ghost use Rattle.tinkey_plans.specs.Steps.{Passes, works_out};
ghost use Rattle.tinkey_words.specs.Words.{seen_datum};

use crate::key_of::push_key;
use crate::using::datum;
use keyset_model::{Keyset, Record};
use segment_stream::{Opener, StreamKeys};
use std::alloc::Global;
use tink_base::{Bytes, ENABLED, Source};
use tinkey_plans::{Status, stream_keys_status};
use tinkey_words::Datum;

/// The line of the record under whose key the input is opened as a stream, with this associated
/// data.
#[inline(never)]
pub(crate) fn tell_stream<S: Source>(
    alloc: Global,
    keyset: &Keyset,
    ad: Datum<'_>,
    source: &mut S,
) -> Result<Bytes, Status>
    ensures { (w : World) → Passes (tells_stream (seen_datum ad.entry) keyset.now)
        (record w { source = S.state source.old }) result
        (record w { source = S.state source.new }) }
{
    match StreamKeys::new(alloc, keyset) {
        Ok(keys) => tell_front(alloc, keyset, &keys, ad, source),
        Err(fault) => Err(stream_keys_status(keyset, fault)),
    }
}

/// The same by the keyset's keys for streams, which each of its ENABLED records gives.
fn tell_front<S: Source>(
    alloc: Global,
    keyset: &Keyset,
    keys: &StreamKeys,
    ad: Datum<'_>,
    source: &mut S,
) -> Result<Bytes, Status>
    requires keys { AreOf keys.now keyset.now }
    requires fit { stream_unfit keyset.now ≡ None }
    ensures { (w : World) →
        Passes (λ next. tells_front (seen_datum ad.entry) keyset.now next keys.now)
        (record w { source = S.state source.old }) result
        (record w { source = S.state source.new }) }
{
    let Ok(ad) = datum(alloc, ad) else {
        return Err(Status::NoMemory);
    };
    let Ok(opener) = Opener::new(alloc, keys, ad.as_slice()) else {
        return Err(Status::NoMemory);
    };
    match opener.choose(source) {
        Ok(Some(place)) => enabled_line(alloc, keyset, place),
        Ok(None) => Err(Status::NoKeyOf),
        Err(_) => Err(Status::ReadFault),
    }
}

/// The line of the record at this place among the ENABLED ones.
fn enabled_line(alloc: Global, keyset: &Keyset, place: usize) -> Result<Bytes, Status>
    ensures { (w : World) → Passes
        (with_lines (option_map key_line (slice_get (filter is_enabled keyset.now.records) place)))
        w result w }
{
    match enabled_at(keyset, place) {
        Some(i) => key_text(alloc, keyset.record_at(i)),
        None => Err(Status::NoKeyOf),
    }
}

/// The line of a record.
fn key_text(alloc: Global, key: &Record) -> Result<Bytes, Status>
    requires known { IsKnown key.now }
    ensures { (w : World) → Passes (works_out (key_line key.now)) w result w }
{
    let mut text = Vec::new(alloc);
    push_key(&mut text, key)?;
    Ok(Bytes::own(text))
}

/// The place in the keyset of the record at this place among the ENABLED ones.
fn enabled_at(keyset: &Keyset, place: usize) -> Option<usize>
    ensures there { MatchOption result (slice_get (filter is_enabled keyset.now.records) place ≡ None)
        (λ i. slice_get keyset.now.records i ≡ slice_get (filter is_enabled keyset.now.records) place) }
    ensures within { IfSome result (λ i. i < length keyset.now.records) }
{
    let mut left = place;
    for i in 0..keyset.len() {
        if keyset.record_at(i).status == ENABLED {
            if left == 0 {
                return Some(i);
            }
            left -= 1;
        }
    }
    None
}
