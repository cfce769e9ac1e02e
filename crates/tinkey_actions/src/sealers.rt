//! The key under which bytes that no key opens were sealed, by the output prefix at their front.

ghost use Rattle.std.specs.Prelude.{◌≡◌, Some, find, option_map, take};
ghost use Rattle.tinkey_plans.specs.Sealers.{envelope_sealer_of, sealer_of, sealer_under, stands_under, told_none, told_or, told_record};
ghost use Rattle.wrapped_prims.specs.Candidates.{is_enabled_with};

use crate::key_of::{behind_length, raw_count, stands_under};
use keyset_model::{Keyset, Record};
use tink_base::{DESTROYED, ENABLED};
use tinkey_plans::Sealer;

/// What is reported of sealed bytes, by the first five.
pub(crate) fn sealer_of(keyset: &Keyset, bytes: &[u8]) -> Sealer
    ensures { result ≡ sealer_of keyset.now bytes.now }
{
    sealer_under(keyset, front(bytes))
}

/// What is reported of an envelope, by the first five bytes of its sealed data key.
pub(crate) fn envelope_sealer_of(keyset: &Keyset, bytes: &[u8]) -> Sealer
    ensures { result ≡ envelope_sealer_of keyset.now bytes.now }
{
    sealer_of(keyset, behind_length(bytes))
}

/// What is reported of bytes with this front: the first ENABLED record with this output prefix,
/// otherwise the first of any status.
pub(crate) fn sealer_under(keyset: &Keyset, front: &[u8]) -> Sealer
    ensures { result ≡ sealer_under keyset.now front.now }
{
    match first_enabled(keyset, front) {
        Some(sealer) => sealer,
        None => of_any_status(keyset, front),
    }
}

/// The same if no ENABLED record has this output prefix.
fn of_any_status(keyset: &Keyset, front: &[u8]) -> Sealer
    ensures { result ≡ told_or (find (stands_under front.now) keyset.now.records)
        (told_none keyset.now) }
{
    match first_named(keyset, front) {
        Some(sealer) => sealer,
        None => told_none(keyset),
    }
}

/// The first five bytes, or all if there are fewer.
fn front(bytes: &[u8]) -> &[u8]
    ensures { result.now ≡ take 5 bytes.now }
{
    if bytes.len() < 5 { bytes } else { &bytes[..5] }
}

/// The first ENABLED record with this output prefix.
fn first_enabled(keyset: &Keyset, front: &[u8]) -> Option<Sealer>
    ensures { result ≡ option_map told_record
        (find (is_enabled_with (Some front.now)) keyset.now.records) }
{
    for i in 0..keyset.len() {
        let key = keyset.record_at(i);
        if is_enabled_under(key, front) {
            return Some(told_record(key));
        }
    }
    None
}

/// The first record with this output prefix, of any status.
fn first_named(keyset: &Keyset, front: &[u8]) -> Option<Sealer>
    ensures { result ≡ option_map told_record (find (stands_under front.now) keyset.now.records) }
{
    for i in 0..keyset.len() {
        let key = keyset.record_at(i);
        if stands_under(key, front) {
            return Some(told_record(key));
        }
    }
    None
}

/// Whether the record is ENABLED and has this output prefix.
fn is_enabled_under(key: &Record, front: &[u8]) -> bool
    ensures { result ≡ is_enabled_with (Some front.now) key.now }
{
    key.status == ENABLED && stands_under(key, front)
}

/// A record, by its id and its status.
fn told_record(key: &Record) -> Sealer
    ensures { result ≡ told_record key.now }
{
    if key.status == ENABLED {
        Sealer::Enabled(key.id)
    } else if key.status == DESTROYED {
        Sealer::Destroyed(key.id)
    } else {
        Sealer::Disabled(key.id)
    }
}

/// Says that no record is named, and whether some have no output prefix.
fn told_none(keyset: &Keyset) -> Sealer
    ensures { result ≡ told_none keyset.now }
{
    if raw_count(keyset) > 0 {
        Sealer::Raw
    } else {
        Sealer::Unnamed
    }
}
