//! Opening in place and verifying with kept keys: first those of a prefix, then those without.

ghost use Rattle.std.specs.Prelude.{◌≡◌, ◌+◌, ◌^◌, ◌≤◌, drop, length, option_to_list, slice_get, take};
ghost use Rattle.std.specs.Option.{option_map};
ghost use Rattle.std.specs.Str.{bytes_eq};
ghost use Rattle.key_msgs.specs.declared.primitive.Primitive.TheVariants.{Mac};
ghost use Rattle.managers.specs.Table.{entries_of};
ghost use Rattle.managers.specs.Uses.{tag_of, tagged};
ghost use Rattle.wrapped_prims.specs.Answers.{opened_under};
ghost use Rattle.tink_spec.specs.InPlace.{OpensTo};
ghost use Rattle.tink_spec.specs.Outside.{next};
ghost use Rattle.wrapped_prims.specs.Held.{AreServed, IsServedBy, Opens, kept_at, kept_in, kept_raw, kept_under, open_kept, open_with, tag_tries_kept, tag_tries_with, tag_with, tries_kept, tries_with, verify_kept, verify_with};

use crate::held::{Held, Kept, cut_prefix};
use key_msgs::Primitive;
use managers::{AeadManager, DaeadManager, KeyTable, MacManager, Managers};
use std::ops::Range;
use tink_base::Trials;

// The key that is kept at this place.
fn kept_here(slots: &[Option<Kept>], place: usize) -> Option<&Kept>
    ensures here { option_map (λ kept. kept.now) result ≡ kept_in slots.now place }
{
    match slots.get(place) {
        Some(Some(kept)) => Some(kept),
        Some(None) | None => None,
    }
}

// One trial of a key.
fn try_key(
    managers: &Managers,
    primitive: Primitive,
    kept: &Kept,
    part: &mut [u8],
    ad: &[u8],
    trials: &mut Trials,
) -> Option<Range<usize>>
    requires opens { Opens primitive }
    requires served { IsServedBy
        (slice_get (entries_of (⟦<Managers as KeyTable>⟧.table managers.now) primitive)
        kept.now.place) kept.now.key }
    requires part_bound { length part.old ≤ 2 ^ 30 + 96 }
    requires ad_bound { length ad.now ≤ 2 ^ 30 }
    ensures opened { OpensTo (opened_under primitive part.old ad.now kept.now.key)
        part.old part.new result }
    ensures one { trials.new ≡ next trials.old }
{
    let at = kept.place;
    match primitive {
        Primitive::Aead => managers.aead_at(at).open(&kept.key, part, ad, trials),
        Primitive::Daead => managers.daead_at(at).open(&kept.key, part, ad, trials),
        Primitive::Mac | Primitive::Prf | Primitive::Stream => unreachable!(),
    }
}

// Tries the key that is kept at this place.
fn try_at(
    managers: &Managers,
    primitive: Primitive,
    slots: &[Option<Kept>],
    place: usize,
    part: &mut [u8],
    ad: &[u8],
    trials: &mut Trials,
) -> Option<Range<usize>>
    requires opens { Opens primitive }
    requires served { AreServed (⟦<Managers as KeyTable>⟧.table managers.now) primitive slots.now }
    requires part_bound { length part.old ≤ 2 ^ 30 + 96 }
    requires ad_bound { length ad.now ≤ 2 ^ 30 }
    ensures opened { OpensTo (open_with primitive part.old ad.now
        (option_to_list (kept_in slots.now place))) part.old part.new result }
    ensures tries { trials.new ≡ tries_with primitive part.old ad.now
        (option_to_list (kept_in slots.now place)) trials.old }
    ensures few { trials.new ≤ trials.old + length (option_to_list (kept_in slots.now place)) }
{
    match kept_here(slots, place) {
        Some(kept) => try_key(managers, primitive, kept, part, ad, trials),
        None => None,
    }
}

// Tries the keys kept at these places, in order.
fn try_places(
    managers: &Managers,
    primitive: Primitive,
    slots: &[Option<Kept>],
    places: &[usize],
    part: &mut [u8],
    ad: &[u8],
    trials: &mut Trials,
) -> Option<Range<usize>>
    requires opens { Opens primitive }
    requires served { AreServed (⟦<Managers as KeyTable>⟧.table managers.now) primitive slots.now }
    requires part_bound { length part.old ≤ 2 ^ 30 + 96 }
    requires ad_bound { length ad.now ≤ 2 ^ 30 }
    ensures opened { OpensTo (open_with primitive part.old ad.now (kept_at slots.now places.now))
        part.old part.new result }
    ensures tries { trials.new ≡ tries_with primitive part.old ad.now
        (kept_at slots.now places.now) trials.old }
    ensures few { trials.new ≤ trials.old + length (kept_at slots.now places.now) }
{
    for place in places {
        if let Some(range) = try_at(managers, primitive, slots, *place, part, ad, trials) {
            return Some(range);
        }
    }
    None
}

// Tries the keys with the prefix at the front of the bytes.
fn try_prefixed(
    managers: &Managers,
    primitive: Primitive,
    held: &Held,
    bytes: &mut [u8],
    ad: &[u8],
    trials: &mut Trials,
) -> Option<Range<usize>>
    requires opens { Opens primitive }
    requires served { AreServed (⟦<Managers as KeyTable>⟧.table managers.now) primitive
        held.now.slots.items }
    requires bytes_bound { length bytes.old ≤ 2 ^ 30 + 96 }
    requires ad_bound { length ad.now ≤ 2 ^ 30 }
    ensures opened { OpensTo (open_with primitive (drop 5 bytes.old) ad.now
        (kept_under (take 5 bytes.old) held.now)) bytes.old bytes.new result }
    ensures tries { trials.new ≡ tries_with primitive (drop 5 bytes.old) ad.now
        (kept_under (take 5 bytes.old) held.now) trials.old }
    ensures few { trials.new ≤ trials.old + length (kept_under (take 5 bytes.old) held.now) }
{
    let slots = held.slots.as_slice();
    let (prefix, _) = cut_prefix(bytes);
    let (at, places) = (prefix.len(), held.places(prefix));
    match try_places(
        managers,
        primitive,
        slots,
        places,
        &mut bytes[at..],
        ad,
        trials,
    ) {
        Some(range) => Some(at + range.start..at + range.end),
        None => None,
    }
}

/// Tries the keys with the prefix at the front of the bytes, then those without. Returns the
/// plaintext's range in the bytes.
pub(crate) fn try_all(
    managers: &Managers,
    primitive: Primitive,
    held: &Held,
    bytes: &mut [u8],
    ad: &[u8],
    trials: &mut Trials,
) -> Option<Range<usize>>
    requires opens { Opens primitive }
    requires served { AreServed (⟦<Managers as KeyTable>⟧.table managers.now) primitive
        held.now.slots.items }
    requires bytes_bound { length bytes.old ≤ 2 ^ 30 + 96 }
    requires ad_bound { length ad.now ≤ 2 ^ 30 }
    ensures opened { OpensTo (open_kept primitive held.now bytes.old ad.now)
        bytes.old bytes.new result }
    ensures tries { trials.new ≡ tries_kept primitive held.now bytes.old ad.now trials.old }
    ensures few { trials.new ≤ trials.old + length (kept_under (take 5 bytes.old) held.now)
        + length (kept_raw held.now) }
{
    if let Some(range) = try_prefixed(managers, primitive, held, bytes, ad, trials) {
        return Some(range);
    }
    let slots = held.slots.as_slice();
    let raw = held.raw.as_slice();
    try_places(managers, primitive, slots, raw, bytes, ad, trials)
}

// Whether `tag` is the tag of the body under the key kept at this place.
fn verify_at(
    managers: &Managers,
    slots: &[Option<Kept>],
    place: usize,
    tag: &[u8],
    body: &[u8],
    trials: &mut Trials,
) -> bool
    requires served { AreServed (⟦<Managers as KeyTable>⟧.table managers.now) Mac slots.now }
    requires body_bound { length body.now ≤ 2 ^ 30 }
    ensures verified { result
        ≡ verify_with tag.now body.now (option_to_list (kept_in slots.now place)) }
    ensures tries { trials.new ≡ tag_tries_with tag.now body.now
        (option_to_list (kept_in slots.now place)) trials.old }
    ensures few { trials.new ≤ trials.old + length (option_to_list (kept_in slots.now place)) }
{
    match kept_here(slots, place) {
        Some(kept) => verify_key(managers, kept, tag, body, trials),
        None => false,
    }
}

// One trial of a key.
fn verify_key(
    managers: &Managers,
    kept: &Kept,
    tag: &[u8],
    body: &[u8],
    trials: &mut Trials,
) -> bool
    requires served { IsServedBy
        (slice_get (⟦<Managers as KeyTable>⟧.table managers.now).mac kept.now.place) kept.now.key }
    requires body_bound { length body.now ≤ 2 ^ 30 }
    ensures verified { result ≡ bytes_eq tag.now (tag_with kept.now body.now) }
    ensures one { trials.new ≡ next trials.old }
{
    managers
        .mac_at(kept.place)
        .verify(&kept.key, tag, body, kept.is_legacy, trials)
}

// Tries the tag under the keys kept at these places, in order.
fn verify_places(
    managers: &Managers,
    slots: &[Option<Kept>],
    places: &[usize],
    tag: &[u8],
    body: &[u8],
    trials: &mut Trials,
) -> bool
    requires served { AreServed (⟦<Managers as KeyTable>⟧.table managers.now) Mac slots.now }
    requires body_bound { length body.now ≤ 2 ^ 30 }
    ensures verified { result ≡ verify_with tag.now body.now (kept_at slots.now places.now) }
    ensures tries { trials.new
        ≡ tag_tries_with tag.now body.now (kept_at slots.now places.now) trials.old }
    ensures few { trials.new ≤ trials.old + length (kept_at slots.now places.now) }
{
    for place in places {
        if verify_at(managers, slots, *place, tag, body, trials) {
            return true;
        }
    }
    false
}

/// Tries the tag under the keys with the prefix at its front, then under those without.
pub(crate) fn verify_all(
    managers: &Managers,
    held: &Held,
    tag: &[u8],
    body: &[u8],
    trials: &mut Trials,
) -> bool
    requires served { AreServed (⟦<Managers as KeyTable>⟧.table managers.now) Mac
        held.now.slots.items }
    requires body_bound { length body.now ≤ 2 ^ 30 }
    ensures verified { result ≡ verify_kept held.now tag.now body.now }
    ensures tries { trials.new ≡ tag_tries_kept held.now tag.now body.now trials.old }
    ensures few { trials.new ≤ trials.old + length (kept_under (take 5 tag.now) held.now)
        + length (kept_raw held.now) }
{
    let slots = held.slots.as_slice();
    let raw = held.raw.as_slice();
    let (prefix, rest) = cut_prefix(tag);
    let places = held.places(prefix);
    if verify_places(managers, slots, places, rest, body, trials) {
        return true;
    }
    verify_places(managers, slots, raw, tag, body, trials)
}
