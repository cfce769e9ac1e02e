//! The first fault of records, by one search for each fault.

ghost use Rattle.std.specs.Prelude.{◌≡◌, position};
ghost use Rattle.std.specs.List.{list_any};
ghost use Rattle.keyset_model.specs.Keyset.{fault_of, first_without, has_id, is_in, is_primary, has_status, has_prefix, has_material, has_key_data, first_two};

use crate::{KeysetRefusal, Record};
use tink_base::{CRUNCHY, DESTROYED, ENABLED, TINK};

/// The most records that a keyset may have.
const MOST_RECORDS: usize = 1000;

/// The greatest number of a key material type with a name (tink.proto, KeyMaterialType).
const REMOTE: u32 = 4;

/// The first fault of these records with this primary id.
pub(crate) fn fault_of(primary: u32, records: &[Record]) -> Option<KeysetRefusal>
    ensures { result ≡ fault_of (record { primary = primary; records = records.now }) }
{
    if records.is_empty() {
        return Some(KeysetRefusal::Empty);
    }
    if records.len() > MOST_RECORDS {
        return Some(KeysetRefusal::TooMany);
    }
    if let Some(i) = place_without_status(records) {
        return Some(KeysetRefusal::UnknownStatus(i));
    }
    if let Some(i) = place_without_prefix(records) {
        return Some(KeysetRefusal::UnknownPrefix(i));
    }
    if let Some(i) = place_without_material(records) {
        return Some(KeysetRefusal::UnknownMaterial(i));
    }
    if let Some(i) = place_without_key_data(records) {
        return Some(KeysetRefusal::MissingKeyData(i));
    }
    if !has_any(records, primary) {
        return Some(KeysetRefusal::NoPrimary);
    }
    if !has_primary(records, primary) {
        return Some(KeysetRefusal::PrimaryNotEnabled);
    }
    if let Some((i, j)) = first_two_primaries(records, primary) {
        return Some(KeysetRefusal::AmbiguousPrimary(i, j));
    }
    None
}

/// The place of the first ENABLED record with the primary id.
pub(crate) fn primary_place(records: &[Record], primary: u32) -> Option<usize>
    ensures { result ≡ position (is_primary primary) records.now }
{
    records
        .iter()
        .position(|key| key.id == primary && key.status == ENABLED)
}

/// Whether a record has this id.
fn has_any(records: &[Record], id: u32) -> bool
    ensures { result ≡ is_in records.now id }
{
    records.iter().any(|key| key.id == id)
}

/// Whether an ENABLED record has the primary id.
fn has_primary(records: &[Record], primary: u32) -> bool
    ensures { result ≡ list_any (is_primary primary) records.now }
{
    records
        .iter()
        .any(|key| key.id == primary && key.status == ENABLED)
}

/// The place of the first record whose status has no name.
#[tactic(auto, unfolding(crate::specs::Keyset::first_without))]
fn place_without_status(records: &[Record]) -> Option<usize>
    ensures { result ≡ first_without has_status records.now }
{
    records.iter().position(|key| !has_status(key))
}

/// The place of the first record whose output prefix type has no name.
#[tactic(auto, unfolding(crate::specs::Keyset::first_without))]
fn place_without_prefix(records: &[Record]) -> Option<usize>
    ensures { result ≡ first_without has_prefix records.now }
{
    records.iter().position(|key| !has_prefix(key))
}

/// The place of the first record whose key material type isn't one that its status allows.
#[tactic(auto, unfolding(crate::specs::Keyset::first_without))]
fn place_without_material(records: &[Record]) -> Option<usize>
    ensures { result ≡ first_without has_material records.now }
{
    records.iter().position(|key| !has_material(key))
}

/// The place of the first record that must have key data and has none.
#[tactic(auto, unfolding(crate::specs::Keyset::first_without))]
fn place_without_key_data(records: &[Record]) -> Option<usize>
    ensures { result ≡ first_without has_key_data records.now }
{
    records.iter().position(|key| !has_key_data(key))
}

/// Whether the status has a name.
fn has_status(key: &Record) -> bool
    ensures { result ≡ has_status key.now }
{
    (ENABLED..=DESTROYED).contains(&key.status)
}

/// Whether the output prefix type has a name.
fn has_prefix(key: &Record) -> bool
    ensures { result ≡ has_prefix key.now }
{
    (TINK..=CRUNCHY).contains(&key.prefix)
}

/// Whether the key material type has a number that this record may have.
fn has_material(key: &Record) -> bool
    ensures { result ≡ has_material key.now }
{
    key.material <= REMOTE && (key.material >= 1 || key.status == DESTROYED)
}

/// Whether there is a URL, or the record is DESTROYED.
fn has_key_data(key: &Record) -> bool
    ensures { result ≡ has_key_data key.now }
{
    !key.url.as_str().is_empty() || key.status == DESTROYED
}

/// The places of the first two ENABLED records with the primary id.
#[tactic(auto, unfolding(crate::specs::Keyset::first_two))]
fn first_two_primaries(records: &[Record], primary: u32) -> Option<(usize, usize)>
    ensures { result ≡ first_two (is_primary primary) records.now }
{
    let i = primary_place(records, primary)?;
    let k = primary_place(&records[i + 1..], primary)?;
    Some((i, i + 1 + k))
}
