//! Laws of the definitions. Each is the contract of a function with no effect.

ghost use Rattle.wrapped_prims.specs.Laws.{EnabledKeyDopens, EnabledKeyOpens, IndexFinds, PlacesGive, SameKeyDopens, SameKeyOpens, SameKeyVerifies, SoleFirst};

use managers::laws::{dopens_sealings, sealings_open};

/// If exactly one ENABLED record has the output prefix with which some bytes begin, that record is
/// their first candidate.
pub fn sole_first()
    ensures { SoleFirst }
{}

/// The records at the places of a prefix, or of no prefix, are the ENABLED records with it, in
/// order.
pub fn places_give()
    ensures { PlacesGive }
{}

/// A lookup in the prefix index of a keyset gives the places with the prefix, whatever bytes are
/// looked up.
pub fn index_finds()
    ensures { IndexFinds }
{}

/// What a keyset sealed opens, with the same associated data, to the plaintext under every keyset
/// in which the same key is ENABLED and alone under its output prefix. The key isn't RAW.
pub fn same_key_opens()
    ensures { SameKeyOpens }
{
    sealings_open();
}

/// The same for sealing without an IV.
pub fn same_key_dopens()
    ensures { SameKeyDopens }
{
    dopens_sealings();
}

/// What a keyset sealed opens to some plaintext under every keyset that has the same key, ENABLED,
/// whatever its prefix type. Which plaintext isn't stated, since another key may open the bytes by
/// chance.
pub fn enabled_key_opens()
    ensures { EnabledKeyOpens }
{
    sealings_open();
}

/// The same for sealing without an IV.
pub fn enabled_key_dopens()
    ensures { EnabledKeyDopens }
{
    dopens_sealings();
}

/// A tag that a keyset made verifies under every keyset that has the same key, ENABLED.
pub fn same_key_verifies()
    ensures { SameKeyVerifies }
{}
