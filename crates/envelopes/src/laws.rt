//! Laws of the definitions. Each is the contract of a function with no effect.

ghost use Rattle.envelopes.specs.EnvelopeLaws.{DataKeysAreServed, DataKeysAreValid, EnvelopeBack, EnvelopeResealed, EnvelopesFit, ResealedFit};

use key_msgs::laws::{key_back, made_is_valid};
use managers::laws::{reading_is_admitted, sealings_open};
use wrapped_prims::laws::same_key_opens;

/// What was sealed in an envelope under a keyset whose primary key isn't RAW opens to the
/// plaintext, with the same AEAD scheme and associated data, under every keyset in which that key
/// is ENABLED and alone under its output prefix. The data key is made from an AEAD template of the
/// table.
pub fn envelope_back()
    ensures { EnvelopeBack }
{
    same_key_opens();
    sealings_open();
    reading_is_admitted();
}

/// What was sealed in an envelope, and resealed any number of times, opens to the plaintext, with
/// the scheme and the associated data with which it was sealed, under every keyset in which the
/// primary key of the last resealing is ENABLED and alone under its output prefix, whatever became
/// of the keys before it. Each resealing was under a keyset in which the same held for the key of
/// the envelope before it; none of these keys is RAW. The data key is made from an AEAD template of
/// the table. The last envelope has at most 251 bytes more than the plaintext.
pub fn envelope_resealed()
    ensures { EnvelopeResealed }
{
    same_key_opens();
    sealings_open();
    reading_is_admitted();
}

/// Resealing makes an envelope at most 85 bytes longer, whoever made it.
pub fn resealed_fit()
    ensures { ResealedFit }
{}

/// An envelope has at most 251 bytes more than the plaintext, whatever its keys and the random
/// bytes, if the data key is made from an AEAD template of the table.
pub fn envelopes_fit()
    ensures { EnvelopesFit }
{
    reading_is_admitted();
}

/// Under the standard managers each AEAD template of the table has a manager, and each key that it
/// makes is valid for that manager's scheme: no data key is refused.
pub fn standard_data_keys()
    ensures served { DataKeysAreServed }
    ensures valid { DataKeysAreValid }
{
    made_is_valid();
    key_back();
}
