//! Laws of the definitions. Each is the contract of a function with no effect.

ghost use Rattle.seal_wrap.specs.Laws.{TextHidesKeys, WrapBack, WrapBackBytes};
ghost use Rattle.seal_wrap.specs.Sealings.{DsealingsFit, SealingsAreBytes, SealingsFit};

use aead_kinds::laws::{
    ctr_hmac_seals_bytes, eax_seals_bytes, gcm_seals_bytes, gcm_siv_seals_bytes,
};
use keyset_model::laws::binary_back;
use wrapped_prims::laws::same_key_opens;

/// What was wrapped under a master whose primary key isn't RAW unwraps, in the form in which it was
/// written, to the keyset under every master in which that key is ENABLED and alone under its
/// output prefix.
pub fn wrap_back()
    ensures { WrapBack }
{
    binary_back();
    same_key_opens();
}

/// The same if the key messages of the master, the keyset's binary form and the random bytes are
/// bytes: nothing is required of the sealed bytes.
pub fn wrap_back_bytes()
    ensures { WrapBackBytes }
{
    wrap_back();
    sealings_are_bytes();
}

/// What a keyset seals has at most 85 bytes more than the plaintext, whatever its key and the
/// random bytes, and at most 21 if it is sealed without an IV.
pub fn sealings_fit()
    ensures sealed { SealingsFit }
    ensures dsealed { DsealingsFit }
{}

/// Sealing bytes gives bytes if the key messages of the keyset and the random bytes are bytes.
pub fn sealings_are_bytes()
    ensures { SealingsAreBytes }
{
    gcm_seals_bytes();
    eax_seals_bytes();
    ctr_hmac_seals_bytes();
    gcm_siv_seals_bytes();
}

/// A wrapped text depends only on the sealed bytes and the info, and the info holds no key message.
pub fn text_hides_keys()
    ensures { TextHidesKeys }
{}
