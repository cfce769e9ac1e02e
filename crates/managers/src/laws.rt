//! Laws of the definitions. Each is the contract of a function with no effect.

ghost use Rattle.managers.specs.Laws.{DopensSealings, OpensSealings, ReadingIsAdmitted, SealingsOpen};

use aead_kinds::laws::{
    ctr_hmac_opens_sealings, eax_opens_sealings, gcm_opens_sealings, gcm_siv_opens_sealings,
};
use siv_daead::laws::siv_opens_sealings;

/// A key that a message reads as under a scheme is a valid key of that scheme.
pub fn reading_is_admitted()
    ensures { ReadingIsAdmitted }
{}

/// Bytes open under a valid key of an AEAD and associated data to a plaintext if and only if they
/// are what sealing makes of it, with the IV at their front.
pub fn opens_sealings()
    ensures { OpensSealings }
{
    gcm_opens_sealings();
    eax_opens_sealings();
    ctr_hmac_opens_sealings();
    gcm_siv_opens_sealings();
}

/// What is sealed under a valid key of an AEAD, with an IV of the key's size, opens under that key
/// and the same associated data to the plaintext.
pub fn sealings_open()
    ensures { SealingsOpen }
{
    opens_sealings();
}

/// Bytes open under a valid key of a deterministic AEAD and associated data to a plaintext if and
/// only if they are what sealing makes of it.
pub fn dopens_sealings()
    ensures { DopensSealings }
{
    siv_opens_sealings();
}
