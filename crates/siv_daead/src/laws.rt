//! Laws of the definitions. Each is the contract of a function with no effect.

ghost use Rattle.siv_daead.specs.Laws.{SivOpensSealings, SivSealsBytes, SivSealsSixteenMore};

use mac_prf::laws::cmac_has_a_block;

/// Bytes open under a key and an associated datum to a plaintext if and only if they are what
/// sealing makes of it.
pub fn siv_opens_sealings()
    ensures { SivOpensSealings }
{}

/// What sealing makes has 16 bytes more than the plaintext.
pub fn siv_seals_sixteen_more()
    ensures { SivSealsSixteenMore }
{}

/// What sealing makes consists of bytes below 256 if key and plaintext do.
pub fn siv_seals_bytes()
    ensures { SivSealsBytes }
{
    cmac_has_a_block();
}
