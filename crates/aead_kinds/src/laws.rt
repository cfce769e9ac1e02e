//! Laws of the definitions. Each is the contract of a function with no effect.

ghost use Rattle.aead_kinds.specs.Laws.{CtrHmacOpensSealings, CtrHmacSealsBytes, EaxOpensSealings, EaxSealsBytes, GcmOpensSealings, GcmSealsBytes, OpensSealings};
ghost use Rattle.aead_kinds.specs.GcmSivLaws.{GcmSivOpensSealings, GcmSivSealsBytes};
ghost use Rattle.aead_kinds.specs.Polyval.{InverseOfX128, PolyvalIsDot};

use mac_prf::laws::cmac_has_a_block;

/// Bytes open under a key of any kind and associated data to a plaintext if and only if they are
/// what sealing makes of it, with the IV at their front. For AES-CTR-HMAC the tag has at least a
/// byte and at most as many as a digest.
pub fn opens_sealings()
    ensures { OpensSealings }
{}

/// The same for AES-GCM alone, whose IV has 12 bytes.
pub fn gcm_opens_sealings()
    ensures { GcmOpensSealings }
{}

/// What sealing makes has 16 bytes more than IV and plaintext, each below 256 if those are.
pub fn gcm_seals_bytes()
    ensures { GcmSealsBytes }
{}

/// The same for EAX, whose IV has the size that the key gives.
pub fn eax_opens_sealings()
    ensures { EaxOpensSealings }
{}

/// What EAX seals has 16 bytes more than IV and plaintext, each below 256 if those are.
pub fn eax_seals_bytes()
    ensures { EaxSealsBytes }
{
    cmac_has_a_block();
}

/// The same for AES-CTR-HMAC, whose tag has at least one byte and at most as many as a digest.
pub fn ctr_hmac_opens_sealings()
    ensures { CtrHmacOpensSealings }
{}

/// What AES-CTR-HMAC seals is IV and plaintext longer by its tag's size, with bytes below 256 if
/// theirs are.
pub fn ctr_hmac_seals_bytes()
    ensures { CtrHmacSealsBytes }
{}

/// AES-GCM-SIV: bytes open under a key and associated data to a plaintext if and only if they are
/// what sealing makes of it, with the IV of 12 bytes at their front.
pub fn gcm_siv_opens_sealings()
    ensures { GcmSivOpensSealings }
{}

/// What AES-GCM-SIV seals has 16 bytes more than IV and plaintext, each below 256 if those are.
pub fn gcm_siv_seals_bytes()
    ensures { GcmSivSealsBytes }
{}

/// POLYVAL by GHASH (RFC 8452, appendix A) is POLYVAL as section 3 defines it: the sum by `dot` in
/// the field of x^128 + x^127 + x^126 + x^121 + 1.
pub fn polyval_is_dot()
    ensures { PolyvalIsDot }
{}

/// The x^-128 by which `dot` multiplies is the inverse of x^128.
pub fn dot_has_the_inverse()
    ensures { InverseOfX128 }
{}
