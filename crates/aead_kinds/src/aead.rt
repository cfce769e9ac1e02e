//! Sealing and opening under a key of any kind.

ghost use Rattle.std.specs.Prelude.{◌≡◌, ◌↔◌, ◌+◌, ◌^◌, ◌≤◌, ℕ, List, length, IsTrue};
ghost use Rattle.tink_base.specs.declared.hash.Hash.{Hash};
ghost use Rattle.tink_spec.specs.InPlace.{OpensTo};
ghost use Rattle.aead_kinds.specs.Aead.{IsFit, IsUnder, iv_size_of, open_key, seal_of, tag_size_of};
ghost use Rattle.aead_kinds.specs.EncryptThenTag.{text_of};
ghost use Rattle.aead_kinds.specs.Gcm as gcm;
ghost use Rattle.aead_kinds.specs.Gcm.{gcm_open, gcm_seal};

use crate::gcm::GcmKey;
use crate::scheme::Scheme;
use aes_core::Aes;
use mac_prf::Hmac;
use std::ops::Range;

/// The bytes of an IV of AES-GCM.
const GCM_IV: usize = 12;

/// The bytes of its tag.
const TAG: usize = 16;

/// A key of some kind of AEAD, prepared for all its work: the AES key is expanded, the hash subkey
/// of AES-GCM is made, and a key of HMAC is in an `Hmac` that holds no message.
#[derive(Clone, Copy)]
pub enum AeadKey<'k> {
    /// AES-GCM (SP 800-38D) with an IV of 12 bytes and a tag of 16.
    Gcm {
        key: &'k GcmKey,
    },
    /// EAX (Bellare, Rogaway and Wagner) with a tag of 16 bytes.
    Eax {
        key: &'k Aes,
        iv_size: usize,
    },
    /// AES-CTR-HMAC by Tink's wire format: counter mode under `aes`, and the first bytes of HMAC
    /// by `mac`.
    CtrHmac {
        aes: &'k Aes,
        iv_size: usize,
        mac: &'k Hmac,
        tag_size: usize,
    },
}

impl AeadKey<'_> {
    /// Whether the key's sizes fit its kind: an IV of EAX has 12 or 16 bytes, an IV of AES-CTR-HMAC
    /// 12 to 16, and its tag 10 up to a digest's size. The length of its HMAC key can't be checked
    /// here.
    pub fn fits(&self) -> bool
        ensures { IsTrue result ↔ IsFit self.now }
    {
        match self {
            AeadKey::Gcm { .. } => true,
            AeadKey::Eax { iv_size, .. } => *iv_size == 12 || *iv_size == 16,
            AeadKey::CtrHmac {
                iv_size,
                mac,
                tag_size,
                ..
            } => {
                12 <= *iv_size && *iv_size <= 16 && 10 <= *tag_size && *tag_size <= mac.tag_size()
            }
        }
    }

    /// How many bytes an IV has: 12 for AES-GCM, otherwise as many as the key says.
    pub fn iv_size(&self) -> usize
        ensures { result ≡ iv_size_of self.now }
    {
        match self {
            AeadKey::Gcm { .. } => GCM_IV,
            AeadKey::Eax { iv_size, .. } | AeadKey::CtrHmac { iv_size, .. } => *iv_size,
        }
    }
}

/// Seals in place: writes the IV into its room, the ciphertext over the plaintext, and the tag after
/// it.
///
/// `sealed` is room for the IV, the plaintext, and room for the tag; the values in the two rooms
/// don't matter. The plaintext has at most 2^30 bytes, as many as its ciphertext, and so has `ad`.
/// No IV may be used twice under one key: the caller must ensure that. No memory is taken.
#[tactic(auto, unfolding(crate::specs::Eax::eax_seal, crate::specs::CtrHmac::ctr_hmac_seal))]
pub fn seal(key: &AeadKey<'_>, sealed: &mut [u8], iv: &[u8], ad: &[u8])
    requires fits { IsFit key.now }
    requires iv_size { length iv.now ≡ iv_size_of key.now }
    requires room { iv_size_of key.now + tag_size_of key.now ≤ length sealed.old }
    requires plain_bound { length sealed.old ≤ iv_size_of key.now + 2 ^ 30 + tag_size_of key.now }
    requires ad_bound { length ad.now ≤ 2 ^ 30 }
    ensures { (hash : Hash) (mac : List ℕ) → IsUnder key.now hash mac
        → sealed.new ≡ seal_of key.now hash mac iv.now
        (text_of (iv_size_of key.now) (tag_size_of key.now) sealed.old) ad.now }
{
    match key {
        AeadKey::Gcm { key } => gcm_sealed(key, sealed, iv, ad),
        AeadKey::Eax { key, .. } => Scheme::Eax { key }.seal(sealed, iv, ad),
        AeadKey::CtrHmac {
            aes,
            mac,
            tag_size,
            ..
        } => {
            let tag_size = *tag_size;
            Scheme::CtrHmac { aes, mac, tag_size }.seal(sealed, iv, ad)
        }
    }
}

/// Opens IV, ciphertext and tag, joined, in place, and returns the plaintext's range in `bytes`;
/// the bytes around it are unchanged.
///
/// `bytes` have at most 2^30 + 96, and `ad` at most 2^30. Returns `None` if and only if `bytes` are
/// shorter than IV and tag, or the tag isn't the computed one; then nothing was decrypted. No
/// memory is taken.
#[tactic(auto, unfolding(crate::specs::Eax::eax_open, crate::specs::CtrHmac::ctr_hmac_open))]
pub fn open(key: &AeadKey<'_>, bytes: &mut [u8], ad: &[u8]) -> Option<Range<usize>>
    requires fits { IsFit key.now }
    requires bytes_bound { length bytes.old ≤ 2 ^ 30 + 96 }
    requires ad_bound { length ad.now ≤ 2 ^ 30 }
    ensures { (hash : Hash) (mac : List ℕ) → IsUnder key.now hash mac
        → OpensTo (open_key key.now hash mac bytes.old ad.now) bytes.old bytes.new result }
{
    match key {
        AeadKey::Gcm { key } => gcm_opened(key, bytes, ad),
        AeadKey::Eax { key, iv_size } => Scheme::Eax { key }.open(*iv_size, bytes, ad),
        AeadKey::CtrHmac {
            aes,
            iv_size,
            mac,
            tag_size,
        } => {
            let tag_size = *tag_size;
            Scheme::CtrHmac { aes, mac, tag_size }.open(*iv_size, bytes, ad)
        }
    }
}

fn gcm_sealed(key: &GcmKey, sealed: &mut [u8], iv: &[u8], ad: &[u8])
    requires iv_size { length iv.now ≡ 12 }
    requires room { 28 ≤ length sealed.old }
    requires plain_bound { length sealed.old ≤ 2 ^ 30 + 28 }
    requires ad_bound { length ad.now ≤ 2 ^ 30 }
    ensures { sealed.new ≡ gcm_seal key.now iv.now (gcm.text_of sealed.old) ad.now }
{
    match iv.first_chunk::<GCM_IV>() {
        Some(iv) => gcm_sealed_under(key, sealed, iv, ad),
        None => unreachable!(),
    }
}

// Writes the IV into its room, encrypts in place what follows, and writes the tag.
fn gcm_sealed_under(key: &GcmKey, sealed: &mut [u8], iv: &[u8; 12], ad: &[u8])
    requires room { 28 ≤ length sealed.old }
    requires plain_bound { length sealed.old ≤ 2 ^ 30 + 28 }
    requires ad_bound { length ad.now ≤ 2 ^ 30 }
    ensures { sealed.new ≡ gcm_seal key.now iv.now (gcm.text_of sealed.old) ad.now }
{
    let end = sealed.len() - TAG - GCM_IV;
    let (room, rest) = sealed.split_at_mut(GCM_IV);
    room.copy_from_slice(iv);
    let (body, tag) = rest.split_at_mut(end);
    tag.copy_from_slice(&key.seal_in_place(iv, ad, body));
}

// Opens in place, and returns the plaintext's range.
fn gcm_opened(key: &GcmKey, bytes: &mut [u8], ad: &[u8]) -> Option<Range<usize>>
    requires bytes_bound { length bytes.old ≤ 2 ^ 30 + 96 }
    requires ad_bound { length ad.now ≤ 2 ^ 30 }
    ensures { OpensTo (gcm_open key.now bytes.old ad.now) bytes.old bytes.new result }
{
    let (iv, rest) = bytes.split_first_chunk::<GCM_IV>()?;
    let (_, tag) = rest.split_last_chunk::<TAG>()?;
    let (iv, tag) = (*iv, *tag);
    let end = bytes.len() - TAG;
    if key.open_in_place(&iv, ad, &mut bytes[GCM_IV..end], &tag) {
        Some(GCM_IV..end)
    } else {
        None
    }
}
