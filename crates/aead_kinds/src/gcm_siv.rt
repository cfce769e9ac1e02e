//! AES-GCM-SIV (RFC 8452), with an IV of 12 bytes, which the RFC calls the nonce, and a tag of 16.
//!
//! No branch and no memory address depends on the key or on a byte of text, associated data or tag,
//! except for the result of the tag's comparison: the bodies are written so, but no clause says it.

ghost use Rattle.std.specs.Prelude.{◌≡◌, ◌⊎◌, ◌↔◌, ◌+◌, ◌^◌, ◌≤◌, ◌<◌, ◌*◌, ◌++◌, length, take, IsTrue};
ghost use Rattle.std.specs.Bool.{OnFalse, OnTrue};
ghost use Rattle.std.specs.Int.{w64, to_le_bytes};
ghost use Rattle.tink_spec.specs.InPlace.{OpensTo};
ghost use Rattle.aes_core.specs.Counter.{ctr};
ghost use Rattle.aes_core.specs.declared.counter.CtrKind.TheVariants.{First32};
ghost use Rattle.aead_kinds.specs.GcmSiv.{derived_half, encryption_key, first_counter, gcm_siv_open, gcm_siv_seal, gcm_siv_tag, gcm_siv_text, hashed, text_of};

use crate::polyval::{absorb, hash_under};
use aes_core::blocks::{same_bytes, xor};
use aes_core::{Aes, CtrKind};
use std::ops::Range;

/// The bytes of an IV.
const IV: usize = 12;

/// The bytes of a tag.
const TAG: usize = 16;

/// Seals in place (RFC 8452, 4): writes the IV into its room, the ciphertext over the plaintext, and
/// the tag after it.
///
/// `sealed` is room for the IV, the plaintext, and room for the tag of 16 bytes; the values in the
/// two rooms don't matter. The plaintext has at most 2^30 bytes, as many as its ciphertext, and so
/// has `ad`. An IV used twice under one key reveals only whether plaintext and associated data were
/// the same; still, each message should have its own. No memory is taken.
pub fn gcm_siv_seal(key: &Aes, sealed: &mut [u8], iv: &[u8; 12], ad: &[u8])
    requires room { 28 ≤ length sealed.old }
    requires plain_bound { length sealed.old ≤ 2 ^ 30 + 28 }
    requires ad_bound { length ad.now ≤ 2 ^ 30 }
    ensures { sealed.new ≡ gcm_siv_seal key.now iv.now (text_of sealed.old) ad.now }
{
    let end = sealed.len() - TAG - IV;
    let (room, rest) = sealed.split_at_mut(IV);
    room.copy_from_slice(iv);
    let (body, tag) = rest.split_at_mut(end);
    tag.copy_from_slice(&seal_in_place(key, iv, ad, body));
}

/// Opens IV, ciphertext and tag, joined, in place (RFC 8452, 5), and returns the plaintext's range
/// in `bytes`; the bytes around it are unchanged.
///
/// `bytes` have at most 2^30 + 96, and `ad` at most 2^30. Returns `None` if and only if `bytes` are
/// shorter than IV and tag, or the tag isn't the one of the plaintext. All bytes of the two are
/// compared. On `None` `bytes` are unchanged. No memory is taken.
pub fn gcm_siv_open(key: &Aes, bytes: &mut [u8], ad: &[u8]) -> Option<Range<usize>>
    requires bytes_bound { length bytes.old ≤ 2 ^ 30 + 96 }
    requires ad_bound { length ad.now ≤ 2 ^ 30 }
    ensures { OpensTo (gcm_siv_open key.now bytes.old ad.now) bytes.old bytes.new result }
{
    let (iv, rest) = bytes.split_first_chunk::<IV>()?;
    let (_, tag) = rest.split_last_chunk::<TAG>()?;
    let (iv, tag) = (*iv, *tag);
    let end = bytes.len() - TAG;
    if open_in_place(key, &iv, ad, &mut bytes[IV..end], &tag) {
        Some(IV..end)
    } else {
        None
    }
}

// Encrypts in place, and returns the tag (4).
fn seal_in_place(key: &Aes, iv: &[u8; 12], ad: &[u8], body: &mut [u8]) -> [u8; 16]
    requires ad_bound { length ad.now ≤ 2 ^ 30 }
    requires body_bound { length body.old ≤ 2 ^ 31 }
    ensures text { body.new ≡ gcm_siv_text key.now iv.now result body.old }
    ensures tag { result ≡ gcm_siv_tag key.now iv.now ad.now body.old }
{
    let encryption = encryption_aes(key, iv);
    let tag = tag_of(key, &encryption, iv, ad, body);
    crypt(&encryption, &tag, body);
    tag
}

// Decrypts in place, and checks the tag of the plaintext (5). If it differs, what was decrypted is
// encrypted again.
fn open_in_place(key: &Aes, iv: &[u8; 12], ad: &[u8], body: &mut [u8], tag: &[u8; 16]) -> bool
    requires ad_bound { length ad.now ≤ 2 ^ 30 }
    requires body_bound { length body.old ≤ 2 ^ 31 }
    ensures authentic { IsTrue result ↔ (tag.now
        ≡ gcm_siv_tag key.now iv.now ad.now (gcm_siv_text key.now iv.now tag.now body.old)) }
    ensures opened { OnTrue result (body.new ≡ gcm_siv_text key.now iv.now tag.now body.old) }
    ensures kept { OnFalse result (body.new ≡ body.old) }
{
    let encryption = encryption_aes(key, iv);
    crypt(&encryption, tag, body);
    let same = same_bytes(tag, &tag_of(key, &encryption, iv, ad, body));
    if !same {
        crypt(&encryption, tag, body);
    }
    same
}

// The expansion of a key that fits.
fn expanded(key: &[u8]) -> Aes
    requires { (length key.now ≡ 16) ⊎ (length key.now ≡ 32) }
    ensures { result ≡ key.now }
{
    match Aes::new(key) {
        Ok(aes) => aes,
        Err(_) => unreachable!(),
    }
}

// The first 8 bytes of AES of a number and the IV (4).
fn derived_half(main: &Aes, iv: &[u8; 12], number: u8) -> [u8; 8]
    ensures { result ≡ derived_half main.now iv.now number }
{
    let mut block = [0; 16];
    block[0] = number;
    block[4..].copy_from_slice(iv);
    let mut half = [0; 8];
    half.copy_from_slice(&main.encrypt_block(&block)[..8]);
    half
}

// The halves of this number and of the next, joined (4).
fn derived_pair(main: &Aes, iv: &[u8; 12], number: u8) -> [u8; 16]
    requires { number < 255 }
    ensures { result ≡ derived_half main.now iv.now number ++ derived_half main.now iv.now (number + 1) }
{
    let mut pair = [0; 16];
    pair[..8].copy_from_slice(&derived_half(main, iv, number));
    pair[8..].copy_from_slice(&derived_half(main, iv, number + 1));
    pair
}

// Two blocks, joined.
fn joined(front: &[u8; 16], back: &[u8; 16]) -> [u8; 32]
    ensures { result ≡ front.now ++ back.now }
{
    let mut both = [0; 32];
    both[..16].copy_from_slice(front);
    both[16..].copy_from_slice(back);
    both
}

// The key for the text and the tag, expanded: it is as long as the main one (4).
fn encryption_aes(main: &Aes, iv: &[u8; 12]) -> Aes
    ensures { result ≡ encryption_key main.now iv.now }
{
    let first = derived_pair(main, iv, 2);
    if main.key_size() == 32 {
        expanded(&joined(&first, &derived_pair(main, iv, 4)))
    } else {
        expanded(&first)
    }
}

// The tag of associated data and plaintext (4).
fn tag_of(main: &Aes, encryption: &Aes, iv: &[u8; 12], ad: &[u8], plain: &[u8]) -> [u8; 16]
    requires encryption { encryption.now ≡ encryption_key main.now iv.now }
    requires ad_bound { length ad.now ≤ 2 ^ 30 }
    requires plain_bound { length plain.now ≤ 2 ^ 31 }
    ensures { result ≡ gcm_siv_tag main.now iv.now ad.now plain.now }
{
    let mut nonce = [0; 16];
    nonce[..IV].copy_from_slice(iv);
    let mut block = xor(&hashed(main, iv, ad, plain), &nonce);
    block[15] &= 0x7f;
    encryption.encrypt_block(&block)
}

// POLYVAL of associated data, plaintext and their lengths, under the key for it (4).
fn hashed(main: &Aes, iv: &[u8; 12], ad: &[u8], plain: &[u8]) -> [u8; 16]
    requires ad_bound { length ad.now ≤ 2 ^ 30 }
    requires plain_bound { length plain.now ≤ 2 ^ 31 }
    ensures { result ≡ hashed main.now iv.now ad.now plain.now }
{
    let mut hash = hash_under(&derived_pair(main, iv, 0));
    absorb(&mut hash, ad);
    absorb(&mut hash, plain);
    absorb(&mut hash, &length_block(ad.len(), plain.len()));
    hash.finish().to_le_bytes()
}

// The lengths of associated data and plaintext, given in bytes, written in bits.
fn length_block(ad: usize, plain: usize) -> [u8; 16]
    requires ad_bound { ad ≤ 2 ^ 30 }
    requires plain_bound { plain ≤ 2 ^ 31 }
    ensures { result ≡ to_le_bytes w64 (8 * ad) ++ to_le_bytes w64 (8 * plain) }
{
    let mut block = [0; 16];
    block[..8].copy_from_slice(&(8 * ad as u64).to_le_bytes());
    block[8..].copy_from_slice(&(8 * plain as u64).to_le_bytes());
    block
}

// Encrypts or decrypts in place, from the counter that the tag gives (4 and 5).
fn crypt(encryption: &Aes, tag: &[u8; 16], body: &mut [u8])
    ensures { body.new ≡ ctr encryption.now (first_counter tag.now) First32 body.old }
{
    let mut start = *tag;
    start[15] |= 0x80;
    encryption.ctr_xor(&start, CtrKind::First32, body);
}
