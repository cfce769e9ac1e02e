//! Encryption and a tag over the ciphertext, which EAX and AES-CTR-HMAC have in common.

ghost use Rattle.std.specs.Prelude.{◌≡◌, ◌↔◌, ◌+◌, ◌^◌, ◌≤◌, ℕ, List, length, IsTrue};
ghost use Rattle.tink_spec.specs.InPlace.{OpensTo};
ghost use Rattle.aead_kinds.specs.EncryptThenTag.{opened_by, sealed_by, text_of};
ghost use Rattle.aead_kinds.specs.SchemeState.{crypt_under, IsSound, IsUnder, start_under, tag_size_of, tag_under};
ghost use Rattle.tink_base.specs.declared.hash.Hash.{Hash};

use crate::{ctr_hmac, eax};
use aes_core::blocks::same_bytes;
use aes_core::{Aes, CtrKind};
use mac_prf::Hmac;
use std::ops::Range;

/// The size of the longest tag, a digest of SHA-512, in bytes.
pub(crate) const LONGEST_TAG: usize = 64;

/// A key of EAX or of AES-CTR-HMAC.
#[derive(Clone, Copy)]
pub(crate) enum Scheme<'k> {
    /// EAX, with a tag of 16 bytes.
    Eax {
        key: &'k Aes,
    },
    /// AES-CTR-HMAC, whose HMAC is under its key and holds no message.
    CtrHmac {
        aes: &'k Aes,
        mac: &'k Hmac,
        tag_size: usize,
    },
}

impl Scheme<'_> {
    /// Seals in place: writes the IV into its room, the ciphertext over the plaintext, and the tag
    /// after it.
    pub(crate) fn seal(&self, sealed: &mut [u8], iv: &[u8], ad: &[u8])
        requires sound { IsSound self.now }
        requires iv_bound { length iv.now ≤ 16 }
        requires room { length iv.now + tag_size_of self.now ≤ length sealed.old }
        requires ad_bound { length ad.now ≤ 2 ^ 30 }
        ensures { (hash : Hash) (mac : List ℕ) → IsUnder self.now hash mac
            → sealed.new ≡ sealed_by (crypt_under self.now) (tag_under self.now hash mac) iv.now
            (text_of (length iv.now) (tag_size_of self.now) sealed.old) ad.now }
    {
        let end = sealed.len() - self.tag_size() - iv.len();
        let (room, rest) = sealed.split_at_mut(iv.len());
        room.copy_from_slice(iv);
        let (body, tag) = rest.split_at_mut(end);
        let start = self.start(iv);
        self.encrypt_and_tag(&start, iv, ad, body, tag);
    }

    /// Opens IV, ciphertext and tag, joined, in place, and returns the plaintext's range. The tag
    /// is computed and compared before anything is decrypted.
    pub(crate) fn open(&self, iv_size: usize, bytes: &mut [u8], ad: &[u8]) -> Option<Range<usize>>
        requires sound { IsSound self.now }
        requires iv_bound { iv_size ≤ 16 }
        requires ad_bound { length ad.now ≤ 2 ^ 30 }
        ensures { (hash : Hash) (mac : List ℕ) → IsUnder self.now hash mac
            → OpensTo (opened_by (crypt_under self.now) (tag_under self.now hash mac) iv_size
            (tag_size_of self.now) bytes.old ad.now) bytes.old bytes.new result }
    {
        let (len, tag_size) = (bytes.len(), self.tag_size());
        if len < iv_size + tag_size {
            return None;
        }
        let end = len - tag_size;
        let (iv, rest) = bytes.split_at_mut(iv_size);
        let (body, tag) = rest.split_at_mut(end - iv_size);
        let start = self.start(iv);
        if !self.is_tag(&start, iv, ad, body, tag) {
            return None;
        }
        self.crypt(&start, body);
        Some(iv_size..end)
    }

    // Encrypts from the block that is handed in, and writes the tag of what was encrypted.
    fn encrypt_and_tag(
        &self,
        start: &[u8; 16],
        iv: &[u8],
        ad: &[u8],
        body: &mut [u8],
        tag: &mut [u8],
    )
        requires sound { IsSound self.now }
        requires start { start.now ≡ start_under self.now iv.now }
        requires ad_bound { length ad.now ≤ 2 ^ 30 }
        requires tag_size { length tag.old ≡ tag_size_of self.now }
        ensures text { body.new ≡ crypt_under self.now iv.now body.old }
        ensures tag { (hash : Hash) (mac : List ℕ) → IsUnder self.now hash mac
            → tag.new ≡ tag_under self.now hash mac iv.now ad.now body.new }
    {
        match self {
            Scheme::Eax { key } => {
                tag.copy_from_slice(&eax::encrypt_and_tag(key, start, ad, body));
            }
            Scheme::CtrHmac { .. } => {
                self.crypt(start, body);
                self.write_tag(start, iv, ad, body, tag);
            }
        }
    }

    // How many bytes a tag has.
    fn tag_size(&self) -> usize
        requires { IsSound self.now }
        ensures size { result ≡ tag_size_of self.now }
        ensures bound { result ≤ LONGEST_TAG }
    {
        match self {
            Scheme::Eax { .. } => 16,
            Scheme::CtrHmac { tag_size, .. } => *tag_size,
        }
    }

    // The block from which counter mode begins.
    fn start(&self, iv: &[u8]) -> [u8; 16]
        requires { length iv.now ≤ 16 }
        ensures { result ≡ start_under self.now iv.now }
    {
        match self {
            Scheme::Eax { key } => eax::nonce_of(key, iv),
            Scheme::CtrHmac { .. } => ctr_hmac::counter_block(iv),
        }
    }

    // Encrypts or decrypts from there.
    fn crypt(&self, start: &[u8; 16], body: &mut [u8])
        ensures { (iv : List ℕ) → start.now ≡ start_under self.now iv
            → body.new ≡ crypt_under self.now iv body.old }
    {
        match self {
            Scheme::Eax { key } => key.ctr_xor(start, CtrKind::All128, body),
            Scheme::CtrHmac { aes, .. } => aes.ctr_xor(start, CtrKind::All128, body),
        }
    }

    // Writes the tag of IV, associated data and ciphertext.
    fn write_tag(&self, start: &[u8; 16], iv: &[u8], ad: &[u8], text: &[u8], tag: &mut [u8])
        requires sound { IsSound self.now }
        requires start { start.now ≡ start_under self.now iv.now }
        requires ad_bound { length ad.now ≤ 2 ^ 30 }
        requires tag_size { length tag.old ≡ tag_size_of self.now }
        ensures { (hash : Hash) (mac : List ℕ) → IsUnder self.now hash mac
            → tag.new ≡ tag_under self.now hash mac iv.now ad.now text.now }
    {
        match self {
            Scheme::Eax { key } => tag.copy_from_slice(&eax::tag_of(key, start, ad, text)),
            Scheme::CtrHmac { mac, .. } => ctr_hmac::write_tag(mac, iv, ad, text, tag),
        }
    }

    // Whether the tag is the one computed of IV, associated data and ciphertext.
    fn is_tag(&self, start: &[u8; 16], iv: &[u8], ad: &[u8], text: &[u8], tag: &[u8]) -> bool
        requires sound { IsSound self.now }
        requires start { start.now ≡ start_under self.now iv.now }
        requires ad_bound { length ad.now ≤ 2 ^ 30 }
        requires tag_size { length tag.now ≡ tag_size_of self.now }
        ensures { (hash : Hash) (mac : List ℕ) → IsUnder self.now hash mac
            → IsTrue result ↔ (tag_under self.now hash mac iv.now ad.now text.now ≡ tag.now) }
    {
        let mut longest = [0; LONGEST_TAG];
        let anew = &mut longest[..tag.len()];
        self.write_tag(start, iv, ad, text, anew);
        same_bytes(anew, tag)
    }
}
