//! AES-GCM in place (SP 800-38D, 7), with an IV of 12 bytes and a tag of 16.
//!
//! No branch and no memory address depends on the key or on a byte of text, associated data or tag,
//! except for the result of the tag's comparison: the bodies are written so, but no clause says it.

ghost use Rattle.std.specs.Prelude.{◌≡◌, ◌≢◌, ◌↔◌, ◌*◌, ◌^◌, ◌≤◌, [], ◌∷◌, ◌++◌, length, IfOk, IsErr, IsTrue};
ghost use Rattle.std.specs.Bool.{OnFalse, OnTrue};
ghost use Rattle.std.specs.Int.{w64, to_be_bytes};
ghost use Rattle.aead_kinds.specs.Gcm.{first_counter, gcm_tag, gcm_text, hash_subkey, incremented};
ghost use Rattle.aead_kinds.specs.GcmState.{RunsUnder};
ghost use Rattle.ghash.specs.GhashState.{IsSubkey};

use aes_core::blocks::same_bytes;
use aes_core::{Aes, CtrKind, KeySize};
use ghash::{Ghash, HashKey};
use std::alloc::Global;
use std::marker::Model;
use tink_base::NoMemory;

// Up to this many bytes of associated data and text GHASH makes no powers of the subkey, so no
// memory is kept for them.
const SHORT: usize = 256;

/// AES-GCM under one key, for the segments of a stream: it keeps the expanded key and the powers of
/// the hash subkey made so far. Contracts see the bytes of the key.
///
/// It takes about 4 KiB, so borrow it rather than move it. The key stays in memory as long as it
/// does.
#[derive(Drop)]
pub struct Gcm {
    aes: Aes,
    hash: Ghash,
}

impl Model for Gcm {
    ghost use Rattle.std.specs.Prelude.{ℕ, List};
    ghost use Rattle.aead_kinds.specs.GcmState.{RunsUnder};

    ghost Value = { List ℕ };

    ghost view = { λ gcm. gcm.aes };

    ghost invariant = { λ gcm. RunsUnder gcm.hash gcm.aes };
}

impl Gcm {
    /// Expands a key of 16 or 32 bytes.
    ///
    /// Returns `KeySize` if and only if `key` has another length, 24 bytes included.
    pub fn new(key: &[u8]) -> Result<Gcm, KeySize>
        ensures key { IfOk result (λ gcm. gcm ≡ key.now) }
        ensures key_size { IsErr result ↔ ((length key.now ≢ 16) × (length key.now ≢ 32)) }
    {
        let aes = Aes::new(key)?;
        let hash = started(&aes, &subkey_of(&aes));
        Ok(Gcm { aes, hash })
    }

    /// Encrypts `body` in place and returns the tag (SP 800-38D, 7.1).
    ///
    /// `body` has at most 2^31 bytes, and `ad` at most 2^30. No IV may be used twice under one key:
    /// the caller must ensure that. No memory is taken.
    pub fn seal_in_place(&mut self, iv: &[u8; 12], ad: &[u8], body: &mut [u8]) -> [u8; 16]
        requires ad_bound { length ad.now ≤ 2 ^ 30 }
        requires body_bound { length body.old ≤ 2 ^ 31 }
        ensures text { body.new ≡ gcm_text self.old iv.now body.old }
        ensures tag { result ≡ gcm_tag self.old iv.now ad.now body.new }
        ensures key { self.new ≡ self.old }
    {
        seal_with(&self.aes, &mut self.hash, iv, ad, body)
    }

    /// Decrypts `body` in place, if the tag is the right one (SP 800-38D, 7.2).
    ///
    /// `body` holds the ciphertext, of at most 2^31 bytes, and `ad` has at most 2^30. Returns
    /// `false` if and only if `tag` isn't the tag of IV, `ad` and ciphertext; then nothing was
    /// decrypted. No memory is taken.
    pub fn open_in_place(
        &mut self,
        iv: &[u8; 12],
        ad: &[u8],
        body: &mut [u8],
        tag: &[u8; 16],
    ) -> bool
        requires ad_bound { length ad.now ≤ 2 ^ 30 }
        requires body_bound { length body.old ≤ 2 ^ 31 }
        ensures authentic { IsTrue result ↔ (gcm_tag self.old iv.now ad.now body.old ≡ tag.now) }
        ensures opened { OnTrue result (body.new ≡ gcm_text self.old iv.now body.old) }
        ensures kept { OnFalse result (body.new ≡ body.old) }
        ensures key { self.new ≡ self.old }
    {
        open_with(&self.aes, &mut self.hash, iv, ad, body, tag)
    }
}

/// A key of AES-GCM, prepared: its expansion, and the hash subkey as a factor of products.
/// Contracts see the bytes of the key.
///
/// It takes about 800 bytes, so borrow it rather than move it; many may borrow it at once. Powers
/// of the hash subkey are made again for each message that is long enough to pay for them, unless
/// they are made ahead, in 4 KiB of memory.
#[derive(Drop)]
pub struct GcmKey {
    aes: Aes,
    hash: HashKey,
    // A GHASH of no block with all powers of the subkey, if they are made ahead.
    ahead: Option<Box<Ghash>>,
}

impl Model for GcmKey {
    ghost use Rattle.std.specs.Prelude.{ℕ, List};
    ghost use Rattle.aead_kinds.specs.Gcm.{hash_subkey};
    ghost use Rattle.aead_kinds.specs.GcmState.{RunsUnder};
    ghost use Rattle.ghash.specs.GhashState.{IsSubkey};
    ghost use Rattle.std.specs.Prelude.{IfSome};

    ghost Value = { List ℕ };

    ghost view = { λ gcm. gcm.aes };

    ghost invariant = { λ gcm. IsSubkey gcm.hash (hash_subkey gcm.aes)
        × IfSome gcm.ahead (λ hash. RunsUnder hash.value gcm.aes) };
}

impl GcmKey {
    /// Expands a key of 16 or 32 bytes, and makes its hash subkey.
    ///
    /// Returns `KeySize` if and only if `key` has another length, 24 bytes included.
    pub fn new(key: &[u8]) -> Result<GcmKey, KeySize>
        ensures key { IfOk result (λ gcm. gcm ≡ key.now) }
        ensures key_size { IsErr result ↔ ((length key.now ≢ 16) × (length key.now ≢ 32)) }
    {
        let aes = Aes::new(key)?;
        let hash = subkey_of(&aes);
        Ok(GcmKey {
            aes,
            hash,
            ahead: None,
        })
    }

    /// Makes the powers of the hash subkey ahead, for a key that has many long messages. Without
    /// memory for them the key stays as it was.
    pub fn prepare_ahead(&mut self, alloc: Global) -> Result<(), NoMemory>
        ensures { self.new ≡ self.old }
    {
        self.ahead = Some(Box::new(alloc, with_powers(&self.aes, &self.hash))?);
        Ok(())
    }

    /// Encrypts `body` in place and returns the tag (SP 800-38D, 7.1), as `Gcm::seal_in_place`
    /// does.
    pub fn seal_in_place(&self, iv: &[u8; 12], ad: &[u8], body: &mut [u8]) -> [u8; 16]
        requires ad_bound { length ad.now ≤ 2 ^ 30 }
        requires body_bound { length body.old ≤ 2 ^ 31 }
        ensures text { body.new ≡ gcm_text self.now iv.now body.old }
        ensures tag { result ≡ gcm_tag self.now iv.now ad.now body.new }
    {
        crypt(&self.aes, iv, body);
        self.tag_of(iv, ad, body)
    }

    /// Decrypts `body` in place, if the tag is the right one (SP 800-38D, 7.2), as
    /// `Gcm::open_in_place` does.
    ///
    /// Returns `false` if and only if `tag` isn't the tag of IV, `ad` and ciphertext; then nothing
    /// was decrypted. No memory is taken.
    pub fn open_in_place(&self, iv: &[u8; 12], ad: &[u8], body: &mut [u8], tag: &[u8; 16]) -> bool
        requires ad_bound { length ad.now ≤ 2 ^ 30 }
        requires body_bound { length body.old ≤ 2 ^ 31 }
        ensures authentic { IsTrue result ↔ (gcm_tag self.now iv.now ad.now body.old ≡ tag.now) }
        ensures opened { OnTrue result (body.new ≡ gcm_text self.now iv.now body.old) }
        ensures kept { OnFalse result (body.new ≡ body.old) }
    {
        let same = same_bytes(&self.tag_of(iv, ad, body), tag);
        if same {
            crypt(&self.aes, iv, body);
        }
        same
    }

    // The tag of associated data and ciphertext: without powers of the subkey where they are short.
    fn tag_of(&self, iv: &[u8; 12], ad: &[u8], text: &[u8]) -> [u8; 16]
        requires ad_bound { length ad.now ≤ 2 ^ 30 }
        requires text_bound { length text.now ≤ 2 ^ 31 }
        ensures { result ≡ gcm_tag self.now iv.now ad.now text.now }
    {
        if ad.len() + text.len() <= SHORT {
            return short_tag_of(&self.aes, &self.hash, iv, ad, text);
        }
        match &self.ahead {
            Some(hash) => ready_tag_of(&self.aes, hash, iv, ad, text),
            None => tag_of(&self.aes, &mut started(&self.aes, &self.hash), iv, ad, text),
        }
    }
}

// The hash subkey H, the cipher of the block of zeros, as GHASH needs it.
fn subkey_of(aes: &Aes) -> HashKey
    ensures { IsSubkey result (hash_subkey aes.now) }
{
    HashKey::new(u128::from_be_bytes(aes.encrypt_block(&[0; 16])))
}

// GHASH of no block under H.
fn started(aes: &Aes, key: &HashKey) -> Ghash
    requires { IsSubkey key.now (hash_subkey aes.now) }
    ensures { RunsUnder result aes.now }
{
    Ghash::under(key)
}

// The same with all powers of H.
fn with_powers(aes: &Aes, key: &HashKey) -> Ghash
    requires { IsSubkey key.now (hash_subkey aes.now) }
    ensures { RunsUnder result aes.now }
{
    Ghash::with_powers(key)
}

fn seal_with(aes: &Aes, hash: &mut Ghash, iv: &[u8; 12], ad: &[u8], body: &mut [u8]) -> [u8; 16]
    requires runs { RunsUnder hash.old aes.now }
    requires ad_bound { length ad.now ≤ 2 ^ 30 }
    requires body_bound { length body.old ≤ 2 ^ 31 }
    ensures text { body.new ≡ gcm_text aes.now iv.now body.old }
    ensures tag { result ≡ gcm_tag aes.now iv.now ad.now body.new }
    ensures runs { RunsUnder hash.new aes.now }
{
    crypt(aes, iv, body);
    tag_of(aes, hash, iv, ad, body)
}

fn open_with(
    aes: &Aes,
    hash: &mut Ghash,
    iv: &[u8; 12],
    ad: &[u8],
    body: &mut [u8],
    tag: &[u8; 16],
) -> bool
    requires runs { RunsUnder hash.old aes.now }
    requires ad_bound { length ad.now ≤ 2 ^ 30 }
    requires body_bound { length body.old ≤ 2 ^ 31 }
    ensures authentic { IsTrue result ↔ (gcm_tag aes.now iv.now ad.now body.old ≡ tag.now) }
    ensures opened { OnTrue result (body.new ≡ gcm_text aes.now iv.now body.old) }
    ensures kept { OnFalse result (body.new ≡ body.old) }
    ensures runs { RunsUnder hash.new aes.now }
{
    let anew = tag_of(aes, hash, iv, ad, body);
    let same = same_bytes(&anew, tag);
    if same {
        crypt(aes, iv, body);
    }
    same
}

// Encrypts or decrypts from the second counter; the first one is the tag's.
fn crypt(aes: &Aes, iv: &[u8; 12], body: &mut [u8])
    ensures { body.new ≡ gcm_text aes.now iv.now body.old }
{
    aes.ctr_xor(&counter_block(iv, 2), CtrKind::Low32, body);
}

// The tag of associated data and ciphertext, after the powers that these pay for are made.
fn tag_of(aes: &Aes, hash: &mut Ghash, iv: &[u8; 12], ad: &[u8], text: &[u8]) -> [u8; 16]
    requires runs { RunsUnder hash.old aes.now }
    requires ad_bound { length ad.now ≤ 2 ^ 30 }
    requires text_bound { length text.now ≤ 2 ^ 31 }
    ensures tag { result ≡ gcm_tag aes.now iv.now ad.now text.now }
    ensures runs { RunsUnder hash.new aes.now }
{
    hash.prepare(ad.len() + text.len());
    ready_tag_of(aes, hash, iv, ad, text)
}

// The same by the powers that are made.
fn ready_tag_of(aes: &Aes, hash: &Ghash, iv: &[u8; 12], ad: &[u8], text: &[u8]) -> [u8; 16]
    requires runs { RunsUnder hash.now aes.now }
    requires ad_bound { length ad.now ≤ 2 ^ 30 }
    requires text_bound { length text.now ≤ 2 ^ 31 }
    ensures { result ≡ gcm_tag aes.now iv.now ad.now text.now }
{
    let front = hash.absorbed(hash.absorbed(0, ad), text);
    let hashed = hash.absorbed(front, &length_block(ad.len(), text.len()));
    let mut tag = hashed.to_be_bytes();
    aes.ctr_xor(&counter_block(iv, 1), CtrKind::Low32, &mut tag);
    tag
}

// The same of short ones, by the subkey alone.
fn short_tag_of(aes: &Aes, key: &HashKey, iv: &[u8; 12], ad: &[u8], text: &[u8]) -> [u8; 16]
    requires subkey { IsSubkey key.now (hash_subkey aes.now) }
    requires ad_bound { length ad.now ≤ 2 ^ 30 }
    requires text_bound { length text.now ≤ 2 ^ 31 }
    ensures { result ≡ gcm_tag aes.now iv.now ad.now text.now }
{
    let front = key.absorbed(key.absorbed(0, ad), text);
    let hashed = key.absorbed(front, &length_block(ad.len(), text.len()));
    let mut tag = hashed.to_be_bytes();
    aes.ctr_xor(&counter_block(iv, 1), CtrKind::Low32, &mut tag);
    tag
}

// The counter block of this IV with the last byte `last`.
fn counter_block(iv: &[u8; 12], last: u8) -> [u8; 16]
    ensures { result ≡ iv.now ++ 0 ∷ 0 ∷ 0 ∷ last ∷ [] }
{
    let mut block = [0; 16];
    block[..12].copy_from_slice(iv);
    block[15] = last;
    block
}

// The lengths of associated data and text, given in bytes, written in bits.
fn length_block(ad: usize, text: usize) -> [u8; 16]
    requires ad_bound { ad ≤ 2 ^ 30 }
    requires text_bound { text ≤ 2 ^ 31 }
    ensures { result ≡ to_be_bytes w64 (8 * ad) ++ to_be_bytes w64 (8 * text) }
{
    let mut block = [0; 16];
    block[..8].copy_from_slice(&(8 * ad as u64).to_be_bytes());
    block[8..].copy_from_slice(&(8 * text as u64).to_be_bytes());
    block
}
