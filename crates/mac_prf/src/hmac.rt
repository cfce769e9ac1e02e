//! HMAC (RFC 2104; FIPS 198-1) of a message that comes in pieces.

ghost use Rattle.std.specs.Prelude.{◌≡◌, ◌≤◌, ◌-◌, ℕ, List, [], ◌++◌, length, replicate, take};
ghost use Rattle.tink_base.specs.Hash.{hash_size};
ghost use Rattle.mac_prf.specs.Hmac.{block_key, block_size, hmac, xored};
ghost use Rattle.mac_prf.specs.HasherState.{hash_under, IsAfter};

use crate::hasher::{Hasher, LONGEST_BLOCK, LONGEST_DIGEST, block_len};
use tink_base::Hash;

/// The byte of the inner pad (RFC 2104, 2).
const IPAD: u8 = 0x36;

/// The byte of the outer pad (RFC 2104, 2).
const OPAD: u8 = 0x5c;

/// HMAC under one key, of a message that comes in pieces: `new`, or a `copy` of a kept one, an
/// `update` for each piece, and `finish`.
///
/// No call takes memory. Neither the running time nor the erasure of keys is promised.
#[derive(Drop)]
pub struct Hmac {
    // After K XOR ipad and the message so far.
    inner: Hasher,
    // After K XOR opad.
    outer: Hasher,
    ghost alike: { hash_under inner ≡ hash_under outer },
}

impl Hmac {
    ghost use Rattle.mac_prf.specs.HmacState.{hash_of, Holds};

    /// Begins with the empty message, under `key` (RFC 2104, 2).
    ///
    /// `key` may have any length, also 0: one longer than a block of `hash` is replaced by its
    /// digest.
    pub fn new(hash: Hash, key: &[u8]) -> Hmac
        ensures holds { Holds result hash key.now [] }
        ensures under { hash_of result ≡ hash }
    {
        let block = key_in_a_block(hash, key);
        Hmac {
            inner: after_pad(hash, block, IPAD),
            outer: after_pad(hash, block, OPAD),
        }
    }

    /// A second HMAC under the same key and of the same message. No memory is taken.
    ///
    /// Keep one with a key and no message, and copy it for each message: then neither the key nor
    /// its two pads are hashed again.
    pub fn copy(&self) -> Hmac
        ensures { result ≡ self.now }
    {
        Hmac {
            inner: self.inner.copy(),
            outer: self.outer.copy(),
        }
    }

    /// How many bytes a whole tag has: as many as a digest of the hash function.
    #[tactic(auto, unfolding(crate::specs::HmacState::hash_of))]
    pub fn tag_size(&self) -> usize
        ensures { result ≡ hash_size (hash_of self.now) }
    {
        self.inner.hash().size()
    }

    /// Adds `body` to the message. How a message is cut into pieces doesn't change its tag.
    pub fn update(&mut self, body: &[u8])
        ensures holds { (hash : Hash) (key m : List ℕ) →
            Holds self.old hash key m → Holds self.new hash key (m ++ body.now) }
        ensures under { hash_of self.new ≡ hash_of self.old }
    {
        self.inner.update(body);
    }

    /// Writes the first bytes of the message's tag, as many as `out` has (RFC 2104, 2 and 5).
    ///
    /// `out` has at most as many bytes as a digest of the hash function.
    pub fn finish(self, out: &mut [u8])
        requires fits { length out.old ≤ hash_size (hash_of self) }
        ensures { (hash : Hash) (key m : List ℕ) →
            Holds self hash key m → out.new ≡ take (length out.old) (hmac hash key m) }
    {
        let Hmac { inner, mut outer } = self;
        let mut longest = [0; LONGEST_DIGEST];
        let digest = &mut longest[..inner.hash().size()];
        inner.finish(digest);
        outer.update(digest);
        outer.finish(out);
    }
}

// The key, or its digest if it is longer than a block, padded with zeros to the longest block; the
// key's own block is its front.
fn key_in_a_block(hash: Hash, key: &[u8]) -> [u8; LONGEST_BLOCK]
    ensures { take (block_size hash) result ≡ block_key hash key.now }
{
    if key.len() > block_len(hash) {
        let mut longest = [0; LONGEST_DIGEST];
        let digest = &mut longest[..hash.size()];
        let mut hasher = Hasher::new(hash);
        hasher.update(key);
        hasher.finish(digest);
        with_zeros(digest)
    } else {
        with_zeros(key)
    }
}

fn with_zeros(key: &[u8]) -> [u8; LONGEST_BLOCK]
    requires { length key.now ≤ LONGEST_BLOCK }
    ensures { result ≡ key.now ++ replicate (LONGEST_BLOCK - length key.now) 0 }
{
    let mut block = [0; LONGEST_BLOCK];
    block[..key.len()].copy_from_slice(key);
    block
}

// A hasher that has taken the key in the block XOR a pad.
fn after_pad(hash: Hash, mut block: [u8; LONGEST_BLOCK], pad: u8) -> Hasher
    ensures { IsAfter result hash (xored (take (block_size hash) block) pad) }
{
    let padded = &mut block[..block_len(hash)];
    xor_each(padded, pad);
    let mut hasher = Hasher::new(hash);
    hasher.update(padded);
    hasher
}

fn xor_each(bytes: &mut [u8], pad: u8)
    ensures { bytes.new ≡ xored bytes.old pad }
{
    for byte in bytes.iter_mut() {
        *byte ^= pad;
    }
}
