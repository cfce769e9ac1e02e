//! A running digest of FIPS 180-4 whose hash function is known only at run time.

ghost use Rattle.std.specs.Prelude.{◌≡◌, ◌≤◌, ℕ, List, [], ◌++◌, length, take};
ghost use Rattle.tink_base.specs.Hash.{hash_size};
ghost use Rattle.mac_prf.specs.Hmac.{block_size, digest};
ghost use Rattle.mac_prf.specs.HasherState.{hash_under, IsAfter};

use sha1::Sha1;
use sha2::{Digest, Sha224, Sha256, Sha384, Sha512};
use tink_base::Hash;

/// The size of the longest block, of SHA-384 and SHA-512, in bytes.
pub const LONGEST_BLOCK: usize = 128;

/// The size of the longest digest, of SHA-512, in bytes.
pub const LONGEST_DIGEST: usize = 64;

/// The size of a block of `hash`, in bytes (FIPS 180-4, figure 1).
pub fn block_len(hash: Hash) -> usize
    ensures { result ≡ block_size hash }
{
    match hash {
        Hash::Sha1 | Hash::Sha224 | Hash::Sha256 => 64,
        Hash::Sha384 | Hash::Sha512 => 128,
    }
}

/// A hasher under one of the hash functions.
#[derive(Drop)]
pub enum Hasher {
    Sha1(Sha1),
    Sha224(Sha224),
    Sha256(Sha256),
    Sha384(Sha384),
    Sha512(Sha512),
}

impl Hasher {
    /// A hasher of the empty message.
    pub fn new(hash: Hash) -> Hasher
        ensures { IsAfter result hash [] }
    {
        match hash {
            Hash::Sha1 => Hasher::Sha1(Sha1::new()),
            Hash::Sha224 => Hasher::Sha224(Sha224::new()),
            Hash::Sha256 => Hasher::Sha256(Sha256::new()),
            Hash::Sha384 => Hasher::Sha384(Sha384::new()),
            Hash::Sha512 => Hasher::Sha512(Sha512::new()),
        }
    }

    /// A second hasher that has taken the same message. No memory is taken.
    pub fn copy(&self) -> Hasher
        ensures { result ≡ self.now }
    {
        match self {
            Hasher::Sha1(hasher) => Hasher::Sha1(copy_of(hasher)),
            Hasher::Sha224(hasher) => Hasher::Sha224(copy_of(hasher)),
            Hasher::Sha256(hasher) => Hasher::Sha256(copy_of(hasher)),
            Hasher::Sha384(hasher) => Hasher::Sha384(copy_of(hasher)),
            Hasher::Sha512(hasher) => Hasher::Sha512(copy_of(hasher)),
        }
    }

    /// The hash function.
    pub fn hash(&self) -> Hash
        ensures { result ≡ hash_under self.now }
    {
        match self {
            Hasher::Sha1(_) => Hash::Sha1,
            Hasher::Sha224(_) => Hash::Sha224,
            Hasher::Sha256(_) => Hash::Sha256,
            Hasher::Sha384(_) => Hash::Sha384,
            Hasher::Sha512(_) => Hash::Sha512,
        }
    }

    /// Adds `piece` to the message.
    pub fn update(&mut self, piece: &[u8])
        ensures kept { hash_under self.new ≡ hash_under self.old }
        ensures taken { (hash : Hash) (m : List ℕ) →
            IsAfter self.old hash m → IsAfter self.new hash (m ++ piece.now) }
    {
        match self {
            Hasher::Sha1(hasher) => hasher.update(piece),
            Hasher::Sha224(hasher) => hasher.update(piece),
            Hasher::Sha256(hasher) => hasher.update(piece),
            Hasher::Sha384(hasher) => hasher.update(piece),
            Hasher::Sha512(hasher) => hasher.update(piece),
        }
    }

    /// Writes the first bytes of the message's digest, as many as `out` has.
    pub fn finish(self, out: &mut [u8])
        requires { length out.old ≤ hash_size (hash_under self) }
        ensures { (hash : Hash) (m : List ℕ) →
            IsAfter self hash m → out.new ≡ take (length out.old) (digest hash m) }
    {
        match self {
            Hasher::Sha1(hasher) => out.copy_from_slice(&hasher.finalize()[..out.len()]),
            Hasher::Sha224(hasher) => out.copy_from_slice(&hasher.finalize()[..out.len()]),
            Hasher::Sha256(hasher) => out.copy_from_slice(&hasher.finalize()[..out.len()]),
            Hasher::Sha384(hasher) => out.copy_from_slice(&hasher.finalize()[..out.len()]),
            Hasher::Sha512(hasher) => out.copy_from_slice(&hasher.finalize()[..out.len()]),
        }
    }
}

// The clone of a value whose cloning never fails.
fn copy_of<T: Clone>(hasher: &T) -> T
    requires { T.is_infallible hasher.now }
    ensures { T.is_clone hasher.now result }
{
    match hasher.clone() {
        Ok(copy) => copy,
        Err(_) => unreachable!(),
    }
}
