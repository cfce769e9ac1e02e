//! The five hash functions of Tink's `HashType`, by their numbers in the wire format (Tink,
//! `common.proto`) and by the sizes of their digests (FIPS 180-4, figure 1).

ghost use Rattle.std.specs.Prelude.{◌≡◌, ◌↔◌, ◌<◌, ◌⊎◌, IsNone};
ghost use Rattle.tink_base.specs.Hash.{hash_of_number, hash_size};

/// A hash function, as HMAC, HKDF and streams use one.
#[derive(Clone, Copy, Debug, PartialEq, Eq)]
pub enum Hash {
    /// SHA-1, of 20 bytes. It is used only inside HMAC and HKDF.
    Sha1,
    /// SHA-224, of 28 bytes.
    Sha224,
    /// SHA-256, of 32 bytes.
    Sha256,
    /// SHA-384, of 48 bytes.
    Sha384,
    /// SHA-512, of 64 bytes.
    Sha512,
}

impl Hash {
    /// The size of a digest, in bytes.
    pub fn size(self) -> usize
        ensures { result ≡ hash_size self }
    {
        match self {
            Hash::Sha1 => 20,
            Hash::Sha224 => 28,
            Hash::Sha256 => 32,
            Hash::Sha384 => 48,
            Hash::Sha512 => 64,
        }
    }

    /// The hash function with this number in Tink's `HashType`; `None` if and only if `number`
    /// isn't from 1 to 5.
    pub fn from_number(number: u32) -> Option<Hash>
        ensures named { result ≡ hash_of_number number }
        ensures unknown { IsNone result ↔ (number ≡ 0) ⊎ (5 < number) }
    {
        match number {
            1 => Some(Hash::Sha1),
            2 => Some(Hash::Sha384),
            3 => Some(Hash::Sha256),
            4 => Some(Hash::Sha512),
            5 => Some(Hash::Sha224),
            _ => None,
        }
    }
}
