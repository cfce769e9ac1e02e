//! The key of a stream.

ghost use Rattle.std.specs.Prelude.{◌≡◌};
ghost use Rattle.segment_stream.specs.Segments.{header_size};

use tink_base::{Bytes, Hash};

/// The size of a tag of AES-GCM, in bytes.
pub(crate) const GCM_TAG: usize = 16;

/// The size of a header without its salt, in bytes: the length byte and the nonce prefix.
const BESIDE_SALT: usize = 8;

/// A key of one of Tink's two kinds of streams. Sizes are in bytes.
#[derive(Drop)]
pub struct StreamKey {
    /// The key value, from which the keys of each stream are derived.
    pub(crate) value: Bytes,
    /// The size of a full segment.
    pub(crate) segment: u32,
    /// The size of a derived AES key, and of the salt.
    pub(crate) derived: u32,
    /// The hash function of HKDF.
    pub(crate) hash: Hash,
    pub(crate) scheme: SegmentScheme,
}

/// How the segments of a stream are sealed.
#[derive(Clone, Copy)]
pub(crate) enum SegmentScheme {
    /// AES-GCM, with a tag of 16 bytes (AesGcmHkdfStreamingKey).
    Gcm,
    /// AES-CTR-HMAC (AesCtrHmacStreamingKey).
    CtrHmac {
        /// The hash function of HMAC.
        hash: Hash,
        tag_size: u32,
    },
}

impl StreamKey {
    /// The size of a header in bytes, at most 40: the length byte, the salt and the nonce prefix of
    /// 7. No memory is taken.
    pub fn header_size(&self) -> usize
        ensures { result ≡ header_size self.now }
    {
        self.derived as usize + BESIDE_SALT
    }

    /// The size of a full segment, in bytes. The first one includes the header. No memory is taken.
    pub fn segment_size(&self) -> usize
        ensures { result ≡ self.now.segment }
    {
        self.segment as usize
    }
}
