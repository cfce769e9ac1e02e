//! The segments of one stream, sealed and opened in place.

ghost use Rattle.std.specs.Prelude.{◌≡◌, ◌<◌, ◌≤◌, ◌^◌, ◌++◌, length, take, replicate, None, Some, MatchOption};
ghost use Rattle.std.specs.Bool.{OnTrue, OnFalse};
ghost use Rattle.segment_stream.specs.Segments.{nonce, opens_under, seals_under, tag_size_under};

use crate::key::GCM_TAG;
use aead_kinds::{Gcm, ctr_hmac_open_in_place, ctr_hmac_seal_in_place};
use aes_core::Aes;
use std::marker::Model;
use tink_base::Hash;

/// The size of a nonce prefix, in bytes.
pub(crate) const PREFIX: usize = 7;

/// The number of the last segment that a stream may have.
pub(crate) const LAST_NUMBER: u64 = 4294967295;

/// The keys of the segments of one stream of AES-CTR-HMAC.
#[derive(Drop)]
pub(crate) struct CtrHmacKeys {
    pub(crate) aes: Aes,
    /// The hash function of HMAC, and its key.
    pub(crate) hash: Hash,
    pub(crate) mac: [u8; 32],
    pub(crate) tag_size: u32,
}

/// The keys of one stream, derived from its key, its associated data and its header.
#[derive(Drop)]
pub(crate) enum SegmentKeys {
    /// Including GHASH's powers of the hash subkey, for all segments.
    Gcm(Gcm),
    CtrHmac(CtrHmacKeys),
}

/// Seals and opens the segments of one stream.
#[derive(Drop)]
pub struct Stream {
    pub(crate) keys: SegmentKeys,
    /// The nonce prefix.
    pub(crate) prefix: [u8; 7],
    /// The size of a full segment, in bytes.
    pub(crate) size: usize,
}

impl Model for Stream {
    ghost use Rattle.std.specs.Prelude.{◌<◌, ◌^◌};
    ghost use Rattle.segment_stream.specs.Segments.{FitsHash};
    ghost use Rattle.segment_stream.specs.Streams.{StreamState};

    ghost Value = { StreamState };

    ghost view = { λ s. record { keys = s.keys; prefix = s.prefix; size = s.size } };

    ghost invariant = { λ s. FitsHash s.keys × (s.size < 2 ^ 31) };
}

impl Stream {
    /// The size of a full segment, in bytes.
    pub fn size(&self) -> usize
        ensures size { result ≡ self.now.size }
        ensures bound { result < 2 ^ 31 }
    {
        self.size
    }

    /// The size of a tag in bytes, at most 64.
    pub fn tag_size(&self) -> usize
        ensures size { result ≡ tag_size_under self.now.keys }
        ensures bound { result ≤ 64 }
    {
        match &self.keys {
            SegmentKeys::Gcm(_) => GCM_TAG,
            SegmentKeys::CtrHmac(keys) => keys.tag_size as usize,
        }
    }

    /// Seals a segment in its place, and writes its tag beside it.
    pub(crate) fn seal(&mut self, number: u64, last: bool, segment: &mut [u8], tag: &mut [u8])
        requires number { number < 2 ^ 32 }
        requires bound { length segment.old ≤ 2 ^ 31 }
        requires tag { length tag.old ≡ tag_size_under self.old.keys }
        ensures sealed { segment.new ++ tag.new
            ≡ seals_under self.old.keys self.old.prefix number last segment.old }
        ensures stream { self.new ≡ self.old }
    {
        let nonce = nonce(&self.prefix, number, last);
        match &mut self.keys {
            SegmentKeys::Gcm(gcm) => {
                tag.copy_from_slice(&gcm.seal_in_place(&nonce, &[], segment));
            }
            SegmentKeys::CtrHmac(keys) => {
                let start = start(&nonce);
                ctr_hmac_seal_in_place(&keys.aes, keys.hash, &keys.mac, &start, segment, tag);
            }
        }
    }

    /// Opens a segment in place, and returns how many bytes its plaintext has, which are then at
    /// its front. `number` counts from 0 and is below 2^32, and `last` says whether the stream ends
    /// with this segment; the first segment is passed without the header. `None` comes if and only
    /// if the segment doesn't authenticate with this number and `last`; then it is unchanged. The
    /// stream opens as before. No memory is taken.
    pub fn open(&mut self, number: u64, last: bool, segment: &mut [u8]) -> Option<usize>
        requires number { number < 2 ^ 32 }
        requires bound { length segment.old ≤ 2 ^ 31 }
        ensures opened { MatchOption result
            ((opens_under self.old.keys self.old.prefix number last segment.old ≡ None)
            × (segment.new ≡ segment.old))
            (λ n. (n ≤ length segment.old)
            × (opens_under self.old.keys self.old.prefix number last segment.old
            ≡ Some (take n segment.new))) }
        ensures stream { self.new ≡ self.old }
    {
        let size = self.tag_size();
        if segment.len() < size {
            return None;
        }
        let plain = segment.len() - size;
        let (body, tag) = segment.split_at_mut(plain);
        if self.open_body(number, last, body, tag) {
            Some(plain)
        } else {
            None
        }
    }

    // Decrypts the ciphertext of a segment in place, if the tag is right.
    fn open_body(&mut self, number: u64, last: bool, body: &mut [u8], tag: &[u8]) -> bool
        requires number { number < 2 ^ 32 }
        requires bound { length body.old ≤ 2 ^ 31 }
        requires tag { length tag.now ≡ tag_size_under self.old.keys }
        ensures opened { OnTrue result
            (opens_under self.old.keys self.old.prefix number last (body.old ++ tag.now)
            ≡ Some body.new) }
        ensures refused { OnFalse result
            (opens_under self.old.keys self.old.prefix number last (body.old ++ tag.now) ≡ None) }
        ensures kept { OnFalse result (body.new ≡ body.old) }
        ensures stream { self.new ≡ self.old }
    {
        let nonce = nonce(&self.prefix, number, last);
        match &mut self.keys {
            SegmentKeys::Gcm(gcm) => {
                let mut whole = [0; GCM_TAG];
                whole.copy_from_slice(tag);
                gcm.open_in_place(&nonce, &[], body, &whole)
            }
            SegmentKeys::CtrHmac(keys) => {
                let start = start(&nonce);
                ctr_hmac_open_in_place(&keys.aes, keys.hash, &keys.mac, &start, body, tag)
            }
        }
    }
}

// The nonce of a segment.
fn nonce(prefix: &[u8; 7], number: u64, last: bool) -> [u8; 12]
    requires { number < 2 ^ 32 }
    ensures { result ≡ nonce prefix.now number last }
{
    let mut nonce = [0; 12];
    nonce[..PREFIX].copy_from_slice(prefix);
    nonce[PREFIX..11].copy_from_slice(&(number as u32).to_be_bytes());
    nonce[11] = u8::from(last);
    nonce
}

// The counter block at which a segment of AES-CTR-HMAC begins.
fn start(nonce: &[u8; 12]) -> [u8; 16]
    ensures { result ≡ nonce.now ++ replicate 4 0 }
{
    let mut start = [0; 16];
    start[..12].copy_from_slice(nonce);
    start
}
