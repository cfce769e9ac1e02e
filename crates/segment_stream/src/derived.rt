//! The keys of a stream, derived from its key, its associated data and its header.

ghost use Rattle.std.specs.Prelude.{◌≡◌, ◌⊎◌, ◌≤◌, length};
ghost use Rattle.mac_prf.specs.Hkdf.{hkdf};
ghost use Rattle.segment_stream.specs.Segments.{FitsHash, IsSound, cipher_of, header_size, keys_under as under};
ghost use Rattle.segment_stream.specs.Streams.{IsUnder};
ghost use Rattle.segment_stream.specs.declared.key.SegmentScheme.TheVariants as schemes;

use crate::key::{SegmentScheme, StreamKey};
use crate::segments::{CtrHmacKeys, PREFIX, SegmentKeys, Stream};
use aead_kinds::Gcm;
use aes_core::Aes;
use mac_prf::hkdf;
use tink_base::Hash;

/// The size of a derived HMAC key, in bytes.
const MAC_KEY: usize = 32;

impl Stream {
    /// The stream with this header, under a key and associated data: the keys of its segments are
    /// derived with the header's salt. `header` has `header_size` bytes. No memory is taken.
    pub fn new(key: &StreamKey, ad: &[u8], header: &[u8]) -> Stream
        requires sound { IsSound key.now }
        requires whole { length header.now ≡ header_size key.now }
        ensures { IsUnder result (cipher_of ad.now key.now) header.now }
    {
        let from = key.derived as usize + 1;
        let keys = keys_under(key, ad, &header[1..from]);
        let mut prefix = [0; PREFIX];
        prefix.copy_from_slice(&header[from..]);
        Stream {
            keys,
            prefix,
            size: key.segment as usize,
        }
    }
}

// Fills `out` with bytes that HKDF derives from the key value.
fn derive(key: &StreamKey, ad: &[u8], salt: &[u8], out: &mut [u8])
    requires { length out.old ≤ 64 }
    ensures { out.new ≡ hkdf key.now.hash key.now.value salt.now ad.now (length out.old) }
{
    match hkdf(key.hash, key.value.as_slice(), salt, ad, out) {
        Ok(()) => {}
        Err(_) => unreachable!(),
    }
}

// The expansion of a derived AES key.
fn expanded(key: &[u8]) -> Aes
    requires { (length key.now ≡ 16) ⊎ (length key.now ≡ 32) }
    ensures { result ≡ key.now }
{
    match Aes::new(key) {
        Ok(aes) => aes,
        Err(_) => unreachable!(),
    }
}

// The keys of a stream with this salt.
fn keys_under(key: &StreamKey, ad: &[u8], salt: &[u8]) -> SegmentKeys
    requires { IsSound key.now }
    ensures keys { result ≡ under key.now.scheme key.now ad.now salt.now }
    ensures fits { FitsHash result }
{
    match key.scheme {
        SegmentScheme::Gcm => gcm_keys(key, ad, salt),
        SegmentScheme::CtrHmac { hash, tag_size } => ctr_hmac_keys(key, ad, salt, hash, tag_size),
    }
}

// The key of a stream of AES-GCM.
fn gcm_keys(key: &StreamKey, ad: &[u8], salt: &[u8]) -> SegmentKeys
    requires { (key.now.derived ≡ 16) ⊎ (key.now.derived ≡ 32) }
    ensures { result ≡ under schemes.Gcm key.now ad.now salt.now }
{
    let mut material = [0; 32];
    let own = &mut material[..key.derived as usize];
    derive(key, ad, salt, own);
    match Gcm::new(own) {
        Ok(gcm) => SegmentKeys::Gcm(gcm),
        Err(_) => unreachable!(),
    }
}

// The keys of a stream of AES-CTR-HMAC.
fn ctr_hmac_keys(key: &StreamKey, ad: &[u8], salt: &[u8], hash: Hash, tag_size: u32) -> SegmentKeys
    requires { (key.now.derived ≡ 16) ⊎ (key.now.derived ≡ 32) }
    ensures { result ≡ under (schemes.CtrHmac hash tag_size) key.now ad.now salt.now }
{
    let mut material = [0; 64];
    let size = key.derived as usize;
    let both = &mut material[..size + MAC_KEY];
    derive(key, ad, salt, both);
    let mut mac = [0; MAC_KEY];
    mac.copy_from_slice(&both[size..]);
    SegmentKeys::CtrHmac(CtrHmacKeys {
        aes: expanded(&both[..size]),
        hash,
        mac,
        tag_size,
    })
}
