//! HKDF against the cases of RFC 5869, and of the greatest length.

use crate::rows::{Row, assert_rows, title};
use mac_prf::{Hmac, hkdf, hkdf_expand, hkdf_extract};
use std::alloc::Global;
use std::test::Fail;
use test_words::{cell, hash_named, same_bytes};
use tink_base::Hash;

// What it shows, hash function, secret, salt, info and output: RFC 5869, appendix A. `0b*22` is a
// byte 22 times.
const RFC_5869: &str = "\
A.1, basic inputs|SHA-256|0b*22|000102030405060708090a0b0c|f0f1f2f3f4f5f6f7f8f9|3cb25f25faacd57a90434f64d0362f2a2d2d0a90cf1a5a4c5db02d56ecc4c5bf34007208d5b887185865
A.2, long inputs and output|SHA-256|000102030405060708090a0b0c0d0e0f101112131415161718191a1b1c1d1e1f202122232425262728292a2b2c2d2e2f303132333435363738393a3b3c3d3e3f404142434445464748494a4b4c4d4e4f|606162636465666768696a6b6c6d6e6f707172737475767778797a7b7c7d7e7f808182838485868788898a8b8c8d8e8f909192939495969798999a9b9c9d9e9fa0a1a2a3a4a5a6a7a8a9aaabacadaeaf|b0b1b2b3b4b5b6b7b8b9babbbcbdbebfc0c1c2c3c4c5c6c7c8c9cacbcccdcecfd0d1d2d3d4d5d6d7d8d9dadbdcdddedfe0e1e2e3e4e5e6e7e8e9eaebecedeeeff0f1f2f3f4f5f6f7f8f9fafbfcfdfeff|b11e398dc80327a1c8e7f78c596a49344f012eda2d4efad8a050cc4c19afa97c59045a99cac7827271cb41c65e590e09da3275600c2f09b8367793a9aca3db71cc30c58179ec3e87c14c01d5c1f3434f1d87
A.3, an empty salt and info|SHA-256|0b*22|||8da4e775a563c18f715f802a063c5a31b8a11f5c5ee1879ec3454e5f3c738d2d9d201395faa4b61a96c8
A.4, basic inputs, a short secret|SHA-1|0b*11|000102030405060708090a0b0c|f0f1f2f3f4f5f6f7f8f9|085a01ea1b10f36933068b56efa5ad81a4f14b822f5b091568a9cdd4f155fda2c22e422478d305f3f896
A.5, long inputs and output|SHA-1|000102030405060708090a0b0c0d0e0f101112131415161718191a1b1c1d1e1f202122232425262728292a2b2c2d2e2f303132333435363738393a3b3c3d3e3f404142434445464748494a4b4c4d4e4f|606162636465666768696a6b6c6d6e6f707172737475767778797a7b7c7d7e7f808182838485868788898a8b8c8d8e8f909192939495969798999a9b9c9d9e9fa0a1a2a3a4a5a6a7a8a9aaabacadaeaf|b0b1b2b3b4b5b6b7b8b9babbbcbdbebfc0c1c2c3c4c5c6c7c8c9cacbcccdcecfd0d1d2d3d4d5d6d7d8d9dadbdcdddedfe0e1e2e3e4e5e6e7e8e9eaebecedeeeff0f1f2f3f4f5f6f7f8f9fafbfcfdfeff|0bd770a74d1160f7c9f12cd5912a06ebff6adcae899d92191fe4305673ba2ffe8fa3f1a4e5ad79f3f334b3b202b2173c486ea37ce3d397ed034c7f9dfeb15c5e927336d0441f4c4300e2cff0d0900b52d3b4
A.6, an empty salt and info|SHA-1|0b*22|||0ac1af7002b3d761d1e55298da9d0506b9ae52057220a306e07b6b87e8df21d0ea00033de03984d34918
A.7, no salt at all|SHA-1|0c*22|||2c91117204d745f3500d636a62f64f0ab3bae548aa53d423b0d1f27ebba6f5e5673a081d70cce7acfc48";

// How many of its bytes are asked for.
const SIZES: [(usize, &str); 7] = [
    (0, "no byte"),
    (1, "the first byte"),
    (20, "the first 20 bytes"),
    (32, "the first 32 bytes"),
    (33, "the first 33 bytes"),
    (64, "the first 64 bytes"),
    (82, "the first 82 bytes"),
];

struct DerivedRow;

impl Row for DerivedRow {
    fn assert_row(alloc: Global, row: &str, cells: &[Vec<u8>]) -> Result<(), Fail> {
        let [secret, salt, info, want] = cells else {
            return Err("a secret, a salt, an info and what is derived".into());
        };
        let hash = hash_named(cell(row, 1)?)?;
        assert_derived(alloc, title(row), hash, secret, salt, info, want)?;
        let kept = hkdf_extract(hash, secret, salt);
        assert_expanded(alloc, title(row), &kept, info, want)
    }
}

fn assert_derived(
    alloc: Global,
    shows: &str,
    hash: Hash,
    secret: &[u8],
    salt: &[u8],
    info: &[u8],
    want: &[u8],
) -> Result<(), Fail> {
    for &(size, part) in &SIZES {
        let want = want.get(..size).unwrap_or(want);
        let mut longest = [0; 82];
        let out = longest.get_mut(..want.len()).ok_or("82 bytes at most")?;
        hkdf(hash, secret, salt, info, out)?;
        same_bytes(alloc, shows, part, want, out)?;
    }
    Ok(())
}

// The same of a key that is kept.
fn assert_expanded(
    alloc: Global,
    shows: &str,
    kept: &Hmac,
    info: &[u8],
    want: &[u8],
) -> Result<(), Fail> {
    for &(size, _) in &SIZES {
        let want = want.get(..size).unwrap_or(want);
        let mut longest = [0; 82];
        let out = longest.get_mut(..want.len()).ok_or("82 bytes at most")?;
        hkdf_expand(kept, info, out)?;
        same_bytes(alloc, shows, "the same of a key that is kept", want, out)?;
    }
    Ok(())
}

#[test]
fn derives_the_bytes_of_rfc_5869_at_any_length(rt: HostRuntime) -> Result<(), Fail> {
    assert_rows::<DerivedRow>(rt.alloc(), 2, RFC_5869)
}

// The last bytes are those of Python's cryptography.
#[test]
fn gives_255_digests(rt: HostRuntime) -> Result<(), Fail> {
    let mut out = [0; 5100];
    hkdf(Hash::Sha1, b"secret", b"salt", b"info", &mut out)?;
    let last = 0x3d93c5c1fb4e763a11628ad925d47020_u128.to_be_bytes();
    assert!(rt; out.ends_with(&last), "the last 16 bytes");
    Ok(())
}

#[test]
fn refuses_a_byte_more_than_255_digests(rt: HostRuntime) {
    let mut out = [0xee; 5101];
    assert!(rt; hkdf(Hash::Sha1, b"secret", b"salt", b"info", &mut out).is_err());
    assert!(rt; out == [0xee; 5101], "as before");
}
