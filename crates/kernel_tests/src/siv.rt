//! AES-SIV against printed and independent sealings, and altered ones refused.

use crate::rows::{Row, assert_rows, title};
use crate::sealing::{Alterations, SealingKey, assert_accepted, assert_altered_refused, sealed};
use aes_core::Aes;
use mac_prf::Cmac;
use siv_daead::SivKey;
use std::alloc::Global;
use std::test::Fail;
use test_words::{counting, same_bytes};

// A row has what it shows, the key, the associated datum, the plaintext, and SIV and ciphertext.

// The example of RFC 5297, A.1.
const RFC_5297: &str = "\
RFC 5297, A.1|fffefdfcfbfaf9f8f7f6f5f4f3f2f1f0f0f1f2f3f4f5f6f7f8f9fafbfcfdfeff|101112131415161718191a1b1c1d1e1f2021222324252627|112233445566778899aabbccddee|85632d07c6e8f37f950acd320a2ecc9340c02b9690c4dc04daef7f6afe5c";

// Answers of another implementation of Tink, without the prefix of its keysets.
const OF_TINK: &str = "\
two blocks|f7d9a3de046b2fe1e9f001fefcab88dd1c37567c5e9d5d0ab52eff79a4fab7713d63f7bce3841b75ac4d2aef311015105825b7d67905547e14d8ae539770bec8|e4e38d3d58e44aa0897f66d7ffe665f0ab0d8b3a8665a5c8528a7901e329cef760d63852294ec24d|b63ea1bf699e598cad822bddc09bdc580a6110241e147beb8a0f3a1d9b1559e7|9526e3e7f3fc82eebb227e83601be41c6c1c610233f882c9d1c67106ded1052d81f263d6b20dd8513640a83f3d012d22
more than six blocks|086f8d23b1bb78d8bab663726985803710ad55ea698361d472bd538bc155449a661b7861af75503affb10348e202b2e1b7cba0fea34be4f89c19cd6dc9c4dfe7||970fe2dfd3c3dbd2d8c1b4b7c3c33d880f75a4953dc7f87cf6deb29918e25bce4741be906ba2623becf842734896e2b98aff2ff2712dcc4e2ee33386d2220da0c93b9d4ff32686344aebb60386041a5d4d981baf60e42b6d2f2d6478d4b4222515632e24|b1ec3ba245fd2547c1ac49df7213947c2f2c9b795a6898748109be3767b2f437c8790bd6daf62d2fa597d5177d70c149531a7ad6bfa626973d8c8a5183eb51cc3a9e8a9cd1615240f8807ae47f398c21ece3c2d3d0d96a39be4c12dfd286401ce46aadc1ea2452dde36d764ad681e64a26f91037
a block less a byte|8230f9f35ec1754dd8d656bd177cc3ef172ec2466f4b9cd5141d8f29c14a98b52957c05c3c21671f2c922f6349146853c5c23fd208304cd9be3005351fd979bf||278e50230966632b67c2f9fdedf2a8|15acb90d49835216c353a2244044c744fa68c5425f923831d26bdff658a15d
neither text nor datum|783883c3cc7e3c04ba9f927e99353075de3f1dc57af197cfdf4c8db8a03278c1941bddec9c6fe3666ce67a8de121014ec7df3d7cf0cdf952afcdedfa57118db6|||07b98a7b902ebb212d4861ccd4fbb23b
no text|9c7eddd227bb1e85baaa36441f2f8bc4069649c7ce77565a2ceef55d956c523367b431826e4f55edea4eab03e5cfa1fa7c7cd2b6eaa4e9cb774099cd12ee6229|a02706d9cd831c83e860b670dbb209582d59af599da3dc97f271180d01850ea17bf67f94b0062299||294ad6003e62d35fd4717186a0f0f226
a byte of each|396316a1a1a8e7b8be369c59bfc024407514617f12bed88636f1b2538d43f3ba2e42e891138ff36c05f4baa9c980214c3a8d3a35966978a427b821ca7a278174|1c|7a|f4cced171b222d20a90b9572b270f3b52d";

// OpenSSL's, by Python's cryptography.
const OF_OPENSSL: &str = "\
no text and no datum, a key of 32 bytes|fffefdfcfbfaf9f8f7f6f5f4f3f2f1f0f0f1f2f3f4f5f6f7f8f9fafbfcfdfeff|||499e3994710218de7582e0f2c0ab5ed0
a block, a key of 32 bytes|fffefdfcfbfaf9f8f7f6f5f4f3f2f1f0f0f1f2f3f4f5f6f7f8f9fafbfcfdfeff|101112131415161718191a1b1c1d1e1f2021222324252627|000102030405060708090a0b0c0d0e0f|9892bd33bd55f7e955dbd2cbeab4a927388d7c017340b270c47028855ffd0d4f
a block and a byte, a key of 32 bytes|fffefdfcfbfaf9f8f7f6f5f4f3f2f1f0f0f1f2f3f4f5f6f7f8f9fafbfcfdfeff||000102030405060708090a0b0c0d0e0f10|a3ba2d5f6c46b8f6656209ad61358622b14e7966cf0d8f16482e03887dc15b0359
a block less a byte, a key of 32 bytes|fffefdfcfbfaf9f8f7f6f5f4f3f2f1f0f0f1f2f3f4f5f6f7f8f9fafbfcfdfeff|101112131415161718191a1b1c1d1e1f2021222324252627|000102030405060708090a0b0c0d0e|dfaaad71568fa4e0924cf82347c01821b7e03e12aba97383c20df4ba6dc7a1
a block, a key of 64 bytes|fffefdfcfbfaf9f8f7f6f5f4f3f2f1f0f0f1f2f3f4f5f6f7f8f9fafbfcfdfeff000102030405060708090a0b0c0d0e0f101112131415161718191a1b1c1d1e1f|101112131415161718191a1b1c1d1e1f2021222324252627|000102030405060708090a0b0c0d0e0f|22a4e63521fcdc685fe4eb0984d60745d47a88f6c39e7902ec4f28efab6dcb6a
five blocks, a key of 32 bytes|fffefdfcfbfaf9f8f7f6f5f4f3f2f1f0f0f1f2f3f4f5f6f7f8f9fafbfcfdfeff|101112131415161718191a1b1c1d1e1f2021222324252627|000102030405060708090a0b0c0d0e0f101112131415161718191a1b1c1d1e1f202122232425262728292a2b2c2d2e2f303132333435363738393a3b3c3d3e3f404142434445464748494a4b4c4d4e4f|defef053c0d7ce1e58f3eaa7da36a22d2e66f23a707f71c4051fdf67e301ddac2eab10274da69d8ef8c8255bf7d856beba6d7a8507a2da60eb1816e79eff849e794efeda932426ef16575043bb4e832ca93591c70c7f61fbe25bdb61d66e29bd";

struct SealedRow;

impl Row for SealedRow {
    fn assert_row(alloc: Global, row: &str, cells: &[Vec<u8>]) -> Result<(), Fail> {
        let [key, ad, plain, want] = cells else {
            return Err("a key, a datum, a plaintext and its sealing".into());
        };
        assert_sealing(alloc, title(row), &SivKey::new(key)?, ad, plain, want)
    }
}

fn assert_sealing(
    alloc: Global,
    shows: &str,
    key: &SivKey,
    ad: &[u8],
    plain: &[u8],
    want: &[u8],
) -> Result<(), Fail> {
    let key = &SealingKey::Siv(key);
    let last = want.len().saturating_sub(1);
    // In the bytes 8 and 12 of an SIV this is the bit that the counter leaves out.
    let altered = Alterations {
        bit: 0x80,
        places: &[0, 8, 12, 15, last],
        lengths: &[last],
    };
    assert_accepted(alloc, shows, key, &[0; 16], plain, ad, want)?;
    assert_altered_refused(alloc, shows, key, &altered, want, ad)
}

#[test]
fn seals_and_opens_the_example_of_rfc_5297(rt: HostRuntime) -> Result<(), Fail> {
    assert_rows::<SealedRow>(rt.alloc(), 1, RFC_5297)
}

#[test]
fn seals_and_opens_what_another_tink_does(rt: HostRuntime) -> Result<(), Fail> {
    assert_rows::<SealedRow>(rt.alloc(), 1, OF_TINK)
}

#[test]
fn seals_and_opens_what_openssl_does(rt: HostRuntime) -> Result<(), Fail> {
    assert_rows::<SealedRow>(rt.alloc(), 1, OF_OPENSSL)
}

// The texts of 0 to 130 bytes, so that each place round the ends of blocks is met: where the last 16
// bytes begin, and where counter mode takes four blocks at a time.
const LONGEST: usize = 130;

// What was sealed is opened, and altered on both sides of its last 16 bytes and elsewhere.
fn assert_length(
    alloc: Global,
    key: &SealingKey<'_>,
    plain: &[u8],
    ad: &[u8],
    found: &[u8],
) -> Result<(), Fail> {
    let last = found.len().saturating_sub(1);
    let back = last.saturating_sub(15);
    let altered = Alterations {
        bit: 0x01,
        places: &[0, 15, last / 2, back.saturating_sub(1), back, last],
        lengths: &[last, last / 2],
    };
    assert_accepted(alloc, "each length", key, &[0; 16], plain, ad, found)?;
    assert_altered_refused(alloc, "each length", key, &altered, found, ad)
}

// Seals the plaintext, and adds what was sealed to the message of the tag.
fn assert_sealed_and_tagged(
    alloc: Global,
    key: &SealingKey<'_>,
    plain: &[u8],
    ad: &[u8],
    tag: &mut Cmac<'_>,
) -> Result<(), Fail> {
    let found = sealed(alloc, key, &[], &[0; 16], plain, ad)?;
    tag.update(&found);
    assert_length(alloc, key, plain, ad, &found)
}

// Under the key of so many bytes that count up: CMAC of the sealings of all lengths, joined, under
// the first 16 of these bytes.
fn tag_of_lengths(alloc: Global, bytes: &[u8], size: usize) -> Result<[u8; 16], Fail> {
    let siv_key = SivKey::new(bytes.get(..size).ok_or("a key")?)?;
    let key = &SealingKey::Siv(&siv_key);
    let aes = Aes::new(bytes.get(..16).ok_or("a key")?)?;
    let mut tag = Cmac::under(&aes);
    for length in 0..=LONGEST {
        let plain = bytes.get(..length).ok_or("a text")?;
        let ad = bytes.get(..length % 20).ok_or("associated data")?;
        assert_sealed_and_tagged(alloc, key, plain, ad, &mut tag)?;
    }
    Ok(tag.finish())
}

fn assert_lengths(alloc: Global, bytes: &[u8]) -> Result<(), Fail> {
    let of_32 = 0x4CC3EDFCF0D2B019E496AC310681BCF6_u128.to_be_bytes();
    let of_64 = 0x9571D31BA14365199014ED42BA99EDBE_u128.to_be_bytes();
    let found = tag_of_lengths(alloc, bytes, 32)?;
    same_bytes(alloc, "a key of 32 bytes", "the tag", &of_32, &found)?;
    let found = tag_of_lengths(alloc, bytes, 64)?;
    same_bytes(alloc, "a key of 64 bytes", "the tag", &of_64, &found)
}

// The tags are those of what OpenSSL seals, by Python's cryptography.
#[test]
fn seals_and_opens_texts_of_each_length(rt: HostRuntime) -> Result<(), Fail> {
    let bytes = counting(rt.alloc(), LONGEST)?;
    assert_lengths(rt.alloc(), &bytes)
}

// Lengths on both sides of the two that are taken, and that of two keys of AES-192.
#[test]
fn takes_keys_of_two_sizes(rt: HostRuntime) {
    for &size in &[0, 16, 31, 33, 48, 63, 65] {
        assert!(rt; SivKey::new(&[0; 65][..size]).is_err(), "{size} bytes");
    }
    for &size in &[32, 64] {
        assert!(rt; SivKey::new(&[0; 64][..size]).is_ok(), "{size} bytes");
    }
}
