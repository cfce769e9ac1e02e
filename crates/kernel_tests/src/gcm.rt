//! AES-GCM in place, with what is kept from one message to the next, and its sizes of keys.

use crate::rows::{REFUSED, Row, assert_rows, title};
use crate::schemes::{GCM_CAVS, GCM_PUBLISHED, TINK};
use crate::sealing::MOST;
use aead_kinds::{AeadKey, Gcm, GcmKey};
use aes_core::Aes;
use std::alloc::Global;
use std::test::Fail;
use test_words::{cell, same_bytes, unlike};

struct InPlaceRow;

impl Row for InPlaceRow {
    fn assert_row(alloc: Global, row: &str, cells: &[Vec<u8>]) -> Result<(), Fail> {
        if cell(row, 1)? != "GCM" || row.ends_with(REFUSED) {
            return Ok(());
        }
        let [key, _, ad, want, plain] = cells else {
            return Err("two keys, associated data, a sealing and its plaintext".into());
        };
        assert_in_place(alloc, title(row), &mut Gcm::new(key)?, plain, ad, want)
    }
}

// Two messages under one key, each opened and sealed again.
fn assert_in_place(
    alloc: Global,
    shows: &str,
    gcm: &mut Gcm,
    plain: &[u8],
    ad: &[u8],
    want: &[u8],
) -> Result<(), Fail> {
    let mut list = want.to_vec(alloc)?;
    assert_message(alloc, shows, gcm, plain, ad, want, &mut list)?;
    assert_message(alloc, shows, gcm, plain, ad, want, &mut list)
}

fn assert_message(
    alloc: Global,
    shows: &str,
    gcm: &mut Gcm,
    plain: &[u8],
    ad: &[u8],
    want: &[u8],
    list: &mut [u8],
) -> Result<(), Fail> {
    let (iv, rest) = want.split_first_chunk::<12>().ok_or("an IV")?;
    let (text, tag) = rest.split_last_chunk::<16>().ok_or("a tag")?;
    let body = list.get_mut(12..12 + text.len()).ok_or("a text")?;
    assert_opened_and_sealed(alloc, shows, gcm, iv, ad, body, tag, plain)?;
    same_bytes(alloc, shows, "the ciphertext in place", text, body)
}

// The tag is made again.
fn assert_opened_and_sealed(
    alloc: Global,
    shows: &str,
    gcm: &mut Gcm,
    iv: &[u8; 12],
    ad: &[u8],
    body: &mut [u8],
    tag: &[u8; 16],
    plain: &[u8],
) -> Result<(), Fail> {
    if body.len() > MOST || ad.len() > MOST {
        return Err("no more than 6,000 bytes".into());
    }
    if !gcm.open_in_place(iv, ad, body, tag) {
        return Err(unlike(shows, "the sealing in place", "opened", "refused"));
    }
    same_bytes(alloc, shows, "the plaintext in place", plain, body)?;
    let found = gcm.seal_in_place(iv, ad, body);
    same_bytes(alloc, shows, "the tag in place", tag, &found)
}

#[test]
fn seals_and_opens_each_accepted_case_in_place(rt: HostRuntime) -> Result<(), Fail> {
    for &rows in &[GCM_PUBLISHED, GCM_CAVS, TINK] {
        assert_rows::<InPlaceRow>(rt.alloc(), 4, rows)?;
    }
    Ok(())
}

// The tag is that of Python's cryptography.
fn assert_long_text(key: &GcmKey, body: &mut [u8; 5000]) -> Result<(), &'static str> {
    let iv = [0, 1, 2, 3, 4, 5, 6, 7, 8, 9, 10, 11];
    let tag = key.seal_in_place(&iv, &[7; 300], body);
    if tag != 0x025461640CBFBF5130EC3B25E97695F0_u128.to_be_bytes() {
        return Err("another tag");
    }
    if key.open_in_place(&iv, &[7; 299], body, &tag) {
        return Err("opened with a byte less of data");
    }
    if !key.open_in_place(&iv, &[7; 300], body, &tag) {
        return Err("refused");
    }
    if *body != [0; 5000] {
        return Err("another plaintext");
    }
    Ok(())
}

// A text that is long enough for all factors of GHASH, under the key of the bytes from 0 to 31 and
// the IV of those from 0 to 11: first with powers that are made for the message, then with those
// made ahead, twice.
#[test]
fn seals_a_long_text_in_place(rt: HostRuntime) -> Result<(), Fail> {
    let counting: [u8; 32] = [
        0, 1, 2, 3, 4, 5, 6, 7, 8, 9, 10, 11, 12, 13, 14, 15, 16, 17, 18, 19, 20, 21, 22, 23, 24,
        25, 26, 27, 28, 29, 30, 31,
    ];
    let mut key = GcmKey::new(&counting)?;
    let mut body = [0; 5000];
    for _ in 0..3 {
        assert_long_text(&key, &mut body)?;
        key.prepare_ahead(rt.alloc())?;
    }
    Ok(())
}

// Whether `Aes`, `Gcm` and `GcmKey` take the key.
fn takers(key: &[u8]) -> [bool; 3] {
    [
        Aes::new(key).is_ok(),
        Gcm::new(key).is_ok(),
        GcmKey::new(key).is_ok(),
    ]
}

// How many bytes the key has, and an IV under it.
fn sizes_under(key: &[u8]) -> Option<(usize, usize)> {
    let size = Aes::new(key).ok()?.key_size();
    let key = &GcmKey::new(key).ok()?;
    let key = AeadKey::Gcm { key };
    if !key.fits() {
        return None;
    }
    Some((size, key.iv_size()))
}

// Lengths on both sides of the two that are taken, and that of AES-192.
#[test]
fn takes_keys_of_two_sizes(rt: HostRuntime) {
    for &size in &[0, 15, 17, 24, 31, 33] {
        assert!(rt; takers(&[0; 33][..size]) == [false; 3], "{size} bytes");
    }
    for &size in &[16, 32] {
        assert!(rt;
            sizes_under(&[0; 32][..size]) == Some((size, 12)),
            "{size} bytes"
        );
    }
}
