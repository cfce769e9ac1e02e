//! Sealing and opening by each scheme, and what is to be the same whichever it is: a sealing is made
//! again, and refused where it is altered.

ghost use Rattle.std.specs.Prelude.{◌≡◌};
ghost use Rattle.aead_kinds.specs.Aead.{tag_size_of};

use aead_kinds::{AeadKey, gcm_siv_open, gcm_siv_seal, open, seal};
use aes_core::Aes;
use siv_daead::{SivKey, siv_open, siv_seal};
use std::alloc::Global;
use std::ops::Range;
use std::test::Fail;
use test_words::{longer, same_bytes, unlike};

/// The longest sealing and the longest associated data here.
pub(crate) const MOST: usize = 6000;

/// Bytes in front of a sealing: the prefix of a TINK key whose id is 7.
const FRONT: [u8; 5] = [1, 0, 0, 0, 7];

/// What stands in the rooms for an IV and a tag before a sealing, and isn't to show in it.
const OTHER: [u8; 64] = [0xa5; 64];

/// A key of a scheme that seals with associated data.
#[derive(Clone, Copy)]
pub(crate) enum SealingKey<'k> {
    Aead(&'k AeadKey<'k>),
    Siv(&'k SivKey),
    GcmSiv(&'k Aes),
}

/// What is altered of a sealing: this bit, in the bytes at these places, and its length to these.
#[derive(Clone, Copy)]
pub(crate) struct Alterations<'a> {
    pub(crate) bit: u8,
    pub(crate) places: &'a [usize],
    pub(crate) lengths: &'a [usize],
}

// What is sealed in place: the bytes in front, the plaintext, and room on both sides of it, of at most
// 64 bytes each.
fn with_rooms(
    alloc: Global,
    front: &[u8],
    before: usize,
    plain: &[u8],
    after: usize,
) -> Result<Vec<u8>, Fail> {
    let before = OTHER.get(..before).ok_or("an IV of 64 bytes at most")?;
    let after = OTHER.get(..after).ok_or("a tag of 64 bytes at most")?;
    Ok([front, before, plain, after].concat(alloc)?)
}

// The bytes with this bit turned in the byte at this place.
fn changed(alloc: Global, bytes: &[u8], at: usize, bit: u8) -> Result<Vec<u8>, Fail> {
    let mut other = bytes.to_vec(alloc)?;
    match other.get_mut(at) {
        Some(byte) => *byte ^= bit,
        None => return Err("a byte at the place".into()),
    }
    Ok(other)
}

// Opens in place, where the key fits and there are no more than 6,000 bytes.
fn opened(key: &SealingKey<'_>, bytes: &mut [u8], ad: &[u8]) -> Result<Option<Range<usize>>, Fail> {
    if bytes.len() > MOST || ad.len() > MOST {
        return Err("no more than 6,000 bytes".into());
    }
    match key {
        SealingKey::Aead(key) if key.fits() => Ok(open(key, bytes, ad)),
        SealingKey::Aead(_) => Err("a key that fits".into()),
        SealingKey::Siv(key) => Ok(siv_open(key, bytes, ad)),
        SealingKey::GcmSiv(key) => Ok(gcm_siv_open(key, bytes, ad)),
    }
}

// What was opened in place is this plaintext. Without one it was to be refused, and is as before.
fn assert_answer(
    alloc: Global,
    shows: &str,
    part: &str,
    range: Option<Range<usize>>,
    after: &[u8],
    before: &[u8],
    plain: Option<&[u8]>,
) -> Result<(), Fail> {
    match (range, plain) {
        (None, None) => same_bytes(alloc, shows, part, before, after),
        (Some(_), None) => Err(unlike(shows, part, "refused", "opened")),
        (None, Some(_)) => Err(unlike(shows, part, "opened", "refused")),
        (Some(range), Some(plain)) => {
            same_bytes(
                alloc,
                shows,
                part,
                plain,
                after.get(range).ok_or("a range")?,
            )
        }
    }
}

/// The bytes open to this plaintext. Without one they are refused, and stay as they are.
pub(crate) fn assert_opened(
    alloc: Global,
    shows: &str,
    part: &str,
    key: &SealingKey<'_>,
    bytes: &[u8],
    ad: &[u8],
    plain: Option<&[u8]>,
) -> Result<(), Fail> {
    let mut list = bytes.to_vec(alloc)?;
    assert_opened_in(alloc, shows, part, key, &mut list, bytes, ad, plain)
}

fn assert_opened_in(
    alloc: Global,
    shows: &str,
    part: &str,
    key: &SealingKey<'_>,
    list: &mut [u8],
    bytes: &[u8],
    ad: &[u8],
    plain: Option<&[u8]>,
) -> Result<(), Fail> {
    let range = opened(key, list, ad)?;
    assert_answer(alloc, shows, part, range, list, bytes, plain)
}

// The bytes of a tag under the key.
fn tag_size(key: &AeadKey<'_>) -> usize
    ensures { result ≡ tag_size_of key.now }
{
    match key {
        AeadKey::Gcm { .. } | AeadKey::Eax { .. } => 16,
        AeadKey::CtrHmac { tag_size, .. } => *tag_size,
    }
}

// Whether it was sealed in place: a key that fits, rooms for IV and tag, and no more than 6,000 bytes.
fn seals_by_aead(key: &AeadKey<'_>, bytes: &mut [u8], iv: &[u8], ad: &[u8]) -> bool {
    let size = bytes.len();
    if !key.fits() || size > MOST || ad.len() > MOST {
        return false;
    }
    if iv.len() != key.iv_size() || size < iv.len() || size - iv.len() < tag_size(key) {
        return false;
    }
    seal(key, bytes, iv, ad);
    true
}

// Whether it was sealed in place: rooms for IV and tag, and no more than 6,000 bytes.
fn seals_by_gcm_siv(key: &Aes, bytes: &mut [u8], iv: &[u8], ad: &[u8]) -> bool {
    let Some(iv) = iv.first_chunk::<12>() else {
        return false;
    };
    if bytes.len() < 28 || bytes.len() > MOST || ad.len() > MOST {
        return false;
    }
    gcm_siv_seal(key, bytes, iv, ad);
    true
}

// Sealed in place, in the list that is handed in.
fn sealed_by_siv(key: &SivKey, at: usize, bytes: Vec<u8>, ad: &[u8]) -> Result<Vec<u8>, Fail> {
    if at > 5 || bytes.len() < at + 16 || bytes.len() > MOST || ad.len() > MOST {
        return Err("a prefix, room for the SIV, and no more than 6,000 bytes".into());
    }
    Ok(siv_seal(key, at, bytes, ad))
}

// Whether what follows the first `at` bytes was sealed in place.
fn seals_behind(key: &SealingKey<'_>, at: usize, bytes: &mut [u8], iv: &[u8], ad: &[u8]) -> bool {
    let Some(bytes) = bytes.get_mut(at..) else {
        return false;
    };
    match key {
        SealingKey::Aead(key) => seals_by_aead(key, bytes, iv, ad),
        SealingKey::GcmSiv(key) => seals_by_gcm_siv(key, bytes, iv, ad),
        SealingKey::Siv(_) => false,
    }
}

// The bytes of room behind the plaintext: none by AES-SIV, which has its SIV in front.
fn room_behind(key: &SealingKey<'_>) -> usize {
    match key {
        SealingKey::Aead(key) => tag_size(key),
        SealingKey::GcmSiv(_) => 16,
        SealingKey::Siv(_) => 0,
    }
}

/// Sealed in place, behind the bytes in front.
pub(crate) fn sealed(
    alloc: Global,
    key: &SealingKey<'_>,
    front: &[u8],
    iv: &[u8],
    plain: &[u8],
    ad: &[u8],
) -> Result<Vec<u8>, Fail> {
    let bytes = with_rooms(alloc, front, iv.len(), plain, room_behind(key))?;
    sealed_in(key, front.len(), bytes, iv, ad)
}

fn sealed_in(
    key: &SealingKey<'_>,
    at: usize,
    mut bytes: Vec<u8>,
    iv: &[u8],
    ad: &[u8],
) -> Result<Vec<u8>, Fail> {
    if let SealingKey::Siv(key) = key {
        return sealed_by_siv(key, at, bytes, ad);
    }
    if seals_behind(key, at, &mut bytes, iv, ad) {
        return Ok(bytes);
    }
    Err("a key that fits, rooms for IV and tag, and no more than 6,000 bytes".into())
}

// The plaintext is sealed to these bytes, behind those in front, which stay.
fn assert_sealed(
    alloc: Global,
    shows: &str,
    key: &SealingKey<'_>,
    front: &[u8],
    iv: &[u8],
    plain: &[u8],
    ad: &[u8],
    bytes: &[u8],
) -> Result<(), Fail> {
    let found = sealed(alloc, key, front, iv, plain, ad)?;
    assert_behind(alloc, shows, front, bytes, &found)
}

fn assert_behind(
    alloc: Global,
    shows: &str,
    front: &[u8],
    bytes: &[u8],
    found: &[u8],
) -> Result<(), Fail> {
    let (before, sealing) = found
        .split_at_checked(front.len())
        .ok_or("the bytes in front")?;
    same_bytes(
        alloc,
        shows,
        "what stands before the sealing",
        front,
        before,
    )?;
    same_bytes(alloc, shows, "the sealing", bytes, sealing)
}

/// The bytes are opened, and made again under their IV: alone, and behind a prefix.
pub(crate) fn assert_accepted(
    alloc: Global,
    shows: &str,
    key: &SealingKey<'_>,
    iv: &[u8],
    plain: &[u8],
    ad: &[u8],
    bytes: &[u8],
) -> Result<(), Fail> {
    assert_opened(alloc, shows, "the plaintext", key, bytes, ad, Some(plain))?;
    assert_sealed(alloc, shows, key, &[], iv, plain, ad, bytes)?;
    assert_sealed(alloc, shows, key, &FRONT, iv, plain, ad, bytes)
}

// The sealing with this bit turned in the byte at this place.
fn assert_change_refused(
    alloc: Global,
    shows: &str,
    key: &SealingKey<'_>,
    at: usize,
    bit: u8,
    bytes: &[u8],
    ad: &[u8],
) -> Result<(), Fail> {
    let other = changed(alloc, bytes, at, bit)?;
    assert_opened(alloc, shows, "a changed sealing", key, &other, ad, None)
}

// The sealing with a byte more.
fn assert_longer_refused(
    alloc: Global,
    shows: &str,
    key: &SealingKey<'_>,
    bytes: &[u8],
    ad: &[u8],
) -> Result<(), Fail> {
    let more = longer(alloc, bytes)?;
    assert_opened(
        alloc,
        shows,
        "a sealing of a byte more",
        key,
        &more,
        ad,
        None,
    )
}

// Each of the bytes altered, each of the lengths, and a byte more.
fn assert_other_bytes_refused(
    alloc: Global,
    shows: &str,
    key: &SealingKey<'_>,
    altered: &Alterations<'_>,
    bytes: &[u8],
    ad: &[u8],
) -> Result<(), Fail> {
    for at in altered.places {
        assert_change_refused(alloc, shows, key, *at, altered.bit, bytes, ad)?;
    }
    for length in altered.lengths {
        let cut = bytes.get(..*length).ok_or("no more bytes than there are")?;
        assert_opened(alloc, shows, "a cut sealing", key, cut, ad, None)?;
    }
    assert_longer_refused(alloc, shows, key, bytes, ad)
}

// Associated data of a byte more.
fn assert_longer_data_refused(
    alloc: Global,
    shows: &str,
    key: &SealingKey<'_>,
    bytes: &[u8],
    ad: &[u8],
) -> Result<(), Fail> {
    let more = longer(alloc, ad)?;
    assert_opened(alloc, shows, "data of a byte more", key, bytes, &more, None)
}

// Associated data with this bit turned in the first byte.
fn assert_changed_data_refused(
    alloc: Global,
    shows: &str,
    key: &SealingKey<'_>,
    bit: u8,
    bytes: &[u8],
    ad: &[u8],
) -> Result<(), Fail> {
    let other = changed(alloc, ad, 0, bit)?;
    assert_opened(alloc, shows, "changed data", key, bytes, &other, None)
}

/// Accepted bytes are refused where they are altered so, or their associated data are changed, or of a
/// byte more or less.
pub(crate) fn assert_altered_refused(
    alloc: Global,
    shows: &str,
    key: &SealingKey<'_>,
    altered: &Alterations<'_>,
    bytes: &[u8],
    ad: &[u8],
) -> Result<(), Fail> {
    assert_other_bytes_refused(alloc, shows, key, altered, bytes, ad)?;
    assert_longer_data_refused(alloc, shows, key, bytes, ad)?;
    let Some(less) = ad.get(1..) else {
        return Ok(());
    };
    assert_changed_data_refused(alloc, shows, key, altered.bit, bytes, ad)?;
    assert_opened(alloc, shows, "data of a byte less", key, bytes, less, None)
}
