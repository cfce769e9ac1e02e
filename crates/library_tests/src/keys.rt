//! What type URLs and places in the table of templates say of keys, and new keys of each template, read back.

ghost use Rattle.std.specs.Prelude.{◌≡◌, ◌≤◌, ◌^◌, length};
ghost use Rattle.key_msgs.specs.Templates.{seen, random_of};

use crate::rows::{count, holds};
use key_msgs::{Template, make_key, primitive_of, read_key, template_at, url_of, write_key};
use std::alloc::Global;
use std::test::Fail;
use test_words::cell;
use tink_base::NoMemory;

// Key types, their primitives, and whether the empty message of each is a key. The last URL isn't known, though
// Tink has its message within others.
const PRIMITIVES: &str = "\
AesSivKey|Some(Daead)|Bad(KeySize)
AesGcmSivKey|Some(Aead)|Bad(KeySize)
AesCtrKey|None|NotKnown";

const PREFIX: &str = "type.googleapis.com/google.crypto.tink.";

/// `ok` where the message reads as a key, or the fault.
fn outcome(alloc: Global, url: &str, value: &[u8]) -> Result<String, Fail> {
    match read_key(alloc, url, value) {
        Ok(_) => Ok(String::from_str(alloc, "ok")?),
        Err(fault) => Ok(format!(in alloc; "{fault:?}")?),
    }
}

#[test]
fn urls_name_primitives(rt: HostRuntime) -> Result<(), Fail> {
    count(PRIMITIVES, 3)?;
    for row in PRIMITIVES.lines() {
        let url = format!(in rt.alloc(); "{PREFIX}{}", cell(row, 0)?)?;
        let found = primitive_of(url.as_str());
        let text = format!(in rt.alloc(); "{found:?}")?;
        holds(row, 1, "the primitive", text.as_str())?;
        let text = outcome(rt.alloc(), url.as_str(), b"")?;
        holds(row, 2, "the empty message", text.as_str())?;
    }
    Ok(())
}

// Rows of the table of templates, the first and the last among them, and the place behind it.
const PLACES: [(usize, &str); 7] = [
    (0, "AES128_GCM"),
    (31, "AES256_CTR_HMAC_SHA256_1MB"),
    (32, "AES128_GCM_SIV"),
    (33, "AES128_GCM_SIV_RAW"),
    (34, "AES256_GCM_SIV"),
    (35, "AES256_GCM_SIV_RAW"),
    (36, "none"),
];

#[test]
fn templates_have_places(rt: HostRuntime) {
    for &(place, name) in &PLACES {
        let found = template_at(place).map_or("none", |template| template.name());
        assert_eq!(rt; found, name, "row {place}");
    }
}

const MATERIAL: [u8; 64] = [b'k'; 64];

/// The message of a new key, and its type URL.
fn written(
    alloc: Global,
    template: &Template,
    random: &[u8],
) -> Result<(Vec<u8>, &'static str), NoMemory>
    requires size { length random.now ≡ random_of (seen template.now) }
    requires random_bound { length random.now ≤ 2 ^ 30 }
{
    let key = make_key(alloc, template, random)?;
    let bytes = write_key(alloc, &key)?;
    Ok((bytes, url_of(&key)))
}

#[test]
fn new_keys_read_back(rt: HostRuntime) -> Result<(), Fail> {
    for place in 0..36 {
        let template = template_at(place).ok_or("a row of the table")?;
        let random = MATERIAL.get(..template.random_len()).ok_or("64 letters")?;
        let (bytes, url) = written(rt.alloc(), &template, random)?;
        let read = outcome(rt.alloc(), url, &bytes)?;
        assert_eq!(rt; read.as_str(), "ok", "row {place}");
    }
    Ok(())
}
