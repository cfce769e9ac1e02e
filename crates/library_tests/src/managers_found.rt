//! Where a manager is found by its URL, and which tables of managers are refused.

use crate::boxes::table_of;
use crate::rows::{count, holds};
use key_msgs::Primitive;
use managers::{AeadScheme, KeyTable, MacScheme};
use std::alloc::Global;
use std::test::Fail;
use test_words::cell;

// A row has what it shows; the URLs of managers of AES-GCM, EAX and HMAC; a primitive, and a URL that is
// looked for; and its place in the list of the primitive, or that the table is refused.
const PLACES: &str = "\
the first|a|b||Aead|a|Some(0)
the second|a|b||Aead|b|Some(1)
the URL of a MAC|a|b||Aead||None
a letter of another case|a|b||Aead|A|None
no letter|a|b||Mac||Some(0)
the URL of an AEAD|a|b||Mac|a|None
no manager of a PRF|a|b||Prf|a|None
no manager of streams|a|b||Stream|a|None
three URLs|a|b|c|Aead|a|Some(0)
one URL that begins another|a|aa||Aead|a|Some(0)
one URL twice in a list|a|a|c|Aead|a|SameUrl
one URL in two lists|a|b|a|Aead|a|SameUrl
no letter twice|a|||Aead|a|SameUrl";

/// The primitive of a row.
fn primitive_in(row: &str) -> Result<Primitive, Fail> {
    match cell(row, 4)? {
        "Aead" => Ok(Primitive::Aead),
        "Mac" => Ok(Primitive::Mac),
        "Prf" => Ok(Primitive::Prf),
        "Stream" => Ok(Primitive::Stream),
        _ => Err("a primitive".into()),
    }
}

/// What a row gives.
fn place(alloc: Global, row: &str) -> Result<String, Fail> {
    let aead = [
        (cell(row, 1)?, AeadScheme::Gcm),
        (cell(row, 2)?, AeadScheme::Eax),
    ];
    match table_of(alloc, &aead, &[], &[(cell(row, 3)?, MacScheme::Hmac)])? {
        Ok(all) => {
            let found = all.find(primitive_in(row)?, cell(row, 5)?);
            Ok(format!(in alloc; "{found:?}")?)
        }
        Err(fault) => Ok(format!(in alloc; "{fault:?}")?),
    }
}

#[test]
fn finds_the_place_in_a_list_and_refuses_one_url_twice(rt: HostRuntime) -> Result<(), Fail> {
    count(PLACES, 13)?;
    for row in PLACES.lines() {
        holds(row, 6, "the place", place(rt.alloc(), row)?.as_str())?;
    }
    Ok(())
}
