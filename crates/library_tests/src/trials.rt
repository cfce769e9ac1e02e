//! How many keys a handle tries, and the output prefixes of its keys.

ghost use Rattle.std.specs.Prelude.{◌≤◌, length, IfOk};
ghost use Rattle.key_msgs.specs.declared.primitive.Primitive.TheVariants.{Aead, Daead, Mac};
ghost use Rattle.keyset_model.specs.Keyset.{Keys};
ghost use Rattle.wrapped_prims.specs.Making.{IsOver};

use crate::boxes::managers_of;
use crate::rows::{count, few, holds};
use key_msgs::Primitive;
use keyset_model::{Keyset, read_binary};
use managers::{AeadScheme, KeyTable, MacScheme, Managers};
use std::alloc::Global;
use std::test::Fail;
use test_words::{bytes_of, cell, digits_of};
use tink_base::Trials;
use wrapped_prims::Handle;

// A row has what it shows, a keyset, the work, the two lists of bytes that are given, and whether they are
// taken and how many keys were tried. A keyset is its primary id, and for each record its status, prefix type,
// id, URL and key message, numbers as varints in hexadecimal: 84868808 is 16909060, 0x01020304. Key messages
// are by hand from Tink's definitions.

// AES-GCM's answer is case 2 of the appendix of its authors, with keys of 16 zero bytes and other keys of 16
// bytes 0xff. EAX is from its paper, AES-CTR-HMAC an answer of Google's Tink (tink-go 2.4.0) without its
// prefix, and AES-GCM-SIV from RFC 8452. What is given: sealed bytes, and associated data.
const AEAD: &str = "\
opening|84868808;01 01 84868808 g ZERO|open|0101020304 SEALED||true 1
the last byte altered|84868808;01 01 84868808 g ZERO|open|0101020304 ALTERED||false 1
other associated data|84868808;01 01 84868808 g ZERO|open|0101020304 SEALED|78|false 1
four bytes|84868808;01 01 84868808 g ZERO|open|01010203||false 0
a prefix alone|84868808;01 01 84868808 g ZERO|open|0101020304||false 1
a prefix by chance|01;01 04 00 g ONES;01 03 01 g ZERO|open|SEALED||true 2
a disabled key|01;02 01 84868808 g ZERO;01 03 01 g ONES|open|0101020304 SEALED||false 1
three RAW keys|01;01 03 01 g ONES;01 03 02 g ONES;01 03 03 g ZERO|open|SEALED||true 3
disabled keys at fault|84868808;02 01 01 g 1a0100;02 01 02 other 00;01 01 84868808 g ZERO|open|0101020304 SEALED||true 1
the second key of an id|08;01 01 07 g ONES;01 01 07 g ZERO;01 03 08 g ZERO|open|0100000007 SEALED||true 2
no key of an id|08;01 01 07 g ONES;01 01 07 g ZERO;01 03 08 g ZERO|open|0100000007 ALTERED||false 3
the RAW key beside an id|08;01 01 07 g ONES;01 01 07 g ZERO;01 03 08 g ZERO|open|SEALED||true 1
the last key of an id alone|08;01 01 07 g ONES;01 01 07 g ONES;01 01 07 g ZERO;01 03 08 g ZERO|open|0100000007 SEALED||true 3
the first of two that open|08;01 01 07 g ZERO;01 01 07 g ZERO;01 03 08 g ZERO|open|0100000007 SEALED||true 1
keys of an id apart|08;01 01 07 g ONES;01 03 08 g ONES;01 01 07 g ZERO|open|0100000007 SEALED||true 2
a disabled key of an id|08;02 01 07 g ZERO;01 01 07 g ONES;01 03 08 g ONES|open|0100000007 SEALED||false 2
CRUNCHY and LEGACY of one id|08;01 04 07 g ONES;01 02 07 g ZERO;01 03 08 g ONES|open|0000000007 SEALED||true 2
TINK and CRUNCHY of one id|08;01 01 07 g ZERO;01 04 07 g ONES;01 03 08 g ONES|open|0000000007 SEALED||false 2
RAW and TINK of one id|08;01 03 07 g ZERO;01 01 07 g ONES;01 03 08 g ONES|open|SEALED||true 1
AES-GCM, case 2|0b;01 03 0b g ZERO|open|SEALED||true 1
AES-GCM, case 2, altered|0b;01 03 0b g ZERO|open|ALTERED||false 1
EAX, the first|0b;01 03 0b e 120208101a10233952dee4d5ed5f9b9c6d6ff80ff478|open|62ec67f9c3a4a407fcb2a8c49031a8b3e037830e8389f27b025a2d6527e79d01|6bfb914fd07eae6b|true 1
EAX, the first, altered|0b;01 03 0b e 120208101a10233952dee4d5ed5f9b9c6d6ff80ff478|open|62ec67f9c3a4a407fcb2a8c49031a8b3e037830e8389f27b025a2d6527e79d00|6bfb914fd07eae6b|false 1
AES-CTR-HMAC, Tink's|0b;01 03 0b c 12161202080f1a10d6f33471a9dc83db908c3a80de20f0e11a99011204080510141a9001134fe916a0ed1eecb1169beec55c5adda66ec00b22059a2421980d2beab5df846fb68efbdabb5282a79fc47a96615e3bc97ce293b77cf5bbeabd4e8113e888de4c5d73f61756b692a547c7bafef639a37ffdfad2638dd24f2b411b733c5bc0116654e3366cec75ea187ace8c564ea020a5bdb127eebbaa12fb58b78ae4f5a082c967f59717ab7b51135fa5a79bf401f5|open|f9590019a0715c03f1d42e10cd5fedfd44ad47eb920d4fa29bc97fbf62fba09ec82fada8|f9b03c1d7acb1a8bdc7278f4c6b4ec0a7fe7e9db|true 1
AES-CTR-HMAC, Tink's, altered|0b;01 03 0b c 12161202080f1a10d6f33471a9dc83db908c3a80de20f0e11a99011204080510141a9001134fe916a0ed1eecb1169beec55c5adda66ec00b22059a2421980d2beab5df846fb68efbdabb5282a79fc47a96615e3bc97ce293b77cf5bbeabd4e8113e888de4c5d73f61756b692a547c7bafef639a37ffdfad2638dd24f2b411b733c5bc0116654e3366cec75ea187ace8c564ea020a5bdb127eebbaa12fb58b78ae4f5a082c967f59717ab7b51135fa5a79bf401f5|open|f9590019a0715c03f1d42e10cd5fedfd44ad47eb920d4fa29bc97fbf62fba09ec82fada9|f9b03c1d7acb1a8bdc7278f4c6b4ec0a7fe7e9db|false 1
AES-GCM-SIV, C.1|0b;01 03 0b v 1a1001000000000000000000000000000000|open|0300000000000000000000001e6daba35669f4273b0a1a2560969cdf790d99759abd1508|01|true 1
AES-GCM-SIV, C.1, altered|0b;01 03 0b v 1a1001000000000000000000000000000000|open|0300000000000000000000001e6daba35669f4273b0a1a2560969cdf790d99759abd1509|01|false 1
AES-GCM-SIV, C.2|0b;01 03 0b v 1a200100000000000000000000000000000000000000000000000000000000000000|open|030000000000000000000000c2ef328e5c71c83b843122130f7364b761e0b97427e3df28||true 1
AES-GCM-SIV, C.2, altered|0b;01 03 0b v 1a200100000000000000000000000000000000000000000000000000000000000000|open|030000000000000000000000c2ef328e5c71c83b843122130f7364b761e0b97427e3df29||false 1
AES-GCM-SIV, C.3|0b;01 03 0b v 1a200000000000000000000000000000000000000000000000000000000000000000|open|000000000000000000000000f3f80f2cf0cb2dd9c5984fcda908456cc537703b5ba70324a6793a7bf218d3eaffffffff000000000000000000000000||true 1
AES-GCM-SIV, C.3, altered|0b;01 03 0b v 1a200000000000000000000000000000000000000000000000000000000000000000|open|000000000000000000000000f3f80f2cf0cb2dd9c5984fcda908456cc537703b5ba70324a6793a7bf218d3eaffffffff000000000000000000000001||false 1";

// RFC 4231's first case, the first 16 bytes, and for LEGACY that of the body with one byte 0 behind it, by
// OpenSSL's `dgst -sha256 -mac HMAC`; AES-CMAC is from SP 800-38B, and with a byte 0 by Python's cryptography.
// What is given: the body, and a tag.
const MAC: &str = "\
a RAW tag|84868808;01 03 84868808 h KEY|verify|BODY|TAG|true 1
another body|84868808;01 03 84868808 h KEY|verify|4869207468657265|TAG|false 1
a tag cut short|84868808;01 03 84868808 h KEY|verify|BODY|b0344c61d8db38535ca8afceaf0bf1|false 1
a tag and a byte|84868808;01 03 84868808 h KEY|verify|BODY|b0344c61d8db38535ca8afceaf0bf12b00|false 1
no tag|84868808;01 03 84868808 h KEY|verify|BODY||false 1
a LEGACY tag|84868808;01 02 84868808 h KEY|verify|BODY|0001020304 ZERO_TAG|true 1
without the byte|84868808;01 02 84868808 h KEY|verify|BODY|0001020304 TAG|false 1
the second key of an id|08;01 01 07 h OTHER;01 01 07 h KEY;01 03 08 h OTHER|verify|BODY|0100000007 TAG|true 2
the last key of an id alone|08;01 01 07 h OTHER;01 01 07 h OTHER;01 01 07 h KEY;01 03 08 h OTHER|verify|BODY|0100000007 TAG|true 3
no key of an id|08;01 01 07 h OTHER;01 01 07 h OTHER;01 03 08 h KEY|verify|BODY|0100000007 TAG|false 3
CRUNCHY and LEGACY of one id|08;01 04 07 h KEY;01 02 07 h KEY;01 03 08 h OTHER|verify|BODY|0000000007 ZERO_TAG|true 2
HMAC, RFC 4231, case 1|0b;01 01 0b h 1204080310201a140b0b0b0b0b0b0b0b0b0b0b0b0b0b0b0b0b0b0b0b|verify|BODY|010000000b b0344c61d8db38535ca8afceaf0bf12b881dc200c9833da726e9376c2e32cff7|true 1
HMAC, RFC 4231, case 1, under the other body|0b;01 02 0b h 1204080310201a140b0b0b0b0b0b0b0b0b0b0b0b0b0b0b0b0b0b0b0b|verify|BODY|000000000b b0344c61d8db38535ca8afceaf0bf12b881dc200c9833da726e9376c2e32cff7|false 1
HMAC, RFC 4231, case 1, the last bit turned|0b;01 01 0b h 1204080310201a140b0b0b0b0b0b0b0b0b0b0b0b0b0b0b0b0b0b0b0b|verify|BODY|010000000b b0344c61d8db38535ca8afceaf0bf12b881dc200c9833da726e9376c2e32cff6|false 1
HMAC, RFC 4231, case 1, the first byte gone|0b;01 01 0b h 1204080310201a140b0b0b0b0b0b0b0b0b0b0b0b0b0b0b0b0b0b0b0b|verify|BODY|010000000b 344c61d8db38535ca8afceaf0bf12b881dc200c9833da726e9376c2e32cff7|false 1
HMAC, RFC 4231, case 1, no tag|0b;01 01 0b h 1204080310201a140b0b0b0b0b0b0b0b0b0b0b0b0b0b0b0b0b0b0b0b|verify|BODY|010000000b|false 1
the same with a byte 0, cut to 16 bytes|0b;01 02 0b h KEY|verify|BODY|000000000b ZERO_TAG|true 1
the same with a byte 0, cut to 16 bytes, under the other body|0b;01 01 0b h KEY|verify|BODY|010000000b ZERO_TAG|false 1
the same with a byte 0, cut to 16 bytes, the last bit turned|0b;01 02 0b h KEY|verify|BODY|000000000b f67dd14688b85b4183637af0166514ee|false 1
the same with a byte 0, cut to 16 bytes, the first byte gone|0b;01 02 0b h KEY|verify|BODY|000000000b 7dd14688b85b4183637af0166514ef|false 1
the same with a byte 0, cut to 16 bytes, no tag|0b;01 02 0b h KEY|verify|BODY|000000000b|false 1
CMAC, SP 800-38B, a block|0b;01 01 0b m 1220603deb1015ca71be2b73aef0857d77811f352c073b6108d72d9810a30914dff41a020810|verify|6bc1bee22e409f96e93d7e117393172a|010000000b 28a7023f452e8f82bd4bf28d8c37c35c|true 1
CMAC, SP 800-38B, a block, under the other body|0b;01 02 0b m 1220603deb1015ca71be2b73aef0857d77811f352c073b6108d72d9810a30914dff41a020810|verify|6bc1bee22e409f96e93d7e117393172a|000000000b 28a7023f452e8f82bd4bf28d8c37c35c|false 1
CMAC, SP 800-38B, a block, the last bit turned|0b;01 01 0b m 1220603deb1015ca71be2b73aef0857d77811f352c073b6108d72d9810a30914dff41a020810|verify|6bc1bee22e409f96e93d7e117393172a|010000000b 28a7023f452e8f82bd4bf28d8c37c35d|false 1
CMAC, SP 800-38B, a block, the first byte gone|0b;01 01 0b m 1220603deb1015ca71be2b73aef0857d77811f352c073b6108d72d9810a30914dff41a020810|verify|6bc1bee22e409f96e93d7e117393172a|010000000b a7023f452e8f82bd4bf28d8c37c35c|false 1
CMAC, SP 800-38B, a block, no tag|0b;01 01 0b m 1220603deb1015ca71be2b73aef0857d77811f352c073b6108d72d9810a30914dff41a020810|verify|6bc1bee22e409f96e93d7e117393172a|010000000b|false 1
the same with a byte 0|0b;01 02 0b m 1220603deb1015ca71be2b73aef0857d77811f352c073b6108d72d9810a30914dff41a02080a|verify|6bc1bee22e409f96e93d7e117393172a|000000000b e445d00ad08073d86e5c|true 1
the same with a byte 0, under the other body|0b;01 01 0b m 1220603deb1015ca71be2b73aef0857d77811f352c073b6108d72d9810a30914dff41a02080a|verify|6bc1bee22e409f96e93d7e117393172a|010000000b e445d00ad08073d86e5c|false 1
the same with a byte 0, the last bit turned|0b;01 02 0b m 1220603deb1015ca71be2b73aef0857d77811f352c073b6108d72d9810a30914dff41a02080a|verify|6bc1bee22e409f96e93d7e117393172a|000000000b e445d00ad08073d86e5d|false 1
the same with a byte 0, the first byte gone|0b;01 02 0b m 1220603deb1015ca71be2b73aef0857d77811f352c073b6108d72d9810a30914dff41a02080a|verify|6bc1bee22e409f96e93d7e117393172a|000000000b 45d00ad08073d86e5c|false 1
the same with a byte 0, no tag|0b;01 02 0b m 1220603deb1015ca71be2b73aef0857d77811f352c073b6108d72d9810a30914dff41a02080a|verify|6bc1bee22e409f96e93d7e117393172a|000000000b|false 1";

// An answer of Python's cryptography. What is given: sealed bytes, and associated data.
const DAEAD: &str = "\
opening|84868808;01 01 84868808 s SIV|dopen|0101020304 SIV_SEALED|SIV_AD|true 1
other associated data|84868808;01 01 84868808 s SIV|dopen|0101020304 SIV_SEALED||false 1
the second key of an id|08;01 01 07 s OTHER_SIV;01 01 07 s SIV;01 03 08 s OTHER_SIV|dopen|0100000007 SIV_SEALED|SIV_AD|true 2
no key of an id|08;01 01 07 s OTHER_SIV;01 01 07 s OTHER_SIV;01 03 08 s SIV|dopen|0100000007 SIV_SEALED|SIV_AD|false 3
AES-SIV|0b;01 03 0b s SIV|dopen|SIV_SEALED|SIV_AD|true 1
AES-SIV, altered|0b;01 03 0b s SIV|dopen|22a4e63521fcdc685fe4eb0984d60745d47a88f6c39e7902ec4f28efab6dcb6b|SIV_AD|false 1";

// The output prefixes of ENABLED records by hand from Tink's wire format, each with the places of its
// records. Nothing is given.
const PREFIXES: &str = "\
one TINK key|84868808;01 01 84868808 g ZERO|prefixes|||0101020304 [0]
a CRUNCHY key with id 0|01;01 04 00 g ZERO;01 03 01 g ZERO|prefixes|||0000000000 [0]
each prefix type|01;01 03 01 g ZERO;01 01 02 g ZERO;01 02 03 g ZERO;01 04 04 g ZERO|prefixes|||0100000002 [1], 0000000003 [2], 0000000004 [3]
ENABLED records alone|84868808;02 01 01 g ZERO;03 04 02 g ZERO;01 01 84868808 g ZERO;02 03 03 g ZERO|prefixes|||0101020304 [2]
the keyset's order|02;01 01 ffffffff0f g ZERO;01 01 02 g ZERO;01 01 01 g ZERO|prefixes|||01ffffffff [0], 0100000002 [1], 0100000001 [2]
RAW keys|01;01 03 01 g ZERO;01 03 02 g ZERO|prefixes|||
two keys of one id|08;01 01 07 g ONES;01 01 07 g ZERO;01 03 08 g ZERO|prefixes|||0100000007 [0, 1]
keys of an id apart|09;01 01 07 g ZERO;01 01 09 g ZERO;02 01 07 g ZERO;01 01 07 g ONES|prefixes|||0100000007 [0, 3], 0100000009 [1]
CRUNCHY and LEGACY of one id|08;01 04 07 g ZERO;01 02 07 g ZERO;01 01 07 g ZERO;01 03 08 g ZERO|prefixes|||0000000007 [0, 1], 0100000007 [2]
a RAW key of the same id|08;01 03 07 g ZERO;01 01 07 g ZERO;01 03 08 g ZERO|prefixes|||0100000007 [1]";

// The tables of each primitive, with the numbers of their rows.
const TABLES: [(&str, usize, Primitive); 4] = [
    (AEAD, 31, Primitive::Aead),
    (PREFIXES, 10, Primitive::Aead),
    (MAC, 31, Primitive::Mac),
    (DAEAD, 6, Primitive::Daead),
];

// Key messages, sealed bytes, tags and others that have a name in the tables.
const NAMED: [(&str, &str); 13] = [
    ("ZERO", "1a1000000000000000000000000000000000"),
    ("ONES", "1a10ffffffffffffffffffffffffffffffff"),
    (
        "KEY",
        "1204080310101a140b0b0b0b0b0b0b0b0b0b0b0b0b0b0b0b0b0b0b0b",
    ),
    (
        "OTHER",
        "1204080310101a140c0c0c0c0c0c0c0c0c0c0c0c0c0c0c0c0c0c0c0c",
    ),
    (
        "SIV",
        "1240fffefdfcfbfaf9f8f7f6f5f4f3f2f1f0f0f1f2f3f4f5f6f7f8f9fafbfcfdfeff000102030405060708090a0b0c0d0e0f101112131415161718191a1b1c1d1e1f",
    ),
    (
        "OTHER_SIV",
        "12400c0c0c0c0c0c0c0c0c0c0c0c0c0c0c0c0c0c0c0c0c0c0c0c0c0c0c0c0c0c0c0c0c0c0c0c0c0c0c0c0c0c0c0c0c0c0c0c0c0c0c0c0c0c0c0c0c0c0c0c0c0c0c0c",
    ),
    (
        "SEALED",
        "0000000000000000000000000388dace60b6a392f328c2b971b2fe78ab6e47d42cec13bdf53a67b21257bddf",
    ),
    (
        "ALTERED",
        "0000000000000000000000000388dace60b6a392f328c2b971b2fe78ab6e47d42cec13bdf53a67b21257bdde",
    ),
    ("BODY", "4869205468657265"),
    ("TAG", "b0344c61d8db38535ca8afceaf0bf12b"),
    ("ZERO_TAG", "f67dd14688b85b4183637af0166514ef"),
    (
        "SIV_SEALED",
        "22a4e63521fcdc685fe4eb0984d60745d47a88f6c39e7902ec4f28efab6dcb6a",
    ),
    ("SIV_AD", "101112131415161718191a1b1c1d1e1f2021222324252627"),
];

/// The digits that have this name, or the word itself.
fn digits_named(word: &str) -> &str {
    for (name, digits) in &NAMED {
        if *name == word {
            return *digits;
        }
    }
    word
}

/// The bytes of a cell, of words with a space between them, each of them digits or a name.
fn bytes_named(alloc: Global, row: &str, place: usize) -> Result<Vec<u8>, Fail>
    ensures few { IfOk result (λ bytes. length bytes.items ≤ 1000) }
{
    let mut bytes = Vec::new(alloc);
    for word in cell(row, place)?.split(' ') {
        bytes.extend_from_slice(&bytes_of(alloc, digits_named(word))?)?;
    }
    few(bytes)
}

// A word of a record.
fn word(record: &str, place: usize) -> Result<&str, Fail> {
    Ok(record.split(' ').nth(place).ok_or("a word of a record")?)
}

// A field of bytes, fewer than 16,384 of them: its tag, their number and themselves, in digits.
fn field(alloc: Global, tag: &str, digits: &str) -> Result<String, Fail> {
    let size = digits.len() / 2;
    if size < 128 {
        Ok(format!(in alloc; "{tag}{size:02x}{digits}")?)
    } else {
        Ok(format!(in alloc; "{tag}{:02x}{:02x}{digits}", size % 128 + 128, size / 128)?)
    }
}

// A record's key data (`KeyData` of tink.proto), in digits.
fn key_data(alloc: Global, record: &str) -> Result<String, Fail> {
    let url = digits_of(alloc, word(record, 3)?.as_bytes())?;
    let url = field(alloc, "0a", url.as_str())?;
    let value = field(alloc, "12", digits_named(word(record, 4)?))?;
    Ok(format!(in alloc; "{url}{value}1801")?)
}

// A record's message (`Key` of tink.proto), in digits.
fn record_digits(alloc: Global, record: &str) -> Result<String, Fail> {
    let data = field(alloc, "0a", key_data(alloc, record)?.as_str())?;
    let (status, prefix, id) = (word(record, 0)?, word(record, 1)?, word(record, 2)?);
    let key = format!(in alloc; "{data}10{status}18{id}20{prefix}")?;
    field(alloc, "12", key.as_str())
}

// The keyset of a row (`Keyset` of tink.proto).
fn keyset_in(alloc: Global, row: &str) -> Result<Keyset, Fail> {
    let (primary, records) = cell(row, 1)?.split_once(';').ok_or("a record")?;
    let mut digits = format!(in alloc; "08{primary}")?;
    for record in records.split(';') {
        digits.push_str(record_digits(alloc, record)?.as_str())?;
    }
    Ok(read_binary(alloc, &few(bytes_of(alloc, digits.as_str())?)?)?)
}

// Whether bytes are taken, and how many keys were tried.
fn tried(alloc: Global, taken: bool, trials: &Trials) -> Result<String, Fail> {
    Ok(format!(in alloc; "{taken} {}", trials.spent())?)
}

// Of an AEAD: what a row's bytes come to, or each prefix in digits, with its places.
fn aead_text(
    alloc: Global,
    handle: &Handle<'_>,
    work: &str,
    given: &[u8],
    ad: &[u8],
) -> Result<String, Fail>
    requires over { (keys : Keys) × IsOver (⟦<Managers as KeyTable>⟧.table
        handle.now.managers.now) Aead keys handle.now.held }
    requires few_given { length given.now ≤ 1000 }
    requires few_ad { length ad.now ≤ 1000 }
{
    if work == "prefixes" {
        return prefixes_text(alloc, handle);
    }
    let mut trials = Trials::new();
    let plain = handle.open(alloc, given, ad, &mut trials)?;
    tried(alloc, plain.is_some(), &trials)
}

// Each prefix in digits, with its places.
fn prefixes_text(alloc: Global, handle: &Handle<'_>) -> Result<String, Fail> {
    let mut text = String::new(alloc);
    for (prefix, places) in handle.prefixes() {
        let before = if text.is_empty() { "" } else { ", " };
        let digits = digits_of(alloc, prefix)?;
        text = format!(in alloc; "{text}{before}{digits} {:?}", places.as_slice())?;
    }
    Ok(text)
}

// The same of a deterministic one.
fn daead_text(alloc: Global, handle: &Handle<'_>, given: &[u8], ad: &[u8]) -> Result<String, Fail>
    requires over { (keys : Keys) × IsOver (⟦<Managers as KeyTable>⟧.table
        handle.now.managers.now) Daead keys handle.now.held }
    requires few_given { length given.now ≤ 1000 }
    requires few_ad { length ad.now ≤ 1000 }
{
    let mut trials = Trials::new();
    let plain = handle.dopen(alloc, given, ad, &mut trials)?;
    tried(alloc, plain.is_some(), &trials)
}

// The same of a tag.
fn mac_text(alloc: Global, handle: &Handle<'_>, body: &[u8], tag: &[u8]) -> Result<String, Fail>
    requires over { (keys : Keys) × IsOver (⟦<Managers as KeyTable>⟧.table
        handle.now.managers.now) Mac keys handle.now.held }
    requires few { length body.now ≤ 1000 }
{
    let mut trials = Trials::new();
    let holds = handle.verify(tag, body, &mut trials);
    tried(alloc, holds, &trials)
}

// What a handle for a primitive answers to a work, with a row's two lists of bytes.
fn answered(
    alloc: Global,
    handle: &Handle<'_>,
    primitive: Primitive,
    work: &str,
    first: &[u8],
    second: &[u8],
) -> Result<String, Fail>
    requires over { (keys : Keys) × IsOver (⟦<Managers as KeyTable>⟧.table
        handle.now.managers.now) primitive keys handle.now.held }
    requires few_first { length first.now ≤ 1000 }
    requires few_second { length second.now ≤ 1000 }
{
    match primitive {
        Primitive::Aead => aead_text(alloc, handle, work, first, second),
        Primitive::Daead => daead_text(alloc, handle, first, second),
        Primitive::Mac => mac_text(alloc, handle, first, second),
        Primitive::Prf | Primitive::Stream => Err("a primitive that tries keys".into()),
    }
}

// What a row's keyset answers for a primitive, or why it can't. This function alone owns a handle, since
// what is proved of a handle's end is dear.
fn answer(alloc: Global, all: &Managers, primitive: Primitive, row: &str) -> Result<String, Fail> {
    if let Primitive::Stream = primitive {
        return Err("a primitive that handles have".into());
    }
    let keyset = keyset_in(alloc, row)?;
    let first = bytes_named(alloc, row, 3)?;
    let second = bytes_named(alloc, row, 4)?;
    match Handle::new(alloc, &keyset, all, primitive) {
        Ok(handle) => answered(alloc, &handle, primitive, cell(row, 2)?, &first, &second),
        Err(_) => Err("keys with managers".into()),
    }
}

#[test]
fn a_keyset_tries_its_candidates_in_order(rt: HostRuntime) -> Result<(), Fail> {
    let aead = [
        ("g", AeadScheme::Gcm),
        ("e", AeadScheme::Eax),
        ("c", AeadScheme::CtrHmac),
        ("v", AeadScheme::GcmSiv),
    ];
    let mac = [("h", MacScheme::Hmac), ("m", MacScheme::Cmac)];
    let all = managers_of(rt.alloc(), &aead, &["s"], &mac)?;
    for &(table, rows, primitive) in &TABLES {
        count(table, rows)?;
        for row in table.lines() {
            let found = answer(rt.alloc(), &all, primitive, row)?;
            holds(row, 5, cell(row, 2)?, found.as_str())?;
        }
    }
    Ok(())
}
