//! Published values of GHASH, of products and of subkeys; and the fast forms beside the plain ones.

use crate::plain::galois::{ghash_by_blocks, mul_by_bits};
use crate::rows::{Row, assert_rows, number_of, title};
use ghash::{Ghash, dbl, mul};
use std::alloc::Global;
use std::test::Fail;
use test_words::{number_in, same_bytes};

// A tag of GCM is GHASH plus the cipher of the first counter block. The values of GHASH are so
// computed, with H, by python's cryptography, from the tags of The Galois/Counter Mode of Operation
// (McGrew and Viega, appendix B), which prints GHASH too, and of NIST's gcmEncryptExtIV128.rsp and
// gcmEncryptExtIV256.rsp (the record's section, by its lengths in bits, count 0).
//
// A row has what it shows, H, associated data, ciphertext and GHASH.
const PUBLISHED: &str = "\
no byte (test case 1)|66e94bd4ef8a2c3b884cfa59ca342b2e|||00000000000000000000000000000000
one block (test case 2)|66e94bd4ef8a2c3b884cfa59ca342b2e||0388dace60b6a392f328c2b971b2fe78|f38cbb1ad69223dcc3457ae5b6b0f885
both padded (test case 16)|acbef20579b4b8ebce889bac8732dad7|feedfacedeadbeeffeedfacedeadbeefabaddad2|522dc1f099567d07f47f37a32a84427d643a8cdcbfe5c0c97598a2bd2555d1aa8cb08e48590dbb3da7b08b1056828838c5f61e6393ba7a0abcc9f662|8bd0c4d8aacd391e67cca447e8c38f65
whole associated data (128, PTlen = 104, AADlen = 384)|22135084803e18c06204d3879e1ecf43|0944b661fe6294f3c92abb087ec1b259b032dc4e0c5f28681cbe6e63c2178f474326f35ad3ca80c28e3485e7e5b252c8|206f6b3bb032dfecd39f8340b1|9484e3e77649afcdf3911ddf027a1eaa
whole text (256, PTlen = 256, AADlen = 0)|033714c6c432b5b04259e0dcfd5007a5||791a4a026f16f3a5ea06274bf02baab469860abde5e645f3dd473a5acddeecfc|e140ce97863b006b770ef879578c9025";

// GHASH of associated data alone, whose byte i is 7 i modulo 251, from the tags of python's
// cryptography under the key 00 01 .. 0f. A row has what it shows, the number of bytes, H and GHASH.
const LONG: &str = "\
all eight powers|2048|c6a13b37878f5b826f4f8162a1c8d879|29b6264bbba6f736881b0f78a5a5320d
all eight powers, and a part of a block|2261|c6a13b37878f5b826f4f8162a1c8d879|7a921dddba302a7cae24b5e420bf4e46
twice as long|4173|c6a13b37878f5b826f4f8162a1c8d879|c7e3110b9ae6037bc8e1aba1e0da2d97
longer|9999|c6a13b37878f5b826f4f8162a1c8d879|9a15b9a7593709aad81e2f1bb7460b85";

// X 1 of test case 2 of the same appendix: what it shows, two blocks and their product.
const PRODUCTS: &str = "\
X 1 (test case 2)|0388dace60b6a392f328c2b971b2fe78|66e94bd4ef8a2c3b884cfa59ca342b2e|5e2ec746917062882c85b0685353deb7";

// The subkeys of SP 800-38B (2005), D.1 and D.3: what it shows, the cipher of the block of zeros,
// K1 and K2.
const DOUBLED: &str = "\
AES-128|7df76b0c1ab899b33e42f047b91b546f|fbeed618357133667c85e08f7236a8de|f7ddac306ae266ccf90bc11ee46d513b
AES-256|e568f68194cf76d6174d4cc04310a854|cad1ed03299eedac2e9a99808621502f|95a3da06533ddb585d3533010c42a0d9";

// The sizes of pieces in which the parts come.
const CUTS: [(usize, &str); 3] = [
    (16, "GHASH in pieces of 16 bytes"),
    (32, "GHASH in pieces of 32 bytes"),
    (64, "GHASH in pieces of 64 bytes"),
];

const LONG_CUTS: [(usize, &str); 5] = [
    (16, "GHASH in pieces of 16 bytes"),
    (64, "GHASH in pieces of 64 bytes"),
    (128, "GHASH in pieces of 128 bytes"),
    (2048, "GHASH in pieces of 2048 bytes"),
    (16384, "GHASH in pieces of 16384 bytes"),
];

// GHASH of the parts, each of them in pieces of that size.
fn ghash_in_pieces(h: u128, parts: &[&[u8]], size: usize) -> u128 {
    let mut hash = Ghash::new(h);
    for part in parts {
        for piece in part.chunks(size.max(1)) {
            hash.absorb(piece);
        }
    }
    hash.finish()
}

// Bytes of which byte i is 7 i modulo 251.
fn sevens() -> [u8; 9999] {
    let mut bytes = [0; 9999];
    for (i, byte) in bytes.iter_mut().enumerate() {
        *byte = (i % 251 * 7 % 251) as u8;
    }
    bytes
}

struct HashRow;

struct LongHashRow;

struct ProductRow;

struct DoubledRow;

// The block of the lengths of both parts, in bits.
fn lengths(ad: &[u8], text: &[u8]) -> [u8; 16] {
    ((ad.len() as u128 * 8) << 64 | text.len() as u128 * 8).to_be_bytes()
}

impl Row for HashRow {
    fn assert_row(alloc: Global, row: &str, cells: &[Vec<u8>]) -> Result<(), Fail> {
        let [h, ad, text, want] = cells else {
            return Err("H, two parts and GHASH".into());
        };
        let h = number_of(h).ok_or("a block")?;
        let parts: [&[u8]; 3] = [ad, text, &lengths(ad, text)];
        for &(size, part) in &CUTS {
            let found = ghash_in_pieces(h, &parts, size).to_be_bytes();
            same_bytes(alloc, title(row), part, want, &found)?;
        }
        Ok(())
    }
}

impl Row for LongHashRow {
    fn assert_row(alloc: Global, row: &str, cells: &[Vec<u8>]) -> Result<(), Fail> {
        let [h, want] = cells else {
            return Err("H and GHASH".into());
        };
        let h = number_of(h).ok_or("a block")?;
        let sevens = sevens();
        let data = sevens
            .get(..number_in(row, 1)?)
            .ok_or("9,999 bytes at most")?;
        let parts: [&[u8]; 2] = [data, &lengths(data, &[])];
        for &(size, part) in &LONG_CUTS {
            let found = ghash_in_pieces(h, &parts, size).to_be_bytes();
            same_bytes(alloc, title(row), part, want, &found)?;
        }
        Ok(())
    }
}

fn product(x: &[u8], y: &[u8]) -> Option<[u8; 16]> {
    Some(mul(number_of(x)?, number_of(y)?).to_be_bytes())
}

impl Row for ProductRow {
    fn assert_row(alloc: Global, row: &str, cells: &[Vec<u8>]) -> Result<(), Fail> {
        let [x, y, want] = cells else {
            return Err("two blocks and their product".into());
        };
        let found = product(x, y).ok_or("two blocks")?;
        same_bytes(alloc, title(row), "the product", want, &found)
    }
}

impl Row for DoubledRow {
    fn assert_row(alloc: Global, row: &str, cells: &[Vec<u8>]) -> Result<(), Fail> {
        let [block, k1, k2] = cells else {
            return Err("a block, K1 and K2".into());
        };
        let found = dbl(number_of(block).ok_or("a block")?);
        same_bytes(alloc, title(row), "K1", k1, &found.to_be_bytes())?;
        same_bytes(alloc, title(row), "K2", k2, &dbl(found).to_be_bytes())
    }
}

#[test]
fn hashes_the_published_cases_in_any_pieces(rt: HostRuntime) -> Result<(), Fail> {
    assert_rows::<HashRow>(rt.alloc(), 1, PUBLISHED)
}

#[test]
fn hashes_long_data_in_any_pieces(rt: HostRuntime) -> Result<(), Fail> {
    assert_rows::<LongHashRow>(rt.alloc(), 2, LONG)
}

#[test]
fn multiplies_as_printed(rt: HostRuntime) -> Result<(), Fail> {
    assert_rows::<ProductRow>(rt.alloc(), 1, PRODUCTS)
}

#[test]
fn doubles_as_printed(rt: HostRuntime) -> Result<(), Fail> {
    assert_rows::<DoubledRow>(rt.alloc(), 1, DOUBLED)
}

fn ghash_at_once(h: u128, data: &[u8]) -> u128 {
    let mut hash = Ghash::new(h);
    hash.absorb(data);
    hash.finish()
}

// GHASH by a new one and by one that is kept, and a product after it, by the fast forms and the plain.
fn assert_as_plainly(kept: &mut Ghash, h: u128, data: &[u8]) -> Result<(), (&'static str, usize)> {
    let want = ghash_by_blocks(h, data);
    if ghash_at_once(h, data) != want {
        return Err(("GHASH of the plain form", data.len()));
    }
    kept.restart();
    kept.absorb(data);
    if kept.finish() != want {
        return Err(("GHASH of the plain form, with all powers", data.len()));
    }
    let factor = h ^ data.len() as u128;
    if mul(want, factor) != mul_by_bits(want, factor) {
        return Err(("the product of the plain form", data.len()));
    }
    Ok(())
}

// Every length up to 400 bytes and those around 4,096, where a new GHASH goes from one power to
// four and to eight; and the same by one GHASH that has all its powers, and starts again for each.
#[test]
fn gives_what_the_plain_forms_give(_rt: HostRuntime) -> Result<(), Fail> {
    let h = 0xc6a13b37878f5b826f4f8162a1c8d879;
    let sevens = sevens();
    let data = sevens.get(..4113).ok_or("4,113 bytes")?;
    let mut kept = Ghash::new(h);
    kept.absorb(data);
    for size in 0..data.len() {
        if size > 400 && size < 4080 {
            continue;
        }
        assert_as_plainly(&mut kept, h, &data[..size])?;
    }
    Ok(())
}
