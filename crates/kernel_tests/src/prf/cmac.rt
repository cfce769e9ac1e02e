//! CMAC against printed and independent tags, of messages that come in pieces.

use crate::rows::{Row, assert_rows, title};
use aes_core::Aes;
use mac_prf::Cmac;
use std::alloc::Global;
use std::test::Fail;
use test_words::same_bytes;

// What it shows, key, message and tag: RFC 4493, section 4, and SP 800-38B (2005), D.3, whose tags
// Python's cryptography gives too; and the last three from there alone.
const ROWS: &str = "\
the empty message, AES-128|2b7e151628aed2a6abf7158809cf4f3c||bb1d6929e95937287fa37d129b756746
one whole block, AES-128|2b7e151628aed2a6abf7158809cf4f3c|6bc1bee22e409f96e93d7e117393172a|070a16b46b4d4144f79bdd9dd04a287c
a padded block, AES-128|2b7e151628aed2a6abf7158809cf4f3c|6bc1bee22e409f96e93d7e117393172aae2d8a571e03ac9c9eb76fac45af8e5130c81c46a35ce411|dfa66747de9ae63030ca32611497c827
whole blocks, AES-128|2b7e151628aed2a6abf7158809cf4f3c|6bc1bee22e409f96e93d7e117393172aae2d8a571e03ac9c9eb76fac45af8e5130c81c46a35ce411e5fbc1191a0a52eff69f2445df4f9b17ad2b417be66c3710|51f0bebf7e3b9d92fc49741779363cfe
the empty message, AES-256|603deb1015ca71be2b73aef0857d77811f352c073b6108d72d9810a30914dff4||028962f61b7bf89efc6b551f4667d983
one whole block, AES-256|603deb1015ca71be2b73aef0857d77811f352c073b6108d72d9810a30914dff4|6bc1bee22e409f96e93d7e117393172a|28a7023f452e8f82bd4bf28d8c37c35c
a padded block, AES-256|603deb1015ca71be2b73aef0857d77811f352c073b6108d72d9810a30914dff4|6bc1bee22e409f96e93d7e117393172aae2d8a571e03ac9c9eb76fac45af8e5130c81c46a35ce411|aaf3d8f1de5640c232f5b169b9c911e6
whole blocks, AES-256|603deb1015ca71be2b73aef0857d77811f352c073b6108d72d9810a30914dff4|6bc1bee22e409f96e93d7e117393172aae2d8a571e03ac9c9eb76fac45af8e5130c81c46a35ce411e5fbc1191a0a52eff69f2445df4f9b17ad2b417be66c3710|e1992190549f6ed5696a2c056c315410
a byte, AES-128|2b7e151628aed2a6abf7158809cf4f3c|6b|8e48c3c1d9f1c17c295c7aefd232bb14
a block and a byte, AES-128|2b7e151628aed2a6abf7158809cf4f3c|6bc1bee22e409f96e93d7e117393172aae|bc72cc168ec5a1434dcdb20bc1a2c2a4
a block less a byte, AES-256|603deb1015ca71be2b73aef0857d77811f352c073b6108d72d9810a30914dff4|6bc1bee22e409f96e93d7e11739317|614bfa1aaed09471535432d7c6df334f";

// The sizes of pieces in which each message comes.
const CUTS: [(usize, &str); 5] = [
    (1, "the tag in pieces of 1 byte"),
    (7, "the tag in pieces of 7 bytes"),
    (16, "the tag in pieces of 16 bytes"),
    (40, "the tag in pieces of 40 bytes"),
    (200, "the tag in pieces of 200 bytes"),
];

// The tag of a message that comes in pieces of `cut` bytes.
fn tag_in_pieces(key: &Aes, message: &[u8], cut: usize) -> [u8; 16] {
    let mut cmac = Cmac::under(key);
    for piece in message.chunks(cut.max(1)) {
        cmac.update(piece);
    }
    cmac.finish()
}

struct TagRow;

impl Row for TagRow {
    fn assert_row(alloc: Global, row: &str, cells: &[Vec<u8>]) -> Result<(), Fail> {
        let [key, message, want] = cells else {
            return Err("a key, a message and a tag".into());
        };
        assert_tagged(alloc, title(row), &Aes::new(key)?, message, want)
    }
}

fn assert_tagged(
    alloc: Global,
    shows: &str,
    key: &Aes,
    message: &[u8],
    want: &[u8],
) -> Result<(), Fail> {
    for &(cut, part) in &CUTS {
        same_bytes(alloc, shows, part, want, &tag_in_pieces(key, message, cut))?;
    }
    Ok(())
}

#[test]
fn tags_the_messages_of_the_standard_in_any_pieces(rt: HostRuntime) -> Result<(), Fail> {
    assert_rows::<TagRow>(rt.alloc(), 1, ROWS)
}
