//! AES: the vectors of FIPS 197 and SP 800-38A, each counter where it wraps, and the fast bodies
//! beside the plain ones at every length.

ghost use Rattle.std.specs.Prelude.{◌≤◌};

use crate::plain::aes as plain;
use crate::rows::{Row, assert_rows, exactly, title};
use aes_core::{Aes, CtrKind};
use std::alloc::Global;
use std::process::Abort;
use std::test::Fail;
use test_words::{cell, same_bytes};

// The key of FIPS 197 (2001), C.1 and C.3: the bytes from 0 on.
const COUNTING_KEY: [u8; 32] = [
    0, 1, 2, 3, 4, 5, 6, 7, 8, 9, 10, 11, 12, 13, 14, 15, 16, 17, 18, 19, 20, 21, 22, 23, 24, 25,
    26, 27, 28, 29, 30, 31,
];

// FIPS 197 (2001), appendix C: what it shows, key, block and its cipher.
const FIPS_197: &str = "\
C.1, 16 bytes|000102030405060708090a0b0c0d0e0f|00112233445566778899aabbccddeeff|69c4e0d86a7b0430d8cdb78070b4c55a
C.3, 32 bytes|000102030405060708090a0b0c0d0e0f101112131415161718191a1b1c1d1e1f|00112233445566778899aabbccddeeff|8ea2b7ca516745bfeafc49904b496089";

// SP 800-38A, F.5.1 (CTR-AES128) and F.5.5 (CTR-AES256): one start and one plaintext. Behind them
// the output blocks at starts beside the counters' ends, under the key of C.3: those of All128 are
// what `openssl enc -aes-256-ctr` makes of zeros, and those of Low32 and First32 are the single
// blocks of python's `cryptography` in ECB mode, since the CTR mode of both has the other counter
// alone.
//
// A row has what it shows, what counts, the key, the start, a text and its ciphertext.
const COUNTED: &str = "\
F.5.1|All128|2b7e151628aed2a6abf7158809cf4f3c|f0f1f2f3f4f5f6f7f8f9fafbfcfdfeff|6bc1bee22e409f96e93d7e117393172aae2d8a571e03ac9c9eb76fac45af8e5130c81c46a35ce411e5fbc1191a0a52eff69f2445df4f9b17ad2b417be66c3710|874d6191b620e3261bef6864990db6ce9806f66b7970fdff8617187bb9fffdff5ae4df3edbd5d35e5b4f09020db03eab1e031dda2fbe03d1792170a0f3009cee
F.5.5|All128|603deb1015ca71be2b73aef0857d77811f352c073b6108d72d9810a30914dff4|f0f1f2f3f4f5f6f7f8f9fafbfcfdfeff|6bc1bee22e409f96e93d7e117393172aae2d8a571e03ac9c9eb76fac45af8e5130c81c46a35ce411e5fbc1191a0a52eff69f2445df4f9b17ad2b417be66c3710|601ec313775789a5b7a7f504bbf3d228f443e3ca4d62b59aca84e990cacaf5c52b0930daa23de94ce87017ba2d84988ddfc9c58db67aada613c2dd08457941a6
sixteen bytes wrap|All128|000102030405060708090a0b0c0d0e0f101112131415161718191a1b1c1d1e1f|ffffffffffffffffffffffffffffffff|00*64|e999e41d4ca770da5387117b5d8f57eef29000b62a499fd0a9f39a6add2e7780f05d76ae4ab99fe5a6f69b3148c2363d0ebcb5deb52c83bd08a8a935182c9199
four of sixteen bytes carry|All128|000102030405060708090a0b0c0d0e0f101112131415161718191a1b1c1d1e1f|000102030405060708090a0bfffffffe|00*64|8b64b32ff7b39052bba97a548cd54f649d52ea871d37e206b64e902d1d857e44daa648ffc7cfc3a6d9f65499ff0b17818d72da2ac9d194201498fdb04c4cc401
four bytes wrap, and all sixteen were ones|Low32|000102030405060708090a0b0c0d0e0f101112131415161718191a1b1c1d1e1f|ffffffffffffffffffffffffffffffff|00*64|e999e41d4ca770da5387117b5d8f57ee80f81812bab8c119db4c70da9d98c889d879e1252052a18ea14f5e3de6ade7353a81efc960bbdec68b5eaed12c2ea34c
four bytes wrap, and twelve stay|Low32|000102030405060708090a0b0c0d0e0f101112131415161718191a1b1c1d1e1f|000102030405060708090a0bfffffffe|00*64|8b64b32ff7b39052bba97a548cd54f649d52ea871d37e206b64e902d1d857e44bddc4ccab15066ccc1fe6b0cba133eb6f4c2db1dc38805a37b92171c5d0a81cc
the first four bytes wrap, and all sixteen were ones|First32|000102030405060708090a0b0c0d0e0f101112131415161718191a1b1c1d1e1f|ffffffffffffffffffffffffffffffff|00*64|e999e41d4ca770da5387117b5d8f57ee1fe13868b5871ca55d2a84aaa4bf068cc3853c1f0dbe45a810c68c0821b9ae0911c35e207080ed32245de46e29fcc4e8
the first four bytes carry low byte first, and twelve stay|First32|000102030405060708090a0b0c0d0e0f101112131415161718191a1b1c1d1e1f|fefffffe0405060708090a0b0c0d0e0f|00*64|7a0057e31f3aeeac96d3165135c284282b20e4a02ce939c085a3292f08bec00a05800b71fce775b46b9026dbd78d4ec0beea22f80822a1f26dc7a216717b4ee9
the first four bytes wrap, and twelve stay|First32|000102030405060708090a0b0c0d0e0f101112131415161718191a1b1c1d1e1f|feffffff0405060708090a0b0c0d0e0f|00*64|2fbee73f459c542b36823f6b236f95c6c5377c3948c31ee07b22d95e9e0c9a72713b723d71251282361a180189251844d775d2d2b31d222c2edbdc7b43c2ebaf";

// SP 800-38A, F.2.1 (CBC-AES128): each ciphertext block is the chain from the IV up to it. A row
// has what it shows, the key, the start, the blocks and the last result.
const CHAINED: &str = "\
no block|2b7e151628aed2a6abf7158809cf4f3c|000102030405060708090a0b0c0d0e0f||000102030405060708090a0b0c0d0e0f
1 block|2b7e151628aed2a6abf7158809cf4f3c|000102030405060708090a0b0c0d0e0f|6bc1bee22e409f96e93d7e117393172a|7649abac8119b246cee98e9b12e9197d
2 blocks|2b7e151628aed2a6abf7158809cf4f3c|000102030405060708090a0b0c0d0e0f|6bc1bee22e409f96e93d7e117393172aae2d8a571e03ac9c9eb76fac45af8e51|5086cb9b507219ee95db113a917678b2
3 blocks|2b7e151628aed2a6abf7158809cf4f3c|000102030405060708090a0b0c0d0e0f|6bc1bee22e409f96e93d7e117393172aae2d8a571e03ac9c9eb76fac45af8e5130c81c46a35ce411e5fbc1191a0a52ef|73bed6b8e3c1743b7116e69e22229516
4 blocks|2b7e151628aed2a6abf7158809cf4f3c|000102030405060708090a0b0c0d0e0f|6bc1bee22e409f96e93d7e117393172aae2d8a571e03ac9c9eb76fac45af8e5130c81c46a35ce411e5fbc1191a0a52eff69f2445df4f9b17ad2b417be66c3710|3ff1caa1681fac09120eca307586e1a7";

// The names of the kinds in the rows.
const KINDS: [(&str, CtrKind); 3] = [
    ("Low32", CtrKind::Low32),
    ("First32", CtrKind::First32),
    ("All128", CtrKind::All128),
];

// The kind of this name.
fn kind_named(name: &str) -> Option<CtrKind> {
    for (word, kind) in &KINDS {
        if *word == name {
            return Some(*kind);
        }
    }
    None
}

struct BlockRow;

struct CounterRow;

struct ChainRow;

fn enciphered_block(key: &[u8], block: &[u8]) -> Option<[u8; 16]> {
    Some(Aes::new(key).ok()?.encrypt_block(exactly(block)?))
}

fn counted(kind: CtrKind, key: &[u8], start: &[u8], text: &[u8]) -> Option<[u8; 64]> {
    let mut body = [0; 64];
    body.copy_from_slice(exactly::<64>(text)?);
    Aes::new(key)
        .ok()?
        .ctr_xor(exactly(start)?, kind, &mut body);
    Some(body)
}

fn chained(key: &[u8], start: &[u8], blocks: &[u8]) -> Option<[u8; 16]> {
    if blocks.len() % 16 != 0 {
        return None;
    }
    Some(Aes::new(key).ok()?.chain(exactly(start)?, blocks))
}

impl Row for BlockRow {
    fn assert_row(alloc: Global, row: &str, cells: &[Vec<u8>]) -> Result<(), Fail> {
        let [key, block, want] = cells else {
            return Err("a key, a block and its cipher".into());
        };
        let found = enciphered_block(key, block).ok_or("a key and a block")?;
        same_bytes(alloc, title(row), "the cipher", want, &found)
    }
}

impl Row for CounterRow {
    fn assert_row(alloc: Global, row: &str, cells: &[Vec<u8>]) -> Result<(), Fail> {
        let [key, start, text, want] = cells else {
            return Err("a key, a start, a text and its ciphertext".into());
        };
        let kind = kind_named(cell(row, 1)?).ok_or("a kind of counter")?;
        let found = counted(kind, key, start, text).ok_or("a key, a start and 64 bytes")?;
        same_bytes(alloc, title(row), "the ciphertext", want, &found)
    }
}

impl Row for ChainRow {
    fn assert_row(alloc: Global, row: &str, cells: &[Vec<u8>]) -> Result<(), Fail> {
        let [key, start, blocks, want] = cells else {
            return Err("a key, a start, blocks and the last result".into());
        };
        let found = chained(key, start, blocks).ok_or("a key, a start and whole blocks")?;
        same_bytes(alloc, title(row), "the last result", want, &found)
    }
}

#[test]
fn enciphers_the_blocks_of_fips_197(rt: HostRuntime) -> Result<(), Fail> {
    assert_rows::<BlockRow>(rt.alloc(), 1, FIPS_197)
}

// Lengths on both sides of the two that are taken, and that of AES-192.
#[test]
fn refuses_keys_of_other_sizes(rt: HostRuntime) {
    for &size in &[0, 15, 17, 24, 31, 33] {
        assert!(rt; Aes::new(&[0; 33][..size]).is_err(), "{size} bytes");
    }
}

#[test]
fn counts_as_the_kind_says(rt: HostRuntime) -> Result<(), Fail> {
    assert_rows::<CounterRow>(rt.alloc(), 2, COUNTED)
}

#[test]
fn chains_the_blocks_of_sp_800_38a(rt: HostRuntime) -> Result<(), Fail> {
    assert_rows::<ChainRow>(rt.alloc(), 1, CHAINED)
}

// ---- the fast bodies beside the plain ones

// One length from one start. What lies behind the body stays.
fn counts_as_plainly(rt: &impl Abort, key: &[u8; 32], kind: CtrKind, start: u128, size: usize)
    requires { size ≤ 4200 }
{
    let start = start.to_be_bytes();
    let mut body = [0x5A; 4200];
    let mut want = [0x5A; 4200];
    if let Ok(aes) = Aes::new(key) {
        aes.ctr_xor(&start, kind, &mut body[..size]);
    }
    plain::ctr_xor(key, &start, kind, &mut want[..size]);
    assert!(rt; body == want, "{size} bytes");
}

// Starts from which each counter wraps in the midst of four blocks, and at their edge.
fn counts_as_plainly_from_each_start(rt: &impl Abort, size: usize)
    requires { size ≤ 4200 }
{
    let key = &COUNTING_KEY;
    for &start in &[
        u128::MAX - 5,
        0x000102030405060708090A0BFFFFFFFC,
        0xFBFFFFFF_0405060708090A0B0C0D0E0F,
    ] {
        counts_as_plainly(rt, key, CtrKind::All128, start, size);
        counts_as_plainly(rt, key, CtrKind::Low32, start, size);
        counts_as_plainly(rt, key, CtrKind::First32, start, size);
    }
}

#[test]
fn counts_as_plainly_at_every_length(rt: HostRuntime) {
    for size in 0..301 {
        counts_as_plainly_from_each_start(&rt, size);
    }
    for &size in &[4079, 4080, 4095, 4096, 4097, 4112, 4159, 4160, 4161] {
        counts_as_plainly_from_each_start(&rt, size);
    }
}

// The cipher of a block by the plain body: the fast one gives the same, and so does a chain, in which
// a block of zeros changes nothing.
fn enciphered(aes: &Aes, key: &[u8], block: &[u8; 16]) -> Result<[u8; 16], Fail> {
    if key.len() != 16 && key.len() != 32 {
        return Err("a key of 16 or 32 bytes".into());
    }
    let want = plain::encrypt_block(key, block);
    if aes.encrypt_block(block) != want {
        return Err("the cipher of the plain body".into());
    }
    if aes.chain(block, &[0; 16]) != want {
        return Err("the chain of the plain body".into());
    }
    Ok(want)
}

// A thousand blocks, each the cipher of the one before.
fn assert_enciphered_as_plainly(key: &[u8]) -> Result<(), Fail> {
    let aes = Aes::new(key)?;
    let mut block = [0; 16];
    for _ in 0..1000_u32 {
        block = enciphered(&aes, key, &block)?;
    }
    Ok(())
}

#[test]
fn enciphers_as_plainly(_rt: HostRuntime) -> Result<(), Fail> {
    assert_enciphered_as_plainly(&COUNTING_KEY[..16])?;
    assert_enciphered_as_plainly(&COUNTING_KEY)
}

#[test]
fn chains_as_plainly(rt: HostRuntime) -> Result<(), Fail> {
    let aes = Aes::new(&COUNTING_KEY)?;
    let mut body = [0; 4800];
    plain::ctr_xor(&COUNTING_KEY, &[1; 16], CtrKind::All128, &mut body);
    let mut want = [2; 16];
    for i in 0..300 {
        let last = aes.chain(&[2; 16], &body[..16 * i]);
        assert!(rt; last == want, "{i} blocks");
        for (j, byte) in want.iter_mut().enumerate() {
            *byte ^= body[16 * i + j];
        }
        want = plain::encrypt_block(&COUNTING_KEY, &want);
    }
    Ok(())
}

// Keys of both sizes that end in every byte, and in every other byte beside it: so each byte is
// substituted in each place of a word when the key is expanded.
#[test]
fn expands_keys_as_plainly(rt: HostRuntime) -> Result<(), Fail> {
    let block = [0; 16];
    for byte in 0..=255_u8 {
        for &size in &[16, 32] {
            let mut key = [0; 32];
            key[size - 4..size].copy_from_slice(&[byte, !byte, byte ^ 0x0F, byte ^ 0xF0]);
            let key = &key[..size];
            let want = plain::encrypt_block(key, &block);
            let found = Aes::new(key)?.encrypt_block(&block);
            assert!(rt; found == want, "{size} bytes that end in byte {byte}");
        }
    }
    Ok(())
}
