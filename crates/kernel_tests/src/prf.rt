//! HMAC against printed and independent tags, by the calls that other crates make.

ghost use Rattle.std.specs.Prelude.{◌<◌, ◌≤◌, length};
ghost use Rattle.mac_prf.specs.HmacState.{hash_of};
ghost use Rattle.tink_base.specs.Hash.{hash_size};

mod cmac;
mod derive;

use crate::rows::{Row, assert_rows, title};
use mac_prf::Hmac;
use std::alloc::Global;
use std::test::Fail;
use test_words::{cell, hash_named, same_bytes};
use tink_base::Hash;

// A row of a table has what it shows, the hash function, the key, the message, and the first bytes
// of the tag. `aa*20` is a byte 20 times.

// RFC 4231, section 4, in the order of its cases. The tags are Python's hmac's, and the RFC's.
const RFC_4231: &str = "\
case 1|SHA-224|0b*20|4869205468657265|896fb1128abbdf196832107cd49df33f47b4b1169912ba4f53684b22
case 1|SHA-256|0b*20|4869205468657265|b0344c61d8db38535ca8afceaf0bf12b881dc200c9833da726e9376c2e32cff7
case 1|SHA-384|0b*20|4869205468657265|afd03944d84895626b0825f4ab46907f15f9dadbe4101ec682aa034c7cebc59cfaea9ea9076ede7f4af152e8b2fa9cb6
case 1|SHA-512|0b*20|4869205468657265|87aa7cdea5ef619d4ff0b4241a1d6cb02379f4e2ce4ec2787ad0b30545e17cdedaa833b7d6b8a702038b274eaea3f4e4be9d914eeb61f1702e696c203a126854
case 2, a key shorter than a digest|SHA-224|4a656665|7768617420646f2079612077616e7420666f72206e6f7468696e673f|a30e01098bc6dbbf45690f3a7e9e6d0f8bbea2a39e6148008fd05e44
case 2, a key shorter than a digest|SHA-256|4a656665|7768617420646f2079612077616e7420666f72206e6f7468696e673f|5bdcc146bf60754e6a042426089575c75a003f089d2739839dec58b964ec3843
case 2, a key shorter than a digest|SHA-384|4a656665|7768617420646f2079612077616e7420666f72206e6f7468696e673f|af45d2e376484031617f78d2b58a6b1b9c7ef464f5a01b47e42ec3736322445e8e2240ca5e69e2c78b3239ecfab21649
case 2, a key shorter than a digest|SHA-512|4a656665|7768617420646f2079612077616e7420666f72206e6f7468696e673f|164b7a7bfcf819e2e395fbe73b56e0a387bd64222e831fd610270cd7ea2505549758bf75c05a994a6d034f65f8f0e6fdcaeab1a34d4a6b4b636e070a38bce737
case 3|SHA-224|aa*20|dd*50|7fb3cb3588c6c1f6ffa9694d7d6ad2649365b0c1f65d69d1ec8333ea
case 3|SHA-256|aa*20|dd*50|773ea91e36800e46854db8ebd09181a72959098b3ef8c122d9635514ced565fe
case 3|SHA-384|aa*20|dd*50|88062608d3e6ad8a0aa2ace014c8a86f0aa635d947ac9febe83ef4e55966144b2a5ab39dc13814b94e3ab6e101a34f27
case 3|SHA-512|aa*20|dd*50|fa73b0089d56a284efb0f0756c890be9b1b5dbdd8ee81a3655f83e33b2279d39bf3e848279a722c806b485a47e67c807b946a337bee8942674278859e13292fb
case 4|SHA-224|0102030405060708090a0b0c0d0e0f10111213141516171819|cd*50|6c11506874013cac6a2abc1bb382627cec6a90d86efc012de7afec5a
case 4|SHA-256|0102030405060708090a0b0c0d0e0f10111213141516171819|cd*50|82558a389a443c0ea4cc819899f2083a85f0faa3e578f8077a2e3ff46729665b
case 4|SHA-384|0102030405060708090a0b0c0d0e0f10111213141516171819|cd*50|3e8a69b7783c25851933ab6290af6ca77a9981480850009cc5577c6e1f573b4e6801dd23c4a7d679ccf8a386c674cffb
case 4|SHA-512|0102030405060708090a0b0c0d0e0f10111213141516171819|cd*50|b0ba465637458c6990e5a8c5f61d4af7e576d97ff94b872de76f8050361ee3dba91ca5c11aa25eb4d679275cc5788063a5f19741120c4f2de2adebeb10a298dd
case 5, a tag cut to 16 bytes|SHA-224|0c*20|546573742057697468205472756e636174696f6e|0e2aea68a90c8d37c988bcdb9fca6fa8
case 5, a tag cut to 16 bytes|SHA-256|0c*20|546573742057697468205472756e636174696f6e|a3b6167473100ee06e0c796c2955552b
case 5, a tag cut to 16 bytes|SHA-384|0c*20|546573742057697468205472756e636174696f6e|3abf34c3503b2a23a46efc619baef897
case 5, a tag cut to 16 bytes|SHA-512|0c*20|546573742057697468205472756e636174696f6e|415fad6271580a531d4179bc891d87a6
case 6, a key longer than a block|SHA-224|aa*131|54657374205573696e67204c6172676572205468616e20426c6f636b2d53697a65204b6579202d2048617368204b6579204669727374|95e9a0db962095adaebe9b2d6f0dbce2d499f112f2d2b7273fa6870e
case 6, a key longer than a block|SHA-256|aa*131|54657374205573696e67204c6172676572205468616e20426c6f636b2d53697a65204b6579202d2048617368204b6579204669727374|60e431591ee0b67f0d8a26aacbf5b77f8e0bc6213728c5140546040f0ee37f54
case 6, a key longer than a block|SHA-384|aa*131|54657374205573696e67204c6172676572205468616e20426c6f636b2d53697a65204b6579202d2048617368204b6579204669727374|4ece084485813e9088d2c63a041bc5b44f9ef1012a2b588f3cd11f05033ac4c60c2ef6ab4030fe8296248df163f44952
case 6, a key longer than a block|SHA-512|aa*131|54657374205573696e67204c6172676572205468616e20426c6f636b2d53697a65204b6579202d2048617368204b6579204669727374|80b24263c7c1a3ebb71493c1dd7be8b49b46d1f41b4aeec1121b013783f8f3526b56d037e05f2598bd0fd2215d6a1e5295e64f73f63f0aec8b915a985d786598
case 7, key and message longer than a block|SHA-224|aa*131|5468697320697320612074657374207573696e672061206c6172676572207468616e20626c6f636b2d73697a65206b657920616e642061206c6172676572207468616e20626c6f636b2d73697a6520646174612e20546865206b6579206e6565647320746f20626520686173686564206265666f7265206265696e6720757365642062792074686520484d414320616c676f726974686d2e|3a854166ac5d9f023f54d517d0b39dbd946770db9c2b95c9f6f565d1
case 7, key and message longer than a block|SHA-256|aa*131|5468697320697320612074657374207573696e672061206c6172676572207468616e20626c6f636b2d73697a65206b657920616e642061206c6172676572207468616e20626c6f636b2d73697a6520646174612e20546865206b6579206e6565647320746f20626520686173686564206265666f7265206265696e6720757365642062792074686520484d414320616c676f726974686d2e|9b09ffa71b942fcb27635fbcd5b0e944bfdc63644f0713938a7f51535c3a35e2
case 7, key and message longer than a block|SHA-384|aa*131|5468697320697320612074657374207573696e672061206c6172676572207468616e20626c6f636b2d73697a65206b657920616e642061206c6172676572207468616e20626c6f636b2d73697a6520646174612e20546865206b6579206e6565647320746f20626520686173686564206265666f7265206265696e6720757365642062792074686520484d414320616c676f726974686d2e|6617178e941f020d351e2f254e8fd32c602420feb0b8fb9adccebb82461e99c5a678cc31e799176d3860e6110c46523e
case 7, key and message longer than a block|SHA-512|aa*131|5468697320697320612074657374207573696e672061206c6172676572207468616e20626c6f636b2d73697a65206b657920616e642061206c6172676572207468616e20626c6f636b2d73697a6520646174612e20546865206b6579206e6565647320746f20626520686173686564206265666f7265206265696e6720757365642062792074686520484d414320616c676f726974686d2e|e37b6a775dc87dbaa4dfa9f96e5e3ffddebd71f8867289865df5a32d20cdc944b6022cac3c4982b10d5eeb55c3e4de15134676fb6de0446065c97440fa8c6a58";

// RFC 2202, section 3. The tags are Python's hmac's, and the RFC's.
const RFC_2202: &str = "\
case 1|SHA-1|0b*20|4869205468657265|b617318655057264e28bc0b6fb378c8ef146be00
case 2, a key shorter than a digest|SHA-1|4a656665|7768617420646f2079612077616e7420666f72206e6f7468696e673f|effcdf6ae5eb2fa2d27416d5f184df9c259a7c79
case 3|SHA-1|aa*20|dd*50|125d7342b9ac11cd91a39af48aa17b4f63f175d3
case 4|SHA-1|0102030405060708090a0b0c0d0e0f10111213141516171819|cd*50|4c9007f4026250c6bc8414f9bf50c86c2d7235da
case 5|SHA-1|0c*20|546573742057697468205472756e636174696f6e|4c1a03424b55e07fe7f27be1d58bb9324a9a5a04
case 5, a tag cut to 12 bytes|SHA-1|0c*20|546573742057697468205472756e636174696f6e|4c1a03424b55e07fe7f27be1
case 6, a key longer than a block|SHA-1|aa*80|54657374205573696e67204c6172676572205468616e20426c6f636b2d53697a65204b6579202d2048617368204b6579204669727374|aa4ae5e15272d00e95705637ce8a3b55ed402112
case 7, key and message longer than a block|SHA-1|aa*80|54657374205573696e67204c6172676572205468616e20426c6f636b2d53697a65204b657920616e64204c6172676572205468616e204f6e6520426c6f636b2d53697a652044617461|e8e99d0f45237d786d6bbaa7965c7808bbff1a91";

// Keys of the size at which they begin to be hashed, and none. The tags are Python's hmac's.
const BLOCK_EDGES: &str = "\
no key|SHA-256||7768617420646f2079612077616e7420666f72206e6f7468696e673f|76d9e7194e7dbc3aa00bbe8ffb9f6fcb5a932170f971f948bb2ab61607d2b9d6
a key of a block|SHA-1|4b*64|7768617420646f2079612077616e7420666f72206e6f7468696e673f|29ee3d30889123327ef1054ef7f35dcbdb86a7f7
a key of a block and a byte|SHA-1|4b*65|7768617420646f2079612077616e7420666f72206e6f7468696e673f|6addaf8ba9f4908ca488b840ba657066bd62e2c9
a key of a block|SHA-224|4b*64|7768617420646f2079612077616e7420666f72206e6f7468696e673f|7342103e9ccbeabc707c78e516ddbe460e8c8edb22564b593d833217
a key of a block and a byte|SHA-224|4b*65|7768617420646f2079612077616e7420666f72206e6f7468696e673f|6ced82998c7f69d78b80452752375755a77ee55049c6121369d9aaaf
a key of a block|SHA-256|4b*64|7768617420646f2079612077616e7420666f72206e6f7468696e673f|9ab1594968f06819261277223eb2557dfb824b73482cf5f44ab5156d9cc80fae
a key of a block and a byte|SHA-256|4b*65|7768617420646f2079612077616e7420666f72206e6f7468696e673f|110134e2be52f1cd85fc17aaa58e23dd9d8bd87f15a0bb4eec3cd66024396b4a
a key of a block|SHA-384|4b*128|7768617420646f2079612077616e7420666f72206e6f7468696e673f|478d6b67a2fbb0768a5097acf9156c9fd476f10596873158781ee421bede68d90f9daef710e3f2f9a584131685453861
a key of a block and a byte|SHA-384|4b*129|7768617420646f2079612077616e7420666f72206e6f7468696e673f|be9d2a977a0bd7c6f44c6af86f4fcca024699326bf1b46102bcac729739a1e154ea996ec66c9bb436d1ddcbdfbfdfff1
a key of a block|SHA-512|4b*128|7768617420646f2079612077616e7420666f72206e6f7468696e673f|0f0413ccf81d87618f3d2f72e50f147a3b8e9a2d8eb6204e95936f02f27ebfc5b0de7520b6fd481e92277a0de5c0c1a6374d988e491abc019d9fbf240cc02766
a key of a block and a byte|SHA-512|4b*129|7768617420646f2079612077616e7420666f72206e6f7468696e673f|a92a6b1907796bdaae2b2dfe1bdeb7537f1192f0a477bea5196e62b46f1bafa9aafa03dda87e99a9a0c8c606a7516cb7bfdef62e184810f24336940990261b2e";

// The sizes of pieces in which each message comes.
const CUTS: [(usize, &str); 4] = [
    (1, "the tag in pieces of 1 byte"),
    (7, "the tag in pieces of 7 bytes"),
    (64, "the tag in pieces of 64 bytes"),
    (200, "the tag in pieces of 200 bytes"),
];

// The first bytes of the tag of a message that comes in pieces of `cut` bytes, by a copy of what is
// kept under the key.
fn tag_in_pieces(kept: &Hmac, message: &[u8], cut: usize, tag: &mut [u8])
    requires positive { 0 < cut }
    requires fits { length tag.old ≤ hash_size (hash_of kept.now) }
{
    let mut hmac = kept.copy();
    for piece in message.chunks(cut) {
        hmac.update(piece);
    }
    hmac.finish(tag);
}

struct TagRow;

impl Row for TagRow {
    fn assert_row(alloc: Global, row: &str, cells: &[Vec<u8>]) -> Result<(), Fail> {
        let [key, message, want] = cells else {
            return Err("a key, a message and a tag".into());
        };
        let kept = Hmac::new(hash_named(cell(row, 1)?)?, key);
        assert_tagged(alloc, row, &kept, message, want)
    }
}

fn assert_tagged(
    alloc: Global,
    row: &str,
    kept: &Hmac,
    message: &[u8],
    want: &[u8],
) -> Result<(), Fail> {
    if want.len() > kept.tag_size() || want.len() > 64 {
        return Err("a tag".into());
    }
    let mut longest = [0; 64];
    let tag = &mut longest[..want.len()];
    for &(cut, part) in &CUTS {
        tag.fill(0);
        tag_in_pieces(kept, message, cut, tag);
        same_bytes(alloc, title(row), part, want, tag)?;
    }
    Ok(())
}

#[test]
fn tags_the_messages_of_rfc_4231_in_any_pieces(rt: HostRuntime) -> Result<(), Fail> {
    assert_rows::<TagRow>(rt.alloc(), 2, RFC_4231)
}

#[test]
fn tags_the_messages_of_rfc_2202_in_any_pieces(rt: HostRuntime) -> Result<(), Fail> {
    assert_rows::<TagRow>(rt.alloc(), 2, RFC_2202)
}

#[test]
fn hashes_only_a_key_longer_than_a_block(rt: HostRuntime) -> Result<(), Fail> {
    assert_rows::<TagRow>(rt.alloc(), 2, BLOCK_EDGES)
}

// So many bytes of the tag of RFC 4231, case 1, over other bytes.
fn first_bytes_of_case_1(size: usize) -> [u8; 17]
    requires { size ≤ 17 }
{
    let mut hmac = Hmac::new(Hash::Sha256, &[0x0b; 20]);
    hmac.update(b"Hi There");
    let mut tag = [0xee; 17];
    hmac.finish(&mut tag[..size]);
    tag
}

// RFC 4231, case 1. Its tag begins with the shorter ones (RFC 2104, 5).
fn assert_first_bytes(size: usize) -> Result<(), (&'static str, usize)> {
    let whole = 0xb0344c61d8db38535ca8afceaf0bf12b_u128.to_be_bytes();
    if size > 16 {
        return Err(("no more than 16 bytes", size));
    }
    let bytes = first_bytes_of_case_1(size);
    if bytes[..size] != whole[..size] {
        return Err(("the bytes that were asked for", size));
    }
    if bytes[size..] != [0xee; 17][size..] {
        return Err(("the bytes after them", size));
    }
    Ok(())
}

#[test]
fn writes_no_more_bytes_than_asked_for(_rt: HostRuntime) -> Result<(), Fail> {
    for &size in &[0, 10, 16] {
        assert_first_bytes(size)?;
    }
    Ok(())
}
