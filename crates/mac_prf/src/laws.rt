//! Laws of the definitions alone, under all five hash functions and under AES.

ghost use Rattle.mac_prf.specs.Laws.{CmacHasABlock, HkdfGivesBytes, TagsAreBytes, TagsHaveTheirSize};

use aes_core::laws::cipher_has_a_block;

/// A whole tag of HMAC has the size of its hash function's digest, under any key and of any
/// message.
pub fn tags_have_their_size()
    ensures { TagsHaveTheirSize }
{}

/// A whole tag of HMAC consists of bytes, under any key and of any message.
pub fn tags_are_bytes()
    ensures { TagsAreBytes }
{}

/// A tag of CMAC is a block of 16 bytes, under any key and of any message.
pub fn cmac_has_a_block()
    ensures { CmacHasABlock }
{
    cipher_has_a_block();
}

/// HKDF derives bytes, as many as asked for, for any secret, salt and info.
pub fn hkdf_gives_bytes()
    ensures { HkdfGivesBytes }
{}
