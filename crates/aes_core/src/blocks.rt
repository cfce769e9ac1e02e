//! Blocks of 16 bytes as modes of AES need them, and the comparison of tags.

ghost use Rattle.std.specs.Prelude.{◌≡◌, ◌↔◌, ◌-◌, ◌<◌, ◌∷◌, ◌++◌, length, replicate, IsTrue};
ghost use Rattle.aes_core.specs.Bytes.{xor_bytes};

/// Fewer than 16 bytes, padded to a block by a bit 1 and zeros (SP 800-38B, 6.2, step 4; `pad` of
/// RFC 5297, 2.1).
pub fn padded(part: &[u8]) -> [u8; 16]
    requires { length part.now < 16 }
    ensures { result ≡ part.now ++ 0x80 ∷ replicate (15 - length part.now) 0 }
{
    let mut block = [0; 16];
    block[..part.len()].copy_from_slice(part);
    block[part.len()] = 0x80;
    block
}

/// The XOR of two blocks.
pub fn xor(block: &[u8; 16], mask: &[u8; 16]) -> [u8; 16]
    ensures { result ≡ xor_bytes block.now mask.now }
{
    let mut sum = *block;
    for i in 0..16 {
        sum[i] ^= mask[i];
    }
    sum
}

/// Whether two tags of the same length are equal. All bytes are compared, wherever they differ.
pub fn same_bytes(a: &[u8], b: &[u8]) -> bool
    requires { length a.now ≡ length b.now }
    ensures { IsTrue result ↔ (a.now ≡ b.now) }
{
    let mut difference = 0;
    for i in 0..a.len() {
        difference |= a[i] ^ b[i];
    }
    difference == 0
}
