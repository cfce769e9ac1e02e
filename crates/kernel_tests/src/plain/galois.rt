//! The standard's own steps, bit by bit and block by block (SP 800-38D, 6.3 and 6.4): the slow forms
//! of `mul` and of GHASH, which meet the same clauses. They branch by what they multiply.
ghost use Rattle.ghash.specs.Field.{prod, times_x};
ghost use Rattle.ghash.specs.Ghash.{ghash, padded_block, padded_blocks};
ghost use Rattle.std.specs.Prelude.{◌≡◌, ◌≤◌, length};

// R, the bits 11100001 and then 120 zeros.
const REDUCTION: u128 = 0xe1 << 120;

/// The product of two blocks (SP 800-38D, 6.3).
pub(crate) fn mul_by_bits(x: u128, y: u128) -> u128
    ensures { result ≡ prod x y }
{
    let mut partial_product = 0;
    let mut shifted_factor = y;
    for i in 0..128_u32 {
        if (x >> (127 - i)) & 1 == 1 {
            partial_product ^= shifted_factor;
        }
        shifted_factor = next_factor(shifted_factor);
    }
    partial_product
}

// V (i + 1) of V i.
fn next_factor(block: u128) -> u128
    ensures { result ≡ times_x block }
{
    if block & 1 == 0 {
        block >> 1
    } else {
        (block >> 1) ^ REDUCTION
    }
}

/// GHASH of the blocks of `body` under the hash subkey `h` (SP 800-38D, 6.4).
pub(crate) fn ghash_by_blocks(h: u128, body: &[u8]) -> u128
    ensures { result ≡ ghash h (padded_blocks body.now) }
{
    let mut y = 0;
    for piece in body.chunks(16) {
        y = mul_by_bits(y ^ block_of(piece), h);
    }
    y
}

// The block of at most 16 bytes, with zeros after them.
fn block_of(piece: &[u8]) -> u128
    requires { length piece.now ≤ 16 }
    ensures { result ≡ padded_block piece.now }
{
    let mut block = [0; 16];
    block[..piece.len()].copy_from_slice(piece);
    u128::from_be_bytes(block)
}
