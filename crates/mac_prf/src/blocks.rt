//! The doubling of blocks.

ghost use Rattle.std.specs.Prelude.{◌≡◌};
ghost use Rattle.mac_prf.specs.Cmac.{doubled_block};

use ghash::dbl;

/// The block doubled in the field of 2^128 elements (SP 800-38B, 6.1; `dbl` of RFC 5297, 2.3).
pub fn doubled(block: &[u8; 16]) -> [u8; 16]
    ensures { result ≡ doubled_block block.now }
{
    dbl(u128::from_be_bytes(*block)).to_be_bytes()
}
