//! POLYVAL (RFC 8452, 3) by GHASH (appendix A): a running GHASH takes each block with its bytes
//! reversed.

ghost use Rattle.std.specs.Prelude.{◌≡◌, ◌+◌, ◌-◌, ◌≤◌, ℕ, List, [], ◌++◌, length, map, replicate, reverse};
ghost use Rattle.std.specs.Simd.Lanes.{put_chunk};
ghost use Rattle.aes_core.specs.Chain.{whole_blocks};
ghost use Rattle.ghash.specs.GhashState.{Holds};
ghost use Rattle.ghash.specs.Places.{IsBlock};
ghost use Rattle.aead_kinds.specs.GcmSiv.{right_padded};
ghost use Rattle.aead_kinds.specs.Polyval.{mulx, turned};

use ghash::{Ghash, multiply_by_x};
use std::simd::prelude::*;

// How many bytes are reversed on the stack at a time.
const PIECE: usize = 512;

/// GHASH of no block, under the hash subkey for this key of POLYVAL (appendix A).
pub(crate) fn hash_under(key: &[u8; 16]) -> Ghash
    ensures { Holds result (mulx (turned key.now)) [] }
{
    Ghash::new(multiply_by_x(u128::from_le_bytes(*key)))
}

/// Adds the blocks of `text`, padded with zeros to a whole block, each reversed.
pub(crate) fn absorb(hash: &mut Ghash, text: &[u8])
    ensures { (h : ℕ) (blocks : List ℕ) → Holds hash.old h blocks
        → Holds hash.new h (blocks ++ map turned (whole_blocks (right_padded text.now))) }
{
    for piece in text.chunks(PIECE) {
        absorb_piece(hash, piece);
    }
}

// The same for a piece, which is reversed in a copy.
fn absorb_piece(hash: &mut Ghash, piece: &[u8])
    requires { length piece.now ≤ 512 }
    ensures { (h : ℕ) (blocks : List ℕ) → Holds hash.old h blocks
        → Holds hash.new h (blocks ++ map turned (whole_blocks (right_padded piece.now))) }
{
    let mut copy = [0; PIECE];
    let mut size = 0;
    for block in piece.chunks(16) {
        write_block(&mut copy, size, turned_block(block));
        size += 16;
    }
    hash.absorb(&copy[..size]);
}

// Writes a block at `at`.
#[inline(always)]
fn write_block(copy: &mut [u8], at: usize, block: u8x16)
    requires { at + 16 ≤ length copy.old }
    ensures { copy.new ≡ put_chunk at copy.old block }
{
    block.copy_to_slice(&mut copy[at..]);
}

// The block of at most 16 bytes, padded with zeros and reversed. It is in lanes, since the compiler
// assembles a block that is read as a number byte by byte.
#[inline(always)]
fn turned_block(piece: &[u8]) -> u8x16
    requires { length piece.now ≤ 16 }
    ensures block { IsBlock result }
    ensures turned { result ≡ reverse (piece.now ++ replicate (16 - length piece.now) 0) }
{
    loaded(piece).swizzle([15, 14, 13, 12, 11, 10, 9, 8, 7, 6, 5, 4, 3, 2, 1, 0])
}

// That block, not reversed.
#[inline(always)]
fn loaded(piece: &[u8]) -> u8x16
    requires { length piece.now ≤ 16 }
    ensures { result ≡ piece.now ++ replicate (16 - length piece.now) 0 }
{
    match piece.first_chunk::<16>() {
        Some(whole) => u8x16::from_array(*whole),
        None => u8x16::from_array(padded(piece)),
    }
}

// The same, by a copy.
fn padded(piece: &[u8]) -> [u8; 16]
    requires { length piece.now ≤ 16 }
    ensures { result ≡ piece.now ++ replicate (16 - length piece.now) 0 }
{
    let mut block = [0; 16];
    block[..piece.len()].copy_from_slice(piece);
    block
}
