//! Products of blocks with factors known in advance. No branch and no memory address depends on a
//! block or a factor.
//!
//! A byte in the leftmost place of a block is two numbers below 16. A factor keeps its products
//! with the 16 numbers in each of the two leftmost places of four bits, cut into rows: row j has
//! byte j of all 16 products of the first place, then of the second. So a row is a vector of two
//! halves, and a shuffle within each half looks up byte j of the products of all 16 bytes of a
//! block: lanes b and 16 + b look up the two numbers of byte b. A processor with registers of 32
//! bytes does that at once; elsewhere each vector is two.
//!
//! Lane b has the weight x^(8 b). Byte j of each product moves j places on, so the sums of bytes
//! are added from the last place to the first, with a shift by one place, which multiplies by x^8,
//! in between. What is shifted past the block is folded in at the end. Several blocks, each with
//! its own factor, share the shifts and the fold; from memory only their rows are read, at indices
//! that the loop counts.
//!
//! The compiler's output matters: blocks go from numbers to lanes by `lanes_of`, since
//! `to_be_bytes` before a shuffle is compiled byte by byte; a row is masked by a vector of
//! constants, since splats of single bytes take three times as long; `from_ref` borrows a factor,
//! which an array of one would copy.
ghost use Rattle.ghash.specs.Field.{prod, shifted_factor};
ghost use Rattle.ghash.specs.Places.{byte_rows, IsBlock, xor_sum, sum_of_products};
ghost use Rattle.ghash.specs.FactorState.{IsFactor};
ghost use Rattle.std.specs.Int.{w128, byte_at, from_be_bytes, to_be_bytes};
ghost use Rattle.std.specs.Prelude.{◌≡◌, ◌≤◌, ◌<◌, ◌+◌, ◌-◌, ◌*◌, ◌^◌, ◌/◌, ◌%◌, ℕ, List, [], ◌++◌, bit_and, bit_xor, length, map, get_or};
ghost use Rattle.std.specs.List.{range_with_len};
ghost use Rattle.std.specs.Simd.Lanes.{Each1, Each2};

use crate::field::multiply_by_x;
use std::simd::prelude::*;
use std::slice::from_ref;

// Lane v is 255 if the number v has the bit of that weight, and 0 otherwise.
const EIGHTS: [u8; 16] = [
    0, 0, 0, 0, 0, 0, 0, 0, 255, 255, 255, 255, 255, 255, 255, 255,
];

const FOURS: [u8; 16] = [
    0, 0, 0, 0, 255, 255, 255, 255, 0, 0, 0, 0, 255, 255, 255, 255,
];

const TWOS: [u8; 16] = [
    0, 0, 255, 255, 0, 0, 255, 255, 0, 0, 255, 255, 0, 0, 255, 255,
];

const ONES: [u8; 16] = [
    0, 255, 0, 255, 0, 255, 0, 255, 0, 255, 0, 255, 0, 255, 0, 255,
];

/// The products of a factor with the numbers below 16, in the two leftmost places of four bits. Row
/// j has byte j of each product in the first place, and then in the second.
#[derive(Clone, Copy, Drop)]
pub struct Factor {
    rows: [[u8; 32]; 16],
}

/// The block 1 0^127, whose product with a factor is that factor.
pub const ONE: u128 = 1 << 127;

/// The value of a factor that isn't made yet.
pub fn no_factor() -> Factor {
    Factor {
        rows: [[0; 32]; 16],
    }
}

/// Makes the products of a factor.
pub fn factor_of(h: u128) -> Factor
    ensures { IsFactor result h }
{
    let x = multiply_by_x(h);
    let xx = multiply_by_x(x);
    let xxx = multiply_by_x(xx);
    Factor {
        rows: side_by_side(&rows_of(h), &rows_of(multiply_by_x(xxx))),
    }
}

// Each row of the first place, followed by the same row of the second.
#[inline(always)]
fn side_by_side(left: &[[u8; 16]; 16], right: &[[u8; 16]; 16]) -> [[u8; 32]; 16]
    requires left { Each1 IsBlock left.now }
    requires right { Each1 IsBlock right.now }
    ensures { result
        ≡ map (λ j. get_or left.now j [] ++ get_or right.now j []) (range_with_len 0 16) }
{
    let mut rows = [[0; 32]; 16];
    for j in 0..16 {
        rows[j] = joined(u8x16::from_array(left[j]), u8x16::from_array(right[j])).to_array();
    }
    rows
}

// Two vectors as one.
#[inline(always)]
fn joined(first: u8x16, second: u8x16) -> u8x32
    ensures { result ≡ first ++ second }
{
    first.shuffle(
        second,
        [
            0, 1, 2, 3, 4, 5, 6, 7, 8, 9, 10, 11, 12, 13, 14, 15, 16, 17, 18, 19, 20, 21, 22, 23,
            24, 25, 26, 27, 28, 29, 30, 31,
        ],
    )
}

// The rows of the leftmost place. The product of a number is the sum of the products of its bits.
fn rows_of(h: u128) -> [[u8; 16]; 16]
    ensures { result ≡ byte_rows h 31 }
{
    let x = multiply_by_x(h);
    let xx = multiply_by_x(x);
    let xxx = multiply_by_x(xx);
    let eights = lanes_of(h);
    let fours = lanes_of(x);
    let twos = lanes_of(xx);
    let ones = lanes_of(xxx);
    let mut rows = [[0; 16]; 16];
    for j in 0..16_u8 {
        let high = masked(eights, j, EIGHTS) ^ masked(fours, j, FOURS);
        let low = masked(twos, j, TWOS) ^ masked(ones, j, ONES);
        rows[j as usize] = (high ^ low).to_array();
    }
    rows
}

// Byte j in the lanes of the mask.
#[inline(always)]
fn masked(bytes: u8x16, j: u8, mask: [u8; 16]) -> u8x16
    requires long { length mask ≡ 16 }
    requires within { j < 16 }
    ensures { result ≡ map (bit_and (get_or bytes j 0)) mask }
{
    bytes.swizzle_dyn_within::<16>(u8x16::splat(j)) & u8x16::from_array(mask)
}

// What the left half of each byte looks up in a row's first half, then what its right half looks up
// in the second.
#[inline(always)]
fn looked_up(row: [u8; 32], bytes: u8x16) -> u8x32
    ensures { result ≡ map (λ n. get_or row (n / 16) 0) bytes
        ++ map (λ n. get_or row (16 + n % 16) 0) bytes }
{
    let halves = joined(bytes >> u8x16::splat(4), bytes & u8x16::splat(15));
    u8x32::from_array(row).swizzle_dyn_within::<16>(halves)
}

// The sum of both halves.
#[inline(always)]
fn added(sums: u8x32) -> u8x16
    ensures long { length result ≡ 16 }
    ensures each { (b : ℕ) → b < 16 → get_or result b 0
        ≡ bit_xor (get_or sums b 0) (get_or sums (16 + b) 0) }
{
    let first: u8x16 = sums.swizzle([0, 1, 2, 3, 4, 5, 6, 7, 8, 9, 10, 11, 12, 13, 14, 15]);
    let second: u8x16 = sums.swizzle([
        16, 17, 18, 19, 20, 21, 22, 23, 24, 25, 26, 27, 28, 29, 30, 31,
    ]);
    first ^ second
}

// Byte j of sums: lane b sums the products of byte b of the blocks.
#[inline(always)]
fn byte_sums(factors: &[Factor], blocks: &[[u8; 16]], j: usize) -> u8x16
    requires same { length factors.now ≡ length blocks.now }
    requires within { j < 16 }
    requires bytes { Each1 IsBlock blocks.now }
    ensures long { length result ≡ 16 }
    ensures each { (hs : List ℕ) → length hs ≡ length factors.now → Each2 IsFactor factors.now hs
        → (b : ℕ) → b < 16 → get_or result b 0 ≡ byte_at (15 - j) (xor_sum
        (λ i. prod (get_or (get_or blocks.now i []) b 0 * 2 ^ 120) (get_or hs i 0))
        (length blocks.now)) }
{
    let mut sums = u8x32::splat(0);
    for i in 0..blocks.len() {
        let next = sums ^ looked_up(factors[i].rows[j], u8x16::from_array(blocks[i]));
        sums = next;
    }
    added(sums)
}

/// The sum of the products of blocks, each with its own factor.
///
/// Lane b of the sums has the weight x^(8 b). They are added from the last place to the first, with
/// a shift by one place, which multiplies by x^8, in between: so byte j moves j places on.
#[inline(always)]
pub fn sum_of_products(factors: &[Factor], blocks: &[[u8; 16]]) -> u128
    requires same { length factors.now ≡ length blocks.now }
    requires bytes { Each1 IsBlock blocks.now }
    ensures { (hs : List ℕ) → length hs ≡ length factors.now → Each2 IsFactor factors.now hs
        → result ≡ sum_of_products (map (from_be_bytes w128) blocks.now) hs }
{
    let none = u8x16::splat(0);
    let mut left = none;
    let mut right = none;
    for i in 0..16 {
        let sums = byte_sums(factors, blocks, 15 - i);
        right = left.shuffle(
            right,
            [
                15, 16, 17, 18, 19, 20, 21, 22, 23, 24, 25, 26, 27, 28, 29, 30,
            ],
        );
        left = sums
            ^ none.shuffle(
                left,
                [
                    15, 16, 17, 18, 19, 20, 21, 22, 23, 24, 25, 26, 27, 28, 29, 30,
                ],
            );
    }
    reduced(left, right)
}

// The block that 31 bytes and a zero reduce to, since x^128 is 1 + x + x^2 + x^7.
#[inline(always)]
fn reduced(left: u8x16, right: u8x16) -> u128
    requires { get_or right 15 0 ≡ 0 }
    ensures { result ≡ xor_sum (λ c. shifted_factor (get_or (left ++ right) c 0 * 2 ^ 120) (8 * c))
        32 }
{
    let past = u128::from_be_bytes(right.to_array());
    u128::from_be_bytes(left.to_array()) ^ past ^ (past >> 1) ^ (past >> 2) ^ (past >> 7)
}

/// The bytes of a block, the highest one first.
#[inline(always)]
pub fn lanes_of(block: u128) -> u8x16
    ensures { result ≡ to_be_bytes w128 block }
{
    let high = (block >> 64) & 0xFFFF_FFFF_FFFF_FFFF;
    let low = block & 0xFFFF_FFFF_FFFF_FFFF;
    u64x2::from_array([high as u64, low as u64])
        .to_le_bytes()
        .swizzle([7, 6, 5, 4, 3, 2, 1, 0, 15, 14, 13, 12, 11, 10, 9, 8])
}

/// The product of a block with a factor.
pub fn multiply(factor: &Factor, block: u128) -> u128
    ensures { (h : ℕ) → IsFactor factor.now h → result ≡ prod block h }
{
    sum_of_products(from_ref(factor), &[lanes_of(block).to_array()])
}

/// The product of two blocks (SP 800-38D, 6.3).
pub fn mul(x: u128, y: u128) -> u128
    ensures { result ≡ prod x y }
{
    multiply(&factor_of(y), x)
}
