//! GHASH (SP 800-38D, 6.4), up to eight blocks at a time.
//!
//! By the standard's sum with powers of H, eight steps of Horner's rule are one sum of eight
//! products: GHASH so far is added to the first block, and block i has the factor H^(9 - i). Such a
//! sum needs the shifts and the fold of only one product.
ghost use Rattle.ghash.specs.Ghash.{ghash, padded_block, padded_blocks};
ghost use Rattle.ghash.specs.Field.{prod};
ghost use Rattle.std.specs.Prelude.{◌≡◌, ℕ, ◌+◌, ◌≤◌, List, [], ◌∷◌, ◌++◌, bit_xor, length};
ghost use Rattle.std.specs.Int.{w128, from_be_bytes, to_be_bytes};
ghost use Rattle.std.specs.Simd.Lanes.{chunk};

use crate::products::{Factor, ONE, factor_of, lanes_of, multiply, no_factor, sum_of_products};
use std::simd::prelude::*;

// After this many bytes under one subkey, H^2 to H^4 are made. That takes as long as twelve single
// blocks, and saves two fifths of the time.
const PAYS_FOR_FOUR: usize = 320;

// After this many, H^5 to H^8 are. That takes a little longer, and saves a sixth of the time.
const PAYS_FOR_EIGHT: usize = 4096;

/// A hash subkey as a factor, made once for GHASHes of many short messages. It takes 512 bytes.
#[derive(Drop)]
pub struct HashKey {
    factor: Factor,
}

impl HashKey {
    ghost use Rattle.ghash.specs.GhashState.{IsSubkey};

    /// Makes the factor of the hash subkey `h`.
    pub fn new(h: u128) -> HashKey
        ensures { IsSubkey result h }
    {
        HashKey {
            factor: factor_of(h),
        }
    }

    /// GHASH after the blocks of `body`, of any length, with zeros after it up to a whole block;
    /// `so_far` is GHASH of the blocks before it, and 0 of none.
    ///
    /// It is for short messages: no power of the subkey is made, and no memory is kept for one.
    pub fn absorbed(&self, so_far: u128, body: &[u8]) -> u128
        ensures { (h : ℕ) (blocks : List ℕ) → IsSubkey self.now h → so_far ≡ ghash h blocks
            → result ≡ ghash h (blocks ++ padded_blocks body.now) }
    {
        let mut y = so_far;
        for part in body.chunks(16) {
            y = multiply(&self.factor, y ^ block_of(part));
        }
        y
    }
}

/// A running GHASH under one hash subkey: its powers H^8 to H as factors, and GHASH of the blocks
/// so far. It takes 4 KiB, so borrow it rather than move it.
///
/// No branch and no memory address depends on the subkey or the data, only on lengths. At first
/// only H is a factor, so a short message is cheap; the other powers are made once, when the bytes
/// of all messages under the subkey together pay for them.
#[derive(Clone, Copy, Drop)]
pub struct Ghash {
    factors: [Factor; 8],
    // How many of the factors are made, from the last on: 1, 4 or 8.
    made: usize,
    // How many bytes came, saturating at the type's maximum.
    taken: usize,
    y: u128,
}

impl Ghash {
    ghost use Rattle.ghash.specs.GhashState.{Holds, IsSubkey};

    /// A GHASH of no block, under the hash subkey `h`.
    pub fn new(h: u128) -> Ghash
        ensures { Holds result h [] }
    {
        Ghash::under(&HashKey::new(h))
    }

    /// A GHASH of no block, under a hash subkey whose factor is made.
    pub fn under(key: &HashKey) -> Ghash
        ensures { (h : ℕ) → IsSubkey key.now h → Holds result h [] }
    {
        let mut hash = Ghash {
            factors: [no_factor(); 8],
            made: 1,
            taken: 0,
            y: 0,
        };
        hash.factors[7] = key.factor;
        hash
    }

    /// The same with all powers made at once, to be borrowed for each message (`absorbed`).
    pub fn with_powers(key: &HashKey) -> Ghash
        ensures { (h : ℕ) → IsSubkey key.now h → Holds result h [] }
    {
        let mut hash = Ghash::under(key);
        hash.prepare(PAYS_FOR_EIGHT);
        hash
    }

    /// Starts again with no block, under the same hash subkey: what was made of the subkey is kept
    /// for the next message.
    pub fn restart(&mut self)
        ensures { (h : ℕ) (blocks : List ℕ) → Holds self.old h blocks → Holds self.new h [] }
    {
        self.y = 0;
    }

    /// Adds the blocks of `body`, of any length, with zeros after it up to a whole block.
    ///
    /// Each call pads for itself: give a long string in pieces of whole blocks; only its last piece
    /// may end within a block (SP 800-38D, 7.1, steps 4 and 5).
    pub fn absorb(&mut self, body: &[u8])
        ensures { (h : ℕ) (blocks : List ℕ)
            → Holds self.old h blocks → Holds self.new h (blocks ++ padded_blocks body.now) }
    {
        self.prepare(body.len());
        self.y = self.absorbed(self.y, body);
    }

    /// GHASH after the blocks of `body`, as `HashKey::absorbed` gives it, by the powers that are
    /// made. The blocks taken so far stay as they are.
    pub fn absorbed(&self, so_far: u128, body: &[u8]) -> u128
        ensures { (h : ℕ) (taken blocks : List ℕ) → Holds self.now h taken
            → so_far ≡ ghash h blocks → result ≡ ghash h (blocks ++ padded_blocks body.now) }
    {
        let mut y = so_far;
        for piece in body.chunks(128) {
            y = self.after_piece(y, piece);
        }
        y
    }

    /// Makes the powers that `size` more bytes pay for.
    pub fn prepare(&mut self, size: usize)
        ensures { (h : ℕ) (blocks : List ℕ) → Holds self.old h blocks → Holds self.new h blocks }
    {
        self.taken = self.taken.saturating_add(size);
        if self.made == 1 && self.taken >= PAYS_FOR_FOUR {
            self.make_four_powers();
        }
        self.prepare_eight();
    }

    // Makes H^5 to H^8, if enough bytes came to pay for them.
    fn prepare_eight(&mut self)
        ensures { (h : ℕ) (blocks : List ℕ) → Holds self.old h blocks → Holds self.new h blocks }
    {
        if self.made == 4 && self.taken >= PAYS_FOR_EIGHT {
            self.make_eight_powers();
        }
    }

    // Makes H^4 to H^2.
    #[inline(never)]
    fn make_four_powers(&mut self)
        ensures { (h : ℕ) (blocks : List ℕ) → Holds self.old h blocks → Holds self.new h blocks }
    {
        let first = self.multiply_by_subkey(ONE);
        let square = self.multiply_by_subkey(first);
        let cube = self.multiply_by_subkey(square);
        let fourth = self.multiply_by_subkey(cube);
        let none = no_factor();
        self.factors = [
            none,
            none,
            none,
            none,
            factor_of(fourth),
            factor_of(cube),
            factor_of(square),
            self.factors[7],
        ];
        self.made = 4;
    }

    // Makes H^8 to H^5.
    #[inline(never)]
    fn make_eight_powers(&mut self)
        requires { self.old.made ≡ 4 }
        ensures { (h : ℕ) (blocks : List ℕ) → Holds self.old h blocks → Holds self.new h blocks }
    {
        let fourth = multiply(&self.factors[4], ONE);
        let fifth = self.multiply_by_subkey(fourth);
        let sixth = self.multiply_by_subkey(fifth);
        let seventh = self.multiply_by_subkey(sixth);
        let eighth = self.multiply_by_subkey(seventh);
        self.factors = [
            factor_of(eighth),
            factor_of(seventh),
            factor_of(sixth),
            factor_of(fifth),
            self.factors[4],
            self.factors[5],
            self.factors[6],
            self.factors[7],
        ];
        self.made = 8;
    }

    // GHASH after a piece, as eight blocks at once if possible.
    #[inline(always)]
    fn after_piece(&self, y: u128, piece: &[u8]) -> u128
        ensures { (h : ℕ) (taken blocks : List ℕ) → Holds self.now h taken
            → y ≡ ghash h blocks → result ≡ ghash h (blocks ++ padded_blocks piece.now) }
    {
        if self.made == 8 && piece.len() == 128 {
            self.after_eight(y, piece)
        } else {
            self.after_short(y, piece)
        }
    }

    // The same with blocks four at a time.
    fn after_short(&self, so_far: u128, body: &[u8]) -> u128
        ensures { (h : ℕ) (taken blocks : List ℕ) → Holds self.now h taken
            → so_far ≡ ghash h blocks → result ≡ ghash h (blocks ++ padded_blocks body.now) }
    {
        let mut y = so_far;
        for piece in body.chunks(64) {
            y = self.after_half(y, piece);
        }
        y
    }

    // GHASH after a piece, as four blocks at once if possible.
    #[inline(always)]
    fn after_half(&self, y: u128, piece: &[u8]) -> u128
        ensures { (h : ℕ) (taken blocks : List ℕ) → Holds self.now h taken
            → y ≡ ghash h blocks → result ≡ ghash h (blocks ++ padded_blocks piece.now) }
    {
        if self.made >= 4 && piece.len() == 64 {
            self.after_four(y, piece)
        } else {
            self.after_each(y, piece)
        }
    }

    // GHASH after eight more blocks: eight steps of Horner's rule at once.
    #[inline(always)]
    fn after_eight(&self, y: u128, piece: &[u8]) -> u128
        requires made { 8 ≤ self.now.made }
        requires size { length piece.now ≡ 128 }
        ensures { (h : ℕ) (taken blocks : List ℕ) → Holds self.now h taken
            → y ≡ ghash h blocks → result ≡ ghash h (blocks ++ padded_blocks piece.now) }
    {
        sum_of_products(
            &self.factors,
            &[
                with_first(y, piece).to_array(),
                loaded(piece, 16).to_array(),
                loaded(piece, 32).to_array(),
                loaded(piece, 48).to_array(),
                loaded(piece, 64).to_array(),
                loaded(piece, 80).to_array(),
                loaded(piece, 96).to_array(),
                loaded(piece, 112).to_array(),
            ],
        )
    }

    // The same with four.
    #[inline(always)]
    fn after_four(&self, y: u128, piece: &[u8]) -> u128
        requires made { 4 ≤ self.now.made }
        requires size { length piece.now ≡ 64 }
        ensures { (h : ℕ) (taken blocks : List ℕ) → Holds self.now h taken
            → y ≡ ghash h blocks → result ≡ ghash h (blocks ++ padded_blocks piece.now) }
    {
        sum_of_products(
            &self.factors[4..],
            &[
                with_first(y, piece).to_array(),
                loaded(piece, 16).to_array(),
                loaded(piece, 32).to_array(),
                loaded(piece, 48).to_array(),
            ],
        )
    }

    // GHASH after a piece, block by block.
    fn after_each(&self, so_far: u128, body: &[u8]) -> u128
        ensures { (h : ℕ) (taken blocks : List ℕ) → Holds self.now h taken
            → so_far ≡ ghash h blocks → result ≡ ghash h (blocks ++ padded_blocks body.now) }
    {
        let mut y = so_far;
        for piece in body.chunks(16) {
            y = self.multiply_by_subkey(y ^ block_of(piece));
        }
        y
    }

    // The product with H.
    #[inline(always)]
    fn multiply_by_subkey(&self, block: u128) -> u128
        ensures { (h : ℕ) (blocks : List ℕ) → Holds self.now h blocks → result ≡ prod block h }
    {
        multiply(&self.factors[7], block)
    }

    /// The GHASH of the blocks so far (SP 800-38D, 6.4). More can be added afterwards.
    pub fn finish(&self) -> u128
        ensures { (h : ℕ) (blocks : List ℕ) → Holds self.now h blocks → result ≡ ghash h blocks }
    {
        self.y
    }
}

// The block that starts at byte `at`.
#[inline(always)]
fn loaded(piece: &[u8], at: usize) -> u8x16
    requires { at + 16 ≤ length piece.now }
    ensures { result ≡ chunk at 16 piece.now }
{
    u8x16::from_slice(&piece[at..])
}

// GHASH so far, with the first block added. It is in lanes, since the compiler assembles a block
// that is first read as a number byte by byte, which takes a tenth of a group's time.
#[inline(always)]
fn with_first(y: u128, piece: &[u8]) -> u8x16
    requires { 16 ≤ length piece.now }
    ensures { result ≡ to_be_bytes w128 (bit_xor y (from_be_bytes w128 (chunk 0 16 piece.now))) }
{
    lanes_of(y) ^ loaded(piece, 0)
}

// The block of at most 16 bytes, with zeros after them.
#[inline(always)]
fn block_of(piece: &[u8]) -> u128
    requires { length piece.now ≤ 16 }
    ensures { result ≡ padded_block piece.now }
{
    match piece.first_chunk::<16>() {
        Some(whole) => u128::from_be_bytes(*whole),
        None => padded(piece),
    }
}

// The same, by a copy.
fn padded(piece: &[u8]) -> u128
    requires { length piece.now ≤ 16 }
    ensures { result ≡ padded_block piece.now }
{
    let mut block = [0; 16];
    block[..piece.len()].copy_from_slice(piece);
    u128::from_be_bytes(block)
}
