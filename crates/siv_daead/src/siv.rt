//! AES-SIV (RFC 5297), with one associated datum.

ghost use Rattle.std.specs.Prelude.{◌≡◌, ◌≢◌, ◌↔◌, ◌+◌, ◌^◌, ◌≤◌, ◌++◌, drop, length, take, IfOk, IsErr, IsTrue};
ghost use Rattle.std.specs.Bool.{OnFalse, OnTrue};
ghost use Rattle.tink_spec.specs.InPlace.{OpensTo};
ghost use Rattle.aes_core.specs.Counter.{ctr};
ghost use Rattle.aes_core.specs.declared.counter.CtrKind.TheVariants.{All128};
ghost use Rattle.mac_prf.specs.Cmac.{cmac};
ghost use Rattle.siv_daead.specs.Siv.{datum_block, first_counter, mac_key, s2v, siv_open, siv_seal, siv_text, xor_end};

use aes_core::blocks::{padded, same_bytes, xor};
use aes_core::{Aes, CtrKind, KeySize};
use mac_prf::Cmac;
use mac_prf::blocks::doubled;
use std::marker::Model;
use std::ops::Range;

// The bits of the counter that are kept: the highest ones of bytes 8 and 12 are cleared (2.5).
const KEPT_BITS: u128 = 0xffff_ffff_ffff_ffff_7fff_ffff_7fff_ffff;

/// A key of AES-SIV: its two halves expanded, the first for the SIV and the second for the
/// ciphertext (RFC 5297, 2.6). Contracts see the bytes of the key.
#[derive(Drop)]
pub struct SivKey {
    mac: Aes,
    ctr: Aes,
}

impl Model for SivKey {
    ghost use Rattle.std.specs.Prelude.{◌≡◌, ℕ, List, ◌++◌, length};

    ghost Value = { List ℕ };

    ghost view = { λ key. key.mac ++ key.ctr };

    ghost invariant = { λ key. length key.mac ≡ length key.ctr };
}

impl SivKey {
    /// Expands a key of 32 or 64 bytes.
    ///
    /// Returns `KeySize` if and only if `key` has another length.
    pub fn new(key: &[u8]) -> Result<SivKey, KeySize>
        ensures key { IfOk result (λ siv_key. siv_key ≡ key.now) }
        ensures key_size { IsErr result ↔ ((length key.now ≢ 32) × (length key.now ≢ 64)) }
    {
        let (mac, ctr) = key.split_at(key.len() / 2);
        Ok(SivKey {
            mac: Aes::new(mac)?,
            ctr: Aes::new(ctr)?,
        })
    }
}

/// Seals in place with the associated datum `ad` (RFC 5297, 2.6), and returns the same list: its
/// first `at` bytes, unchanged, then the SIV of 16 bytes and the ciphertext.
///
/// The plaintext follows the first `at` bytes and room for the SIV, whose values don't matter. It
/// has at most 2^30 bytes, as many as its ciphertext, and so has `ad`. An empty `ad` is a datum
/// too. The same key, plaintext and datum give the same bytes. No memory is taken.
pub fn siv_seal(key: &SivKey, at: usize, mut bytes: Vec<u8>, ad: &[u8]) -> Vec<u8>
    requires room { at + 16 ≤ length bytes.items }
    requires plain_bound { length bytes.items ≤ at + 16 + 2 ^ 30 }
    requires ad_bound { length ad.now ≤ 2 ^ 30 }
    ensures { result.items ≡ take at bytes.items ++ siv_seal key.now (drop (at + 16) bytes.items) ad.now }
{
    seal_behind(key, at, &mut bytes, ad);
    bytes
}

/// Opens in place what `siv_seal` made under the same key and associated datum (RFC 5297, 2.7), and
/// returns the plaintext's range in `bytes`; the bytes around it are unchanged.
///
/// `bytes` have at most 2^30 + 96, and `ad` at most 2^30. Returns `None` if and only if there are
/// fewer than 16 bytes, or the SIV at the front isn't the one of the plaintext. All bytes of the
/// two are compared. On `None` `bytes` are unchanged. No memory is taken.
pub fn siv_open(key: &SivKey, bytes: &mut [u8], ad: &[u8]) -> Option<Range<usize>>
    requires bytes_bound { length bytes.old ≤ 2 ^ 30 + 96 }
    requires ad_bound { length ad.now ≤ 2 ^ 30 }
    ensures { OpensTo (siv_open key.now bytes.old ad.now) bytes.old bytes.new result }
{
    let end = bytes.len();
    if end < 16 {
        return None;
    }
    let (front, body) = bytes.split_at_mut(16);
    if open_in_place(key, &block_of(front), ad, body) {
        Some(16..end)
    } else {
        None
    }
}

// Seals in place what follows the first `at` bytes.
fn seal_behind(key: &SivKey, at: usize, bytes: &mut [u8], ad: &[u8])
    requires room { at + 16 ≤ length bytes.old }
    ensures { bytes.new ≡ take at bytes.old ++ siv_seal key.now (drop 16 (drop at bytes.old)) ad.now }
{
    seal_in_place(key, &mut bytes[at..], ad);
}

// Writes the SIV into its room, and encrypts in place what follows (2.6).
fn seal_in_place(key: &SivKey, sealed: &mut [u8], ad: &[u8])
    requires room { 16 ≤ length sealed.old }
    ensures { sealed.new ≡ siv_seal key.now (drop 16 sealed.old) ad.now }
{
    let (room, body) = sealed.split_at_mut(16);
    let siv = synthetic_iv(&key.mac, ad, body);
    room.copy_from_slice(&siv);
    crypt(&key.ctr, &siv, body);
}

// Decrypts in place, and checks the SIV of the plaintext (2.7). If it differs, what was decrypted
// is encrypted again.
fn open_in_place(key: &SivKey, siv: &[u8; 16], ad: &[u8], body: &mut [u8]) -> bool
    ensures authentic { IsTrue result
        ↔ (siv.now ≡ s2v (mac_key key.now) ad.now (siv_text key.now siv.now body.old)) }
    ensures opened { OnTrue result (body.new ≡ siv_text key.now siv.now body.old) }
    ensures kept { OnFalse result (body.new ≡ body.old) }
{
    let same = same_bytes(siv, &decrypt_and_mac(key, siv, ad, body));
    if !same {
        crypt(&key.ctr, siv, body);
    }
    same
}

// Decrypts in place, and makes S2V of the datum and the plaintext, side by side if there is a block
// (2.7).
fn decrypt_and_mac(key: &SivKey, siv: &[u8; 16], ad: &[u8], body: &mut [u8]) -> [u8; 16]
    ensures text { body.new ≡ siv_text key.now siv.now body.old }
    ensures mac { result ≡ s2v (mac_key key.now) ad.now body.new }
{
    if body.len() < 16 {
        crypt(&key.ctr, siv, body);
        return synthetic_iv(&key.mac, ad, body);
    }
    // Counter mode is an XOR too: D goes through it to the end of the plaintext, where S2V has it.
    let datum = datum_block(&key.mac, ad);
    xor_end(body, &datum);
    let mut state = Cmac::under(&key.mac);
    state.update_encrypted(&key.ctr, &first_counter(siv), body);
    xor_end(body, &datum);
    state.finish()
}

// S2V of the datum and the plaintext, under the first half of the key (2.4 and 2.6).
fn synthetic_iv(key: &Aes, ad: &[u8], plain: &[u8]) -> [u8; 16]
    ensures { result ≡ s2v key.now ad.now plain.now }
{
    let datum = datum_block(key, ad);
    if plain.len() < 16 {
        mac(key, &[], &xor(&doubled(&datum), &padded(plain)))
    } else {
        let (front, back) = plain.split_at(plain.len() - 16);
        mac(key, front, &xor(&block_of(back), &datum))
    }
}

// D after the one datum (2.4).
fn datum_block(key: &Aes, ad: &[u8]) -> [u8; 16]
    ensures { result ≡ datum_block key.now ad.now }
{
    let zeros = mac(key, &[], &[0; 16]);
    xor(&doubled(&zeros), &mac(key, &[], ad))
}

// XORs a block onto the end (xorend of 2.1).
fn xor_end(bytes: &mut [u8], block: &[u8; 16])
    requires { 16 ≤ length bytes.old }
    ensures { bytes.new ≡ xor_end bytes.old block.now }
{
    let size = bytes.len();
    let (_, back) = bytes.split_at_mut(size - 16);
    let sum = xor(&block_of(back), block);
    back.copy_from_slice(&sum);
}

// CMAC of a message in two pieces.
fn mac(key: &Aes, front: &[u8], back: &[u8]) -> [u8; 16]
    ensures { result ≡ cmac key.now (front.now ++ back.now) }
{
    let mut state = Cmac::under(key);
    state.update(front);
    state.update(back);
    state.finish()
}

// Encrypts or decrypts in place, under the second half of the key, from the counter made from the
// SIV (2.5 and 2.6).
fn crypt(key: &Aes, siv: &[u8; 16], body: &mut [u8])
    ensures { body.new ≡ ctr key.now (first_counter siv.now) All128 body.old }
{
    key.ctr_xor(&first_counter(siv), CtrKind::All128, body);
}

// The counter made from the SIV (2.5 and 2.6).
fn first_counter(siv: &[u8; 16]) -> [u8; 16]
    ensures { result ≡ first_counter siv.now }
{
    (u128::from_be_bytes(*siv) & KEPT_BITS).to_be_bytes()
}

// The bytes of a block.
fn block_of(bytes: &[u8]) -> [u8; 16]
    requires { length bytes.now ≡ 16 }
    ensures { result ≡ bytes.now }
{
    let mut block = [0; 16];
    block.copy_from_slice(bytes);
    block
}
