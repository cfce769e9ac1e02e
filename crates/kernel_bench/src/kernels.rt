//! The kernels that are timed, each under a key of zeros.

ghost use Rattle.std.specs.Prelude.{◌≡◌, ◌⊎◌, ◌^◌, ◌≤◌, length};

use aead_kinds::{Gcm, gcm_siv_seal};
use aes_core::{Aes, CtrKind};
use ghash::Ghash;
use mac_prf::Hmac;
use std::alloc::Global;
use tink_base::{Hash, NoMemory};

/// Their names, in the order in which they are printed.
pub const NAMES: [&str; 7] = [
    "aes128-ctr",
    "aes256-ctr",
    "aes128-chain",
    "ghash",
    "aes128-gcm",
    "aes128-gcm-siv",
    "hmac-sha256",
];

/// A subkey of GHASH: the cipher of the block of zeros under the key of zeros.
const SUBKEY: u128 = 0x66e9_4bd4_ef8a_2c3b_884c_fa59_ca34_2b2e;

/// The most bytes of a text that AES-GCM seals.
const LONGEST_GCM: usize = 1 << 31;

/// The most bytes of a text that AES-GCM-SIV seals.
const LONGEST_GCM_SIV: usize = 1 << 30;

/// A kernel that is ready to run.
#[derive(Drop)]
pub enum Kernel {
    /// AES in counter mode.
    Counter(Aes),
    /// Blocks that are XORed with the previous result and enciphered.
    Chain(Aes),
    /// GHASH under one subkey.
    Ghash(Ghash),
    /// Sealing by AES-GCM, under one key.
    Gcm(Gcm),
    /// Sealing a constant text by AES-GCM-SIV under one key, from which each message has its own.
    GcmSiv(Global, Aes),
    /// HMAC with SHA-256, the key included.
    Hmac,
}

impl Kernel {
    /// The kernel of this name.
    pub fn named(alloc: Global, name: &str) -> Option<Kernel> {
        match name {
            "aes128-ctr" => Some(Kernel::Counter(new_aes(&[0; 16]))),
            "aes256-ctr" => Some(Kernel::Counter(new_aes(&[0; 32]))),
            "aes128-chain" => Some(Kernel::Chain(new_aes(&[0; 16]))),
            "ghash" => Some(Kernel::Ghash(new_ghash(SUBKEY))),
            "aes128-gcm" => Some(Kernel::Gcm(new_gcm(&[0; 16]))),
            "aes128-gcm-siv" => Some(Kernel::GcmSiv(alloc, new_aes(&[0; 16]))),
            "hmac-sha256" => Some(Kernel::Hmac),
            _ => None,
        }
    }

    /// Runs once over the text, and returns a byte of the result.
    pub fn turn(&mut self, text: &mut [u8]) -> u8 {
        match self {
            Kernel::Counter(aes) => count(aes, text),
            Kernel::Chain(aes) => chain(aes, text),
            Kernel::Ghash(ghash) => hash(ghash, text),
            Kernel::Gcm(gcm) => seal(gcm, text),
            Kernel::GcmSiv(alloc, aes) => seal_anew(*alloc, aes, text),
            Kernel::Hmac => tag(text),
        }
    }
}

// Each kernel is a separate function in the machine code, which `tools/kernel_code` reads.

#[inline(never)]
fn new_aes(key: &[u8]) -> Aes
    requires { (length key.now ≡ 16) ⊎ (length key.now ≡ 32) }
{
    match Aes::new(key) {
        Ok(aes) => aes,
        Err(_) => unreachable!(),
    }
}

#[inline(never)]
fn new_gcm(key: &[u8]) -> Gcm
    requires { (length key.now ≡ 16) ⊎ (length key.now ≡ 32) }
{
    match Gcm::new(key) {
        Ok(gcm) => gcm,
        Err(_) => unreachable!(),
    }
}

#[inline(never)]
fn new_ghash(subkey: u128) -> Ghash {
    Ghash::new(subkey)
}

#[inline(never)]
fn count(aes: &Aes, text: &mut [u8]) -> u8 {
    aes.ctr_xor(&[0; 16], CtrKind::All128, text);
    text.first().copied().unwrap_or(0)
}

// Each whole block of the text is XORed with the previous result and enciphered.
#[inline(never)]
fn chain(aes: &Aes, text: &[u8]) -> u8 {
    let whole = text.len() / 16 * 16;
    aes.chain(&[0; 16], &text[..whole])[0]
}

#[inline(never)]
fn hash(ghash: &mut Ghash, text: &[u8]) -> u8 {
    ghash.absorb(text);
    (ghash.finish() & 0xff) as u8
}

#[inline(never)]
fn seal(gcm: &mut Gcm, text: &mut [u8]) -> u8 {
    let size = text.len().min(LONGEST_GCM);
    gcm.seal_in_place(&[0; 12], &[], &mut text[..size])[0]
}

// Seals into a new list each time; returns its last byte, or 0 if memory can't be allocated.
#[inline(never)]
fn seal_anew(alloc: Global, aes: &Aes, text: &[u8]) -> u8 {
    let size = text.len().min(LONGEST_GCM_SIV);
    match sealed_copy(alloc, aes, &text[..size]) {
        Ok(sealed) => sealed.last().copied().unwrap_or(0),
        Err(_) => 0,
    }
}

// Seals a copy of the text, between rooms for the IV and the tag.
fn sealed_copy(alloc: Global, aes: &Aes, text: &[u8]) -> Result<Vec<u8>, NoMemory>
    requires { length text.now ≤ 2 ^ 30 }
{
    let mut bytes = Vec::with_capacity(alloc, 12 + text.len() + 16)?;
    bytes.extend_from_slice(&[0; 12])?;
    bytes.extend_from_slice(text)?;
    bytes.extend_from_slice(&[0; 16])?;
    gcm_siv_seal(aes, &mut bytes, &[0; 12], &[]);
    Ok(bytes)
}

#[inline(never)]
fn tag(text: &[u8]) -> u8 {
    let mut tag = [0; 32];
    let mut hmac = Hmac::new(Hash::Sha256, &[0; 32]);
    hmac.update(text);
    hmac.finish(&mut tag);
    tag[0]
}
