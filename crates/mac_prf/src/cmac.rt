//! CMAC (SP 800-38B, repeated in RFC 4493) with AES, of a message that comes in pieces.

ghost use Rattle.std.specs.Prelude.{◌≡◌, ◌+◌, ◌-◌, ◌%◌, ◌<◌, ◌≤◌, ℕ, List, [], ◌∷◌, ◌++◌, length, replicate, take};
ghost use Rattle.aes_core.specs.Bytes.{xor_bytes};
ghost use Rattle.aes_core.specs.Counter.{counter_plus, ctr};
ghost use Rattle.aes_core.specs.declared.counter.CtrKind.TheVariants.{All128};
ghost use Rattle.mac_prf.specs.Cmac.{cmac, doubled_block, masked};

use crate::blocks::doubled;
use aes_core::blocks::{padded, xor};
use aes_core::{Aes, CtrKind};

/// CMAC under one key, of a message that comes in pieces: `under`, an `update` for each piece, and
/// `finish`.
///
/// No call takes memory or expands a key. No running time is promised.
#[derive(Drop)]
pub struct Cmac<'k> {
    aes: &'k Aes,
    // C i of the whole blocks before the held bytes.
    chained: [u8; 16],
    // The last bytes of the message, held since the last block is masked. The bytes after `size`
    // are unused.
    held: [u8; 16],
    // How many bytes are held: 0 only for the empty message.
    size: usize,
    ghost within: { size ≤ 16 },
}

impl<'k> Cmac<'k> {
    ghost use Rattle.mac_prf.specs.CmacState.{Holds, Keeps};

    /// Begins with the empty message, under this key.
    pub fn under(aes: &'k Aes) -> Cmac<'k>
        ensures { Holds result aes.now [] }
    {
        Cmac {
            aes,
            chained: [0; 16],
            held: [0; 16],
            size: 0,
        }
    }

    /// Adds `body` to the message. How a message is cut into pieces doesn't change its tag.
    pub fn update(&mut self, body: &[u8])
        ensures { (key m : List ℕ) → Holds self.old key m → Holds self.new key (m ++ body.now) }
    {
        let room = 16 - self.size;
        if body.len() <= room {
            self.hold(body);
        } else {
            let (front, back) = body.split_at(room);
            self.hold(front);
            self.chain_held();
            // The last block, whole or not, is held back.
            let (blocks, last) = back.split_at((back.len() - 1) / 16 * 16);
            self.chain(blocks);
            self.hold(last);
        }
    }

    /// Encrypts or decrypts `body` in place by counter mode under `key`, from `start`, all of whose
    /// bits count (SP 800-38A, 6.5), and adds the result to the message.
    ///
    /// If the keys have the same size, and the message so far is whole blocks, whole blocks are
    /// enciphered for both side by side.
    pub fn update_encrypted(&mut self, key: &Aes, start: &[u8; 16], body: &mut [u8])
        ensures text { body.new ≡ ctr key.now start.now All128 body.old }
        ensures message { (under m : List ℕ) →
            Holds self.old under m → Holds self.new under (m ++ body.new) }
    {
        if self.size == 0 && body.len() > 16 {
            // The first block of a message is held before any block is chained.
            let (first, rest) = body.split_at_mut(16);
            self.add_encrypted(key, start, first);
            self.add_encrypted(key, &counter_after(start, 1), rest);
        } else {
            self.add_encrypted(key, start, body);
        }
    }

    // Encrypts and adds to the message: side by side if a whole block is held.
    fn add_encrypted(&mut self, key: &Aes, start: &[u8; 16], body: &mut [u8])
        ensures text { body.new ≡ ctr key.now start.now All128 body.old }
        ensures message { (under m : List ℕ) →
            Holds self.old under m → Holds self.new under (m ++ body.new) }
    {
        if self.size != 16 || self.aes.key_size() != key.key_size() {
            key.ctr_xor(start, CtrKind::All128, body);
            self.update(body);
        } else {
            let whole = body.len() / 16;
            let (blocks, rest) = body.split_at_mut(16 * whole);
            self.chain_encrypted(key, start, blocks);
            key.ctr_xor(&counter_after(start, whole), CtrKind::All128, rest);
            self.update(rest);
        }
    }

    // Encrypts whole blocks and adds them to the message, when a whole block is held.
    fn chain_encrypted(&mut self, key: &Aes, start: &[u8; 16], blocks: &mut [u8])
        requires full { self.old.size ≡ 16 }
        requires same_size { length self.old.aes.now ≡ length key.now }
        requires whole { length blocks.old % 16 ≡ 0 }
        ensures text { blocks.new ≡ ctr key.now start.now All128 blocks.old }
        ensures message { (under m : List ℕ) →
            Holds self.old under m → Holds self.new under (m ++ blocks.new) }
    {
        key.ctr_chain(self.aes, start, &mut self.chained, &mut self.held, blocks);
    }

    // Holds these bytes too.
    fn hold(&mut self, bytes: &[u8])
        requires { self.old.size + length bytes.now ≤ 16 }
        ensures keeps { (key m : List ℕ) →
            Keeps self.old key m → Keeps self.new key (m ++ bytes.now) }
        ensures size { self.new.size ≡ self.old.size + length bytes.now }
    {
        let end = self.size + bytes.len();
        self.held[self.size..end].copy_from_slice(bytes);
        self.size = end;
    }

    // Chains the held block, which isn't the last one.
    fn chain_held(&mut self)
        requires { self.old.size ≡ 16 }
        ensures keeps { (key m : List ℕ) → Keeps self.old key m → Keeps self.new key m }
        ensures size { self.new.size ≡ 0 }
    {
        self.chained = self.aes.chain(&self.chained, &self.held);
        self.size = 0;
    }

    // Chains whole blocks, none of them the last, when no byte is held.
    fn chain(&mut self, blocks: &[u8])
        requires none { self.old.size ≡ 0 }
        requires whole { length blocks.now % 16 ≡ 0 }
        ensures keeps { (key m : List ℕ) →
            Keeps self.old key m → Keeps self.new key (m ++ blocks.now) }
        ensures size { self.new.size ≡ 0 }
    {
        self.chained = self.aes.chain(&self.chained, blocks);
    }

    /// The tag of the message, all 16 bytes of it (SP 800-38B, 6.2).
    pub fn finish(self) -> [u8; 16]
        ensures { (key m : List ℕ) → Holds self.entry key m → result ≡ cmac key m }
    {
        let last = self.masked_block();
        self.aes.encrypt_block(&xor(&self.chained, &last))
    }

    // The last block, masked (SP 800-38B, 6.2, step 4).
    fn masked_block(&self) -> [u8; 16]
        ensures { (key m : List ℕ) → Keeps self.now key m
            → result ≡ masked key (take self.now.size self.now.held) }
    {
        let subkey1 = doubled(&self.aes.encrypt_block(&[0; 16]));
        if self.size == 16 {
            xor(&subkey1, &self.held)
        } else {
            xor(&doubled(&subkey1), &padded(&self.held[..self.size]))
        }
    }
}

// The counter that is `steps` after `start`, all of whose bits count.
fn counter_after(start: &[u8; 16], steps: usize) -> [u8; 16]
    ensures { result ≡ counter_plus All128 start.now steps }
{
    u128::from_be_bytes(*start)
        .wrapping_add(steps as u128)
        .to_be_bytes()
}
