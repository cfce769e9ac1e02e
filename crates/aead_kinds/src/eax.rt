//! MACs and tags of EAX (Bellare, Rogaway and Wagner, 2004), with tags of 16 bytes.
//!
//! No branch and no memory address depends on the key or on a byte of text or associated data.

ghost use Rattle.std.specs.Prelude.{◌≡◌, ℕ, List};
ghost use Rattle.aes_core.specs.Bytes.{xor_bytes};
ghost use Rattle.aes_core.specs.Counter.{ctr};
ghost use Rattle.aes_core.specs.declared.counter.CtrKind.TheVariants.{All128};
ghost use Rattle.aead_kinds.specs.Eax.{eax_tag, eax_text, omac};

use aes_core::Aes;
use aes_core::blocks::xor;
use mac_prf::Cmac;

/// The MAC of the IV: counter mode starts from it, and the tag includes it.
pub(crate) fn nonce_of(key: &Aes, iv: &[u8]) -> [u8; 16]
    ensures { result ≡ omac 0 key.now iv.now }
{
    numbered_mac(key, 0, iv)
}

/// The tag of IV, associated data and ciphertext, by the MAC of the IV.
#[tactic(auto, unfolding(crate::specs::Eax::eax_tag))]
pub(crate) fn tag_of(key: &Aes, nonce: &[u8; 16], ad: &[u8], text: &[u8]) -> [u8; 16]
    ensures { (iv : List ℕ) → nonce.now ≡ omac 0 key.now iv
        → result ≡ eax_tag key.now iv ad.now text.now }
{
    let header = numbered_mac(key, 1, ad);
    xor(&xor(nonce, &header), &numbered_mac(key, 2, text))
}

/// Encrypts in place by the MAC of the IV, and makes the tag of IV, associated data and ciphertext:
/// counter mode and the ciphertext's MAC go side by side.
#[tactic(auto, unfolding(crate::specs::Eax::eax_tag, crate::specs::Eax::eax_text))]
pub(crate) fn encrypt_and_tag(key: &Aes, nonce: &[u8; 16], ad: &[u8], body: &mut [u8]) -> [u8; 16]
    ensures text { (iv : List ℕ) → nonce.now ≡ omac 0 key.now iv
        → body.new ≡ eax_text key.now iv body.old }
    ensures tag { (iv : List ℕ) → nonce.now ≡ omac 0 key.now iv
        → result ≡ eax_tag key.now iv ad.now body.new }
{
    let header = numbered_mac(key, 1, ad);
    let text = encrypt_and_mac(key, nonce, body);
    xor(&xor(nonce, &header), &text)
}

// Encrypts in place by counter mode, and makes CMAC of 2 in a block and the ciphertext.
fn encrypt_and_mac(key: &Aes, start: &[u8; 16], body: &mut [u8]) -> [u8; 16]
    ensures text { body.new ≡ ctr key.now start.now All128 body.old }
    ensures mac { result ≡ omac 2 key.now body.new }
{
    let mut cmac = Cmac::under(key);
    cmac.update(&2_u128.to_be_bytes());
    cmac.update_encrypted(key, start, body);
    cmac.finish()
}

// CMAC of a number in a block, high byte first, and a message.
fn numbered_mac(key: &Aes, number: u8, message: &[u8]) -> [u8; 16]
    ensures { result ≡ omac number key.now message.now }
{
    let mut cmac = Cmac::under(key);
    cmac.update(&u128::from(number).to_be_bytes());
    cmac.update(message);
    cmac.finish()
}
