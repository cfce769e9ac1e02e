//! Counter blocks and tags of AES-CTR-HMAC, by Tink's wire format.
//!
//! No branch and no memory address depends on a key or on a byte of text or associated data.

ghost use Rattle.std.specs.Prelude.{◌≡◌, ◌^◌, ◌≤◌, ℕ, List, [], length};
ghost use Rattle.mac_prf.specs.HmacState.{hash_of, Holds};
ghost use Rattle.tink_base.specs.Hash.{hash_size};
ghost use Rattle.tink_base.specs.declared.hash.Hash.{Hash};
ghost use Rattle.aead_kinds.specs.CtrHmac.{ctr_hmac_tag, first_counter};

use mac_prf::Hmac;

/// Writes the tag of IV, associated data and ciphertext: as many of its first bytes as `tag` has.
/// `mac` is under the MAC key, and holds no message.
pub(crate) fn write_tag(mac: &Hmac, iv: &[u8], ad: &[u8], text: &[u8], tag: &mut [u8])
    requires ad_bound { length ad.now ≤ 2 ^ 30 }
    requires tag_bound { length tag.old ≤ hash_size (hash_of mac.now) }
    ensures { (hash : Hash) (key : List ℕ) → Holds mac.now hash key []
        → tag.new ≡ ctr_hmac_tag hash key (length tag.old) iv.now ad.now text.now }
{
    let mut hmac = mac.copy();
    hmac.update(ad);
    hmac.update(iv);
    hmac.update(text);
    hmac.update(&(8 * ad.len() as u64).to_be_bytes());
    hmac.finish(tag);
}

/// The block from which counter mode begins: the IV, padded with zeros.
pub(crate) fn counter_block(iv: &[u8]) -> [u8; 16]
    requires { length iv.now ≤ 16 }
    ensures { result ≡ first_counter iv.now }
{
    let mut block = [0; 16];
    block[..iv.len()].copy_from_slice(iv);
    block
}
