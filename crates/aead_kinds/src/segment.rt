//! Segments of AES-CTR-HMAC in Tink's streaming AEAD, in place.
//!
//! No branch and no memory address depends on a key or on a byte of text or tag, except for the
//! result of the tag's comparison: the bodies are written so, but no clause says it.

ghost use Rattle.std.specs.Prelude.{◌≡◌, ◌↔◌, ◌≤◌, length, IsTrue};
ghost use Rattle.std.specs.Bool.{OnFalse, OnTrue};
ghost use Rattle.tink_base.specs.Hash.{hash_size};
ghost use Rattle.aead_kinds.specs.Segment.{segment_tag, segment_text};

use crate::scheme::LONGEST_TAG;
use aes_core::blocks::same_bytes;
use aes_core::{Aes, CtrKind};
use mac_prf::Hmac;
use tink_base::Hash;

/// Encrypts `body` in place and writes its tag: counter mode from `start`, where all 128 bits count
/// (SP 800-38A), and the first bytes of HMAC under `mac` over `start` and the ciphertext (RFC
/// 2104), as many as `tag` has.
///
/// `tag` has at most as many bytes as a digest of `hash`; `body` and `mac` may have any length. No
/// start may be used twice under one key, nor one whose counters overlap another's: the caller must
/// ensure that. No memory is taken.
pub fn ctr_hmac_seal_in_place(
    aes: &Aes,
    hash: Hash,
    mac: &[u8],
    start: &[u8; 16],
    body: &mut [u8],
    tag: &mut [u8],
)
    requires tag_bound { length tag.old ≤ hash_size hash }
    ensures text { body.new ≡ segment_text aes.now start.now body.old }
    ensures tag { tag.new ≡ segment_tag hash mac.now (length tag.old) start.now body.new }
{
    crypt(aes, start, body);
    write_tag(hash, mac, start, body, tag);
}

/// Decrypts `body` in place, if the tag is the right one, as `ctr_hmac_seal_in_place` made it.
///
/// `tag` has at most as many bytes as a digest of `hash`. Returns `false` if and only if `tag`
/// isn't the tag of `start` and the ciphertext, of as many bytes; all of them are compared before
/// anything is decrypted. On `false` `body` is unchanged. No memory is taken.
pub fn ctr_hmac_open_in_place(
    aes: &Aes,
    hash: Hash,
    mac: &[u8],
    start: &[u8; 16],
    body: &mut [u8],
    tag: &[u8],
) -> bool
    requires tag_bound { length tag.now ≤ hash_size hash }
    ensures authentic { IsTrue result
        ↔ (segment_tag hash mac.now (length tag.now) start.now body.old ≡ tag.now) }
    ensures opened { OnTrue result (body.new ≡ segment_text aes.now start.now body.old) }
    ensures kept { OnFalse result (body.new ≡ body.old) }
{
    let mut longest = [0; LONGEST_TAG];
    let anew = &mut longest[..tag.len()];
    write_tag(hash, mac, start, body, anew);
    let same = same_bytes(anew, tag);
    if same {
        crypt(aes, start, body);
    }
    same
}

// Encrypts or decrypts.
#[tactic(auto, unfolding(crate::specs::Segment::segment_text))]
fn crypt(aes: &Aes, start: &[u8; 16], body: &mut [u8])
    ensures { body.new ≡ segment_text aes.now start.now body.old }
{
    aes.ctr_xor(start, CtrKind::All128, body);
}

// Writes the tag of start and ciphertext.
fn write_tag(hash: Hash, mac: &[u8], start: &[u8; 16], text: &[u8], tag: &mut [u8])
    requires tag_bound { length tag.old ≤ hash_size hash }
    ensures { tag.new ≡ segment_tag hash mac.now (length tag.old) start.now text.now }
{
    let mut hmac = Hmac::new(hash, mac);
    hmac.update(start);
    hmac.update(text);
    hmac.finish(tag);
}
