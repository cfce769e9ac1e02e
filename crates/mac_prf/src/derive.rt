//! HKDF (RFC 5869): derives bytes for keys from one secret.

ghost use Rattle.std.specs.Prelude.{◌≡◌, ◌↔◌, ◌*◌, ◌<◌, ◌≤◌, ℕ, List, [], ◌∷◌, ◌++◌, length, take, IsErr, OnErr, OnOk};
ghost use Rattle.tink_base.specs.Hash.{hash_size};
ghost use Rattle.mac_prf.specs.Hmac.{hmac};
ghost use Rattle.mac_prf.specs.HmacState.{hash_of, Holds};
ghost use Rattle.mac_prf.specs.Hkdf.{expand as expanded, extract as extracted, hkdf as derived};

use crate::hasher::LONGEST_DIGEST;
use crate::hmac::Hmac;
use tink_base::Hash;

/// More bytes were asked for than HKDF gives: 255 digests (RFC 5869, 2.3).
#[derive(Clone, Copy, Debug, PartialEq, Eq)]
pub struct TooLong;

/// Fills `out` with the bytes that HKDF derives from the secret `ikm` under `salt`, for the use
/// that `info` names (RFC 5869, 2).
///
/// Each of the three may have any length, also 0: an empty salt means as many zeros as a digest has
/// bytes (2.2). `TooLong` comes if and only if `out` has more than 255 times the bytes of a digest
/// of `hash`; then `out` is unchanged. No memory is taken. Neither the running time nor the erasure
/// of secrets is promised.
pub fn hkdf(hash: Hash, ikm: &[u8], salt: &[u8], info: &[u8], out: &mut [u8]) -> Result<(), TooLong>
    ensures derived { OnOk result
        (out.new ≡ derived hash ikm.now salt.now info.now (length out.old)) }
    ensures too_long { IsErr result ↔ (255 * hash_size hash < length out.old) }
    ensures kept { OnErr result (out.new ≡ out.old) }
{
    hkdf_expand(&hkdf_extract(hash, ikm, salt), info, out)
}

/// Extracts PRK from the secret `ikm` under `salt` (RFC 5869, 2.2). The result, for `hkdf_expand`,
/// is the HMAC under PRK of no message yet.
///
/// Both may have any length, also 0, as for `hkdf`. No memory is taken.
pub fn hkdf_extract(hash: Hash, ikm: &[u8], salt: &[u8]) -> Hmac
    ensures holds { Holds result hash (extracted hash salt.now ikm.now) [] }
    ensures under { hash_of result ≡ hash }
{
    let mut longest = [0; LONGEST_DIGEST];
    let prk = &mut longest[..hash.size()];
    write_extracted(hash, salt, ikm, prk);
    Hmac::new(hash, prk)
}

/// Fills `out` with the bytes that HKDF derives for the use that `info` names (RFC 5869, 2.3).
/// `prk` is under the pseudorandom key and holds no message, as `hkdf_extract` returns it.
///
/// `TooLong` comes if and only if `out` has more than 255 times the bytes of a digest of its hash
/// function; then `out` is unchanged. No memory is taken.
pub fn hkdf_expand(prk: &Hmac, info: &[u8], out: &mut [u8]) -> Result<(), TooLong>
    ensures derived { (hash : Hash) (key : List ℕ) → Holds prk.now hash key []
        → OnOk result (out.new ≡ expanded hash key info.now (length out.old)) }
    ensures too_long { IsErr result ↔ (255 * hash_size (hash_of prk.now) < length out.old) }
    ensures kept { OnErr result (out.new ≡ out.old) }
{
    if out.len() > 255 * prk.tag_size() {
        return Err(TooLong);
    }
    write_blocks(prk, info, out);
    Ok(())
}

// PRK, into `prk` (RFC 5869, 2.2).
fn write_extracted(hash: Hash, salt: &[u8], ikm: &[u8], prk: &mut [u8])
    requires { length prk.old ≡ hash_size hash }
    ensures { prk.new ≡ extracted hash salt.now ikm.now }
{
    let zeros = [0; LONGEST_DIGEST];
    let salt = if salt.is_empty() {
        &zeros[..hash.size()]
    } else {
        salt
    };
    let mut hmac = Hmac::new(hash, salt);
    hmac.update(ikm);
    hmac.finish(prk);
}

// The first bytes of T, all of `out` (RFC 5869, 2.3). Each block but the last is whole in `out`,
// where the next one reads it.
fn write_blocks(prk: &Hmac, info: &[u8], out: &mut [u8])
    requires { length out.old ≤ 255 * hash_size (hash_of prk.now) }
    ensures { (hash : Hash) (key : List ℕ) → Holds prk.now hash key []
        → out.new ≡ expanded hash key info.now (length out.old) }
{
    let size = prk.tag_size();
    let mut number = 0;
    let mut written = 0;
    while written < out.len() {
        number += 1;
        let (done, rest) = out.split_at_mut(written);
        let part = size.min(rest.len());
        write_block(
            prk,
            &done[written.saturating_sub(size)..],
            info,
            number,
            &mut rest[..part],
        );
        written += part;
    }
}

// The first bytes of block `number`, all of `out` (RFC 5869, 2.3).
fn write_block(prk: &Hmac, before: &[u8], info: &[u8], number: u8, out: &mut [u8])
    requires { length out.old ≤ hash_size (hash_of prk.now) }
    ensures { (hash : Hash) (key : List ℕ) → Holds prk.now hash key []
        → out.new ≡ take (length out.old) (hmac hash key (before.now ++ info.now ++ number ∷ [])) }
{
    let mut hmac = prk.copy();
    hmac.update(before);
    hmac.update(info);
    hmac.update(&[number]);
    hmac.finish(out);
}
