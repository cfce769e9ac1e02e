//! The interfaces of managers of keys. Contracts see a manager's type URL and its scheme, which is
//! a kind of keys; nothing ties an interface to the schemes of its primitive.
//!
//! A call takes a key that the manager admits: a valid key of its scheme, prepared, as `check`
//! returns it. Plaintexts, associated data, bodies and inputs have at most 2^30 bytes, and sealed
//! bytes at most 2^30 + 96. `NoMemory` comes only if memory can't be allocated.

ghost use Rattle.std.specs.Prelude.{◌≡◌, ◌+◌, ◌^◌, ◌≤◌, ◌++◌, ℕ, List, drop, length, take, IfOk};
ghost use Rattle.std.specs.Str.{bytes_eq};
ghost use Rattle.tink_spec.specs.InPlace.{OpensTo};
ghost use Rattle.tink_spec.specs.Outside.{next};
ghost use Rattle.managers.specs.Schemes.{Scheme, key_under, IsAdmitted, IsReading};
ghost use Rattle.managers.specs.Uses.{dopen_key, dseal_of, greatest, iv_size, open_key, prf_of, seal_of, sealed_size, tag_of, tagged};

use crate::Prepared;
use key_msgs::Rule;
use std::alloc::Global;
use std::ops::Range;
use tink_base::{NoMemory, Trials};

/// Why a key message gives no key.
#[derive(Clone, Copy, Debug, PartialEq, Eq)]
pub enum CheckFault {
    /// The first rule that the message breaks.
    Bad(Rule),
    /// Memory couldn't be allocated.
    NoMemory,
}

/// A manager of the keys of one scheme, under a type URL of its own, which may be any text.
pub trait KeyManager: Drop {
    ghost url: { Self → List ℕ };

    ghost scheme: { Self → Scheme };

    /// The type URL of the keys that the manager serves.
    fn type_url(&self) -> &str
        ensures { result.now ≡ url self.now };

    /// Reads a key message of the scheme.
    ///
    /// `Bad` comes if and only if the message breaks a rule of the scheme's key type, and names the
    /// first one. A returned key is what the message reads as, and the manager admits it.
    fn check(&self, alloc: Global, value: &[u8]) -> Result<Prepared, CheckFault>
        ensures reading { IsReading (key_under (scheme self.now) value.now) result }
        ensures admitted { IfOk result (IsAdmitted (scheme self.now)) };
}

/// A manager that seals and opens: authenticated encryption with associated data.
pub trait AeadManager: KeyManager {
    /// How many bytes an IV has under the key.
    fn iv_size(&self, key: &Prepared) -> usize
        requires admitted { IsAdmitted (Self.scheme self.now) key.now }
        ensures { result ≡ iv_size key.now };

    /// How many bytes IV, ciphertext and tag of a plaintext of `plain` bytes have. A key that is no
    /// AEAD key seals to no bytes.
    fn sealed_size(&self, key: &Prepared, plain: usize) -> usize
        requires admitted { IsAdmitted (Self.scheme self.now) key.now }
        requires plain_bound { plain ≤ 2 ^ 30 }
        ensures size { result ≡ sealed_size key.now plain }
        ensures bound { result ≤ plain + 96 };

    /// Seals in place with `iv`, of `iv_size` bytes. `sealed` has as many bytes as `sealed_size`
    /// says: room for the IV, the plaintext, and room for the tag. The IV is written into its room,
    /// the ciphertext over the plaintext, and the tag after it. No memory is taken.
    ///
    /// No IV may be used twice under one key: the caller must ensure that.
    fn seal(&self, key: &Prepared, sealed: &mut [u8], iv: &[u8], ad: &[u8])
        requires admitted { IsAdmitted (Self.scheme self.now) key.now }
        requires whole_iv { length iv.now ≡ iv_size key.now }
        requires room { (n : ℕ) × (n ≤ 2 ^ 30) × (length sealed.old ≡ sealed_size key.now n) }
        requires ad_bound { length ad.now ≤ 2 ^ 30 }
        ensures { (n : ℕ) → length sealed.old ≡ sealed_size key.now n
            → sealed.new ≡ seal_of key.now iv.now (take n (drop (iv_size key.now) sealed.old))
            ad.now };

    /// Opens IV, ciphertext and tag, joined, in place, and counts one trial. Returns the
    /// plaintext's range in `bytes`; the bytes around it are unchanged.
    ///
    /// `None` comes if and only if `bytes` are shorter than IV and tag, or the tag isn't the
    /// computed one; then `bytes` are unchanged. No memory is taken.
    fn open(
        &self,
        key: &Prepared,
        bytes: &mut [u8],
        ad: &[u8],
        trials: &mut Trials,
    ) -> Option<Range<usize>>
        requires admitted { IsAdmitted (Self.scheme self.now) key.now }
        requires bytes_bound { length bytes.old ≤ 2 ^ 30 + 96 }
        requires ad_bound { length ad.now ≤ 2 ^ 30 }
        ensures opened { OpensTo (open_key key.now bytes.old ad.now) bytes.old bytes.new result }
        ensures one_trial { trials.new ≡ next trials.old };
}

/// A manager that seals and opens deterministically: the same key, plaintext and associated data
/// give the same bytes.
pub trait DaeadManager: KeyManager {
    /// Seals in place. `bytes` holds `at` bytes of front, which are kept, then 16 bytes of room for
    /// the tag, with any values, and the plaintext. The tag is written into its room, and the
    /// ciphertext over the plaintext. Under a key that is no deterministic AEAD key, the result is
    /// the first `at` bytes alone.
    fn seal(
        &self,
        key: &Prepared,
        at: usize,
        bytes: Vec<u8>,
        ad: &[u8],
    ) -> Result<Vec<u8>, NoMemory>
        requires admitted { IsAdmitted (Self.scheme self.now) key.now }
        requires room { at + 16 ≤ length bytes.items }
        requires plain_bound { length bytes.items ≤ at + 16 + 2 ^ 30 }
        requires ad_bound { length ad.now ≤ 2 ^ 30 }
        ensures { IfOk result (λ sealed. sealed.items ≡ take at bytes.items
            ++ dseal_of key.now (drop (at + 16) bytes.items) ad.now) };

    /// Opens sealed bytes in place, and counts one trial. Returns the plaintext's range in `bytes`;
    /// the bytes around it are unchanged.
    ///
    /// `None` comes if and only if `bytes` are shorter than a tag, or the tag isn't the computed
    /// one; then `bytes` are unchanged. No memory is taken.
    fn open(
        &self,
        key: &Prepared,
        bytes: &mut [u8],
        ad: &[u8],
        trials: &mut Trials,
    ) -> Option<Range<usize>>
        requires admitted { IsAdmitted (Self.scheme self.now) key.now }
        requires bytes_bound { length bytes.old ≤ 2 ^ 30 + 96 }
        requires ad_bound { length ad.now ≤ 2 ^ 30 }
        ensures opened { OpensTo (dopen_key key.now bytes.old ad.now) bytes.old bytes.new result }
        ensures one_trial { trials.new ≡ next trials.old };
}

/// A manager that makes and verifies tags: message authentication.
pub trait MacManager: KeyManager {
    /// The tag of `body`, followed by a byte 0 if `zero` is set.
    fn tag(
        &self,
        alloc: Global,
        key: &Prepared,
        body: &[u8],
        zero: bool,
    ) -> Result<Vec<u8>, NoMemory>
        requires admitted { IsAdmitted (Self.scheme self.now) key.now }
        requires body_bound { length body.now ≤ 2 ^ 30 }
        ensures { IfOk result (λ tag. tag.items ≡ tag_of key.now (tagged zero body.now)) };

    /// Whether `tag` is the whole tag that `Self::tag` makes of `body`. Counts one trial. No memory
    /// is taken.
    fn verify(
        &self,
        key: &Prepared,
        tag: &[u8],
        body: &[u8],
        zero: bool,
        trials: &mut Trials,
    ) -> bool
        requires admitted { IsAdmitted (Self.scheme self.now) key.now }
        requires body_bound { length body.now ≤ 2 ^ 30 }
        ensures verified { result ≡ bytes_eq tag.now (tag_of key.now (tagged zero body.now)) }
        ensures one_trial { trials.new ≡ next trials.old };
}

/// A manager that derives bytes: pseudo-random functions.
pub trait PrfManager: KeyManager {
    /// How many bytes can be derived under the key.
    fn greatest(&self, key: &Prepared) -> usize
        requires admitted { IsAdmitted (Self.scheme self.now) key.now }
        ensures { result ≡ greatest key.now };

    /// The first `size` bytes of the function at `input`, at most `greatest`.
    fn derive(
        &self,
        alloc: Global,
        key: &Prepared,
        input: &[u8],
        size: usize,
    ) -> Result<Vec<u8>, NoMemory>
        requires admitted { IsAdmitted (Self.scheme self.now) key.now }
        requires input_bound { length input.now ≤ 2 ^ 30 }
        requires within { size ≤ greatest key.now }
        ensures { IfOk result (λ bytes. bytes.items ≡ prf_of key.now input.now size) };
}
