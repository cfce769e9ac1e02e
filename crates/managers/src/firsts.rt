//! The first bytes of HMAC and of CMAC, for tags and pseudo-random functions.

ghost use Rattle.std.specs.Prelude.{◌≡◌, ◌≤◌, ℕ, List, [], length, take};
ghost use Rattle.mac_prf.specs.Cmac.{cmac};
ghost use Rattle.mac_prf.specs.Hmac.{hmac};
ghost use Rattle.mac_prf.specs.HmacState.{hash_of, Holds};
ghost use Rattle.tink_base.specs.Hash.{hash_size};
ghost use Rattle.tink_base.specs.declared.hash.Hash.{Hash};
ghost use Rattle.managers.specs.Uses.{tagged};

use aes_core::Aes;
use mac_prf::{Cmac, Hmac};

/// Writes the first bytes of HMAC, as many as `out` has, of the body, followed by a byte 0 if
/// `zero` is set. `keyed` is under the key, and holds no message.
pub(crate) fn write_hmac(keyed: &Hmac, body: &[u8], zero: bool, out: &mut [u8])
    requires room { length out.old ≤ hash_size (hash_of keyed.now) }
    ensures { (hash : Hash) (key : List ℕ) → Holds keyed.now hash key []
        → out.new ≡ take (length out.old) (hmac hash key (tagged zero body.now)) }
{
    let mut state = keyed.copy();
    state.update(body);
    if zero {
        state.update(&[0]);
    }
    state.finish(out);
}

/// The same for CMAC.
pub(crate) fn write_cmac(aes: &Aes, body: &[u8], zero: bool, out: &mut [u8])
    requires room { length out.old ≤ 16 }
    ensures { out.new ≡ take (length out.old) (cmac aes.now (tagged zero body.now)) }
{
    let whole = whole_cmac(aes, body, zero);
    out.copy_from_slice(&whole[..out.len()]);
}

/// The whole CMAC.
fn whole_cmac(aes: &Aes, body: &[u8], zero: bool) -> [u8; 16]
    ensures { result ≡ cmac aes.now (tagged zero body.now) }
{
    let mut state = Cmac::under(aes);
    state.update(body);
    if zero {
        state.update(&[0]);
    }
    state.finish()
}
