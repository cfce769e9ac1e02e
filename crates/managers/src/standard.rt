//! The standard managers: each scheme is the manager of its keys, under their type URL.

ghost use Rattle.std.specs.Prelude.{◌≡◌, ◌<◌, Some, slice_get};
ghost use Rattle.managers.specs.Schemes.{aead_scheme, mac_scheme, prf_scheme};
ghost use Rattle.managers.specs.Standard.{standard_entry, standard_table};
ghost use Rattle.managers.specs.Table.{place_of};

use crate::lists::find_url;
use crate::{AeadScheme, DaeadScheme, MacScheme, PrfScheme};
use key_msgs::Primitive;

/// The place of the first standard manager of a primitive with this type URL.
pub(crate) fn find_standard(primitive: Primitive, url: &str) -> Option<usize>
    ensures { result ≡ place_of standard_table primitive url.now }
{
    match primitive {
        Primitive::Aead => find_url(
            &[
                AeadScheme::Gcm,
                AeadScheme::Eax,
                AeadScheme::CtrHmac,
                AeadScheme::GcmSiv,
            ],
            url,
        ),
        Primitive::Daead => find_url(&[DaeadScheme::Siv], url),
        Primitive::Mac => find_url(&[MacScheme::Hmac, MacScheme::Cmac], url),
        Primitive::Prf => find_url(&[PrfScheme::Hkdf, PrfScheme::Hmac, PrfScheme::Cmac], url),
        Primitive::Stream => None,
    }
}

/// The scheme at index `at` of the standard AEAD managers.
pub(crate) fn aead_of(at: usize) -> AeadScheme
    requires { at < 4 }
    ensures { slice_get standard_table.aead at ≡ Some (standard_entry (aead_scheme result)) }
{
    match at {
        0 => AeadScheme::Gcm,
        1 => AeadScheme::Eax,
        2 => AeadScheme::CtrHmac,
        _ => AeadScheme::GcmSiv,
    }
}

/// The scheme at index `at` of the standard MAC managers.
pub(crate) fn mac_of(at: usize) -> MacScheme
    requires { at < 2 }
    ensures { slice_get standard_table.mac at ≡ Some (standard_entry (mac_scheme result)) }
{
    match at {
        0 => MacScheme::Hmac,
        _ => MacScheme::Cmac,
    }
}

/// The scheme at index `at` of the standard PRF managers.
pub(crate) fn prf_of(at: usize) -> PrfScheme
    requires { at < 3 }
    ensures { slice_get standard_table.prf at ≡ Some (standard_entry (prf_scheme result)) }
{
    match at {
        0 => PrfScheme::Hkdf,
        1 => PrfScheme::Hmac,
        _ => PrfScheme::Cmac,
    }
}
