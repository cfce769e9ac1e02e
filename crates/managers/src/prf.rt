//! The manager of pseudo-random functions: HKDF, HMAC and CMAC.

ghost use Rattle.std.specs.Prelude.{◌≡◌, ◌≤◌, length, string_bytes, IfOk};
ghost use Rattle.key_msgs.specs.KeyTypes.{url_of_type};
ghost use Rattle.key_msgs.specs.Keys.{IsValid};
ghost use Rattle.mac_prf.specs.Hkdf.{hkdf as derived};
ghost use Rattle.tink_base.specs.Hash.{hash_size};
ghost use Rattle.managers.specs.Schemes.{prf_scheme, type_under};
ghost use Rattle.managers.specs.Uses.{greatest, prf_of};

use crate::firsts::{write_cmac, write_hmac};
use crate::reading::read_as;
use crate::{CheckFault, KeyManager, Prepared, PrfManager};
use key_msgs::{KeyKind, KeyType};
use mac_prf::hkdf_expand;
use std::alloc::Global;
use tink_base::NoMemory;

/// How many bytes can be derived under a key of any kind.
fn greatest_under(key: &KeyKind) -> usize
    ensures { result ≡ greatest key.now }
{
    match key {
        KeyKind::HkdfPrf { hash, .. } => 255 * hash.size(),
        KeyKind::HmacPrf { hash, .. } => hash.size(),
        KeyKind::CmacPrf { .. } => 16,
        _ => 0,
    }
}

/// Derives as many bytes as `out` has under a valid key of any kind; `out` is empty if the key
/// isn't a PRF key.
fn write_derived(key: &Prepared, input: &[u8], out: &mut [u8])
    requires valid { IsValid key.now }
    requires within { length out.old ≤ greatest key.now }
    ensures { out.new ≡ prf_of key.now input.now (length out.old) }
{
    match key.kind() {
        KeyKind::HkdfPrf { .. } => {
            if hkdf_expand(key.hmac(), input, out).is_err() {
                unreachable!()
            }
        }
        KeyKind::HmacPrf { .. } => write_hmac(key.hmac(), input, false, out),
        KeyKind::CmacPrf { .. } => write_cmac(key.aes(), input, false, out),
        _ => {}
    }
}

/// Derives bytes under a valid key of any kind.
fn derive_under(
    alloc: Global,
    key: &Prepared,
    input: &[u8],
    size: usize,
) -> Result<Vec<u8>, NoMemory>
    requires valid { IsValid key.now }
    requires within { size ≤ greatest key.now }
    ensures { IfOk result (λ bytes. bytes.items ≡ prf_of key.now input.now size) }
{
    let mut bytes = vec![in alloc; 0; size]?;
    write_derived(key, input, &mut bytes);
    Ok(bytes)
}

/// The schemes of pseudo-random functions.
#[derive(Clone, Copy, Debug, PartialEq, Eq)]
pub enum PrfScheme {
    /// HKDF (RFC 5869).
    Hkdf,
    /// HMAC (RFC 2104).
    Hmac,
    /// CMAC of AES (SP 800-38B).
    Cmac,
}

impl PrfScheme {
    /// The type of the scheme's keys. No memory is taken.
    pub fn key_type(self) -> KeyType
        ensures { result ≡ type_under (prf_scheme self) }
    {
        match self {
            PrfScheme::Hkdf => KeyType::HkdfPrf,
            PrfScheme::Hmac => KeyType::HmacPrf,
            PrfScheme::Cmac => KeyType::CmacPrf,
        }
    }
}

impl KeyManager for PrfScheme {
    ghost url = { λ scheme. url_of_type (type_under (prf_scheme scheme)) };

    ghost scheme = { λ scheme. prf_scheme scheme };

    fn type_url(&self) -> &str {
        self.key_type().url()
    }

    fn check(&self, alloc: Global, value: &[u8]) -> Result<Prepared, CheckFault> {
        read_as(alloc, self.key_type(), value)
    }
}

impl PrfManager for PrfScheme {
    fn greatest(&self, key: &Prepared) -> usize {
        greatest_under(key.kind())
    }

    fn derive(
        &self,
        alloc: Global,
        key: &Prepared,
        input: &[u8],
        size: usize,
    ) -> Result<Vec<u8>, NoMemory> {
        derive_under(alloc, key, input, size)
    }
}

/// The manager of the keys of one of these schemes, under any type URL.
#[derive(Drop)]
pub struct StandardPrf {
    url: String,
    scheme: PrfScheme,
}

impl StandardPrf {
    /// The manager of a scheme's keys under this type URL. No memory is taken.
    pub fn new(url: String, scheme: PrfScheme) -> Self
        ensures url { ⟦<StandardPrf as KeyManager>⟧.url result ≡ string_bytes url }
        ensures scheme { ⟦<StandardPrf as KeyManager>⟧.scheme result ≡ prf_scheme scheme }
    {
        StandardPrf { url, scheme }
    }
}

impl KeyManager for StandardPrf {
    ghost url = { λ m. string_bytes m.url };

    ghost scheme = { λ m. prf_scheme m.scheme };

    fn type_url(&self) -> &str {
        self.url.as_str()
    }

    fn check(&self, alloc: Global, value: &[u8]) -> Result<Prepared, CheckFault> {
        self.scheme.check(alloc, value)
    }
}

impl PrfManager for StandardPrf {
    fn greatest(&self, key: &Prepared) -> usize {
        self.scheme.greatest(key)
    }

    fn derive(
        &self,
        alloc: Global,
        key: &Prepared,
        input: &[u8],
        size: usize,
    ) -> Result<Vec<u8>, NoMemory> {
        self.scheme.derive(alloc, key, input, size)
    }
}
