//! The manager of message authentication: HMAC and CMAC.

ghost use Rattle.std.specs.Prelude.{◌≡◌, ◌≤◌, length, string_bytes, IfOk, IsTrue, ◌↔◌};
ghost use Rattle.std.specs.Str.{bytes_eq};
ghost use Rattle.key_msgs.specs.KeyTypes.{url_of_type};
ghost use Rattle.key_msgs.specs.Keys.{IsValid};
ghost use Rattle.managers.specs.Schemes.{mac_scheme, type_under};
ghost use Rattle.managers.specs.Uses.{tag_of, tag_size_of, tagged};

use crate::firsts::{write_cmac, write_hmac};
use crate::reading::read_as;
use crate::{CheckFault, KeyManager, MacManager, Prepared};
use aes_core::blocks::same_bytes;
use key_msgs::{KeyKind, KeyType};
use std::alloc::Global;
use tink_base::{NoMemory, Trials};

/// The size of the longest tag, a whole digest of SHA-512, in bytes.
const LONGEST_TAG: usize = 64;

/// How many bytes a tag has under a valid key of any kind.
fn tag_size(key: &KeyKind) -> usize
    requires valid { IsValid key.now }
    ensures size { result ≡ tag_size_of key.now }
    ensures bound { result ≤ LONGEST_TAG }
{
    match key {
        KeyKind::Hmac { tag_size, .. } | KeyKind::AesCmac { tag_size, .. } => *tag_size as usize,
        _ => 0,
    }
}

/// Writes the tag of the body under a valid key of any kind: no byte if it isn't a MAC key.
fn write_tag(key: &Prepared, body: &[u8], zero: bool, out: &mut [u8])
    requires valid { IsValid key.now }
    requires whole { length out.old ≡ tag_size_of key.now }
    ensures { out.new ≡ tag_of key.now (tagged zero body.now) }
{
    match key.kind() {
        KeyKind::Hmac { .. } => write_hmac(key.hmac(), body, zero, out),
        KeyKind::AesCmac { .. } => write_cmac(key.aes(), body, zero, out),
        _ => {}
    }
}

/// The tag of the body under a valid key of any kind.
fn tag_under(alloc: Global, key: &Prepared, body: &[u8], zero: bool) -> Result<Vec<u8>, NoMemory>
    requires valid { IsValid key.now }
    ensures { IfOk result (λ tag. tag.items ≡ tag_of key.now (tagged zero body.now)) }
{
    let mut tag = vec![in alloc; 0; tag_size(key.kind())]?;
    write_tag(key, body, zero, &mut tag);
    Ok(tag)
}

/// Whether this is the tag of the body under a valid key of any kind.
fn verify_under(key: &Prepared, tag: &[u8], body: &[u8], zero: bool) -> bool
    requires valid { IsValid key.now }
    ensures { result ≡ bytes_eq tag.now (tag_of key.now (tagged zero body.now)) }
{
    let mut longest = [0; LONGEST_TAG];
    let anew = &mut longest[..tag_size(key.kind())];
    write_tag(key, body, zero, anew);
    are_same(tag, anew)
}

/// Whether two lists of bytes are equal. If their lengths are equal, all bytes are compared,
/// wherever they differ.
fn are_same(a: &[u8], b: &[u8]) -> bool
    ensures { result ≡ bytes_eq a.now b.now }
{
    a.len() == b.len() && same_bytes(a, b)
}

/// The schemes of message authentication.
#[derive(Clone, Copy, Debug, PartialEq, Eq)]
pub enum MacScheme {
    /// HMAC (RFC 2104).
    Hmac,
    /// CMAC of AES (SP 800-38B).
    Cmac,
}

impl MacScheme {
    /// The type of the scheme's keys. No memory is taken.
    pub fn key_type(self) -> KeyType
        ensures { result ≡ type_under (mac_scheme self) }
    {
        match self {
            MacScheme::Hmac => KeyType::Hmac,
            MacScheme::Cmac => KeyType::AesCmac,
        }
    }
}

impl KeyManager for MacScheme {
    ghost url = { λ scheme. url_of_type (type_under (mac_scheme scheme)) };

    ghost scheme = { λ scheme. mac_scheme scheme };

    fn type_url(&self) -> &str {
        self.key_type().url()
    }

    fn check(&self, alloc: Global, value: &[u8]) -> Result<Prepared, CheckFault> {
        read_as(alloc, self.key_type(), value)
    }
}

impl MacManager for MacScheme {
    fn tag(
        &self,
        alloc: Global,
        key: &Prepared,
        body: &[u8],
        zero: bool,
    ) -> Result<Vec<u8>, NoMemory> {
        tag_under(alloc, key, body, zero)
    }

    fn verify(
        &self,
        key: &Prepared,
        tag: &[u8],
        body: &[u8],
        zero: bool,
        trials: &mut Trials,
    ) -> bool {
        trials.tick();
        verify_under(key, tag, body, zero)
    }
}

/// The manager of the keys of one of these schemes, under any type URL.
#[derive(Drop)]
pub struct StandardMac {
    url: String,
    scheme: MacScheme,
}

impl StandardMac {
    /// The manager of a scheme's keys under this type URL. No memory is taken.
    pub fn new(url: String, scheme: MacScheme) -> Self
        ensures url { ⟦<StandardMac as KeyManager>⟧.url result ≡ string_bytes url }
        ensures scheme { ⟦<StandardMac as KeyManager>⟧.scheme result ≡ mac_scheme scheme }
    {
        StandardMac { url, scheme }
    }
}

impl KeyManager for StandardMac {
    ghost url = { λ m. string_bytes m.url };

    ghost scheme = { λ m. mac_scheme m.scheme };

    fn type_url(&self) -> &str {
        self.url.as_str()
    }

    fn check(&self, alloc: Global, value: &[u8]) -> Result<Prepared, CheckFault> {
        self.scheme.check(alloc, value)
    }
}

impl MacManager for StandardMac {
    fn tag(
        &self,
        alloc: Global,
        key: &Prepared,
        body: &[u8],
        zero: bool,
    ) -> Result<Vec<u8>, NoMemory> {
        self.scheme.tag(alloc, key, body, zero)
    }

    fn verify(
        &self,
        key: &Prepared,
        tag: &[u8],
        body: &[u8],
        zero: bool,
        trials: &mut Trials,
    ) -> bool {
        self.scheme.verify(key, tag, body, zero, trials)
    }
}
