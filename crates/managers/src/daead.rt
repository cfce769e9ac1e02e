//! The manager of AES-SIV.

ghost use Rattle.std.specs.Prelude.{◌≡◌, ◌+◌, ◌^◌, ◌≤◌, ◌++◌, drop, length, string_bytes, take};
ghost use Rattle.key_msgs.specs.KeyTypes.{url_of_type};
ghost use Rattle.key_msgs.specs.Keys.{IsValid};
ghost use Rattle.managers.specs.Schemes as schemes;
ghost use Rattle.managers.specs.Schemes.{type_under};
ghost use Rattle.managers.specs.Uses.{dopen_key, dseal_of};
ghost use Rattle.tink_spec.specs.InPlace.{OpensTo};

use crate::reading::read_as;
use crate::{CheckFault, DaeadManager, KeyManager, Prepared};
use key_msgs::{KeyKind, KeyType};
use siv_daead::{siv_open, siv_seal};
use std::alloc::Global;
use std::ops::Range;
use tink_base::{NoMemory, Trials};

/// Seals in place, after the first `at` bytes, under a valid key of any kind: to no bytes if it
/// isn't a deterministic AEAD key.
fn dseal_under(key: &Prepared, at: usize, mut bytes: Vec<u8>, ad: &[u8]) -> Vec<u8>
    requires valid { IsValid key.now }
    requires room { at + 16 ≤ length bytes.items }
    requires plain_bound { length bytes.items ≤ at + 16 + 2 ^ 30 }
    requires ad_bound { length ad.now ≤ 2 ^ 30 }
    ensures { result.items ≡ take at bytes.items
        ++ dseal_of key.now (drop (at + 16) bytes.items) ad.now }
{
    match key.kind() {
        KeyKind::AesSiv { .. } => siv_seal(key.siv(), at, bytes, ad),
        _ => {
            bytes.truncate(at);
            bytes
        }
    }
}

/// Opens in place under a valid key of any kind: nothing if it isn't a deterministic AEAD key.
fn dopen_under(key: &Prepared, bytes: &mut [u8], ad: &[u8]) -> Option<Range<usize>>
    requires valid { IsValid key.now }
    requires bytes_bound { length bytes.old ≤ 2 ^ 30 + 96 }
    requires ad_bound { length ad.now ≤ 2 ^ 30 }
    ensures { OpensTo (dopen_key key.now bytes.old ad.now) bytes.old bytes.new result }
{
    match key.kind() {
        KeyKind::AesSiv { .. } => siv_open(key.siv(), bytes, ad),
        _ => None,
    }
}

/// The scheme of deterministic authenticated encryption.
#[derive(Clone, Copy, Debug, PartialEq, Eq)]
pub enum DaeadScheme {
    /// AES-SIV (RFC 5297).
    Siv,
}

impl KeyManager for DaeadScheme {
    ghost url = { λ _. url_of_type (type_under schemes.Siv) };

    ghost scheme = { λ _. schemes.Siv };

    fn type_url(&self) -> &str {
        KeyType::AesSiv.url()
    }

    fn check(&self, alloc: Global, value: &[u8]) -> Result<Prepared, CheckFault> {
        read_as(alloc, KeyType::AesSiv, value)
    }
}

impl DaeadManager for DaeadScheme {
    fn seal(
        &self,
        key: &Prepared,
        at: usize,
        bytes: Vec<u8>,
        ad: &[u8],
    ) -> Result<Vec<u8>, NoMemory> {
        Ok(dseal_under(key, at, bytes, ad))
    }

    fn open(
        &self,
        key: &Prepared,
        bytes: &mut [u8],
        ad: &[u8],
        trials: &mut Trials,
    ) -> Option<Range<usize>> {
        trials.tick();
        dopen_under(key, bytes, ad)
    }
}

/// The manager of AES-SIV keys (RFC 5297), under any type URL.
#[derive(Drop)]
pub struct StandardDaead {
    url: String,
}

impl StandardDaead {
    /// The manager under this type URL. No memory is taken.
    pub fn new(url: String) -> Self
        ensures url { ⟦<StandardDaead as KeyManager>⟧.url result ≡ string_bytes url }
        ensures scheme { ⟦<StandardDaead as KeyManager>⟧.scheme result ≡ schemes.Siv }
    {
        StandardDaead { url }
    }
}

impl KeyManager for StandardDaead {
    ghost url = { λ m. string_bytes m.url };

    ghost scheme = { λ _. schemes.Siv };

    fn type_url(&self) -> &str {
        self.url.as_str()
    }

    fn check(&self, alloc: Global, value: &[u8]) -> Result<Prepared, CheckFault> {
        DaeadScheme::Siv.check(alloc, value)
    }
}

impl DaeadManager for StandardDaead {
    fn seal(
        &self,
        key: &Prepared,
        at: usize,
        bytes: Vec<u8>,
        ad: &[u8],
    ) -> Result<Vec<u8>, NoMemory> {
        DaeadScheme::Siv.seal(key, at, bytes, ad)
    }

    fn open(
        &self,
        key: &Prepared,
        bytes: &mut [u8],
        ad: &[u8],
        trials: &mut Trials,
    ) -> Option<Range<usize>> {
        DaeadScheme::Siv.open(key, bytes, ad, trials)
    }
}
