//! The manager of authenticated encryption: AES-GCM, EAX, AES-CTR-HMAC and AES-GCM-SIV.

ghost use Rattle.std.specs.Prelude.{◌≡◌, ◌+◌, ◌^◌, ◌≤◌, ℕ, drop, length, string_bytes, take};
ghost use Rattle.aead_kinds.specs.GcmSiv.{gcm_siv_seal, text_of};
ghost use Rattle.key_msgs.specs.KeyTypes.{url_of_type};
ghost use Rattle.key_msgs.specs.Keys.{IsValid};
ghost use Rattle.managers.specs.Schemes.{aead_scheme, type_under};
ghost use Rattle.managers.specs.Uses.{iv_size, open_key, seal_of, sealed_size};
ghost use Rattle.tink_spec.specs.InPlace.{OpensTo};

use crate::reading::read_as;
use crate::{AeadManager, CheckFault, KeyManager, Prepared};
use aead_kinds::{AeadKey, gcm_siv_open, gcm_siv_seal, open, seal};
use aes_core::Aes;
use key_msgs::{KeyKind, KeyType};
use std::alloc::Global;
use std::ops::Range;
use tink_base::Trials;

/// The size of an IV of AES-GCM and of AES-GCM-SIV, in bytes.
const GCM_IV: usize = 12;

/// The size of a tag of AES-GCM, EAX and AES-GCM-SIV, in bytes.
const TAG: usize = 16;

/// How many bytes an IV has under a key of any kind.
fn iv_size_under(key: &KeyKind) -> usize
    ensures { result ≡ iv_size key.now }
{
    match key {
        KeyKind::AesGcm { .. } | KeyKind::AesGcmSiv { .. } => GCM_IV,
        KeyKind::AesEax { iv_size, .. } | KeyKind::AesCtrHmac { iv_size, .. } => *iv_size as usize,
        _ => 0,
    }
}

/// How many bytes a sealing has under a valid key of any kind.
fn size_under(key: &Prepared, plain: usize) -> usize
    requires valid { IsValid key.now }
    requires plain_bound { plain ≤ 2 ^ 30 }
    ensures size { result ≡ sealed_size key.now plain }
    ensures bound { result ≤ plain + 96 }
{
    match key.kind() {
        KeyKind::AesGcm { .. } | KeyKind::AesGcmSiv { .. } => GCM_IV + plain + TAG,
        KeyKind::AesEax { iv_size, .. } => *iv_size as usize + plain + TAG,
        KeyKind::AesCtrHmac {
            iv_size,
            tag_size,
            ..
        } => *iv_size as usize + plain + *tag_size as usize,
        _ => 0,
    }
}

/// Seals in place under a valid key of any kind: to no bytes if it isn't an AEAD key.
fn seal_under(key: &Prepared, sealed: &mut [u8], iv: &[u8], ad: &[u8])
    requires valid { IsValid key.now }
    requires whole_iv { length iv.now ≡ iv_size key.now }
    requires room { (n : ℕ) × (n ≤ 2 ^ 30) × (length sealed.old ≡ sealed_size key.now n) }
    requires ad_bound { length ad.now ≤ 2 ^ 30 }
    ensures { (n : ℕ) → length sealed.old ≡ sealed_size key.now n
        → sealed.new ≡ seal_of key.now iv.now (take n (drop (iv_size key.now) sealed.old)) ad.now }
{
    match key.kind() {
        KeyKind::AesGcm { .. } => seal(&AeadKey::Gcm { key: key.gcm() }, sealed, iv, ad),
        KeyKind::AesEax { iv_size, .. } => {
            let under = AeadKey::Eax {
                key: key.aes(),
                iv_size: *iv_size as usize,
            };
            seal(&under, sealed, iv, ad)
        }
        KeyKind::AesCtrHmac {
            iv_size,
            tag_size,
            ..
        } => {
            let under = AeadKey::CtrHmac {
                aes: key.aes(),
                iv_size: *iv_size as usize,
                mac: key.hmac(),
                tag_size: *tag_size as usize,
            };
            seal(&under, sealed, iv, ad)
        }
        KeyKind::AesGcmSiv { .. } => seal_by_gcm_siv(key.aes(), sealed, iv, ad),
        _ => {}
    }
}

/// Seals in place by AES-GCM-SIV.
fn seal_by_gcm_siv(key: &Aes, sealed: &mut [u8], iv: &[u8], ad: &[u8])
    requires whole_iv { length iv.now ≡ 12 }
    requires room { 28 ≤ length sealed.old }
    requires plain_bound { length sealed.old ≤ 2 ^ 30 + 28 }
    requires ad_bound { length ad.now ≤ 2 ^ 30 }
    ensures { sealed.new ≡ gcm_siv_seal key.now iv.now (text_of sealed.old) ad.now }
{
    match iv.first_chunk::<GCM_IV>() {
        Some(iv) => gcm_siv_seal(key, sealed, iv, ad),
        None => unreachable!(),
    }
}

/// Opens in place under a valid key of any kind: nothing if it isn't an AEAD key.
fn open_under(key: &Prepared, bytes: &mut [u8], ad: &[u8]) -> Option<Range<usize>>
    requires valid { IsValid key.now }
    requires bytes_bound { length bytes.old ≤ 2 ^ 30 + 96 }
    requires ad_bound { length ad.now ≤ 2 ^ 30 }
    ensures { OpensTo (open_key key.now bytes.old ad.now) bytes.old bytes.new result }
{
    match key.kind() {
        KeyKind::AesGcm { .. } => open(&AeadKey::Gcm { key: key.gcm() }, bytes, ad),
        KeyKind::AesEax { iv_size, .. } => {
            let under = AeadKey::Eax {
                key: key.aes(),
                iv_size: *iv_size as usize,
            };
            open(&under, bytes, ad)
        }
        KeyKind::AesCtrHmac {
            iv_size,
            tag_size,
            ..
        } => {
            let under = AeadKey::CtrHmac {
                aes: key.aes(),
                iv_size: *iv_size as usize,
                mac: key.hmac(),
                tag_size: *tag_size as usize,
            };
            open(&under, bytes, ad)
        }
        KeyKind::AesGcmSiv { .. } => gcm_siv_open(key.aes(), bytes, ad),
        _ => None,
    }
}

/// The schemes of authenticated encryption.
#[derive(Clone, Copy, Debug, PartialEq, Eq)]
pub enum AeadScheme {
    /// AES-GCM (SP 800-38D).
    Gcm,
    /// EAX (Bellare, Rogaway and Wagner).
    Eax,
    /// AES-CTR-HMAC, by Tink's wire format.
    CtrHmac,
    /// AES-GCM-SIV (RFC 8452).
    GcmSiv,
}

impl AeadScheme {
    /// The type of the scheme's keys. No memory is taken.
    pub fn key_type(self) -> KeyType
        ensures { result ≡ type_under (aead_scheme self) }
    {
        match self {
            AeadScheme::Gcm => KeyType::AesGcm,
            AeadScheme::Eax => KeyType::AesEax,
            AeadScheme::CtrHmac => KeyType::AesCtrHmac,
            AeadScheme::GcmSiv => KeyType::AesGcmSiv,
        }
    }
}

impl KeyManager for AeadScheme {
    ghost url = { λ scheme. url_of_type (type_under (aead_scheme scheme)) };

    ghost scheme = { λ scheme. aead_scheme scheme };

    fn type_url(&self) -> &str {
        self.key_type().url()
    }

    fn check(&self, alloc: Global, value: &[u8]) -> Result<Prepared, CheckFault> {
        read_as(alloc, self.key_type(), value)
    }
}

impl AeadManager for AeadScheme {
    fn iv_size(&self, key: &Prepared) -> usize {
        iv_size_under(key.kind())
    }

    fn sealed_size(&self, key: &Prepared, plain: usize) -> usize {
        size_under(key, plain)
    }

    fn seal(&self, key: &Prepared, sealed: &mut [u8], iv: &[u8], ad: &[u8]) {
        seal_under(key, sealed, iv, ad);
    }

    fn open(
        &self,
        key: &Prepared,
        bytes: &mut [u8],
        ad: &[u8],
        trials: &mut Trials,
    ) -> Option<Range<usize>> {
        trials.tick();
        open_under(key, bytes, ad)
    }
}

/// The manager of the keys of one of these schemes, under any type URL.
#[derive(Drop)]
pub struct StandardAead {
    url: String,
    scheme: AeadScheme,
}

impl StandardAead {
    /// The manager of a scheme's keys under this type URL. No memory is taken.
    pub fn new(url: String, scheme: AeadScheme) -> Self
        ensures url { ⟦<StandardAead as KeyManager>⟧.url result ≡ string_bytes url }
        ensures scheme { ⟦<StandardAead as KeyManager>⟧.scheme result ≡ aead_scheme scheme }
    {
        StandardAead { url, scheme }
    }
}

impl KeyManager for StandardAead {
    ghost url = { λ m. string_bytes m.url };

    ghost scheme = { λ m. aead_scheme m.scheme };

    fn type_url(&self) -> &str {
        self.url.as_str()
    }

    fn check(&self, alloc: Global, value: &[u8]) -> Result<Prepared, CheckFault> {
        self.scheme.check(alloc, value)
    }
}

impl AeadManager for StandardAead {
    fn iv_size(&self, key: &Prepared) -> usize {
        self.scheme.iv_size(key)
    }

    fn sealed_size(&self, key: &Prepared, plain: usize) -> usize {
        self.scheme.sealed_size(key, plain)
    }

    fn seal(&self, key: &Prepared, sealed: &mut [u8], iv: &[u8], ad: &[u8]) {
        self.scheme.seal(key, sealed, iv, ad);
    }

    fn open(
        &self,
        key: &Prepared,
        bytes: &mut [u8],
        ad: &[u8],
        trials: &mut Trials,
    ) -> Option<Range<usize>> {
        self.scheme.open(key, bytes, ad, trials)
    }
}
