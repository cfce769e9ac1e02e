//! Keys, prepared once for all their work.

ghost use Rattle.std.specs.Prelude.{◌≡◌, ◌⊎◌, length};
ghost use Rattle.key_msgs.specs.Keys.{IsValid};
ghost use Rattle.managers.specs.Made.{IsHmacOf, IsMadeOf, UsesAes, UsesGcm, UsesHmac, UsesSiv, aes_in, gcm_in, siv_in};

use aead_kinds::GcmKey;
use aes_core::Aes;
use key_msgs::KeyKind;
use mac_prf::{Hmac, hkdf_extract};
use siv_daead::SivKey;
use std::alloc::Global;
use std::marker::Model;
use tink_base::NoMemory;

/// A valid key, prepared once for all its work. Contracts see the key.
///
/// An AES key is expanded (FIPS 197, 5.2), with both halves for AES-SIV, and with the hash subkey
/// for AES-GCM (SP 800-38D, 7.1). For HMAC, also in AES-CTR-HMAC, both pads are hashed (RFC 2104,
/// 2). For HKDF the pseudorandom key is extracted (RFC 5869, 2.2) and its pads are hashed. Keys for
/// streams aren't prepared.
///
/// It takes about 800 bytes beside the key's own, whatever its kind, so borrow it rather than move
/// it.
#[derive(Drop)]
pub struct Prepared {
    kind: KeyKind,
    made: Made,
}

/// What is prepared of a key.
#[derive(Drop)]
enum Made {
    /// The expansion of an AES-GCM key, and its hash subkey.
    Gcm(GcmKey),
    /// The expansion of its AES key.
    Aes(Aes),
    /// The expansions of both halves of an AES-SIV key.
    Siv(SivKey),
    /// HMAC under its key, or under the pseudorandom key of HKDF, before any message.
    Hmac(Hmac),
    /// The expansion of its AES key, and HMAC under its other key, before any message.
    CtrHmac(Aes, Hmac),
    /// Nothing: the key is used as it is.
    Nothing,
}

impl Model for Prepared {
    ghost use Rattle.key_msgs.specs.Keys.{IsValid};
    ghost use Rattle.key_msgs.specs.declared.key.KeyKind.{KeyKind};
    ghost use Rattle.managers.specs.Made.{IsMadeOf};

    ghost Value = { KeyKind };

    ghost view = { λ p. p.kind };

    ghost invariant = { λ p. IsValid p.kind × IsMadeOf p.kind p.made };
}

impl Prepared {
    /// Prepares a valid key. No memory is taken.
    pub fn new(kind: KeyKind) -> Prepared
        requires valid { IsValid kind }
        ensures { result ≡ kind }
    {
        let made = made_of(&kind);
        Prepared { kind, made }
    }

    /// Makes ahead what long messages under the key need again and again: the powers of the hash
    /// subkey of AES-GCM, in 4 KiB of memory, and nothing of other keys. Without memory for them
    /// the key stays as it was.
    pub fn prepare_ahead(&mut self, alloc: Global) -> Result<(), NoMemory>
        ensures { self.new ≡ self.old }
    {
        match &mut self.made {
            Made::Gcm(gcm) => gcm.prepare_ahead(alloc),
            _ => Ok(()),
        }
    }

    /// The key. No memory is taken.
    pub fn kind(&self) -> &KeyKind
        ensures key { result.now ≡ self.now }
        ensures valid { IsValid self.now }
    {
        &self.kind
    }

    /// Its AES-GCM key, prepared.
    pub(crate) fn gcm(&self) -> &GcmKey
        requires { UsesGcm self.now }
        ensures { result.now ≡ gcm_in self.now }
    {
        match &self.made {
            Made::Gcm(gcm) => gcm,
            _ => unreachable!(),
        }
    }

    /// The expansion of its AES key.
    pub(crate) fn aes(&self) -> &Aes
        requires { UsesAes self.now }
        ensures { result.now ≡ aes_in self.now }
    {
        match &self.made {
            Made::Aes(aes) | Made::CtrHmac(aes, _) => aes,
            _ => unreachable!(),
        }
    }

    /// The expansion of its AES-SIV key.
    pub(crate) fn siv(&self) -> &SivKey
        requires { UsesSiv self.now }
        ensures { result.now ≡ siv_in self.now }
    {
        match &self.made {
            Made::Siv(siv) => siv,
            _ => unreachable!(),
        }
    }

    /// HMAC under its key, or under the pseudorandom key of HKDF, before any message: copy it for
    /// each message.
    pub(crate) fn hmac(&self) -> &Hmac
        requires { UsesHmac self.now }
        ensures { IsHmacOf self.now result.now }
    {
        match &self.made {
            Made::Hmac(hmac) | Made::CtrHmac(_, hmac) => hmac,
            _ => unreachable!(),
        }
    }
}

/// What is prepared of a valid key.
fn made_of(kind: &KeyKind) -> Made
    requires valid { IsValid kind.now }
    ensures { IsMadeOf kind.now result }
{
    match kind {
        KeyKind::AesGcm { key } => Made::Gcm(GcmKey::new(key.as_slice()).unwrap()),
        KeyKind::AesEax { key, .. }
        | KeyKind::AesGcmSiv { key }
        | KeyKind::AesCmac { key, .. }
        | KeyKind::CmacPrf { key } => Made::Aes(expanded(key.as_slice())),
        KeyKind::AesCtrHmac { aes, hash, mac, .. } => {
            Made::CtrHmac(expanded(aes.as_slice()), Hmac::new(*hash, mac.as_slice()))
        }
        KeyKind::AesSiv { key } => Made::Siv(SivKey::new(key.as_slice()).unwrap()),
        KeyKind::Hmac { key, hash, .. } | KeyKind::HmacPrf { key, hash } => {
            Made::Hmac(Hmac::new(*hash, key.as_slice()))
        }
        KeyKind::HkdfPrf { key, hash, salt } => {
            Made::Hmac(hkdf_extract(*hash, key.as_slice(), salt.as_slice()))
        }
        _ => Made::Nothing,
    }
}

/// The expansion of an AES key.
fn expanded(key: &[u8]) -> Aes
    requires key_size { (length key.now ≡ 16) ⊎ (length key.now ≡ 32) }
    ensures { result ≡ key.now }
{
    Aes::new(key).unwrap()
}
