//! A manager in a table: a standard one, or one that was supplied.
#![tactic(auto, unfolding(crate::specs::Found::of_found))]

ghost use Rattle.key_msgs.specs.KeyTypes.{url_of_type};
ghost use Rattle.managers.specs.Found.{of_found};
ghost use Rattle.managers.specs.Schemes.{Siv, aead_scheme, mac_scheme, prf_scheme, type_under};

use crate::{
    AeadManager, AeadScheme, CheckFault, DaeadManager, DaeadScheme, KeyManager, MacManager,
    MacScheme, Prepared, PrfManager, PrfScheme,
};
use std::alloc::Global;
use std::ops::Range;
use tink_base::{NoMemory, Trials};

/// A manager, by where it comes from.
#[derive(Drop)]
pub enum Found<'m, S, M> {
    /// A standard one.
    Standard(S),
    /// One that was supplied.
    Supplied(&'m M),
}

/// A manager of AEADs.
pub type FoundAead<'m> = Found<'m, AeadScheme, Box<dyn AeadManager>>;

/// A manager of deterministic AEADs.
pub type FoundDaead<'m> = Found<'m, DaeadScheme, Box<dyn DaeadManager>>;

/// A manager of MACs.
pub type FoundMac<'m> = Found<'m, MacScheme, Box<dyn MacManager>>;

/// A manager of pseudo-random functions.
pub type FoundPrf<'m> = Found<'m, PrfScheme, Box<dyn PrfManager>>;

impl KeyManager for FoundAead<'_> {
    ghost url = { of_found (λ s. url_of_type (type_under (aead_scheme s)))
        (λ b. (AeadManager-box b).KeyManager.url b.value) };

    ghost scheme = { of_found aead_scheme (λ b. (AeadManager-box b).KeyManager.scheme b.value) };

    fn type_url(&self) -> &str {
        match self {
            Found::Standard(own) => own.type_url(),
            Found::Supplied(own) => (***own).type_url(),
        }
    }

    fn check(&self, alloc: Global, value: &[u8]) -> Result<Prepared, CheckFault> {
        match self {
            Found::Standard(own) => own.check(alloc, value),
            Found::Supplied(own) => (***own).check(alloc, value),
        }
    }
}

impl KeyManager for FoundDaead<'_> {
    ghost url = { of_found (λ _. url_of_type (type_under Siv))
        (λ b. (DaeadManager-box b).KeyManager.url b.value) };

    ghost scheme = { of_found (λ _. Siv) (λ b. (DaeadManager-box b).KeyManager.scheme b.value) };

    fn type_url(&self) -> &str {
        match self {
            Found::Standard(own) => own.type_url(),
            Found::Supplied(own) => (***own).type_url(),
        }
    }

    fn check(&self, alloc: Global, value: &[u8]) -> Result<Prepared, CheckFault> {
        match self {
            Found::Standard(own) => own.check(alloc, value),
            Found::Supplied(own) => (***own).check(alloc, value),
        }
    }
}

impl KeyManager for FoundMac<'_> {
    ghost url = { of_found (λ s. url_of_type (type_under (mac_scheme s)))
        (λ b. (MacManager-box b).KeyManager.url b.value) };

    ghost scheme = { of_found mac_scheme (λ b. (MacManager-box b).KeyManager.scheme b.value) };

    fn type_url(&self) -> &str {
        match self {
            Found::Standard(own) => own.type_url(),
            Found::Supplied(own) => (***own).type_url(),
        }
    }

    fn check(&self, alloc: Global, value: &[u8]) -> Result<Prepared, CheckFault> {
        match self {
            Found::Standard(own) => own.check(alloc, value),
            Found::Supplied(own) => (***own).check(alloc, value),
        }
    }
}

impl KeyManager for FoundPrf<'_> {
    ghost url = { of_found (λ s. url_of_type (type_under (prf_scheme s)))
        (λ b. (PrfManager-box b).KeyManager.url b.value) };

    ghost scheme = { of_found prf_scheme (λ b. (PrfManager-box b).KeyManager.scheme b.value) };

    fn type_url(&self) -> &str {
        match self {
            Found::Standard(own) => own.type_url(),
            Found::Supplied(own) => (***own).type_url(),
        }
    }

    fn check(&self, alloc: Global, value: &[u8]) -> Result<Prepared, CheckFault> {
        match self {
            Found::Standard(own) => own.check(alloc, value),
            Found::Supplied(own) => (***own).check(alloc, value),
        }
    }
}

impl AeadManager for FoundAead<'_> {
    fn iv_size(&self, key: &Prepared) -> usize {
        match self {
            Found::Standard(own) => own.iv_size(key),
            Found::Supplied(own) => (***own).iv_size(key),
        }
    }

    fn sealed_size(&self, key: &Prepared, plain: usize) -> usize {
        match self {
            Found::Standard(own) => own.sealed_size(key, plain),
            Found::Supplied(own) => (***own).sealed_size(key, plain),
        }
    }

    fn seal(&self, key: &Prepared, sealed: &mut [u8], iv: &[u8], ad: &[u8]) {
        match self {
            Found::Standard(own) => own.seal(key, sealed, iv, ad),
            Found::Supplied(own) => (***own).seal(key, sealed, iv, ad),
        }
    }

    fn open(
        &self,
        key: &Prepared,
        bytes: &mut [u8],
        ad: &[u8],
        trials: &mut Trials,
    ) -> Option<Range<usize>> {
        match self {
            Found::Standard(own) => own.open(key, bytes, ad, trials),
            Found::Supplied(own) => (***own).open(key, bytes, ad, trials),
        }
    }
}

impl DaeadManager for FoundDaead<'_> {
    fn seal(
        &self,
        key: &Prepared,
        at: usize,
        bytes: Vec<u8>,
        ad: &[u8],
    ) -> Result<Vec<u8>, NoMemory> {
        match self {
            Found::Standard(own) => own.seal(key, at, bytes, ad),
            Found::Supplied(own) => (***own).seal(key, at, bytes, ad),
        }
    }

    fn open(
        &self,
        key: &Prepared,
        bytes: &mut [u8],
        ad: &[u8],
        trials: &mut Trials,
    ) -> Option<Range<usize>> {
        match self {
            Found::Standard(own) => own.open(key, bytes, ad, trials),
            Found::Supplied(own) => (***own).open(key, bytes, ad, trials),
        }
    }
}

impl MacManager for FoundMac<'_> {
    fn tag(
        &self,
        alloc: Global,
        key: &Prepared,
        body: &[u8],
        zero: bool,
    ) -> Result<Vec<u8>, NoMemory> {
        match self {
            Found::Standard(own) => own.tag(alloc, key, body, zero),
            Found::Supplied(own) => (***own).tag(alloc, key, body, zero),
        }
    }

    fn verify(
        &self,
        key: &Prepared,
        tag: &[u8],
        body: &[u8],
        zero: bool,
        trials: &mut Trials,
    ) -> bool {
        match self {
            Found::Standard(own) => own.verify(key, tag, body, zero, trials),
            Found::Supplied(own) => (***own).verify(key, tag, body, zero, trials),
        }
    }
}

impl PrfManager for FoundPrf<'_> {
    fn greatest(&self, key: &Prepared) -> usize {
        match self {
            Found::Standard(own) => own.greatest(key),
            Found::Supplied(own) => (***own).greatest(key),
        }
    }

    fn derive(
        &self,
        alloc: Global,
        key: &Prepared,
        input: &[u8],
        size: usize,
    ) -> Result<Vec<u8>, NoMemory> {
        match self {
            Found::Standard(own) => own.derive(alloc, key, input, size),
            Found::Supplied(own) => (***own).derive(alloc, key, input, size),
        }
    }
}
