//! The managers of a program: those that it supplies, or the standard ones.

ghost use Rattle.std.specs.Prelude.{◌≡◌, ◌<◌, List, length, slice_get, Some, IfOk, is_err};
ghost use Rattle.managers.specs.Found.{or_standard};
ghost use Rattle.managers.specs.Standard.{standard_table};
ghost use Rattle.managers.specs.Table.{Entry, Table, entries_by, entries_of, has_same_url, place_of};

use crate::found::{Found, FoundAead, FoundDaead, FoundMac, FoundPrf};
use crate::lists::{find_url, repeats_in_four};
use crate::standard::{aead_of, find_standard, mac_of, prf_of};
use crate::{AeadManager, DaeadManager, DaeadScheme, KeyManager, MacManager, PrfManager};
use key_msgs::Primitive;

/// Two managers have the same type URL.
#[derive(Clone, Copy, Debug, PartialEq, Eq)]
pub struct SameUrl;

/// What contracts see of a list of managers: the URL and the scheme of each, in order.
pub trait KeyList {
    ghost entries: { Self → List Entry };
}

impl KeyList for Vec<Box<dyn AeadManager>> {
    ghost entries = { λ managers. entries_by
        (λ b. (AeadManager-box b).KeyManager.url b.value)
        (λ b. (AeadManager-box b).KeyManager.scheme b.value) managers.items };
}

impl KeyList for Vec<Box<dyn DaeadManager>> {
    ghost entries = { λ managers. entries_by
        (λ b. (DaeadManager-box b).KeyManager.url b.value)
        (λ b. (DaeadManager-box b).KeyManager.scheme b.value) managers.items };
}

impl KeyList for Vec<Box<dyn MacManager>> {
    ghost entries = { λ managers. entries_by
        (λ b. (MacManager-box b).KeyManager.url b.value)
        (λ b. (MacManager-box b).KeyManager.scheme b.value) managers.items };
}

impl KeyList for Vec<Box<dyn PrfManager>> {
    ghost entries = { λ managers. entries_by
        (λ b. (PrfManager-box b).KeyManager.url b.value)
        (λ b. (PrfManager-box b).KeyManager.scheme b.value) managers.items };
}

/// What contracts see of all managers: a table of URLs and schemes, by primitive.
pub trait KeyTable {
    ghost table: { Self → Table };
}

impl KeyTable for Managers {
    ghost table = { λ m. or_standard (λ own. record {
      aead = entries_by
          (λ b. (AeadManager-box b).KeyManager.url b.value)
          (λ b. (AeadManager-box b).KeyManager.scheme b.value) own.aead.items;
      daead = entries_by
          (λ b. (DaeadManager-box b).KeyManager.url b.value)
          (λ b. (DaeadManager-box b).KeyManager.scheme b.value) own.daead.items;
      mac = entries_by
          (λ b. (MacManager-box b).KeyManager.url b.value)
          (λ b. (MacManager-box b).KeyManager.scheme b.value) own.mac.items;
      prf = entries_by
          (λ b. (PrfManager-box b).KeyManager.url b.value)
          (λ b. (PrfManager-box b).KeyManager.scheme b.value) own.prf.items;
    }) m.supplied };
}

/// The managers that a program supplies, each in the list of its primitive.
#[derive(Drop)]
struct Supplied {
    aead: Vec<Box<dyn AeadManager>>,
    daead: Vec<Box<dyn DaeadManager>>,
    mac: Vec<Box<dyn MacManager>>,
    prf: Vec<Box<dyn PrfManager>>,
}

/// The managers of a program, by primitive: those that it supplies, or the standard ones.
#[derive(Drop)]
pub struct Managers {
    // None: the standard ones.
    supplied: Option<Supplied>,
}

#[tactic(auto, unfolding(crate::specs::Found::or_standard, crate::specs::Found::of_found))]
impl Managers {
    /// The standard managers, one for each scheme, under the type URL of its keys. No memory is
    /// taken.
    pub fn standard() -> Managers
        ensures { ⟦<Managers as KeyTable>⟧.table result ≡ standard_table }
    {
        Managers { supplied: None }
    }

    /// Takes the managers of each primitive.
    ///
    /// `SameUrl` comes if and only if two of all the managers have the same URL; then all are
    /// dropped. No memory is taken.
    pub fn new(
        aead: Vec<Box<dyn AeadManager>>,
        daead: Vec<Box<dyn DaeadManager>>,
        mac: Vec<Box<dyn MacManager>>,
        prf: Vec<Box<dyn PrfManager>>,
    ) -> Result<Managers, SameUrl>
        ensures table { IfOk result (λ m. ⟦<Managers as KeyTable>⟧.table m ≡ record {
          aead = ⟦<Vec<Box<dyn AeadManager>> as KeyList>⟧.entries aead;
          daead = ⟦<Vec<Box<dyn DaeadManager>> as KeyList>⟧.entries daead;
          mac = ⟦<Vec<Box<dyn MacManager>> as KeyList>⟧.entries mac;
          prf = ⟦<Vec<Box<dyn PrfManager>> as KeyList>⟧.entries prf;
        }) }
        ensures same_url { is_err result ≡ has_same_url (record {
          aead = ⟦<Vec<Box<dyn AeadManager>> as KeyList>⟧.entries aead;
          daead = ⟦<Vec<Box<dyn DaeadManager>> as KeyList>⟧.entries daead;
          mac = ⟦<Vec<Box<dyn MacManager>> as KeyList>⟧.entries mac;
          prf = ⟦<Vec<Box<dyn PrfManager>> as KeyList>⟧.entries prf;
        }) }
    {
        if repeats_in_four(&aead, &daead, &mac, &prf) {
            return Err(SameUrl);
        }
        Ok(Managers {
            supplied: Some(Supplied {
                aead,
                daead,
                mac,
                prf,
            }),
        })
    }

    /// The place of the first manager of a primitive with this type URL.
    ///
    /// `None` comes if and only if no manager of that primitive has the URL, so always for streams.
    /// No memory is taken.
    pub fn find(&self, primitive: Primitive, url: &str) -> Option<usize>
        ensures { result ≡ place_of (⟦<Managers as KeyTable>⟧.table self.now) primitive url.now }
    {
        match &self.supplied {
            None => find_standard(primitive, url),
            Some(own) => match primitive {
                Primitive::Aead => find_url(&own.aead, url),
                Primitive::Daead => find_url(&own.daead, url),
                Primitive::Mac => find_url(&own.mac, url),
                Primitive::Prf => find_url(&own.prf, url),
                Primitive::Stream => None,
            },
        }
    }

    /// The manager at index `at` of the AEAD managers.
    pub fn aead_at<'m>(&'m self, at: usize) -> FoundAead<'m>
        requires { at < length (⟦<Managers as KeyTable>⟧.table self.now).aead }
        ensures { slice_get (⟦<Managers as KeyTable>⟧.table self.now).aead at ≡ Some (record {
          url = ⟦<FoundAead<'m> as KeyManager>⟧.url result;
          scheme = ⟦<FoundAead<'m> as KeyManager>⟧.scheme result;
        }) }
    {
        match &self.supplied {
            None => Found::Standard(aead_of(at)),
            Some(own) => Found::Supplied(&own.aead[at]),
        }
    }

    /// The manager at index `at` of the deterministic AEAD managers.
    pub fn daead_at<'m>(&'m self, at: usize) -> FoundDaead<'m>
        requires { at < length (⟦<Managers as KeyTable>⟧.table self.now).daead }
        ensures { slice_get (⟦<Managers as KeyTable>⟧.table self.now).daead at ≡ Some (record {
          url = ⟦<FoundDaead<'m> as KeyManager>⟧.url result;
          scheme = ⟦<FoundDaead<'m> as KeyManager>⟧.scheme result;
        }) }
    {
        match &self.supplied {
            None => Found::Standard(DaeadScheme::Siv),
            Some(own) => Found::Supplied(&own.daead[at]),
        }
    }

    /// The manager at index `at` of the MAC managers.
    pub fn mac_at<'m>(&'m self, at: usize) -> FoundMac<'m>
        requires { at < length (⟦<Managers as KeyTable>⟧.table self.now).mac }
        ensures { slice_get (⟦<Managers as KeyTable>⟧.table self.now).mac at ≡ Some (record {
          url = ⟦<FoundMac<'m> as KeyManager>⟧.url result;
          scheme = ⟦<FoundMac<'m> as KeyManager>⟧.scheme result;
        }) }
    {
        match &self.supplied {
            None => Found::Standard(mac_of(at)),
            Some(own) => Found::Supplied(&own.mac[at]),
        }
    }

    /// The manager at index `at` of the PRF managers.
    pub fn prf_at<'m>(&'m self, at: usize) -> FoundPrf<'m>
        requires { at < length (⟦<Managers as KeyTable>⟧.table self.now).prf }
        ensures { slice_get (⟦<Managers as KeyTable>⟧.table self.now).prf at ≡ Some (record {
          url = ⟦<FoundPrf<'m> as KeyManager>⟧.url result;
          scheme = ⟦<FoundPrf<'m> as KeyManager>⟧.scheme result;
        }) }
    {
        match &self.supplied {
            None => Found::Standard(prf_of(at)),
            Some(own) => Found::Supplied(&own.prf[at]),
        }
    }
}
