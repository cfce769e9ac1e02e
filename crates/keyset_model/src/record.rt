//! One key of a keyset.

ghost use Rattle.std.specs.Prelude.{◌≡◌, IfOk};

use std::alloc::Global;
use tink_base::{Bytes, NoMemory, Text};

/// A record: one key of the keyset and its properties (`Key` and `KeyData` of tink.proto).
#[derive(Drop)]
pub struct Record {
    /// The key id.
    pub id: u32,
    /// The status, as tink.proto numbers it.
    pub status: u32,
    /// The output prefix type, as tink.proto numbers it.
    pub prefix: u32,
    /// The type URL, empty if the key has no key data.
    pub url: Text,
    /// The key message, in the form that the type URL names.
    pub value: Bytes,
    /// The key material type, as tink.proto numbers it.
    pub material: u32,
}

impl Record {
    ghost use Rattle.keyset_model.specs.Keyset.{is_bare};

    /// Whether the record has no key data: no URL, no value and no key material type.
    pub fn is_bare(&self) -> bool
        ensures { result ≡ is_bare self.now }
    {
        self.url.as_str().is_empty() && self.value.as_slice().is_empty() && self.material == 0
    }

    /// A copy of the record.
    pub fn copy(&self, alloc: Global) -> Result<Record, NoMemory>
        ensures { IfOk result (λ r. r ≡ self.now) }
    {
        Ok(Record {
            id: self.id,
            status: self.status,
            prefix: self.prefix,
            url: Text::copy(alloc, self.url.as_str())?,
            value: Bytes::copy(alloc, self.value.as_slice())?,
            material: self.material,
        })
    }
}
