//! Places in a keyset.

ghost use Rattle.std.specs.Prelude.{◌≡◌, ◌++◌, ◌∷◌, [], OnOk};

use std::alloc::Global;
use std::marker::Model;
use tink_base::NoMemory;

/// Places of records in a keyset, counted from 0. Contracts see a list of places.
#[derive(Drop)]
pub struct Places {
    items: Vec<usize>,
}

impl Model for Places {
    ghost use Rattle.std.specs.Prelude.{ℕ, List};

    ghost Value = { List ℕ };

    ghost view = { λ places. places.items.items };
}

impl Places {
    /// No places.
    pub(crate) fn new(alloc: Global) -> Places
        ensures { result ≡ [] }
    {
        Places {
            items: Vec::new(alloc),
        }
    }

    /// Appends a place.
    pub(crate) fn push(&mut self, place: usize) -> Result<(), NoMemory>
        ensures { OnOk result (self.new ≡ self.old ++ place ∷ []) }
    {
        self.items.push(place)?;
        Ok(())
    }

    /// The places, in their order. No memory is taken.
    pub fn as_slice(&self) -> &[usize]
        ensures { result.now ≡ self.now }
    {
        &self.items
    }
}
