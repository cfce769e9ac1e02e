//! A file of a store as a device.

ghost use Rattle.std.specs.Prelude.{◌≡◌, ◌<◌, ◌^◌, Some};
ghost use Rattle.tink_spec.specs.Files.{HoldsSize};
ghost use Rattle.stream_range.specs.Stored.{size_in};

use crate::Device;
use tink_base::{Failed, Store};

/// One file of a store, with the store's counts.
#[derive(Drop)]
pub struct StoreDevice<'s, D: Store> {
    store: &'s mut D,
    name: &'s str,
    size: u64,
    ghost bound: { size < 2 ^ 63 },
    ghost held: { size_in (D.state store.now).files name.now size ≡ Some size },
}

impl<'s, D: Store> StoreDevice<'s, D> {
    /// The file of this name, which has `size` bytes, as the store's `size` says.
    pub fn over(store: &'s mut D, name: &'s str, size: u64) -> StoreDevice<'s, D>
        requires size_bound { size < 2 ^ 63 }
        requires held { HoldsSize (D.state store.old) name.now size }
        ensures lends { result.store.ghost_name ≡ store.entry.ghost_name }
        ensures store { result.store.now ≡ store.old }
        ensures name { result.name.now ≡ name.now }
        ensures size { result.size ≡ size }
    {
        StoreDevice { store, name, size }
    }
}

impl<D: Store> Device for StoreDevice<'_, D> {
    ghost use Rattle.stream_range.specs.Stored.{stored_device};

    ghost state = { λ s. stored_device (D.state s.store.now) s.name.now s.size };

    ghost lent = { λ s. s.store.ghost_name };

    fn size(&self) -> u64 {
        self.size
    }

    fn read_at(&mut self, at: u64, out: &mut [u8]) -> Result<usize, Failed> {
        self.store.read_at(self.name, at, out)
    }
}
