//! What a handle keeps, without its managers.

ghost use Rattle.std.specs.Prelude.{◌≡◌};
ghost use Rattle.key_msgs.specs.declared.primitive.Primitive.{Primitive as PrimitiveValue};
ghost use Rattle.keyset_model.specs.Keyset.{Keys};
ghost use Rattle.managers.specs.Table.{Table};
ghost use Rattle.wrapped_prims.specs.Making.{IsOver};

use crate::Handle;
use crate::held::Held;
use key_msgs::Primitive;
use managers::{KeyTable, Managers};
use std::alloc::Global;
use tink_base::NoMemory;

/// The checked and prepared keys of a handle. A program that can't lend managers for as long as it
/// keeps the keys keeps these, and makes a handle of them under managers of the same table again.
#[derive(Drop)]
pub struct HeldKeys {
    pub(crate) primitive: Primitive,
    pub(crate) held: Held,
}

impl HeldKeys {
    /// No keys, as a placeholder while the keys are elsewhere. No memory is taken.
    pub fn none(alloc: Global) -> HeldKeys {
        HeldKeys {
            primitive: Primitive::Aead,
            held: Held::new(alloc, 0),
        }
    }

    /// The primitive for which the keys are held. No memory is taken.
    pub fn primitive(&self) -> Primitive
        ensures { result ≡ self.now.primitive }
    {
        self.primitive
    }

    /// Makes ahead what long messages under these keys need again and again, as
    /// `Prepared::prepare_ahead` does: for keys that are kept for many messages. The keys are what
    /// they were, also if there isn't memory for that.
    pub fn prepare_ahead(&mut self, alloc: Global) -> Result<(), NoMemory>
        ensures primitive { self.new.primitive ≡ self.old.primitive }
        ensures over { (table : Table) (primitive : PrimitiveValue) (keys : Keys)
            → IsOver table primitive keys self.old.held
            → IsOver table primitive keys self.new.held }
    {
        self.held.prepare_ahead(alloc)
    }
}

impl<'m> Handle<'m> {
    /// The keys of the handle. No memory is taken.
    pub fn into_keys(self) -> HeldKeys
        ensures primitive { result.primitive ≡ self.entry.primitive }
        ensures held { result.held ≡ self.entry.held }
    {
        let Handle {
            managers: _,
            primitive,
            held,
        } = self;
        HeldKeys { primitive, held }
    }

    /// A handle of these keys under managers. If the managers have the same table as before, it is
    /// over the same keyset as the handle that the keys came from. No memory is taken.
    pub fn of_keys(keys: HeldKeys, managers: &'m Managers) -> Handle<'m>
        ensures primitive { result.primitive ≡ keys.primitive }
        ensures held { result.held ≡ keys.held }
        ensures table { ⟦<Managers as KeyTable>⟧.table result.managers.now
            ≡ ⟦<Managers as KeyTable>⟧.table managers.now }
    {
        let HeldKeys { primitive, held } = keys;
        Handle {
            managers,
            primitive,
            held,
        }
    }
}
