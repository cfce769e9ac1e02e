//! An entropy in memory holds no byte ahead, so each of its calls that must fail does happen.

ghost use Rattle.std.specs.Prelude.{◌≡◌, [], take};
ghost use Rattle.tink_spec.specs.Outside.{Drew, Stood};
ghost use Rattle.tink_base.specs.Memory.{told_entropy};

use crate::{Lookahead, MemEntropy};

impl Lookahead for MemEntropy {
    ghost held = { λ _. [] };

    fn held(&self) -> &[u8] {
        &[]
    }

    fn skip(&mut self, count: usize)
        ensures drew { Drew (told_entropy self.old) (told_entropy self.new) (take count []) }
        ensures stood { Stood self.old.faults self.new.faults }

        // No byte is held, so nothing changes.
        ensures same { self.new ≡ self.old }
    {
        let _none = count;
    }
}
