//! Where random bytes come from.

ghost use Rattle.std.specs.Prelude.{length, OnOk, OnErr};
ghost use Rattle.tink_spec.specs.Outside.{EntropyState, Drew, RanShort, RoseOnce, Stood};

use crate::Failed;

/// A source of random bytes.
pub trait Entropy {
    /// The bytes that are left, if the entropy reports them, how often it has failed, and whether
    /// it fails only if fewer bytes are left than are asked for.
    ghost state: { Self → EntropyState };

    /// Fills `out` with the next bytes. After `Failed` at most as many bytes as were asked for are
    /// lost and never given again; none is lost if the entropy fails only because too few bytes are
    /// left. Then `out` may hold anything.
    fn fill(&mut self, out: &mut [u8]) -> Result<(), Failed>
        ensures fills { OnOk result (Drew (state self.old) (state self.new) out.new) }
        ensures no_fault { OnOk result (Stood (state self.old).faults (state self.new).faults) }
        ensures failed { OnErr result
            (RanShort (state self.old) (state self.new) (length out.old)) }
        ensures once { OnErr result (RoseOnce (state self.old).faults (state self.new).faults) };
}
