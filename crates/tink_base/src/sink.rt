//! Where bytes go.

ghost use Rattle.std.specs.Prelude.{◌≡◌, ◌<◌, ◌≤◌, [], length, take, IfOk, OnOk, OnErr};
ghost use Rattle.tink_spec.specs.Outside.{SinkState, Rose, RoseOnce, Stood, Took};

use crate::Failed;

/// A sink for bytes.
pub trait Sink {
    /// The bytes that were written, if the sink reports them, and how often it has failed.
    ghost state: { Self → SinkState };

    /// Takes the first bytes of `piece` and returns how many: at least one, unless `piece` is
    /// empty. After `Failed` nothing was taken, and the count of faults has risen; any other answer
    /// leaves it unchanged.
    fn write(&mut self, piece: &[u8]) -> Result<usize, Failed>
        ensures bound { IfOk result (λ n. n ≤ length piece.now) }
        ensures some { IfOk result (λ n. 0 < length piece.now → 0 < n) }
        ensures takes { IfOk result (λ n.
            Took (state self.old) (state self.new) (take n piece.now)) }
        ensures no_fault { OnOk result (Stood (state self.old).faults (state self.new).faults) }
        ensures failed { OnErr result (Rose (state self.old).faults (state self.new).faults) }
        ensures once { OnErr result (RoseOnce (state self.old).faults (state self.new).faults) }
        ensures kept { OnErr result (Took (state self.old) (state self.new) []) };
}
