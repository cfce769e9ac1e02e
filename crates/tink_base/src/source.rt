//! Where bytes come from.

ghost use Rattle.std.specs.Prelude.{◌≡◌, ◌<◌, ◌≤◌, [], length, take, drop, true, IfOk, OnOk, OnErr};
ghost use Rattle.tink_spec.specs.Outside.{SourceState, Rose, RoseOnce, Stood, Gave, IsAtEnd, late_after};

use crate::Failed;

/// A source of bytes with an end.
pub trait Source {
    /// The bytes that are left, if the source reports them, how often it has failed, and how often
    /// it was asked after it had reported an end.
    ghost state: { Self → SourceState };

    /// Moves the next bytes to the front of `out` and returns how many. The rest of `out` is
    /// unchanged. 0 bytes into an `out` that isn't empty mean the end of the input; an empty `out`
    /// ends nothing. After `Failed` no byte is consumed, and the count of faults has risen; any
    /// other answer leaves it unchanged.
    fn read(&mut self, out: &mut [u8]) -> Result<usize, Failed>
        ensures bound { IfOk result (λ n. n ≤ length out.old) }
        ensures gives { IfOk result (λ n. Gave (state self.old) (state self.new) (take n out.new)) }
        ensures rest { IfOk result (λ n. drop n out.new ≡ drop n out.old) }
        ensures end { IfOk result (λ n. n ≡ 0 → 0 < length out.old → IsAtEnd (state self.new)) }
        ensures ended { IfOk result (λ n. n ≡ 0 → 0 < length out.old →
            (state self.new).ended ≡ true) }
        ensures goes_on { IfOk result (λ n. 0 < n →
            (state self.new).ended ≡ (state self.old).ended) }
        ensures nothing_asked { length out.old ≡ 0 →
            (state self.new).ended ≡ (state self.old).ended }
        ensures failed_goes_on { OnErr result
            ((state self.new).ended ≡ (state self.old).ended) }
        ensures late { (state self.new).late ≡ late_after (state self.old) }
        ensures no_fault { OnOk result (Stood (state self.old).faults (state self.new).faults) }
        ensures failed { OnErr result (Rose (state self.old).faults (state self.new).faults) }
        ensures once { OnErr result (RoseOnce (state self.old).faults (state self.new).faults) }
        ensures kept { OnErr result (Gave (state self.old) (state self.new) []) };
}
