//! Reading at any offset.

ghost use Rattle.std.specs.Prelude.{◌≡◌, ℕ, ◌+◌, ◌<◌, ◌≤◌, ◌^◌, length, drop, IfOk, OnOk, OnErr};
ghost use Rattle.tink_base.specs.Store.{given_by_read};
ghost use Rattle.tink_spec.specs.Outside.{Rose, RoseOnce, Stood};
ghost use Rattle.stream_range.specs.Device.{DeviceState, KeptDevice, ReadsSome, TellsSize};

use tink_base::Failed;

/// A fixed number of bytes that can be read at any offset.
pub trait Device {
    /// How many bytes there are, which they are, if the device reports them, the files of the store
    /// that it belongs to, how many bytes it has read, and how often it has failed.
    ghost state: { Self → DeviceState };

    /// The borrow that the device holds, if any, so that the lender can be recognized.
    ghost lent: { Self → ℕ };

    /// How many bytes there are: fewer than 2^63.
    fn size(&self) -> u64
        ensures size { result ≡ (state self.now).size }
        ensures bound { result < 2 ^ 63 }
        ensures told { TellsSize (state self.now) };

    /// Reads bytes, starting at offset `at`, to the front of `out`: at least one, and at most as
    /// many as `out` has. The rest of `out` is unchanged. `out` isn't empty, and ends within the
    /// device's size. The count of faults has risen after `Failed`; any other answer leaves it
    /// unchanged. The count of bytes read rises by the bytes read in this call.
    fn read_at(&mut self, at: u64, out: &mut [u8]) -> Result<usize, Failed>
        requires some { 0 < length out.old }
        requires within { at + length out.old ≤ (state self.old).size }
        ensures reads { IfOk result (λ n. ReadsSome (state self.old) at out.new n) }
        ensures rest { IfOk result (λ n. drop n out.new ≡ drop n out.old) }
        ensures kept { KeptDevice (state self.old) (state self.new) }
        ensures lent { lent self.new ≡ lent self.old }
        ensures no_fault { OnOk result (Stood (state self.old).faults (state self.new).faults) }
        ensures failed { OnErr result (Rose (state self.old).faults (state self.new).faults) }
        ensures once { OnErr result (RoseOnce (state self.old).faults (state self.new).faults) }
        ensures given { (state self.new).given ≡ given_by_read (state self.old).given result };
}
