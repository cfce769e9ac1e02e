//! Named files.

ghost use Rattle.std.specs.Prelude.{◌≡◌, ◌<◌, ◌^◌, length, drop, IfOk, IfSome, OnOk, OnErr, IsErrOf};
ghost use Rattle.tink_spec.specs.Outside.{Rose, RoseOnce, Stood};
ghost use Rattle.tink_spec.specs.Files.{StoreState, HoldsLonger, KeptFiles, MayAdd};
ghost use Rattle.tink_base.specs.Store.{Loads, Creates, HasSize, IsTaken, ReadsAt, GivenByLoad, given_by_read};

use crate::{Bytes, Failed};
use std::alloc::Global;

/// What a load found.
#[derive(Drop)]
pub enum Loaded {
    /// There is no file of the name.
    Absent,
    /// The file has more bytes than the limit.
    TooLong,
    /// The file's bytes, at most as many as the limit.
    Bytes(Bytes),
}

/// What a create did.
#[derive(Clone, Copy, Debug, PartialEq, Eq)]
pub enum Created {
    /// The file is new, with all the bytes.
    Made,
    /// A file of the name existed, and nothing changed.
    Exists,
}

/// Why a store gave no answer.
#[derive(Clone, Copy, Debug, PartialEq, Eq)]
pub enum StoreError {
    /// The store failed.
    Failed,
    /// Memory couldn't be allocated.
    NoMemory,
}

/// A store of files by their names.
pub trait Store {
    /// The files, if the store reports them, how often it has failed, and how many bytes of files
    /// it has read.
    ghost state: { Self → StoreState };

    /// Loads the file of this name if it has at most `limit` bytes. No file changes. The count of
    /// faults has risen after `Failed`; any other answer leaves it unchanged. The count of bytes
    /// read rises by the bytes read in this call: by the file's length after `Bytes`; by one more
    /// than the limit, or than 2^30 if the limit is greater, after `TooLong`; by at most that after
    /// an error; and by 0 after `Absent`.
    fn load(&mut self, alloc: Global, name: &str, limit: usize) -> Result<Loaded, StoreError>
        ensures loads { IfOk result (λ found. Loads (state self.old) name.now limit found) }
        ensures kept { KeptFiles (state self.old) (state self.new) }
        ensures no_fault { (IsErrOf result StoreError.Failed → ⊥) →
            Stood (state self.old).faults (state self.new).faults }
        ensures failed { IsErrOf result StoreError.Failed →
            Rose (state self.old).faults (state self.new).faults }
        ensures once { IsErrOf result StoreError.Failed →
            RoseOnce (state self.old).faults (state self.new).faults }
        ensures given { GivenByLoad limit result (state self.old).given (state self.new).given };

    /// Whether the name is taken, so that no new file could get it. No file changes. `Failed` comes
    /// also if no new file could have such a name. The count of faults has risen after `Failed`;
    /// any other answer leaves it unchanged.
    fn is_taken(&mut self, name: &str) -> Result<bool, Failed>
        ensures tells { IfOk result (λ taken. IsTaken (state self.old) name.now taken) }
        ensures kept { KeptFiles (state self.old) (state self.new) }
        ensures no_fault { OnOk result (Stood (state self.old).faults (state self.new).faults) }
        ensures failed { OnErr result (Rose (state self.old).faults (state self.new).faults) }
        ensures once { OnErr result (RoseOnce (state self.old).faults (state self.new).faults) }
        ensures given { (state self.new).given ≡ (state self.old).given };

    /// How many bytes the file of this name has, if there is one: fewer than 2^63. `Failed` comes
    /// also if something without a length has the name. No file changes. The count of faults has
    /// risen after `Failed`; any other answer leaves it unchanged.
    fn size(&mut self, name: &str) -> Result<Option<u64>, Failed>
        ensures tells { IfOk result (λ size. HasSize (state self.old) name.now size) }
        ensures bound { IfOk result (λ size. IfSome size (λ n. n < 2 ^ 63)) }
        ensures kept { KeptFiles (state self.old) (state self.new) }
        ensures no_fault { OnOk result (Stood (state self.old).faults (state self.new).faults) }
        ensures failed { OnErr result (Rose (state self.old).faults (state self.new).faults) }
        ensures once { OnErr result (RoseOnce (state self.old).faults (state self.new).faults) }
        ensures given { (state self.new).given ≡ (state self.old).given };

    /// Reads bytes of the file of this name, starting at offset `at`: at least one, and at most as
    /// many as `out` holds. The rest of `out` is unchanged. `Failed` comes also if there is no
    /// longer a byte at that offset. No file changes. The count of faults has risen after `Failed`;
    /// any other answer leaves it unchanged. The count of bytes read rises by the bytes read in
    /// this call.
    fn read_at(&mut self, name: &str, at: u64, out: &mut [u8]) -> Result<usize, Failed>
        requires some { 0 < length out.old }
        requires within { HoldsLonger (state self.old) name.now at }
        ensures reads { IfOk result (λ n. ReadsAt (state self.old) name.now at out.new n) }
        ensures rest { IfOk result (λ n. drop n out.new ≡ drop n out.old) }
        ensures kept { KeptFiles (state self.old) (state self.new) }
        ensures no_fault { OnOk result (Stood (state self.old).faults (state self.new).faults) }
        ensures failed { OnErr result (Rose (state self.old).faults (state self.new).faults) }
        ensures once { OnErr result (RoseOnce (state self.old).faults (state self.new).faults) }
        ensures given { (state self.new).given ≡ given_by_read (state self.old).given result };

    /// Makes a new file of this name with these bytes; an existing file is never replaced. After
    /// `Failed` the file may exist with a prefix of the bytes, if the name was free. After
    /// `NoMemory` no file has changed. The count of faults has risen after `Failed`; any other
    /// answer leaves it unchanged.
    fn create(&mut self, alloc: Global, name: &str, bytes: &[u8]) -> Result<Created, StoreError>
        ensures creates { IfOk result
            (λ made. Creates (state self.old) (state self.new) name.now bytes.now made) }
        ensures no_fault { (IsErrOf result StoreError.Failed → ⊥) →
            Stood (state self.old).faults (state self.new).faults }
        ensures failed { IsErrOf result StoreError.Failed →
            Rose (state self.old).faults (state self.new).faults }
        ensures once { IsErrOf result StoreError.Failed →
            RoseOnce (state self.old).faults (state self.new).faults }
        ensures may_add { IsErrOf result StoreError.Failed →
            MayAdd (state self.old) (state self.new) name.now bytes.now }
        ensures no_memory { IsErrOf result StoreError.NoMemory →
            KeptFiles (state self.old) (state self.new) }
        ensures given { (state self.new).given ≡ (state self.old).given };
}
