//! A new file that is written in pieces, and has its name only when all of it is there.

ghost use Rattle.std.specs.Prelude.{◌≡◌, ◌<◌, ◌≤◌, Option, None, length, take, IfOk, IsErr, IsErrOf, IsSome, OnOk, OnErr, option_map};
ghost use Rattle.tink_spec.specs.Outside.{Rose, RoseOnce, Stood};
ghost use Rattle.tink_spec.specs.Files.{KeptFiles};
ghost use Rattle.tink_base.specs.Pieces.{Draft, Begins, Finishes, MayFinish, longer_draft};

use crate::{Created, Failed, Store, StoreError};
use std::alloc::Global;

/// What a begin did.
#[derive(Clone, Copy, Debug, PartialEq, Eq)]
pub enum Begun {
    /// The name is free, and a draft without a byte is begun for it.
    Empty,
    /// A file of the name exists, and nothing is begun.
    Exists,
}

/// A store that writes a new file in pieces.
///
/// Until the file has its name it is a draft, which isn't among the store's files. There is one
/// draft at the most. No clause says what becomes of it in the calls of `Store`.
pub trait PieceStore: Store {
    /// The draft, if there is one: its name, and its bytes so far, if the store reports its files.
    ghost draft: { Self → Option Draft };

    /// Begins a draft of this name, with no byte, unless a file of the name exists. No file
    /// changes. After an error there is no draft. `Failed` comes also if no new file could have
    /// such a name. The count of faults has risen after `Failed`; any other answer leaves it
    /// unchanged.
    fn begin(&mut self, alloc: Global, name: &str) -> Result<Begun, StoreError>
        requires none { draft self.old ≡ None }
        ensures begins { IfOk result (λ begun.
            Begins (Self.state self.old) name.now (draft self.new) begun) }
        ensures none { IsErr result → draft self.new ≡ None }
        ensures kept { KeptFiles (Self.state self.old) (Self.state self.new) }
        ensures no_fault { (IsErrOf result StoreError.Failed → ⊥) →
            Stood (Self.state self.old).faults (Self.state self.new).faults }
        ensures failed { IsErrOf result StoreError.Failed →
            Rose (Self.state self.old).faults (Self.state self.new).faults }
        ensures once { IsErrOf result StoreError.Failed →
            RoseOnce (Self.state self.old).faults (Self.state self.new).faults }
        ensures given { (Self.state self.new).given ≡ (Self.state self.old).given };

    /// Adds the first bytes of `piece` to the draft and returns how many: at least one, unless
    /// `piece` is empty. No file changes. After `Failed` nothing was added, there is still the
    /// draft, and the count of faults has risen; any other answer leaves it unchanged.
    fn append(&mut self, piece: &[u8]) -> Result<usize, Failed>
        requires begun { IsSome (draft self.old) }
        ensures bound { IfOk result (λ n. n ≤ length piece.now) }
        ensures some { IfOk result (λ n. 0 < length piece.now → 0 < n) }
        ensures appends { IfOk result (λ n. draft self.new ≡
            option_map (λ d. longer_draft d (take n piece.now)) (draft self.old)) }
        ensures unchanged { OnErr result (draft self.new ≡ draft self.old) }
        ensures kept { KeptFiles (Self.state self.old) (Self.state self.new) }
        ensures no_fault { OnOk result
            (Stood (Self.state self.old).faults (Self.state self.new).faults) }
        ensures failed { OnErr result
            (Rose (Self.state self.old).faults (Self.state self.new).faults) }
        ensures once { OnErr result
            (RoseOnce (Self.state self.old).faults (Self.state self.new).faults) }
        ensures given { (Self.state self.new).given ≡ (Self.state self.old).given };

    /// Makes the draft a new file of its name, with all its bytes; an existing file is never
    /// replaced. Afterwards there is no draft, whatever the answer. After `Exists` no file has
    /// changed. After `Failed` the file may exist with a prefix of the bytes, if the name was free.
    /// After `NoMemory` no file has changed. The count of faults has risen after `Failed`; any
    /// other answer leaves it unchanged.
    fn finish(&mut self) -> Result<Created, StoreError>
        requires begun { IsSome (draft self.old) }
        ensures finishes { IfOk result (λ made.
            Finishes (Self.state self.old) (Self.state self.new) (draft self.old) made) }
        ensures may_finish { IsErrOf result StoreError.Failed →
            MayFinish (Self.state self.old) (Self.state self.new) (draft self.old) }
        ensures no_memory { IsErrOf result StoreError.NoMemory →
            KeptFiles (Self.state self.old) (Self.state self.new) }
        ensures none { draft self.new ≡ None }
        ensures no_fault { (IsErrOf result StoreError.Failed → ⊥) →
            Stood (Self.state self.old).faults (Self.state self.new).faults }
        ensures failed { IsErrOf result StoreError.Failed →
            Rose (Self.state self.old).faults (Self.state self.new).faults }
        ensures once { IsErrOf result StoreError.Failed →
            RoseOnce (Self.state self.old).faults (Self.state self.new).faults }
        ensures given { (Self.state self.new).given ≡ (Self.state self.old).given };

    /// Gives the draft up, if there is one: no file gets its name. No file changes, and no fault is
    /// counted.
    fn give_up(&mut self)
        ensures none { draft self.new ≡ None }
        ensures kept { KeptFiles (Self.state self.old) (Self.state self.new) }
        ensures no_fault { Stood (Self.state self.old).faults (Self.state self.new).faults }
        ensures given { (Self.state self.new).given ≡ (Self.state self.old).given };
}
