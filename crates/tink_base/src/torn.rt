//! A store in memory that breaks off each write, as a full disk does.

ghost use Rattle.std.specs.Prelude.{◌≡◌, ◌<◌, ◌≤◌, ◌^◌, length, drop, IfOk, IfSome, IsSome, OnOk, OnErr, IsErr, IsErrOf, Some, None, option_map, take};
ghost use Rattle.std.specs.FinMap as map;
ghost use Rattle.tink_spec.specs.Outside.{Rose, RoseOnce, Stood, next};
ghost use Rattle.tink_spec.specs.Files.{HoldsLonger, HoldsSome, KeptFiles, MayAdd};
ghost use Rattle.tink_base.specs.Memory.{told_torn, told_draft};
ghost use Rattle.tink_base.specs.Pieces.{Begins, Finishes, MayFinish, longer_draft};
ghost use Rattle.tink_base.specs.Store.{Loads, Creates, HasSize, IsTaken, ReadsAt, GivenByLoad, given_by_read};
ghost use Rattle.tink_base.specs.declared.store.Created.TheVariants as created;

use crate::files::MemDraft;
use crate::{Begun, Created, Failed, Loaded, MemStore, NoMemory, PieceStore, Store, StoreError};
use std::alloc::Global;
use std::marker::Model;

/// A store in memory that fails at each new file and keeps its first bytes. Contracts see it as a
/// `TornInMemory`.
#[derive(Drop)]
pub struct TornStore {
    // no call of its own fails
    store: MemStore,
    keep: usize,
    faults: u64,
}

impl Model for TornStore {
    ghost use Rattle.std.specs.Prelude.{◌≡◌, []};
    ghost use Rattle.tink_base.specs.Memory.{TornInMemory, torn_code};

    ghost Value = { TornInMemory };

    ghost coded = { torn_code };

    ghost view = { λ s. record { files = s.store.files; draft = s.store.draft; keep = s.keep; faults = s.faults; given = s.store.given } };

    ghost invariant = { λ s. s.store.fails ≡ [] };
}

impl TornStore {
    /// An empty store, without a draft. Its `create` and its `finish` of a new file fail and keep
    /// the first bytes, at most `keep`. An `append` fails if memory can't be allocated.
    pub fn new(alloc: Global, keep: usize) -> TornStore
        ensures { result ≡
            record { files = map.empty; draft = None; keep = keep; faults = 0; given = 0 } }
    {
        TornStore {
            store: MemStore::new(alloc, Vec::new(alloc)),
            keep,
            faults: 0,
        }
    }

    /// Sets the file of this name, with all the bytes. After `NoMemory` no file has changed.
    pub fn put(&mut self, name: &str, bytes: &[u8]) -> Result<(), NoMemory>
        ensures set { OnOk result (self.new ≡
            record self.old { files = map.insert self.old.files name.now bytes.now }) }
        ensures kept { OnErr result (self.new ≡ self.old) }
    {
        self.store.put(name, bytes)
    }

    /// Lends the bytes of the file of this name, if there is one.
    pub fn get(&self, name: &str) -> Option<&[u8]>
        ensures { option_map (λ bytes. bytes.now) result ≡ map.get self.now.files name.now }
    {
        self.store.get(name)
    }

    /// How often it has failed.
    pub fn faults(&self) -> u64
        ensures { result ≡ self.now.faults }
    {
        self.faults
    }

    /// Breaks off a new file of this name, or finds the name taken. After `NoMemory` no file has
    /// changed.
    fn break_off(&mut self, name: &str, bytes: &[u8]) -> Result<Created, StoreError>
        ensures there { IfOk result (λ made. (made ≡ created.Exists)
            × HoldsSome (told_torn self.old) name.now) }
        ensures absent { IsErr result → map.get self.old.files name.now ≡ None }
        ensures may_add { IsErrOf result StoreError.Failed →
            MayAdd (told_torn self.old) (told_torn self.new) name.now bytes.now }
        ensures torn { IsErrOf result StoreError.Failed → self.new ≡ record self.old {
          files = map.insert self.old.files name.now (take self.old.keep bytes.now);
          faults = next self.old.faults;
        } }
        ensures same { (IsErrOf result StoreError.Failed → ⊥) → self.new ≡ self.old }
    {
        match self.get(name) {
            Some(_) => Ok(Created::Exists),
            None => {
                let kept = bytes.len().min(self.keep);
                match self.put(name, &bytes[..kept]) {
                    Ok(()) => {
                        self.faults = self.faults.saturating_add(1);
                        Err(StoreError::Failed)
                    }
                    Err(_) => Err(StoreError::NoMemory),
                }
            }
        }
    }
}

impl Store for TornStore {
    ghost state = { λ s. told_torn s };

    fn load(&mut self, alloc: Global, name: &str, limit: usize) -> Result<Loaded, StoreError>
        ensures loads { IfOk result (λ found. Loads (told_torn self.old) name.now limit found) }
        ensures kept { KeptFiles (told_torn self.old) (told_torn self.new) }
        ensures no_fault { (IsErrOf result StoreError.Failed → ⊥) →
            Stood self.old.faults self.new.faults }
        ensures failed { IsErrOf result StoreError.Failed → Rose self.old.faults self.new.faults }
        ensures once { IsErrOf result StoreError.Failed →
            RoseOnce self.old.faults self.new.faults }
        ensures given { GivenByLoad limit result self.old.given self.new.given }

        // It never fails.
        ensures never { IsErrOf result StoreError.Failed → ⊥ }
        ensures same { self.new ≡ record self.old { given = self.new.given } }
    {
        self.store.load(alloc, name, limit)
    }

    fn is_taken(&mut self, name: &str) -> Result<bool, Failed>
        ensures tells { IfOk result (λ taken. IsTaken (told_torn self.old) name.now taken) }
        ensures kept { KeptFiles (told_torn self.old) (told_torn self.new) }
        ensures no_fault { OnOk result (Stood self.old.faults self.new.faults) }
        ensures failed { OnErr result (Rose self.old.faults self.new.faults) }
        ensures once { OnErr result (RoseOnce self.old.faults self.new.faults) }
        ensures given { self.new.given ≡ self.old.given }

        // It never fails.
        ensures never { IsErr result → ⊥ }
        ensures same { self.new ≡ self.old }
    {
        self.store.is_taken(name)
    }

    fn size(&mut self, name: &str) -> Result<Option<u64>, Failed>
        ensures tells { IfOk result (λ size. HasSize (told_torn self.old) name.now size) }
        ensures bound { IfOk result (λ size. IfSome size (λ n. n < 2 ^ 63)) }
        ensures kept { KeptFiles (told_torn self.old) (told_torn self.new) }
        ensures no_fault { OnOk result (Stood self.old.faults self.new.faults) }
        ensures failed { OnErr result (Rose self.old.faults self.new.faults) }
        ensures once { OnErr result (RoseOnce self.old.faults self.new.faults) }
        ensures given { self.new.given ≡ self.old.given }

        // It never fails.
        ensures never { IsErr result → ⊥ }
        ensures same { self.new ≡ self.old }
    {
        self.store.size(name)
    }

    fn read_at(&mut self, name: &str, at: u64, out: &mut [u8]) -> Result<usize, Failed>
        requires some { 0 < length out.old }
        requires within { HoldsLonger (told_torn self.old) name.now at }
        ensures reads { IfOk result (λ n. ReadsAt (told_torn self.old) name.now at out.new n) }
        ensures rest { IfOk result (λ n. drop n out.new ≡ drop n out.old) }
        ensures kept { KeptFiles (told_torn self.old) (told_torn self.new) }
        ensures no_fault { OnOk result (Stood self.old.faults self.new.faults) }
        ensures failed { OnErr result (Rose self.old.faults self.new.faults) }
        ensures once { OnErr result (RoseOnce self.old.faults self.new.faults) }
        ensures given { self.new.given ≡ given_by_read self.old.given result }

        // It never fails.
        ensures never { IsErr result → ⊥ }
        ensures same { self.new ≡ record self.old { given = self.new.given } }
    {
        self.store.read_at(name, at, out)
    }

    fn create(&mut self, _alloc: Global, name: &str, bytes: &[u8]) -> Result<Created, StoreError>
        ensures creates { IfOk result
            (λ made. Creates (told_torn self.old) (told_torn self.new) name.now bytes.now made) }
        ensures no_fault { (IsErrOf result StoreError.Failed → ⊥) →
            Stood self.old.faults self.new.faults }
        ensures failed { IsErrOf result StoreError.Failed → Rose self.old.faults self.new.faults }
        ensures once { IsErrOf result StoreError.Failed →
            RoseOnce self.old.faults self.new.faults }
        ensures may_add { IsErrOf result StoreError.Failed →
            MayAdd (told_torn self.old) (told_torn self.new) name.now bytes.now }
        ensures no_memory { IsErrOf result StoreError.NoMemory →
            KeptFiles (told_torn self.old) (told_torn self.new) }

        ensures given { self.new.given ≡ self.old.given }

        // No file is made whole: an existing name is reported, and any other fails with the first
        // bytes left, unless memory can't be allocated.
        ensures there { IfOk result (λ made. made ≡ created.Exists) }
        ensures absent { IsErr result → map.get self.old.files name.now ≡ None }
        ensures torn { IsErrOf result StoreError.Failed → self.new ≡ record self.old {
          files = map.insert self.old.files name.now (take self.old.keep bytes.now);
          faults = next self.old.faults;
        } }
        ensures same { (IsErrOf result StoreError.Failed → ⊥) → self.new ≡ self.old }
    {
        self.break_off(name, bytes)
    }
}

impl PieceStore for TornStore {
    ghost draft = { λ s. told_draft s.draft };

    fn begin(&mut self, alloc: Global, name: &str) -> Result<Begun, StoreError>
        requires none { told_draft self.old.draft ≡ None }
        ensures begins { IfOk result (λ begun.
            Begins (told_torn self.old) name.now (told_draft self.new.draft) begun) }
        ensures none { IsErr result → told_draft self.new.draft ≡ None }
        ensures kept { KeptFiles (told_torn self.old) (told_torn self.new) }
        ensures no_fault { (IsErrOf result StoreError.Failed → ⊥) →
            Stood self.old.faults self.new.faults }
        ensures failed { IsErrOf result StoreError.Failed → Rose self.old.faults self.new.faults }
        ensures once { IsErrOf result StoreError.Failed →
            RoseOnce self.old.faults self.new.faults }
        ensures given { self.new.given ≡ self.old.given }

        // It never fails.
        ensures never { IsErrOf result StoreError.Failed → ⊥ }
        ensures same { self.new ≡ record self.old { draft = self.new.draft } }
    {
        self.store.begin(alloc, name)
    }

    fn append(&mut self, piece: &[u8]) -> Result<usize, Failed>
        requires begun { IsSome (told_draft self.old.draft) }
        ensures bound { IfOk result (λ n. n ≤ length piece.now) }
        ensures some { IfOk result (λ n. 0 < length piece.now → 0 < n) }
        ensures appends { IfOk result (λ n. told_draft self.new.draft ≡
            option_map (λ d. longer_draft d (take n piece.now)) (told_draft self.old.draft)) }
        ensures unchanged { OnErr result (told_draft self.new.draft ≡ told_draft self.old.draft) }
        ensures kept { KeptFiles (told_torn self.old) (told_torn self.new) }
        ensures no_fault { OnOk result (Stood self.old.faults self.new.faults) }
        ensures failed { OnErr result (Rose self.old.faults self.new.faults) }
        ensures once { OnErr result (RoseOnce self.old.faults self.new.faults) }
        ensures given { self.new.given ≡ self.old.given }

        // It takes all bytes unless it fails.
        ensures whole { IfOk result (λ n. n ≡ length piece.now) }
        ensures faultless { OnOk result
            (self.new ≡ record self.old { draft = self.new.draft }) }
        ensures faulty { OnErr result
            (self.new ≡ record self.old { faults = next self.old.faults }) }
    {
        match self.store.append(piece) {
            Ok(n) => Ok(n),
            Err(_) => {
                self.faults = self.faults.saturating_add(1);
                Err(Failed)
            }
        }
    }

    fn finish(&mut self) -> Result<Created, StoreError>
        requires begun { IsSome (told_draft self.old.draft) }
        ensures finishes { IfOk result (λ made.
            Finishes (told_torn self.old) (told_torn self.new) (told_draft self.old.draft) made) }
        ensures may_finish { IsErrOf result StoreError.Failed →
            MayFinish (told_torn self.old) (told_torn self.new) (told_draft self.old.draft) }
        ensures no_memory { IsErrOf result StoreError.NoMemory →
            KeptFiles (told_torn self.old) (told_torn self.new) }
        ensures none { told_draft self.new.draft ≡ None }
        ensures no_fault { (IsErrOf result StoreError.Failed → ⊥) →
            Stood self.old.faults self.new.faults }
        ensures failed { IsErrOf result StoreError.Failed → Rose self.old.faults self.new.faults }
        ensures once { IsErrOf result StoreError.Failed →
            RoseOnce self.old.faults self.new.faults }
        ensures given { self.new.given ≡ self.old.given }

        // No file is made whole.
        ensures there { IfOk result (λ made. made ≡ created.Exists) }
        ensures same { (IsErrOf result StoreError.Failed → ⊥) →
            self.new ≡ record self.old { draft = None } }
    {
        match self.store.take_draft() {
            Some(MemDraft { name, bytes }) => self.break_off(name.as_str(), &bytes),
            None => unreachable!(),
        }
    }

    fn give_up(&mut self)
        ensures none { told_draft self.new.draft ≡ None }
        ensures kept { KeptFiles (told_torn self.old) (told_torn self.new) }
        ensures no_fault { Stood self.old.faults self.new.faults }
        ensures given { self.new.given ≡ self.old.given }

        // Nothing else changes.
        ensures rest { self.new ≡ record self.old { draft = None } }
    {
        self.store.give_up()
    }
}
