//! A store in memory that fails exactly at the calls it is told to fail.

ghost use Rattle.std.specs.Prelude.{◌≡◌, ◌↔◌, ◌<◌, ◌≤◌, ◌^◌, length, take, drop, None, IfOk, IfSome, IsSome, OnOk, OnErr, IsErr, IsErrOf, IsTrue, true, false, Contains, option_map};
ghost use Rattle.std.specs.FinMap as map;
ghost use Rattle.tink_spec.specs.Outside.{Rose, RoseOnce, Stood, next};
ghost use Rattle.tink_spec.specs.Files.{HoldsLonger, KeptFiles, MayAdd};
ghost use Rattle.tink_base.specs.Memory.{told_store, told_draft};
ghost use Rattle.tink_base.specs.Pieces.{Begins, Finishes, MayFinish, longer_draft};
ghost use Rattle.tink_base.specs.Store.{Loads, Creates, HasSize, IsTaken, ReadsAt, GivenByLoad, given_by_read};

use crate::{Begun, Bytes, Created, Failed, Loaded, NoMemory, PieceStore, Store, StoreError, Text};
use std::alloc::Global;
use std::marker::Model;

/// One less than the most bytes that a load counts as read if it finds a file too long.
const MOST: usize = 1 << 30;

/// A store in memory, which contracts see as a `StoreInMemory`.
#[derive(Drop)]
pub struct MemStore {
    alloc: Global,
    // the newest first
    files: Vec<(Text, Bytes)>,
    draft: Option<MemDraft>,
    fails: Vec<u64>,
    calls: u64,
    faults: u64,
    given: u64,
}

/// A new file before it has its name.
#[derive(Drop)]
pub(crate) struct MemDraft {
    pub(crate) name: Text,
    pub(crate) bytes: Vec<u8>,
}

impl Model for MemStore {
    ghost use Rattle.std.specs.FinMap as map;
    ghost use Rattle.std.specs.Prelude.{option_map};
    ghost use Rattle.tink_base.specs.Memory.{StoreInMemory, store_code};

    ghost Value = { StoreInMemory };

    ghost coded = { store_code };

    ghost view = { λ s. record { files = map.from_entries s.files.items; draft = option_map (λ d. (d.name, d.bytes.items)) s.draft; fails = s.fails.items; calls = s.calls; faults = s.faults; given = s.given } };
}

impl MemStore {
    /// An empty store, without a draft. A call of a `Store` method, or of `begin` or `finish`,
    /// fails if and only if its number, counted from 1, is in `fails`; then no file changes. An
    /// `append` fails then, and also if memory can't be allocated. `give_up` isn't counted.
    pub fn new(alloc: Global, fails: Vec<u64>) -> MemStore
        ensures { result ≡ record {
          files = map.empty;
          draft = None;
          fails = fails.items;
          calls = 0;
          faults = 0;
          given = 0;
        } }
    {
        MemStore {
            alloc,
            files: Vec::new(alloc),
            draft: None,
            fails,
            calls: 0,
            faults: 0,
            given: 0,
        }
    }

    /// Sets the file of this name. After `NoMemory` no file has changed.
    pub fn put(&mut self, name: &str, bytes: &[u8]) -> Result<(), NoMemory>
        ensures set { OnOk result (self.new ≡
            record self.old { files = map.insert self.old.files name.now bytes.now }) }
        ensures kept { OnErr result (self.new ≡ self.old) }
    {
        let name = Text::copy(self.alloc, name)?;
        let bytes = Bytes::copy(self.alloc, bytes)?;
        self.add(name, bytes)
    }

    /// Sets the file of this name. After `NoMemory` no file has changed.
    fn add(&mut self, name: Text, bytes: Bytes) -> Result<(), NoMemory>
        ensures set { OnOk result (self.new ≡
            record self.old { files = map.insert self.old.files name bytes }) }
        ensures kept { OnErr result (self.new ≡ self.old) }
    {
        match self.files.insert(0, (name, bytes)) {
            Ok(()) => Ok(()),
            Err(_) => Err(NoMemory),
        }
    }

    /// Takes the draft out.
    pub(crate) fn take_draft(&mut self) -> Option<MemDraft>
        ensures taken { option_map (λ d. (d.name, d.bytes.items)) result ≡ self.old.draft }
        ensures rest { self.new ≡ record self.old { draft = None } }
    {
        self.draft.take()
    }

    /// Lends the bytes of the file of this name, if there is one.
    pub fn get(&self, name: &str) -> Option<&[u8]>
        ensures { option_map (λ bytes. bytes.now) result ≡ map.get self.now.files name.now }
    {
        for (other, bytes) in &self.files {
            if name == other.as_str() {
                return Some(bytes.as_slice());
            }
        }
        None
    }

    /// How often it has failed.
    pub fn faults(&self) -> u64
        ensures { result ≡ self.now.faults }
    {
        self.faults
    }

    /// How many bytes of files it has read.
    pub fn given(&self) -> u64
        ensures { result ≡ self.now.given }
    {
        self.given
    }

    /// Counts a call, and returns whether it must fail.
    fn fails_now(&mut self) -> bool
        ensures kept { KeptFiles (told_store self.old) (told_store self.new) }
        ensures listed { IsTrue result ↔ Contains self.old.fails (next self.old.calls) }
        ensures faultless { result ≡ false → self.new ≡
            record self.old { calls = next self.old.calls } }
        ensures faulty { result ≡ true → self.new ≡
            record self.old { calls = next self.old.calls; faults = next self.old.faults } }
    {
        self.calls = self.calls.saturating_add(1);
        if self.fails.contains(&self.calls) {
            self.faults = self.faults.saturating_add(1);
            return true;
        }
        false
    }
}

impl Store for MemStore {
    ghost state = { λ s. told_store s };

    fn load(&mut self, alloc: Global, name: &str, limit: usize) -> Result<Loaded, StoreError>
        ensures loads { IfOk result (λ found. Loads (told_store self.old) name.now limit found) }
        ensures kept { KeptFiles (told_store self.old) (told_store self.new) }
        ensures no_fault { (IsErrOf result StoreError.Failed → ⊥) →
            Stood self.old.faults self.new.faults }
        ensures failed { IsErrOf result StoreError.Failed → Rose self.old.faults self.new.faults }
        ensures once { IsErrOf result StoreError.Failed →
            RoseOnce self.old.faults self.new.faults }
        ensures given { GivenByLoad limit result self.old.given self.new.given }

        // Exactly when it fails.
        ensures listed { IsErrOf result StoreError.Failed ↔
            Contains self.old.fails (next self.old.calls) }
        ensures faultless { (IsErrOf result StoreError.Failed → ⊥) → self.new ≡
            record self.old { calls = next self.old.calls; given = self.new.given } }
        ensures faulty { IsErrOf result StoreError.Failed → self.new ≡
            record self.old { calls = next self.old.calls; faults = next self.old.faults } }
    {
        if self.fails_now() {
            return Err(StoreError::Failed);
        }
        match self.get(name) {
            None => Ok(Loaded::Absent),
            Some(bytes) => {
                if bytes.len() > limit {
                    self.given = self.given.saturating_add(limit.min(MOST) as u64 + 1);
                    return Ok(Loaded::TooLong);
                }
                match Bytes::copy(alloc, bytes) {
                    Ok(bytes) => {
                        self.given = self.given.saturating_add(bytes.as_slice().len() as u64);
                        Ok(Loaded::Bytes(bytes))
                    }
                    Err(_) => Err(StoreError::NoMemory),
                }
            }
        }
    }

    fn is_taken(&mut self, name: &str) -> Result<bool, Failed>
        ensures tells { IfOk result (λ taken. IsTaken (told_store self.old) name.now taken) }
        ensures kept { KeptFiles (told_store self.old) (told_store self.new) }
        ensures no_fault { OnOk result (Stood self.old.faults self.new.faults) }
        ensures failed { OnErr result (Rose self.old.faults self.new.faults) }
        ensures once { OnErr result (RoseOnce self.old.faults self.new.faults) }
        ensures given { self.new.given ≡ self.old.given }

        // Exactly when it fails.
        ensures listed { IsErr result ↔ Contains self.old.fails (next self.old.calls) }
        ensures faultless { OnOk result (self.new ≡
            record self.old { calls = next self.old.calls }) }
        ensures faulty { OnErr result (self.new ≡
            record self.old { calls = next self.old.calls; faults = next self.old.faults }) }
    {
        if self.fails_now() {
            return Err(Failed);
        }
        match self.get(name) {
            Some(_) => Ok(true),
            None => Ok(false),
        }
    }

    fn size(&mut self, name: &str) -> Result<Option<u64>, Failed>
        ensures tells { IfOk result (λ size. HasSize (told_store self.old) name.now size) }
        ensures bound { IfOk result (λ size. IfSome size (λ n. n < 2 ^ 63)) }
        ensures kept { KeptFiles (told_store self.old) (told_store self.new) }
        ensures no_fault { OnOk result (Stood self.old.faults self.new.faults) }
        ensures failed { OnErr result (Rose self.old.faults self.new.faults) }
        ensures once { OnErr result (RoseOnce self.old.faults self.new.faults) }
        ensures given { self.new.given ≡ self.old.given }

        // Exactly when it fails.
        ensures listed { IsErr result ↔ Contains self.old.fails (next self.old.calls) }
        ensures faultless { OnOk result (self.new ≡
            record self.old { calls = next self.old.calls }) }
        ensures faulty { OnErr result (self.new ≡
            record self.old { calls = next self.old.calls; faults = next self.old.faults }) }
    {
        if self.fails_now() {
            return Err(Failed);
        }
        match self.get(name) {
            None => Ok(None),
            Some(bytes) => Ok(Some(bytes.len() as u64)),
        }
    }

    fn read_at(&mut self, name: &str, at: u64, out: &mut [u8]) -> Result<usize, Failed>
        requires some { 0 < length out.old }
        requires within { HoldsLonger (told_store self.old) name.now at }
        ensures reads { IfOk result (λ n. ReadsAt (told_store self.old) name.now at out.new n) }
        ensures rest { IfOk result (λ n. drop n out.new ≡ drop n out.old) }
        ensures kept { KeptFiles (told_store self.old) (told_store self.new) }
        ensures no_fault { OnOk result (Stood self.old.faults self.new.faults) }
        ensures failed { OnErr result (Rose self.old.faults self.new.faults) }
        ensures once { OnErr result (RoseOnce self.old.faults self.new.faults) }
        ensures given { self.new.given ≡ given_by_read self.old.given result }

        // Exactly when it fails.
        ensures listed { IsErr result ↔ Contains self.old.fails (next self.old.calls) }
        ensures faultless { OnOk result (self.new ≡
            record self.old { calls = next self.old.calls; given = self.new.given }) }
        ensures faulty { OnErr result (self.new ≡
            record self.old { calls = next self.old.calls; faults = next self.old.faults }) }
    {
        if self.fails_now() {
            return Err(Failed);
        }
        match self.get(name) {
            // the place is within the file
            None => Err(Failed),
            Some(bytes) => {
                let rest = &bytes[at as usize..];
                let n = rest.len().min(out.len());
                out[..n].copy_from_slice(&rest[..n]);
                self.given = self.given.saturating_add(n as u64);
                Ok(n)
            }
        }
    }

    fn create(&mut self, _alloc: Global, name: &str, bytes: &[u8]) -> Result<Created, StoreError>
        ensures creates { IfOk result
            (λ made. Creates (told_store self.old) (told_store self.new) name.now bytes.now made) }
        ensures no_fault { (IsErrOf result StoreError.Failed → ⊥) →
            Stood self.old.faults self.new.faults }
        ensures failed { IsErrOf result StoreError.Failed → Rose self.old.faults self.new.faults }
        ensures once { IsErrOf result StoreError.Failed →
            RoseOnce self.old.faults self.new.faults }
        ensures may_add { IsErrOf result StoreError.Failed →
            MayAdd (told_store self.old) (told_store self.new) name.now bytes.now }
        ensures no_memory { IsErrOf result StoreError.NoMemory →
            KeptFiles (told_store self.old) (told_store self.new) }

        ensures given { self.new.given ≡ self.old.given }

        // Exactly when it fails, and that it changes nothing then.
        ensures listed { IsErrOf result StoreError.Failed ↔
            Contains self.old.fails (next self.old.calls) }
        ensures faultless { (IsErrOf result StoreError.Failed → ⊥) → self.new ≡
            record self.old { files = self.new.files; calls = next self.old.calls } }
        ensures faulty { IsErrOf result StoreError.Failed → self.new ≡
            record self.old { calls = next self.old.calls; faults = next self.old.faults } }
    {
        if self.fails_now() {
            return Err(StoreError::Failed);
        }
        match self.get(name) {
            Some(_) => Ok(Created::Exists),
            None => match self.put(name, bytes) {
                Ok(()) => Ok(Created::Made),
                Err(_) => Err(StoreError::NoMemory),
            },
        }
    }
}

impl PieceStore for MemStore {
    ghost draft = { λ s. told_draft s.draft };

    fn begin(&mut self, alloc: Global, name: &str) -> Result<Begun, StoreError>
        requires none { told_draft self.old.draft ≡ None }
        ensures begins { IfOk result (λ begun.
            Begins (told_store self.old) name.now (told_draft self.new.draft) begun) }
        ensures none { IsErr result → told_draft self.new.draft ≡ None }
        ensures kept { KeptFiles (told_store self.old) (told_store self.new) }
        ensures no_fault { (IsErrOf result StoreError.Failed → ⊥) →
            Stood self.old.faults self.new.faults }
        ensures failed { IsErrOf result StoreError.Failed → Rose self.old.faults self.new.faults }
        ensures once { IsErrOf result StoreError.Failed →
            RoseOnce self.old.faults self.new.faults }
        ensures given { self.new.given ≡ self.old.given }

        // Exactly when it fails.
        ensures listed { IsErrOf result StoreError.Failed ↔
            Contains self.old.fails (next self.old.calls) }
        ensures faultless { (IsErrOf result StoreError.Failed → ⊥) → self.new ≡
            record self.old { draft = self.new.draft; calls = next self.old.calls } }
        ensures faulty { IsErrOf result StoreError.Failed → self.new ≡
            record self.old { calls = next self.old.calls; faults = next self.old.faults } }
    {
        if self.fails_now() {
            return Err(StoreError::Failed);
        }
        match self.get(name) {
            Some(_) => Ok(Begun::Exists),
            None => match Text::copy(alloc, name) {
                Ok(name) => {
                    let bytes = Vec::new(alloc);
                    self.draft = Some(MemDraft { name, bytes });
                    Ok(Begun::Empty)
                }
                Err(_) => Err(StoreError::NoMemory),
            },
        }
    }

    fn append(&mut self, piece: &[u8]) -> Result<usize, Failed>
        requires begun { IsSome (told_draft self.old.draft) }
        ensures bound { IfOk result (λ n. n ≤ length piece.now) }
        ensures some { IfOk result (λ n. 0 < length piece.now → 0 < n) }
        ensures appends { IfOk result (λ n. told_draft self.new.draft ≡
            option_map (λ d. longer_draft d (take n piece.now)) (told_draft self.old.draft)) }
        ensures unchanged { OnErr result (told_draft self.new.draft ≡ told_draft self.old.draft) }
        ensures kept { KeptFiles (told_store self.old) (told_store self.new) }
        ensures no_fault { OnOk result (Stood self.old.faults self.new.faults) }
        ensures failed { OnErr result (Rose self.old.faults self.new.faults) }
        ensures once { OnErr result (RoseOnce self.old.faults self.new.faults) }
        ensures given { self.new.given ≡ self.old.given }

        // When it fails, and that it takes all bytes otherwise.
        ensures listed { Contains self.old.fails (next self.old.calls) → IsErr result }
        ensures whole { IfOk result (λ n. n ≡ length piece.now) }
        ensures faultless { OnOk result (self.new ≡
            record self.old { draft = self.new.draft; calls = next self.old.calls }) }
        ensures faulty { OnErr result (self.new ≡
            record self.old { calls = next self.old.calls; faults = next self.old.faults }) }
    {
        if self.fails_now() {
            return Err(Failed);
        }
        match &mut self.draft {
            Some(draft) => match draft.bytes.extend_from_slice(piece) {
                Ok(()) => Ok(piece.len()),
                Err(_) => {
                    self.faults = self.faults.saturating_add(1);
                    Err(Failed)
                }
            },
            None => unreachable!(),
        }
    }

    fn finish(&mut self) -> Result<Created, StoreError>
        requires begun { IsSome (told_draft self.old.draft) }
        ensures finishes { IfOk result (λ made.
            Finishes (told_store self.old) (told_store self.new) (told_draft self.old.draft) made) }
        ensures may_finish { IsErrOf result StoreError.Failed →
            MayFinish (told_store self.old) (told_store self.new) (told_draft self.old.draft) }
        ensures no_memory { IsErrOf result StoreError.NoMemory →
            KeptFiles (told_store self.old) (told_store self.new) }
        ensures none { told_draft self.new.draft ≡ None }
        ensures no_fault { (IsErrOf result StoreError.Failed → ⊥) →
            Stood self.old.faults self.new.faults }
        ensures failed { IsErrOf result StoreError.Failed → Rose self.old.faults self.new.faults }
        ensures once { IsErrOf result StoreError.Failed →
            RoseOnce self.old.faults self.new.faults }
        ensures given { self.new.given ≡ self.old.given }

        // Exactly when it fails, and that it changes no file then.
        ensures listed { IsErrOf result StoreError.Failed ↔
            Contains self.old.fails (next self.old.calls) }
        ensures faultless { (IsErrOf result StoreError.Failed → ⊥) → self.new ≡
            record self.old
            { files = self.new.files; draft = None; calls = next self.old.calls } }
        ensures faulty { IsErrOf result StoreError.Failed → self.new ≡ record self.old
            { draft = None; calls = next self.old.calls; faults = next self.old.faults } }
    {
        let fails = self.fails_now();
        let Some(MemDraft { name, bytes }) = self.take_draft() else {
            unreachable!()
        };
        if fails {
            return Err(StoreError::Failed);
        }
        match self.get(name.as_str()) {
            Some(_taken) => Ok(Created::Exists),
            None => match self.add(name, Bytes::own(bytes)) {
                Ok(()) => Ok(Created::Made),
                Err(_) => Err(StoreError::NoMemory),
            },
        }
    }

    fn give_up(&mut self)
        ensures none { told_draft self.new.draft ≡ None }
        ensures kept { KeptFiles (told_store self.old) (told_store self.new) }
        ensures no_fault { Stood self.old.faults self.new.faults }
        ensures given { self.new.given ≡ self.old.given }

        // Nothing else changes.
        ensures rest { self.new ≡ record self.old { draft = None } }
    {
        let _ = self.take_draft();
    }
}
