//! The draft of a store as a sink.

ghost use Rattle.std.specs.Prelude.{◌≡◌, ℕ, List, [], Option, Some, None, IsSome, OnOk, OnErr, option_map};
ghost use Rattle.std.specs.Coded.{Coded-set};
ghost use Rattle.std.proofs.Props.{props};
ghost use Rattle.tink_spec.specs.Files.{Files};
ghost use Rattle.tink_spec.specs.Outside.{RoseOnce, Stood, Took};
ghost use Rattle.tink_base.specs.Pieces.{draft_name, drafted_sink, files_code, longer_draft};

use crate::{Failed, PieceStore, Sink, write_all};
use std::marker::{Brand, PhantomData};

/// What a sink that borrows a store leaves as it is. Proofs alone know it: a caller picks it.
pub trait Lent {
    /// The borrow, so that the lender can be recognized.
    ghost borrow: { ℕ };

    /// The files, if the store reports them.
    ghost files: { Option Files };

    /// How many bytes of files the store has read.
    ghost given: { ℕ };

    /// The name of the draft.
    ghost name: { List ℕ };
}

impl Lent for Brand {
    ghost borrow = { 0 };

    ghost files = { None };

    ghost given = { 0 };

    ghost name = { [] };
}

/// A store that has a draft, borrowed.
#[derive(Drop)]
pub struct DraftLoan<'s, S: PieceStore> {
    store: &'s mut S,
}

impl<'s, S: PieceStore> DraftLoan<'s, S> {
    /// Borrows this store.
    pub fn over(store: &'s mut S) -> DraftLoan<'s, S>
        ensures lends { result.store.ghost_name ≡ store.entry.ghost_name }
        ensures store { result.store.now ≡ store.old }
    {
        DraftLoan { store }
    }
}

/// The draft of a store as a sink, with the store's count of faults. Whatever is written to it, the
/// store keeps its files, its count of bytes read and its draft's name.
#[derive(Drop)]
pub struct DraftSink<'s, S: PieceStore, L: Lent> {
    store: &'s mut S,
    lent: PhantomData<L>,
    ghost same: { store.ghost_name ≡ L.borrow },
    ghost files: { (S.state store.now).files ≡ L.files } by { Coded-set files_code _ _ },
    ghost given: { (S.state store.now).given ≡ L.given },
    ghost name: { draft_name (S.draft store.now) ≡ Some L.name } by { Prim.hlevel props },
}

impl<'s, S: PieceStore, L: Lent> DraftSink<'s, S, L> {
    /// The draft of the store that was lent.
    pub fn over(loan: DraftLoan<'s, S>) -> DraftSink<'s, S, L>
        requires same { loan.store.ghost_name ≡ L.borrow }
        requires files { (S.state loan.store.now).files ≡ L.files }
        requires given { (S.state loan.store.now).given ≡ L.given }
        requires name { draft_name (S.draft loan.store.now) ≡ Some L.name }
        ensures store { result.store.now ≡ loan.entry.store.now }
    {
        let DraftLoan { store } = loan;
        DraftSink {
            store,
            lent: PhantomData,
        }
    }

    /// The store again, with what was written to its draft.
    pub fn into_loan(self) -> DraftLoan<'s, S>
        ensures store { result.store.now ≡ self.entry.store.now }
        ensures same { result.store.ghost_name ≡ L.borrow }
        ensures files { (S.state result.store.now).files ≡ L.files }
        ensures given { (S.state result.store.now).given ≡ L.given }
        ensures name { draft_name (S.draft result.store.now) ≡ Some L.name }
    {
        let DraftSink { store, .. } = self;
        DraftLoan { store }
    }
}

impl<S: PieceStore, L: Lent> Sink for DraftSink<'_, S, L> {
    ghost state = { λ s. drafted_sink (S.state s.store.now) (S.draft s.store.now) };

    fn write(&mut self, piece: &[u8]) -> Result<usize, Failed> {
        self.store.append(piece)
    }
}

/// Adds all bytes to the draft of the store that was lent.
fn append_lent<'s, S: PieceStore, L: Lent>(
    loan: DraftLoan<'s, S>,
    bytes: &[u8],
) -> (DraftLoan<'s, S>, Result<(), Failed>)
    requires same { loan.store.ghost_name ≡ L.borrow }
    requires files { (S.state loan.store.now).files ≡ L.files }
    requires given { (S.state loan.store.now).given ≡ L.given }
    requires name { draft_name (S.draft loan.store.now) ≡ Some L.name }
    ensures same { result.0.store.ghost_name ≡ L.borrow }
    ensures files { (S.state result.0.store.now).files ≡ L.files }
    ensures given { (S.state result.0.store.now).given ≡ L.given }
    ensures name { draft_name (S.draft result.0.store.now) ≡ Some L.name }
    ensures wrote { OnOk result.1 (Took
        (drafted_sink (S.state loan.entry.store.now) (S.draft loan.entry.store.now))
        (drafted_sink (S.state result.0.store.now) (S.draft result.0.store.now)) bytes.now) }
    ensures no_fault { OnOk result.1
        (Stood (S.state loan.entry.store.now).faults (S.state result.0.store.now).faults) }
    ensures once { OnErr result.1
        (RoseOnce (S.state loan.entry.store.now).faults (S.state result.0.store.now).faults) }
{
    let mut sink: DraftSink<S, L> = DraftSink::over(loan);
    let written = write_all(&mut sink, bytes);
    (sink.into_loan(), written)
}

/// Adds all bytes to the draft of a store, which there is. No file changes. After `Failed` the
/// draft has a prefix of the bytes more, and the count of faults has risen.
pub fn append_all<S: PieceStore>(store: &mut S, bytes: &[u8]) -> Result<(), Failed>
    requires begun { IsSome (S.draft store.old) }
    ensures appends { OnOk result (S.draft store.new ≡
        option_map (λ d. longer_draft d bytes.now) (S.draft store.old)) }
    ensures name { draft_name (S.draft store.new) ≡ draft_name (S.draft store.old) }
    ensures files { (S.state store.new).files ≡ (S.state store.old).files }
    ensures given { (S.state store.new).given ≡ (S.state store.old).given }
    ensures no_fault { OnOk result (Stood (S.state store.old).faults (S.state store.new).faults) }
    ensures once { OnErr result (RoseOnce (S.state store.old).faults (S.state store.new).faults) }
{
    let (_, written) = append_lent::<S, Brand>(DraftLoan::over(store), bytes);
    written
}
