//! A stream whose output becomes a new file, whole or not at all.
//!
//! The output is added to a draft of the store, segment by segment. After the end of the pass the
//! draft is made the file; after any other answer it is given up. So a file of any size is whole or
//! absent, in the memory of the pass alone.

ghost use Rattle.std.specs.Prelude.{◌≡◌, ℕ, List, Some, IsSome, IsErrOf, OnOk, None};
ghost use Rattle.segment_stream.specs.KeysModel.{AreSound};
ghost use Rattle.tink_base.specs.Pieces.{IsDraft, draft_name, drafted_sink, empty_draft};
ghost use Rattle.tinkey_plans.specs.Ends.{World};
ghost use Rattle.tinkey_plans.specs.Plan.{creates};
ghost use Rattle.tinkey_plans.specs.Steps.{Finishes, Passes};
ghost use Rattle.tinkey_plans.specs.Streaming.{begins_file, passes_stream};
ghost use Rattle.tinkey_plans.specs.declared.status.Status.TheVariants as status;
ghost use Rattle.tinkey_actions.specs.StreamFile.{Closes, kept_status};
ghost use Rattle.tinkey_words.specs.Words.{seen_datum};

use crate::streaming::pass_stream;
use segment_stream::StreamKeys;
use std::alloc::Global;
use std::marker::Brand;
use tink_base::{
    Begun, Created, DraftLoan, DraftSink, Entropy, Lent, PieceStore, Source, StoreError,
};
use tinkey_plans::Status;
use tinkey_words::{Datum, StreamWork};

/// Does the work on the input, and puts the output into a new file of this name. The name must be
/// free: that is looked up before anything is drawn or read.
#[inline(never)]
pub(crate) fn put_into_file<S: Source, E: Entropy, D: PieceStore>(
    alloc: Global,
    work: StreamWork,
    keys: &StreamKeys,
    ad: Datum<'_>,
    name: &str,
    source: &mut S,
    entropy: &mut E,
    store: &mut D,
) -> Result<(), Status>
    requires sound { AreSound keys.now }
    ensures { (w : World) → Finishes
        (begins_file (Some name.now)
        (passes_stream work keys.now (seen_datum ad.entry) (Some name.now)))
        (record w {
          source = S.state source.old;
          entropy = E.state entropy.old;
          store = D.state store.old;
        }) result
        (record w {
          source = S.state source.new;
          entropy = E.state entropy.new;
          store = D.state store.new;
        }) }
{
    begin_file(alloc, name, store)?;
    let passed = pass_into_draft(alloc, work, keys, ad, source, entropy, store);
    close_file(store, passed)
}

/// Begins a draft of this name, which must be free. One that was there before is given up.
#[inline(never)]
fn begin_file<D: PieceStore>(alloc: Global, name: &str, store: &mut D) -> Result<(), Status>
    ensures passes { (w : World) → Passes (λ next. begins_file (Some name.now) (next tt))
        (record w { store = D.state store.old }) result (record w { store = D.state store.new }) }
    ensures begun { OnOk result
        (D.draft store.new ≡ Some (empty_draft (D.state store.new) name.now)) }
{
    store.give_up();
    match store.begin(alloc, name) {
        Ok(Begun::Empty) => Ok(()),
        Ok(Begun::Exists) => Err(Status::OutExists),
        Err(StoreError::Failed) => Err(Status::StoreFault),
        Err(StoreError::NoMemory) => Err(Status::NoMemory),
    }
}

/// Does the work on the input, and adds the output to the draft. No file changes.
fn pass_into_draft<S: Source, E: Entropy, D: PieceStore>(
    alloc: Global,
    work: StreamWork,
    keys: &StreamKeys,
    ad: Datum<'_>,
    source: &mut S,
    entropy: &mut E,
    store: &mut D,
) -> Result<(), Status>
    requires sound { AreSound keys.now }
    requires begun { IsSome (D.draft store.old) }
    ensures finishes { (w : World) → Finishes
        (passes_stream work keys.now (seen_datum ad.entry) None)
        (record w {
          source = S.state source.old;
          sink = drafted_sink (D.state store.old) (D.draft store.old);
          entropy = E.state entropy.old;
        }) result
        (record w {
          source = S.state source.new;
          sink = drafted_sink (D.state store.new) (D.draft store.new);
          entropy = E.state entropy.new;
        }) }
    ensures undone { IsErrOf result Status.Done → ⊥ }
    ensures name { draft_name (D.draft store.new) ≡ draft_name (D.draft store.old) }
    ensures files { (D.state store.new).files ≡ (D.state store.old).files }
    ensures given { (D.state store.new).given ≡ (D.state store.old).given }
{
    let loan = DraftLoan::over(store);
    let (_, passed) = pass_into_lent::<S, E, D, Brand>(
        alloc, work, keys, ad, source, entropy, loan,
    );
    passed
}

/// The same with the draft of a store that was lent.
fn pass_into_lent<'s, S: Source, E: Entropy, D: PieceStore, L: Lent>(
    alloc: Global,
    work: StreamWork,
    keys: &StreamKeys,
    ad: Datum<'_>,
    source: &mut S,
    entropy: &mut E,
    loan: DraftLoan<'s, D>,
) -> (DraftLoan<'s, D>, Result<(), Status>)
    requires sound { AreSound keys.now }
    requires same { loan.store.ghost_name ≡ L.borrow }
    requires files { (D.state loan.store.now).files ≡ L.files }
    requires given { (D.state loan.store.now).given ≡ L.given }
    requires name { draft_name (D.draft loan.store.now) ≡ Some L.name }
    ensures same { result.0.store.ghost_name ≡ L.borrow }
    ensures files { (D.state result.0.store.now).files ≡ L.files }
    ensures given { (D.state result.0.store.now).given ≡ L.given }
    ensures name { draft_name (D.draft result.0.store.now) ≡ Some L.name }
    ensures finishes { (w : World) → Finishes
        (passes_stream work keys.now (seen_datum ad.entry) None)
        (record w {
          source = S.state source.old;
          sink = drafted_sink (D.state loan.entry.store.now) (D.draft loan.entry.store.now);
          entropy = E.state entropy.old;
        }) result.1
        (record w {
          source = S.state source.new;
          sink = drafted_sink (D.state result.0.store.now) (D.draft result.0.store.now);
          entropy = E.state entropy.new;
        }) }
    ensures undone { IsErrOf result.1 Status.Done → ⊥ }
{
    let mut sink: DraftSink<D, L> = DraftSink::over(loan);
    let passed = pass_stream(alloc, work, keys, ad, source, &mut sink, entropy);
    (sink.into_loan(), passed)
}

/// Makes the draft of a pass the file if the pass came to its end. Otherwise it is given up.
#[inline(never)]
fn close_file<D: PieceStore>(store: &mut D, passed: Result<(), Status>) -> Result<(), Status>
    requires begun { IsSome (D.draft store.old) }
    ensures { Closes (D.draft store.old) (D.state store.old) passed result (D.state store.new) }
{
    match passed {
        Ok(()) => finish_file(store),
        Err(status) => {
            store.give_up();
            Err(kept_status(status))
        }
    }
}

/// Makes the draft the file of its name, with all its bytes.
fn finish_file<D: PieceStore>(store: &mut D) -> Result<(), Status>
    requires begun { IsSome (D.draft store.old) }
    ensures { (w : World) (name bytes : List ℕ) → IsDraft (D.draft store.old) name bytes →
        Finishes (creates name bytes status.OutExists tt)
        (record w { store = D.state store.old }) result (record w { store = D.state store.new }) }
{
    match store.finish() {
        Ok(Created::Made) => Ok(()),
        Ok(Created::Exists) => Err(Status::OutExists),
        Err(StoreError::Failed) => Err(Status::StoreFault),
        Err(StoreError::NoMemory) => Err(Status::NoMemory),
    }
}

/// The status of a pass over a draft that ended with this one: a write that failed is a fault of
/// the store.
fn kept_status(status: Status) -> Status
    ensures { result ≡ kept_status status }
{
    match status {
        Status::WriteFault => Status::StoreFault,
        other => other,
    }
}
