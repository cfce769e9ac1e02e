//! list-keyset.

ghost use Rattle.tinkey_plans.specs.Ends.{World};
ghost use Rattle.tinkey_plans.specs.Steps.{Passes};
ghost use Rattle.tinkey_plans.specs.Commands.{list_keyset_output};
ghost use Rattle.tinkey_words.specs.Words.{seen_lock, seen_place};

use crate::locks::take_locked;
use keyset_model::info_text;
use managers::{KeyTable, Managers};
use std::alloc::Global;
use tink_base::{Bytes, Source, Store};
use tinkey_plans::Status;
use tinkey_words::{KeysetFile, Master};

/// list-keyset: the listing of the keyset in a file, or of the keyset in the whole input.
#[inline(never)]
pub fn list_keyset<S: Source, D: Store>(
    alloc: Global,
    managers: &Managers,
    lock: Option<Master<'_>>,
    input: KeysetFile<'_>,
    source: &mut S,
    store: &mut D,
) -> Result<Bytes, Status>
    ensures { (w : World) → Passes
        (list_keyset_output (⟦<Managers as KeyTable>⟧.table managers.now) (seen_lock lock.entry)
        (seen_place input.entry))
        (record w { source = S.state source.old; store = D.state store.old }) result
        (record w { source = S.state source.new; store = D.state store.new }) }
{
    let keyset = take_locked(alloc, managers, lock, input, source, store)?;
    let text = info_text(alloc, &keyset)?;
    Ok(Bytes::own(text))
}
