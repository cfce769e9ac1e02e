//! What is put out: to the sink, or into a new file.

ghost use Rattle.std.specs.Prelude.{◌≡◌, ◌≤◌, length, IfOk};
ghost use Rattle.std.specs.List.{AllByRecursion};
ghost use Rattle.keyset_model.specs.Keyset.{IsShort};
ghost use Rattle.tinkey_plans.specs.Plan.{writes, creates};
ghost use Rattle.tinkey_plans.specs.Ends.{World};
ghost use Rattle.tinkey_plans.specs.Steps.{written_in, puts, Finishes};
ghost use Rattle.tinkey_words.specs.Words.{seen_name};
ghost use Rattle.tinkey_plans.specs.declared.status.Status.TheVariants as status;
ghost use Rattle.tinkey_actions.specs.Written.{IsWritten, kept_within};

use crate::steps::KEYSET_LIMIT;
use keyset_json::write_json;
use keyset_model::{Keyset, write_binary};
use std::alloc::Global;
use tink_base::{Bytes, Created, NoMemory, Sink, Store, StoreError, write_all};
use tinkey_plans::Status;
use tinkey_session::{LineRefusal, WriteError};
use tinkey_words::Format;

/// Writes the output.
pub fn write_output<K: Sink>(sink: &mut K, output: &[u8]) -> Result<(), Status>
    ensures { (w : World) → Finishes (writes output.now)
        (record w { sink = K.state sink.old }) result (record w { sink = K.state sink.new }) }
{
    match write_all(sink, output) {
        Ok(()) => Ok(()),
        Err(_) => Err(Status::WriteFault),
    }
}

/// The written form of a keyset, if it is no longer than what is read as one.
pub(crate) fn written(alloc: Global, form: Format, keyset: &Keyset) -> Result<Bytes, WriteError>
    requires short { AllByRecursion IsShort keyset.now.records }
    ensures is { IsWritten form keyset.now result }
    ensures within { IfOk result (λ bytes. length (written_in form keyset.now) ≤ KEYSET_LIMIT) }
{
    match write_as(alloc, form, keyset) {
        Ok(bytes) => within(bytes, KEYSET_LIMIT),
        Err(_) => Err(WriteError::NoMemory),
    }
}

/// A keyset written in this form.
fn write_as(alloc: Global, form: Format, keyset: &Keyset) -> Result<Vec<u8>, NoMemory>
    requires short { AllByRecursion IsShort keyset.now.records }
    ensures { IfOk result (λ bytes. bytes.items ≡ written_in form keyset.now) }
{
    match form {
        Format::Json => write_json(alloc, keyset),
        Format::Binary => write_binary(alloc, keyset),
    }
}

/// Bytes, at most `limit`, which is the limit of a keyset.
pub(crate) fn within(bytes: Vec<u8>, limit: usize) -> Result<Bytes, WriteError>
    ensures is { result ≡ kept_within limit bytes.items }
    ensures within { IfOk result (λ kept. length bytes.items ≤ limit) }
{
    if bytes.len() <= limit {
        Ok(Bytes::own(bytes))
    } else {
        Err(WriteError::Refused(LineRefusal::KeysetTooLong))
    }
}

/// Puts bytes into a new file of this name or, if none is named, to the sink.
pub fn put<K: Sink, D: Store>(
    alloc: Global,
    out: Option<&str>,
    sink: &mut K,
    store: &mut D,
    bytes: &[u8],
) -> Result<(), Status>
    ensures { (w : World) → Finishes (puts (seen_name out.entry) bytes.now)
        (record w { sink = K.state sink.old; store = D.state store.old }) result
        (record w { sink = K.state sink.new; store = D.state store.new }) }
{
    match out {
        Some(name) => create_file(alloc, name, store, bytes),
        None => write_output(sink, bytes),
    }
}

/// Makes a new file of these bytes.
pub(crate) fn create_file<D: Store>(
    alloc: Global,
    name: &str,
    store: &mut D,
    bytes: &[u8],
) -> Result<(), Status>
    ensures { (w : World) → Finishes (creates name.now bytes.now status.OutExists tt)
        (record w { store = D.state store.old }) result (record w { store = D.state store.new }) }
{
    match store.create(alloc, name, bytes) {
        Ok(created) => match created {
            Created::Made => Ok(()),
            Created::Exists => Err(Status::OutExists),
        },
        Err(e) => match e {
            StoreError::Failed => Err(Status::StoreFault),
            StoreError::NoMemory => Err(Status::NoMemory),
        },
    }
}
