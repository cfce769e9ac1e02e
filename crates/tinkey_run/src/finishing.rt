//! The last step of a command: its output is written, or becomes a new file.

ghost use Rattle.std.specs.Prelude.{◌≡◌, List, ℕ, IfOk};
ghost use Rattle.tinkey_plans.specs.Plan.{Plan};
ghost use Rattle.tinkey_plans.specs.Ends.{World};
ghost use Rattle.tinkey_plans.specs.Steps.{puts, Finishes, Passes};
ghost use Rattle.tinkey_plans.specs.Using.{hex_line, shows};
ghost use Rattle.tinkey_words.specs.Words.{seen_name};

use hex_lanes::encode_onto;
use std::alloc::Global;
use tink_base::{Bytes, NoMemory, Sink, Store};
use tinkey_actions::put;
use tinkey_plans::Status;

/// Puts out a command's bytes, as its last step: into a new file or, if none is named, to the sink.
/// Or passes on why there are none.
#[inline(never)]
pub(crate) fn finish_output<K: Sink, D: Store>(
    alloc: Global,
    out: Option<&str>,
    sink: &mut K,
    store: &mut D,
    made: Result<Bytes, Status>,
) -> Result<(), Status>
    ensures { (step : (List ℕ → Plan) → Plan) (first w : World) →
        Passes step first made
        (record w { sink = K.state sink.old; store = D.state store.old }) →
        Finishes (step (puts (seen_name out.entry))) first result
        (record w { sink = K.state sink.new; store = D.state store.new }) }
{
    match made {
        Ok(bytes) => put(alloc, out, sink, store, bytes.as_slice()),
        Err(status) => Err(status),
    }
}

/// The output of work by keys, plain or in hexadecimal. Or passes on why there is none.
#[inline(never)]
pub(crate) fn shown(alloc: Global, hex: bool, made: Result<Bytes, Status>) -> Result<Bytes, Status>
    ensures { (step : (List ℕ → Plan) → Plan) (first w : World) → Passes step first made w →
        Passes (λ next. step (λ bytes. shows hex bytes next)) first result w }
{
    let bytes = made?;
    if !hex {
        return Ok(bytes);
    }
    match hex_line(alloc, bytes.as_slice()) {
        Ok(line) => Ok(Bytes::own(line)),
        Err(_) => Err(Status::NoMemory),
    }
}

/// The line of bytes in lower-case hexadecimal.
fn hex_line(alloc: Global, bytes: &[u8]) -> Result<Vec<u8>, NoMemory>
    ensures { IfOk result (λ line. line.items ≡ hex_line bytes.now) }
{
    let mut line = Vec::new(alloc);
    encode_onto(&mut line, bytes)?;
    line.push(b'\n')?;
    Ok(line)
}
