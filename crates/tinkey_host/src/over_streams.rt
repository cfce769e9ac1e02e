//! Runs over real streams and a device of random bytes that report their bytes.

ghost use Rattle.std.specs.Prelude.{◌≡◌, ℕ, List, Some, map, string_bytes};
ghost use Rattle.real_objects.specs.Device.{device_left};
ghost use Rattle.real_objects.specs.Streams.{source_left, stream_written};
ghost use Rattle.tinkey_plans.specs.Plan.{Told, IsStated, answer};
ghost use Rattle.tinkey_host.specs.Program.{start_plan, IsAnsweredInBytes, IsNoneUnsaved};

use crate::standard::start;
use real_objects::{FileEntropy, Opens, ReadStream, StdSink, StdSource, WriteStream};
use std::alloc::Global;
use tink_base::{PieceStore, Sink};
use tinkey_run::Status;

/// Runs the words as `start` does, over a stream that is read ahead, one that is written, and a
/// device of random bytes that are drawn ahead.
///
/// If the streams beneath, the device and the store report their bytes, the stated answer is over
/// these: the input is the bytes read ahead and those left in the stream, the output is appended to
/// what the written stream holds, and the random bytes are those drawn ahead and those left in the
/// device. It isn't said of a session in which a call of the store failed.
pub fn start_over_streams<R: ReadStream, W: WriteStream, G: Sink, O: Opens, D: PieceStore>(
    alloc: Global,
    words: &[String],
    source: &mut StdSource<R>,
    sink: &mut StdSink<W>,
    diag: &mut G,
    entropy: &mut FileEntropy<O>,
    store: &mut D,
) -> Status
    ensures answered { (told : Told) (written : List ℕ) →
        source_left R.remaining source.old ≡ Some told.input →
        W.contents (stream_written sink.old) ≡ Some written →
        (D.state store.old).files ≡ Some told.files →
        device_left O.given O.Device.remaining entropy.old ≡ Some told.random →
        IsStated result →
        IsNoneUnsaved (map string_bytes words.now) (D.state store.old) (D.state store.new) →
        IsAnsweredInBytes (answer (start_plan (map string_bytes words.now)) told) written result
        (source_left R.remaining source.new) (W.contents (stream_written sink.new))
        (D.state store.new).files (device_left O.given O.Device.remaining entropy.new) }
{
    start(alloc, words, source, sink, diag, entropy, store)
}
