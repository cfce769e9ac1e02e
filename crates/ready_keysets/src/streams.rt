//! Keysets for streams, made ready from their texts.

ghost use Rattle.std.specs.Prelude.{◌≡◌, ◌≤◌, length, IsSome, IfOk, IfErr};
ghost use Rattle.keyset_json.specs.Reading.{reads_json};
ghost use Rattle.keyset_model.specs.Reading.{reads_binary};
ghost use Rattle.segment_stream.specs.StreamKeys.{stream_unfit};
ghost use Rattle.ready_keysets.specs.Streaming.{AreServing, IsNoStreams, IsStreamsOf, IsUnfitForStreams};
ghost use Rattle.ready_keysets.specs.declared.refusal.Refusal.TheVariants as refusals;

use crate::Refusal;
use crate::work::LIMIT;
use keyset_json::{JsonError, read_json};
use keyset_model::{Keyset, ReadError, read_binary};
use segment_stream::{StreamKeys, StreamKeysFault};
use std::alloc::Global;

/// A keyset and its keys for streams, each checked once.
#[derive(Drop)]
pub struct StreamKeyset {
    pub(crate) keyset: Keyset,
    pub(crate) keys: StreamKeys,
}

impl StreamKeyset {
    /// Makes a keyset's keys ready for streams.
    ///
    /// `UnfitKey` comes if and only if an ENABLED key isn't one for streams. The only other refusal
    /// is `NoMemory`.
    pub fn new(alloc: Global, keyset: Keyset) -> Result<StreamKeyset, Refusal>
        ensures serving { IfOk result AreServing }
        ensures keyset { IfOk result (λ made. made.keyset ≡ keyset) }
        ensures unfit { IfErr result (IsUnfitForStreams keyset) }
    {
        match StreamKeys::new(alloc, &keyset) {
            Ok(keys) => Ok(StreamKeyset { keyset, keys }),
            Err(StreamKeysFault::NoMemory) => Err(Refusal::NoMemory),
            Err(_) => Err(Refusal::UnfitKey),
        }
    }

    /// Makes the keyset in a JSON text ready for streams.
    ///
    /// `TooLong` comes only if the text has more than 2^30 bytes, `NoKeyset` only if it is no
    /// keyset, and `UnfitKey` only if an ENABLED key of the keyset isn't one for streams.
    pub fn of_json(alloc: Global, text: &[u8]) -> Result<StreamKeyset, Refusal>
        ensures made { IfOk result (IsStreamsOf (reads_json text.now)) }
        ensures none { IfErr result (IsNoStreams (length text.now) (reads_json text.now)) }
    {
        if text.len() > LIMIT {
            return Err(Refusal::TooLong);
        }
        match read_json(alloc, text) {
            Ok(keyset) => StreamKeyset::new(alloc, keyset),
            Err(JsonError::NoMemory) => Err(Refusal::NoMemory),
            Err(_) => Err(Refusal::NoKeyset),
        }
    }

    /// Makes the keyset with this binary form ready, as `of_json` does.
    pub fn of_binary(alloc: Global, bytes: &[u8]) -> Result<StreamKeyset, Refusal>
        ensures made { IfOk result (IsStreamsOf (reads_binary bytes.now)) }
        ensures none { IfErr result (IsNoStreams (length bytes.now) (reads_binary bytes.now)) }
    {
        if bytes.len() > LIMIT {
            return Err(Refusal::TooLong);
        }
        match read_binary(alloc, bytes) {
            Ok(keyset) => StreamKeyset::new(alloc, keyset),
            Err(ReadError::NoMemory) => Err(Refusal::NoMemory),
            Err(_) => Err(Refusal::NoKeyset),
        }
    }
}
