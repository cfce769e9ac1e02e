//! A record's key for streams.

ghost use Rattle.std.specs.Prelude.{◌≡◌, Some, IfOk};
ghost use Rattle.key_msgs.specs.Keys.{IsValid};
ghost use Rattle.key_msgs.specs.KeyTypes.{type_of_url};
ghost use Rattle.key_msgs.specs.Reading.{key_of};
ghost use Rattle.segment_stream.specs.Segments.{IsSound};
ghost use Rattle.segment_stream.specs.StreamKeys.{GivesStreamKey, of_kind, of_message, stream_key_of};

use crate::key::{SegmentScheme, StreamKey};
use key_msgs::{KeyFault, KeyKind, KeyType, Rule, read_key};
use keyset_model::Record;
use std::alloc::Global;

/// Why a record gives no key for streams.
#[derive(Clone, Copy, Debug, PartialEq, Eq)]
pub(crate) enum StreamFault {
    /// Its type URL isn't one of the two for streams.
    NotStream,
    /// The first rule that its message breaks.
    BadKey(Rule),
    /// Memory couldn't be allocated.
    NoMemory,
}

/// The key for streams of this record.
#[tactic(auto, unfolding(crate::specs::StreamKeys::stream_key_of))]
pub(crate) fn stream_key_of(alloc: Global, entry: &Record) -> Result<StreamKey, StreamFault>
    ensures key { GivesStreamKey result (stream_key_of entry.now) }
    ensures sound { IfOk result IsSound }
{
    let url = entry.url.as_str();
    let value = entry.value.as_slice();
    match KeyType::from_url(url) {
        Some(KeyType::GcmStream) => read_as(alloc, url, KeyType::GcmStream, value),
        Some(KeyType::CtrStream) => read_as(alloc, url, KeyType::CtrStream, value),
        _ => Err(StreamFault::NotStream),
    }
}

/// The key of a message under the URL of this type.
fn read_as(
    alloc: Global,
    url: &str,
    key_type: KeyType,
    value: &[u8],
) -> Result<StreamKey, StreamFault>
    requires { type_of_url url.now ≡ Some key_type }
    ensures key { GivesStreamKey result (of_message (key_of key_type value.now)) }
    ensures sound { IfOk result IsSound }
{
    match read_key(alloc, url, value) {
        Ok(kind) => own(kind),
        Err(KeyFault::Bad(rule)) => Err(StreamFault::BadKey(rule)),
        Err(KeyFault::NoMemory) => Err(StreamFault::NoMemory),
        Err(KeyFault::NotKnown) => Err(StreamFault::NotStream),
    }
}

/// The key, if it is for streams.
fn own(kind: KeyKind) -> Result<StreamKey, StreamFault>
    requires { IsValid kind }
    ensures key { GivesStreamKey result (of_kind kind) }
    ensures sound { IfOk result IsSound }
{
    match kind {
        KeyKind::GcmStream {
            key,
            segment,
            derived,
            hash,
        } => Ok(StreamKey {
            value: key,
            segment,
            derived,
            hash,
            scheme: SegmentScheme::Gcm,
        }),
        KeyKind::CtrStream {
            key,
            segment,
            derived,
            hash,
            mac_hash,
            tag_size,
        } => Ok(StreamKey {
            value: key,
            segment,
            derived,
            hash,
            scheme: SegmentScheme::CtrHmac {
                hash: mac_hash,
                tag_size,
            },
        }),
        _ => Err(StreamFault::NotStream),
    }
}
