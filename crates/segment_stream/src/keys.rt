//! A keyset's keys for streams.

ghost use Rattle.std.specs.Prelude.{◌≡◌, [], ◌∷◌, ◌++◌, ◌+◌, ◌≤◌, ◌<◌, ◌^◌, None, IfOk, IfErr, OnOk};
ghost use Rattle.std.specs.List.{AllByRecursion};
ghost use Rattle.segment_stream.specs.Segments.{IsSound};
ghost use Rattle.segment_stream.specs.StreamKeys.{IsUnfit, at_place, largest_of, stream_keys, stream_unfit};
ghost use Rattle.segment_stream.specs.KeysModel.{AreOf, AreSound};

use crate::key::StreamKey;
use crate::reading::{StreamFault, stream_key_of};
use key_msgs::Rule;
use keyset_model::Keyset;
use std::alloc::Global;
use std::marker::Model;
use tink_base::{ENABLED, NoMemory};

/// Why a keyset gives no keys for streams, with the place, counted from 0, of the first ENABLED
/// record that gives no key.
#[derive(Clone, Copy, Debug, PartialEq, Eq)]
pub enum StreamKeysFault {
    /// This record's type URL isn't one of the two for streams.
    NotStream(usize),
    /// The first rule that this record's key message breaks.
    BadKey(usize, Rule),
    /// Memory couldn't be allocated.
    NoMemory,
}

impl From<NoMemory> for StreamKeysFault {
    ghost use Rattle.segment_stream.specs.declared.keys.StreamKeysFault.TheVariants as faults;

    ghost from_gives = { λ _ fault. fault ≡ faults.NoMemory };

    fn from(_error: NoMemory) -> StreamKeysFault {
        StreamKeysFault::NoMemory
    }
}

/// A keyset's keys for streams: those of its ENABLED records, in order, whatever their prefix
/// types. The primary record's key seals, and each of them opens.
#[derive(Drop)]
pub struct StreamKeys {
    primary: StreamKey,
    keys: Vec<StreamKey>,
}

impl Model for StreamKeys {
    ghost use Rattle.std.specs.Prelude.{◌≤◌};
    ghost use Rattle.std.specs.List.{AllByRecursion};
    ghost use Rattle.segment_stream.specs.Segments.{IsSound};
    ghost use Rattle.segment_stream.specs.KeysModel.{KeysForStreams};
    ghost use Rattle.segment_stream.specs.StreamKeys.{largest_of};

    ghost Value = { KeysForStreams };

    ghost view = { λ s. record { primary = s.primary; keys = s.keys.items } };

    ghost invariant = { λ s. IsSound s.primary × AllByRecursion IsSound s.keys.items
        × (s.primary.segment ≤ largest_of s.keys.items) };
}

impl StreamKeys {
    /// The keys of this keyset, or why it gives no keys.
    ///
    /// `NotStream` and `BadKey` come if and only if some ENABLED record gives no key for streams,
    /// and name the first such record with its first fault.
    pub fn new(alloc: Global, keyset: &Keyset) -> Result<StreamKeys, StreamKeysFault>
        ensures keys { IfOk result (λ keys. AreOf keys keyset.now) }
        ensures sound { IfOk result AreSound }
        ensures fit { OnOk result (stream_unfit keyset.now ≡ None) }
        ensures fault { IfErr result (λ fault. IsUnfit fault (stream_unfit keyset.now)) }
    {
        let keys = read_all(alloc, keyset)?;
        match stream_key_of(alloc, keyset.primary_record()) {
            Ok(primary) => Ok(StreamKeys { primary, keys }),
            // It gave a key before, so memory couldn't be allocated.
            Err(_) => Err(StreamKeysFault::NoMemory),
        }
    }

    /// The size of the largest segment, in bytes. No memory is taken.
    pub fn largest(&self) -> usize
        ensures size { result ≡ largest_of self.now.keys }
        ensures bound { result < 2 ^ 31 }
    {
        largest_of(&self.keys)
    }

    // The key that seals.
    pub(crate) fn primary(&self) -> &StreamKey
        ensures key { result.now ≡ self.now.primary }
        ensures sound { IsSound result.now }
        ensures within { result.now.segment ≤ largest_of self.now.keys }
    {
        &self.primary
    }

    /// The keys that open, in the order in which they are tried. No memory is taken.
    pub fn keys(&self) -> &[StreamKey]
        ensures keys { result.now ≡ self.now.keys }
        ensures sound { AllByRecursion IsSound result.now }
        ensures within { AllByRecursion (λ key. key.segment ≤ largest_of self.now.keys) result.now }
    {
        &self.keys
    }

    /// How many random bytes a stream takes, as salt and nonce prefix: 23 or 39.
    pub fn random_len(&self) -> usize
        ensures { result ≡ self.now.primary.derived + 7 }
    {
        self.primary.derived as usize + 7
    }
}

/// The size of the largest segment under these keys.
fn largest_of(keys: &[StreamKey]) -> usize
    ensures { result ≡ largest_of keys.now }
{
    let mut largest = 0;
    for key in keys {
        largest = largest.max(key.segment as usize);
    }
    largest
}

/// The fault of the record at this place.
fn at_place(i: usize, fault: StreamFault) -> StreamKeysFault
    ensures { result ≡ at_place i fault }
{
    match fault {
        StreamFault::NotStream => StreamKeysFault::NotStream(i),
        StreamFault::BadKey(rule) => StreamKeysFault::BadKey(i, rule),
        StreamFault::NoMemory => StreamKeysFault::NoMemory,
    }
}

/// Appends a key.
fn add(keys: &mut Vec<StreamKey>, key: StreamKey) -> Result<(), NoMemory>
    ensures { OnOk result (keys.new.items ≡ keys.old.items ++ key ∷ []) }
{
    keys.push(key)?;
    Ok(())
}

/// The keys of the ENABLED records, in order.
fn read_all(alloc: Global, keyset: &Keyset) -> Result<Vec<StreamKey>, StreamKeysFault>
    ensures keys { IfOk result (λ keys. keys.items ≡ stream_keys keyset.now) }
    ensures sound { IfOk result (λ keys. AllByRecursion IsSound keys.items) }
    ensures fit { OnOk result (stream_unfit keyset.now ≡ None) }
    ensures fault { IfErr result (λ fault. IsUnfit fault (stream_unfit keyset.now)) }
{
    let mut keys = Vec::new(alloc);
    for i in 0..keyset.len() {
        let record = keyset.record_at(i);
        if record.status == ENABLED {
            match stream_key_of(alloc, record) {
                Ok(key) => add(&mut keys, key)?,
                Err(fault) => return Err(at_place(i, fault)),
            }
        }
    }
    Ok(keys)
}
