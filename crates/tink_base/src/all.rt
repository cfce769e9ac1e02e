//! Whole inputs and whole outputs, over any source and any sink.

ghost use Rattle.std.specs.Prelude.{◌≡◌, ◌+◌, ◌≤◌, ◌^◌, length, drop, IfOk, OnOk, OnErr, IsErrOf};
ghost use Rattle.tink_spec.specs.Outside.{Rose, RoseOnce, Stood, Gave, GaveUpTo, GaveCount, Took, TookPrefix, IsAtEnd, StopsAtEnd};

use crate::{Failed, Sink, Source};
use std::alloc::Global;

/// Why not all of an input was read.
#[derive(Clone, Copy, Debug, PartialEq, Eq)]
pub enum ReadAllFault {
    /// The source failed.
    Failed,
    /// The input has more bytes than the limit.
    TooLong,
    /// Memory couldn't be allocated.
    NoMemory,
}

/// The most bytes that one read asks for.
const PIECE: usize = 1 << 16;

/// Reads all bytes up to the end. There may be at most `limit` of them, itself at most 2^30.
///
/// `Failed` comes only if the source failed, and `TooLong` if and only if `limit` + 1 bytes were
/// taken. Any other answer consumes at most `limit` bytes, and `Ok` all of them, up to the end.
/// Nothing is read after the end was reported, and a failed read isn't tried again: only `Failed`
/// changes the count of faults.
pub fn read_all<S: Source>(
    alloc: Global,
    source: &mut S,
    limit: usize,
) -> Result<Vec<u8>, ReadAllFault>
    requires limit_bound { limit ≤ 2 ^ 30 }
    ensures all { IfOk result (λ all. Gave (S.state source.old) (S.state source.new) all.items) }
    ensures within { IfOk result (λ all. length all.items ≤ limit) }
    ensures end { OnOk result (IsAtEnd (S.state source.new)) }
    ensures stops { StopsAtEnd (S.state source.old) (S.state source.new) }
    ensures no_fault { (IsErrOf result ReadAllFault.Failed → ⊥) →
        Stood (S.state source.old).faults (S.state source.new).faults }
    ensures failed { IsErrOf result ReadAllFault.Failed →
        Rose (S.state source.old).faults (S.state source.new).faults }
    ensures once { IsErrOf result ReadAllFault.Failed →
        RoseOnce (S.state source.old).faults (S.state source.new).faults }
    ensures failed_within { IsErrOf result ReadAllFault.Failed →
        GaveUpTo (S.state source.old) (S.state source.new) limit }
    ensures too_long { IsErrOf result ReadAllFault.TooLong →
        GaveCount (S.state source.old) (S.state source.new) (limit + 1) }
    ensures no_memory { IsErrOf result ReadAllFault.NoMemory →
        GaveUpTo (S.state source.old) (S.state source.new) limit }
{
    read_behind(alloc, 0, source, limit)
}

/// Reads as `read_all` does, into a list that begins with `room` bytes, at most 2^30, for the
/// caller to fill; the bytes read follow. The values of the first `room` bytes are unspecified.
pub fn read_behind<S: Source>(
    alloc: Global,
    room: usize,
    source: &mut S,
    limit: usize,
) -> Result<Vec<u8>, ReadAllFault>
    requires limit_bound { limit ≤ 2 ^ 30 }
    requires room_bound { room ≤ 2 ^ 30 }
    ensures room { IfOk result (λ all. room ≤ length all.items) }
    ensures all { IfOk result (λ all.
        Gave (S.state source.old) (S.state source.new) (drop room all.items)) }
    ensures within { IfOk result (λ all. length all.items ≤ room + limit) }
    ensures end { OnOk result (IsAtEnd (S.state source.new)) }
    ensures stops { StopsAtEnd (S.state source.old) (S.state source.new) }
    ensures no_fault { (IsErrOf result ReadAllFault.Failed → ⊥) →
        Stood (S.state source.old).faults (S.state source.new).faults }
    ensures failed { IsErrOf result ReadAllFault.Failed →
        Rose (S.state source.old).faults (S.state source.new).faults }
    ensures once { IsErrOf result ReadAllFault.Failed →
        RoseOnce (S.state source.old).faults (S.state source.new).faults }
    ensures failed_within { IsErrOf result ReadAllFault.Failed →
        GaveUpTo (S.state source.old) (S.state source.new) limit }
    ensures too_long { IsErrOf result ReadAllFault.TooLong →
        GaveCount (S.state source.old) (S.state source.new) (limit + 1) }
    ensures no_memory { IsErrOf result ReadAllFault.NoMemory →
        GaveUpTo (S.state source.old) (S.state source.new) limit }
{
    let mut all = match vec![in alloc; 0u8; room] {
        Ok(all) => all,
        Err(_) => return Err(ReadAllFault::NoMemory),
    };
    // on the heap, since a call pays for its locals whether it reads much or little
    let mut buffer = match vec![in alloc; 0u8; PIECE.min(limit + 1)] {
        Ok(buffer) => buffer,
        Err(_) => return Err(ReadAllFault::NoMemory),
    };
    let piece = buffer.as_mut_slice();
    let end = room + limit;
    loop {
        let most = piece.len().min(end + 1 - all.len());
        let n = match source.read(&mut piece[..most]) {
            Ok(n) => n,
            Err(Failed) => return Err(ReadAllFault::Failed),
        };
        if n == 0 {
            return Ok(all);
        }
        if n > end - all.len() {
            return Err(ReadAllFault::TooLong);
        }
        match all.extend_from_slice(&piece[..n]) {
            Ok(()) => {}
            Err(_) => return Err(ReadAllFault::NoMemory),
        }
    }
}

/// Writes all of `bytes`, without memory.
///
/// `Failed` comes only if the sink failed. Then a prefix was written, and at least one byte wasn't.
/// A failed write isn't tried again: `Ok` leaves the count of faults unchanged.
pub fn write_all<K: Sink>(sink: &mut K, bytes: &[u8]) -> Result<(), Failed>
    ensures all { OnOk result (Took (K.state sink.old) (K.state sink.new) bytes.now) }
    ensures no_fault { OnOk result (Stood (K.state sink.old).faults (K.state sink.new).faults) }
    ensures failed { OnErr result (Rose (K.state sink.old).faults (K.state sink.new).faults) }
    ensures once { OnErr result (RoseOnce (K.state sink.old).faults (K.state sink.new).faults) }
    ensures prefix { OnErr result (TookPrefix (K.state sink.old) (K.state sink.new) bytes.now) }
{
    let mut at = 0;
    while at < bytes.len() {
        match sink.write(&bytes[at..]) {
            Ok(n) => at += n,
            Err(Failed) => return Err(Failed),
        }
    }
    Ok(())
}
