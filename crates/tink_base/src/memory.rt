//! A source and a sink in memory that fail exactly at the calls they are told to fail.

ghost use Rattle.std.specs.Prelude.{◌≡◌, ◌<◌, ◌≤◌, ◌-◌, ◌↔◌, ◌⊎◌, [], length, take, drop, min, true, false, if◌then◌else◌, IfOk, IsErr, OnOk, OnErr, Contains};
ghost use Rattle.tink_spec.specs.Outside.{Rose, RoseOnce, Stood, Gave, IsAtEnd, Took, late_after, next};
ghost use Rattle.tink_base.specs.Memory.{told_source, told_sink, IsFull};

use crate::{Failed, NoMemory, Sink, Source};
use std::alloc::Global;
use std::marker::Model;

/// A source over bytes in memory, which contracts see as a `SourceInMemory`.
#[derive(Drop)]
pub struct MemSource {
    bytes: Vec<u8>,
    at: usize,
    piece: usize,
    fails: Vec<u64>,
    calls: u64,
    faults: u64,
    ended: bool,
    late: u64,
}

impl Model for MemSource {
    ghost use Rattle.std.specs.Prelude.{◌<◌, ◌≤◌, length, drop};
    ghost use Rattle.tink_base.specs.Memory.{SourceInMemory};

    ghost Value = { SourceInMemory };

    ghost view = { λ s. record { left = drop s.at s.bytes.items; piece = s.piece; fails = s.fails.items; calls = s.calls; faults = s.faults; ended = s.ended; late = s.late } };

    ghost invariant = { λ s. (s.at ≤ length s.bytes.items) × (0 < s.piece) };
}

impl MemSource {
    /// A source of these bytes. A read gives at most `piece` bytes, at least 1. It fails if and
    /// only if its number, counted from 1, is in `fails`.
    pub fn new(bytes: Vec<u8>, piece: usize, fails: Vec<u64>) -> MemSource
        requires piece_bound { 0 < piece }
        ensures { result ≡ record {
          left = bytes.items;
          piece = piece;
          fails = fails.items;
          calls = 0;
          faults = 0;
          ended = false;
          late = 0;
        } }
    {
        MemSource {
            bytes,
            at: 0,
            piece,
            fails,
            calls: 0,
            faults: 0,
            ended: false,
            late: 0,
        }
    }

    /// How often it has failed.
    pub fn faults(&self) -> u64
        ensures { result ≡ self.now.faults }
    {
        self.faults
    }
}

impl Source for MemSource {
    ghost state = { λ s. told_source s };

    fn read(&mut self, out: &mut [u8]) -> Result<usize, Failed>
        ensures bound { IfOk result (λ n. n ≤ length out.old) }
        ensures gives { IfOk result (λ n.
            Gave (told_source self.old) (told_source self.new) (take n out.new)) }
        ensures rest { IfOk result (λ n. drop n out.new ≡ drop n out.old) }
        ensures end { IfOk result (λ n. n ≡ 0 → 0 < length out.old →
            IsAtEnd (told_source self.new)) }
        ensures ended { IfOk result (λ n. n ≡ 0 → 0 < length out.old → self.new.ended ≡ true) }
        ensures goes_on { IfOk result (λ n. 0 < n → self.new.ended ≡ self.old.ended) }
        ensures nothing_asked { length out.old ≡ 0 → self.new.ended ≡ self.old.ended }
        ensures failed_goes_on { OnErr result (self.new.ended ≡ self.old.ended) }
        ensures late { self.new.late ≡ late_after (told_source self.old) }
        ensures no_fault { OnOk result (Stood self.old.faults self.new.faults) }
        ensures failed { OnErr result (Rose self.old.faults self.new.faults) }
        ensures once { OnErr result (RoseOnce self.old.faults self.new.faults) }
        ensures kept { OnErr result (Gave (told_source self.old) (told_source self.new) []) }

        // Exactly when it fails, and how many bytes it gives.
        ensures listed { IsErr result ↔ Contains self.old.fails (next self.old.calls) }
        ensures piece { IfOk result (λ n. n ≡
            min (min (length out.old) self.old.piece) (length self.old.left)) }
        ensures faultless { OnOk result
            (self.new ≡ record self.old
            { left = self.new.left; calls = next self.old.calls; ended = self.new.ended; late = self.new.late }) }
        ensures faulty { OnErr result
            (self.new ≡ record self.old
            { calls = next self.old.calls; faults = next self.old.faults; late = self.new.late }) }
    {
        self.calls = self.calls.saturating_add(1);
        self.late = counted_late(self.ended, self.late);
        if self.fails.contains(&self.calls) {
            self.faults = self.faults.saturating_add(1);
            return Err(Failed);
        }
        let n = out.len().min(self.piece).min(self.bytes.len() - self.at);
        out[..n].copy_from_slice(&self.bytes[self.at..self.at + n]);
        self.at += n;
        self.ended = is_ended(self.ended, out.len(), n);
        Ok(n)
    }
}

/// The count of late calls, after one call more.
fn counted_late(ended: bool, late: u64) -> u64
    ensures { result ≡ (if ended then next late else late) }
{
    if ended { late.saturating_add(1) } else { late }
}

/// Whether an end has been reported, after a read that asked for `asked` bytes and gave `given`.
fn is_ended(ended: bool, asked: usize, given: usize) -> bool
    ensures goes_on { 0 < given → result ≡ ended }
    ensures end { given ≡ 0 → 0 < asked → result ≡ true }
    ensures nothing_asked { asked ≡ 0 → result ≡ ended }
{
    ended || given == 0 && asked > 0
}

/// A sink in memory, which contracts see as a `SinkInMemory`.
#[derive(Drop)]
pub struct MemSink {
    bytes: Vec<u8>,
    room: usize,
    piece: usize,
    fails: Vec<u64>,
    calls: u64,
    faults: u64,
}

impl Model for MemSink {
    ghost use Rattle.std.specs.Prelude.{◌<◌, ◌≤◌, length, vec_len, vec_capacity};
    ghost use Rattle.tink_base.specs.Memory.{SinkInMemory};

    ghost Value = { SinkInMemory };

    ghost view = { λ s. record { written = s.bytes.items; room = s.room; piece = s.piece; fails = s.fails.items; calls = s.calls; faults = s.faults } };

    ghost invariant = { λ s. (vec_len s.bytes ≤ s.room) × (s.room ≤ vec_capacity s.bytes) × (0 < s.piece) };
}

impl MemSink {
    /// A sink with room for `room` bytes, which are reserved. A write takes as many bytes as fit,
    /// at most `piece`, at least 1. It fails if and only if its number, counted from 1, is in
    /// `fails`, or the room is full and there is something to write.
    pub fn new(
        alloc: Global,
        room: usize,
        piece: usize,
        fails: Vec<u64>,
    ) -> Result<MemSink, NoMemory>
        requires piece_bound { 0 < piece }
        ensures { IfOk result (λ sink. sink ≡
            record {
              written = [];
              room = room;
              piece = piece;
              fails = fails.items;
              calls = 0;
              faults = 0;
            }) }
    {
        match Vec::with_capacity(alloc, room) {
            Ok(bytes) => Ok(MemSink {
                bytes,
                room,
                piece,
                fails,
                calls: 0,
                faults: 0,
            }),
            Err(_) => Err(NoMemory),
        }
    }

    /// The bytes that were written.
    pub fn written(&self) -> &[u8]
        ensures { result.now ≡ self.now.written }
    {
        self.bytes.as_slice()
    }

    /// How often it has failed.
    pub fn faults(&self) -> u64
        ensures { result ≡ self.now.faults }
    {
        self.faults
    }
}

impl Sink for MemSink {
    ghost state = { λ s. told_sink s };

    fn write(&mut self, piece: &[u8]) -> Result<usize, Failed>
        ensures bound { IfOk result (λ n. n ≤ length piece.now) }
        ensures some { IfOk result (λ n. 0 < length piece.now → 0 < n) }
        ensures takes { IfOk result (λ n.
            Took (told_sink self.old) (told_sink self.new) (take n piece.now)) }
        ensures no_fault { OnOk result (Stood self.old.faults self.new.faults) }
        ensures failed { OnErr result (Rose self.old.faults self.new.faults) }
        ensures once { OnErr result (RoseOnce self.old.faults self.new.faults) }
        ensures kept { OnErr result (Took (told_sink self.old) (told_sink self.new) []) }

        // Exactly when it fails, and how many bytes it takes.
        ensures listed { IsErr result ↔
            (Contains self.old.fails (next self.old.calls) ⊎
            (IsFull self.old × (0 < length piece.now))) }
        ensures piece { IfOk result (λ n. n ≡
            min (min (length piece.now) self.old.piece) (self.old.room - length self.old.written)) }
        ensures faultless { OnOk result
            (self.new ≡ record self.old
            { written = self.new.written; calls = next self.old.calls }) }
        ensures faulty { OnErr result
            (self.new ≡ record self.old
            { calls = next self.old.calls; faults = next self.old.faults }) }
    {
        self.calls = self.calls.saturating_add(1);
        if self.fails.contains(&self.calls) {
            self.faults = self.faults.saturating_add(1);
            return Err(Failed);
        }
        let n = piece
            .len()
            .min(self.piece)
            .min(self.room - self.bytes.len());
        if n == 0 && piece.len() > 0 {
            self.faults = self.faults.saturating_add(1);
            return Err(Failed);
        }
        match self.bytes.extend_from_slice(&piece[..n]) {
            Ok(()) => Ok(n),
            Err(_) => unreachable!(),
        }
    }
}
