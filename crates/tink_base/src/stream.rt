//! An entropy in memory, which fails exactly at the calls it is told to fail and when too few bytes
//! are left.

ghost use Rattle.std.specs.Prelude.{◌≡◌, ◌<◌, ◌↔◌, ◌⊎◌, length, take, drop, IsErr, OnOk, OnErr, Contains};
ghost use Rattle.tink_spec.specs.Outside.{Drew, RanShort, RoseOnce, Stood, next};
ghost use Rattle.tink_base.specs.Memory.{told_entropy};

use crate::{Entropy, Failed};
use std::marker::Model;

/// An entropy over bytes in memory, which contracts see as an `EntropyInMemory`.
#[derive(Drop)]
pub struct MemEntropy {
    bytes: Vec<u8>,
    at: usize,
    fails: Vec<u64>,
    calls: u64,
    faults: u64,
}

impl Model for MemEntropy {
    ghost use Rattle.std.specs.Prelude.{◌≤◌, length, drop};
    ghost use Rattle.tink_base.specs.Memory.{EntropyInMemory};

    ghost Value = { EntropyInMemory };

    ghost view = { λ s. record { left = drop s.at s.bytes.items; fails = s.fails.items; calls = s.calls; faults = s.faults } };

    ghost invariant = { λ s. s.at ≤ length s.bytes.items };
}

impl MemEntropy {
    /// An entropy of these bytes. A call fails if and only if its number, counted from 1, is in
    /// `fails`, or fewer bytes are left than asked for.
    pub fn new(stream: Vec<u8>, fails: Vec<u64>) -> MemEntropy
        ensures { result ≡
            record { left = stream.items; fails = fails.items; calls = 0; faults = 0 } }
    {
        MemEntropy {
            bytes: stream,
            at: 0,
            fails,
            calls: 0,
            faults: 0,
        }
    }

    /// How many bytes are left.
    pub fn left(&self) -> usize
        ensures { result ≡ length self.now.left }
    {
        self.bytes.len() - self.at
    }

    /// How often it has failed.
    pub fn faults(&self) -> u64
        ensures { result ≡ self.now.faults }
    {
        self.faults
    }
}

impl Entropy for MemEntropy {
    ghost state = { λ s. told_entropy s };

    fn fill(&mut self, out: &mut [u8]) -> Result<(), Failed>
        ensures fills { OnOk result (Drew (told_entropy self.old) (told_entropy self.new) out.new) }
        ensures no_fault { OnOk result (Stood self.old.faults self.new.faults) }
        ensures failed { OnErr result
            (RanShort (told_entropy self.old) (told_entropy self.new) (length out.old)) }
        ensures once { OnErr result (RoseOnce self.old.faults self.new.faults) }

        // Exactly when it fails, and which bytes it gives.
        ensures listed { IsErr result ↔
            (Contains self.old.fails (next self.old.calls) ⊎
            (length self.old.left < length out.old)) }
        ensures bytes { OnOk result (out.new ≡ take (length out.old) self.old.left) }
        ensures faultless { OnOk result
            (self.new ≡ record self.old
            { left = drop (length out.old) self.old.left; calls = next self.old.calls }) }
        ensures faulty { OnErr result
            (self.new ≡ record self.old
            { calls = next self.old.calls; faults = next self.old.faults }) }
    {
        self.calls = self.calls.saturating_add(1);
        if self.fails.contains(&self.calls) || self.left() < out.len() {
            self.faults = self.faults.saturating_add(1);
            return Err(Failed);
        }
        out.copy_from_slice(&self.bytes[self.at..self.at + out.len()]);
        self.at += out.len();
        Ok(())
    }
}
