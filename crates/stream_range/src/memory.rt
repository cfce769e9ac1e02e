//! A device in memory, which fails exactly at the calls it is told to fail.

ghost use Rattle.std.specs.Prelude.{◌≡◌, ◌↔◌, ℕ, ◌+◌, ◌<◌, ◌≤◌, ◌^◌, min, length, drop, IfOk, OnOk, OnErr, IsErr, Contains};
ghost use Rattle.tink_base.specs.Store.{given_by_read};
ghost use Rattle.tink_spec.specs.Outside.{Rose, RoseOnce, Stood, next};
ghost use Rattle.stream_range.specs.Device.{KeptDevice, ReadsSome, TellsSize};
ghost use Rattle.stream_range.specs.Memory.{told_device};

use crate::Device;
use std::marker::Model;
use tink_base::Failed;

/// A device over bytes in memory. Contracts see a `DeviceInMemory`.
#[derive(Drop)]
pub struct MemDevice {
    bytes: Vec<u8>,
    piece: usize,
    fails: Vec<u64>,
    calls: u64,
    faults: u64,
    given: u64,
}

impl Model for MemDevice {
    ghost use Rattle.std.specs.Prelude.{◌<◌};
    ghost use Rattle.stream_range.specs.Memory.{DeviceInMemory};

    ghost Value = { DeviceInMemory };

    ghost view = { λ s. record { bytes = s.bytes.items; piece = s.piece; fails = s.fails.items; calls = s.calls; faults = s.faults; given = s.given } };

    ghost invariant = { λ s. 0 < s.piece };
}

impl MemDevice {
    /// A device of these bytes. A read gives at most `piece` bytes, at least 1. A call of `read_at`
    /// fails if and only if its number, counted from 1, is in `fails`.
    pub fn new(bytes: Vec<u8>, piece: usize, fails: Vec<u64>) -> MemDevice
        requires piece_bound { 0 < piece }
        ensures { result ≡ record {
          bytes = bytes.items;
          piece = piece;
          fails = fails.items;
          calls = 0;
          faults = 0;
          given = 0;
        } }
    {
        MemDevice {
            bytes,
            piece,
            fails,
            calls: 0,
            faults: 0,
            given: 0,
        }
    }

    /// How often it has failed.
    pub fn faults(&self) -> u64
        ensures { result ≡ self.now.faults }
    {
        self.faults
    }

    /// How many bytes it has read.
    pub fn given(&self) -> u64
        ensures { result ≡ self.now.given }
    {
        self.given
    }
}

impl Device for MemDevice {
    ghost state = { λ s. told_device s };

    ghost lent = { λ s. 0 };

    fn size(&self) -> u64
        ensures size { result ≡ length self.now.bytes }
        ensures bound { result < 2 ^ 63 }
        ensures told { TellsSize (told_device self.now) }
    {
        self.bytes.len() as u64
    }

    fn read_at(&mut self, at: u64, out: &mut [u8]) -> Result<usize, Failed>
        requires some { 0 < length out.old }
        requires within { at + length out.old ≤ length self.old.bytes }
        ensures reads { IfOk result (λ n. ReadsSome (told_device self.old) at out.new n) }
        ensures rest { IfOk result (λ n. drop n out.new ≡ drop n out.old) }
        ensures kept { KeptDevice (told_device self.old) (told_device self.new) }
        ensures lent { ◌≡◌ {A = ℕ} 0 0 }
        ensures no_fault { OnOk result (Stood self.old.faults self.new.faults) }
        ensures failed { OnErr result (Rose self.old.faults self.new.faults) }
        ensures once { OnErr result (RoseOnce self.old.faults self.new.faults) }
        ensures given { self.new.given ≡ given_by_read self.old.given result }

        // Exactly when it fails, and how many bytes it gives.
        ensures listed { IsErr result ↔ Contains self.old.fails (next self.old.calls) }
        ensures piece { IfOk result (λ n. n ≡ min (length out.old) self.old.piece) }
        ensures faultless { OnOk result (self.new ≡
            record self.old { calls = next self.old.calls; given = self.new.given }) }
        ensures faulty { OnErr result (self.new ≡
            record self.old { calls = next self.old.calls; faults = next self.old.faults }) }
    {
        self.calls = self.calls.saturating_add(1);
        if self.fails.contains(&self.calls) {
            self.faults = self.faults.saturating_add(1);
            return Err(Failed);
        }
        let n = out.len().min(self.piece);
        let from = at as usize;
        out[..n].copy_from_slice(&self.bytes[from..from + n]);
        self.given = self.given.saturating_add(n as u64);
        Ok(n)
    }
}
