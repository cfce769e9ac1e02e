//! An entropy over bytes that were drawn before.

ghost use Rattle.std.specs.Prelude.{◌≡◌, ◌<◌, ◌↔◌, length, take, drop, IsErr, OnOk, OnErr};
ghost use Rattle.tink_spec.specs.Outside.{Drew, RanShort, RoseOnce, Stood, next};
ghost use Rattle.tink_base.specs.Drawn.{told_drawn};

use crate::{Entropy, Failed};
use std::marker::Model;

/// An entropy over a borrowed slice; contracts see a `DrawnBytes`. It fails only if fewer bytes are left
/// than asked for.
#[derive(Drop)]
pub struct Drawn<'a> {
    bytes: &'a [u8],
    faults: u64,
}

impl<'a> Model for Drawn<'a> {
    ghost use Rattle.tink_base.specs.Drawn.{DrawnBytes};

    ghost Value = { DrawnBytes };

    ghost view = { λ s. record { left = s.bytes.now; faults = s.faults } };
}

impl<'a> Drawn<'a> {
    /// An entropy over these bytes.
    pub fn new(bytes: &'a [u8]) -> Drawn<'a>
        ensures { result ≡ record { left = bytes.now; faults = 0 } }
    {
        Drawn { bytes, faults: 0 }
    }

    /// How many bytes are left.
    pub fn left(&self) -> usize
        ensures { result ≡ length self.now.left }
    {
        self.bytes.len()
    }
}

impl Entropy for Drawn<'_> {
    ghost state = { λ s. told_drawn s };

    fn fill(&mut self, out: &mut [u8]) -> Result<(), Failed>
        ensures fills { OnOk result (Drew (told_drawn self.old) (told_drawn self.new) out.new) }
        ensures no_fault { OnOk result (Stood self.old.faults self.new.faults) }
        ensures failed { OnErr result
            (RanShort (told_drawn self.old) (told_drawn self.new) (length out.old)) }
        ensures once { OnErr result (RoseOnce self.old.faults self.new.faults) }

        // Exactly when it fails, and which bytes it gives.
        ensures short { IsErr result ↔ (length self.old.left < length out.old) }
        ensures bytes { OnOk result (out.new ≡ take (length out.old) self.old.left) }
        ensures faultless { OnOk result
            (self.new ≡ record self.old { left = drop (length out.old) self.old.left }) }
        ensures faulty { OnErr result
            (self.new ≡ record self.old { faults = next self.old.faults }) }
    {
        if self.bytes.len() < out.len() {
            self.faults = self.faults.saturating_add(1);
            return Err(Failed);
        }
        let (given, rest) = self.bytes.split_at(out.len());
        out.copy_from_slice(given);
        self.bytes = rest;
        Ok(())
    }
}
