//! Bytes that are kept until there is room for them.

ghost use Rattle.std.specs.Prelude.{◌≡◌, ◌<◌, ◌≤◌, [], length, take, IfOk, OnOk, OnErr};
ghost use Rattle.tink_spec.specs.Outside.{Rose, RoseOnce, Stood, Took};
ghost use Rattle.ready_keysets.specs.Keeping.{Gives, told_kept};

use crate::StepFault;
use std::alloc::Global;
use tink_base::{Failed, Sink};

/// A sink that keeps what is written until it is given. It fails only if memory can't be allocated.
#[derive(Drop)]
pub struct Kept {
    bytes: Vec<u8>,
    faults: u64,
}

impl Sink for Kept {
    ghost state = { λ s. told_kept s };

    fn write(&mut self, piece: &[u8]) -> Result<usize, Failed>
        ensures bound { IfOk result (λ n. n ≤ length piece.now) }
        ensures some { IfOk result (λ n. 0 < length piece.now → 0 < n) }
        ensures takes { IfOk result (λ n.
            Took (told_kept self.old) (told_kept self.new) (take n piece.now)) }
        ensures no_fault { OnOk result (Stood self.old.faults self.new.faults) }
        ensures failed { OnErr result (Rose self.old.faults self.new.faults) }
        ensures once { OnErr result (RoseOnce self.old.faults self.new.faults) }
        ensures kept { OnErr result (Took (told_kept self.old) (told_kept self.new) []) }
    {
        match self.bytes.extend_from_slice(piece) {
            Ok(()) => Ok(piece.len()),
            Err(_) => {
                self.faults = self.faults.saturating_add(1);
                Err(Failed)
            }
        }
    }
}

impl Kept {
    /// Keeps nothing yet.
    pub(crate) fn new(alloc: Global) -> Kept
        ensures { result.bytes.items ≡ [] }
    {
        Kept {
            bytes: Vec::new(alloc),
            faults: 0,
        }
    }

    /// How many bytes are kept.
    pub(crate) fn len(&self) -> usize
        ensures { result ≡ length self.now.bytes.items }
    {
        self.bytes.len()
    }

    /// Gives all that is kept to the front of `out`. If there is less room, it stays kept.
    pub(crate) fn give(&mut self, out: &mut [u8]) -> Result<usize, StepFault>
        ensures gives { Gives self.old self.new out.old out.new result }
        ensures kept { OnErr result (out.new ≡ out.old) }
    {
        let size = self.bytes.len();
        if out.len() < size {
            return Err(StepFault::NoRoom);
        }
        out[..size].copy_from_slice(&self.bytes);
        self.bytes.clear();
        Ok(size)
    }
}
