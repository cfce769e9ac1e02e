//! The self-test.

ghost use Rattle.std.specs.Prelude.{◌≡◌, ◌≤◌, ◌+◌, length, true, Some, Ok, Err, IfOk, OnOk};
ghost use Rattle.std.specs.List.{AllByRecursion};
ghost use Rattle.keyset_model.specs.Keyset.{IsShort};
ghost use Rattle.tink_base.specs.Memory.{told_entropy};
ghost use Rattle.tinkey_cmds.specs.Edits.{first};
ghost use Rattle.tinkey_selftest.specs.Ready.{IsFirst, Tests};
ghost use Rattle.tinkey_selftest.specs.Trial.{first_row, self_test};

use crate::Counts;
use crate::numbers::{line_generator, next_words, random_bytes};
use crate::trial::Trial;
use key_msgs::template_at;
use keyset_model::Keyset;
use managers::{KeyTable, Managers};
use std::alloc::Global;
use tink_base::{MemEntropy, NoMemory};
use tinkey_cmds::{EditError, EditRefusal, create};
use tinkey_session::Session;

/// The most random bytes that a line or the first keyset draws: 64 ids of four bytes, and a key of
/// 64 bytes.
const MOST_DRAWN: usize = 320;

/// Why there is no self-test.
#[derive(Clone, Copy, Debug, PartialEq, Eq)]
pub enum SelfTestFault {
    /// There is no first keyset.
    Refused(EditRefusal),
    /// Memory couldn't be allocated.
    NoMemory,
}

impl From<NoMemory> for SelfTestFault {
    ghost use Rattle.tinkey_selftest.specs.declared.selftest.SelfTestFault.TheVariants as faults;

    ghost from_gives = { λ _ fault. fault ≡ faults.NoMemory };

    fn from(_error: NoMemory) -> SelfTestFault {
        SelfTestFault::NoMemory
    }
}

/// The first keyset.
fn first_keyset(alloc: Global, entropy: &mut MemEntropy) -> Result<Keyset, SelfTestFault>
    requires steady { (told_entropy entropy.old).steady ≡ true }
    requires enough { 320 ≤ length entropy.old.left }
    ensures first { IsFirst (first first_row) result entropy.old entropy.new }
    ensures short { IfOk result (λ keyset. AllByRecursion IsShort keyset.records) }
{
    let Some(template) = template_at(0) else {
        unreachable!()
    };
    match create(alloc, &template, entropy) {
        Ok(keyset) => Ok(keyset),
        Err(EditError::Refused(fault)) => Err(SelfTestFault::Refused(fault)),
        Err(EditError::NoMemory) => Err(SelfTestFault::NoMemory),
        Err(EditError::EntropyFault) => unreachable!(),
    }
}

/// Makes `lines` session lines from a number, and counts their outcomes.
///
/// The lines, and the random bytes that they draw, are the same each time. The keyset begins with
/// one key of AES128_GCM. `Refused` comes if and only if there is no such keyset, and holds
/// `IdsExhausted`. Under the standard managers no open is lost (`laws`). Memory is taken for all
/// random bytes at the start, 320 for each line, and for the seals that are accepted.
pub fn self_test(
    alloc: Global,
    managers: &Managers,
    seed: u32,
    lines: u32,
) -> Result<Counts, SelfTestFault>
    ensures { Tests (self_test (⟦<Managers as KeyTable>⟧.table managers.now) seed lines) result }
{
    let random = random_bytes(alloc, seed, MOST_DRAWN * (lines as usize + 1))?;
    let mut entropy = MemEntropy::new(random, Vec::new(alloc));
    let keyset = first_keyset(alloc, &mut entropy)?;
    let mut trial = Trial {
        session: Session::new(keyset, managers),
        entropy,
        sealings: Vec::new(alloc),
        counts: Counts::none_yet(),
    };
    let mut generator = line_generator(seed);
    for _line in 0..lines {
        let words = next_words(&mut generator);
        trial.run_line(alloc, words)?;
    }
    Ok(trial.counts)
}
