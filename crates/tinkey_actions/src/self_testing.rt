//! selftest: the outcomes of session lines made from a number.

ghost use Rattle.std.specs.Prelude.{◌≡◌, IfOk, IfErr};
ghost use Rattle.tinkey_selftest.specs.Telling.{counts_text};
ghost use Rattle.tinkey_plans.specs.Ends.{World};
ghost use Rattle.tinkey_plans.specs.SelfTesting.{self_test_output};
ghost use Rattle.tinkey_plans.specs.Steps.{Passes};
ghost use Rattle.tinkey_plans.specs.declared.status.Status.TheVariants as status;

use managers::{KeyTable, Managers};
use std::alloc::Global;
use tink_base::Bytes;
use tinkey_plans::Status;
use tinkey_selftest::{Counts, counts_text, self_test};

/// selftest: the line of its counts.
#[inline(never)]
pub fn tell_self_test(
    alloc: Global,
    managers: &Managers,
    seed: u32,
    lines: u32,
) -> Result<Bytes, Status>
    ensures { (w : World) → Passes
        (self_test_output (⟦<Managers as KeyTable>⟧.table managers.now) seed lines) w result w }
{
    let counts = self_test(alloc, managers, seed, lines)?;
    tell_counts(alloc, lines, counts)
}

/// The line of the counts.
fn tell_counts(alloc: Global, lines: u32, counts: Counts) -> Result<Bytes, Status>
    ensures line { IfOk result (λ line. line ≡ counts_text lines counts) }
    ensures no_memory { IfErr result (λ s. s ≡ status.NoMemory) }
{
    match counts_text(alloc, lines, counts) {
        Ok(line) => Ok(Bytes::own(line)),
        Err(_) => Err(Status::NoMemory),
    }
}
