//! Shared code of the exports for streams.

ghost use Rattle.std.specs.Prelude.{◌≡◌, ◌≢◌, pos, Some, None, IfErr, IfOk};
ghost use Rattle.ready_keysets.specs.declared.step.StepFault.TheVariants as steps;
ghost use Rattle.tinkey_c.specs.Streams.{TellsStep, number_of};

use crate::shared_stream::{SharedStream, kept};
use raw_boxes::RawBox;
use ready_keysets::{StepFault, StreamObject};
use std::alloc::Global;

/// The status of a fault of a stream.
pub(crate) fn step_status(fault: StepFault) -> i32
    ensures number { result ≡ pos (number_of fault) }
    ensures some { result ≢ pos 0 }
{
    match fault {
        StepFault::Refused => 1,
        StepFault::NoRoom => 5,
        StepFault::TooManySegments => 6,
        StepFault::FewRandomBytes => 7,
        StepFault::NoMemory => 8,
        StepFault::Ended => 14,
    }
}

/// Stores keys for streams, or a stream, where C keeps them.
pub(crate) fn keep(
    alloc: Global,
    object: StreamObject,
    place: &mut SharedStream,
) -> Result<(), StepFault>
    requires closed { place.old.held ≡ None }
    ensures kept { IfOk result (λ _. place.new.held ≡ Some object) }
    ensures none { IfErr result (λ fault. (fault ≡ steps.NoMemory) × (place.new.held ≡ None)) }
{
    match Box::new(alloc, object) {
        Ok(whole) => {
            *place = kept(RawBox::of(whole));
            Ok(())
        }
        Err(_) => Err(StepFault::NoMemory),
    }
}

/// Reports the outcome of a step: its status, and the size if something was given.
pub(crate) fn tell_step(done: Result<usize, StepFault>, size: &mut usize) -> i32
    ensures told { TellsStep done result size.old size.new }
{
    match done {
        Ok(count) => {
            *size = count;
            0
        }
        Err(fault) => step_status(fault),
    }
}
