//! The two ways in which an outside call fails.

ghost use Rattle.std.specs.Prelude.{◌≡◌};
ghost use Rattle.tink_base.specs.declared.faults.NoMemory.{NoMemory};

use std::alloc::{AllocError, AllocFailed};

/// An outside object failed, and its count of faults has risen.
#[derive(Clone, Copy, Debug, PartialEq, Eq)]
pub struct Failed;

/// Memory couldn't be allocated.
#[derive(Clone, Copy, Debug, PartialEq, Eq)]
pub struct NoMemory;

impl From<AllocError> for NoMemory {
    fn from(_error: AllocError) -> NoMemory {
        NoMemory
    }
}

impl<T: Drop> From<AllocFailed<T>> for NoMemory {
    fn from(_error: AllocFailed<T>) -> NoMemory {
        NoMemory
    }
}
