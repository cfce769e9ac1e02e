//! A box taken apart into the pointer to its memory and its allocator, and put together again, so
//! that a struct that C holds can own the memory.
#![tactic(auto)]

ghost use Rattle.std.specs.Prelude.{◌≡◌};
ghost use Rattle.std_alloc.specs.Box.Ownership.{box_owns};

use std::alloc::Allocator;
use std::marker::Model;

/// The parts of a box, which together own its memory and its value.
pub struct RawBox<T, A: Allocator> {
    pub at: *mut T,
    pub alloc: A,
    pub ghost value: { T },
}

impl<T, A: Allocator> Model for RawBox<T, A> {
    ghost also_owns = { λ raw. box_owns (A.dealloc_token raw.alloc) T.row raw.at raw.value };
}

impl<T: Drop, A: Allocator> RawBox<T, A> {
    /// The parts of this box. No memory is taken.
    pub fn of(whole: Box<T, A>) -> RawBox<T, A>
        ensures { result.value ≡ whole.value }
    {
        let (at, alloc) = Box::into_raw_with_allocator(whole);
        RawBox { at, alloc }
    }

    /// The box of these parts. No memory is taken.
    pub fn into_box(self) -> Box<T, A>
        ensures { result.value ≡ self.value }
    {
        let RawBox { at, alloc } = self;
        unsafe { Box::from_raw(alloc, at) }
    }
}
