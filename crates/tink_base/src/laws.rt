//! Laws of the numbers of Tink's keyset format. Each is the contract of a function with no effect.

ghost use Rattle.tink_base.specs.Numbers.{NumbersHaveTheirNames};

/// Each constant of a status or an output prefix type is the number of its name in tink.proto.
pub fn numbers_have_their_names()
    ensures { NumbersHaveTheirNames }
{}
