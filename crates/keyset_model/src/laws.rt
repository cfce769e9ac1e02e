//! Laws of the definitions. Each is the contract of a function with no effect.

ghost use Rattle.keyset_model.specs.WellFormed.{FaultlessKeysets};
ghost use Rattle.keyset_model.specs.Writing.{BinaryBack, ReadKeysFit, ReadWithin};

/// Records have no fault if and only if there are 1 to 1,000, each is known and has its key data,
/// and exactly one is ENABLED and has the primary id.
pub fn faultless_keysets()
    ensures { FaultlessKeysets }
{}

/// The binary form of keys without a fault reads back to them, if ids are below 2^32, URLs are
/// UTF-8, and URL and value of each record have at most 2^32 bytes together.
pub fn binary_back()
    ensures { BinaryBack }
{}

/// Keys read from at most 2^32 bytes have no fault and meet the bounds of `binary_back`, so their
/// written form reads back.
pub fn read_keysets_fit()
    ensures { ReadKeysFit }
{}

/// URL and value of each record that is read together have no more bytes than the source.
pub fn read_within_source()
    ensures { ReadWithin }
{}
