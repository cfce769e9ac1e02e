//! The work that a keyset does.

ghost use Rattle.std.specs.Bool.{OnFalse, OnTrue};
ghost use Rattle.std.specs.Prelude.{◌≡◌};
ghost use Rattle.ready_keysets.specs.Working.{IsTooLong, IsWithin, primitive_of};

use key_msgs::Primitive;

/// The most bytes of a text and of each input.
pub(crate) const LIMIT: usize = 1 << 30;

/// A piece of work for the keys of a keyset.
#[derive(Clone, Copy)]
pub enum Work<'a> {
    /// Seal a plaintext with associated data, and with the first of these random bytes as IV.
    Seal(&'a [u8], &'a [u8], &'a [u8]),
    /// Open sealed bytes with associated data.
    Open(&'a [u8], &'a [u8]),
    /// Seal a plaintext with associated data, without an IV.
    Dseal(&'a [u8], &'a [u8]),
    /// Open, with associated data, bytes sealed without an IV.
    Dopen(&'a [u8], &'a [u8]),
    /// Tag a body.
    Tag(&'a [u8]),
    /// Verify this tag, of this body. The answer has no bytes.
    Verify(&'a [u8], &'a [u8]),
    /// Derive this many bytes from an input.
    Derive(&'a [u8], usize),
}

impl Work<'_> {
    /// The primitive whose keys do the work. No memory is taken.
    pub fn primitive(&self) -> Primitive
        ensures { result ≡ primitive_of self.now }
    {
        match self {
            Work::Seal(..) | Work::Open(..) => Primitive::Aead,
            Work::Dseal(..) | Work::Dopen(..) => Primitive::Daead,
            Work::Tag(_) | Work::Verify(..) => Primitive::Mac,
            Work::Derive(..) => Primitive::Prf,
        }
    }

    /// Whether an input has more bytes than can be taken. No memory is taken.
    pub(crate) fn is_too_long(&self) -> bool
        ensures too_long { OnTrue result (IsTooLong self.now) }
        ensures within { OnFalse result (IsWithin self.now) }
    {
        match self {
            Work::Seal(first, second, _)
            | Work::Open(first, second)
            | Work::Dseal(first, second)
            | Work::Dopen(first, second) => first.len() > LIMIT || second.len() > LIMIT,
            Work::Tag(body) | Work::Verify(_, body) => body.len() > LIMIT,
            Work::Derive(input, _) => input.len() > LIMIT,
        }
    }
}
