//! One field, and the errors of reading fields.

ghost use Rattle.std.specs.Prelude.{◌≡◌};

use tink_base::NoMemory;

/// The kind of a payload, by its wire type.
#[derive(Clone, Copy, Debug, PartialEq, Eq)]
pub enum Kind {
    /// A varint: wire type 0.
    Varint,
    /// Eight bytes: wire type 1.
    Eight,
    /// Bytes of any length: wire type 2.
    Bytes,
    /// Four bytes: wire type 5.
    Four,
}

/// A field of a part of `source`, the slice that it was cut from.
#[derive(Clone, Copy, Debug, PartialEq, Eq)]
pub struct Field {
    /// The field number, 1 to 2^29 - 1.
    pub number: u32,
    /// The kind of the payload.
    pub kind: Kind,
    /// The value of a varint, 0 for any other kind.
    pub value: u64,
    /// The place in `source` of the tag's first byte.
    pub at: usize,
    /// The place in `source` of the first byte of a `Bytes` payload, 0 for any other kind.
    pub start: usize,
    /// The place in `source` after the last byte of a `Bytes` payload, 0 for any other kind.
    pub end: usize,
}

/// A field at fault: it can't be cut, or isn't of the kind asked for.
#[derive(Clone, Copy, Debug, PartialEq, Eq)]
pub struct Wire {
    /// The place in the source of the tag's first byte.
    pub at: usize,
}

/// Why there are no fields.
#[derive(Clone, Copy, Debug, PartialEq, Eq)]
pub enum FieldsError {
    /// The first field at fault.
    Wire(Wire),
    /// Memory couldn't be allocated.
    NoMemory,
}

impl From<NoMemory> for FieldsError {
    ghost use Rattle.proto_wire.specs.declared.field.FieldsError.{FieldsError};

    ghost from_gives = { λ _ error. error ≡ FieldsError.NoMemory };

    fn from(_error: NoMemory) -> FieldsError {
        FieldsError::NoMemory
    }
}
