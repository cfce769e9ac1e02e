//! Laws of the definitions. Each is the contract of a function with no effect.

ghost use Rattle.keyset_json.specs.Stored.{JsonIsShort, JsonIsStored};
ghost use Rattle.keyset_json.specs.Writing.{JsonBack};

/// The JSON form of keys without a fault reads back to them, if record ids are below 2^32, URLs are
/// UTF-8 and values are bytes, of any length. The primary id is a record's.
pub fn json_back()
    ensures { JsonBack }
{}

/// A keyset read from JSON has no fault and meets the bounds of the record's types: its ids are
/// below 2^32, its URLs are UTF-8 and its values bytes. Its records are short enough to be written
/// in the binary form if the source has at most 2^29 bytes.
pub fn json_is_stored()
    ensures stored { JsonIsStored }
    ensures short { JsonIsShort }
{}
