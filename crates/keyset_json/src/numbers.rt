//! 32-bit numbers in JSON.

ghost use Rattle.std.specs.Prelude.{◌≡◌};
ghost use Rattle.serde_json.specs.View.{view, number_view};
ghost use Rattle.keyset_json.specs.Numbers.{number_of_num, uint32_of};

use serde_json::{Number, Value};
use tink_base::number_in;

/// A 32-bit number, or a text of 1 to 10 digits of one.
pub fn read_uint32(value: &Value) -> Option<u32>
    ensures { result ≡ uint32_of (view value.now) }
{
    match value {
        Value::Number(number) => read_number(number),
        Value::String(text) => number_in(text.as_str()),
        _ => None,
    }
}

/// A 32-bit number written only in digits.
pub fn read_number(number: &Number) -> Option<u32>
    ensures { result ≡ number_of_num (number_view number.now) }
{
    match number.as_u64() {
        Some(n) => if n <= u32::MAX as u64 {
            Some(n as u32)
        } else {
            None
        },
        None => None,
    }
}
