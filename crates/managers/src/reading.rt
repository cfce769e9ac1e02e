//! Key messages, read as one key type.

ghost use Rattle.std.specs.Prelude.{IfOk};
ghost use Rattle.key_msgs.specs.Reading.{key_of};
ghost use Rattle.managers.specs.Schemes.{IsOfType, IsReading};

use crate::{CheckFault, Prepared};
use key_msgs::{KeyFault, KeyType, read_key};
use std::alloc::Global;

/// Reads a key message of this type, and prepares the key. A manager's own URL may be any text, so
/// the message is read under the URL of the type.
pub(crate) fn read_as(
    alloc: Global,
    key_type: KeyType,
    value: &[u8],
) -> Result<Prepared, CheckFault>
    ensures reading { IsReading (key_of key_type value.now) result }
    ensures admitted { IfOk result (IsOfType key_type) }
{
    match read_key(alloc, key_type.url(), value) {
        Ok(key) => Ok(Prepared::new(key)),
        Err(KeyFault::Bad(rule)) => Err(CheckFault::Bad(rule)),
        Err(KeyFault::NoMemory) => Err(CheckFault::NoMemory),
        Err(KeyFault::NotKnown) => unreachable!(),
    }
}
