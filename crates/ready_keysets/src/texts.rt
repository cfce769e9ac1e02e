//! Keysets made ready from their texts.

ghost use Rattle.std.specs.Prelude.{◌≡◌, ◌≢◌, length, IfOk, IfErr};
ghost use Rattle.key_msgs.specs.declared.primitive.Primitive.TheVariants.{Stream};
ghost use Rattle.keyset_json.specs.Reading.{reads_json};
ghost use Rattle.keyset_model.specs.Reading.{reads_binary};
ghost use Rattle.ready_keysets.specs.Texts.{IsNoKeyset, IsOf};

use crate::work::LIMIT;
use crate::{ReadyKeyset, Refusal};
use key_msgs::Primitive;
use keyset_json::{JsonError, read_json};
use keyset_model::{ReadError, read_binary};
use std::alloc::Global;

impl ReadyKeyset {
    /// Makes the keyset in a JSON text ready for a primitive, which isn't Stream.
    ///
    /// `TooLong` comes only if the text has more than 2^30 bytes, `NoKeyset` only if it is no
    /// keyset, and `UnfitKey` only if an ENABLED key of the keyset can't serve.
    pub fn of_json(alloc: Global, text: &[u8], primitive: Primitive) -> Result<ReadyKeyset, Refusal>
        requires no_stream { primitive ≢ Stream }
        ensures made { IfOk result (IsOf primitive (reads_json text.now)) }
        ensures none { IfErr result (IsNoKeyset primitive (length text.now) (reads_json text.now)) }
    {
        if text.len() > LIMIT {
            return Err(Refusal::TooLong);
        }
        match read_json(alloc, text) {
            Ok(keyset) => ReadyKeyset::new(alloc, keyset, primitive),
            Err(JsonError::NoMemory) => Err(Refusal::NoMemory),
            Err(_) => Err(Refusal::NoKeyset),
        }
    }

    /// Makes the keyset with this binary form ready, as `of_json` does.
    pub fn of_binary(
        alloc: Global,
        bytes: &[u8],
        primitive: Primitive,
    ) -> Result<ReadyKeyset, Refusal>
        requires no_stream { primitive ≢ Stream }
        ensures made { IfOk result (IsOf primitive (reads_binary bytes.now)) }
        ensures none { IfErr result
            (IsNoKeyset primitive (length bytes.now) (reads_binary bytes.now)) }
    {
        if bytes.len() > LIMIT {
            return Err(Refusal::TooLong);
        }
        match read_binary(alloc, bytes) {
            Ok(keyset) => ReadyKeyset::new(alloc, keyset, primitive),
            Err(ReadError::NoMemory) => Err(Refusal::NoMemory),
            Err(_) => Err(Refusal::NoKeyset),
        }
    }
}
