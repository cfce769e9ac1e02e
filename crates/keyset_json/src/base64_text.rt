//! Bytes as text: base64 (RFC 4648, sections 4 and 5).

ghost use Rattle.std.specs.Prelude.{◌≡◌, ℕ, List, IfOk};
ghost use Rattle.base64.specs.GeneralPurpose.{decoded_of, IsStrict};
ghost use Rattle.keyset_json.specs.Base64Text.{bytes_of_text, IsEncoding, IsEncodingBy};

use base64::DecodeAllocError;
use base64::engine::general_purpose::{
    GeneralPurpose, STANDARD, STANDARD_NO_PAD, URL_SAFE, URL_SAFE_NO_PAD,
};
use std::alloc::Global;
use tink_base::{Bytes, NoMemory};

/// Decodes base64 (RFC 4648, sections 4 and 5): in the standard alphabet or the one for URLs and
/// file names, with all of its padding or none.
///
/// `None` comes if and only if the text is no such encoding: if it has another character, or
/// characters of both alphabets, if its length or padding is wrong, or if bits after the last byte
/// aren't 0.
pub fn read_bytes(alloc: Global, text: &str) -> Result<Option<Bytes>, NoMemory>
    ensures value { IfOk result (λ bytes. bytes ≡ bytes_of_text text.now) }
    ensures encoding { IfOk result (λ bytes. IsEncoding text.now bytes) }
{
    if let Some(bytes) = decoded(alloc, &STANDARD, text)? {
        return Ok(Some(bytes));
    }
    if let Some(bytes) = decoded(alloc, &STANDARD_NO_PAD, text)? {
        return Ok(Some(bytes));
    }
    if let Some(bytes) = decoded(alloc, &URL_SAFE, text)? {
        return Ok(Some(bytes));
    }
    decoded(alloc, &URL_SAFE_NO_PAD, text)
}

/// What one engine decodes.
fn decoded(alloc: Global, engine: &GeneralPurpose, text: &str) -> Result<Option<Bytes>, NoMemory>
    ensures value { IfOk result (λ bytes. bytes ≡ decoded_of engine.now text.now) }
    ensures strict { IsStrict engine.now
        → IfOk result (λ bytes. IsEncodingBy engine.now text.now bytes) }
{
    match engine.decode(alloc, text.as_bytes()) {
        Ok(bytes) => Ok(Some(Bytes::own(bytes))),
        Err(DecodeAllocError::DecodeError(_)) => Ok(None),
        Err(DecodeAllocError::OutOfMemory) => Err(NoMemory),
    }
}
