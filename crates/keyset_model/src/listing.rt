//! The listing of a keyset, without key material.

ghost use Rattle.std.specs.Prelude.{◌≡◌, ◌≤◌, ◌++◌, IfOk, OnOk};
ghost use Rattle.std.specs.Fmt.{decimal};
ghost use Rattle.keyset_model.specs.Keyset.{IsKnown};
ghost use Rattle.keyset_model.specs.Listing.{status_text, prefix_text, escaped_byte, escaped, record_lines, info_of};

use crate::{Keyset, Record};
use itoa::Buffer;
use std::alloc::Global;
use tink_base::{CRUNCHY, DESTROYED, DISABLED, ENABLED, LEGACY, NoMemory, RAW, TINK};

/// The name of a status, 1 to 3 (tink.proto, KeyStatusType).
#[tactic(auto, unfolding(crate::specs::Listing::status_text))]
pub fn status_name(status: u32) -> &'static str
    requires least { 1 ≤ status }
    requires most { status ≤ 3 }
    ensures { result.now ≡ status_text status }
{
    match status {
        ENABLED => "ENABLED",
        DISABLED => "DISABLED",
        DESTROYED => "DESTROYED",
        _ => unreachable!(),
    }
}

/// The name of an output prefix type, 1 to 4 (tink.proto, OutputPrefixType).
#[tactic(auto, unfolding(crate::specs::Listing::prefix_text))]
pub fn prefix_name(prefix: u32) -> &'static str
    requires least { 1 ≤ prefix }
    requires most { prefix ≤ 4 }
    ensures { result.now ≡ prefix_text prefix }
{
    match prefix {
        TINK => "TINK",
        LEGACY => "LEGACY",
        RAW => "RAW",
        CRUNCHY => "CRUNCHY",
        _ => unreachable!(),
    }
}

/// The listing of a keyset: a line for its primary id, and six lines for each record.
pub fn info_text(alloc: Global, keyset: &Keyset) -> Result<Vec<u8>, NoMemory>
    ensures { IfOk result (λ text. text.items ≡ info_of keyset.now) }
{
    let mut text = Vec::from_slice(alloc, b"primary_key_id: ")?;
    push_number(&mut text, keyset.primary())?;
    text.push(b'\n')?;
    for i in 0..keyset.len() {
        push_record(&mut text, keyset.record_at(i))?;
    }
    Ok(text)
}

/// Adds the six lines of a record.
fn push_record(out: &mut Vec<u8>, key: &Record) -> Result<(), NoMemory>
    requires known { IsKnown key.now }
    ensures { OnOk result (out.new.items ≡ out.old.items ++ record_lines key.now) }
{
    out.extend_from_slice(b"key_info {\n  type_url: \"")?;
    push_escaped(out, key.url.as_str().as_bytes())?;
    out.extend_from_slice(b"\"\n  status: ")?;
    out.extend_from_slice(status_name(key.status).as_bytes())?;
    out.extend_from_slice(b"\n  key_id: ")?;
    push_number(out, key.id)?;
    out.extend_from_slice(b"\n  output_prefix_type: ")?;
    out.extend_from_slice(prefix_name(key.prefix).as_bytes())?;
    out.extend_from_slice(b"\n}\n")?;
    Ok(())
}

/// Adds a number in decimal.
fn push_number(out: &mut Vec<u8>, number: u32) -> Result<(), NoMemory>
    ensures { OnOk result (out.new.items ≡ out.old.items ++ decimal number) }
{
    let mut digits = Buffer::new();
    out.extend_from_slice(digits.format(number).as_bytes())?;
    Ok(())
}

/// Adds text escaped for quotes.
fn push_escaped(out: &mut Vec<u8>, text: &[u8]) -> Result<(), NoMemory>
    ensures { OnOk result (out.new.items ≡ out.old.items ++ escaped text.now) }
{
    for byte in text {
        push_escaped_byte(out, *byte)?;
    }
    Ok(())
}

/// Adds a byte escaped for quotes.
fn push_escaped_byte(out: &mut Vec<u8>, byte: u8) -> Result<(), NoMemory>
    ensures { OnOk result (out.new.items ≡ out.old.items ++ escaped_byte byte) }
{
    match byte {
        b'"' | b'\\' => out.extend_from_slice(&[b'\\', byte])?,
        b' '..=b'~' => out.push(byte)?,
        _ => {
            let octal = [b'0' + byte / 64, b'0' + byte / 8 % 8, b'0' + byte % 8];
            out.push(b'\\')?;
            out.extend_from_slice(&octal)?;
        }
    }
    Ok(())
}
