//! key-of: the keys of a keyset under whose output prefix the input stands, for which nothing is
//! opened; and the one under which it is opened as a stream (`stream_key.rt`).

ghost use Rattle.std.specs.Prelude.{◌≡◌, ◌+◌, ◌≤◌, ◌∷◌, ◌++◌, [], List, ℕ, IfOk, OnErr, OnOk, codes, drop, if◌then◌else◌, length, take};
ghost use Rattle.std.specs.Fmt.{decimal};
ghost use Rattle.std.specs.Int.{to_be_bytes, w32};
ghost use Rattle.std.specs.List.{flat_map, list_any};
ghost use Rattle.keyset_model.specs.Keyset.{IsKnown};
ghost use Rattle.keyset_model.specs.Listing.{escaped, escaped_byte};
ghost use Rattle.tink_spec.specs.Outside.{Gave, IsAtEnd, Rose, Stood};
ghost use Rattle.tinkey_plans.specs.Ends.{World};
ghost use Rattle.tinkey_plans.specs.KeyOf.{front_size, key_line, key_of_answer, key_of_lines, key_of_output, tells_keys, with_lines};
ghost use Rattle.tinkey_plans.specs.Sealers.{may_have_made, named, raw_count, stands_under};
ghost use Rattle.tinkey_plans.specs.Plan.{reads_front};
ghost use Rattle.tinkey_plans.specs.Steps.{Passes, PassesAs};
ghost use Rattle.tinkey_words.specs.Words.{seen_datum, seen_lock};
ghost use Rattle.wrapped_prims.specs.Candidates.{is_raw, prefix_of};

use crate::locks::load_locked;
use crate::stream_key::tell_stream;
use itoa::Buffer;
use keyset_model::{Keyset, Record, prefix_name, status_name};
use managers::{KeyTable, Managers};
use std::alloc::Global;
use tink_base::{Bytes, Failed, NoMemory, RAW, Source, Store, TINK};
use tinkey_plans::Status;
use tinkey_words::{Datum, Format, Master, SealedForm};

/// The lines of the keys under which the input stands, by the keyset in a file. A stream has this
/// associated data.
#[inline(never)]
pub fn tell_keys<S: Source, D: Store>(
    alloc: Global,
    managers: &Managers,
    lock: Option<Master<'_>>,
    keyset: &str,
    form: Format,
    kind: SealedForm,
    ad: Datum<'_>,
    source: &mut S,
    store: &mut D,
) -> Result<Bytes, Status>
    ensures { (w : World) → Passes
        (key_of_output (⟦<Managers as KeyTable>⟧.table managers.now) (seen_lock lock.entry) keyset.now
        form kind (seen_datum ad.entry))
        (record w { source = S.state source.old; store = D.state store.old }) result
        (record w { source = S.state source.new; store = D.state store.new }) }
{
    let keyset = load_locked(alloc, managers, lock, keyset, form, store)?;
    tell_under(alloc, &keyset, kind, ad, source)
}

/// The lines of the keys of a keyset with the input's output prefix.
fn tell_under<S: Source>(
    alloc: Global,
    keyset: &Keyset,
    kind: SealedForm,
    ad: Datum<'_>,
    source: &mut S,
) -> Result<Bytes, Status>
    ensures { (w : World) → Passes (tells_keys kind (seen_datum ad.entry) keyset.now)
        (record w { source = S.state source.old }) result
        (record w { source = S.state source.new }) }
{
    match kind {
        SealedForm::Text => {
            let mut front = [0u8; 5];
            let n = read_front(source, &mut front)?;
            lines_of(alloc, keyset, &front[..n])
        }
        SealedForm::Envelope => {
            let mut front = [0u8; 9];
            let n = read_front(source, &mut front)?;
            lines_of(alloc, keyset, behind_length(&front[..n]))
        }
        SealedForm::Stream => tell_stream(alloc, keyset, ad, source),
    }
}

/// Reads the first bytes of the source into `front`, and returns how many: as many as it has room
/// for, or all if there are fewer. No byte after them is taken.
fn read_front<S: Source>(source: &mut S, front: &mut [u8]) -> Result<usize, Status>
    ensures passes { (w : World) → PassesAs (λ n. take n front.new) (reads_front (length front.old))
        (record w { source = S.state source.old }) result
        (record w { source = S.state source.new }) }
    ensures within { IfOk result (λ n. n ≤ length front.new) }
{
    let mut at = 0;
    while at < front.len() {
        let n = match read_on(source, front, at) {
            Ok(n) => n,
            Err(_) => return Err(Status::ReadFault),
        };
        if n == 0 {
            return Ok(at);
        }
        at += n;
    }
    Ok(at)
}

/// Reads the next bytes into `front` from `at` on, and returns how many; 0 at the end.
fn read_on<S: Source>(source: &mut S, front: &mut [u8], at: usize) -> Result<usize, Failed>
    requires some { at + 1 ≤ length front.old }
    ensures bound { IfOk result (λ n. at + n ≤ length front.old) }
    ensures gives { IfOk result (λ n.
        Gave (S.state source.old) (S.state source.new) (take n (drop at front.new))) }
    ensures before { take at front.new ≡ take at front.old }
    ensures end { IfOk result (λ n. n ≡ 0 → IsAtEnd (S.state source.new)) }
    ensures no_fault { OnOk result (Stood (S.state source.old).faults (S.state source.new).faults) }
    ensures failed { OnErr result (Rose (S.state source.old).faults (S.state source.new).faults) }
    ensures kept { OnErr result (Gave (S.state source.old) (S.state source.new) []) }
{
    source.read(&mut front[at..])
}

/// What follows the four bytes of a length; nothing if there are fewer.
pub(crate) fn behind_length(bytes: &[u8]) -> &[u8]
    ensures { result.now ≡ drop 4 bytes.now }
{
    if bytes.len() < 4 {
        &bytes[bytes.len()..]
    } else {
        &bytes[4..]
    }
}

/// What is reported of bytes with this front.
fn lines_of(alloc: Global, keyset: &Keyset, front: &[u8]) -> Result<Bytes, Status>
    ensures { (w : World) → Passes (with_lines (key_of_answer keyset.now front.now)) w result w }
{
    if !has_key(keyset, front) {
        return Err(Status::NoKeyOf);
    }
    let text = lines_text(alloc, keyset, front)?;
    Ok(Bytes::own(text))
}

/// Whether a record may have made bytes with this front.
fn has_key(keyset: &Keyset, front: &[u8]) -> bool
    ensures { result ≡ list_any (may_have_made front.now) keyset.now.records }
{
    for i in 0..keyset.len() {
        if may_have_made(keyset.record_at(i), front) {
            return true;
        }
    }
    false
}

/// The lines of the records with this output prefix, and the count of those without one.
#[tactic(auto, unfolding(tinkey_plans::specs::KeyOf::key_of_lines))]
fn lines_text(alloc: Global, keyset: &Keyset, front: &[u8]) -> Result<Vec<u8>, NoMemory>
    ensures { IfOk result (λ text. text.items ≡ key_of_lines keyset.now front.now) }
{
    let mut text = Vec::new(alloc);
    push_lines(&mut text, keyset, front)?;
    text.extend_from_slice(b"raw_keys: ")?;
    let mut digits = Buffer::new();
    text.extend_from_slice(digits.format(raw_count(keyset)).as_bytes())?;
    text.push(b'\n')?;
    Ok(text)
}

/// Adds the lines of the records with this output prefix.
fn push_lines(out: &mut Vec<u8>, keyset: &Keyset, front: &[u8]) -> Result<(), NoMemory>
    ensures { OnOk result
        (out.new.items ≡ out.old.items ++ flat_map key_line (named keyset.now front.now)) }
{
    for i in 0..keyset.len() {
        push_under(out, keyset.record_at(i), front)?;
    }
    Ok(())
}

/// Adds the line of a record, if it has this output prefix.
fn push_under(out: &mut Vec<u8>, key: &Record, front: &[u8]) -> Result<(), NoMemory>
    requires known { IsKnown key.now }
    ensures { OnOk result (out.new.items ≡ out.old.items ++
        (if stands_under front.now key.now then key_line key.now else [])) }
{
    if stands_under(key, front) {
        push_key(out, key)?;
    }
    Ok(())
}

/// How many records have no output prefix.
pub(crate) fn raw_count(keyset: &Keyset) -> usize
    ensures { result ≡ raw_count keyset.now }
{
    let mut count = 0;
    for i in 0..keyset.len() {
        count += raw_one(keyset.record_at(i));
    }
    count
}

/// 1 for a record without an output prefix, and 0 for any other.
fn raw_one(key: &Record) -> usize
    ensures count { result ≡ if is_raw key.now then 1 else 0 }
    ensures most { result ≤ 1 }
{
    if is_raw(key) { 1 } else { 0 }
}

/// Whether the record may have made bytes with this front.
fn may_have_made(key: &Record, front: &[u8]) -> bool
    ensures { result ≡ may_have_made front.now key.now }
{
    is_raw(key) || stands_under(key, front)
}

/// Whether the record has no output prefix.
fn is_raw(key: &Record) -> bool
    ensures { result ≡ is_raw key.now }
{
    key.prefix == RAW
}

/// Whether the record's output prefix is this front.
pub(crate) fn stands_under(key: &Record, front: &[u8]) -> bool
    ensures { result ≡ stands_under front.now key.now }
{
    match prefix_of(key) {
        Some(prefix) => prefix.as_slice() == front,
        None => false,
    }
}

/// The record's output prefix, if it has one.
fn prefix_of(key: &Record) -> Option<[u8; 5]>
    ensures { result ≡ prefix_of key.now }
{
    let first = if key.prefix == TINK { 1 } else { 0 };
    let five = five_bytes(first, key.id);
    if key.prefix == RAW { None } else { Some(five) }
}

/// A first byte, and the id as four bytes, big-endian.
fn five_bytes(first: u8, id: u32) -> [u8; 5]
    ensures { result ≡ first ∷ to_be_bytes w32 id }
{
    let [a, b, c, d] = id.to_be_bytes();
    [first, a, b, c, d]
}

/// Adds the line of a record, in the spelling of a listing.
pub(crate) fn push_key(out: &mut Vec<u8>, key: &Record) -> Result<(), NoMemory>
    requires known { IsKnown key.now }
    ensures { OnOk result (out.new.items ≡ out.old.items ++ key_line key.now) }
{
    out.extend_from_slice(b"key_id: ")?;
    let mut digits = Buffer::new();
    out.extend_from_slice(digits.format(key.id).as_bytes())?;
    out.extend_from_slice(b" status: ")?;
    out.extend_from_slice(status_name(key.status).as_bytes())?;
    out.extend_from_slice(b" output_prefix_type: ")?;
    out.extend_from_slice(prefix_name(key.prefix).as_bytes())?;
    out.extend_from_slice(b" type_url: \"")?;
    push_escaped(out, key.url.as_str().as_bytes())?;
    out.extend_from_slice(b"\"\n")?;
    Ok(())
}

/// Adds a text, escaped as between a listing's quotes.
fn push_escaped(out: &mut Vec<u8>, text: &[u8]) -> Result<(), NoMemory>
    ensures { OnOk result (out.new.items ≡ out.old.items ++ escaped text.now) }
{
    for byte in text {
        push_escaped_byte(out, *byte)?;
    }
    Ok(())
}

/// Adds a byte, escaped as between a listing's quotes.
fn push_escaped_byte(out: &mut Vec<u8>, byte: u8) -> Result<(), NoMemory>
    ensures { OnOk result (out.new.items ≡ out.old.items ++ escaped_byte byte) }
{
    match byte {
        b'"' | b'\\' => out.extend_from_slice(&[b'\\', byte])?,
        b' '..=b'~' => out.push(byte)?,
        _ => {
            let octal = [b'0' + byte / 64, b'0' + byte / 8 % 8, b'0' + byte % 8];
            out.push(b'\\')?;
            out.extend_from_slice(&octal)?;
        }
    }
    Ok(())
}
