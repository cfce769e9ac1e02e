//! One field, read at its place.

ghost use Rattle.std.specs.Prelude.{◌≡◌, ◌<◌, ◌≤◌, ◌+◌, ◌-◌, ℕ, length, Some, None, option_map, IfSome, IfNone, slice_range, SomeIff};
ghost use Rattle.tink_spec.specs.Varint.{number_front};
ghost use Rattle.tink_spec.specs.Wire.{bytes, payload_front, field_front};
ghost use Rattle.proto_wire.specs.Fields.{payload_of, seen, IsOf};

use crate::number::front_number;
use crate::{Field, Kind};

/// The greatest field number, 2^29 - 1.
const GREATEST: u64 = 536_870_911;

/// The tag of a field.
#[derive(Clone, Copy)]
struct Tag {
    number: u32,
    wire_type: u32,
    /// The place of its first byte.
    at: usize,
    /// The place after its last byte.
    behind: usize,
}

/// The field at this place of a part of `source` that ends at `end`, and the place after it.
pub fn read_field(source: &[u8], at: usize, end: usize) -> Option<(Field, usize)>
    requires ordered { at ≤ end }
    requires within { end ≤ length source.now }
    ensures behind { IfSome result (λ read. (at < read.1) × (read.1 ≤ end)) }
    ensures read { field_front at (slice_range source.now at end) ≡
        option_map (λ read. (seen source.now read.0, slice_range source.now read.1 end)) result }
    ensures of_source { IfSome result (λ read. IsOf source.now read.0) }
{
    let tag = read_tag(source, at, end)?;
    read_payload(source, tag, end)
}

/// The tag at this place.
fn read_tag(source: &[u8], at: usize, end: usize) -> Option<Tag>
    requires ordered { at ≤ end }
    requires within { end ≤ length source.now }
    ensures none { IfNone result (field_front at (slice_range source.now at end) ≡ None) }
    ensures found { IfSome result (λ tag. field_front at (slice_range source.now at end) ≡
        option_map (λ read. (record { number = tag.number; at = tag.at; payload = read.0 }, read.1))
        (payload_front tag.wire_type tag.behind (slice_range source.now tag.behind end))) }
    ensures behind { IfSome result (λ tag. (at < tag.behind) × (tag.behind ≤ end)) }
{
    let (value, behind) = read_number(source, at, end)?;
    let number = value / 8;
    if number == 0 || number > GREATEST {
        return None;
    }
    Some(Tag {
        number: number as u32,
        wire_type: (value % 8) as u32,
        at,
        behind,
    })
}

/// The field of this tag, and the place after it.
fn read_payload(source: &[u8], tag: Tag, end: usize) -> Option<(Field, usize)>
    requires ordered { tag.behind ≤ end }
    requires within { end ≤ length source.now }
    ensures none { IfNone result
        (payload_front tag.wire_type tag.behind (slice_range source.now tag.behind end) ≡ None) }
    ensures found { IfSome result (λ read.
        payload_front tag.wire_type tag.behind (slice_range source.now tag.behind end) ≡
        Some (payload_of read.0.kind source.now read.0, slice_range source.now read.1 end)) }
    ensures named { IfSome result (λ read. (read.0.number ≡ tag.number) × (read.0.at ≡ tag.at)) }
    ensures behind { IfSome result (λ read. (tag.behind ≤ read.1) × (read.1 ≤ end)) }
    ensures of_source { IfSome result (λ read. IsOf source.now read.0) }
{
    let field = Field {
        number: tag.number,
        kind: Kind::Varint,
        value: 0,
        at: tag.at,
        start: 0,
        end: 0,
    };
    match tag.wire_type {
        0 => {
            let (value, behind) = read_number(source, tag.behind, end)?;
            Some((Field { value, ..field }, behind))
        }
        1 => {
            let behind = read_fixed(8, tag.behind, end)?;
            Some((
                Field {
                    kind: Kind::Eight,
                    ..field
                },
                behind,
            ))
        }
        2 => {
            let (start, end) = read_span(source, tag.behind, end)?;
            Some((
                Field {
                    kind: Kind::Bytes,
                    start,
                    end,
                    ..field
                },
                end,
            ))
        }
        5 => {
            let behind = read_fixed(4, tag.behind, end)?;
            Some((
                Field {
                    kind: Kind::Four,
                    ..field
                },
                behind,
            ))
        }
        _ => None,
    }
}

/// The place after `size` bytes.
fn read_fixed(size: usize, at: usize, end: usize) -> Option<usize>
    requires { at ≤ end }
    ensures { SomeIff result (size ≤ end - at) (at + size) }
{
    if end - at < size {
        None
    } else {
        Some(at + size)
    }
}

/// The range of the bytes after the length at this place.
fn read_span(source: &[u8], at: usize, end: usize) -> Option<(usize, usize)>
    requires ordered { at ≤ end }
    requires within { end ≤ length source.now }
    ensures read { payload_front 2 at (slice_range source.now at end) ≡ option_map (λ span.
        (bytes span.0 (slice_range source.now span.0 span.1), slice_range source.now span.1 end))
        result }
    ensures behind { IfSome result (λ span.
        (at < span.0) × (span.0 ≤ span.1) × (span.1 ≤ end)) }
{
    let (size, start) = read_number(source, at, end)?;
    // The size can be any 64-bit number, so it is compared with what is left.
    if size > (end - start) as u64 {
        return None;
    }
    Some((start, start + size as usize))
}

/// The number at this place, and the place after it.
fn read_number(source: &[u8], at: usize, end: usize) -> Option<(u64, usize)>
    requires ordered { at ≤ end }
    requires within { end ≤ length source.now }
    ensures read { number_front (slice_range source.now at end) ≡
        option_map (λ read. (read.0, slice_range source.now read.1 end)) result }
    ensures behind { IfSome result (λ read. (at < read.1) × (read.1 ≤ end)) }
{
    let (value, size) = front_number(&source[at..end])?;
    Some((value, at + size))
}
