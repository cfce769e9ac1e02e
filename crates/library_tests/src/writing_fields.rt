//! Messages as other writers write them: the examples of the encoding guide of Protocol Buffers, and
//! bytes of `protoc --encode` for numbers at the edges of their varints.

use proto_wire::Writer;
use std::alloc::Global;
use std::test::Fail;
use test_words::same_bytes;

/// Holds what was written to these bytes.
fn holds_written(alloc: Global, shows: &str, writer: Writer, want: &[u8]) -> Result<(), Fail> {
    same_bytes(alloc, shows, "what was written", want, &writer.finish())
}

// The guide's examples ("A Simple Message", "Length-Delimited Records", "Submessages").
#[test]
fn writes_the_examples_of_the_encoding_guide(rt: HostRuntime) -> Result<(), Fail> {
    let mut number = Writer::new(rt.alloc());
    number.uint32(1, 150)?;
    let simple = [0x08, 0x96, 0x01];
    holds_written(rt.alloc(), "A Simple Message", number, &simple)?;
    let mut testing = Writer::new(rt.alloc());
    testing.bytes(2, b"testing")?;
    holds_written(rt.alloc(), "a text", testing, b"\x12\x07testing")?;
    let mut outer = Writer::new(rt.alloc());
    outer.message(3, &simple)?;
    let want = [0x1a, 0x03, 0x08, 0x96, 0x01];
    holds_written(rt.alloc(), "Submessages", outer, &want)
}

// protoc writes `g: 16384 h: 16383` of fields 15 and 16 so, and fields at their defaults not at all.
#[test]
fn defaults_are_left_out_and_varints_are_short(rt: HostRuntime) -> Result<(), Fail> {
    let mut writer = Writer::new(rt.alloc());
    writer.uint32(1, 0)?;
    writer.bytes(2, b"")?;
    writer.uint32(15, 16384)?;
    writer.uint32(16, 16383)?;
    let want = [0x78, 0x80, 0x80, 0x01, 0x80, 0x01, 0xff, 0x7f];
    holds_written(rt.alloc(), "defaults and varints", writer, &want)
}

// protoc's bytes of 2^32 - 1 in field 1, of an empty message in field 3 and of `x` in the last field.
#[test]
fn the_greatest_numbers_and_empty_messages(rt: HostRuntime) -> Result<(), Fail> {
    let mut writer = Writer::new(rt.alloc());
    writer.uint32(1, u32::MAX)?;
    writer.message(3, b"")?;
    writer.bytes(536_870_911, b"x")?;
    let want = [
        0x08, 0xff, 0xff, 0xff, 0xff, 0x0f, 0x1a, 0x00, 0xfa, 0xff, 0xff, 0xff, 0x0f, 0x01, 0x78,
    ];
    holds_written(rt.alloc(), "the greatest numbers", writer, &want)
}
