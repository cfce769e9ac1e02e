//! Fields, written one after another.

ghost use Rattle.std.specs.Prelude.{◌≡◌, ◌<◌, ◌≤◌, ◌*◌, ◌+◌, ◌^◌, ◌++◌, [], ℕ, length, take, OnOk, OnErr};
ghost use Rattle.tink_spec.specs.Wire.{greatest_number};
ghost use Rattle.proto_wire.specs.Written.{Entry, uint32, content, message, written, varint_of, number_field, bytes_field};

use std::alloc::Global;
use std::marker::Model;
use tink_base::NoMemory;

/// The wire type of a varint.
const VARINT: u32 = 0;

/// The wire type of bytes.
const BYTES: u32 = 2;

/// A message being written. Contracts see its bytes so far.
///
/// Write fields in the order of their numbers, as other writers do. `NoMemory` leaves a writer
/// unchanged.
#[derive(Drop)]
pub struct Writer {
    items: Vec<u8>,
}

impl Model for Writer {
    ghost use Rattle.std.specs.Prelude.{List, ℕ};

    ghost Value = { List ℕ };

    ghost view = { λ w. w.items.items };
}

impl Writer {
    /// A message with no field.
    pub fn new(alloc: Global) -> Writer
        ensures { result ≡ [] }
    {
        Writer {
            items: Vec::new(alloc),
        }
    }

    /// Writes a number in the field of this number, and nothing if it is 0.
    pub fn uint32(&mut self, number: u32, value: u32) -> Result<(), NoMemory>
        requires least { 0 < number }
        requires most { number ≤ greatest_number }
        ensures written { OnOk result (self.new ≡ self.old ++ written (uint32 number value)) }
        ensures kept { OnErr result (self.new ≡ self.old) }
    {
        if value == 0 {
            return Ok(());
        }
        let before = self.items.len();
        let result = push_number_field(&mut self.items, number, value);
        if result.is_err() {
            self.items.truncate(before);
        }
        result
    }

    /// Writes bytes in the field of this number, and nothing if there are none.
    pub fn bytes(&mut self, number: u32, value: &[u8]) -> Result<(), NoMemory>
        requires least { 0 < number }
        requires most { number ≤ greatest_number }
        requires length_bound { length value.now < 2 ^ 31 }
        ensures written { OnOk result (self.new ≡ self.old ++ written (content number value.now)) }
        ensures kept { OnErr result (self.new ≡ self.old) }
    {
        if value.is_empty() {
            return Ok(());
        }
        self.message(number, value)
    }

    /// Writes an embedded message in the field of this number, also one with no bytes.
    pub fn message(&mut self, number: u32, payload: &[u8]) -> Result<(), NoMemory>
        requires least { 0 < number }
        requires most { number ≤ greatest_number }
        requires length_bound { length payload.now < 2 ^ 31 }
        ensures written { OnOk result (self.new ≡ self.old ++ written (message number payload.now)) }
        ensures kept { OnErr result (self.new ≡ self.old) }
    {
        let before = self.items.len();
        let result = push_bytes_field(&mut self.items, number, payload);
        if result.is_err() {
            self.items.truncate(before);
        }
        result
    }

    /// The bytes of the message.
    pub fn finish(self) -> Vec<u8>
        ensures { result.items ≡ self }
    {
        self.items
    }
}

/// Appends a field with a number. After an error a part of it may have been appended.
fn push_number_field(items: &mut Vec<u8>, number: u32, value: u32) -> Result<(), NoMemory>
    requires most { number ≤ greatest_number }
    ensures written { OnOk result
        (items.new.items ≡ items.old.items ++ number_field number value) }
    ensures kept { take (length items.old.items) items.new.items ≡ items.old.items }
{
    push_varint(items, number * 8 + VARINT)?;
    push_varint(items, value)
}

/// Appends a field with bytes. After an error a part of it may have been appended.
fn push_bytes_field(items: &mut Vec<u8>, number: u32, content: &[u8]) -> Result<(), NoMemory>
    requires most { number ≤ greatest_number }
    requires length_bound { length content.now < 2 ^ 31 }
    ensures written { OnOk result
        (items.new.items ≡ items.old.items ++ bytes_field number content.now) }
    ensures kept { take (length items.old.items) items.new.items ≡ items.old.items }
{
    push_varint(items, number * 8 + BYTES)?;
    push_varint(items, content.len() as u32)?;
    items.extend_from_slice(content)?;
    Ok(())
}

/// Appends a varint. After an error a part of it may have been appended.
fn push_varint(items: &mut Vec<u8>, value: u32) -> Result<(), NoMemory>
    ensures written { OnOk result (items.new.items ≡ items.old.items ++ varint_of value) }
    ensures kept { take (length items.old.items) items.new.items ≡ items.old.items }
{
    let mut left = value;
    while left >= 128 {
        items.push((left % 128) as u8 + 128)?;
        left /= 128;
    }
    items.push(left as u8)?;
    Ok(())
}
