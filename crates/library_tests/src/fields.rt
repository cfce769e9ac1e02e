//! Parts of messages, cut into fields: examples of the encoding guide of Protocol Buffers, and parts
//! at the edges of its rules.

ghost use Rattle.std.specs.Prelude.{IfOk};
ghost use Rattle.std.specs.List.{AllByRecursion};
ghost use Rattle.proto_wire.specs.Fields.{IsOf};

use crate::rows::{bytes_in, count, holds};
use proto_wire::{Fields, FieldsError, Wire, fields};
use std::alloc::Global;
use std::test::Fail;
use test_words::cell;

// A row has what it shows, a part, what is asked of its fields, and the answer. Asked are how many
// there are (`count 0`), the number or the payload's places under a field number, the field of a
// place, and the number of field 1 within the messages under a field number (`inside`).

// The encoding guide's examples: 150 in field 1 ("A Simple Message"), "testing" in field 2
// ("Length-Delimited Records"), and the first of them in field 3 ("Submessages").
const GUIDE: &str = "\
A Simple Message|089601|number 1|Ok(150)
no other field|089601|number 2|Ok(0)
Length-Delimited Records|120774657374696e67|places 2|Ok((2, 9))
no other payload|120774657374696e67|places 1|Ok((0, 0))
a payload is no number|120774657374696e67|number 2|Err(Wire { at: 0 })
Submessages|1a03089601|count 0|1
the field of a message|1a03089601|field 0|Field { number: 3, kind: Bytes, value: 0, at: 0, start: 2, end: 5 }
the message|1a03089601|inside 3|Ok(150)";

// By the same guide's rules ("Base 128 Varints", "Message Structure", "Assigning Field Numbers"):
// how many fields a part has, or the place of the first field at fault.
const PARTS: &str = "\
no byte||count 0|0
a longer varint than needed|088000|count 0|1
ten bytes|08ffffffffffffffffff01|count 0|1
ten bytes, surplus bits|08ffffffffffffffffff7f|count 0|1
eleven bytes|088080808080808080808000|count 0|Wire(Wire { at: 0 })
no last byte|0880|count 0|Wire(Wire { at: 0 })
no payload|08|count 0|Wire(Wire { at: 0 })
eight bytes|090102030405060708|count 0|1
seven of eight bytes|0901020304050607|count 0|Wire(Wire { at: 0 })
four bytes|0d01020304|count 0|1
three of four bytes|0d010203|count 0|Wire(Wire { at: 0 })
a payload up to the end|12026162|count 0|1
a payload past the end|120261|count 0|Wire(Wire { at: 0 })
an empty payload|1200|count 0|1
2^63 bytes|1280808080808080808001|count 0|Wire(Wire { at: 0 })
2^64 - 1 bytes|12ffffffffffffffffff01|count 0|Wire(Wire { at: 0 })
wire type 3|0b|count 0|Wire(Wire { at: 0 })
wire type 4|0c|count 0|Wire(Wire { at: 0 })
wire type 6|0e0000000000000000|count 0|Wire(Wire { at: 0 })
wire type 7|0f0000000000000000|count 0|Wire(Wire { at: 0 })
number 0|0001|count 0|Wire(Wire { at: 0 })
number 1|0801|count 0|1
number 2^29 - 1|f8ffffff0f01|count 0|1
number 2^29|808080801001|count 0|Wire(Wire { at: 0 })
two fields|0801120161|count 0|2
the second at fault|08010b0801|count 0|Wire(Wire { at: 2 })
the first of two at fault|0b08010b|count 0|Wire(Wire { at: 0 })";

// "Last One Wins": the last scalar counts, by its low 32 bits as a uint32, and embedded messages
// are merged. "Signed Integers": -2 is the ten bytes of 2^64 - 2. The surplus bits of a tenth byte
// fall off.
const LAST: &str = "\
the last scalar|0807088580808010|number 1|Ok(5)";

const LONG: &str = "\
-2|08feffffffffffffffff01|count 0|1
its 64 bits|08feffffffffffffffff01|field 0|Field { number: 1, kind: Varint, value: 18446744073709551614, at: 0, start: 0, end: 0 }
surplus bits|08ffffffffffffffffff7f|count 0|1
the bits that stay|08ffffffffffffffffff7f|field 0|Field { number: 1, kind: Varint, value: 18446744073709551615, at: 0, start: 0, end: 0 }";

#[derive(Clone, Copy)]
enum Asked {
    Count,
    Number,
    Places,
    Field,
    Inside,
}

const WORDS: [(&str, Asked); 5] = [
    ("count", Asked::Count),
    ("number", Asked::Number),
    ("places", Asked::Places),
    ("field", Asked::Field),
    ("inside", Asked::Inside),
];

fn asked_in(row: &str) -> Result<(Asked, u32), Fail> {
    let (word, number) = cell(row, 2)?.split_once(' ').ok_or("a word and a number")?;
    let number = number.parse::<u32>()?;
    for (known, asked) in &WORDS {
        if *known == word {
            return Ok((*asked, number));
        }
    }
    Err("what is asked".into())
}

fn whole(alloc: Global, part: &[u8]) -> Result<Fields, FieldsError>
    ensures { IfOk result (λ fields. AllByRecursion (IsOf part.now) fields) }
{
    fields(alloc, part, 0, part.len())
}

// What the fields of a part answer, as a text.
fn answer(alloc: Global, row: &str, part: &[u8]) -> Result<String, Fail> {
    let fields = match whole(alloc, part) {
        Ok(fields) => fields,
        Err(error) => return Ok(format!(in alloc; "{error:?}")?),
    };
    let (asked, number) = asked_in(row)?;
    let text = match asked {
        Asked::Count => format!(in alloc; "{}", fields.len()),
        Asked::Number => format!(in alloc; "{:?}", fields.number_of(number)),
        Asked::Places => format!(in alloc; "{:?}", fields.span_of(number)),
        Asked::Field => {
            if fields.len() <= number as usize {
                return Err("a field of this place".into());
            }
            format!(in alloc; "{:?}", fields.field(number as usize))
        }
        Asked::Inside => {
            let inside = fields.merged(alloc, part, number)?;
            format!(in alloc; "{:?}", inside.number_of(1))
        }
    };
    Ok(text?)
}

fn assert_table(alloc: Global, table: &str, rows: usize) -> Result<(), Fail> {
    count(table, rows)?;
    for row in table.lines() {
        let part = bytes_in(alloc, row, 1)?;
        let found = answer(alloc, row, &part)?;
        holds(row, 3, "the answer", found.as_str())?;
    }
    Ok(())
}

#[test]
fn cuts_a_part_or_names_the_first_field_at_fault(rt: HostRuntime) -> Result<(), Fail> {
    for &(table, rows) in &[(GUIDE, 8), (PARTS, 27), (LAST, 1), (LONG, 4)] {
        assert_table(rt.alloc(), table, rows)?;
    }
    Ok(())
}

// Two messages in field 1 with a number between them, and a third message, which is cut short.
// Places are those of the source, also for a part inside it.
const MESSAGES: [u8; 13] = [
    0x0a, 0x02, 0x08, 0x01, 0x18, 0x09, 0x0a, 0x02, 0x10, 0x02, 0x0a, 0x01, 0x10,
];

#[test]
fn messages_are_merged(rt: HostRuntime) -> Result<(), Fail> {
    let outer = fields(rt.alloc(), &MESSAGES, 0, 10)?;
    let inner = outer.merged(rt.alloc(), &MESSAGES, 1)?;
    assert_eq!(rt; (inner.number_of(1)?, inner.number_of(2)?), (1, 2));
    assert_eq!(rt; outer.number_of(1), Err(Wire { at: 0 }));
    assert_eq!(rt; outer.span_of(3), Err(Wire { at: 4 }));
    Ok(())
}

#[test]
fn a_fault_inside_a_payload_has_its_fields_place(rt: HostRuntime) -> Result<(), Fail> {
    let last = fields(rt.alloc(), &MESSAGES, 10, 13)?;
    let cut = last.merged(rt.alloc(), &MESSAGES, 1);
    assert_eq!(rt;
        cut.map(|fields| fields.len()),
        Err(FieldsError::Wire(Wire { at: 10 }))
    );
    Ok(())
}

#[test]
fn fields_are_added_behind_fields(rt: HostRuntime) -> Result<(), Fail> {
    let mut all = whole(rt.alloc(), &[0x08, 0x96, 0x01])?;
    all.append(whole(rt.alloc(), &[0x12, 0x00])?)?;
    assert_eq!(rt; all.len(), 2);
    assert_eq!(rt; (all.field(0).number, all.field(1).number), (1, 2));
    Ok(())
}
