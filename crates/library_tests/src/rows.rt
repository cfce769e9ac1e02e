//! What a row gives as bytes, and what is held to its cells. A failure names the row by its first
//! cell, since a failure's text is short.

ghost use Rattle.std.specs.Prelude.{◌≤◌, length, IfOk};

use std::alloc::Global;
use std::test::Fail;
use test_words::{bytes_of, cell, same_text};

/// The most bytes that a cell writes.
const MOST: usize = 1000;

/// The bytes that this cell writes.
pub(crate) fn bytes_in(alloc: Global, row: &str, place: usize) -> Result<Vec<u8>, Fail>
    ensures few { IfOk result (λ bytes. length bytes.items ≤ 1000) }
{
    few(bytes_of(alloc, cell(row, place)?)?)
}

/// The bytes, where there are few.
pub(crate) fn few(bytes: Vec<u8>) -> Result<Vec<u8>, Fail>
    ensures few { IfOk result (λ bytes. length bytes.items ≤ 1000) }
{
    if bytes.len() > MOST {
        return Err("no more than 1,000 bytes".into());
    }
    Ok(bytes)
}

/// Holds a text to the cell at this place.
pub(crate) fn holds(row: &str, place: usize, part: &str, found: &str) -> Result<(), Fail> {
    same_text(cell(row, 0)?, part, cell(row, place)?, found)
}

/// Holds a table to the number of its rows.
pub(crate) fn count(table: &str, rows: usize) -> Result<(), Fail> {
    let found = table.lines().count();
    if found != rows {
        return Err(Fail::new(format_args!("{found} rows, and not {rows}")));
    }
    Ok(())
}
