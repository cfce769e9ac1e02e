//! What differs from a row, in words.

use crate::rows::{Column, Row};
use crate::runner::Outcome;
use std::alloc::Global;
use std::str::from_utf8;
use std::test::Fail;

/// How many bytes of a list are shown.
const SHOWN: usize = 24;

/// The differences of a row, a line each; those of each run are followed by how it ended.
#[derive(Drop)]
pub(crate) struct Differences {
    lines: String,
    count: usize,
}

impl Differences {
    /// No differences.
    pub(crate) fn new(alloc: Global) -> Differences {
        Differences {
            lines: String::new(alloc),
            count: 0,
        }
    }

    /// How many differences there are.
    pub(crate) fn count(&self) -> usize {
        self.count
    }

    /// Their lines.
    pub(crate) fn lines(&self) -> &str {
        self.lines.as_str()
    }

    /// Records a difference in this column, with both sides.
    pub(crate) fn differs(
        &mut self,
        alloc: Global,
        column: &str,
        expected: &str,
        came: &str,
    ) -> Result<(), Fail> {
        let line = format!(in alloc; "  {column}: expected {expected}, came {came}\n")?;
        self.lines.push_str(&line)?;
        self.count = self.count.saturating_add(1);
        Ok(())
    }

    /// Records a difference if these texts aren't the same.
    pub(crate) fn hold_text(
        &mut self,
        alloc: Global,
        column: &str,
        expected: &str,
        came: &str,
    ) -> Result<(), Fail> {
        if came == expected {
            return Ok(());
        }
        self.differs(alloc, column, expected, came)
    }

    /// Records a difference if this number isn't the expected one.
    pub(crate) fn hold_count(
        &mut self,
        alloc: Global,
        column: &str,
        expected: &str,
        came: usize,
    ) -> Result<(), Fail> {
        self.hold_text(alloc, column, expected, &format!(in alloc; "{came}")?)
    }

    /// Records a difference if these bytes aren't the same: how many there are on both sides, and a
    /// few from the first difference on.
    pub(crate) fn hold_bytes(
        &mut self,
        alloc: Global,
        column: &str,
        expected: &[u8],
        came: &[u8],
    ) -> Result<(), Fail> {
        if came == expected {
            return Ok(());
        }
        let at = first_unlike(expected, came);
        let expected = from_there(alloc, expected, at)?;
        let came = from_there(alloc, came, at)?;
        self.differs(alloc, column, &expected, &came)
    }

    /// Records which run of a row differed, and how it ended: its status, its line, and the first
    /// bytes of the output.
    pub(crate) fn tell_run(
        &mut self,
        alloc: Global,
        row: &Row<'_>,
        came: &Outcome,
    ) -> Result<(), Fail> {
        let output = from_there(alloc, &came.output, 0)?;
        let told = run_text(alloc, row, came.status.as_str(), &output)?;
        self.lines.push_str(&told)?;
        Ok(())
    }
}

/// What is told of a run of this row: which one it is, and how it ended.
fn run_text(alloc: Global, row: &Row<'_>, status: &str, output: &str) -> Result<String, Fail> {
    let each = row.cell(Column::Each);
    let piece = row.cell(Column::Piece);
    let fails = row.cell(Column::Fails);
    Ok(format!(in alloc;
        "  in the run of pieces of {piece}, failing {fails}, $ being '{each}': {status}, output {output}\n"
    )?)
}

/// The place of the first byte that differs, or the end of the shorter list.
fn first_unlike(expected: &[u8], came: &[u8]) -> usize {
    let shorter = expected.len().min(came.len());
    for at in 0..shorter {
        if expected[at] != came[at] {
            return at;
        }
    }
    shorter
}

/// How many bytes there are, and a few of them from this place on: as text if they are text.
fn from_there(alloc: Global, bytes: &[u8], at: usize) -> Result<String, Fail> {
    let shown = shown_from(bytes, at);
    match from_utf8(shown) {
        Ok(text) => with_text(alloc, bytes.len(), at, text),
        Err(_) => with_digits(alloc, bytes.len(), at, shown),
    }
}

/// A few bytes from this place on.
fn shown_from(bytes: &[u8], at: usize) -> &[u8] {
    let rest = bytes.get(at..).unwrap_or(b"");
    rest.get(..SHOWN).unwrap_or(rest)
}

/// How many bytes there are, and the text from this place on.
fn with_text(alloc: Global, size: usize, at: usize, text: &str) -> Result<String, Fail> {
    Ok(format!(in alloc; "{size} bytes, from {at} on {text:?}")?)
}

/// How many bytes there are, and in hexadecimal those from this place on.
fn with_digits(alloc: Global, size: usize, at: usize, shown: &[u8]) -> Result<String, Fail> {
    let digits = hex::encode(alloc, shown)?;
    Ok(format!(in alloc; "{size} bytes, from {at} on {digits}")?)
}
