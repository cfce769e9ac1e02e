//! Whether a run ended as its row says.

use crate::cells::{bytes_of, file_of};
use crate::differences::Differences;
use crate::names::Names;
use crate::rows::{Column, Row};
use crate::runner::Outcome;
use std::alloc::Global;
use std::test::Fail;

/// Compares how a run ended with what its row says, and records what differs.
pub(crate) fn compare(
    alloc: Global,
    names: &Names,
    row: &Row<'_>,
    came: &Outcome,
    differences: &mut Differences,
) -> Result<(), Fail> {
    let before = differences.count();
    hold_written(alloc, names, row, came, differences)?;
    hold_moved(alloc, names, row, came, differences)?;
    if differences.count() == before {
        Ok(())
    } else {
        differences.tell_run(alloc, row, came)
    }
}

/// The status and what was written to the streams are as the row says.
fn hold_written(
    alloc: Global,
    names: &Names,
    row: &Row<'_>,
    came: &Outcome,
    differences: &mut Differences,
) -> Result<(), Fail> {
    hold_status(alloc, row.cell(Column::Status), came, differences)?;
    hold_line(alloc, names, row.cell(Column::Line), came, differences)?;
    hold_output(alloc, names, row.cell(Column::Output), came, differences)?;
    hold_unlike(alloc, names, row.cell(Column::Unlike), came, differences)
}

/// The new file, the random bytes drawn and the bytes of files given are as the row says.
fn hold_moved(
    alloc: Global,
    names: &Names,
    row: &Row<'_>,
    came: &Outcome,
    differences: &mut Differences,
) -> Result<(), Fail> {
    hold_made(alloc, names, row.cell(Column::Made), came, differences)?;
    differences.hold_count(alloc, "drawn", row.cell(Column::Drawn), came.drawn)?;
    hold_given(alloc, row.cell(Column::Given), came, differences)
}

/// The status is as its cell says, or begins so if the cell ends with `*`.
fn hold_status(
    alloc: Global,
    cell: &str,
    came: &Outcome,
    differences: &mut Differences,
) -> Result<(), Fail> {
    let status = came.status.as_str();
    match cell.strip_suffix("*") {
        Some(front) if status.starts_with(front) => Ok(()),
        _ => differences.hold_text(alloc, "status", cell, status),
    }
}

/// The lines are as their cell says, or begin so if the cell ends with `*`.
fn hold_line(
    alloc: Global,
    names: &Names,
    cell: &str,
    came: &Outcome,
    differences: &mut Differences,
) -> Result<(), Fail> {
    let line = line_of(alloc, names, cell)?;
    let all = came.line.as_slice();
    let told = if cell.ends_with('*') {
        all.get(..line.len()).unwrap_or(all)
    } else {
        all
    };
    differences.hold_bytes(alloc, "line", &line, told)
}

/// The output is as its cell says.
fn hold_output(
    alloc: Global,
    names: &Names,
    cell: &str,
    came: &Outcome,
    differences: &mut Differences,
) -> Result<(), Fail> {
    match cell.split_once('~') {
        None => {
            let expected = bytes_of(alloc, names, cell)?;
            differences.hold_bytes(alloc, "output", &expected, &came.output)
        }
        Some((first, rest)) => hold_ends(alloc, names, first, rest, &came.output, differences),
    }
}

/// The output has these first bytes, and the length and last bytes that the rest of its cell says.
fn hold_ends(
    alloc: Global,
    names: &Names,
    first: &str,
    rest: &str,
    output: &[u8],
    differences: &mut Differences,
) -> Result<(), Fail> {
    let Some((count, last)) = rest.split_once(' ') else {
        return Err("a count and the last bytes".into());
    };
    if count != "*" {
        differences.hold_count(alloc, "output's size", count, output.len())?;
    }
    hold_begin(alloc, names, first, output, differences)?;
    hold_end(alloc, names, last, output, differences)
}

/// The output has these first bytes.
fn hold_begin(
    alloc: Global,
    names: &Names,
    first: &str,
    output: &[u8],
    differences: &mut Differences,
) -> Result<(), Fail> {
    let first = bytes_of(alloc, names, first)?;
    let begin = output.get(..first.len()).unwrap_or(output);
    differences.hold_bytes(alloc, "output's begin", &first, begin)
}

/// The output has these last bytes.
fn hold_end(
    alloc: Global,
    names: &Names,
    last: &str,
    output: &[u8],
    differences: &mut Differences,
) -> Result<(), Fail> {
    let last = bytes_of(alloc, names, last)?;
    let from = output.len().saturating_sub(last.len());
    let end = output.get(from..).unwrap_or(output);
    differences.hold_bytes(alloc, "output's end", &last, end)
}

/// The output isn't the bytes of this cell, if it gives any.
fn hold_unlike(
    alloc: Global,
    names: &Names,
    cell: &str,
    came: &Outcome,
    differences: &mut Differences,
) -> Result<(), Fail> {
    match file_of(alloc, names, cell)? {
        Some(other) if other == came.output => {
            differences.differs(alloc, "unlike", "another output", "that one")
        }
        _ => Ok(()),
    }
}

/// There is a new file if and only if its cell gives one, and it has those bytes.
fn hold_made(
    alloc: Global,
    names: &Names,
    cell: &str,
    came: &Outcome,
    differences: &mut Differences,
) -> Result<(), Fail> {
    match (file_of(alloc, names, cell)?, &came.made) {
        (None, None) => Ok(()),
        (Some(expected), Some(made)) => differences.hold_bytes(alloc, "made", &expected, made),
        (Some(_), None) => differences.differs(alloc, "made", "a file", "none"),
        (None, Some(_)) => differences.differs(alloc, "made", "none", "a file"),
    }
}

/// At most as many bytes of files were given as the cell says, if it gives a number.
fn hold_given(
    alloc: Global,
    cell: &str,
    came: &Outcome,
    differences: &mut Differences,
) -> Result<(), Fail> {
    if cell.is_empty() {
        return Ok(());
    }
    match came.given {
        Some(given) => hold_most(alloc, cell, given, differences),
        None => Err("files whose bytes are counted".into()),
    }
}

/// At most as many bytes of files were given as the cell says.
fn hold_most(
    alloc: Global,
    cell: &str,
    given: u64,
    differences: &mut Differences,
) -> Result<(), Fail> {
    if given <= cell.parse::<u64>()? {
        return Ok(());
    }
    let most = format!(in alloc; "at most {cell}")?;
    let given = format!(in alloc; "{given}")?;
    differences.differs(alloc, "given", &most, &given)
}

/// The bytes of the lines that a cell gives.
fn line_of(alloc: Global, names: &Names, cell: &str) -> Result<Vec<u8>, Fail> {
    match cell.strip_prefix('=') {
        Some(items) => bytes_of(alloc, names, items),
        None => written_line(alloc, &cell.replace(alloc, " / ", "\n")?),
    }
}

/// The bytes of lines that are written as text: a newline ends them, unless there are none, or only
/// their beginning is written.
fn written_line(alloc: Global, lines: &str) -> Result<Vec<u8>, Fail> {
    match lines.strip_suffix("..").or(lines.strip_suffix("*")) {
        Some(front) => Ok(front.as_bytes().to_vec(alloc)?),
        None => whole_line(alloc, lines),
    }
}

/// The bytes of lines with a newline after them, if there are any.
fn whole_line(alloc: Global, lines: &str) -> Result<Vec<u8>, Fail> {
    let mut line = lines.as_bytes().to_vec(alloc)?;
    if !lines.is_empty() {
        line.push(b'\n')?;
    }
    Ok(line)
}
