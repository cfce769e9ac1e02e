//! Each outside call fails in turn: rows run with the first read failing, with the second, and so
//! on, until a run meets no fault, then the same with the calls of each other name.

use crate::compare::compare;
use crate::differences::Differences;
use crate::names::Names;
use crate::rows::{Column, Row};
use crate::runner::{Outcome, Runner};
use crate::running::outcome_of;
use std::alloc::Global;
use std::str::from_utf8;
use std::test::Fail;

/// The names of the calls that can fail, in the order of the column of counts, each with the status
/// and the line of a run in which it failed. If the line itself fails, both are unchanged.
const ENDS: [(&str, &str, &str); 5] = [
    ("read", "5 ReadFault", "tinkey: read fault"),
    ("write", "5 WriteFault", "tinkey: write fault"),
    ("line", "", ""),
    ("store", "5 StoreFault", "tinkey: store fault"),
    ("fill", "5 EntropyFault", "tinkey: entropy fault"),
];

/// The commands that write before they have their whole output.
const LASTING: [&str; 4] = ["session", "sseal", "sopen", "list-key-templates"];

/// Runs a row, whose run without faults ended as `whole`, with each call failing in turn, and
/// counts the calls of each name.
pub(crate) fn run_each_failing<R: Runner>(
    alloc: Global,
    runner: &R,
    names: &Names,
    row: &Row<'_>,
    whole: &Outcome,
    differences: &mut Differences,
) -> Result<(), Fail> {
    let mut counts = String::new(alloc);
    for &end in &ENDS {
        let count = run_until_whole(alloc, runner, names, row, whole, end, differences)?;
        push_count(alloc, &mut counts, count)?;
    }
    differences.hold_text(alloc, "calls", row.cell(Column::Calls), counts.trim())
}

/// Appends a count after a space.
fn push_count(alloc: Global, counts: &mut String, count: usize) -> Result<(), Fail> {
    counts.push_str(&format!(in alloc; " {count}")?)?;
    Ok(())
}

/// Runs a row with the first call of this name failing, then the second, and so on, until a run
/// meets no fault, which ends as the row says. Returns how many met one.
fn run_until_whole<R: Runner>(
    alloc: Global,
    runner: &R,
    names: &Names,
    row: &Row<'_>,
    whole: &Outcome,
    end: (&str, &str, &str),
    differences: &mut Differences,
) -> Result<usize, Fail> {
    for before in 0..10000_usize {
        let faults = run_failing(alloc, runner, names, row, whole, end, before, differences)?;
        if faults == 0 {
            return Ok(before);
        }
    }
    Err("a run that meets no fault".into())
}

/// Runs a row with the call of this name failing that comes after `before` others of it. Returns how
/// many calls failed: if none, the run ends as the row says.
fn run_failing<R: Runner>(
    alloc: Global,
    runner: &R,
    names: &Names,
    row: &Row<'_>,
    whole: &Outcome,
    end: (&str, &str, &str),
    before: usize,
    differences: &mut Differences,
) -> Result<u64, Fail> {
    let fails = format!(in alloc; "{} {}", end.0, before.saturating_add(1))?;
    let row = row.with(Column::Fails, &fails);
    let came = outcome_of(alloc, runner, names, &row)?;
    compare_failing(alloc, names, &row, whole, end, before, &came, differences)?;
    Ok(came.faults)
}

/// Compares how a run ended in which a call was to fail: as the row says if none did.
fn compare_failing(
    alloc: Global,
    names: &Names,
    row: &Row<'_>,
    whole: &Outcome,
    end: (&str, &str, &str),
    before: usize,
    came: &Outcome,
    differences: &mut Differences,
) -> Result<(), Fail> {
    if came.faults == 0 {
        compare(alloc, names, row, came, differences)
    } else {
        compare_fault(alloc, names, row, whole, end, before, came, differences)
    }
}

/// How many bytes of these lines `calls` calls write, which move a piece each: no call moves bytes
/// of two lines.
fn front_size(lines: &str, piece: usize, calls: usize) -> usize {
    if piece == 0 {
        return 0;
    }
    let mut size: usize = 0;
    let mut left = calls;
    for line in lines.lines() {
        let length = line.len().saturating_add(1);
        let taken = left.min(length.div_ceil(piece));
        size = size.saturating_add(length.min(taken.saturating_mul(piece)));
        left = left.saturating_sub(taken);
    }
    size
}

/// Compares how a run ended in which one call failed, after `before` calls of its name, with what
/// is then allowed: the status is for what failed, there is no new file, and no more was written or
/// drawn than in the run without faults. If the line failed, only its first bytes are there.
fn compare_fault(
    alloc: Global,
    names: &Names,
    row: &Row<'_>,
    whole: &Outcome,
    end: (&str, &str, &str),
    before: usize,
    came: &Outcome,
    differences: &mut Differences,
) -> Result<(), Fail> {
    let piece = row.cell(Column::Piece).parse::<usize>()?;
    let moved = before.saturating_mul(piece);
    differences.hold_count(alloc, "count of faults", "1", came.faults as usize)?;
    if end.1.is_empty() {
        compare_line(
            alloc,
            names,
            row,
            &whole.line,
            piece,
            before,
            came,
            differences,
        )
    } else {
        let row = row
            .with(Column::Status, end.1)
            .with(Column::Line, end.2)
            .with(Column::Made, "none");
        let size = kept_size(&row, end.0, moved, came);
        compare_kept(alloc, names, &row, whole, size, came, differences)
    }
}

/// Compares a run in which the line broke off after `calls` calls, which move a piece each.
fn compare_line(
    alloc: Global,
    names: &Names,
    row: &Row<'_>,
    whole: &[u8],
    piece: usize,
    calls: usize,
    came: &Outcome,
    differences: &mut Differences,
) -> Result<(), Fail> {
    let line = line_before(alloc, whole, piece, calls)?;
    let row = row.with(Column::Line, &line);
    compare(alloc, names, &row, came, differences)
}

/// What a cell says of a line that broke off after `calls` calls, which move a piece each.
fn line_before(alloc: Global, line: &[u8], piece: usize, calls: usize) -> Result<String, Fail> {
    let size = front_size(from_utf8(line)?, piece, calls);
    match line.get(..size) {
        Some(front) => begun_line(alloc, front),
        None => Err("a line so long".into()),
    }
}

/// What a cell says of a line that begins with these bytes.
fn begun_line(alloc: Global, front: &[u8]) -> Result<String, Fail> {
    let front = from_utf8(front)?;
    Ok(format!(in alloc; "{front}..")?)
}

/// Compares a run that failed, of whose output `size` bytes are kept, and which drew no more random
/// bytes than the run without faults.
fn compare_kept(
    alloc: Global,
    names: &Names,
    row: &Row<'_>,
    whole: &Outcome,
    size: usize,
    came: &Outcome,
    differences: &mut Differences,
) -> Result<(), Fail> {
    let front = whole.output.get(..size).unwrap_or(&whole.output);
    let output = hex::encode(alloc, front)?;
    let drawn = format!(in alloc; "{}", came.drawn.min(whole.drawn))?;
    let row = row
        .with(Column::Output, &output)
        .with(Column::Drawn, &drawn);
    compare(alloc, names, &row, came, differences)
}

/// How many bytes of the output are kept if a call of this name failed: those of the writes before,
/// or none; for a command in `LASTING`, as many as came.
fn kept_size(row: &Row<'_>, name: &str, moved: usize, came: &Outcome) -> usize {
    let word = row.cell(Column::Words).split(' ').next().unwrap_or("");
    if LASTING.contains(&word) {
        came.output.len()
    } else if name == "write" {
        moved
    } else {
        0
    }
}
