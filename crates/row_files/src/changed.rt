//! Changed sealed bytes and tags: the tag if the words have one, otherwise the input.

use crate::cells::bytes_of;
use crate::compare::compare;
use crate::differences::Differences;
use crate::names::Names;
use crate::rows::{Column, Row};
use crate::runner::Runner;
use crate::running::outcome_of;
use std::alloc::Global;
use std::test::Fail;

/// Runs over each proper prefix, over a changed bit in each byte, and over one more byte; each run
/// ends as the row's cell says, without any output or new file.
pub(crate) fn run_changed<R: Runner>(
    alloc: Global,
    runner: &R,
    names: &Names,
    row: &Row<'_>,
    differences: &mut Differences,
) -> Result<(), Fail> {
    let bytes = taken_of(alloc, names, row)?;
    match row.cell(Column::Changed).split_once(": ") {
        Some((status, line)) => {
            let row = refused(row, status, line);
            run_over(alloc, runner, names, &row, &bytes, differences)
        }
        None => Err("a status and a line".into()),
    }
}

/// The row of a run that is refused with this status and line.
fn refused<'a>(row: &Row<'a>, status: &'a str, line: &'a str) -> Row<'a> {
    row.with(Column::Status, status)
        .with(Column::Line, line)
        .with(Column::Output, "")
        .with(Column::Made, "none")
}

/// Runs over each change of these bytes.
fn run_over<R: Runner>(
    alloc: Global,
    runner: &R,
    names: &Names,
    row: &Row<'_>,
    bytes: &[u8],
    differences: &mut Differences,
) -> Result<(), Fail> {
    for place in 0..bytes.len() {
        run_at(alloc, runner, names, row, bytes, place, differences)?;
    }
    run_longer(alloc, runner, names, row, bytes, differences)
}

/// Runs over the bytes before this place, and with a bit flipped of the byte there.
fn run_at<R: Runner>(
    alloc: Global,
    runner: &R,
    names: &Names,
    row: &Row<'_>,
    bytes: &[u8],
    place: usize,
    differences: &mut Differences,
) -> Result<(), Fail> {
    let Some(front) = bytes.get(..place) else {
        return Err("a front".into());
    };
    run_with(alloc, runner, names, row, front, differences)?;
    run_turned(alloc, runner, names, row, bytes, place, differences)
}

/// Runs with one more byte.
fn run_longer<R: Runner>(
    alloc: Global,
    runner: &R,
    names: &Names,
    row: &Row<'_>,
    bytes: &[u8],
    differences: &mut Differences,
) -> Result<(), Fail> {
    let mut longer = bytes.to_vec(alloc)?;
    longer.push(0)?;
    run_with(alloc, runner, names, row, &longer, differences)
}

/// The bytes of the tag, or of the input.
fn taken_of(alloc: Global, names: &Names, row: &Row<'_>) -> Result<Vec<u8>, Fail> {
    match row.cell(Column::Words).split_once("--tag-hex ") {
        Some((_, behind)) => {
            let tag = behind.split(' ').next().unwrap_or("");
            bytes_of(alloc, names, tag)
        }
        None => bytes_of(alloc, names, row.cell(Column::Input)),
    }
}

/// Runs with one bit of the byte at this place flipped, a different bit at the next place.
fn run_turned<R: Runner>(
    alloc: Global,
    runner: &R,
    names: &Names,
    row: &Row<'_>,
    bytes: &[u8],
    place: usize,
    differences: &mut Differences,
) -> Result<(), Fail> {
    let mut turned = bytes.to_vec(alloc)?;
    let Some(byte) = turned.get_mut(place) else {
        return Err("a place".into());
    };
    *byte ^= 1 << (place % 8);
    run_with(alloc, runner, names, row, &turned, differences)
}

/// Runs with these bytes as the tag, or as the input.
fn run_with<R: Runner>(
    alloc: Global,
    runner: &R,
    names: &Names,
    row: &Row<'_>,
    bytes: &[u8],
    differences: &mut Differences,
) -> Result<(), Fail> {
    let digits = hex::encode(alloc, bytes)?;
    match row.cell(Column::Words).split_once("--tag-hex ") {
        Some((front, behind)) => {
            let words = words_with(alloc, front, &digits, behind)?;
            let row = row.with(Column::Words, &words);
            run_once(alloc, runner, names, &row, differences)
        }
        None => {
            let row = row.with(Column::Input, &digits);
            run_once(alloc, runner, names, &row, differences)
        }
    }
}

/// The words with these digits in the place of the tag, which is the first word of `behind`.
fn words_with(alloc: Global, front: &str, digits: &str, behind: &str) -> Result<String, Fail> {
    let others = behind.split_once(' ').unwrap_or(("", "")).1;
    Ok(format!(in alloc; "{front}--tag-hex={digits} {others}")?)
}

/// Runs a row once, and compares how it ended.
fn run_once<R: Runner>(
    alloc: Global,
    runner: &R,
    names: &Names,
    row: &Row<'_>,
    differences: &mut Differences,
) -> Result<(), Fail> {
    let came = outcome_of(alloc, runner, names, row)?;
    compare(alloc, names, row, &came, differences)
}
