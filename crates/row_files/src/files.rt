//! The reader of files of rows.
//!
//! A file is blocks of lines, with an empty line between them. A line that begins with `#` is a
//! comment. A block of lines `let NAME = CELL` gives bytes names, for this file and later ones. A
//! block that begins with `table NAME` is a table: lines as `piece: 64` follow, each a cell that
//! all rows have, then a line with the names of the columns, the first of them `shows`, then a line
//! for each row. Cells are separated by `|`. Columns that a table doesn't have are as in `PLAIN`.

use crate::cells::bytes_of;
use crate::differences::Differences;
use crate::names::Names;
use crate::rows::{PLAIN, Row, place_of};
use crate::runner::Runner;
use crate::running::run_line;
use std::process::Termination;
use std::test::Fail;

/// How many rows of files differ, and how many of their lines are malformed.
#[derive(Clone, Copy)]
pub struct Tally {
    pub differ: usize,
    pub malformed: usize,
}

/// Neither.
const NONE: Tally = Tally {
    differ: 0,
    malformed: 0,
};

/// One line that is malformed.
const ONE_MALFORMED: Tally = Tally {
    differ: 0,
    malformed: 1,
};

impl Tally {
    /// No row and no line.
    pub fn none() -> Tally {
        NONE
    }

    /// The sums of both.
    pub fn and(self, more: Tally) -> Tally {
        Tally {
            differ: self.differ.saturating_add(more.differ),
            malformed: self.malformed.saturating_add(more.malformed),
        }
    }
}

/// What is above the rows of a table.
#[derive(Clone, Copy)]
struct Head<'a> {
    title: &'a str,
    /// The cells that all rows have.
    shared: Row<'a>,
    /// The names of the columns after the first.
    columns: &'a str,
}

/// Runs the rows of a file of this name and this text. Writes a line for each table with its number
/// of rows to standard output, and reports each row that differs and each malformed line on
/// standard error.
pub fn run_text<R: Runner>(
    rt: &HostRuntime,
    runner: &R,
    names: &mut Names,
    file: &str,
    text: &str,
) -> Result<Tally, Fail> {
    let mut tally = NONE;
    let mut first: usize = 1;
    for block in text.split("\n\n") {
        tally = tally.and(run_block(rt, runner, names, file, first, block)?);
        first = first
            .saturating_add(block.split('\n').count())
            .saturating_add(1);
    }
    Ok(tally)
}

/// Runs the rows of a block, or defines its names. Its first line has this number.
fn run_block<R: Runner>(
    rt: &HostRuntime,
    runner: &R,
    names: &mut Names,
    file: &str,
    first: usize,
    block: &str,
) -> Result<Tally, Fail> {
    let Some((above, rows)) = block.split_once("\nshows |") else {
        return Ok(define_all(rt, names, file, first, block));
    };
    let columns_at = first.saturating_add(above.split('\n').count());
    let (columns, lines) = rows.split_once('\n').unwrap_or((rows, ""));
    match head_of(above, columns) {
        Ok(head) => run_lines(rt, runner, names, file, columns_at, head, lines),
        Err(fail) => Ok(tell_malformed(rt, file, columns_at, fail)),
    }
}

/// Defines the names of a block, each on its line.
fn define_all(rt: &HostRuntime, names: &mut Names, file: &str, first: usize, block: &str) -> Tally {
    let mut tally = NONE;
    let mut at = first;
    for line in block.lines() {
        if let Err(fail) = define(rt, names, line) {
            tally = tally.and(tell_malformed(rt, file, at, fail));
        }
        at = at.saturating_add(1);
    }
    tally
}

/// Defines the name of a line.
fn define(rt: &HostRuntime, names: &mut Names, line: &str) -> Result<(), Fail> {
    if is_remark(line) {
        return Ok(());
    }
    let Some(told) = line.strip_prefix("let ") else {
        return Err("a remark, a name or a table".into());
    };
    let Some((name, cell)) = told.split_once(" = ") else {
        return Err("let NAME = CELL".into());
    };
    let bytes = bytes_of(rt.alloc(), names, cell)?;
    names.set(rt.alloc(), name, bytes)
}

/// Whether a line is empty or a comment.
fn is_remark(line: &str) -> bool {
    line.is_empty() || line.starts_with('#')
}

/// What is above the rows of a table.
fn head_of<'a>(above: &'a str, columns: &'a str) -> Result<Head<'a>, Fail> {
    hold_columns(columns)?;
    Ok(Head {
        title: title_of(above)?,
        shared: shared_of(above)?,
        columns,
    })
}

/// The name of a table.
fn title_of(above: &str) -> Result<&str, Fail> {
    for line in above.lines() {
        if let Some(title) = line.strip_prefix("table ") {
            return Ok(title);
        }
    }
    Err("table NAME".into())
}

/// The cells that all rows of a table have.
fn shared_of(above: &str) -> Result<Row<'_>, Fail> {
    let mut shared = PLAIN;
    for line in above.lines() {
        shared = with_shared(shared, line)?;
    }
    Ok(shared)
}

/// The row with the cell of a line that all rows have, if the line has one.
fn with_shared<'a>(shared: Row<'a>, line: &'a str) -> Result<Row<'a>, Fail> {
    if is_remark(line) || line.starts_with("table ") {
        return Ok(shared);
    }
    match line.split_once(':') {
        Some((name, cell)) => shared.with_named(name, cell.trim()),
        None => Err("a cell of all rows".into()),
    }
}

/// Each column occurs once, and has a known name.
fn hold_columns(columns: &str) -> Result<(), Fail> {
    for (place, name) in columns.split('|').enumerate() {
        let _place = place_of(name.trim())?;
        if is_before(columns, place, name.trim()) {
            return Err(Fail::new(format_args!("one column {name}")));
        }
    }
    Ok(())
}

/// Whether one of the first `count` columns has this name.
fn is_before(columns: &str, count: usize, name: &str) -> bool {
    for before in columns.split('|').take(count) {
        if before.trim() == name {
            return true;
        }
    }
    false
}

/// Runs the rows of a table, each on its line, and prints how many there are. The line of the
/// columns has the number `columns_at`.
fn run_lines<R: Runner>(
    rt: &HostRuntime,
    runner: &R,
    names: &mut Names,
    file: &str,
    columns_at: usize,
    head: Head<'_>,
    lines: &str,
) -> Result<Tally, Fail> {
    let title = head.title;
    let mut tally = NONE;
    let mut count: usize = 0;
    let mut at = columns_at;
    for line in lines.lines() {
        at = at.saturating_add(1);
        if !is_remark(line) {
            count = count.saturating_add(1);
            tally = tally.and(run_one(rt, runner, names, file, at, head, line));
        }
    }
    if count == 0 {
        return Ok(tell_malformed(rt, file, columns_at, "a row".into()));
    }
    println!(rt; "{file} {title}: {count} rows")?;
    Ok(tally)
}

/// Runs the row on the line with this number, and reports whether it differs or is malformed.
fn run_one<R: Runner>(
    rt: &HostRuntime,
    runner: &R,
    names: &mut Names,
    file: &str,
    at: usize,
    head: Head<'_>,
    line: &str,
) -> Tally {
    match run_line(rt.alloc(), runner, names, &head.shared, head.columns, line) {
        Ok(differences) if differences.count() == 0 => NONE,
        Ok(differences) => tell_differences(rt, file, at, head.title, line, &differences),
        Err(fail) => tell_malformed(rt, file, at, fail),
    }
}

/// Reports what differs from the row of a line on standard error. If that can't be written, it
/// still counts.
fn tell_differences(
    rt: &HostRuntime,
    file: &str,
    at: usize,
    title: &str,
    line: &str,
    differences: &Differences,
) -> Tally {
    let shows = line.split('|').next().unwrap_or(line).trim();
    let lines = differences.lines();
    let _ = eprint!(rt; "{file}:{at}: {title}: {shows}: differs\n{lines}");
    Tally {
        differ: 1,
        malformed: 0,
    }
}

/// Reports what the line with this number lacks on standard error. If that can't be written, it
/// still counts.
fn tell_malformed(rt: &HostRuntime, file: &str, at: usize, fail: Fail) -> Tally {
    let _ = eprint!(rt; "{file}:{at}: malformed: ");
    let told: Result<(), Fail> = Err(fail);
    let _code = told.report(rt);
    ONE_MALFORMED
}
