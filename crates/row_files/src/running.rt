//! The runs of a row: one for each value, each count of bytes and, if the row asks for it, each
//! call that fails and each changed byte.

use crate::cells::{bytes_of, file_of};
use crate::changed::run_changed;
use crate::compare::compare;
use crate::differences::Differences;
use crate::failing::run_each_failing;
use crate::names::Names;
use crate::rows::{Column, Row, place_of, row_of};
use crate::runner::{CALLS, Objects, Outcome, Runner};
use std::alloc::Global;
use std::test::Fail;

/// Runs the row of a line, whose cells are `shows` and those of the columns after it. Returns what
/// differs.
pub(crate) fn run_line<R: Runner>(
    alloc: Global,
    runner: &R,
    names: &mut Names,
    shared: &Row<'_>,
    columns: &str,
    line: &str,
) -> Result<Differences, Fail> {
    let texts = cells_of(alloc, shared, columns, line)?;
    let mut differences = Differences::new(alloc);
    run_texts(alloc, runner, names, &texts, &mut differences)?;
    Ok(differences)
}

/// The cells of a line, each in its column, over those that all rows share.
fn cells_of(
    alloc: Global,
    shared: &Row<'_>,
    columns: &str,
    line: &str,
) -> Result<Vec<String>, Fail> {
    let Some((shows, line)) = line.split_once('|') else {
        return Err("a second cell".into());
    };
    if line.split('|').count() != columns.split('|').count() {
        return Err(Fail::new(format_args!("as many cells as columns: {shows}")));
    }
    if shows.trim().is_empty() {
        return Err("what it shows".into());
    }
    let mut texts = texts_of(alloc, shared)?;
    put(alloc, &mut texts, "shows", shows.trim())?;
    put_all(alloc, &mut texts, columns, line)?;
    Ok(texts)
}

/// The cells of a row.
fn texts_of(alloc: Global, row: &Row<'_>) -> Result<Vec<String>, Fail> {
    let mut texts = Vec::new(alloc);
    for cell in row.cells() {
        texts.push(String::from_str(alloc, cell)?)?;
    }
    Ok(texts)
}

/// Puts each cell of a line into its column.
fn put_all(alloc: Global, texts: &mut Vec<String>, columns: &str, line: &str) -> Result<(), Fail> {
    for (name, cell) in columns.split('|').zip(line.split('|')) {
        put(alloc, texts, name.trim(), cell.trim())?;
    }
    Ok(())
}

/// Puts a cell into the column of this name: in the place of each `?` of the cell that all rows
/// share, or alone if that has no `?`.
fn put(alloc: Global, texts: &mut Vec<String>, name: &str, cell: &str) -> Result<(), Fail> {
    let Some(text) = texts.get_mut(place_of(name)?) else {
        return Err("a column".into());
    };
    *text = text_with(alloc, text.as_str(), cell)?;
    Ok(())
}

/// The text with this cell in the place of each `?`, or the cell alone if the text has no `?`.
fn text_with(alloc: Global, text: &str, cell: &str) -> Result<String, Fail> {
    if text.contains('?') {
        Ok(text.replace(alloc, '?', cell)?)
    } else {
        Ok(String::from_str(alloc, cell)?)
    }
}

/// Runs the row of these cells, once for each text that replaces `$`.
fn run_texts<R: Runner>(
    alloc: Global,
    runner: &R,
    names: &mut Names,
    texts: &[String],
    differences: &mut Differences,
) -> Result<(), Fail> {
    let row = row_of(texts);
    let each = row.cell(Column::Each);
    if each.is_empty() {
        return run_kept(alloc, runner, names, &row, differences);
    }
    for value in each.split_whitespace() {
        run_value(alloc, runner, names, texts, value, differences)?;
    }
    Ok(())
}

/// Runs the row of these cells with this text in the place of each `$`.
fn run_value<R: Runner>(
    alloc: Global,
    runner: &R,
    names: &mut Names,
    texts: &[String],
    value: &str,
    differences: &mut Differences,
) -> Result<(), Fail> {
    let filled = filled_with(alloc, texts, value)?;
    let row = row_of(&filled);
    run_kept(
        alloc,
        runner,
        names,
        &row.with(Column::Each, value),
        differences,
    )
}

/// The texts with this one in the place of each `$`.
fn filled_with(alloc: Global, texts: &[String], value: &str) -> Result<Vec<String>, Fail> {
    let mut filled = Vec::new(alloc);
    for text in texts {
        filled.push(text.as_str().replace(alloc, '$', value)?)?;
    }
    Ok(filled)
}

/// Runs a row, and keeps its output if the row gives it a name.
fn run_kept<R: Runner>(
    alloc: Global,
    runner: &R,
    names: &mut Names,
    row: &Row<'_>,
    differences: &mut Differences,
) -> Result<(), Fail> {
    let output = run_row(alloc, runner, names, row, differences)?;
    let keep = row.cell(Column::Keep);
    if keep.is_empty() {
        Ok(())
    } else {
        names.set(alloc, keep, output)
    }
}

/// Runs a row for each of its pieces, and compares how each run ended. Returns the last one's
/// output.
fn run_row<R: Runner>(
    alloc: Global,
    runner: &R,
    names: &Names,
    row: &Row<'_>,
    differences: &mut Differences,
) -> Result<Vec<u8>, Fail> {
    let mut output = None;
    for piece in row.cell(Column::Piece).split_whitespace() {
        let row = row.with(Column::Piece, piece);
        output = Some(run_piece(alloc, runner, names, &row, differences)?);
    }
    match output {
        Some(output) => Ok(output),
        None => Err("how many bytes move at a time".into()),
    }
}

/// Runs a row and, if it asks for that, runs it with each call failing in turn and with its bytes
/// changed. Returns the output of the run without faults or changes.
fn run_piece<R: Runner>(
    alloc: Global,
    runner: &R,
    names: &Names,
    row: &Row<'_>,
    differences: &mut Differences,
) -> Result<Vec<u8>, Fail> {
    let came = outcome_of(alloc, runner, names, row)?;
    compare(alloc, names, row, &came, differences)?;
    run_more(alloc, runner, names, row, &came, differences)?;
    Ok(came.output)
}

/// Runs a row, whose run ended as `came`, with each call failing in turn and with its bytes changed,
/// if the row asks for that.
fn run_more<R: Runner>(
    alloc: Global,
    runner: &R,
    names: &Names,
    row: &Row<'_>,
    came: &Outcome,
    differences: &mut Differences,
) -> Result<(), Fail> {
    if !row.cell(Column::Calls).is_empty() {
        run_each_failing(alloc, runner, names, row, came, differences)?;
    }
    if row.cell(Column::Changed).is_empty() {
        Ok(())
    } else {
        run_changed(alloc, runner, names, row, differences)
    }
}

/// Runs the row's words over its objects.
pub(crate) fn outcome_of<R: Runner>(
    alloc: Global,
    runner: &R,
    names: &Names,
    row: &Row<'_>,
) -> Result<Outcome, Fail> {
    let words = words_of(alloc, row.cell(Column::Words))?;
    run_words(alloc, runner, names, row, &words)
}

/// Runs these words over the objects of a row.
fn run_words<R: Runner>(
    alloc: Global,
    runner: &R,
    names: &Names,
    row: &Row<'_>,
    words: &[String],
) -> Result<Outcome, Fail> {
    let file = file_of(alloc, names, row.cell(Column::File))?;
    let other = file_of(alloc, names, row.cell(Column::Other))?;
    let objects = objects_of(alloc, names, row, file.as_deref(), other.as_deref())?;
    runner.run(alloc, words, objects)
}

/// The objects of a row with these bytes of the files `k` and `l`.
fn objects_of<'a, 'r: 'a>(
    alloc: Global,
    names: &Names,
    row: &Row<'r>,
    file: Option<&'a [u8]>,
    other: Option<&'a [u8]>,
) -> Result<Objects<'a>, Fail> {
    let piece = row.cell(Column::Piece).parse::<usize>()?;
    let fails = failing(row.cell(Column::Fails))?;
    Ok(Objects {
        managers: row.cell(Column::Managers),
        piece,
        fails,
        file,
        other,
        input: bytes_of(alloc, names, row.cell(Column::Input))?,
        random: bytes_of(alloc, names, row.cell(Column::Random))?,
    })
}

/// The words that a cell gives.
fn words_of(alloc: Global, cell: &str) -> Result<Vec<String>, Fail> {
    let mut words = Vec::new(alloc);
    for word in cell.split_whitespace() {
        words.push(word_of(alloc, word)?)?;
    }
    Ok(words)
}

/// The word that is written like this.
fn word_of(alloc: Global, written: &str) -> Result<String, Fail> {
    if written == "''" {
        return Ok(String::new(alloc));
    }
    match written.split_once('*') {
        Some((front, count)) => word_with(alloc, front, count.parse::<usize>()?),
        None => Ok(String::from_str(alloc, written)?),
    }
}

/// The word that begins like this and ends with `count` digits 0.
fn word_with(alloc: Global, front: &str, count: usize) -> Result<String, Fail> {
    let zeros = "0".repeat(alloc, count)?;
    Ok(format!(in alloc; "{front}{zeros}")?)
}

/// The name of the call that fails, and its number.
fn failing(cell: &str) -> Result<(&str, u64), Fail> {
    let Some((name, number)) = cell.split_once(' ') else {
        return Err("a call and its number".into());
    };
    if CALLS.contains(&name) {
        Ok((name, number.parse::<u64>()?))
    } else {
        Err(Fail::new(format_args!("the call {name}")))
    }
}
