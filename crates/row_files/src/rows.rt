//! The rows of tables: a cell for each column, and the defaults of columns that a table doesn't
//! have.

use std::test::Fail;

/// The columns of a table.
#[derive(Clone, Copy)]
pub(crate) enum Column {
    /// What the row shows.
    Shows,
    /// The words after the program's name, separated by spaces. `''` is the empty word, and `*9` at
    /// a word's end stands for nine digits 0.
    Words,
    /// The bytes of the file `k`, or `none` if there is none.
    File,
    /// The bytes of the input, and of the file `s`.
    Input,
    /// The random bytes.
    Random,
    /// How many bytes the objects move at a time: a run for each of these numbers.
    Piece,
    /// The call that fails, counted from 1: `read 1` of the input, `write 1` of the output, `line
    /// 1` of the diagnostic line, `store 1` of the files, `fill 1` of the random bytes; `torn 10`
    /// if the store fails at each new file and keeps its first 10 bytes; or `none 0`.
    Fails,
    /// The exit code and the status, as `2 Usage(0)`.
    Status,
    /// The first line of standard error without its newline, and after ` / ` the second one; with
    /// `..` at the end, only their beginning; or the bytes after a `=`.
    Line,
    /// The bytes of the output; for a long one the first ones, after `~` how many there are, and
    /// the last ones. A `*` is any count.
    Output,
    /// The bytes of the new file `n`, or `none` if there is none.
    Made,
    /// How many random bytes were drawn.
    Drawn,
    /// The managers of keys, by a name that the runner knows.
    Managers,
    /// How many calls of each name the run makes, as `failing.rt` counts them; each of them fails
    /// in turn.
    Calls,
    /// A run for each of these texts, which replaces `$` in all other cells.
    Each,
    /// Status and line, separated by `: `, of each run over bytes changed as in `changed.rt`.
    Changed,
    /// The name of the output in later rows.
    Keep,
    /// Bytes that the output must differ from, or `none`.
    Unlike,
    /// The most bytes of files that the run may be given; without any, they aren't counted.
    Given,
    /// The bytes of the file `l`, or `none` if there is none.
    Other,
}

/// The names of the columns, in the order of `Column`.
const NAMES: [&str; 20] = [
    "shows", "words", "file", "input", "random", "piece", "fails", "status", "line", "output",
    "made", "drawn", "managers", "calls", "each", "changed", "keep", "unlike", "given", "other",
];

/// What a row runs, and how the run must end: a cell for each column.
#[derive(Clone, Copy)]
pub(crate) struct Row<'a> {
    cells: [&'a str; 20],
}

/// The row that a table starts from: nothing fails, and nothing is written.
pub(crate) const PLAIN: Row<'static> = Row {
    cells: [
        "", "", "none", "", "", "4096", "none 0", "", "", "", "none", "0", "program", "", "", "",
        "", "none", "", "none",
    ],
};

impl<'a> Row<'a> {
    /// The cell of this column.
    pub(crate) fn cell(&self, column: Column) -> &'a str {
        self.cells[column as usize]
    }

    /// The cells, in the order of the columns.
    pub(crate) fn cells(&self) -> [&'a str; 20] {
        self.cells
    }

    /// The row with this cell in the column.
    pub(crate) fn with(self, column: Column, cell: &'a str) -> Row<'a> {
        self.with_at(column as usize, cell)
    }

    /// The row with this cell at this place.
    fn with_at(mut self, place: usize, cell: &'a str) -> Row<'a> {
        if let Some(found) = self.cells.get_mut(place) {
            *found = cell;
        }
        self
    }

    /// The row with this cell in the column of this name.
    pub(crate) fn with_named(self, name: &str, cell: &'a str) -> Result<Row<'a>, Fail> {
        Ok(self.with_at(place_of(name)?, cell))
    }
}

/// The index of the column of this name.
pub(crate) fn place_of(name: &str) -> Result<usize, Fail> {
    for (place, known) in NAMES.iter().enumerate() {
        if *known == name {
            return Ok(place);
        }
    }
    Err(Fail::new(format_args!("the column {name}")))
}

/// The row of these cells, in the order of the columns.
pub(crate) fn row_of(texts: &[String]) -> Row<'_> {
    let mut row = PLAIN;
    for (place, text) in texts.iter().enumerate() {
        row = row.with_at(place, text.as_str());
    }
    row
}
