//! The rows of tables: the bytes of their cells, and what a failure names them by.

use std::alloc::Global;
use std::test::Fail;
use test_words::bytes_of;

/// What each row of a table shows.
pub(crate) trait Row {
    /// Fails where the row isn't as computed. `cells` are the bytes of its cells of hexadecimal digits.
    fn assert_row(alloc: Global, row: &str, cells: &[Vec<u8>]) -> Result<(), Fail>;
}

/// Fails at the first row that isn't as computed. From the place `first` on, the cells of a row are
/// hexadecimal digits; `refused` as the last one is left out.
pub(crate) fn assert_rows<R: Row>(alloc: Global, first: usize, rows: &str) -> Result<(), Fail> {
    for row in rows.lines() {
        assert_cells::<R>(alloc, first, row)?;
    }
    Ok(())
}

fn assert_cells<R: Row>(alloc: Global, first: usize, row: &str) -> Result<(), Fail> {
    let cells = cells_of(alloc, first, row)?;
    R::assert_row(alloc, row, &cells)
}

fn cells_of(alloc: Global, first: usize, row: &str) -> Result<Vec<Vec<u8>>, Fail> {
    let mut cells = Vec::new(alloc);
    for cell in row
        .strip_suffix(REFUSED)
        .unwrap_or(row)
        .split('|')
        .skip(first)
    {
        cells.push(bytes_of(alloc, cell.trim())?)?;
    }
    Ok(cells)
}

/// The last cell of a row whose sealing is to be refused.
pub(crate) const REFUSED: &str = "|refused";

/// The beginning of a row, by which a failure names it.
pub(crate) fn title(row: &str) -> &str {
    row.get(..80).unwrap_or(row)
}

/// These bytes, where they are so many.
pub(crate) fn exactly<const N: usize>(bytes: &[u8]) -> Option<&[u8; N]> {
    if bytes.len() == N {
        return bytes.first_chunk::<N>();
    }
    None
}

/// The number of a block of 16 bytes, whose first byte is the highest.
pub(crate) fn number_of(block: &[u8]) -> Option<u128> {
    Some(u128::from_be_bytes(*exactly::<16>(block)?))
}
