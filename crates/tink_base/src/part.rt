//! A part of a list.

ghost use Rattle.std.specs.Prelude.{◌≡◌, ◌≤◌, length, slice_range};

use std::ops::Range;

/// The bytes of the list in that range. No memory is taken.
pub fn part_of(mut bytes: Vec<u8>, range: Range<usize>) -> Vec<u8>
    requires ordered { range.start ≤ range.end }
    requires within { range.end ≤ length bytes.items }
    ensures { result.items ≡ slice_range bytes.items range.start range.end }
{
    let size = range.end - range.start;
    bytes.as_mut_slice().copy_within(range, 0);
    bytes.truncate(size);
    bytes
}
