//! A row of cells as one number: the cell of column `c`, counted from 0 at the left, is the bit of weight 2^c, 1 for
//! dark. So the leftmost cell is the lowest bit.

ghost use Rattle.std.specs.Prelude.{◌≡◌, ℕ, ◌<◌, ◌≤◌, false, get_or, length};
ghost use Rattle.dm_layout.specs.Sizes.{largest_side};
ghost use Rattle.dm_layout.specs.Grid.{is_dark_in};

/// Gives the row with these cells, from the left.
pub(crate) fn packed_row(cells: &[bool]) -> u128
    requires { length cells.now ≤ largest_side }
    ensures { (column : ℕ) → column < length cells.now → is_dark_in result column
        ≡ get_or cells.now column false }
{
    let mut row = 0;
    for (column, dark) in cells.iter().enumerate() {
        if *dark {
            row |= 1 << column;
        }
    }
    row
}
