//! The shapes in which codewords lie in the mapping matrix: ISO/IEC 16022, module placement.

ghost use Rattle.std.specs.Prelude.{◌≡◌, ◌+◌, ◌%◌, ◌<◌, ◌≤◌};
ghost use Rattle.dm_place.specs.Placement.{At, AnchorInside, cells_of, wrapped_cell};
ghost use Rattle.dm_place.specs.Placement.{wrapped_at_top_and_left as wrapped_at_top_and_left_by};

/// A cell of the mapping matrix; row and column count from 0, from the top and from the left.
#[derive(Clone, Copy, Debug, PartialEq, Eq)]
pub struct Cell {
    pub row: u16,
    pub column: u16,
}

/// A shape of eight cells, which hold the bits of one codeword.
#[derive(Clone, Copy, Debug, PartialEq, Eq)]
pub enum Shape {
    /// The standard shape, by the row and the column of its lower right cell, the anchor.
    Standard(u16, u16),
    Corner1,
    Corner2,
    Corner3,
    Corner4,
}

/// Gives the cell at a row and a column.
fn at(row: u16, column: u16) -> Cell
    ensures { result ≡ At row column }
{
    Cell { row, column }
}

/// Gives the cell `up` rows above and `left` columns left of a cell of the mapping matrix, wrapped round its top edge
/// and then its left one. No difference here is below 0 for a shape of a matrix of the table of sizes.
fn wrapped_at_top_and_left(
    rows: u16,
    columns: u16,
    row: u16,
    column: u16,
    up: u16,
    left: u16,
) -> Cell
    requires rows { 6 ≤ rows }
    requires columns { 6 ≤ columns }
    requires most_rows { rows ≤ 132 }
    requires most_columns { columns ≤ 132 }
    requires row { row < rows }
    requires column { column < columns }
    requires up { up ≤ 2 }
    requires left { left ≤ 2 }
    ensures value { result ≡ wrapped_at_top_and_left_by rows columns row column up left }
{
    let right = (rows + 4) % 8;
    let down = (columns + 4) % 8;
    if row < up {
        if column + 4 < left + right {
            at(
                row + rows + 4 - (up + down),
                column + 4 + columns - (left + right),
            )
        } else {
            at(row + rows - up, column + 4 - (left + right))
        }
    } else if column < left {
        at((row + 4).saturating_sub(up + down), column + columns - left)
    } else {
        at(row - up, column - left)
    }
}

/// Gives the cell `up` rows above and `left` columns left of a cell of the mapping matrix, wrapped round its edges.
fn wrap(rows: u16, columns: u16, row: u16, column: u16, up: u16, left: u16) -> Cell
    requires rows { 6 ≤ rows }
    requires columns { 6 ≤ columns }
    requires most_rows { rows ≤ 132 }
    requires most_columns { columns ≤ 132 }
    requires row { row < rows }
    requires column { column < columns }
    requires up { up ≤ 2 }
    requires left { left ≤ 2 }
    ensures value { result ≡ wrapped_cell rows columns row column up left }
{
    let cell = wrapped_at_top_and_left(rows, columns, row, column, up, left);
    if rows <= cell.row {
        at(cell.row - rows, cell.column)
    } else {
        cell
    }
}

impl Shape {
    /// Gives the cells of the bits 1 (the highest) to 8 in a mapping matrix of so many rows and columns, each 6 to 132.
    #[inline(always)]
    pub fn cells(self, rows: u16, columns: u16) -> [Cell; 8]
        requires rows { 6 ≤ rows }
        requires columns { 6 ≤ columns }
        requires most_rows { rows ≤ 132 }
        requires most_columns { columns ≤ 132 }
        requires anchor { AnchorInside rows columns self }
        ensures value { result ≡ cells_of rows columns self }
    {
        match self {
            Shape::Standard(row, column) => standard_cells(rows, columns, row, column),
            Shape::Corner1 => [
                at(rows - 1, 0),
                at(rows - 1, 1),
                at(rows - 1, 2),
                at(0, columns - 2),
                at(0, columns - 1),
                at(1, columns - 1),
                at(2, columns - 1),
                at(3, columns - 1),
            ],
            Shape::Corner2 => [
                at(rows - 3, 0),
                at(rows - 2, 0),
                at(rows - 1, 0),
                at(0, columns - 4),
                at(0, columns - 3),
                at(0, columns - 2),
                at(0, columns - 1),
                at(1, columns - 1),
            ],
            Shape::Corner3 => [
                at(rows - 3, 0),
                at(rows - 2, 0),
                at(rows - 1, 0),
                at(0, columns - 2),
                at(0, columns - 1),
                at(1, columns - 1),
                at(2, columns - 1),
                at(3, columns - 1),
            ],
            Shape::Corner4 => [
                at(rows - 1, 0),
                at(rows - 1, columns - 1),
                at(0, columns - 3),
                at(0, columns - 2),
                at(0, columns - 1),
                at(1, columns - 3),
                at(1, columns - 2),
                at(1, columns - 1),
            ],
        }
    }
}

/// Gives the cells of the standard shape at an anchor.
#[inline(always)]
fn standard_cells(rows: u16, columns: u16, row: u16, column: u16) -> [Cell; 8]
    requires rows { 6 ≤ rows }
    requires columns { 6 ≤ columns }
    requires most_rows { rows ≤ 132 }
    requires most_columns { columns ≤ 132 }
    requires row { row < rows }
    requires column { column < columns }
    ensures value { result ≡ cells_of rows columns (Shape.Standard row column) }
{
    if row >= 2 && column >= 2 {
        let up = row - 2;
        let left = column - 2;
        return [
            at(up, left),
            at(up, left + 1),
            at(up + 1, left),
            at(up + 1, left + 1),
            at(up + 1, column),
            at(row, left),
            at(row, left + 1),
            at(row, column),
        ];
    }
    [
        wrap(rows, columns, row, column, 2, 2),
        wrap(rows, columns, row, column, 2, 1),
        wrap(rows, columns, row, column, 1, 2),
        wrap(rows, columns, row, column, 1, 1),
        wrap(rows, columns, row, column, 1, 0),
        wrap(rows, columns, row, column, 0, 2),
        wrap(rows, columns, row, column, 0, 1),
        wrap(rows, columns, row, column, 0, 0),
    ]
}
