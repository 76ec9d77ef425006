//! The sizes of symbols as plain numbers: those of a static needn't be built anew where a size is looked for.

ghost use Rattle.std.specs.Prelude.{◌≡◌, ◌&&◌, nat_eq, nat_le, get_or, find};
ghost use Rattle.dm_layout.specs.symbols.inner.SizeRows.{row_entry, has_sides as has_sides_by, takes_sides};
ghost use Rattle.dm_layout.specs.declared.symbols.size_rows.TheConstants.{SIZE_ROWS};

use crate::symbols::size::{SIZE_COUNT, SizeChoice};

/// For each size of the table: rows and columns, of the symbol and of a region; regions down and across; data, check,
/// blocks; 1 if it is one of the extension, and else 0.
pub(crate) static SIZE_ROWS: [[u16; 10]; SIZE_COUNT] = [
    [10, 10, 8, 8, 1, 1, 3, 5, 1, 0],
    [12, 12, 10, 10, 1, 1, 5, 7, 1, 0],
    [8, 18, 6, 16, 1, 1, 5, 7, 1, 0],
    [14, 14, 12, 12, 1, 1, 8, 10, 1, 0],
    [16, 16, 14, 14, 1, 1, 12, 12, 1, 0],
    [8, 32, 6, 14, 1, 2, 10, 11, 1, 0],
    [12, 26, 10, 24, 1, 1, 16, 14, 1, 0],
    [18, 18, 16, 16, 1, 1, 18, 14, 1, 0],
    [8, 48, 6, 22, 1, 2, 18, 15, 1, 1],
    [20, 20, 18, 18, 1, 1, 22, 18, 1, 0],
    [12, 36, 10, 16, 1, 2, 22, 18, 1, 0],
    [22, 22, 20, 20, 1, 1, 30, 20, 1, 0],
    [8, 64, 6, 14, 1, 4, 24, 18, 1, 1],
    [24, 24, 22, 22, 1, 1, 36, 24, 1, 0],
    [16, 36, 14, 16, 1, 2, 32, 24, 1, 0],
    [8, 80, 6, 18, 1, 4, 32, 22, 1, 1],
    [26, 26, 24, 24, 1, 1, 44, 28, 1, 0],
    [20, 36, 18, 16, 1, 2, 44, 28, 1, 1],
    [16, 48, 14, 22, 1, 2, 49, 28, 1, 0],
    [12, 64, 10, 14, 1, 4, 43, 27, 1, 1],
    [8, 96, 6, 22, 1, 4, 38, 28, 1, 1],
    [20, 44, 18, 20, 1, 2, 56, 34, 1, 1],
    [8, 120, 6, 18, 1, 6, 49, 32, 1, 1],
    [32, 32, 14, 14, 2, 2, 62, 36, 1, 0],
    [16, 64, 14, 14, 1, 4, 62, 36, 1, 1],
    [26, 40, 24, 18, 1, 2, 70, 38, 1, 1],
    [22, 48, 20, 22, 1, 2, 72, 38, 1, 1],
    [12, 88, 10, 20, 1, 4, 64, 36, 1, 1],
    [24, 48, 22, 22, 1, 2, 80, 41, 1, 1],
    [8, 144, 6, 22, 1, 6, 63, 36, 1, 1],
    [26, 48, 24, 22, 1, 2, 90, 42, 1, 1],
    [20, 64, 18, 14, 1, 4, 84, 42, 1, 1],
    [36, 36, 16, 16, 2, 2, 86, 42, 1, 0],
    [24, 64, 22, 14, 1, 4, 108, 46, 1, 1],
    [40, 40, 18, 18, 2, 2, 114, 48, 1, 0],
    [26, 64, 24, 14, 1, 4, 118, 50, 1, 1],
    [44, 44, 20, 20, 2, 2, 144, 56, 1, 0],
    [48, 48, 22, 22, 2, 2, 174, 68, 1, 0],
    [52, 52, 24, 24, 2, 2, 204, 84, 2, 0],
    [64, 64, 14, 14, 4, 4, 280, 112, 2, 0],
    [72, 72, 16, 16, 4, 4, 368, 144, 4, 0],
    [80, 80, 18, 18, 4, 4, 456, 192, 4, 0],
    [88, 88, 20, 20, 4, 4, 576, 224, 4, 0],
    [96, 96, 22, 22, 4, 4, 696, 272, 4, 0],
    [104, 104, 24, 24, 4, 4, 816, 336, 6, 0],
    [120, 120, 18, 18, 6, 6, 1050, 408, 6, 0],
    [132, 132, 20, 20, 6, 6, 1304, 496, 8, 0],
    [144, 144, 22, 22, 6, 6, 1558, 620, 10, 0],
];

/// Whether these are the numbers of the size with these rows and columns.
fn has_sides(row: &[u16; 10], rows: u16, columns: u16) -> bool
    ensures { result ≡ has_sides_by rows columns (row_entry row.now) }
{
    row[0] == rows && row[1] == columns
}

/// Gives the numbers of the size with these rows and columns, if there is one.
pub(crate) fn row_with(rows: u16, columns: u16) -> Option<[u16; 10]>
    ensures { result ≡ find (λ row. has_sides_by rows columns (row_entry row)) SIZE_ROWS }
{
    SIZE_ROWS
        .iter()
        .copied()
        .find(|row| has_sides(row, rows, columns))
}

/// Whether these are the numbers of a size that the choice takes and that has at least `count` data codewords, which
/// are compared first, since that alone rules out all smaller sizes: small ones are found by half of the instructions.
fn is_enough(row: &[u16; 10], choice: SizeChoice, count: u16) -> bool
    ensures { result ≡ (nat_le count (get_or row.now 6 0)
        && takes_sides choice (get_or row.now 0 0) (get_or row.now 1 0) (nat_eq (get_or row.now 9 0) 1)) }
{
    count <= row[6] && choice.takes_sides(row[0], row[1], row[9] == 1)
}

/// Gives the numbers of the first size of the table that the choice takes and that has at least `count` data codewords.
pub(crate) fn row_for(choice: SizeChoice, count: u16) -> Option<[u16; 10]>
    ensures { result ≡ find (λ row. nat_le count (get_or row 6 0)
        && takes_sides choice (get_or row 0 0) (get_or row 1 0) (nat_eq (get_or row 9 0) 1)) SIZE_ROWS }
{
    SIZE_ROWS
        .iter()
        .copied()
        .find(|row| is_enough(row, choice, count))
}
