//! Tests of borders.

use crate::calls::{grid_of, is_dark_at, plain, side_of};
use crate::claims::holds;
use dm_layout::{Grid, border_faults};

/// Whether so many cells of the borders of a light and of a dark grid of this side are wrong.
fn has_faults(side: u16, light: u16, dark: u16) -> bool {
    border_faults(&plain(side, false)) == light && border_faults(&plain(side, true)) == dark
}

#[test]
fn faults_of_grids_of_one_colour(rt: HostRuntime) {
    holds(&rt, has_faults(10, 27, 9) && has_faults(52, 300, 100));
}

/// The rows of the fixed square in the symbol of side 12 whose codewords are zeros.
static SQUARE_ROWS: [(u16, [bool; 12]); 2] = [
    (
        9,
        [
            true, false, false, false, false, false, false, false, false, true, false, true,
        ],
    ),
    (
        10,
        [
            true, false, false, false, false, false, false, false, false, false, true, false,
        ],
    ),
];

/// Whether the grid has these cells in this row.
fn has_row(grid: &Grid, row: u16, cells: &[bool; 12]) -> bool {
    for column in 0..12 {
        if is_dark_at(grid, row, column) != cells[column as usize] {
            return false;
        }
    }
    true
}

#[test]
fn borders_and_fixed_square_around_zeros(rt: HostRuntime) {
    let grid = grid_of(12, &[]);
    holds(&rt, border_faults(&grid) == 0);
    holds(&rt, side_of(&grid) == 12);
    for (row, cells) in &SQUARE_ROWS {
        holds(&rt, has_row(&grid, *row, cells));
    }
}
