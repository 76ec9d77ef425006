//! Codewords laid into grids and lifted out of them.

use crate::calls::{grid_of, is_dark_at, lay, lift, side_of, size_of, words_of};
use crate::claims::holds;
use dm_layout::{Grid, MOST_GRID_CODEWORDS, Size, Words, table};

/// Whether each cell of the row is as drawn, 1 for dark.
fn is_drawn_row(grid: &Grid, row: u16, drawn: &[u8]) -> bool {
    let mut column = 0u16;
    for cell in drawn {
        if is_dark_at(grid, row, column) != (*cell == b'1') {
            return false;
        }
        column = column.saturating_add(1);
    }
    column == side_of(grid)
}

/// Whether each cell of the grid is as drawn, 1 for dark.
fn is_drawn(grid: &Grid, drawn: &[&str]) -> bool {
    let mut row = 0u16;
    for cells in drawn {
        if !is_drawn_row(grid, row, cells.as_bytes()) {
            return false;
        }
        row = row.saturating_add(1);
    }
    row == side_of(grid)
}

/// The symbol of `123456`.
static WORKED: [&str; 10] = [
    "1010101010",
    "1100101101",
    "1100000100",
    "1100011101",
    "1100001000",
    "1000001111",
    "1110110000",
    "1111011001",
    "1001110100",
    "1111111111",
];

#[test]
fn the_symbol_of_123456_is_as_drawn(rt: HostRuntime) {
    let grid = grid_of(10, &[142, 164, 186, 114, 25, 5, 88, 102]);
    holds(&rt, is_drawn(&grid, &WORKED));
}

/// The symbol of side 12 whose codewords are zeros, with its fixed square.
static ZEROS: [&str; 12] = [
    "101010101010",
    "100000000001",
    "100000000000",
    "100000000001",
    "100000000000",
    "100000000001",
    "100000000000",
    "100000000001",
    "100000000000",
    "100000000101",
    "100000000010",
    "111111111111",
];

#[test]
fn zeros_with_the_fixed_square(rt: HostRuntime) {
    holds(&rt, is_drawn(&grid_of(12, &[]), &ZEROS));
}

/// The codewords of this size, each of which is this many times its place.
fn multiples(size: Size, factor: usize) -> Words {
    let mut list = [0; MOST_GRID_CODEWORDS];
    for place in 0..MOST_GRID_CODEWORDS {
        list[place] = (place.wrapping_mul(factor) % 256) as u8;
    }
    words_of(size, &list)
}

/// Whether the codewords of this size that are laid are lifted again.
fn come_back(size: Size) -> bool {
    let words = multiples(size, 37);
    lift(&lay(&words)) == words
}

#[test]
fn codewords_that_are_laid_are_lifted_again(rt: HostRuntime) {
    for size in table() {
        holds(&rt, come_back(size));
    }
}
