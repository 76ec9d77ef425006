//! Tests of grids.

use crate::calls::{grid_with, is_dark_at, plain, side_of};
use crate::claims::holds;
use dm_layout::{Grid, GridFault};

/// What `Grid::new` gives.
fn of_cells(side: u16, cells: &[bool]) -> Result<Grid, GridFault> {
    Grid::new(side, cells)
}

/// What `Grid::of_rows` gives.
fn of_rows(side: u16, rows: &[u128]) -> Result<Grid, GridFault> {
    Grid::of_rows(side, rows)
}

/// What `Grid::set_rows` gives.
fn set_rows(grid: &mut Grid, side: u16, rows: &[u128]) -> Result<(), GridFault> {
    grid.set_rows(side, rows)
}

/// Whether there is no grid for this reason.
fn is_refused(outcome: &Result<Grid, GridFault>, fault: GridFault) -> bool {
    match outcome {
        Ok(_) => false,
        Err(found) => *found == fault,
    }
}

#[test]
fn cells_that_make_no_grid(rt: HostRuntime) {
    let cells = [false; 121];
    holds(
        &rt,
        is_refused(&of_cells(11, &cells[..120]), GridFault::NotSquare),
    );
    holds(
        &rt,
        is_refused(&of_cells(11, &cells), GridFault::NoSuchSize),
    );
}

/// The cells of side 10, of which only that in row 2 and column 3 is dark.
fn one_dark() -> [bool; 100] {
    let mut cells = [false; 100];
    cells[23] = true;
    cells
}

#[test]
fn cells_row_by_row(rt: HostRuntime) {
    let grid = grid_with(10, &one_dark());
    holds(
        &rt,
        of_cells(10, &[false; 100]).is_ok() && side_of(&grid) == 10,
    );
    holds(&rt, is_dark_at(&grid, 2, 3) && !is_dark_at(&grid, 3, 2));
    holds(&rt, grid != plain(10, false));
}

/// The rows of the same grid and one row more. The bits of columns 10 and 127 don't count.
static ROWS: [u128; 11] = [0, 0, 1 << 3 | 1 << 10 | 1 << 127, 0, 0, 0, 0, 0, 0, 0, 0];

#[test]
fn rows_given_as_numbers_are_the_grid_of_their_cells(rt: HostRuntime) {
    holds(&rt, of_rows(10, &ROWS[..10]) == of_cells(10, &one_dark()));
    holds(
        &rt,
        is_refused(&of_rows(10, &ROWS[..9]), GridFault::NotSquare),
    );
    holds(&rt, is_refused(&of_rows(11, &ROWS), GridFault::NoSuchSize));
}

/// Whether rows that make no grid are refused, and leave the grid as it was before.
fn is_kept(grid: &mut Grid, before: &Grid) -> bool {
    set_rows(grid, 10, &[0; 9]) == Err(GridFault::NotSquare)
        && set_rows(grid, 11, &[0; 11]) == Err(GridFault::NoSuchSize)
        && *grid == *before
}

/// Whether a light grid of side 10 takes the place of the grid.
fn becomes_light(grid: &mut Grid) -> bool {
    set_rows(grid, 10, &[0; 10]).is_ok() && *grid == plain(10, false)
}

#[test]
fn one_place_for_all_grids(rt: HostRuntime) {
    let mut grid = plain(12, true);
    holds(&rt, side_of(&grid) == 12 && is_dark_at(&grid, 0, 1));
    holds(
        &rt,
        of_rows(12, &[u128::MAX; 12]) == of_cells(12, &[true; 144]),
    );
    holds(&rt, is_kept(&mut grid, &plain(12, true)));
    holds(&rt, becomes_light(&mut grid));
}
