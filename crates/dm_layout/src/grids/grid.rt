//! A grid: the square of cells of a symbol.

ghost use Rattle.std.specs.Prelude.{◌≡◌, ℕ, ◌≢◌, ◌*◌, ◌^◌, ◌<◌, ◌≤◌, ◌↔◌, IfOk, OnErr, OnOk, IsNone, length};
ghost use Rattle.dm_layout.specs.Sizes.{row_with_side, largest_side};
ghost use Rattle.dm_layout.specs.Grid.{IsGrid, symbol_modules, is_dark_in, cell_at, square_of, square_of_rows};

use crate::grids::packed::packed_row;
use crate::grids::size::{LARGEST_SIDE, Size};
use crate::symbols::SymbolIn;
use std::marker::Model;

/// Why cells make no grid.
#[derive(Clone, Copy, Debug, PartialEq, Eq)]
pub enum GridFault {
    /// The number of cells is not the side times itself or, where rows are given, the number of rows is not the side.
    NotSquare,
    /// No size has this side.
    NoSuchSize,
}

/// The cells of a symbol, without a quiet zone: a square whose side is that of a [`Size`]. A cell is dark or light,
/// and any colour may stand anywhere, in the borders too. Whoever reads a grid takes it to be upright: the solid
/// column is at the left, the solid row at the bottom.
///
/// In contracts it is a `GridView` of `specs/Grid.antt`.
#[derive(Clone, Debug, Drop)]
pub struct Grid {
    pub(crate) symbol: SymbolIn<LARGEST_SIDE>,
}

impl Model for Grid {
    ghost use Rattle.dm_layout.specs.Grid.{GridView};
    ghost use Rattle.dm_layout.specs.inner.Keeping.{kept_grid, IsKept};

    ghost Value = { GridView };

    ghost view = { λ g. kept_grid g.symbol };

    ghost invariant = { λ g. IsKept g.symbol.size };
}

impl Grid {
    /// Gives the grid of `side` rows of `side` cells; `cells` has them row by row from the top, true for dark. The
    /// error is `NotSquare` if the number of cells is not the side times itself, and otherwise `NoSuchSize` if no size
    /// has this side.
    pub fn new(side: u16, cells: &[bool]) -> Result<Grid, GridFault>
        ensures not_square { (result ≡ Err GridFault.NotSquare) ↔ (length cells.now ≢ side * side) }
        ensures no_such_size { (result ≡ Err GridFault.NoSuchSize)
            ↔ ((length cells.now ≡ side * side) × IsNone (row_with_side side)) }
        ensures size { IfOk result (λ g. row_with_side side ≡ Some g.size) }
        ensures cells { IfOk result (λ g. g.rows ≡ square_of side cells.now) }
    {
        let across = side as usize;
        if cells.len() != across * across {
            return Err(GridFault::NotSquare);
        }
        let Some(size) = Size::of_side(side) else {
            return Err(GridFault::NoSuchSize);
        };
        let mut grid = Grid::light(size);
        for row in 0..side {
            let start = row as usize * across;
            grid.symbol
                .put_row(row, packed_row(&cells[start..start + across]), 0);
        }
        Ok(grid)
    }

    /// Gives the grid of `side` rows of `side` cells; `rows` has a number for each row from the top, in which the cell
    /// of column `c`, counted from 0 at the left, is the bit of weight 2^c, 1 for dark. The bits from the side on may
    /// be anything. The error is `NotSquare` if the number of rows is not the side, and otherwise `NoSuchSize` if no
    /// size has this side.
    pub fn of_rows(side: u16, rows: &[u128]) -> Result<Grid, GridFault>
        ensures not_square { (result ≡ Err GridFault.NotSquare) ↔ (length rows.now ≢ side) }
        ensures no_such_size { (result ≡ Err GridFault.NoSuchSize)
            ↔ ((length rows.now ≡ side) × IsNone (row_with_side side)) }
        ensures size { IfOk result (λ g. row_with_side side ≡ Some g.size) }
        ensures cells { IfOk result (λ g. g.rows ≡ square_of_rows side rows.now) }
    {
        let size = size_of_square(side, rows)?;
        let mut grid = Grid::light(size);
        grid.put_rows(size, rows);
        Ok(grid)
    }

    /// Becomes the grid of these rows, as [`Grid::of_rows`] makes it. Where that gives a fault, it stays as it is.
    pub fn set_rows(&mut self, side: u16, rows: &[u128]) -> Result<(), GridFault>
        ensures not_square { (result ≡ Err GridFault.NotSquare) ↔ (length rows.now ≢ side) }
        ensures no_such_size { (result ≡ Err GridFault.NoSuchSize)
            ↔ ((length rows.now ≡ side) × IsNone (row_with_side side)) }
        ensures size { OnOk result (row_with_side side ≡ Some self.new.size) }
        ensures cells { OnOk result (self.new.rows ≡ square_of_rows side rows.now) }
        ensures same { OnErr result (self.new ≡ self.old) }
    {
        let size = size_of_square(side, rows)?;
        self.put_rows(size, rows);
        Ok(())
    }

    /// Turns this into the grid of this size with these rows, each cut to as many cells as the side.
    fn put_rows(&mut self, size: Size, rows: &[u128])
        requires { length rows.now ≡ size.side }
        ensures size { self.new.size ≡ size }
        ensures cells { self.new.rows ≡ square_of_rows size.side rows.now }
    {
        self.symbol.resize(size.symbol());
        for row in 0..size.side() {
            self.symbol.put_row(row, rows[usize::from(row)], 0);
        }
    }

    /// Gives the grid of a size with all cells light.
    pub(crate) fn light(size: Size) -> Grid
        ensures size { result.size ≡ size }
        ensures grid { IsGrid result }
    {
        Grid {
            symbol: SymbolIn::light(size.symbol()),
        }
    }

    /// Gives the cells as the modules of a symbol.
    #[inline]
    pub fn as_symbol(&self) -> &SymbolIn<LARGEST_SIDE>
        ensures { result.now ≡ symbol_modules self.now }
    {
        &self.symbol
    }

    /// Gives the size of the symbol.
    #[inline]
    pub fn size(&self) -> Size
        ensures value { result ≡ self.now.size }
        ensures grid { IsGrid self.now }
    {
        Size {
            symbol: self.symbol.size(),
        }
    }

    /// Whether the cell is dark. Row and column count from 0, from the top and from the left, and are below
    /// the side.
    #[inline]
    pub fn cell(&self, row: u16, column: u16) -> bool
        requires row { row < self.now.size.side }
        requires column { column < self.now.size.side }
        ensures { result ≡ cell_at self.now row column }
    {
        self.symbol.is_dark(row, column)
    }
}

// The smallest grid with all cells light, into which others can be put.
impl Default for Grid {
    ghost use Rattle.std.specs.Prelude.{◌≡◌, Some, replicate};
    ghost use Rattle.dm_layout.specs.Sizes.{row_with_side};
    ghost use Rattle.dm_layout.specs.Grid.{square_of_rows};

    ghost is_default = { λ grid. (row_with_side 10 ≡ Some grid.size)
        × (grid.rows ≡ square_of_rows 10 (replicate 10 0)) };

    fn default() -> Grid {
        match Grid::of_rows(10, &[0; 10]) {
            Ok(grid) => grid,
            Err(_) => unreachable!(),
        }
    }
}

/// Gives the size of the square that these rows make, or why they make none.
fn size_of_square(side: u16, rows: &[u128]) -> Result<Size, GridFault>
    ensures not_square { (result ≡ Err GridFault.NotSquare) ↔ (length rows.now ≢ side) }
    ensures no_such_size { (result ≡ Err GridFault.NoSuchSize)
        ↔ ((length rows.now ≡ side) × IsNone (row_with_side side)) }
    ensures size { IfOk result (λ size. row_with_side side ≡ Some size) }
    ensures rows { IfOk result (λ size. length rows.now ≡ size.side) }
{
    if rows.len() != side as usize {
        return Err(GridFault::NotSquare);
    }
    match Size::of_side(side) {
        Some(size) => Ok(size),
        None => Err(GridFault::NoSuchSize),
    }
}

impl PartialEq for Grid {
    ghost use Rattle.std.specs.Prelude.{◌≡◌, ◌↔◌, IsTrue};
    ghost use Rattle.dm_layout.specs.Equality.{equal_grids};
    ghost use Rattle.dm_layout.specs.Equality.{grids_per};

    ghost eq = { equal_grids };

    ghost laws = { grids_per };

    /// Whether the sides and all cells agree.
    fn eq(&self, other: &Grid) -> bool
        ensures value { result ≡ equal_grids self.now other.now }
        ensures same { IsTrue result ↔ (self.now ≡ other.now) }
    {
        self.symbol == other.symbol
    }
}

impl Eq for Grid {
    ghost use Rattle.dm_layout.specs.Equality.{grids_equiv};

    ghost laws = { grids_equiv };
}
