//! Codewords into a grid and out of it: ISO/IEC 16022, module placement and symbol structure.

ghost use Rattle.std.specs.Prelude.{◌≡◌, ◌≤◌};
ghost use Rattle.dm_layout.specs.symbols.Holding.{IsLaid as IsLaidInModules};
ghost use Rattle.dm_layout.specs.Border.{HasFixedSquare, border_fault_count};
ghost use Rattle.dm_layout.specs.Grid.{GridView, IsGrid, symbol_modules};
ghost use Rattle.dm_layout.specs.Sizes.{largest_side};
ghost use Rattle.dm_layout.specs.Words.{WordsView};
ghost use Rattle.dm_layout.specs.Holds.{Holds, IsLaid};

use crate::grids::grid::Grid;
use crate::grids::size::MOST_GRID_CODEWORDS;
use crate::grids::words::Words;
use crate::symbols::SymbolWordsIn;

/// Gives the grid in which these codewords are laid: the one grid that holds them, has no border fault, and has the
/// fixed square (ISO/IEC 16022, module placement and symbol structure).
#[inline]
pub fn lay(words: &Words) -> Grid
    ensures holds { Holds result words.now }
    ensures border { border_fault_count result ≡ 0 }
    ensures fixed_square { HasFixedSquare result }
    ensures no_other_grid { (grid : GridView) → IsLaid words.now grid → grid ≡ result }
    ensures no_other_words { (other : WordsView) → Holds result other → other ≡ words.now }
{
    let mut grid = Grid::light(words.size());
    crate::symbols::lay_to(&words.symbol, &mut grid.symbol);
    grid
}

/// Turns `grid`, whatever it was, into the one in which these codewords of a symbol are laid, which has as many columns
/// as rows, at most the largest side; as [`lay()`] does with those of a square, without a copy of them.
#[inline]
pub fn lay_symbol_to(words: &SymbolWordsIn<MOST_GRID_CODEWORDS>, grid: &mut Grid)
    requires square { words.now.size.rows ≡ words.now.size.columns }
    requires fits { words.now.size.rows ≤ largest_side }
    ensures laid { IsLaidInModules words.now (symbol_modules grid.new) }
    ensures grid { IsGrid grid.new }
{
    crate::symbols::lay_to(words, &mut grid.symbol);
}

/// Gives the codewords that the grid holds: exactly one list, whatever stands in its borders and in its fixed square
/// (ISO/IEC 16022, module placement).
#[inline]
pub fn lift(grid: &Grid) -> Words
    ensures holds { Holds grid.now result }
    ensures no_other_words { (other : WordsView) → Holds grid.now other → other ≡ result }
{
    Words {
        symbol: crate::symbols::lift(&grid.symbol),
    }
}
