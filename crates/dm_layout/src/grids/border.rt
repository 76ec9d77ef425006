//! Borders, which are the finder pattern and the alignment patterns: ISO/IEC 16022, symbol structure.

ghost use Rattle.std.specs.Prelude.{◌≡◌};
ghost use Rattle.dm_layout.specs.Border.{border_fault_count};

use crate::grids::grid::Grid;

/// Gives how many border cells have another colour than a border prescribes: the left column and the bottom row of each
/// region's border are dark; its top row and its right column alternate, and are dark at the left and at the bottom.
#[inline]
pub fn border_faults(grid: &Grid) -> u16
    ensures { result ≡ border_fault_count grid.now }
{
    crate::symbols::border_faults(&grid.symbol.borrowed(), None)
}
