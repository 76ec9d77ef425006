//! Borders, which are the finder pattern and the alignment patterns, and the lines of the symbol between them: ISO/IEC
//! 16022, symbol structure.

ghost use Rattle.std.specs.Prelude.{◌≡◌, ◌<◌, IfSome, option_map};
ghost use Rattle.dm_layout.specs.symbols.Sizes.{mapping_rows, mapping_columns};
ghost use Rattle.dm_place.specs.Border.{symbol_line};
ghost use Rattle.dm_layout.specs.symbols.Border.{border_colour as border_colour_by};
ghost use Rattle.dm_layout.specs.symbols.SureFaults.{sure_fault_count};

use crate::symbols::borrowed::BorrowedSymbol;
use crate::symbols::faults::{NoDoubt, faults_but};
use crate::symbols::size::SymbolSize;

/// Gives the prescribed colour of a module in a border, true for dark; None for a module in no border. Row and column
/// count from 0, from the top and from the left; beyond those of the size the pattern goes on. The left column and the
/// bottom row of each region's border are dark; its top row and its right column alternate, and are dark at the left
/// and at the bottom.
pub fn border_colour(size: SymbolSize, row: u16, column: u16) -> Option<bool>
    ensures { result ≡ border_colour_by size row column }
{
    let bottom = size.region_rows() + 1;
    let right = size.region_columns() + 1;
    let row = row % (bottom + 1);
    let column = column % (right + 1);
    if column == 0 || row == bottom {
        Some(true)
    } else if row == 0 {
        Some(column % 2 == 0)
    } else if column == right {
        Some(row % 2 == 1)
    } else {
        None
    }
}

/// Gives the row of the symbol in which this row of the mapping matrix lies. Both count from 0, and `line` is below the
/// rows of the mapping matrix.
pub fn symbol_row(size: SymbolSize, line: u16) -> u16
    requires { line < mapping_rows size }
    ensures value { result ≡ symbol_line size.region_rows line }
    ensures inside { result < size.rows }
{
    // For the proof alone: what `mapping_rows` ensures says that the sum fits.
    let _rows = size.mapping_rows();
    line + 2 * (line / size.region_rows()) + 1
}

/// Gives the column of the symbol in which this column of the mapping matrix lies. Both count from 0, and `line` is
/// below the columns of the mapping matrix.
pub fn symbol_column(size: SymbolSize, line: u16) -> u16
    requires { line < mapping_columns size }
    ensures value { result ≡ symbol_line size.region_columns line }
    ensures inside { result < size.columns }
{
    // For the proof alone: what `mapping_columns` ensures says that the sum fits.
    let _columns = size.mapping_columns();
    line + 2 * (line / size.region_columns()) + 1
}

/// Gives how many modules of the borders have another colour than [`border_colour()`] prescribes. Where doubtful
/// modules are given, a symbol of the same size that is dark where a module is doubtful, those of them aren't counted.
pub fn border_faults(symbol: &BorrowedSymbol, doubtful: Option<&BorrowedSymbol>) -> u16
    requires { IfSome doubtful (λ doubtful. doubtful.now.size ≡ symbol.now.size) }
    ensures { result ≡ sure_fault_count symbol.now (option_map (λ d. d.now) doubtful.entry) }
{
    match doubtful {
        Some(doubtful) => faults_but(symbol, doubtful),
        None => faults_but(symbol, &NoDoubt),
    }
}
