//! Border modules of the wrong colour, those not counted of which there is doubt: ISO/IEC 16022, symbol structure.

ghost use Rattle.std.specs.Prelude.{◌≡◌, ℕ, ◌+◌, ◌*◌, ◌%◌, ◌<◌, ◌≤◌, count_by, count_ones, ◌^◌};
ghost use Rattle.std.specs.Prelude.{Option, Some, None, IfSome};
ghost use Rattle.std.specs.List.{range_with_len};
ghost use Rattle.dm_layout.specs.symbols.Symbols.{SymbolView, is_dark_bit};
ghost use Rattle.dm_layout.specs.symbols.Sizes.{most_columns};
ghost use Rattle.dm_layout.specs.symbols.SureFaults.{is_doubtful, is_sure_fault, sure_fault_count};
ghost use Rattle.dm_layout.specs.symbols.inner.BorderMasks.{AreBorderCells, AreDarkCells};
ghost use Rattle.dm_layout.specs.symbols.inner.BorderMasks.{sure_faults_in, sure_part};
ghost use Rattle.dm_layout.specs.symbols.inner.Reading.{whole_row};

use crate::symbols::borders::Borders;
use crate::symbols::borrowed::BorrowedSymbol;
use crate::symbols::symbol::FIRST_COLUMNS;

/// The most columns whose modules are counted as the bits of a number of 64 bits.
const NARROW_COLUMNS: u16 = 64;

/// Of which modules of a symbol there is doubt.
pub(crate) trait Doubt: Drop {
    // The symbol that is dark where there is doubt, if there may be any.
    ghost doubtful: { Self → Option SymbolView };

    /// Gives the doubtful ones among the first 128 modules of a row.
    fn row(&self, row: u16) -> u128
        requires { IfSome (doubtful self.now) (λ m. row < m.size.rows) }
        ensures { (column : ℕ) → column < 128
            → IfSome (doubtful self.now) (λ m. column < m.size.columns)
            → is_dark_bit result column ≡ is_doubtful (doubtful self.now) row column };

    /// Gives the doubtful ones among the modules behind these.
    fn end(&self, row: u16) -> u16
        requires { IfSome (doubtful self.now) (λ m. row < m.size.rows) }
        ensures { (column : ℕ) → IfSome (doubtful self.now) (λ m. 128 + column < m.size.columns)
            → is_dark_bit result column ≡ is_doubtful (doubtful self.now) row (128 + column) };
}

/// No module is doubtful.
#[derive(Drop)]
pub(crate) struct NoDoubt;

impl Doubt for NoDoubt {
    ghost doubtful = { λ d. None };

    #[inline(always)]
    fn row(&self, _row: u16) -> u128 {
        0
    }

    #[inline(always)]
    fn end(&self, _row: u16) -> u16 {
        0
    }
}

impl<'a> Doubt for BorrowedSymbol<'a> {
    ghost doubtful = { λ d. Some d };

    #[inline(always)]
    fn row(&self, row: u16) -> u128 {
        BorrowedSymbol::row(self, row)
    }

    #[inline(always)]
    fn end(&self, row: u16) -> u16 {
        BorrowedSymbol::end(self, row)
    }
}

/// Gives those of these modules that have another colour than these dark ones and aren't doubtful, all at once.
#[inline(always)]
fn wrong(row: u128, dark: u128, cells: u128, doubtful: u128) -> u128
    ensures { result ≡ sure_part row dark cells doubtful }
{
    (row ^ dark) & cells & !doubtful
}

/// Gives how many modules of a row of so many columns are dark. Up to 64 columns only half of the number is worked on.
#[inline(always)]
fn ones(row: u128, columns: u16) -> u16
    requires { row < 2 ^ columns }
    ensures value { result ≡ count_ones row }
    ensures most { result ≤ most_columns }
{
    if columns <= NARROW_COLUMNS {
        (row as u64).count_ones() as u16
    } else {
        row.count_ones() as u16
    }
}

/// Gives how many modules of a row have the wrong colour in a border and aren't doubtful. The border modules of the row
/// are told with it, and those of them that are to be dark.
#[inline(always)]
fn row_faults<D: Doubt>(
    symbol: &BorrowedSymbol,
    doubt: &D,
    row: u16,
    cells: (u128, u16),
    dark: (u128, u16),
) -> u16
    requires doubt { IfSome (D.doubtful doubt.now) (λ m. m.size ≡ symbol.now.size) }
    requires row { row < symbol.now.size.rows }
    requires cells { AreBorderCells symbol.now.size (row % (symbol.now.size.region_rows + 2))
        (whole_row cells.0 cells.1) }
    requires width { whole_row cells.0 cells.1 < 2 ^ symbol.now.size.columns }
    requires dark { AreDarkCells symbol.now.size (row % (symbol.now.size.region_rows + 2))
        (whole_row dark.0 dark.1) }
    ensures count { result
        ≡ count_by (is_sure_fault symbol.now (D.doubtful doubt.now) row)
        (range_with_len 0 symbol.now.size.columns) }
    ensures most { result ≤ most_columns }
{
    let sure = wrong(symbol.row(row), dark.0, cells.0, doubt.row(row));
    let columns = symbol.size().columns();
    if columns <= FIRST_COLUMNS {
        return ones(sure, columns);
    }
    let end = u128::from(symbol.end(row));
    let doubtful = u128::from(doubt.end(row));
    let behind = wrong(end, u128::from(dark.1), u128::from(cells.1), doubtful);
    (sure.count_ones() + behind.count_ones()) as u16
}

/// Gives how many modules of one row of regions with their borders, which begins at the row `first` of the symbol, have
/// the wrong colour and aren't doubtful. The first and the last row stand apart. The rows between them come in pairs,
/// all of whose odd rows have the borders of the first one, and all of whose even rows those of the second.
#[inline(always)]
fn region_faults<D: Doubt>(symbol: &BorrowedSymbol, doubt: &D, borders: &Borders, first: u16) -> u16
    requires size { borders.now ≡ symbol.now.size }
    requires doubt { IfSome (D.doubtful doubt.now) (λ m. m.size ≡ symbol.now.size) }
    requires first { first % (symbol.now.size.region_rows + 2) ≡ 0 }
    requires fits { first + (symbol.now.size.region_rows + 2) ≤ symbol.now.size.rows }
    ensures count { result ≡ sure_faults_in symbol.now (D.doubtful doubt.now) first
        (symbol.now.size.region_rows + 2) }
    ensures most { result ≤ (symbol.now.size.region_rows + 2) * most_columns }
{
    let last = borders.last();
    let sides = borders.sides();
    let left = borders.left_sides();
    let mut faults = row_faults(symbol, doubt, first, borders.cells(0), borders.dark(0));
    for pair in 0..last / 2 {
        let row = first + 2 * pair + 1;
        faults += row_faults(symbol, doubt, row, sides, sides);
        faults += row_faults(symbol, doubt, row + 1, sides, left);
    }
    let (cells, dark) = (borders.cells(last), borders.dark(last));
    faults + row_faults(symbol, doubt, first + last, cells, dark)
}

/// Gives how many border modules have the wrong colour and aren't doubtful.
pub(crate) fn faults_but<D: Doubt>(symbol: &BorrowedSymbol, doubt: &D) -> u16
    requires { IfSome (D.doubtful doubt.now) (λ m. m.size ≡ symbol.now.size) }
    ensures { result ≡ sure_fault_count symbol.now (D.doubtful doubt.now) }
{
    let size = symbol.size();
    let borders = Borders::new(size);
    let period = size.region_rows() + 2;
    let mut faults = 0;
    for region in 0..size.regions_down() {
        faults += region_faults(symbol, doubt, &borders, region * period);
    }
    faults
}
