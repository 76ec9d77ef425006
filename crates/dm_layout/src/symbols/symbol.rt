//! The modules of a symbol.

ghost use Rattle.std.specs.Prelude.{◌≡◌, ◌≢◌, ◌↔◌, ℕ, IsTrue, false, nat_eq, ◌&&◌, ◌+◌, ◌^◌, ◌<◌, ◌≤◌};
ghost use Rattle.std.specs.Prelude.{if◌then◌else◌};
ghost use Rattle.dm_layout.specs.symbols.Symbols.{IsSymbol, is_dark_bit, module_at};
ghost use Rattle.dm_layout.specs.symbols.Holding.{IsLaid};
ghost use Rattle.dm_layout.specs.symbols.Sizes.{most_rows};

use crate::symbols::borrowed::BorrowedSymbol;
use crate::symbols::placing::lay_list;
use crate::symbols::size::{MOST_ROWS, SymbolSize};
use crate::symbols::words::SymbolWordsIn;
use std::marker::Model;

/// How many modules of a row are kept in its first number.
pub(crate) const FIRST_COLUMNS: u16 = 128;

/// The modules of a symbol of at most `ROWS` rows, without a quiet zone: as many rows and columns as its [`SymbolSize`]
/// has. A module is dark or light, and any colour may stand anywhere, in the borders too. Whoever reads them takes the
/// symbol to be upright: the solid column is at the left, the solid row at the bottom.
///
/// Each row is kept as numbers, in which a module is one bit, 1 for dark: the module of column `c`, counted from 0 at
/// the left, is the bit of weight 2^c of the first number, and from column 128 on, which three sizes have, the bit of
/// weight 2^(c - 128) of the second. The bits from the columns on, and the rows behind those of the size, mean nothing.
///
/// In contracts it is a `SymbolView` of `specs/symbols/Symbols.antt`.
#[derive(Clone, Debug, Drop)]
pub struct SymbolIn<const ROWS: usize> {
    size: SymbolSize,
    rows: [u128; ROWS],
    ends: [u16; ROWS],
}

/// The modules of a symbol of any size.
pub type Symbol = SymbolIn<MOST_ROWS>;

impl<const ROWS: usize> Model for SymbolIn<ROWS> {
    ghost use Rattle.dm_layout.specs.symbols.Symbols.{SymbolView};
    ghost use Rattle.dm_layout.specs.symbols.inner.Keeping.{kept_symbol, IsKept};

    ghost Value = { SymbolView };

    ghost view = { λ s. kept_symbol s.size s.rows s.ends };

    ghost invariant = { λ s. IsKept ROWS s.size s.rows s.ends };
}

/// Whether two rows have the same modules in so many columns.
fn same_modules(row: u128, other: u128, columns: u16) -> bool
    requires { columns < 128 }
    ensures { IsTrue result ↔ ((c : ℕ) → c < columns → is_dark_bit row c ≡ is_dark_bit other c) }
{
    row % (1 << columns) == other % (1 << columns)
}

impl<const ROWS: usize> SymbolIn<ROWS> {
    /// Gives a symbol of a size of at most `ROWS` rows, with all modules light.
    pub fn light(size: SymbolSize) -> SymbolIn<ROWS>
        requires { size.rows ≤ ROWS }
        ensures size { result.size ≡ size }
        ensures modules { IsSymbol result }
        ensures light { (r c : ℕ) → r < size.rows → c < size.columns
            → module_at result r c ≡ false }
    {
        // For the proof alone: what `rows` ensures says that the size stands in the table.
        let _rows = size.rows();
        SymbolIn {
            size,
            rows: [0; ROWS],
            ends: [0; ROWS],
        }
    }

    /// Turns this into a symbol of a size of at most `ROWS` rows, whose modules may have any colours, to be put.
    pub fn resize(&mut self, size: SymbolSize)
        requires { size.rows ≤ ROWS }
        ensures size { self.new.size ≡ size }
        ensures modules { IsSymbol self.new }
    {
        // For the proof alone: what `rows` ensures says that the size stands in the table.
        let _rows = size.rows();
        self.size = size;
    }

    /// Gives the symbol for work that is the same for all rooms.
    #[inline(always)]
    pub fn borrowed(&self) -> BorrowedSymbol<'_>
        ensures { result ≡ self.now }
    {
        BorrowedSymbol {
            size: self.size,
            rows: &self.rows[..],
            ends: &self.ends[..],
        }
    }

    /// Gives the size of the symbol.
    pub fn size(&self) -> SymbolSize
        ensures value { result ≡ self.now.size }
        ensures modules { IsSymbol self.now }
        ensures room { self.now.size.rows ≤ ROWS }
    {
        self.size
    }

    /// Gives the first 128 modules of a row as a number, or all if they are fewer: that of column `c` is the bit of
    /// weight 2^c, 1 for dark. The bits from the columns on mean nothing. Rows count from 0 at the top.
    pub fn row(&self, row: u16) -> u128
        requires { row < self.now.size.rows }
        ensures { (column : ℕ) → column < 128 → column < self.now.size.columns
            → is_dark_bit result column ≡ module_at self.now row column }
    {
        self.rows[row as usize]
    }

    /// Gives the modules of a row behind the first 128, if there are any, as a number: that of column 128 + `c` is the
    /// bit of weight 2^c, 1 for dark. The bits from the columns on mean nothing. Rows count from 0 at the top.
    pub fn end(&self, row: u16) -> u16
        requires { row < self.now.size.rows }
        ensures { (column : ℕ) → 128 + column < self.now.size.columns
            → is_dark_bit result column ≡ module_at self.now row (128 + column) }
    {
        self.ends[row as usize]
    }

    /// Puts a row, counted from 0 at the top, that is written as numbers: its first 128 modules, and those behind them.
    /// The bits from the columns on may be anything. The other rows stay.
    pub fn put_row(&mut self, row: u16, cells: u128, end: u16)
        requires { row < self.old.size.rows }
        ensures size { self.new.size ≡ self.old.size }
        ensures modules { IsSymbol self.new }
        ensures start { (column : ℕ) → column < 128 → column < self.old.size.columns
            → module_at self.new row column ≡ is_dark_bit cells column }
        ensures end { (column : ℕ) → 128 + column < self.old.size.columns
            → module_at self.new row (128 + column) ≡ is_dark_bit end column }
        ensures others { (r column : ℕ) → r < self.old.size.rows → column < self.old.size.columns
            → r ≢ row → module_at self.new r column ≡ module_at self.old r column }
    {
        self.rows[row as usize] = cells;
        self.ends[row as usize] = end;
    }

    /// Becomes the symbol in which these codewords are laid.
    pub(crate) fn lay_from<const ROOM: usize>(&mut self, words: &SymbolWordsIn<ROOM>)
        requires { words.now.size.rows ≤ ROWS }
        ensures { IsLaid words.now self.new }
    {
        self.size = words.size();
        lay_list(
            self.size,
            words.list(),
            &mut self.rows[..],
            &mut self.ends[..],
        );
    }

    /// Whether the module is dark. Row and column count from 0, from the top and from the left, and are below those of
    /// the size.
    pub fn is_dark(&self, row: u16, column: u16) -> bool
        requires row { row < self.now.size.rows }
        requires column { column < self.now.size.columns }
        ensures { result ≡ module_at self.now row column }
    {
        // For the proof alone: what `size` ensures says how many columns there are at most.
        let _size = self.size();
        if column < FIRST_COLUMNS {
            (self.row(row) >> column) % 2 == 1
        } else {
            (self.end(row) >> (column - FIRST_COLUMNS)) % 2 == 1
        }
    }

    /// Whether a row has the modules of that row of a symbol of the same size.
    fn has_row_of(&self, other: &SymbolIn<ROWS>, row: u16) -> bool
        requires size { other.now.size ≡ self.now.size }
        requires row { row < self.now.size.rows }
        ensures { IsTrue result ↔ ((column : ℕ) → column < self.now.size.columns
            → module_at self.now row column ≡ module_at other.now row column) }
    {
        let columns = self.size().columns();
        if columns <= FIRST_COLUMNS {
            same_modules(self.row(row), other.row(row), columns)
        } else if self.row(row) == other.row(row) {
            let end = u128::from(self.end(row));
            let other_end = u128::from(other.end(row));
            same_modules(end, other_end, columns - FIRST_COLUMNS)
        } else {
            false
        }
    }

    /// Whether all rows have the modules of those of a symbol of the same size.
    fn has_rows_of(&self, other: &SymbolIn<ROWS>) -> bool
        requires { other.now.size ≡ self.now.size }
        ensures { IsTrue result ↔ ((r c : ℕ) → r < self.now.size.rows → c < self.now.size.columns
            → module_at self.now r c ≡ module_at other.now r c) }
    {
        for row in 0..self.size().rows() {
            if !self.has_row_of(other, row) {
                return false;
            }
        }
        true
    }
}

impl<const ROWS: usize> PartialEq for SymbolIn<ROWS> {
    ghost use Rattle.std.specs.Prelude.{◌≡◌, ◌↔◌, IsTrue};
    ghost use Rattle.dm_layout.specs.symbols.Equality.{equal_modules};
    ghost use Rattle.dm_layout.specs.symbols.Equality.{modules_per};

    ghost eq = { equal_modules };

    ghost laws = { modules_per };

    /// Whether the sizes agree, and all modules.
    fn eq(&self, other: &SymbolIn<ROWS>) -> bool
        ensures value { result ≡ equal_modules self.now other.now }
        ensures same { IsTrue result ↔ (self.now ≡ other.now) }
    {
        self.size().is_same(other.size()) && self.has_rows_of(other)
    }
}

impl<const ROWS: usize> Eq for SymbolIn<ROWS> {
    ghost use Rattle.dm_layout.specs.symbols.Equality.{modules_equiv};

    ghost laws = { modules_equiv };
}
