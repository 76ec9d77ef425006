//! The sizes of symbols: ISO/IEC 16022, symbol sizes and capacities, and ISO/IEC 21471.

ghost use Rattle.std.specs.Prelude.{◌≡◌, true, ◌+◌, ◌*◌, ◌/◌, ◌%◌, ◌<◌, ◌≤◌, All, IfSome, IfNone};
ghost use Rattle.dm_layout.specs.symbols.Sizes.{size_table, takes, entry_with, entry_for, IsSize, area, mapping_rows};
ghost use Rattle.dm_layout.specs.symbols.Sizes.{mapping_columns, codeword_count, block_data, block_check, block_length};
ghost use Rattle.dm_layout.specs.symbols.Sizes.{limit};
ghost use Rattle.dm_layout.specs.symbols.Sizes.{most_rows, most_columns, most_modules, most_cells, most_data};
ghost use Rattle.dm_layout.specs.symbols.Sizes.{most_codewords};
ghost use Rattle.dm_layout.specs.symbols.Sizes.{most_blocks, most_block_check, longest_block};
ghost use Rattle.dm_layout.specs.symbols.Equality.{equal_sizes};
ghost use Rattle.dm_layout.specs.symbols.inner.SizeRows.{row_entry, takes_sides};

use crate::symbols::size_rows::{SIZE_ROWS, row_for, row_with};
use std::marker::Model;

/// How many sizes there are.
pub const SIZE_COUNT: usize = 48;

/// The most rows of modules of a symbol.
pub const MOST_ROWS: usize = 144;

/// The most columns of modules of a symbol.
pub const MOST_COLUMNS: usize = 144;

/// The most modules of a symbol.
pub const MOST_MODULES: usize = 20736;

/// The most data codewords of a symbol.
pub const MOST_DATA: usize = 1558;

/// The most codewords of a symbol, data and check together.
pub const MOST_CODEWORDS: usize = 2178;

/// The most blocks of a symbol.
pub const MOST_BLOCKS: usize = 10;

/// No block has more codewords than this: as many as the field has elements other than 0. `dm_code` has the same number
/// as `LONGEST_WORD`, and neither crate stands on the other: in `dm_symbol`, `codeword_near` has each block corrected,
/// and its proof shows that no block is longer than a word may be.
pub const LONGEST_BLOCK: usize = 255;

/// Which sizes may be taken for a symbol.
#[derive(Clone, Copy, Debug, PartialEq, Eq)]
pub enum SizeChoice {
    /// The squares.
    Square,
    /// The rectangles of ISO/IEC 16022.
    Rectangle,
    /// The rectangles of ISO/IEC 16022 and of its extension, ISO/IEC 21471.
    AnyRectangle,
    /// All sizes.
    Any,
    /// The size with these rows and columns.
    Exact(u16, u16),
}

/// A size of a symbol: an entry of the standards' tables of sizes and capacities. In contracts it is a `SizeEntry` of
/// `specs/symbols/Sizes.antt`.
#[derive(Clone, Copy, Debug, PartialEq, Eq)]
pub struct SymbolSize {
    rows: u16,
    columns: u16,
    region_rows: u16,
    region_columns: u16,
    regions_down: u16,
    regions_across: u16,
    data_count: u16,
    check_count: u16,
    blocks: u16,
    extended: bool,
}

impl Model for SymbolSize {
    ghost use Rattle.dm_layout.specs.symbols.Sizes.{SizeEntry, entry_of, IsSize};

    ghost Value = { SizeEntry };

    ghost view = { λ s. entry_of s.rows s.columns s.region_rows s.region_columns s.regions_down
        s.regions_across s.data_count s.check_count s.blocks s.extended };

    ghost invariant = { λ s. IsSize (entry_of s.rows s.columns s.region_rows s.region_columns s.regions_down
        s.regions_across s.data_count s.check_count s.blocks s.extended) };

    ghost inverse = { λ e. record {
      rows = e.rows;
      columns = e.columns;
      region_rows = e.region_rows;
      region_columns = e.region_columns;
      regions_down = e.regions_down;
      regions_across = e.regions_across;
      data_count = e.data_count;
      check_count = e.check_count;
      blocks = e.blocks;
      extended = e.extended;
    } };
}

/// Gives all sizes, by rising area and, where areas are equal, by rising columns.
pub fn table() -> [SymbolSize; SIZE_COUNT]
    ensures { result ≡ size_table }
{
    let mut sizes = [size_of(SIZE_ROWS[0]); SIZE_COUNT];
    for i in 0..SIZE_COUNT {
        sizes[i] = size_of(SIZE_ROWS[i]);
    }
    sizes
}

impl SizeChoice {
    /// Whether a size with these rows and columns is one of the choice, given whether it is one of the extension.
    pub(crate) fn takes_sides(self, rows: u16, columns: u16, extended: bool) -> bool
        ensures { result ≡ takes_sides self rows columns extended }
    {
        match self {
            SizeChoice::Square => rows == columns,
            SizeChoice::Rectangle => rows != columns && !extended,
            SizeChoice::AnyRectangle => rows != columns,
            SizeChoice::Any => true,
            SizeChoice::Exact(r, c) => rows == r && columns == c,
        }
    }
}

/// Gives the first size of the table that the choice takes and that has at least `count` data codewords.
fn first_with(choice: SizeChoice, count: u16) -> Option<SymbolSize>
    ensures { result ≡ entry_for choice count }
{
    Some(size_of(row_for(choice, count)?))
}

/// Gives the size with these numbers.
fn size_of(row: [u16; 10]) -> SymbolSize
    requires { IsSize (row_entry row) }
    ensures { result ≡ row_entry row }
{
    SymbolSize {
        rows: row[0],
        columns: row[1],
        region_rows: row[2],
        region_columns: row[3],
        regions_down: row[4],
        regions_across: row[5],
        data_count: row[6],
        check_count: row[7],
        blocks: row[8],
        extended: row[9] == 1,
    }
}

impl SymbolSize {
    /// Gives the size with these rows and columns of modules, or None where the table has none.
    pub fn of(rows: u16, columns: u16) -> Option<SymbolSize>
        ensures { result ≡ entry_with rows columns }
    {
        Some(size_of(row_with(rows, columns)?))
    }

    /// Gives the smallest size of a choice with at least `count` data codewords, or None where no size of it has as
    /// many. The smallest is the one with the fewest modules and, of those with as many modules, the one with the
    /// fewest columns.
    pub fn for_words(choice: SizeChoice, count: u16) -> Option<SymbolSize>
        ensures value { result ≡ entry_for choice count }
        ensures size { IfSome result IsSize }
        ensures chosen { IfSome result (λ size. takes choice size ≡ true) }
        ensures enough { IfSome result (λ size. count ≤ size.data_count) }
        ensures smallest { IfSome result (λ size. All (λ other. takes choice other ≡ true
            → count ≤ other.data_count → area size ≤ area other) size_table) }
        ensures narrowest { IfSome result (λ size. All (λ other. takes choice other ≡ true
            → count ≤ other.data_count → area size ≡ area other
            → size.columns ≤ other.columns) size_table) }
        ensures none { IfNone result (All (λ other. takes choice other ≡ true
            → other.data_count < count) size_table) }
    {
        first_with(choice, count)
    }

    /// Gives how many rows of modules the symbol has, those of borders among them.
    pub fn rows(self) -> u16
        ensures value { result ≡ self.rows }
        ensures size { IsSize self }
        ensures most { self.rows ≤ most_rows }
        ensures modules { area self ≤ most_modules }
    {
        self.rows
    }

    /// Gives how many columns of modules the symbol has, those of borders among them.
    pub fn columns(self) -> u16
        ensures value { result ≡ self.columns }
        ensures size { IsSize self }
        ensures most { self.columns ≤ most_columns }
        ensures some { 0 < self.columns }
    {
        self.columns
    }

    /// Gives how many rows one region has, without its border.
    pub fn region_rows(self) -> u16
        ensures value { result ≡ self.region_rows }
        ensures even { self.region_rows % 2 ≡ 0 }
        ensures some { 0 < self.region_rows }
        ensures rows { self.rows ≡ self.regions_down * (self.region_rows + 2) }
        ensures most { self.region_rows ≤ most_rows }
    {
        self.region_rows
    }

    /// Gives how many columns one region has, without its border.
    pub fn region_columns(self) -> u16
        ensures value { result ≡ self.region_columns }
        ensures even { self.region_columns % 2 ≡ 0 }
        ensures some { 0 < self.region_columns }
        ensures columns { self.columns ≡ self.regions_across * (self.region_columns + 2) }
        ensures most { self.region_columns ≤ most_columns }
    {
        self.region_columns
    }

    /// Gives how many regions stand one above the other.
    pub fn regions_down(self) -> u16
        ensures value { result ≡ self.regions_down }
        ensures some { 0 < self.regions_down }
    {
        self.regions_down
    }

    /// Gives how many regions stand side by side.
    pub fn regions_across(self) -> u16
        ensures value { result ≡ self.regions_across }
        ensures some { 0 < self.regions_across }
    {
        self.regions_across
    }

    /// Gives how many rows the mapping matrix has, which is all regions together without their borders.
    pub fn mapping_rows(self) -> u16
        ensures value { result ≡ mapping_rows self }
        ensures size { IsSize self }
        ensures below { mapping_rows self < self.rows }
        ensures cells { mapping_rows self * mapping_columns self ≤ most_cells }
    {
        self.regions_down * self.region_rows
    }

    /// Gives how many columns the mapping matrix has.
    pub fn mapping_columns(self) -> u16
        ensures value { result ≡ mapping_columns self }
        ensures size { IsSize self }
        ensures below { mapping_columns self < self.columns }
    {
        self.regions_across * self.region_columns
    }

    /// Gives how many data codewords the symbol has.
    pub fn data_count(self) -> u16
        ensures value { result ≡ self.data_count }
        ensures some { 0 < self.data_count }
        ensures most { self.data_count ≤ most_data }
    {
        self.data_count
    }

    /// Gives how many check codewords the symbol has.
    pub fn check_count(self) -> u16
        ensures value { result ≡ self.check_count }
        ensures size { IsSize self }
        ensures all { codeword_count self ≡ mapping_rows self * mapping_columns self / 8 }
        ensures most { codeword_count self ≤ most_codewords }
        ensures dealt { self.check_count ≡ self.blocks * block_check self }
    {
        self.check_count
    }

    /// Gives how many blocks the codewords of the symbol are dealt into.
    pub fn blocks(self) -> u16
        ensures value { result ≡ self.blocks }
        ensures some { 0 < self.blocks }
        ensures most { self.blocks ≤ most_blocks }
    {
        self.blocks
    }

    /// Gives how many data codewords block `b` has, counted from 0 and below the number of blocks.
    pub fn block_data(self, b: usize) -> u16
        requires { b < self.blocks }
        ensures value { result ≡ block_data self b }
        ensures some { 0 < block_data self b }
        ensures length { block_data self b + block_check self ≡ block_length self b }
    {
        (self.data_count + self.blocks - 1 - b as u16) / self.blocks
    }

    /// Gives how many check codewords a block has, 5 to 68.
    pub fn block_check(self) -> u16
        ensures value { result ≡ block_check self }
        ensures some { 5 ≤ block_check self }
        ensures most { block_check self ≤ most_block_check }
    {
        self.check_count / self.blocks
    }

    /// Gives how many codewords block `b` has, counted from 0 and below the number of blocks: data and then checks.
    pub fn block_length(self, b: usize) -> u16
        requires { b < self.blocks }
        ensures value { result ≡ block_length self b }
        ensures most { block_length self b ≤ longest_block }
    {
        (self.data_count + self.check_count + self.blocks - 1 - b as u16) / self.blocks
    }

    /// Gives how many wrong codewords can be corrected in a block: half of its check codewords, rounded down.
    pub fn limit(self) -> u16
        ensures { result ≡ limit self }
    {
        self.check_count / self.blocks / 2
    }

    /// Whether both have the same rows and columns, and so are the same.
    pub(crate) fn is_same(self, other: SymbolSize) -> bool
        ensures { result ≡ equal_sizes self other }
    {
        self.rows == other.rows && self.columns == other.columns
    }

    /// Whether the size is one of the extension, ISO/IEC 21471.
    pub fn is_extended(self) -> bool
        ensures { result ≡ self.extended }
    {
        self.extended
    }
}
