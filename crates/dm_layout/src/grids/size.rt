//! The sizes of square symbols, which are the squares of at most 104 modules a side among the sizes of all symbols:
//! ISO/IEC 16022, symbol sizes and capacities.

ghost use Rattle.std.specs.Prelude.{◌≡◌, ◌+◌, ◌*◌, ◌/◌, ◌%◌, ◌<◌, ◌≤◌, All, IfSome, IfNone};
ghost use Rattle.dm_layout.specs.Sizes.{size_table, row_with_side, row_for_words, row_of_symbol, IsRow, symbol_size};
ghost use Rattle.dm_layout.specs.Sizes.{codeword_count, block_data, block_check, block_length, regions_across};
ghost use Rattle.dm_layout.specs.Sizes.{largest_side, most_grid_data, most_grid_codewords, most_grid_blocks};
ghost use Rattle.dm_layout.specs.Sizes.{most_block_check};
ghost use Rattle.dm_layout.specs.Sizes.{longest_block};

use crate::symbols::{SizeChoice, SymbolSize};
use std::marker::Model;

/// How many sizes of squares there are.
pub const GRID_SIZE_COUNT: usize = 21;

/// The largest side of a size of the table of squares, in cells.
pub const LARGEST_SIDE: usize = 104;

/// The most data codewords of a size of the table of squares.
pub const MOST_GRID_DATA: usize = 816;

/// The most codewords of a size of the table of squares, data and check together.
pub const MOST_GRID_CODEWORDS: usize = 1152;

/// The most blocks of a size of the table of squares.
pub const MOST_GRID_BLOCKS: usize = 6;

/// A size of a square symbol: a row of the standard's table of sizes and capacities. In contracts it is a `SizeRow` of
/// `specs/Sizes.antt`.
#[derive(Clone, Copy, Debug, PartialEq, Eq)]
pub struct Size {
    pub(crate) symbol: SymbolSize,
}

impl Model for Size {
    ghost use Rattle.std.proofs.Common.{ap};
    ghost use Rattle.dm_layout.specs.symbols.Sizes.{SizeEntry};
    ghost use Rattle.dm_layout.specs.Sizes.{SizeRow, row_of_entry, symbol_size};
    ghost use Rattle.dm_layout.specs.inner.Keeping.{IsKept};

    ghost Value = { SizeRow };

    ghost view = { λ s. row_of_entry s.symbol };

    ghost invariant = { λ s. IsKept s.symbol };

    ghost inverse = { λ r. record { symbol = symbol_size r } };

    ghost inverse_ok = { λ a h. ap (λ (e : SizeEntry). record { symbol = e }) h.same };
}

/// The places of the sizes in the table of all symbols.
const PLACES: [usize; GRID_SIZE_COUNT] = [
    0, 1, 3, 4, 7, 9, 11, 13, 16, 23, 32, 34, 36, 37, 38, 39, 40, 41, 42, 43, 44,
];

/// Gives all sizes, by rising side.
pub fn table() -> [Size; GRID_SIZE_COUNT]
    ensures { result ≡ size_table }
{
    let symbols = crate::symbols::table();
    let mut sizes = [Size { symbol: symbols[0] }; GRID_SIZE_COUNT];
    for i in 0..GRID_SIZE_COUNT {
        sizes[i] = Size {
            symbol: symbols[PLACES[i]],
        };
    }
    sizes
}

impl Size {
    /// Gives the size with this side in cells, or None where the table has none.
    pub fn of_side(side: u16) -> Option<Size>
        ensures { result ≡ row_with_side side }
    {
        Size::of_symbol(SymbolSize::of(side, side)?)
    }

    /// Gives the smallest size with at least `count` data codewords, or None where no size has as many.
    pub fn for_words(count: u16) -> Option<Size>
        ensures value { result ≡ row_for_words count }
        ensures row { IfSome result IsRow }
        ensures enough { IfSome result (λ size. count ≤ size.data_count) }
        ensures smallest { IfSome result (λ size. All (λ row. count ≤ row.data_count
            → size.side ≤ row.side) size_table) }
        ensures none { IfNone result (most_grid_data < count) }
    {
        Size::of_symbol(SymbolSize::for_words(SizeChoice::Square, count)?)
    }

    /// Gives a symbol's size as that of a square, or None where it isn't square or its side is above the largest.
    fn of_symbol(symbol: SymbolSize) -> Option<Size>
        ensures value { result ≡ row_of_symbol symbol }
        ensures same { IfSome result (λ size. symbol_size size ≡ symbol) }
    {
        let side = symbol.rows();
        if side == symbol.columns() && side as usize <= LARGEST_SIDE {
            Some(Size { symbol })
        } else {
            None
        }
    }

    /// Gives the size as that of a symbol.
    #[inline]
    pub fn symbol(self) -> SymbolSize
        ensures value { result ≡ symbol_size self }
        ensures row { IsRow self }
        ensures most { self.side ≤ largest_side }
    {
        self.symbol
    }

    /// Gives how many cells a side of the symbol has, those of borders among them.
    #[inline]
    pub fn side(self) -> u16
        ensures value { result ≡ self.side }
        ensures row { IsRow self }
        ensures most { self.side ≤ largest_side }
    {
        self.symbol.rows()
    }

    /// Gives how many regions the symbol has.
    #[inline]
    pub fn regions(self) -> u16
        ensures value { result ≡ self.regions }
        ensures square { self.regions ≡ regions_across self * regions_across self }
    {
        self.symbol.regions_down() * self.symbol.regions_across()
    }

    /// Gives how many cells a side of one region has, without its border.
    #[inline]
    pub fn region_side(self) -> u16
        ensures value { result ≡ self.region_side }
        ensures even { self.region_side % 2 ≡ 0 }
        ensures least { 8 ≤ self.region_side }
        ensures most { self.region_side ≤ largest_side }
        ensures side { self.side ≡ regions_across self * (self.region_side + 2) }
    {
        self.symbol.region_rows()
    }

    /// Gives how many cells a side of the mapping square has, which is all regions put together without their borders.
    #[inline]
    pub fn mapping(self) -> u16
        ensures value { result ≡ self.mapping }
        ensures row { IsRow self }
        ensures regions { self.mapping ≡ regions_across self * self.region_side }
        ensures even { self.mapping % 2 ≡ 0 }
        ensures least { 8 ≤ self.mapping }
        ensures below { self.mapping < self.side }
    {
        self.symbol.mapping_rows()
    }

    /// Gives how many data codewords the symbol has.
    #[inline]
    pub fn data_count(self) -> u16
        ensures value { result ≡ self.data_count }
        ensures some { 0 < self.data_count }
        ensures most { self.data_count ≤ most_grid_data }
        ensures dealt { self.blocks * block_data self ≡ self.data_count }
    {
        self.symbol.data_count()
    }

    /// Gives how many check codewords the symbol has.
    #[inline]
    pub fn check_count(self) -> u16
        ensures value { result ≡ self.check_count }
        ensures row { IsRow self }
        ensures all { codeword_count self ≡ self.mapping * self.mapping / 8 }
        ensures most { codeword_count self ≤ most_grid_codewords }
        ensures dealt { self.blocks * block_check self ≡ self.check_count }
    {
        self.symbol.check_count()
    }

    /// Gives how many blocks the codewords of the symbol are dealt into.
    #[inline]
    pub fn blocks(self) -> u16
        ensures value { result ≡ self.blocks }
        ensures some { 0 < self.blocks }
        ensures most { self.blocks ≤ most_grid_blocks }
        ensures dealt { self.blocks * block_length self ≡ codeword_count self }
    {
        self.symbol.blocks()
    }

    /// Gives how many data codewords a block has.
    #[inline]
    pub fn block_data(self) -> u16
        ensures value { result ≡ block_data self }
        ensures some { 0 < block_data self }
        ensures length { block_data self + block_check self ≡ block_length self }
    {
        self.symbol.data_count() / self.symbol.blocks()
    }

    /// Gives how many check codewords a block has, 5 to 68.
    #[inline]
    pub fn block_check(self) -> u16
        ensures value { result ≡ block_check self }
        ensures some { 5 ≤ block_check self }
        ensures most { block_check self ≤ most_block_check }
        ensures length { block_length self ≤ longest_block }
    {
        self.symbol.block_check()
    }

    /// Gives how many wrong codewords can be corrected in a block: half of its check codewords, rounded down.
    #[inline]
    pub fn limit(self) -> u16
        ensures value { result ≡ self.limit }
        ensures half { self.limit ≡ block_check self / 2 }
    {
        self.symbol.limit()
    }
}
