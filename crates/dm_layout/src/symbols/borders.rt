//! The border modules of the rows of a symbol as bits.

ghost use Rattle.std.specs.Prelude.{◌≡◌, ℕ, ◌+◌, ◌*◌, ◌%◌, ◌^◌, ◌<◌, ◌≤◌, ◌&&◌};
ghost use Rattle.dm_place.specs.Border.{is_on_edge, edge_is_dark};
ghost use Rattle.dm_layout.specs.symbols.Symbols.{is_dark_bit};
ghost use Rattle.dm_layout.specs.symbols.Sizes.{IsSize};
ghost use Rattle.dm_layout.specs.symbols.inner.BorderMasks.{AreRuled, AreBorderCells, AreDarkCells};
ghost use Rattle.dm_layout.specs.symbols.inner.Reading.{whole_row};

use crate::symbols::size::SymbolSize;
use crate::symbols::symbol::FIRST_COLUMNS;
use std::marker::Model;

/// A row in which the modules of even columns are dark.
const EVEN_COLUMNS: u128 = 0x5555_5555_5555_5555_5555_5555_5555_5555;

/// The end of such a row, behind its first 128 modules.
const EVEN_END: u16 = 0x5555;

/// The border modules of a symbol's rows, as bits, the first 128 of a row in one number and those behind them in
/// another. Which row it is doesn't matter, but only its place inside a region with its border, counted from 0 at the
/// top; functions call this place `inner`.
#[derive(Drop)]
pub(crate) struct Borders {
    size: SymbolSize,
    /// The last row of a region with its border.
    last: u16,
    /// The left columns of the regions with their borders.
    left: (u128, u16),
    /// Their left and their right columns.
    both: (u128, u16),
    /// The even columns.
    even: (u128, u16),
    /// All columns.
    all: (u128, u16),
}

impl Model for Borders {
    ghost use Rattle.dm_layout.specs.symbols.Sizes.{SizeEntry};
    ghost use Rattle.dm_layout.specs.symbols.inner.BorderMasks.{AreBorders};
    ghost use Rattle.dm_layout.specs.symbols.inner.Reading.{whole_row};

    ghost Value = { SizeEntry };

    ghost view = { λ b. b.size };

    ghost invariant = { λ b. AreBorders b.size b.last (whole_row b.left.0 b.left.1)
        (whole_row b.both.0 b.both.1) (whole_row b.even.0 b.even.1) (whole_row b.all.0 b.all.1) };
}

/// Gives the left columns of the first regions with their borders, whose columns are 0 to `last`, and their left and
/// right columns.
#[inline(always)]
fn ruled(last: u16, regions: u16) -> (u128, u128)
    requires some { 1 ≤ last }
    requires fits { regions * (last + 1) ≤ 128 }
    ensures { AreRuled last regions result.0 result.1 }
{
    let mut left = 0;
    let mut both = 0;
    for region in 0..regions {
        let first = region * (last + 1);
        left |= 1 << first;
        both = both | 1 << first | 1 << (first + last);
    }
    (left, both)
}

impl Borders {
    /// Gives the borders of a symbol of this size.
    #[inline(always)]
    pub(crate) fn new(size: SymbolSize) -> Borders
        ensures { result ≡ size }
    {
        if size.columns() <= FIRST_COLUMNS {
            Borders::short(size)
        } else {
            Borders::long(size)
        }
    }

    /// Gives the borders of a symbol of at most 128 columns.
    #[inline(always)]
    fn short(size: SymbolSize) -> Borders
        requires { size.columns ≤ 128 }
        ensures { result ≡ size }
    {
        let columns = size.columns();
        let last = size.region_columns() + 1;
        let (left, both) = ruled(last, size.regions_across());
        let all = (1 << columns) - 1;
        Borders {
            size,
            last: size.region_rows() + 1,
            left: (left, 0),
            both: (both, 0),
            even: (EVEN_COLUMNS & all, 0),
            all: (all, 0),
        }
    }

    /// Gives the borders of a symbol of more than 128 columns, the last of whose six regions lies across column 128.
    fn long(size: SymbolSize) -> Borders
        requires { 128 < size.columns }
        ensures { result ≡ size }
    {
        let end = size.columns() - FIRST_COLUMNS;
        let last = size.region_columns() + 1;
        let (left, both) = ruled(last, 5);
        let first = 1 << (5 * (last + 1));
        let all = u16::MAX >> (16 - end);
        Borders {
            size,
            last: size.region_rows() + 1,
            left: (left | first, 0),
            both: (both | first, 1 << (end - 1)),
            even: (EVEN_COLUMNS, EVEN_END & all),
            all: (u128::MAX, all),
        }
    }

    /// Gives the last row of a region with its border.
    #[inline(always)]
    pub(crate) fn last(&self) -> u16
        ensures value { result ≡ self.now.region_rows + 1 }
        ensures size { IsSize self.now }
    {
        self.last
    }

    /// Gives the border modules of a row.
    #[inline(always)]
    pub(crate) fn cells(&self, inner: u16) -> (u128, u16)
        ensures cells { (column : ℕ) → column < self.now.columns
            → is_dark_bit (whole_row result.0 result.1) column
            ≡ is_on_edge self.now.region_rows self.now.region_columns inner
            (column % (self.now.region_columns + 2)) }
        ensures width { whole_row result.0 result.1 < 2 ^ self.now.columns }
    {
        if inner == 0 || inner == self.last {
            self.all
        } else {
            self.both
        }
    }

    /// Gives the border modules of a row between the first and the last one of its region, all of which are to be dark
    /// in an odd row.
    #[inline(always)]
    pub(crate) fn sides(&self) -> (u128, u16)
        ensures cells { AreBorderCells self.now 1 (whole_row result.0 result.1) }
        ensures dark { AreDarkCells self.now 1 (whole_row result.0 result.1) }
        ensures width { whole_row result.0 result.1 < 2 ^ self.now.columns }
    {
        self.both
    }

    /// Gives those of them that are to be dark in an even row.
    #[inline(always)]
    pub(crate) fn left_sides(&self) -> (u128, u16)
        ensures { AreDarkCells self.now 2 (whole_row result.0 result.1) }
    {
        self.left
    }

    /// Gives the border modules of a row that are to be dark.
    #[inline(always)]
    pub(crate) fn dark(&self, inner: u16) -> (u128, u16)
        ensures cells { (column : ℕ) → column < self.now.columns
            → is_dark_bit (whole_row result.0 result.1) column
            ≡ (is_on_edge self.now.region_rows self.now.region_columns inner
            (column % (self.now.region_columns + 2))
            && edge_is_dark self.now.region_rows inner (column % (self.now.region_columns + 2))) }
        ensures width { whole_row result.0 result.1 < 2 ^ self.now.columns }
    {
        if inner == self.last {
            self.all
        } else if inner == 0 {
            self.even
        } else if inner % 2 == 1 {
            self.both
        } else {
            self.left
        }
    }
}
