//! The modules of a symbol, borrowed.

ghost use Rattle.std.specs.Prelude.{◌≡◌, ℕ, ◌+◌, ◌<◌};
ghost use Rattle.dm_layout.specs.symbols.Symbols.{IsSymbol, is_dark_bit, module_at};

use crate::symbols::size::SymbolSize;
use std::marker::Model;

/// The modules of a symbol, borrowed from one that has room for any number of rows: what works on this is compiled
/// once, and not for each room. In contracts it is a `SymbolView` of `specs/symbols/Symbols.antt`.
#[derive(Drop)]
pub struct BorrowedSymbol<'a> {
    pub(crate) size: SymbolSize,
    pub(crate) rows: &'a [u128],
    pub(crate) ends: &'a [u16],
}

impl<'a> Model for BorrowedSymbol<'a> {
    ghost use Rattle.std.specs.Prelude.{length};
    ghost use Rattle.dm_layout.specs.symbols.Symbols.{SymbolView};
    ghost use Rattle.dm_layout.specs.symbols.inner.Keeping.{kept_symbol, IsKept};

    ghost Value = { SymbolView };

    ghost view = { λ s. kept_symbol s.size s.rows.now s.ends.now };

    ghost invariant = { λ s. IsKept (length s.rows.now) s.size s.rows.now s.ends.now };
}

impl<'a> BorrowedSymbol<'a> {
    /// Gives the size of the symbol.
    #[inline(always)]
    pub fn size(&self) -> SymbolSize
        ensures value { result ≡ self.now.size }
        ensures modules { IsSymbol self.now }
    {
        self.size
    }

    /// Gives the first 128 modules of a row as a number, as [`SymbolIn::row`](crate::symbols::SymbolIn::row()) does.
    #[inline(always)]
    pub(crate) fn row(&self, row: u16) -> u128
        requires { row < self.now.size.rows }
        ensures { (column : ℕ) → column < 128 → column < self.now.size.columns
            → is_dark_bit result column ≡ module_at self.now row column }
    {
        self.rows[row as usize]
    }

    /// Gives the modules of a row behind the first 128, as [`SymbolIn::end`](crate::symbols::SymbolIn::end()) does.
    #[inline(always)]
    pub(crate) fn end(&self, row: u16) -> u16
        requires { row < self.now.size.rows }
        ensures { (column : ℕ) → 128 + column < self.now.size.columns
            → is_dark_bit result column ≡ module_at self.now row (128 + column) }
    {
        self.ends[row as usize]
    }
}
