//! Codewords into a symbol and out of it: ISO/IEC 16022, module placement and symbol structure.

ghost use Rattle.std.specs.Prelude.{◌≡◌, ◌≤◌, length};
ghost use Rattle.dm_layout.specs.symbols.Sizes.{codeword_count, mapping_columns};
ghost use Rattle.dm_layout.specs.symbols.inner.Keeping.{kept_symbol};
ghost use Rattle.dm_layout.specs.symbols.inner.Slots.{most_of, bytes_of};
ghost use Rattle.dm_layout.specs.symbols.Border.{HasFixedSquare, border_fault_count};
ghost use Rattle.dm_layout.specs.symbols.Symbols.{SymbolView};
ghost use Rattle.dm_layout.specs.symbols.Words.{WordsView, IsWords, first_words, words_with};
ghost use Rattle.dm_layout.specs.symbols.Holding.{Holds, IsLaid};

use crate::symbols::bit_rows::BitRows;
use crate::symbols::borrowed::BorrowedSymbol;
use crate::symbols::drawing::{draw, put_fixed_square};
use crate::symbols::lifting::lift_list;
use crate::symbols::mapping::paint;
use crate::symbols::narrow_rows::{NARROW_MATRIX, NarrowRows};
use crate::symbols::pair_rows::PairRows;
use crate::symbols::size::SymbolSize;
use crate::symbols::symbol::SymbolIn;
use crate::symbols::wide_rows::{WIDE_MATRIX, WideRows};
use crate::symbols::words::SymbolWordsIn;

/// Turns `symbol`, whatever it was, into the one in which these codewords are laid: the only one that holds them, has
/// no border fault, and has the fixed square (ISO/IEC 16022, module placement and symbol structure).
pub fn lay_to<const ROOM: usize, const ROWS: usize>(
    words: &SymbolWordsIn<ROOM>,
    symbol: &mut SymbolIn<ROWS>,
)
    requires { words.now.size.rows ≤ ROWS }
    ensures holds { Holds symbol.new words.now }
    ensures border { border_fault_count symbol.new ≡ 0 }
    ensures fixed_square { HasFixedSquare symbol.new }
    ensures no_other_modules { (other : SymbolView) → IsLaid words.now other
        → other ≡ symbol.new }
    ensures no_other_words { (other : WordsView) → Holds symbol.new other → other ≡ words.now }
{
    symbol.lay_from(words);
}

/// Lays the codewords of a symbol of this size in the numbers of its rows, by rows of a width that has room for their
/// mapping matrix.
pub(crate) fn lay_list(size: SymbolSize, words: &[u8], lines: &mut [u128], ends: &mut [u16])
    requires words { IsWords (record { size = size; list = words.now }) }
    requires lines { size.rows ≤ length lines.old }
    requires ends { size.rows ≤ length ends.old }
    ensures lines { length lines.new ≡ length lines.old }
    ensures ends { length ends.new ≡ length ends.old }
    ensures laid { IsLaid (record { size = size; list = words.now })
        (kept_symbol size lines.new ends.new) }
{
    let columns = size.mapping_columns();
    if columns <= NARROW_MATRIX {
        lay_rows::<NarrowRows>(size, words, lines, ends);
    } else if columns <= WIDE_MATRIX {
        lay_rows::<WideRows>(size, words, lines, ends);
    } else {
        lay_rows::<PairRows>(size, words, lines, ends);
    }
}

/// Lays the codewords by rows of one width, which have room for their mapping matrix.
fn lay_rows<R: BitRows>(size: SymbolSize, words: &[u8], lines: &mut [u128], ends: &mut [u16])
    requires words { IsWords (record { size = size; list = words.now }) }
    requires lines { size.rows ≤ length lines.old }
    requires ends { size.rows ≤ length ends.old }
    requires most { R.most ≡ most_of (mapping_columns size) }
    requires slots { R.bytes ≡ bytes_of (mapping_columns size) }
    ensures lines { length lines.new ≡ length lines.old }
    ensures ends { length ends.new ≡ length ends.old }
    ensures laid { IsLaid (record { size = size; list = words.now })
        (kept_symbol size lines.new ends.new) }
{
    let mut rows = R::light();
    paint(size, words, &mut rows);
    put_fixed_square(&mut rows, size.mapping_rows(), size.mapping_columns());
    draw(size, &rows, lines, ends);
}

/// Gives the codewords that the symbol holds: exactly one list, whatever stands in its borders and in its fixed square
/// (ISO/IEC 16022, module placement).
pub fn lift<const ROWS: usize, const ROOM: usize>(symbol: &SymbolIn<ROWS>) -> SymbolWordsIn<ROOM>
    requires { codeword_count symbol.now.size ≤ ROOM }
    ensures holds { Holds symbol.now result }
    ensures no_other_words { (other : WordsView) → Holds symbol.now other → other ≡ result }
{
    let size = symbol.size();
    let mut words = SymbolWordsIn::zeros(size);
    lift_in(&symbol.borrowed(), words.resize(size));
    words
}

/// Puts them at the start of `room`.
fn lift_in(symbol: &BorrowedSymbol, room: &mut [u8])
    requires { codeword_count symbol.now.size ≤ length room.old }
    ensures { Holds symbol.now (first_words symbol.now.size room.new) }
{
    let size = symbol.size();
    let count = usize::from(size.data_count() + size.check_count());
    lift_to(symbol, &mut room[..count]);
}

/// Turns `words`, as many as the symbol has, into the codewords that it holds; the same as [`lift()`], for callers that
/// keep one list of codewords for many symbols.
pub fn lift_to(symbol: &BorrowedSymbol, words: &mut [u8])
    requires { length words.old ≡ codeword_count symbol.now.size }
    ensures holds { Holds symbol.now (words_with symbol.now.size words.new) }
    ensures no_other_words { (other : WordsView) → Holds symbol.now other
        → other ≡ words_with symbol.now.size words.new }
{
    lift_list(symbol, words);
}
