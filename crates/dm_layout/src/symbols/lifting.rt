//! The codewords of a symbol read out of it: ISO/IEC 16022, module placement.
//!
//! The work is done in rows of bits of one of three widths, which [`lift_list()`] chooses.

ghost use Rattle.std.specs.Prelude.{◌≡◌, length};
ghost use Rattle.dm_place.specs.Holding.{HoldsBits};
ghost use Rattle.dm_layout.specs.symbols.Border.{mapped_cell};
ghost use Rattle.dm_layout.specs.symbols.Sizes.{codeword_count, mapping_rows, mapping_columns};
ghost use Rattle.dm_layout.specs.symbols.Symbols.{IsSymbol};
ghost use Rattle.dm_layout.specs.symbols.Words.{AreOfSize};
ghost use Rattle.dm_layout.specs.symbols.inner.Slots.{most_of, bytes_of};

use crate::symbols::bit_rows::BitRows;
use crate::symbols::borrowed::BorrowedSymbol;
use crate::symbols::narrow_rows::{NARROW_MATRIX, NarrowRows};
use crate::symbols::pair_rows::PairRows;
use crate::symbols::slots::{codeword, join_rows, order};
use crate::symbols::wide_rows::{WIDE_MATRIX, WideRows};
use crate::symbols::widened::widen;

/// Turns `words`, as many as the symbol has, into the codewords that it holds.
pub(crate) fn lift_list(symbol: &BorrowedSymbol, words: &mut [u8])
    requires { length words.old ≡ codeword_count symbol.now.size }
    ensures modules { IsSymbol symbol.now }
    ensures words { AreOfSize symbol.now.size words.new }
    ensures holds { HoldsBits (mapping_rows symbol.now.size) (mapping_columns symbol.now.size)
        (mapped_cell symbol.now) words.new }
{
    let columns = symbol.size().mapping_columns();
    if columns <= NARROW_MATRIX {
        lift_rows::<NarrowRows>(symbol, words);
    } else if columns <= WIDE_MATRIX {
        lift_rows::<WideRows>(symbol, words);
    } else {
        lift_rows::<PairRows>(symbol, words);
    }
}

/// Lifts the codewords by rows of one width, which have room for the symbol's mapping matrix.
fn lift_rows<R: BitRows>(symbol: &BorrowedSymbol, words: &mut [u8])
    requires room { R.most ≡ most_of (mapping_columns symbol.now.size) }
    requires slots { R.bytes ≡ bytes_of (mapping_columns symbol.now.size) }
    requires count { length words.old ≡ codeword_count symbol.now.size }
    ensures count { length words.new ≡ length words.old }
    ensures holds { HoldsBits (mapping_rows symbol.now.size) (mapping_columns symbol.now.size)
        (mapped_cell symbol.now) words.new }
{
    let size = symbol.size();
    let height = size.mapping_rows();
    let columns = size.mapping_columns();
    let mut rows = R::light();
    widen(symbol, &mut rows);
    let mut slots = R::empty();
    join_rows(&rows, &mut slots, height, columns);
    let order = order(height, columns);
    for (i, slot) in order.first.iter().enumerate() {
        words[i] = codeword::<R>(&slots, *slot as usize);
    }
    let count = order.first.len();
    for (j, slot) in order.rest.iter().enumerate() {
        words[count + j] = codeword::<R>(&slots, *slot as usize - order.less);
    }
}
