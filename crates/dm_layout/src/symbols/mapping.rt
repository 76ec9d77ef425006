//! The mapping matrix as rows of bits, and the codewords in it.

ghost use Rattle.std.specs.Prelude.{◌≡◌, ℕ, ◌+◌, ◌<◌, ◌≤◌, false, true, length, replicate};
ghost use Rattle.dm_place.specs.Border.{is_fixed};
ghost use Rattle.dm_place.specs.Holding.{bit_of};
ghost use Rattle.dm_place.specs.Placement.{IsPlace};
ghost use Rattle.dm_place.specs.declared.shape.Cell.{Cell};
ghost use Rattle.dm_layout.specs.symbols.Sizes.{IsSize, codeword_count, mapping_rows, mapping_columns};
ghost use Rattle.dm_layout.specs.symbols.inner.Reading.{look_in};
ghost use Rattle.dm_layout.specs.symbols.inner.Slots.{most_of, bytes_of};

use crate::symbols::bit_rows::BitRows;
use crate::symbols::laying::lay_slots;
use crate::symbols::size::SymbolSize;
use crate::symbols::slots::{order, reverse};

/// Turns `rows`, in which no cell is dark, into the mapping matrix of a size with these codewords; nothing else in
/// it is dark.
pub(crate) fn paint<R: BitRows>(size: SymbolSize, words: &[u8], rows: &mut R)
    requires light { R.numbers rows.old ≡ replicate (R.most + 6) 0 }
    requires room { R.most ≡ most_of (mapping_columns size) }
    requires slots { R.bytes ≡ bytes_of (mapping_columns size) }
    requires size { IsSize size }
    requires count { length words.now ≡ codeword_count size }
    ensures room { length (R.numbers rows.new) ≡ R.most + 6 }
    ensures bits { (w b : ℕ) (cell : Cell)
        → IsPlace (mapping_rows size) (mapping_columns size) w b cell
        → look_in (R.numbers rows.new) (cell.row + 2) (cell.column + 4) ≡ bit_of words.now w b }
    ensures fixed { (r c : ℕ) → r < mapping_rows size → c < mapping_columns size
        → is_fixed (mapping_rows size) (mapping_columns size) r c ≡ true
        → look_in (R.numbers rows.new) (r + 2) (c + 4) ≡ false }
{
    let height = size.mapping_rows();
    let columns = size.mapping_columns();
    let mut slots = R::empty();
    let order = order(height, columns);
    for (i, slot) in order.first.iter().enumerate() {
        R::add(&mut slots, *slot as usize, reverse(words[i]));
    }
    let count = order.first.len();
    for (j, slot) in order.rest.iter().enumerate() {
        R::add(
            &mut slots,
            *slot as usize - order.less,
            reverse(words[count + j]),
        );
    }
    lay_slots(rows, &slots, height, columns);
}
