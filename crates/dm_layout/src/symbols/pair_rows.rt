//! Rows of 256 bits, for mapping matrices of more than 120 columns.

ghost use Rattle.std.specs.Prelude.{◌≡◌};
ghost use Rattle.std.proofs.Common.{rules};
ghost use Rattle.dm_layout.specs.symbols.inner.Pairs.{numbers_of};

use crate::symbols::bit_rows::BitRows;
use crate::symbols::pair::Pair;
use crate::symbols::slot_rows::Slots;
use crate::symbols::wide_rows::{LOW_THREE_BITS, LOW_TWO_BITS};

/// The most rows or columns of a mapping matrix.
const LARGEST_MATRIX: u16 = 132;

/// The slot of a corner of such a matrix, which lies behind all others.
pub(crate) const CORNER_32: u16 = 32 * LARGEST_MATRIX;

/// How many rows there are: two above the largest matrix, and four below it, since wrapping looks there.
const PAIR_WIDENED: usize = LARGEST_MATRIX as usize + 6;

/// How many slots there are: 32 for each row of the largest matrix, and behind them as many for a corner.
const PAIR_SLOTS: usize = 32 * (LARGEST_MATRIX as usize + 1);

/// Rows for mapping matrices of any size.
pub(crate) type PairRows = [Pair; PAIR_WIDENED];

impl BitRows for PairRows {
    type Slots = Slots<32, PAIR_SLOTS>;

    ghost most = { 132 };

    ghost width = { 256 };

    ghost bytes = { 32 };

    ghost numbers = { numbers_of };

    ghost joined = { λ slots. slots };

    ghost fits = { Prim.search rules };

    ghost whole = { Prim.search rules };

    #[inline(always)]
    fn light() -> PairRows {
        [Pair { low: 0, high: 0 }; PAIR_WIDENED]
    }

    #[inline(always)]
    fn put(&mut self, row: usize, inner: u128, rest: u8) {
        let number = Pair {
            low: inner,
            high: u128::from(rest),
        };
        self[row] = number.left(4);
    }

    #[inline(always)]
    fn wrap_left(&mut self, row: usize, from: usize, column: u16) {
        self[row] = self[row].or(&self[from].right(column));
    }

    #[inline(always)]
    fn wrap_above(&mut self, row: usize, from: usize, shift: u16) {
        self[row] = self[from].left(shift).right(4);
    }

    #[inline(always)]
    fn join(&self, slots: &mut Slots<32, PAIR_SLOTS>, row: usize, column: u16) {
        let first = self[row].right(column).masked(LOW_TWO_BITS);
        let second = self[row + 1].right(column).masked(LOW_THREE_BITS);
        let third = self[row + 2].right(column).masked(LOW_THREE_BITS);
        let codewords = first.or(&second.left(2)).or(&third.left(5));
        slots.put_row(row, codewords.to_bytes());
    }

    #[inline(always)]
    fn bit(&self, row: usize, column: u16) -> u16 {
        (self[row].right(column).low % 2) as u16
    }

    #[inline(always)]
    fn scatter(&mut self, slots: &Slots<32, PAIR_SLOTS>, row: usize, column: u16) {
        let codewords = Pair::from_bytes(&slots.row(row));
        let first = codewords.masked(LOW_TWO_BITS);
        let second = codewords.right(2).masked(LOW_THREE_BITS);
        let third = codewords.right(5).masked(LOW_THREE_BITS);
        self[row] = self[row].or(&first.left(column));
        self[row + 1] = self[row + 1].or(&second.left(column));
        self[row + 2] = self[row + 2].or(&third.left(column));
    }

    #[inline(always)]
    fn lower(&mut self, row: usize, from: usize, shift: u16) {
        if shift <= 4 {
            self[row] = self[row].or(&self[from].left(4 - shift));
        } else {
            self[row] = self[row].or(&self[from].right(shift - 4));
        }
    }

    #[inline(always)]
    fn move_left_end(&mut self, row: usize, from: usize, column: u16) {
        let end = Pair {
            low: self[from].low % 16,
            high: 0,
        };
        self[row] = self[row].or(&end.left(column));
    }

    #[inline(always)]
    fn raise(&mut self, row: usize, from: usize) {
        self[row] = self[row].or(&self[from]);
    }

    #[inline(always)]
    fn put_bit(&mut self, row: usize, column: u16, bit: u8) {
        let cell = Pair {
            low: u128::from(bit),
            high: 0,
        };
        self[row] = self[row].or(&cell.left(column));
    }

    #[inline(always)]
    fn inner(&self, row: usize) -> (u128, u8) {
        let Pair { low, high } = self[row].right(4);
        (low, (high % 256) as u8)
    }

    #[inline(always)]
    fn empty() -> Slots<32, PAIR_SLOTS> {
        Slots::empty()
    }

    #[inline(always)]
    fn corner() -> u16 {
        CORNER_32
    }

    #[inline(always)]
    fn byte(slots: &Slots<32, PAIR_SLOTS>, slot: usize) -> u8 {
        slots.byte(slot)
    }

    #[inline(always)]
    fn add(slots: &mut Slots<32, PAIR_SLOTS>, slot: usize, byte: u8) {
        slots.add(slot, byte);
    }
}
