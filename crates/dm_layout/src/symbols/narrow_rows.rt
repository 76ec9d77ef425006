//! Rows of 64 bits, for mapping matrices of up to 56 columns.

ghost use Rattle.std.specs.Prelude.{◌≡◌};
ghost use Rattle.std.proofs.Common.{rules};

use crate::symbols::bit_rows::BitRows;
use crate::symbols::slot_rows::Slots;

/// The most rows or columns of a mapping matrix whose rows are numbers of 64 bits.
pub(crate) const NARROW_MATRIX: u16 = 56;

/// The slot of a corner of such a matrix, which lies behind all others.
pub(crate) const CORNER_8: u16 = 8 * NARROW_MATRIX;

/// How many rows there are: two above such a matrix, and four below it, since wrapping looks there.
const NARROW_WIDENED: usize = NARROW_MATRIX as usize + 6;

/// How many slots there are: eight for each row of such a matrix, and behind them as many for a corner.
const NARROW_SLOTS: usize = 8 * (NARROW_MATRIX as usize + 1);

/// The lowest two bits of each byte, of eight.
const NARROW_LOW_TWO_BITS: u64 = 0x0303_0303_0303_0303;

/// The lowest three bits of each byte, of eight.
const NARROW_LOW_THREE_BITS: u64 = 0x0707_0707_0707_0707;

/// Rows for mapping matrices of up to 56 rows and columns.
pub(crate) type NarrowRows = [u64; NARROW_WIDENED];

impl BitRows for NarrowRows {
    type Slots = Slots<8, NARROW_SLOTS>;

    ghost most = { 56 };

    ghost width = { 64 };

    ghost bytes = { 8 };

    ghost numbers = { λ rows. rows };

    ghost joined = { λ slots. slots };

    ghost fits = { Prim.search rules };

    ghost whole = { Prim.search rules };

    #[inline(always)]
    fn light() -> NarrowRows {
        [0; NARROW_WIDENED]
    }

    #[inline(always)]
    fn put(&mut self, row: usize, inner: u128, _rest: u8) {
        self[row] = (inner as u64) << 4;
    }

    #[inline(always)]
    fn wrap_left(&mut self, row: usize, from: usize, column: u16) {
        self[row] |= self[from] >> column;
    }

    #[inline(always)]
    fn wrap_above(&mut self, row: usize, from: usize, shift: u16) {
        self[row] = (self[from] << shift) >> 4;
    }

    #[inline(always)]
    fn join(&self, slots: &mut Slots<8, NARROW_SLOTS>, row: usize, column: u16) {
        let codewords = (self[row] >> column) & NARROW_LOW_TWO_BITS
            | ((self[row + 1] >> column) & NARROW_LOW_THREE_BITS) << 2
            | ((self[row + 2] >> column) & NARROW_LOW_THREE_BITS) << 5;
        slots.put_row(row, codewords.to_le_bytes());
    }

    #[inline(always)]
    fn bit(&self, row: usize, column: u16) -> u16 {
        ((self[row] >> column) % 2) as u16
    }

    #[inline(always)]
    fn scatter(&mut self, slots: &Slots<8, NARROW_SLOTS>, row: usize, column: u16) {
        let codewords = u64::from_le_bytes(slots.row(row));
        self[row] |= (codewords & NARROW_LOW_TWO_BITS) << column;
        self[row + 1] |= ((codewords >> 2) & NARROW_LOW_THREE_BITS) << column;
        self[row + 2] |= ((codewords >> 5) & NARROW_LOW_THREE_BITS) << column;
    }

    #[inline(always)]
    fn lower(&mut self, row: usize, from: usize, shift: u16) {
        if shift <= 4 {
            self[row] |= self[from] << (4 - shift);
        } else {
            self[row] |= self[from] >> (shift - 4);
        }
    }

    #[inline(always)]
    fn move_left_end(&mut self, row: usize, from: usize, column: u16) {
        self[row] |= (self[from] % 16) << column;
    }

    #[inline(always)]
    fn raise(&mut self, row: usize, from: usize) {
        self[row] |= self[from];
    }

    #[inline(always)]
    fn put_bit(&mut self, row: usize, column: u16, bit: u8) {
        self[row] |= u64::from(bit) << column;
    }

    #[inline(always)]
    fn inner(&self, row: usize) -> (u128, u8) {
        (u128::from(self[row] >> 4), 0)
    }

    #[inline(always)]
    fn empty() -> Slots<8, NARROW_SLOTS> {
        Slots::empty()
    }

    #[inline(always)]
    fn corner() -> u16 {
        CORNER_8
    }

    #[inline(always)]
    fn byte(slots: &Slots<8, NARROW_SLOTS>, slot: usize) -> u8 {
        slots.byte(slot)
    }

    #[inline(always)]
    fn add(slots: &mut Slots<8, NARROW_SLOTS>, slot: usize, byte: u8) {
        slots.add(slot, byte);
    }
}
