//! Rows of bits as numbers, as wide and as many as a mapping matrix asks for.
//!
//! The codewords are lifted and laid by the same functions in three widths: 64 bits serve all mapping matrices of up to
//! 56 columns, 128 bits those of up to 120, and 256 bits those of 132. A small symbol thus pays neither for the rows
//! nor for the columns of the largest, and its codewords have as few slots.

ghost use Rattle.std.specs.Prelude.{◌≡◌, ℕ, ◌+◌, ◌*◌, ◌/◌, ◌%◌, ◌^◌, ◌<◌, ◌≤◌, List, get_or, length, set, replicate};
ghost use Rattle.std.specs.Prelude.{◌-◌, ◌≢◌, ◌&&◌, ◌||◌, nat_le, bit_or};
ghost use Rattle.std.specs.Int.{bit_at};
ghost use Rattle.dm_layout.specs.symbols.Symbols.{is_dark_bit};
ghost use Rattle.dm_layout.specs.symbols.inner.Laying.{with_byte, with_scattered};
ghost use Rattle.dm_layout.specs.symbols.inner.Reading.{look_in, whole_row};
ghost use Rattle.dm_layout.specs.symbols.inner.Widths.{largest_matrix};
ghost use Rattle.dm_layout.specs.symbols.inner.Slots.{is_joined, slot_byte, HasSlot};

/// Rows of bits as numbers: the cell of column c is the bit of weight 2^c, 1 for dark.
pub(crate) trait BitRows: Sized + Drop {
    /// Slots for the codewords of a mapping matrix that has room.
    type Slots: Drop;

    // The most rows and columns of a mapping matrix that has room.
    ghost most: { ℕ };

    // How many bits a row has.
    ghost width: { ℕ };

    // How many bytes a row of slots has.
    ghost bytes: { ℕ };

    // The numbers.
    ghost numbers: { Self → List ℕ };

    // The rows of slots as numbers, whose lowest byte is that of the first slot.
    ghost joined: { Self.Slots → List ℕ };

    /// Rows without a dark cell.
    fn light() -> Self
        ensures { numbers result ≡ replicate (most + 6) 0 };

    /// Puts a row of the mapping matrix, four columns to the right: its first 128 columns, and the rest.
    fn put(&mut self, row: usize, inner: u128, rest: u8)
        requires row { row < length (numbers self.old) }
        requires inner { whole_row inner rest < 2 ^ most }
        ensures { numbers self.new ≡ set (numbers self.old) row (whole_row inner rest * 16) };

    /// Lays over a row what another row has from a column on.
    fn wrap_left(&mut self, row: usize, from: usize, column: u16)
        requires row { row < length (numbers self.old) }
        requires from { from < length (numbers self.old) }
        requires column { column ≤ most }
        ensures { numbers self.new
            ≡ set (numbers self.old) row (bit_or (get_or (numbers self.old) row 0)
            (get_or (numbers self.old) from 0 / 2 ^ column)) };

    /// Puts another row, 4 - shift columns further to the left.
    fn wrap_above(&mut self, row: usize, from: usize, shift: u16)
        requires row { row < length (numbers self.old) }
        requires from { from < length (numbers self.old) }
        requires shift { shift ≤ 6 }
        ensures { numbers self.new
            ≡ set (numbers self.old) row
            (get_or (numbers self.old) from 0 * 2 ^ shift % 2 ^ width / 16) };

    /// Puts the codewords of the anchors of a row into its slots, from it and the two rows below: the anchors' shapes
    /// begin in this column and every eighth after it.
    fn join(&self, slots: &mut Self::Slots, row: usize, column: u16)
        requires row { row + 2 < length (numbers self.now) }
        requires slots { row ≤ most }
        requires column { column ≤ 9 }
        ensures room { length (joined slots.new) ≡ length (joined slots.old) }
        ensures others { (r : ℕ) → r ≢ row → get_or (joined slots.new) r 0
            ≡ get_or (joined slots.old) r 0 }
        ensures cells { row < length (joined slots.old) → (c : ℕ) → c < width
            → is_dark_bit (get_or (joined slots.new) row 0) c
            ≡ is_joined (get_or (numbers self.now) row 0 / 2 ^ column)
            (get_or (numbers self.now) (row + 1) 0 / 2 ^ column)
            (get_or (numbers self.now) (row + 2) 0 / 2 ^ column) c };

    /// Gives a bit of a row.
    fn bit(&self, row: usize, column: u16) -> u16
        requires row { row < length (numbers self.now) }
        requires column { column < most + 4 }
        ensures { result ≡ bit_at (get_or (numbers self.now) row 0) column };

    /// Lays the codewords of a row of slots over widened rows, where they begin at this column.
    fn scatter(&mut self, slots: &Self::Slots, row: usize, column: u16)
        requires row { row + 2 < length (numbers self.old) }
        requires slots { row ≤ most }
        requires column { column ≤ 9 }
        ensures room { length (numbers self.new) ≡ length (numbers self.old) }
        ensures cells { (r c : ℕ) → c < width → look_in (numbers self.new) r c
            ≡ with_scattered (look_in (numbers self.old) r c) (joined slots.now) row column r c };

    /// Lays over a row another one, 4 - shift columns further to the right.
    fn lower(&mut self, row: usize, from: usize, shift: u16)
        requires row { row < length (numbers self.old) }
        requires from { from < length (numbers self.old) }
        requires shift { shift ≤ 6 }
        ensures room { length (numbers self.new) ≡ length (numbers self.old) }
        ensures others { (r c : ℕ) → r ≢ row → look_in (numbers self.new) r c
            ≡ look_in (numbers self.old) r c }
        ensures cells { (c : ℕ) → c < width → look_in (numbers self.new) row c
            ≡ (look_in (numbers self.old) row c || (nat_le 4 (c + shift)
            && look_in (numbers self.old) from (c + shift - 4))) };

    /// Lays over a row, from a column on, the four leftmost columns of another row.
    fn move_left_end(&mut self, row: usize, from: usize, column: u16)
        requires row { row < length (numbers self.old) }
        requires from { from < length (numbers self.old) }
        requires column { column ≤ most }
        ensures { numbers self.new
            ≡ set (numbers self.old) row (bit_or (get_or (numbers self.old) row 0)
            (get_or (numbers self.old) from 0 % 16 * 2 ^ column % 2 ^ width)) };

    /// Lays over a row another one.
    fn raise(&mut self, row: usize, from: usize)
        requires row { row < length (numbers self.old) }
        requires from { from < length (numbers self.old) }
        ensures { numbers self.new
            ≡ set (numbers self.old) row (bit_or (get_or (numbers self.old) row 0)
            (get_or (numbers self.old) from 0)) };

    /// Makes a cell dark if the bit is 1.
    fn put_bit(&mut self, row: usize, column: u16, bit: u8)
        requires row { row < length (numbers self.old) }
        requires column { column < most + 4 }
        ensures { numbers self.new
            ≡ set (numbers self.old) row (bit_or (get_or (numbers self.old) row 0)
            (bit * 2 ^ column % 2 ^ width)) };

    /// Gives a row without its four leftmost columns: the 128 columns from there on, and the eight behind them.
    fn inner(&self, row: usize) -> (u128, u8)
        requires { row < length (numbers self.now) }
        ensures { whole_row result.0 result.1
            ≡ get_or (numbers self.now) row 0 / 2 ^ 4 % 2 ^ 136 };

    /// Gives slots without a codeword.
    fn empty() -> Self::Slots
        ensures { joined result ≡ replicate (most + 1) 0 };

    /// Gives the slot of the codeword of a corner, which lies behind all others.
    fn corner() -> u16
        ensures { result ≡ bytes * most };

    /// Gives the byte of a slot.
    fn byte(slots: &Self::Slots, slot: usize) -> u8
        requires { HasSlot bytes most slot }
        ensures { result ≡ slot_byte bytes (joined slots.now) slot };

    /// Lays a byte over that of its slot.
    fn add(slots: &mut Self::Slots, slot: usize, byte: u8)
        requires { HasSlot bytes most slot }
        ensures { joined slots.new ≡ with_byte bytes (joined slots.old) slot byte };

    ghost fits: { (most ≤ largest_matrix) × (most + 8 ≤ width) };

    ghost whole: { width ≡ 8 * bytes };
}
