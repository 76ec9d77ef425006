//! The codewords of a symbol by the rows of their anchors.
//!
//! The anchors of a row stand every eighth column, so that the codewords of a row are the bytes of one number.

ghost use Rattle.std.specs.Prelude.{◌≡◌, ◌+◌, ◌%◌, ◌<◌, ◌≤◌, length, get_or, replicate};
ghost use Rattle.dm_place.specs.Placement.{cells_of, CellsInside};
ghost use Rattle.dm_layout.specs.symbols.inner.Widths.{largest_matrix};
ghost use Rattle.dm_layout.specs.symbols.inner.Slots.{first_column as first_column_by, reversed_bits, word_in};
ghost use Rattle.dm_layout.specs.symbols.inner.Slots.{first_order_of, rest_order_of, less_of, whole_order_of};
ghost use Rattle.dm_layout.specs.symbols.inner.Slots.{square_order_of, rectangle_order_of, order_in_6_of};
ghost use Rattle.dm_layout.specs.symbols.inner.Slots.{order_in_10_of};
ghost use Rattle.dm_layout.specs.symbols.inner.Slots.{order_in_14_of, order_in_18_of, order_in_20_of, order_in_22_of};
ghost use Rattle.dm_layout.specs.symbols.inner.Slots.{order_in_24_of, slot_byte, AreJoined, HasSlot, HasSlots};
ghost use Rattle.dm_place.specs.declared.shape.Shape.TheVariants.{Corner1, Corner2, Corner3, Corner4};

use crate::symbols::bit_rows::BitRows;
use crate::symbols::order_rows::*;
use dm_place::{Cell, Shape};

/// Each byte with its bits in the opposite order.
static REVERSED: [u8; 256] = [
    0, 128, 64, 192, 32, 160, 96, 224, 16, 144, 80, 208, 48, 176, 112, 240, 8, 136, 72, 200, 40,
    168, 104, 232, 24, 152, 88, 216, 56, 184, 120, 248, 4, 132, 68, 196, 36, 164, 100, 228, 20,
    148, 84, 212, 52, 180, 116, 244, 12, 140, 76, 204, 44, 172, 108, 236, 28, 156, 92, 220, 60,
    188, 124, 252, 2, 130, 66, 194, 34, 162, 98, 226, 18, 146, 82, 210, 50, 178, 114, 242, 10, 138,
    74, 202, 42, 170, 106, 234, 26, 154, 90, 218, 58, 186, 122, 250, 6, 134, 70, 198, 38, 166, 102,
    230, 22, 150, 86, 214, 54, 182, 118, 246, 14, 142, 78, 206, 46, 174, 110, 238, 30, 158, 94,
    222, 62, 190, 126, 254, 1, 129, 65, 193, 33, 161, 97, 225, 17, 145, 81, 209, 49, 177, 113, 241,
    9, 137, 73, 201, 41, 169, 105, 233, 25, 153, 89, 217, 57, 185, 121, 249, 5, 133, 69, 197, 37,
    165, 101, 229, 21, 149, 85, 213, 53, 181, 117, 245, 13, 141, 77, 205, 45, 173, 109, 237, 29,
    157, 93, 221, 61, 189, 125, 253, 3, 131, 67, 195, 35, 163, 99, 227, 19, 147, 83, 211, 51, 179,
    115, 243, 11, 139, 75, 203, 43, 171, 107, 235, 27, 155, 91, 219, 59, 187, 123, 251, 7, 135, 71,
    199, 39, 167, 103, 231, 23, 151, 87, 215, 55, 183, 119, 247, 15, 143, 79, 207, 47, 175, 111,
    239, 31, 159, 95, 223, 63, 191, 127, 255,
];

/// Gives a byte with its bits in the opposite order.
pub(crate) fn reverse(byte: u8) -> u8
    ensures { result ≡ reversed_bits byte }
{
    REVERSED[byte as usize]
}

/// Gives the codeword in these cells.
fn word_of_cells<R: BitRows>(rows: &R, cells: &[Cell; 8]) -> u8
    requires room { length (R.numbers rows.now) ≡ R.most + 6 }
    requires inside { CellsInside R.most R.most cells.now }
    ensures { result ≡ word_in (R.numbers rows.now) cells.now }
{
    let mut word: u16 = 0;
    for cell in cells {
        word = 2 * word + rows.bit(cell.row as usize + 2, cell.column + 4);
    }
    word as u8
}

/// Gives the codeword of the corner, where there is one, in widened rows.
#[inline(always)]
fn corner_word<R: BitRows>(rows: &R, height: u16, columns: u16) -> u8
    requires room { length (R.numbers rows.now) ≡ R.most + 6 }
    requires some { 6 ≤ height }
    requires least { 6 ≤ columns }
    requires high { height ≤ R.most }
    requires wide { columns ≤ R.most }
    ensures first { height % 8 ≡ 4 → columns % 8 ≡ 4 → result
        ≡ word_in (R.numbers rows.now) (cells_of height columns Corner1) }
    ensures second { height % 8 ≡ 6 → columns % 8 ≡ 6 → result
        ≡ word_in (R.numbers rows.now) (cells_of height columns Corner2) }
    ensures third { height % 8 ≡ 6 → columns % 8 ≡ 4 → result
        ≡ word_in (R.numbers rows.now) (cells_of height columns Corner3) }
    ensures fourth { height % 8 ≡ 6 → columns % 8 ≡ 0 → result
        ≡ word_in (R.numbers rows.now) (cells_of height columns Corner4) }
{
    if height % 8 == 4 && columns % 8 == 4 {
        word_of_cells(rows, &Shape::Corner1.cells(height, columns))
    } else if height % 8 == 6 && columns % 8 == 6 {
        word_of_cells(rows, &Shape::Corner2.cells(height, columns))
    } else if height % 8 == 6 && columns % 8 == 4 {
        word_of_cells(rows, &Shape::Corner3.cells(height, columns))
    } else if height % 8 == 6 && columns % 8 == 0 {
        word_of_cells(rows, &Shape::Corner4.cells(height, columns))
    } else {
        0
    }
}

/// Gives the column of the widened rows in which the first codeword of a row of anchors begins.
pub(crate) fn first_column(row: u16) -> u16
    requires { row < largest_matrix }
    ensures { result ≡ first_column_by row }
{
    (4 + 3 * row) % 8 + 2
}

/// Puts the codewords of all anchors into their slots; each has its bits in the opposite order.
fn join_anchors<R: BitRows>(rows: &R, slots: &mut R::Slots, height: u16)
    requires room { length (R.numbers rows.now) ≡ R.most + 6 }
    requires high { height ≤ R.most }
    requires slots { R.joined slots.old ≡ replicate (R.most + 1) 0 }
    ensures room { length (R.joined slots.new) ≡ R.most + 1 }
    ensures corner { get_or (R.joined slots.new) R.most 0 ≡ 0 }
    ensures joined { AreJoined height R.most (R.numbers rows.now) (R.joined slots.new) }
{
    for row in 0..height {
        rows.join(slots, row as usize, first_column(row));
    }
}

/// Puts the codewords in widened rows into their slots, which have none yet. The slots are the caller's, since a list
/// of their size would be cleared and copied once more to be given back.
pub(crate) fn join_rows<R: BitRows>(rows: &R, slots: &mut R::Slots, height: u16, columns: u16)
    requires room { length (R.numbers rows.now) ≡ R.most + 6 }
    requires some { 6 ≤ height }
    requires least { 6 ≤ columns }
    requires high { height ≤ R.most }
    requires wide { columns ≤ R.most }
    requires slots { R.joined slots.old ≡ replicate (R.most + 1) 0 }
    ensures { HasSlots R.most height columns (R.numbers rows.now) (R.joined slots.new) }
{
    join_anchors(rows, slots, height);
    let corner = corner_word(rows, height, columns);
    R::add(slots, R::corner() as usize, reverse(corner));
}

/// Gives the codeword of a slot.
#[inline(always)]
pub(crate) fn codeword<R: BitRows>(slots: &R::Slots, slot: usize) -> u8
    requires { HasSlot R.bytes R.most slot }
    ensures { result ≡ reversed_bits (slot_byte R.bytes (R.joined slots.now) slot) }
{
    reverse(R::byte(slots, slot))
}

/// Gives the slots of the codewords of a square in order, where they have a table of their own.
fn square_order(side: u16) -> &'static [u16]
    ensures { result.now ≡ square_order_of side }
{
    match side {
        8 => &ORDER_8_8,
        10 => &ORDER_10_10,
        12 => &ORDER_12_12,
        14 => &ORDER_14_14,
        16 => &ORDER_16_16,
        18 => &ORDER_18_18,
        20 => &ORDER_20_20,
        22 => &ORDER_22_22,
        24 => &ORDER_24_24,
        28 => &ORDER_28_28,
        36 => &ORDER_36_36,
        44 => &ORDER_44_44,
        108 => &ORDER_108_108,
        _ => &ORDER_132_132,
    }
}

/// Gives the slots of the codewords of a rectangle of 6 rows in order.
fn order_in_6(columns: u16) -> &'static [u16]
    ensures { result.now ≡ order_in_6_of columns }
{
    match columns {
        16 => &ORDER_6_16,
        28 => &ORDER_6_28,
        44 => &ORDER_6_44,
        56 => &ORDER_6_56,
        72 => &ORDER_6_72,
        88 => &ORDER_6_88,
        108 => &ORDER_6_108,
        _ => &ORDER_6_132,
    }
}

/// Gives the slots of the codewords of a rectangle of 10 rows in order.
fn order_in_10(columns: u16) -> &'static [u16]
    ensures { result.now ≡ order_in_10_of columns }
{
    match columns {
        24 => &ORDER_10_24,
        32 => &ORDER_10_32,
        56 => &ORDER_10_56,
        _ => &ORDER_10_80,
    }
}

/// Gives the slots of the codewords of a rectangle of 14 rows in order.
fn order_in_14(columns: u16) -> &'static [u16]
    ensures { result.now ≡ order_in_14_of columns }
{
    match columns {
        32 => &ORDER_14_32,
        44 => &ORDER_14_44,
        _ => &ORDER_14_56,
    }
}

/// Gives the slots of the codewords of a rectangle of 18 rows in order.
fn order_in_18(columns: u16) -> &'static [u16]
    ensures { result.now ≡ order_in_18_of columns }
{
    match columns {
        32 => &ORDER_18_32,
        40 => &ORDER_18_40,
        _ => &ORDER_18_56,
    }
}

/// Gives the slots of the codewords of a rectangle of 20 rows in order.
fn order_in_20(columns: u16) -> &'static [u16]
    ensures { result.now ≡ order_in_20_of columns }
{
    &ORDER_20_44
}

/// Gives the slots of the codewords of a rectangle of 22 rows in order.
fn order_in_22(columns: u16) -> &'static [u16]
    ensures { result.now ≡ order_in_22_of columns }
{
    match columns {
        44 => &ORDER_22_44,
        _ => &ORDER_22_56,
    }
}

/// Gives the slots of the codewords of a rectangle of 24 rows in order.
fn order_in_24(columns: u16) -> &'static [u16]
    ensures { result.now ≡ order_in_24_of columns }
{
    match columns {
        36 => &ORDER_24_36,
        44 => &ORDER_24_44,
        _ => &ORDER_24_56,
    }
}

/// Gives the slots of the codewords of a rectangle in order.
fn rectangle_order(rows: u16, columns: u16) -> &'static [u16]
    ensures { result.now ≡ rectangle_order_of rows columns }
{
    match rows {
        6 => order_in_6(columns),
        10 => order_in_10(columns),
        14 => order_in_14(columns),
        18 => order_in_18(columns),
        20 => order_in_20(columns),
        22 => order_in_22(columns),
        _ => order_in_24(columns),
    }
}

/// The slots of the codewords of a mapping matrix in order: `first`, and behind them those of `rest`, each less `less`.
#[derive(Clone, Copy)]
pub(crate) struct OrderParts {
    pub(crate) first: &'static [u16],
    pub(crate) rest: &'static [u16],
    pub(crate) less: usize,
}

/// Gives the slots of the codewords of a mapping matrix in order. A square of 32 to 56 rows or of 64 to 120, a multiple
/// of 8, has its codewords up to the diagonal where the largest of these has them, and the others as far from its lower
/// right corner.
pub(crate) fn order(rows: u16, columns: u16) -> OrderParts
    ensures first { result.first.now ≡ first_order_of rows columns }
    ensures rest { result.rest.now ≡ rest_order_of rows columns }
    ensures less { result.less ≡ less_of rows columns }
{
    if rows == columns && 24 < rows && rows <= 120 && rows % 8 == 0 {
        let side = rows as usize;
        let half = side * side / 16;
        if side <= 56 {
            OrderParts {
                first: &ORDER_56_56[..half],
                rest: &ORDER_56_56[392 - half..],
                less: (56 - side) / 8 * 65,
            }
        } else {
            OrderParts {
                first: &ORDER_120_120[..half],
                rest: &ORDER_120_120[1800 - half..],
                less: (120 - side) / 8 * 129,
            }
        }
    } else {
        OrderParts {
            first: whole_order(rows, columns),
            rest: &[],
            less: 0,
        }
    }
}

/// Gives the slots of the codewords of a mapping matrix in order, where they have a table of their own.
fn whole_order(rows: u16, columns: u16) -> &'static [u16]
    ensures { result.now ≡ whole_order_of rows columns }
{
    if rows == columns {
        square_order(rows)
    } else {
        rectangle_order(rows, columns)
    }
}
