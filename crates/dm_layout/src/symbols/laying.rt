//! The codewords laid into the mapping matrix, those of a row of anchors at once.
//!
//! Their bits are scattered into widened rows, in which no standard shape wraps; what lies above the matrix, left of it
//! and below it is then folded back into it. Row r of the matrix is row r + 2 of the widened rows, and its column c is
//! their column c + 4.

ghost use Rattle.std.specs.Prelude.{◌≡◌, ℕ, ◌+◌, ◌-◌, ◌%◌, ◌<◌, ◌≤◌, ◌&&◌, ◌||◌, nat_le, nat_lt, get_or, length};
ghost use Rattle.std.specs.Prelude.{replicate};
ghost use Rattle.dm_place.specs.Placement.{CellsInside};
ghost use Rattle.dm_layout.specs.symbols.inner.Laying.{scattered, lowered, folded, corner_marks};
ghost use Rattle.dm_layout.specs.symbols.inner.Reading.{look_in, marks_in};
ghost use Rattle.dm_layout.specs.symbols.inner.Slots.{reversed_bits};

use crate::symbols::bit_rows::BitRows;
use crate::symbols::slots::{codeword, first_column};
use crate::symbols::widened::wrap_shift;
use dm_place::{Cell, Shape};

/// Makes the cells of all standard shapes dark where the bits of their codewords are 1, in widened rows without a dark
/// cell.
fn scatter<R: BitRows>(rows: &mut R, slots: &R::Slots, height: u16)
    requires high { height ≤ R.most }
    requires light { R.numbers rows.old ≡ replicate (R.most + 6) 0 }
    ensures room { length (R.numbers rows.new) ≡ R.most + 6 }
    ensures cells { (r c : ℕ) → c < R.width → look_in (R.numbers rows.new) r c
        ≡ scattered height (R.joined slots.now) r c }
{
    for row in 0..height {
        rows.scatter(slots, row as usize, first_column(row));
    }
}

/// Lays the two rows above the matrix over its last two rows, 4 - ((height + 4) mod 8) columns further to the right.
fn lower_rows<R: BitRows>(rows: &mut R, height: u16)
    requires room { length (R.numbers rows.old) ≡ R.most + 6 }
    requires some { 6 ≤ height }
    requires high { height ≤ R.most }
    requires even { height % 2 ≡ 0 }
    ensures room { length (R.numbers rows.new) ≡ R.most + 6 }
    ensures cells { (r c : ℕ) → c < R.width → look_in (R.numbers rows.new) r c
        ≡ lowered height (look_in (R.numbers rows.old)) r c }
{
    let shift = wrap_shift(height);
    let last = height as usize;
    rows.lower(last, 0, shift);
    rows.lower(last + 1, 1, shift);
}

/// Lays the four columns left of the matrix over its last four columns, 4 - shift rows further down.
fn move_columns<R: BitRows>(rows: &mut R, height: u16, columns: u16, shift: u16)
    requires room { length (R.numbers rows.old) ≡ R.most + 6 }
    requires some { 6 ≤ height }
    requires least { 6 ≤ columns }
    requires high { height ≤ R.most }
    requires wide { columns ≤ R.most }
    requires shift { shift ≤ 6 }
    ensures room { length (R.numbers rows.new) ≡ R.most + 6 }
    ensures cells { (r c : ℕ) → look_in (R.numbers rows.new) r c
        ≡ (look_in (R.numbers rows.old) r c || ((nat_le columns c && nat_lt c (columns + 4))
        && ((nat_le 8 (r + shift) && nat_lt (r + shift) (height + 2 + 4))
        && look_in (R.numbers rows.old) (r + shift - 4) (c - columns)))) }
{
    for row in 4..height + 2 {
        rows.move_left_end((row + 4 - shift) as usize, row as usize, columns);
    }
}

/// Lays the four rows below the matrix over its first four.
fn raise_rows<R: BitRows>(rows: &mut R, height: u16)
    requires room { length (R.numbers rows.old) ≡ R.most + 6 }
    requires some { 6 ≤ height }
    requires high { height ≤ R.most }
    ensures room { length (R.numbers rows.new) ≡ R.most + 6 }
    ensures cells { (r c : ℕ) → look_in (R.numbers rows.new) r c
        ≡ (look_in (R.numbers rows.old) r c || ((nat_le 2 r && nat_lt r 6)
        && look_in (R.numbers rows.old) (r + height) c)) }
{
    for row in 0..4 {
        rows.raise(row + 2, row + 2 + height as usize);
    }
}

/// Folds what lies around the matrix in widened rows back into it.
fn fold<R: BitRows>(rows: &mut R, height: u16, columns: u16)
    requires room { length (R.numbers rows.old) ≡ R.most + 6 }
    requires some { 6 ≤ height }
    requires least { 6 ≤ columns }
    requires high { height ≤ R.most }
    requires wide { columns ≤ R.most }
    requires even_rows { height % 2 ≡ 0 }
    requires even_columns { columns % 2 ≡ 0 }
    ensures room { length (R.numbers rows.new) ≡ R.most + 6 }
    ensures cells { (r c : ℕ) → r < height → c < columns
        → look_in (R.numbers rows.new) (r + 2) (c + 4)
        ≡ folded height columns (look_in (R.numbers rows.old)) r c }
{
    lower_rows(rows, height);
    move_columns(rows, height, columns, wrap_shift(columns));
    raise_rows(rows, height);
}

/// Makes these cells of the matrix dark where the bits of a codeword are 1.
fn put_cells<R: BitRows>(rows: &mut R, word: u8, cells: &[Cell; 8])
    requires room { length (R.numbers rows.old) ≡ R.most + 6 }
    requires inside { CellsInside R.most R.most cells.now }
    ensures room { length (R.numbers rows.new) ≡ R.most + 6 }
    ensures cells { (r c : ℕ) → look_in (R.numbers rows.new) (r + 2) (c + 4)
        ≡ (look_in (R.numbers rows.old) (r + 2) (c + 4) || marks_in word 0 cells.now r c) }
{
    for (i, cell) in cells.iter().enumerate() {
        rows.put_bit(
            cell.row as usize + 2,
            cell.column + 4,
            (word >> (7 - i)) % 2,
        );
    }
}

/// Makes the cells of the corner dark where the bits of its codeword are 1, if there is a corner.
fn put_corner<R: BitRows>(rows: &mut R, height: u16, columns: u16, word: u8)
    requires room { length (R.numbers rows.old) ≡ R.most + 6 }
    requires some { 6 ≤ height }
    requires least { 6 ≤ columns }
    requires high { height ≤ R.most }
    requires wide { columns ≤ R.most }
    ensures room { length (R.numbers rows.new) ≡ R.most + 6 }
    ensures cells { (r c : ℕ) → look_in (R.numbers rows.new) (r + 2) (c + 4)
        ≡ (look_in (R.numbers rows.old) (r + 2) (c + 4) || corner_marks height columns word r c) }
{
    if height % 8 == 4 && columns % 8 == 4 {
        put_cells(rows, word, &Shape::Corner1.cells(height, columns));
    } else if height % 8 == 6 && columns % 8 == 6 {
        put_cells(rows, word, &Shape::Corner2.cells(height, columns));
    } else if height % 8 == 6 && columns % 8 == 4 {
        put_cells(rows, word, &Shape::Corner3.cells(height, columns));
    } else if height % 8 == 6 && columns % 8 == 0 {
        put_cells(rows, word, &Shape::Corner4.cells(height, columns));
    }
}

/// Lays the codewords in these slots over widened rows without a dark cell.
pub(crate) fn lay_slots<R: BitRows>(rows: &mut R, slots: &R::Slots, height: u16, columns: u16)
    requires some { 6 ≤ height }
    requires least { 6 ≤ columns }
    requires high { height ≤ R.most }
    requires wide { columns ≤ R.most }
    requires even_rows { height % 2 ≡ 0 }
    requires even_columns { columns % 2 ≡ 0 }
    requires light { R.numbers rows.old ≡ replicate (R.most + 6) 0 }
    ensures room { length (R.numbers rows.new) ≡ R.most + 6 }
    ensures cells { (r c : ℕ) → r < height → c < columns
        → look_in (R.numbers rows.new) (r + 2) (c + 4)
        ≡ (folded height columns (scattered height (R.joined slots.now)) r c
        || corner_marks height columns
        (reversed_bits (get_or (R.joined slots.now) R.most 0 % 256)) r c) }
{
    scatter(rows, slots, height);
    fold(rows, height, columns);
    put_corner(
        rows,
        height,
        columns,
        codeword::<R>(slots, R::corner() as usize),
    );
}
