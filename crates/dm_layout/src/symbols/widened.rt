//! The mapping matrix as rows of bits, widened so that no standard shape wraps.
//!
//! Row r of the mapping matrix is row r + 2, and its column c is the bit of weight 2^(c + 4). In the two rows above it
//! and in the four lowest bits, which are the columns left of it, stand the modules to which shapes at its edges wrap.

ghost use Rattle.std.specs.Prelude.{◌≡◌, ℕ, ◌+◌, ◌-◌, ◌*◌, ◌/◌, ◌%◌, ◌^◌, ◌<◌, ◌≤◌, ◌&&◌, ◌||◌, nat_le, nat_lt, false};
ghost use Rattle.std.specs.Prelude.{length, replicate};
ghost use Rattle.dm_place.specs.Border.{symbol_line};
ghost use Rattle.dm_layout.specs.symbols.Border.{mapped_cell};
ghost use Rattle.dm_layout.specs.symbols.Symbols.{module_at, is_dark_bit};
ghost use Rattle.dm_layout.specs.symbols.Sizes.{mapping_rows, mapping_columns};
ghost use Rattle.dm_layout.specs.symbols.inner.Widths.{largest_matrix, most_wide, wide_matrix};
ghost use Rattle.dm_layout.specs.symbols.inner.Reading.{look_in, whole_row};
ghost use Rattle.dm_layout.specs.symbols.inner.Widened.{source as source_by, IsMoved, IsWidened};

use crate::symbols::bit_rows::BitRows;
use crate::symbols::borrowed::BorrowedSymbol;
use crate::symbols::symbol::FIRST_COLUMNS;

/// Gives the row of the mapping matrix that lies in a row of the symbol between the borders of `across` regions.
#[inline(always)]
fn inner_row(row: u128, region_columns: u16, across: u16) -> u128
    requires least { 6 ≤ region_columns }
    requires some { 1 ≤ across }
    requires fits { across * region_columns ≤ wide_matrix }
    requires wide { across * (region_columns + 2) ≤ most_wide }
    ensures cells { (column : ℕ) → column < across * region_columns → is_dark_bit result column
        ≡ is_dark_bit row (symbol_line region_columns column) }
    ensures width { result < 2 ^ (across * region_columns) }
{
    let mut inner = (row >> 1) % (1 << region_columns);
    for region in 1..across {
        let part = (row >> (region * (region_columns + 2) + 1)) % (1 << region_columns);
        inner |= part << (region * region_columns);
    }
    inner
}

/// Gives the cells of a row of two numbers from a column of the first on, as many as a part has that lies across them.
#[inline(always)]
pub(crate) fn part_across(row: u128, end: u16, start: u16, width: u16) -> u128
    requires some { 64 ≤ start }
    requires before { start < 128 }
    requires width { width ≤ 22 }
    ensures { result ≡ whole_row row end / 2 ^ start % 2 ^ width }
{
    (row >> start | u128::from(end) << (128 - start)) % (1 << width)
}

/// Gives a row of two numbers that goes on with a part from a column of the first on.
#[inline(always)]
pub(crate) fn with_part(row: u128, part: u128, start: u16) -> (u128, u16)
    requires some { 100 ≤ start }
    requires before { start ≤ 122 }
    requires row { row < 2 ^ start }
    requires part { part < 2 ^ 22 }
    ensures { whole_row result.0 result.1 ≡ part * 2 ^ start + row }
{
    (row | part << start, (part >> (128 - start)) as u16)
}

/// Gives the row of the mapping matrix that lies in a row of a symbol of more than 128 columns: its first 128 cells and
/// those behind them. The last of its six regions lies across column 128 of the symbol.
#[inline(always)]
fn long_inner_row(row: u128, end: u16, region_columns: u16) -> (u128, u8)
    requires least { 20 ≤ region_columns }
    requires most { region_columns ≤ 22 }
    ensures cells { (column : ℕ) → column < 6 * region_columns
        → is_dark_bit (whole_row result.0 result.1) column
        ≡ is_dark_bit (whole_row row end) (symbol_line region_columns column) }
    ensures width { whole_row result.0 result.1 < 2 ^ (6 * region_columns) }
{
    let first = inner_row(row, region_columns, 5);
    let last = part_across(row, end, 5 * (region_columns + 2) + 1, region_columns);
    let (inner, rest) = with_part(first, last, 5 * region_columns);
    (inner, rest as u8)
}

/// Gives the row of the mapping matrix that lies in a row of the symbol between borders, counted from 0 at the top: its
/// first 128 cells and those behind them.
#[inline(always)]
fn matrix_row(symbol: &BorrowedSymbol, row: u16) -> (u128, u8)
    requires { row < symbol.now.size.rows }
    ensures cells { (column : ℕ) → column < mapping_columns symbol.now.size
        → is_dark_bit (whole_row result.0 result.1) column
        ≡ module_at symbol.now row (symbol_line symbol.now.size.region_columns column) }
    ensures width { whole_row result.0 result.1 < 2 ^ mapping_columns symbol.now.size }
{
    let size = symbol.size();
    if size.columns() <= FIRST_COLUMNS {
        let inner = inner_row(
            symbol.row(row),
            size.region_columns(),
            size.regions_across(),
        );
        (inner, 0)
    } else {
        long_inner_row(symbol.row(row), symbol.end(row), size.region_columns())
    }
}

/// Puts the rows of the mapping matrix that lie in one row of regions, counted from 0 at the top.
#[inline(always)]
fn move_regions<R: BitRows>(symbol: &BorrowedSymbol, rows: &mut R, region: u16)
    requires room { length (R.numbers rows.old) ≡ R.most + 6 }
    requires high { mapping_rows symbol.now.size ≤ R.most }
    requires wide { mapping_columns symbol.now.size ≤ R.most }
    requires region { region < symbol.now.size.regions_down }
    requires above { IsMoved (mapping_columns symbol.now.size)
        (region * symbol.now.size.region_rows) (mapped_cell symbol.now) (R.numbers rows.old) }
    ensures room { length (R.numbers rows.new) ≡ R.most + 6 }
    ensures moved { IsMoved (mapping_columns symbol.now.size)
        ((region + 1) * symbol.now.size.region_rows) (mapped_cell symbol.now) (R.numbers rows.new) }
{
    let size = symbol.size();
    let region_rows = size.region_rows();
    let first = region * region_rows;
    for row in first..first + region_rows {
        let (inner, rest) = matrix_row(symbol, row + 2 * region + 1);
        rows.put(row as usize + 2, inner, rest);
    }
}

/// Makes rows without a dark cell those of the mapping matrix of a symbol, with nothing around it.
fn move_rows<R: BitRows>(symbol: &BorrowedSymbol, rows: &mut R)
    requires light { R.numbers rows.old ≡ replicate (R.most + 6) 0 }
    requires high { mapping_rows symbol.now.size ≤ R.most }
    requires wide { mapping_columns symbol.now.size ≤ R.most }
    ensures room { length (R.numbers rows.new) ≡ R.most + 6 }
    ensures moved { IsMoved (mapping_columns symbol.now.size) (mapping_rows symbol.now.size)
        (mapped_cell symbol.now) (R.numbers rows.new) }
{
    let size = symbol.size();
    for region in 0..size.regions_down() {
        move_regions(symbol, rows, region);
    }
}

/// Gives the widened row whose last columns stand left of that of a row of the matrix: 4 - shift rows further down,
/// and round the bottom edge of a matrix of so many rows.
#[inline(always)]
fn source(row: u16, height: u16, shift: u16) -> u16
    requires row { row < height }
    requires most { height ≤ largest_matrix }
    requires shift { shift ≤ 6 }
    ensures { result ≡ source_by height shift (row + 2) }
{
    let below = row + 6 - shift;
    if height + 2 <= below {
        below - height
    } else {
        below
    }
}

/// Puts left of each row the last four columns of the row that lies 4 - shift rows below, round the bottom edge.
fn wrap_columns<R: BitRows>(rows: &mut R, height: u16, columns: u16, shift: u16)
    requires room { length (R.numbers rows.old) ≡ R.most + 6 }
    requires some { 6 ≤ height }
    requires least { 6 ≤ columns }
    requires high { height ≤ R.most }
    requires wide { columns ≤ R.most }
    requires shift { shift ≤ 6 }
    requires width { (r c : ℕ) → columns + 4 ≤ c → look_in (R.numbers rows.old) r c ≡ false }
    ensures room { length (R.numbers rows.new) ≡ R.most + 6 }
    ensures wrapped { (r c : ℕ) → look_in (R.numbers rows.new) r c
        ≡ (look_in (R.numbers rows.old) r c || ((nat_le 2 r && nat_lt r (height + 2))
        && look_in (R.numbers rows.old) (source_by height shift r) (columns + c))) }
{
    for row in 0..height {
        let from = source(row, height, shift);
        rows.wrap_left(row as usize + 2, from as usize, columns);
    }
}

/// Puts above the matrix its last two rows, 4 - shift columns further to the left.
fn wrap_rows<R: BitRows>(rows: &mut R, height: u16, columns: u16, shift: u16)
    requires room { length (R.numbers rows.old) ≡ R.most + 6 }
    requires some { 6 ≤ height }
    requires high { height ≤ R.most }
    requires wide { columns ≤ R.most }
    requires shift { shift ≤ 6 }
    ensures room { length (R.numbers rows.new) ≡ R.most + 6 }
    ensures above { (r c : ℕ) → r < 2 → c < columns + 4 → shift ≤ c + 4
        → look_in (R.numbers rows.new) r c
        ≡ look_in (R.numbers rows.old) (r + height) (c + 4 - shift) }
    ensures others { (r c : ℕ) → 2 ≤ r → look_in (R.numbers rows.new) r c
        ≡ look_in (R.numbers rows.old) r c }
{
    rows.wrap_above(0, height as usize, shift);
    rows.wrap_above(1, height as usize + 1, shift);
}

/// Gives what 4 is lessened by where a shape wraps: a cell that leaves a mapping matrix of so many rows at its upper
/// edge comes in at the lower one, and is moved along it by 4 less this number; so it is with columns.
pub(crate) fn wrap_shift(lines: u16) -> u16
    requires { lines ≤ largest_matrix }
    ensures { result ≡ (lines + 4) % 8 }
{
    (lines + 4) % 8
}

/// Makes rows without a dark cell the widened rows of a symbol.
pub(crate) fn widen<R: BitRows>(symbol: &BorrowedSymbol, rows: &mut R)
    requires light { R.numbers rows.old ≡ replicate (R.most + 6) 0 }
    requires high { mapping_rows symbol.now.size ≤ R.most }
    requires wide { mapping_columns symbol.now.size ≤ R.most }
    ensures room { length (R.numbers rows.new) ≡ R.most + 6 }
    ensures widened { IsWidened (mapping_rows symbol.now.size) (mapping_columns symbol.now.size)
        (mapped_cell symbol.now) (R.numbers rows.new) }
{
    let size = symbol.size();
    let height = size.mapping_rows();
    let columns = size.mapping_columns();
    let right = wrap_shift(height);
    let down = wrap_shift(columns);
    move_rows(symbol, rows);
    wrap_columns(rows, height, columns, down);
    wrap_rows(rows, height, columns, right);
}
