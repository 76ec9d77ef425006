//! A symbol drawn from the rows of its mapping matrix, borders and all: ISO/IEC 16022, symbol structure.

ghost use Rattle.std.specs.Prelude.{◌≡◌, ◌≢◌, ◌⊎◌, ℕ, ◌+◌, ◌-◌, ◌*◌, ◌%◌, ◌^◌, ◌<◌, ◌≤◌, true, false, length};
ghost use Rattle.dm_place.specs.Border.{is_fixed, fixed_is_dark, symbol_line};
ghost use Rattle.dm_layout.specs.symbols.Symbols.{IsSymbol, module_at};
ghost use Rattle.dm_layout.specs.symbols.Sizes.{IsSize, mapping_rows, mapping_columns};
ghost use Rattle.dm_layout.specs.symbols.inner.Keeping.{kept_symbol};
ghost use Rattle.dm_layout.specs.symbols.inner.Widths.{wide_matrix, most_wide};
ghost use Rattle.dm_layout.specs.symbols.inner.RowDrawing.{drawn_colour, ArePrefixes, IsDrawn};
ghost use Rattle.dm_layout.specs.symbols.inner.Reading.{look_in, whole_row};
ghost use Rattle.dm_layout.specs.symbols.Symbols.{is_dark_bit};

use crate::symbols::bit_rows::BitRows;
use crate::symbols::borders::Borders;
use crate::symbols::size::SymbolSize;
use crate::symbols::symbol::FIRST_COLUMNS;
use crate::symbols::widened::{part_across, with_part};

/// The most regions that stand side by side, without the last one.
const MOST_BEFORE_LAST: usize = 5;

/// Gives for each of `across` regions but the last, as bits, the columns of a row of the symbol left of the region's
/// right border.
fn prefixes(region_columns: u16, across: u16) -> [u128; MOST_BEFORE_LAST]
    requires some { 1 ≤ across }
    requires few { across ≤ 6 }
    requires fits { (across - 1) * (region_columns + 2) ≤ most_wide }
    ensures { ArePrefixes region_columns across result }
{
    let mut prefixes = [0; MOST_BEFORE_LAST];
    for region in 0..across - 1 {
        prefixes[region as usize] = (1 << (region * (region_columns + 2) + 1 + region_columns)) - 1;
    }
    prefixes
}

/// Gives the row of the symbol in which a row of the mapping matrix lies between the borders of `across` regions; no
/// border is dark. After each region but the last, what lies to the right is moved by two columns: that takes half the
/// instructions of cutting out each region, since no shift depends on the region.
#[inline(always)]
fn outer_row(
    inner: u128,
    region_columns: u16,
    across: u16,
    prefixes: &[u128; MOST_BEFORE_LAST],
) -> u128
    requires least { 6 ≤ region_columns }
    requires some { 1 ≤ across }
    requires few { across ≤ 6 }
    requires fits { across * region_columns ≤ wide_matrix }
    requires wide { across * (region_columns + 2) ≤ most_wide }
    requires prefixes { ArePrefixes region_columns across prefixes.now }
    ensures mapped { (column : ℕ) → column < across * region_columns
        → is_dark_bit result (symbol_line region_columns column) ≡ is_dark_bit inner column }
    ensures border { (column : ℕ)
        → ((column % (region_columns + 2) ≡ 0) ⊎ (column % (region_columns + 2) ≡ region_columns + 1))
        → is_dark_bit result column ≡ false }
    ensures width { result < 2 ^ (across * (region_columns + 2)) }
{
    let mut outer = (inner % (1 << (across * region_columns))) << 1;
    for region in 0..across - 1 {
        let left = outer & prefixes[region as usize];
        outer = left + ((outer - left) << 2);
    }
    outer
}

/// Gives the row of a symbol of more than 128 columns in which a row of the mapping matrix lies: its first 128 modules
/// and those behind them; no border is dark. The last of its six regions lies across column 128.
fn long_outer_row(
    inner: u128,
    rest: u8,
    region_columns: u16,
    prefixes: &[u128; MOST_BEFORE_LAST],
) -> (u128, u16)
    requires least { 20 ≤ region_columns }
    requires most { region_columns ≤ 22 }
    requires prefixes { ArePrefixes region_columns 6 prefixes.now }
    ensures mapped { (column : ℕ) → column < 6 * region_columns
        → is_dark_bit (whole_row result.0 result.1) (symbol_line region_columns column)
        ≡ is_dark_bit (whole_row inner rest) column }
    ensures border { (column : ℕ)
        → ((column % (region_columns + 2) ≡ 0) ⊎ (column % (region_columns + 2) ≡ region_columns + 1))
        → is_dark_bit (whole_row result.0 result.1) column ≡ false }
{
    let first = outer_row(inner, region_columns, 5, prefixes);
    let last = part_across(inner, u16::from(rest), 5 * region_columns, region_columns);
    with_part(first, last, 5 * (region_columns + 2) + 1)
}

/// Gives the row of a symbol of this size in which a row of the mapping matrix lies, its first 128 modules and those
/// behind them; no border is dark.
#[inline(always)]
fn symbol_row_of(
    size: SymbolSize,
    inner: u128,
    rest: u8,
    prefixes: &[u128; MOST_BEFORE_LAST],
) -> (u128, u16)
    requires entry { IsSize size }
    requires prefixes { ArePrefixes size.region_columns size.regions_across prefixes.now }
    ensures mapped { (column : ℕ) → column < mapping_columns size
        → is_dark_bit (whole_row result.0 result.1) (symbol_line size.region_columns column)
        ≡ is_dark_bit (whole_row inner rest) column }
    ensures border { (column : ℕ) → ((column % (size.region_columns + 2) ≡ 0)
        ⊎ (column % (size.region_columns + 2) ≡ size.region_columns + 1))
        → is_dark_bit (whole_row result.0 result.1) column ≡ false }
{
    if size.columns() <= FIRST_COLUMNS {
        let outer = outer_row(
            inner,
            size.region_columns(),
            size.regions_across(),
            prefixes,
        );
        (outer, 0)
    } else {
        long_outer_row(inner, rest, size.region_columns(), prefixes)
    }
}

/// Gives a row of the symbol between the top and the bottom of its regions, its first 128 modules and those behind
/// them: borders, and a row of the mapping matrix between them. The row is told by its regions and its place among the
/// rows of a region with its border, both counted from 0.
#[inline(always)]
fn drawn_row<R: BitRows>(
    size: SymbolSize,
    borders: &Borders,
    prefixes: &[u128; MOST_BEFORE_LAST],
    rows: &R,
    region: u16,
    inner: u16,
) -> (u128, u16)
    requires room { length (R.numbers rows.now) ≡ R.most + 6 }
    requires high { mapping_rows size ≤ R.most }
    requires borders { borders.now ≡ size }
    requires entry { IsSize size }
    requires prefixes { ArePrefixes size.region_columns size.regions_across prefixes.now }
    requires region { region < size.regions_down }
    requires below { 1 ≤ inner }
    requires above { inner ≤ size.region_rows }
    ensures { (column : ℕ) → column < size.columns
        → is_dark_bit (whole_row result.0 result.1) column
        ≡ drawn_colour size (λ r c. look_in (R.numbers rows.now) (r + 2) (c + 4))
        (region * (size.region_rows + 2) + inner) column }
{
    let line = region * size.region_rows() + inner - 1;
    let (cells, rest) = rows.inner(line as usize + 2);
    let (outer, end) = symbol_row_of(size, cells, rest, prefixes);
    let dark = borders.dark(inner);
    (dark.0 | outer, dark.1 | end)
}

/// Puts a row among the numbers of a symbol of this size: its first 128 modules, and those behind them.
#[inline(always)]
fn put_line(size: SymbolSize, lines: &mut [u128], ends: &mut [u16], row: u16, cells: u128, end: u16)
    requires entry { IsSize size }
    requires row { row < size.rows }
    requires lines { size.rows ≤ length lines.old }
    requires ends { size.rows ≤ length ends.old }
    ensures lines { length lines.new ≡ length lines.old }
    ensures ends { length ends.new ≡ length ends.old }
    ensures modules { IsSymbol (kept_symbol size lines.new ends.new) }
    ensures first { (column : ℕ) → column < 128 → column < size.columns
        → module_at (kept_symbol size lines.new ends.new) row column ≡ is_dark_bit cells column }
    ensures behind { (column : ℕ) → 128 + column < size.columns
        → module_at (kept_symbol size lines.new ends.new) row (128 + column)
        ≡ is_dark_bit end column }
    ensures others { (r column : ℕ) → r < size.rows → column < size.columns → r ≢ row
        → module_at (kept_symbol size lines.new ends.new) r column
        ≡ module_at (kept_symbol size lines.old ends.old) r column }
{
    lines[row as usize] = cells;
    ends[row as usize] = end;
}

/// Gives a symbol one row of regions more, the first of which begins at its left. The top and the bottom row stand
/// apart, so that in the loop between them the borders of a row depend on nothing but whether it is odd.
#[inline(always)]
fn draw_regions<R: BitRows>(
    size: SymbolSize,
    borders: &Borders,
    prefixes: &[u128; MOST_BEFORE_LAST],
    rows: &R,
    region: u16,
    lines: &mut [u128],
    ends: &mut [u16],
)
    requires room { length (R.numbers rows.now) ≡ R.most + 6 }
    requires high { mapping_rows size ≤ R.most }
    requires borders { borders.now ≡ size }
    requires prefixes { ArePrefixes size.region_columns size.regions_across prefixes.now }
    requires region { region < size.regions_down }
    requires lines { size.rows ≤ length lines.old }
    requires ends { size.rows ≤ length ends.old }
    requires above { IsDrawn size (λ r c. look_in (R.numbers rows.now) (r + 2) (c + 4))
        (region * (size.region_rows + 2)) (kept_symbol size lines.old ends.old) }
    ensures lines { length lines.new ≡ length lines.old }
    ensures ends { length ends.new ≡ length ends.old }
    ensures drawn { IsDrawn size (λ r c. look_in (R.numbers rows.now) (r + 2) (c + 4))
        ((region + 1) * (size.region_rows + 2)) (kept_symbol size lines.new ends.new) }
{
    let last = borders.last();
    let first = region * (last + 1);
    let (cells, end) = borders.dark(0);
    put_line(size, lines, ends, first, cells, end);
    for inner in 1..last {
        let (cells, end) = drawn_row(size, borders, prefixes, rows, region, inner);
        put_line(size, lines, ends, first + inner, cells, end);
    }
    let (cells, end) = borders.dark(last);
    put_line(size, lines, ends, first + last, cells, end);
}

/// Draws a symbol of a size with these rows of the mapping matrix and with correct borders into the numbers of its
/// rows.
pub(crate) fn draw<R: BitRows>(size: SymbolSize, rows: &R, lines: &mut [u128], ends: &mut [u16])
    requires entry { IsSize size }
    requires room { length (R.numbers rows.now) ≡ R.most + 6 }
    requires high { mapping_rows size ≤ R.most }
    requires lines { size.rows ≤ length lines.old }
    requires ends { size.rows ≤ length ends.old }
    ensures lines { length lines.new ≡ length lines.old }
    ensures ends { length ends.new ≡ length ends.old }
    ensures drawn { IsDrawn size (λ r c. look_in (R.numbers rows.now) (r + 2) (c + 4)) size.rows
        (kept_symbol size lines.new ends.new) }
{
    let borders = Borders::new(size);
    let prefixes = prefixes(size.region_columns(), size.regions_across());
    for region in 0..size.regions_down() {
        draw_regions(size, &borders, &prefixes, rows, region, lines, ends);
    }
}

/// Makes the dark cells of the fixed square dark, in a mapping matrix that has it and is square then.
pub(crate) fn put_fixed_square<R: BitRows>(rows: &mut R, height: u16, columns: u16)
    requires room { length (R.numbers rows.old) ≡ R.most + 6 }
    requires some { 6 ≤ height }
    requires least { 6 ≤ columns }
    requires high { height ≤ R.most }
    requires wide { columns ≤ R.most }
    requires square { height % 4 ≡ 2 → columns % 4 ≡ 2 → height ≡ columns }
    ensures room { length (R.numbers rows.new) ≡ R.most + 6 }
    ensures free { (r c : ℕ) → r < height → c < columns → is_fixed height columns r c ≡ false
        → look_in (R.numbers rows.new) (r + 2) (c + 4)
        ≡ look_in (R.numbers rows.old) (r + 2) (c + 4) }
    ensures fixed { (r c : ℕ) → r < height → c < columns → is_fixed height columns r c ≡ true
        → look_in (R.numbers rows.old) (r + 2) (c + 4) ≡ false
        → look_in (R.numbers rows.new) (r + 2) (c + 4) ≡ fixed_is_dark r c }
{
    if height % 4 == 2 && columns % 4 == 2 {
        rows.put_bit(height as usize, columns + 2, 1);
        rows.put_bit(height as usize + 1, columns + 3, 1);
    }
}
