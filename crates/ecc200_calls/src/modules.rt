//! Symbols with a byte for each module, row by row from the top, as they are given to C and by C. Rows are packed
//! sixty-four modules at once, where so many follow, or sixteen, and unpacked sixteen at once.

ghost use Rattle.std.specs.Prelude.{◌≡◌, ◌+◌, ◌-◌, ◌*◌, ◌%◌, ◌^◌, ◌≤◌, ◌<◌, ◌++◌, ℕ, [], drop, get_or, length, map};
ghost use Rattle.std.specs.Prelude.{take};
ghost use Rattle.std.specs.Simd.Lanes.{mask_l};
ghost use Rattle.dm_layout.specs.symbols.Symbols.{is_dark_bit};
ghost use Rattle.dm_layout.specs.symbols.Sizes.{area};
ghost use Rattle.ecc200_calls.specs.Arrays.{over};
ghost use Rattle.ecc200_calls.specs.Modules.{AreModulesOf, is_dark_number, module_of, modules_of};
ghost use Rattle.ecc200_calls.specs.inner.UnpackedCells.{unpacked_cells, unpacked_row};

use dm_layout::symbols::{MOST_COLUMNS, SymbolIn};
use std::simd::prelude::*;

/// This many modules are packed together, and as many are unpacked.
const TOGETHER: usize = 16;

/// The first modules of a row are packed this many together, those of most sizes at once.
const WIDE: usize = 64;

/// So many modules of a row are written as its first number.
const FIRST: usize = 128;

/// The modules of the longest row, and some more, so that the last ones can be unpacked together.
const LINE: usize = MOST_COLUMNS + TOGETHER;

/// Which byte of sixteen modules each of them stands in.
const BYTES: [usize; TOGETHER] = [0, 0, 0, 0, 0, 0, 0, 0, 1, 1, 1, 1, 1, 1, 1, 1];

/// The weight of each module in its byte.
const WEIGHTS: [u8; TOGETHER] = [1, 2, 4, 8, 16, 32, 64, 128, 1, 2, 4, 8, 16, 32, 64, 128];

/// Turns `symbol` into the one of its size with these modules.
pub(crate) fn put_modules<const ROWS: usize>(symbol: &mut SymbolIn<ROWS>, modules: &[u8])
    requires { length modules.now ≡ area symbol.old.size }
    ensures size { symbol.new.size ≡ symbol.old.size }
    ensures modules { AreModulesOf symbol.old.size.rows symbol.old.size.columns modules.now
        symbol.new }
{
    let size = symbol.size();
    let columns = usize::from(size.columns());
    for row in 0..size.rows() {
        let line = &modules[usize::from(row) * columns..];
        symbol.put_row(row, pack_start(line, columns), pack_end(line, columns));
    }
}

/// Packs the first 128 modules of a row into one number, or all if they are fewer: the module of a column is the bit
/// whose weight is 2 to the power of that column, 1 for dark. What its other bits are is of no account. The first
/// sixty-four are packed at once, modules of the rows below among them, but in the last rows, which fewer modules
/// follow.
fn pack_start(modules: &[u8], columns: usize) -> u128
    requires { columns ≤ length modules.now }
    ensures { (column : ℕ) → column < FIRST → column < columns
        → is_dark_bit result column ≡ is_dark_number (get_or modules.now column 0) }
{
    let across = columns.min(FIRST);
    if modules.len() < WIDE {
        return pack_on(modules, across, 0, 0);
    }
    let first = u128::from(wide_dark_bits(u8x64::from_slice(modules)));
    if across <= WIDE {
        return first;
    }
    pack_on(modules, across, WIDE, first)
}

/// Packs the modules of a row behind the first 128, if there are any, into another number.
fn pack_end(modules: &[u8], columns: usize) -> u16
    requires few { columns ≤ MOST_COLUMNS }
    requires there { columns ≤ length modules.now }
    ensures { (column : ℕ) → FIRST + column < columns
        → is_dark_bit result column ≡ is_dark_number (get_or modules.now (FIRST + column) 0) }
{
    if columns <= FIRST {
        return 0;
    }
    pack_together(&modules[FIRST..])
}

/// Packs the modules from column `start` on, sixteen at a time, behind those before it, which are packed.
fn pack_on(modules: &[u8], across: usize, start: usize, packed: u128) -> u128
    requires few { across ≤ FIRST }
    requires there { across ≤ length modules.now }
    requires start { start % TOGETHER ≡ 0 }
    requires within { start < across + TOGETHER }
    requires packed { (column : ℕ) → column < start → column < across
        → is_dark_bit packed column ≡ is_dark_number (get_or modules.now column 0) }
    requires small { packed < 2 ^ start }
    ensures { (column : ℕ) → column < across
        → is_dark_bit result column ≡ is_dark_number (get_or modules.now column 0) }
{
    let mut row = packed;
    let mut column = start;
    while column < across {
        row |= u128::from(pack_together(&modules[column..])) << column;
        column += TOGETHER;
    }
    row
}

/// Packs the first modules, as many as are packed together, or all if they are fewer. The last modules of a symbol can
/// be fewer; else modules of the row below are among them.
fn pack_together(modules: &[u8]) -> u16
    ensures { (column : ℕ) → column < TOGETHER → column < length modules.now
        → is_dark_bit result column ≡ is_dark_number (get_or modules.now column 0) }
{
    if modules.len() < TOGETHER {
        return pack_singly(modules);
    }
    dark_bits(u8x16::from_slice(modules)) as u16
}

/// Gives the dark ones of these modules as bits, the first as the lowest. A module is dark if its number isn't 0.
#[inline]
fn dark_bits(modules: u8x16) -> u64
    ensures { result ≡ mask_l (map is_dark_number modules) }
{
    modules.simd_ne(u8x16::splat(0)).to_bitmask()
}

/// Does the same for as many modules as are packed together at the start of a row.
#[inline]
fn wide_dark_bits(modules: u8x64) -> u64
    ensures { result ≡ mask_l (map is_dark_number modules) }
{
    modules.simd_ne(u8x64::splat(0)).to_bitmask()
}

/// Packs these modules, one after the other.
fn pack_singly(modules: &[u8]) -> u16
    requires { length modules.now < TOGETHER }
    ensures { (column : ℕ) → column < length modules.now
        → is_dark_bit result column ≡ is_dark_number (get_or modules.now column 0) }
{
    let across = modules.len();
    let mut row = 0;
    for i in 0..across {
        row = 2 * row + u16::from(modules[across - 1 - i] != 0);
    }
    row
}

/// Writes the modules of a symbol over the first numbers.
pub(crate) fn show_modules<const ROWS: usize>(all: &mut [u8], symbol: &SymbolIn<ROWS>)
    requires { area symbol.now.size ≤ length all.old }
    ensures { all.new ≡ over (modules_of symbol.now) all.old }
{
    for row in 0..symbol.size().rows() {
        show_row(all, symbol, row);
    }
}

/// Writes the modules of a row over the numbers where it stands. Of those below it in the symbol any may change; so all
/// rows but the last one or two are unpacked in place, sixteen modules at a time.
fn show_row<const ROWS: usize>(all: &mut [u8], symbol: &SymbolIn<ROWS>, row: u16)
    requires row { row < symbol.now.size.rows }
    requires room { area symbol.now.size ≤ length all.old }
    ensures written { take ((row + 1) * symbol.now.size.columns) all.new
        ≡ take (row * symbol.now.size.columns) all.old
        ++ map module_of (get_or symbol.now.rows row []) }
    ensures behind { drop (area symbol.now.size) all.new ≡ drop (area symbol.now.size) all.old }
{
    let size = symbol.size();
    let columns = usize::from(size.columns());
    let start = usize::from(row) * columns;
    if start + columns + TOGETHER <= usize::from(size.rows()) * columns {
        unpack_row(all, start, columns, symbol.row(row), symbol.end(row));
    } else {
        let mut line = [0; LINE];
        unpack_row(&mut line, 0, columns, symbol.row(row), symbol.end(row));
        all[start..start + columns].copy_from_slice(&line[..columns]);
    }
}

/// Unpacks a row of so many columns over the numbers from a place on. Fifteen numbers behind them may change.
#[tactic(auto, using(crate::proofs::Rows::behind_far))]
fn unpack_row(all: &mut [u8], start: usize, columns: usize, cells: u128, end: u16)
    requires columns { columns ≤ MOST_COLUMNS }
    requires room { start + columns + TOGETHER ≤ length all.old }
    ensures written { take (start + columns) all.new
        ≡ take start all.old ++ unpacked_row columns cells end }
    ensures behind { drop (start + columns + TOGETHER) all.new
        ≡ drop (start + columns + TOGETHER) all.old }
{
    unpack_on(all, start, columns.min(FIRST), cells);
    if columns > FIRST {
        unpack_on(all, start + FIRST, columns - FIRST, u128::from(end));
    }
}

/// Unpacks the first modules of a row, of which the first is the lowest bit, over the numbers from a place on. Fifteen
/// numbers behind them may change.
#[tactic(auto, using(crate::proofs::Unpacking::unpacked_front))]
fn unpack_on(all: &mut [u8], start: usize, width: usize, cells: u128)
    requires width { width ≤ FIRST }
    requires room { start + width + TOGETHER ≤ length all.old }
    ensures written { take (start + width) all.new
        ≡ take start all.old ++ unpacked_cells width cells }
    ensures behind { drop (start + width + TOGETHER) all.new
        ≡ drop (start + width + TOGETHER) all.old }
{
    let mut rest = cells;
    let mut column = 0;
    while column < width {
        unpack_together((rest & 0xffff) as u16).copy_to_slice(&mut all[start + column..]);
        rest >>= TOGETHER;
        column += TOGETHER;
    }
}

/// Unpacks sixteen modules, of which the first is the lowest bit. Each of their two bytes is put into eight lanes by
/// one shuffle.
#[inline]
fn unpack_together(cells: u16) -> u8x16
    ensures { result ≡ unpacked_cells TOGETHER cells }
{
    let low = (cells & 0xff) as u8;
    let high = (cells >> 8) as u8;
    let bytes = u8x16::from_array([low, high, 0, 0, 0, 0, 0, 0, 0, 0, 0, 0, 0, 0, 0, 0]);
    let dark = (bytes.swizzle(BYTES) & u8x16::from_array(WEIGHTS)).simd_ne(u8x16::splat(0));
    dark.select(u8x16::splat(1), u8x16::splat(0))
}
