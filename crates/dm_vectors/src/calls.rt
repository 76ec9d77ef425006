//! Calls of blocks, grids and symbols with what they return, and nothing of what they promise.
//!
//! A test asserts what it finds. Over the calls themselves its proof would carry all that they promise, which takes
//! much longer. Where a call asks for something, its double here gives nothing or does nothing in its place.

use arrayvec::ArrayVec;
use dm_code::{encode, syndromes};
use dm_layout::{Grid, LARGEST_SIDE, MOST_GRID_CODEWORDS, Size, Words, table};
use dm_symbol::{Message, NormalFault, Profile, ReadFault, Reading, TooLong};
use gf301::{Poly, generator};

/// The check codewords of these data codewords, and none where there is no such block.
pub(crate) fn checks_of(front: &[u8], k: usize) -> ArrayVec<u8, 68> {
    if 1 <= k && k <= 68 && front.len() <= 187 {
        encode(front, k)
    } else {
        ArrayVec::new()
    }
}

/// The k syndromes of a word, and none where k is too large.
pub(crate) fn syndromes_of(word: &[u8], k: usize) -> ArrayVec<u8, 68> {
    if k <= 68 {
        syndromes(word, k)
    } else {
        ArrayVec::new()
    }
}

/// The generator polynomial for k check codewords, and an empty one where there is none.
pub(crate) fn generator_of(k: usize) -> Poly {
    if 1 <= k && k <= 68 {
        generator(k)
    } else {
        Poly::new()
    }
}

/// The cells of the largest symbol.
pub(crate) const MOST_CELLS: usize = LARGEST_SIDE * LARGEST_SIDE;

/// The size with this side, and the first one where there is none.
pub(crate) fn size_of(side: u16) -> Size {
    match Size::of_side(side) {
        Some(size) => size,
        None => table()[0],
    }
}

/// The codewords of this size that begin with these; the rest are 0.
pub(crate) fn words_of(size: Size, prefix: &[u8]) -> Words {
    let mut list = [0; MOST_GRID_CODEWORDS];
    for i in 0..prefix.len() {
        if i < MOST_GRID_CODEWORDS {
            list[i] = prefix[i];
        }
    }
    Words::new(
        size,
        &list[..(size.data_count() + size.check_count()) as usize],
    )
}

pub(crate) fn lay(words: &Words) -> Grid {
    dm_layout::lay(words)
}

pub(crate) fn lift(grid: &Grid) -> Words {
    dm_layout::lift(grid)
}

/// The codewords of block `b`, and none where there is no such block.
pub(crate) fn block(words: &Words, b: usize) -> ArrayVec<u8, 255> {
    if b < usize::from(words.size().blocks()) {
        dm_layout::block(words, b)
    } else {
        ArrayVec::new()
    }
}

/// Puts these codewords into block `b`, where it has so many.
pub(crate) fn put_block(words: &mut Words, b: usize, list: &[u8]) {
    let size = words.size();
    let length = usize::from(size.block_data() + size.block_check());
    if b < usize::from(size.blocks()) && list.len() == length {
        dm_layout::put_block(words, b, list);
    }
}

/// The grid of this side in which these codewords are laid, data and then checks.
pub(crate) fn grid_of(side: u16, list: &[u8]) -> Grid {
    lay(&words_of(size_of(side), list))
}

/// The grid with these cells, row by row, and a light one of side 10 where there is none.
pub(crate) fn grid_with(side: u16, cells: &[bool]) -> Grid {
    match Grid::new(side, cells) {
        Ok(grid) => grid,
        Err(_) => Grid::default(),
    }
}

/// The grid of this side whose cells are all dark or all light.
pub(crate) fn plain(side: u16, dark: bool) -> Grid {
    let cells = [dark; MOST_CELLS];
    let count = usize::from(side) * usize::from(side);
    if count <= MOST_CELLS {
        grid_with(side, &cells[..count])
    } else {
        Grid::default()
    }
}

/// The side of a grid.
pub(crate) fn side_of(grid: &Grid) -> u16 {
    grid.size().side()
}

/// Whether the cell is dark, and not outside the grid.
pub(crate) fn is_dark_at(grid: &Grid, row: u16, column: u16) -> bool {
    let side = grid.size().side();
    row < side && column < side && grid.cell(row, column)
}

pub(crate) fn write(message: &Message) -> Result<Grid, TooLong> {
    dm_symbol::write(message)
}

pub(crate) fn write_as(profile: Profile, message: &Message) -> Result<Grid, TooLong> {
    dm_symbol::write_as(profile, message)
}

pub(crate) fn read(grid: &Grid, limit: u16) -> Result<Reading, ReadFault> {
    dm_symbol::read(grid, limit)
}

pub(crate) fn normal(grid: &Grid, limit: u16) -> Result<Grid, NormalFault> {
    dm_symbol::normal(grid, limit)
}

pub(crate) fn normal_as(profile: Profile, grid: &Grid, limit: u16) -> Result<Grid, NormalFault> {
    dm_symbol::normal_as(profile, grid, limit)
}
