//! Numbers and grids as text, and the room for answers.

ghost use Rattle.std.specs.Prelude.{◌≡◌, ◌≤◌, ◌<◌, ◌++◌, ◌∷◌, [], ◌+◌, ◌*◌, get_or, length, map};
ghost use Rattle.std.specs.Fmt.{decimal};
ghost use Rattle.dm_text.specs.Answers.{character_of, grid_text, spaced_text};
ghost use Rattle.dm_text.specs.Texts.{lf};
ghost use Rattle.dm_text.specs.inner.OpenRecords.{cells_in};

use crate::text::{LF, Text};
use dm_symbol::{Grid, LARGEST_SIDE};
use std::simd::prelude::*;

/// This many cells are written together.
const TOGETHER: u16 = 16;

/// The byte that has each of sixteen cells, of which the first is the lowest bit.
const BYTE_OF_CELL: [u8; 16] = [0, 0, 0, 0, 0, 0, 0, 0, 1, 1, 1, 1, 1, 1, 1, 1];

/// The weight of each cell in its byte.
const WEIGHTS: [u8; 16] = [1, 2, 4, 8, 16, 32, 64, 128, 1, 2, 4, 8, 16, 32, 64, 128];

/// The most characters that are written behind a row, with its last cells, and cut off again.
const MOST_CUT: usize = TOGETHER as usize - 1;

/// The room that an answer needs: that of a grid of the largest side, each row with its LF, of an empty line, and of
/// what is written behind the last row.
pub(crate) const MOST_ANSWER: usize = LARGEST_SIDE * (LARGEST_SIDE + 1) + 1 + MOST_CUT;

/// The room for answers that are written together: once there is none for a further answer, at least three of the
/// largest grids are written.
pub(crate) const MOST_GATHERED: usize = 4 * MOST_ANSWER;

/// The texts of answers that are written together, one after another.
pub(crate) type GatheredText = Text<MOST_GATHERED>;

/// The most digits that a number has, which is a u64.
pub(crate) const MOST_DIGITS: usize = 20;

/// Appends a number in decimal digits.
pub(crate) fn push_decimal<const N: usize>(text: &mut Text<N>, number: u64)
    requires { length text.old.items + MOST_DIGITS ≤ N }
    ensures text { text.new.items ≡ text.old.items ++ decimal number }
    ensures length { length text.new.items ≤ length text.old.items + MOST_DIGITS }
{
    if number >= 10 {
        push_decimal(text, number / 10);
    }
    text.push(b'0' + (number % 10) as u8);
}

/// Appends numbers in decimal digits, with single spaces between. Eight of them, of at most five digits, need 47 bytes;
/// the room is for more.
pub(crate) fn push_spaced<const N: usize>(text: &mut Text<N>, numbers: &[u16])
    requires room { length text.old.items + 64 ≤ N }
    requires few { length numbers.now ≤ 8 }
    ensures text { text.new.items ≡ text.old.items ++ spaced_text numbers.now }
    ensures length { length text.new.items ≤ length text.old.items + 6 * length numbers.now }
{
    for (i, number) in numbers.iter().enumerate() {
        if i > 0 {
            text.push(b' ');
        }
        push_decimal(text, u64::from(*number));
    }
}

/// Appends the rows of a grid, each followed by LF; there is room for an answer.
pub(crate) fn push_grid(text: &mut GatheredText, grid: &Grid)
    requires { length text.old.items + MOST_ANSWER ≤ MOST_GATHERED }
    ensures text { text.new.items ≡ text.old.items ++ grid_text grid.now.rows }
    ensures room { length text.new.items < length text.old.items + MOST_ANSWER }
{
    for row in 0..grid.size().side() {
        push_row(text, grid, row);
    }
}

/// Appends a row of a grid and LF.
fn push_row(text: &mut GatheredText, grid: &Grid, row: u16)
    requires row { row < grid.now.size.side }
    requires width { length (get_or grid.now.rows row []) ≡ grid.now.size.side }
    requires room { length text.old.items + grid.now.size.side + TOGETHER ≤ MOST_GATHERED }
    ensures { text.new.items ≡ text.old.items ++ map character_of (get_or grid.now.rows row []) ++
        lf ∷ [] }
{
    push_cells(text, grid.as_symbol().row(row), grid.size().side());
    text.push(LF);
}

/// Appends the characters of a row's first cells, of which the first is the lowest bit.
fn push_cells(text: &mut GatheredText, cells: u128, width: u16)
    requires width { width ≤ LARGEST_SIDE }
    requires room { length text.old.items + width + MOST_CUT ≤ MOST_GATHERED }
    ensures { text.new.items ≡ text.old.items ++ map character_of (cells_in width cells) }
{
    let start = text.len();
    let mut rest = cells;
    let mut column = 0;
    while column < width {
        text.push_all(&characters((rest & 0xffff) as u16));
        rest >>= TOGETHER;
        column += TOGETHER;
    }
    text.truncate(start + usize::from(width));
}

/// Gives the characters of sixteen cells, of which the first is the lowest bit.
fn characters(cells: u16) -> [u8; 16]
    ensures { result ≡ map character_of (cells_in 16 cells) }
{
    let low = (cells & 0xff) as u8;
    let high = (cells >> 8) as u8;
    let bytes = u8x16::from_array([low, high, 0, 0, 0, 0, 0, 0, 0, 0, 0, 0, 0, 0, 0, 0]);
    let spread = bytes.swizzle_dyn(u8x16::from_array(BYTE_OF_CELL));
    let dark = (spread & u8x16::from_array(WEIGHTS)).simd_ne(u8x16::splat(0));
    dark.select(u8x16::splat(b'1'), u8x16::splat(b'0'))
        .to_array()
}
