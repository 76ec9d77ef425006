//! Messages and their normal grids, under both profiles, and grids and what they say: `dm_symbol`. Symbols with damage,
//! with doubtful modules and with contents, of all sizes, are tried by `tests/program` and `tests/library`.

use crate::calls::{
    grid_of, grid_with, is_dark_at, lift, normal, normal_as, read, side_of, write, write_as,
};
use crate::claims::holds;
use crate::messages::{Codewords, are_bytes, of_bytes, of_many};
use dm_layout::Grid;
use dm_symbol::{Profile, ReadFault, usual_limit};
use dm_words::WordFault;

/// The grid of side 10 whose cells are these characters, row by row: 1 is dark, 0 light.
fn drawn(cells: &[u8; 100]) -> Grid {
    let mut dark = [false; 100];
    for place in 0..100 {
        dark[place] = cells[place] == b'1';
    }
    grid_with(10, &dark)
}

/// Whether the outcome is this grid.
fn is_grid<E>(outcome: &Result<Grid, E>, grid: &Grid) -> bool {
    match outcome {
        Ok(found) => *found == *grid,
        Err(_) => false,
    }
}

/// Whether the grid is read as these bytes, with one block in which nothing is corrected, and so many border faults.
fn says(grid: &Grid, limit: u16, text: &[u8], border_faults: u16) -> bool {
    match read(grid, limit) {
        Ok(reading) => {
            are_bytes(reading.message.items(), text)
                && reading.corrected.as_slice() == [0].as_slice()
                && reading.border_faults == border_faults
        }
        Err(_) => false,
    }
}

/// Texts, the codewords of their normal grids, and the cells of these.
static NORMAL_GRIDS: [(&[u8], &[u8], &[u8; 100]); 3] = [
    (
        b"123456",
        &[142, 164, 186, 114, 25, 5, 88, 102],
        b"1010101010110010110111000001001100011101110000100010000011111110110000111101100110011101001111111111",
    ),
    (
        b"A",
        &[66, 129, 70, 138, 234, 82, 82, 95],
        b"1010101010110110001110001101001001101011100101000010010010111101001100110011110111000010001111111111",
    ),
    (
        b"",
        &[129, 175, 70, 33, 1, 170, 139, 55],
        b"1010101010110110100111010000101111000101101000100011101000011001011010101011110111100000001111111111",
    ),
];

/// Whether the text's normal grid has these codewords and these cells, and says the text.
fn is_normal_grid(row: &(&[u8], &[u8], &[u8; 100])) -> bool {
    let (text, words, cells) = *row;
    let grid = drawn(cells);
    is_grid(&write(&of_bytes(text)), &grid)
        && lift(&grid).list() == words
        && says(&grid, 0, text, 0)
}

#[test]
fn writes_normal_grids(rt: HostRuntime) {
    for row in &NORMAL_GRIDS {
        holds(&rt, is_normal_grid(row));
    }
}

#[test]
fn usual_limits_of_border_faults(rt: HostRuntime) {
    holds(
        &rt,
        usual_limit(10) == 2 && usual_limit(52) == 13 && usual_limit(104) == 26,
    );
}

/// Whether a run of C40 that spells `AIM` has the normal grid of `AIM`, which is its own.
fn is_normalised() -> bool {
    let once = grid_of(10, &[66, 74, 78, 60, 104, 105, 21, 207]);
    let run = grid_of(10, &[230, 91, 11, 40, 130, 30, 228, 188]);
    says(&run, 2, b"AIM", 0)
        && is_grid(&normal(&run, 2), &once)
        && is_grid(&normal(&once, 0), &once)
}

#[test]
fn normalises_a_run(rt: HostRuntime) {
    holds(&rt, is_normalised());
}

/// The cells of `123456` with ten border faults.
static FAULTY: &[u8; 100] =
    b"1010101010110010110111000001001100011101110000100010000011111110110000111101100110011101000000000000";

/// Whether the grid is refused under this limit for ten border faults.
fn is_refused(grid: &Grid, limit: u16) -> bool {
    read(grid, limit).err() == Some(ReadFault::Border(10)) && normal(grid, limit).is_err()
}

#[test]
fn compares_the_border_with_the_limit(rt: HostRuntime) {
    let grid = drawn(FAULTY);
    holds(&rt, is_refused(&grid, 2));
    holds(&rt, is_refused(&grid, 9));
    holds(&rt, says(&grid, 10, b"123456", 10));
}

/// The grid of side 12 with its fixed square turned over.
fn with_square_turned(grid: &Grid) -> Grid {
    let mut cells = [false; 144];
    for place in 0..144usize {
        let (row, column) = (place / 12, place % 12);
        let turned = (row == 9 || row == 10) && (column == 9 || column == 10);
        cells[place] = is_dark_at(grid, row as u16, column as u16) != turned;
    }
    grid_with(12, &cells)
}

/// Whether reading finds the reserved codeword 0 in the first place.
fn is_of_zeros(grid: &Grid) -> bool {
    read(grid, 3).err() == Some(ReadFault::Words(WordFault::Reserved(1)))
}

#[test]
fn ignores_the_fixed_square(rt: HostRuntime) {
    let zeros = grid_of(12, &[]);
    let turned = with_square_turned(&zeros);
    holds(&rt, zeros != turned);
    holds(&rt, is_of_zeros(&zeros) && is_of_zeros(&turned));
}

/// The grid with so many of its first codewords wrong.
fn damaged(grid: &Grid, most: usize) -> Grid {
    let mut list = Codewords::new();
    for word in lift(grid).list() {
        let wrong = list.len() < most;
        let _room = list.try_push(if wrong { *word ^ 255 } else { *word });
    }
    grid_of(side_of(grid), &list)
}

/// Whether the grid of 408 digits is read with 21 codewords of each block wrong.
fn is_corrected() -> bool {
    let Ok(grid) = write(&of_many(b'7', 408)) else {
        return false;
    };
    match read(&damaged(&grid, 42), 13) {
        Ok(reading) => {
            are_bytes(reading.message.items(), &[b'7'; 408])
                && reading.corrected.as_slice() == [21, 21].as_slice()
        }
        Err(_) => false,
    }
}

#[test]
fn corrects_both_blocks_of_side_52(rt: HostRuntime) {
    holds(&rt, is_corrected());
}

/// Whether the normal grid of so many bytes under the profile has this side and these data codewords.
fn is_written(profile: Profile, byte: u8, count: usize, side: u16, data_words: &[u8]) -> bool {
    match write_as(profile, &of_many(byte, count)) {
        Ok(grid) => side_of(&grid) == side && lift(&grid).data_part() == data_words,
        Err(_) => false,
    }
}

/// Whether three bytes of value 128 go from each profile's normal grid to the other's.
fn goes_both_ways() -> bool {
    let message = of_many(128, 3);
    let Ok(shorter) = write_as(Profile::Shorter, &message) else {
        return false;
    };
    let Ok(ascii) = normal_as(Profile::Ascii, &shorter, 0) else {
        return false;
    };
    is_grid(&write(&message), &ascii) && is_grid(&normal_as(Profile::Shorter, &ascii, 0), &shorter)
}

/// Three bytes of value 128: a segment at side 12, ASCII at side 14.
#[test]
fn writes_segments(rt: HostRuntime) {
    let words = [231, 47, 65, 215, 108];
    holds(&rt, is_written(Profile::Shorter, 128, 3, 12, &words));
    holds(&rt, goes_both_ways());
}
