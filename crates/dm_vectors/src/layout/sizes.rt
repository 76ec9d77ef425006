//! Tests of sizes.

use crate::calls::size_of;
use crate::claims::holds;
use dm_layout::{GRID_SIZE_COUNT, MOST_GRID_DATA, Size, table};

/// Side, regions, region side, mapping side, data, check, blocks, limit, as the standard's table has them.
static ROWS: [[u16; 8]; GRID_SIZE_COUNT] = [
    [10, 1, 8, 8, 3, 5, 1, 2],
    [12, 1, 10, 10, 5, 7, 1, 3],
    [14, 1, 12, 12, 8, 10, 1, 5],
    [16, 1, 14, 14, 12, 12, 1, 6],
    [18, 1, 16, 16, 18, 14, 1, 7],
    [20, 1, 18, 18, 22, 18, 1, 9],
    [22, 1, 20, 20, 30, 20, 1, 10],
    [24, 1, 22, 22, 36, 24, 1, 12],
    [26, 1, 24, 24, 44, 28, 1, 14],
    [32, 4, 14, 28, 62, 36, 1, 18],
    [36, 4, 16, 32, 86, 42, 1, 21],
    [40, 4, 18, 36, 114, 48, 1, 24],
    [44, 4, 20, 40, 144, 56, 1, 28],
    [48, 4, 22, 44, 174, 68, 1, 34],
    [52, 4, 24, 48, 204, 84, 2, 21],
    [64, 16, 14, 56, 280, 112, 2, 28],
    [72, 16, 16, 64, 368, 144, 4, 18],
    [80, 16, 18, 72, 456, 192, 4, 24],
    [88, 16, 20, 80, 576, 224, 4, 28],
    [96, 16, 22, 88, 696, 272, 4, 34],
    [104, 16, 24, 96, 816, 336, 6, 28],
];

/// Whether the methods of the size give this row, and its side gives the size.
fn has_row(size: Size, row: &[u16; 8]) -> bool {
    let found = [
        size.side(),
        size.regions(),
        size.region_side(),
        size.mapping(),
        size.data_count(),
        size.check_count(),
        size.blocks(),
        size.limit(),
    ];
    found == *row && Size::of_side(row[0]) == Some(size)
}

#[test]
fn every_row_is_that_of_the_standard(rt: HostRuntime) {
    let sizes = table();
    for i in 0..GRID_SIZE_COUNT {
        holds(&rt, has_row(sizes[i], &ROWS[i]));
    }
}

/// How many data codewords, and the side of the smallest size that holds them.
static SIDES: [(u16, u16); 10] = [
    (0, 10),
    (3, 10),
    (4, 12),
    (62, 32),
    (63, 36),
    (174, 48),
    (175, 52),
    (204, 52),
    (205, 64),
    (816, 104),
];

#[test]
fn the_smallest_size_that_holds_the_words(rt: HostRuntime) {
    for (count, side) in &SIDES {
        holds(&rt, Size::for_words(*count) == Size::of_side(*side));
    }
    holds(&rt, Size::for_words(MOST_GRID_DATA as u16 + 1).is_none());
    holds(&rt, Size::of_side(11).is_none());
}

#[test]
fn the_blocks_of_side_104(rt: HostRuntime) {
    let size = size_of(104);
    holds(&rt, size.block_data() == 136 && size.block_check() == 56);
}
