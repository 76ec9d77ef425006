//! Tests of blocks of two lengths.

use crate::claims::holds;
use dm_layout::symbols::{MOST_CODEWORDS, SymbolSize, SymbolWords, block};

/// Squares, numbers of blocks, and how many data codewords these have, and how many codewords; 0 where there is no such
/// block.
static LENGTHS: [(u16, usize, u16, u16); 13] = [
    (144, 0, 156, 218),
    (144, 1, 156, 218),
    (144, 2, 156, 218),
    (144, 3, 156, 218),
    (144, 4, 156, 218),
    (144, 5, 156, 218),
    (144, 6, 156, 218),
    (144, 7, 156, 218),
    (144, 8, 155, 217),
    (144, 9, 155, 217),
    (144, 10, 0, 0),
    (132, 7, 163, 225),
    (104, 0, 136, 192),
];

/// Whether a block has these lengths.
fn has_lengths(row: &(u16, usize, u16, u16)) -> bool {
    let (rows, b, data, length) = *row;
    match SymbolSize::of(rows, rows) {
        Some(size) if b < size.blocks() as usize => size.block_data(b) == data
            && size.block_length(b) == length,
        _ => data == 0 && length == 0,
    }
}

#[test]
fn the_last_blocks_of_144_have_one_data_codeword_fewer(rt: HostRuntime) {
    for row in &LENGTHS {
        holds(&rt, has_lengths(row));
    }
}

/// The codewords of 144 x 144 of which each is its place modulo 251.
fn counted() -> Option<SymbolWords> {
    let mut list = [0; MOST_CODEWORDS];
    for place in 0..MOST_CODEWORDS {
        list[place] = (place % 251) as u8;
    }
    let size = SymbolSize::of(144, 144)?;
    Some(SymbolWords::new(
        size,
        &list[..(size.data_count() + size.check_count()) as usize],
    ))
}

/// Whether a block has this length, and begins and ends with these codewords.
fn has_ends(words: &SymbolWords, b: usize, length: usize, first: &[u8], last: u8) -> bool {
    if b < words.size().blocks() as usize {
        let block = block(words.size(), words.list(), b);
        block.len() == length && block.starts_with(first) && block.ends_with(&[last])
    } else {
        false
    }
}

/// Whether blocks of 144 x 144 have these lengths, and begin and end so.
fn have_ends() -> bool {
    match counted() {
        // 2170, 2177 and 2169 leave 162, 169 and 161 when divided by 251.
        Some(words) => has_ends(&words, 0, 218, &[0, 10], 162)
            && has_ends(&words, 7, 218, &[7, 17], 169)
            && has_ends(&words, 9, 217, &[9, 19], 161),
        None => false,
    }
}

#[test]
fn blocks_take_the_places_that_leave_their_number(rt: HostRuntime) {
    holds(&rt, have_ends());
}
