//! Tests of blocks.

use crate::calls::{block, put_block, size_of, words_of};
use crate::claims::holds;
use crate::messages::are_all;
use dm_layout::{MOST_GRID_CODEWORDS, Words};

/// The codewords of this side, each of which is the rest of its place by 251.
fn counted(side: u16) -> Words {
    let mut list = [0; MOST_GRID_CODEWORDS];
    for place in 0..MOST_GRID_CODEWORDS {
        list[place] = (place % 251) as u8;
    }
    words_of(size_of(side), &list)
}

/// Whether there are so many codewords, so many of them data codewords, and so many blocks.
fn are_counted(words: &Words, count: usize, data_count: usize, blocks: u16) -> bool {
    words.list().len() == count
        && words.data_part().len() == data_count
        && words.size().blocks() == blocks
}

/// Whether the block is every `step`th of such codewords, from the place `first` on.
fn takes_turns(dealt: &[u8], first: usize, step: usize) -> bool {
    let mut place = first;
    for word in dealt {
        if *word as usize != place % 251 {
            return false;
        }
        place = place.saturating_add(step);
    }
    true
}

/// Whether block `b` of so many has so many of such codewords, in turns.
fn is_dealt(words: &Words, b: usize, blocks: usize, length: usize) -> bool {
    let dealt = block(words, b);
    dealt.len() == length && takes_turns(&dealt, b, blocks)
}

#[test]
fn two_blocks_take_turns(rt: HostRuntime) {
    let words = counted(52);
    holds(&rt, are_counted(&words, 288, 204, 2));
    holds(&rt, is_dealt(&words, 1, 2, 144));
}

/// Whether block `b` is so many times this codeword.
fn is_filled(words: &Words, b: usize, word: u8, length: usize) -> bool {
    let dealt = block(words, b);
    dealt.len() == length && are_all(&dealt, word)
}

#[test]
fn a_block_is_put_beside_the_other(rt: HostRuntime) {
    let mut words = words_of(size_of(52), &[7; 288]);
    put_block(&mut words, 1, &[9; 144]);
    holds(&rt, are_counted(&words, 288, 204, 2));
    holds(
        &rt,
        is_filled(&words, 0, 7, 144) && is_filled(&words, 1, 9, 144),
    );
}

#[test]
fn six_blocks_take_turns(rt: HostRuntime) {
    let words = counted(104);
    holds(&rt, are_counted(&words, 1152, 816, 6));
    for b in 0..6 {
        holds(&rt, is_dealt(&words, b, 6, 192));
    }
}
