//! Blocks of which tests are made.

use crate::calls::checks_of;
use dm_layout::Size;

/// A block of the symbol of side 10, with five check codewords.
pub(super) const WORD: [u8; 8] = [142, 164, 186, 114, 25, 5, 88, 102];

/// How many data and check codewords a block of this size has.
pub(super) fn data_and_checks(size: Size) -> (usize, usize) {
    (
        usize::from(size.block_data()),
        usize::from(size.block_check()),
    )
}

/// So many codewords of the list from the place `first` on, and none where it has fewer.
pub(super) fn part(list: &[u8; 255], first: usize, count: usize) -> &[u8] {
    if first <= 255 && count <= 255 - first {
        &list[first..first + count]
    } else {
        &[]
    }
}

/// Puts codewords into the list from the place `first` on, as far as it goes.
pub(super) fn put(list: &mut [u8; 255], first: usize, codewords: &[u8]) {
    let mut place = first;
    for codeword in codewords {
        if place < 255 {
            list[place] = *codeword;
        }
        place = place.saturating_add(1);
    }
}

/// Codewords that follow one another by a rule: each is so many times the last one, and `step` more.
pub(super) fn following(first: u8, factor: u8, step: u8) -> [u8; 255] {
    let mut codeword = first;
    let mut list = [0; 255];
    for place in 0..255 {
        list[place] = codeword;
        codeword = codeword.wrapping_mul(factor).wrapping_add(step);
    }
    list
}

/// A codeword with `count` data codewords and k check codewords, at the first `count` + k places.
pub(super) fn codeword(count: usize, k: usize) -> [u8; 255] {
    let mut word = following(57, 1, 89);
    let checks = checks_of(part(&word, 0, count), k);
    put(&mut word, count, &checks);
    word
}

/// The word with this many of its codewords wrong: at every `step`th place, from the place `first` on.
pub(super) fn with_errors(word: [u8; 255], first: usize, step: usize, count: usize) -> [u8; 255] {
    let mut damaged = word;
    let mut place = first;
    for _ in 0..count {
        if place < 255 {
            damaged[place] ^= 255;
        }
        place = place.saturating_add(step);
    }
    damaged
}

/// The word with the codewords turned over whose bits these places have.
pub(super) fn turned_over(word: &[u8; 255], places: u16) -> [u8; 255] {
    let mut turned = *word;
    for i in 0..16 {
        if (places >> i) % 2 == 1 {
            turned[i] ^= 255;
        }
    }
    turned
}
