//! Placement: worked lists, and the number of places of each size.

use crate::calls::size_of;
use crate::claims::holds;
use dm_layout::{Cells, Place, Size, table};

/// Whether the list has this place at this index.
fn is_at(list: &[(u16, u16)], index: usize, place: Place) -> bool {
    index < list.len() && list[index].0 == place.row && list[index].1 == place.column
}

/// Whether these are the cells of the lowest bits, codeword by codeword. That of a standard shape is its anchor, that
/// of corner 1 is (3, n-1), and that of corner 2 is (1, n-1).
fn are_lowest_bits(size: Size, expected: &[(u16, u16)]) -> bool {
    let mut count = 0usize;
    for place in Cells::new(size) {
        if place.bit == 8 {
            if !is_at(expected, count, place) {
                return false;
            }
            count = count.saturating_add(1);
        }
    }
    count == expected.len()
}

/// The cells of the lowest bits in the mapping square of side 8, by codeword.
static ANCHORS_OF_8: [(u16, u16); 8] = [
    (4, 0),
    (2, 2),
    (0, 4),
    (1, 7),
    (3, 5),
    (5, 3),
    (7, 1),
    (6, 6),
];

/// The cells of the lowest bits in the mapping square of side 12, where corner 1 comes before the anchors of sum 12.
static ANCHORS_OF_12: [(u16, u16); 18] = [
    (4, 0),
    (2, 2),
    (0, 4),
    (1, 7),
    (3, 5),
    (5, 3),
    (7, 1),
    (3, 11),
    (10, 2),
    (8, 4),
    (6, 6),
    (4, 8),
    (2, 10),
    (5, 11),
    (7, 9),
    (9, 7),
    (11, 5),
    (10, 10),
];

/// The cells of the lowest bits in the mapping square of side 14, where corner 2 comes before the anchors of sum 12,
/// and (12, 0) and (0, 12) are absent.
static ANCHORS_OF_14: [(u16, u16); 24] = [
    (4, 0),
    (2, 2),
    (0, 4),
    (1, 7),
    (3, 5),
    (5, 3),
    (7, 1),
    (1, 13),
    (10, 2),
    (8, 4),
    (6, 6),
    (4, 8),
    (2, 10),
    (3, 13),
    (5, 11),
    (7, 9),
    (9, 7),
    (11, 5),
    (13, 3),
    (12, 8),
    (10, 10),
    (8, 12),
    (11, 13),
    (13, 11),
];

#[test]
fn anchors_by_codeword_with_both_corners(rt: HostRuntime) {
    holds(&rt, are_lowest_bits(size_of(10), &ANCHORS_OF_8));
    holds(&rt, are_lowest_bits(size_of(14), &ANCHORS_OF_12));
    holds(&rt, are_lowest_bits(size_of(16), &ANCHORS_OF_14));
}

/// The cells of the first codeword in the mapping square of side 8.
static FIRST_OF_8: [(u16, u16); 8] = [
    (2, 6),
    (2, 7),
    (3, 6),
    (3, 7),
    (3, 0),
    (4, 6),
    (4, 7),
    (4, 0),
];

/// Whether these are the cells of the first codeword.
fn are_first(size: Size, expected: &[(u16, u16)]) -> bool {
    let mut count = 0usize;
    for place in Cells::new(size) {
        if place.word == 0 {
            if !is_at(expected, count, place) {
                return false;
            }
            count = count.saturating_add(1);
        }
    }
    count == expected.len()
}

#[test]
fn bits_of_the_first_codeword(rt: HostRuntime) {
    holds(&rt, are_first(size_of(10), &FIRST_OF_8));
}

/// How many places a size has.
fn place_count(size: Size) -> u16 {
    let mut count = 0u16;
    for _place in Cells::new(size) {
        count = count.saturating_add(1);
    }
    count
}

#[test]
fn eight_places_a_codeword(rt: HostRuntime) {
    for size in table() {
        holds(
            &rt,
            place_count(size) == 8 * (size.data_count() + size.check_count()),
        );
    }
}
