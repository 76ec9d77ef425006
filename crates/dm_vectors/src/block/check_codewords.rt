//! Tests of check codewords.

use super::samples::{data_and_checks, following, part, put};
use crate::calls::{checks_of, generator_of};
use crate::claims::holds;
use dm_layout::table;
use gf301::Gf;

/// Whether these are the check codewords of the data codewords, and not none.
fn has_checks(front: &[u8], checks: &[u8]) -> bool {
    !checks.is_empty() && checks_of(front, checks.len()).as_slice() == checks
}

/// Blocks of the symbol of side 10: data codewords, and their five check codewords.
static SIDE_10: [([u8; 3], [u8; 5]); 5] = [
    ([142, 164, 186], [114, 25, 5, 88, 102]),
    ([66, 129, 70], [138, 234, 82, 82, 95]),
    ([129, 175, 70], [33, 1, 170, 139, 55]),
    ([230, 91, 11], [40, 130, 30, 228, 188]),
    ([66, 74, 78], [60, 104, 105, 21, 207]),
];

#[test]
fn check_codewords_of_blocks_of_side_10(rt: HostRuntime) {
    for (data, checks) in &SIDE_10 {
        holds(&rt, has_checks(data, checks));
    }
}

#[test]
fn check_codewords_of_zeros_are_zeros(rt: HostRuntime) {
    let zeros = [0; 255];
    for size in table() {
        let (count, k) = data_and_checks(size);
        holds(&rt, has_checks(part(&zeros, 0, count), part(&zeros, 0, k)));
    }
}

/// Takes the multiple of the divisor, whose first coefficient is 1, away that leaves 0 at the first place.
fn take_away(places: &mut [u8], divisor: &[u8]) {
    let Some(lead) = places.first().copied() else {
        return;
    };
    for i in 0..divisor.len() {
        if i < places.len() {
            places[i] ^= Gf(lead).mul(Gf(divisor[i])).0;
        }
    }
}

/// What long division of `front` times x^k by the generator polynomial leaves: from the highest power on, a multiple
/// of the generator is taken away. It stands at the places from the length of `front` on.
fn divided(front: &[u8], k: usize) -> [u8; 255] {
    let divisor = generator_of(k);
    let mut rest = [0; 255];
    put(&mut rest, 0, front);
    for i in 0..front.len() {
        if i < 255 {
            take_away(&mut rest[i..], &divisor);
        }
    }
    rest
}

/// Whether the check codewords of so many data codewords of the list are what long division leaves, in each block.
fn are_what_is_left(list: &[u8; 255]) -> bool {
    for size in table() {
        let (count, k) = data_and_checks(size);
        let front = part(list, 0, count);
        if !has_checks(front, part(&divided(front, k), count, k)) {
            return false;
        }
    }
    true
}

#[test]
fn check_codewords_are_what_long_division_leaves(rt: HostRuntime) {
    holds(&rt, are_what_is_left(&[255; 255]));
    holds(&rt, are_what_is_left(&following(7, 5, 19)));
    holds(&rt, are_what_is_left(&following(200, 5, 3)));
}
