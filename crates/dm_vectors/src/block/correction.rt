//! Tests of correction within the limit, at it and beyond it, with both solvers.

use super::samples::{WORD, codeword, data_and_checks, part, put, turned_over, with_errors};
use crate::calls::generator_of;
use crate::claims::holds;
use arrayvec::ArrayVec;
use dm_code::{BeyondLimit, Elimination, Fixed, Quick, correct, correct_to};
use dm_layout::table;

/// What `correct` gives with either solver, and None where they differ or there is no such block.
fn outcome_of(word: &[u8], k: usize) -> Option<Result<Fixed, BeyondLimit>> {
    if k < 1 || 68 < k || word.len() <= k || 255 < word.len() {
        return None;
    }
    let outcome = correct(&Quick, word, k);
    if outcome == correct(&Elimination, word, k) {
        Some(outcome)
    } else {
        None
    }
}

/// Whether a damaged word is corrected to a word with either solver, with a count of changed places.
fn is_corrected(damaged: &[u8], word: &[u8], k: usize, changed: usize) -> bool {
    match outcome_of(damaged, k) {
        Some(Ok(fixed)) => fixed.word.as_slice() == word && usize::from(fixed.changed) == changed,
        _ => false,
    }
}

/// Whether a damaged word is refused with either solver.
fn is_refused(damaged: &[u8], k: usize) -> bool {
    matches!(outcome_of(damaged, k), Some(Err(BeyondLimit)))
}

/// Whether both solvers agree for a word of a block.
pub(super) fn are_corrected_alike(word: &[u8], k: usize) -> bool {
    outcome_of(word, k).is_some()
}

#[test]
fn two_errors_with_five_checks_are_corrected_and_three_refused(rt: HostRuntime) {
    holds(&rt, is_corrected(&WORD, &WORD, 5, 0));
    holds(
        &rt,
        is_corrected(&[0, 0, 186, 114, 25, 5, 88, 102], &WORD, 5, 2),
    );
    holds(&rt, is_refused(&[0, 0, 0, 114, 25, 5, 88, 102], 5));
}

/// Words with five checks, and how many places of each are changed. None where no codeword is near.
static IN_TURN: [([u8; 8], Option<u8>); 3] = [
    ([0, 0, 186, 114, 25, 5, 88, 102], Some(2)),
    (WORD, Some(0)),
    ([0, 0, 0, 114, 25, 5, 88, 102], None),
];

/// Whether so many places of the word are changed, and the target then takes the codeword that is near.
fn takes(target: &mut ArrayVec<u8, 255>, row: &([u8; 8], Option<u8>)) -> bool {
    match correct_to(&Quick, &row.0, 5, target) {
        Ok(changed) => row.1 == Some(changed)
            && (changed == 0 || target.as_slice() == WORD.as_slice()),
        Err(BeyondLimit) => row.1.is_none(),
    }
}

#[test]
fn a_target_takes_the_codeword_that_is_near(rt: HostRuntime) {
    let mut fixed = ArrayVec::new();
    for row in &IN_TURN {
        holds(&rt, takes(&mut fixed, row));
    }
}

/// Whether the first `length` codewords of a word are corrected with as many wrong codewords as can be, at every
/// `step`th place from the place `first` on.
fn is_corrected_from(word: &[u8; 255], length: usize, k: usize, first: usize, step: usize) -> bool {
    let damaged = with_errors(*word, first, step, k / 2);
    is_corrected(part(&damaged, 0, length), part(word, 0, length), k, k / 2)
}

/// Whether a block corrects so many wrong codewords at the first places, at the last, and at every second one.
fn is_corrected_to_its_limit(count: usize, k: usize) -> bool {
    let word = codeword(count, k);
    let length = count.saturating_add(k);
    is_corrected_from(&word, length, k, 0, 1)
        && is_corrected_from(&word, length, k, length.saturating_sub(k / 2), 1)
        && is_corrected_from(&word, length, k, 0, 2)
}

#[test]
fn blocks_are_corrected_to_their_limit(rt: HostRuntime) {
    for size in table() {
        let (count, k) = data_and_checks(size);
        holds(&rt, is_corrected_to_its_limit(count, k));
    }
}

/// The block of side 10 with this error at this place.
fn with_error(word: [u8; 8], place: usize, error: u8) -> [u8; 8] {
    let mut damaged = word;
    if place < 8 {
        damaged[place] ^= error;
    }
    damaged
}

/// Each codeword replaced by each other value.
#[test]
fn each_single_error_is_corrected(rt: HostRuntime) {
    for place in 0..8 {
        for error in 1..=255u8 {
            holds(
                &rt,
                is_corrected(&with_error(WORD, place, error), &WORD, 5, 1),
            );
        }
    }
}

/// Whether errors at this place and at each other one are corrected.
fn is_each_pair_corrected(i: usize) -> bool {
    for j in 0..8 {
        let damaged = with_error(with_error(WORD, i, 1), j, 255);
        if i != j && !is_corrected(&damaged, &WORD, 5, 2) {
            return false;
        }
    }
    true
}

#[test]
fn errors_at_each_two_places_are_corrected(rt: HostRuntime) {
    for i in 0..8 {
        holds(&rt, is_each_pair_corrected(i));
    }
}

/// No codeword lies within the limit of these words, so none is made up.
#[test]
fn errors_at_each_three_places_with_five_checks_are_refused(rt: HostRuntime) {
    for i in 0..8 {
        for j in 0..i {
            for m in 0..j {
                let damaged = with_error(with_error(with_error(WORD, i, 255), j, 255), m, 255);
                holds(&rt, is_refused(&damaged, 5));
            }
        }
    }
}

/// Whether a codeword with seven checks is refused with errors at each four places.
fn are_all_four_refused(word: &[u8; 255]) -> bool {
    for places in 0..4096u16 {
        if places.count_ones() == 4 && !is_refused(part(&turned_over(word, places), 0, 12), 7) {
            return false;
        }
    }
    true
}

#[test]
fn errors_at_each_four_places_with_seven_checks_are_refused(rt: HostRuntime) {
    holds(&rt, are_all_four_refused(&codeword(5, 7)));
}

/// Whether a word that is one place more than the limit away from the word of zeros is corrected to another codeword,
/// the generator polynomial, which stands at the places up to `count` + k.
fn is_corrected_to_the_generator(count: usize, k: usize) -> bool {
    let mut word = [0; 255];
    put(&mut word, count.saturating_sub(1), &generator_of(k));
    let mut damaged = word;
    put(
        &mut damaged,
        count.saturating_add(k / 2),
        part(&[0; 255], 0, k / 2),
    );
    let length = count.saturating_add(k);
    is_corrected(part(&damaged, 0, length), part(&word, 0, length), k, k / 2)
}

/// The generator polynomial is nearer there than the word of zeros.
#[test]
fn a_word_nearer_to_another_codeword_is_corrected_to_that(rt: HostRuntime) {
    for size in table() {
        let (count, k) = data_and_checks(size);
        holds(&rt, k % 2 == 1 || is_corrected_to_the_generator(count, k));
    }
}

/// The blocks of a symbol whose cells are all dark but for its borders: their codewords are all 255.
#[test]
fn blocks_of_dark_symbols_are_corrected_alike(rt: HostRuntime) {
    let dark = [255; 255];
    for size in table() {
        let (count, k) = data_and_checks(size);
        holds(
            &rt,
            are_corrected_alike(part(&dark, 0, count.saturating_add(k)), k),
        );
    }
}
