//! Tests of the solvers of the key equation.

use super::correction::are_corrected_alike;
use super::samples::{WORD, codeword, data_and_checks, part, with_errors};
use crate::calls::syndromes_of;
use crate::claims::holds;
use arrayvec::ArrayVec;
use dm_code::{Elimination, Key, KeySolver, Quick};
use dm_layout::table;
use gf301::Meter;

/// What a solver finds; the pair of empty lists, which is none, where it may not be called.
fn solved<S: KeySolver>(solver: &S, s: &[u8], t: usize) -> Option<Key> {
    if s.len() <= 68 && t <= s.len() / 2 {
        solver.solve(s, t)
    } else {
        Some(no_key())
    }
}

/// What `Quick` finds with its counts; the pair of empty lists, which is none, where it may not be called.
fn solved_with_counts(s: &[u8], t: usize) -> (Option<Key>, Meter) {
    if s.len() <= 68 && t <= s.len() / 2 {
        Quick.solve_counted(s, t)
    } else {
        (Some(no_key()), Meter::default())
    }
}

/// Two empty lists, which no solver finds, as a locator has the coefficient 1 of x^0.
fn no_key() -> Key {
    Key {
        locator: ArrayVec::new(),
        evaluator: ArrayVec::new(),
    }
}

/// The coefficient of a power in a polynomial with the lowest power first.
fn coefficient(p: &[u8], power: usize) -> u8 {
    if power < p.len() { p[power] } else { 0 }
}

/// Whether two lists are equal as polynomials of a degree below 35.
fn are_same(p: &[u8], q: &[u8]) -> bool {
    for power in 0..35 {
        if coefficient(p, power) != coefficient(q, power) {
            return false;
        }
    }
    true
}

/// How many coefficients a polynomial of a degree below 35 has up to the last that isn't 0, the lowest power first.
fn terms(p: &[u8]) -> usize {
    let mut count = 0;
    for power in 0..35 {
        if coefficient(p, power) != 0 {
            count = power + 1;
        }
    }
    count
}

/// Whether a solver found this pair.
fn is_key(found: &Option<Key>, locator: &[u8], evaluator: &[u8]) -> bool {
    match found {
        Some(key) => are_same(&key.locator, locator) && are_same(&key.evaluator, evaluator),
        None => false,
    }
}

/// Whether the counts of a solution for k syndromes and the limit t are within their bounds: from above always, and
/// from below: a product for each syndrome where there is a pair, a product where there is none, and an inversion where
/// a locator other than 1 was found.
fn is_within(meter: Meter, found: &Option<Key>, k: usize, t: usize) -> bool {
    let (products, inversions) = (meter.products as usize, meter.inversions as usize);
    if k > 68 || t > 34 || products > 4 * k * k || inversions > k {
        return false;
    }
    match found {
        Some(key) => {
            let terms = terms(&key.locator);
            products >= k
                && (terms <= 1 || (products > 0 && inversions > 0))
                && (terms <= t || products >= t * t / 4)
        }
        None => products >= k.min(1),
    }
}

/// Whether `Quick` finds the same with and without counts, list by list, and the counts are within their bounds.
fn is_counted(s: &[u8], t: usize) -> bool {
    let (found, meter) = solved_with_counts(s, t);
    solved(&Quick, s, t) == found && is_within(meter, &found, s.len(), t)
}

/// Whether both solvers find this pair, by counts within their bounds.
fn have_key(row: &(&[u8], usize, &[u8], &[u8])) -> bool {
    let (s, t, locator, evaluator) = *row;
    is_key(&solved(&Elimination, s, t), locator, evaluator)
        && is_key(&solved(&Quick, s, t), locator, evaluator)
        && is_counted(s, t)
}

/// Whether both solvers find no pair, by counts within their bounds.
fn have_no_key(s: &[u8], t: usize) -> bool {
    solved(&Elimination, s, t).is_none() && solved(&Quick, s, t).is_none() && is_counted(s, t)
}

/// Whether both solvers find the same for the syndromes of a word, by counts within their bounds.
fn are_alike(word: &[u8], k: usize) -> bool {
    let s = syndromes_of(word, k);
    let t = s.len() / 2;
    let found = solved(&Quick, &s, t);
    let alike = match solved(&Elimination, &s, t) {
        Some(key) => is_key(&found, &key.locator, &key.evaluator),
        None => found.is_none(),
    };
    alike && !word.is_empty() && s.len() == k && is_counted(&s, t)
}

/// Syndromes, limits, and the pair that solves the key equation.
static PAIRS: [(&[u8], usize, &[u8], &[u8]); 5] = [
    (&[0; 68], 34, &[1], &[]),
    (&[], 0, &[1], &[]),
    // an error of value 3 at the place with the locator 2: the syndromes are 3 * 2, 3 * 4, 3 * 8, 3 * 16 and 3 * 32
    (&[6, 12, 24, 48], 2, &[1, 2], &[6]),
    (&[6, 12, 24, 48, 96], 2, &[1, 2], &[6]),
    (&[6, 12, 24, 48, 96], 1, &[1, 2], &[6]),
];

#[test]
fn both_solvers_find_the_least_pair(rt: HostRuntime) {
    for row in &PAIRS {
        holds(&rt, have_key(row));
    }
}

/// Syndromes and limits with no pair.
static NO_PAIRS: [(&[u8], usize); 4] = [
    (&[0, 0, 0, 1], 2),
    (&[1], 0),
    (&[6, 12, 24, 49], 2),
    (&[6, 12], 0),
];

#[test]
fn lists_without_a_pair(rt: HostRuntime) {
    for (s, t) in &NO_PAIRS {
        holds(&rt, have_no_key(s, *t));
    }
}

/// Whether both solvers find the same, and correct alike, for a word with five checks.
fn are_alike_with_five(word: &[u8; 8]) -> bool {
    are_alike(word, 5) && are_corrected_alike(word, 5)
}

#[test]
fn both_solvers_agree_at_side_10(rt: HostRuntime) {
    holds(&rt, are_alike_with_five(&WORD));
    holds(&rt, are_alike_with_five(&[0, 0, 186, 114, 25, 5, 88, 102]));
    holds(&rt, are_alike_with_five(&[0, 0, 0, 114, 25, 5, 88, 102]));
}

/// Whether both solvers agree for a codeword with so many errors, at every `step`th place from the place `first` on.
fn are_alike_with(
    word: &[u8; 255],
    length: usize,
    k: usize,
    first: usize,
    step: usize,
    changed: usize,
) -> bool {
    let damaged = with_errors(*word, first, step, changed);
    are_alike(part(&damaged, 0, length), k)
}

/// Whether both solvers agree for a codeword with one error, with as many as can be corrected, and with one more, at
/// every `step`th place from the place `first` on.
fn are_alike_from(word: &[u8; 255], length: usize, k: usize, first: usize, step: usize) -> bool {
    are_alike_with(word, length, k, first, step, 1)
        && are_alike_with(word, length, k, first, step, k / 2)
        && are_alike_with(word, length, k, first, step, k / 2 + 1)
}

/// Whether both solvers agree for a block with errors at the first places, at the last, and at every second one.
fn are_alike_in_block(count: usize, k: usize) -> bool {
    let word = codeword(count, k);
    let length = count.saturating_add(k);
    are_alike_from(&word, length, k, 0, 1)
        && are_alike_from(&word, length, k, length.saturating_sub(k / 2), 1)
        && are_alike_from(&word, length, k, 0, 2)
}

#[test]
fn both_solvers_agree(rt: HostRuntime) {
    for size in table() {
        let (count, k) = data_and_checks(size);
        holds(&rt, are_alike_in_block(count, k));
    }
}

/// Syndromes, limits, and how many products and inversions `Quick` makes, counted with pen and paper: for each syndrome
/// a product with each coefficient of the locator that reaches it; where that isn't 0, one for the multiple, one for
/// each coefficient that the multiple of the earlier locator reaches, and an inversion where the degree grows; and the
/// products of the evaluator. The last two are refused.
static COUNTS: [(&[u8], usize, u32, u32); 7] = [
    (&[0, 0, 0, 0, 0], 2, 5, 0),
    (&[1, 1], 1, 6, 1),
    (&[1, 0], 1, 8, 1),
    (&[6, 12, 24, 48], 2, 12, 1),
    (&[1, 2, 0, 0], 2, 20, 2),
    (&[0, 1], 1, 2, 0),
    (&[1, 2, 0, 0], 1, 9, 1),
];

/// Whether `Quick` counts so many products and inversions.
fn counts(row: &(&[u8], usize, u32, u32)) -> bool {
    let (_found, meter) = solved_with_counts(row.0, row.1);
    meter.products == row.2 && meter.inversions == row.3
}

#[test]
fn products_and_inversions_are_counted(rt: HostRuntime) {
    for row in &COUNTS {
        holds(&rt, counts(row));
    }
}
