//! Tests of syndromes.

use super::samples::{WORD, following, part};
use crate::calls::syndromes_of;
use crate::claims::holds;
use gf301::{Gf, value_at};

/// Whether the word has these syndromes, and not none.
fn has_syndromes(word: &[u8], syndromes: &[u8]) -> bool {
    !syndromes.is_empty() && syndromes_of(word, syndromes.len()).as_slice() == syndromes
}

#[test]
fn syndromes_of_a_codeword_and_of_words_that_are_none(rt: HostRuntime) {
    holds(&rt, has_syndromes(&WORD, &[0; 5]));
    holds(
        &rt,
        has_syndromes(&[142, 164, 186, 114, 25, 5, 88, 102 ^ 1], &[1; 5]),
    );
    // the values of x^2 at 2, 4 and 8
    holds(&rt, has_syndromes(&[1, 0, 0], &[4, 16, 64]));
}

/// Whether the syndromes of a word are its values at the roots.
fn are_values(word: &[u8], k: usize) -> bool {
    let syndromes = syndromes_of(word, k);
    let mut root = 1;
    for syndrome in &syndromes {
        if value_at(word, Gf::power_of_two(root)).0 != *syndrome {
            return false;
        }
        root = root.saturating_add(1);
    }
    syndromes.len() == k && !word.is_empty()
}

/// Without a full group of 16 roots, without a rest, and with two and four groups and a rest; words with and without a
/// rest by 16 and 32 codewords.
static COUNTS: [(usize, usize); 9] = [
    (5, 6),
    (5, 144),
    (42, 64),
    (42, 111),
    (48, 49),
    (48, 144),
    (68, 69),
    (68, 144),
    (68, 255),
];

#[test]
fn syndromes_are_values_at_the_roots(rt: HostRuntime) {
    let list = following(7, 5, 19);
    for (k, count) in &COUNTS {
        holds(&rt, are_values(part(&list, 0, *count), *k));
    }
}
