//! Places of a word weighed away and given back, all at once.
//!
//! The locator of some places is the polynomial whose roots are their own locators, the highest power first. Its value
//! at the locator of a place is the place's weight: 0 at these places alone. A word whose codewords are multiplied by
//! the weights of their places has 0 at these places, and a codeword becomes one of so many checks less.

ghost use Rattle.std.specs.Prelude.{◌≡◌, ◌+◌, ◌-◌, ◌<◌, ◌≤◌, ℕ, List, suc, length, get_or, take, map};
ghost use Rattle.std.specs.List.{All};
ghost use Rattle.gf301.specs.Field.{◌⊗◌, power};
ghost use Rattle.gf301.specs.Polynomial.{Bytes, value, values_from, coefficient, convolution};
ghost use Rattle.dm_code.specs.inner.OddTerms.{odd_part};
ghost use Rattle.dm_code.specs.inner.Lessened.{places_locator, AreValues, AreOddParts, IsWeighed, IsSameBut};

use crate::errors::error_value;
use crate::limits::LONGEST_WORD;
use crate::polynomial::sums;
use arrayvec::ArrayVec;
use gf301::{CHECKS_ROOM, Gf, MOST_CHECKS, add_scaled, lanes_mul, power_row, value_at};
use std::simd::prelude::*;

/// Room for the coefficients of a locator: the first one, and whole groups of sixteen for one for each place.
pub(crate) const LOCATOR_ROOM: usize = 1 + CHECKS_ROOM;

/// Room for the coefficients of an evaluator, one for each place, in whole groups of sixteen from each of them on.
const EVALUATOR_ROOM: usize = CHECKS_ROOM + 16;

/// What a polynomial gives at the places of a word: at each e what it gives at the locator 2 to the power e, which is
/// that of the place with e places after it.
#[derive(Drop)]
pub(crate) struct AtPlaces {
    /// The values.
    pub values: [u8; 256],
    /// The sums of the terms of odd powers.
    pub odd: [u8; 256],
}

/// Gives the locator of some places of a word of n codewords, and zeros behind it. It is multiplied by x - r for the
/// locator r of one place after the other: r times each coefficient is added to the next one.
pub(crate) fn locator_of(places: &[u8], n: usize) -> [u8; LOCATOR_ROOM]
    requires few { length places.now ≤ MOST_CHECKS }
    requires long { n ≤ LONGEST_WORD }
    requires within { All (λ p. p < n) places.now }
    ensures taken { take (length places.now + 1) result ≡ places_locator n places.now }
    ensures each { (i : ℕ) → get_or result i 0 ≡ coefficient (places_locator n places.now) i }
{
    let mut locator = [0; LOCATOR_ROOM];
    locator[0] = 1;
    let end = 1 + 16 * places.len().div_ceil(16);
    for done in 0..places.len() {
        let place = usize::from(places[places.len() - 1 - done]);
        let at = Gf::power_of_two((n - 1 - place) as u16);
        let before = locator;
        add_scaled(&mut locator[1..end], at.0, &before);
    }
    locator
}

/// Gives the values of a polynomial of at most 69 terms at the locators of the places of a word of n codewords, and
/// there the sums of its terms of odd powers, sixteen at a time.
pub(crate) fn at_places(terms: &[u8], n: usize) -> AtPlaces
    requires few { length terms.now ≤ MOST_CHECKS + 1 }
    requires long { n ≤ LONGEST_WORD }
    ensures values { AreValues terms.now n result.values }
    ensures odd { AreOddParts terms.now n result.odd }
{
    let mut values = [0; 256];
    let mut odd = [0; 256];
    for part in 0..n.div_ceil(16) {
        let first = 16 * part;
        let (of_values, of_odd) = long_sums(terms, first);
        of_values.copy_to_slice(&mut values[first..]);
        of_odd.copy_to_slice(&mut odd[first..]);
    }
    AtPlaces { values, odd }
}

/// Does what [`sums`] does, for up to 69 terms: those before the last 34 are summed apart, and their sums multiplied by
/// the power 34. It is an even one, so that their odd powers stay odd.
fn long_sums(terms: &[u8], first: usize) -> (Simd<u8, 16>, Simd<u8, 16>)
    requires few { length terms.now ≤ MOST_CHECKS + 1 }
    requires first { first ≤ 240 }
    ensures values { result.0 ≡ map (value terms.now) (values_from power first 16) }
    ensures odd { result.1 ≡ map (odd_part terms.now) (values_from power first 16) }
{
    if terms.len() <= 34 {
        return sums(terms, first);
    }
    let (upper, lower) = terms.split_at(terms.len() - 34);
    let (values, odd) = sums(upper, first);
    let (lower_values, lower_odd) = sums(lower, first);
    let power = power_row(34, first);
    (
        lanes_mul(values, power) ^ lower_values,
        lanes_mul(odd, power) ^ lower_odd,
    )
}

/// Multiplies each codeword of a word by the weight of its place.
pub(crate) fn less_places(word: &[u8], weights: &[u8; 256]) -> ArrayVec<u8, LONGEST_WORD>
    requires { length word.now ≤ LONGEST_WORD }
    ensures { IsWeighed weights.now word.now result.items }
{
    let mut less = ArrayVec::new();
    for i in 0..word.len() {
        less.push(Gf(word[i]).mul(Gf(weights[word.len() - 1 - i])).0);
    }
    less
}

/// Puts in place of the codewords of the word, where `near` isn't as `less`, those of `near` divided by the weights of
/// their places. `less` has those of the word times the weights, so that nothing is divided where both are the same.
pub(crate) fn divide_changed(word: &mut [u8], near: &[u8], less: &[u8], weights: &[u8; 256])
    requires long { length word.old ≤ LONGEST_WORD }
    requires near { length near.now ≡ length word.old }
    requires less { length less.now ≡ length word.old }
    ensures long { length word.new ≡ length word.old }
    ensures bytes { Bytes word.new }
    ensures same { (i : ℕ) → i < length word.old → get_or near.now i 0 ≡ get_or less.now i 0
        → get_or word.new i 0 ≡ get_or word.old i 0 }
    ensures changed { (i : ℕ) → i < length word.old
        → (get_or near.now i 0 ≡ get_or less.now i 0 → ⊥)
        → 0 < get_or weights.now (length word.old - suc i) 0
        → get_or weights.now (length word.old - suc i) 0 ⊗ get_or word.new i 0
        ≡ get_or near.now i 0 }
{
    for i in 0..near.len() {
        if near[i] != less[i] {
            word[i] = error_value(Gf(near[i]), Gf(weights[near.len() - 1 - i])).0;
        }
    }
}

/// Puts 0 at each of the places.
pub(crate) fn blank(word: &mut [u8], places: &[u8])
    requires { All (λ p. p < length word.old) places.now }
    ensures long { length word.new ≡ length word.old }
    ensures blank { (j : ℕ) → j < length places.now → get_or word.new (get_or places.now j 0) 0 ≡ 0 }
    ensures kept { IsSameBut places.now word.new word.old }
{
    for i in 0..places.len() {
        word[usize::from(places[i])] = 0;
    }
}

/// Gives the first coefficients of the product of a locator and the syndromes, as many as there are syndromes, and what
/// doesn't count behind them.
pub(crate) fn evaluator_of(locator: &[u8; LOCATOR_ROOM], syndromes: &[u8]) -> [u8; EVALUATOR_ROOM]
    requires { length syndromes.now ≤ MOST_CHECKS }
    ensures { take (length syndromes.now) result
        ≡ values_from (convolution (coefficient locator.now) (coefficient syndromes.now)) 0
        (length syndromes.now) }
{
    let mut evaluator = [0; EVALUATOR_ROOM];
    let count = syndromes.len();
    for j in 0..count {
        let end = j + 16 * (count - j).div_ceil(16);
        add_scaled(&mut evaluator[j..end], syndromes[j], locator);
    }
    evaluator
}

/// Puts at each of the places the quotient of the numerator and the sum of the terms of odd powers there.
pub(crate) fn fill(word: &mut [u8], places: &[u8], numerators: &[u8; 256], odd: &[u8; 256])
    requires long { length word.old ≤ LONGEST_WORD }
    requires within { All (λ p. p < length word.old) places.now }
    ensures long { length word.new ≡ length word.old }
    ensures bytes { Bytes word.new }
    ensures kept { IsSameBut places.now word.new word.old }
    ensures filled { (j : ℕ) → j < length places.now
        → 0 < get_or odd.now (length word.old - suc (get_or places.now j 0)) 0
        → get_or odd.now (length word.old - suc (get_or places.now j 0)) 0
        ⊗ get_or word.new (get_or places.now j 0) 0
        ≡ get_or numerators.now (length word.old - suc (get_or places.now j 0)) 0 }
{
    for i in 0..places.len() {
        let place = usize::from(places[i]);
        let e = word.len() - 1 - place;
        word[place] = error_value(Gf(numerators[e]), Gf(odd[e])).0;
    }
}

/// Does what [`fill`] does, with the values of the terms as numerators: where few places of many are to be filled, this
/// takes fewer products than the values at all places.
pub(crate) fn fill_few(word: &mut [u8], places: &[u8], terms: &[u8], odd: &[u8; 256])
    requires long { length word.old ≤ LONGEST_WORD }
    requires within { All (λ p. p < length word.old) places.now }
    ensures long { length word.new ≡ length word.old }
    ensures bytes { Bytes word.new }
    ensures kept { IsSameBut places.now word.new word.old }
    ensures filled { (j : ℕ) → j < length places.now
        → 0 < get_or odd.now (length word.old - suc (get_or places.now j 0)) 0
        → get_or odd.now (length word.old - suc (get_or places.now j 0)) 0
        ⊗ get_or word.new (get_or places.now j 0) 0
        ≡ value terms.now (power (length word.old - suc (get_or places.now j 0))) }
{
    for i in 0..places.len() {
        let place = usize::from(places[i]);
        let e = word.len() - 1 - place;
        let numerator = value_at(terms, Gf::power_of_two(e as u16));
        word[place] = error_value(numerator, Gf(odd[e])).0;
    }
}
