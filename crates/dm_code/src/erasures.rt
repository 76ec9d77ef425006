//! Correction of a block of which some codewords are erased: what stands there isn't known.

ghost use Rattle.std.specs.Prelude.{◌≡◌, ◌+◌, ◌*◌, ◌<◌, ◌≤◌, ◌↔◌, List, [], ℕ, length, take, get_or, IfOk, IsTrue};
ghost use Rattle.std.specs.Prelude.{MatchResult};
ghost use Rattle.std.specs.List.{All};
ghost use Rattle.gf301.specs.Polynomial.{coefficient};
ghost use Rattle.dm_code.specs.Erased.{IsNearBut, distance_but, erased_places_from};
ghost use Rattle.dm_code.specs.inner.Lessened.{AreOddParts, HasPlaces, IsAscending, IsSameBut, places_locator};

use crate::correction::{BeyondLimit, Fixed, copy_of, correct};
use crate::key::KeySolver;
use crate::limits::LONGEST_WORD;
use crate::syndrome::first_syndromes;
use crate::weighing::{
    LOCATOR_ROOM, at_places, blank, divide_changed, evaluator_of, fill, fill_few, less_places,
    locator_of,
};
use arrayvec::ArrayVec;
use gf301::MOST_CHECKS;

/// A corrected word of which some places were erased.
#[derive(Clone, Debug, PartialEq, Eq, Drop)]
pub struct Restored {
    /// The codeword that is near to the word but for its erased places.
    pub word: ArrayVec<u8, LONGEST_WORD>,
    /// The number of places, other than the erased ones, at which it differs from the word that was given.
    pub changed: u8,
    /// The number of erased places.
    pub erased: u8,
    /// The number of check codewords that neither errors nor erasures have used: an error uses two, an erasure one.
    /// Where it is 0, many words are read as some codeword, whatever they held.
    pub left: u8,
}

/// Gives the codeword of k check codewords that is near to the word but for its erased places, exactly where there is
/// one, and [`BeyondLimit`] exactly where there is none: twice the number of other places at which they differ, and the
/// number of erased ones, are together at most k. `erased` says of each place of the word whether what stands there is
/// unknown; it is never looked at. The word has k + 1 to [`LONGEST_WORD`] codewords, the data codewords first, and k is
/// at most [`MOST_CHECKS`] (ISO/IEC 16022, error checking and correction).
///
/// No such word is near to two codewords, so there is no choice. With no place erased, and a k of 1 or more, this is
/// what [`correct`] gives.
///
/// For a word of n codewords and s erased places the work is that of [`correct`], about 3 n s + s s products, sixteen
/// at a time, and an inversion for each erased place and for each other one at which the codeword differs.
pub fn correct_erased<S: KeySolver>(
    solver: &S,
    word: &[u8],
    k: usize,
    erased: &[bool],
) -> Result<Restored, BeyondLimit>
    requires most { k ≤ MOST_CHECKS }
    requires data { k < length word.now }
    requires long { length word.now ≤ LONGEST_WORD }
    requires same { length erased.now ≡ length word.now }
    ensures near { MatchResult result
        (λ restored. IsNearBut k word.now (erased_places_from 0 erased.now) restored.word.items)
        (λ _. (c : List ℕ) → IsNearBut k word.now (erased_places_from 0 erased.now) c → ⊥) }
    ensures changed { IfOk result (λ restored.
        restored.changed ≡ distance_but (erased_places_from 0 erased.now) word.now restored.word.items) }
    ensures erased { IfOk result (λ restored.
        restored.erased ≡ length (erased_places_from 0 erased.now)) }
    ensures left { IfOk result
        (λ restored. 2 * restored.changed + restored.erased + restored.left ≡ k) }
{
    let places = places_of(erased);
    if k < places.len() {
        return Err(BeyondLimit);
    }
    let near = correct_around(solver, word, k, &places)?;
    Ok(Restored {
        word: near.word,
        changed: near.changed,
        erased: places.len() as u8,
        left: (k - places.len() - 2 * usize::from(near.changed)) as u8,
    })
}

/// Gives the codeword that is near to the word but for these places, which are in ascending order. They are weighed
/// away, all at once, what is left is corrected as if no place were erased, and they are given back: only what is 0
/// there comes from a codeword.
fn correct_around<S: KeySolver>(
    solver: &S,
    word: &[u8],
    k: usize,
    places: &[u8],
) -> Result<Fixed, BeyondLimit>
    requires most { k ≤ MOST_CHECKS }
    requires data { k < length word.now }
    requires long { length word.now ≤ LONGEST_WORD }
    requires few { length places.now ≤ k }
    requires within { All (λ p. p < length word.now) places.now }
    requires ascending { IsAscending places.now }
    ensures near { MatchResult result (λ fixed. IsNearBut k word.now places.now fixed.word.items)
        (λ _. (c : List ℕ) → IsNearBut k word.now places.now c → ⊥) }
    ensures changed { IfOk result
        (λ fixed. fixed.changed ≡ distance_but places.now word.now fixed.word.items) }
{
    if places.is_empty() {
        return correct_rest(solver, word, k);
    }
    let locator = locator_of(places, word.len());
    let weights = at_places(&locator[..places.len() + 1], word.len());
    let less = less_places(word, &weights.values);
    let near = correct_rest(solver, &less, k - places.len())?;
    if !are_zero_at(&near.word, places) {
        return Err(BeyondLimit);
    }
    let mut restored = copy_of(word);
    divide_changed(&mut restored, &near.word, &less, &weights.values);
    give_back(&mut restored, places, &locator, &weights.odd);
    Ok(Fixed {
        word: restored,
        changed: near.changed,
    })
}

/// Gives the places that are erased, in ascending order.
fn places_of(erased: &[bool]) -> ArrayVec<u8, LONGEST_WORD>
    requires { length erased.now ≤ LONGEST_WORD }
    ensures { result.items ≡ erased_places_from 0 erased.now }
{
    let mut places = ArrayVec::new();
    for (place, is_erased) in erased.iter().enumerate() {
        if *is_erased {
            places.push(place as u8);
        }
    }
    places
}

/// Does what [`correct_erased`] does where no place is erased: without checks, each word is a codeword.
fn correct_rest<S: KeySolver>(solver: &S, word: &[u8], k: usize) -> Result<Fixed, BeyondLimit>
    requires most { k ≤ MOST_CHECKS }
    requires data { k < length word.now }
    requires long { length word.now ≤ LONGEST_WORD }
    ensures near { MatchResult result (λ fixed. IsNearBut k word.now [] fixed.word.items)
        (λ _. (c : List ℕ) → IsNearBut k word.now [] c → ⊥) }
    ensures changed { IfOk result (λ fixed. fixed.changed ≡ distance_but [] word.now fixed.word.items) }
{
    if k == 0 {
        return Ok(Fixed {
            word: copy_of(word),
            changed: 0,
        });
    }
    correct(solver, word, k)
}

/// Whether the word is 0 at each of the places.
fn are_zero_at(word: &[u8], places: &[u8]) -> bool
    requires { All (λ p. p < length word.now) places.now }
    ensures { IsTrue result ↔ All (λ p. get_or word.now p 0 ≡ 0) places.now }
{
    for i in 0..places.len() {
        if word[usize::from(places[i])] != 0 {
            return false;
        }
    }
    true
}

/// Puts at each of the places what a codeword has there that the word is elsewhere. It follows from the syndromes of
/// the word with 0 at the places, as the value of an error does (Forney's formula): `locator` is the places' locator,
/// and `odd` has the sums of its terms of odd powers.
fn give_back(word: &mut [u8], places: &[u8], locator: &[u8; LOCATOR_ROOM], odd: &[u8; 256])
    requires long { length word.old ≤ LONGEST_WORD }
    requires some { 0 < length places.now }
    requires few { length places.now ≤ MOST_CHECKS }
    requires whole { length places.now ≤ length word.old }
    requires within { All (λ p. p < length word.old) places.now }
    requires locator { (i : ℕ)
        → get_or locator.now i 0 ≡ coefficient (places_locator (length word.old) places.now) i }
    requires odd { AreOddParts (places_locator (length word.old) places.now) (length word.old)
        odd.now }
    ensures long { length word.new ≡ length word.old }
    ensures restored { (k : ℕ) (c : List ℕ) → HasPlaces k places.now c → length c ≡ length word.old
        → IsSameBut places.now word.old c → word.new ≡ c }
{
    blank(word, places);
    let syndromes = first_syndromes(word, places.len());
    let evaluator = evaluator_of(locator, &syndromes);
    let terms = &evaluator[..places.len()];
    if 8 * places.len() <= word.len() {
        return fill_few(word, places, terms, odd);
    }
    let numerators = at_places(terms, word.len()).values;
    fill(word, places, &numerators, odd);
}
