//! Correction of a block.

ghost use Rattle.std.specs.Prelude.{◌≡◌, ◌≢◌, ◌+◌, ◌*◌, ◌/◌, ◌<◌, ◌≤◌, List, ℕ, length, take, IsTrue, ◌↔◌, IfOk};
ghost use Rattle.std.specs.Prelude.{IsOkAnd, MatchResult, ◌==◌, map};
ghost use Rattle.std.specs.List.{All};
ghost use Rattle.std.specs.Simd.Lanes.{mask_l};
ghost use Rattle.gf301.specs.Polynomial.{Bytes};
ghost use Rattle.dm_code.specs.Codeword.{IsCodeword, IsNear, distance};
ghost use Rattle.dm_code.specs.Syndromes.{syndromes_of};
ghost use Rattle.dm_code.specs.KeyEquation.{IsBelow, IsLeastPair};

use crate::encoding::remainder;
use crate::errors::{add_error, error_value};
use crate::key::{Key, KeySolver};
use crate::limits::{LONGEST_WORD, MOST_COEFFICIENTS};
use crate::polynomial::{first_coefficients, sums, trim_zeros};
use crate::syndrome::syndromes_of_short;
use arrayvec::ArrayVec;
use gf301::{CHECKS_ROOM, Gf, MOST_CHECKS};
use std::simd::prelude::*;

/// A corrected word.
#[derive(Clone, Debug, PartialEq, Eq, Drop)]
pub struct Fixed {
    /// The codeword within the correction limit.
    pub word: ArrayVec<u8, LONGEST_WORD>,
    /// The number of places at which it differs from the word that was given.
    pub changed: u8,
}

/// No codeword lies within the correction limit of the word.
#[derive(Clone, Copy, Debug, PartialEq, Eq)]
pub struct BeyondLimit;

/// Gives the codeword of k check codewords that differs from the word in at most k div 2 places, and in how many it
/// does, exactly where there is one, and [`BeyondLimit`] exactly where there is none; a word that is a codeword gives
/// itself and 0. The word has k + 1 to [`LONGEST_WORD`] codewords, the data codewords first, and k is 1 to
/// [`MOST_CHECKS`] (ISO/IEC 16022, error checking and correction).
///
/// No such word lies within k div 2 places of two codewords, so there is no choice. A word with more wrong codewords
/// than that may lie near to another codeword, and is then corrected to it.
///
/// For a word of n codewords, with t for k div 2, the work is about n k + k k + 2 n t + t k products, sixteen at a
/// time, and that of the solver; for a codeword it is n k alone.
pub fn correct<S: KeySolver>(solver: &S, word: &[u8], k: usize) -> Result<Fixed, BeyondLimit>
    requires checks { 0 < k }
    requires most { k ≤ MOST_CHECKS }
    requires data { k < length word.now }
    requires long { length word.now ≤ LONGEST_WORD }
    ensures near { MatchResult result (λ fixed. IsNear k word.now fixed.word.items)
        (λ _. (c : List ℕ) → IsNear k word.now c → ⊥) }
    ensures changed { IfOk result (λ fixed. fixed.changed ≡ distance word.now fixed.word.items) }
    ensures itself { IsCodeword k word.now
        → IsOkAnd result (λ fixed. (fixed.word.items ≡ word.now) × (fixed.changed ≡ 0)) }
{
    let mut fixed = ArrayVec::new();
    let changed = correct_to(solver, word, k, &mut fixed)?;
    if changed == 0 {
        return Ok(Fixed {
            word: copy_of(word),
            changed,
        });
    }
    Ok(Fixed {
        word: fixed,
        changed,
    })
}

/// Does what [`correct`] does, in a target: gives in how many places the codeword near the word differs from it. If
/// that is 0, the word is this codeword, and nothing is copied. Else `fixed` holds the codeword, whatever it held
/// before; after 0 and after [`BeyondLimit`] it holds anything.
pub fn correct_to<S: KeySolver>(
    solver: &S,
    word: &[u8],
    k: usize,
    fixed: &mut ArrayVec<u8, LONGEST_WORD>,
) -> Result<u8, BeyondLimit>
    requires checks { 0 < k }
    requires most { k ≤ MOST_CHECKS }
    requires data { k < length word.now }
    requires long { length word.now ≤ LONGEST_WORD }
    ensures near { MatchResult result
        (λ changed. changed ≢ 0 → IsNear k word.now fixed.new.items)
        (λ _. (c : List ℕ) → IsNear k word.now c → ⊥) }
    ensures changed { IfOk result
        (λ changed. changed ≢ 0 → changed ≡ distance word.now fixed.new.items) }
    ensures itself { (result ≡ Ok 0) ↔ IsCodeword k word.now }
{
    let rest = remainder(word, k);
    if are_zero(&rest) {
        return Ok(0);
    }
    mend(solver, word, k, &rest[..k], fixed)
}

/// Does what [`correct_to`] does, for a word whose syndromes are those of `rest`, a short list. It is a function of its
/// own, since the room that it takes is cleared at each call, and most words are codewords, which need none of it.
#[inline(never)]
fn mend<S: KeySolver>(
    solver: &S,
    word: &[u8],
    k: usize,
    rest: &[u8],
    fixed: &mut ArrayVec<u8, LONGEST_WORD>,
) -> Result<u8, BeyondLimit>
    requires checks { 0 < k }
    requires most { k ≤ MOST_CHECKS }
    requires data { k < length word.now }
    requires long { length word.now ≤ LONGEST_WORD }
    requires rest { syndromes_of rest.now k ≡ syndromes_of word.now k }
    ensures near { MatchResult result
        (λ changed. changed ≢ 0 → IsNear k word.now fixed.new.items)
        (λ _. (c : List ℕ) → IsNear k word.now c → ⊥) }
    ensures changed { IfOk result
        (λ changed. changed ≢ 0 → changed ≡ distance word.now fixed.new.items) }
    ensures itself { (result ≡ Ok 0) ↔ IsCodeword k word.now }
{
    let syndromes = syndromes_of_short(rest, k);
    let Some(key) = solver.solve(&syndromes, k / 2) else {
        return Err(BeyondLimit);
    };
    copy_to(word, fixed);
    let mut left = with_room(&syndromes);
    let changed = correct_errors(fixed, &mut left, k, &key);
    if are_zero(&left[..k]) && usize::from(changed) <= k / 2 {
        Ok(changed)
    } else {
        Err(BeyondLimit)
    }
}

/// Corrects the word at each place whose locator's inverse is a root of the error locator, and gives the number of
/// places that it changed. Where a codeword is near, the word then is this codeword. The first k of the syndromes stay
/// those of the word, so that the corrected word is tested without new ones.
fn correct_errors(word: &mut [u8], syndromes: &mut [u8], k: usize, key: &Key) -> u8
    requires checks { 0 < k }
    requires most { k ≤ MOST_CHECKS }
    requires long { length word.old ≤ LONGEST_WORD }
    requires room { length syndromes.old ≡ CHECKS_ROOM }
    requires syndromes { take k syndromes.old ≡ syndromes_of word.old k }
    requires key { IsLeastPair (syndromes_of word.old k) (k / 2) key.now.locator.items
        key.now.evaluator.items }
    ensures near { (c : List ℕ) → IsNear k word.old c → word.new ≡ c }
    ensures changed { result ≡ distance word.old word.new }
    ensures long { length word.new ≡ length word.old }
    ensures bytes { Bytes word.new }
    ensures room { length syndromes.new ≡ CHECKS_ROOM }
    ensures kept { take k syndromes.new ≡ syndromes_of word.new k }
{
    let locator = trim_zeros(&key.locator);
    correct_roots(word, syndromes, k, locator, &key.evaluator)
}

/// Does what [`correct_errors`] does, for a locator without zeros at its end. Sixteen places at once, from the last
/// place on, are tested for roots, and where there is one, what gives the errors' values is computed. The lists are
/// read with the highest power first: the locator then has the wrong places' locators as roots.
fn correct_roots(
    word: &mut [u8],
    syndromes: &mut [u8],
    k: usize,
    locator: &[u8],
    evaluator: &[u8],
) -> u8
    requires checks { 0 < k }
    requires most { k ≤ MOST_CHECKS }
    requires long { length word.old ≤ LONGEST_WORD }
    requires room { length syndromes.old ≡ CHECKS_ROOM }
    requires syndromes { take k syndromes.old ≡ syndromes_of word.old k }
    requires short { length locator.now ≤ MOST_COEFFICIENTS }
    requires tight { (n : ℕ) → IsBelow n locator.now → length locator.now ≤ n }
    requires key { IsLeastPair (syndromes_of word.old k) (k / 2) locator.now evaluator.now }
    ensures near { (c : List ℕ) → IsNear k word.old c → word.new ≡ c }
    ensures changed { result ≡ distance word.old word.new }
    ensures long { length word.new ≡ length word.old }
    ensures bytes { Bytes word.new }
    ensures room { length syndromes.new ≡ CHECKS_ROOM }
    ensures kept { take k syndromes.new ≡ syndromes_of word.new k }
{
    let upper = first_coefficients(evaluator, locator.len().saturating_sub(1));
    let groups = k.div_ceil(16);
    let mut count = 0;
    for part in 0..word.len().div_ceil(16) {
        let first = 16 * part;
        let (values, divisors) = sums(locator, first);
        if zero_lanes(values) == 0 {
            continue;
        }
        let (numerators, _) = sums(&upper, first);
        let values = values.to_array();
        let divisors = divisors.to_array();
        let numerators = numerators.to_array();
        for lane in 0..(word.len() - first).min(16) {
            if values[lane] == 0 {
                let place = word.len() - 1 - (first + lane);
                let at = Gf::power_of_two((first + lane) as u16);
                let value = error_value(Gf(numerators[lane]), Gf(divisors[lane]));
                word[place] = Gf(word[place]).add(value).0;
                add_error(syndromes, groups, value, at);
                count += value.0.min(1);
            }
        }
    }
    count
}

/// Gives the lanes in which 0 stands, as bits, the first as the lowest.
#[inline]
fn zero_lanes(lanes: Simd<u8, 16>) -> u64
    ensures { result ≡ mask_l (map (λ a. a == 0) lanes) }
{
    lanes.simd_eq(u8x16::splat(0)).to_bitmask()
}

/// Copies the list.
pub(crate) fn copy_of<const N: usize>(list: &[u8]) -> ArrayVec<u8, N>
    requires { length list.now ≤ N }
    ensures { result.items ≡ list.now }
{
    let mut copy = ArrayVec::new();
    let _room = copy.try_extend_from_slice(list);
    copy
}

/// Copies the list into one that may hold anything before.
fn copy_to(list: &[u8], copy: &mut ArrayVec<u8, LONGEST_WORD>)
    requires { length list.now ≤ LONGEST_WORD }
    ensures { copy.new.items ≡ list.now }
{
    copy.clear();
    let _room = copy.try_extend_from_slice(list);
}

/// Puts zeros behind the syndromes.
fn with_room(syndromes: &[u8]) -> [u8; CHECKS_ROOM]
    requires { length syndromes.now ≤ MOST_CHECKS }
    ensures { take (length syndromes.now) result ≡ syndromes.now }
{
    let mut room = [0; CHECKS_ROOM];
    room[..syndromes.len()].copy_from_slice(syndromes);
    room
}

/// Whether every number of the list is 0. All are looked at, without a jump, so that the compiler takes many at once.
fn are_zero(list: &[u8]) -> bool
    ensures { IsTrue result ↔ All (λ a. a ≡ 0) list.now }
{
    let mut other = false;
    for a in list {
        other = other | (*a != 0);
    }
    !other
}
