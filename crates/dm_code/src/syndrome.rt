//! The syndromes of a block: its values at the roots of the generator polynomial. 16 roots at a time are taken together
//! in the lanes of a vector, and the rest of the roots one by one, each with 16 codewords at a time in the lanes.

ghost use Rattle.std.specs.Prelude.{◌≡◌, ◌<◌, ◌≤◌, ◌*◌, ◌%◌, ℕ, length, map, take};
ghost use Rattle.gf301.specs.Field.{power};
ghost use Rattle.gf301.specs.Polynomial.{Bytes, value, values_from};
ghost use Rattle.dm_code.specs.Syndromes.{syndromes_of};

use crate::encoding::remainder;
use crate::polynomial::sums;
use arrayvec::ArrayVec;
use gf301::{Gf, MOST_CHECKS, lanes_mul, power_row, scale, value_at};
use std::simd::prelude::*;

/// Gives the syndromes of a word of a block with k check codewords, k of at most [`MOST_CHECKS`]: its values at 2^1 to
/// 2^k, in this order. They are all 0 exactly where the word, of more than k and at most [`crate::LONGEST_WORD`]
/// codewords, is a codeword of k checks.
pub fn syndromes(word: &[u8], k: usize) -> ArrayVec<u8, MOST_CHECKS>
    requires { k ≤ MOST_CHECKS }
    ensures values { result.items ≡ syndromes_of word.now k }
    ensures bytes { Bytes result.items }
{
    let groups = k / 16;
    let mut values = syndromes_in_groups(word, groups);
    let prefix = prefix_in_lanes(word);
    for i in 16 * groups as u16 + 1..k as u16 + 1 {
        values.push(value_by_sixteens(prefix, word, i).0);
    }
    values
}

/// Gives what [`syndromes`] gives, for a short word, such as what a division leaves: all roots are taken in groups of
/// 16, and the values at those of the last group that are too many are left out. Root by root, each of the last ones
/// takes as long as a group, however short the word is.
pub(crate) fn syndromes_of_short(word: &[u8], k: usize) -> ArrayVec<u8, MOST_CHECKS>
    requires { k ≤ MOST_CHECKS }
    ensures values { result.items ≡ syndromes_of word.now k }
    ensures bytes { Bytes result.items }
{
    let mut values = ArrayVec::new();
    for group in 0..k.div_ceil(16) {
        let of_group = values_from_root(word, 16 * group + 1).to_array();
        let count = (k - 16 * group).min(16);
        let _room = values.try_extend_from_slice(&of_group[..count]);
    }
    values
}

/// Gives what [`syndromes`] gives, for a word of k numbers or more: those of what a division leaves, which is short,
/// or, where there are few of them for so long a word, those of the word itself.
pub(crate) fn first_syndromes(word: &[u8], k: usize) -> ArrayVec<u8, MOST_CHECKS>
    requires some { 0 < k }
    requires most { k ≤ MOST_CHECKS }
    requires whole { k ≤ length word.now }
    ensures { result.items ≡ syndromes_of word.now k }
{
    if 8 * k <= word.len() {
        return syndromes(word, k);
    }
    let rest = remainder(word, k);
    syndromes_of_short(&rest[..k], k)
}

/// Gives the first syndromes of a word, 16 for each group: the values at the 16 roots of a group are computed at once.
/// The most check codewords, 68, have 4 whole groups.
fn syndromes_in_groups(word: &[u8], groups: usize) -> ArrayVec<u8, MOST_CHECKS>
    requires { groups ≤ 4 }
    ensures { result.items ≡ syndromes_of word.now (16 * groups) }
{
    let mut values = ArrayVec::new();
    for group in 0..groups {
        let of_group = values_from_root(word, 16 * group + 1).to_array();
        let _room = values.try_extend_from_slice(&of_group);
    }
    values
}

/// Gives the values of a word at the 16 roots from 2 to the power `first` on, by Horner's rule with 32 codewords at a
/// time, after its first codewords, as many as parts of 32 leave. `first` is at most 65, where the fifth group of 16
/// begins, which has the last 4 of the most check codewords, 68.
fn values_from_root(word: &[u8], first: usize) -> Simd<u8, 16>
    requires { first ≤ 65 }
    ensures { result ≡ map (value word.now) (values_from power first 16) }
{
    let count = word.len() % 32;
    let part_power = power_row(32, first);
    let (mut values, _) = sums(&word[..count], first);
    for part in 0..word.len() / 32 {
        let start = count + 32 * part;
        let (of_part, _) = sums(&word[start..start + 32], first);
        values = lanes_mul(values, part_power) ^ of_part;
    }
    values
}

/// Puts the first codewords of a word, as many as are left by sixteens, into the last lanes; 0 stands in those before
/// them.
fn prefix_in_lanes(word: &[u8]) -> Simd<u8, 16>
    ensures { (x : ℕ) → value result x ≡ value (take (length word.now % 16) word.now) x }
{
    let count = word.len() % 16;
    let mut lanes = [0; 16];
    lanes[16 - count..].copy_from_slice(&word[..count]);
    u8x16::from_array(lanes)
}

/// Gives the value of a word at 2 to the power `exponent`, by Horner's rule with 16 codewords at a time: the lanes are
/// the coefficients of a polynomial with that value, at first those of [`prefix_in_lanes`].
fn value_by_sixteens(prefix: Simd<u8, 16>, word: &[u8], exponent: u16) -> Gf
    requires small { exponent ≤ MOST_CHECKS }
    requires prefix { (x : ℕ)
        → value prefix x ≡ value (take (length word.now % 16) word.now) x }
    ensures { result.0 ≡ value word.now (power exponent) }
{
    let step = Gf::power_of_two(16 * exponent).0;
    let count = word.len() % 16;
    let mut lanes = prefix;
    for part in 0..word.len() / 16 {
        lanes = scale(step, lanes) ^ u8x16::from_slice(&word[count + 16 * part..]);
    }
    value_at(&lanes.to_array(), Gf::power_of_two(exponent))
}
