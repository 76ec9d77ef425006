//! Polynomials of a block as lists of coefficients, and their values at sixteen elements at once.

ghost use Rattle.std.specs.Prelude.{◌≡◌, ◌-◌, ◌<◌, ◌≤◌, ℕ, suc, length, get_or, map};
ghost use Rattle.gf301.specs.Field.{◌⊗◌, raise, power};
ghost use Rattle.gf301.specs.Polynomial.{value, values_from, coefficient};
ghost use Rattle.dm_code.specs.KeyEquation.{IsBelow};
ghost use Rattle.dm_code.specs.KeyEquationLaws.{IsSamePolynomial};
ghost use Rattle.dm_code.specs.inner.OddTerms.{odd_part};

use crate::limits::{MOST_COEFFICIENTS, MOST_ERRORS};
use arrayvec::ArrayVec;
use gf301::{Gf, power_row, scale};
use std::simd::prelude::*;

/// Gives the list without the zeros at its end.
pub(crate) fn trim_zeros(list: &[u8]) -> &[u8]
    ensures same { IsSamePolynomial list.now result.now }
    ensures short { length result.now ≤ length list.now }
    ensures tight { (n : ℕ) → IsBelow n list.now → length result.now ≤ n }
{
    let mut size = 0;
    for (i, a) in list.iter().enumerate() {
        if *a != 0 {
            size = i + 1;
        }
    }
    &list[..size]
}

/// Gives the first `count` coefficients of a list, which are 0 past its end.
pub(crate) fn first_coefficients(list: &[u8], count: usize) -> ArrayVec<u8, MOST_ERRORS>
    requires { count ≤ MOST_ERRORS }
    ensures { result.items ≡ values_from (coefficient list.now) 0 count }
{
    let mut first = ArrayVec::new();
    for i in 0..count {
        first.push(coefficient_at(list, i).0);
    }
    first
}

/// Gives the coefficient at place `i`, which is 0 past the end of the list.
fn coefficient_at(list: &[u8], i: usize) -> Gf
    ensures { result.0 ≡ coefficient list.now i }
{
    match list.get(i) {
        Some(a) => Gf(*a),
        None => Gf(0),
    }
}

/// Gives the values of a polynomial, its highest power first, at the sixteen elements from 2 to the power `first` on,
/// and there the sums of its terms of odd powers. A turn takes a term of an even power and the next one. There are at
/// most [`MOST_COEFFICIENTS`] terms, and `first` is at most 240.
pub(crate) fn sums(terms: &[u8], first: usize) -> (Simd<u8, 16>, Simd<u8, 16>)
    requires few { length terms.now ≤ MOST_COEFFICIENTS }
    requires first { first ≤ 240 }
    ensures values { result.0 ≡ map (value terms.now) (values_from power first 16) }
    ensures odd { result.1 ≡ map (odd_part terms.now) (values_from power first 16) }
{
    let mut values = u8x16::splat(0);
    let mut odd = u8x16::splat(0);
    for pair in 0..terms.len() / 2 {
        let even_term = term_at(terms, 2 * pair, first);
        let odd_term = term_at(terms, 2 * pair + 1, first);
        values = values ^ even_term ^ odd_term;
        odd ^= odd_term;
    }
    if terms.len() % 2 == 0 {
        return (values, odd);
    }
    let highest = term_at(terms, terms.len() - 1, first);
    (values ^ highest, odd)
}

/// Gives the term of the power `after` of a polynomial, its highest power first, at the sixteen elements from 2 to the
/// power `first` on: its coefficient times their powers.
#[inline]
fn term_at(terms: &[u8], after: usize, first: usize) -> Simd<u8, 16>
    requires within { after < length terms.now }
    requires few { length terms.now ≤ MOST_COEFFICIENTS }
    requires first { first ≤ 240 }
    ensures { result ≡ map (λ x. get_or terms.now (length terms.now - suc after) 0 ⊗ x)
        (map (λ x. raise x after) (values_from power first 16)) }
{
    scale(terms[terms.len() - 1 - after], power_row(after, first))
}
