//! The key equation by elimination.

ghost use Rattle.std.specs.Prelude.{◌≡◌, ◌+◌, ◌-◌, ◌*◌, ◌<◌, ◌≤◌, ℕ, length, IfNone, IfSome};
ghost use Rattle.gf301.specs.Polynomial.{Bytes, coefficient, convolution};
ghost use Rattle.arrayvec.specs.ArrayVec.{array_vec_len};
ghost use Rattle.dm_code.specs.KeyEquation.{IsLeastPair, NoPair};
ghost use Rattle.dm_code.specs.inner.LinearSystem.{row};

use crate::key::{Key, KeySolver};
use crate::limits::{MOST_COEFFICIENTS, MOST_ERRORS};
use crate::system::{Row, solve};
use arrayvec::ArrayVec;
use gf301::{MOST_CHECKS, product_at};

/// Solves the key equation by elimination. For each degree of the locator, from 0 on, its coefficients are the unknowns
/// of a system of linear equations; the first system with a solution gives the least pair. The work grows with the
/// fourth power of the number of syndromes at the most.
#[derive(Clone, Copy, Debug, PartialEq, Eq)]
pub struct Elimination;

impl KeySolver for Elimination {
    fn solve(&self, s: &[u8], t: usize) -> Option<Key> {
        least_key(s, t)
    }
}

/// Gives the pair of the first degree up to `t` whose equations have a solution, and None where no degree's have one.
// (A function of its own, since wrong bodies of it are tried beside it, where those of a trait's method can't stand.)
fn least_key(s: &[u8], t: usize) -> Option<Key>
    requires few { length s.now ≤ MOST_CHECKS }
    requires half { 2 * t ≤ length s.now }
    ensures least { IfSome result
        (λ key. IsLeastPair s.now t key.locator.items key.evaluator.items) }
    ensures none { IfNone result (NoPair s.now t) }
{
    for degree in 0..t + 1 {
        let rows = rows_of(s, degree);
        if let Some(solution) = solve(&rows, MOST_ERRORS - degree) {
            return Some(key_of(s, &solution, degree));
        }
    }
    None
}

/// Gives the equations for a locator of a degree of at most `degree`: at each place from `degree` on, the product of
/// the locator and the syndromes has the coefficient 0.
fn rows_of(s: &[u8], degree: usize) -> ArrayVec<Row, MOST_CHECKS>
    requires small { degree ≤ MOST_ERRORS }
    requires few { length s.now ≤ MOST_CHECKS }
    requires within { degree ≤ length s.now }
    ensures long { array_vec_len result + degree ≡ length s.now }
    ensures each { (i : ℕ) → i + degree < length s.now → (m : ℕ) → m ≤ degree
        → row result.items i (MOST_ERRORS - degree + m) ≡ coefficient s.now (i + m) }
{
    let mut rows = ArrayVec::new();
    for i in 0..s.len() - degree {
        rows.push(row_of(s, degree, i));
    }
    rows
}

/// Gives the equation of the place `i + degree`. Its unknowns are the coefficients of the locator, that of x^0 last.
fn row_of(s: &[u8], degree: usize, i: usize) -> Row
    requires small { degree ≤ MOST_ERRORS }
    requires within { i + degree < length s.now }
    ensures { (m : ℕ) → m ≤ degree
        → coefficient result (MOST_ERRORS - degree + m) ≡ coefficient s.now (i + m) }
{
    let mut row = [0; MOST_COEFFICIENTS];
    for m in 0..degree + 1 {
        row[MOST_ERRORS - degree + m] = s[i + m];
    }
    row
}

/// Gives the pair of the locator that solves the equations: its coefficients are the solution's from the last one back.
fn key_of(s: &[u8], solution: &Row, degree: usize) -> Key
    requires small { degree ≤ MOST_ERRORS }
    requires within { degree ≤ length s.now }
    ensures locator_long { array_vec_len result.locator ≡ degree + 1 }
    ensures locator { (i : ℕ) → i ≤ degree
        → coefficient result.locator.items i ≡ coefficient solution.now (MOST_ERRORS - i) }
    ensures locator_bytes { Bytes result.locator.items }
    ensures evaluator_long { array_vec_len result.evaluator ≡ degree }
    ensures evaluator { (i : ℕ) → i < degree
        → coefficient result.evaluator.items i
        ≡ convolution (coefficient result.locator.items) (coefficient s.now) i }
    ensures evaluator_bytes { Bytes result.evaluator.items }
{
    let mut locator: ArrayVec<u8, MOST_COEFFICIENTS> = ArrayVec::new();
    for i in 0..degree + 1 {
        locator.push(solution[MOST_ERRORS - i]);
    }
    let evaluator = evaluator_of(s, &locator, degree);
    Key { locator, evaluator }
}

/// Gives the first `count` coefficients of the product of the locator and the syndromes.
fn evaluator_of(s: &[u8], locator: &[u8], count: usize) -> ArrayVec<u8, MOST_ERRORS>
    requires small { count ≤ MOST_ERRORS }
    requires within { count ≤ length s.now }
    ensures long { array_vec_len result ≡ count }
    ensures each { (i : ℕ) → i < count
        → coefficient result.items i
        ≡ convolution (coefficient locator.now) (coefficient s.now) i }
{
    let mut evaluator: ArrayVec<u8, MOST_ERRORS> = ArrayVec::new();
    for i in 0..count {
        evaluator.push(product_at(locator, s, i).0);
    }
    evaluator
}
