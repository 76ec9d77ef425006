//! Systems of linear equations over the field.

ghost use Rattle.std.specs.Prelude.{◌≡◌, ◌+◌, ◌-◌, ◌<◌, ◌≤◌, ℕ, length, IfNone, IfSome, MatchOption};
ghost use Rattle.gf301.specs.Field.{◌⊕◌, ◌⊗◌};
ghost use Rattle.gf301.specs.Polynomial.{coefficient};
ghost use Rattle.dm_code.specs.inner.LinearSystem.{dot, row, Solves, Unsolvable};

use crate::limits::{MOST_COEFFICIENTS, MOST_ERRORS};
use arrayvec::ArrayVec;
use gf301::{Gf, MOST_CHECKS};

/// An equation, a coefficient for each unknown: the sum of the products of coefficients and unknowns is 0. The last
/// unknown is 1.
pub(crate) type Row = [u8; MOST_COEFFICIENTS];

/// Gives a solution of the rows in the unknowns from the place `first` on, and None where they have none.
pub(crate) fn solve(rows: &[Row], first: usize) -> Option<Row>
    requires within { first ≤ MOST_ERRORS }
    requires few { length rows.now ≤ MOST_CHECKS }
    ensures solution { IfSome result
        (λ v. Solves rows.now first (MOST_ERRORS - first) (coefficient v)) }
    ensures none { IfNone result (Unsolvable rows.now first (MOST_ERRORS - first)) }
{
    if first == MOST_ERRORS {
        return last_unknown(rows);
    }
    match pivot(rows, first) {
        None => solve(rows, first + 1),
        Some(p) => {
            let inverse = Gf(rows[p][first]).inverse();
            let less = without(rows, p, inverse, first);
            let mut solution = solve(&less, first + 1)?;
            solution[first] = inverse.mul(dot_from(&rows[p], &solution, first + 1)).0;
            Some(solution)
        }
    }
}

/// Gives the solution of the rows in the last unknown alone, which is 1 where no row has it.
fn last_unknown(rows: &[Row]) -> Option<Row>
    ensures solution { IfSome result (λ v. Solves rows.now MOST_ERRORS 0 (coefficient v)) }
    ensures none { IfNone result (Unsolvable rows.now MOST_ERRORS 0) }
{
    match pivot(rows, MOST_ERRORS) {
        Some(_) => None,
        None => {
            let mut solution = [0; MOST_COEFFICIENTS];
            solution[MOST_ERRORS] = 1;
            Some(solution)
        }
    }
}

/// Gives the place of a row in which the coefficient of this unknown isn't 0, and None where there is none.
fn pivot(rows: &[Row], unknown: usize) -> Option<usize>
    requires { unknown < MOST_COEFFICIENTS }
    ensures { MatchOption result
        ((k : ℕ) → k < length rows.now → row rows.now k unknown ≡ 0)
        (λ p. (p < length rows.now)
        × (0 < row rows.now p unknown) × (row rows.now p unknown < 256)) }
{
    for k in 0..rows.len() {
        let head = rows[k][unknown];
        if head != 0 {
            return Some(k);
        }
    }
    None
}

/// Gives the rows less multiples of the pivot row `p`, so that this unknown is left in none of them. `inverse` is the
/// inverse of its coefficient in the pivot row.
fn without(rows: &[Row], p: usize, inverse: Gf, unknown: usize) -> ArrayVec<Row, MOST_CHECKS>
    requires within { unknown < MOST_COEFFICIENTS }
    requires few { length rows.now ≤ MOST_CHECKS }
    requires of_row { p < length rows.now }
    ensures long { length result.items ≡ length rows.now }
    ensures each { (k : ℕ) → k < length rows.now → (j : ℕ)
        → row result.items k j
        ≡ row rows.now k j ⊕ (row rows.now k unknown ⊗ inverse.0) ⊗ row rows.now p j }
{
    let mut less = ArrayVec::new();
    for k in 0..rows.len() {
        less.push(with_multiple(&rows[k], Gf(rows[k][unknown]).mul(inverse), &rows[p]));
    }
    less
}

/// Gives `f` plus `x` times `g`.
fn with_multiple(f: &Row, x: Gf, g: &Row) -> Row
    ensures { (j : ℕ)
        → coefficient result j ≡ coefficient f.now j ⊕ x.0 ⊗ coefficient g.now j }
{
    let mut sum = *f;
    for j in 0..MOST_COEFFICIENTS {
        sum[j] = Gf(f[j]).add(x.mul(Gf(g[j]))).0;
    }
    sum
}

/// Gives the sum of the products of the two rows, place by place, from the place `first` on.
fn dot_from(f: &Row, v: &Row, first: usize) -> Gf
    requires { first ≤ MOST_COEFFICIENTS }
    ensures { result.0
        ≡ dot (coefficient f.now) (coefficient v.now) first (MOST_COEFFICIENTS - first) }
{
    let mut sum = Gf(0);
    for j in (first..MOST_COEFFICIENTS).rev() {
        sum = Gf(f[j]).mul(Gf(v[j])).add(sum);
    }
    sum
}
