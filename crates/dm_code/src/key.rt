//! The key equation of a block, and what solves it.

ghost use Rattle.std.specs.Prelude.{◌*◌, ◌≤◌, length, IfNone, IfSome};
ghost use Rattle.dm_code.specs.KeyEquation.{IsLeastPair, NoPair};

use crate::limits::{MOST_COEFFICIENTS, MOST_ERRORS};
use arrayvec::ArrayVec;
use gf301::MOST_CHECKS;

/// A pair of polynomials, both with the lowest power first. Zeros at the end of a list don't matter to what it means;
/// `==` compares the lists as they are.
#[derive(Clone, Debug, PartialEq, Eq, Drop)]
pub struct Key {
    /// The error locator, of a degree of at most [`MOST_ERRORS`]. In a pair that a [`KeySolver`] gives, its coefficient
    /// of x^0 is 1.
    pub locator: ArrayVec<u8, MOST_COEFFICIENTS>,
    /// The error evaluator, of a degree below [`MOST_ERRORS`].
    pub evaluator: ArrayVec<u8, MOST_ERRORS>,
}

/// A way to solve the key equation of Reed-Solomon decoding.
///
/// The pair (L, W) solves it for the syndromes S, taken as coefficients with the lowest power first, where L(0) is 1,
/// the degree of L is at most t, that of W below t, and L S - W a multiple of x^k, k being the number of syndromes. The
/// least pair is the one in which the larger of deg L and deg W + 1 is least. By [`crate::laws`] there is a least pair
/// where there is a pair at all; where 2 t is at most k, its two polynomials are determined, and every pair is a
/// multiple of it.
pub trait KeySolver {
    /// Gives the least pair for the syndromes `s` and the limit `t`, and None where there is no pair at all. There are
    /// at most [`MOST_CHECKS`] syndromes, and 2 t is at most their number.
    fn solve(&self, s: &[u8], t: usize) -> Option<Key>
        requires few { length s.now ≤ MOST_CHECKS }
        requires half { 2 * t ≤ length s.now }
        ensures least { IfSome result
            (λ key. IsLeastPair s.now t key.locator.items key.evaluator.items) }
        ensures none { IfNone result (NoPair s.now t) };
}
