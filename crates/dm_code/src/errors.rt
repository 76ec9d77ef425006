//! The values of errors, and what they add to the syndromes.
//!
//! The locator of a place is 2 to the power of the number of places after it. The roots of the error locator, whose
//! list has the lowest power first, are the inverses of the wrong places' locators. Read with the highest power first,
//! the list is a polynomial whose roots are these locators themselves; so it is read here, and the list of the error
//! evaluator too.

ghost use Rattle.std.specs.Prelude.{◌≡◌, ◌*◌, ◌<◌, ◌≤◌, ℕ, suc, length, get_or};
ghost use Rattle.gf301.specs.Field.{◌⊕◌, ◌⊗◌, raise};

use gf301::{Gf, powers_of, scale};
use std::simd::prelude::*;

/// Gives the value of the error at a place, from two values at the place's locator: the numerator is that of the error
/// evaluator, and the divisor is the sum of the error locator's terms of odd powers, which is the place's locator times
/// the value of the error locator without its root there. Where this root is a double one, the divisor is 0, and 0 is
/// given.
pub(crate) fn error_value(numerator: Gf, divisor: Gf) -> Gf
    ensures byte { result.0 < 256 }
    ensures value { 0 < divisor.0 → divisor.0 ⊗ result.0 ≡ numerator.0 }
    ensures double { divisor.0 ≡ 0 → result.0 ≡ 0 }
{
    if divisor.0 == 0 {
        return Gf(0);
    }
    numerator.mul(divisor.inverse())
}

/// Adds to the syndromes, so many groups of sixteen, what an error of a value at the place with the locator `at` adds
/// to each of them: the value times a power of the locator. Sixteen powers give the next sixteen by products with the
/// last of them.
pub(crate) fn add_error(syndromes: &mut [u8], groups: usize, value: Gf, at: Gf)
    requires { 16 * groups ≤ length syndromes.old }
    ensures long { length syndromes.new ≡ length syndromes.old }
    ensures each { (i : ℕ) → i < 16 * groups
        → get_or syndromes.new i 0
        ≡ get_or syndromes.old i 0 ⊕ value.0 ⊗ raise at.0 (suc i) }
{
    let powers = powers_of(at);
    let sixteenth = Gf(powers.to_array()[15]).mul(at);
    let mut terms = scale(value.mul(at).0, powers);
    for group in 0..groups {
        let place = 16 * group;
        let next = u8x16::from_slice(&syndromes[place..]) ^ terms;
        next.copy_to_slice(&mut syndromes[place..]);
        terms = scale(sixteenth.0, terms);
    }
}
