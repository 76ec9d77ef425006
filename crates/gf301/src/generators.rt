//! The generator polynomials of the Reed-Solomon codes of ISO/IEC 16022, ECC 200.

ghost use Rattle.std.specs.Prelude.{◌≡◌, ◌≤◌, ◌<◌, ℕ, suc, get_or};
ghost use Rattle.gf301.specs.Generator.{generator};
ghost use Rattle.gf301.specs.Polynomial.{coefficient};

use crate::field::Gf;
use crate::polynomial::{Poly, times};
use crate::tap_rows::TAP_ROWS;

/// The most check codewords of a block of any size; the squares of sides 48, 96 and 120 have as many.
pub const MOST_CHECKS: usize = 68;

/// Room for the most check codewords, or as many other numbers, in whole groups of sixteen.
pub const CHECKS_ROOM: usize = (MOST_CHECKS + 15) / 16 * 16;

/// Gives the generator polynomial for k check codewords, k of 1 to [`MOST_CHECKS`]: (x - 2^1) (x - 2^2) .. (x - 2^k),
/// with k + 1 coefficients, of which the first is 1.
pub fn generator(k: usize) -> Poly
    requires some { 1 ≤ k }
    requires most { k ≤ MOST_CHECKS }
    ensures { result.items ≡ generator k }
{
    let mut product = Poly::new();
    product.push(1);
    for i in 1..k as u16 + 1 {
        product = times(&[1, Gf::power_of_two(i).0], &product);
    }
    product
}

/// Gives the coefficients of the generator for k check codewords after the first, k of at most [`MOST_CHECKS`], and
/// then zeros up to [`CHECKS_ROOM`] numbers.
#[inline]
pub fn taps(k: usize) -> &'static [u8; CHECKS_ROOM]
    requires { k ≤ MOST_CHECKS }
    ensures { (i : ℕ) → i < CHECKS_ROOM → get_or result.now i 0 ≡ coefficient (generator k) (suc i) }
{
    &TAP_ROWS[k]
}
