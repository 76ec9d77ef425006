//! Tests of the generator polynomials.

use crate::calls::generator_of;
use crate::claims::holds;
use gf301::{Gf, taps};

/// Whether the generator polynomial for k check codewords begins with these coefficients.
fn begins(k: usize, first: &[u8]) -> bool {
    generator_of(k).starts_with(first)
}

/// Whether the generator polynomial for k check codewords ends with this coefficient.
fn ends(k: usize, last: u8) -> bool {
    generator_of(k).last().copied() == Some(last)
}

#[test]
fn generators_of_five_and_seven(rt: HostRuntime) {
    holds(
        &rt,
        begins(5, &[1, 62, 111, 15, 48, 228]) && generator_of(5).len() == 6,
    );
    holds(&rt, begins(7, &[1, 254]) && ends(7, 23));
}

#[test]
fn last_coefficients_of_generators(rt: HostRuntime) {
    for k in 1..69 {
        let last = Gf::power_of_two(k * (k + 1) / 2).0;
        holds(&rt, ends(usize::from(k), last));
    }
}

#[test]
fn coefficients_after_the_first(rt: HostRuntime) {
    holds(&rt, taps(5)[..6] == [62, 111, 15, 48, 228, 0]);
}
