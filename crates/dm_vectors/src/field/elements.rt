//! Tests of the field.

use crate::claims::holds;
use gf301::Gf;

/// Exponents, and the powers of 2.
static POWERS: [(u16, u8); 9] = [
    (0, 1),
    (1, 2),
    (8, 45),
    (15, 228),
    (28, 23),
    (254, 150),
    (255, 1),
    (510, 1),
    (65535, 1),
];

#[test]
fn powers_of_two(rt: HostRuntime) {
    for (e, power) in &POWERS {
        holds(&rt, Gf::power_of_two(*e).0 == *power);
    }
}

/// Factors, and their products.
static PRODUCTS: [(u8, u8, u8); 6] = [
    (66, 62, 122),
    (251, 111, 20),
    (150, 2, 1),
    (0, 7, 0),
    (7, 0, 0),
    (1, 9, 9),
];

#[test]
fn sums_and_products(rt: HostRuntime) {
    for (a, b, product) in &PRODUCTS {
        holds(&rt, Gf(*a).mul(Gf(*b)).0 == *product);
    }
    holds(&rt, Gf(66).add(Gf(62)) == Gf(124));
}

/// Whether an element has this inverse.
fn has_inverse(a: u8, inverse: u8) -> bool {
    a != 0 && Gf(a).inverse() == Gf(inverse)
}

/// Whether an element has this logarithm.
fn has_log(a: u8, log: u8) -> bool {
    a != 0 && Gf(a).log() == log
}

#[test]
fn inverses_and_logarithms(rt: HostRuntime) {
    let high = Gf::power_of_two(227).0;
    holds(
        &rt,
        has_inverse(1, 1) && has_inverse(2, 150) && has_inverse(23, high),
    );
    holds(&rt, has_log(1, 0) && has_log(45, 8) && has_log(150, 254));
}
