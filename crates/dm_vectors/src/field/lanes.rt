//! Tests of the field in lanes.

use crate::claims::holds;
use gf301::{add_scaled, lanes_mul, power_row, powers, scale};
use std::simd::prelude::*;

/// Factors, and their products.
static PRODUCTS: [(u8, u8, u8); 4] = [(66, 62, 122), (251, 111, 20), (0, 7, 0), (255, 1, 255)];

#[test]
fn products_of_sixteen_lanes(rt: HostRuntime) {
    for (a, b, product) in &PRODUCTS {
        let products = lanes_mul(u8x16::splat(*a), u8x16::splat(*b));
        holds(&rt, products.to_array() == [*product; 16]);
    }
}

/// The powers of 2 from the exponents 0 and 255 on.
static FIRST: [u8; 16] = [
    1, 2, 4, 8, 16, 32, 64, 128, 45, 90, 180, 69, 138, 57, 114, 228,
];

/// 2^i times 2^(100 + i): another product in each lane.
static MIXED: [u8; 16] = [
    106, 133, 78, 21, 84, 125, 217, 19, 76, 29, 116, 253, 131, 86, 117, 249,
];

#[test]
fn powers_of_sixteen_lanes(rt: HostRuntime) {
    holds(&rt, powers(0) == FIRST);
    holds(&rt, powers(255) == FIRST);
    let products = lanes_mul(u8x16::from_array(FIRST), u8x16::from_array(powers(100)));
    holds(&rt, products.to_array() == MIXED);
}

/// Whether sixteen lanes of a factor become this product.
fn is_scaled(a: u8, b: u8, product: u8) -> bool {
    scale(a, u8x16::splat(b)).to_array() == [product; 16]
}

#[test]
fn multiples_of_sixteen_lanes_and_of_lists(rt: HostRuntime) {
    holds(&rt, is_scaled(66, 62, 122) && is_scaled(251, 111, 20));
    holds(&rt, scale(2, power_row(1, 0)).to_array() == powers(1));
    let mut sum = [1; 32];
    add_scaled(&mut sum, 66, &[62; 40]);
    holds(&rt, sum == [1 ^ 122; 32]);
}
