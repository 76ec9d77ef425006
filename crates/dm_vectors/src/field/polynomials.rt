//! Tests of polynomials.

use crate::claims::holds;
use gf301::{Gf, times, value_at};

#[test]
fn values_of_polynomials(rt: HostRuntime) {
    holds(&rt, value_at(&[], Gf(7)) == Gf(0));
    holds(
        &rt,
        value_at(&[1, 0, 0, 0, 0, 0, 0, 0, 3], Gf(2)) == Gf(45 ^ 3),
    );
}

/// Whether the product of two polynomials that are not empty is this.
fn is_product(p: &[u8], q: &[u8], product: &[u8]) -> bool {
    if p.is_empty() || q.is_empty() || p.len() > 128 || q.len() > 128 {
        return false;
    }
    times(p, q).as_slice() == product
}

#[test]
fn products_of_polynomials(rt: HostRuntime) {
    holds(&rt, is_product(&[1, 2], &[1, 4], &[1, 6, 8]));
    holds(&rt, is_product(&[0, 1], &[5], &[0, 5]));
}
