//! Tests of the meter.

use crate::claims::holds;
use gf301::{Gf, Meter};

/// Whether a meter that has counted so many makes these products and this inverse, and counts up to its end.
fn counts_to_its_end() -> bool {
    let mut meter = Meter {
        products: 4_294_967_293,
        inversions: 4_294_967_294,
    };
    meter.mul(Gf(66), Gf(62)).0 == 122
        && meter.mul(Gf(0), Gf(7)).0 == 0
        && meter.inverse(Gf(2)).0 == 150
        && meter.products == u32::MAX
        && meter.inversions == u32::MAX
}

#[test]
fn products_and_inversions_are_counted(rt: HostRuntime) {
    let fresh = Meter::default();
    holds(&rt, counts_to_its_end());
    holds(&rt, fresh.products == 0 && fresh.inversions == 0);
}
