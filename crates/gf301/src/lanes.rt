//! The field in lanes: sixteen elements in one vector, each operation at once in all of them.

ghost use Rattle.std.specs.Prelude.{◌≡◌, ◌+◌, ◌*◌, ◌≤◌, ◌<◌, ◌/◌, ◌%◌, ℕ, length, get_or, map};
ghost use Rattle.std.specs.List.{All};
ghost use Rattle.std.specs.Simd.Lanes.{zip2};
ghost use Rattle.gf301.specs.Field.{◌⊕◌, ◌⊗◌, raise, power};
ghost use Rattle.gf301.specs.Polynomial.{values_from};

use crate::field::{Gf, POWERS};
use crate::generators::MOST_CHECKS;
use crate::power_rows::POWER_ROWS;
use crate::product_rows::{HIGH, LOW};
use std::simd::prelude::*;

/// Gives the sixteen powers of 2 with exponents of `first` to `first` + 15, in this order, for any `first`. With the
/// exponent 1 [`power_row`] gives the same from a table, where `first` is at most 240.
pub fn powers(first: u16) -> [u8; 16]
    ensures { result ≡ values_from power first 16 }
{
    scale(Gf::power_of_two(first).0, u8x16::from_slice(&POWERS)).to_array()
}

/// Multiplies the two elements in each lane. It takes no table: `a` is doubled over and over, and the bits of `b`, from
/// the lowest on, tell which of its multiples are added.
#[inline]
pub fn lanes_mul(a: Simd<u8, 16>, b: Simd<u8, 16>) -> Simd<u8, 16>
    ensures { result ≡ zip2 (λ x y. x ⊗ y) a b }
{
    let zero = u8x16::splat(0);
    let mut sum = zero;
    let mut multiple = a;
    let mut bits = b;
    for _turn in 0..8u8 {
        let is_odd = (bits & u8x16::splat(1)).simd_ne(zero);
        sum ^= is_odd.select(multiple, zero);
        multiple = double(multiple);
        bits = bits >> u8x16::splat(1);
    }
    sum
}

/// Multiplies each lane by 2: its bits move up by one, and where the highest was 1 the field's polynomial 301 is taken
/// away, of which 45 lies in the lane.
#[inline]
fn double(a: Simd<u8, 16>) -> Simd<u8, 16>
    ensures { result ≡ map (λ x. 2 ⊗ x) a }
{
    let carries = a.simd_ge(u8x16::splat(128));
    (a + a) ^ carries.select(u8x16::splat(45), u8x16::splat(0))
}

/// Multiplies each lane by `c`: the product is the sum of the products of `c` with the low and the high four bits
/// there, which are looked up.
#[inline]
pub fn scale(c: u8, v: Simd<u8, 16>) -> Simd<u8, 16>
    ensures { result ≡ map (λ x. c ⊗ x) v }
{
    let row = 16 * usize::from(c);
    let low = by_table(u8x16::from_slice(&LOW[row..]), v & u8x16::splat(15));
    let high = by_table(u8x16::from_slice(&HIGH[row..]), v >> u8x16::splat(4));
    low ^ high
}

/// Looks up in each lane the number of the table at the place that stands in this lane, which is below 16.
#[inline]
fn by_table(table: Simd<u8, 16>, places: Simd<u8, 16>) -> Simd<u8, 16>
    requires { All (λ i. i < 16) places }
    ensures { result ≡ map (λ i. get_or table i 0) places }
{
    table.swizzle_dyn(places)
}

/// Gives the sixteen powers of 2 with exponents of `first` to `first` + 15, each to the power e, which is at most half
/// of [`MOST_CHECKS`]. `first` is at most 240, since a row of the table has 256 numbers.
#[inline]
pub fn power_row(e: usize, first: usize) -> Simd<u8, 16>
    requires exponent { e ≤ MOST_CHECKS / 2 }
    requires first { first ≤ 240 }
    ensures { result ≡ map (λ x. raise x e) (values_from power first 16) }
{
    u8x16::from_slice(&POWER_ROWS[e][first..])
}

/// The sixteen numbers from the place 8 - n on, n of at most 8, say for each lane from which lane it is filled when all
/// lanes move up by n. The lowest n lanes are filled from the last one.
static BACK: [u8; 24] = [
    15, 15, 15, 15, 15, 15, 15, 15, 0, 1, 2, 3, 4, 5, 6, 7, 8, 9, 10, 11, 12, 13, 14, 15,
];

/// Gives the sixteen powers of an element with exponents of 0 to 15, in this order. The first 1, 2, 4 and 8 powers give
/// as many more, by products with the next power.
#[inline]
pub fn powers_of(x: Gf) -> Simd<u8, 16>
    ensures { result ≡ values_from (raise x.0) 0 16 }
{
    let second = x.mul(x);
    let fourth = second.mul(second);
    let eighth = fourth.mul(fourth);
    let one = u8x16::from_array([1, 0, 0, 0, 0, 0, 0, 0, 0, 0, 0, 0, 0, 0, 0, 0]);
    let two = append_scaled(one, 1, x);
    let four = append_scaled(two, 2, second);
    let eight = append_scaled(four, 4, fourth);
    append_scaled(eight, 8, eighth)
}

/// Puts the products of the first `count` lanes with `c` behind them. `count` is at most 8, and the lanes from there on
/// are 0.
#[inline]
fn append_scaled(lanes: Simd<u8, 16>, count: usize, c: Gf) -> Simd<u8, 16>
    requires few { count ≤ 8 }
    requires free { (i : ℕ) → count ≤ i → get_or lanes i 0 ≡ 0 }
    ensures first { (i : ℕ) → i < count → get_or result i 0 ≡ get_or lanes i 0 }
    ensures scaled { (i : ℕ) → i < count
        → get_or result (count + i) 0 ≡ c.0 ⊗ get_or lanes i 0 }
    ensures free { (i : ℕ) → 2 * count ≤ i → get_or result i 0 ≡ 0 }
{
    let moved = by_table(lanes, u8x16::from_slice(&BACK[8 - count..]));
    lanes ^ scale(c.0, moved)
}

/// Adds to the numbers of a list the products of `c` with those of another, sixteen at a time. The list's length is a
/// multiple of 16, and the other is as long or longer.
#[inline]
pub fn add_scaled(sum: &mut [u8], c: u8, list: &[u8])
    requires enough { length sum.old ≤ length list.now }
    requires lanes { length sum.old % 16 ≡ 0 }
    ensures long { length sum.new ≡ length sum.old }
    ensures each { (i : ℕ) → i < length sum.old
        → get_or sum.new i 0 ≡ get_or sum.old i 0 ⊕ c ⊗ get_or list.now i 0 }
{
    for group in 0..sum.len() / 16 {
        let at = 16 * group;
        let more = scale(c, u8x16::from_slice(&list[at..]));
        let next = u8x16::from_slice(&sum[at..]) ^ more;
        next.copy_to_slice(&mut sum[at..]);
    }
}
