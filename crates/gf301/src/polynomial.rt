//! Polynomials over the field: lists of coefficients, the highest power first. Zeros at the head are allowed.

ghost use Rattle.std.specs.Prelude.{◌≡◌, ◌+◌, ◌<◌, ◌≤◌, length};
ghost use Rattle.gf301.specs.Polynomial.{value, coefficient, convolution, times};

use crate::field::Gf;
use arrayvec::ArrayVec;

/// A polynomial of at most 256 coefficients, the highest power first.
pub type Poly = ArrayVec<u8, 256>;

/// Gives the value of the polynomial `p` at the element `at`. The value of the empty list is 0.
pub fn value_at(p: &[u8], at: Gf) -> Gf
    ensures { result.0 ≡ value p.now at.0 }
{
    let mut sum = Gf(0);
    for c in p {
        sum = sum.mul(at).add(Gf(*c));
    }
    sum
}

/// Multiplies two polynomials that aren't empty, of n and m coefficients; the product has n + m - 1 coefficients, of
/// which there is room for 256.
pub fn times(p: &[u8], q: &[u8]) -> Poly
    requires left_filled { 0 < length p.now }
    requires right_filled { 0 < length q.now }
    requires fits { length p.now + length q.now ≤ 257 }
    ensures { result.items ≡ times p.now q.now }
{
    let mut product: Poly = ArrayVec::new();
    for place in 0..p.len() + q.len() - 1 {
        product.push(product_at(p, q, place).0);
    }
    product
}

/// Gives the coefficient of the product of two lists at this place, counted from 0: the sum of the products of the
/// coefficients whose places add up to it.
pub fn product_at(p: &[u8], q: &[u8], place: usize) -> Gf
    ensures { result.0 ≡ convolution (coefficient p.now) (coefficient q.now) place }
{
    let mut sum = Gf(0);
    for (i, a) in p.iter().enumerate() {
        if i <= place && place - i < q.len() {
            sum = sum.add(Gf(*a).mul(Gf(q[place - i])));
        }
    }
    sum
}
