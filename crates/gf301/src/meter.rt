//! Operations of the field that are counted.

ghost use Rattle.std.specs.Prelude.{◌≡◌, ◌+◌, ◌-◌, ◌^◌, ◌%◌, ◌<◌, ◌≤◌, ℕ, length, get_or};
ghost use Rattle.gf301.specs.Field.{◌⊕◌, ◌⊗◌};

use crate::field::Gf;
use crate::lanes::add_scaled;

/// Counts products and inversions: those that are made through it, and products in lanes that a caller adds.
#[derive(Clone, Copy, Debug, Default, PartialEq, Eq)]
pub struct Meter {
    /// The number of products: those of [`Meter::mul`] and [`Meter::add_scaled`], and those that a caller adds.
    pub products: u32,
    /// The number of inversions, which are those of [`Meter::inverse`].
    pub inversions: u32,
}

impl Meter {
    /// Multiplies two elements, which counts as a product; fewer than `u32::MAX` have been counted before.
    pub fn mul(&mut self, a: Gf, b: Gf) -> Gf
        requires { self.old.products < 2 ^ 32 - 1 }
        ensures product { result.0 ≡ a.0 ⊗ b.0 }
        ensures counted { self.new.products ≡ self.old.products + 1 }
        ensures kept { self.new.inversions ≡ self.old.inversions }
    {
        self.products += 1;
        a.mul(b)
    }

    /// Gives the element whose product with `a` is 1; 0 has none. This counts as an inversion; fewer than `u32::MAX`
    /// have been counted before.
    pub fn inverse(&mut self, a: Gf) -> Gf
        requires some { 0 < a.0 }
        requires room { self.old.inversions < 2 ^ 32 - 1 }
        ensures product { a.0 ⊗ result.0 ≡ 1 }
        ensures only { (b : ℕ) → b < 256 → a.0 ⊗ b ≡ 1 → b ≡ result.0 }
        ensures counted { self.new.inversions ≡ self.old.inversions + 1 }
        ensures kept { self.new.products ≡ self.old.products }
    {
        self.inversions += 1;
        a.inverse()
    }

    /// Does what [`add_scaled`] does, which counts as `count` products: at least as many as the other list has numbers
    /// before the zeros at its end. There is room for as many in `u32`.
    #[inline]
    pub fn add_scaled(&mut self, sum: &mut [u8], c: Gf, list: &[u8], count: u32)
        requires enough { length sum.old ≤ length list.now }
        requires lanes { length sum.old % 16 ≡ 0 }
        requires zeros { (i : ℕ) → count ≤ i → get_or list.now i 0 ≡ 0 }
        requires room { self.old.products + count < 2 ^ 32 }
        ensures long { length sum.new ≡ length sum.old }
        ensures each { (i : ℕ) → i < length sum.old
            → get_or sum.new i 0 ≡ get_or sum.old i 0 ⊕ c.0 ⊗ get_or list.now i 0 }
        ensures counted { self.new.products ≡ self.old.products + count }
        ensures kept { self.new.inversions ≡ self.old.inversions }
    {
        self.products += count;
        add_scaled(sum, c.0, list);
    }
}
