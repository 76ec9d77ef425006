//! The products of the locators of a search with the syndromes.

ghost use Rattle.std.specs.Prelude.{◌≡◌, ◌+◌, ◌^◌, ◌<◌, ◌≤◌, ℕ, IsTrue, length, not, take};
ghost use Rattle.gf301.specs.Field.{◌⊕◌, ◌⊗◌};
ghost use Rattle.gf301.specs.Polynomial.{coefficient};

use crate::quick::COEFFICIENTS_ROOM;
use gf301::{CHECKS_ROOM, Gf, MOST_CHECKS, Meter};

/// Room for the coefficients of a product that is moved up by up to [`COEFFICIENTS_ROOM`] places.
const PRODUCT_ROOM: usize = CHECKS_ROOM + COEFFICIENTS_ROOM;

/// The products of a search's two locators with the syndromes, of which as many coefficients count as there are
/// syndromes. Those of the locator are its discrepancies and, below its degree, its evaluator, so that none has to be
/// computed by itself: where a multiple of the earlier locator is added to the locator, so it is to the product.
#[derive(Drop)]
pub(crate) struct Products {
    /// The product of the locator.
    pub(crate) product: [u8; PRODUCT_ROOM],
    /// The product of the earlier locator, and zeros behind the coefficients that count.
    pub(crate) earlier: [u8; CHECKS_ROOM],
}

impl Products {
    /// Begins with the products of two locators that are 1.
    pub(crate) fn new(s: &[u8]) -> Products
        requires { length s.now ≤ MOST_CHECKS }
        ensures product { (i : ℕ) → coefficient result.product i ≡ coefficient s.now i }
        ensures earlier { (i : ℕ) → coefficient result.earlier i ≡ coefficient s.now i }
    {
        Products {
            product: padded(s),
            earlier: padded(s),
        }
    }

    /// Gives the coefficients of the locator's product below a degree.
    pub(crate) fn below(&self, degree: usize) -> &[u8]
        requires { degree ≤ PRODUCT_ROOM }
        ensures taken { result.now ≡ take degree self.now.product }
        ensures count { length result.now ≡ degree }
    {
        &self.product[..degree]
    }

    /// Adds `factor` times the earlier product, moved up by the gap, to the product, for its first `count`
    /// coefficients, behind which the earlier one has zeros: so many products, which the meter counts. Where the degree
    /// grows, the first `count` coefficients of what the product was before are the earlier one from now on.
    pub(crate) fn adjust(
        &mut self,
        factor: Gf,
        gap: usize,
        count: usize,
        grows: bool,
        meter: &mut Meter,
    )
        requires near { gap ≤ COEFFICIENTS_ROOM }
        requires few { count ≤ MOST_CHECKS }
        requires zeros { (i : ℕ) → count ≤ i → coefficient self.old.earlier i ≡ 0 }
        requires room { meter.old.products + count < 2 ^ 32 }
        ensures low { (i : ℕ) → i < gap
            → coefficient self.new.product i ≡ coefficient self.old.product i }
        ensures high { (i : ℕ) → i < count → coefficient self.new.product (gap + i)
            ≡ coefficient self.old.product (gap + i) ⊕ factor.0 ⊗ coefficient self.old.earlier i }
        ensures grown { IsTrue grows → (i : ℕ)
            → coefficient self.new.earlier i ≡ coefficient (take count self.old.product) i }
        ensures kept { IsTrue (not grows) → self.new.earlier ≡ self.old.earlier }
        ensures products { meter.new.products ≡ meter.old.products + count }
        ensures inversions { meter.new.inversions ≡ meter.old.inversions }
    {
        let next = if grows {
            padded(&self.product[..count])
        } else {
            self.earlier
        };
        let width = count.div_ceil(16) * 16;
        meter.add_scaled(
            &mut self.product[gap..gap + width],
            factor,
            &self.earlier,
            count as u32,
        );
        self.earlier = next;
    }
}

/// Puts zeros behind the numbers of a list, up to `N`.
fn padded<const N: usize>(list: &[u8]) -> [u8; N]
    requires { length list.now ≤ N }
    ensures { (i : ℕ) → coefficient result i ≡ coefficient list.now i }
{
    let mut room = [0; N];
    room[..list.len()].copy_from_slice(list);
    room
}
