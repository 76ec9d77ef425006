//! The key equation by the algorithm of Berlekamp and Massey.

ghost use Rattle.std.specs.Prelude.{◌≡◌, ◌+◌, ◌-◌, ◌*◌, ◌^◌, ◌<◌, ◌≤◌, ℕ, length, take, min, IfNone, IfSome};
ghost use Rattle.gf301.specs.Field.{◌⊕◌, ◌⊗◌};
ghost use Rattle.gf301.specs.Polynomial.{Bytes, coefficient, convolution};
ghost use Rattle.dm_code.specs.KeyEquation.{IsLeastPair, IsExact, NoPair};
ghost use Rattle.dm_code.specs.inner.Backwards.{IsBackwards};
ghost use Rattle.dm_code.specs.inner.LinearSystem.{dot};
ghost use Rattle.dm_code.specs.inner.Ones.{IsOne};

use crate::correction::copy_of;
use crate::key::{Key, KeySolver};
use crate::limits::{MOST_COEFFICIENTS, MOST_ERRORS};
use crate::products::Products;
use arrayvec::ArrayVec;
use gf301::{Gf, MOST_CHECKS, Meter, lanes_mul};
use std::simd::prelude::*;

/// Solves the key equation by the algorithm of Berlekamp and Massey. The syndromes are taken one after the other, and
/// the locator is corrected where its product with them has a coefficient that a pair of its degree can't have. The
/// work grows with the square of the number of syndromes.
#[derive(Clone, Copy, Debug, PartialEq, Eq)]
pub struct Quick;

impl Quick {
    /// Gives what [`KeySolver::solve`] gives for the syndromes `s` and the limit `t`, and the products and inversions
    /// that were made for it: for k syndromes at most 4 k^2 products and k inversions. There are at most
    /// [`MOST_CHECKS`] syndromes, and 2 t is at most their number.
    ///
    /// The [`Meter`] is meant to count every product and every inversion, but no product with a zero that only fills
    /// lanes: tests show that it does, and the clauses bound its counts. So a pair takes a product for each syndrome or
    /// more, even a None takes one where there are syndromes, and a locator of more than one coefficient takes an
    /// inversion.
    pub fn solve_counted(&self, s: &[u8], t: usize) -> (Option<Key>, Meter)
        requires few { length s.now ≤ MOST_CHECKS }
        requires half { 2 * t ≤ length s.now }
        ensures least { IfSome result.0
            (λ key. IsLeastPair s.now t key.locator.items key.evaluator.items) }
        ensures none { IfNone result.0 (NoPair s.now t) }
        ensures exact { IfSome result.0 (λ key. IsExact key.locator.items key.evaluator.items) }
        ensures products { result.1.products ≤ 4 * length s.now * length s.now }
        ensures inversions { result.1.inversions ≤ length s.now }
        ensures each_product { IfSome result.0 (λ _. length s.now ≤ result.1.products) }
        ensures some_product { 0 < length s.now → 0 < result.1.products }
        ensures some_inversion { IfSome result.0
            (λ key. 1 < length key.locator.items → 0 < result.1.inversions) }
    {
        let mut meter = Meter::default();
        let mut search = Search::new();
        let back = backwards(s);
        for n in 0..s.len() {
            let discrepancy = product_at(&search.locator, search.degree, s, &back, n, &mut meter);
            if discrepancy.0 != 0 {
                let degree = search.degree.max(n + 1 - search.degree);
                if degree > t {
                    return (None, meter);
                }
                search.adjust(discrepancy, degree, &mut meter);
            }
            search.gap += 1;
        }
        let evaluator = evaluator_of(&search.locator, search.degree, s, &back, &mut meter);
        let coefficients = search.coefficients();
        let locator = copy_of(coefficients);
        (Some(Key { locator, evaluator }), meter)
    }

    /// Gives what [`KeySolver::solve`] gives, and the products and inversions that were made for it: for k syndromes at
    /// most 4 k^2 products and k inversions, as for [`Quick::solve_counted`], and for a locator of more than one
    /// coefficient at least k + 3 products and an inversion. A discrepancy is a number of the locator's product and
    /// takes none; where it isn't 0, both the locator and its product are corrected. Products with the zeros behind a
    /// locator or a product, which only fill lanes, aren't counted.
    fn solve_by_products(s: &[u8], t: usize) -> (Option<Key>, Meter)
        requires few { length s.now ≤ MOST_CHECKS }
        requires half { 2 * t ≤ length s.now }
        ensures least { IfSome result.0
            (λ key. IsLeastPair s.now t key.locator.items key.evaluator.items) }
        ensures none { IfNone result.0 (NoPair s.now t) }
        ensures exact { IfSome result.0 (λ key. IsExact key.locator.items key.evaluator.items) }
        ensures products { result.1.products ≤ 4 * length s.now * length s.now }
        ensures inversions { result.1.inversions ≤ length s.now }
        ensures some_products { IfSome result.0
            (λ key. 1 < length key.locator.items → length s.now + 3 ≤ result.1.products) }
        ensures some_inversion { IfSome result.0
            (λ key. 1 < length key.locator.items → 0 < result.1.inversions) }
    {
        let mut counts = Meter::default();
        let mut state = Search::new();
        let mut products = Products::new(s);
        for n in 0..s.len() {
            let discrepancy = Gf(products.product[n]);
            if discrepancy.0 != 0 {
                let degree = state.degree.max(n + 1 - state.degree);
                if degree > t {
                    return (None, counts);
                }
                let grows = state.degree < degree;
                let factor = counts.mul(discrepancy, state.inverse);
                products.adjust(factor, state.gap, s.len(), grows, &mut counts);
                state.adjust(discrepancy, degree, &mut counts);
            }
            state.gap += 1;
        }
        let product = products.below(state.degree);
        let evaluator = copy_of(product);
        let coefficients = state.coefficients();
        let locator = copy_of(coefficients);
        (Some(Key { locator, evaluator }), counts)
    }
}

impl KeySolver for Quick {
    /// Gives what [`Quick::solve_counted`] gives, without the counts: the lists of both are those of the least pair
    /// with no number too many, and so the same ([`crate::laws::exact_least_pair_is_one`]). The [`Products`] of the
    /// locators stand in place of the product that each discrepancy is there. For k syndromes there are at most 4 k^2
    /// products and k inversions here too; for a locator of more than one coefficient there are at least k + 3 products
    /// and an inversion.
    fn solve(&self, s: &[u8], t: usize) -> Option<Key>
        requires few { length s.now ≤ MOST_CHECKS }
        requires half { 2 * t ≤ length s.now }
        ensures least { IfSome result
            (λ key. IsLeastPair s.now t key.locator.items key.evaluator.items) }
        ensures none { IfNone result (NoPair s.now t) }
        ensures exact { IfSome result (λ key. IsExact key.locator.items key.evaluator.items) }
    {
        Quick::solve_by_products(s, t).0
    }
}

/// Room for the coefficients of a locator in whole groups of sixteen.
pub(crate) const COEFFICIENTS_ROOM: usize = (MOST_COEFFICIENTS + 15) / 16 * 16;

/// Room for as many coefficients that are moved up by up to [`COEFFICIENTS_ROOM`] places.
const LOCATOR_ROOM: usize = 2 * COEFFICIENTS_ROOM;

/// Room for the syndromes and, behind them, [`COEFFICIENTS_ROOM`] zeros or more.
const BACK_ROOM: usize = MOST_CHECKS + COEFFICIENTS_ROOM;

/// What is kept of the syndromes that have been taken. The discrepancy of a locator is the first coefficient of its
/// product with the syndromes that isn't 0 and that a pair of its degree can't have.
#[derive(Drop)]
struct Search {
    /// The locator of the least degree that has no discrepancy among these syndromes, and zeros behind.
    locator: [u8; LOCATOR_ROOM],
    /// That degree.
    degree: usize,
    /// The locator before that degree last grew, and zeros behind.
    earlier: [u8; COEFFICIENTS_ROOM],
    /// The inverse of the earlier locator's discrepancy.
    inverse: Gf,
    /// How many syndromes have been taken from that discrepancy on.
    gap: usize,
}

impl Search {
    /// Begins with the locator 1 before any syndrome, as if it had had the discrepancy 1 just before.
    fn new() -> Search
        ensures locator { IsOne result.locator }
        ensures earlier { IsOne result.earlier }
        ensures degree { result.degree ≡ 0 }
        ensures inverse { result.inverse.0 ≡ 1 }
        ensures gap { result.gap ≡ 1 }
    {
        let mut locator = [0; LOCATOR_ROOM];
        locator[0] = 1;
        let mut earlier = [0; COEFFICIENTS_ROOM];
        earlier[0] = 1;
        Search {
            locator,
            degree: 0,
            earlier,
            inverse: Gf(1),
            gap: 1,
        }
    }

    /// Gives the coefficients of the locator, one for each power up to its degree.
    fn coefficients(&self) -> &[u8]
        requires { self.now.degree < LOCATOR_ROOM }
        ensures taken { result.now ≡ take (self.now.degree + 1) self.now.locator }
        ensures count { length result.now ≡ self.now.degree + 1 }
    {
        &self.locator[..self.degree + 1]
    }

    /// Takes the discrepancy from the locator, by a multiple of the earlier one. The locator then has the degree
    /// `degree`; where it has grown, what it was before is the earlier one from now on.
    fn adjust(&mut self, discrepancy: Gf, degree: usize, meter: &mut Meter)
        requires some { 0 < discrepancy.0 }
        requires small { degree ≤ MOST_ERRORS }
        requires grows { self.old.degree ≤ degree }
        requires near { self.old.gap ≤ degree }
        requires short { (i : ℕ) → degree < self.old.gap + i
            → coefficient self.old.earlier i ≡ 0 }
        requires products_room { meter.old.products + degree + 2 < 2 ^ 32 }
        requires inversions_room { meter.old.inversions + 1 < 2 ^ 32 }
        ensures degree { self.new.degree ≡ degree }
        ensures low { (i : ℕ) → i < self.old.gap
            → coefficient self.new.locator i ≡ coefficient self.old.locator i }
        ensures high { (i : ℕ)
            → coefficient self.new.locator (self.old.gap + i)
            ≡ coefficient self.old.locator (self.old.gap + i)
            ⊕ (discrepancy.0 ⊗ self.old.inverse.0) ⊗ coefficient self.old.earlier i }
        ensures grown { self.old.degree < degree
            → (self.new.earlier ≡ take COEFFICIENTS_ROOM self.old.locator)
            × (discrepancy.0 ⊗ self.new.inverse.0 ≡ 1) × (self.new.gap ≡ 0)
            × (meter.new.inversions ≡ meter.old.inversions + 1) }
        ensures kept { self.old.degree ≡ degree
            → (self.new.earlier ≡ self.old.earlier)
            × (self.new.inverse.0 ≡ self.old.inverse.0) × (self.new.gap ≡ self.old.gap)
            × (meter.new.inversions ≡ meter.old.inversions) }
        ensures products { meter.new.products + self.old.gap ≡ meter.old.products + degree + 2 }
    {
        let factor = meter.mul(discrepancy, self.inverse);
        let mut before = [0; COEFFICIENTS_ROOM];
        before.copy_from_slice(&self.locator[..COEFFICIENTS_ROOM]);
        let count = (degree + 1 - self.gap) as u32;
        add_moved(
            &mut self.locator,
            factor,
            &self.earlier,
            self.gap,
            count,
            meter,
        );
        if self.degree < degree {
            self.degree = degree;
            self.earlier = before;
            self.inverse = meter.inverse(discrepancy);
            self.gap = 0;
        }
    }
}

/// Adds `factor` times the earlier locator, moved up by the gap, to a locator: `count` products, as many as the earlier
/// one has coefficients before the zeros at its end.
fn add_moved(
    locator: &mut [u8; LOCATOR_ROOM],
    factor: Gf,
    earlier: &[u8; COEFFICIENTS_ROOM],
    gap: usize,
    count: u32,
    meter: &mut Meter,
)
    requires near { gap ≤ COEFFICIENTS_ROOM }
    requires short { (i : ℕ) → count ≤ i → coefficient earlier.now i ≡ 0 }
    requires room { meter.old.products + count < 2 ^ 32 }
    ensures low { (i : ℕ) → i < gap
        → coefficient locator.new i ≡ coefficient locator.old i }
    ensures high { (i : ℕ) → coefficient locator.new (gap + i)
        ≡ coefficient locator.old (gap + i) ⊕ factor.0 ⊗ coefficient earlier.now i }
    ensures products { meter.new.products ≡ meter.old.products + count }
    ensures inversions { meter.new.inversions ≡ meter.old.inversions }
{
    meter.add_scaled(
        &mut locator[gap..gap + COEFFICIENTS_ROOM],
        factor,
        earlier,
        count,
    );
}

/// Puts the syndromes, from the last to the first, before zeros.
fn backwards(s: &[u8]) -> [u8; BACK_ROOM]
    requires { length s.now ≤ MOST_CHECKS }
    ensures { IsBackwards s.now result }
{
    let mut back = [0; BACK_ROOM];
    for i in 0..s.len() {
        back[s.len() - 1 - i] = s[i];
    }
    back
}

/// Gives the evaluator of a locator of this degree: the coefficients below that degree of its product with the
/// syndromes, which are given backwards too.
fn evaluator_of(
    locator: &[u8; LOCATOR_ROOM],
    degree: usize,
    s: &[u8],
    back: &[u8; BACK_ROOM],
    meter: &mut Meter,
) -> ArrayVec<u8, MOST_ERRORS>
    requires small { degree ≤ MOST_ERRORS }
    requires zeros { (i : ℕ) → degree < i → coefficient locator.now i ≡ 0 }
    requires within { degree ≤ length s.now }
    requires few { length s.now ≤ MOST_CHECKS }
    requires back { IsBackwards s.now back.now }
    requires room { meter.old.products + MOST_ERRORS * MOST_COEFFICIENTS < 2 ^ 32 }
    ensures long { length result.items ≡ degree }
    ensures each { (i : ℕ) → i < length result.items
        → coefficient result.items i
        ≡ convolution (coefficient locator.now) (coefficient s.now) i }
    ensures bytes { Bytes result.items }
    ensures products { 2 * meter.new.products
        ≡ 2 * meter.old.products + degree * (degree + 1) }
    ensures inversions { meter.new.inversions ≡ meter.old.inversions }
{
    let mut evaluator = ArrayVec::new();
    for i in 0..degree {
        evaluator.push(product_at(locator, degree, s, back, i, meter).0);
    }
    evaluator
}

/// Gives the coefficient of x^n of the product of a locator of this degree and the syndromes, which are given backwards
/// too. Each product of two coefficients counts, and none with a zero behind them.
fn product_at(
    locator: &[u8; LOCATOR_ROOM],
    degree: usize,
    s: &[u8],
    back: &[u8; BACK_ROOM],
    n: usize,
    meter: &mut Meter,
) -> Gf
    requires small { degree ≤ MOST_ERRORS }
    requires zeros { (i : ℕ) → degree < i → coefficient locator.now i ≡ 0 }
    requires within { n < length s.now }
    requires few { length s.now ≤ MOST_CHECKS }
    requires back { IsBackwards s.now back.now }
    requires room { meter.old.products + degree + 1 < 2 ^ 32 }
    ensures coefficient { result.0 ≡ convolution (coefficient locator.now) (coefficient s.now) n }
    ensures products { meter.new.products ≡ meter.old.products + min (degree + 1) (n + 1) }
    ensures inversions { meter.new.inversions ≡ meter.old.inversions }
{
    meter.products += degree.min(n) as u32 + 1;
    dot_in_lanes(locator, back, s.len() - 1 - n, degree / 16 + 1)
}

/// Gives the sum of the products, place by place, of the first numbers of a list, so many groups of sixteen, and those
/// of another list from the place `first` on.
fn dot_in_lanes(list: &[u8], other: &[u8], first: usize, groups: usize) -> Gf
    requires list { 16 * groups ≤ length list.now }
    requires other { first + 16 * groups ≤ length other.now }
    ensures { result.0 ≡ dot (coefficient list.now)
        (λ i. coefficient other.now (first + i)) 0 (16 * groups) }
{
    let mut sum = u8x16::splat(0);
    for group in 0..groups {
        let at = 16 * group;
        let some = u8x16::from_slice(&list[at..]);
        let others = u8x16::from_slice(&other[first + at..]);
        sum ^= lanes_mul(some, others);
    }
    Gf(sum.reduce_xor())
}
