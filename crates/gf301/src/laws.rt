//! Laws of the definitions in `specs/`. Each function has an empty body: its contract is the law.

ghost use Rattle.std.specs.Prelude.{◌≡◌, ◌≢◌, ◌+◌, ◌<◌, ◌≤◌, ◌%◌, ℕ, List, length, All, AllPairs};
ghost use Rattle.gf301.specs.Field.{◌⊕◌, ◌⊗◌, power};
ghost use Rattle.gf301.specs.Generator.{generator};
ghost use Rattle.gf301.specs.Polynomial.{Bytes, value, coefficient, times};

/// With the sum, the elements are a commutative group in which each element is its own opposite.
pub fn sum_laws()
    ensures byte { (a b : ℕ) → a < 256 → b < 256 → a ⊕ b < 256 }
    ensures commutative { (a b : ℕ) → a ⊕ b ≡ b ⊕ a }
    ensures associative { (a b c : ℕ) → (a ⊕ b) ⊕ c ≡ a ⊕ (b ⊕ c) }
    ensures zero { (a : ℕ) → a ⊕ 0 ≡ a }
    ensures opposite { (a : ℕ) → a ⊕ a ≡ 0 }
{}

/// With the product, the elements other than 0 are a commutative group, and the product distributes over the sum.
/// A product is of low bytes, so most of these laws hold for all numbers.
pub fn product_laws()
    ensures byte { (a b : ℕ) → a ⊗ b < 256 }
    ensures low_bytes { (a b : ℕ) → (a % 256) ⊗ (b % 256) ≡ a ⊗ b }
    ensures commutative { (a b : ℕ) → a ⊗ b ≡ b ⊗ a }
    ensures associative { (a b c : ℕ) → (a ⊗ b) ⊗ c ≡ a ⊗ (b ⊗ c) }
    ensures distributive { (a b c : ℕ) → a ⊗ (b ⊕ c) ≡ a ⊗ b ⊕ a ⊗ c }
    ensures zero { (a : ℕ) → a ⊗ 0 ≡ 0 }
    ensures one { (a : ℕ) → a < 256 → a ⊗ 1 ≡ a }
    ensures inverse { (a : ℕ) → 0 < a → a < 256
        → (b : ℕ) × (b < 256) × (a ⊗ b ≡ 1) }
    ensures cancels { (a b c : ℕ) → 0 < a → a < 256 → b < 256 → c < 256
        → a ⊗ b ≡ a ⊗ c → b ≡ c }
{}

/// The powers of 2 with exponents of 0 to 254 are the elements other than 0, each once, and then they repeat.
pub fn powers_are_all_elements()
    ensures different { (i j : ℕ) → i < 255 → j < 255 → power i ≡ power j → i ≡ j }
    ensures all { (a : ℕ) → 0 < a → a < 256 → (e : ℕ) × (e < 255) × (power e ≡ a) }
    ensures not_zero { (e : ℕ) → 0 < power e }
    ensures added { (i j : ℕ) → power (i + j) ≡ power i ⊗ power j }
    ensures repeat { (e : ℕ) → power (e % 255) ≡ power e }
{}

/// Four powers of 2 and two products are these numbers.
pub fn powers_and_products_by_number()
    ensures power_8 { power 8 ≡ 45 }
    ensures power_15 { power 15 ≡ 228 }
    ensures power_28 { power 28 ≡ 23 }
    ensures power_254 { power 254 ≡ 150 }
    ensures product_122 { 66 ⊗ 62 ≡ 122 }
    ensures product_20 { 251 ⊗ 111 ≡ 20 }
{}

/// The product of two polynomials that aren't empty: its value is the product of the values, and their order doesn't
/// matter.
pub fn times_laws()
    ensures value { (p q : List ℕ) (x : ℕ) → 0 < length p → 0 < length q
        → value (times p q) x ≡ value p x ⊗ value q x }
    ensures length { (p q : List ℕ) → 0 < length p → 0 < length q
        → length (times p q) + 1 ≡ length p + length q }
    ensures bytes { (p q : List ℕ) → Bytes (times p q) }
    ensures commutative { (p q : List ℕ) → times p q ≡ times q p }
{}

/// A polynomial that isn't 0 has fewer roots than coefficients: with as many different ones, each coefficient is 0.
pub fn roots_are_few()
    ensures { (p roots : List ℕ) → Bytes p → Bytes roots → AllPairs (λ r s. r ≢ s) roots
        → All (λ r. value p r ≡ 0) roots → length p ≤ length roots
        → All (λ a. a ≡ 0) p }
{}

/// The generator for k check codewords has k + 1 coefficients, of which the first is 1, and among the powers of 2,
/// whose exponents are 1 to 255, its roots are those with exponents of 1 to k.
pub fn generator_laws()
    ensures length { (k : ℕ) → length (generator k) ≡ k + 1 }
    ensures first { (k : ℕ) → coefficient (generator k) 0 ≡ 1 }
    ensures bytes { (k : ℕ) → Bytes (generator k) }
    ensures roots { (k i : ℕ) → 1 ≤ i → i ≤ k → value (generator k) (power i) ≡ 0 }
    ensures no_other { (k i : ℕ) → k < i → i ≤ 255 → 0 < value (generator k) (power i) }
{}
