//! The field of 256 elements of ISO/IEC 16022, polynomials over it, and the generator polynomials of its
//! Reed-Solomon codes (ECC 200).
//!
//! An element of the field is a byte: [`Gf`] is one element with its operations, and in a list, a `&[u8]` or a
//! [`Poly`], each byte is one. Sixteen elements at once are multiplied lane by lane by [`lanes_mul`] and by one element
//! by [`scale`], which looks the products up; [`add_scaled`] adds such multiples of one list to another. [`powers`]
//! gives sixteen consecutive powers of 2, [`power_row`] one power of each of sixteen such, and [`powers_of`] the first
//! sixteen powers of any element. A [`Meter`] counts products and inversions.
//!
//! A polynomial is a list of coefficients, the highest power first: [`value_at`] gives its value at an element,
//! [`times`] the product of two, and [`product_at`] one coefficient of a product. [`generator`] gives the generator
//! polynomial for up to [`MOST_CHECKS`] check codewords, and [`taps`] looks up its coefficients after the first.
//!
//! The definitions that the contracts cite are in `specs/`: `Field`, `Polynomial` and `Generator`. What holds of these
//! definitions, whatever the code does, is stated and proved in [`laws`].
#![tactic(auto)]

mod field;
mod generators;
mod lanes;
pub mod laws;
mod meter;
mod polynomial;
mod power_rows;
mod product_rows;
mod tap_rows;

pub use field::Gf;
pub use generators::{CHECKS_ROOM, MOST_CHECKS, generator, taps};
pub use lanes::{add_scaled, lanes_mul, power_row, powers, powers_of, scale};
pub use meter::Meter;
pub use polynomial::{Poly, product_at, times, value_at};
