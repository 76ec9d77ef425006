//! The field, its polynomials and the generators: `gf301`.

mod elements;
mod generators;
mod lanes;
mod meter;
mod polynomials;
