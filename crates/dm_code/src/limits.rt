//! The bounds of a block: its longest word, and the most errors that are corrected in it.

use gf301::MOST_CHECKS;

/// The most codewords of a word: as many as the field has elements but 0. `dm_layout` has the same number as
/// `LONGEST_BLOCK`, and neither crate stands on the other: in `dm_symbol`, `codeword_near` hands each block of a symbol
/// to [`crate::correct_to`], and its proof shows that no block is longer than this.
pub const LONGEST_WORD: usize = 255;

/// The most errors of a word that are corrected: half as many as it has check codewords at the most.
pub const MOST_ERRORS: usize = MOST_CHECKS / 2;

/// The most coefficients of an error locator, whose degree is the number of errors.
pub const MOST_COEFFICIENTS: usize = MOST_ERRORS + 1;
