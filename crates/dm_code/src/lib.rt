//! One Reed-Solomon block of ISO/IEC 16022, ECC 200: its check codewords, its syndromes, their key equation, and its
//! correction.
//!
//! A block is a list of codewords, bytes that stand for elements of [`gf301::Gf`]: first the data codewords, then k
//! check codewords, [`LONGEST_WORD`] in all at the most. As a polynomial, the highest power first, it is a multiple of
//! the generator polynomial for k ([`gf301::generator`]); such a list is a codeword of k checks. k is 1 to
//! [`MOST_CHECKS`].
//!
//! [`encode`] makes the check codewords of a block. [`correct`] gives the codeword within k div 2 wrong codewords of a
//! word, or says that there is none; it divides the word by the generator, takes the [`syndromes`] of what is left, has
//! a [`KeySolver`] solve the key equation for them, and finds the wrong places and what is wrong there from its pair of
//! polynomials, the [`Key`]. There are two solvers: [`Quick`], whose work grows with the square of the number of
//! syndromes at the most, and [`Elimination`], whose work grows with its fourth power at the most.
//!
//! [`correct_to`] leaves the codeword in memory of the caller's, and copies no word that is a codeword itself.
//!
//! Everything but [`Elimination`] works in lanes, on sixteen codewords, roots, places or coefficients at once: check
//! codewords are what a register has left of the data, syndromes are sums over parts of a word, and wrong places are
//! looked for sixteen at a time.
//!
//! [`correct_erased`] does what [`correct`] does where some codewords are erased, that is, known to be unknown: an
//! error then uses two of the k check codewords, and an erasure one.
//!
//! The definitions that the contracts cite are in `specs/`: `Codeword`, `Erased`, `Syndromes` and `KeyEquation`. What
//! holds of these definitions, whatever the code does, is stated in `CodewordLaws` and `KeyEquationLaws` there and
//! proved in [`laws`]. `inner` has the definitions that private functions alone cite: `LinearSystem` for the
//! elimination, `OddTerms` for finding errors, `Ones` and `Backwards` for [`Quick`], `Lessened` for [`correct_erased`].
#![tactic(auto)]

mod correction;
mod elimination;
mod encoding;
mod erasures;
mod errors;
mod key;
pub mod laws;
mod limits;
mod polynomial;
mod products;
mod quick;
mod syndrome;
mod system;
mod weighing;

pub use correction::{BeyondLimit, Fixed, correct, correct_to};
pub use elimination::Elimination;
pub use encoding::encode;
pub use erasures::{Restored, correct_erased};
pub use gf301::MOST_CHECKS;
pub use key::{Key, KeySolver};
pub use limits::{LONGEST_WORD, MOST_COEFFICIENTS, MOST_ERRORS};
pub use quick::Quick;
pub use syndrome::syndromes;
