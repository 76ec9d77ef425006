//! Sizes, modules, codewords and blocks of all Data Matrix symbols, squares and rectangles (ISO/IEC 16022, ECC 200, and
//! ISO/IEC 21471, the rectangular extension).
//!
//! A [`SymbolSize`] is an entry of the standards' tables of sizes, which are [`table()`] together; [`SymbolSize::of()`]
//! finds one by its rows and columns, and [`SymbolSize::for_words()`] the smallest of a [`SizeChoice`] that holds so
//! many data codewords.
//!
//! A [`Symbol`] has the dark and light modules of a symbol of any size, a row as a number, or as two where it has more
//! than 128. It is put row by row ([`SymbolIn::put_row()`]), and read so ([`SymbolIn::row()`] with [`SymbolIn::end()`])
//! or module by module ([`SymbolIn::is_dark()`]). [`SymbolWords`] are the codewords of a symbol, given all at once
//! ([`SymbolWordsIn::new()`]) or put where they stand ([`SymbolWordsIn::resize()`]). Both have room for the largest
//! size; [`SymbolIn`] and [`SymbolWordsIn`] have as much as a caller wants, so that a small symbol needs no room for
//! the largest. What works on them takes a [`BorrowedSymbol`], a [`SymbolSize`] and a slice of codewords, so that it is
//! the same for all rooms.
//!
//! [`lay_to()`] turns a symbol of the caller's, whatever it was, into the only one with correct borders and the fixed
//! square that holds given codewords. [`lift()`] gives the codewords that a symbol holds, whatever stands in its
//! borders and its fixed square, and [`lift_to()`] leaves them in codewords of the caller's.
//!
//! [`block()`] reads one Reed-Solomon block of the codewords, [`put_block()`] writes one, and [`put_block_checks()`]
//! its check codewords; in 144 x 144 the blocks have two lengths. [`border_faults()`] counts the border modules that
//! have the wrong colour, but for those that are doubtful, which a second symbol marks if there are any. Module by
//! module, [`border_colour()`] gives the colour that a border prescribes, and [`symbol_row()`] and [`symbol_column()`]
//! lead from the mapping matrix to the symbol.
//!
//! There are [`SIZE_COUNT`] sizes; limits: [`MOST_ROWS`], [`MOST_COLUMNS`], [`MOST_MODULES`], [`MOST_DATA`],
//! [`MOST_CODEWORDS`], [`MOST_BLOCKS`] and [`LONGEST_BLOCK`]. What the contracts say is defined in `specs/symbols/`;
//! [`laws`] states what holds of these definitions. No call allocates memory.

mod bit_rows;
mod blocks;
mod border;
mod borders;
mod borrowed;
mod drawing;
mod faults;
pub mod laws;
mod laying;
mod lifting;
mod mapping;
mod narrow_rows;
mod order_rows;
mod pair;
mod pair_rows;
mod placing;
mod size;
mod size_rows;
mod slot_rows;
mod slots;
mod symbol;
mod wide_rows;
mod widened;
mod words;

pub use blocks::{block, put_block, put_block_checks};
pub use border::{border_colour, border_faults, symbol_column, symbol_row};
pub use borrowed::BorrowedSymbol;
pub use placing::{lay_to, lift, lift_to};
pub use size::{
    LONGEST_BLOCK, MOST_BLOCKS, MOST_CODEWORDS, MOST_COLUMNS, MOST_DATA, MOST_MODULES, MOST_ROWS,
    SIZE_COUNT, SizeChoice, SymbolSize, table,
};
pub use symbol::{Symbol, SymbolIn};
pub use words::{SymbolWords, SymbolWordsIn};
