//! Sizes, modules, codewords and blocks of Data Matrix symbols (ISO/IEC 16022, ECC 200, and ISO/IEC 21471, the
//! rectangular extension).
//!
//! [`symbols`] has those of all 48 sizes, squares and rectangles. The types and calls beside it are the squares of at
//! most [`LARGEST_SIDE`] modules a side, which the program reads and writes. Each is a symbol whose rows and columns
//! are alike, with what is simpler for one: a side, blocks of one length, and cells that are given as a square.
//!
//! A [`Size`] is a row of the standard's table, which is [`table()`]. A [`Grid`] is a square of dark and light cells of
//! a size; [`Grid::new()`], [`Grid::of_rows()`] and [`Grid::set_rows()`] give a [`GridFault`] where cells make none.
//! [`Words`] are the codewords of a symbol. [`Size::symbol()`] and [`Grid::as_symbol()`] give these as those of a
//! symbol, and [`lay_symbol_to()`] lays the codewords of a symbol in a grid.
//!
//! [`lay()`] gives the only grid with correct borders and the fixed square that holds given codewords, and [`lift()`]
//! the codewords that a grid holds. [`block()`] reads one Reed-Solomon block of the codewords, and [`put_block()`]
//! writes one. [`border_faults()`] counts the border cells that have the wrong colour, and [`Cells`] goes through the
//! [`Place`]s of all bits of all codewords.
//!
//! There are [`GRID_SIZE_COUNT`] sizes of squares; limits: [`LARGEST_SIDE`], [`MOST_GRID_DATA`],
//! [`MOST_GRID_CODEWORDS`] and [`MOST_GRID_BLOCKS`]. What the contracts say is defined in `specs/`; [`laws`] states
//! what holds of these definitions. No call allocates memory.
#![tactic(auto)]

mod grids;
pub mod laws;
pub mod symbols;

pub use grids::{
    Cells, GRID_SIZE_COUNT, Grid, GridFault, LARGEST_SIDE, MOST_GRID_BLOCKS, MOST_GRID_CODEWORDS,
    MOST_GRID_DATA, Place, Size, Words, block, border_faults, lay, lay_symbol_to, lift, put_block,
    table,
};
