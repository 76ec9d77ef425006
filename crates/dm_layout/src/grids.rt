//! The squares to 104 x 104 that the program reads and writes: symbols whose rows and columns are alike, as sizes,
//! grids of cells and codewords of types of their own.

mod blocks;
mod border;
mod cells;
mod grid;
mod packed;
mod placing;
mod size;
mod words;

pub use blocks::{block, put_block};
pub use border::border_faults;
pub use cells::{Cells, Place};
pub use grid::{Grid, GridFault};
pub use placing::{lay, lay_symbol_to, lift};
pub use size::{
    GRID_SIZE_COUNT, LARGEST_SIDE, MOST_GRID_BLOCKS, MOST_GRID_CODEWORDS, MOST_GRID_DATA, Size,
    table,
};
pub use words::Words;
