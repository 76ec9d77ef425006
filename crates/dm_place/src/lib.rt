//! Placement of the codewords of a Data Matrix symbol in its mapping matrix, for all sizes (ISO/IEC 16022, ECC 200, and
//! ISO/IEC 21471, the rectangular extension).
//!
//! A mapping matrix has so many rows and columns, which are all data regions of a symbol together without their
//! borders. [`Shapes`] goes through the [`Shape`]s in which the codewords lie, in their order, and [`Shape::cells()`]
//! gives the eight [`Cell`]s of one, for its bits from the highest on. A [`Place`] is one bit of one codeword with the
//! cell in which it lies.
//!
//! [`has_fixed_square()`] says whether a matrix has four cells that belong to no codeword.
//!
//! What the contracts say is defined in `specs/`, the closed form of the placement among it; [`laws`] states what holds
//! of these definitions, such as that it is the standard's sweep. No call allocates memory.
#![tactic(auto)]

mod border;
mod cells;
pub mod laws;
mod shape;
mod shapes;

pub use border::has_fixed_square;
pub use cells::Place;
pub use shape::{Cell, Shape};
pub use shapes::Shapes;
