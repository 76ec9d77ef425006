//! Symbols of any size, squares and rectangles, with doubtful modules or none.

pub(crate) mod correction;
pub mod dealing;
pub mod inspection;
pub mod reading;
pub mod writing;
