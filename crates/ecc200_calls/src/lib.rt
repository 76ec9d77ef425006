//! What the library for C does: Data Matrix ECC 200, the symbols of all sizes (ISO/IEC 16022 and ISO/IEC 21471), over
//! numbers, slices, and structs that are laid out as C has them.
//!
//! [`read()`] takes a [`Scan`] and writes a [`ReadingOut`]; [`normal()`], which takes a [`Scan`], [`write()`] and
//! [`write_bytes()`], which take a [`How`], write a [`SymbolOut`]; [`inspect()`] an [`InspectionOut`]; [`places()`] a
//! [`PlacesOut`], a [`PlaceOut`] for each module; and each of these has a [`Fault`]. The head of what is read and
//! written is a [`HeadNumbers`], and each mark a [`MarkNumbers`]. [`sizes()`] writes a [`SizesOut`], a [`SizeOut`] for
//! each size. [`usual_limit()`] and [`abi()`] return a number.
//!
//! C calls none of these by these names: the crate `ecc200` above this one, a static library, exports each with the
//! prefix `ecc200_` and hands on to it. They are two crates since a static library is proved anew whenever it is built,
//! for each kind of machine. This crate is proved once, and what is proved of it is kept.
//!
//! Each function is total, takes no memory but its stack, and keeps nothing between calls. It writes nothing but `out`,
//! and of the arrays in it only the elements that count. What they give is defined in `specs/`, on the definitions of
//! `dm_symbol` for symbols of every size: `Scans`, `Readings`, `Writings`, `Symbols`, `Contents`, `Inspections`,
//! `Places`, `Sizes`; `Laws` has the laws of these definitions, which the functions of [`laws`] prove. A caller's bytes
//! are packed into rows of bits, and a symbol is unpacked over them, in `modules` alone; and `room` alone says how much
//! room a call takes.
#![tactic(auto)]

mod answer;
mod arrays;
mod choice;
mod extent;
mod fault;
mod form;
mod given;
mod head;
mod how;
mod inspection;
mod interface;
pub mod laws;
mod mark;
mod message;
mod modules;
mod normalising;
mod place_table;
mod profile;
mod reading;
mod restoring;
mod room;
mod scan;
mod size_table;
mod symbol;
mod writing;

pub use fault::Fault;
pub use head::HeadNumbers;
pub use how::How;
pub use inspection::{InspectionOut, inspect};
pub use interface::abi;
pub use mark::MarkNumbers;
pub use normalising::normal;
pub use place_table::{PlaceOut, PlacesOut, places};
pub use reading::{ReadingOut, read, usual_limit};
pub use scan::Scan;
pub use size_table::{SizeOut, SizesOut, sizes};
pub use symbol::SymbolOut;
pub use writing::{write, write_bytes};
