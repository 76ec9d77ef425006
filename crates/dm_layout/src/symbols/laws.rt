//! Laws of the definitions in `specs/symbols/`. Each function has an empty body: its contract is the law.

pub mod blocks;
pub mod holding;
pub mod sizes;
