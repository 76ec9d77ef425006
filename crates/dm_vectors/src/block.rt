//! One Reed-Solomon block, and damage within its limit, at it and beyond it: `dm_code`.

mod check_codewords;
mod correction;
mod erasures;
mod samples;
mod solvers;
mod syndromes;
