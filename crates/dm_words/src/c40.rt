//! C40, Text and X12 encodation (ISO/IEC 16022, C40 encodation, Text encodation, ANSI X12 encodation): three values of
//! 0 to 39 in each pair of codewords, from a latch on to the end of the run.

pub mod pair;
pub mod run;
pub mod set;
pub mod value;
