//! How much is read.

/// Which data codewords are read. What [`Extent::Usual`] reads, [`Extent::Wide`] reads as the same.
#[derive(Clone, Copy, Debug, Default, PartialEq, Eq)]
pub enum Extent {
    /// ASCII, C40, Text, X12 and Base 256.
    #[default]
    Usual,
    /// EDIFACT too, ECI, structured append and reader programming, and macro 05 or 06 at the beginning. An Upper Shift
    /// that waits for its character at the end of a run of C40 or Text is taken as a filler.
    Wide,
}
