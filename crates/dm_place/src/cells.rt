//! The bits of codewords, and the cells in which they lie.

/// One bit of one codeword of a symbol, and the cell of the mapping matrix in which it lies.
#[derive(Clone, Copy, Debug, PartialEq, Eq)]
pub struct Place {
    /// The codeword, in the order of the symbol, from 0.
    pub word: u16,
    /// The bit, from 1, the highest, to 8, the lowest.
    pub bit: u8,
    /// The row in the mapping matrix, from 0 at the top.
    pub row: u16,
    /// The column in the mapping matrix, from 0 at the left.
    pub column: u16,
}
