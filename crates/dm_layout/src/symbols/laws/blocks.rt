//! Facts about the definitions of the blocks.

ghost use Rattle.dm_layout.specs.symbols.Blocks.{BlocksHaveLengths, BlocksTellWords, BlocksTellData, DataComesFirst};
ghost use Rattle.dm_layout.specs.symbols.Blocks.{BlocksMakeWords};

/// Each block has the length that the table gives it, and its data codewords are as many as the table says; 144 x 144
/// has blocks of two lengths.
pub fn blocks_have_their_lengths()
    ensures { BlocksHaveLengths }
{}

/// Codewords of one size whose blocks are the same are the same.
pub fn blocks_tell_the_codewords()
    ensures { BlocksTellWords }
{}

/// Codewords of one size whose blocks have the same data codewords have the same data codewords.
pub fn blocks_tell_the_data()
    ensures { BlocksTellData }
{}

/// The data codewords of a block come first in it: they are the symbol's data codewords at its places.
pub fn data_comes_first_in_a_block()
    ensures { DataComesFirst }
{}

/// Lists of bytes of the lengths of the blocks of a size are the blocks of some codewords of the size.
pub fn blocks_make_codewords()
    ensures { BlocksMakeWords }
{}
