//! The Reed-Solomon blocks into which the codewords of a square are dealt: ISO/IEC 16022, error correction.

ghost use Rattle.std.specs.Prelude.{◌≡◌, ◌≢◌, ℕ, ◌<◌, length, take};
ghost use Rattle.dm_layout.specs.Sizes.{block_data, block_length};
ghost use Rattle.dm_layout.specs.Words.{IsWords, data_of};
ghost use Rattle.dm_layout.specs.Blocks.{block_of};
ghost use Rattle.dm_layout.specs.symbols.Sizes.{block_length as symbol_block_length};
ghost use Rattle.dm_layout.specs.symbols.Words.{IsWords as IsSymbolWords, first_words};

use crate::grids::words::Words;
use crate::symbols::{LONGEST_BLOCK, SymbolSize};
use arrayvec::ArrayVec;

/// Gives the codewords of block `b`, counted from 0 and below the number of blocks B: those at the places j of the
/// symbol with j mod B = b, in order. The block's data codewords come first.
#[inline]
pub fn block(words: &Words, b: usize) -> ArrayVec<u8, LONGEST_BLOCK>
    requires { b < words.now.size.blocks }
    ensures value { result.items ≡ block_of words.now.size.blocks b words.now.list }
    ensures length { length result.items ≡ block_length words.now.size }
    ensures data { take (block_data words.now.size) result.items
        ≡ block_of words.now.size.blocks b (data_of words.now) }
{
    crate::symbols::block(words.symbol.size(), words.symbol.list(), b)
}

/// Puts the codewords of `list` at the places of block `b`; the other blocks stay. `b` is below the number
/// of blocks, and the list is as long as a block.
#[inline]
pub fn put_block(words: &mut Words, b: usize, list: &[u8])
    requires block { b < words.old.size.blocks }
    requires length { length list.now ≡ block_length words.old.size }
    ensures size { words.new.size ≡ words.old.size }
    ensures put { block_of words.old.size.blocks b words.new.list ≡ list.now }
    ensures others { (a : ℕ) → a < words.old.size.blocks → a ≢ b
        → block_of words.old.size.blocks a words.new.list
        ≡ block_of words.old.size.blocks a words.old.list }
    ensures words { IsWords words.new }
{
    let size = words.symbol.size();
    put_block_in(size, words.symbol.resize(size), b, list);
}

/// Does so where the codewords of a symbol of this size stand at the start of `room`.
fn put_block_in(size: SymbolSize, room: &mut [u8], b: usize, list: &[u8])
    requires words { IsSymbolWords (first_words size room.old) }
    requires block { b < size.blocks }
    requires length { length list.now ≡ symbol_block_length size b }
    ensures put { block_of size.blocks b (first_words size room.new).list ≡ list.now }
    ensures others { (a : ℕ) → a < size.blocks → a ≢ b
        → block_of size.blocks a (first_words size room.new).list
        ≡ block_of size.blocks a (first_words size room.old).list }
    ensures words { IsSymbolWords (first_words size room.new) }
{
    let count = usize::from(size.data_count() + size.check_count());
    crate::symbols::put_block(size, &mut room[..count], b, list);
}
