//! The Reed-Solomon blocks into which the codewords of a symbol are dealt: ISO/IEC 16022, error correction.

ghost use Rattle.std.specs.Prelude.{◌≡◌, ◌≢◌, ℕ, ◌<◌, ◌++◌, length, take};
ghost use Rattle.dm_layout.specs.symbols.Sizes.{block_check, block_data, block_length};
ghost use Rattle.dm_layout.specs.symbols.Words.{AreOfSize};
ghost use Rattle.dm_layout.specs.symbols.Blocks.{block_of};

use crate::symbols::size::{LONGEST_BLOCK, SymbolSize};
use arrayvec::ArrayVec;

/// Gives the codewords of block `b`, counted from 0 and below the number of blocks B, of the codewords of a symbol of
/// this size: those at the places j of the symbol with j mod B = b, in order. The block's data codewords come first.
pub fn block(size: SymbolSize, words: &[u8], b: usize) -> ArrayVec<u8, LONGEST_BLOCK>
    requires words { AreOfSize size words.now }
    requires block { b < size.blocks }
    ensures value { result.items ≡ block_of size.blocks b words.now }
    ensures length { length result.items ≡ block_length size b }
    ensures data { take (block_data size b) result.items
        ≡ block_of size.blocks b (take size.data_count words.now) }
{
    let mut block = ArrayVec::new();
    let blocks = size.blocks() as usize;
    for i in 0..(words.len() + blocks - 1 - b) / blocks {
        block.push(words[i * blocks + b]);
    }
    block
}

/// Puts the codewords of `list` at the places of block `b`; the other blocks stay. `b` is below the number
/// of blocks, and the list is as long as that block.
pub fn put_block(size: SymbolSize, words: &mut [u8], b: usize, list: &[u8])
    requires words { AreOfSize size words.old }
    requires block { b < size.blocks }
    requires length { length list.now ≡ block_length size b }
    ensures put { block_of size.blocks b words.new ≡ list.now }
    ensures others { (a : ℕ) → a < size.blocks → a ≢ b
        → block_of size.blocks a words.new ≡ block_of size.blocks a words.old }
    ensures words { AreOfSize size words.new }
{
    let blocks = size.blocks() as usize;
    for (i, word) in list.iter().enumerate() {
        words[i * blocks + b] = *word;
    }
}

/// Puts the check codewords of block `b` at its last places; its data codewords and the other blocks stay. `b` is below
/// the number of blocks, and there are as many checks as a block has.
pub fn put_block_checks(size: SymbolSize, words: &mut [u8], b: usize, checks: &[u8])
    requires words { AreOfSize size words.old }
    requires block { b < size.blocks }
    requires length { length checks.now ≡ block_check size }
    ensures put { block_of size.blocks b words.new
        ≡ take (block_data size b) (block_of size.blocks b words.old) ++ checks.now }
    ensures others { (a : ℕ) → a < size.blocks → a ≢ b
        → block_of size.blocks a words.new ≡ block_of size.blocks a words.old }
    ensures words { AreOfSize size words.new }
{
    let blocks = usize::from(size.blocks());
    let front = usize::from(size.block_data(b));
    for (i, word) in checks.iter().enumerate() {
        words[(front + i) * blocks + b] = *word;
    }
}
