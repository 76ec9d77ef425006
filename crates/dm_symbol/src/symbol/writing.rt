//! Completing data codewords with check codewords.

ghost use Rattle.std.specs.Prelude.{◌≡◌, ◌≢◌, ◌<◌, ◌≤◌, ℕ, length};
ghost use Rattle.dm_code.specs.Codeword.{IsCodeword};
ghost use Rattle.dm_layout.specs.symbols.Sizes.{block_check, codeword_count};
ghost use Rattle.dm_layout.specs.symbols.Words.{first_words};
ghost use Rattle.dm_symbol.specs.SymbolBlocks.{AreOfSize, AreCodewordsOf, first_data};
ghost use Rattle.dm_layout.specs.symbols.Blocks.{block_of};

use dm_code::encode;
use dm_layout::symbols::{SymbolSize, block, put_block_checks};

/// Leaves the codewords of a symbol of this size with these data codewords at the start of `room`: the check codewords
/// make each block a codeword of its Reed-Solomon code.
pub(crate) fn complete_in(room: &mut [u8], size: SymbolSize, list: &[u8])
    requires room { codeword_count size ≤ length room.old }
    requires count { length list.now ≡ size.data_count }
    ensures data_words { first_data size (first_words size room.new).list ≡ list.now }
    ensures checked { AreCodewordsOf size (first_words size room.new).list }
{
    let words = &mut room[..usize::from(size.data_count() + size.check_count())];
    words[..list.len()].copy_from_slice(list);
    complete(size, words);
}

/// Puts the check codewords, which make each block a codeword of its Reed-Solomon code; the data codewords stay.
fn complete(size: SymbolSize, words: &mut [u8])
    requires { AreOfSize size words.old }
    ensures words { AreOfSize size words.new }
    ensures data_words { first_data size words.new ≡ first_data size words.old }
    ensures checked { AreCodewordsOf size words.new }
{
    if size.blocks() == 1 {
        complete_only_block(size, words);
        return;
    }
    for b in 0..usize::from(size.blocks()) {
        complete_block(size, words, b);
    }
}

/// Puts the check codewords of a symbol that has one block.
fn complete_only_block(size: SymbolSize, words: &mut [u8])
    requires words { AreOfSize size words.old }
    requires one { size.blocks ≡ 1 }
    ensures words { AreOfSize size words.new }
    ensures data_words { first_data size words.new ≡ first_data size words.old }
    ensures checked { AreCodewordsOf size words.new }
{
    let front = usize::from(size.data_count());
    let checks = encode(&words[..front], usize::from(size.block_check()));
    words[front..].copy_from_slice(&checks);
}

/// Puts the check codewords of one block: its data codewords stay, and it becomes a codeword of its Reed-Solomon code.
fn complete_block(size: SymbolSize, words: &mut [u8], b: usize)
    requires words { AreOfSize size words.old }
    requires block { b < size.blocks }
    ensures words { AreOfSize size words.new }
    ensures data_words { first_data size words.new ≡ first_data size words.old }
    ensures checked { IsCodeword (block_check size) (block_of size.blocks b words.new) }
    ensures others { (a : ℕ) → a < size.blocks → a ≢ b
        → block_of size.blocks a words.new ≡ block_of size.blocks a words.old }
{
    let mut list = block(size, words, b);
    list.truncate(usize::from(size.block_data(b)));
    let checks = encode(&list, usize::from(size.block_check()));
    put_block_checks(size, words, b, &checks);
}
