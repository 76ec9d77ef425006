//! Correction of a block of a symbol of any size, where it stands, with some of its places doubtful or none.

ghost use Rattle.std.specs.Prelude.{◌≡◌, ◌≢◌, ◌*◌, ◌<◌, ◌≤◌, ℕ, List, [], Some, IfOk, IfSome};
ghost use Rattle.std.specs.Prelude.{MatchResult, length, map, option_map};
ghost use Rattle.dm_code.specs.Codeword.{IsCodeword, IsNear, distance};
ghost use Rattle.dm_layout.specs.symbols.Sizes.{block_check, block_length, codeword_count};
ghost use Rattle.dm_symbol.specs.Dealings.{IsDealtTwoWays, erased_by};
ghost use Rattle.dm_symbol.specs.SymbolBlocks.{AreOfSize};
ghost use Rattle.dm_symbol.specs.SymbolReading.{IsBlockRestored};
ghost use Rattle.dm_symbol.specs.inner.Marks.{is_mark, marked_in};
ghost use Rattle.dm_layout.specs.symbols.Blocks.{block_of};

use crate::symbol::dealing::{DATA, Dealing, turn_checks};
use crate::symbol::reading::BlockReading;
use arrayvec::ArrayVec;
use dm_code::{BeyondLimit, LONGEST_WORD, Quick, correct_erased, correct_to};
use dm_layout::symbols::{BorrowedSymbol, LONGEST_BLOCK, SymbolSize, block, lift_to, put_block};

/// Restores a block of the codewords of a symbol of this size to the codeword that is near to it but for the places
/// that have marks, and gives what became of it, or None where no codeword is near and it stays. With no marks, none of
/// its places is erased.
pub(crate) fn restore_block(
    size: SymbolSize,
    words: &mut [u8],
    marks: Option<&[u8]>,
    b: usize,
) -> Option<BlockReading>
    requires words { AreOfSize size words.old }
    requires marks { IfSome marks (λ marks. AreOfSize size marks.now) }
    requires block { b < size.blocks }
    ensures words { AreOfSize size words.new }
    ensures restored { IsBlockRestored (block_check size)
        (marked_in size (option_map (λ m. m.now) marks.entry) b) (block_of size.blocks b words.old)
        (block_of size.blocks b words.new) result }
    ensures others { (a : ℕ) → a < size.blocks → a ≢ b
        → block_of size.blocks a words.new ≡ block_of size.blocks a words.old }
{
    match marks {
        None => correct_block(size, words, b),
        Some(marks) => correct_marked(size, words, marks, b),
    }
}

/// Restores a block none of whose places is erased. A block without errors isn't touched.
fn correct_block(size: SymbolSize, words: &mut [u8], b: usize) -> Option<BlockReading>
    requires words { AreOfSize size words.old }
    requires block { b < size.blocks }
    ensures words { AreOfSize size words.new }
    ensures restored { IsBlockRestored (block_check size) [] (block_of size.blocks b words.old)
        (block_of size.blocks b words.new) result }
    ensures others { (a : ℕ) → a < size.blocks → a ≢ b
        → block_of size.blocks a words.new ≡ block_of size.blocks a words.old }
{
    let checks = size.block_check() as u8;
    let mut fixed = ArrayVec::new();
    let Ok(changed) = codeword_near(size, words, b, &mut fixed) else {
        return None;
    };
    if changed > 0 {
        put_block(size, words, b, &fixed);
    }
    Some(BlockReading {
        corrected: changed,
        erased: 0,
        left: checks - 2 * changed,
    })
}

/// Gives in how many codewords a block is wrong, and leaves in `fixed` the codeword near it, if it isn't one itself.
/// The codewords of a symbol that has one block are that block, and aren't copied.
fn codeword_near(
    size: SymbolSize,
    words: &[u8],
    b: usize,
    fixed: &mut ArrayVec<u8, LONGEST_WORD>,
) -> Result<u8, BeyondLimit>
    requires words { AreOfSize size words.now }
    requires block { b < size.blocks }
    ensures near { MatchResult result
        (λ changed. changed ≢ 0
        → IsNear (block_check size) (block_of size.blocks b words.now) fixed.new.items)
        (λ _. (codeword : List ℕ)
        → IsNear (block_check size) (block_of size.blocks b words.now) codeword → ⊥) }
    ensures changed { IfOk result (λ changed. changed ≢ 0
        → changed ≡ distance (block_of size.blocks b words.now) fixed.new.items) }
    ensures itself { result ≡ Ok 0
        → IsCodeword (block_check size) (block_of size.blocks b words.now) }
    ensures few { IfOk result (λ changed. 2 * changed ≤ block_check size) }
{
    let checks = usize::from(size.block_check());
    if size.blocks() == 1 {
        return correct_to(&Quick, words, checks, fixed);
    }
    correct_to(&Quick, &block(size, words, b), checks, fixed)
}

/// Restores a block whose places are erased that have marks.
fn correct_marked(
    size: SymbolSize,
    words: &mut [u8],
    marks: &[u8],
    b: usize,
) -> Option<BlockReading>
    requires words { AreOfSize size words.old }
    requires marks { AreOfSize size marks.now }
    requires block { b < size.blocks }
    ensures words { AreOfSize size words.new }
    ensures restored { IsBlockRestored (block_check size) (marked_in size (Some marks.now) b)
        (block_of size.blocks b words.old) (block_of size.blocks b words.new) result }
    ensures others { (a : ℕ) → a < size.blocks → a ≢ b
        → block_of size.blocks a words.new ≡ block_of size.blocks a words.old }
{
    let checks = usize::from(size.block_check());
    let erased = marked_places(size, marks, b);
    let Ok(restored) = correct_erased(&Quick, &block(size, words, b), checks, &erased) else {
        return None;
    };
    put_block(size, words, b, &restored.word);
    Some(BlockReading {
        corrected: restored.changed,
        erased: restored.erased,
        left: restored.left,
    })
}

/// Says of each place of block `b` whether its codeword is erased.
fn marked_places(size: SymbolSize, marks: &[u8], b: usize) -> ArrayVec<bool, LONGEST_BLOCK>
    requires marks { AreOfSize size marks.now }
    requires block { b < size.blocks }
    ensures value { result.items ≡ map is_mark (block_of size.blocks b marks.now) }
    ensures length { length result.items ≡ block_length size b }
{
    let words = block(size, marks, b);
    let mut erased = ArrayVec::new();
    for i in 0..words.len() {
        erased.push(words[i] != 0);
    }
    erased
}

/// Turns `marks`, as many as a symbol of the size has codewords, into those that doubtful modules make: the codewords
/// that they hold, dealt as those of the symbol are. One that isn't 0 erases the codeword at its place.
pub(crate) fn mark(dealing: Dealing, doubtful: &BorrowedSymbol, marks: &mut [u8])
    requires count { length marks.old ≡ codeword_count doubtful.now.size }
    requires dealing { dealing ≡ Dealing.Restarted → IsDealtTwoWays doubtful.now.size }
    ensures words { AreOfSize doubtful.now.size marks.new }
    ensures marks { (b : ℕ) → marked_in doubtful.now.size (Some marks.new) b
        ≡ erased_by dealing doubtful.now.size (Some doubtful.now) b }
{
    lift_to(doubtful, marks);
    match dealing {
        Dealing::Standard => {}
        Dealing::Restarted => turn_checks(marks, DATA),
    }
}
