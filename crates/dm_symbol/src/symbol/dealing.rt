//! The two dealings of the codewords of 144 x 144 into its blocks.

ghost use Rattle.std.specs.Prelude.{◌≡◌, ◌+◌, ◌≤◌, ℕ, List, IfSome, IsTrue, IsFalse, length, option_map};
ghost use Rattle.dm_layout.specs.symbols.Sizes.{codeword_count};
ghost use Rattle.dm_symbol.specs.Dealings.{IsDealtTwoWays};
ghost use Rattle.dm_symbol.specs.SymbolReading.{AreRestoredBy};
ghost use Rattle.dm_symbol.specs.inner.Restoring.{IsRestarted};
ghost use Rattle.dm_symbol.specs.inner.Turns.{turned};

use crate::symbol::reading::{BlockReading, restore_blocks};
use arrayvec::ArrayVec;
use dm_layout::symbols::{BorrowedSymbol, MOST_BLOCKS, lift_to};

/// How the check codewords of a symbol are dealt into its blocks. Both dealings are the same but in 144 x 144.
#[derive(Clone, Copy, Debug, Default, PartialEq, Eq)]
pub enum Dealing {
    /// On from the block at which the data codewords end, as if they were of these (ISO/IEC 16022, error correction).
    #[default]
    Standard,
    /// Anew from block 0. In 144 x 144 libdmtx, pylibdmtx, iec16022 and the writers of ZXing and zxing-cpp deal so.
    Restarted,
}

/// The rows and the columns of the size in which the dealings differ.
const SIDE: u16 = 144;

/// Its data codewords.
pub(crate) const DATA: usize = 1558;

/// Its check codewords.
const CHECKS: usize = 620;

/// Its blocks.
const BLOCKS: usize = 10;

/// Turns the check codewords of a symbol of 144 x 144, ten by ten: number i of them becomes the one that stood in the
/// same ten at (i + shift) mod 10. Turned by the number of data codewords, those dealt anew stand as the standard deals
/// them; turned by 2 more, all stand as they did.
pub(crate) fn turn_checks(words: &mut [u8], shift: usize)
    requires count { length words.old ≡ DATA + CHECKS }
    requires shift { shift ≤ DATA }
    ensures { words.new ≡ turned shift words.old }
{
    let mut checks = ArrayVec::<u8, CHECKS>::new();
    for i in 0..CHECKS {
        checks.push(words[DATA + (i / BLOCKS * BLOCKS + (i + shift) % BLOCKS)]);
    }
    words[DATA..].copy_from_slice(&checks);
}

/// Restores a symbol of 144 x 144 by the other dealing, and says whether each block is near to a codeword by it; or
/// says that none is, for a symbol of another size. After `true`, `words` are the restored codewords, at the places of
/// the symbol, and `blocks` says what became of each block. It isn't inlined, so that it takes time and room on the
/// stack only where a block is lost.
#[inline(never)]
pub(crate) fn restore_restarted(
    symbol: &BorrowedSymbol,
    doubtful: Option<&BorrowedSymbol>,
    words: &mut [u8],
    blocks: &mut ArrayVec<BlockReading, MOST_BLOCKS>,
) -> bool
    requires doubtful { IfSome doubtful (λ doubtful. doubtful.now.size ≡ symbol.now.size) }
    requires count { length words.old ≡ codeword_count symbol.now.size }
    ensures restored { IsTrue result → IsRestarted symbol.now (option_map (λ d. d.now) doubtful.entry)
        words.new blocks.new.items }
    ensures lost { IsFalse result → IsDealtTwoWays symbol.now.size → (held codewords : List ℕ)
        → AreRestoredBy Dealing.Restarted symbol.now (option_map (λ d. d.now) doubtful.entry) held codewords
        → ⊥ }
{
    let size = symbol.size();
    if size.rows() != SIDE || size.columns() != SIDE {
        return false;
    }
    lift_to(symbol, words);
    turn_checks(words, DATA);
    match restore_blocks(size, words, Dealing::Restarted, doubtful, blocks) {
        Ok(()) => {
            turn_checks(words, 2);
            true
        }
        Err(_) => false,
    }
}
