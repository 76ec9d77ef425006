//! Reading a symbol of any size, up to its restored codewords.

ghost use Rattle.std.specs.Prelude.{◌≡◌, ◌≤◌, ℕ, Err, Some, OnOk, IfErr, IfSome, length, option_map};
ghost use Rattle.dm_layout.specs.symbols.Sizes.{codeword_count};
ghost use Rattle.dm_layout.specs.symbols.Words.{first_words};
ghost use Rattle.dm_words.specs.declared.contents.fault.ContentFault.{ContentFault};
ghost use Rattle.dm_symbol.specs.Dealings.{IsDealtTwoWays, erased_by};
ghost use Rattle.dm_symbol.specs.inner.Marks.{marked_in};
ghost use Rattle.dm_symbol.specs.ContentReading.{ContentReadResult};
ghost use Rattle.dm_symbol.specs.Restored.{IsRestored};
ghost use Rattle.dm_symbol.specs.SymbolBlocks.{AreOfSize};
ghost use Rattle.dm_symbol.specs.SymbolReading.{AreBlocksNear, AreLost, AreRestored, IsFirstLost};
ghost use Rattle.dm_symbol.specs.SymbolReading.{block_readings, readings_by};
ghost use Rattle.dm_symbol.specs.inner.Restoring.{AreHeldBy};

use crate::contents::ContentReadFault;
use crate::symbol::correction::{mark, restore_block};
use crate::symbol::dealing::{Dealing, restore_restarted};
use arrayvec::ArrayVec;
use dm_layout::symbols::{
    BorrowedSymbol, MOST_BLOCKS, MOST_CODEWORDS, SymbolIn, SymbolSize, SymbolWordsIn,
    border_faults, lift_to,
};
use dm_words::Extent;

/// How many codewords the room has that serves for most symbols, squares up to 52 x 52 and all rectangles.
pub(crate) const FEW_CODEWORDS: usize = 288;

/// How a symbol is read.
#[derive(Clone, Copy)]
pub struct ReadOptions<'a, const ROWS: usize> {
    /// Which data codewords are read.
    pub extent: Extent,
    /// How many modules of the borders may have the wrong colour, those not counted that are doubtful.
    pub border_limit: u16,
    /// The doubtful modules, if any are known: a symbol of the same size, dark where a module of the symbol is
    /// doubtful. None where no module is.
    pub doubtful: Option<&'a SymbolIn<ROWS>>,
}

/// What became of a block of a symbol that was read.
#[derive(Clone, Copy, Debug, Default, PartialEq, Eq)]
pub struct BlockReading {
    /// The number of its codewords that were wrong, and not erased.
    pub corrected: u8,
    /// The number of its codewords that are erased: one of their modules, or more, is doubtful.
    pub erased: u8,
    /// The number of its check codewords that neither have used, of which an error uses two and an erasure one. Where
    /// it is 0, and codewords are erased, many blocks are read as some codeword, whatever they held.
    pub left: u8,
}

/// Restores the codewords of a symbol, the first steps of [`read_content_to()`](crate::read_content_to()), whatever
/// they say: after `Ok`, `words` are these, `dealing` is the one by which they are restored, `blocks` says what became
/// of each block, and `faults` is the number of wrong modules of the borders. The fault is `Border` or `Block`, as
/// there; after `Border` these three are as they were. So what the codewords say can be read in room that is chosen by
/// them.
pub fn restore_symbol_to<const ROWS: usize, const WORDS: usize>(
    symbol: &SymbolIn<ROWS>,
    how: ReadOptions<ROWS>,
    words: &mut SymbolWordsIn<WORDS>,
    dealing: &mut Dealing,
    blocks: &mut ArrayVec<BlockReading, MOST_BLOCKS>,
    faults: &mut u16,
) -> Result<(), ContentReadFault>
    requires doubtful { IfSome how.doubtful (λ doubtful. doubtful.now.size ≡ symbol.now.size) }
    requires codewords { codeword_count symbol.now.size ≤ WORDS }
    ensures restored { OnOk result (IsRestored how.entry.extent symbol.now
        (option_map (λ d. d.now) how.entry.doubtful) how.entry.border_limit words.new dealing.new
        blocks.new.items faults.new) }
    ensures lost { IfErr result (λ why. ContentReadResult how.entry.extent symbol.now
        (option_map (λ d. d.now) how.entry.doubtful) how.entry.border_limit (Err why)) }
    ensures unsaid { (why : ContentFault) → result ≡ Err (ContentReadFault.Words why) → ⊥ }
    ensures same { (count : ℕ) → result ≡ Err (ContentReadFault.Border count)
        → (dealing.new ≡ dealing.old) × (blocks.new ≡ blocks.old) × (faults.new ≡ faults.old) }
{
    let room = words.resize(symbol.size());
    let symbol = symbol.borrowed();
    let (extent, limit) = (how.extent, how.border_limit);
    match how.doubtful {
        None => restore(&symbol, None, extent, limit, room, dealing, blocks, faults),
        Some(doubtful) => {
            let doubtful = doubtful.borrowed();
            restore(
                &symbol,
                Some(&doubtful),
                extent,
                limit,
                room,
                dealing,
                blocks,
                faults,
            )
        }
    }
}

/// Does the same, whatever the rooms: the codewords are left at the start of `room`.
pub(crate) fn restore(
    symbol: &BorrowedSymbol,
    doubtful: Option<&BorrowedSymbol>,
    extent: Extent,
    border_limit: u16,
    room: &mut [u8],
    dealing: &mut Dealing,
    blocks: &mut ArrayVec<BlockReading, MOST_BLOCKS>,
    faults: &mut u16,
) -> Result<(), ContentReadFault>
    requires doubtful { IfSome doubtful (λ doubtful. doubtful.now.size ≡ symbol.now.size) }
    requires codewords { codeword_count symbol.now.size ≤ length room.old }
    ensures restored { OnOk result (IsRestored extent symbol.now
        (option_map (λ d. d.now) doubtful.entry) border_limit (first_words symbol.now.size room.new)
        dealing.new blocks.new.items faults.new) }
    ensures lost { IfErr result (λ why. ContentReadResult extent symbol.now
        (option_map (λ d. d.now) doubtful.entry) border_limit (Err why)) }
    ensures unsaid { (why : ContentFault) → result ≡ Err (ContentReadFault.Words why) → ⊥ }
    ensures same { (count : ℕ) → result ≡ Err (ContentReadFault.Border count)
        → (dealing.new ≡ dealing.old) × (blocks.new ≡ blocks.old) × (faults.new ≡ faults.old) }
{
    let border_faults = border_faults(symbol, doubtful);
    if border_faults > border_limit {
        return Err(ContentReadFault::Border(border_faults));
    }
    *faults = border_faults;
    let size = symbol.size();
    let words = &mut room[..usize::from(size.data_count() + size.check_count())];
    lift_to(symbol, words);
    match restore_words(symbol, doubtful, extent, words, dealing, blocks) {
        Ok(()) => Ok(()),
        Err(lost) => Err(ContentReadFault::Block(lost)),
    }
}

/// Restores the codewords that a symbol holds, and leaves in `dealing` the one by which that is, and in `blocks` what
/// became of each block; or gives the first block that is lost.
fn restore_words(
    symbol: &BorrowedSymbol,
    doubtful: Option<&BorrowedSymbol>,
    extent: Extent,
    words: &mut [u8],
    dealing: &mut Dealing,
    blocks: &mut ArrayVec<BlockReading, MOST_BLOCKS>,
) -> Result<(), u8>
    requires doubtful { IfSome doubtful (λ doubtful. doubtful.now.size ≡ symbol.now.size) }
    requires held { AreHeldBy symbol.now words.old }
    ensures restored { OnOk result (AreRestored extent symbol.now
        (option_map (λ d. d.now) doubtful.entry) dealing.new words.old words.new
        × (blocks.new.items ≡ readings_by dealing.new symbol.now.size
        (option_map (λ d. d.now) doubtful.entry) words.old words.new)) }
    ensures lost { IfErr result (λ b. AreLost extent symbol.now
        (option_map (λ d. d.now) doubtful.entry) words.old b) }
{
    *dealing = Dealing::Standard;
    let size = symbol.size();
    let Err(first) = restore_blocks(size, words, Dealing::Standard, doubtful, blocks) else {
        return Ok(());
    };
    match extent {
        Extent::Usual => return Err(first),
        Extent::Wide => {}
    }
    if !restore_restarted(symbol, doubtful, words, blocks) {
        return Err(first);
    }
    *dealing = Dealing::Restarted;
    Ok(())
}

/// Restores each block to the codeword that is near to it but for what is doubtful, and leaves in `blocks` what became
/// of each; or gives the first block to which none is near. The codewords stand as the standard deals them, and the
/// modules hold them by this dealing.
pub(crate) fn restore_blocks(
    size: SymbolSize,
    words: &mut [u8],
    dealing: Dealing,
    doubtful: Option<&BorrowedSymbol>,
    blocks: &mut ArrayVec<BlockReading, MOST_BLOCKS>,
) -> Result<(), u8>
    requires words { AreOfSize size words.old }
    requires doubtful { IfSome doubtful (λ doubtful. doubtful.now.size ≡ size) }
    requires dealing { dealing ≡ Dealing.Restarted → IsDealtTwoWays size }
    ensures words { AreOfSize size words.new }
    ensures near { OnOk result (AreBlocksNear size
        (erased_by dealing size (option_map (λ d. d.now) doubtful.entry)) words.old words.new) }
    ensures readings { OnOk result (blocks.new.items ≡ block_readings size
        (erased_by dealing size (option_map (λ d. d.now) doubtful.entry)) words.old words.new) }
    ensures lost { IfErr result (λ b. IsFirstLost size
        (erased_by dealing size (option_map (λ d. d.now) doubtful.entry)) words.old b) }
{
    match doubtful {
        None => restore_each(size, words, None, blocks),
        Some(doubtful) => restore_doubtful(size, words, dealing, doubtful, blocks),
    }
}

/// Does the same as [`restore_blocks`] where modules are doubtful. It isn't inlined, so that the marks take room on the
/// stack only where there are any.
#[inline(never)]
fn restore_doubtful(
    size: SymbolSize,
    words: &mut [u8],
    dealing: Dealing,
    doubtful: &BorrowedSymbol,
    blocks: &mut ArrayVec<BlockReading, MOST_BLOCKS>,
) -> Result<(), u8>
    requires words { AreOfSize size words.old }
    requires doubtful { doubtful.now.size ≡ size }
    requires dealing { dealing ≡ Dealing.Restarted → IsDealtTwoWays size }
    ensures words { AreOfSize size words.new }
    ensures near { OnOk result (AreBlocksNear size (erased_by dealing size (Some doubtful.now))
        words.old words.new) }
    ensures readings { OnOk result (blocks.new.items ≡ block_readings size
        (erased_by dealing size (Some doubtful.now)) words.old words.new) }
    ensures lost { IfErr result (λ b. IsFirstLost size (erased_by dealing size (Some doubtful.now))
        words.old b) }
{
    // For the proof alone: what `check_count` ensures says that the codewords are no more than the most.
    let _checks = size.check_count();
    // To clear room for the largest symbol takes as long as a fifth of the reading of a small one.
    if words.len() <= FEW_CODEWORDS {
        restore_marked::<FEW_CODEWORDS>(size, words, dealing, doubtful, blocks)
    } else {
        restore_marked::<MOST_CODEWORDS>(size, words, dealing, doubtful, blocks)
    }
}

/// Does so with room for so many marks.
fn restore_marked<const ROOM: usize>(
    size: SymbolSize,
    words: &mut [u8],
    dealing: Dealing,
    doubtful: &BorrowedSymbol,
    blocks: &mut ArrayVec<BlockReading, MOST_BLOCKS>,
) -> Result<(), u8>
    requires words { AreOfSize size words.old }
    requires room { length words.old ≤ ROOM }
    requires most { ROOM ≤ MOST_CODEWORDS }
    requires doubtful { doubtful.now.size ≡ size }
    requires dealing { dealing ≡ Dealing.Restarted → IsDealtTwoWays size }
    ensures words { AreOfSize size words.new }
    ensures near { OnOk result (AreBlocksNear size (erased_by dealing size (Some doubtful.now))
        words.old words.new) }
    ensures readings { OnOk result (blocks.new.items ≡ block_readings size
        (erased_by dealing size (Some doubtful.now)) words.old words.new) }
    ensures lost { IfErr result (λ b. IsFirstLost size (erased_by dealing size (Some doubtful.now))
        words.old b) }
{
    let mut room = [0; ROOM];
    let marks = &mut room[..words.len()];
    mark(dealing, doubtful, marks);
    restore_each(size, words, Some(marks), blocks)
}

/// Restores each block to the codeword that is near to it but for the places that have marks, and leaves in `blocks`
/// what became of each; or gives the first block to which none is near.
fn restore_each(
    size: SymbolSize,
    words: &mut [u8],
    marks: Option<&[u8]>,
    blocks: &mut ArrayVec<BlockReading, MOST_BLOCKS>,
) -> Result<(), u8>
    requires words { AreOfSize size words.old }
    requires marks { IfSome marks (λ marks. AreOfSize size marks.now) }
    ensures words { AreOfSize size words.new }
    ensures near { OnOk result (AreBlocksNear size
        (marked_in size (option_map (λ m. m.now) marks.entry)) words.old words.new) }
    ensures readings { OnOk result (blocks.new.items ≡ block_readings size
        (marked_in size (option_map (λ m. m.now) marks.entry)) words.old words.new) }
    ensures lost { IfErr result (λ b. IsFirstLost size
        (marked_in size (option_map (λ m. m.now) marks.entry)) words.old b) }
{
    blocks.clear();
    for b in 0..size.blocks() as u8 {
        match restore_block(size, words, marks, usize::from(b)) {
            Some(restored) => blocks.push(restored),
            None => return Err(b),
        }
    }
    Ok(())
}
