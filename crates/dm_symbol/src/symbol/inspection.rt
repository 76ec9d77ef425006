//! Inspection of a symbol of any size: its codewords before and after they are restored, whether it can be read or not.

ghost use Rattle.std.specs.Prelude.{◌≡◌, ◌≤◌, List, [], IfSome, IsTrue, IsFalse, Some, length, map, option_map, ℕ};
ghost use Rattle.std.specs.Prelude.{replicate};
ghost use Rattle.dm_layout.specs.symbols.Sizes.{codeword_count};
ghost use Rattle.dm_layout.specs.symbols.Holding.{Holds};
ghost use Rattle.dm_layout.specs.symbols.Words.{first_words};
ghost use Rattle.dm_symbol.specs.Dealings.{IsDealtTwoWays, erased_by};
ghost use Rattle.dm_symbol.specs.SymbolBlocks.{AreOfSize, words_with};
ghost use Rattle.dm_symbol.specs.SymbolReading.{AreBlocksMended, AreRestoredBy};
ghost use Rattle.dm_symbol.specs.SymbolInspection.{IsSymbolInspection};
ghost use Rattle.dm_symbol.specs.inner.Marks.{marked_in};
ghost use Rattle.dm_symbol.specs.inner.Restoring.{AreHeldBy, IsRestarted};
ghost use Rattle.dm_symbol.specs.inner.Showing.{IsMended};

use crate::symbol::correction::{mark, restore_block};
use crate::symbol::dealing::{Dealing, restore_restarted};
use crate::symbol::reading::{BlockReading, FEW_CODEWORDS};
use arrayvec::ArrayVec;
use dm_layout::symbols::{
    BorrowedSymbol, MOST_BLOCKS, MOST_CODEWORDS, SymbolIn, SymbolSize, SymbolWordsIn,
    border_faults, lift_to,
};

/// The codewords of a symbol, at most `WORDS`, and the same restored as far as they can be.
#[derive(Clone, Debug, Drop, PartialEq, Eq)]
pub struct SymbolInspectionIn<const WORDS: usize> {
    /// The codewords that the symbol holds.
    pub held: SymbolWordsIn<WORDS>,
    /// The same, at the same places, with each block restored to the codeword that is near to it but for what is
    /// doubtful. A block to which none is near is left as it is.
    pub mended: SymbolWordsIn<WORDS>,
    /// The dealing that is shown, which is the one by which the symbol is read at
    /// [`Extent::Wide`](crate::Extent::Wide), and the standard's where it is read by neither.
    pub dealing: Dealing,
    /// What became of each block, dealt so, in order; None where no codeword is near to it.
    pub blocks: ArrayVec<Option<BlockReading>, MOST_BLOCKS>,
    /// How many modules of the borders have the wrong colour and aren't doubtful.
    pub border_faults: u16,
}

/// The codewords of a symbol of any size, and the same restored as far as they can be.
pub type SymbolInspection = SymbolInspectionIn<MOST_CODEWORDS>;

impl<const WORDS: usize> SymbolInspectionIn<WORDS> {
    /// Gives an inspection with no block in it, and with codewords of this size that are all 0, into which
    /// [`inspect_symbol_to`] can inspect.
    pub fn new(size: SymbolSize) -> SymbolInspectionIn<WORDS>
        requires { codeword_count size ≤ WORDS }
        ensures held { result.held ≡ words_with size (replicate (codeword_count size) 0) }
        ensures mended { result.mended ≡ words_with size (replicate (codeword_count size) 0) }
        ensures blocks { result.blocks.items ≡ [] }
        ensures dealing { result.dealing ≡ Dealing.Standard }
        ensures border { result.border_faults ≡ 0 }
    {
        SymbolInspectionIn {
            held: SymbolWordsIn::zeros(size),
            mended: SymbolWordsIn::zeros(size),
            dealing: Dealing::Standard,
            blocks: ArrayVec::new(),
            border_faults: 0,
        }
    }
}

/// Inspects a symbol: leaves in `inspection`, whatever it held before, the codewords that the symbol holds, and the
/// same with each block restored to which a codeword is near but for what is doubtful. Where
/// [`read_content_to`](crate::read_content_to()) refuses a border or a block, or finds codewords that say no content,
/// this goes on, so that a program can show what is wrong with a symbol. A symbol of 144 x 144 of which a block is lost
/// is shown by the other [`Dealing`], where no block is lost by it. Doubtful modules, where there are any, are a
/// symbol of the same size, dark where a module of the symbol is doubtful.
pub fn inspect_symbol_to<const ROWS: usize, const WORDS: usize>(
    symbol: &SymbolIn<ROWS>,
    doubtful: Option<&SymbolIn<ROWS>>,
    inspection: &mut SymbolInspectionIn<WORDS>,
)
    requires doubtful { IfSome doubtful (λ doubtful. doubtful.now.size ≡ symbol.now.size) }
    requires codewords { codeword_count symbol.now.size ≤ WORDS }
    ensures { IsSymbolInspection symbol.now (option_map (λ d. d.now) doubtful.entry)
        inspection.new }
{
    let symbol = symbol.borrowed();
    match doubtful {
        None => inspect(&symbol, None, inspection),
        Some(doubtful) => inspect(&symbol, Some(&doubtful.borrowed()), inspection),
    }
}

/// Does so with borrowed rows.
fn inspect<const WORDS: usize>(
    symbol: &BorrowedSymbol,
    doubtful: Option<&BorrowedSymbol>,
    inspection: &mut SymbolInspectionIn<WORDS>,
)
    requires doubtful { IfSome doubtful (λ doubtful. doubtful.now.size ≡ symbol.now.size) }
    requires codewords { codeword_count symbol.now.size ≤ WORDS }
    ensures { IsSymbolInspection symbol.now (option_map (λ d. d.now) doubtful.entry)
        inspection.new }
{
    let size = symbol.size();
    let (held, mended) = (&mut inspection.held, &mut inspection.mended);
    let (held, mended) = (held.resize(size), mended.resize(size));
    inspection.border_faults = border_faults(symbol, doubtful);
    inspection.dealing = mend(symbol, doubtful, held, mended, &mut inspection.blocks);
}

/// Leaves the codewords that a symbol holds at the start of `held`, and the same restored as far as they can be at the
/// start of `mended`, whatever the rooms; leaves in `blocks` what became of each block, and gives the dealing by which
/// that is.
fn mend(
    symbol: &BorrowedSymbol,
    doubtful: Option<&BorrowedSymbol>,
    held: &mut [u8],
    mended: &mut [u8],
    blocks: &mut ArrayVec<Option<BlockReading>, MOST_BLOCKS>,
) -> Dealing
    requires doubtful { IfSome doubtful (λ doubtful. doubtful.now.size ≡ symbol.now.size) }
    requires held { codeword_count symbol.now.size ≤ length held.old }
    requires mended { codeword_count symbol.now.size ≤ length mended.old }
    ensures held { Holds symbol.now (first_words symbol.now.size held.new) }
    ensures mended { IsMended symbol.now (option_map (λ d. d.now) doubtful.entry)
        (first_words symbol.now.size held.new).list (first_words symbol.now.size mended.new).list result
        blocks.new.items }
{
    let size = symbol.size();
    let count = usize::from(size.data_count() + size.check_count());
    let held = &mut held[..count];
    lift_to(symbol, held);
    let words = &mut mended[..count];
    words.copy_from_slice(held);
    mend_words(symbol, doubtful, words, blocks)
}

/// Restores the codewords that a symbol holds as far as they can be, leaves in `blocks` what became of each block, and
/// gives the dealing by which that is.
fn mend_words(
    symbol: &BorrowedSymbol,
    doubtful: Option<&BorrowedSymbol>,
    words: &mut [u8],
    blocks: &mut ArrayVec<Option<BlockReading>, MOST_BLOCKS>,
) -> Dealing
    requires doubtful { IfSome doubtful (λ doubtful. doubtful.now.size ≡ symbol.now.size) }
    requires held { AreHeldBy symbol.now words.old }
    ensures { IsMended symbol.now (option_map (λ d. d.now) doubtful.entry) words.old words.new result
        blocks.new.items }
{
    let size = symbol.size();
    mend_blocks(size, words, doubtful, blocks);
    if !blocks.iter().any(|block| block.is_none()) {
        return Dealing::Standard;
    }
    if mend_restarted(symbol, doubtful, words, blocks) {
        Dealing::Restarted
    } else {
        Dealing::Standard
    }
}

/// Restores the codewords by the other dealing, if the symbol is of 144 x 144 and each block is near to a codeword by
/// it, and says so; else all stays. It isn't inlined, so that it takes room on the stack only where a block is lost.
#[inline(never)]
fn mend_restarted(
    symbol: &BorrowedSymbol,
    doubtful: Option<&BorrowedSymbol>,
    words: &mut [u8],
    blocks: &mut ArrayVec<Option<BlockReading>, MOST_BLOCKS>,
) -> bool
    requires doubtful { IfSome doubtful (λ doubtful. doubtful.now.size ≡ symbol.now.size) }
    requires words { AreOfSize symbol.now.size words.old }
    ensures restored { IsTrue result → (readings : List BlockReading)
        × IsRestarted symbol.now (option_map (λ d. d.now) doubtful.entry) words.new readings
        × (blocks.new.items ≡ map (λ block. Some block) readings) }
    ensures lost { IsFalse result → IsDealtTwoWays symbol.now.size → (held codewords : List ℕ)
        → AreRestoredBy Dealing.Restarted symbol.now (option_map (λ d. d.now) doubtful.entry) held codewords
        → ⊥ }
    ensures same { IsFalse result → (words.new ≡ words.old) × (blocks.new ≡ blocks.old) }
{
    let mut room = [0; MOST_CODEWORDS];
    let restored = &mut room[..words.len()];
    let mut readings = ArrayVec::new();
    if !restore_restarted(symbol, doubtful, restored, &mut readings) {
        return false;
    }
    words.copy_from_slice(restored);
    show_blocks(&readings, blocks);
    true
}

/// Leaves in `shown` these readings, each of a block to which a codeword is near.
fn show_blocks(blocks: &[BlockReading], shown: &mut ArrayVec<Option<BlockReading>, MOST_BLOCKS>)
    requires { length blocks.now ≤ MOST_BLOCKS }
    ensures { shown.new.items ≡ map (λ block. Some block) blocks.now }
{
    shown.clear();
    for block in blocks {
        shown.push(Some(*block));
    }
}

/// Restores each block to which a codeword is near but for what is doubtful, and leaves in `blocks` what became of
/// each.
fn mend_blocks(
    size: SymbolSize,
    words: &mut [u8],
    doubtful: Option<&BorrowedSymbol>,
    blocks: &mut ArrayVec<Option<BlockReading>, MOST_BLOCKS>,
)
    requires words { AreOfSize size words.old }
    requires doubtful { IfSome doubtful (λ doubtful. doubtful.now.size ≡ size) }
    ensures words { AreOfSize size words.new }
    ensures count { length blocks.new.items ≡ size.blocks }
    ensures mended { AreBlocksMended size
        (erased_by Dealing.Standard size (option_map (λ d. d.now) doubtful.entry)) words.old words.new
        blocks.new.items }
{
    match doubtful {
        None => mend_each(size, words, None, blocks),
        Some(doubtful) => mend_doubtful(size, words, doubtful, blocks),
    }
}

/// Does the same as [`mend_blocks`] where modules are doubtful. It isn't inlined, so that the marks take room on the
/// stack only where there are any.
#[inline(never)]
fn mend_doubtful(
    size: SymbolSize,
    words: &mut [u8],
    doubtful: &BorrowedSymbol,
    blocks: &mut ArrayVec<Option<BlockReading>, MOST_BLOCKS>,
)
    requires words { AreOfSize size words.old }
    requires doubtful { doubtful.now.size ≡ size }
    ensures words { AreOfSize size words.new }
    ensures count { length blocks.new.items ≡ size.blocks }
    ensures mended { AreBlocksMended size (erased_by Dealing.Standard size (Some doubtful.now))
        words.old words.new blocks.new.items }
{
    // For the proof alone: what `check_count` ensures says that the codewords are no more than the most.
    let _checks = size.check_count();
    if words.len() <= FEW_CODEWORDS {
        mend_marked::<FEW_CODEWORDS>(size, words, doubtful, blocks);
    } else {
        mend_marked::<MOST_CODEWORDS>(size, words, doubtful, blocks);
    }
}

/// Does so with room for so many marks.
fn mend_marked<const ROOM: usize>(
    size: SymbolSize,
    words: &mut [u8],
    doubtful: &BorrowedSymbol,
    blocks: &mut ArrayVec<Option<BlockReading>, MOST_BLOCKS>,
)
    requires words { AreOfSize size words.old }
    requires room { length words.old ≤ ROOM }
    requires most { ROOM ≤ MOST_CODEWORDS }
    requires doubtful { doubtful.now.size ≡ size }
    ensures words { AreOfSize size words.new }
    ensures count { length blocks.new.items ≡ size.blocks }
    ensures mended { AreBlocksMended size (erased_by Dealing.Standard size (Some doubtful.now)) words.old words.new
        blocks.new.items }
{
    let mut room = [0; ROOM];
    let marks = &mut room[..words.len()];
    mark(Dealing::Standard, doubtful, marks);
    mend_each(size, words, Some(marks), blocks);
}

/// Restores each block to which a codeword is near but for the places that have marks, and leaves in `blocks` what
/// became of each.
fn mend_each(
    size: SymbolSize,
    words: &mut [u8],
    marks: Option<&[u8]>,
    blocks: &mut ArrayVec<Option<BlockReading>, MOST_BLOCKS>,
)
    requires words { AreOfSize size words.old }
    requires marks { IfSome marks (λ marks. AreOfSize size marks.now) }
    ensures words { AreOfSize size words.new }
    ensures count { length blocks.new.items ≡ size.blocks }
    ensures mended { AreBlocksMended size (marked_in size (option_map (λ m. m.now) marks.entry))
        words.old words.new blocks.new.items }
{
    blocks.clear();
    for b in 0..size.blocks() {
        blocks.push(restore_block(size, words, marks, usize::from(b)));
    }
}
