//! Restoring: the codewords of the symbol that is given to a call, in the room that serves for the symbol. What they
//! say is then read in room that is chosen by them.

ghost use Rattle.std.specs.Prelude.{◌≡◌, ◌≤◌, All, Err, IfErr, IfSome, IsTrue, OnOk, false, length, option_map};
ghost use Rattle.dm_layout.specs.symbols.Sizes.{area, codeword_count};
ghost use Rattle.dm_symbol.specs.declared.ContentFault.{ContentFault};
ghost use Rattle.dm_symbol.specs.Doubt.{sure_fault_count};
ghost use Rattle.dm_words.specs.Contents.{eci_count};
ghost use Rattle.ecc200_calls.specs.Scans.{LeavesCorrections};
ghost use Rattle.ecc200_calls.specs.inner.Given.{IsOfGiven};
ghost use Rattle.ecc200_calls.specs.inner.Restored.{IsRestored, IsRestoredFor, IsRestoredOr};
ghost use Rattle.ecc200_calls.specs.inner.Rooms.{IsRoom};

use crate::given::Given;
use crate::modules::put_modules;
use crate::reading::usual_limit;
use crate::room::{FAIR_MARKS, SMALL_MARKS};
use crate::scan::{BorderLimit, Sought};
use arrayvec::ArrayVec;
use dm_layout::symbols::{MOST_BLOCKS, MOST_DATA, SymbolIn, SymbolWordsIn};
use dm_symbol::{BlockReading, ContentReadFault, Dealing, Extent, ReadOptions, restore_symbol_to};
use dm_words::eci_count;

/// How many check codewords a correction takes.
const CHECKS_OF_A_CORRECTION: u8 = 2;

/// What is known of a symbol whose codewords are restored, beside these.
#[derive(Drop)]
pub(crate) struct Restored {
    pub(crate) dealing: Dealing,
    pub(crate) blocks: ArrayVec<BlockReading, MOST_BLOCKS>,
    pub(crate) border_faults: u16,
}

impl Restored {
    /// Makes one, to be replaced.
    pub(crate) fn new() -> Restored {
        Restored {
            dealing: Dealing::Standard,
            blocks: ArrayVec::new(),
            border_faults: 0,
        }
    }
}

/// Restores the codewords of the symbol of these modules, of which these are doubtful, or says why there are none. It
/// stands by itself, so that the symbol takes no room on the stack when its codewords are read.
#[inline(never)]
pub(crate) fn restore_given<const ROWS: usize, const WORDS: usize>(
    sought: Sought,
    modules: &[u8],
    doubtful: &[u8],
    given: Given,
    words: &mut SymbolWordsIn<WORDS>,
    restored: &mut Restored,
) -> Result<(), ContentReadFault>
    requires room { IsRoom ROWS WORDS }
    requires high { given.size.rows ≤ ROWS }
    requires long { codeword_count given.size ≤ WORDS }
    requires modules { length modules.now ≡ area given.size }
    requires doubtful { IsTrue given.doubt → length doubtful.now ≡ area given.size }
    ensures restored { IsOfGiven given.size modules.now doubtful.now given.doubt (λ symbol doubtful.
        IsRestoredFor sought.limit sought.extent symbol doubtful result words.new restored.new) }
    ensures size { OnOk result (words.new.size ≡ given.size) }
{
    let mut symbol = SymbolIn::<ROWS>::light(given.size);
    put_modules(&mut symbol, modules);
    if given.doubt {
        let mut marked = SymbolIn::<ROWS>::light(given.size);
        put_modules(&mut marked, doubtful);
        restore_symbol(sought, &symbol, Some(&marked), words, restored)
    } else {
        restore_symbol(sought, &symbol, None, words, restored)
    }
}

/// Restores the codewords of a symbol, of whose modules these are doubtful, at the border limit that is sought, or says
/// why there are none.
#[inline]
fn restore_symbol<const ROWS: usize, const WORDS: usize>(
    sought: Sought,
    symbol: &SymbolIn<ROWS>,
    doubtful: Option<&SymbolIn<ROWS>>,
    words: &mut SymbolWordsIn<WORDS>,
    restored: &mut Restored,
) -> Result<(), ContentReadFault>
    requires doubtful { IfSome doubtful (λ doubtful. doubtful.now.size ≡ symbol.now.size) }
    requires codewords { codeword_count symbol.now.size ≤ WORDS }
    ensures restored { IsRestoredFor sought.limit sought.extent symbol.now
        (option_map (λ d. d.now) doubtful.entry) result words.new restored.new }
    ensures size { OnOk result (words.new.size ≡ symbol.now.size) }
{
    let extent = sought.extent;
    match sought.limit {
        BorderLimit::Modules(limit) => {
            restore_within(extent, symbol, doubtful, limit, words, restored)
        }
        BorderLimit::Sure => restore_surely(extent, symbol, doubtful, words, restored),
    }
}

/// Does so with at most so many border faults.
fn restore_within<const ROWS: usize, const WORDS: usize>(
    extent: Extent,
    symbol: &SymbolIn<ROWS>,
    doubtful: Option<&SymbolIn<ROWS>>,
    border_limit: u16,
    words: &mut SymbolWordsIn<WORDS>,
    restored: &mut Restored,
) -> Result<(), ContentReadFault>
    requires doubtful { IfSome doubtful (λ doubtful. doubtful.now.size ≡ symbol.now.size) }
    requires codewords { codeword_count symbol.now.size ≤ WORDS }
    ensures restored { IsRestoredOr extent symbol.now (option_map (λ d. d.now) doubtful.entry)
        border_limit result words.new restored.new }
    ensures unsaid { (why : ContentFault) → result ≡ Err (ContentReadFault.Words why) → ⊥ }
    ensures size { OnOk result (words.new.size ≡ symbol.now.size) }
{
    let how = ReadOptions {
        extent,
        border_limit,
        doubtful,
    };
    restore_symbol_to(
        symbol,
        how,
        words,
        &mut restored.dealing,
        &mut restored.blocks,
        &mut restored.border_faults,
    )
}

/// Does so with as many border faults as are sure: it begins with as many as usual.
#[inline(never)]
fn restore_surely<const ROWS: usize, const WORDS: usize>(
    extent: Extent,
    symbol: &SymbolIn<ROWS>,
    doubtful: Option<&SymbolIn<ROWS>>,
    words: &mut SymbolWordsIn<WORDS>,
    restored: &mut Restored,
) -> Result<(), ContentReadFault>
    requires doubtful { IfSome doubtful (λ doubtful. doubtful.now.size ≡ symbol.now.size) }
    requires codewords { codeword_count symbol.now.size ≤ WORDS }
    ensures restored { IsRestoredFor BorderLimit.Sure extent symbol.now
        (option_map (λ d. d.now) doubtful.entry) result words.new restored.new }
    ensures size { OnOk result (words.new.size ≡ symbol.now.size) }
{
    let size = symbol.size();
    let usual = usual_limit(size.rows(), size.columns());
    match restore_within(extent, symbol, doubtful, usual, words, restored) {
        Ok(()) => Ok(()),
        Err(ContentReadFault::Border(count)) => {
            restore_if_sure(extent, symbol, doubtful, count, words, restored)
        }
        Err(ContentReadFault::Block(index)) => Err(ContentReadFault::Block(index)),
        Err(ContentReadFault::Words(why)) => Err(ContentReadFault::Words(why)),
    }
}

/// Does so with as many border faults as there are, if each block then leaves a correction unused. Else these are too
/// many.
fn restore_if_sure<const ROWS: usize, const WORDS: usize>(
    extent: Extent,
    symbol: &SymbolIn<ROWS>,
    doubtful: Option<&SymbolIn<ROWS>>,
    count: u16,
    words: &mut SymbolWordsIn<WORDS>,
    restored: &mut Restored,
) -> Result<(), ContentReadFault>
    requires doubtful { IfSome doubtful (λ doubtful. doubtful.now.size ≡ symbol.now.size) }
    requires codewords { codeword_count symbol.now.size ≤ WORDS }
    requires count { count ≡ sure_fault_count symbol.now (option_map (λ d. d.now) doubtful) }
    ensures sure { OnOk result (LeavesCorrections extent symbol.now
        (option_map (λ d. d.now) doubtful.entry)) }
    ensures restored { OnOk result (IsRestored extent symbol.now
        (option_map (λ d. d.now) doubtful.entry) count words.new restored.new) }
    ensures unsure { IfErr result (λ why. (why ≡ ContentReadFault.Border count)
        × (LeavesCorrections extent symbol.now (option_map (λ d. d.now) doubtful.entry) → ⊥)) }
    ensures size { OnOk result (words.new.size ≡ symbol.now.size) }
{
    match restore_within(extent, symbol, doubtful, count, words, restored) {
        Ok(()) => {
            if leave_corrections(&restored.blocks) {
                Ok(())
            } else {
                Err(ContentReadFault::Border(count))
            }
        }
        Err(_) => Err(ContentReadFault::Border(count)),
    }
}

/// Whether each block leaves a correction unused.
fn leave_corrections(blocks: &[BlockReading]) -> bool
    ensures all { IsTrue result → All (λ block. 2 ≤ block.left) blocks.now }
    ensures some { result ≡ false → All (λ block. 2 ≤ block.left) blocks.now → ⊥ }
{
    blocks
        .iter()
        .all(|block| block.left >= CHECKS_OF_A_CORRECTION)
}

/// Whether the marks that data codewords say have room in the small room, where it is for fewer than this one. To count
/// what may be marks is then less work than to clear room for all that there can be.
pub(crate) fn has_few_marks<const MARKS: usize>(words: &[u8]) -> bool
    requires { length words.now ≤ MOST_DATA }
    ensures { IsTrue result → eci_count words.now ≤ SMALL_MARKS }
{
    MARKS > FAIR_MARKS && usize::from(eci_count(words)) <= SMALL_MARKS
}
