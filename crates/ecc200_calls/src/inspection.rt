//! Inspecting.

ghost use Rattle.std.specs.Prelude.{◌≡◌, ◌≤◌, IfSome, IsTrue, length, map, option_map};
ghost use Rattle.dm_layout.specs.symbols.Sizes.{area, codeword_count};
ghost use Rattle.dm_words.specs.Contents.{HasMarkRoom};
ghost use Rattle.ecc200_calls.specs.Arrays.{over};
ghost use Rattle.ecc200_calls.specs.Inspections.{IsInspectResult, IsInspectionGiven, corrected_shown, erased_shown};
ghost use Rattle.ecc200_calls.specs.Inspections.{AreDesignatorsGiven, inspection_shown, left_shown, no_inspection};
ghost use Rattle.ecc200_calls.specs.inner.Designators.{AreFoundDesignators};
ghost use Rattle.ecc200_calls.specs.inner.Given.{IsOfGiven};
ghost use Rattle.ecc200_calls.specs.inner.Rooms.{HasRoom};

use crate::arrays::put_bytes;
use crate::fault::Fault;
use crate::given::{Given, check_given};
use crate::mark::{MarkNumbers, NO_MARK, put_marks};
use crate::modules::put_modules;
use crate::reading::dealing_number;
use crate::room::*;
use dm_layout::symbols::{MOST_BLOCKS, MOST_CODEWORDS, MOST_DATA, SymbolIn, SymbolSize};
use dm_symbol::{BlockReading, SymbolInspectionIn, inspect_symbol_to};
use dm_words::{designations_to, eci_count, has_eci};

/// This is shown instead of the number of corrected codewords where a block is beyond correction.
const BEYOND: u8 = 255;

/// The codewords of a symbol before and after correction. After a fault all but the fault and the arrays is 0.
#[repr(C)]
#[derive(Drop)]
pub struct InspectionOut {
    pub fault: Fault,
    pub rows: u16,
    pub columns: u16,
    pub border_faults: u16,
    pub block_count: u16,
    pub codeword_count: u16,
    pub dealing: u16,
    pub designator_count: u16,
    pub designators: [MarkNumbers; LARGEST_MARKS],
    pub corrected: [u8; MOST_BLOCKS],
    pub erased: [u8; MOST_BLOCKS],
    pub left: [u8; MOST_BLOCKS],
    pub held: [u8; MOST_CODEWORDS],
    pub mended: [u8; MOST_CODEWORDS],
}

/// Inspects the symbol of these modules, of which these are doubtful.
pub fn inspect(
    modules: &[u8],
    doubtful: &[u8],
    rows: u16,
    columns: u16,
    out: &mut InspectionOut,
) -> u16
    ensures out { IsInspectResult rows columns modules.now doubtful.now out.old out.new }
    ensures code { result ≡ out.new.fault.code }
{
    match check_given(modules, doubtful, rows, columns) {
        Ok(given) => in_room!(
            Room::of(given.size),
            inspect_given::<ROWS, WORDS, ITEMS, MARKS>(modules, doubtful, given, out)
        ),
        Err(why) => show_fault(out, why),
    }
    out.fault.code
}

/// Shows the inspection of the symbol of these modules in a room that serves for it. It stands by itself, so that no
/// other room is left for it on the stack.
#[inline(never)]
fn inspect_given<const ROWS: usize, const WORDS: usize, const ITEMS: usize, const MARKS: usize>(
    modules: &[u8],
    doubtful: &[u8],
    given: Given,
    out: &mut InspectionOut,
)
    requires room { HasRoom ROWS WORDS ITEMS MARKS given.size }
    requires modules { length modules.now ≡ area given.size }
    requires doubtful { IsTrue given.doubt → length doubtful.now ≡ area given.size }
    ensures { IsOfGiven given.size modules.now doubtful.now given.doubt (λ symbol doubtful.
        IsInspectionGiven given.size.rows given.size.columns symbol doubtful out.old out.new) }
{
    let mut symbol = SymbolIn::<ROWS>::light(given.size);
    put_modules(&mut symbol, modules);
    if given.doubt {
        let mut marked = SymbolIn::<ROWS>::light(given.size);
        put_modules(&mut marked, doubtful);
        inspect_symbol::<ROWS, WORDS>(&symbol, Some(&marked), out);
    } else {
        inspect_symbol::<ROWS, WORDS>(&symbol, None, out);
    }
}

/// Shows the inspection of a symbol of whose modules these are doubtful.
fn inspect_symbol<const ROWS: usize, const WORDS: usize>(
    symbol: &SymbolIn<ROWS>,
    doubtful: Option<&SymbolIn<ROWS>>,
    out: &mut InspectionOut,
)
    requires doubtful { IfSome doubtful (λ doubtful. doubtful.now.size ≡ symbol.now.size) }
    requires codewords { codeword_count symbol.now.size ≤ WORDS }
    requires room { WORDS ≤ MOST_CODEWORDS }
    ensures { IsInspectionGiven symbol.now.size.rows symbol.now.size.columns symbol.now
        (option_map (λ d. d.now) doubtful.entry) out.old out.new }
{
    let size = symbol.size();
    let mut inspection = SymbolInspectionIn::<WORDS>::new(size);
    inspect_symbol_to(symbol, doubtful, &mut inspection);
    show_inspection(out, size, &inspection);
    show_designators(out, &inspection);
}

/// Shows a fault in place of an inspection.
fn show_fault(out: &mut InspectionOut, why: Fault)
    ensures { out.new ≡ no_inspection why out.old }
{
    out.fault = why;
    out.rows = 0;
    out.columns = 0;
    out.border_faults = 0;
    out.block_count = 0;
    out.codeword_count = 0;
    out.dealing = 0;
    out.designator_count = 0;
}

/// Shows an inspection of a symbol of this size, without designators.
#[tactic(auto, using(crate::proofs::Rooms::words_fit))]
fn show_inspection<const WORDS: usize>(
    out: &mut InspectionOut,
    size: SymbolSize,
    inspection: &SymbolInspectionIn<WORDS>,
)
    ensures { out.new ≡ inspection_shown size.rows size.columns inspection.now out.old }
{
    let blocks = inspection.blocks.as_slice();
    out.fault = Fault::none();
    out.rows = size.rows();
    out.columns = size.columns();
    out.border_faults = inspection.border_faults;
    out.block_count = blocks.len() as u16;
    out.codeword_count = inspection.held.list().len() as u16;
    out.dealing = dealing_number(inspection.dealing);
    out.designator_count = 0;
    put_counts(&mut out.corrected, &mut out.erased, &mut out.left, blocks);
    put_bytes(&mut out.held, inspection.held.list());
    put_bytes(&mut out.mended, inspection.mended.list());
}

/// Shows the designators of an inspected symbol, in room for as many as its codewords can say.
#[tactic(auto, using(crate::proofs::Rooms::data_few))]
fn show_designators<const WORDS: usize>(
    out: &mut InspectionOut,
    inspection: &SymbolInspectionIn<WORDS>,
)
    ensures { AreDesignatorsGiven inspection.now out.old out.new }
{
    let words = inspection.mended.data_part();
    if inspection.blocks.iter().any(|block| block.is_none()) {
        out.designator_count = 0;
    } else if !has_eci(words) {
        out.designator_count = 0;
    } else if usize::from(eci_count(words)) <= SMALL_MARKS {
        find_designators::<SMALL_MARKS>(out, words);
    } else {
        find_designators::<LARGEST_MARKS>(out, words);
    }
}

/// Shows the designators among data codewords, in room for so many. It isn't inlined, so that it takes room on the
/// stack only where there may be any.
#[inline(never)]
fn find_designators<const MARKS: usize>(out: &mut InspectionOut, words: &[u8])
    requires short { length words.now ≤ MOST_DATA }
    requires room { HasMarkRoom MARKS words.now }
    requires few_marks { MARKS ≤ LARGEST_MARKS }
    ensures { AreFoundDesignators words.now out.old out.new }
{
    let mut marks = [NO_MARK; MARKS];
    let count = designations_to(words, &mut marks);
    out.designator_count = count as u16;
    put_marks(&mut out.designators, &marks[..count]);
}

/// Writes the counts that are shown of these blocks over the first ones, as a reading has them.
fn put_counts(
    corrected: &mut [u8],
    erased: &mut [u8],
    left: &mut [u8],
    blocks: &[Option<BlockReading>],
)
    requires corrected_room { length blocks.now ≤ length corrected.old }
    requires erased_room { length blocks.now ≤ length erased.old }
    requires left_room { length blocks.now ≤ length left.old }
    ensures corrected { corrected.new ≡ over (map corrected_shown blocks.now) corrected.old }
    ensures erased { erased.new ≡ over (map erased_shown blocks.now) erased.old }
    ensures left { left.new ≡ over (map left_shown blocks.now) left.old }
{
    for (b, block) in blocks.iter().enumerate() {
        let counts = counts_of(*block);
        corrected[b] = counts.corrected;
        erased[b] = counts.erased;
        left[b] = counts.left;
    }
}

/// Gives the counts that are shown of a block.
fn counts_of(block: Option<BlockReading>) -> BlockReading
    ensures corrected { result.corrected ≡ corrected_shown block }
    ensures erased { result.erased ≡ erased_shown block }
    ensures left { result.left ≡ left_shown block }
{
    match block {
        Some(counts) => counts,
        None => BlockReading {
            corrected: BEYOND,
            erased: 0,
            left: 0,
        },
    }
}
