//! Reading a symbol of any size as a content.

ghost use Rattle.std.specs.Prelude.{◌≡◌, ◌≤◌, ◌*◌, ℕ, List, length, OnOk, IfOk, IfErr, IfSome, option_map};
ghost use Rattle.dm_layout.specs.symbols.Sizes.{codeword_count};
ghost use Rattle.dm_words.specs.Contents.{HasMarkRoom, IsRefused, Says};
ghost use Rattle.dm_words.specs.Messages.{most_spelled};
ghost use Rattle.dm_words.specs.Outcomes.{outcome};
ghost use Rattle.dm_words.specs.Symbology.{IsIdentifier};
ghost use Rattle.dm_symbol.specs.SymbolReading.{AreRestored};
ghost use Rattle.dm_symbol.specs.ContentReading.{IsContentRead, content_reading_in};

use crate::Extent;
use crate::contents::{ContentReadFault, ContentReadingIn};
use crate::symbol::reading::{ReadOptions, restore_symbol_to};
use dm_layout::symbols::{SymbolIn, SymbolWordsIn};
use dm_words::{ContentFault, ContentIn, LARGEST_ROOM, MOST_DATA, content_to_as, symbology_number};

/// Reads data codewords as the content that they say in the extent, and gives the number of their symbology identifier.
fn content_said<const ITEMS: usize, const MARKS: usize>(
    extent: Extent,
    words: &[u8],
    content: &mut ContentIn<ITEMS, MARKS>,
) -> Result<u8, ContentFault>
    requires short { length words.now ≤ MOST_DATA }
    requires most { ITEMS ≤ LARGEST_ROOM }
    requires room { most_spelled extent (length words.now) ≤ ITEMS }
    requires marks { HasMarkRoom MARKS words.now }
    ensures said { IfOk result (λ number. Says extent words.now content.new
        × IsIdentifier words.now content.new number) }
    ensures refused { IfErr result (λ fault. IsRefused extent words.now fault) }
{
    match content_to_as(extent, words, content) {
        Ok(()) => Ok(symbology_number(words, content)),
        Err(fault) => Err(fault),
    }
}

/// Reads a symbol of any size as a content, which is a head or none, items and marks (ISO/IEC 16022, decode algorithm,
/// ECI encodation, structured append, reader programming): refuses it if more modules of its borders than
/// `how.border_limit` have the wrong colour and aren't doubtful; restores the blocks in order; and reads the restored
/// data codewords as the content that they say in the extent. The first of these steps that fails gives the fault:
/// `Border` with the number of such modules, `Block` with the first block that is beyond correction, `Words`. At
/// [`Extent::Usual`](crate::Extent::Usual) the content has no head and no marks. What is read there is read at
/// [`Extent::Wide`](crate::Extent::Wide) as the same.
///
/// A block with k check codewords is restored where twice the number of its wrong codewords, and the number of its
/// erased ones, of which a module is doubtful, are together at most k. Where no module is doubtful, that is up to half
/// of its check codewords, rounded down. At `Wide` a symbol of 144 x 144 of which a block is lost is restored as some
/// encoders deal its check codewords into blocks, where all blocks can be:
/// [`dealing`](ContentReadingIn::dealing) then is [`Dealing::Restarted`]. The fixed square isn't looked at, nor is what
/// follows the first pad. The symbol is taken to be upright. One with more damage may be near the codewords of another
/// content, and is then read as that content. Where a block has erased codewords and its [`left`](BlockReading::left)
/// is 0, that is likely.
///
/// After `Ok`, `reading` holds what the symbol says, whatever it held before, and the number of the symbology
/// identifier of its codewords. After `Border` it is as it was, and after another fault it holds some reading. `words`
/// is room for the codewords, whatever they were before; after `Ok` it holds them as they were restored.
///
/// Doubtful modules, where there are any, are a symbol of the same size. The rooms are for what a symbol of this size
/// has: all its codewords, the items that its data codewords can spell in the extent, two for each and at `Wide` seven
/// more, and a mark for each two codewords. Small rooms are made faster than those that serve every symbol.
pub fn read_content_to<
    const ROWS: usize,
    const WORDS: usize,
    const ITEMS: usize,
    const MARKS: usize,
>(
    symbol: &SymbolIn<ROWS>,
    how: ReadOptions<ROWS>,
    words: &mut SymbolWordsIn<WORDS>,
    reading: &mut ContentReadingIn<ITEMS, MARKS>,
) -> Result<(), ContentReadFault>
    requires doubtful { IfSome how.doubtful (λ doubtful. doubtful.now.size ≡ symbol.now.size) }
    requires codewords { codeword_count symbol.now.size ≤ WORDS }
    requires items { most_spelled how.extent symbol.now.size.data_count ≤ ITEMS }
    requires most { ITEMS ≤ LARGEST_ROOM }
    requires marks { symbol.now.size.data_count ≤ 2 * MARKS }
    ensures read { IsContentRead how.entry.extent symbol.now
        (option_map (λ d. d.now) how.entry.doubtful) how.entry.border_limit
        (outcome result (content_reading_in reading.new)) }
    ensures same { (count : ℕ) → result ≡ Err (ContentReadFault.Border count)
        → reading.new ≡ reading.old }
    ensures restored { OnOk result ((held : List ℕ) × AreRestored how.entry.extent symbol.now
        (option_map (λ d. d.now) how.entry.doubtful) reading.new.dealing held words.new.list) }
    ensures size { OnOk result (words.new.size ≡ symbol.now.size) }
{
    match restore_symbol_to(
        symbol,
        how,
        words,
        &mut reading.dealing,
        &mut reading.blocks,
        &mut reading.border_faults,
    ) {
        Ok(()) => {}
        Err(fault) => return Err(fault),
    }
    match content_said(how.extent, words.data_part(), &mut reading.content) {
        Ok(number) => {
            reading.identifier = number;
            Ok(())
        }
        Err(fault) => Err(ContentReadFault::Words(fault)),
    }
}
