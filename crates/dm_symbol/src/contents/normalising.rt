//! Normalising a symbol of any size: the normal symbol of the content that it says.

ghost use Rattle.std.specs.Prelude.{◌≡◌, ◌≤◌, ◌*◌, OnErr, IfSome, option_map};
ghost use Rattle.dm_words.specs.Messages.{most_spelled};
ghost use Rattle.dm_words.specs.Outcomes.{outcome};
ghost use Rattle.dm_symbol.specs.ContentReading.{content_reading_in};
ghost use Rattle.dm_symbol.specs.ContentNormal.{IsContentNormalisedTo};
ghost use Rattle.dm_symbol.specs.NormalContent.{IsContentWritten};

use crate::contents::reading::read_content_to;
use crate::contents::writing::{Form, WriteOptions, write_content_to};
use crate::contents::{ContentNormalFault, ContentReadingIn};
use crate::symbol::reading::ReadOptions;
use dm_layout::symbols::{SizeChoice, Symbol, SymbolIn, SymbolWords};
use dm_words::{ContentIn, LARGEST_MARKS, LARGEST_ROOM, Profile, TooLong};

/// Writes a content in the smallest square, under a profile.
fn write_normal_to<const ITEMS: usize, const MARKS: usize>(
    content: &ContentIn<ITEMS, MARKS>,
    profile: Profile,
    words: &mut SymbolWords,
    symbol: &mut Symbol,
) -> Result<(), TooLong>
    requires room { ITEMS ≤ LARGEST_ROOM }
    requires few_marks { MARKS ≤ LARGEST_MARKS }
    ensures written { IsContentWritten SizeChoice.Square profile content.now (outcome result symbol.new) }
    ensures same { OnErr result (symbol.new ≡ symbol.old) }
{
    let square = WriteOptions {
        form: Form::Profiled(profile),
        size: SizeChoice::Square,
    };
    let (items, marks) = (content.items(), content.marks());
    write_content_to(content.head(), items, marks, square, words, symbol)
}

/// Gives the normal symbol, under a profile, of the content that a symbol says, whatever its shape, size, encodation
/// and damage: the one in which the content is written in the smallest square. Two symbols that are read, each in its
/// own way, have equal normal symbols under one profile exactly where their contents are equal: where heads, items, and
/// numbers and places of marks are. A normal symbol is its own, in each extent in which its content can be said.
///
/// Equal normal symbols say nothing of the symbology identifiers: these belong to the codewords that were printed. So
/// one symbol may be of GS1, and another one not, whose normal symbols are equal.
///
/// After `Ok`, `normal` is the normal symbol and `reading` is what the symbol says, whatever they were before. The
/// fault is `Read` where [`read_content_to`] refuses the symbol, with its fault, and `TooLong` where no square holds
/// the content. After a fault `normal` is as it was; `reading` is what the symbol says after `TooLong` too, and some
/// reading after `Read`. `words` is room for the codewords of either symbol.
pub fn normal_content_to<const ROWS: usize, const ITEMS: usize, const MARKS: usize>(
    symbol: &SymbolIn<ROWS>,
    how: ReadOptions<ROWS>,
    profile: Profile,
    words: &mut SymbolWords,
    reading: &mut ContentReadingIn<ITEMS, MARKS>,
    normal: &mut Symbol,
) -> Result<(), ContentNormalFault>
    requires doubtful { IfSome how.doubtful (λ doubtful. doubtful.now.size ≡ symbol.now.size) }
    requires items { most_spelled how.extent symbol.now.size.data_count ≤ ITEMS }
    requires room { ITEMS ≤ LARGEST_ROOM }
    requires marks { symbol.now.size.data_count ≤ 2 * MARKS }
    requires few_marks { MARKS ≤ LARGEST_MARKS }
    ensures { IsContentNormalisedTo how.entry.extent profile symbol.now
        (option_map (λ d. d.now) how.entry.doubtful) how.entry.border_limit result
        (content_reading_in reading.new) normal.old normal.new }
{
    // For the proof alone: what `size` ensures says that `words` have room for the codewords.
    let _size = symbol.size();
    match read_content_to(symbol, how, words, reading) {
        Ok(()) => {}
        Err(fault) => return Err(ContentNormalFault::Read(fault)),
    }
    match write_normal_to(&reading.content, profile, words, normal) {
        Ok(()) => Ok(()),
        Err(TooLong) => Err(ContentNormalFault::TooLong),
    }
}
