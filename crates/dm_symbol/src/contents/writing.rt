//! Writing a content in a symbol: in the smallest size of a choice.

ghost use Rattle.std.specs.Prelude.{◌≡◌, ◌≤◌, ℕ, List, IfOk, Ok, Err, OnErr, OnOk, length, take};
ghost use Rattle.dm_layout.specs.symbols.Holding.{IsLaid};
ghost use Rattle.dm_layout.specs.symbols.Sizes.{IsSize, SizeEntry, codeword_count};
ghost use Rattle.dm_words.specs.Heads.{IsHead};
ghost use Rattle.dm_words.specs.Contents.{AreMarks, ContentView};
ghost use Rattle.dm_words.specs.Messages.{IsMessage};
ghost use Rattle.dm_words.specs.Outcomes.{outcome};
ghost use Rattle.dm_symbol.specs.PlainSymbol.{IsPlainSymbol};
ghost use Rattle.dm_symbol.specs.SymbolBlocks.{AreCodewordsOf, first_data, words_with};
ghost use Rattle.dm_symbol.specs.WrittenContent.{AreChosen, IsWrittenAs};

use crate::symbol::writing::complete_in;
use dm_layout::symbols::{
    MOST_DATA, SizeChoice, Symbol, SymbolIn, SymbolSize, SymbolWords, SymbolWordsIn, lay_to,
};
use dm_words::{
    Extent, Head, Item, LARGEST_MARKS, LARGEST_ROOM, Mark, Profile, TooLong, add_pads,
    content_words_to, smallest_words_to,
};

/// A form in which a content is written.
#[derive(Clone, Copy, Debug, PartialEq, Eq)]
pub enum Form {
    /// The codewords that a profile chooses for it. Those of a content without a head and marks are the codewords that
    /// the profile chooses for its items. Those of another one are, under each profile, the codewords of its head, and
    /// its items in ASCII from mark to mark with each mark at its place.
    Profiled(Profile),
    /// Codewords of its smallest symbol for readers of an extent, of which there is none in the usual extent for a
    /// content with a head or a mark. No symbol of a smaller size of the choice is read as the content there, whatever
    /// its codewords are, but for a macro before FNC1. They are ASCII where that size has room for these; else those of
    /// the usual extent, where it has room for any.
    Smallest(Extent),
}

/// How a content is written.
#[derive(Clone, Copy, Debug, PartialEq, Eq)]
pub struct WriteOptions {
    /// In which form.
    pub form: Form,
    /// Which sizes may be taken. The smallest of them that holds it is.
    pub size: SizeChoice,
}

/// Chooses the data codewords, with pads, in which a content with this head or none, these items, at most
/// [`LARGEST_ROOM`], and these marks, at most [`LARGEST_MARKS`], is written (ISO/IEC 16022, encodation schemes, which
/// leave the choice of encodations to the writer, ECI encodation, structured append, reader programming). After `Ok`,
/// which has the size of the choice that is taken, they stand at the beginning of `list`, as many as the size has. The
/// fault is `TooLong` exactly where no size of the choice holds the content in this form; then `list` may hold
/// anything.
pub fn choose_words_to(
    head: Option<Head>,
    items: &[Item],
    marks: &[Mark],
    how: WriteOptions,
    list: &mut [u8; MOST_DATA],
) -> Result<SymbolSize, TooLong>
    requires head { IsHead head }
    requires few { length items.now ≤ LARGEST_ROOM }
    requires few_marks { length marks.now ≤ LARGEST_MARKS }
    requires in_order { AreMarks 0 (length items.now) marks.now }
    ensures chosen { IfOk result (λ size. AreChosen how.form how.size
        (record { head = head; items = items.now; marks = marks.now }) size
        (take size.data_count list.new)) }
    ensures size { IfOk result IsSize }
    ensures fits { IfOk result (λ size. size.data_count ≤ length list.new) }
    ensures none { OnErr result ((why : TooLong) → IsWrittenAs how.form how.size
        (record { head = head; items = items.now; marks = marks.now }) (Err why)) }
{
    match how.form {
        Form::Profiled(profile) => choose_normal_to(profile, head, items, marks, how.size, list),
        Form::Smallest(extent) => smallest_words_to(extent, head, items, marks, how.size, list),
    }
}

/// Does so under a profile.
fn choose_normal_to(
    profile: Profile,
    head: Option<Head>,
    items: &[Item],
    marks: &[Mark],
    choice: SizeChoice,
    list: &mut [u8; MOST_DATA],
) -> Result<SymbolSize, TooLong>
    requires head { IsHead head }
    requires few { length items.now ≤ LARGEST_ROOM }
    requires few_marks { length marks.now ≤ LARGEST_MARKS }
    requires in_order { AreMarks 0 (length items.now) marks.now }
    ensures chosen { IfOk result (λ size. AreChosen (Form.Profiled profile) choice
        (record { head = head; items = items.now; marks = marks.now }) size
        (take size.data_count list.new)) }
    ensures size { IfOk result IsSize }
    ensures fits { IfOk result (λ size. size.data_count ≤ length list.new) }
    ensures none { OnErr result ((why : TooLong) → IsWrittenAs (Form.Profiled profile) choice
        (record { head = head; items = items.now; marks = marks.now }) (Err why)) }
{
    let count = match content_words_to(profile, head, items, marks, list) {
        Ok(count) => count,
        Err(TooLong) => return Err(TooLong),
    };
    let Some(size) = SymbolSize::for_words(choice, count as u16) else {
        return Err(TooLong);
    };
    add_pads(&mut list[..usize::from(size.data_count())], count);
    Ok(size)
}

/// Lays data codewords of a size, with check codewords, in a symbol (ISO/IEC 16022, symbol construction): turns
/// `symbol`, whatever it was before, into the one in which a content is written for which [`choose_words_to()`] chose
/// them. Whichever they are, the symbol holds them as its data codewords. `words` is room for the codewords, whatever
/// they were before. Both have room for the size; small ones are made faster than a [`Symbol`] and [`SymbolWords`],
/// which have room for every size.
pub fn lay_words_to<const WORDS: usize, const ROWS: usize>(
    size: SymbolSize,
    list: &[u8],
    words: &mut SymbolWordsIn<WORDS>,
    symbol: &mut SymbolIn<ROWS>,
)
    requires count { length list.now ≡ size.data_count }
    requires room { codeword_count size ≤ WORDS }
    requires high { size.rows ≤ ROWS }
    ensures written { (form : Form) (choice : SizeChoice) (content : ContentView)
        → AreChosen form choice content size list.now → IsWrittenAs form choice content (Ok symbol.new) }
    ensures laid { (codewords : List ℕ) × IsLaid (words_with size codewords) symbol.new
        × (first_data size codewords ≡ list.now) × AreCodewordsOf size codewords }
{
    complete_in(words.resize(size), size, list);
    lay_to(words, symbol);
}

/// Writes a content in a symbol with room for every size: after `Ok`, `symbol`, whatever it was before, is the one of
/// the codewords that [`choose_words_to()`] chooses, laid as [`lay_words_to()`] does, in the smallest size of the
/// choice that holds them: the one of the smallest area, and of those of equal area the one with the fewest columns.
/// Its data codewords are plain, and their symbology identifier is that of the ASCII form. The smallest symbol is read
/// as the content in its extent, with nothing wrong in it. The fault is `TooLong` exactly where no size of the choice
/// holds the content in this form; then `symbol` is as it was. `words` is room for the codewords, whatever they were
/// before.
pub fn write_content_to(
    head: Option<Head>,
    items: &[Item],
    marks: &[Mark],
    how: WriteOptions,
    words: &mut SymbolWords,
    symbol: &mut Symbol,
) -> Result<(), TooLong>
    requires head { IsHead head }
    requires few { length items.now ≤ LARGEST_ROOM }
    requires few_marks { length marks.now ≤ LARGEST_MARKS }
    requires in_order { AreMarks 0 (length items.now) marks.now }
    ensures written { IsWrittenAs how.form how.size
        (record { head = head; items = items.now; marks = marks.now }) (outcome result symbol.new) }
    ensures plain { OnOk result (IsMessage items.now
        → IsPlainSymbol symbol.new (record { head = head; items = items.now; marks = marks.now })) }
    ensures same { OnErr result (symbol.new ≡ symbol.old) }
{
    let mut list = [0; MOST_DATA];
    match choose_words_to(head, items, marks, how, &mut list) {
        Ok(size) => {
            let data = &list[..usize::from(size.data_count())];
            lay_words_to(size, data, words, symbol);
            Ok(())
        }
        Err(TooLong) => Err(TooLong),
    }
}
