//! The smallest symbol of a content with a head or a mark. Only ASCII says a mark, so a content is cut at its marks,
//! and each text between them is written before the codewords that follow it.

ghost use Rattle.std.specs.Prelude.{◌≡◌, ℕ, ◌+◌, ◌*◌, ◌<◌, ◌≤◌, ◌++◌, length, take, IsTrue, IfSome, IfNone, OnErr};
ghost use Rattle.std.specs.Prelude.{None, false};
ghost use Rattle.dm_words.specs.declared.extent.Extent.TheVariants.{Wide};
ghost use Rattle.dm_words.specs.Heads.{IsHead, head_words};
ghost use Rattle.dm_words.specs.Contents.{AreMarks};
ghost use Rattle.dm_words.specs.ContentForm.{ascii_with_marks};
ghost use Rattle.dm_words.specs.Messages.{IsMessage};
ghost use Rattle.dm_words.specs.Pads.{padded};
ghost use Rattle.dm_words.specs.Smallest.{IsSmallestContentResult, chosen_words};
ghost use Rattle.dm_words.specs.inner.Costs.{before_words, parts_cost, most_behind};
ghost use Rattle.dm_words.specs.inner.ContentCosts.{view_of, marked_cost, AreBehind, IsLeastContentCost, IsContentWay};
ghost use Rattle.dm_words.specs.inner.ContentCosts.{IsContentMacro, HasNoContentMacro, AreSaid, seen_by};
ghost use Rattle.dm_words.specs.inner.ContentCosts.{first_text};
ghost use Rattle.dm_words.specs.inner.MarkedForms.{is_plain};
ghost use Rattle.dm_words.specs.inner.Signs.{KeepsSign};
ghost use Rattle.dm_words.specs.inner.Ways.{AreWritten, text_of};
ghost use Rattle.dm_words.specs.inner.Written.{ArePartsWritten};

use crate::contents::head::{Head, head_words};
use crate::contents::mark::Mark;
use crate::contents::normal_form::{
    add_mark_words, head_words_length, mark_length, marked_length, write_form,
};
use crate::extent::Extent;
use crate::fault::TooLong;
use crate::held::{add, add_words};
use crate::item::Item;
use crate::limits::{LARGEST_MARKS, LARGEST_ROOM};
use crate::macros::{HEADER_LENGTH, TRAILER_LENGTH, macro_of};
use crate::pad::add_pads;
use crate::smallest::parts::write_parts;
use crate::smallest::plan::{StepBits, plan_to};
use crate::smallest::setting::Setting;
use crate::smallest::{Way, inner};
use dm_layout::symbols::{MOST_DATA, SizeChoice, SymbolSize};

/// Chooses the smallest data codewords, as [`smallest_words_to()`](crate::smallest_words_to()), in the wide extent, of
/// a content that has a head or a mark, by a plan that has more steps than the items, with room for what follows each
/// mark.
pub(crate) fn smallest_marked_to(
    head: Option<Head>,
    items: &[Item],
    marks: &[Mark],
    choice: SizeChoice,
    behind: &mut [u16],
    plan: &mut [StepBits],
    words: &mut [u8; MOST_DATA],
) -> Result<SymbolSize, TooLong>
    requires head { IsHead head }
    requires few { length items.now ≤ LARGEST_ROOM }
    requires few_marks { length marks.now ≤ LARGEST_MARKS }
    requires in_order { AreMarks 0 (length items.now) marks.now }
    requires marked { is_plain head marks.now ≡ false }
    requires steps { length items.now < length plan.old }
    requires room { length marks.now ≤ length behind.old }
    ensures smallest { IsSmallestContentResult Wide choice (view_of head items.now marks.now) result
        (chosen_words result words.new) }
    ensures message { IsMessage items.now }
    ensures same { OnErr result (words.new ≡ words.old) }
{
    let way = least_way(head, items, marks, behind, plan);
    match SymbolSize::for_words(choice, way.cost) {
        None => Err(TooLong),
        Some(size) => {
            let data = &mut words[..usize::from(size.data_count())];
            let held = write_content(head, items, marks, way, behind, plan, data);
            add_pads(data, held);
            Ok(size)
        }
    }
}

/// Gives how many codewords items with marks take at least, where so many items stand before them, and leaves how many
/// codewords follow the items before each mark.
fn marked_cost(
    seen: usize,
    items: &[Item],
    marks: &[Mark],
    behind: &mut [u16],
    plan: &mut [StepBits],
) -> u16
    requires few { length items.now ≤ LARGEST_ROOM }
    requires few_marks { length marks.now ≤ LARGEST_MARKS }
    requires in_order { AreMarks seen (seen + length items.now) marks.now }
    requires steps { length items.now < length plan.old }
    requires room { length marks.now ≤ length behind.old }
    ensures cost { result ≡ marked_cost seen items.now marks.now }
    ensures most { result ≤ 2 * length items.now + 4 * length marks.now }
    ensures behind { AreBehind seen items.now marks.now behind.new }
    ensures message { IsMessage items.now }
{
    let mut cost = 0;
    let mut end = items.len();
    for k in (0..marks.len()).rev() {
        let from = usize::from(marks[k].place) - seen;
        let text = text_cost(cost, &items[from..end], plan);
        cost = mark_length(marks[k].number) as u16 + text;
        behind[k] = cost;
        end = from;
    }
    text_cost(cost, &items[..end], plan)
}

/// Gives how many codewords items and what follows them take at least, where so many codewords follow.
fn text_cost(behind: u16, items: &[Item], plan: &mut [StepBits]) -> u16
    requires few { length items.now ≤ LARGEST_ROOM }
    requires behind { behind ≤ most_behind }
    requires steps { length items.now < length plan.old }
    ensures cost { result ≡ parts_cost (before_words behind) items.now }
    ensures most { result ≤ behind + 2 * length items.now }
    ensures message { IsMessage items.now }
{
    let setting = Setting {
        extent: Extent::Wide,
        behind,
    };
    plan_to(setting, items, plan).least
}

/// Gives a way to write a content than which none takes fewer codewords, and leaves how many codewords follow the items
/// before each mark in what is written that way.
fn least_way(
    head: Option<Head>,
    items: &[Item],
    marks: &[Mark],
    behind: &mut [u16],
    plan: &mut [StepBits],
) -> Way
    requires few { length items.now ≤ LARGEST_ROOM }
    requires few_marks { length marks.now ≤ LARGEST_MARKS }
    requires in_order { AreMarks 0 (length items.now) marks.now }
    requires steps { length items.now < length plan.old }
    requires room { length marks.now ≤ length behind.old }
    ensures way { IsContentWay (view_of head items.now marks.now) result.macro_word result.cost }
    ensures least { IsLeastContentCost (view_of head items.now marks.now) result.cost }
    ensures behind { AreBehind (seen_by result.macro_word) (text_of result.macro_word items.now) marks.now behind.new }
    ensures message { IsMessage items.now }
{
    let cost = head_words_length(head) as u16 + marked_cost(0, items, marks, behind, plan);
    match content_macro(head, items, marks) {
        None => Way {
            macro_word: None,
            cost,
        },
        Some(word) => {
            let by_macro = 1 + marked_cost(HEADER_LENGTH, inner(items), marks, behind, plan);
            if by_macro <= cost {
                return Way {
                    macro_word: Some(word),
                    cost: by_macro,
                };
            }
            let _same = marked_cost(0, items, marks, behind, plan);
            Way {
                macro_word: None,
                cost,
            }
        }
    }
}

/// Whether each mark stands from a place on, and up to another.
fn are_between(marks: &[Mark], least: usize, most: usize) -> bool
    requires some { least ≤ most }
    requires in_order { (total : ℕ) × AreMarks 0 total marks.now }
    ensures yes { IsTrue result → AreMarks least most marks.now }
    ensures no { AreMarks least most marks.now → IsTrue result }
{
    for mark in marks {
        let place = usize::from(mark.place);
        if place < least || most < place {
            return false;
        }
    }
    true
}

/// Gives the macro that stands for the header and the trailer of the items, where each mark stands between them.
fn macro_between(items: &[Item], marks: &[Mark]) -> Option<u8>
    requires few { length items.now ≤ LARGEST_ROOM }
    requires in_order { AreMarks 0 (length items.now) marks.now }
    ensures found { IfSome result (λ word. IsContentMacro (view_of None items.now marks.now) word) }
    ensures none { IfNone result (HasNoContentMacro (view_of None items.now marks.now)) }
{
    match macro_of(Extent::Wide, items) {
        None => None,
        Some(word) => {
            if are_between(marks, HEADER_LENGTH, items.len() - TRAILER_LENGTH) {
                Some(word)
            } else {
                None
            }
        }
    }
}

/// Gives the macro that stands for the header and the trailer of the items of a content, where it has no head and each
/// mark stands between them.
fn content_macro(head: Option<Head>, items: &[Item], marks: &[Mark]) -> Option<u8>
    requires few { length items.now ≤ LARGEST_ROOM }
    requires in_order { AreMarks 0 (length items.now) marks.now }
    ensures found { IfSome result (λ word. IsContentMacro (view_of head items.now marks.now) word) }
    ensures none { IfNone result (HasNoContentMacro (view_of head items.now marks.now)) }
{
    match head {
        None => macro_between(items, marks),
        Some(_) => None,
    }
}

/// Writes a content, without pads, to the beginning of the data codewords of a symbol, and gives the number of its
/// codewords: in ASCII where there is room for that, and else in this way.
fn write_content(
    head: Option<Head>,
    items: &[Item],
    marks: &[Mark],
    way: Way,
    behind: &[u16],
    plan: &mut [StepBits],
    words: &mut [u8],
) -> usize
    requires head { IsHead head }
    requires few { length items.now ≤ LARGEST_ROOM }
    requires few_marks { length marks.now ≤ LARGEST_MARKS }
    requires message { IsMessage items.now }
    requires in_order { AreMarks 0 (length items.now) marks.now }
    requires way { IsContentWay (view_of head items.now marks.now) way.macro_word way.cost }
    requires behind { AreBehind (seen_by way.macro_word) (text_of way.macro_word items.now) marks.now behind.now }
    requires behinds { length marks.now ≤ length behind.now }
    requires steps { length items.now < length plan.old }
    requires room { way.cost ≤ length words.old }
    requires short { length words.old ≤ MOST_DATA }
    ensures written { AreWritten Wide (padded (take result words.new) (length words.old))
        (view_of head items.now marks.now) }
    ensures fits { result ≤ length words.old }
    ensures ascii { length (head_words head ++ ascii_with_marks 0 items.now marks.now) ≤ length words.old
        → take result words.new ≡ head_words head ++ ascii_with_marks 0 items.now marks.now }
{
    let length = head_words_length(head) + marked_length(items, marks);
    if length <= words.len() {
        return write_form(head, items, marks, words);
    }
    let mut held = 0;
    match way.macro_word {
        None => {
            add_words(head_words(head).as_slice(), words, &mut held);
            write_texts(0, items, marks, behind, plan, words, &mut held);
        }
        Some(word) => {
            add(word, words, &mut held);
            let text = inner(items);
            write_texts(HEADER_LENGTH, text, marks, behind, plan, words, &mut held);
        }
    }
    held
}

/// Writes items with marks behind the words that stand there, where so many items stand before them.
fn write_texts(
    seen: usize,
    items: &[Item],
    marks: &[Mark],
    behind: &[u16],
    plan: &mut [StepBits],
    words: &mut [u8],
    held: &mut usize,
)
    requires few { length items.now ≤ LARGEST_ROOM }
    requires few_marks { length marks.now ≤ LARGEST_MARKS }
    requires message { IsMessage items.now }
    requires in_order { AreMarks seen (seen + length items.now) marks.now }
    requires behind { AreBehind seen items.now marks.now behind.now }
    requires behinds { length marks.now ≤ length behind.now }
    requires steps { length items.now < length plan.old }
    requires budget { held.old + marked_cost seen items.now marks.now ≤ length words.old }
    requires short { length words.old ≤ MOST_DATA }
    ensures said { AreSaid (length words.old) (take held.old words.old) (take held.new words.new) seen items.now
        marks.now }
    ensures fits { held.new ≤ length words.old }
    ensures sign { KeepsSign (take held.old words.old) (take held.new words.new)
        (first_text seen items.now marks.now) }
{
    let mut from = 0;
    for k in 0..marks.len() {
        let end = usize::from(marks[k].place) - seen;
        write_text(behind[k], &items[from..end], plan, words, held);
        add_mark_words(marks[k].number, words, held);
        from = end;
    }
    write_text(0, &items[from..], plan, words, held);
}

/// Writes items behind the words that stand there, where so many codewords follow them.
fn write_text(
    behind: u16,
    items: &[Item],
    plan: &mut [StepBits],
    words: &mut [u8],
    held: &mut usize,
)
    requires few { length items.now ≤ LARGEST_ROOM }
    requires behind { behind ≤ most_behind }
    requires message { IsMessage items.now }
    requires steps { length items.now < length plan.old }
    requires budget { held.old + parts_cost (before_words behind) items.now ≤ length words.old }
    requires short { length words.old ≤ MOST_DATA }
    ensures parts { ArePartsWritten Wide (length words.old) (take held.old words.old) (take held.new words.new)
        items.now }
    ensures fits { held.new + behind ≤ length words.old }
    ensures sign { KeepsSign (take held.old words.old) (take held.new words.new) items.now }
{
    let setting = Setting {
        extent: Extent::Wide,
        behind,
    };
    let _cost = plan_to(setting, items, plan);
    let _usual = write_parts(setting, items, plan, words, held);
}
