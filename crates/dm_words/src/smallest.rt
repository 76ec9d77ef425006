//! The smallest symbol of a content: data codewords that say it, of the smallest size of a choice that has any. A
//! content with a head or marks is written in [`contents`], and a message here.

ghost use Rattle.std.specs.Prelude.{◌≡◌, ◌<◌, ◌≤◌, OnErr, OnOk, IsTrue, None, [], length, take};
ghost use Rattle.dm_words.specs.declared.extent.Extent.TheVariants.{Usual};
ghost use Rattle.dm_words.specs.Ascii.{ascii};
ghost use Rattle.dm_words.specs.Heads.{IsHead};
ghost use Rattle.dm_words.specs.ContentExtents.{as_content};
ghost use Rattle.dm_words.specs.Contents.{AreMarks};
ghost use Rattle.dm_words.specs.Messages.{IsMessage};
ghost use Rattle.dm_words.specs.Outcomes.{outcome};
ghost use Rattle.dm_words.specs.Pads.{padded};
ghost use Rattle.dm_words.specs.Smallest.{IsPlainestContent, IsSmallestContentResult, SaysThenPads};
ghost use Rattle.dm_words.specs.Smallest.{chosen_words};
ghost use Rattle.dm_words.specs.inner.Costs.{at_end, parts_cost, IsRightPlan};
ghost use Rattle.dm_words.specs.inner.ContentCosts.{view_of};
ghost use Rattle.dm_words.specs.inner.Ways.{AreWritten, IsLeastCost, IsMacroOf, IsWay, inner_text, text_of};

mod contents;
mod edifact;
mod parts;
mod plan;
mod row;
mod run;
mod segment;
mod sets;
mod setting;
mod values;

use crate::ascii::write_ascii;
use crate::contents::head::Head;
use crate::contents::mark::Mark;
use crate::contents::normal_form::is_plain;
use crate::extent::Extent;
use crate::fault::TooLong;
use crate::held::add;
use crate::item::Item;
use crate::limits::{LARGEST_MARKS, LARGEST_ROOM};
use crate::macros::{HEADER_LENGTH, TRAILER_LENGTH, macro_of};
use crate::pad::add_pads;
use crate::smallest::contents::smallest_marked_to;
use crate::smallest::parts::write_parts;
use crate::smallest::plan::{StepBits, plan_to};
use crate::smallest::setting::Setting;
use dm_layout::symbols::{MOST_DATA, SizeChoice, SymbolSize};

/// How many steps the plan of a short message has: one for each item, and one behind the last.
const SHORT_PLAN: usize = 64;

/// How many steps the plan of a message of some length has.
const MIDDLE_PLAN: usize = 512;

/// How many steps the plan of any message has.
const LONG_PLAN: usize = LARGEST_ROOM + 1;

/// The marks for which there is room beside a short plan.
const FEW_MARKS: usize = 31;

/// The marks for which there is room beside a plan of some length.
const SOME_MARKS: usize = 102;

/// Chooses data codewords, with pads, that say a content in an extent, in the smallest size of the choice that has any:
/// no list of codewords of a smaller size says it there, but for lists that have a macro before FNC1. The content has
/// this head or none, these items, at most [`LARGEST_ROOM`], and these marks, at most [`LARGEST_MARKS`]; a message is
/// one without a head and marks. After `Ok`, which has that size, they stand at the beginning of `words`. They are
/// plain, and their symbology identifier is that of the ASCII form. They are the content in ASCII, as under
/// [`Profile::Ascii`](crate::Profile::Ascii), where the size has room for that; else codewords that say the content in
/// the usual extent, where there are any. `TooLong` exactly where the codewords of no size of the choice say the
/// content, as in the usual extent those of no size say a head or a mark; then `words` is as it was.
/// ISO/IEC 16022, encodation schemes, ECI encodation, structured append, reader programming.
pub fn smallest_words_to(
    extent: Extent,
    head: Option<Head>,
    items: &[Item],
    marks: &[Mark],
    choice: SizeChoice,
    words: &mut [u8; MOST_DATA],
) -> Result<SymbolSize, TooLong>
    requires head { IsHead head }
    requires few { length items.now ≤ LARGEST_ROOM }
    requires few_marks { length marks.now ≤ LARGEST_MARKS }
    requires in_order { AreMarks 0 (length items.now) marks.now }
    ensures smallest { IsSmallestContentResult extent choice
        (record { head = head; items = items.now; marks = marks.now }) result (chosen_words result words.new) }
    ensures message_items { head ≡ None → marks.now ≡ [] → IsMessage items.now }
    ensures items { OnOk result (IsMessage items.now) }
    ensures same { OnErr result (words.new ≡ words.old) }
{
    // To clear room for a long plan takes longer than to make a short one.
    if items.len() < SHORT_PLAN && marks.len() <= FEW_MARKS {
        smallest_in::<SHORT_PLAN, FEW_MARKS>(extent, head, items, marks, choice, words)
    } else if items.len() < MIDDLE_PLAN && marks.len() <= SOME_MARKS {
        smallest_in::<MIDDLE_PLAN, SOME_MARKS>(extent, head, items, marks, choice, words)
    } else {
        smallest_in::<LONG_PLAN, LARGEST_MARKS>(extent, head, items, marks, choice, words)
    }
}

/// Does the same in room for a plan of `STEPS` steps, which are more than the items, and for `MARKS` marks. It stands
/// by itself, so that no other room is left for it on the stack.
#[inline(never)]
fn smallest_in<const STEPS: usize, const MARKS: usize>(
    extent: Extent,
    head: Option<Head>,
    items: &[Item],
    marks: &[Mark],
    choice: SizeChoice,
    words: &mut [u8; MOST_DATA],
) -> Result<SymbolSize, TooLong>
    requires head { IsHead head }
    requires few { length items.now ≤ LARGEST_ROOM }
    requires few_marks { length marks.now ≤ LARGEST_MARKS }
    requires in_order { AreMarks 0 (length items.now) marks.now }
    requires steps { length items.now < STEPS }
    requires most { STEPS ≤ LONG_PLAN }
    requires room { length marks.now ≤ MARKS }
    requires most_marks { MARKS ≤ LARGEST_MARKS }
    ensures smallest { IsSmallestContentResult extent choice (view_of head items.now marks.now) result
        (chosen_words result words.new) }
    ensures message_items { head ≡ None → marks.now ≡ [] → IsMessage items.now }
    ensures items { OnOk result (IsMessage items.now) }
    ensures same { OnErr result (words.new ≡ words.old) }
{
    let mut plan = [StepBits::NONE; STEPS];
    let mut behind = [0; MARKS];
    if is_plain(head, marks) {
        return smallest_items_to(extent, items, choice, &mut plan, words);
    }
    match extent {
        Extent::Usual => Err(TooLong),
        Extent::Wide => smallest_marked_to(
            head,
            items,
            marks,
            choice,
            &mut behind,
            &mut plan,
            words,
        ),
    }
}

/// Does the same with the items of a message, by a plan that has more steps than these.
fn smallest_items_to(
    extent: Extent,
    items: &[Item],
    choice: SizeChoice,
    plan: &mut [StepBits],
    words: &mut [u8; MOST_DATA],
) -> Result<SymbolSize, TooLong>
    requires few { length items.now ≤ LARGEST_ROOM }
    requires steps { length items.now < length plan.old }
    ensures smallest { IsSmallestContentResult extent choice (as_content items.now) result
        (chosen_words result words.new) }
    ensures message { IsMessage items.now }
    ensures same { OnErr result (words.new ≡ words.old) }
{
    let found = least_way(extent, items, plan);
    match SymbolSize::for_words(choice, found.way.cost) {
        None => Err(TooLong),
        Some(size) => {
            let data = &mut words[..usize::from(size.data_count())];
            let held = write_plainest(extent, items, found, plan, data);
            add_pads(data, held);
            Ok(size)
        }
    }
}

/// A way to write a message.
#[derive(Clone, Copy)]
struct Way {
    /// The codeword of the macro by which it is written, if it is.
    macro_word: Option<u8>,
    /// How many codewords it takes at most, beside pads.
    cost: u16,
}

/// What is known of a message before it is written.
#[derive(Clone, Copy)]
struct Found {
    /// A way than which none takes fewer codewords.
    way: Way,
    /// How many codewords it takes in ASCII.
    ascii: u16,
}

/// Gives a way to write these items than which none takes fewer codewords, and how many they take in ASCII; and leaves
/// a plan for what is written that way: the text of the macro, or else the items.
fn least_way(extent: Extent, items: &[Item], plan: &mut [StepBits]) -> Found
    requires few { length items.now ≤ LARGEST_ROOM }
    requires steps { length items.now < length plan.old }
    ensures way { IsWay extent items.now result.way.macro_word result.way.cost }
    ensures least { IsLeastCost extent items.now result.way.cost }
    ensures ascii { result.ascii ≡ length (ascii items.now) }
    ensures plan { IsRightPlan (at_end extent) (text_of result.way.macro_word items.now) plan.new }
    ensures message { IsMessage items.now }
{
    let lengths = plan_to(Setting::at_end(extent), items, plan);
    match macro_of(extent, items) {
        None => Found {
            way: Way {
                macro_word: None,
                cost: lengths.least,
            },
            ascii: lengths.ascii,
        },
        Some(word) => Found {
            way: with_macro(extent, items, word, lengths.least, plan),
            ascii: lengths.ascii,
        },
    }
}

/// Gives the way of the macro that stands for the header and the trailer of the items, where it takes no more codewords
/// than their parts, and else that of the parts, whose cost is known; and leaves its plan.
fn with_macro(extent: Extent, items: &[Item], word: u8, cost: u16, plan: &mut [StepBits]) -> Way
    requires few { length items.now ≤ LARGEST_ROOM }
    requires steps { length items.now < length plan.old }
    requires framed { IsMacroOf extent items.now word }
    requires cost { cost ≡ parts_cost (at_end extent) items.now }
    ensures way { IsWay extent items.now result.macro_word result.cost }
    ensures least { IsLeastCost extent items.now result.cost }
    ensures plan { IsRightPlan (at_end extent) (text_of result.macro_word items.now) plan.new }
{
    let by_macro = 1 + plan_to(Setting::at_end(extent), inner(items), plan).least;
    if by_macro <= cost {
        return Way {
            macro_word: Some(word),
            cost: by_macro,
        };
    }
    let _same = plan_to(Setting::at_end(extent), items, plan);
    Way {
        macro_word: None,
        cost,
    }
}

/// Gives the items between the header and the trailer of a macro.
fn inner(items: &[Item]) -> &[Item]
    requires { 9 ≤ length items.now }
    ensures { result.now ≡ inner_text items.now }
{
    &items[HEADER_LENGTH..items.len() - TRAILER_LENGTH]
}

/// Writes the items, without pads, to the beginning of the data codewords of a symbol, and gives how many they take: in
/// ASCII where there is room for that; else as the usual extent has it, where there is room for that; else in this way,
/// by its plan.
fn write_plainest(
    extent: Extent,
    items: &[Item],
    found: Found,
    plan: &mut [StepBits],
    words: &mut [u8],
) -> usize
    requires few { length items.now ≤ LARGEST_ROOM }
    requires message { IsMessage items.now }
    requires way { IsWay extent items.now found.way.macro_word found.way.cost }
    requires ascii { found.ascii ≡ length (ascii items.now) }
    requires steps { length items.now < length plan.old }
    requires plan { IsRightPlan (at_end extent) (text_of found.way.macro_word items.now) plan.old }
    requires room { found.way.cost ≤ length words.old }
    requires short { length words.old ≤ MOST_DATA }
    ensures written { AreWritten extent (padded (take result words.new) (length words.old)) (as_content items.now) }
    ensures fits { result ≤ length words.old }
    ensures plainest { IsPlainestContent (padded (take result words.new) (length words.old))
        (as_content items.now) }
{
    if usize::from(found.ascii) <= words.len() {
        return write_ascii(items, words).length;
    }
    let mut held = 0;
    let is_usual = write_way(extent, items, found.way, plan, words, &mut held);
    if !is_usual {
        write_usual_if_fits(extent, items, plan, words, &mut held);
    }
    held
}

/// Writes the items, without pads, as the usual extent has it, in place of the words that stand there, where there is
/// room for that. The plan is made anew.
fn write_usual_if_fits(
    extent: Extent,
    items: &[Item],
    plan: &mut [StepBits],
    words: &mut [u8],
    held: &mut usize,
)
    requires few { length items.now ≤ LARGEST_ROOM }
    requires steps { length items.now < length plan.old }
    requires message { IsMessage items.now }
    requires short { length words.old ≤ MOST_DATA }
    requires no_ascii { length words.old < length (ascii items.now) }
    requires written { AreWritten extent (padded (take held.old words.old) (length words.old)) (as_content items.now) }
    requires fits { held.old ≤ length words.old }
    ensures written { AreWritten extent (padded (take held.new words.new) (length words.old)) (as_content items.now) }
    ensures fits { held.new ≤ length words.old }
    ensures plainest { IsPlainestContent (padded (take held.new words.new) (length words.old)) (as_content items.now) }
{
    // In the usual extent a codeword spells at most two items.
    if 2 * words.len() < items.len() {
        return;
    }
    if usize::from(plan_to(Setting::at_end(Extent::Usual), items, plan).least) <= words.len() {
        *held = 0;
        let _usual = write_plain(Extent::Usual, items, plan, words, held);
    }
}

/// Writes the items in this way, by its plan, without pads, and says whether the usual extent surely reads them.
fn write_way(
    extent: Extent,
    items: &[Item],
    way: Way,
    plan: &[StepBits],
    words: &mut [u8],
    held: &mut usize,
) -> bool
    requires few { length items.now ≤ LARGEST_ROOM }
    requires message { IsMessage items.now }
    requires way { IsWay extent items.now way.macro_word way.cost }
    requires steps { length items.now < length plan.now }
    requires plan { IsRightPlan (at_end extent) (text_of way.macro_word items.now) plan.now }
    requires room { way.cost ≤ length words.old }
    requires short { length words.old ≤ MOST_DATA }
    requires none { held.old ≡ 0 }
    ensures written { AreWritten extent (padded (take held.new words.new) (length words.old)) (as_content items.now) }
    ensures usual { IsTrue result
        → SaysThenPads Usual (padded (take held.new words.new) (length words.old)) (as_content items.now) }
    ensures fits { held.new ≤ length words.old }
{
    match way.macro_word {
        None => write_plain(extent, items, plan, words, held),
        Some(word) => {
            add(word, words, held);
            let _usual = write_parts(Setting::at_end(extent), inner(items), plan, words, held);
            false
        }
    }
}

/// Writes the items by no macro, by their plan, without pads, and says whether the usual extent surely reads them.
fn write_plain(
    extent: Extent,
    items: &[Item],
    plan: &[StepBits],
    words: &mut [u8],
    held: &mut usize,
) -> bool
    requires few { length items.now ≤ LARGEST_ROOM }
    requires message { IsMessage items.now }
    requires steps { length items.now < length plan.now }
    requires plan { IsRightPlan (at_end extent) items.now plan.now }
    requires room { parts_cost (at_end extent) items.now ≤ length words.old }
    requires short { length words.old ≤ MOST_DATA }
    requires none { held.old ≡ 0 }
    ensures written { AreWritten extent (padded (take held.new words.new) (length words.old)) (as_content items.now) }
    ensures usual { IsTrue result
        → SaysThenPads Usual (padded (take held.new words.new) (length words.old)) (as_content items.now) }
    ensures fits { held.new ≤ length words.old }
{
    write_parts(Setting::at_end(extent), items, plan, words, held)
}
