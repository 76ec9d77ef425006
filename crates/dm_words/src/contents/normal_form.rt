//! The normal form of a content under a profile: its data codewords, without pads.

ghost use Rattle.std.specs.Prelude.{◌≡◌, ◌+◌, ◌*◌, ◌≤◌, ◌++◌, ◌∷◌, ◌<◌, ◌↔◌, length, take, IfOk, OnErr, IsErr};
ghost use Rattle.dm_words.specs.Ascii.{ascii};
ghost use Rattle.dm_words.specs.Designators.{eci_word, designator};
ghost use Rattle.dm_words.specs.Heads.{IsHead, head_words};
ghost use Rattle.dm_words.specs.Contents.{AreMarks};
ghost use Rattle.dm_words.specs.ContentForm.{form_by, ascii_with_marks};
ghost use Rattle.dm_words.specs.Messages.{IsMessage};
ghost use Rattle.dm_words.specs.Plain.{IsPlainWithPads};
ghost use Rattle.dm_words.specs.inner.MarkedForms.{is_plain};

use crate::ascii::{add_ascii, ascii_form};
use crate::contents::designator::{ECI, MOST_ASSIGNED, designator_words};
use crate::contents::head::{Head, head_words};
use crate::contents::mark::Mark;
use crate::fault::TooLong;
use crate::held::{add, add_words};
use crate::item::Item;
use crate::limits::{LARGEST_MARKS, LARGEST_ROOM};
use crate::normal_form::normal_words_to;
use crate::profile::Profile;
use dm_layout::symbols::MOST_DATA;

/// Gives how many codewords a mark of this number has: ECI and the designator.
pub(crate) fn mark_length(number: u32) -> usize
    ensures value { result ≡ length (eci_word ∷ designator number) }
    ensures most { result ≤ 4 }
{
    if number < 127 {
        2
    } else if number < 16383 {
        3
    } else {
        4
    }
}

/// Gives how many codewords items with marks have: the items in ASCII from mark to mark, and the marks.
pub(crate) fn marked_length(items: &[Item], marks: &[Mark]) -> usize
    requires few { length items.now ≤ LARGEST_ROOM }
    requires few_marks { length marks.now ≤ LARGEST_MARKS }
    requires in_order { AreMarks 0 (length items.now) marks.now }
    ensures value { result ≡ length (ascii_with_marks 0 items.now marks.now) }
    ensures most { result ≤ 2 * LARGEST_ROOM + 4 * LARGEST_MARKS }
{
    let mut length = 0;
    let mut before = 0;
    for mark in marks {
        let place = mark.place as usize;
        length += ascii_form(&items[before..place]).length + mark_length(mark.number);
        before = place;
    }
    length + ascii_form(&items[before..]).length
}

/// Adds ECI and the designator of a number.
pub(crate) fn add_mark_words(number: u32, words: &mut [u8], held: &mut usize)
    requires assigned { number ≤ MOST_ASSIGNED }
    requires room { held.old + length (eci_word ∷ designator number) ≤ length words.old }
    ensures added { take held.new words.new ≡ take held.old words.old ++ (eci_word ∷ designator number) }
    ensures counted { held.new ≡ held.old + length (eci_word ∷ designator number) }
{
    add(ECI, words, held);
    add_words(designator_words(number).as_slice(), words, held);
}

/// Adds items with marks: the items in ASCII from mark to mark, and the marks.
fn add_marked(items: &[Item], marks: &[Mark], words: &mut [u8], held: &mut usize)
    requires in_order { AreMarks 0 (length items.now) marks.now }
    requires room { held.old + length (ascii_with_marks 0 items.now marks.now) ≤ length words.old }
    ensures added { take held.new words.new
        ≡ take held.old words.old ++ ascii_with_marks 0 items.now marks.now }
    ensures counted { held.new ≡ held.old + length (ascii_with_marks 0 items.now marks.now) }
{
    let mut before = 0;
    for mark in marks {
        let place = mark.place as usize;
        let _fnc1 = add_ascii(&items[before..place], words, held);
        add_mark_words(mark.number, words, held);
        before = place;
    }
    let _fnc1 = add_ascii(&items[before..], words, held);
}

/// Gives how many codewords a head has.
pub(crate) fn head_words_length(head: Option<Head>) -> usize
    ensures value { result ≡ length (head_words head) }
    ensures most { result ≤ 4 }
{
    match head {
        None => 0,
        Some(Head::Programming) => 1,
        Some(Head::Appended(_)) => 4,
    }
}

/// Whether there is no head and no mark.
pub(crate) fn is_plain(head: Option<Head>, marks: &[Mark]) -> bool
    ensures { result ≡ is_plain head marks.now }
{
    match head {
        None => marks.is_empty(),
        Some(_) => false,
    }
}

/// Writes a head, and items with marks, to the beginning of the target, and gives the number of their codewords.
pub(crate) fn write_form(
    head: Option<Head>,
    items: &[Item],
    marks: &[Mark],
    words: &mut [u8],
) -> usize
    requires head { IsHead head }
    requires in_order { AreMarks 0 (length items.now) marks.now }
    requires room { length (head_words head ++ ascii_with_marks 0 items.now marks.now) ≤ length words.old }
    ensures written { take result words.new ≡ head_words head ++ ascii_with_marks 0 items.now marks.now }
    ensures counted { result ≡ length (head_words head ++ ascii_with_marks 0 items.now marks.now) }
{
    let mut held = 0;
    add_words(head_words(head).as_slice(), words, &mut held);
    add_marked(items, marks, words, &mut held);
    held
}

/// Writes a head, and items with marks, to the beginning of the target, where there is room for their codewords;
/// otherwise changes nothing.
fn write_marked(
    head: Option<Head>,
    items: &[Item],
    marks: &[Mark],
    words: &mut [u8],
) -> Result<usize, TooLong>
    requires head { IsHead head }
    requires few { length items.now ≤ LARGEST_ROOM }
    requires few_marks { length marks.now ≤ LARGEST_MARKS }
    requires in_order { AreMarks 0 (length items.now) marks.now }
    ensures form { IfOk result (λ count. take count words.new
        ≡ head_words head ++ ascii_with_marks 0 items.now marks.now) }
    ensures fits { IfOk result (λ count. count ≤ length words.new) }
    ensures too_long { IsErr result
        ↔ (length words.old < length (head_words head ++ ascii_with_marks 0 items.now marks.now)) }
    ensures same { OnErr result (words.new ≡ words.old) }
{
    let length = head_words_length(head) + marked_length(items, marks);
    if length > words.len() {
        return Err(TooLong);
    }
    Ok(write_form(head, items, marks, words))
}

/// Writes the codewords of a content with this head or none, these items and these marks under a profile, without pads,
/// to the beginning of a target with room for at least 3 codewords, as each symbol has, and gives their number. Those
/// of a content without a head and marks are the codewords of its items, as [`normal_words_to()`] writes them. Those of
/// another content are its head's, and its items in ASCII from mark to mark with each mark at its place, as ECI and the
/// designator. `TooLong` exactly where there is no room for them; then the target is as it was.
pub fn content_words_to(
    profile: Profile,
    head: Option<Head>,
    items: &[Item],
    marks: &[Mark],
    words: &mut [u8],
) -> Result<usize, TooLong>
    requires head { IsHead head }
    requires few { length items.now ≤ LARGEST_ROOM }
    requires few_marks { length marks.now ≤ LARGEST_MARKS }
    requires in_order { AreMarks 0 (length items.now) marks.now }
    requires least { 3 ≤ length words.old }
    requires most { length words.old ≤ MOST_DATA }
    ensures form { IfOk result (λ count. take count words.new ≡ form_by profile head items.now marks.now) }
    ensures fits { IfOk result (λ count. count ≤ length words.new) }
    ensures too_long { IsErr result ↔ (length words.old < length (form_by profile head items.now marks.now)) }
    ensures same { OnErr result (words.new ≡ words.old) }
    ensures plain { IfOk result (λ count. IsMessage items.now
        → IsPlainWithPads (take count words.new)
        (record { head = head; items = items.now; marks = marks.now })) }
{
    if is_plain(head, marks) {
        return normal_words_to(profile, items, words);
    }
    write_marked(head, items, marks, words)
}
