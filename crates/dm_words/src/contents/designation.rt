//! Where the ECI designators of a content stand among its codewords (ISO/IEC 16022, ECI encodation).

ghost use Rattle.std.specs.Prelude.{◌≡◌, ℕ, ◌+◌, ◌<◌, ◌≤◌, List, [], IfOk, IsTrue, IsFalse, length, take, drop};
ghost use Rattle.std.specs.Prelude.{◌≢◌, get_or};
ghost use Rattle.dm_words.specs.Designations.{AreDesignations};
ghost use Rattle.dm_words.specs.Designators.{eci_word};
ghost use Rattle.dm_words.specs.Contents.{HasMarkRoom, eci_count};
ghost use Rattle.dm_words.specs.inner.ContentsAt.{AreDesignationsFrom, AreMarksAt, IsDesignationTaken};
ghost use Rattle.dm_words.specs.inner.ContentScan.{BeginNoEci, first_designator, first_content_part, mark_by};

use crate::contents::designator::{ECI, first_designator};
use crate::contents::fault::ContentFault;
use crate::contents::mark::Mark;
use crate::contents::opening::{is_alone, opening_of};
use crate::extent::Extent;
use crate::held::add;
use crate::item::Item;
use crate::limits::LARGEST_ROOM;
use crate::numbers::number_at;
use crate::reading::next_part;
use dm_layout::symbols::MOST_DATA;

/// Takes the designator whose ECI stands at an index: adds it, and gives the number of its codewords and ECI.
fn designator_part(
    words: &[u8],
    at: usize,
    marks: &mut [Mark],
    marked: &mut usize,
) -> Result<Option<usize>, ContentFault>
    requires in_range { at < length words.now }
    requires short { length words.now ≤ MOST_DATA }
    requires room { marked.old < length marks.old }
    ensures taken { IsDesignationTaken result at (take marked.old marks.old) (take marked.new marks.new)
        (mark_by (at + 1) (first_designator (drop (at + 1) words.now))) }
    ensures within { marked.new ≤ length marks.new }
{
    match first_designator(&words[at + 1..]) {
        Some(designator) => {
            let found = Mark {
                place: at as u16,
                number: designator.number,
            };
            add(found, marks, marked);
            Ok(Some(1 + designator.count))
        }
        None => Err(ContentFault::Designator(at as u16 + 1)),
    }
}

/// Passes over the part at an index, which has no designator: gives the number of its codewords; `None` at the end.
/// `items` is room for its items.
fn other_part(
    words: &[u8],
    at: usize,
    items: &mut [Item; LARGEST_ROOM],
) -> Result<Option<usize>, ContentFault>
    requires in_range { at ≤ length words.now }
    requires short { length words.now ≤ MOST_DATA }
    requires other { BeginNoEci (drop at words.now) }
    ensures { (before : ℕ) (found : List Mark) → IsDesignationTaken result before found found
        (first_content_part Extent.Wide (at + 1) (drop at words.now)) }
{
    match next_part(Extent::Wide, words, at, &mut items[..], &mut 0) {
        Ok(count) => Ok(count),
        Err(fault) => Err(ContentFault::Word(fault)),
    }
}

/// Takes the part at an index: adds its designator, if it is one, and gives the number of its codewords; `None` at the
/// end.
fn next_designation(
    words: &[u8],
    at: usize,
    items: &mut [Item; LARGEST_ROOM],
    marks: &mut [Mark],
    marked: &mut usize,
) -> Result<Option<usize>, ContentFault>
    requires in_range { at ≤ length words.now }
    requires short { length words.now ≤ MOST_DATA }
    requires room { HasMarkRoom (length marks.old) words.now }
    requires marked { marked.old ≤ length marks.old }
    requires so_far { AreMarksAt words.now at (take marked.old marks.old) }
    ensures taken { IsDesignationTaken result at (take marked.old marks.old) (take marked.new marks.new)
        (first_content_part Extent.Wide (at + 1) (drop at words.now)) }
    ensures within { marked.new ≤ length marks.new }
{
    match number_at(words, at) {
        Some(ECI) => designator_part(words, at, marks, marked),
        Some(word) if is_alone(word) => Ok(Some(1)),
        _ => other_part(words, at, items),
    }
}

/// Leaves in `marks` the designators among all parts from an index on, up to the end, and gives how many these are.
fn designations_from(
    words: &[u8],
    start: usize,
    items: &mut [Item; LARGEST_ROOM],
    marks: &mut [Mark],
) -> Result<usize, ContentFault>
    requires in_range { start ≤ length words.now }
    requires short { length words.now ≤ MOST_DATA }
    requires room { HasMarkRoom (length marks.old) words.now }
    ensures found { AreDesignationsFrom result start words.now marks.new }
    ensures within { IfOk result (λ count. count ≤ length marks.new) }
{
    let mut marked = 0;
    let mut at = start;
    while let Some(count) = next_designation(words, at, items, marks, &mut marked)? {
        at += count;
    }
    Ok(marked)
}

/// Gives how many of the codewords of a symbol are ECI, 241: the content that they say has no more marks.
pub fn eci_count(words: &[u8]) -> u16
    requires { length words.now ≤ MOST_DATA }
    ensures { result ≡ eci_count words.now }
{
    let mut count = 0;
    for word in words {
        if *word == ECI {
            count += 1;
        }
    }
    count
}

/// Whether ECI is among the codewords. Where it isn't, no designator is. All are looked at, without a jump, so that the
/// compiler takes many at once.
pub fn has_eci(words: &[u8]) -> bool
    ensures some { IsTrue result → (i : ℕ) × (i < length words.now) × (get_or words.now i 0 ≡ eci_word) }
    ensures no { IsFalse result → (i : ℕ) → i < length words.now → get_or words.now i 0 ≢ eci_word }
    ensures none { IsFalse result → AreDesignations words.now [] }
{
    let mut found = false;
    for word in words {
        found = found | (*word == ECI);
    }
    found
}

/// Leaves in `marks` where the ECI designators stand among the data codewords of a symbol, as the content has them that
/// these say at [`Extent::Wide`], and the number of each; and gives how many these are, none where the codewords say no
/// content. There is room for one mark for each two codewords or for each ECI among them. The place of one counts the
/// codewords before its ECI, which is the codeword 241; behind that the one to three codewords of the designator stand.
/// A 241 in a head, a run, a segment or a designator, or behind the first pad, is none. ISO/IEC 16022, ECI encodation.
pub fn designations_to(words: &[u8], marks: &mut [Mark]) -> usize
    requires short { length words.now ≤ MOST_DATA }
    requires room { HasMarkRoom (length marks.old) words.now }
    ensures found { AreDesignations words.now (take result marks.new) }
    ensures within { result ≤ length marks.new }
{
    let Some(opened) = opening_of(Extent::Wide, words) else {
        return 0;
    };
    let mut items = [Item::Fnc1; LARGEST_ROOM];
    match designations_from(words, opened.count, &mut items, marks) {
        Ok(count) => count,
        Err(_) => 0,
    }
}
