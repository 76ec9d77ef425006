//! Reading: the content that data codewords say, or the fault with which they are refused.

ghost use Rattle.std.specs.Prelude.{◌≡◌, ◌+◌, ◌*◌, ◌≤◌, ◌<◌, ◌++◌, [], length, take, drop, List, None, OnOk};
ghost use Rattle.std.specs.Prelude.{OnErr, IfOk};
ghost use Rattle.dm_words.specs.Messages.{most_spelled};
ghost use Rattle.dm_words.specs.Contents.{HasMarkRoom};
ghost use Rattle.dm_words.specs.ContentResults.{IsContentResult};
ghost use Rattle.dm_words.specs.Outcomes.{outcome};
ghost use Rattle.dm_words.specs.inner.Scan.Results.{HasRoomAt};
ghost use Rattle.dm_words.specs.inner.ContentScan.{first_designator, mark_by, first_content_part, content_on};
ghost use Rattle.dm_words.specs.inner.ContentScan.{BeginNoEci, closing_items, items_with, opening_head, opening_items};
ghost use Rattle.dm_words.specs.inner.ContentsAt.{held_outcome, IsContentAt, IsContentPartTaken};

use crate::codeword::FIRST_PAD;
use crate::contents::content::ContentIn;
use crate::contents::designator::{ECI, first_designator};
use crate::contents::fault::ContentFault;
use crate::contents::head::Head;
use crate::contents::mark::{Mark, add_mark};
use crate::contents::opening::{Opened, Opening, opening_of};
use crate::extent::Extent;
use crate::fault::WordFault;
use crate::item::Item;
use crate::limits::LARGEST_ROOM;
use crate::macros::{add_header, add_trailer};
use crate::numbers::number_at;
use crate::reading::{next_part, one_word_parts};
use dm_layout::symbols::MOST_DATA;

/// Takes the mark whose ECI stands at an index, behind these items: adds it, and gives the number of its codewords.
fn mark_part(
    words: &[u8],
    at: usize,
    items: &[Item],
    marks: &mut [Mark],
    marked: &mut usize,
) -> Result<Option<usize>, ContentFault>
    requires in_range { at < length words.now }
    requires short { length words.now ≤ MOST_DATA }
    requires most { length items.now ≤ LARGEST_ROOM }
    requires room { marked.old < length marks.old }
    ensures taken { IsContentPartTaken result (items_with (take marked.old marks.old) items.now)
        (items_with (take marked.new marks.new) items.now)
        (mark_by (at + 1) (first_designator (drop (at + 1) words.now))) }
    ensures within { marked.new ≤ length marks.new }
{
    match first_designator(&words[at + 1..]) {
        Some(designator) => {
            add_mark(designator.number, items, marks, marked);
            Ok(Some(1 + designator.count))
        }
        None => Err(ContentFault::Designator(at as u16 + 1)),
    }
}

/// Takes the part at an index, which isn't a mark: adds its items, and gives the number of its codewords; `None` at
/// the end.
fn item_part(
    extent: Extent,
    words: &[u8],
    at: usize,
    items: &mut [Item],
    held: &mut usize,
) -> Result<Option<usize>, ContentFault>
    requires in_range { at ≤ length words.now }
    requires short { length words.now ≤ MOST_DATA }
    requires room { HasRoomAt (length items.old) words.now at held.old }
    requires other { BeginNoEci (drop at words.now) }
    ensures taken { (marks : List Mark)
        → IsContentPartTaken result (items_with marks (take held.old items.old))
        (items_with marks (take held.new items.new))
        (first_content_part extent (at + 1) (drop at words.now)) }
    ensures within { held.new ≤ length items.new }
{
    match next_part(extent, words, at, items, held) {
        Ok(count) => Ok(count),
        Err(fault) => Err(ContentFault::Word(fault)),
    }
}

/// Takes the part at an index: adds what it says, and gives the number of its codewords; `None` at the end.
fn next_content_part(
    extent: Extent,
    words: &[u8],
    at: usize,
    items: &mut [Item],
    held: &mut usize,
    marks: &mut [Mark],
    marked: &mut usize,
) -> Result<Option<usize>, ContentFault>
    requires in_range { at ≤ length words.now }
    requires short { length words.now ≤ MOST_DATA }
    requires most { extent ≡ Extent.Wide → length items.old ≤ LARGEST_ROOM }
    requires marks { extent ≡ Extent.Wide → HasMarkRoom (length marks.old) words.now }
    requires held { held.old ≤ length items.old }
    requires marked { marked.old ≤ length marks.old }
    requires so_far { IsContentAt (length items.old) words.now at
        (items_with (take marked.old marks.old) (take held.old items.old)) }
    ensures taken { IsContentPartTaken result
        (items_with (take marked.old marks.old) (take held.old items.old))
        (items_with (take marked.new marks.new) (take held.new items.new))
        (first_content_part extent (at + 1) (drop at words.now)) }
    ensures held { held.new ≤ length items.new }
    ensures marked { marked.new ≤ length marks.new }
{
    match number_at(words, at) {
        None | Some(FIRST_PAD) => Ok(None),
        Some(ECI) => match extent {
            Extent::Usual => Err(ContentFault::Word(WordFault::LeftOut(ECI, at as u16 + 1))),
            Extent::Wide => mark_part(words, at, &items[..*held], marks, marked),
        },
        Some(_) => item_part(extent, words, at, items, held),
    }
}

/// Adds what all parts from an index on say, up to the end.
fn add_content_parts(
    extent: Extent,
    words: &[u8],
    start: usize,
    items: &mut [Item],
    held: &mut usize,
    marks: &mut [Mark],
    marked: &mut usize,
) -> Result<(), ContentFault>
    requires in_range { start ≤ length words.now }
    requires short { length words.now ≤ MOST_DATA }
    requires most { extent ≡ Extent.Wide → length items.old ≤ LARGEST_ROOM }
    requires marks { extent ≡ Extent.Wide → HasMarkRoom (length marks.old) words.now }
    requires held { held.old ≤ length items.old }
    requires marked { marked.old ≤ length marks.old }
    requires so_far { IsContentAt (length items.old) words.now start
        (items_with (take marked.old marks.old) (take held.old items.old)) }
    ensures read { outcome result (items_with (take marked.new marks.new) (take held.new items.new))
        ≡ content_on extent (items_with (take marked.old marks.old) (take held.old items.old))
        (start + 1) (drop start words.now) }
    ensures two_for_each_codeword { OnOk result
        (held.new + 2 * start ≤ held.old + 2 * length words.now) }
    ensures held { held.new ≤ length items.new }
    ensures marked { marked.new ≤ length marks.new }
{
    let mut at = one_word_parts(words, start, items, held);
    while let Some(count) = next_content_part(extent, words, at, items, held, marks, marked)? {
        at = one_word_parts(words, at + count, items, held);
    }
    Ok(())
}

/// Adds the items that stand before those of the parts.
fn add_opening(opening: Opening, items: &mut [Item], held: &mut usize)
    requires { held.old + length (opening_items opening) ≤ length items.old }
    ensures added { take held.new items.new ≡ take held.old items.old ++ opening_items opening }
    ensures within { held.new ≤ length items.new }
{
    match opening {
        Opening::Framed(digit) => add_header(digit, items, held),
        Opening::Plain | Opening::Headed(_) => {}
    }
}

/// Adds the items that stand behind those of the parts.
fn add_closing(opening: Opening, items: &mut [Item], held: &mut usize)
    requires { held.old + length (closing_items opening) ≤ length items.old }
    ensures added { take held.new items.new ≡ take held.old items.old ++ closing_items opening }
    ensures within { held.new ≤ length items.new }
{
    match opening {
        Opening::Framed(_) => add_trailer(items, held),
        Opening::Plain | Opening::Headed(_) => {}
    }
}

/// Gives the head that an opening says.
fn opening_head(opening: Opening) -> Option<Head>
    ensures { result ≡ opening_head opening }
{
    match opening {
        Opening::Headed(head) => Some(head),
        Opening::Plain | Opening::Framed(_) => None,
    }
}

/// What lists hold that a content was read into: how many items, and how many marks; and the head, which is in none.
#[derive(Clone, Copy)]
pub struct Holding {
    pub head: Option<Head>,
    pub items: usize,
    pub marks: usize,
}

/// Reads the words into the beginnings of lists, whatever stood there before.
pub(crate) fn read_content(
    extent: Extent,
    words: &[u8],
    items: &mut [Item],
    marks: &mut [Mark],
) -> Result<Holding, ContentFault>
    requires short { length words.now ≤ MOST_DATA }
    requires most { extent ≡ Extent.Wide → length items.old ≤ LARGEST_ROOM }
    requires room { most_spelled extent (length words.now) ≤ length items.old }
    requires marks { extent ≡ Extent.Wide → HasMarkRoom (length marks.old) words.now }
    ensures content { IsContentResult extent words.now (held_outcome result items.new marks.new) }
    ensures items { IfOk result (λ holding. holding.items ≤ length items.new) }
    ensures marks { IfOk result (λ holding. holding.marks ≤ length marks.new) }
{
    let Some(found) = opening_of(extent, words) else {
        return Err(ContentFault::Append(1));
    };
    let mut held = 0;
    let mut marked = 0;
    add_opening(found.opening, items, &mut held);
    add_content_parts(
        extent,
        words,
        found.count,
        items,
        &mut held,
        marks,
        &mut marked,
    )?;
    add_closing(found.opening, items, &mut held);
    Ok(Holding {
        head: opening_head(found.opening),
        items: held,
        marks: marked,
    })
}

/// Reads the content that the data codewords of a symbol say, in an extent, into a target with room for all that so
/// many codewords, at most [`MOST_DATA`], can say, and for one mark for each two of them or for each ECI among them
/// ([`eci_count()`](crate::eci_count())): after `Ok`, `content` holds the content, whatever it held before. After a
/// fault it has no head, no item and no mark. The list is the whole data part, so its end is the end of the symbol.
///
/// At [`Extent::Usual`] a content is what [`message_of()`](crate::message_of()) gives, without a head and marks. At
/// [`Extent::Wide`] EDIFACT, ECI, structured append and reader programming are read too; a macro at the beginning,
/// behind empty runs of C40, Text or X12 or none, gives the content its header and its trailer, so it has up to seven
/// items more than two for each codeword; and an Upper Shift that waits where a run of C40 or Text ends is dropped.
/// What is read at [`Extent::Usual`] is read at [`Extent::Wide`] as the same. [`ContentFault`] says when each fault
/// comes. ISO/IEC 16022, encodation schemes, ECI encodation, structured append, reader programming, 05 and 06 macro
/// characters.
pub fn content_to_as<const ROOM: usize, const MARKS: usize>(
    extent: Extent,
    words: &[u8],
    content: &mut ContentIn<ROOM, MARKS>,
) -> Result<(), ContentFault>
    requires short { length words.now ≤ MOST_DATA }
    requires most { ROOM ≤ LARGEST_ROOM }
    requires room { most_spelled extent (length words.now) ≤ ROOM }
    requires marks { HasMarkRoom MARKS words.now }
    ensures read { IsContentResult extent words.now (outcome result content.new) }
    ensures emptied { OnErr result
        (content.new ≡ record { head = None; items = []; marks = [] }) }
{
    content.clear();
    match read_content(
        extent,
        words,
        &mut content.items[..],
        &mut content.marks[..],
    ) {
        Ok(holding) => {
            content.head = holding.head;
            content.held = holding.items;
            content.marked = holding.marks;
            Ok(())
        }
        Err(fault) => Err(fault),
    }
}
