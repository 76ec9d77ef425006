//! Reading: the message that data codewords spell, or the fault with which they are refused.

ghost use Rattle.std.specs.Prelude.{◌≡◌, ◌+◌, ◌≤◌, ◌<◌, ◌*◌, ◌/◌, ◌%◌, ◌↔◌, false, List, [], ◌∷◌, ◌++◌, length, take};
ghost use Rattle.std.specs.Prelude.{drop};
ghost use Rattle.std.specs.Prelude.{OnErr, IsFalse, Option};
ghost use Rattle.dm_words.specs.declared.item.Item.{Item};
ghost use Rattle.dm_words.specs.declared.fault.WordFault.{WordFault};
ghost use Rattle.dm_words.specs.declared.contents.mark.Mark.{Mark};
ghost use Rattle.dm_words.specs.Codewords.{codeword_of};
ghost use Rattle.dm_words.specs.Outcomes.{outcome};
ghost use Rattle.dm_words.specs.Results.{IsMessageResult};
ghost use Rattle.dm_words.specs.inner.Scan.Prefixes.{first_part, part_by, raised_unit, is_one_word};
ghost use Rattle.dm_words.specs.inner.Scan.Prefixes.{begins_with_one_word};
ghost use Rattle.dm_words.specs.inner.Scan.Walk.{Step};
ghost use Rattle.dm_words.specs.inner.ContentScan.{items_with, content_on};
ghost use Rattle.dm_words.specs.inner.Scan.Results.{HasRoomAt, IsPartTakenOrEnd, IsPartTaken, IsOneWordTaken};

use crate::base256::segment_part;
use crate::c40::run::run_part;
use crate::codeword::{Codeword, Lone, lone_of, meaning};
use crate::contents::fault::ContentFault;
use crate::contents::reading::read_content;
use crate::edifact::edifact_part;
use crate::extent::Extent;
use crate::fault::WordFault;
use crate::held::add;
use crate::item::Item;
use crate::message::{Message, MessageIn};
use crate::numbers::number_at;
use dm_layout::MOST_GRID_DATA;
use dm_layout::symbols::MOST_DATA;

/// Takes the part at an index: adds its items to the message, and gives the number of its codewords; `None` at the end.
pub(crate) fn next_part(
    extent: Extent,
    words: &[u8],
    at: usize,
    items: &mut [Item],
    held: &mut usize,
) -> Result<Option<usize>, WordFault>
    requires in_range { at ≤ length words.now }
    requires short { length words.now ≤ MOST_DATA }
    requires room { HasRoomAt (length items.old) words.now at held.old }
    ensures taken { IsPartTakenOrEnd result (take held.old items.old) (take held.new items.new)
        (first_part extent (at + 1) (drop at words.now)) }
    ensures within { held.new ≤ length items.new }
{
    match number_at(words, at) {
        Some(first) => part_of(extent, meaning(first), first, words, at, items, held),
        None => Ok(None),
    }
}

/// Takes the part that begins with the codeword `first` at an index, by what that means: adds its items to the message,
/// and gives the number of its codewords; `None` at the end.
fn part_of(
    extent: Extent,
    meaning: Option<Codeword>,
    first: u8,
    words: &[u8],
    at: usize,
    items: &mut [Item],
    held: &mut usize,
) -> Result<Option<usize>, WordFault>
    requires in_range { at < length words.now }
    requires short { length words.now ≤ MOST_DATA }
    requires room { HasRoomAt (length items.old) words.now at held.old }
    ensures taken { IsPartTakenOrEnd result (take held.old items.old) (take held.new items.new)
        (part_by extent (at + 1) first (drop (at + 1) words.now) meaning) }
    ensures within { held.new ≤ length items.new }
{
    let place = at as u16 + 1;
    match meaning {
        Some(Codeword::Pad) => Ok(None),
        Some(Codeword::Character(byte)) => {
            add(Item::Byte(byte), items, held);
            Ok(Some(1))
        }
        Some(Codeword::Digits(number)) => {
            add_digits(number, items, held);
            Ok(Some(1))
        }
        Some(Codeword::Fnc1) => {
            add(Item::Fnc1, items, held);
            Ok(Some(1))
        }
        Some(Codeword::UpperShift) => part_or_end(raised_part(words, at, items, held)),
        Some(Codeword::Latch(set)) => part_or_end(run_part(extent, set, words, at, items, held)),
        Some(Codeword::Base256) => part_or_end(segment_part(words, at, items, held)),
        Some(Codeword::Edifact) => match extent {
            Extent::Usual => Err(WordFault::LeftOut(first, place)),
            Extent::Wide => Ok(Some(edifact_part(words, at, items, held))),
        },
        Some(Codeword::Macro(_) | Codeword::LeftOut) => Err(WordFault::LeftOut(first, place)),
        None => Err(WordFault::Reserved(place)),
    }
}

/// Gives the result of a part that isn't the end as that of one that might be.
fn part_or_end(part: Result<usize, WordFault>) -> Result<Option<usize>, WordFault>
    ensures { (old new : List Item) (step : Step (List Item) (Option WordFault))
        → IsPartTaken part old new step → IsPartTakenOrEnd result old new step }
{
    match part {
        Ok(count) => Ok(Some(count)),
        Err(fault) => Err(fault),
    }
}

/// Takes the Upper Shift at an index and its character: adds the byte to the message, and gives the number of its
/// codewords.
fn raised_part(
    words: &[u8],
    at: usize,
    items: &mut [Item],
    held: &mut usize,
) -> Result<usize, WordFault>
    requires in_range { at < length words.now }
    requires short { length words.now ≤ MOST_DATA }
    requires room { HasRoomAt (length items.old) words.now at held.old }
    ensures taken { IsPartTaken result (take held.old items.old) (take held.new items.new)
        (raised_unit (at + 1) (drop (at + 1) words.now)) }
    ensures within { held.new ≤ length items.new }
{
    let place = at as u16 + 1;
    let Some(second) = number_at(words, at + 1) else {
        return Err(WordFault::Unfinished(place));
    };
    match meaning(second) {
        Some(Codeword::Character(byte)) => {
            add(Item::Byte(byte + 128), items, held);
            Ok(2)
        }
        _ => Err(WordFault::UpperShift(place)),
    }
}

/// Takes a part that is one codeword, a character or a pair of digits, and says whether this codeword is one: adds its
/// items to the message.
fn one_word_part(word: u8, items: &mut [Item], held: &mut usize) -> bool
    requires { held.old + 2 ≤ length items.old }
    ensures one { result ≡ is_one_word (codeword_of word) }
    ensures taken { IsOneWordTaken result (take held.old items.old) (take held.new items.new) word }
    ensures same { IsFalse result → held.new ≡ held.old }
    ensures within { held.new ≤ length items.new }
{
    match lone_of(word) {
        Lone::Character(byte) => {
            add(Item::Byte(byte), items, held);
            true
        }
        Lone::Digits(number) => {
            add_digits(number, items, held);
            true
        }
        Lone::Other => false,
    }
}

/// Takes the parts of one codeword that stand at an index, all that there are one after the other: adds their items to
/// the message, and gives the index behind them.
// Most codewords are such parts, and this loop has nothing else in it.
pub(crate) fn one_word_parts(
    words: &[u8],
    start: usize,
    items: &mut [Item],
    held: &mut usize,
) -> usize
    requires in_range { start ≤ length words.now }
    requires short { length words.now ≤ MOST_DATA }
    requires room { HasRoomAt (length items.old) words.now start held.old }
    ensures from { start ≤ result }
    ensures in_range { result ≤ length words.now }
    ensures two_for_each_codeword { held.new + 2 * start ≤ held.old + 2 * result }
    ensures no_fewer { held.old ≤ held.new }
    ensures within { held.new ≤ length items.new }
    ensures all { begins_with_one_word (drop result words.now) ≡ false }
    ensures said { (extent : Extent) (marks : List Mark)
        → content_on extent (items_with marks (take held.new items.new)) (result + 1)
        (drop result words.now)
        ≡ content_on extent (items_with marks (take held.old items.old)) (start + 1)
        (drop start words.now) }
{
    // In a variable of its own, so that the count isn't stored at each turn.
    let mut count = *held;
    let mut at = start;
    while let Some(word) = number_at(words, at) {
        let is_taken = one_word_part(word, items, &mut count);
        if !is_taken {
            *held = count;
            return at;
        }
        at += 1;
    }
    *held = count;
    at
}

/// Adds the two digits of a number to the message.
fn add_digits(number: u8, items: &mut [Item], held: &mut usize)
    requires { held.old + 2 ≤ length items.old }
    ensures added { take held.new items.new ≡ take held.old items.old ++ Item.Byte (48 + number / 10)
        ∷ Item.Byte (48 + number % 10) ∷ [] }
    ensures within { held.new ≤ length items.new }
{
    add(Item::Byte(b'0' + number / 10), items, held);
    add(Item::Byte(b'0' + number % 10), items, held);
}

/// Gives the message that the data codewords of a symbol spell, in any of the five encodations of the usual extent, or
/// the fault with which they are refused. The list is the whole data part, at most `MOST_GRID_DATA` codewords, so its
/// end is the end of the symbol. What follows the first pad is ignored. The first faulty part from the left decides;
/// `WordFault` says when each fault comes. ISO/IEC 16022, encodation schemes.
pub fn message_of(words: &[u8]) -> Result<Message, WordFault>
    requires { length words.now ≤ MOST_GRID_DATA }
    ensures { IsMessageResult words.now result }
{
    let mut message = Message::new();
    match message_to(words, &mut message) {
        Ok(()) => Ok(message),
        Err(fault) => Err(fault),
    }
}

/// Does the same in a target with room for two items for each codeword, of which there may be [`MOST_DATA`]: after
/// `Ok`, `message` holds the message, whatever it held before. After a fault it is empty.
pub fn message_to<const ROOM: usize>(
    words: &[u8],
    message: &mut MessageIn<ROOM>,
) -> Result<(), WordFault>
    requires short { length words.now ≤ MOST_DATA }
    requires room { 2 * length words.now ≤ ROOM }
    ensures read { IsMessageResult words.now (outcome result message.new) }
    ensures emptied { OnErr result (message.new ≡ []) }
{
    message.held = 0;
    match read_content(Extent::Usual, words, &mut message.list[..], &mut []) {
        Ok(holding) => {
            message.held = holding.items;
            Ok(())
        }
        Err(ContentFault::Word(fault)) => Err(fault),
        Err(ContentFault::Designator(_)) => unreachable!(),
        Err(ContentFault::Append(_)) => unreachable!(),
    }
}
