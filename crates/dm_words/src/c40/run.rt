//! Runs: a latch, pairs and an end.

ghost use Rattle.std.specs.Prelude.{◌≡◌, ◌+◌, ◌*◌, ◌/◌, ◌^◌, ◌≤◌, ◌<◌, length, take, drop};
ghost use Rattle.dm_words.specs.RunFaults.{pair_place};
ghost use Rattle.dm_words.specs.inner.Scan.Prefixes.{end_length, run_fault, run_behind};
ghost use Rattle.dm_words.specs.inner.Scan.Results.{HasRoomAt, IsPartTaken};

use crate::c40::pair::{PairsEnd, pairs_to};
use crate::c40::set::CodeSet;
use crate::c40::value::{Rest, Spelled, read_values};
use crate::extent::Extent;
use crate::fault::WordFault;
use crate::item::Item;
use crate::limits::{MOST_VALUES, SHORT_RUN, SHORT_VALUES};
use dm_layout::symbols::MOST_DATA;

/// Gives the place of the pair that holds the value of an index, in a run whose latch stands at a place.
fn pair_place(place: u16, index: u16) -> u16
    requires { place + 1 + 2 * (index / 3) < 2 ^ 16 }
    ensures { result ≡ pair_place place index }
{
    place + 1 + 2 * (index / 3)
}

/// Gives what is wrong with the run whose latch stands at a place, if anything is: the first wrong value; if there is
/// none, a bad pair; if there is none either, in the usual extent, an Upper Shift that waits. The pairs have
/// `pair_words` codewords.
fn fault_of(
    extent: Extent,
    place: u16,
    pair_words: usize,
    end: PairsEnd,
    spelled: Spelled,
) -> Option<WordFault>
    requires place { place ≤ MOST_DATA }
    requires pair_words { pair_words ≤ MOST_DATA }
    requires values { spelled.value_count ≤ MOST_VALUES }
    ensures { result ≡ run_fault extent place pair_words end spelled.value_count spelled.rest }
{
    let count = spelled.value_count as u16;
    match (spelled.rest, end) {
        (Rest::Meaningless(behind), _) => {
            Some(WordFault::Value(pair_place(place, count + behind as u16)))
        }
        (Rest::WrongUpperShift, _) => Some(WordFault::UpperShift(pair_place(place, count + 1))),
        (_, PairsEnd::BadPair) => Some(WordFault::Triplet(place + 1 + pair_words as u16)),
        (Rest::Waiting, _) => match extent {
            Extent::Usual => Some(WordFault::Unfinished(pair_place(place, count + 1))),
            Extent::Wide => None,
        },
        (Rest::Complete, _) => None,
    }
}

/// Takes the run whose latch stands at an index: adds its items to the message, and gives the number of its codewords.
pub(crate) fn run_part(
    extent: Extent,
    set: CodeSet,
    words: &[u8],
    at: usize,
    items: &mut [Item],
    held: &mut usize,
) -> Result<usize, WordFault>
    requires in_range { at < length words.now }
    requires short { length words.now ≤ MOST_DATA }
    requires room { HasRoomAt (length items.old) words.now at held.old }
    ensures taken { IsPartTaken result (take held.old items.old) (take held.new items.new)
        (run_behind extent set (at + 1) (drop (at + 1) words.now)) }
    ensures within { held.new ≤ length items.new }
{
    // To clear room for the values of a long run takes longer than to read a short one.
    if words.len() <= SHORT_RUN {
        run_by(extent, set, words, at, &mut [0; SHORT_VALUES], items, held)
    } else {
        run_by(extent, set, words, at, &mut [0; MOST_VALUES], items, held)
    }
}

/// Does the same by way of a list of the values.
fn run_by(
    extent: Extent,
    set: CodeSet,
    words: &[u8],
    at: usize,
    values: &mut [u8],
    items: &mut [Item],
    held: &mut usize,
) -> Result<usize, WordFault>
    requires in_range { at < length words.now }
    requires short { length words.now ≤ MOST_DATA }
    requires values { 3 * length words.now ≤ 2 * length values.old }
    requires room { HasRoomAt (length items.old) words.now at held.old }
    ensures taken { IsPartTaken result (take held.old items.old) (take held.new items.new)
        (run_behind extent set (at + 1) (drop (at + 1) words.now)) }
    ensures within { held.new ≤ length items.new }
{
    let pairs = pairs_to(&words[at + 1..], values);
    let spelled = read_values(set, &values[..pairs.value_count], items, held);
    match fault_of(extent, at as u16 + 1, pairs.word_count, pairs.end, spelled) {
        Some(fault) => Err(fault),
        None => Ok(1 + pairs.word_count + end_length(pairs.end)),
    }
}

/// Gives the number of codewords of the end of a run.
fn end_length(end: PairsEnd) -> usize
    ensures { result ≡ end_length end }
{
    match end {
        PairsEnd::Unlatch => 1,
        PairsEnd::SymbolEnd | PairsEnd::BadPair => 0,
    }
}
