//! The values of a run, and the items that they spell.

ghost use Rattle.std.specs.Prelude.{◌≡◌, ◌+◌, ◌≤◌, ◌++◌, length, take, drop, All};
ghost use Rattle.dm_words.specs.inner.Scan.Prefixes.{first_spelling, first_raised, items_in};
ghost use Rattle.dm_words.specs.Values.{IsRunValue};
ghost use Rattle.dm_words.specs.inner.Scan.Results.{GivesItem};

use crate::c40::set::{Basic, CodeSet, Shifted, basic_meaning, shifted_meaning};
use crate::held::add;
use crate::item::Item;
use crate::limits::MOST_VALUES;
use crate::numbers::number_at;

/// What follows the last whole spelling.
#[derive(Clone, Copy)]
pub enum Rest {
    /// Nothing, or one lone shift, which is dropped.
    Complete,
    /// An Upper Shift whose character doesn't come, alone or before one lone shift.
    Waiting,
    /// An Upper Shift before FNC1 or another Upper Shift.
    WrongUpperShift,
    /// A shift before a value that has no meaning after it, with or without an Upper Shift before them. The number says
    /// how many values further on that value stands.
    Meaningless(u8),
}

/// The item that the values begin with and how many of them spell it, or what stands there instead.
#[derive(Clone, Copy)]
pub enum Spelling {
    Takes(usize, Item),
    Stops(Rest),
}

/// Gives the spelling at an index.
fn spelling_at(set: CodeSet, values: &[u8], at: usize) -> Spelling
    requires in_range { at ≤ length values.now }
    requires small { All IsRunValue values.now }
    ensures { GivesItem result (first_spelling set at (drop at values.now)) }
{
    let Some(first) = number_at(values, at) else {
        return Spelling::Stops(Rest::Complete);
    };
    let shift = match basic_meaning(set, first) {
        Basic::Character(byte) => return Spelling::Takes(1, Item::Byte(byte)),
        Basic::Shift(shift) => shift,
    };
    let Some(second) = number_at(values, at + 1) else {
        return Spelling::Stops(Rest::Complete);
    };
    match shifted_meaning(set, shift, second) {
        Some(Shifted::Character(byte)) => Spelling::Takes(2, Item::Byte(byte)),
        Some(Shifted::Fnc1) => Spelling::Takes(2, Item::Fnc1),
        Some(Shifted::UpperShift) => raised_at(set, values, at + 2),
        None => Spelling::Stops(Rest::Meaningless(1)),
    }
}

/// Gives the spelling whose Upper Shift ends before an index.
fn raised_at(set: CodeSet, values: &[u8], at: usize) -> Spelling
    requires in_range { at ≤ length values.now }
    requires small { All IsRunValue values.now }
    ensures { GivesItem result (first_raised set (drop at values.now)) }
{
    let Some(third) = number_at(values, at) else {
        return Spelling::Stops(Rest::Waiting);
    };
    let shift = match basic_meaning(set, third) {
        Basic::Character(byte) => return Spelling::Takes(3, Item::Byte(byte + 128)),
        Basic::Shift(shift) => shift,
    };
    let Some(fourth) = number_at(values, at + 1) else {
        return Spelling::Stops(Rest::Waiting);
    };
    match shifted_meaning(set, shift, fourth) {
        Some(Shifted::Character(byte)) => Spelling::Takes(4, Item::Byte(byte + 128)),
        Some(Shifted::Fnc1 | Shifted::UpperShift) => Spelling::Stops(Rest::WrongUpperShift),
        None => Spelling::Stops(Rest::Meaningless(3)),
    }
}

/// How many values are in whole spellings, and what follows them.
#[derive(Clone, Copy)]
pub struct Spelled {
    pub value_count: usize,
    pub rest: Rest,
}

/// Adds the items that the values spell to the message, up to the first rest.
pub(crate) fn read_values(
    set: CodeSet,
    values: &[u8],
    items: &mut [Item],
    held: &mut usize,
) -> Spelled
    requires small { All IsRunValue values.now }
    requires few { length values.now ≤ MOST_VALUES }
    requires room { held.old + length values.now ≤ length items.old }
    ensures items { take held.new items.new
        ≡ take held.old items.old ++ (items_in set values.now).taken }
    ensures value_count { result.value_count ≡ (items_in set values.now).place }
    ensures rest { result.rest ≡ (items_in set values.now).why }
    ensures few { result.value_count ≤ length values.now }
    ensures within { held.new ≤ length items.new }
{
    let mut at = 0;
    loop {
        match spelling_at(set, values, at) {
            Spelling::Takes(count, item) => {
                add(item, items, held);
                at += count;
            }
            Spelling::Stops(rest) => return Spelled {
                value_count: at,
                rest,
            },
        }
    }
}
