//! Runs of C40, Text and X12 that follow the plan.

ghost use Rattle.std.specs.Prelude.{◌≡◌, ◌+◌, ◌-◌, ◌*◌, ◌/◌, ◌≤◌, ◌<◌, ◌&&◌, not, Some, length, All, ℕ, take, drop};
ghost use Rattle.dm_words.specs.declared.extent.Extent.{Extent};
ghost use Rattle.dm_words.specs.declared.codeword.Codeword.TheVariants as Codeword;
ghost use Rattle.dm_words.specs.Codewords.{codeword_of};
ghost use Rattle.dm_words.specs.Values.{IsRunValue};
ghost use Rattle.dm_words.specs.inner.Costs.{step_in, set_values, owed, going_pairs, going_from, parts_cost};
ghost use Rattle.dm_words.specs.inner.Costs.{IsRightPlan};
ghost use Rattle.dm_words.specs.inner.Written.{Waiting, part_values, IsSmallPart, IsValuePushed, ArePushed};
ghost use Rattle.dm_words.specs.inner.Written.{IsItemPushed};
ghost use Rattle.dm_words.specs.inner.Written.{is_empty, run_ends, IsPartWritten};

use crate::c40::set::CodeSet;
use crate::codeword::UNLATCH;
use crate::held::add;
use crate::item::Item;
use crate::limits::LARGEST_ROOM;
use crate::smallest::plan::StepBits;
use crate::smallest::setting::Setting;
use crate::smallest::values::{one_value, values_of};
use dm_layout::symbols::MOST_DATA;
use std::marker::Model;

/// Gives the latch to a set.
fn latch(set: CodeSet) -> u8
    ensures { codeword_of result ≡ Some (Codeword.Latch set) }
{
    match set {
        CodeSet::C40 => 230,
        CodeSet::X12 => 238,
        CodeSet::Text => 239,
    }
}

/// The values of a pair that stand already, at most two.
#[derive(Drop)]
pub struct Part {
    /// How many they are.
    count: u8,
    /// What they make of the pair's number: a value, or 40 times the first and the second.
    number: u16,
}

impl Model for Part {
    ghost use Rattle.std.specs.Prelude.{◌≡◌, ◌≤◌};
    ghost use Rattle.dm_words.specs.inner.Written.{Waiting, waiting_in};

    ghost Value = { Waiting };

    ghost view = { λ p. waiting_in p.count p.number };

    ghost invariant = { λ p. (p.count ≤ 2) × (p.count ≡ 0 → p.number ≡ 0) };
}

impl Part {
    /// Gives no value.
    fn empty() -> Part
        ensures { result ≡ Waiting.Empty }
    {
        Part {
            count: 0,
            number: 0,
        }
    }

    /// Whether no value stands.
    fn is_empty(&self) -> bool
        ensures { result ≡ is_empty self.now }
    {
        self.count == 0
    }
}

/// Adds a value of a run behind those that stand, and gives those that stand then. A whole pair is written.
fn push_value(part: Part, value: u8, words: &mut [u8], held: &mut usize) -> Part
    requires small { value < 40 }
    requires part { IsSmallPart part }
    requires room { held.old + 2 * ((length (part_values part) + 1) / 3) ≤ length words.old }
    ensures pushed { IsValuePushed part (take held.old words.old) value result (take held.new words.new) }
    ensures within { held.new ≤ length words.new }
{
    let number = 40 * part.number + u16::from(value);
    if part.count < 2 {
        return Part {
            count: part.count + 1,
            number,
        };
    }
    add(((number + 1) / 256) as u8, words, held);
    add(((number + 1) % 256) as u8, words, held);
    Part::empty()
}

/// Adds values of a run.
fn push_values(part: Part, values: &[u8], words: &mut [u8], held: &mut usize) -> Part
    requires small { All IsRunValue values.now }
    requires part { IsSmallPart part }
    requires few { length values.now ≤ 4 }
    requires room { held.old + 2 * ((length (part_values part) + length values.now) / 3) ≤ length words.old }
    ensures pushed { ArePushed (take held.old words.old) (part_values part) values.now (take held.new words.new)
        result }
    ensures within { held.new ≤ length words.new }
{
    let mut part = part;
    for value in values {
        part = push_value(part, *value, words, held);
    }
    part
}

/// Adds the values of an item of a run, whatever they are. It stands by itself, so that where an item is one value no
/// list is made.
#[inline(never)]
fn push_spelling(set: CodeSet, item: Item, part: Part, words: &mut [u8], held: &mut usize) -> Part
    requires has { 0 < set_values set item }
    requires part { IsSmallPart part }
    requires room { held.old + 2 * ((length (part_values part) + set_values set item) / 3) ≤ length words.old }
    ensures pushed { IsItemPushed set item part (take held.old words.old) (take held.new words.new) result }
    ensures within { held.new ≤ length words.new }
{
    let values = values_of(set, item);
    push_values(part, &values, words, held)
}

/// Adds the values of an item of a run.
fn push_item(set: CodeSet, item: Item, part: Part, words: &mut [u8], held: &mut usize) -> Part
    requires has { 0 < set_values set item }
    requires part { IsSmallPart part }
    requires room { held.old + 2 * ((length (part_values part) + set_values set item) / 3) ≤ length words.old }
    ensures pushed { IsItemPushed set item part (take held.old words.old) (take held.new words.new) result }
    ensures within { held.new ≤ length words.new }
{
    match one_value(set, item) {
        Some(value) => push_value(part, value, words, held),
        None => push_spelling(set, item, part, words, held),
    }
}

/// Whether a run goes on at a step.
fn goes_on(part: &Part, step: &StepBits, set: CodeSet) -> bool
    ensures { result ≡ not (is_empty part.now && run_ends set (step_in step.now)) }
{
    !(part.is_empty() && step.run_ends(set))
}

/// Writes a run, and gives the index behind it.
#[inline(never)]
pub(crate) fn write_run(
    setting: Setting,
    items: &[Item],
    at: usize,
    set: CodeSet,
    plan: &[StepBits],
    words: &mut [u8],
    held: &mut usize,
) -> usize
    requires at { at < length items.now }
    requires few { length items.now ≤ LARGEST_ROOM }
    requires steps { length items.now < length plan.now }
    requires plan { IsRightPlan setting items.now plan.now }
    requires budget { held.old + 1
        + owed 0 (going_pairs set (going_from setting (drop at items.now))) ≤ length words.old }
    requires short { length words.old ≤ MOST_DATA }
    ensures further { at < result }
    ensures within { result ≤ length items.now }
    ensures budget { held.new + parts_cost setting (drop result items.now) ≤ length words.old }
    ensures part { (any : Extent) → IsPartWritten any (length words.old) (take held.old words.old)
        (take held.new words.new) (take (result - at) (drop at items.now)) }
{
    add(latch(set), words, held);
    // So the other call stands in the loop alone, and is no call.
    let mut part = push_spelling(set, items[at], Part::empty(), words, held);
    let mut next = at + 1;
    while goes_on(&part, &plan[next], set) {
        part = push_item(set, items[next], part, words, held);
        next += 1;
    }
    if words.len() - *held > 1 {
        add(UNLATCH, words, held);
    }
    next
}
