//! Runs of EDIFACT that follow the plan.

ghost use Rattle.std.specs.Prelude.{◌≡◌, ◌+◌, ◌-◌, ◌≤◌, ◌<◌, not, length, take, drop};
ghost use Rattle.dm_words.specs.inner.Costs.{step_in, going_from, parts_cost, IsRightPlan};
ghost use Rattle.dm_words.specs.inner.Written.{IsSmallGroup, waiting_values, whole_words, IsGroupPushed, group_stops};
ghost use Rattle.dm_words.specs.inner.Written.{IsEdifactEnded, IsPartWritten};

use crate::held::add;
use crate::item::{Item, byte};
use crate::limits::LARGEST_ROOM;
use crate::smallest::plan::StepBits;
use crate::smallest::setting::Setting;
use dm_layout::symbols::MOST_DATA;

/// The latch to EDIFACT.
const LATCH: u8 = 240;

/// The value that ends a run.
const UNLATCH_VALUE: u8 = 31;

/// The values of a group that stand already.
#[derive(Clone, Copy)]
pub enum Group {
    /// None.
    Empty,
    /// One value.
    One(u8),
    /// Two values.
    Two(u8, u8),
    /// Three values.
    Three(u8, u8, u8),
}

/// Adds a value of a run behind those that stand, and gives those that stand then. A whole group is written.
fn push_value(group: Group, value: u8, words: &mut [u8], held: &mut usize) -> Group
    requires small { value < 64 }
    requires group { IsSmallGroup group }
    requires room { held.old + whole_words group ≤ length words.old }
    ensures pushed { IsGroupPushed group (take held.old words.old) value result (take held.new words.new) }
    ensures within { held.new ≤ length words.new }
{
    match group {
        Group::Empty => Group::One(value),
        Group::One(first) => Group::Two(first, value),
        Group::Two(first, second) => Group::Three(first, second, value),
        Group::Three(first, second, third) => {
            add(4 * first + second / 16, words, held);
            add(second % 16 * 16 + third / 4, words, held);
            add(third % 4 * 64 + value, words, held);
            Group::Empty
        }
    }
}

/// Whether a run goes on at a step.
fn goes_on(group: Group, step: &StepBits) -> bool
    ensures { result ≡ not (group_stops group (step_in step.now)) }
{
    match group {
        Group::Empty => !step.edifact_ends(),
        Group::Three(_, _, _) => !step.group_ends(),
        _ => true,
    }
}

/// Ends a run: with an unlatch as the fourth value of a group, or by itself where more than two codewords are left.
fn end_run(group: Group, words: &mut [u8], held: &mut usize)
    requires group { IsSmallGroup group }
    requires room { held.old + length (waiting_values group) ≤ length words.old }
    ensures ended { IsEdifactEnded group (length words.old) (take held.old words.old) (take held.new words.new) }
    ensures within { held.new ≤ length words.new }
{
    if let Group::Empty = group {
        if words.len() - *held > 2 {
            add(4 * UNLATCH_VALUE, words, held);
        }
    } else {
        let _whole = push_value(group, UNLATCH_VALUE, words, held);
    }
}

/// Writes a run, and gives the index behind it.
pub(crate) fn write_edifact(
    setting: Setting,
    items: &[Item],
    at: usize,
    plan: &[StepBits],
    words: &mut [u8],
    held: &mut usize,
) -> usize
    requires at { at < length items.now }
    requires few { length items.now ≤ LARGEST_ROOM }
    requires steps { length items.now < length plan.now }
    requires plan { IsRightPlan setting items.now plan.now }
    requires budget { held.old + 1
        + (going_from setting (drop at items.now)).edifact.none ≤ length words.old }
    requires short { length words.old ≤ MOST_DATA }
    ensures further { at < result }
    ensures within { result ≤ length items.now }
    ensures budget { held.new + parts_cost setting (drop result items.now) ≤ length words.old }
    ensures part { IsPartWritten setting.extent (length words.old) (take held.old words.old)
        (take held.new words.new) (take (result - at) (drop at items.now)) }
{
    add(LATCH, words, held);
    let mut group = push_value(Group::Empty, byte(items[at]) % 64, words, held);
    let mut next = at + 1;
    while goes_on(group, &plan[next]) {
        group = push_value(group, byte(items[next]) % 64, words, held);
        next += 1;
    }
    end_run(group, words, held);
    next
}
