//! Segments of Base 256 that follow the plan.

ghost use Rattle.std.specs.Prelude.{◌≡◌, ◌+◌, ◌-◌, ◌≤◌, ◌<◌, length, take, drop, false};
ghost use Rattle.dm_words.specs.declared.extent.Extent.{Extent};
ghost use Rattle.dm_words.specs.Messages.{IsMessage};
ghost use Rattle.dm_words.specs.NormalForm.{has_fnc1, length_numbers};
ghost use Rattle.dm_words.specs.inner.Costs.{never, going_from, parts_cost, segment_cost, IsRightPlan, most_behind};
ghost use Rattle.dm_words.specs.inner.Written.{IsFieldWritten, IsPartWritten};

use crate::base256::{MOST_SHORT, push_length, push_value, write_bytes};
use crate::codeword::BASE256_LATCH;
use crate::held::add;
use crate::item::Item;
use crate::limits::LARGEST_ROOM;
use crate::smallest::plan::StepBits;
use crate::smallest::setting::Setting;
use dm_layout::symbols::MOST_DATA;

/// Gives the index behind a segment whose length is written out, from that of its first byte.
pub(crate) fn segment_end(setting: Setting, items: &[Item], at: usize, plan: &[StepBits]) -> usize
    requires at { at < length items.now }
    requires few { length items.now ≤ LARGEST_ROOM }
    requires steps { length items.now < length plan.now }
    requires plan { IsRightPlan setting items.now plan.now }
    requires behind { setting.behind ≤ most_behind }
    requires byte { (going_from setting (drop at items.now)).segment.bytes < never }
    ensures further { at < result }
    ensures within { result ≤ length items.now }
    ensures bytes { has_fnc1 (take (result - at) (drop at items.now)) ≡ false }
    ensures cost { let segment = (going_from setting (drop at items.now)).segment in
        segment_cost segment.bytes segment.near
        ≡ 1 + length (length_numbers (result - at)) + (result - at)
        + parts_cost setting (drop result items.now) }
{
    let mut next = at + 1;
    while !plan[next].segment_ends() {
        next += 1;
    }
    next
}

/// Writes the length field of a segment of `count` bytes: 0, for all bytes up to the end of the symbol, where they
/// end there and the count would take two numbers.
fn push_field(count: usize, words: &mut [u8], held: &mut usize)
    requires some { 0 < count }
    requires room { held.old + 1 + count ≤ length words.old }
    requires short { length words.old ≤ MOST_DATA }
    ensures written { IsFieldWritten (length words.old) count (take held.old words.old) (take held.new words.new) }
    ensures within { held.new ≤ length words.new }
{
    if count > MOST_SHORT && *held + 1 + count == words.len() {
        push_value(0, words, held);
    } else {
        push_length(count, words, held);
    }
}

/// Writes a segment of these bytes.
pub(crate) fn write_segment(items: &[Item], words: &mut [u8], held: &mut usize)
    requires some { 0 < length items.now }
    requires bytes { has_fnc1 items.now ≡ false }
    requires message { IsMessage items.now }
    requires room { held.old + 2 + length items.now ≤ length words.old }
    requires short { length words.old ≤ MOST_DATA }
    ensures fits { held.new ≤ length words.new }
    ensures most { held.new ≤ held.old + 1
        + length (length_numbers (length items.now)) + length items.now }
    ensures part { (extent : Extent) → IsPartWritten extent (length words.old) (take held.old words.old)
        (take held.new words.new) items.now }
{
    add(BASE256_LATCH, words, held);
    push_field(items.len(), words, held);
    write_bytes(items, words, held);
}
