//! The codewords of a plan, part by part.

ghost use Rattle.std.specs.Prelude.{◌≡◌, ◌+◌, ◌-◌, ◌≤◌, ◌<◌, IsTrue, length, take, drop};
ghost use Rattle.dm_words.specs.declared.extent.Extent.TheVariants.{Usual};
ghost use Rattle.dm_words.specs.Messages.{IsMessage};
ghost use Rattle.dm_words.specs.inner.Costs.{parts_cost, IsRightPlan, most_behind};
ghost use Rattle.dm_words.specs.inner.Signs.{KeepsSign, PassesSign};
ghost use Rattle.dm_words.specs.inner.Written.{IsPartWritten, ArePartsWritten};

use crate::ascii::{digit_pair, unit_of, write_unit};
use crate::held::add;
use crate::item::{Item, byte};
use crate::limits::LARGEST_ROOM;
use crate::smallest::edifact::write_edifact;
use crate::smallest::plan::{Begin, StepBits};
use crate::smallest::run::write_run;
use crate::smallest::segment::{segment_end, write_segment};
use crate::smallest::setting::Setting;
use dm_layout::symbols::MOST_DATA;

/// What is known of a part that was written.
#[derive(Clone, Copy)]
struct Written {
    /// The index behind its items.
    next: usize,
    /// Whether the usual extent has it too.
    is_usual: bool,
}

/// Writes the part that begins at an item.
fn write_part(
    setting: Setting,
    items: &[Item],
    at: usize,
    plan: &[StepBits],
    words: &mut [u8],
    held: &mut usize,
) -> Written
    requires at { at < length items.now }
    requires few { length items.now ≤ LARGEST_ROOM }
    requires message { IsMessage items.now }
    requires steps { length items.now < length plan.now }
    requires behind { setting.behind ≤ most_behind }
    requires plan { IsRightPlan setting items.now plan.now }
    requires budget { held.old + parts_cost setting (drop at items.now) ≤ length words.old }
    requires short { length words.old ≤ MOST_DATA }
    ensures further { at < result.next }
    ensures within { result.next ≤ length items.now }
    ensures budget { held.new + parts_cost setting (drop result.next items.now)
        ≤ length words.old }
    ensures part { IsPartWritten setting.extent (length words.old) (take held.old words.old)
        (take held.new words.new) (take (result.next - at) (drop at items.now)) }
    ensures usual { IsTrue result.is_usual
        → IsPartWritten Usual (length words.old) (take held.old words.old)
        (take held.new words.new) (take (result.next - at) (drop at items.now)) }
    ensures sign { PassesSign (take held.old words.old) (take held.new words.new) (drop at items.now)
        (drop result.next items.now) }
{
    match plan[at].begin() {
        Begin::One => {
            let _one = write_unit(unit_of(items[at]), words, held);
            Written {
                next: at + 1,
                is_usual: true,
            }
        }
        Begin::Two => {
            add(
                digit_pair(byte(items[at]), byte(items[at + 1])),
                words,
                held,
            );
            Written {
                next: at + 2,
                is_usual: true,
            }
        }
        Begin::Run(set) => Written {
            next: write_run(setting, items, at, set, plan, words, held),
            is_usual: true,
        },
        Begin::Edifact => Written {
            next: write_edifact(setting, items, at, plan, words, held),
            is_usual: false,
        },
        Begin::Segment => {
            let end = segment_end(setting, items, at, plan);
            write_segment(&items[at..end], words, held);
            Written {
                next: end,
                is_usual: true,
            }
        }
        Begin::Rest => {
            write_segment(&items[at..], words, held);
            Written {
                next: items.len(),
                is_usual: true,
            }
        }
    }
}

/// Writes the parts of a plan behind the words that stand there, and says whether the usual extent has them all.
pub(crate) fn write_parts(
    setting: Setting,
    items: &[Item],
    plan: &[StepBits],
    words: &mut [u8],
    held: &mut usize,
) -> bool
    requires few { length items.now ≤ LARGEST_ROOM }
    requires message { IsMessage items.now }
    requires steps { length items.now < length plan.now }
    requires behind { setting.behind ≤ most_behind }
    requires plan { IsRightPlan setting items.now plan.now }
    requires budget { held.old + parts_cost setting items.now ≤ length words.old }
    requires short { length words.old ≤ MOST_DATA }
    ensures parts { ArePartsWritten setting.extent (length words.old) (take held.old words.old)
        (take held.new words.new) items.now }
    ensures usual { IsTrue result → ArePartsWritten Usual (length words.old) (take held.old words.old)
        (take held.new words.new) items.now }
    ensures fits { held.new + setting.behind ≤ length words.old }
    ensures sign { KeepsSign (take held.old words.old) (take held.new words.new) items.now }
{
    let mut are_usual = true;
    let mut at = 0;
    while at < items.len() {
        let part = write_part(setting, items, at, plan, words, held);
        are_usual &= part.is_usual;
        at = part.next;
    }
    are_usual
}
