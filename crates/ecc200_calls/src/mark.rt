//! Marks as numbers.

ghost use Rattle.std.specs.Prelude.{◌≡◌, ◌≤◌, IfNone, IfSome, length, map, take};
ghost use Rattle.dm_words.specs.Contents.{AreMarks};
ghost use Rattle.ecc200_calls.specs.Arrays.{over};
ghost use Rattle.ecc200_calls.specs.Contents.{IsFirstWrong, mark_shown, marks_of};

use dm_symbol::Mark;
use dm_words::{LARGEST_ROOM, MOST_ASSIGNED};

/// A mark as numbers: that of an ECI assignment, 0 to 999999, and how many items stand before it.
#[repr(C)]
#[derive(Clone, Copy)]
pub struct MarkNumbers {
    pub number: u32,
    pub place: u32,
}

/// What stands in room for marks before they are put there.
pub(crate) const NO_MARK: Mark = Mark {
    place: 0,
    number: 0,
};

/// Gives the numbers of a mark.
fn mark_shown(mark: Mark) -> MarkNumbers
    ensures { result ≡ mark_shown mark }
{
    MarkNumbers {
        number: mark.number,
        place: u32::from(mark.place),
    }
}

/// Writes the marks of numbers over the first ones, none of which stands behind more items than this.
#[tactic(auto, using(crate::proofs::ContentNumbers::next_within))]
pub(crate) fn put_marks_of(all: &mut [Mark], marks: &[MarkNumbers], count: usize)
    requires in_order { AreMarks 0 count (marks_of marks.now) }
    requires few { count ≤ LARGEST_ROOM }
    requires room { length marks.now ≤ length all.old }
    ensures marks { take (length marks.now) all.new ≡ marks_of marks.now }
    ensures room { length all.new ≡ length all.old }
{
    for (i, mark) in marks.iter().enumerate() {
        all[i] = Mark {
            place: mark.place as u16,
            number: mark.number,
        };
    }
}

/// Writes the numbers of marks over the first ones.
pub(crate) fn put_marks(all: &mut [MarkNumbers], marks: &[Mark])
    requires { length marks.now ≤ length all.old }
    ensures { all.new ≡ over (map mark_shown marks.now) all.old }
{
    for (i, mark) in marks.iter().enumerate() {
        all[i] = mark_shown(*mark);
    }
}

/// Gives the index of the first of the marks of so many items that is wrong: it stands before the place of an earlier
/// one or behind more items than there are, or its number is that of no assignment.
#[tactic(auto, using(crate::proofs::ContentNumbers::all_right))]
pub(crate) fn first_wrong(count: usize, marks: &[MarkNumbers]) -> Option<usize>
    ensures some { IfSome result (λ place. IsFirstWrong count marks.now place) }
    ensures none { IfNone result (AreMarks 0 count (marks_of marks.now)) }
{
    let mut least = 0;
    for (i, mark) in marks.iter().enumerate() {
        let place = mark.place as usize;
        if place < least || place > count || mark.number > MOST_ASSIGNED {
            return Some(i);
        }
        least = place;
    }
    None
}
