//! Marks: ECI assignments at places of the items.

ghost use Rattle.std.specs.Prelude.{◌≡◌, ◌<◌, ◌≤◌, ◌++◌, ◌∷◌, [], length, take};

use crate::held::add;
use crate::item::Item;
use crate::limits::LARGEST_ROOM;

/// An ECI assignment (ISO/IEC 16022, ECI encodation), which holds from its place on. There is a default since
/// `ArrayVec` asks for one.
#[derive(Clone, Copy, Debug, Default, PartialEq, Eq)]
pub struct Mark {
    /// How many items of the content stand before it; of a designator, how many codewords before its ECI.
    pub place: u16,
    /// The number of the assignment: 0 to 999999.
    pub number: u32,
}

/// Adds a mark behind these items to a list that holds so many.
pub(crate) fn add_mark(number: u32, items: &[Item], marks: &mut [Mark], marked: &mut usize)
    requires most { length items.now ≤ LARGEST_ROOM }
    requires room { marked.old < length marks.old }
    ensures added { take marked.new marks.new ≡ take marked.old marks.old
        ++ record { place = length items.now; number = number } ∷ [] }
    ensures within { marked.new ≤ length marks.new }
{
    let place = items.len() as u16;
    add(Mark { place, number }, marks, marked);
}
