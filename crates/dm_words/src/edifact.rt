//! EDIFACT encodation (ISO/IEC 16022, EDIFACT encodation): four values of 0 to 63 in each group of three codewords,
//! from a latch on to the unlatch or to the last codewords of the symbol.

ghost use Rattle.std.specs.Prelude.{◌≡◌, ℕ, ◌+◌, ◌≤◌, ◌<◌, ◌*◌, ◌∷◌, [], length, take, drop, Ok};
ghost use Rattle.dm_words.specs.inner.Scan.Prefixes.{edifact_byte, edifact_items, edifact_run, group_values};
ghost use Rattle.dm_words.specs.inner.Scan.Results.{HasRoomAt, IsGroupTaken, IsEdifactTaken};

use crate::held::add;
use crate::item::Item;
use dm_layout::symbols::MOST_DATA;

/// The value that ends a run.
const UNLATCH_VALUE: u8 = 31;

/// Gives the character that a value stands for.
fn character(value: u8) -> Item
    requires { value < 64 }
    ensures { result ≡ Item.Byte (edifact_byte value) }
{
    Item::Byte(if value < UNLATCH_VALUE {
        value + 64
    } else {
        value
    })
}

/// Takes a group of three codewords: adds the characters of its values to the message, up to the unlatch. Where there
/// is one, the run ends there, and this gives the number of codewords of the group that belong to the run.
fn group_part(high: u8, middle: u8, low: u8, items: &mut [Item], held: &mut usize) -> Option<usize>
    requires { held.old + 4 ≤ length items.old }
    ensures taken { IsGroupTaken result (take held.old items.old) (take held.new items.new)
        (group_values high middle low) }
    ensures within { held.new ≤ length items.new }
{
    let first = high / 4;
    if first == UNLATCH_VALUE {
        return Some(1);
    }
    add(character(first), items, held);
    let second = high % 4 * 16 + middle / 16;
    if second == UNLATCH_VALUE {
        return Some(2);
    }
    add(character(second), items, held);
    let third = middle % 16 * 4 + low / 64;
    if third == UNLATCH_VALUE {
        return Some(3);
    }
    add(character(third), items, held);
    let fourth = low % 64;
    if fourth == UNLATCH_VALUE {
        return Some(3);
    }
    add(character(fourth), items, held);
    None
}

/// Takes the run whose latch stands at an index: adds its characters to the message, and gives the number of its
/// codewords.
pub(crate) fn edifact_part(words: &[u8], at: usize, items: &mut [Item], held: &mut usize) -> usize
    requires in_range { at < length words.now }
    requires short { length words.now ≤ MOST_DATA }
    requires room { HasRoomAt (length items.old) words.now at held.old }
    ensures taken { IsEdifactTaken result (take held.old items.old) (take held.new items.new)
        (edifact_run (drop (at + 1) words.now)) }
    ensures within { held.new ≤ length items.new }
{
    let mut next = at + 1;
    while words.len() - next > 2 {
        if let Some(count) = group_part(
            words[next],
            words[next + 1],
            words[next + 2],
            items,
            held,
        ) {
            return next + count - at;
        }
        next += 3;
    }
    next - at
}
