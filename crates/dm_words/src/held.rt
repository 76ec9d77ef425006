//! Lists with room for more than they hold.

ghost use Rattle.std.specs.Prelude.{◌≡◌, ◌<◌, ◌≤◌, ◌+◌, ◌++◌, ◌∷◌, [], length, take};

use arrayvec::ArrayVec;
use dm_layout::MOST_GRID_DATA;

/// Adds a value behind the `held` ones that a list holds.
#[inline(always)]
pub(crate) fn add<T: Copy>(value: T, list: &mut [T], held: &mut usize)
    requires { held.old < length list.old }
    ensures added { take held.new list.new ≡ take held.old list.old ++ value ∷ [] }
    ensures counted { held.new ≡ held.old + 1 }
{
    list[*held] = value;
    *held += 1;
}

/// Adds codewords behind the `held` ones that a list holds.
pub(crate) fn add_words(more: &[u8], words: &mut [u8], held: &mut usize)
    requires { held.old + length more.now ≤ length words.old }
    ensures added { take held.new words.new ≡ take held.old words.old ++ more.now }
    ensures counted { held.new ≡ held.old + length more.now }
{
    let end = *held + more.len();
    words[*held..end].copy_from_slice(more);
    *held = end;
}

/// Gives codewords as a list.
pub(crate) fn list_of(words: &[u8]) -> ArrayVec<u8, MOST_GRID_DATA>
    requires { length words.now ≤ MOST_GRID_DATA }
    ensures { result.items ≡ words.now }
{
    let mut list = ArrayVec::new();
    let _room = list.try_extend_from_slice(words);
    list
}
