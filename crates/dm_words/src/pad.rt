//! Pads (ISO/IEC 16022, pad character).

ghost use Rattle.std.specs.Prelude.{◌≡◌, ◌≤◌, length, take};
ghost use Rattle.dm_words.specs.Pads.{padded, pad_at};

use crate::codeword::{FIRST_PAD, RANDOM_FACTOR};
use crate::held::{add, list_of};
use arrayvec::ArrayVec;
use dm_layout::symbols::MOST_DATA;
use dm_layout::{MOST_GRID_DATA, Size};

/// Gives the pad at a place, where it isn't the first of the symbol.
fn pad_word(place: u16) -> u8
    requires { place ≤ MOST_DATA }
    ensures { result ≡ pad_at place }
{
    let number = FIRST_PAD as u32 + (RANDOM_FACTOR * place as u32) % 253 + 1;
    if number <= 254 {
        number as u8
    } else {
        (number - 254) as u8
    }
}

/// Gives the words, followed by pads up to the data codewords of the size: the first pad is 129, each further one is
/// randomised by its place. The words are those of a message, at most as many as the size has data codewords.
pub fn padded(words: &[u8], size: Size) -> ArrayVec<u8, MOST_GRID_DATA>
    requires { length words.now ≤ size.data_count }
    ensures words { result.items ≡ padded words.now size.data_count }
    ensures count { length result.items ≡ size.data_count }
{
    let mut all = [0; MOST_GRID_DATA];
    let data = &mut all[..usize::from(size.data_count())];
    data[..words.len()].copy_from_slice(words);
    add_pads(data, words.len());
    list_of(data)
}

/// Adds pads to the first `held` codewords of a list, those of a message, up to its end: the first pad is 129, each
/// further one is randomised by its place.
pub fn add_pads(words: &mut [u8], held: usize)
    requires fits { held ≤ length words.old }
    requires most { length words.old ≤ MOST_DATA }
    ensures { words.new ≡ padded (take held words.old) (length words.old) }
{
    let mut held = held;
    if held < words.len() {
        add(FIRST_PAD, words, &mut held);
        while held < words.len() {
            add(pad_word(held as u16 + 1), words, &mut held);
        }
    }
}
