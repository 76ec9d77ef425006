//! Base 256 encodation (ISO/IEC 16022, Base 256 encodation and its 255-state randomising): a latch, a length field and
//! as many bytes as that says.

ghost use Rattle.std.specs.Prelude.{◌≡◌, ℕ, ◌+◌, ◌≤◌, ◌<◌, ◌*◌, ◌∷◌, [], ◌++◌, length, drop, take, map, slice_index};
ghost use Rattle.dm_words.specs.Messages.{byte_of};
ghost use Rattle.dm_words.specs.Base256.{randomised, written};
ghost use Rattle.dm_words.specs.NormalForm.{length_numbers, one_segment};
ghost use Rattle.dm_words.specs.inner.Scan.Prefixes.{byte_items, plain_at, plain, random_at, segment_behind};
ghost use Rattle.dm_words.specs.inner.Scan.Results.{HasRoomAt, IsPartTaken};

use crate::codeword::{BASE256_LATCH, RANDOM_FACTOR};
use crate::fault::WordFault;
use crate::held::add;
use crate::item::{Item, byte};
use crate::limits::LARGEST_ROOM;
use dm_layout::symbols::MOST_DATA;

/// The most bytes whose length is one number.
pub(crate) const MOST_SHORT: usize = 249;

/// Gives the pseudo-random number of a place of the symbol: 1 to 255.
fn random(place: usize) -> u32
    requires { place ≤ MOST_DATA + 1 }
    ensures { result ≡ random_at place }
{
    RANDOM_FACTOR * place as u32 % 255 + 1
}

/// Gives the value that the codeword at an index stands for: the randomising is taken away.
fn plain_value(words: &[u8], index: usize) -> u8
    requires in_range { index < length words.now }
    requires short { length words.now ≤ MOST_DATA }
    ensures { result ≡ plain_at (index + 1) (slice_index words.now index) }
{
    ((words[index] as u32 + 256 - random(index + 1)) % 256) as u8
}

/// Adds the bytes of `count` codewords from an index on to the message.
fn push_bytes(words: &[u8], start: usize, count: usize, items: &mut [Item], held: &mut usize)
    requires in_range { start + count ≤ length words.now }
    requires short { length words.now ≤ MOST_DATA }
    requires room { held.old + count ≤ length items.old }
    ensures added { take held.new items.new
        ≡ take held.old items.old ++ byte_items (take count (plain (start + 1) (drop start words.now))) }
    ensures within { held.new ≤ length items.new }
{
    for i in 0..count {
        add(Item::Byte(plain_value(words, start + i)), items, held);
    }
}

/// Takes the segment whose latch stands at an index: adds its bytes to the message, and gives the number of its
/// codewords.
pub(crate) fn segment_part(
    words: &[u8],
    at: usize,
    items: &mut [Item],
    held: &mut usize,
) -> Result<usize, WordFault>
    requires in_range { at < length words.now }
    requires short { length words.now ≤ MOST_DATA }
    requires room { HasRoomAt (length items.old) words.now at held.old }
    ensures taken { IsPartTaken result (take held.old items.old) (take held.new items.new)
        (segment_behind (at + 1) (plain (at + 2) (drop (at + 1) words.now))) }
    ensures within { held.new ≤ length items.new }
{
    let fault = WordFault::Length(at as u16 + 1);
    let left = words.len() - at - 1;
    if left == 0 {
        return Err(fault);
    }
    let first = plain_value(words, at + 1) as usize;
    if first == 0 {
        push_bytes(words, at + 2, left - 1, items, held);
        return Ok(left + 1);
    }
    if first <= MOST_SHORT {
        if left - 1 < first {
            return Err(fault);
        }
        push_bytes(words, at + 2, first, items, held);
        return Ok(first + 2);
    }
    if left == 1 {
        return Err(fault);
    }
    let second = plain_value(words, at + 2) as usize;
    let count = (MOST_SHORT + 1) * (first - MOST_SHORT) + second;
    if second > MOST_SHORT || left - 2 < count {
        return Err(fault);
    }
    push_bytes(words, at + 3, count, items, held);
    Ok(count + 3)
}

/// Adds a value as the next codeword of a symbol that begins with the words.
pub(crate) fn push_value(value: u8, words: &mut [u8], held: &mut usize)
    requires room { held.old < length words.old }
    requires short { length words.old ≤ MOST_DATA }
    ensures added { take held.new words.new
        ≡ take held.old words.old ++ randomised (held.old + 1) value ∷ [] }
    ensures counted { held.new ≡ held.old + 1 }
{
    let place = *held + 1;
    add(((value as u32 + random(place)) % 256) as u8, words, held);
}

/// Adds the length field for this many bytes: one number up to `MOST_SHORT`, else two.
pub(crate) fn push_length(count: usize, words: &mut [u8], held: &mut usize)
    requires room { held.old + 2 ≤ length words.old }
    requires few { count ≤ MOST_DATA }
    requires short { length words.old ≤ MOST_DATA }
    ensures added { take held.new words.new
        ≡ take held.old words.old ++ written (held.old + 1) (length_numbers count) }
    ensures counted { held.new ≡ held.old + length (length_numbers count) }
{
    if count <= MOST_SHORT {
        push_value(count as u8, words, held);
    } else {
        push_value((MOST_SHORT + count / (MOST_SHORT + 1)) as u8, words, held);
        push_value((count % (MOST_SHORT + 1)) as u8, words, held);
    }
}

/// Gives the number of codewords of one segment of `count` bytes.
pub(crate) fn segment_length(count: usize) -> usize
    requires { count ≤ LARGEST_ROOM }
    ensures { result ≡ 1 + length (length_numbers count) + count }
{
    if count <= MOST_SHORT {
        count + 2
    } else {
        count + 3
    }
}

/// Gives the pseudo-random number of the next place, from that of a place: it rises by the factor, and 1 follows 255.
fn next_random(number: u32) -> u32
    requires { number ≤ 255 }
    ensures next { (place : ℕ) → number ≡ random_at place
        → result ≡ random_at (place + 1) }
    ensures most { result ≤ 255 }
{
    if number <= 255 - RANDOM_FACTOR {
        number + RANDOM_FACTOR
    } else {
        number - (255 - RANDOM_FACTOR)
    }
}

/// Writes the bytes of the items, in one segment whose latch is the first codeword of the symbol, to the beginning of
/// the target.
pub(crate) fn write_segment(items: &[Item], words: &mut [u8])
    requires fits { length (one_segment (map byte_of items.now)) ≤ length words.old }
    requires least { 3 ≤ length words.old }
    requires short { length words.old ≤ MOST_DATA }
    ensures { take (length (one_segment (map byte_of items.now))) words.new
        ≡ one_segment (map byte_of items.now) }
{
    let mut held = 0;
    add(BASE256_LATCH, words, &mut held);
    push_length(items.len(), words, &mut held);
    write_bytes(items, words, &mut held);
}

/// Adds the bytes of the items, as the next codewords of a symbol that begins with the words.
pub(crate) fn write_bytes(items: &[Item], words: &mut [u8], held: &mut usize)
    requires room { held.old + length items.now ≤ length words.old }
    requires short { length words.old ≤ MOST_DATA }
    ensures added { take held.new words.new
        ≡ take held.old words.old ++ written (held.old + 1) (map byte_of items.now) }
    ensures counted { held.new ≡ held.old + length items.now }
{
    let mut number = random(*held + 1);
    for item in items {
        add(((byte(*item) as u32 + number) % 256) as u8, words, held);
        number = next_random(number);
    }
}
