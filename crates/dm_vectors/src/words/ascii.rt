//! Messages that are written in ASCII.

use super::*;
use dm_layout::Size;

/// Whether the ASCII codewords of these items, with pads up to the size of this side, are these.
fn writes(row: &(&[Item], u16, &[u8])) -> bool {
    let (items, side, expected) = *row;
    let (Ok(words), Some(size)) = (ascii_words(&of_items(items)), Size::of_side(side)) else {
        return false;
    };
    words.len() <= usize::from(size.data_count()) && padded(&words, size).as_slice() == expected
}

/// Items, the side of a symbol, and its data codewords in ASCII.
static WRITTEN: [(&[Item], u16, &[u8]); 9] = [
    (&[], 10, &[129, 175, 70]),
    (&[Item::Byte(b'A')], 10, &[66, 129, 70]),
    (&[Item::Byte(193)], 10, &[235, 66, 129]),
    (&[Item::Byte(128)], 10, &[235, 1, 129]),
    (&[Item::Byte(255)], 10, &[235, 128, 129]),
    (
        &[Item::Byte(b'1'), Item::Byte(b'2'), Item::Byte(b'3')],
        10,
        &[142, 52, 129],
    ),
    (
        &[Item::Fnc1, Item::Byte(b'0'), Item::Byte(b'1')],
        10,
        &[232, 131, 129],
    ),
    (
        &[Item::Byte(b'0'), Item::Fnc1, Item::Byte(b'1')],
        10,
        &[49, 232, 50],
    ),
    (
        &[Item::Byte(b'1'), Item::Byte(b'2')],
        12,
        &[142, 129, 70, 220, 115],
    ),
];

#[test]
fn messages_are_written_in_ascii(rt: HostRuntime) {
    for row in &WRITTEN {
        holds(&rt, writes(row));
    }
}

/// Whether so many contents take as many codewords.
fn takes_one_each(count: usize) -> bool {
    match ascii_words(&of_many(b'A', count)) {
        Ok(words) => words.len() == count && are_all(&words, 66),
        Err(_) => false,
    }
}

#[test]
fn contents_take_a_codeword_each(rt: HostRuntime) {
    holds(
        &rt,
        takes_one_each(204) && takes_one_each(205) && takes_one_each(MOST_GRID_DATA),
    );
    holds(
        &rt,
        ascii_words(&of_many(b'A', MOST_GRID_DATA + 1)).is_err(),
    );
}

#[test]
fn a_full_message_takes_no_item(rt: HostRuntime) {
    let mut full = of_many(b'7', MESSAGE_ROOM);
    holds(&rt, full.push(Item::Fnc1) == Err(Item::Fnc1));
    holds(&rt, full.items().len() == MESSAGE_ROOM);
}
