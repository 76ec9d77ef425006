//! What marks say: made texts of the shapes that users have.

use crate::chance::Chance;
use arrayvec::ArrayVec;

/// The most items of a text here.
pub(crate) const MOST_TEXT: usize = 1600;

/// The number that stands for FNC1 among bytes.
pub(crate) const FNC1: u16 = 256;

/// The items of a text, a byte or FNC1 each.
pub(crate) type Text = ArrayVec<u16, MOST_TEXT>;

const DIGITS: &[u8] = b"0123456789";

const CAPITALS: &[u8] = b"ABCDEFGHIJKLMNOPQRSTUVWXYZ";

const SERIAL: &[u8] = b"0123456789ABCDEFGHJKLMNPQRSTUVWXYZ";

const WORDS: [&[u8]; 24] = [
    b"the",
    b"of",
    b"to",
    b"part",
    b"Number",
    b"is",
    b"valve",
    b"returned",
    b"order",
    b"with",
    b"a",
    b"Delivery",
    b"for",
    b"motor",
    b"and",
    b"Store",
    b"batch",
    b"see",
    b"page",
    b"12",
    b"in",
    b"2026",
    b"which",
    b"sealed",
];

/// Gives the byte of an item, or None for FNC1.
pub(crate) fn byte_of(item: u16) -> Option<u8> {
    u8::try_from(item).ok()
}

/// Adds an item, as long as there is room.
fn add(text: &mut Text, item: u16) {
    let _room = text.try_push(item);
}

/// Adds bytes.
fn add_all(text: &mut Text, bytes: &[u8]) {
    for byte in bytes {
        add(text, u16::from(*byte));
    }
}

/// Adds so many characters of a set.
fn add_some(text: &mut Text, count: u32, set: &[u8], chance: &mut Chance) {
    for _ in 0..count {
        let at = chance.place(set.len());
        add(text, set.get(at).copied().map_or(0, u16::from));
    }
}

/// Adds a date as GS1 has it: the last two digits of the year, month and day.
fn add_date(text: &mut Text, chance: &mut Chance) {
    add_all(text, b"2");
    add_some(text, 1, b"56789", chance);
    add_all(text, b"0");
    add_some(text, 1, b"123456789", chance);
    add_some(text, 1, b"12", chance);
    add_some(text, 1, DIGITS, chance);
}

/// The element string of a medicine: article number, serial number, date, batch.
fn medicine(text: &mut Text, chance: &mut Chance) {
    add(text, FNC1);
    add_all(text, b"010");
    add_some(text, 13, DIGITS, chance);
    add_all(text, b"21");
    let count = 8 + chance.below(7);
    add_some(text, count, SERIAL, chance);
    add(text, FNC1);
    add_all(text, b"17");
    add_date(text, chance);
    add_all(text, b"10");
    let count = 4 + chance.below(5);
    add_some(text, count, SERIAL, chance);
}

/// The number of a part or a board: letters and digits.
fn part(text: &mut Text, chance: &mut Chance) {
    let letters = 1 + chance.below(4);
    add_some(text, letters, CAPITALS, chance);
    let count = 5 + chance.below(16);
    add_some(
        text,
        count,
        if chance.happens(60) { DIGITS } else { SERIAL },
        chance,
    );
}

/// Words of a letter or a document, of about so many characters.
fn words(text: &mut Text, count: u32, chance: &mut Chance) {
    for _ in 0..count / 6 {
        let at = chance.place(WORDS.len());
        add_all(text, WORDS.get(at).copied().unwrap_or(b"and"));
        add_all(text, if chance.happens(8) { b", " } else { b" " });
    }
    add_some(text, count % 6, SERIAL, chance);
}

/// A parts label of ISO/IEC 15434, format 06: part, supplier, serial number.
fn parts_label(text: &mut Text, chance: &mut Chance) {
    add_all(text, b"[)>\x1e06\x1dP");
    let count = 6 + chance.below(10);
    add_some(text, count, SERIAL, chance);
    add_all(text, b"\x1dV");
    add_some(text, 6, DIGITS, chance);
    if chance.happens(60) {
        add_all(text, b"\x1dS");
        let count = 5 + chance.below(12);
        add_some(text, count, SERIAL, chance);
    }
    add_all(text, b"\x1e\x04");
}

/// Becomes what a mark of a day's scans says: four of ten are medicines, four parts and boards, the rest letters of 40
/// to 60 characters and, one in twenty of all, documents of 100 to 500.
pub(crate) fn scanned(text: &mut Text, chance: &mut Chance) {
    text.clear();
    match chance.below(100) {
        0..=39 => medicine(text, chance),
        40..=79 => part(text, chance),
        80..=94 => words(text, 40 + chance.below(21), chance),
        _ => words(text, 100 + chance.below(401), chance),
    }
}

/// Becomes what a label says: serial numbers, element strings, parts labels, now and then a text of 200 to 1,500.
pub(crate) fn labelled(text: &mut Text, chance: &mut Chance) {
    text.clear();
    match chance.below(100) {
        0..=24 => part(text, chance),
        25..=54 => medicine(text, chance),
        55..=94 => parts_label(text, chance),
        _ => words(text, 200 + chance.below(1301), chance),
    }
}

/// Becomes a text of letters and digits that has so many items.
pub(crate) fn serial(text: &mut Text, count: u32, chance: &mut Chance) {
    text.clear();
    add_some(text, count, SERIAL, chance);
}

/// Becomes a text of so many digits.
pub(crate) fn digits(text: &mut Text, count: u32, chance: &mut Chance) {
    text.clear();
    add_some(text, count, DIGITS, chance);
}
