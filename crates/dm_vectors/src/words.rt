//! Codewords and the messages that they spell, or the faults with which they are refused: `dm_words`.

use crate::claims::holds;
use crate::messages::{Codewords, are_all, are_bytes, of_items, of_many};
use arrayvec::ArrayVec;
use dm_words::*;

mod ascii;
mod contents;
mod hostile;
mod lines;
mod shorter;
mod wide;

/// What the codewords spell, and the fault of no codeword where there are too many of them.
fn message(words: &[u8]) -> Result<Message, WordFault> {
    if words.len() > MOST_GRID_DATA {
        return Err(WordFault::LeftOut(0, 0));
    }
    message_of(words)
}

/// Whether the codewords spell these items.
fn spells(words: &[u8], items: &[Item]) -> bool {
    match message(words) {
        Ok(message) => *message.items() == *items,
        Err(_) => false,
    }
}

/// Data codewords and the items that they spell.
static WITH_FNC1: [(&[u8], &[Item]); 3] = [
    (&[230, 10, 135], &[Item::Fnc1, Item::Byte(b'A')]),
    (&[239, 10, 124], &[Item::Fnc1, Item::Byte(b' ')]),
    (
        &[49, 232, 50],
        &[Item::Byte(b'0'), Item::Fnc1, Item::Byte(b'1')],
    ),
];

#[test]
fn reads_fnc1(rt: HostRuntime) {
    for (words, items) in &WITH_FNC1 {
        holds(&rt, spells(words, items));
    }
}

/// Data codewords and the bytes that they spell.
static SPELLED: [&[u8]; 6] = [
    // ASCII.
    b"\
=
1 128 =\x00\x7F
130 229 =0099
235 128 =\xFF
129 0 255 =
142 52 129 =123
142 164 186 =123456
66 129 70 =A
129 175 70 =
66 74 78 =AIM
235 66 129 =\xC1
",
    // Runs of C40, whole ones and those that the end of the symbol or an unlatch ends.
    b"\
230 91 11 =AIM
230 91 11 91 11 91 11 66 =AIMAIMAIMA
230 90 241 =AI
230 91 11 254 66 =AIMA
230 250 0 =ZZZ
230 254 66 =A
230 =
230 254 =
230 129 =
230 91 =Z
230 91 11 91 =AIMZ
230 91 11 230 =AIM
",
    // Runs of C40 with shifts.
    b"\
230 10 255 =\xC1
230 12 183 =aA
230 10 254 =\xB9
230 19 110 = 09
230 0 1 194 60 =\x00\x1F\x20\x20
230 6 66 87 184 9 138 137 195 =!/:@[_
230 12 131 194 60 =`\x7F\x20\x20
",
    // Runs of Text.
    b"\
239 91 11 =aim
239 12 183 =Aa
239 19 110 = 09
239 93 192 =azz
239 0 1 194 60 =\x00\x1F\x20\x20
239 6 66 87 184 9 138 137 195 =!/:@[_
239 10 244 =\xA0
239 12 131 6 171 16 187 194 60 =`AZ{\x7F\x20\x20
",
    // Runs of X12.
    b"\
238 0 43 =\r*>
238 91 11 254 66 =AIMA
238 19 110 = 09
238 93 192 =AZZ
",
    // Segments of Base 256.
    b"\
231 45 65 =\x80
231 44 65 =\x80
66 231 193 =A
231 44 =
",
];

#[test]
fn reads_messages(rt: HostRuntime) {
    for lines in &SPELLED {
        holds(&rt, lines::are_spelled(Extent::Usual, lines));
    }
}

/// Codewords that spell no message, and the fault with which they are refused.
static REFUSED: [(&[u8], WordFault); 59] = [
    // Codewords that are reserved or left out.
    (&[66, 0], WordFault::Reserved(2)),
    (&[242], WordFault::Reserved(1)),
    (&[240, 66, 129], WordFault::LeftOut(240, 1)),
    (&[233], WordFault::LeftOut(233, 1)),
    (&[234], WordFault::LeftOut(234, 1)),
    (&[236], WordFault::LeftOut(236, 1)),
    (&[237], WordFault::LeftOut(237, 1)),
    (&[241], WordFault::LeftOut(241, 1)),
    (&[66, 255], WordFault::Reserved(2)),
    (&[243], WordFault::Reserved(1)),
    (&[244], WordFault::Reserved(1)),
    (&[245], WordFault::Reserved(1)),
    (&[246], WordFault::Reserved(1)),
    (&[247], WordFault::Reserved(1)),
    (&[248], WordFault::Reserved(1)),
    (&[249], WordFault::Reserved(1)),
    (&[250], WordFault::Reserved(1)),
    (&[251], WordFault::Reserved(1)),
    (&[252], WordFault::Reserved(1)),
    (&[253], WordFault::Reserved(1)),
    (&[254], WordFault::Reserved(1)),
    (&[255], WordFault::Reserved(1)),
    // Codewords whose Upper Shift has no character.
    (&[235], WordFault::Unfinished(1)),
    (&[66, 66, 235], WordFault::Unfinished(3)),
    (&[235, 130, 129], WordFault::UpperShift(1)),
    (&[230, 10, 242, 169, 60], WordFault::UpperShift(2)),
    (&[230, 87, 199], WordFault::Unfinished(2)),
    (&[230, 10, 241], WordFault::Unfinished(2)),
    (&[239, 235], WordFault::Unfinished(2)),
    (&[230, 10, 242, 187, 252], WordFault::UpperShift(2)),
    (&[230, 19, 58, 187, 199], WordFault::UpperShift(4)),
    // Codewords with a pair whose number is no triplet.
    (&[230, 250, 1], WordFault::Triplet(2)),
    (&[230, 0, 0], WordFault::Triplet(2)),
    (&[230, 87, 199, 0, 0], WordFault::Triplet(4)),
    (&[238, 0, 0], WordFault::Triplet(2)),
    // Codewords with a shift before a value without meaning.
    (&[230, 10, 161], WordFault::Value(2)),
    (&[230, 10, 161, 0, 0], WordFault::Value(2)),
    (&[230, 5, 4], WordFault::Value(2)),
    (&[239, 5, 4], WordFault::Value(2)),
    (&[230, 10, 204], WordFault::Value(2)),
    (&[230, 11, 28], WordFault::Value(2)),
    (&[230, 11, 68], WordFault::Value(2)),
    (&[239, 10, 164], WordFault::Value(2)),
    (&[239, 10, 204], WordFault::Value(2)),
    (&[239, 11, 28], WordFault::Value(2)),
    (&[239, 11, 68], WordFault::Value(2)),
    (&[230, 17, 132], WordFault::Value(2)),
    (&[239, 17, 132], WordFault::Value(2)),
    (&[230, 10, 242, 175, 124], WordFault::Value(4)),
    // Codewords of a segment whose length is missing or too long.
    (&[231, 47, 65], WordFault::Length(1)),
    (&[66, 66, 231], WordFault::Length(3)),
    (&[230, 91, 11, 231], WordFault::Length(4)),
    (&[231], WordFault::Length(1)),
    (&[231, 45], WordFault::Length(1)),
    (&[231, 37], WordFault::Length(1)),
    (&[231, 38], WordFault::Length(1)),
    (&[231, 38, 193], WordFault::Length(1)),
    (&[231, 38, 194, 92], WordFault::Length(1)),
    (&[231, 39, 193, 92], WordFault::Length(1)),
];

/// Whether the codewords of each row are refused with its fault.
fn all_are_refused(rows: &[(&[u8], WordFault)]) -> bool {
    for (words, fault) in rows {
        if message(words).err() != Some(*fault) {
            return false;
        }
    }
    true
}

#[test]
fn refuses_what_spells_no_message(rt: HostRuntime) {
    holds(&rt, all_are_refused(&REFUSED));
}
