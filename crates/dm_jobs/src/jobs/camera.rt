//! A camera line and a printer's driver: symbols as bytes for modules, one at a time, through the library's calls.

use crate::chance::Chance;
use crate::digest::Digest;
use crate::library::{Caller, SQUARE, exact};
use crate::texts::{Text, digits, scanned, serial};
use ecc200_calls::How;

/// How many squares a round has.
const SQUARES: usize = 10;

/// The rectangles of a round, of ISO/IEC 16022 and of ISO/IEC 21471, and of how many digits or letters their messages
/// are.
const RECTANGLES: [(u16, u16, u32); 5] = [
    (8, 18, 9),
    (8, 32, 18),
    (16, 48, 40),
    (8, 64, 30),
    (20, 44, 38),
];

/// The largest squares, of which a round has one at times.
const LARGEST: [(u16, u16, u32); 3] = [(120, 120, 700), (132, 132, 900), (144, 144, 1100)];

/// Writes the symbols of a round, reads each clean and damaged, and normalises it damaged in another way.
pub(crate) fn round(caller: &mut Caller, chance: &mut Chance, digest: &mut Digest) {
    let mut text = Text::new();
    for _ in 0..SQUARES {
        scanned(&mut text, chance);
        scan(caller, &text, SQUARE, chance, digest);
    }
    for (rows, columns, count) in RECTANGLES {
        if rows == 8 {
            digits(&mut text, count, chance);
        } else {
            serial(&mut text, count, chance);
        }
        scan(caller, &text, exact(rows, columns), chance, digest);
    }
    let (rows, columns, count) = LARGEST[chance.below(3) as usize];
    if chance.happens(20) {
        serial(&mut text, count, chance);
        scan(caller, &text, exact(rows, columns), chance, digest);
    }
}

/// Writes a symbol, reads it clean and with one to three modules wrong, and normalises it with others wrong.
fn scan(caller: &mut Caller, text: &Text, how: How, chance: &mut Chance, digest: &mut Digest) {
    caller.write(text.as_slice(), how, digest);
    caller.read(digest);
    let count = 1 + chance.place(3);
    caller.turn_some(count, chance);
    caller.read(digest);
    let count = 1 + chance.place(3);
    caller.renew();
    caller.turn_some(count, chance);
    caller.normalise(digest);
}
